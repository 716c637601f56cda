//! What arms do with objects that come with exceptions: those of type any, and those that are signalled on.

/// How many rows `ARM_FILES` has besides comments.
pub const ARM_FILES_COUNT: usize = 11;

/// Rows as those of `status_rows`.
pub const ARM_FILES: &str = "\
    go a b\t\t\tshow = proc (x: any) @#force[int](x))) except when wrong_type: @force[string](x)) except when \
    wrong_type: if force[bool](x) then @\"true\") end except when wrong_type: @\"other\") end end end end show p = \
    proc (k: int) signals (a(int), b(string), c(bool), d(char), e(array[int])) if k = 0 then signal a(7) elseif k = \
    1 then signal b(\"s\") elseif k = 2 then signal c(true) elseif k = 3 then signal d('x') end signal \
    e(array[int]$[1]) end p start_up = proc () k: int := 0 while k < 5 do begin p(k) p(k) end except when a, b, c, \
    d, e (x: any): show(x) end k := k + 1 end end start_up\tgives 0\t7\ns\ntrue\nother\nother\n\t\0\
    go a b\t\t\tshow = proc (x: any) @#force[int](x))) except when wrong_type: @force[string](x)) except when \
    wrong_type: if force[bool](x) then @\"true\") end except when wrong_type: @\"other\") end end end end show p = \
    proc (k: int) signals (e(int, string, string), f(string, string, any)) if k = 0 then signal e(1, \"b\", \"c\") \
    end signal f(\"d\", \"e\", 2) end p start_up = proc () k: int := 0 while k < 2 do p(k) except when e, f (x: any, \
    y: string, z: any): show(x) @y) show(z) end k := k + 1 end end start_up\tgives 0\t1\nb\nc\nd\ne\n2\n\t\0\
    go a b\t\t\tshow = proc (x: any) @#force[int](x))) except when wrong_type: @force[string](x)) except when \
    wrong_type: if force[bool](x) then @\"true\") end except when wrong_type: @\"other\") end end end end show p = \
    proc (k: int) signals (e(int), f(string, int)) if k = 0 then signal e(3) end signal f(\"s\", 4) end p q = proc \
    (k: int) signals (e(any), f(string, any)) p(k) resignal e, f end q r = proc (k: int) signals (e(any), f(string, \
    any)) q(k) resignal e, f end r t = proc () signals (e(any)) begin p(1) except when f (x: string, y: int): p(0) \
    end end resignal e end t start_up = proc () k: int := 0 while k < 2 do r(k) except when e (x: any): show(x) when \
    f (x: string, y: any): @x) show(y) end k := k + 1 end t() except when f, e (x: any): show(x) end end \
    start_up\tgives 0\t3\ns\n4\n3\n\t\0\
    go a b\t\t\tshow = proc (x: any) @#force[int](x))) except when wrong_type: @force[string](x)) except when \
    wrong_type: if force[bool](x) then @\"true\") end except when wrong_type: @\"other\") end end end end show \
    start_up = proc () begin k: int := 1 v: any := \"v\" begin if k = 1 then exit e(k, v, \"w\") end end end except \
    when e (x, y, z: any): show(x) show(y) show(z) end end start_up\tgives 0\t1\nv\nw\n\t\0\
    go a b\t\t\tshow = proc (x: any) @#force[int](x))) except when wrong_type: @force[string](x)) except when \
    wrong_type: if force[bool](x) then @\"true\") end except when wrong_type: @\"other\") end end end end show \
    start_up = proc () c: char := stream$getc(stream$primary_output()) except when not_possible (x: any): show(x) \
    end stream$puts(stream$primary_input(), \"a\") except when not_possible, failure (x: any): show(x) end end \
    start_up\tgives 0\tcannot read\ncannot write\n\t\0\
    go a b\t\t\tshow = proc (x: any) @#force[int](x))) except when wrong_type: @force[string](x)) except when \
    wrong_type: if force[bool](x) then @\"true\") end except when wrong_type: @\"other\") end end end end show c = \
    cluster is make, bad, get rep = record[v: int] make = proc (n: int) returns (cvt) return (rep${v: n}) end make \
    bad = proc (x: cvt) signals (e(cvt, int)) signal e(x, x.v) end bad get = proc (x: cvt) returns (int) return \
    (x.v) end get end c back = proc [t: type] (v: t) where t has bad: proctype (t) signals (e(t, int)) t$bad(v) \
    except when e (x: any, n: int): w: t := force[t](x) @\"back\") end end back start_up = proc () c$bad(c$make(5)) \
    except when e (x, n: any): @#c$get(force[c](x)))) show(n) end back[c](c$make(1)) end start_up\tgives \
    0\t5\n5\nback\n\t\0\
    go a b\t\t\tshow = proc (x: any) @#force[int](x))) except when wrong_type: @force[string](x)) except when \
    wrong_type: if force[bool](x) then @\"true\") end except when wrong_type: @\"other\") end end end end show p = \
    proc (k: int) signals (e(int)) if k = 0 then signal e(1) elseif k = 1 then signal failure(\"f\") end z: int := 1 \
    / (k - 2) end p start_up = proc () k: int := 0 while k < 3 do p(k) except when e, failure (x: any): show(x) end \
    k := k + 1 end end start_up\tgives 0\t1\nf\nunhandled exception: zero_divide\n\t\0\
    go a b\t\t\tshow = proc (x: any) @#force[int](x))) except when wrong_type: @force[string](x)) except when \
    wrong_type: if force[bool](x) then @\"true\") end except when wrong_type: @\"other\") end end end end show g = \
    proc [t: type] (v: t) signals (e(t, array[t])) signal e(v, array[t]$[v]) end g start_up = proc () g[int](4) \
    except when e (x, y: any): show(x) @#force[array[int]](y)[1])) end g[any](\"z\") except when e (x, y: any): \
    show(x) show(force[array[any]](y)[1]) end end start_up\tgives 0\t4\n4\nz\nz\n\t\0\
    go a b\t\t\tshow = proc (x: any) @#force[int](x))) except when wrong_type: @force[string](x)) except when \
    wrong_type: if force[bool](x) then @\"true\") end except when wrong_type: @\"other\") end end end end show q = \
    proc (i: int) signals (e(int)) if i = 2 then signal e(i) end end q p = proc () signals (e(int)) for i: int in \
    int$from_to(1, 3) do @#i)) q(i) resignal e end end p it = iter () yields (int) signals (e(any)) yield (2) p() \
    resignal e end it start_up = proc () p() except when e (x: int): @#x)) end for i: int in it() do @#i)) end \
    except when e (x: any): show(x) end end start_up\tgives 0\t1\n2\n2\n2\n1\n2\n2\n\t\0\
    go a b\t\t\tu = proc () begin z: int @#z)) end resignal failure end u g = proc () signal failure(\"g\") end g h \
    = proc () g() resignal failure end h start_up = proc () u() except when failure (x: string): @x) end h() except \
    when failure (x: string): @x) end end start_up\tgives 0\tuninitialized variable\ng\n\t\0\
    go a b\t\t\tp = proc () signals (e(int)) signal e(1) end p q = proc () signals (e(any)) p() resignal e end q \
    start_up = proc () q() end start_up\tgives 1\t\tfailure: unhandled exception: e\n\0\
";
