//! What `go` makes of whole files with data, clusters, own variables and exceptions, and what the programs do.

/// How many rows `DATA_FILES` has besides comments.
pub const DATA_FILES_COUNT: usize = 17;

/// Rows as those of `status_rows`.
pub const DATA_FILES: &str = "\
    go a b\t\t\tp = proc () signals (e) begin signal e end except when e: @\"inside\") end end p start_up = proc () \
    p() except when e: @\"outside\") end end start_up\tgives 0\toutside\n\t\0\
    go a b\t\t\tbox = cluster is make rep = array[int] make = proc () returns (cvt) return (rep$new()) end make end \
    box start_up = proc () v: any := box$make() begin a: array[int] := force[array[int]](v) end except when \
    wrong_type: @\"wrong_type\") end end start_up\tgives 0\twrong_type\n\t\0\
    go a b\t\t\tc = cluster is get rep = null own n: int := c$get() get = proc () returns (int) return (n) end get \
    end c start_up = proc () @#c$get())) end start_up\tgives 1\t\tfailure: uninitialized variable\n\0\
    go a b\t\t\tstart_up = proc () a: array[int] := array[int]$new() array[int]$addl(a, 7) @#array[int]$low(a))) \
    @#a[1])) except when bounds: @\"bounds\") end end start_up\tgives 0\t0\nbounds\n\t\0\
    go --store 65536 a b\t\t\tstart_up = proc () @\"go\") a: array[int] := array[int]$new() while true do \
    array[int]$addh(a, 1) end end start_up\tgives 3\tgo\n\tstore full\n\0\
    go a b\t\t\tstart_up = proc () @\"a\") @stream$getl(stream$primary_input())) end start_up\tgives \
    1\ta\n\tfailure: unhandled exception: end_of_file\n\0\
    go a b\t\t\tstart_up = proc () @string$substr(\"abcdef\", 3, 2)) a: any := 3 @#force[int](a))) end \
    start_up\tgives 0\tcd\n3\n\t\0\
    go a b\t\t\tstart_up = proc () pt = struct[x, y: int] if pt${x: 1, y: 2} = pt${y: 2, x: 1} then @\"same\") end \
    end start_up\tgives 0\tsame\n\t\0\
    go a b\t\t\tnext = proc () returns (int) own n: int := 40 n := n + 1 return (n) end next start_up = proc () \
    @#next())) @#next())) end start_up\tgives 0\t41\n42\n\t\0\
    go a b\t\t\tp = proc () signals (e(int)) signal e(7) end p q = proc () signals (e(int)) p() resignal e end q \
    start_up = proc () q() except when e (n: int): @#n)) others: @\"other\") end end start_up\tgives 0\t7\n\t\0\
    go a b\t\t\tstart_up = proc () begin exit done(3) end except when done (n: int): @#n)) end end start_up\tgives \
    0\t3\n\t\0\
    go a b\t\t\tstart_up = proc () x: int := 1 / 0 except others (s: string): @s) end end start_up\tgives \
    0\tzero_divide\n\t\0\
    go a b\t\t\tstart_up = proc () x: int y: int := x + 1 except when failure (s: string): @s) end x := 1 @#x)) end \
    start_up\tgives 0\tuninitialized variable\n1\n\t\0\
    go a b\t\t\tp = proc (k: int) signals (e(int), f(string), g(any)) if k = 1 then signal e(7) elseif k = 2 then \
    signal f(\"s\") else signal g(true) end end p show = proc (x: any) @#force[int](x))) except when wrong_type: \
    @force[string](x)) except when wrong_type: if force[bool](x) then @\"true\") end end end end show start_up = \
    proc () i: int := 1 while i <= 3 do p(i) except when e, f, g (x: any): show(x) end i := i + 1 end end \
    start_up\tgives 0\t7\ns\ntrue\n\t\0\
    go a b\t\t\tp = proc () signals (e) signal e end p show = proc (x: any) @#force[int](x))) except when \
    wrong_type: @force[string](x)) end end show start_up = proc () begin z: int show(z) end except when zero_divide: \
    when failure (y: any): show(y) end p() except others (n: any): show(n) end begin exit q(3, \"t\") end except \
    when q (a: any, b: string): show(a) @b) end end start_up\tgives 0\tuninitialized variable\ne\n3\nt\n\t\0\
    go a b\t\t\tf = proc (x: oneof[a: int, b: string, c: null]) returns (string) tagcase x tag a (i: int): return \
    (#i)) tag b (s: string): return (s) others: return (\"c\") end end f g = proc (x: oneof[a: int, b: string, c: \
    null]) returns (any) tagcase x tag b, a (y: any): return (y) tag c: return (nil) end end g start_up = proc () o \
    = oneof[a: int, b: string, c: null] @f(o$make_a(5))) @f(o$make_b(\"x\"))) @f(o$make_c(nil))) \
    @#force[int](g(o$make_a(8))))) @force[string](g(o$make_b(\"q\")))) end start_up\tgives 0\t5\nx\nc\n8\nq\n\t\0\
    go a b\t\t\tc = cluster is make, add, fetch, store, get_x, set_x rep = record[v: any] make = proc () returns \
    (cvt) return (rep${v: nil}) end make add = proc (a: cvt, b: any) returns (cvt) return (rep${v: b}) end add fetch \
    = proc (a: cvt, b: any) returns (any) return (b) end fetch store = proc (a: cvt, b: any, d: any) signals \
    (bad(int)) a.v := d signal bad(3) end store get_x = proc (a: cvt) returns (any) return (a.v) end get_x set_x = \
    proc (a: cvt, b: any) a.v := b end set_x end c start_up = proc () x: c := c$make() x.x := 5 @#force[int](x.x))) \
    x := x + \"s\" @force[string](x.x)) @#force[int](x[9]))) x[1] := 7 except when bad (y: any): @#force[int](y))) \
    end @#force[int](x.x))) end start_up\tgives 0\t5\ns\n9\n3\n7\n\t\0\
";
