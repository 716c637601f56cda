//! What `go` makes of files whose modules have parameters, and what the programs do.

/// How many rows `PARAMETER_FILES` has besides comments.
pub const PARAMETER_FILES_COUNT: usize = 17;

/// Rows as those of `status_rows`.
pub const PARAMETER_FILES: &str = "\
    go a b\t\t\ttally = cluster [t: type] is note where t has equal: proctype (t, t) returns (bool) rep = null own \
    n: int := 0 note = proc (a, b: t) returns (int) if a = b then n := n + 1 end return (n) end note end tally \
    start_up = proc () i: int := tally[int]$note(1, 1) i := tally[int]$note(2, 2) s: int := \
    tally[string]$note(\"a\", \"a\") @#i)) @#s)) end start_up\tgives 0\t2\n1\n\t\0\
    go a b\t\t\tg = proc [t: type] (n: int) g[array[t]](n) end g start_up = proc () g[int](1) end start_up\tgives \
    17\t\ttoo many instances\n\0\
    go a b\t\t\tnext = proc [n: int] () returns (int) own k: int := n k := k + 1 return (k) end next tell = proc [b: \
    bool, z: null, s: string, c: char, n: int] () if b & z = nil then @s) else @string$append(#n), c)) end end tell \
    start_up = proc () @#next[10]())) @#next[10]())) @#next[20]())) tell[true, nil, \"no\", 'x', 3]() tell[false, \
    nil, \"no\", 'a', 7]() tell[2 > 1, nil, \"y\" || \"es\", 'x', 3]() end start_up\tgives \
    0\t11\n12\n21\nno\n7a\nyes\n\t\0\
    go a b\t\t\tc = cluster [k: int] is make, get rep = int make = proc () returns (cvt) return (k) end make get = \
    proc (x: cvt) returns (int) return (x) end get end c inner = proc [n: int] () returns (int) same = n return \
    (c[same]$get(c[n]$make())) end inner outer = proc [n: int, m: int] () @#inner[n]())) @#inner[m]())) end outer \
    start_up = proc () outer[3, 4]() @#inner[2 + 3]())) if c[1]$make = c[2 - 1]$make then @\"true\") end end \
    start_up\tgives 0\t3\n4\n5\ntrue\n\t\0\
    go a b\t\t\tsame = proc [t: type] (a, b: t) returns (int) where t has equal: proctype (t, t) returns (bool) if a \
    = b then return (1) end return (0) end same twice = proc [u: type] (a, b: u) returns (int) where u has equal: \
    proctype (u, u) returns (bool) return (same[u](a, b)) end twice c = cluster is make, equal rep = int make = proc \
    (n: int) returns (cvt) return (n) end make equal = proc (a, b: cvt) returns (bool) return (a // 10 = b // 10) \
    end equal end c start_up = proc () pt = struct[x: int, y: c, z: oneof[a: string, b: null]] @#same[int](3, 3))) \
    @#same[string](\"a\", \"b\"))) p: pt := pt${x: 1, y: c$make(4), z: oneof[a: string, b: null]$make_a(\"q\")} q: \
    pt := pt${x: 1, y: c$make(14), z: oneof[a: string, b: null]$make_a(\"q\")} @#twice[pt](p, q))) q := \
    pt$replace_x(q, 2) @#twice[pt](p, q))) @#same[c](c$make(1), c$make(21)))) @#same[array[int]](array[int]$[], \
    array[int]$[]) + 1)) end start_up\tgives 0\t1\n0\n1\n0\n1\n1\n\t\0\
    go a b\t\t\tadds = {u | u has add: proctype (u, u) returns (u) signals (overflow)} sum = proc [t: type] (a, b: \
    t) returns (t) where t in adds return (t$add(a, b)) end sum join = proc [t: type] (a, b: t) returns (t) where t \
    in {u | u has concat: proctype (u, u) returns (u)} return (a || b) end join start_up = proc () \
    @join[string](\"a\", \"bc\")) @#sum[int](1, 2))) end start_up\tgives 0\tabc\n3\n\t\0\
    go a b\t\t\tshow = proc (x: any) @#force[int](x))) except when wrong_type: @force[string](x)) end end show box = \
    cluster [t: type] is make, get, fetch, store rep = record[v: t] make = proc (v: t) returns (cvt) return (rep${v: \
    v}) end make get = proc (b: cvt) returns (t) return (b.v) end get fetch = proc (b: cvt, i: int) returns (t) \
    return (b.v) end fetch store = proc (b: cvt, i: int, v: t) b.v := v end store end box pass = proc [t: type] (v: \
    t) x: any := v show(x) end pass only = proc [t: type] (x: any) returns (t) signals (wrong) return (force[t](x)) \
    except when wrong_type: signal wrong end end only start_up = proc () pass[int](5) pass[any](\"x\") b: box[any] \
    := box[any]$make(1) @only[string](2)) except when wrong: @\"wrong\") end b[1] := 6 show(b[7]) \
    show(box[any]$get(b)) end start_up\tgives 0\t5\nx\nwrong\n6\n6\n\t\0\
    go a b\t\t\tb3 = cluster is make, not, val rep = int make = proc (n: int) returns (cvt) return (n) end make not \
    = proc (x: cvt) returns (cvt) return (2 - x) end not val = proc (x: cvt) returns (int) return (x) end val end b3 \
    num = cluster is make, equal, add rep = int make = proc (n: int) returns (cvt) return (n) end make equal = proc \
    (a, b: cvt) returns (b3) return (b3$make(a + b)) end equal add = proc (a: cvt, x: any) returns (cvt) signals \
    (odd(any)) n: int := force[int](x) except when wrong_type: signal odd(\"s\") end return (a + n) end add end num \
    plus = proc [t, u: type] (a: t, b: u) returns (t) signals (odd(any)) where t has add: proctype (t, any) returns \
    (t) signals (odd(any)) return (a + b) resignal odd end plus differ = proc [t, r: type] (a, b: t) returns (r) \
    where t has equal: proctype (t, t) returns (r), r has not: proctype (r) returns (r) return (a ~= b) end differ \
    start_up = proc () n: num := plus[num, int](num$make(3), 4) @#b3$val(differ[num, b3](n, num$make(1))))) \
    @#b3$val(n ~= num$make(2)))) n := plus[num, string](n, \"q\") except when odd (x: any): @force[string](x)) end \
    end start_up\tgives 0\t-6\n-7\ns\n\t\0\
    go a b\t\t\tshow = proc (x: any) @#force[int](x))) except when wrong_type: @force[string](x)) end end show p = \
    proc [t: type] (v: t) signals (e(t)) signal e(v) end p q = proc [t: type] (v: t) p[t](v) except when e (x: any): \
    show(x) end end q start_up = proc () q[int](1) q[string](\"z\") q[any](2) end start_up\tgives 0\t1\nz\n2\n\t\0\
    go a b\t\t\tlist = cluster [t: type] is make, add, find, starts, size rep = array[t] make = proc () returns \
    (cvt) return (rep$new()) end make add = proc (l: cvt, v: t) rep$addh(l, v) end add find = proc (l: cvt, v: t) \
    returns (int) where t has equal: proctype (t, t) returns (bool) i: int := 1 while i <= rep$size(l) do if l[i] = \
    v then return (i) end i := i + 1 end return (0) end find first = proc (l: cvt, v: t) returns (bool) where t has \
    equal: proctype (t, t) returns (bool) return (l[1] = v) end first starts = proc (l: cvt, v: t) returns (bool) \
    where t has equal: proctype (t, t) returns (bool) return (first(up(l), v)) end starts size = proc (l: cvt) \
    returns (int) return (rep$size(l)) end size end list start_up = proc () l: list[string] := list[string]$make() \
    list[string]$add(l, \"a\") list[string]$add(l, \"b\") @#list[string]$find(l, \"b\"))) @#list[string]$find(l, \
    \"c\"))) if list[string]$starts(l, \"a\") then @\"yes\") end m: list[any] := list[any]$make() list[any]$add(m, \
    1) @#list[any]$size(m))) end start_up\tgives 0\t2\n0\nyes\n1\n\t\0\
    go a b\t\t\teq = proc [t: type] () returns (proctype (t, t) returns (bool)) where t has equal: proctype (t, t) \
    returns (bool) return (t$equal) end eq f = proc [n: int] () end f start_up = proc () pt = struct[a: int] if \
    eq[int]() = int$equal then @\"1\") end if eq[pt]() = pt$equal then @\"2\") end if f[1] = f[2 - 1] then @\"3\") \
    end if f[1] ~= f[2] then @\"4\") end end start_up\tgives 0\t1\n2\n3\n4\n\t\0\
    go a b\t\t\tc = cluster [t: type, n: int] is next rep = null own k: int := n own a: array[t] := array[t]$new() \
    next = proc (v: t) returns (int) array[t]$addh(a, v) return (k + array[t]$size(a)) end next end c start_up = \
    proc () @#c[int, 5]$next(1))) @#c[int, 5]$next(2))) @#c[int, 6]$next(1))) @#c[string, 5]$next(\"a\"))) end \
    start_up\tgives 0\t6\n7\n7\n6\n\t\0\
    go a b\t\t\ttwin = proc [t: type] (v: t) returns (t) where t has copy: proctype (t) returns (t) r = record[a, b: \
    t] x: r := r$copy(r${a: v, b: v}) return (x.b) end twin start_up = proc () one = record[n: int] s: string := \
    twin[string](\"same\") @s) v: one := one${n: 1} w: one := twin[one](v) if v = w then @\"same\") else @\"other\") \
    end end start_up\tgives 0\tsame\nother\n\t\0\
    go a b\t\t\tany_equal = {u | u has equal: proctype (u, any) returns (bool)} w = cluster [k: int, t: type] is \
    test eqs = any_equal rep = null same = proc (a: t) returns (bool) where t in eqs return (a = k) end same test = \
    proc (a: t) returns (bool) where t in any_equal return (same(a)) end test end w e = cluster is make, equal rep = \
    int make = proc (n: int) returns (cvt) return (n) end make equal = proc (a: cvt, x: any) returns (bool) return \
    (a = force[int](x)) end equal end e start_up = proc () if w[5, e]$test(e$make(5)) then @\"5\") end if ~w[6, \
    e]$test(e$make(5)) then @\"other\") end end start_up\tgives 0\t5\nother\n\t\0\
    go a b\t\t\teach = iter [t, u: type] (c: t) yields (u) where t has elements: itertype (t) yields (u) for x: u in \
    t$elements(c) do yield (x) end end each twice = iter [t: type] (c: array[t]) yields (t) where t has add: \
    proctype (t, t) returns (t) signals (overflow) for x: t in array[t]$elements(c) do yield (x + x) end end twice \
    first = proc [t: type] (c: array[t]) returns (t) signals (none) for x: t in each[array[t], t](c) do return (x) \
    end signal none end first start_up = proc () a: array[int] := array[int]$[1, 2, 3] for n: int in \
    each[array[int], int](a) do @#n)) end for n: int in twice[int](a) do @#n)) end \
    @first[string](array[string]$[\"x\", \"y\"])) @#first[int](a))) end start_up\tgives \
    0\t1\n2\n3\n2\n4\n6\nx\n1\n\t\0\
    go a b\t\t\tlike = proc [t: type] (a, b: t) returns (string) where t has similar: proctype (t, t) returns (bool) \
    if t$similar(a, b) then return (\"equal\") end return (\"other\") end like fresh = proc [t: type] (a: t) returns \
    (t) where t has copy: proctype (t) returns (t) return (t$copy(a)) end fresh start_up = proc () grid = \
    array[array[int]] a: grid := grid$[array[int]$[1], array[int]$[2, 3]] b: grid := fresh[grid](a) @like[grid](a, \
    b)) b[2][1] := 4 @like[grid](a, b)) if a ~= b & a[1] ~= b[1] then @\"new\") end end start_up\tgives \
    0\tequal\nother\nnew\n\t\0\
    go a b\t\t\tpairs = iter [k, v: type] (a: array[k], b: array[v]) yields (k, v) for i: int in array[k]$indexes(a) \
    do yield (a[i], b[i]) end except when bounds: end end pairs show = proc (x: any) @#force[int](x))) except when \
    wrong_type: @force[string](x)) end end show start_up = proc () for s: string, n: int in pairs[string, \
    int](array[string]$[\"a\", \"b\", \"c\"], array[int]$[1, 2]) do @s || \" \" || #n)) end for x: any, y: any in \
    pairs[any, int](array[any]$[3], array[int]$[4]) do show(x) end end start_up\tgives 0\ta 1\nb 2\n3\n\t\0\
";
