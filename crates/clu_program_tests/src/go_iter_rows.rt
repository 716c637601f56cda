//! What `go` makes of files with iterators, and what the programs do.

/// How many rows `ITERATOR_FILES` has besides comments.
pub const ITERATOR_FILES_COUNT: usize = 22;

/// Rows as those of `status_rows`.
pub const ITERATOR_FILES: &str = "\
    go a b\t\t\tit = iter (a: array[int]) yields (int) yield (1) except when bounds: @\"iterator\") end end it \
    start_up = proc () a: array[int] := array[int]$new() for x: int in it(a) do y: int := a[x] end except when \
    bounds: @\"caller\") end end start_up\tgives 0\tcaller\n\t\0\
    go a b\t\t\tfind = proc (k: int) returns (int) for i: int in int$from_to(1, 9) do for j: int in int$from_to(1, \
    9) do if i * j = k then return (10 * i + j) end end end return (0) end find start_up = proc () @#find(12))) \
    @#find(11))) end start_up\tgives 0\t26\n0\n\t\0\
    go a b\t\t\tdown_from = iter (n: int) yields (int) if n > 0 then yield (n) for k: int in down_from(n - 1) do \
    yield (k) end end end down_from start_up = proc () for k: int in down_from(50) do if k = 47 then break end @#k)) \
    end end start_up\tgives 0\t50\n49\n48\n\t\0\
    go a b\t\t\tcounts = cluster is create, add, all item = record [key: string, n: int] rep = array[item] create = \
    proc () returns (cvt) return (rep$new()) end create add = proc (c: cvt, k: string) for i: item in \
    rep$elements(c) do if i.key = k then i.n := i.n + 1 return end end rep$addh(c, item${key: k, n: 1}) end add all \
    = iter (c: cvt) yields (string, int) for i: item in rep$elements(c) do yield (i.key, i.n) end end all end counts \
    words = iter (s: string) yields (string) w: string := \"\" for c: char in string$chars(s) do if c = ' ' then if \
    w ~= \"\" then yield (w) end w := \"\" else w := string$append(w, c) end end if w ~= \"\" then yield (w) end end \
    words start_up = proc () c: counts := counts$create() for w: string in words(\"the cat the dog cat the\") do \
    counts$add(c, w) end for w: string, n: int in counts$all(c) do @w || \" \" || #n)) end end start_up\tgives \
    0\tthe 3\ncat 2\ndog 1\n\t\0\
    go a b\t\t\tstart_up = proc () n: int := 0 while true do n := n + 1 for i: int in int$from_to(1, 5) do if i = 2 \
    then continue end while true do break end if i = 4 then break end @#10 * n + i)) end if n = 2 then break end end \
    @\"end\") end start_up\tgives 0\t11\n13\n21\n23\nend\n\t\0\
    go a b\t\t\tit = iter () yields (int) begin yield (1) yield (2) end except when e: @\"no\") others: @\"others\") \
    end end it p = proc (k: int) signals (e(int), f) for i: int in it() do for j: int in it() do if 10 * i + j = k \
    then if k < 20 then signal e(k) end signal f end end end @\"none\") end p start_up = proc () k: int := 11 while \
    k < 24 do p(k) except when e (n: int): @#n)) when f: @\"f\") end k := k + 5 end for i: int in it() do for j: int \
    in it() do for l: int in it() do if i + j + l = 5 then exit found(i, j) end end end end except when found (x, y: \
    int): @#10 * x + y)) end end start_up\tgives 0\t11\nnone\nf\n12\n\t\0\
    go a b\t\t\tit = iter (k: int) yields (int) signals (done(string), e) if k = 0 then signal e end yield (k) \
    signal done(\"d\") end it q = proc (k: int) signals (e, done(string)) for i: int in it(k) do begin @#i)) if i = \
    2 then signal e end end except when done (s: string): @\"inner\") end end resignal done, e @\"no\") end q \
    start_up = proc () k: int := 0 while k < 3 do q(k) except when e: @\"e\") when done (s: string): @s) end k := k \
    + 1 end end start_up\tgives 0\te\n1\nd\n2\ne\n\t\0\
    go a b\t\t\tit = iter () yields (int) signals (e) yield (1) signal e end it p = proc () for i: int in it() do \
    @#i)) end end p start_up = proc () p() except when failure (s: string): @s) end for i: int in it() do end end \
    start_up\tgives 1\t1\nunhandled exception: e\n\tfailure: unhandled exception: e\n\0\
    go a b\t\t\tpairs = iter () yields (int, string) yield (1, \"a\") yield (2, \"b\") end pairs ticks = iter () \
    yield yield end ticks show = proc (x: any) @#force[int](x))) except when wrong_type: @force[string](x)) end end \
    show p = proc () own n: int s: string for n, s in pairs() do @s || #n)) end @s || #n)) end p start_up = proc () \
    p() k: int := 0 for in ticks() do k := k + 1 end @#k)) x, y: any for x, y in pairs() do show(y) end show(x) for \
    a: any, b: any in pairs() do show(a) show(b) b := k show(b) end z: int for z in int$from_to(1, 0) do end @#z)) \
    except when failure (t: string): @t) end end start_up\tgives \
    0\ta1\nb2\nb2\n2\na\nb\n2\n1\na\n2\n2\nb\n2\nuninitialized variable\n\t\0\
    go a b\t\t\tc = cluster is make, parts rep = record[v: any] make = proc (x: any) returns (cvt) return (rep${v: \
    x}) end make parts = iter (a: cvt, n: int) yields (any, cvt, int) while n > 0 do yield (a.v, a, n) n := n - 1 \
    end yield (\"s\", a, 0) end parts end c show = proc (x: any) @#force[int](x))) except when wrong_type: \
    @force[string](x)) end end show start_up = proc () for x: any, y: c, n: int in c$parts(c$make(7), 1) do show(x) \
    for u: any, v: any, m: int in c$parts(y, 0) do show(u) w: c := force[c](v) end end end start_up\tgives \
    0\t7\ns\ns\ns\n\t\0\
    go a b\t\t\tit = iter (a, b: int) yields (int) signals (e) yield (b) yield (a) end it start_up = proc () f: \
    itertype (int, int) yields (int) signals (e) := int$from_to for i: int in f(1, 2) do @#i)) end f := it for i: \
    int in f(1, 2) do @#i)) end if f = it then @\"same\") end x: any := int$from_to g: itertype (int, int) yields \
    (int) := force[itertype (int, int) yields (int)](x) for i: int in g(3, 3) do @#i)) end if f = g then @\"no\") \
    end f := g if f = int$from_to then @\"same\") end h: itertype (array[int]) yields (int) := array[int]$elements \
    for i: int in h(array[int]$[5]) do @#i)) end begin g := force[itertype (int, int) yields (int)](it) end except \
    when wrong_type: @\"wrong_type\") end end start_up\tgives 0\t1\n2\n2\n1\nsame\n3\nsame\n5\nwrong_type\n\t\0\
    go a b\t\t\tit = iter (k: int) yields (int) signals (e(int)) yield (1) if k = 1 then signal e(5) end end it q = \
    proc (k: int) signals (e(any)) if k = 2 then signal e(\"q\") end end q r = proc (k: int) signals (e(int)) if k = \
    3 then signal e(7) end end r show = proc (x: any) @#force[int](x))) except when wrong_type: @force[string](x)) \
    end end show start_up = proc () k: int := 1 while k < 6 do for x: int in it(k) do q(k) for y: int in it(k - 4) \
    do r(k) end if k = 4 then exit e(\"x\") end end except when e (y: any): show(y) end k := k + 1 end end \
    start_up\tgives 0\t5\nq\n7\nx\n5\n\t\0\
    go a b\t\t\tnext = iter (k: int) yields (int) own n: int := 40 while k > 0 do n := n + 1 yield (n) k := k - 1 \
    end end next start_up = proc () for i: int in next(2) do @#i)) for j: int in next(1) do @#j)) end end end \
    start_up\tgives 0\t41\n42\n43\n44\n\t\0\
    go a b\t\t\tnodes = iter (x: any) yields (int) tree = oneof[leaf: null, node: struct[l: any, v: int, r: any]] \
    tagcase force[tree](x) tag leaf: return tag node (n: struct[l: any, v: int, r: any]): for i: int in nodes(n.l) \
    do yield (i) end yield (n.v) for i: int in nodes(n.r) do yield (i) end end except when wrong_type: end end nodes \
    grow = proc (a, b: int) returns (any) tree = oneof[leaf: null, node: struct[l: any, v: int, r: any]] s = \
    struct[l: any, v: int, r: any] if a > b then return (tree$make_leaf(nil)) end m: int := (a + b) / 2 return \
    (tree$make_node(s${l: grow(a, m - 1), v: m, r: grow(m + 1, b)})) end grow start_up = proc () n: int := 0 for i: \
    int in nodes(grow(1, 100)) do n := n * 3 // 1000 + i if i = 60 then break end end @#n)) end start_up\tgives \
    0\t870\n\t\0\
    go a b\t\t\tp = proc () b: array[int] := array[int]$copy(array[int]$[1]) end p\tgives 14\t\tno module: \
    start_up\n\0\
    go a b\t\t\teach = iter [t: type] (a: array[t], b: sequence[t]) yields (t, int) where t has equal: proctype (t, \
    t) returns (bool) for i: int in array[t]$indexes(a) do for x: t in sequence[t]$elements(b) do if a[i] = x then \
    yield (x, i) end end end end each same = proc [t: type] (a, b: t) returns (bool) where t has equal, similar: \
    proctype (t, t) returns (bool) return (a = b & t$similar(a, b)) end same twice = proc [t: type] (a: t) returns \
    (array[t]) where t has copy: proctype (t) returns (t) b: array[t] := array[t]$[a, a] return (array[t]$copy(b)) \
    end twice start_up = proc () ai = array[int] si = sequence[int] for x: int, i: int in each[int](ai$[5, 6, 7], \
    si$[7, 5]) do @#10 * x + i)) end for x: string, i: int in each[string](array[string]$[\"a\"], \
    sequence[string]$[\"b\", \"a\"]) do @x || #i)) end if same[si](si$[1, 2], si$[1, 2]) then @\"same\") end if \
    same[sequence[si]](sequence[si]$[si$[1]], sequence[si]$[si$[2]]) then @\"no\") end a: ai := ai$[8] b: array[ai] \
    := twice[ai](a) a[1] := 9 @#b[1][1] + array[ai]$size(b))) if b[1] = b[2] then @\"no\") end for i: ai in \
    array[ai]$elements(twice[ai](a)) do for j: int in ai$elements(i) do @#j)) end end end start_up\tgives \
    0\t51\n73\na1\nsame\n10\n9\n9\n\t\0\
    go a b\t\t\tlist = cluster [t: type] is make, add, all, some, equal rep = record[v: array[t], n: int] make = \
    proc () returns (cvt) return (rep${v: array[t]$new(), n: 0}) end make add = proc (l: cvt, x: t) \
    array[t]$addh(l.v, x) end add all = iter (l: cvt) yields (t) for x: t in array[t]$elements(l.v) do l.n := l.n + \
    1 yield (x) end end all some = iter (l: list[t], p: proctype (t) returns (bool)) yields (t, list[t]) signals \
    (none(int)) k: int := 0 for x: t in list[t]$all(l) do if p(x) then k := k + 1 yield (x, l) end end if k = 0 then \
    signal none(down(l).n) end end some equal = proc (a, b: list[t]) returns (bool) where t has equal: proctype (t, \
    t) returns (bool) for x: t in all(a) do for y: t in all(b) do if x = y then return (true) end end end return \
    (false) end equal end list even = proc (n: int) returns (bool) return (n // 2 = 0) end even odd = proc (n: int) \
    returns (bool) return (n // 2 ~= 0) end odd start_up = proc () l: list[int] := list[int]$make() m: list[int] := \
    list[int]$make() list[int]$add(l, 3) list[int]$add(l, 5) list[int]$add(m, 5) for x: int, y: list[int] in \
    list[int]$some(l, odd) do @#x)) end for x: any, y: any in list[int]$some(l, even) do end except when none (n: \
    any): @#force[int](n))) end if l = m then @\"meet\") end list[int]$add(m, 1) i: itertype (list[int]) yields \
    (int) := list[int]$all for x: int in i(m) do @#x)) end if array[list[int]]$similar1(array[list[int]]$[l], \
    array[list[int]]$[m]) then @\"similar\") end end start_up\tgives 0\t3\n5\n4\nmeet\n5\n1\nsimilar\n\t\0\
    go --peep a b\t\t\tit = iter (a: array[int]) yields (int) yield (1) except when bounds: @\"iterator\") end end \
    it start_up = proc () a: array[int] := array[int]$new() for x: int in it(a) do y: int := a[x] end except when \
    bounds: @\"caller\") end end start_up\tgives 0\tcaller\n\t\0\
    go --peep a b\t\t\tstart_up = proc () n: int := 0 for i: int in int$from_to(1, 100000) do for j: int in \
    int$from_to(1, 3) do n := n + j if j = 2 then break end end end @#n)) end start_up\tgives 0\t300000\n\t\0\
    go a b --peep\t\t\tfind = proc (k: int) returns (int) for i: int in int$from_to(1, 9) do for j: int in \
    int$from_to(1, 9) do if i * j = k then return (10 * i + j) end end end return (0) end find start_up = proc () \
    @#find(12))) @#find(11))) end start_up\tgives 0\t26\n0\n\t\0\
    go a --peep b\tthe cat\nthe dog\ncat the\n\t\tcounts = cluster [t: type] is create, add, all where t has equal: \
    proctype (t, t) returns (bool) item = record [key: t, n: int] rep = array[item] create = proc () returns (cvt) \
    return (rep$new()) end create add = proc (c: cvt, k: t) for i: item in rep$elements(c) do if i.key = k then i.n \
    := i.n + 1 return end end rep$addh(c, item${key: k, n: 1}) end add all = iter (c: cvt) yields (t, int) for i: \
    item in rep$elements(c) do yield (i.key, i.n) end end all end counts words = iter (s: stream) yields (string) w: \
    string := \"\" while true do c: char := stream$getc(s) if c = ' ' | c = '\\n' then if w ~= \"\" then yield (w) \
    end w := \"\" else w := string$append(w, c) end end except when end_of_file: if w ~= \"\" then yield (w) end end \
    end words start_up = proc () c: counts[string] := counts[string]$create() for w: string in \
    words(stream$primary_input()) do counts[string]$add(c, w) end for w: string, n: int in counts[string]$all(c) do \
    @w || \" \" || #n)) end end start_up\tgives 0\tthe 3\ncat 2\ndog 1\n\t\0\
    go --peep a b\t\t\tp = proc (i: int) signals (e) if i = 3 then signal e end @#i)) end p start_up = proc () for \
    i: int in int$from_to(1, 3) do p(i) continue end except when e: @\"e\") end end start_up\tgives 0\t1\n2\ne\n\t\0\
";
