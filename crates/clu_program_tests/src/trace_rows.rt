//! What `go --trace` tells of runs that fail.

/// How many rows `TRACED` has besides comments.
pub const TRACED_COUNT: usize = 44;

/// Rows as those of `status_rows`.
pub const TRACED: &str = "\
    go --trace a b\t\t\tq = proc (x: int) returns (int) return (x / 0) end q it = iter () yields (int) yield (1) end \
    it start_up = proc () for i: int in it() do x: int := q(i) end end start_up\tgives 1\t\tfailure: unhandled \
    exception: zero_divide\nat q\nat it\nat start_up\n\0\
    go --trace a b\t\t\tstart_up = proc () signal failure(\"x\") end start_up\tgives 1\t\tfailure: x\n\0\
    go --trace a b\t\t\tstart_up = proc () signals (e) signal e end start_up\tgives 1\t\tfailure: unhandled \
    exception: e\n\0\
    go --trace a b\t\t\tp = proc () signals (e(int)) signal e(1) end p q = proc () signals (e(int)) p() resignal e \
    end q r = proc () q() end r start_up = proc () r() end start_up\tgives 1\t\tfailure: unhandled exception: e\nat \
    r\nat start_up\n\0\
    go --trace a b\t\t\tp = proc () x: int @#x)) end p start_up = proc () p() end start_up\tgives 1\t\tfailure: \
    uninitialized variable\nat p\nat start_up\n\0\
    go --trace a b\t\t\tp = proc () returns (int) end p start_up = proc () x: int := p() end start_up\tgives \
    1\t\tfailure: no return values\nat start_up\n\0\
    go --trace a b\t\t\tg = proc [t: type, n: int, s: string, c: char, b: bool] () x: int := 1 / 0 end g start_up = \
    proc () g[array[record[a: int]], -3, \"a\\n\", '\\n', true]() end start_up\tgives 1\t\tfailure: unhandled \
    exception: zero_divide\nat g[array[record[a:int]],-3,\"610a\",'0a,true]\nat start_up\n\0\
    go --trace a b\t\t\tit = iter () yields (int) yield (1) except when e: end end it f = proc (i: int) signals (e) \
    signal e end f start_up = proc () for i: int in it() do f(i) end except when e: signal failure(\"late\") end end \
    start_up\tgives 1\t\tfailure: late\nat it\nat start_up\n\0\
    go --trace a b\t\t\tp = proc () signals (e) begin q() end except others (s: string): @s) signal e end end p q = \
    proc () x: int := 1 / 0 end q start_up = proc () p() except when e: end signal failure(\"end\") end \
    start_up\tgives 1\tfailure\n\tfailure: end\nat start_up\n\0\
    go --trace a b\t\t\tc = cluster is p rep = int own x: int := 1 / 0 p = proc () end p end c start_up = proc () \
    c$p() end start_up\tgives 1\t\tfailure: unhandled exception: zero_divide\nat c$own\nat c$p\nat start_up\n\0\
    go --trace a b\t\t\tc = cluster [t: type] is p rep = int own x: int := 1 / 0 p = proc () end p end c start_up = \
    proc () c[int]$p() end start_up\tgives 1\t\tfailure: unhandled exception: zero_divide\nat c[int]$own\nat \
    c[int]$p\nat start_up\n\0\
    go --trace a b\t\t\tp = proc () own x: int := 1 / 0 end p start_up = proc () p() end start_up\tgives \
    1\t\tfailure: unhandled exception: zero_divide\nat p\nat start_up\n\0\
    go --trace a b\t\t\tinner = iter () yields (int) yield (1) end inner outer = iter () yields (int) for i: int in \
    inner() do yield (i) end end outer start_up = proc () for i: int in outer() do x: int := i / 0 end end \
    start_up\tgives 1\t\tfailure: unhandled exception: zero_divide\nat inner\nat outer\nat start_up\n\0\
    go --trace a b\t\t\td = iter (n: int) yields (int) if n > 0 then for k: int in d(n - 1) do yield (k) end yield \
    (n) end end d start_up = proc () for k: int in d(2) do x: int := k / 0 end end start_up\tgives 1\t\tfailure: \
    unhandled exception: zero_divide\nat d\nat d\nat start_up\n\0\
    go --trace a b\t\t\td = iter (n: int) yields (int) if n > 0 then for k: int in d(n - 1) do yield (k) end x: int \
    := 1 / 0 end end d start_up = proc () for k: int in d(2) do end end start_up\tgives 1\t\tfailure: unhandled \
    exception: zero_divide\nat d\nat d\nat start_up\n\0\
    go --trace a b\t\t\ta = iter () yields (int) yield (1) end a b = iter () yields (int) yield (1) end b start_up = \
    proc () for i: int in a() do for j: int in b() do x: int := 1 / 0 end end end start_up\tgives 1\t\tfailure: \
    unhandled exception: zero_divide\nat b\nat a\nat start_up\n\0\
    go --trace a b\t\t\ta = iter () yields (int) yield (1) end a b = iter () yields (int) yield (1) x: int := 1 / 0 \
    end b start_up = proc () for i: int in a() do for j: int in b() do end end end start_up\tgives 1\t\tfailure: \
    unhandled exception: zero_divide\nat b\nat a\nat start_up\n\0\
    go --trace a b\t\t\ta = iter () yields (int) yield (1) end a b = iter () yields (int) signals (e) yield (1) \
    signal e end b start_up = proc () for i: int in a() do for j: int in b() do end end end start_up\tgives \
    1\t\tfailure: unhandled exception: e\nat a\nat start_up\n\0\
    go --trace a b\t\t\ta = iter () yields (int) yield (1) end a b = iter () yields (int) yield (1) end b p = proc \
    () signals (e) for i: int in a() do signal e end end p q = proc () for i: int in b() do end p() end q start_up = \
    proc () for i: int in a() do for j: int in b() do q() end end end start_up\tgives 1\t\tfailure: unhandled \
    exception: e\nat q\nat b\nat a\nat start_up\n\0\
    go --trace a b\t\t\tc = cluster is make, equal rep = int make = proc () returns (cvt) return (1) end make equal \
    = proc (x, y: cvt) returns (bool) return (x / 0 = y) end equal end c start_up = proc () s: struct[a: c] := \
    struct[a: c]${a: c$make()} b: bool := s = s end start_up\tgives 1\t\tfailure: unhandled exception: \
    zero_divide\nat c$equal\nat struct[a:c]$equal\nat start_up\n\0\
    go --trace a b\t\t\tc = cluster is make, copy rep = int make = proc () returns (cvt) return (1) end make copy = \
    proc (x: cvt) returns (cvt) return (x / 0) end copy end c start_up = proc () a: array[c] := array[c]$[c$make()] \
    b: array[c] := array[c]$copy(a) end start_up\tgives 1\t\tfailure: unhandled exception: zero_divide\nat \
    c$copy\nat int$from_to_by\nat int$from_to\nat array[c]$indexes\nat array[c]$elements\nat array[c]$copy\nat \
    start_up\n\0\
    go --trace a b\t\t\tstart_up = proc () a: array[int] := array[int]$[1, 2] for i: int in array[int]$elements(a) \
    do x: int := i / 0 end end start_up\tgives 1\t\tfailure: unhandled exception: zero_divide\nat int$from_to_by\nat \
    int$from_to\nat array[int]$indexes\nat array[int]$elements\nat start_up\n\0\
    go --trace a b\t\t\tstart_up = proc () s: sequence[int] := sequence[int]$[1] for i: int in \
    sequence[int]$indexes(s) do x: int := i / 0 end end start_up\tgives 1\t\tfailure: unhandled exception: \
    zero_divide\nat int$from_to_by\nat int$from_to\nat sequence[int]$indexes\nat start_up\n\0\
    go --trace a b\t\t\tstart_up = proc () for c: char in string$chars(\"a\") do x: int := 1 / 0 end end \
    start_up\tgives 1\t\tfailure: unhandled exception: zero_divide\nat int$from_to_by\nat int$from_to\nat \
    string$chars\nat start_up\n\0\
    go --trace a b\t\t\tstart_up = proc () a: array[int] := array[int]$new() x: int := a[1] end start_up\tgives \
    1\t\tfailure: unhandled exception: bounds\nat start_up\n\0\
    go --trace a b\t\t\tp = proc (f: proctype (array[int], int) returns (int) signals (bounds)) x: int := \
    f(array[int]$new(), 1) end p start_up = proc () p(array[int]$fetch) end start_up\tgives 1\t\tfailure: unhandled \
    exception: bounds\nat p\nat start_up\n\0\
    go --trace a b\t\t\tp = proc () @string$substr(\"ab\", 5, 1)) end p start_up = proc () p() end start_up\tgives \
    1\t\tfailure: unhandled exception: bounds\nat p\nat start_up\n\0\
    go --trace a b\t\t\tp = proc () a: array[int] := array[int]$create(-9223372036854775807 - 1) end p start_up = \
    proc () p() end start_up\tgives 1\t\tfailure: bounds out of range\nat p\nat start_up\n\0\
    go --trace a b\t\t\tp = proc () a: array[int] := array[int]$[9223372036854775807: 1, 2] end p start_up = proc () \
    p() end start_up\tgives 1\t\tfailure: bounds out of range\nat p\nat start_up\n\0\
    go --trace a b\t\t\tp = proc (x: any) y: string := force[string](x) end p start_up = proc () p(1) end \
    start_up\tgives 1\t\tfailure: unhandled exception: wrong_type\nat p\nat start_up\n\0\
    go --trace --stack 4096 a b\t\t\tp = proc (n: int) if n = 0 then x: int := 1 / n end p(n - 1) end p start_up = \
    proc () p(5) end start_up\tgives 1\t\tfailure: unhandled exception: zero_divide\nat p\nat p\nat p\nat p\nat \
    p\nat p\nat start_up\n\0\
    go --trace --stack 4096 a b\t\t\tr = proc () r() end r start_up = proc () x: int := 1 / 0 except when \
    zero_divide: end r() end start_up\tgives 4\t\tstack full\n\0\
    go --trace --steps 1000 a b\t\t\tstart_up = proc () while true do end end start_up\tgives 5\t\tsteps spent\n\0\
    go --trace a b\t\t\tstart_up = proc () x: int := 1 / 0 except when zero_divide: end @\"a\") end start_up\tgives \
    0\ta\n\t\0\
    go --trace a b\tx\t\tstart_up = proc () while true do @stream$getl(stream$primary_input())) end end \
    start_up\tgives 1\tx\n\tfailure: unhandled exception: end_of_file\nat start_up\n\0\
    go --trace a b\t\t\tp = proc () end p\tgives 14\t\tno module: start_up\n\0\
    go --trace a b\t\t\tstart_up = proc () for i: int in int$from_to(9223372036854775806, 9223372036854775807) do \
    end signal failure(\"x\") end start_up\tgives 1\t\tfailure: x\nat int$from_to_by\nat int$from_to\nat start_up\n\0\
    go --trace a b\t\t\tstart_up = proc () for i: int in int$from_to_by(9223372036854775804, 9223372036854775807, 2) \
    do end signal failure(\"x\") end start_up\tgives 1\t\tfailure: x\nat int$from_to_by\nat start_up\n\0\
    go --trace a b\t\t\tstart_up = proc () for i: int in int$from_to_by(-9223372036854775807, -9223372036854775807 - \
    1, -1) do end signal failure(\"x\") end start_up\tgives 1\t\tfailure: x\nat int$from_to_by\nat start_up\n\0\
    go --trace a b\t\t\tstart_up = proc () for i: int in array[int]$indexes(array[int]$[9223372036854775807: 5]) do \
    end signal failure(\"x\") end start_up\tgives 1\t\tfailure: x\nat int$from_to_by\nat int$from_to\nat \
    array[int]$indexes\nat start_up\n\0\
    go --trace a b\t\t\tstart_up = proc () a: array[int] := array[int]$copy(array[int]$[9223372036854775807: 5]) \
    @#array[int]$bottom(a))) signal failure(\"x\") end start_up\tgives 1\t5\n\tfailure: x\nat int$from_to_by\nat \
    int$from_to\nat array[int]$indexes\nat array[int]$elements\nat array[int]$copy\nat start_up\n\0\
    go --trace a b\t\t\tstart_up = proc () for i: int in int$from_to(9223372036854775806, 9223372036854775807) do if \
    i = 9223372036854775807 then break end end signal failure(\"x\") end start_up\tgives 1\t\tfailure: x\n\0\
    go --trace a b\t\t\tstart_up = proc () for i: int in int$from_to(1, 9) do end for c: char in \
    string$chars(\"ab\") do end signal failure(\"x\") end start_up\tgives 1\t\tfailure: x\n\0\
    go --trace a b\t\t\tstart_up = proc () for i: int in int$from_to(9223372036854775807, 1) do end signal \
    failure(\"x\") end start_up\tgives 1\t\tfailure: x\n\0\
";
