//! Programs whose runs keep to the meters of the language: their store and stack are just what these count, and their
//! steps are 256 for each unit of work and for 64 more.
//!
//! The stack counts 64 words once, and for each live call 16 and two for each node of its routine. An array that grows
//! counts its new room. Work is reckoned from below, by the calls, the nodes that are evaluated and the words of store.

/// How many rows `BOUNDED` has besides comments.
pub const BOUNDED_COUNT: usize = 9;

/// Rows as those of `status_rows`.
pub const BOUNDED: &str = "\
    go --steps 2320384 --store 4096 --stack 4096 a b\t\t\tstart_up = proc () i: int := 0 while i < 1000 do i := i + \
    1 end @#i)) end start_up\tgives 0\t1000\n\t\0\
    go --steps 32342016 --store 4096 --stack 8608 a b\t\t\tf = proc (n: int) returns (int) if n < 2 then return (n) \
    end return (f(n - 1) + f(n - 2)) end f start_up = proc () x: int := f(15) @#x)) end start_up\tgives 0\t610\n\t\0\
    go --steps 1154048 --store 4096 --stack 36288 a b\t\t\tr = proc (n: int) if n > 0 then r(n - 1) end end r \
    start_up = proc () r(100) end start_up\tgives 0\t\t\0\
    go --steps 1360896 --store 4096 --stack 42912 a b\t\t\tr = proc (n: int) signals (e) if n = 0 then signal e end \
    r(n - 1) resignal e end r start_up = proc () r(100) except when e: @\"caught\") end end start_up\tgives \
    0\tcaught\n\t\0\
    go --steps 420352 --store 6240 --stack 4096 a b\t\t\tstart_up = proc () s: string := \"\" while string$size(s) < \
    100 do s := s || \"x\" end @#string$size(s))) end start_up\tgives 0\t100\n\t\0\
    go --steps 893952 --store 8240 --stack 4096 a b\t\t\tstart_up = proc () a: array[int] := array[int]$new() while \
    array[int]$size(a) < 300 do array[int]$addh(a, 7) end @#array[int]$size(a))) end start_up\tgives 0\t300\n\t\0\
    go --steps 631296 --store 4832 --stack 4096 a b\t\t\tt = struct[a, b: int] start_up = proc () i: int := 0 while \
    i < 200 do x: t := t${a, b: i} i := x.a + 1 end @#i)) end start_up\tgives 0\t200\n\t\0\
    go --steps 1015296 --store 9632 --stack 4096 a b\t\t\tstart_up = proc () i: int := 0 while i < 300 do x: any := \
    i i := force[int](x) + 1 end @#i)) end start_up\tgives 0\t300\n\t\0\
    go --steps 2781184 --store 4800 --stack 4096 a b\t\t\tp = proc () signals (e) signal e end p q = proc () p() end \
    q start_up = proc () i: int := 0 t: string := \"\" while i < 150 do q() except when failure (s: string): t := s \
    end i := i + 1 end @t) end start_up\tgives 0\tunhandled exception: e\n\t\0\
";
