//! What `go` makes of whole files, and what the programs do.

/// How many rows `FILES` has besides comments.
pub const FILES_COUNT: usize = 23;

/// Rows as those of `status_rows`.
pub const FILES: &str = "\
    go a b\t\t\tstart_up = proc () x: int := 9223372036854775807 + 1 end start_up\tgives 1\t\tfailure: unhandled \
    exception: overflow\n\0\
    go a b\t\t\tstart_up = proc () @#-7 / 2)) @#-7 // 2)) end start_up\tgives 0\t-4\n1\n\t\0\
    go a b\t\t\tr = proc () r() end r start_up = proc () r() end start_up\tgives 4\t\tstack full\n\0\
    go a b\t\t\tp = proc () end p\tgives 14\t\tno module: start_up\n\0\
    go a b\t\t\tstart_up = proc (x: int) end start_up\tgives 16\t\tbad start: start_up\n\0\
    go a b\t\t\tstart_up = proc () returns (int) return (1) end start_up\tgives 16\t\tbad start: start_up\n\0\
    go a b\t\t\tf = proc (n: int) returns (int) if n < 2 then return (n) end return (f(n - 1) + f(n - 2)) end f \
    start_up = proc () @#f(20))) end start_up\tgives 0\t6765\n\t\0\
    go a b\t\t\tp = proc () returns (int) end p start_up = proc () x: int := p() end start_up\tgives 1\t\tfailure: \
    no return values\n\0\
    go a b\t\t\tstart_up = proc () x: int @#x)) end start_up\tgives 1\t\tfailure: uninitialized variable\n\0\
    go a b\t\t\tstart_up = proc () @#(-9223372036854775807 - 1) / -1)) end start_up\tgives 1\t\tfailure: unhandled \
    exception: overflow\n\0\
    go --steps 1000 a b\t\t\tstart_up = proc () while true do end end start_up\tgives 5\t\tsteps spent\n\0\
    go a b\t\t\tstart_up = proc () c: char := 'a' end start_up\tgives 0\t\t\0\
    go a b\t\t\tp = proc () c: char := 'a' end p\tgives 14\t\tno module: start_up\n\0\
    go a b\t\t\tp = proc (s, t: string) @t) @s) end p start_up = proc () p(\"a\", \"b\") end start_up\tgives \
    0\tb\na\n\t\0\
    go a b\t\t\tp = proc () signals (e) @\"a\") signal e @\"b\") end p start_up = proc () signals (e) p() @\"c\") \
    end start_up\tgives 1\ta\n\tfailure: unhandled exception: e\n\0\
    go a b\t\t\tstart_up = proc () signals (e) signal e end start_up\tgives 1\t\tfailure: unhandled exception: e\n\0\
    go a b\t\t\tp = proc () signal failure(\"own\") end p start_up = proc () p() end start_up\tgives 1\t\tfailure: \
    own\n\0\
    go a b\tabc\n\t\tstart_up = proc () @stream$getl(stream$primary_input())) end start_up\tgives 0\tabc\n\t\0\
    go a b\tab\t\tstart_up = proc () @string$c2s(stream$getc(stream$primary_input()))) end start_up\tgives 0\ta\n\t\0\
    go a b\t\t\tstart_up = proc () @stream$getl(stream$primary_input())) except when end_of_file: @\"end\") end end \
    start_up\tgives 0\tend\n\t\0\
    go a b\tab\n\ncd\t\tstart_up = proc () while ~stream$empty(stream$primary_input()) do \
    @stream$getl(stream$primary_input())) end end start_up\tgives 0\tab\n\ncd\n\t\0\
    go a b\tnot read\t\tstart_up = proc () end start_up\tgives 0\t\t\0\
    go a b\t\t\tstart_up = proc () @string$c2s(stream$getc(stream$primary_input()))) end start_up\tgives \
    1\t\tfailure: unhandled exception: end_of_file\n\0\
";
