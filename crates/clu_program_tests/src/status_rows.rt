//! Each status of each command. Only 25, out of memory, has no row, since nothing here refuses memory.

/// How many rows `GO_STATUSES` has besides comments.
pub const GO_STATUSES_COUNT: usize = 22;

/// Rows of calls, with tabs between their parts: the words, the input, what fails and the file, in which
/// `@` is `stream$putl(stream$primary_output(), ` and `#` is `int$unparse(`, or its bytes after `0x`; and what comes of it: the
/// status, the output and the errors.
pub const GO_STATUSES: &str = "\
    go a b\t\t\tstart_up = proc () end start_up\tgives 0\t\t\0\
    go a b\t\t\tstart_up = proc () @\"hi\") end start_up\tgives 0\thi\n\t\0\
    go a b\t\t\tstart_up = proc () signal failure(\"why\") end start_up\tgives 1\t\tfailure: why\n\0\
    go --store 4096 a b\t\t\tstart_up = proc () a: array[int] := array[int]$new() while true do array[int]$addh(a, \
    1) end end start_up\tgives 3\t\tstore full\n\0\
    go a b\t\t\tr = proc () r() end r start_up = proc () r() end start_up\tgives 4\t\tstack full\n\0\
    go --steps 1 a b\t\t\tstart_up = proc () @\"hi\") end start_up\tgives 5\t\tsteps spent\n\0\
    go c b\t\t\tstart_up = proc () @\"hi\") end start_up\tgives 10\t\tno file: c\n\0\
    go a b\t\t\tstart_up = proc () ` end start_up\tgives 11\t\ta:1:20: V1 Token\n\0\
    go a b\t\t\tstart_up = proc () x end start_up\tgives 11\t\ta:1:22: V2 Syntax\n\0\
    go a b\t\t\t^201^(^\tgives 11\t\ta:1:201: V3 TooDeep\n\0\
    go a b\t\t\tstart_up = proc ()\nx: int := 9223372036854775808\nend start_up\tgives 11\t\ta:2:11: V4 \
    LiteralRange\n\0\
    go a b\t\t\tp = proc () end p\tgives 14\t\tno module: start_up\n\0\
    go a b\t\t\tstart_up = proc (x: int) end start_up\tgives 16\t\tbad start: start_up\n\0\
    go a b\t\t\tq = proc [a, b: int] () end q r = proc [a: int] () ^64^q[a, ?]() ^end r start_up = proc () \
    ^64^r[?]() ^end start_up\tgives 17\t\ttoo many instances\n\0\
    go a b\t\t\tp = proc [n: int] () x: int := 0 ^900^x := x + n ^if x ~= 900 * n then signal failure(\"sum\") end \
    end p start_up = proc () ^80^p[?]() ^end start_up\tgives 18\t\tprogram too large\n\0\
    go a b\t\t\t^4097^k? = proc () end k? ^\tgives 21\t\tlibrary full\n\0\
    go a b\t\tread\tstart_up = proc () @\"a\") @stream$getl(stream$primary_input())) end start_up\tgives \
    22\ta\n\tread fault\n\0\
    go a b\t\twrite\tstart_up = proc () @\"hi\") end start_up\tgives 23\t\twrite fault\n\0\
    go a b\t\tget\tstart_up = proc () @\"hi\") end start_up\tgives 24\t\tfile fault: a\n\0\
    go a b\t\tput\tstart_up = proc () @\"hi\") end start_up\tgives 24\t\tfile fault: b\n\0\
    go a b\t\t\t^1048577^%^\tgives 26\t\tsource too large: a\n\0\
    go a b\t\t\tstart_up = proc () end start_up^1048545^%^\tgives 0\t\t\0\
";

/// How many rows `EXEC_STATUSES` has besides comments.
pub const EXEC_STATUSES_COUNT: usize = 20;

/// Rows of images, in the same form. A data part stands after the code, which begins at 0x10000.
pub const EXEC_STATUSES: &str = "\
    exec a\t\t\t0x 43 4c 55 49 01 00 00 00 00 00 00 00 07 00 00 00 08 00 00 00 93 08 40 00 37 05 01 00 13 05 05 02 \
    93 05 30 00 73 00 00 00 93 08 00 00 73 00 00 00 68 69 0a 00 00 00 00 00\tgives 0\thi\n\t\0\
    exec a\t\t\t0x 43 4c 55 49 02 00 00 00 00 00 00 00 07 00 00 00 08 00 00 00 00 00 00 00 93 08 40 00 37 05 01 00 \
    13 05 05 02 93 05 30 00 73 00 00 00 93 08 00 00 73 00 00 00 68 69 0a 00 00 00 00 00\tgives 0\thi\n\t\0\
    exec a --steps=7\t\t\t0x 43 4c 55 49 01 00 00 00 00 00 00 00 07 00 00 00 08 00 00 00 93 08 40 00 37 05 01 00 13 \
    05 05 02 93 05 30 00 73 00 00 00 93 08 00 00 73 00 00 00 68 69 0a 00 00 00 00 00\tgives 0\thi\n\t\0\
    exec a\t\t\t0x 43 4c 55 49 01 00 00 00 00 00 00 00 07 00 00 00 08 00 00 00 93 08 10 00 37 05 01 00 13 05 05 02 \
    93 05 20 00 73 00 00 00 93 08 00 00 73 00 00 00 68 69 0a 00 00 00 00 00\tgives 1\t\tfailure: hi\n\0\
    exec a\t\t\t0x 43 4c 55 49 01 00 00 00 00 00 00 00 02 00 00 00 00 00 00 00 93 08 20 00 73 00 00 00\tgives \
    3\t\tstore full\n\0\
    exec a\t\t\t0x 43 4c 55 49 01 00 00 00 00 00 00 00 02 00 00 00 00 00 00 00 93 08 30 00 73 00 00 00\tgives \
    4\t\tstack full\n\0\
    exec --steps 6 a\t\t\t0x 43 4c 55 49 01 00 00 00 00 00 00 00 07 00 00 00 08 00 00 00 93 08 40 00 37 05 01 00 13 \
    05 05 02 93 05 30 00 73 00 00 00 93 08 00 00 73 00 00 00 68 69 0a 00 00 00 00 00\tgives 5\thi\n\tsteps spent\n\0\
    exec a\t\t\t0x 43 4c 55 49 01 00 00 00 00 00 00 00 01 00 00 00 00 00 00 00 00 00 00 00\tgives 6\t\tbad \
    instruction at 0000000000010000\n\0\
    exec a\t\t\t0x 43 4c 55 49 01 00 00 00 00 00 00 00 01 00 00 00 00 00 00 00 83 20 00 00\tgives 7\t\tbad access at \
    0000000000000000\n\0\
    exec a\t\t\t0x 43 4c 55 49 02 00 00 00 00 00 00 00 02 00 00 00 00 00 00 00 00 00 00 00 37 05 01 00 23 20 05 \
    00\tgives 7\t\tbad access at 0000000000010000\n\0\
    exec a\t\t\t0x 43 4c 55 49 01 00 00 00 00 00 00 00 01 00 00 00 00 00 00 00 6f 00 20 00\tgives 8\t\tbad jump to \
    0000000000010002\n\0\
    exec a\t\t\t0x 43 4c 55 49 01 00 00 00 00 00 00 00 02 00 00 00 00 00 00 00 93 08 30 06 73 00 00 00\tgives \
    9\t\tbad ecall 99\n\0\
    exec a\t\t\t0x 43 4c 55 49 01 00 00 00 00 00 00 00 02 00 00 00 00 00 00 00 b3 48 00 02 73 00 00 00\tgives \
    9\t\tbad ecall 18446744073709551615\n\0\
    exec c\t\t\t0x 43 4c 55 49 01 00 00 00 00 00 00 00 07 00 00 00 08 00 00 00 93 08 40 00 37 05 01 00 13 05 05 02 \
    93 05 30 00 73 00 00 00 93 08 00 00 73 00 00 00 68 69 0a 00 00 00 00 00\tgives 10\t\tno file: c\n\0\
    exec a\t\t\tCLU\tgives 20\t\timage bad at 0\n\0\
    exec a\t\t\t0x 43 4c 55 49 01 00 00 00 00 00 00 00 01 00 00 00 00 00 00 00 00 00 00\tgives 20\t\timage bad at \
    20\n\0\
    exec a\t\t\t0x 43 4c 55 49 01 00 00 00 00 00 00 00 01 00 00 00 00 00 00 00 00 00 00 00 00\tgives 20\t\timage bad \
    at 24\n\0\
    exec a\t\tread\t0x 43 4c 55 49 01 00 00 00 00 00 00 00 02 00 00 00 00 00 00 00 93 08 50 00 73 00 00 00\tgives \
    22\t\tread fault\n\0\
    exec a\t\twrite\t0x 43 4c 55 49 01 00 00 00 00 00 00 00 07 00 00 00 08 00 00 00 93 08 40 00 37 05 01 00 13 05 05 \
    02 93 05 30 00 73 00 00 00 93 08 00 00 73 00 00 00 68 69 0a 00 00 00 00 00\tgives 23\t\twrite fault\n\0\
    exec a\t\tget\t0x 43 4c 55 49 01 00 00 00 00 00 00 00 07 00 00 00 08 00 00 00 93 08 40 00 37 05 01 00 13 05 05 \
    02 93 05 30 00 73 00 00 00 93 08 00 00 73 00 00 00 68 69 0a 00 00 00 00 00\tgives 24\t\tfile fault: a\n\0\
";

/// How many rows `OTHER_STATUSES` has besides comments.
pub const OTHER_STATUSES_COUNT: usize = 97;

/// Rows of the other commands, and of words that are none, in the same form.
pub const OTHER_STATUSES: &str = "\
    print a\t\t\tp=PROC()x:int:=1+2 ;END P\tgives 0\tp = proc ()\n  x: int := 1 + 2\nend p\n\t\0\
    print c\t\t\tstart_up = proc () @\"hi\") end start_up\tgives 10\t\tno file: c\n\0\
    print a\t\t\t`\tgives 11\t\ta:1:1: V1 Token\n\0\
    print a\t\t\tstart_up = proc ()\n\tgives 11\t\ta:2:1: V2 Syntax\n\0\
    print a\t\t\t^201^(^\tgives 11\t\ta:1:201: V3 TooDeep\n\0\
    print a\t\t\tp = proc () y() end q\tgives 0\tp = proc ()\n  y()\nend q\n\t\0\
    print a\t\twrite\tp = proc () end p\tgives 23\t\twrite fault\n\0\
    print a\t\tget\tp = proc () end p\tgives 24\t\tfile fault: a\n\0\
    print a\t\t\t^1048577^%^\tgives 26\t\tsource too large: a\n\0\
    gen 1\t\t\t\tgives 0\tm1 = proc (x: int) returns (int)\nfor i: int in int$from_to(1, 1) do\nx := (x * 31 + i) // \
    1000000\nend\nreturn (x)\nend m1\nstart_up = proc ()\nx: int := 1\nx := \
    m1(x)\nstream$putl(stream$primary_output(), int$unparse(x))\nend start_up\n\t\0\
    gen 2\t\t\t\tgives 0\tm1 = proc (x: int) returns (int)\nfor i: int in int$from_to(1, 1) do\nx := (x * 31 + i) // \
    1000000\nend\nreturn (x)\nend m1\nm2 = proc (x: int) returns (int)\nfor i: int in int$from_to(1, 2) do\nx := (x \
    * 31 + i) // 1000000\nend\nreturn (x)\nend m2\nstart_up = proc ()\nx: int := 1\nx := m1(x)\nx := \
    m2(x)\nstream$putl(stream$primary_output(), int$unparse(x))\nend start_up\n\t\0\
    gen 2\t\twrite\t\tgives 23\t\twrite fault\n\0\
    gen 0\t\t\t\tgives 2\t\tusage: clu go|spec|replace|compile|link|run|exec|gen|list|asm|print|xref\n\0\
    gen 501\t\t\t\tgives 2\t\tusage: clu go|spec|replace|compile|link|run|exec|gen|list|asm|print|xref\n\0\
    spec a c\t\t\tstart_up = proc () @\"hi\") end start_up\tgives 10\t\tno file: c\n\0\
    replace a c\t\t\tstart_up = proc () @\"hi\") end start_up\tgives 10\t\tno file: c\n\0\
    compile a c\t\t\tstart_up = proc () @\"hi\") end start_up\tgives 10\t\tno file: c\n\0\
    link a c d\t\t\tstart_up = proc () @\"hi\") end start_up\tgives 12\t\tlibrary bad at 0\n\0\
    run a c\t\t\tstart_up = proc () @\"hi\") end start_up\tgives 12\t\tlibrary bad at 0\n\0\
    list a\t\t\t0x 43 4c 55 49 01 00 00 00 00 00 00 00 07 00 00 00 08 00 00 00 93 08 40 00 37 05 01 00 13 05 05 02 \
    93 05 30 00 73 00 00 00 93 08 00 00 73 00 00 00 68 69 0a 00 00 00 00 00\tgives 0\tentry 0\naddi x17,x0,4\nlui \
    x10,65536\naddi x10,x10,32\naddi x11,x0,3\necall\naddi x17,x0,0\necall\ndata 68690a0000000000\n\t\0\
    list a\t\t\t0x 43 4c 55 49 01 00 00 00 00 00 00 00 01 00 00 00 00 00 00 00 00 00 00 00\tgives 0\tentry 0\nword \
    00000000\n\t\0\
    list c\t\t\tCLU\tgives 10\t\tno file: c\n\0\
    list a\t\t\tCLU\tgives 20\t\timage bad at 0\n\0\
    list a\t\twrite\t0x 43 4c 55 49 01 00 00 00 00 00 00 00 01 00 00 00 00 00 00 00 00 00 00 00\tgives 23\t\twrite \
    fault\n\0\
    list a\t\tget\tCLU\tgives 24\t\tfile fault: a\n\0\
    asm a b\t\t\tentry 0\naddi x17,x0,4\nlui x10,65536\naddi x10,x10,32\naddi x11,x0,3\necall\naddi \
    x17,x0,0\necall\ndata 68690a0000000000\n\tgives 0\t\t\0\
    asm c b\t\t\tentry 0\necall\n\tgives 10\t\tno file: c\n\0\
    asm a b\t\tget\tentry 0\n\tgives 24\t\tfile fault: a\n\0\
    asm a b\t\tput\tentry 0\necall\n\tgives 24\t\tfile fault: b\n\0\
    asm a b\t\tput\tecall\n\tgives 30\t\tasm bad at 0\n\0\
    asm a b\t\t\tentry 0\necall\nx\n\tgives 30\t\tasm bad at 14\n\0\
    asm a b\t\t\tentry 0\necall\nx\tgives 30\t\tasm bad at 15\n\0\
    asm a b\t\twrite\tentry 0\necall\n\tgives 0\t\t\0\
    xref a\t\t\tstart_up = proc () @\"hi\") end start_up\tgives 12\t\tlibrary bad at 0\n\0\
    spec e a\t\t\tp = proc () end p\tgives 0\t\t\0\
    spec e a\t\t\t`\tgives 11\t\ta:1:1: V1 Token\n\0\
    spec e a\t\t\tp = proc () end p;\tgives 11\t\ta:1:18: V2 Syntax\n\0\
    spec e a\t\t\tp = proc (x: y) end p\tgives 11\t\ta:1:14: V5 UnknownName\n\0\
    spec a a\t\t\tCLU\tgives 12\t\tlibrary bad at 0\n\0\
    spec e a\t\tget\tp = proc () end p\tgives 24\t\tfile fault: e\n\0\
    spec e a\t\tput\tp = proc () end p\tgives 24\t\tfile fault: a\n\0\
    spec e a\t\tlast\tp = proc () end p\tgives 24\t\tfile fault: e\n\0\
    spec e a\t\t\t^1048577^%^\tgives 26\t\tsource too large: a\n\0\
    spec e a\t\t\t^4097^k? = proc () end k? ^\tgives 21\t\tlibrary full\n\0\
    replace e a\t\t\tp = proc () end p\tgives 0\t\t\0\
    replace e a\t\t\t`\tgives 11\t\ta:1:1: V1 Token\n\0\
    replace e a\t\t\tp = proc () end p;\tgives 11\t\ta:1:18: V2 Syntax\n\0\
    replace e a\t\t\tp = proc (x: y) end p\tgives 11\t\ta:1:14: V5 UnknownName\n\0\
    replace a a\t\t\tCLU\tgives 12\t\tlibrary bad at 0\n\0\
    replace e a\t\tget\tp = proc () end p\tgives 24\t\tfile fault: e\n\0\
    replace e a\t\tput\tp = proc () end p\tgives 24\t\tfile fault: a\n\0\
    replace e a\t\tlast\tp = proc () end p\tgives 24\t\tfile fault: e\n\0\
    replace e a\t\t\t^1048577^%^\tgives 26\t\tsource too large: a\n\0\
    replace e a\t\t\t^4097^k? = proc () end k? ^\tgives 21\t\tlibrary full\n\0\
    compile e a\t\t\tp = proc () end p\tgives 0\t\t\0\
    compile e a\t\t\t`\tgives 11\t\ta:1:1: V1 Token\n\0\
    compile e a\t\t\tp = proc () end p;\tgives 11\t\ta:1:18: V2 Syntax\n\0\
    compile e a\t\t\tp = proc (x: y) end p\tgives 11\t\ta:1:14: V5 UnknownName\n\0\
    compile a a\t\t\tCLU\tgives 12\t\tlibrary bad at 0\n\0\
    compile e a\t\tget\tp = proc () end p\tgives 24\t\tfile fault: e\n\0\
    compile e a\t\tput\tp = proc () end p\tgives 24\t\tfile fault: a\n\0\
    compile e a\t\tlast\tp = proc () end p\tgives 24\t\tfile fault: e\n\0\
    compile e a\t\t\t^1048577^%^\tgives 26\t\tsource too large: a\n\0\
    compile e a\t\t\t^4097^k? = proc () end k? ^\tgives 21\t\tlibrary full\n\0\
    spec e a\t\t\tp = proc () q() end q\tgives 0\t\t\0\
    replace e a\t\t\tp = proc () q() end q\tgives 0\t\t\0\
    compile e a\t\t\tp = proc () q() end p\tgives 11\t\ta:1:13: V5 UnknownName\n\0\
    link e p p\t\t\t\tgives 14\t\tno module: p\n\0\
    link e p MAIN\t\t\t\tgives 14\t\tno module: main\n\0\
    link a p p\t\t\tCLU\tgives 12\t\tlibrary bad at 0\n\0\
    link a p p\t\tget\tCLU\tgives 24\t\tfile fault: a\n\0\
    run e g\t\t\t\tgives 19\t\tno program: g\n\0\
    run a g\t\t\tCLU\tgives 12\t\tlibrary bad at 0\n\0\
    run a g\t\tget\tCLU\tgives 24\t\tfile fault: a\n\0\
    xref e\t\t\t\tgives 0\t\t\0\
    xref e\t\twrite\t\tgives 0\t\t\0\
    xref a\t\t\tCLU\tgives 12\t\tlibrary bad at 0\n\0\
    xref a\t\tget\tCLU\tgives 24\t\tfile fault: a\n\0\
    go a\t\t\tstart_up = proc () @\"hi\") end start_up\tgives 2\t\tusage: clu \
    go|spec|replace|compile|link|run|exec|gen|list|asm|print|xref\n\0\
    exec\t\t\tstart_up = proc () @\"hi\") end start_up\tgives 2\t\tusage: clu \
    go|spec|replace|compile|link|run|exec|gen|list|asm|print|xref\n\0\
    gen\t\t\tstart_up = proc () @\"hi\") end start_up\tgives 2\t\tusage: clu \
    go|spec|replace|compile|link|run|exec|gen|list|asm|print|xref\n\0\
    print\t\t\tstart_up = proc () @\"hi\") end start_up\tgives 2\t\tusage: clu \
    go|spec|replace|compile|link|run|exec|gen|list|asm|print|xref\n\0\
    spec a\t\t\tstart_up = proc () @\"hi\") end start_up\tgives 2\t\tusage: clu \
    go|spec|replace|compile|link|run|exec|gen|list|asm|print|xref\n\0\
    replace a\t\t\tstart_up = proc () @\"hi\") end start_up\tgives 2\t\tusage: clu \
    go|spec|replace|compile|link|run|exec|gen|list|asm|print|xref\n\0\
    compile a\t\t\tstart_up = proc () @\"hi\") end start_up\tgives 2\t\tusage: clu \
    go|spec|replace|compile|link|run|exec|gen|list|asm|print|xref\n\0\
    link a c\t\t\tstart_up = proc () @\"hi\") end start_up\tgives 2\t\tusage: clu \
    go|spec|replace|compile|link|run|exec|gen|list|asm|print|xref\n\0\
    run a\t\t\tstart_up = proc () @\"hi\") end start_up\tgives 2\t\tusage: clu \
    go|spec|replace|compile|link|run|exec|gen|list|asm|print|xref\n\0\
    list\t\t\tstart_up = proc () @\"hi\") end start_up\tgives 2\t\tusage: clu \
    go|spec|replace|compile|link|run|exec|gen|list|asm|print|xref\n\0\
    asm a\t\t\tstart_up = proc () @\"hi\") end start_up\tgives 2\t\tusage: clu \
    go|spec|replace|compile|link|run|exec|gen|list|asm|print|xref\n\0\
    xref\t\t\tstart_up = proc () @\"hi\") end start_up\tgives 2\t\tusage: clu \
    go|spec|replace|compile|link|run|exec|gen|list|asm|print|xref\n\0\
    --help\t\t\t\tgives 2\t\tusage: clu go|spec|replace|compile|link|run|exec|gen|list|asm|print|xref\n\0\
    help\t\t\t\tgives 2\t\tusage: clu go|spec|replace|compile|link|run|exec|gen|list|asm|print|xref\n\0\
    \t\t\t\tgives 2\t\tusage: clu go|spec|replace|compile|link|run|exec|gen|list|asm|print|xref\n\0\
    go a b --steps 0\t\t\tstart_up = proc () @\"hi\") end start_up\tgives 2\t\tusage: clu \
    go|spec|replace|compile|link|run|exec|gen|list|asm|print|xref\n\0\
    go a b\t\t\t\tgives 11\t\ta:1:1: V2 Syntax\n\0\
    go a b\t\t\tstart_up = proc ()\n\tgives 11\t\ta:2:1: V2 Syntax\n\0\
    go a b\t\t\tstart_up = proc () x: int := 1 end start_up\tgives 0\t\t\0\
";

/// How many rows `RULES` has besides comments.
pub const RULES_COUNT: usize = 12;

/// Rows of sources that a rule on modules refuses, and of programs that write string literals, in the same form.
pub const RULES: &str = "\
    go a b\t\t\tstart_up = proc () x: int := y end start_up\tgives 11\t\ta:1:30: V5 UnknownName\n\0\
    go a b\t\t\tstart_up = proc () break end start_up\tgives 11\t\ta:1:20: V28 NotInLoop\n\0\
    go a b\t\t\tstart_up = proc () signal e end start_up\tgives 11\t\ta:1:20: V25 SignalNotListed\n\0\
    go a b\t\t\tstart_up = proc () end go\tgives 11\t\ta:1:1: V34 EndName\n\0\
    go a b\t\t\tp = proc () q() end p q = proc (x: int) end q\tgives 11\t\ta:1:14: V12 ArgumentCount\n\0\
    go a b\t\t\tstart_up = proc ()\na: array[int] := down(box$make())\nend start_up\nbox = cluster is make rep = \
    array[int] make = proc () returns (cvt) return (rep$new()) end make end box\tgives 11\t\ta:2:18: V32 UpDown\n\0\
    go a b\t\t\tSTART_UP = proc () % note\nstream$puts(stream$primary_output(), \"a\\tb\\101\"); end \
    start_up\n\tgives 0\ta\tbA\t\0\
    go a b\t\t\tSTART_UP = proc () % note\nstream$puts(stream$primary_output(), \"a\\tb\\101\"); end start_up\tgives \
    0\ta\tbA\t\0\
    go a b\t\t\tstart_up = proc () stream$puts(stream$primary_output(), \"\\400\") end start_up\tgives 11\t\ta:1:57: \
    V4 LiteralRange\n\0\
    go a b\t\t\tstart_up = proc () stream$puts(stream$primary_output(), \"a\") return end start_up\tgives 0\ta\t\0\
    go a b\t\t\tstart_up = proc () stream$putc(stream$primary_output(), \"a\") end start_up\tgives 11\t\ta:1:31: V13 \
    ArgumentType\n\0\
    go a b\t\t\tstart_up = proc () stream[int]$puts(stream$primary_output(), \"a\") end start_up\tgives \
    11\t\ta:1:20: V19 ParameterKind\n\0\
";
