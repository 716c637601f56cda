//! The order of refusals: pairs of causes that stand together in one call, of which the first in the order is answered.

/// How many rows `GO_PAIRS` has besides comments.
pub const GO_PAIRS_COUNT: usize = 135;

/// Rows of `go`, as those of `status_rows`, in the order of the first causes: the words, a read that fails, no file,
/// the size of the source, V1, V3 by levels, V2, V3 by depth, V4 to V37, a full library, the start, instances, their weight,
/// the put, the run; and each with a line that cannot be written.
pub const GO_PAIRS: &str = "\
    go a\t\tget\tstart_up = proc () @\"hi\") end start_up\tgives 2\t\tusage: clu \
    go|spec|replace|compile|link|run|exec|gen|list|asm|print|xref\n\0\
    go c\t\t\tstart_up = proc () @\"hi\") end start_up\tgives 2\t\tusage: clu \
    go|spec|replace|compile|link|run|exec|gen|list|asm|print|xref\n\0\
    go a\t\t\t^1048577^%^\tgives 2\t\tusage: clu go|spec|replace|compile|link|run|exec|gen|list|asm|print|xref\n\0\
    go a\t\t\t`\tgives 2\t\tusage: clu go|spec|replace|compile|link|run|exec|gen|list|asm|print|xref\n\0\
    go a\t\t\t)\tgives 2\t\tusage: clu go|spec|replace|compile|link|run|exec|gen|list|asm|print|xref\n\0\
    go a\t\t\t^201^(^\tgives 2\t\tusage: clu go|spec|replace|compile|link|run|exec|gen|list|asm|print|xref\n\0\
    go a\t\t\tz = proc () x: int := 9223372036854775808 end z \tgives 2\t\tusage: clu \
    go|spec|replace|compile|link|run|exec|gen|list|asm|print|xref\n\0\
    go a\t\t\t^4097^k? = proc () end k? ^\tgives 2\t\tusage: clu \
    go|spec|replace|compile|link|run|exec|gen|list|asm|print|xref\n\0\
    go a\t\t\tp = proc () end p\tgives 2\t\tusage: clu \
    go|spec|replace|compile|link|run|exec|gen|list|asm|print|xref\n\0\
    go a\t\t\tstart_up = proc (x: int) end start_up\tgives 2\t\tusage: clu \
    go|spec|replace|compile|link|run|exec|gen|list|asm|print|xref\n\0\
    go a\t\t\tq = proc [a, b: int] () end q r = proc [a: int] () ^64^q[a, ?]() ^end r start_up = proc () ^64^r[?]() \
    ^end start_up\tgives 2\t\tusage: clu go|spec|replace|compile|link|run|exec|gen|list|asm|print|xref\n\0\
    go a\t\t\tp = proc [n: int] () x: int := 0 ^900^x := x + n ^if x ~= 900 * n then signal failure(\"sum\") end end \
    p start_up = proc () ^80^p[?]() ^end start_up\tgives 2\t\tusage: clu \
    go|spec|replace|compile|link|run|exec|gen|list|asm|print|xref\n\0\
    go a\t\tput\tstart_up = proc () @\"hi\") end start_up\tgives 2\t\tusage: clu \
    go|spec|replace|compile|link|run|exec|gen|list|asm|print|xref\n\0\
    go a\t\t\tstart_up = proc () signal failure(\"why\") end start_up\tgives 2\t\tusage: clu \
    go|spec|replace|compile|link|run|exec|gen|list|asm|print|xref\n\0\
    go a b c\t\twrite\tstart_up = proc () @\"hi\") end start_up\tgives 2\t\tusage: clu \
    go|spec|replace|compile|link|run|exec|gen|list|asm|print|xref\n\0\
    go c b --steps 0\t\t\tstart_up = proc () @\"hi\") end start_up\tgives 2\t\tusage: clu \
    go|spec|replace|compile|link|run|exec|gen|list|asm|print|xref\n\0\
    go c b\t\tget\tstart_up = proc () @\"hi\") end start_up\tgives 24\t\tfile fault: c\n\0\
    go a b\t\tget\t^1048577^%^\tgives 24\t\tfile fault: a\n\0\
    go a b\t\tget\t`\tgives 24\t\tfile fault: a\n\0\
    go a b\t\tget\t)\tgives 24\t\tfile fault: a\n\0\
    go a b\t\tget\t^201^(^\tgives 24\t\tfile fault: a\n\0\
    go a b\t\tget\tz = proc () x: int := 9223372036854775808 end z \tgives 24\t\tfile fault: a\n\0\
    go a b\t\tget\t^4097^k? = proc () end k? ^\tgives 24\t\tfile fault: a\n\0\
    go a b\t\tget\tp = proc () end p\tgives 24\t\tfile fault: a\n\0\
    go a b\t\tget\tstart_up = proc (x: int) end start_up\tgives 24\t\tfile fault: a\n\0\
    go a b\t\tget\tq = proc [a, b: int] () end q r = proc [a: int] () ^64^q[a, ?]() ^end r start_up = proc () \
    ^64^r[?]() ^end start_up\tgives 24\t\tfile fault: a\n\0\
    go a b\t\tget\tp = proc [n: int] () x: int := 0 ^900^x := x + n ^if x ~= 900 * n then signal failure(\"sum\") \
    end end p start_up = proc () ^80^p[?]() ^end start_up\tgives 24\t\tfile fault: a\n\0\
    go a b\t\tget\tstart_up = proc () signal failure(\"why\") end start_up\tgives 24\t\tfile fault: a\n\0\
    go a b\t\tget put\tstart_up = proc () @\"hi\") end start_up\tgives 24\t\tfile fault: a\n\0\
    go a b\t\tget write\tstart_up = proc () @\"hi\") end start_up\tgives 24\t\tfile fault: a\n\0\
    go --steps 1 a b\t\tget\tstart_up = proc () @\"hi\") end start_up\tgives 24\t\tfile fault: a\n\0\
    go c b\t\tput\tstart_up = proc () @\"hi\") end start_up\tgives 10\t\tno file: c\n\0\
    go c b\t\twrite\tstart_up = proc () @\"hi\") end start_up\tgives 10\t\tno file: c\n\0\
    go --steps 1 c b\t\t\tstart_up = proc () @\"hi\") end start_up\tgives 10\t\tno file: c\n\0\
    go a b\t\t\t`^1048576^%^\tgives 26\t\tsource too large: a\n\0\
    go a b\t\t\t)^1048576^%^\tgives 26\t\tsource too large: a\n\0\
    go a b\t\t\t^201^(^^1048576^%^\tgives 26\t\tsource too large: a\n\0\
    go a b\t\t\tz = proc () x: int := 9223372036854775808 end z ^1048576^%^\tgives 26\t\tsource too large: a\n\0\
    go a b\t\t\t^4097^k? = proc () end k? ^^1048576^%^\tgives 26\t\tsource too large: a\n\0\
    go a b\t\t\tp = proc () end p^1048576^%^\tgives 26\t\tsource too large: a\n\0\
    go a b\t\t\tstart_up = proc (x: int) end start_up^1048576^%^\tgives 26\t\tsource too large: a\n\0\
    go a b\t\t\tq = proc [a, b: int] () end q r = proc [a: int] () ^64^q[a, ?]() ^end r start_up = proc () \
    ^64^r[?]() ^end start_up^1048576^%^\tgives 26\t\tsource too large: a\n\0\
    go a b\t\t\tp = proc [n: int] () x: int := 0 ^900^x := x + n ^if x ~= 900 * n then signal failure(\"sum\") end \
    end p start_up = proc () ^80^p[?]() ^end start_up^1048576^%^\tgives 26\t\tsource too large: a\n\0\
    go a b\t\t\tstart_up = proc () signal failure(\"why\") end start_up^1048576^%^\tgives 26\t\tsource too large: \
    a\n\0\
    go a b\t\tput\tstart_up = proc () @\"hi\") end start_up^1048576^%^\tgives 26\t\tsource too large: a\n\0\
    go a b\t\twrite\tstart_up = proc () @\"hi\") end start_up^1048576^%^\tgives 26\t\tsource too large: a\n\0\
    go a b\t\t\t) `\tgives 11\t\ta:1:3: V1 Token\n\0\
    go a b\t\t\t^201^(^`\tgives 11\t\ta:1:202: V1 Token\n\0\
    go a b\t\t\tp = proc () x: bool := ^201^~^b ` end p\tgives 11\t\ta:1:227: V1 Token\n\0\
    go a b\t\t\tp = proc () x: int := 9223372036854775808 ` end p\tgives 11\t\ta:1:43: V1 Token\n\0\
    go a b\t\t\tp = proc () end p `\tgives 11\t\ta:1:19: V1 Token\n\0\
    go a b\t\t\tstart_up = proc (x: int) end start_up `\tgives 11\t\ta:1:39: V1 Token\n\0\
    go a b\t\t\t` ^4097^k? = proc () end k? ^\tgives 11\t\ta:1:1: V1 Token\n\0\
    go a b\t\t\t` q = proc [a, b: int] () end q r = proc [a: int] () ^64^q[a, ?]() ^end r start_up = proc () \
    ^64^r[?]() ^end start_up\tgives 11\t\ta:1:1: V1 Token\n\0\
    go a b\t\t\t` p = proc [n: int] () x: int := 0 ^900^x := x + n ^if x ~= 900 * n then signal failure(\"sum\") end \
    end p start_up = proc () ^80^p[?]() ^end start_up\tgives 11\t\ta:1:1: V1 Token\n\0\
    go a b\t\tput\t` start_up = proc () @\"hi\") end start_up\tgives 11\t\ta:1:1: V1 Token\n\0\
    go a b\t\t\t` start_up = proc () signal failure(\"why\") end start_up\tgives 11\t\ta:1:1: V1 Token\n\0\
    go a b\t\t\t) ^201^(^\tgives 11\t\ta:1:203: V3 TooDeep\n\0\
    go a b\t\t\tp = proc () x: bool := ^201^~^b y: int := ^200^(^1^200^)^ end p\tgives 11\t\ta:1:436: V3 TooDeep\n\0\
    go a b\t\t\tp = proc () x: int := 9223372036854775808 y: int := ^200^(^1^200^)^ end p\tgives 11\t\ta:1:252: V3 \
    TooDeep\n\0\
    go a b\t\t\tp = proc () x: int := ^200^(^1^200^)^ end p\tgives 11\t\ta:1:222: V3 TooDeep\n\0\
    go a b\t\t\tstart_up = proc (x: int) y: int := ^200^(^1^200^)^ end start_up\tgives 11\t\ta:1:235: V3 TooDeep\n\0\
    go a b\t\t\tp = proc () x: int := ^200^(^1^200^)^ end p ^4097^k? = proc () end k? ^\tgives 11\t\ta:1:222: V3 \
    TooDeep\n\0\
    go a b\t\tput\tp = proc () x: int := ^200^(^1^200^)^ end p\tgives 11\t\ta:1:222: V3 TooDeep\n\0\
    go a b\t\t\tp = proc () x: bool := ^201^~^b ) end p\tgives 11\t\ta:1:227: V2 Syntax\n\0\
    go a b\t\t\tp = proc () x: int := 9223372036854775808 ) end p\tgives 11\t\ta:1:43: V2 Syntax\n\0\
    go a b\t\t\tp = proc () ) end p\tgives 11\t\ta:1:13: V2 Syntax\n\0\
    go a b\t\t\tstart_up = proc (x: int) ) end start_up\tgives 11\t\ta:1:26: V2 Syntax\n\0\
    go a b\t\t\t) ^4097^k? = proc () end k? ^\tgives 11\t\ta:1:1: V2 Syntax\n\0\
    go a b\t\t\t) q = proc [a, b: int] () end q r = proc [a: int] () ^64^q[a, ?]() ^end r start_up = proc () \
    ^64^r[?]() ^end start_up\tgives 11\t\ta:1:1: V2 Syntax\n\0\
    go a b\t\t\t) p = proc [n: int] () x: int := 0 ^900^x := x + n ^if x ~= 900 * n then signal failure(\"sum\") end \
    end p start_up = proc () ^80^p[?]() ^end start_up\tgives 11\t\ta:1:1: V2 Syntax\n\0\
    go a b\t\tput\t) start_up = proc () @\"hi\") end start_up\tgives 11\t\ta:1:1: V2 Syntax\n\0\
    go a b\t\t\t) start_up = proc () signal failure(\"why\") end start_up\tgives 11\t\ta:1:1: V2 Syntax\n\0\
    go a b\t\t\tp = proc () x: int := 9223372036854775808 y: bool := ^201^~^b end p\tgives 11\t\ta:1:251: V3 \
    TooDeep\n\0\
    go a b\t\t\tp = proc () x: bool := ^201^~^true end p\tgives 11\t\ta:1:221: V3 TooDeep\n\0\
    go a b\t\t\tp = proc () x: bool := ^201^~^true end p ^4097^k? = proc () end k? ^\tgives 11\t\ta:1:221: V3 \
    TooDeep\n\0\
    go a b\t\tput\tp = proc () x: bool := ^201^~^true end p\tgives 11\t\ta:1:221: V3 TooDeep\n\0\
    go a b\t\t\tz = proc () x: int := 9223372036854775808 end z ^4097^k? = proc () end k? ^\tgives 11\t\ta:1:23: V4 \
    LiteralRange\n\0\
    go a b\t\t\tz = proc () x: int := 9223372036854775808 end z \tgives 11\t\ta:1:23: V4 LiteralRange\n\0\
    go a b\t\t\tstart_up = proc (x: int) y: int := 9223372036854775808 end start_up\tgives 11\t\ta:1:36: V4 \
    LiteralRange\n\0\
    go a b\t\t\tz = proc () x: int := 9223372036854775808 end z q = proc [a, b: int] () end q r = proc [a: int] () \
    ^64^q[a, ?]() ^end r start_up = proc () ^64^r[?]() ^end start_up\tgives 11\t\ta:1:23: V4 LiteralRange\n\0\
    go a b\t\t\tz = proc () x: int := 9223372036854775808 end z p = proc [n: int] () x: int := 0 ^900^x := x + n ^if \
    x ~= 900 * n then signal failure(\"sum\") end end p start_up = proc () ^80^p[?]() ^end start_up\tgives \
    11\t\ta:1:23: V4 LiteralRange\n\0\
    go a b\t\tput\tz = proc () x: int := 9223372036854775808 end z start_up = proc () @\"hi\") end start_up\tgives \
    11\t\ta:1:23: V4 LiteralRange\n\0\
    go a b\t\t\tz = proc () x: int := 9223372036854775808 end z start_up = proc () signal failure(\"why\") end \
    start_up\tgives 11\t\ta:1:23: V4 LiteralRange\n\0\
    go --steps 1 a b\t\t\tz = proc () x: int := 9223372036854775808 end z start_up = proc () @\"hi\") end \
    start_up\tgives 11\t\ta:1:23: V4 LiteralRange\n\0\
    go a b\t\twrite\tz = proc () x: int := 9223372036854775808 end z start_up = proc () @\"hi\") end start_up\tgives \
    11\t\ta:1:23: V4 LiteralRange\n\0\
    go a b\t\t\t^4097^k? = proc () end k? ^\tgives 21\t\tlibrary full\n\0\
    go a b\t\t\t^4097^k? = proc () end k? ^start_up = proc (x: int) end start_up\tgives 21\t\tlibrary full\n\0\
    go a b\t\t\t^4097^k? = proc () end k? ^q = proc [a, b: int] () end q r = proc [a: int] () ^64^q[a, ?]() ^end r \
    start_up = proc () ^64^r[?]() ^end start_up\tgives 21\t\tlibrary full\n\0\
    go a b\t\t\t^4097^k? = proc () end k? ^p = proc [n: int] () x: int := 0 ^900^x := x + n ^if x ~= 900 * n then \
    signal failure(\"sum\") end end p start_up = proc () ^80^p[?]() ^end start_up\tgives 21\t\tlibrary full\n\0\
    go a b\t\tput\t^4097^k? = proc () end k? ^start_up = proc () @\"hi\") end start_up\tgives 21\t\tlibrary full\n\0\
    go a b\t\t\t^4097^k? = proc () end k? ^start_up = proc () signal failure(\"why\") end start_up\tgives \
    21\t\tlibrary full\n\0\
    go --steps 1 a b\t\t\t^4097^k? = proc () end k? ^start_up = proc () @\"hi\") end start_up\tgives 21\t\tlibrary \
    full\n\0\
    go a b\t\tput\tp = proc () end p\tgives 14\t\tno module: start_up\n\0\
    go --steps 1 a b\t\t\tp = proc () end p\tgives 14\t\tno module: start_up\n\0\
    go a b\t\twrite\tp = proc () end p\tgives 14\t\tno module: start_up\n\0\
    go a b\t\tput\tstart_up = proc (x: int) end start_up\tgives 16\t\tbad start: start_up\n\0\
    go --steps 1 a b\t\t\tstart_up = proc (x: int) end start_up\tgives 16\t\tbad start: start_up\n\0\
    go a b\t\twrite\tstart_up = proc (x: int) end start_up\tgives 16\t\tbad start: start_up\n\0\
    go a b\t\t\tp = proc [n: int] () x: int := 0 ^900^x := x + n ^if x ~= 900 * n then signal failure(\"sum\") end \
    end p q = proc [a, b: int] () end q r = proc [a: int] () ^64^q[a, ?]() ^end r start_up = proc () ^64^r[?]() \
    ^^80^p[?]() ^end start_up\tgives 17\t\ttoo many instances\n\0\
    go a b\t\tput\tq = proc [a, b: int] () end q r = proc [a: int] () ^64^q[a, ?]() ^end r start_up = proc () \
    ^64^r[?]() ^end start_up\tgives 17\t\ttoo many instances\n\0\
    go --steps 1 a b\t\t\tq = proc [a, b: int] () end q r = proc [a: int] () ^64^q[a, ?]() ^end r start_up = proc () \
    ^64^r[?]() ^end start_up\tgives 17\t\ttoo many instances\n\0\
    go a b\t\tput\tp = proc [n: int] () x: int := 0 ^900^x := x + n ^if x ~= 900 * n then signal failure(\"sum\") \
    end end p start_up = proc () ^80^p[?]() ^end start_up\tgives 18\t\tprogram too large\n\0\
    go --steps 1 a b\t\t\tp = proc [n: int] () x: int := 0 ^900^x := x + n ^if x ~= 900 * n then signal \
    failure(\"sum\") end end p start_up = proc () ^80^p[?]() ^end start_up\tgives 18\t\tprogram too large\n\0\
    go a b\t\tput\tstart_up = proc () signal failure(\"why\") end start_up\tgives 24\t\tfile fault: b\n\0\
    go a b\t\tput\tstart_up = proc () a: array[int] := array[int]$new() while true do array[int]$addh(a, 1) end end \
    start_up\tgives 24\t\tfile fault: b\n\0\
    go a b\t\tput\tr = proc () r() end r start_up = proc () r() end start_up\tgives 24\t\tfile fault: b\n\0\
    go --steps 1 a b\t\tput\tstart_up = proc () @\"hi\") end start_up\tgives 24\t\tfile fault: b\n\0\
    go a b\t\tput read\tstart_up = proc () @\"a\") @stream$getl(stream$primary_input())) end start_up\tgives \
    24\t\tfile fault: b\n\0\
    go a b\t\tput write\tstart_up = proc () @\"hi\") end start_up\tgives 24\t\tfile fault: b\n\0\
    go a b\t\twrite\tstart_up = proc () @\"a\") signal failure(\"why\") end start_up\tgives 23\t\twrite fault\n\0\
    go a b\t\twrite\tstart_up = proc () signal failure(\"why\") end start_up\tgives 1\t\tfailure: why\n\0\
    go a b\t\tread write\tstart_up = proc () s: string := stream$getl(stream$primary_input()) @s) end \
    start_up\tgives 22\t\tread fault\n\0\
    go a b\t\tread write\tstart_up = proc () @\"a\") @stream$getl(stream$primary_input())) end start_up\tgives \
    23\t\twrite fault\n\0\
    go --steps 1 a b\t\twrite\tstart_up = proc () @\"hi\") end start_up\tgives 5\t\tsteps spent\n\0\
    go a\t\terrors\tstart_up = proc () @\"hi\") end start_up\tgives 23\t\t\0\
    go a b\t\tget errors\tstart_up = proc () @\"hi\") end start_up\tgives 23\t\t\0\
    go c b\t\terrors\tstart_up = proc () @\"hi\") end start_up\tgives 23\t\t\0\
    go a b\t\terrors\t^1048577^%^\tgives 23\t\t\0\
    go a b\t\terrors\t`\tgives 23\t\t\0\
    go a b\t\terrors\t)\tgives 23\t\t\0\
    go a b\t\terrors\t^201^(^\tgives 23\t\t\0\
    go a b\t\terrors\tz = proc () x: int := 9223372036854775808 end z \tgives 23\t\t\0\
    go a b\t\terrors\t^4097^k? = proc () end k? ^\tgives 23\t\t\0\
    go a b\t\terrors\tp = proc () end p\tgives 23\t\t\0\
    go a b\t\terrors\tstart_up = proc (x: int) end start_up\tgives 23\t\t\0\
    go a b\t\terrors\tq = proc [a, b: int] () end q r = proc [a: int] () ^64^q[a, ?]() ^end r start_up = proc () \
    ^64^r[?]() ^end start_up\tgives 23\t\t\0\
    go a b\t\terrors\tp = proc [n: int] () x: int := 0 ^900^x := x + n ^if x ~= 900 * n then signal failure(\"sum\") \
    end end p start_up = proc () ^80^p[?]() ^end start_up\tgives 23\t\t\0\
    go a b\t\tput errors\tstart_up = proc () @\"hi\") end start_up\tgives 23\t\t\0\
    go a b\t\terrors\tstart_up = proc () signal failure(\"why\") end start_up\tgives 23\t\t\0\
    go --store 4096 a b\t\terrors\tstart_up = proc () a: array[int] := array[int]$new() while true do \
    array[int]$addh(a, 1) end end start_up\tgives 23\t\t\0\
    go a b\t\terrors\tr = proc () r() end r start_up = proc () r() end start_up\tgives 23\t\t\0\
    go --steps 1 a b\t\terrors\tstart_up = proc () @\"hi\") end start_up\tgives 23\t\t\0\
    go a b\t\twrite errors\tstart_up = proc () @\"hi\") end start_up\tgives 23\t\t\0\
    go a b\t\tread errors\tstart_up = proc () @\"a\") @stream$getl(stream$primary_input())) end start_up\tgives \
    23\ta\n\t\0\
";

/// How many rows `OTHER_PAIRS` has besides comments.
pub const OTHER_PAIRS_COUNT: usize = 101;

/// Rows of the other commands, in the same form.
pub const OTHER_PAIRS: &str = "\
    exec c d\t\t\t0x 43 4c 55 49 01 00 00 00 00 00 00 00 07 00 00 00 08 00 00 00 93 08 40 00 37 05 01 00 13 05 05 02 \
    93 05 30 00 73 00 00 00 93 08 00 00 73 00 00 00 68 69 0a 00 00 00 00 00\tgives 2\t\tusage: clu \
    go|spec|replace|compile|link|run|exec|gen|list|asm|print|xref\n\0\
    exec a b\t\tget\t0x 43 4c 55 49 01 00 00 00 00 00 00 00 07 00 00 00 08 00 00 00 93 08 40 00 37 05 01 00 13 05 05 \
    02 93 05 30 00 73 00 00 00 93 08 00 00 73 00 00 00 68 69 0a 00 00 00 00 00\tgives 2\t\tusage: clu \
    go|spec|replace|compile|link|run|exec|gen|list|asm|print|xref\n\0\
    exec a b\t\t\tCLU\tgives 2\t\tusage: clu go|spec|replace|compile|link|run|exec|gen|list|asm|print|xref\n\0\
    exec c\t\tget\t0x 43 4c 55 49 01 00 00 00 00 00 00 00 07 00 00 00 08 00 00 00 93 08 40 00 37 05 01 00 13 05 05 \
    02 93 05 30 00 73 00 00 00 93 08 00 00 73 00 00 00 68 69 0a 00 00 00 00 00\tgives 24\t\tfile fault: c\n\0\
    exec a\t\tget\tCLU\tgives 24\t\tfile fault: a\n\0\
    exec --steps 1 a\t\tget\t0x 43 4c 55 49 01 00 00 00 00 00 00 00 07 00 00 00 08 00 00 00 93 08 40 00 37 05 01 00 \
    13 05 05 02 93 05 30 00 73 00 00 00 93 08 00 00 73 00 00 00 68 69 0a 00 00 00 00 00\tgives 24\t\tfile fault: a\n\0\
    exec --steps 1 c\t\t\t0x 43 4c 55 49 01 00 00 00 00 00 00 00 07 00 00 00 08 00 00 00 93 08 40 00 37 05 01 00 13 \
    05 05 02 93 05 30 00 73 00 00 00 93 08 00 00 73 00 00 00 68 69 0a 00 00 00 00 00\tgives 10\t\tno file: c\n\0\
    exec c\t\twrite\t0x 43 4c 55 49 01 00 00 00 00 00 00 00 07 00 00 00 08 00 00 00 93 08 40 00 37 05 01 00 13 05 05 \
    02 93 05 30 00 73 00 00 00 93 08 00 00 73 00 00 00 68 69 0a 00 00 00 00 00\tgives 10\t\tno file: c\n\0\
    exec --steps 1 a\t\t\tCLU\tgives 20\t\timage bad at 0\n\0\
    exec a\t\twrite\tCLU\tgives 20\t\timage bad at 0\n\0\
    exec --steps 1 a\t\twrite\t0x 43 4c 55 49 01 00 00 00 00 00 00 00 07 00 00 00 08 00 00 00 93 08 40 00 37 05 01 \
    00 13 05 05 02 93 05 30 00 73 00 00 00 93 08 00 00 73 00 00 00 68 69 0a 00 00 00 00 00\tgives 5\t\tsteps spent\n\0\
    exec a b\t\terrors\t0x 43 4c 55 49 01 00 00 00 00 00 00 00 07 00 00 00 08 00 00 00 93 08 40 00 37 05 01 00 13 05 \
    05 02 93 05 30 00 73 00 00 00 93 08 00 00 73 00 00 00 68 69 0a 00 00 00 00 00\tgives 23\t\t\0\
    exec a\t\tget errors\t0x 43 4c 55 49 01 00 00 00 00 00 00 00 07 00 00 00 08 00 00 00 93 08 40 00 37 05 01 00 13 \
    05 05 02 93 05 30 00 73 00 00 00 93 08 00 00 73 00 00 00 68 69 0a 00 00 00 00 00\tgives 23\t\t\0\
    exec c\t\terrors\t0x 43 4c 55 49 01 00 00 00 00 00 00 00 07 00 00 00 08 00 00 00 93 08 40 00 37 05 01 00 13 05 \
    05 02 93 05 30 00 73 00 00 00 93 08 00 00 73 00 00 00 68 69 0a 00 00 00 00 00\tgives 23\t\t\0\
    exec a\t\terrors\tCLU\tgives 23\t\t\0\
    exec a\t\terrors\t0x 43 4c 55 49 01 00 00 00 00 00 00 00 07 00 00 00 08 00 00 00 93 08 10 00 37 05 01 00 13 05 \
    05 02 93 05 20 00 73 00 00 00 93 08 00 00 73 00 00 00 68 69 0a 00 00 00 00 00\tgives 23\t\t\0\
    exec --steps 6 a\t\terrors\t0x 43 4c 55 49 01 00 00 00 00 00 00 00 07 00 00 00 08 00 00 00 93 08 40 00 37 05 01 \
    00 13 05 05 02 93 05 30 00 73 00 00 00 93 08 00 00 73 00 00 00 68 69 0a 00 00 00 00 00\tgives 23\thi\n\t\0\
    exec a\t\twrite errors\t0x 43 4c 55 49 01 00 00 00 00 00 00 00 07 00 00 00 08 00 00 00 93 08 40 00 37 05 01 00 \
    13 05 05 02 93 05 30 00 73 00 00 00 93 08 00 00 73 00 00 00 68 69 0a 00 00 00 00 00\tgives 23\t\t\0\
    exec a\t\tread errors\t0x 43 4c 55 49 01 00 00 00 00 00 00 00 02 00 00 00 00 00 00 00 93 08 50 00 73 00 00 \
    00\tgives 23\t\t\0\
    exec a\t\terrors\t0x 43 4c 55 49 01 00 00 00 00 00 00 00 01 00 00 00 00 00 00 00 00 00 00 00\tgives 23\t\t\0\
    print a b\t\t\t`\tgives 2\t\tusage: clu go|spec|replace|compile|link|run|exec|gen|list|asm|print|xref\n\0\
    print a b\t\tget\tp = proc () end p\tgives 2\t\tusage: clu \
    go|spec|replace|compile|link|run|exec|gen|list|asm|print|xref\n\0\
    print c d\t\t\tp = proc () end p\tgives 2\t\tusage: clu \
    go|spec|replace|compile|link|run|exec|gen|list|asm|print|xref\n\0\
    print c\t\tget\tp = proc () end p\tgives 24\t\tfile fault: c\n\0\
    print a\t\tget\t^1048577^%^\tgives 24\t\tfile fault: a\n\0\
    print a\t\tget\t`\tgives 24\t\tfile fault: a\n\0\
    print c\t\twrite\tp = proc () end p\tgives 10\t\tno file: c\n\0\
    print a\t\t\t`^1048576^%^\tgives 26\t\tsource too large: a\n\0\
    print a\t\t\t)^1048576^%^\tgives 26\t\tsource too large: a\n\0\
    print a\t\twrite\tp = proc () end p^1048576^%^\tgives 26\t\tsource too large: a\n\0\
    print a\t\t\t) `\tgives 11\t\ta:1:3: V1 Token\n\0\
    print a\t\t\t^201^(^`\tgives 11\t\ta:1:202: V1 Token\n\0\
    print a\t\t\t) ^201^(^\tgives 11\t\ta:1:203: V3 TooDeep\n\0\
    print a\t\t\tp = proc () x: bool := ^201^~^b ) end p\tgives 11\t\ta:1:227: V2 Syntax\n\0\
    print a\t\twrite\t`\tgives 11\t\ta:1:1: V1 Token\n\0\
    print a\t\twrite\t)\tgives 11\t\ta:1:1: V2 Syntax\n\0\
    print a\t\twrite\tp = proc () x: bool := ^201^~^true end p\tgives 11\t\ta:1:221: V3 TooDeep\n\0\
    print a\t\t\tz = proc () x: int := 9223372036854775808 end z \tgives 0\tz = proc ()\n  x: int := \
    9223372036854775808\nend z\n\t\0\
    print a b\t\terrors\tp = proc () end p\tgives 23\t\t\0\
    print a\t\tget errors\tp = proc () end p\tgives 23\t\t\0\
    print c\t\terrors\tp = proc () end p\tgives 23\t\t\0\
    print a\t\terrors\t^1048577^%^\tgives 23\t\t\0\
    print a\t\terrors\t`\tgives 23\t\t\0\
    print a\t\terrors\t)\tgives 23\t\t\0\
    print a\t\twrite errors\tp = proc () end p\tgives 23\t\t\0\
    gen 501\t\twrite\t\tgives 2\t\tusage: clu go|spec|replace|compile|link|run|exec|gen|list|asm|print|xref\n\0\
    gen 501\t\terrors\t\tgives 23\t\t\0\
    gen 1\t\twrite errors\t\tgives 23\t\t\0\
    gen 1\t\tget\t\tgives 0\tm1 = proc (x: int) returns (int)\nfor i: int in int$from_to(1, 1) do\nx := (x * 31 + i) \
    // 1000000\nend\nreturn (x)\nend m1\nstart_up = proc ()\nx: int := 1\nx := \
    m1(x)\nstream$putl(stream$primary_output(), int$unparse(x))\nend start_up\n\t\0\
    spec a c\t\tget put write\tstart_up = proc () @\"hi\") end start_up\tgives 24\t\tfile fault: a\n\0\
    replace a c\t\tget put write\tstart_up = proc () @\"hi\") end start_up\tgives 24\t\tfile fault: a\n\0\
    compile a c\t\tget put write\tstart_up = proc () @\"hi\") end start_up\tgives 24\t\tfile fault: a\n\0\
    link a c d\t\tget put write\tstart_up = proc () @\"hi\") end start_up\tgives 24\t\tfile fault: a\n\0\
    run a c\t\tget put write\tstart_up = proc () @\"hi\") end start_up\tgives 24\t\tfile fault: a\n\0\
    list a\t\tget put write\tstart_up = proc () @\"hi\") end start_up\tgives 24\t\tfile fault: a\n\0\
    asm a c\t\tget put write\tstart_up = proc () @\"hi\") end start_up\tgives 24\t\tfile fault: a\n\0\
    xref a\t\tget put write\tstart_up = proc () @\"hi\") end start_up\tgives 24\t\tfile fault: a\n\0\
    spec e c\t\t\tstart_up = proc () @\"hi\") end start_up\tgives 10\t\tno file: c\n\0\
    replace e c\t\t\tstart_up = proc () @\"hi\") end start_up\tgives 10\t\tno file: c\n\0\
    compile e c\t\t\tstart_up = proc () @\"hi\") end start_up\tgives 10\t\tno file: c\n\0\
    link e c d\t\t\tstart_up = proc () @\"hi\") end start_up\tgives 14\t\tno module: d\n\0\
    run e c\t\t\tstart_up = proc () @\"hi\") end start_up\tgives 19\t\tno program: c\n\0\
    list e\t\t\tstart_up = proc () @\"hi\") end start_up\tgives 10\t\tno file: e\n\0\
    asm e c\t\t\tstart_up = proc () @\"hi\") end start_up\tgives 10\t\tno file: e\n\0\
    xref e\t\t\tstart_up = proc () @\"hi\") end start_up\tgives 0\t\t\0\
    spec a c\t\terrors\tstart_up = proc () @\"hi\") end start_up\tgives 23\t\t\0\
    replace a c\t\terrors\tstart_up = proc () @\"hi\") end start_up\tgives 23\t\t\0\
    compile a c\t\terrors\tstart_up = proc () @\"hi\") end start_up\tgives 23\t\t\0\
    link a c d\t\terrors\tstart_up = proc () @\"hi\") end start_up\tgives 23\t\t\0\
    run a c\t\terrors\tstart_up = proc () @\"hi\") end start_up\tgives 23\t\t\0\
    list a\t\terrors\tstart_up = proc () @\"hi\") end start_up\tgives 23\t\t\0\
    asm a c\t\terrors\tstart_up = proc () @\"hi\") end start_up\tgives 23\t\t\0\
    xref a\t\terrors\tstart_up = proc () @\"hi\") end start_up\tgives 23\t\t\0\
    spec e c\t\tget\tp = proc () end p\tgives 24\t\tfile fault: e\n\0\
    spec a c\t\t\tCLU\tgives 10\t\tno file: c\n\0\
    spec a a\t\t\tCLU^1048577^%^\tgives 26\t\tsource too large: a\n\0\
    spec a a\t\terrors\tCLU\tgives 23\t\t\0\
    spec e a\t\tlast\tp = proc (x: y) end p\tgives 11\t\ta:1:14: V5 UnknownName\n\0\
    spec e a\t\tlast\t^4097^k? = proc () end k? ^\tgives 21\t\tlibrary full\n\0\
    spec e a\t\t\tp = proc (x: y) end p ^4097^k? = proc () end k? ^\tgives 11\t\ta:1:14: V5 UnknownName\n\0\
    spec e a\t\twrite\tp = proc () end p\tgives 0\t\t\0\
    replace e c\t\tget\tp = proc () end p\tgives 24\t\tfile fault: e\n\0\
    replace a c\t\t\tCLU\tgives 10\t\tno file: c\n\0\
    replace a a\t\t\tCLU^1048577^%^\tgives 26\t\tsource too large: a\n\0\
    replace a a\t\terrors\tCLU\tgives 23\t\t\0\
    replace e a\t\tlast\tp = proc (x: y) end p\tgives 11\t\ta:1:14: V5 UnknownName\n\0\
    replace e a\t\tlast\t^4097^k? = proc () end k? ^\tgives 21\t\tlibrary full\n\0\
    replace e a\t\t\tp = proc (x: y) end p ^4097^k? = proc () end k? ^\tgives 11\t\ta:1:14: V5 UnknownName\n\0\
    replace e a\t\twrite\tp = proc () end p\tgives 0\t\t\0\
    compile e c\t\tget\tp = proc () end p\tgives 24\t\tfile fault: e\n\0\
    compile a c\t\t\tCLU\tgives 10\t\tno file: c\n\0\
    compile a a\t\t\tCLU^1048577^%^\tgives 26\t\tsource too large: a\n\0\
    compile a a\t\terrors\tCLU\tgives 23\t\t\0\
    compile e a\t\tlast\tp = proc (x: y) end p\tgives 11\t\ta:1:14: V5 UnknownName\n\0\
    compile e a\t\tlast\t^4097^k? = proc () end k? ^\tgives 21\t\tlibrary full\n\0\
    compile e a\t\t\tp = proc (x: y) end p ^4097^k? = proc () end k? ^\tgives 11\t\ta:1:14: V5 UnknownName\n\0\
    compile e a\t\twrite\tp = proc () end p\tgives 0\t\t\0\
    link a p p\t\terrors\tCLU\tgives 23\t\t\0\
    run a g --steps 0\t\t\tCLU\tgives 2\t\tusage: clu \
    go|spec|replace|compile|link|run|exec|gen|list|asm|print|xref\n\0\
    run a g\t\twrite read\tCLU\tgives 12\t\tlibrary bad at 0\n\0\
    xref a\t\twrite\tCLU\tgives 12\t\tlibrary bad at 0\n\0\
";
