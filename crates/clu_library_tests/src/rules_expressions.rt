//! Expressions: V4 to V20, V32 and V36.

/// How many rows `ROWS` has besides comments.
pub const ROWS_COUNT: usize = 111;

/// Sources with the place and the rule of their refusal, or `ok`.
pub const ROWS: &str = "\
    % Expressions outside a cluster.\0\
    p = proc ()\nx: any := 9223372036854775807\nend p\tgives ok\0\
    p = proc ()\nx: any := 9223372036854775808\nend p\tgives 2:11:V4\0\
    p = proc ()\nx: any := 000000000000000000001\nend p\tgives ok\0\
    p = proc ()\nx: any := 1 + 10000000000000000000\nend p\tgives 2:15:V4\0\
    p = proc ()\nx: any := \"a\\400\"\nend p\tgives 2:11:V4\0\
    p = proc ()\nx: any := \"\\\\400\\377\"\nend p\tgives ok\0\
    p = proc ()\nx: any := '\\777'\nend p\tgives 2:11:V4\0\
    p = proc ()\nx: any := 1 + 1.5\nend p\tgives 2:15:V10\0\
    p = proc (a: int)\nx: any := b\nend p\tgives 2:11:V5\0\
    p = proc (a: int)\nx: any := a[b]\nend p\tgives 2:13:V5\0\
    p = proc (a: int)\nx: any := zork[int](a)\nend p\tgives 2:11:V5\0\
    p = proc (a: int)\nx: any := a\nend p\tgives ok\0\
    three = 3 p = proc [n: int] ()\nx: any := three + n\nend p\tgives ok\0\
    p = proc [t: type] () where t has lt: proctype (t, t) returns (bool)\nx: any := t\nend p\tgives 2:11:V14\0\
    p = proc ()\nx: any := box\nend p box = cluster [t: type] is equal rep = int equal = proc (x, y: cvt) returns \
    (bool) where t has equal: proctype (t, t) returns (bool) return (x = y) end equal end box\tgives 2:11:V14\0\
    p = proc (a: array[int])\nx: any := a[int]\nend p\tgives 2:13:V14\0\
    p = proc ()\nx: any := stream\nend p\tgives 2:11:V14\0\
    % Directly under an Index; the name of a module alone is left to the Index.\0\
    t = int p = proc () x: int := t[1] end p\tgives 1:31:V14\0\
    p = proc () x: any := stream[int] end p\tgives 1:23:V14\0\
    p = proc () x: char := \"xyz\"[any] end p\tgives 1:30:V14\0\
    p = proc () x: char := \"x\"[cvt] end p\tgives 1:28:V14\0\
    start_up = proc () t1 = stream[int] end start_up\tgives 1:31:V19\0\
    p = proc () stream := 1 end p\tgives 1:13:V15\0\
    p = proc () s = {t | stream has f: int} end p\tgives 1:17:V9\0\
    p = proc ()\nx: any := box[int]\nend p box = cluster [t: type] is equal rep = int equal = proc (x, y: cvt) \
    returns (bool) where t has equal: proctype (t, t) returns (bool) return (x = y) end equal end box\tgives \
    2:14:V14\0\
    p = proc ()\nx: any := g\nend p g = proc [t: type] (x: t) returns (t) where t has equal: proctype (t, t) returns \
    (bool) return (x) end g\tgives 2:11:V19\0\
    p = proc ()\nx: any := g[int, int]\nend p g = proc [t: type] (x: t) returns (t) where t has equal: proctype (t, \
    t) returns (bool) return (x) end g\tgives 2:12:V19\0\
    p = proc ()\nx: any := g[1]\nend p g = proc [t: type] (x: t) returns (t) where t has equal: proctype (t, t) \
    returns (bool) return (x) end g\tgives 2:12:V19\0\
    p = proc (a: int)\nx: any := g[a]\nend p g = proc [t: type] (x: t) returns (t) where t has equal: proctype (t, \
    t) returns (bool) return (x) end g\tgives 2:13:V9\0\
    p = proc ()\nx: any := none[int]\nend p none = proc () end none\tgives 2:15:V19\0\
    p = proc ()\nx: any := g[any](1)\nend p g = proc [t: type] (x: t) returns (t) where t has equal: proctype (t, t) \
    returns (bool) return (x) end g\tgives 2:12:V18\0\
    p = proc ()\nx: any := h[any](1)\nend p h = proc [t: type] (x: t) returns (t) where t in {u | u has equal: \
    proctype (u, u) returns (bool)} return (x) end h\tgives 2:12:V20\0\
    p = proc ()\nx: any := g[int](1)\nend p g = proc [t: type] (x: t) returns (t) where t has equal: proctype (t, t) \
    returns (bool) return (x) end g\tgives ok\0\
    p = proc ()\nx: any := h[int](1)\nend p h = proc [t: type] (x: t) returns (t) where t in {u | u has equal: \
    proctype (u, u) returns (bool)} return (x) end h\tgives ok\0\
    p = proc ()\nx: any := int$zork\nend p\tgives 2:11:V11\0\
    p = proc (b: box[int])\nx: any := box[int]$hidden(b)\nend p box = cluster [t: type] is equal rep = int equal = \
    proc (x, y: cvt) returns (bool) where t has equal: proctype (t, t) returns (bool) return (x = y) end equal \
    hidden = proc (x: cvt) returns (int) where t has lt: proctype (t, t) returns (bool) return (x) end hidden end \
    box\tgives 2:11:V11\0\
    p = proc (a: any)\nx: any := a = a\nend p\tgives 2:13:V11\0\
    p = proc [t: type] (a: t) where t has lt: proctype (t, t) returns (bool)\nx: any := -a\nend p\tgives 2:11:V11\0\
    p = proc [t: type] (a: t) where t has lt: proctype (t, t) returns (bool)\nx: any := a < a\nend p\tgives ok\0\
    p = proc [t: type] (a: t) where t has lt: proctype (t, t) returns (bool)\nx: any := a ~< a\nend p\tgives ok\0\
    p = proc (r: record[a: int])\nx: any := r.b\nend p\tgives 2:12:V11\0\
    p = proc (r: record[a: int])\nx: any := r.a + 1\nend p\tgives ok\0\
    p = proc (r: record[a: int])\nx: any := r[1]\nend p\tgives 2:12:V11\0\
    p = proc (a: array[any])\nx: any := array[any]$copy\nend p\tgives 2:11:V18\0\
    p = proc (a: array[int])\nx: any := array[array[int]]$copy\nend p\tgives ok\0\
    p = proc (a: sequence[any])\nx: any := a = a\nend p\tgives 2:13:V18\0\
    p = proc (a: sequence[any])\nx: any := a ~= a\nend p\tgives 2:13:V18\0\
    p = proc (a: sequence[any])\nx: any := a = 1\nend p\tgives 2:13:V13\0\
    p = proc (a: sequence[box[int]])\nx: any := a = a\nend p box = cluster [t: type] is equal rep = int equal = proc \
    (x, y: cvt) returns (bool) where t has equal: proctype (t, t) returns (bool) return (x = y) end equal end \
    box\tgives ok\0\
    p = proc (a: sequence[box[any]])\nx: any := a = a\nend p box = cluster [t: type] is equal rep = int equal = proc \
    (x, y: cvt) returns (bool) where t has equal: proctype (t, t) returns (bool) return (x = y) end equal end \
    box\tgives 2:13:V18\0\
    p = proc (a: box[any])\nx: any := a = a\nend p box = cluster [t: type] is equal rep = int equal = proc (x, y: \
    cvt) returns (bool) where t has equal: proctype (t, t) returns (bool) return (x = y) end equal end box\tgives \
    2:13:V18\0\
    p = proc (a: box[int])\nx: any := a = a\nend p box = cluster [t: type] is equal rep = int equal = proc (x, y: \
    cvt) returns (bool) where t has equal: proctype (t, t) returns (bool) return (x = y) end equal end box\tgives ok\0\
    p = proc ()\nx: any := none(1)\nend p none = proc () end none\tgives 2:15:V12\0\
    p = proc ()\nx: any := int$add(\"a\")\nend p\tgives 2:18:V12\0\
    p = proc (a: array[int])\nx: any := a[1, 2]\nend p\tgives 2:12:V12\0\
    p = proc (f: proctype (int) returns (int))\nx: any := f(1)\nend p\tgives ok\0\
    p = proc (f: proctype (int) returns (int))\nx: any := f(\"a\")\nend p\tgives 2:12:V13\0\
    p = proc (f: proctype (any) returns (int))\nx: any := f(\"a\")\nend p\tgives ok\0\
    p = proc (f: proctype (int))\nf()\nend p\tgives 2:2:V12\0\
    p = proc (a: int)\na()\nend p\tgives 2:2:V13\0\
    p = proc (a: array[int])\nx: any := a[\"s\"]\nend p\tgives 2:12:V13\0\
    p = proc ()\nx: any := 1 ~= \"a\"\nend p\tgives 2:13:V13\0\
    p = proc ()\nx: any := none()\nend p none = proc () end none\tgives 2:15:V14\0\
    p = proc ()\nnone()\nend p none = proc () end none\tgives ok\0\
    p = proc ()\nx: any := two()\nend p two = proc () returns (int, int) return (1, 2) end two\tgives 2:14:V14\0\
    p = proc ()\ntwo()\nend p two = proc () returns (int, int) return (1, 2) end two\tgives ok\0\
    p = proc ()\nx: any := 1 + (none())\nend p none = proc () end none\tgives 2:20:V14\0\
    p = proc ()\nx: any := it()\nend p it = iter () yields (int) end it\tgives 2:13:V36\0\
    p = proc ()\nint$from_to(1, 2)\nend p\tgives 2:12:V36\0\
    p = proc ()\nx: any := int$from_to\nend p\tgives ok\0\
    p = proc ()\nfor i: int in it() do end\nend p it = iter () yields (int) end it\tgives ok\0\
    p = proc ()\nfor i: int in it(1) do end\nend p it = iter () yields (int) end it\tgives 2:17:V12\0\
    p = proc ()\nx: any := force[int](1) + 1\nend p\tgives ok\0\
    p = proc ()\nx: any := force[int]()\nend p\tgives 2:21:V12\0\
    p = proc ()\nx: any := true cand 1\nend p\tgives 2:16:V16\0\
    p = proc ()\nx: any := nil cor true\nend p\tgives 2:15:V16\0\
    p = proc ()\nx: any := 1 cand 2 = \"a\"\nend p\tgives 2:20:V13\0\
    p = proc (b: bool)\nx: any := b cand ~b cor b\nend p\tgives ok\0\
    p = proc ()\nx: any := struct[a, b: int]${a, b: 1}\nend p\tgives ok\0\
    p = proc ()\nx: any := record[a: any, b: int]${b: 1, a: \"s\"}\nend p\tgives ok\0\
    p = proc ()\nx: any := record[a: int]${a: 1, a: 2}\nend p\tgives 2:33:V17\0\
    p = proc ()\nx: any := record[a: int]${a, a: 1}\nend p\tgives 2:27:V17\0\
    p = proc ()\nx: any := record[a, b: int]${a: 1}\nend p\tgives 2:11:V17\0\
    p = proc ()\nx: any := record[a: int]${a: 1, b: 2}\nend p\tgives 2:11:V17\0\
    p = proc ()\nx: any := oneof[a: int]${a: 1}\nend p\tgives 2:11:V17\0\
    p = proc ()\nx: any := record[a: int]${b: 1, a: \"s\"}\nend p\tgives 2:11:V13\0\
    p = proc ()\nx: any := array[int]$[1, 2]\nend p\tgives ok\0\
    p = proc ()\nx: any := array[int]$[0: 1, 2]\nend p\tgives ok\0\
    p = proc ()\nx: any := array[int]$[\"a\": 1]\nend p\tgives 2:11:V13\0\
    p = proc ()\nx: any := sequence[int]$[1, \"a\"]\nend p\tgives 2:11:V13\0\
    p = proc ()\nx: any := sequence[int]$[1: 2]\nend p\tgives 2:11:V17\0\
    p = proc ()\nx: any := sequence[int]$[\"a\": 2]\nend p\tgives 2:11:V13\0\
    p = proc ()\nx: any := int$[1]\nend p\tgives 2:11:V17\0\
    p = proc ()\nx: any := up(1)\nend p\tgives 2:11:V32\0\
    p = proc (b: box[int])\nx: any := down(b)\nend p box = cluster [t: type] is equal rep = int equal = proc (x, y: \
    cvt) returns (bool) where t has equal: proctype (t, t) returns (bool) return (x = y) end equal end box\tgives \
    2:11:V32\0\
    % Inside a cluster whose representation is int.\0\
    box = cluster [t: type] is equal, p rep = int p = proc () where t has equal: proctype (t, t) returns (bool)\nx: \
    any := up(1)\nend p equal = proc (x, y: cvt) returns (bool) where t has equal: proctype (t, t) returns (bool) \
    return (x = y) end equal hidden = proc (x: cvt) returns (int) where t has lt: proctype (t, t) returns (bool) \
    return (x) end hidden end box\tgives ok\0\
    box = cluster [t: type] is equal, p rep = int p = proc () where t has equal: proctype (t, t) returns (bool)\nx: \
    any := up(\"a\")\nend p equal = proc (x, y: cvt) returns (bool) where t has equal: proctype (t, t) returns \
    (bool) return (x = y) end equal hidden = proc (x: cvt) returns (int) where t has lt: proctype (t, t) returns \
    (bool) return (x) end hidden end box\tgives 2:11:V32\0\
    box = cluster [t: type] is equal, p rep = int p = proc () where t has equal: proctype (t, t) returns (bool)\nx: \
    any := up(up(1))\nend p equal = proc (x, y: cvt) returns (bool) where t has equal: proctype (t, t) returns \
    (bool) return (x = y) end equal hidden = proc (x: cvt) returns (int) where t has lt: proctype (t, t) returns \
    (bool) return (x) end hidden end box\tgives 2:11:V32\0\
    box = cluster [t: type] is equal, p rep = int p = proc () where t has equal: proctype (t, t) returns (bool)\nx: \
    any := down(up(1)) + 1\nend p equal = proc (x, y: cvt) returns (bool) where t has equal: proctype (t, t) returns \
    (bool) return (x = y) end equal hidden = proc (x: cvt) returns (int) where t has lt: proctype (t, t) returns \
    (bool) return (x) end hidden end box\tgives ok\0\
    box = cluster [t: type] is equal, p rep = int p = proc (b: box[int]) where t has equal: proctype (t, t) returns \
    (bool)\nx: any := down(b)\nend p equal = proc (x, y: cvt) returns (bool) where t has equal: proctype (t, t) \
    returns (bool) return (x = y) end equal hidden = proc (x: cvt) returns (int) where t has lt: proctype (t, t) \
    returns (bool) return (x) end hidden end box\tgives 2:11:V32\0\
    box = cluster [t: type] is equal, p rep = int p = proc (b: box[int]) where t has equal: proctype (t, t) returns \
    (bool)\nx: any := box[int]$hidden(b)\nend p equal = proc (x, y: cvt) returns (bool) where t has equal: proctype \
    (t, t) returns (bool) return (x = y) end equal hidden = proc (x: cvt) returns (int) where t has lt: proctype (t, \
    t) returns (bool) return (x) end hidden end box\tgives ok\0\
    box = cluster [t: type] is equal, p rep = int p = proc (b: box[int]) where t has equal: proctype (t, t) returns \
    (bool)\nx: any := b + b\nend p equal = proc (x, y: cvt) returns (bool) where t has equal: proctype (t, t) \
    returns (bool) return (x = y) end equal hidden = proc (x: cvt) returns (int) where t has lt: proctype (t, t) \
    returns (bool) return (x) end hidden end box\tgives 2:13:V11\0\
    box = cluster [t: type] is equal, p rep = int p = proc (a: t) where t has equal: proctype (t, t) returns \
    (bool)\nx: any := a = a\nend p equal = proc (x, y: cvt) returns (bool) where t has equal: proctype (t, t) \
    returns (bool) return (x = y) end equal hidden = proc (x: cvt) returns (int) where t has lt: proctype (t, t) \
    returns (bool) return (x) end hidden end box\tgives ok\0\
    box = cluster [t: type] is equal, p rep = int p = proc (a: t) where t has equal: proctype (t, t) returns \
    (bool)\nx: any := a < a\nend p equal = proc (x, y: cvt) returns (bool) where t has equal: proctype (t, t) \
    returns (bool) return (x = y) end equal hidden = proc (x: cvt) returns (int) where t has lt: proctype (t, t) \
    returns (bool) return (x) end hidden end box\tgives 2:13:V11\0\
    box = cluster [t: type] is equal, p rep = int p = proc () where t has equal: proctype (t, t) returns (bool)\nx: \
    any := hidden\nend p equal = proc (x, y: cvt) returns (bool) where t has equal: proctype (t, t) returns (bool) \
    return (x = y) end equal hidden = proc (x: cvt) returns (int) where t has lt: proctype (t, t) returns (bool) \
    return (x) end hidden end box\tgives 2:11:V18\0\
    box = cluster [t: type] is equal, p rep = int p = proc () where t has equal: proctype (t, t) returns (bool)\nx: \
    any := equal\nend p equal = proc (x, y: cvt) returns (bool) where t has equal: proctype (t, t) returns (bool) \
    return (x = y) end equal hidden = proc (x: cvt) returns (int) where t has lt: proctype (t, t) returns (bool) \
    return (x) end hidden end box\tgives ok\0\
    box = cluster [t: type] is equal, p rep = int p = proc (a: sequence[t]) where t has equal: proctype (t, t) \
    returns (bool)\nx: any := a = a\nend p equal = proc (x, y: cvt) returns (bool) where t has equal: proctype (t, \
    t) returns (bool) return (x = y) end equal hidden = proc (x: cvt) returns (int) where t has lt: proctype (t, t) \
    returns (bool) return (x) end hidden end box\tgives ok\0\
    % A type of 40 levels whose parts are shared: what an operation asks of it is asked once.\0\
    p = proc ()\nx: any := record[x, y: record[x, y: record[x, y: record[x, y: record[x, y: record[x, y: record[x, \
    y: record[x, y: record[x, y: record[x, y: record[x, y: record[x, y: record[x, y: record[x, y: record[x, y: \
    record[x, y: record[x, y: record[x, y: record[x, y: record[x, y: record[x, y: record[x, y: record[x, y: \
    record[x, y: record[x, y: record[x, y: record[x, y: record[x, y: record[x, y: record[x, y: record[x, y: \
    record[x, y: record[x, y: record[x, y: record[x, y: record[x, y: record[x, y: record[x, y: record[x, y: \
    record[x, y: char]]]]]]]]]]]]]]]]]]]]]]]]]]]]]]]]]]]]]]]]$similar\nend p\tgives ok\0\
    p = proc ()\nx: any := struct[x, y: struct[x, y: struct[x, y: struct[x, y: struct[x, y: struct[x, y: struct[x, \
    y: struct[x, y: struct[x, y: struct[x, y: struct[x, y: struct[x, y: struct[x, y: struct[x, y: struct[x, y: \
    struct[x, y: struct[x, y: struct[x, y: struct[x, y: struct[x, y: struct[x, y: struct[x, y: struct[x, y: \
    struct[x, y: struct[x, y: struct[x, y: struct[x, y: struct[x, y: struct[x, y: struct[x, y: struct[x, y: \
    struct[x, y: struct[x, y: struct[x, y: struct[x, y: struct[x, y: struct[x, y: struct[x, y: struct[x, y: \
    struct[x, y: any]]]]]]]]]]]]]]]]]]]]]]]]]]]]]]]]]]]]]]]]$copy\nend p\tgives 2:11:V18\0\
    % Type sets in type sets, 30 deep: each is asked about once.\0\
    s29 = {u29 | u29 has f: proctype () s28 = {u28 | u28 has f: proctype () s27 = {u27 | u27 has f: proctype () s26 \
    = {u26 | u26 has f: proctype () s25 = {u25 | u25 has f: proctype () s24 = {u24 | u24 has f: proctype () s23 = \
    {u23 | u23 has f: proctype () s22 = {u22 | u22 has f: proctype () s21 = {u21 | u21 has f: proctype () s20 = {u20 \
    | u20 has f: proctype () s19 = {u19 | u19 has f: proctype () s18 = {u18 | u18 has f: proctype () s17 = {u17 | \
    u17 has f: proctype () s16 = {u16 | u16 has f: proctype () s15 = {u15 | u15 has f: proctype () s14 = {u14 | u14 \
    has f: proctype () s13 = {u13 | u13 has f: proctype () s12 = {u12 | u12 has f: proctype () s11 = {u11 | u11 has \
    f: proctype () s10 = {u10 | u10 has f: proctype () s9 = {u9 | u9 has f: proctype () s8 = {u8 | u8 has f: \
    proctype () s7 = {u7 | u7 has f: proctype () s6 = {u6 | u6 has f: proctype () s5 = {u5 | u5 has f: proctype () \
    s4 = {u4 | u4 has f: proctype () s3 = {u3 | u3 has f: proctype () s2 = {u2 | u2 has f: proctype () s1 = {u1 | u1 \
    has f: proctype () s0 = {u0 | u0 has f: proctype () n = 1}}}}}}}}}}}}}}}}}}}}}}}}}}}}}} p = proc () end p\tgives \
    ok\0\
    s29 = {u29 | u29 has f: proctype () s28 = {u28 | u28 has f: proctype () s27 = {u27 | u27 has f: proctype () s26 \
    = {u26 | u26 has f: proctype () s25 = {u25 | u25 has f: proctype () s24 = {u24 | u24 has f: proctype () s23 = \
    {u23 | u23 has f: proctype () s22 = {u22 | u22 has f: proctype () s21 = {u21 | u21 has f: proctype () s20 = {u20 \
    | u20 has f: proctype () s19 = {u19 | u19 has f: proctype () s18 = {u18 | u18 has f: proctype () s17 = {u17 | \
    u17 has f: proctype () s16 = {u16 | u16 has f: proctype () s15 = {u15 | u15 has f: proctype () s14 = {u14 | u14 \
    has f: proctype () s13 = {u13 | u13 has f: proctype () s12 = {u12 | u12 has f: proctype () s11 = {u11 | u11 has \
    f: proctype () s10 = {u10 | u10 has f: proctype () s9 = {u9 | u9 has f: proctype () s8 = {u8 | u8 has f: \
    proctype () s7 = {u7 | u7 has f: proctype () s6 = {u6 | u6 has f: proctype () s5 = {u5 | u5 has f: proctype () \
    s4 = {u4 | u4 has f: proctype () s3 = {u3 | u3 has f: proctype () s2 = {u2 | u2 has f: proctype () s1 = {u1 | u1 \
    has f: proctype () s0 = {u0 | u0 has f: proctype () n = 1 / 0}}}}}}}}}}}}}}}}}}}}}}}}}}}}}} p = proc () end \
    p\tgives 1:1057:V8\0\
";
