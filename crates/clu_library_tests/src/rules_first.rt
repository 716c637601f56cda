//! Sources in which more than one rule may be asked first, and some of each rule.

/// How many rows `ROWS` has besides comments.
pub const ROWS_COUNT: usize = 57;

/// Sources with the place and the rule of their refusal, or `ok`.
pub const ROWS: &str = "\
    p = proc () a = {u | u has f: proctype (u)} u = a end p\tgives 1:41:V7\0\
    s = {t | t has f: proctype ()} p = proc () x = s[int] end p\tgives 1:49:V19\0\
    p = proc (x: int) where x has f: proctype (), f: proctype (int) end p\tgives 1:25:V9\0\
    d = cluster is g rep = null own n: int g = proc (x: c[(n + 1)]) end g end d c = cluster [k: int] is f rep = null \
    f = proc () end f end c\tgives 1:55:V8\0\
    p = proc () a = {u | u has f: b b = array[a]} end p\tgives 1:31:V7\0\
    p = proc () x: int := 1 y: x end p\tgives 1:28:V9\0\
    c = cluster is f rep = cvt f = proc () end f end c\tgives 1:24:V31\0\
    c = cluster is f rep = 1 f = proc () end f end c\tgives 1:24:V9\0\
    c = cluster is f rep = {t | t has f: proctype ()} f = proc () end f end c\tgives 1:24:V9\0\
    c = cluster is f rep = 99999999999999999999 f = proc () end f end c\tgives 1:24:V4\0\
    c = cluster is f rep = a a = rep f = proc () end f end c\tgives 1:30:V7\0\
    p = proc () a = \"\\777\" end p\tgives 1:17:V4\0\
    p = proc () a = '\\777' end p\tgives 1:17:V4\0\
    p = proc () f = proctype () signals (failure(int)) x: f end p\tgives 1:38:V26\0\
    p = proc () begin exit e(1) end except when e (x: zork): end end p\tgives 1:51:V5\0\
    p = proc () begin exit e(1) end except when e (x: string): end end p\tgives 1:19:V26\0\
    p = proc () x: int := 1 begin exit e(x) end except when e (x: int): end end p\tgives 1:60:V6\0\
    p = proc () begin exit e end except when f: when e: end end p\tgives ok\0\
    p = proc () begin begin exit e end except when f: end end except when e: end end p\tgives ok\0\
    p = proc () begin exit e end resignal failure except when e: end end p\tgives ok\0\
    p = proc () signals (b, a(int), c) signal a(1) signal b signal c end p\tgives ok\0\
    p = proc () signals (b, a(int), c) signal a(\"x\") end p\tgives 1:36:V26\0\
    p = proc () x: record[b, a: int, c: string] := record[a: int, c: string, b: int]${c: \"\", a, b: 1} end p\tgives \
    ok\0\
    p = proc () x: record[b, a: int, c: string] := record[a: int, c: string, b: int]${c: \"\", a: 1} end p\tgives \
    1:48:V17\0\
    p = proc () x: record[b, a: int, c: string] := record[a: int, c: string, b: int]${c: \"\", a: \"\", b: 1} end \
    p\tgives 1:48:V13\0\
    q = proc [t: type] () where t has f: proctype (int) end q p = proc () q[oneof[a: int]]() end p\tgives 1:72:V18\0\
    q = proc [t: type] () where t in {u | u has f: proctype (int)} end q p = proc () q[oneof[a: int]]() end p\tgives \
    1:83:V20\0\
    q = proc [t: type] () where t has similar: proctype (t, t) returns (bool) end q p = proc [t: type] () where t \
    has similar: proctype (t, t) returns (bool) q[array[t]]() end p\tgives ok\0\
    q = proc [t: type] () where t has similar: proctype (t, t) returns (bool) end q p = proc [t: type] () \
    q[array[array[t]]]() end p\tgives 1:104:V18\0\
    p = proc () a: array[int] := array[int]$[1, 2, 3] for i: int in array[int]$elements(a) do i := i end end \
    p\tgives ok\0\
    p = proc () x: int := 1 begin x: string end end p\tgives 1:31:V6\0\
    p = proc () break end p\tgives 1:13:V28\0\
    p = iter () yields (int) return (1) end p\tgives 1:26:V30\0\
    p = proc () yield (1) end p\tgives 1:13:V29\0\
    p = proc () end q\tgives 1:1:V34\0\
    c = cluster is f, g rep = null f = proc () end f end c\tgives 1:1:V33\0\
    p = proc (x: int) own n: int := x end p\tgives 1:19:V37\0\
    p = proc () x: any := 1.5 end p\tgives 1:23:V10\0\
    p = proc (o: oneof[a, b: int]) tagcase o tag a: tag b, c: end end p\tgives 1:49:V22\0\
    p = proc (o: oneof[a, b: int]) tagcase o tag a: end end p\tgives 1:32:V22\0\
    p = proc (o: oneof[a, b: int]) tagcase o tag b: tag a: end end p\tgives ok\0\
    p = proc (o: record[a: int]) tagcase o tag a: end end p\tgives 1:30:V21\0\
    q = proc () signals (e(int)) signal e(1) end q p = proc () q() except when e: end end p\tgives 1:71:V23\0\
    p = proc () begin exit e end except when e: when f, e: end end p\tgives 1:45:V24\0\
    p = proc () signal e end p\tgives 1:13:V25\0\
    p = proc () begin exit e end except others: end end p\tgives 1:19:V27\0\
    p = proc () for i: int in int$add(1, 2) do end end p\tgives 1:13:V36\0\
    p = proc () a: array[int] := down(1) end p\tgives 1:30:V32\0\
    p = proc () end p p = proc () end p\tgives 1:19:V6\0\
    stream = proc () end stream\tgives 1:1:V6\0\
    q = proc [n: int] () end q p = proc () q[\"a\"]() end p\tgives 1:41:V19\0\
    p = proc () x: int := 1 + \"a\" end p\tgives 1:25:V13\0\
    p = proc () x: bool := nil < nil end p\tgives 1:28:V11\0\
    q = proc (x: int) end q p = proc () q() end p\tgives 1:38:V12\0\
    p = proc () x: any := 1 y: int := x end p\tgives 1:25:V15\0\
    p = proc () if 1 then end end p\tgives 1:13:V16\0\
    p = proc [t: type] () where t has f: proctype (), f: proctype (t) end p\tgives 1:51:V6\0\
";
