//! Actual parameters and what is asked of them: V18 to V20.

/// How many rows `ROWS` has besides comments.
pub const ROWS_COUNT: usize = 80;

/// Sources with the place and the rule of their refusal, or `ok`.
pub const ROWS: &str = "\
    % V18: an actual does not meet a `has` clause.\0\
    p = proc [t: type] (x: t) where t has equal: proctype (t, t) returns (bool) end p q = proc () p[any](1) end \
    q\tgives 1:96:V18\0\
    q = proc (x: c[any]) end q c = cluster [t: type] is f where t has equal: proctype (t, t) returns (bool) rep = \
    null f = proc () end f end c\tgives 1:14:V18\0\
    q = proc () c[any]$f() end q c = cluster [t: type] is f where t has equal: proctype (t, t) returns (bool) rep = \
    null f = proc () end f end c\tgives 1:13:V18\0\
    p = proc [t: type] (x: t) where t has zork: proctype () end p q = proc () p[int](1) end q\tgives 1:76:V18\0\
    p = proc [t: type] () where t has lt: proctype (t, t) returns (int) end p q = proc () p[int]() end q\tgives \
    1:88:V18\0\
    p = proc [t: type] () where t has equal: proctype (t, t) returns (any) end p q = proc () p[int]() end q\tgives \
    1:91:V18\0\
    p = proc [t: type] () where t has add: proctype (t, t) returns (t) end p q = proc () p[int]() end q\tgives \
    1:87:V18\0\
    p = proc [t: type] () where t has equal: proctype (t, t) returns (bool) end p q = proc [t: type] () p[t]() end \
    q\tgives 1:102:V18\0\
    p = proc [t, u: type] () where t has f: proctype (u) end p q = proc () p[int, int]() end q\tgives 1:73:V18\0\
    p = proc [t: type] () where t has equal: proctype (t, t) returns (bool) end p q = proc () p[array[any]]() \
    p[sequence[any]]() end q\tgives 1:108:V18\0\
    p = proc [t: type] () where t has elements: proctype (t) returns (int) end p q = proc () p[array[int]]() end \
    q\tgives 1:91:V18\0\
    p = proc [t: type] () where t has equal: proctype (t, t) returns (bool) end p q = proc () p[int]() \
    p[array[any]]() p[struct[a: string]]() p[proctype (any)]() end q\tgives ok\0\
    p = proc [t: type] () where t has add: proctype (t, t) returns (t) signals (overflow, e) end p q = proc () \
    p[int]() end q\tgives ok\0\
    p = proc [t: type] () where t has equal: proctype (t, t) returns (any) end p q = proc [t: type] () where t has \
    equal: proctype (t, t) returns (any) p[t]() end q\tgives ok\0\
    p = proc [t, u: type] () where t has elements: itertype (t) yields (u) end p q = proc () p[array[int], int]() \
    end q\tgives ok\0\
    % A cluster has its exported operations alone, inside it too.\0\
    p = proc [t: type] () where t has g: proctype () end p c = cluster is f rep = null f = proc () p[c]() end f g = \
    proc () end g end c\tgives 1:97:V18\0\
    c = cluster is f rep = null f = proc (a: sequence[c]) b: bool := a = a end f equal = proc (a, b: c) returns \
    (bool) return (true) end equal end c\tgives 1:68:V18\0\
    p = proc [t: type] () where t has g: proctype () end p c = cluster is f, g rep = null f = proc () p[c]() end f g \
    = proc () end g end c\tgives ok\0\
    % What the operation of a cluster asks itself, at the OperOf, at sugar, and at its name inside.\0\
    c = cluster [t: type] is f rep = null f = proc (x: t) where t has equal: proctype (t, t) returns (bool) end f \
    end c p = proc () c[any]$f(1) end p\tgives 1:129:V18\0\
    c = cluster [t: type] is f rep = null f = proc (x: t) where t has equal: proctype (t, t) returns (bool) end f g \
    = proc (x: t) f(x) end g end c\tgives 1:127:V18\0\
    c = cluster [t: type] is add rep = null add = proc (a, b: c[t]) returns (c[t]) where t has h: proctype () return \
    (a) end add end c p = proc (a: c[int]) b: c[int] := a + a end p\tgives 1:168:V18\0\
    p = proc [t: type] () where t has f: proctype () end p c = cluster [t: type] is f rep = null f = proc () where t \
    has h: proctype () end f end c q = proc () p[c[int]]() end q\tgives 1:158:V18\0\
    c = cluster [t: type] is f rep = null f = proc (x: t) where t has equal: proctype (t, t) returns (bool) end f g \
    = proc (x: t) where t has equal: proctype (t, t) returns (bool) f(x) end g end c\tgives ok\0\
    c = cluster [t: type] is f rep = null f = proc (x: t) where t has equal: proctype (t, t) returns (bool) end f \
    end c p = proc () c[int]$f(1) end p\tgives ok\0\
    % Of two where clauses on one operation one is enough; what is invoked is the routine's.\0\
    c = cluster [t: type] is f where t has equal: proctype (t, t) returns (bool) rep = null f = proc (x: \
    sequence[t]) where t has equal: proctype (t, t) returns (bool) signals (e) y: bool := x = x end f end c\tgives \
    ok\0\
    c = cluster [t: type] is f where t has equal: proctype (t, t) returns (bool) rep = null f = proc (x: c[t]) where \
    t has equal: proctype (t, t) returns (bool) signals (e) end f end c\tgives ok\0\
    c = cluster [t: type] is f where t has equal: proctype (t, t) returns (any) rep = null f = proc (x: d[t]) where \
    t has equal: proctype (t) returns (bool) end f end c d = cluster [t: type] is f where t has equal: proctype (t, \
    t) returns (bool) rep = null f = proc () end f end d\tgives 1:101:V18\0\
    c = cluster [t: type] is f where t has g: proctype (t) rep = null f = proc (x: t) where t has g: proctype () \
    t$g(x) end f end c\tgives 1:113:V12\0\
    % What an operation of a built-in type needs.\0\
    p = proc () b: bool := array[any]$similar(array[any]$new(), array[any]$new()) end p\tgives 1:24:V18\0\
    p = proc () x: any := array[array[any]]$copy end p\tgives 1:23:V18\0\
    p = proc () x: any := record[a: any]$copy end p\tgives 1:23:V18\0\
    p = proc () x: any := record[a: int, b: any]$similar1 end p\tgives 1:23:V18\0\
    p = proc () x: any := oneof[a: int, b: any]$equal end p\tgives 1:23:V18\0\
    p = proc () x: any := variant[a: any]$similar end p\tgives 1:23:V18\0\
    p = proc (s: struct[a: any]) b: bool := s = s end p\tgives 1:43:V18\0\
    p = proc (s: sequence[any]) b: bool := s ~= s end p\tgives 1:42:V18\0\
    p = proc (s: sequence[stream]) t: any := sequence[stream]$copy(s) end p\tgives 1:42:V18\0\
    p = proc [t: type] (s: sequence[t]) b: bool := s = s end p\tgives 1:50:V18\0\
    p = proc (a: array[any], r: record[a: any]) b: bool := a = a cand r = r x: any := array[any]$new x := record[a: \
    any]$copy1 end p\tgives ok\0\
    p = proc [t: type] (s: sequence[t]) where t has equal: proctype (t, t) returns (bool) b: bool := s = s end \
    p\tgives ok\0\
    % V19: another number or kind of actual parameters.\0\
    p = proc [t: type] () end p q = proc () p[int, int]() end q\tgives 1:42:V19\0\
    p = proc [t, u: type] () end p q = proc () p[int]() end q\tgives 1:45:V19\0\
    p = proc [t: type] () end p q = proc () p[1]() end q\tgives 1:42:V19\0\
    p = proc [n: int] () end p q = proc () p[int]() end q\tgives 1:41:V19\0\
    p = proc [n: int] () end p q = proc () p[\"a\"]() end q\tgives 1:41:V19\0\
    p = proc [n: null] () end p q = proc () p[false]() end q\tgives 1:42:V19\0\
    p = proc [c: char] () end p q = proc [s: string] () p[s]() end q\tgives 1:54:V19\0\
    q = proc (x: c[int]) end q c = cluster [n: int] is f rep = null f = proc () end f end c\tgives 1:14:V19\0\
    q = proc (x: c[1]) end q c = cluster [t: type] is f rep = null f = proc () end f end c\tgives 1:14:V19\0\
    q = proc (x: c[1, 2]) end q c = cluster [n: int] is f rep = null f = proc () end f end c\tgives 1:14:V19\0\
    q = proc () c[1, 2]$f() end q c = cluster [n: int] is f rep = null f = proc () end f end c\tgives 1:13:V19\0\
    p = proc () end p q = proc () p[int]() end q\tgives 1:32:V19\0\
    q = proc (x: c[int]) end q c = cluster is f rep = null f = proc () end f end c\tgives 1:14:V19\0\
    p = proc [t: type, n: int, b: bool, c: char, s: string, z: null] () end p q = proc () p[int, 1, true, 'a', \
    \"s\", nil]() end q\tgives ok\0\
    p = proc [n: int] () end p q = proc [n: int] () p[n]() p[(n)]() p[-1]() end q\tgives ok\0\
    p = proc [t: type] () end p q = proc () t = array[int] p[t]() p[array[t]]() p[proctype ()]() p[q2[int]]() end q \
    q2 = cluster [t: type] is f rep = null f = proc () end f end q2\tgives ok\0\
    % The name of a module with parameters and without actuals; a name that takes none.\0\
    p = proc [t: type] () end p q = proc () p() end q\tgives 1:41:V19\0\
    p = proc [t: type] () end p q = proc () x: any := p end q\tgives 1:51:V19\0\
    q = proc (x: c) end q c = cluster [t: type] is f rep = null f = proc () end f end c\tgives 1:14:V19\0\
    q = proc () c$f() end q c = cluster [t: type] is f rep = null f = proc () end f end c\tgives 1:13:V19\0\
    c = cluster [t: type] is f rep = null f = proc (x: c) end f end c\tgives 1:52:V19\0\
    p = proc () t = int x: t[int] end p\tgives 1:24:V19\0\
    p = proc [t: type] (x: t[int]) end p\tgives 1:24:V19\0\
    p = proc (s: stream[int]) end p\tgives 1:14:V19\0\
    c = cluster [t: type] is f rep = null f = proc (x: c[t], y: c[int]) end f end c\tgives ok\0\
    % The type of a constant parameter is int, bool, char, string or null.\0\
    p = proc [n: any] () end p\tgives 1:11:V19\0\
    p = proc [n: int, m: array[int]] () end p\tgives 1:19:V19\0\
    c = cluster [n: stream] is f rep = null f = proc () end f end c\tgives 1:14:V19\0\
    p = proc [t: type, n: t] () end p\tgives 1:20:V19\0\
    t = int p = proc [n: t] () x: int := n end p\tgives ok\0\
    % V20: an actual does not meet what an `in` clause alone asks.\0\
    s = {t | t has equal: proctype (t, t) returns (bool)} p = proc [t: type] () where t in s end p q = proc () \
    p[any]() end q\tgives 1:109:V20\0\
    p = proc [t: type] () where t in {u | u has zork: proctype ()} end p q = proc () p[int]() end q\tgives 1:83:V20\0\
    q = proc (x: c[any]) end q s = {t | t has copy: proctype (t) returns (t)} c = cluster [t: type] is f where t in \
    s rep = null f = proc () end f end c\tgives 1:14:V20\0\
    p = proc [t: type] () where t in s s = {u | u has f: proctype (u)} end p q = proc [t: type] () p[t]() end \
    q\tgives 1:97:V20\0\
    c = cluster [t: type] is f rep = null f = proc () where t in {u | u has equal: proctype (u, u) returns (bool)} \
    end f end c p = proc () c[any]$f() end p\tgives 1:136:V20\0\
    p = proc [t: type, u: type] () where t has equal: proctype (t, t) returns (bool), u in {v | v has zork: proctype \
    (v)} end p q = proc () p[int, int]() end q\tgives 1:138:V20\0\
    p = proc [t: type] () where t in {u | u has zork: proctype ()}, t has zonk: proctype () end p q = proc () \
    p[int]() end q\tgives 1:108:V18\0\
    p = proc [t: type] () where t in {u | u has zork: proctype ()}, t has zork: proctype () end p q = proc () \
    p[int]() end q\tgives 1:108:V18\0\
    s = {t | t has equal: proctype (t, t) returns (bool)} p = proc [t: type] () where t in s end p q = proc [u: \
    type] () where u in {v | v has equal: proctype (v, v) returns (bool)} p[int]() p[u]() end q\tgives ok\0\
    p = proc [t: type] (x: t) where t in {u | u has f: e e = proctype (u) returns (u)} x := t$f(x) end p\tgives ok\0\
";
