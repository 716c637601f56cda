//! Constants, types and `real`: V8 to V10.

/// How many rows `ROWS` has besides comments.
pub const ROWS_COUNT: usize = 99;

/// Sources with the place and the rule of their refusal, or `ok`.
pub const ROWS: &str = "\
    % V8: a constant is wanted; at the topmost node of the constant.\0\
    p = proc (v: int) x = v end p\tgives 1:23:V8\0\
    p = proc (v: int) x = v + 1 end p\tgives 1:25:V8\0\
    p = proc (v: int) x = (1 + v) * 2 end p\tgives 1:31:V8\0\
    p = proc (v: int) x = -v end p\tgives 1:23:V8\0\
    p = proc () x = q() end p q = proc () returns (int) return (1) end q\tgives 1:18:V8\0\
    p = proc (a: array[int]) x = a[1] end p\tgives 1:31:V8\0\
    p = proc (r: record[a: int]) x = r.a end p\tgives 1:35:V8\0\
    p = proc () x = array[int]$[1] end p\tgives 1:17:V8\0\
    p = proc () x = record[a: int]${a: 1} end p\tgives 1:17:V8\0\
    p = proc () f = p end p\tgives 1:17:V8\0\
    p = proc () f = int$add end p\tgives 1:17:V8\0\
    p = proc () f = force[int] end p\tgives 1:17:V8\0\
    % An operator that would signal makes it no constant.\0\
    p = proc () x = 9223372036854775807 + 1 end p\tgives 1:37:V8\0\
    p = proc () x = -9223372036854775807 - 2 end p\tgives 1:38:V8\0\
    p = proc () x = -(-9223372036854775807 - 1) end p\tgives 1:17:V8\0\
    p = proc () x = 9223372036854775807 * 2 end p\tgives 1:37:V8\0\
    p = proc () x = 1 / 0 end p\tgives 1:19:V8\0\
    p = proc () x = (-9223372036854775807 - 1) / -1 end p\tgives 1:44:V8\0\
    p = proc () x = 1 // 0 end p\tgives 1:19:V8\0\
    p = proc () x = 2 ** -1 end p\tgives 1:19:V8\0\
    p = proc () x = 2 ** 63 end p\tgives 1:19:V8\0\
    p = proc () x = (1 / 0) + 1 end p\tgives 1:25:V8\0\
    p = proc () x = true cor 1 / 0 = 1 end p\tgives 1:22:V8\0\
    p = proc () x = -9223372036854775807 - 1 end p\tgives ok\0\
    p = proc () x = 2 ** 62 y = -7 // 2 z = -7 / 2 end p\tgives ok\0\
    p = proc () x = \"a\" || \"b\" y = 'a' < 'b' z = nil = nil w = ~true | false & true end p\tgives ok\0\
    p = proc () x = 1 < 2 cand 2 ~= 3 cor false end p\tgives ok\0\
    p = proc () x = (((1))) end p\tgives ok\0\
    % A constant parameter stands alone, or between parentheses; under an operator it is none.\0\
    p = proc [n: int] () x = n + 1 end p\tgives 1:28:V8\0\
    p = proc [n: int] () x = -n end p\tgives 1:26:V8\0\
    p = proc [b: bool] () x = true cand b end p\tgives 1:32:V8\0\
    p = proc [n: int] () x = m + 1 m = n end p\tgives 1:28:V8\0\
    p = proc [n: int] () x = n y = (n) z = ((n)) end p\tgives ok\0\
    p = proc [n: int] () x: int := n + 1 end p\tgives ok\0\
    % A name whose equate is bad elsewhere.\0\
    p = proc () x = y y = 1 / 0 end p\tgives 1:17:V8\0\
    p = proc () x = y + 1 y = 1 / 0 end p\tgives 1:17:V8\0\
    p = proc () x = t t = array[u] end p\tgives 1:17:V8\0\
    p = proc () x = f f = int$add end p\tgives 1:17:V8\0\
    p = proc (a: c[n]) n = 1 / 0 end p c = cluster [n: int] is f rep = null f = proc () end f end c\tgives 1:16:V8\0\
    % Actual parameters.\0\
    p = proc (v: int) x: c[v] end p c = cluster [n: int] is f rep = null f = proc () end f end c\tgives 1:24:V8\0\
    p = proc (v: int) x: c[v + 1] end p c = cluster [n: int] is f rep = null f = proc () end f end c\tgives 1:26:V8\0\
    p = proc (v: int) q[v]() end p q = proc [n: int] () end q\tgives 1:21:V8\0\
    p = proc () q[1 / 0]() end p q = proc [n: int] () end q\tgives 1:17:V8\0\
    p = proc () q[p2()]() end p q = proc [n: int] () end q p2 = proc () returns (int) return (1) end p2\tgives \
    1:17:V8\0\
    p = proc () x: c[2 ** -1] end p c = cluster [n: int] is f rep = null f = proc () end f end c\tgives 1:20:V8\0\
    p = proc () n = 2 q[n]() q[n + 1]() q[2 ** 3]() end p q = proc [n: int] () end q\tgives ok\0\
    % The operands inside a constant are expressions, and violate the rules of expressions first.\0\
    p = proc () x = (1 + \"a\") + 2 end p\tgives 1:20:V13\0\
    p = proc () x = 1 + y end p\tgives 1:21:V5\0\
    p = proc () x = (nil < nil) & true end p\tgives 1:22:V11\0\
    p = proc () x = 1 + \"a\" end p\tgives 1:19:V8\0\
    p = proc () x = nil < nil end p\tgives 1:21:V8\0\
    p = proc () x = (1 cand true) | true end p\tgives 1:20:V16\0\
    p = proc () x = 9223372036854775808 + 1 end p\tgives 1:17:V4\0\
    % V9: a type or a type set is wanted.\0\
    p = proc () n = 1 x: n end p\tgives 1:22:V9\0\
    p = proc () v: int x: v end p\tgives 1:23:V9\0\
    p = proc (x: q) end p q = proc () end q\tgives 1:14:V9\0\
    p = proc [n: int] (x: n) end p\tgives 1:23:V9\0\
    p = proc () v: int v$f() end p\tgives 1:20:V9\0\
    p = proc () v: int x: any := v$[1] end p\tgives 1:30:V9\0\
    p = proc () n = 1 x: int := force[n](1) end p\tgives 1:35:V9\0\
    p = proc () n = 1 x: array[n] end p\tgives 1:28:V9\0\
    p = proc () n = 1 x: record[a: n] end p\tgives 1:32:V9\0\
    p = proc () n = 1 x: proctype (n) end p\tgives 1:32:V9\0\
    s = {t | t has f: proctype ()} p = proc (x: s) end p\tgives 1:45:V9\0\
    c = cluster is f rep = null f = proc (x: f) end f end c\tgives 1:42:V9\0\
    t = int p = proc (x: t) end p\tgives ok\0\
    p = proc () t = array[u] u = int x: t end p\tgives ok\0\
    % A demand speaks of a type parameter of the module, a set of its own variable.\0\
    p = proc [n: int] () where n has f: proctype () end p\tgives 1:28:V9\0\
    t = int p = proc () where t has f: proctype () end p\tgives 1:27:V9\0\
    t = int p = proc () where t in {u | u has f: proctype ()} end p\tgives 1:27:V9\0\
    s = int p = proc [t: type] () where t in s end p\tgives 1:37:V9\0\
    p = proc [t: type] () where t in t end p\tgives 1:29:V9\0\
    p = proc [u: type] () where u in {t | u has f: proctype ()} end p\tgives 1:34:V9\0\
    p = proc () where q has f: proctype () end p q = proc () end q\tgives 1:19:V9\0\
    s = {t | t has f: proctype ()} p = proc [t: type] () where t in s end p\tgives ok\0\
    p = proc [t: type] () where t in s s = {u | u has f: proctype ()} end p\tgives ok\0\
    % A name whose equate is bad elsewhere, where a type is wanted.\0\
    p = proc (x: t) t = array[u] end p\tgives 1:14:V9\0\
    p = proc (x: array[t]) t = u u = v end p\tgives 1:20:V9\0\
    c = cluster is f rep = array[u] f = proc (x: rep) end f end c\tgives 1:46:V9\0\
    c = cluster is f t = array[rep] rep = u f = proc () end f end c\tgives 1:28:V9\0\
    p = proc [t: type] () where t in s s = {u | v has f: proctype ()} end p\tgives 1:29:V9\0\
    % A variable or a call among actuals where a type is wanted.\0\
    p = proc (v: int) x: c[v] end p c = cluster [t: type] is f rep = null f = proc () end f end c\tgives 1:24:V9\0\
    p = proc (v: int) q[v]() end p q = proc [t: type] () end q\tgives 1:21:V9\0\
    p = proc () q[p2()]() end p q = proc [t: type] () end q p2 = proc () returns (int) return (1) end p2\tgives \
    1:17:V9\0\
    % V10: `real` and real literals, and nothing else at them.\0\
    p = proc () x: real end p\tgives 1:16:V10\0\
    p = proc () x: int := 1.5 end p\tgives 1:23:V10\0\
    p = proc (x: array[real]) end p\tgives 1:20:V10\0\
    p = proc () returns (real) end p\tgives 1:22:V10\0\
    t = real p = proc () end p\tgives 1:5:V10\0\
    x = 1.5 p = proc () end p\tgives 1:5:V10\0\
    p = proc () x = 1.5 + 2.5 end p\tgives 1:17:V10\0\
    p = proc () x = -2e3 end p\tgives 1:18:V10\0\
    p = proc () x: any := real$sqrt(2.0) end p\tgives 1:23:V10\0\
    p = proc [n: real] () end p\tgives 1:14:V10\0\
    p = proc (x: c[1.5]) end p c = cluster [n: int] is f rep = null f = proc () end f end c\tgives 1:16:V10\0\
    p = proc (x: c[real]) end p c = cluster [n: int] is f rep = null f = proc () end f end c\tgives 1:16:V10\0\
    c = cluster is f rep = real f = proc () end f end c\tgives 1:24:V10\0\
    p = proc (x: t) t = real end p\tgives 1:14:V9\0\
    p = proc () x: any := 1 x := \"1.5\" end p\tgives ok\0\
";
