//! The order of refusals: the least rule at a node, children before their parent, headings before
//! bodies.

/// How many rows `ROWS` has besides comments.
pub const ROWS_COUNT: usize = 118;

/// Sources with the place and the rule of their refusal, or `ok`.
pub const ROWS: &str = "\
    % Several rules at one node.\0\
    p = proc () x: int := 99999999999999999999 + \"a\" end p\tgives 1:23:V4\0\
    p = proc () x = 1 + \"a\" end p\tgives 1:19:V8\0\
    p = proc () q(1, \"x\") end p q = proc (x: string) end q\tgives 1:14:V12\0\
    p = proc () x: any := q(1) end p q = iter () end q\tgives 1:24:V12\0\
    p = proc () x: int := q(\"a\") end p q = proc (x: int) end q\tgives 1:24:V13\0\
    p = proc () r: any := record[a: int]${a: \"x\", b: 1} end p\tgives 1:23:V13\0\
    p = proc () a: any := sequence[int]$[\"x\": \"y\"] end p\tgives 1:23:V13\0\
    p = proc () x: int := q() end p q = proc () end q\tgives 1:24:V14\0\
    p = proc () for i, j: string in int$from_to(1, 2) do end end p\tgives 1:13:V14\0\
    p = proc () for i: string in q() do end end p q = proc () end q\tgives 1:13:V14\0\
    p = proc () for i: string in q() do end end p q = proc () returns (int) return (1) end q\tgives 1:13:V15\0\
    p = proc (x: int) own n: string := x end p\tgives 1:19:V15\0\
    p = proc () x: int x: string := 1 end p\tgives 1:20:V6\0\
    p = proc () x: int x, y := 1 end p\tgives 1:20:V5\0\
    c = cluster is f, f, g rep = null f = proc () end f end c\tgives 1:1:V6\0\
    p = proc [t: type] () where t in {u | u has zork: proctype ()}, t has zonk: proctype () end p q = proc () \
    p[int]() end q\tgives 1:108:V18\0\
    p = proc () q() except when e: when e (n: int): end end p q = proc () signals (e) end q\tgives 1:32:V23\0\
    p = proc () yield (\"a\") end p\tgives 1:13:V29\0\
    c = cluster is f rep = null rep = null f = proc () end f end d\tgives 1:1:V31\0\
    % A child before its parent, and children in the order of the text.\0\
    p = proc () x: int := \"a\" + y end p\tgives 1:29:V5\0\
    p = proc () x: int := y + z end p\tgives 1:23:V5\0\
    p = proc () x: string := int$add(1, y) end p\tgives 1:37:V5\0\
    p = proc () x: string := (nil < nil) + 1 end p\tgives 1:31:V11\0\
    p = proc () x: string := (1 + \"a\") + 2 end p\tgives 1:29:V13\0\
    p = proc () if 1 then x: int := y end end p\tgives 1:33:V5\0\
    p = proc () while 1 do x: int := y end end p\tgives 1:34:V5\0\
    p = proc () if y then z := 1 end end p\tgives 1:16:V5\0\
    p = proc () if 1 then break end end p\tgives 1:23:V28\0\
    p = proc () if true then elseif 1 then else break end end p\tgives 1:45:V28\0\
    p = proc () for i: string in int$from_to(1, 2) do i := y end end p\tgives 1:56:V5\0\
    p = proc (x: int) tagcase x tag a: break end end p\tgives 1:36:V28\0\
    p = proc (o: oneof[a: int]) tagcase o tag b: break end end p\tgives 1:46:V28\0\
    p = proc (o: oneof[a: int]) tagcase o tag a (s: string): break end end p\tgives 1:58:V28\0\
    p = proc (o: oneof[a: int]) tagcase o tag b: tag a: break end end p\tgives 1:39:V22\0\
    p = proc (o: oneof[a, b: int]) tagcase o tag a: others: break end end p\tgives 1:57:V28\0\
    p = proc () q() except when e (n: m): end end p q = proc () signals (e) end q m = proc () end m\tgives 1:35:V9\0\
    p = proc () break resignal zork end p\tgives 1:13:V28\0\
    p = proc () begin break end except when e: when e: end end p\tgives 1:19:V28\0\
    p = proc () begin end except when e: when e: others (n: int): end end p\tgives 1:38:V24\0\
    p = proc [t: type] (x: int) where x2 has f: proctype (u) end p\tgives 1:55:V5\0\
    p = proc () where x has f: proctype () end p\tgives 1:19:V5\0\
    p = proc () q() except when failure (n: t): end end p q = proc () end q\tgives 1:41:V5\0\
    p = proc (r: record[a: int, a: t]) end p\tgives 1:32:V5\0\
    p = proc () signals (failure(t)) end p\tgives 1:30:V5\0\
    p = proc [n: array[t]] () end p\tgives 1:20:V5\0\
    p = proc () break x: int := y end p\tgives 1:13:V28\0\
    p = proc () x: int := y break end p\tgives 1:23:V5\0\
    % Calls: what is invoked, then the arguments, then the call.\0\
    p = proc () f(y) end p\tgives 1:13:V5\0\
    p = proc (x: int) x(y) end p\tgives 1:21:V5\0\
    q = proc () p(y) end q p = proc [t: type] () end p\tgives 1:13:V19\0\
    q = proc () p[y](z) end q p = proc [t: type] () end p\tgives 1:15:V5\0\
    q = proc () p[1](z) end q p = proc [t: type] () end p\tgives 1:14:V19\0\
    p = proc () x: any := t$f(y) end p\tgives 1:23:V5\0\
    p = proc () x: any := int$zork(y) end p\tgives 1:23:V11\0\
    p = proc () r: any := record[a: t]${b: y} end p\tgives 1:33:V5\0\
    p = proc () r: any := record[a: int]${b: y} end p\tgives 1:42:V5\0\
    p = proc (a: array[int]) a[x] := y end p\tgives 1:28:V5\0\
    p = proc (s: struct[a: int]) s.b := y end p\tgives 1:37:V5\0\
    p = proc () x, y := z end p\tgives 1:21:V5\0\
    % Headings of all modules before any body.\0\
    p = proc () break end p q = proc (x: t) end q\tgives 1:38:V5\0\
    p = proc () end z q = proc () returns (t) end q\tgives 1:40:V5\0\
    p = proc () break end p n = m q = proc () end q\tgives 1:29:V5\0\
    p = proc () n = 1 / 0 end p q = proc () signals (e(t)) end q\tgives 1:52:V5\0\
    p = proc () x: u end p q = proc [t: type] () where t has f: proctype (v) end q\tgives 1:71:V5\0\
    p = proc () own n: int := \"a\" end p c = cluster [n: t] is f rep = null f = proc () end f end c\tgives 1:53:V5\0\
    p = proc () break end p c = cluster is f t = array[u] rep = null f = proc () end f end c\tgives 1:52:V5\0\
    p = proc () break end p c = cluster is f rep = null f = proc (x: u) end f end c\tgives 1:66:V5\0\
    p = proc () break end p p = proc () end p\tgives 1:25:V6\0\
    p = proc () break end p stream = proc () end stream\tgives 1:25:V6\0\
    p = proc () break end p c = cluster is f, g rep = null f = proc () end f end c\tgives 1:25:V33\0\
    p = proc () break end p c = cluster is f rep = t f = proc () end f end c\tgives 1:13:V28\0\
    p = proc () break end p c = cluster is f f = proc () end f end c\tgives 1:13:V28\0\
    p = proc () break end p q = proc () end z\tgives 1:13:V28\0\
    % In a heading: the text's order, with an exported name and a second name behind all parts.\0\
    p = proc (x: t) returns (u) end p\tgives 1:14:V5\0\
    p = proc (x: int) returns (u) signals (e(v)) end p\tgives 1:28:V5\0\
    p = proc () signals (e, e) where x has f: proctype () end p\tgives 1:25:V6\0\
    p = proc (x: int, y: t, x: int) end p\tgives 1:22:V5\0\
    p = proc (x: int, x: int, y: t) end p\tgives 1:19:V6\0\
    n = m p = proc (x: t) end p\tgives 1:5:V5\0\
    p = proc () end p p = proc (x: t) end p\tgives 1:32:V5\0\
    p = proc () end p n = m p = proc () end p\tgives 1:23:V5\0\
    c = cluster [t: u] is f where v has f: proctype () rep = null f = proc () end f end c\tgives 1:17:V5\0\
    c = cluster is f where v has f: proctype () n = m rep = null f = proc () end f end c\tgives 1:24:V5\0\
    c = cluster is f, f n = m rep = null f = proc () end f end c\tgives 1:25:V5\0\
    c = cluster is f n = m rep = null f = proc (x: t) end f end c\tgives 1:22:V5\0\
    c = cluster is f, g rep = null f = proc () end f f = proc (x: t) end f end c\tgives 1:63:V5\0\
    c = cluster is f, g rep = null f = proc () end f f = proc () end f end c\tgives 1:50:V6\0\
    c = cluster is f rep = null f = proc () end f f = proc () end f g = proc (x: t) end g end c\tgives 1:47:V6\0\
    % Bodies: a routine's equates, own variables, statements, the routine itself; a cluster's rep, own variables,\0\
    % routines, the cluster itself.\0\
    p = proc () n = m own k: int := \"a\" end p\tgives 1:17:V5\0\
    p = proc () n = 1 own k: int := m break end p\tgives 1:33:V5\0\
    p = proc () break end q\tgives 1:13:V28\0\
    c = cluster is f rep = t own n: int := \"a\" f = proc () end f end c\tgives 1:24:V5\0\
    c = cluster is f rep = null own n: int := \"a\" f = proc () break end f end c\tgives 1:29:V15\0\
    c = cluster is f rep = null f = proc () break end f end d\tgives 1:41:V28\0\
    c = cluster is f rep = null rep = int f = proc () break end f end d\tgives 1:51:V28\0\
    c = cluster is f rep = null f = proc () end g g = proc () break end g end c\tgives 1:29:V34\0\
    p = proc () end q r = proc () break end r\tgives 1:1:V34\0\
    c = cluster is f rep = null f = proc () break end f end c p = proc () continue end p\tgives 1:41:V28\0\
    % A routine's own equates in its heading, and the word `rep` in a heading.\0\
    p = proc (x: t) t = array[u] end p\tgives 1:14:V9\0\
    p = proc (x: c[n]) n = 1 / 0 end p c = cluster [n: int] is f rep = null f = proc () end f end c\tgives 1:16:V8\0\
    p = proc () t = array[u] end p\tgives 1:23:V5\0\
    p = proc () break end p q = proc () t = array[u] end q\tgives 1:13:V28\0\
    p = proc () break end p c = cluster is f rep = array[u] f = proc (x: rep) end f end c\tgives 1:70:V9\0\
    p = proc () break end p c = cluster is f rep = array[u] f = proc (x: cvt) end f end c\tgives 1:13:V28\0\
    p = proc () break end p c = cluster is f rep = array[rep] f = proc () end f end c\tgives 1:13:V28\0\
    p = proc () break end p c = cluster is f rep = array[rep] f = proc (x: rep) end f end c\tgives 1:72:V7\0\
    p = proc (x: t) returns (array[t]) t = record[a: u] u = int return (array[t]$[x]) end p\tgives ok\0\
    % V1, V2 and V3 anywhere before all others.\0\
    p = proc () break x: int := # end p\tgives 1:29:V1\0\
    p = proc () break x: int := y z end p\tgives 1:33:V2\0\
    % Places of statements and postfix expressions.\0\
    p = proc () int$unparse() end p\tgives 1:24:V12\0\
    p = proc (r: array[record[a: int]]) x: int := r[1].b end p\tgives 1:51:V11\0\
    p = proc (r: array[record[a: int]]) r[1].b := 1 end p\tgives 1:37:V11\0\
    p = proc (r: record[a: array[int]]) r.a[nil] := 1 end p\tgives 1:37:V13\0\
    p = proc () x: int := ((q())) end p q = proc () end q\tgives 1:26:V14\0\
    p = proc () x: bool := (true) cand (1) end p\tgives 1:31:V16\0\
    p = proc (f: proctype (int) returns (proctype ())) f(1)(2) end p\tgives 1:56:V12\0\
    p = proc ()\n  x: int := 1\n  x := x\n    + nil\nend p\tgives 4:5:V13\0\
    p = proc () % a comment with break\n\n \t break\nend p\tgives 3:4:V28\0\
";
