//! Equal types, actual parameters in headings, and the operations that operators stand for.

/// How many rows `ROWS` has besides comments.
pub const ROWS_COUNT: usize = 81;

/// Sources with the place and the rule of their refusal, or `ok`.
pub const ROWS: &str = "\
    % Equal types: the order of selectors and of signals is none of them, nor is `failure`.\0\
    p = proc () x: struct[a: int, b: null] := struct[b: null, a: int]${a: 1, b: nil} end p\tgives ok\0\
    p = proc (f: proctype () signals (e, g(int))) x: proctype () signals (g(int), failure(string), e) := f end \
    p\tgives ok\0\
    p = proc (r: record[a, b: int]) x: record[b: int, a: int] := r end p\tgives ok\0\
    p = proc (r: record[a: int]) x: struct[a: int] := r end p\tgives 1:30:V15\0\
    p = proc (f: proctype (int, string)) x: proctype (string, int) := f end p\tgives 1:38:V15\0\
    p = proc (f: proctype (any)) x: proctype (int) := f end p\tgives 1:30:V15\0\
    p = proc (f: proctype () returns (int)) x: proctype () returns (any) := f end p\tgives 1:41:V15\0\
    p = proc (f: proctype () signals (e(int))) x: proctype () signals (e(any)) := f end p\tgives 1:44:V15\0\
    p = proc (f: proctype ()) x: itertype () := f end p\tgives 1:27:V15\0\
    p = proc (a: array[int]) x: sequence[int] := a end p\tgives 1:26:V15\0\
    % Instances of a cluster are equal where their actual parameters are.\0\
    p = proc (x: c[2]) y: c[1 + 1] := x end p c = cluster [n: int] is f rep = null f = proc () end f end c\tgives ok\0\
    p = proc [n: int] (x: c[n]) y: c[(n)] := x end p c = cluster [n: int] is f rep = null f = proc () end f end \
    c\tgives ok\0\
    p = proc (x: c[2]) y: c[3] := x end p c = cluster [n: int] is f rep = null f = proc () end f end c\tgives \
    1:20:V15\0\
    p = proc [n, m: int] (x: c[n]) y: c[m] := x end p c = cluster [n: int] is f rep = null f = proc () end f end \
    c\tgives 1:32:V15\0\
    p = proc (x: c[int]) y: c[any] := x end p c = cluster [t: type] is f rep = null f = proc () end f end c\tgives \
    1:22:V15\0\
    p = proc [t, u: type] (x: t) y: u := x end p\tgives 1:30:V15\0\
    p = proc (x: c[\"a\"]) y: c[\"A\"] := x end p c = cluster [s: string] is f rep = null f = proc () end f end \
    c\tgives 1:22:V15\0\
    % Actual parameters stand in the headings of an instance.\0\
    p = proc [t: type] (x: t) end p q = proc () p[int](\"a\") end q\tgives 1:51:V13\0\
    q = proc (x: c[int]) c[int]$f(x, \"a\") end q c = cluster [t: type] is f rep = null f = proc (a: c[t], b: t) end \
    f end c\tgives 1:30:V13\0\
    q = proc (x: c[int]) s: string := c[int]$f(x) end q c = cluster [t: type] is f rep = array[t] f = proc (a: cvt) \
    returns (t) return (a[1]) end f end c\tgives 1:22:V15\0\
    c = cluster [t: type] is f rep = null f = proc (x: t) f(1) end f end c\tgives 1:56:V13\0\
    p = proc [t: type] () returns (array[t]) return (array[t]$[]) end p q = proc () a: array[string] := p[int]() end \
    q\tgives 1:81:V15\0\
    q = proc () f: proctype (string) := p[int] end q p = proc [t: type] (x: t) end p\tgives 1:13:V15\0\
    q = proc () p[int]() except when e (s: string): end end q p = proc [t: type] () signals (e(t)) end p\tgives \
    1:29:V23\0\
    q = proc (x: c[int]) n: int := c[int]$f(x) f: proctype (c[int]) returns (int) := c[int]$f end q c = cluster [t: \
    type] is f rep = array[t] f = proc (a: cvt) returns (t) return (a[1]) end f end c\tgives ok\0\
    q = proc () f: proctype (int) := p[int] p[int](1) p[any](\"a\") end q p = proc [t: type] (x: t) end p\tgives ok\0\
    c = cluster [t: type] is f rep = null f = proc (x: t) f(x) c[int]$f(1) end f end c\tgives ok\0\
    % What is asked of parameters, with actuals that are parameters.\0\
    c = cluster [t: type] is f where t has equal: proctype (t, t) returns (bool) rep = null f = proc (x: c[t], y: \
    c[array[t]], z: c[sequence[t]]) end f end c\tgives ok\0\
    c = cluster [t: type] is f where t has equal: proctype (t, t) returns (bool) rep = null f = proc (x: \
    c[sequence[any]]) end f end c\tgives 1:102:V18\0\
    p = proc [t, v: type] (x: t, y: v) where t in {u | u has f: proctype (u, v)} t$f(x, y) end p\tgives ok\0\
    p = proc [t, v: type] (x: t) where t in {u | u has f: proctype (u, v)} t$f(x, x) end p\tgives 1:75:V13\0\
    p = proc [t: type] (x: t) where t has f: proctype (t) signals (e(int)) t$f(x) except when e: end end p\tgives \
    1:86:V23\0\
    p = proc [t: type] () where t has f, g: proctype () t$f() t$g() end p\tgives ok\0\
    p = proc [t: type] () where t has f, g: proctype () end p q = proc [t: type] () where t has f: proctype () \
    p[t]() end q\tgives 1:109:V18\0\
    p = proc [t: type] () where t in s s = {u | u has equal: e e = proctype (u, u) returns (bool)} end p q = proc () \
    p[int]() end q\tgives ok\0\
    c = cluster [t: type] is f where t in s s = {u | u has f: proctype ()} rep = null f = proc () t$f() end f end \
    c\tgives ok\0\
    % Constants have types: literals, equates and parameters.\0\
    p = proc () n = 1 x: string := n end p\tgives 1:19:V15\0\
    p = proc [n: int] () x: string := n end p\tgives 1:22:V15\0\
    p = proc [b: bool, z: null, c: char] () if b then x: null := z y: char := c end end p\tgives ok\0\
    p = proc [n: int] () while n do end end p\tgives 1:22:V16\0\
    % Operators stand for the operation of the left operand's type; with `~` for its `not` besides.\0\
    c = cluster is equal rep = null equal = proc (a: c, b: int) returns (bool) return (true) end equal end c p = \
    proc (a: c) b: bool := a = 1 b := a ~= 2 end p\tgives ok\0\
    c = cluster is equal rep = null equal = proc (a: c, b: int) returns (bool) return (true) end equal end c p = \
    proc (a: c) b: bool := a = a end p\tgives 1:135:V13\0\
    c = cluster is equal rep = null equal = proc (a, b: c) returns (int) return (1) end equal end c p = proc (a: c) \
    b: any := a ~= a end p\tgives 1:125:V11\0\
    c = cluster is equal rep = null equal = proc (a, b: c) end equal end c p = proc (a: c) b: any := a ~= a end \
    p\tgives 1:100:V14\0\
    c = cluster is equal rep = null equal = proc (a, b: c) returns (int) return (1) end equal end c p = proc (a: c) \
    b: bool := a = a end p\tgives 1:113:V15\0\
    d = cluster is not rep = null not = proc (x: d) returns (string) return (\"\") end not end d c = cluster is lt \
    rep = null lt = proc (a, b: c) returns (d) return (lt(a, b)) end lt end c p = proc (a: c) s: string := a ~< a \
    end p\tgives ok\0\
    c = cluster is add rep = null add = proc (a, b: c) returns (c) signals (e) return (a) end add end c p = proc (a: \
    c) a := a + a except when e (n: int): end end p\tgives 1:135:V23\0\
    c = cluster is fetch, store rep = null fetch = proc (a: c, s: string) returns (any) return (s) end fetch store = \
    proc (a: c, s: string, n: int) end store end c p = proc (a: c) x: any := a[\"x\"] a[\"x\"] := 1 end p\tgives ok\0\
    c = cluster is store rep = null store = proc (a: c, s: string, n: int) end store end c p = proc (a: c) a[\"x\"] \
    := nil end p\tgives 1:104:V13\0\
    c = cluster is get_x, set_x rep = null get_x = proc (a: c) returns (int) return (1) end get_x set_x = proc (a: \
    c, x: string) end set_x end c p = proc (a: c) n: int := a.x a.x := \"a\" end p\tgives ok\0\
    % A fetch has one expression between its brackets.\0\
    p = proc (a: array[int]) x: int := a[1, 2] end p\tgives 1:37:V12\0\
    p = proc (a: array[int]) x: int := a[int] end p\tgives 1:38:V14\0\
    p = proc (a: array[int]) x: string := a[1]() end p\tgives 1:43:V13\0\
    p = proc (a: array[array[int]]) x: int := a[1][2] c: char := \"abc\"[2] end p\tgives ok\0\
    % Scopes of headings: leading equates stand before the parameters, an argument's name behind its declaration.\0\
    n = m p = proc [m: int] () end p\tgives 1:5:V5\0\
    n = 1 p = proc [n: int] () end p\tgives 1:17:V6\0\
    p = proc (x: n, n: int) end p\tgives 1:14:V5\0\
    p = proc (n: int, x: n) end p\tgives 1:22:V9\0\
    p = proc (n: int) signals (e(n)) end p\tgives 1:30:V9\0\
    p = proc (n: int) where n has f: proctype () end p\tgives 1:25:V9\0\
    p = proc (n: int) m = n end p\tgives 1:23:V8\0\
    p = proc (x: int) own x: int end p\tgives 1:23:V6\0\
    p = proc () begin exit e(1) end except when e (n: int): n = 1 end end p\tgives 1:57:V6\0\
    p = proc () for i: int in int$from_to(1, i) do end end p\tgives 1:42:V5\0\
    p = proc () a, b: int := q(a) end p q = proc (x: int) returns (int, int) return (x, x) end q\tgives 1:28:V5\0\
    p = proc () x: array[x] end p\tgives 1:22:V5\0\
    p = proc () x: int begin y = x end end p\tgives 1:30:V8\0\
    p = proc () signals (failure(string), failure(string)) end p\tgives 1:39:V6\0\
    p = proc [t: type] () t := 1 end p\tgives 1:23:V15\0\
    p = proc [n: k] () k = int x: int := n end p\tgives ok\0\
    p = proc (x: q) q = int y: int := x end p q = proc () end q\tgives ok\0\
    t = c p = proc (x: t) end p c = cluster is f rep = null f = proc () end f end c\tgives ok\0\
    p = proc () begin a = 1 end a: int end p\tgives ok\0\
    % Loops, raises and exits that stand in between.\0\
    p = proc () a, b: int a, b := q() end p q = iter () yields (int, int) end q\tgives 1:32:V36\0\
    p = proc (x: int) for i: int in x() do end end p\tgives 1:34:V13\0\
    p = proc (o: oneof[a: int]) tagcase o tag a: end except when failure: end end p\tgives 1:57:V23\0\
    p = proc (x: any) signal failure(x) end p\tgives 1:19:V26\0\
    p = proc () begin exit failure(\"x\") end except when failure (s: string): end end p\tgives ok\0\
    c = cluster is f rep = null f = proc () x: rep := up(nil) end f end c\tgives 1:41:V15\0\
    p = proc () n: int := force[int](\"a\") f: proctype (any) returns (int) signals (wrong_type) := force[int] end \
    p\tgives ok\0\
    p = proc () f: proctype (any) returns (int) := force[int] end p\tgives 1:13:V15\0\
";
