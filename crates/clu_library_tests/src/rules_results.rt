//! Results, assignments, conditions and iterators: V14 to V16 and V36.

/// How many rows `ROWS` has besides comments.
pub const ROWS_COUNT: usize = 74;

/// Sources with the place and the rule of their refusal, or `ok`.
pub const ROWS: &str = "\
    % V14: an expression has exactly one result; the number of variables at the statement.\0\
    p = proc () x: int := q() end p q = proc () end q\tgives 1:24:V14\0\
    p = proc () x: any := q() end p q = proc () returns (int, int) return (1, 2) end q\tgives 1:24:V14\0\
    p = proc () x: int x := q() end p q = proc () end q\tgives 1:26:V14\0\
    p = proc () q(r()) end p q = proc (x: int) end q r = proc () returns (int, int) return (1, 2) end r\tgives \
    1:16:V14\0\
    p = proc () x: int := 1 + q() end p q = proc () end q\tgives 1:28:V14\0\
    p = proc () if q() then end end p q = proc () end q\tgives 1:17:V14\0\
    p = proc () a, b: int := q() end p q = proc () returns (int) return (1) end q\tgives 1:13:V14\0\
    p = proc () a, b: int := q() end p q = proc () returns (int, int, int) return (1, 2, 3) end q\tgives 1:13:V14\0\
    p = proc () a, b: int a, b := q() end p q = proc () returns (int) return (1) end q\tgives 1:23:V14\0\
    p = proc () a, b: int a, b := 1 end p\tgives 1:23:V14\0\
    p = proc () a, b: int a, b := 1, 2, 3 end p\tgives 1:23:V14\0\
    p = proc () a: int a := 1, 2 end p\tgives 1:20:V14\0\
    p = proc () a, b: int a, b := (q()) end p q = proc () returns (int, int) return (1, 2) end q\tgives 1:33:V14\0\
    p = proc () own a, b: int := q() end p q = proc () returns (int) return (1) end q\tgives 1:13:V14\0\
    p = proc () a, b: int a, b := q(), 1 end p q = proc () returns (int, int) return (1, 2) end q\tgives 1:32:V14\0\
    p = proc (a: proctype ()) x: any := a() end p\tgives 1:38:V14\0\
    c = cluster is add rep = null add = proc (a, b: c) end add end c p = proc (a: c) b: c := a + a end p\tgives \
    1:92:V14\0\
    c = cluster is get_x rep = null get_x = proc (a: c) end get_x end c p = proc (a: c) b: c := a.x end p\tgives \
    1:94:V14\0\
    p = proc () a, b: int := q() a, b := q() q() end p q = proc () returns (int, int) return (1, 2) end q\tgives ok\0\
    p = proc () a, b: int a, b := 1, 2 a, b := b, a int$add(1, 2) end p\tgives ok\0\
    p = proc () for i, j: int in int$from_to(1, 2) do end end p\tgives 1:13:V14\0\
    p = proc () for in int$from_to(1, 2) do end end p\tgives 1:13:V14\0\
    p = proc () i, j: int for i, j in int$from_to(1, 2) do end end p\tgives 1:23:V14\0\
    p = proc () for i, j: string in int$from_to(1, 2) do end end p\tgives 1:13:V14\0\
    p = proc () for i: int in q() do end end p q = proc () end q\tgives 1:13:V14\0\
    p = proc () for i: int in int$from_to(1, 2) do end end p\tgives ok\0\
    % A type, a set or a cluster's name is no expression.\0\
    t = int p = proc () x: any := t end p\tgives 1:31:V14\0\
    p = proc () x: any := c end p c = cluster is f rep = null f = proc () end f end c\tgives 1:23:V14\0\
    p = proc () x: any := c[int] end p c = cluster [t: type] is f rep = null f = proc () end f end c\tgives 1:24:V14\0\
    p = proc (a: array[int]) t = int x: int := a[t] end p\tgives 1:46:V14\0\
    p = proc [t: type] () x: any := t end p\tgives 1:33:V14\0\
    p = proc () q(stream) end p q = proc (x: any) end q\tgives 1:15:V14\0\
    % V15: an object's type against the variable's, at the statement or arm.\0\
    p = proc () x: int := \"a\" end p\tgives 1:13:V15\0\
    p = proc () x: int x := \"a\" end p\tgives 1:20:V15\0\
    p = proc () x: int y: string x, y := 1, 2 end p\tgives 1:30:V15\0\
    p = proc (a: any) x: int := a end p\tgives 1:19:V15\0\
    p = proc () a: int, b: string := q() end p q = proc () returns (int, int) return (1, 2) end q\tgives 1:13:V15\0\
    p = proc () a: int b: string a, b := q() end p q = proc () returns (int, int) return (1, 2) end q\tgives \
    1:30:V15\0\
    p = proc (a: array[int]) b: array[any] := a end p\tgives 1:26:V15\0\
    p = proc (f: proctype () signals (e)) g: proctype () := f end p\tgives 1:39:V15\0\
    p = proc () for i: string in int$from_to(1, 2) do end end p\tgives 1:13:V15\0\
    p = proc () x: string for x in int$from_to(1, 2) do end end p\tgives 1:23:V15\0\
    p = proc (o: oneof[a: int]) tagcase o tag a (s: string): end end p\tgives 1:39:V15\0\
    p = proc (o: oneof[a: int, b: string]) tagcase o tag a, b (s: string): end end p\tgives 1:50:V15\0\
    p = proc () own n: int := \"a\" end p\tgives 1:13:V15\0\
    c = cluster is f rep = null own n: int := \"a\" f = proc () end f end c\tgives 1:29:V15\0\
    c = cluster is f rep = int f = proc (x: cvt) y: c := x end f end c\tgives 1:46:V15\0\
    p = proc (a: int) x: any := a x := \"a\" a := 2 end p\tgives ok\0\
    p = proc (o: oneof[a: int, b: string]) tagcase o tag a, b (s: any): end end p\tgives ok\0\
    p = proc () x: any for x in int$from_to(1, 2) do end end p\tgives ok\0\
    p = proc (f: proctype ()) g: proctype () signals (e) := f end p\tgives ok\0\
    % The target is no variable.\0\
    p = proc () p := 1 end p\tgives 1:13:V15\0\
    p = proc () n = 1 n := 2 end p\tgives 1:19:V15\0\
    p = proc [n: int] () n := 2 end p\tgives 1:22:V15\0\
    p = proc () for p in int$from_to(1, 2) do end end p\tgives 1:13:V15\0\
    p = proc () t = int t := 2 end p\tgives 1:21:V15\0\
    % V16: conditions at the statement, operands of `cand` and `cor` at the operator.\0\
    p = proc () if 1 then end end p\tgives 1:13:V16\0\
    p = proc () while \"a\" do end end p\tgives 1:13:V16\0\
    p = proc () if true then elseif 1 then end end p\tgives 1:13:V16\0\
    p = proc (a: any) if a then end end p\tgives 1:19:V16\0\
    p = proc () b: bool := true cand 1 end p\tgives 1:29:V16\0\
    p = proc () b: bool := 1 cor true end p\tgives 1:26:V16\0\
    p = proc () b: bool := nil cand 1 end p\tgives 1:28:V16\0\
    p = proc () if 1 cor 2 then end end p\tgives 1:18:V16\0\
    p = proc () if true cand false cor 1 < 2 then elseif false then else end while false do end end p\tgives ok\0\
    % V36: an iterator is invoked by a loop and nothing else, a loop invokes an iterator.\0\
    p = proc () int$from_to(1, 2) end p\tgives 1:24:V36\0\
    p = proc () x: any := int$from_to(1, 2) end p\tgives 1:34:V36\0\
    p = proc () q() end p q = iter () end q\tgives 1:14:V36\0\
    p = proc (f: itertype () yields (int)) x: int := f() end p\tgives 1:51:V36\0\
    p = proc () for in q() do end end p q = proc () end q\tgives 1:13:V36\0\
    p = proc () for i: int in q() do end end p q = proc () returns (int) return (1) end q\tgives 1:13:V36\0\
    p = proc (f: proctype () returns (int)) for i: int in f() do end end p\tgives 1:41:V36\0\
    c = cluster is add rep = null add = iter (a, b: c) yields (c) yield (a) end add end c p = proc (a: c) b: c := a \
    + a end p\tgives 1:113:V36\0\
    p = proc (f: itertype () yields (int)) for i: int in f() do end x: any := f x := int$from_to end p\tgives ok\0\
";
