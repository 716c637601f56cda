//! Operations and the arguments of invocations: V11 to V13.

/// How many rows `ROWS` has besides comments.
pub const ROWS_COUNT: usize = 82;

/// Sources with the place and the rule of their refusal, or `ok`.
pub const ROWS: &str = "\
    % V11: an operation that is named, at the type.\0\
    p = proc () x: int := int$zork(1) end p\tgives 1:23:V11\0\
    p = proc () x: any := array[int]$zork end p\tgives 1:23:V11\0\
    p = proc () null$lt(nil, nil) end p\tgives 1:13:V11\0\
    p = proc () x: oneof[a: int] := oneof[a: int]$make_b(1) end p\tgives 1:33:V11\0\
    p = proc (s: stream) b: bool := stream$similar(s, s) end p\tgives 1:33:V11\0\
    p = proc () x: any := record[a: int]$replace_a end p\tgives 1:23:V11\0\
    p = proc () x: any := any$equal end p\tgives 1:23:V11\0\
    p = proc () x: any := int$concat end p\tgives 1:23:V11\0\
    p = proc () x: any := proctype ()$lt end p\tgives 1:23:V11\0\
    p = proc () x: any := int$add x := array[int]$new x := proctype ()$equal end p\tgives ok\0\
    % Sugar, at its operator or mark; assignments to components and elements at their first token.\0\
    p = proc () b: bool := nil < nil end p\tgives 1:28:V11\0\
    p = proc () b: bool := ~1 end p\tgives 1:24:V11\0\
    p = proc () b: bool := -true end p\tgives 1:24:V11\0\
    p = proc () s: string := \"a\" * \"b\" end p\tgives 1:30:V11\0\
    p = proc () b: bool := 1 & true end p\tgives 1:26:V11\0\
    p = proc (a, b: any) c: bool := a = b end p\tgives 1:35:V11\0\
    p = proc (a, b: any) c: bool := a ~= b end p\tgives 1:35:V11\0\
    p = proc (r: record[a: int]) x: int := r.b end p\tgives 1:41:V11\0\
    p = proc (o: oneof[a: int]) x: int := o.a end p\tgives 1:40:V11\0\
    p = proc (x: int) y: int := x[1] end p\tgives 1:30:V11\0\
    p = proc (s: struct[a: int]) s.a := 1 end p\tgives 1:30:V11\0\
    p = proc (r: record[a: int]) r.b := 1 end p\tgives 1:30:V11\0\
    p = proc (s: sequence[int]) s[1] := 2 end p\tgives 1:29:V11\0\
    p = proc (s: string) s[1] := 'a' end p\tgives 1:22:V11\0\
    p = proc (x: int) x.a := 1 end p\tgives 1:19:V11\0\
    p = proc (s: sequence[int]) x: int := s[1] s := sequence[int]$replace(s, 1, 2) end p\tgives ok\0\
    p = proc (r: record[a: int], s: struct[a: int]) r.a := s.a end p\tgives ok\0\
    % Clusters: exported operations outside, all inside and for every instance.\0\
    c = cluster is f rep = null f = proc () end f g = proc () end g end c p = proc () c$g() end p\tgives 1:83:V11\0\
    c = cluster is f rep = null f = proc () end f add = proc (a, b: c) returns (c) return (a) end add end c p = proc \
    (a: c) b: c := a + a end p\tgives 1:131:V11\0\
    c = cluster is f rep = null f = proc () c$h() end f end c\tgives 1:41:V11\0\
    c = cluster is f rep = null f = proc () end f add = proc (a: c) end add end c p = proc (a: array[c]) c$add(a[1]) \
    end p\tgives 1:102:V11\0\
    c = cluster is f rep = null f = proc () c$g() end f g = proc () end g end c\tgives ok\0\
    c = cluster is f rep = null f = proc (a: c) b: c := a + a end f add = proc (a, b: c) returns (c) return (a) end \
    add end c\tgives ok\0\
    c = cluster [t: type] is f rep = null f = proc () c[int]$g() c[array[t]]$g() end f g = proc () end g end \
    c\tgives ok\0\
    c = cluster is f rep = array[int] f = proc (a: c) x: int := a[1] end f end c\tgives 1:62:V11\0\
    % Parameters: what the where clauses of the routine and of the cluster give.\0\
    p = proc [t: type] (x: t) b: bool := x = x end p\tgives 1:40:V11\0\
    p = proc [t: type] (x: t) t$f(x) end p\tgives 1:27:V11\0\
    p = proc [t, u: type] (x: u) where t has f: proctype (t) u$f(x) end p\tgives 1:58:V11\0\
    c = cluster [t: type] is f, g rep = null f = proc (x: t) where t has h: proctype (t) t$h(x) end f g = proc (x: \
    t) t$h(x) end g end c\tgives 1:115:V11\0\
    p = proc [t: type] (x: t) where t has equal: proctype (t, t) returns (bool) b: bool := x = x end p\tgives ok\0\
    p = proc [t: type] (x: t) where t in {u | u has equal: proctype (u, u) returns (bool)} b: bool := x ~= x end \
    p\tgives ok\0\
    c = cluster [t: type] is f where t has h: proctype (t) rep = null f = proc (x: t) t$h(x) end f end c\tgives ok\0\
    % Two headings of one name: the routine's comes first.\0\
    c = cluster [t: type] is f where t has h: proctype (t) rep = null f = proc (a: t) where t has h: proctype (t) \
    returns (int) x: int := t$h(a) end f end c\tgives ok\0\
    c = cluster [t: type] is f where t has h: proctype (t) rep = null f = proc (a: t) x: int := t$h(a) end f end \
    c\tgives 1:96:V14\0\
    % V12: another number of arguments, at the mark of the call or of sugar.\0\
    p = proc () q() end p q = proc (x: int) end q\tgives 1:14:V12\0\
    p = proc () x: int := int$add(1) end p\tgives 1:30:V12\0\
    p = proc () int$add(1, 2, 3) end p\tgives 1:20:V12\0\
    p = proc (f: proctype (int)) f() end p\tgives 1:31:V12\0\
    p = proc () x: int := force[int]() end p\tgives 1:33:V12\0\
    p = proc () for i: int in int$from_to(1) do end end p\tgives 1:38:V12\0\
    p = proc () s: stream := stream$primary_output(1) end p\tgives 1:47:V12\0\
    p = proc () q(1, \"x\") end p q = proc (x: string) end q\tgives 1:14:V12\0\
    c = cluster is add rep = null add = proc (a: c) returns (c) return (a) end add end c p = proc (a: c) b: c := a + \
    a end p\tgives 1:112:V12\0\
    c = cluster is minus rep = null minus = proc () returns (c) return (up(nil)) end minus end c p = proc (a: c) b: \
    c := -a end p\tgives 1:118:V12\0\
    c = cluster is get_x rep = null get_x = proc (a, b: c) returns (int) return (1) end get_x end c p = proc (a: c) \
    n: int := a.x end p\tgives 1:124:V12\0\
    c = cluster is set_x rep = null set_x = proc (a: c) end set_x end c p = proc (a: c) a.x := 1 end p\tgives \
    1:85:V12\0\
    c = cluster is fetch rep = null fetch = proc (a: c) returns (int) return (1) end fetch end c p = proc (a: c) n: \
    int := a[1] end p\tgives 1:121:V12\0\
    p = proc () q(1) end p q = proc (x: any) end q\tgives ok\0\
    % V13: an argument's type, or what is invoked is no routine.\0\
    p = proc () x: int := int$add(1, \"a\") end p\tgives 1:30:V13\0\
    p = proc () x: int := 1 + \"a\" end p\tgives 1:25:V13\0\
    p = proc () x: bool := true & 1 end p\tgives 1:29:V13\0\
    p = proc (x: int) x() end p\tgives 1:20:V13\0\
    p = proc () 5() end p\tgives 1:14:V13\0\
    p = proc (x: any) x() end p\tgives 1:20:V13\0\
    p = proc (a: array[int]) x: int := a[\"b\"] end p\tgives 1:37:V13\0\
    p = proc (a: array[int]) a[1] := \"x\" end p\tgives 1:26:V13\0\
    p = proc (a: array[int]) a[\"b\"] := 1 end p\tgives 1:26:V13\0\
    p = proc (r: record[a: int]) r.a := \"x\" end p\tgives 1:30:V13\0\
    p = proc (a: any) q(a) end p q = proc (x: int) end q\tgives 1:20:V13\0\
    p = proc (f: proctype () signals (e)) q(f) end p q = proc (g: proctype ()) end q\tgives 1:40:V13\0\
    p = proc (a: array[int]) q(a) end p q = proc (x: array[any]) end q\tgives 1:27:V13\0\
    p = proc (f: proctype ()) q(f) end p q = proc (g: itertype ()) end q\tgives 1:28:V13\0\
    p = proc (f: proctype ()) q(f) end p q = proc (g: proctype () signals (e)) end q\tgives ok\0\
    p = proc (f: proctype () signals (failure(string))) q(f) end p q = proc (g: proctype ()) end q\tgives ok\0\
    p = proc (a: array[any]) a[1] := \"x\" array[any]$addh(a, nil) end p\tgives ok\0\
    % Components, elements and the low bound of a constructor.\0\
    p = proc () r: any := record[a: int]${a: \"x\"} end p\tgives 1:23:V13\0\
    p = proc () r: any := struct[a, b: int]${a, b: \"x\"} end p\tgives 1:23:V13\0\
    p = proc () a: any := array[int]$[1, \"b\"] end p\tgives 1:23:V13\0\
    p = proc () a: any := array[int]$[\"x\": 1] end p\tgives 1:23:V13\0\
    p = proc () a: any := array[int]$['x': \"y\"] end p\tgives 1:23:V13\0\
    p = proc () a: any := sequence[int]$[nil] end p\tgives 1:23:V13\0\
    p = proc () a: any := array[any]$[0: 1, \"b\", nil] a := record[a: any]${a: 1} end p\tgives ok\0\
";
