//! Sources with what is read of them, one or more for each production of the grammar.

/// How many rows `TOKENS` has besides comments.
pub const TOKENS_COUNT: usize = 16;

/// Each source with the kinds of its tokens, their first bytes and where they end, and the place of the last one if it
/// does not stand in the first line, or with the place at which no token begins.
pub const TOKENS: &str = "\
    \tgives\0\
    %note\tgives\0\
    a_1 %x\n  B\tgives Idn 0 3 Idn 9 10 at 2 3\0\
    If while1 WHILE\tgives Word 0 2 Idn 3 9 Word 10 15\0\
    1.x 5 .x\tgives Real 0 2 Idn 2 3 Int 4 5 Mark 6 7 Idn 7 8\0\
    1e 1e+7 .5E2\tgives Int 0 1 Idn 1 2 Real 3 7 Real 8 12\0\
    ~<=~>~\tgives Mark 0 3 Mark 3 5 Mark 5 6\0\
    '\"' '\\'' \"a\\101\\N\"\tgives Char 0 3 Char 4 8 Str 9 18\0\
    :==||**//|\tgives Mark 0 2 Mark 2 3 Mark 3 5 Mark 5 7 Mark 7 9 Mark 9 10\0\
    \"open\tgives none at 1 1\0\
    a\n 'ab'\tgives none at 2 2\0\
    x !\tgives none at 1 3\0\
    \n\n\x7f\tgives none at 3 1\0\
    \"a\nb\"\tgives none at 1 1\0\
    '\\12'\tgives none at 1 1\0\
    p %\n = q\tgives Idn 0 1 Mark 5 6 Idn 7 8 at 2 4\0\
";

/// How many rows `LITERALS` has besides comments.
pub const LITERALS_COUNT: usize = 16;

/// Spellings of string literals and of character literals, with the bytes that they denote, in hexadecimal digits.
pub const LITERALS: &str = "\
    \"\"\tgives\0\
    \"hi\"\tgives 68 69\0\
    \"a\\tb\\101\"\tgives 61 09 62 41\0\
    \"\\n\\t\\p\\b\\r\\v\"\tgives 0a 09 0c 08 0d 0b\0\
    \"\\N\\T\\P\\B\\R\\V\"\tgives 0a 09 0c 08 0d 0b\0\
    \"\\\\\\'\\\"'\"\tgives 5c 27 22 27\0\
    \"\\000\\377\\0123\"\tgives 00 ff 0a 33\0\
    \"a\\400\"\tgives none\0\
    \"\\777b\"\tgives none\0\
    'a'\tgives 61\0\
    '\"'\tgives 22\0\
    '\\''\tgives 27\0\
    '\\n'\tgives 0a\0\
    '\\B'\tgives 08\0\
    '\\377'\tgives ff\0\
    '\\400'\tgives none\0\
";

/// How many rows `SOURCES` has besides comments.
pub const SOURCES_COUNT: usize = 131;

/// Sources with `a tree`, or the place of the first token that no source of the grammar has there, or `too deep` and
/// the place.
pub const SOURCES: &str = "\
    START_UP = proc () % note\nstream$puts(stream$primary_output(), \"a\\tb\\101\"); end start_up\tgives a tree\0\
    p = proc [t: type, n: int] (a, b: t) returns (int, t) signals (e, f(int)) where t has equal: proctype (t, t) \
    returns (bool), t in s end p\tgives a tree\0\
    c = cluster [t: type] is x, y where t in {u | u has f: itertype (u) yields (u) signals (e) q = 1;} rep = \
    array[t]; own a: int own b, d: int := f() x = iter () yields (int) end x y = proc () end y end c\tgives a tree\0\
    n = 1 t = record[a, b: int, c: oneof[d: null]] p = proc () q = t$f own r: int := 1 begin end end p\tgives a tree\0\
    p = proc () x: int x: int := 1 a, b: int := c() a, b := d, e a := (f()) a.b := 1 a[1] := 2 f[int](1) t[int]$g() \
    end p\tgives a tree\0\
    p = proc () while a do end for in f() do end for x: int in g() do break end for x, y in g() do continue end end \
    p\tgives a tree\0\
    p = proc () if a then elseif b then else end tagcase x tag a, b (c: int): tag d: others: end end p\tgives a tree\0\
    p = proc () return return (1) yield (x) signal s signal s(1) exit e f() resignal a, b except when c, d (x: int): \
    when e(*): others (s: string): end end p\tgives a tree\0\
    p = proc () x := -a ** ~b * (c + 1) || \"s\" < 'c' & nil cand true | t${a, b: 1, c: 2} cor t$[] x := t$[1: 2, 3] \
    x := force[int](up(down(rep$[]))) end p\tgives a tree\0\
    \tgives none at 1 1\0\
    p = proc () end\tgives none at 1 16\0\
    p = proc () x end p\tgives none at 1 15\0\
    p = proc () f();; end p\tgives none at 1 17\0\
    p = proc () a, b: int := c + d() end p\tgives none at 1 28\0\
    p = proc () a[int] := v end p\tgives none at 1 20\0\
    p = proc ()\n(a).b() end p\tgives none at 2 1\0\
    p = proc () for x: int in y do end end p\tgives none at 1 29\0\
    c = cluster is end c\tgives none at 1 16\0\
    p = proc () x := ^196^~^true end p\tgives a tree\0\
    p = proc () x := ^197^~^true end p\tgives too deep at 1 215\0\
    p = proc () x := ^199^(^\tgives none at 1 217\0\
    p = proc () x := ^200^(^\tgives too deep at 1 217\0\
    p = proc () x := ^100000^a+^a end p\tgives too deep at 1 18\0\
    % Files, modules and routines.\0\
    \tgives none at 1 1\0\
    ; p = proc () end p\tgives none at 1 1\0\
    n = 3\tgives none at 1 6\0\
    p = proc () end p ;\tgives none at 1 19\0\
    p = proc x\tgives none at 1 10\0\
    p = while\tgives none at 1 5\0\
    p = proc () end end\tgives none at 1 17\0\
    p = proc () end 3\tgives none at 1 17\0\
    % Clusters.\0\
    c = cluster f\tgives none at 1 13\0\
    c = cluster is rep\tgives none at 1 16\0\
    c = cluster is f end c\tgives none at 1 18\0\
    c = cluster is f rep = int f = proc [t: type] () end f end c\tgives none at 1 37\0\
    % Parameters and headings.\0\
    p = proc [t ] () end p\tgives none at 1 13\0\
    p = proc [t: 3] () end p\tgives none at 1 14\0\
    p = proc [] () end p\tgives none at 1 11\0\
    p = proc () returns int end p\tgives none at 1 21\0\
    p = proc () returns () end p\tgives none at 1 22\0\
    p = proc () yields (int) end p\tgives none at 1 13\0\
    p = iter () returns (int) end p\tgives none at 1 13\0\
    p = proc () signals e end p\tgives none at 1 21\0\
    p = proc () signals () end p\tgives none at 1 22\0\
    p = proc () signals (e()) end p\tgives none at 1 24\0\
    p = proc () signals (e) returns (int) end p\tgives none at 1 25\0\
    p = proc [t: type] () where end p\tgives none at 1 29\0\
    p = proc [t: type] () where t is f: proctype () end p\tgives none at 1 31\0\
    p = proc [t: type] () where t has f proctype () end p\tgives none at 1 37\0\
    p = proc [t: type] () where t in int end p\tgives none at 1 34\0\
    s = {t has f: proctype ()} p = proc () end p\tgives none at 1 8\0\
    s = {t | t in u} p = proc () end p\tgives none at 1 12\0\
    % Equates, own variables and declarations.\0\
    p = proc () n = if end p\tgives none at 1 17\0\
    p = proc () rep = int end p\tgives none at 1 17\0\
    p = proc () x := 1 n = 2 end p\tgives none at 1 22\0\
    p = proc () own 3 end p\tgives none at 1 17\0\
    p = proc () x := 1 own n: int end p\tgives none at 1 20\0\
    p = proc () own a, b: int := 1 end p\tgives none at 1 32\0\
    p = proc (x ) end p\tgives none at 1 13\0\
    p = proc (x: int y: int) end p\tgives none at 1 18\0\
    % Types.\0\
    p = proc (x: nil) end p\tgives none at 1 14\0\
    p = proc (x: array ) end p\tgives none at 1 20\0\
    p = proc (x: sequence[]) end p\tgives none at 1 23\0\
    p = proc (x: array[int, int]) end p\tgives none at 1 23\0\
    p = proc (x: record[]) end p\tgives none at 1 21\0\
    p = proc (x: struct[a int]) end p\tgives none at 1 23\0\
    p = proc (x: oneof[a, : int]) end p\tgives none at 1 23\0\
    p = proc (x: proctype int) end p\tgives none at 1 23\0\
    p = proc (x: itertype () returns (int)) end p\tgives none at 1 26\0\
    p = proc (x: t[]) end p\tgives none at 1 16\0\
    % Statements.\0\
    p = proc () x, y ; end p\tgives none at 1 18\0\
    p = proc () x: int := end p\tgives none at 1 23\0\
    p = proc () x, y: int := 1 end p\tgives none at 1 28\0\
    p = proc () x := end p\tgives none at 1 18\0\
    p = proc () x, := 1 end p\tgives none at 1 16\0\
    p = proc () r.if := 1 end p\tgives none at 1 15\0\
    p = proc () r.s := end p\tgives none at 1 20\0\
    p = proc () r.s end p\tgives none at 1 17\0\
    p = proc () a[1] end p\tgives none at 1 18\0\
    p = proc () f end p\tgives none at 1 15\0\
    p = proc () f(1, ) end p\tgives none at 1 18\0\
    p = proc () f() := 1 end p\tgives none at 1 17\0\
    p = proc () while true x := 1 end end p\tgives none at 1 24\0\
    p = proc () while do end end p\tgives none at 1 19\0\
    p = proc () for x: int do end end p\tgives none at 1 24\0\
    p = proc () for x in f do end end p\tgives none at 1 24\0\
    p = proc () for x: int, y in f() do end end p\tgives none at 1 27\0\
    p = proc () if true x := 1 end end p\tgives none at 1 21\0\
    p = proc () if true then else elseif false then end end p\tgives none at 1 31\0\
    p = proc () if true then else else end end p\tgives none at 1 31\0\
    p = proc () tagcase o end end p\tgives none at 1 23\0\
    p = proc () tagcase o tag a (n ): end end p\tgives none at 1 32\0\
    p = proc () tagcase o tag a (n, m: int): end end p\tgives none at 1 31\0\
    p = proc () tagcase o tag a: others (x: int): end end p\tgives none at 1 37\0\
    p = proc () return () end p\tgives none at 1 21\0\
    p = proc () return 1 end p\tgives none at 1 22\0\
    p = iter () yields (int) yield (1 2) end p\tgives none at 1 35\0\
    p = proc () signal (1) end p\tgives none at 1 20\0\
    p = proc () exit 3 end p\tgives none at 1 18\0\
    p = proc () break (1) end p\tgives none at 1 19\0\
    p = proc () continue , end p\tgives none at 1 22\0\
    p = proc () begin x := 1 do end end p\tgives none at 1 26\0\
    p = proc () x := 1; ; end p\tgives none at 1 21\0\
    p = proc () f() resignal end p\tgives none at 1 26\0\
    p = proc () f() except e: end end p\tgives none at 1 24\0\
    p = proc () f() except when : end end p\tgives none at 1 29\0\
    p = proc () f() except when e (): end end p\tgives none at 1 32\0\
    p = proc () f() except when e (* , x: int): end end p\tgives none at 1 34\0\
    p = proc () f() except others (s ): end end p\tgives none at 1 34\0\
    p = proc () f() except others: when e: end end p\tgives none at 1 32\0\
    % Expressions.\0\
    p = proc () x := 1 + end p\tgives none at 1 22\0\
    p = proc () x := 1 ~ 2 end p\tgives none at 1 20\0\
    p = proc () x := * 2 end p\tgives none at 1 18\0\
    p = proc () x := ~ end p\tgives none at 1 20\0\
    p = proc () x := (1 end p\tgives none at 1 21\0\
    p = proc () x := () end p\tgives none at 1 19\0\
    p = proc () x := nil nil end p\tgives none at 1 26\0\
    p = proc () x := y do end p\tgives none at 1 20\0\
    p = proc () x := a[] end p\tgives none at 1 20\0\
    p = proc () x := r.end end p\tgives none at 1 20\0\
    p = proc () x := f(1 2) end p\tgives none at 1 22\0\
    p = proc () x := t${} end p\tgives none at 1 21\0\
    p = proc () x := t${a 1} end p\tgives none at 1 23\0\
    p = proc () x := t${a, : 1} end p\tgives none at 1 24\0\
    p = proc () x := t$[1: 2 : 3] end p\tgives none at 1 26\0\
    p = proc () x := t$[1 2] end p\tgives none at 1 23\0\
    p = proc () x := t$3 end p\tgives none at 1 20\0\
    p = proc () x := int end p\tgives none at 1 22\0\
    p = proc () x := force (int) end p\tgives none at 1 24\0\
    p = proc () x := up x end p\tgives none at 1 21\0\
    p = proc () x := down() end p\tgives none at 1 23\0\
";

/// How many rows `PRINTED` has besides comments.
pub const PRINTED_COUNT: usize = 10;

/// Sources with the text that is printed of them.
pub const PRINTED: &str = "\
    p=PROC()x:int:=1+2 ;END P\tgives p = proc ()\n  x: int := 1 + 2\nend p\n\0\
    n=1;s={t|t has \
    equal:proctype(t,t)returns(bool)q=2}p=proc[t:type,k:int](a,b:t)returns(int,t)signals(e,f(int))where t has \
    f:int,t in s end p\tgives n = 1\ns = {t | t has equal: proctype (t, t) returns (bool) q = 2}\np = proc[t: type, \
    k: int](a, b: t) returns (int, t) signals (e, f(int)) where t has f: int, t in s\nend p\n\0\
    c=cluster[t:type]is x,y where t has f:int rep=array[t]own a:int own b:int:=1 own \
    d,e:int:=f()x=iter()yields(int)end x y=proc(z:cvt)q=t$f own r:int begin end end y end c\tgives c = cluster[t: \
    type] is x, y where t has f: int\n  rep = array[t]\n  own a: int\n  own b: int := 1\n  own d, e: int := f()\n  x \
    = iter () yields (int)\n  end x\n  y = proc (z: cvt)\n    q = t$f\n    own r: int\n    begin\n    end\n  end \
    y\nend c\n\0\
    p=proc()x:int;a,b:int:=c()a,b:=d,e r.s:=1 a[1]:=2 f[int](1)t[int]$g()while a do n=1 break end for in f()do \
    continue end for x:int in g()do end for x,y in g()do end end p\tgives p = proc ()\n  x: int\n  a, b: int := \
    c()\n  a, b := d, e\n  r.s := 1\n  a[1] := 2\n  f[int](1)\n  t[int]$g()\n  while a do\n    n = 1\n    break\n  \
    end\n  for in f() do\n    continue\n  end\n  for x: int in g() do\n  end\n  for x, y in g() do\n  end\nend p\n\0\
    p=proc()if a then return elseif b then return(1)elseif c then yield(x)else signal s end tagcase x tag \
    a,b(c:int):signal s(1,2)tag d:exit e others:exit e(1)end end p\tgives p = proc ()\n  if a then\n    return\n  \
    elseif b then\n    return (1)\n  elseif c then\n    yield (x)\n  else\n    signal s\n  end\n  tagcase x\n  tag \
    a, b(c: int):\n    signal s(1, 2)\n  tag d:\n    exit e\n  others:\n    exit e(1)\n  end\nend p\n\0\
    p=proc()f()resignal a,b except when c,d(x:int):g()when e(*):others(s:string):begin end end except others:h()end \
    end p\tgives p = proc ()\n  f() resignal a, b\n  except\n  when c, d(x: int):\n    g()\n  when e(*):\n  others \
    (s: string):\n    begin\n    end\n  end\n  except\n  others:\n    h()\n  end\nend p\n\0\
    p=proc()x:=-a**~b*(c+1)||\"s\"<'c'&nil cand true|t${a,b:1,c:2}cor \
    t$[]x:=t$[1:2,3]x:=force[int](up(down(rep$[])))x:=1 .y x:=a.b[1].c(d)(-1)end p\tgives p = proc ()\n  x := -a ** \
    ~b * (c + 1) || \"s\" < 'c' & nil cand true | t${a, b: 1, c: 2} cor t$[]\n  x := t$[1: 2, 3]\n  x := \
    force[int](up (down (rep$[])))\n  x := 1 .y\n  x := a.b[1].c(d)(-1)\nend p\n\0\
    P=PROC()% note\nX:STRING:=\"A b\\N\"Y:CHAR:='Q'Z:REAL:=1.5E3 END p\tgives p = proc ()\n  x: string := \"A \
    b\\N\"\n  y: char := 'Q'\n  z: real := 1.5E3\nend p\n\0\
    a=1 p=proc()end p b=2;q=iter(x:int)yields(int)end q\tgives a = 1\np = proc ()\nend p\nb = 2\nq = iter (x: int) \
    yields (int)\nend q\n\0\
    t=record[a,b:int,c:oneof[d:null]]u=itertype(int)yields(t,bool)signals(e(cvt),f)p=proc()x:sequence[array[any]]end \
    p\tgives t = record[a, b: int, c: oneof[d: null]]\nu = itertype (int) yields (t, bool) signals (e(cvt), f)\np = \
    proc ()\n  x: sequence[array[any]]\nend p\n\0\
";
