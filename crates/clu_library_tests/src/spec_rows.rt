//! Specifications of modules, kept ones, and the modules that a text names.

/// How many rows `SPECIFICATIONS` has besides comments.
pub const SPECIFICATIONS_COUNT: usize = 13;

/// Sources with the texts of the specifications of their modules, each with a line break after it.
pub const SPECIFICATIONS: &str = "\
    b = {t | t has g: proctype (t), f: proctype ()} k = int c = cluster [t: type, n: k, u: type] is z, a where u in \
    b, t has q: proctype (w) w = array[t] rep = null z = proc (x: cvt, r: record[b, a: int]) signals (e, \
    failure(string), d(w)) end z a = iter () yields (u) where t has m, l: proctype (), m: proctype () end a h = proc \
    () end h end c\tgives c=cluster[type,int,type] where #1 has q:proctype(array[#1]),#3 has f:proctype(),#3 has \
    g:proctype(#3) is;a:iter()yields(#3) where #1 has l:proctype(),#1 has m:proctype() \
    ;z:proc(c[#1,%2,#3],record[a:int,b:int])signals(d(array[#1]),e)\n\0\
    p = proc () end p\tgives p=proc()\n\0\
    q = iter [s: string] (x: any, y: bool) yields (char) end q\tgives q=iter[string](any,bool)yields(char)\n\0\
    % Parts in ascending order; what is exported; demands of equates, of sets, with lists of names.\0\
    p = proc [a: null, b: bool, c: char] () end p\tgives p=proc[null,bool,char]()\n\0\
    p = proc (x, y: a) returns (b) a = int b = bool end p\tgives p=proc(int,int)returns(bool)\n\0\
    k = 2 row = array[int] list = cluster [t: type, n: int] is new, items where t has equal: proctype (t, t) returns \
    (bool) rep = record[a: array[t], n: int] new = proc () returns (cvt) signals (full(int, t), empty) end new items \
    = iter (l: cvt) yields (t, row) end items hidden = proc (l: list[t, k]) returns (cvt) end hidden end list p = \
    proc (x: list[int, k]) returns (t) signals (b, a(t)) k = 3 t = array[bool] end p\tgives list=cluster[type,int] \
    where #1 has equal:proctype(#1,#1)returns(bool) \
    is;items:iter(list[#1,%2])yields(#1,array[int]);new:proc()returns(list[#1,%2])signals(empty,full(int,#1))\np=proc(list[int,3])returns(array[bool])signals(a(array[bool]),b)\n\0\
    p = proc (f: proctype (int) returns (bool) signals (a, b(int)), g: itertype (any) yields (any, string)) returns \
    (oneof[x, y: int, z: null], variant[a: number]) signals (failure(string), c) number = int end p\tgives \
    p=proc(proctype(int)returns(bool)signals(a,b(int)),itertype(any)yields(any,string))returns(oneof[x:int,y:int,z:null],variant[a:int])signals(c)\n\0\
    % Two modules with parameters of their own.\0\
    p = proc [n: int, t: type] (x: t) end p q = proc [t: type] (x: t) end q\tgives \
    p=proc[int,type](#2)\nq=proc[type](#1)\n\0\
    % What type sets ask, also through equates that are names.\0\
    p = proc [t: type] () where t in {s | s has f: proctype (s)} end p\tgives p=proc[type]() where #1 has \
    f:proctype(#1) \n\0\
    p = proc [t: type] () where t in b b = a a = {s | s has f: proctype (w) w = array[s]} end p\tgives \
    p=proc[type]() where #1 has f:proctype(array[#1]) \n\0\
    p = proc [t: type] () where t has f: proctype (), t in {s | s has f: proctype ()} end p\tgives p=proc[type]() \
    where #1 has f:proctype() \n\0\
    s = {t | t has less: proctype (t, t) returns (bool), show: proctype (t) returns (u) u = sequence[t]} sort = proc \
    [t: type] (a: array[t]) where t in s end sort s = {t | t has less: proctype (t, t) returns (bool)} top = cluster \
    [v, w: type, c: char] is make where v in s, w has less: proctype (w, w) returns (bool), copy: proctype (w) \
    returns (w) rep = struct[v: v, w: w] make = proc (x: v, y: w) returns (cvt) where v has copy: proctype (v) \
    returns (v) end make end top\tgives sort=proc[type](array[#1]) where #1 has less:proctype(#1,#1)returns(bool),#1 \
    has show:proctype(#1)returns(sequence[#1]) \ntop=cluster[type,type,char] where #1 has \
    less:proctype(#1,#1)returns(bool),#2 has copy:proctype(#2)returns(#2),#2 has less:proctype(#2,#2)returns(bool) \
    is;make:proc(#1,#2)returns(top[#1,#2,%3]) where #1 has copy:proctype(#1)returns(#1) \n\0\
    p = proc [t, u: type] () where u in s, t in s s = {x | x has f: proctype (x, u)} end p\tgives \
    p=proc[type,type]() where #1 has f:proctype(#1,#2),#2 has f:proctype(#2,#2) \n\0\
";

/// How many rows `HEADINGS` has besides comments.
pub const HEADINGS_COUNT: usize = 4;

/// Sources with the first refusal of their headings alone.
pub const HEADINGS: &str = "\
    p = proc (x: int, x: int) break end p\tgives 1:19:V6\0\
    p = proc () break end p\tgives ok\0\
    c = cluster is f rep = 1 g = proc () end g end c\tgives 1:1:V33\0\
    c = cluster is f rep = 1 f = proc () end f end c\tgives ok\0\
";

/// How many rows `UNDER_KEPT` has besides comments.
pub const UNDER_KEPT_COUNT: usize = 5;

/// The same under the specifications of `q = proc (x: int)` and `r = proc ()`, with the names of the specifications of what is
/// accepted: those of its modules, and after them the kept ones of other names.
pub const UNDER_KEPT: &str = "\
    p = proc () q() end p\tgives 1:14:V12\0\
    p = proc () q() end p q = proc () end q\tgives ok p q r\0\
    p = proc () s() end p\tgives 1:13:V5\0\
    r = proc () q(1) end r\tgives ok r q\0\
    p = proc () q: int := 1 r: int := q end p\tgives ok p q r\0\
";

/// How many rows `NAMING` has besides comments.
pub const NAMING_COUNT: usize = 9;

/// Files with the modules that the text of the first one names.
pub const NAMING: &str = "\
    p = proc () end p q = proc () end q\tgives \0\
    p = proc () p() end p\tgives \0\
    p = proc (x: b) returns (c) q: int := 1 return (c$f()) end p b = cluster is f rep = null f = proc () end f end b \
    c = cluster is f rep = null f = proc () returns (cvt) return (nil) end f end c q = proc () end q\tgives b c\0\
    t = array[b] p = proc () end p b = cluster is f rep = null f = proc () end f end b\tgives b\0\
    p = proc () if true then q: int := 1 q := 2 else q() end end p q = proc () end q\tgives q\0\
    p = proc () q: int := q() end p q = proc () returns (int) return (1) end q\tgives q\0\
    p = proc () for q: int in q() do q := 1 end end p q = iter () yields (int) end q\tgives q\0\
    p = proc () begin q = 1 end q() r() end p r = proc () end r q = proc () end q\tgives q r\0\
    c = cluster is q rep = null q = proc (r: int) r := 1 end q end c q = proc () end q r = proc () end r\tgives \0\
";
