//! Statements: arms, signals, exits, results and own variables; bodies that violate no rule.

/// How many rows `ROWS` has besides comments.
pub const ROWS_COUNT: usize = 119;

/// Sources with the place and the rule of their refusal, or `ok`.
pub const ROWS: &str = "\
    p = proc (a: array[int], i: int)\ntagcase i tag a: end\nend p\tgives 2:1:V21\0\
    p = proc (r: record[s: int])\ntagcase r tag s (x: bool): end\nend p\tgives 2:1:V21\0\
    p = proc (a: array[int])\ntagcase a tag a: tag a: others: end\nend p\tgives 2:1:V21\0\
    p = proc (o: oneof[a, b: int, c: string])\ntagcase o tag d: others: end\nend p\tgives 2:11:V22\0\
    p = proc (o: oneof[a, b: int, c: string], a: array[int], b: bool)\ntagcase o tag a: tag b, a: others: end\nend \
    p\tgives 2:18:V22\0\
    p = proc (o: oneof[a, b: int, c: string], a: array[int])\ntagcase o tag a, a: others: end\nend p\tgives 2:11:V22\0\
    p = proc (o: oneof[a, b: int, c: string], a: array[int], b: bool)\ntagcase o tag a, b: end\nend p\tgives 2:1:V22\0\
    p = proc (o: oneof[a, b: int, c: string], a: array[int])\ntagcase o tag c (x: string): tag a: end\nend p\tgives \
    2:1:V22\0\
    p = proc (f: proctype () signals (e(int), g))\nf() except when e: end\nend p\tgives 2:12:V23\0\
    p = proc (f: proctype () signals (e(int), g))\nf() except when e (x: string): end\nend p\tgives 2:12:V23\0\
    p = proc (f: proctype () signals (e(int), g))\nf() except when e, g (x: int): end\nend p\tgives 2:12:V23\0\
    p = proc (f: proctype () signals (e(int), g))\nf() except when g: when e (x, y: int): end\nend p\tgives 2:20:V23\0\
    p = proc (f: proctype () signals (e(int), g))\nf() except when failure: end\nend p\tgives 2:12:V23\0\
    p = proc (i: int)\ni := i except when failure (x: int): end\nend p\tgives 2:15:V23\0\
    p = proc (f: proctype () signals (e(int), g))\nf() except others (x: int): end\nend p\tgives 2:12:V23\0\
    p = proc (f: proctype () signals (e(int), g))\nf() except when e (*): when e: end\nend p\tgives 2:24:V23\0\
    p = proc (f: proctype () signals (e(int), g))\nbegin f() except when e (*): f() end end except when e: end\nend \
    p\tgives 2:49:V23\0\
    p = proc (f: proctype () signals (e(int), g))\nf() except others: f() end except when e: end\nend p\tgives \
    2:35:V23\0\
    p = proc (f: proctype () signals (e(int), g), it: itertype () yields (int))\nfor x: int in it() do f() end \
    except when e: end\nend p\tgives 2:38:V23\0\
    p = proc (h: proctype () signals (done(string), quit)) returns (int) signals (done(int), quit)\nh() resignal \
    quit except when done (x: int): end\nend p\tgives 2:26:V23\0\
    p = proc ()\nbegin end except when e: when e: end\nend p\tgives 2:26:V24\0\
    p = proc (f: proctype () signals (e(int), g))\nf() except when e (x: int): when g, e (*): end\nend p\tgives \
    2:29:V24\0\
    p = proc (f: proctype () signals (e(int), g))\nf() except when g: when e (*): when g: end\nend p\tgives 2:32:V24\0\
    p = proc () returns (int) signals (done(int), quit)\nsignal zork\nend p\tgives 2:1:V25\0\
    p = proc () returns (int) signals (done(int), quit)\nsignal e(1)\nend p\tgives 2:1:V25\0\
    p = proc (f: proctype () signals (e(int), g)) returns (int) signals (done(int), quit)\nf() resignal e\nend \
    p\tgives 2:5:V25\0\
    p = proc () returns (int) signals (done(int), quit)\nbegin end resignal quit, zork\nend p\tgives 2:11:V25\0\
    p = proc (h: proctype () signals (done(string), quit)) returns (int) signals (done(int), quit)\nh() resignal \
    done, zork\nend p\tgives 2:5:V25\0\
    p = proc () returns (int) signals (done(int), quit)\nsignal done\nend p\tgives 2:1:V26\0\
    p = proc () returns (int) signals (done(int), quit)\nsignal done(\"a\")\nend p\tgives 2:1:V26\0\
    p = proc () returns (int) signals (done(int), quit)\nsignal quit(1)\nend p\tgives 2:1:V26\0\
    p = proc () returns (int) signals (done(int), quit)\nsignal failure(1)\nend p\tgives 2:1:V26\0\
    p = proc () returns (int) signals (done(int), quit)\nsignal failure\nend p\tgives 2:1:V26\0\
    p = proc (h: proctype () signals (done(string), quit)) returns (int) signals (done(int), quit)\nh() resignal \
    quit, done\nend p\tgives 2:5:V26\0\
    p = proc ()\nbegin exit x end except when x (y: int): end\nend p\tgives 2:7:V26\0\
    p = proc ()\nbegin exit x(1) end except when x (y: string): end\nend p\tgives 2:7:V26\0\
    p = proc ()\nbegin exit x(1) end except when x: end\nend p\tgives 2:7:V26\0\
    p = proc ()\nbegin begin exit x end except when x (y: int): end end except when x: end\nend p\tgives 2:13:V26\0\
    p = proc ()\nbegin begin end except when x: exit x end end except when x (y: int): end\nend p\tgives 2:32:V26\0\
    p = proc ()\nbegin exit x end except when x (y: int): when x: end\nend p\tgives 2:7:V26\0\
    p = proc ()\nexit x\nend p\tgives 2:1:V27\0\
    p = proc ()\nbegin exit x end except when y: end\nend p\tgives 2:7:V27\0\
    p = proc ()\nbegin exit x end except others: end\nend p\tgives 2:7:V27\0\
    p = proc ()\nbegin end except when x: exit x end\nend p\tgives 2:26:V27\0\
    p = proc ()\nbegin exit x end except when x: end exit x\nend p\tgives 2:37:V27\0\
    p = proc ()\nbreak\nend p\tgives 2:1:V28\0\
    p = proc ()\ncontinue\nend p\tgives 2:1:V28\0\
    p = proc (b: bool)\nwhile b do end break\nend p\tgives 2:16:V28\0\
    p = proc (it: itertype () yields (int), i: int)\nfor i in it() do end except when e: break end\nend p\tgives \
    2:37:V28\0\
    p = proc ()\nif 1 then break end\nend p\tgives 2:11:V28\0\
    p = proc (f: proctype () signals (e(int), g))\nf() except when e: break end\nend p\tgives 2:20:V28\0\
    p = proc (a: array[int], i: int)\ntagcase i tag a: continue end\nend p\tgives 2:18:V28\0\
    p = proc () returns (int) signals (done(int), quit)\nyield\nend p\tgives 2:1:V29\0\
    p = proc () returns (int) signals (done(int), quit)\nyield (1)\nend p\tgives 2:1:V29\0\
    p = proc (i: int) returns (int) signals (done(int), quit)\nwhile i do yield end\nend p\tgives 2:12:V29\0\
    p = proc () returns (int) signals (done(int), quit)\nreturn\nend p\tgives 2:1:V30\0\
    p = proc () returns (int) signals (done(int), quit)\nreturn (\"a\")\nend p\tgives 2:1:V30\0\
    p = proc () returns (int) signals (done(int), quit)\nreturn (1, 2)\nend p\tgives 2:1:V30\0\
    p = proc (one: proctype () returns (int))\nfor x: int in one() do end\nend p\tgives 2:1:V36\0\
    p = proc (one: proctype () returns (int), i: int)\nfor i in one() do end\nend p\tgives 2:1:V36\0\
    p = proc (two: proctype () returns (int, string))\nfor x, y: any in two() do end\nend p\tgives 2:1:V36\0\
    p = proc (i: int)\nown x: int := i\nend p\tgives 2:1:V37\0\
    p = proc (two: proctype () returns (int, string))\nown x: int, y: string := two()\nend p\tgives 2:1:V37\0\
    p = proc (i: int)\nown x: int := 1 own y: int := 1 + (x + i)\nend p\tgives 2:17:V37\0\
    % Bodies that violate no rule.\0\
    p = proc ()\n\nend p\tgives ok\0\
    p = proc ()\nx: int x := x\nend p\tgives ok\0\
    p = proc ()\nx, y: int x, y := 1, 2 x, y := y, x\nend p\tgives ok\0\
    p = proc (two: proctype () returns (int, string))\nx: int, y: string := two() x, y := two() two()\nend p\tgives \
    ok\0\
    p = proc (two: proctype () returns (int, string), b: bool)\nx, y: any := two() x := b\nend p\tgives ok\0\
    p = proc ()\nbegin x: int end begin x: string end x: bool\nend p\tgives ok\0\
    p = proc (i: int)\ni := 1 p: int := i\nend p\tgives ok\0\
    p = proc (it: itertype () yields (int))\nfor x: int in it() do break continue end\nend p\tgives ok\0\
    p = proc (it: itertype () yields (int), i: int, b: bool)\nfor x: any in it() do x := b end for i in it() do \
    end\nend p\tgives ok\0\
    p = proc (pairs: itertype () yields (int, string), i: int)\nfor x: int, y: string in pairs() do i := x end\nend \
    p\tgives ok\0\
    p = proc (b: bool)\nif b then x: int else x: string end\nend p\tgives ok\0\
    p = proc (i: int, b: bool)\nif b then q = 1 elseif b then q = 2 i := q else q = 3 i := q end q: int\nend \
    p\tgives ok\0\
    p = proc (i: int, b: bool)\nif b then q = 1 else q = 2 i := q end\nend p\tgives ok\0\
    p = proc (i: int, b: bool)\nwhile b do q = 1 i := q break end\nend p\tgives ok\0\
    p = proc (b: bool)\nwhile b do while b do end break end\nend p\tgives ok\0\
    p = proc (o: oneof[a, b: int, c: string], a: array[int], i: int, b: bool)\ntagcase o tag a, b (x: int): i := x \
    tag c (x: string): end\nend p\tgives ok\0\
    p = proc (o: oneof[a, b: int, c: string], i: int)\ntagcase o tag c: others: q = 1 i := q end q: int\nend \
    p\tgives ok\0\
    p = proc (o: oneof[a, b: int, c: string], a: array[int], b: bool)\ntagcase o tag a, b, c (x: any): end\nend \
    p\tgives ok\0\
    p = proc (o: oneof[a, b: int, c: string], a: array[int], b: bool)\ntagcase o tag c, b: tag a: end\nend p\tgives \
    ok\0\
    p = proc () returns (int) signals (done(int), quit)\nreturn (1)\nend p\tgives ok\0\
    p = proc () returns (int) signals (done(int), quit)\nsignal quit signal done(1) signal failure(\"a\")\nend \
    p\tgives ok\0\
    p = proc (f: proctype () signals (e(int), g)) returns (int) signals (done(int), quit)\nf() resignal failure\nend \
    p\tgives ok\0\
    p = proc (h: proctype () signals (done(string), quit)) returns (int) signals (done(int), quit)\nh() except when \
    done (x: string): end resignal quit, done\nend p\tgives ok\0\
    p = proc () returns (int) signals (done(int), quit)\nbegin end resignal done\nend p\tgives ok\0\
    p = proc ()\nbegin exit x(1, \"a\") end except when x (y: any, z: string): end\nend p\tgives ok\0\
    p = proc ()\nbegin exit x(1) end except when x, y (*): end\nend p\tgives ok\0\
    p = proc ()\nbegin begin exit x end except when y: end end except when x: end\nend p\tgives ok\0\
    p = proc ()\nbegin begin end except when x (y: int): exit x end end except when x: end\nend p\tgives ok\0\
    p = proc (f: proctype () signals (e(int), g))\nbegin f() except when e (*): exit x end end except when x: \
    end\nend p\tgives ok\0\
    p = proc (it: itertype () yields (int))\nfor x: int in it() do exit q(x) end except when q (y: int): others: \
    end\nend p\tgives ok\0\
    p = proc (f: proctype () signals (e(int), g), i: int)\nf() except when e (x: int): i := x when g: end\nend \
    p\tgives ok\0\
    p = proc (f: proctype () signals (e(int), g))\nf() except when e, g (*): others: end\nend p\tgives ok\0\
    p = proc (f: proctype () signals (e(int), g))\nf() except others (x: any): end\nend p\tgives ok\0\
    p = proc (i: int)\ni := 1 except when failure: end\nend p\tgives ok\0\
    p = proc (i: int)\nbegin i := 1 end except when zork, zork (x: int): end\nend p\tgives ok\0\
    p = proc (f: proctype () signals (e(int), g))\nf() except when e (x: int): when g: end except when e, g (x: \
    bool): end\nend p\tgives ok\0\
    p = proc (one: proctype () returns (int), i: int)\nx: int := one() except when failure (*): x := 1 end i := \
    x\nend p\tgives ok\0\
    p = proc (r: record[s: int], a: array[int])\nr.s := 1 a[1] := 2\nend p\tgives ok\0\
    p = proc ()\nown x: int := 1 own y, z: int x := y + z\nend p\tgives ok\0\
    % Bodies of an iterator.\0\
    p = iter (i: int, b: bool) yields (int, string)\nyield\nend p\tgives 2:1:V30\0\
    p = iter (i: int, b: bool) yields (int, string)\nyield (1)\nend p\tgives 2:1:V30\0\
    p = iter (i: int, b: bool) yields (int, string)\nyield (\"a\", 1)\nend p\tgives 2:1:V30\0\
    p = iter (i: int, b: bool) yields (int, string)\nreturn (1)\nend p\tgives 2:1:V30\0\
    p = iter (i: int, b: bool) yields (int, string)\nreturn (1, \"a\")\nend p\tgives 2:1:V30\0\
    p = iter (i: int, b: bool) yields (int, string)\nsignal e\nend p\tgives 2:1:V25\0\
    p = iter (i: int, b: bool) yields (int, string)\nyield (1, \"a\") return\nend p\tgives ok\0\
    p = iter (i: int, b: bool) yields (int, string)\nwhile b do yield (i, \"a\") end signal failure(\"a\")\nend \
    p\tgives ok\0\
    % Equates and own variables of a cluster.\0\
    p = cluster is f rep = null\nn = 1 t = array[int] own x: int := n own y: int, z: string\nf = proc () end f end \
    p\tgives ok\0\
    p = cluster is f rep = null\nn = 1 n = 2\nf = proc () end f end p\tgives 2:7:V6\0\
    p = cluster is f rep = null\nn = 1 / 0 n = 2\nf = proc () end f end p\tgives 2:7:V8\0\
    p = cluster is f rep = null\nn = 1 own n: int\nf = proc () end f end p\tgives 2:11:V6\0\
    p = cluster is f rep = null\nown x: int own x: int := \"a\"\nf = proc () end f end p\tgives 2:12:V6\0\
    p = cluster is f rep = null\nown x: int := x\nf = proc () end f end p\tgives 2:15:V5\0\
    p = cluster is f rep = null\nown x: int := \"a\"\nf = proc () end f end p\tgives 2:1:V15\0\
    p = cluster is f rep = null\nown x, y: int := int$minus(1)\nf = proc () end f end p\tgives 2:1:V14\0\
";
