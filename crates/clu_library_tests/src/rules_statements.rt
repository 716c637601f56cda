//! Statements: names in scope, assignments, conditions and loops.

/// How many rows `ROWS` has besides comments.
pub const ROWS_COUNT: usize = 68;

/// Sources with the place and the rule of their refusal, or `ok`.
pub const ROWS: &str = "\
    p = proc ()\nzork := 1\nend p\tgives 2:1:V5\0\
    p = proc (i: int)\ni, zork := 1\nend p\tgives 2:1:V5\0\
    p = proc (pairs: itertype () yields (int, string))\nfor zork in pairs() do end\nend p\tgives 2:1:V5\0\
    p = proc ()\nzork := what\nend p\tgives 2:9:V5\0\
    p = proc ()\nx: int := x\nend p\tgives 2:11:V5\0\
    p = proc (it: itertype () yields (int), i: int)\nfor x: int in it() do end i := x\nend p\tgives 2:32:V5\0\
    p = proc (i: int)\nbegin x: int end i := x\nend p\tgives 2:23:V5\0\
    p = proc (i: int, b: bool)\nif b then x: int else i := x end\nend p\tgives 2:28:V5\0\
    p = proc (b: bool)\nif b then x = 1 elseif x = 1 then end\nend p\tgives 2:24:V5\0\
    p = proc (i: int, b: bool)\nif b then x = 1 else i := x end\nend p\tgives 2:27:V5\0\
    p = proc (f: proctype () signals (e(int), g), i: int)\nf() except when e (x: int): when g: i := x end\nend \
    p\tgives 2:42:V5\0\
    p = proc (o: oneof[a, b: int, c: string], a: array[int], i: int)\ntagcase o tag a (x: int): others: i := x \
    end\nend p\tgives 2:40:V5\0\
    p = proc ()\nx: int x: int\nend p\tgives 2:8:V6\0\
    p = proc ()\nx, x: int\nend p\tgives 2:1:V6\0\
    p = proc ()\nx: int x: int := \"a\"\nend p\tgives 2:8:V6\0\
    p = proc (two: proctype () returns (int, string))\nx: int, x: string := two()\nend p\tgives 2:9:V6\0\
    p = proc (i: int)\ni: int\nend p\tgives 2:1:V6\0\
    p = proc ()\nx: int begin x: string end\nend p\tgives 2:14:V6\0\
    p = proc (it: itertype () yields (int), i: int)\nfor i: int in it() do end\nend p\tgives 2:5:V6\0\
    p = proc (pairs: itertype () yields (int, string))\nfor x: int, x: string in pairs() do end\nend p\tgives \
    2:13:V6\0\
    p = proc (it: itertype () yields (int))\nfor x: int in it() do x: int end\nend p\tgives 2:23:V6\0\
    p = proc (f: proctype () signals (e(int), g), i: int)\nf() except when e (i: int): end\nend p\tgives 2:20:V6\0\
    p = proc (f: proctype () signals (e(int), g))\nf() except when e (x: int): x: int end\nend p\tgives 2:29:V6\0\
    p = proc (f: proctype () signals (e(int), g), i: int)\nf() except others (i: int): end\nend p\tgives 2:12:V6\0\
    p = proc (f: proctype () signals (e(int), g))\nf() except others (x: string): x: int end\nend p\tgives 2:32:V6\0\
    p = proc (one: proctype () returns (int))\nx: int := one() except when failure (*): x: int end\nend p\tgives \
    2:42:V6\0\
    p = proc (one: proctype () returns (int)) returns (int) signals (done(int), quit)\nx: int := one() resignal \
    failure x: int\nend p\tgives 2:34:V6\0\
    p = proc (o: oneof[a, b: int, c: string], a: array[int], i: int)\ntagcase o tag a (i: string): others: end\nend \
    p\tgives 2:11:V6\0\
    p = proc (o: oneof[a, b: int, c: string], a: array[int])\ntagcase o tag a (x: int): x: int others: end\nend \
    p\tgives 2:27:V6\0\
    p = proc (i: int)\ni = 1\nend p\tgives 2:1:V6\0\
    p = proc ()\nx = 1 x = 2\nend p\tgives 2:7:V6\0\
    p = proc ()\nx = 1 own x: int := 1\nend p\tgives 2:7:V6\0\
    p = proc ()\nown x: int own x: int\nend p\tgives 2:16:V6\0\
    p = proc ()\nown x: int := 1 x: int\nend p\tgives 2:17:V6\0\
    p = proc ()\nbegin x = 1 y = 1 x = 2 end\nend p\tgives 2:19:V6\0\
    p = proc ()\nx: int begin x = 1 end\nend p\tgives 2:14:V6\0\
    p = proc ()\nbegin x = 1 x: int end\nend p\tgives 2:13:V6\0\
    p = proc (it: itertype () yields (int))\nfor x: int in it() do x = 1 end\nend p\tgives 2:23:V6\0\
    p = proc (two: proctype () returns (int, string))\nx, y, z: int := two()\nend p\tgives 2:1:V14\0\
    p = proc (f: proctype () signals (e(int), g))\nx, y: int := f()\nend p\tgives 2:1:V14\0\
    p = proc (i: int, b: bool)\ni, b := 1\nend p\tgives 2:1:V14\0\
    p = proc (i: int)\ni := 1, 2\nend p\tgives 2:1:V14\0\
    p = proc (i: int, b: bool)\ni, b := (1)\nend p\tgives 2:1:V14\0\
    p = proc (two: proctype () returns (int, string), i: int)\ni, i, i := two()\nend p\tgives 2:1:V14\0\
    p = proc (two: proctype () returns (int, string), i: int)\ni := two()\nend p\tgives 2:9:V14\0\
    p = proc (two: proctype () returns (int, string), i: int, b: bool)\ni, b := (two())\nend p\tgives 2:13:V14\0\
    p = proc (f: proctype () signals (e(int), g))\nx: int := f()\nend p\tgives 2:12:V14\0\
    p = proc (pairs: itertype () yields (int, string))\nfor x: int in pairs() do end\nend p\tgives 2:1:V14\0\
    p = proc (it: itertype () yields (int))\nfor x, y: string in it() do end\nend p\tgives 2:1:V14\0\
    p = proc (it: itertype () yields (int))\nfor in it() do end\nend p\tgives 2:1:V14\0\
    p = proc (f: proctype () signals (e(int), g), i: int)\nfor i in f() do end\nend p\tgives 2:1:V14\0\
    p = proc (two: proctype () returns (int, string))\nown x, y, z: int := two()\nend p\tgives 2:1:V14\0\
    p = proc ()\nx: int := \"a\"\nend p\tgives 2:1:V15\0\
    p = proc (two: proctype () returns (int, string))\nx, y: int := two()\nend p\tgives 2:1:V15\0\
    p = proc (i: int)\ni := \"a\"\nend p\tgives 2:1:V15\0\
    p = proc (i: int, b: bool)\ni, b := 1, 2\nend p\tgives 2:1:V15\0\
    p = proc (two: proctype () returns (int, string), i: int, b: bool)\ni, b := two()\nend p\tgives 2:1:V15\0\
    p = proc ()\nbegin q = 1 q := 2 end\nend p\tgives 2:13:V15\0\
    p = proc (it: itertype () yields (int))\nfor x: string in it() do end\nend p\tgives 2:1:V15\0\
    p = proc (it: itertype () yields (int), b: bool)\nfor b in it() do end\nend p\tgives 2:1:V15\0\
    p = proc (one: proctype () returns (int), b: bool)\nfor b in one() do end\nend p\tgives 2:1:V15\0\
    p = proc (o: oneof[a, b: int, c: string])\ntagcase o tag c (x: int): others: end\nend p\tgives 2:11:V15\0\
    p = proc (o: oneof[a, b: int, c: string])\ntagcase o tag d, c (x: int): others: end\nend p\tgives 2:11:V15\0\
    p = proc (o: oneof[a, b: int, c: string], a: array[int], b: bool)\ntagcase o tag a: tag a, b (x: string): \
    others: end\nend p\tgives 2:18:V15\0\
    p = proc (i: int)\nown x: bool := i\nend p\tgives 2:1:V15\0\
    p = proc (i: int)\nwhile i do end\nend p\tgives 2:1:V16\0\
    p = proc (i: int)\nif i then end\nend p\tgives 2:1:V16\0\
    p = proc (b: bool)\nif b then elseif 1 then else end\nend p\tgives 2:1:V16\0\
";

/// How many rows `LONG_NAMES` has besides comments.
pub const LONG_NAMES_COUNT: usize = 14;

/// The same, of names that are long.
pub const LONG_NAMES: &str = "\
    % Names of 201 bytes are too long, of 200 they are not.\0\
    p = proc ()\n^201^n^: int\nend p\tgives 2:1:V4\0\
    p = proc ()\n^201^n^: int := 1\nend p\tgives 2:1:V4\0\
    p = proc ()\n^201^n^ := 1\nend p\tgives 2:1:V4\0\
    p = proc (it: itertype () yields (int))\nfor ^201^n^ in it() do end\nend p\tgives 2:1:V4\0\
    p = proc (r: record[s: int])\nr.^201^n^ := 1\nend p\tgives 2:1:V4\0\
    p = proc () returns (int) signals (done(int), quit)\nsignal ^201^n^\nend p\tgives 2:1:V4\0\
    p = proc ()\nexit ^201^n^\nend p\tgives 2:1:V4\0\
    p = proc (f: proctype () signals (e(int), g)) returns (int) signals (done(int), quit)\nf() resignal ^201^n^\nend \
    p\tgives 2:5:V4\0\
    p = proc (f: proctype () signals (e(int), g))\nf() except when ^201^n^: end\nend p\tgives 2:12:V4\0\
    p = proc (f: proctype () signals (e(int), g))\nf() except others (^201^n^: int): end\nend p\tgives 2:12:V4\0\
    p = proc (o: oneof[a, b: int, c: string])\ntagcase o tag ^201^n^: others: end\nend p\tgives 2:11:V4\0\
    p = proc ()\nbegin ^201^n^ = 1 end\nend p\tgives 2:7:V4\0\
    p = proc ()\nown ^201^n^: int := \"a\"\nend p\tgives 2:1:V4\0\
    p = proc ()\n^200^n^: int := 1\nend p\tgives ok\0\
";
