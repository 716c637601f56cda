//! The examples of docs/language.md, each with the refusal that stands there, or `ok` where it is
//! accepted.

/// How many rows `ROWS` has besides comments.
pub const ROWS_COUNT: usize = 72;

/// Sources with the place and the rule of their refusal, or `ok`.
pub const ROWS: &str = "\
    start_up = proc ()\n  x: int := 1 # 2\nend start_up\tgives 2:15:V1\0\
    start_up = proc ()\n  x: int := 1 % # 2\nend start_up\tgives ok\0\
    start_up = proc ()\n  x: int := := 1\nend start_up\tgives 2:13:V2\0\
    start_up = proc ()\n  x: int := 1\nend start_up\tgives ok\0\
    start_up = proc ()\n  x: int :=\n    \
    ((((((((((((((((((((((((((((((((((((((((((((((((((((((((((((((((((((((((((((((((((((((((((((((((((((\n    \
    ((((((((((((((((((((((((((((((((((((((((((((((((((((((((((((((((((((((((((((((((((((((((((((((((((((\n    1\n    \
    ))))))))))))))))))))))))))))))))))))))))))))))))))))))))))))))))))))))))))))))))))))))))))))))))))))\n    \
    ))))))))))))))))))))))))))))))))))))))))))))))))))))))))))))))))))))))))))))))))))))))))))))))))))))\nend \
    start_up\tgives 4:104:V3\0\
    start_up = proc ()\n  x: int :=\n    \
    ((((((((((((((((((((((((((((((((((((((((((((((((((((((((((((((((((((((((((((((((((((((((((((((((((\n    \
    ((((((((((((((((((((((((((((((((((((((((((((((((((((((((((((((((((((((((((((((((((((((((((((((((((\n    1\n    \
    ))))))))))))))))))))))))))))))))))))))))))))))))))))))))))))))))))))))))))))))))))))))))))))))))))\n    \
    ))))))))))))))))))))))))))))))))))))))))))))))))))))))))))))))))))))))))))))))))))))))))))))))))))\nend \
    start_up\tgives ok\0\
    start_up = proc ()\n  x: int := 9223372036854775808\nend start_up\tgives 2:13:V4\0\
    start_up = proc ()\n  x: int := -9223372036854775807 - 1\nend start_up\tgives ok\0\
    start_up = proc ()\n  x: int := x + 1\nend start_up\tgives 2:13:V5\0\
    start_up = proc ()\n  y = z\n  z = 1\n  x: int := y + 1\nend start_up\tgives ok\0\
    start_up = proc ()\n  x: int\n  begin x: string end\nend start_up\tgives 3:9:V6\0\
    start_up = proc ()\n  begin x: string end\n  x: int\nend start_up\tgives ok\0\
    start_up = proc ()\n  a = b\n  b = a + 1\nend start_up\tgives 2:7:V7\0\
    start_up = proc ()\n  a = b\n  b = 1 + 1\nend start_up\tgives ok\0\
    start_up = proc ()\n  n = 9223372036854775807 + 1\nend start_up\tgives 2:27:V8\0\
    start_up = proc ()\n  n = 9223372036854775806 + 1\nend start_up\tgives ok\0\
    start_up = proc ()\n  n = 1\n  x: n\nend start_up\tgives 3:6:V9\0\
    start_up = proc ()\n  n = int\n  x: n\nend start_up\tgives ok\0\
    start_up = proc ()\n  x: any := 1.5\nend start_up\tgives 2:13:V10\0\
    start_up = proc ()\n  x: any := \"1.5\"\nend start_up\tgives ok\0\
    start_up = proc ()\n  p: bool := nil < nil\nend start_up\tgives 2:18:V11\0\
    start_up = proc ()\n  p: bool := nil = nil\nend start_up\tgives ok\0\
    start_up = proc () q() end start_up\nq = proc (x: int) end q\tgives 1:21:V12\0\
    start_up = proc () q(1) end start_up\nq = proc (x: int) end q\tgives ok\0\
    start_up = proc ()\n  x: int := 1 + \"a\"\nend start_up\tgives 2:15:V13\0\
    start_up = proc ()\n  x: string := \"1\" || \"a\"\nend start_up\tgives ok\0\
    start_up = proc ()\n  a, b: int := q()\nend start_up\nq = proc () returns (int) return (1) end q\tgives 2:3:V14\0\
    start_up = proc ()\n  a, b: int := q()\nend start_up\nq = proc () returns (int, int) return (1, 2) end q\tgives \
    ok\0\
    start_up = proc ()\n  x: any := 1\n  y: int := x\nend start_up\tgives 3:3:V15\0\
    start_up = proc ()\n  x: int := 1\n  y: any := x\nend start_up\tgives ok\0\
    start_up = proc ()\n  p: bool := true cand 1\nend start_up\tgives 2:19:V16\0\
    start_up = proc ()\n  p: bool := true cand 1 = 1\nend start_up\tgives ok\0\
    start_up = proc ()\n  r: any := record[a, b: int]${a: 1}\nend start_up\tgives 2:13:V17\0\
    start_up = proc ()\n  r: any := record[a, b: int]${b: 1, a: 2}\nend start_up\tgives ok\0\
    start_up = proc () p[any]() end start_up\np = proc [t: type] () where t has equal: proctype (t, t) returns \
    (bool) end p\tgives 1:21:V18\0\
    start_up = proc () p[array[any]]() end start_up\np = proc [t: type] () where t has equal: proctype (t, t) \
    returns (bool) end p\tgives ok\0\
    start_up = proc () p[\"a\"]() end start_up\np = proc [n: int] () end p\tgives 1:21:V19\0\
    start_up = proc () p[2 + 3]() end start_up\np = proc [n: int] () end p\tgives ok\0\
    printable = {t | t has unparse: proctype (t) returns (string)}\nshow = proc [t: type] (x: t) returns (string) \
    where t in printable\n  return (t$unparse(x))\nend show\nstart_up = proc ()\n  s: string := \
    show[bool](true)\nend start_up\tgives 6:20:V20\0\
    printable = {t | t has unparse: proctype (t) returns (string)}\nshow = proc [t: type] (x: t) returns (string) \
    where t in printable\n  return (t$unparse(x))\nend show\nstart_up = proc ()\n  s: string := show[int](1)\nend \
    start_up\tgives ok\0\
    start_up = proc () p(record[a: int]${a: 1}) end start_up\np = proc (x: record[a: int])\n  tagcase x tag a: \
    end\nend p\tgives 3:3:V21\0\
    start_up = proc () p(oneof[a: int]$make_a(1)) end start_up\np = proc (x: oneof[a: int])\n  tagcase x tag a: \
    end\nend p\tgives ok\0\
    p = proc (x: oneof[a, b: int])\n  tagcase x\n    tag a:\n    tag b, c:\n  end\nend p\tgives 4:5:V22\0\
    p = proc (x: oneof[a, b: int])\n  tagcase x\n    tag a:\n    others:\n  end\nend p\tgives ok\0\
    start_up = proc ()\n  q()\n    except when e: end\nend start_up\nq = proc () signals (e(int)) signal e(1) end \
    q\tgives 3:12:V23\0\
    start_up = proc ()\n  q()\n    except when e (n: int): end\n  q()\n    except when e (*): end\nend start_up\nq = \
    proc () signals (e(int)) signal e(1) end q\tgives ok\0\
    start_up = proc ()\n  begin exit e end\n    except when e: when f, e: end\nend start_up\tgives 3:20:V24\0\
    start_up = proc ()\n  begin exit e end\n    except when e: when f, g: end\nend start_up\tgives ok\0\
    start_up = proc ()\n  signal e\nend start_up\tgives 2:3:V25\0\
    start_up = proc () signals (e)\n  signal e\nend start_up\tgives ok\0\
    start_up = proc () signals (e(int))\n  signal e(\"a\")\nend start_up\tgives 2:3:V26\0\
    start_up = proc () signals (e(int))\n  signal e(1)\n  signal failure(\"a\")\nend start_up\tgives ok\0\
    start_up = proc ()\n  begin exit e end\n    except others: end\nend start_up\tgives 2:9:V27\0\
    start_up = proc ()\n  begin exit e end\n    except when e: end\nend start_up\tgives ok\0\
    start_up = proc ()\n  break\nend start_up\tgives 2:3:V28\0\
    start_up = proc ()\n  while true do break end\nend start_up\tgives ok\0\
    p = proc ()\n  yield (1)\nend p\tgives 2:3:V29\0\
    p = iter () yields (int)\n  yield (1)\nend p\tgives ok\0\
    p = proc () returns (int)\n  return (\"a\")\nend p\tgives 2:3:V30\0\
    p = proc () returns (any)\n  return (\"a\")\nend p\tgives ok\0\
    c = cluster is f\n  rep = null\n  f = proc (x: array[cvt]) end f\nend c\tgives 3:22:V31\0\
    c = cluster is f\n  rep = null\n  f = proc (x: cvt, y: array[rep]) end f\nend c\tgives ok\0\
    start_up = proc ()\n  a: array[int] := down(box$make())\nend start_up\nbox = cluster is make\n  rep = \
    array[int]\n  make = proc () returns (cvt) return (rep$new()) end make\nend box\tgives 2:20:V32\0\
    start_up = proc ()\n  n: int := box$size(box$make())\nend start_up\nbox = cluster is make, size\n  rep = \
    array[int]\n  make = proc () returns (box) return (up(rep$new())) end make\n  size = proc (b: box) returns (int) \
    return (rep$size(down(b))) end size\nend box\tgives ok\0\
    start_up = proc () break end start_up\nc = cluster is f, g\n  rep = null\n  f = proc () end f\nend c\tgives \
    2:1:V33\0\
    c = cluster is f\n  rep = null\n  f = proc () g() end f\n  g = proc () end g\nend c\tgives ok\0\
    start_up = proc ()\nend go\tgives 1:1:V34\0\
    Start_up = proc ()\nend start_up\tgives ok\0\
    start_up = proc ()\n  for i: int in int$add(1, 2) do end\nend start_up\tgives 2:3:V36\0\
    start_up = proc ()\n  for i: int in int$from_to(1, 2) do end\nend start_up\tgives ok\0\
    p = proc (x: int)\n  own n: int := x\nend p\tgives 2:3:V37\0\
    p = proc [x: int] ()\n  own n: int := x\nend p\tgives ok\0\
";
