//! What the operations of arrays, sequences, structs, records, oneofs, variants, routines and any come to.

/// How many rows `DATA_GROUPS` has.
pub const DATA_GROUPS_COUNT: usize = 6;

/// Rows of lines: the declarations that the others share, and expressions of type string, each with a tab and its value, or the
/// name of the exception that it raises. The objects are those that the lines before have left.
pub const DATA_GROUPS: &str = "\
ai = array[int] m: int := 9223372036854775807 l: int := -9223372036854775807 - 1 a: ai := ai$[5: 10, 20, 30] e: ai := ai$new() x: ai y: ai\n\
ar(ai$create(0))\t0()\n\
ar(ai$create(l))\tfailure: bounds out of range\n\
ar(ai$create(l + 1))\t-9223372036854775807()\n\
ar(ai$create(m))\t9223372036854775807()\n\
ar(ai$new())\t1()\n\
ar(ai$predict(3, 100))\t3()\n\
ar(ai$predict(3, -100))\t3()\n\
ar(ai$predict(l, 1))\tfailure: bounds out of range\n\
ar(ai$fill(2, 3, 7))\t2(7,7,7)\n\
ar(ai$fill(2, 0, 7))\t2()\n\
ar(ai$fill(2, -1, 7))\tnegative_size\n\
ar(ai$fill(l, -1, 7))\tnegative_size\n\
ar(ai$fill(l, 1, 7))\tfailure: bounds out of range\n\
ar(ai$fill(m, 1, 7))\t9223372036854775807(7)\n\
ar(ai$fill(m, 2, 7))\tfailure: bounds out of range\n\
ar(ai$fill(m, 0, 7))\t9223372036854775807()\n\
ar(ai$fill(2, m, 7))\tfailure: bounds out of range\n\
nu(ai$size(a))\t3\n\
nu(ai$low(a))\t5\n\
nu(ai$high(a))\t7\n\
nu(ai$size(e))\t0\n\
nu(ai$low(e))\t1\n\
nu(ai$high(e))\t0\n\
bo(ai$empty(e))\tT\n\
bo(ai$empty(a))\tF\n\
ar(low(a, -3))\t-3(10,20,30)\n\
ar(low(a, m - 2))\t9223372036854775805(10,20,30)\n\
ar(low(a, m - 1))\tfailure: bounds out of range\n\
ar(low(a, l))\tfailure: bounds out of range\n\
ar(low(a, l + 1))\t-9223372036854775807(10,20,30)\n\
ar(low(a, 5))\t5(10,20,30)\n\
ar(low(ai$new(), m))\t9223372036854775807()\n\
ar(low(ai$new(), l))\tfailure: bounds out of range\n\
nu(a[5])\t10\n\
nu(a[7])\t30\n\
nu(a[4])\tbounds\n\
nu(a[8])\tbounds\n\
nu(a[l])\tbounds\n\
nu(a[m])\tbounds\n\
nu(e[1])\tbounds\n\
ar(put(a, 6, 21))\t5(10,21,30)\n\
ar(put(a, 4, 1))\tbounds\n\
ar(put(a, 8, 1))\tbounds\n\
nu(ai$bottom(a))\t10\n\
nu(ai$top(a))\t30\n\
nu(ai$bottom(e))\tbounds\n\
nu(ai$top(e))\tbounds\n\
ar(addh(a, 40))\t5(10,21,30,40)\n\
ar(addl(a, 1))\t4(1,10,21,30,40)\n\
nu(ai$remh(a))\t40\n\
nu(ai$reml(a))\t1\n\
ar(a)\t5(10,21,30)\n\
nu(ai$remh(e))\tbounds\n\
nu(ai$reml(e))\tbounds\n\
\tgives kept\0\
ai = array[int] m: int := 9223372036854775807 l: int := -9223372036854775807 - 1 a: ai := ai$[5: 10, 21, 30]\n\
ar(addh(ai$create(m), 1))\t9223372036854775807(1)\n\
ar(addh(addh(ai$create(m), 1), 2))\tfailure: bounds out of range\n\
ar(addl(ai$create(l + 2), 1))\t-9223372036854775807(1)\n\
ar(addl(ai$create(l + 1), 1))\tfailure: bounds out of range\n\
nu(ai$reml(addh(ai$create(m), 1)))\tfailure: bounds out of range\n\
nu(ai$remh(addh(ai$create(m), 1)))\t1\n\
ar(addl(addl(addh(addh(addl(ai$new(), 3), 4), 5), 2), 1))\t-2(1,2,3,4,5)\n\
ar(trim(a, 6, 1))\t6(21)\n\
ar(addh(addh(a, 1), 2))\t6(21,1,2)\n\
ar(trim(a, 5, 1))\tbounds\n\
ar(trim(a, 10, 1))\tbounds\n\
ar(trim(a, 99, -1))\tnegative_size\n\
ar(trim(a, 9, 0))\t9()\n\
ar(trim(a, 9, m))\t9()\n\
ar(trim(ai$[1: 1, 2, 3], 2, 99))\t2(2,3)\n\
ar(trim(ai$[1: 1, 2, 3], l, 1))\tbounds\n\
ar(ai$copy1(a))\t9()\n\
ar(addl(ai$copy1(ai$[3: 1, 2]), 0))\t2(0,1,2)\n\
bo(a = a)\tT\n\
bo(ai$[1] = ai$[1])\tF\n\
bo(ai$equal(a, ai$copy1(a)))\tF\n\
ar(ai$[])\t1()\n\
ar(ai$[m: 1])\t9223372036854775807(1)\n\
ar(ai$[m: 1, 2])\tfailure: bounds out of range\n\
ar(ai$[l:])\tfailure: bounds out of range\n\
ar(ai$[m:])\t9223372036854775807()\n\
\tgives kept\0\
si = sequence[int] s: si := si$[1, 2, 3] e: si := si$new() m: int := 9223372036854775807\n\
sq(si$new())\t()\n\
sq(si$e2s(4))\t(4)\n\
sq(si$fill(3, 9))\t(9,9,9)\n\
sq(si$fill(0, 9))\t()\n\
sq(si$fill(-1, 9))\tnegative_size\n\
nu(si$size(s))\t3\n\
nu(si$size(e))\t0\n\
bo(si$empty(e))\tT\n\
bo(si$empty(s))\tF\n\
nu(s[1])\t1\n\
nu(s[3])\t3\n\
nu(s[0])\tbounds\n\
nu(s[4])\tbounds\n\
nu(e[1])\tbounds\n\
nu(s[m])\tbounds\n\
nu(si$bottom(s))\t1\n\
nu(si$top(s))\t3\n\
nu(si$bottom(e))\tbounds\n\
nu(si$top(e))\tbounds\n\
sq(si$replace(s, 2, 7))\t(1,7,3)\n\
sq(si$replace(s, 0, 7))\tbounds\n\
sq(si$replace(s, 4, 7))\tbounds\n\
sq(si$addh(s, 4))\t(1,2,3,4)\n\
sq(si$addh(e, 4))\t(4)\n\
sq(si$addl(s, 0))\t(0,1,2,3)\n\
sq(si$addl(e, 0))\t(0)\n\
sq(si$remh(s))\t(1,2)\n\
sq(si$reml(s))\t(2,3)\n\
sq(si$remh(e))\tbounds\n\
sq(si$reml(e))\tbounds\n\
sq(si$reml(si$e2s(1)))\t()\n\
sq(s || s)\t(1,2,3,1,2,3)\n\
sq(e || s)\t(1,2,3)\n\
sq(s || e)\t(1,2,3)\n\
sq(si$subseq(s, 2, 1))\t(2)\n\
sq(si$subseq(s, 2, m))\t(2,3)\n\
sq(si$subseq(s, 4, 1))\t()\n\
sq(si$subseq(s, 5, 1))\tbounds\n\
sq(si$subseq(s, 0, 1))\tbounds\n\
sq(si$subseq(s, 9, -1))\tnegative_size\n\
sq(si$a2s(array[int]$[9: 4, 5]))\t(4,5)\n\
sq(si$a2s(array[int]$new()))\t()\n\
ar(si$s2a(s))\t1(1,2,3)\n\
ar(si$s2a(e))\t1()\n\
ar(addh(si$s2a(s), 4))\t1(1,2,3,4)\n\
sq(s)\t(1,2,3)\n\
sq(si$[])\t()\n\
\tgives kept\0\
t = struct[b: string, a: int] r = record[b: string, a: int] x: t := t${a: 1, b: \"x\"} y: t := t${b: \"x\", a: 1} u: r := r${a: 1, b: \"x\"} v: r := r${a: 1, b: \"x\"} w: r := u\n\
nu(x.a)\t1\n\
x.b\tx\n\
nu(t$get_a(y))\t1\n\
nu(t$replace_a(x, 5).a)\t5\n\
t$replace_a(x, 5).b\tx\n\
t$replace_b(x, \"n\").b\tn\n\
nu(x.a)\t1\n\
bo(x = y)\tT\n\
bo(x = t$replace_a(x, 2))\tF\n\
bo(x = t$replace_b(x, \"z\"))\tF\n\
bo(t$similar(x, y))\tT\n\
bo(t$equal(t$copy(x), y))\tT\n\
nu(u.a)\t1\n\
bo(u = v)\tF\n\
bo(u = w)\tT\n\
bo(r$similar(u, v))\tT\n\
bo(r$similar1(u, v))\tT\n\
set(u, 7)\t7\n\
nu(w.a)\t7\n\
bo(r$similar(u, v))\tF\n\
bo(r$similar1(u, v))\tF\n\
bo(r$copy(u) = u)\tF\n\
bo(r$similar(r$copy(u), u))\tT\n\
nu(r$copy1(u).a)\t7\n\
bo(r$copy1(u) = u)\tF\n\
r$copy1(u).b\tx\n\
\tgives kept\0\
o = oneof[n: null, i: int, s: string] v = variant[n: null, i: int, s: string] x: o := o$make_i(4) y: o := o$make_s(\"q\") u: v := v$make_i(4) w: v := u\n\
bo(o$is_i(x))\tT\n\
bo(o$is_n(x))\tF\n\
nu(o$value_i(x))\t4\n\
o$value_s(x)\twrong_tag\n\
o$value_s(y)\tq\n\
bo(o$value_n(o$make_n(nil)) = nil)\tT\n\
bo(x = y)\tF\n\
bo(x = o$make_i(4))\tT\n\
bo(x = o$make_i(5))\tF\n\
bo(o$similar(y, o$make_s(\"q\")))\tT\n\
bo(o$copy(x) = x)\tT\n\
o$value_s(o$copy(y))\tq\n\
bo(v$is_i(u))\tT\n\
nu(v$value_i(u))\t4\n\
v$value_s(u)\twrong_tag\n\
bo(u = w)\tT\n\
bo(u = v$make_i(4))\tF\n\
bo(v$similar(u, v$make_i(4)))\tT\n\
bo(v$similar1(u, v$make_i(4)))\tT\n\
bo(v$similar(u, v$make_s(\"4\")))\tF\n\
bo(v$copy(u) = u)\tF\n\
bo(v$similar(v$copy(u), u))\tT\n\
bo(v$copy1(u) = u)\tF\n\
nu(v$value_i(v$copy1(u)))\t4\n\
change(u, \"ch\")\tch\n\
v$value_s(w)\tch\n\
nu(v$value_i(u))\twrong_tag\n\
bo(v$is_n(u))\tF\n\
\tgives kept\0\
f: proctype (int, int) returns (int) signals (overflow) := int$add g: proctype (int, int) returns (int) signals (overflow) := int$sub h: proctype (any) returns (int) signals (wrong_type) := force[int] x: any := 5 z: any := int$add p: proctype (bool) returns (string) := bo\n\
nu(f(2, 3))\t5\n\
bo(f = g)\tF\n\
bo(f = int$add)\tT\n\
bo(proctype (int, int) returns (int) signals (overflow)$similar(f, f))\tT\n\
nu(proctype (int, int) returns (int) signals (overflow)$copy(g)(2, 3))\t-1\n\
p(true)\tT\n\
nu(h(x))\t5\n\
nu(h(\"x\"))\twrong_type\n\
nu(force[int](x))\t5\n\
force[string](x)\twrong_type\n\
nu(force[int](force[any](x)))\twrong_type\n\
nu(force[proctype (int, int) returns (int) signals (overflow)](z)(1, 1))\t2\n\
bo(h = force[int])\tT\n\
nu(force[int](f))\twrong_type\n\
nu(force[int](nil))\twrong_type\n\
bo(force[null](nil) = nil)\tT\n\
bo(force[bool](true))\tT\n\
string$c2s(force[char]('c'))\tc\n\
nu(force[array[int]](array[int]$[8])[1])\t8\n\
nu(force[array[int]](sequence[int]$[8])[1])\twrong_type\n\
\tgives kept\0\
";
