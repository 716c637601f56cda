//! What the operations that are texts come to.

/// How many rows `DERIVED_GROUPS` has.
pub const DERIVED_GROUPS_COUNT: usize = 4;

/// Rows of lines: the declarations that the others share, and expressions of type string, each with a tab and its value, or the
/// name of the exception that it raises. The objects are those that the lines before have left.
pub const DERIVED_GROUPS: &str = "\
ai = array[int] m: int := 9223372036854775807 l: int := -9223372036854775807 - 1\n\
ft(1, 3)\t1,2,3,\n\
ft(3, 3)\t3,\n\
ft(3, 2)\t\n\
ft(m - 1, m)\t9223372036854775806,9223372036854775807,\n\
ft(m, l)\t\n\
fb(1, 10, 4)\t1,5,9,\n\
fb(10, 1, -4)\t10,6,2,\n\
fb(1, 1, -1)\t1,\n\
fb(1, 0, 1)\t\n\
fb(0, 1, -1)\t\n\
fb(5, 1, 0)\t5,5,5,5,\n\
fb(l, m, m)\t-9223372036854775808,-1,9223372036854775806,\n\
fb(m, l, l)\t9223372036854775807,-1,\n\
fb(l + 1, l, -1)\t-9223372036854775807,-9223372036854775808,\n\
ch(\"a b\")\ta, ,b,\n\
ch(\"abcdefghi\")\ta,b,c,d,e,f,g,h,i,\n\
ch(\"\")\t\n\
\tgives kept\0\
ai = array[int] m: int := 9223372036854775807 a: ai := ai$[5: 10, 20, 30] b: ai := ai$[1, 2, 3, 4] c: ai := ai$copy1(b) d: ai := ai$copy1(b) e: ai := ai$new()\n\
el(a)\t10,20,30,\n\
ix(a)\t5,6,7,\n\
el(e)\t\n\
ix(e)\t\n\
el(ai$[m: 8])\t8,\n\
ix(ai$[m: 8])\t9223372036854775807,\n\
ix(ai$[-m: 8])\t-9223372036854775807,\n\
el(addl(ai$[2], 1))\t1,2,\n\
eh(b)\t1,2,\n\
ar(b)\t1(1,2)\n\
eb(c)\t1,2,3,4,\n\
ar(c)\t5(9,9,9,9)\n\
er(d)\t1,1,2,2,\n\
ar(d)\t3(1,2,3,4)\n\
ih(a)\t5,6,7,\n\
ar(a)\t5()\n\
bo(ai$similar(ai$[1, 2], ai$[1, 2]))\tT\n\
bo(ai$similar(ai$[1, 2], ai$[0: 1, 2]))\tF\n\
bo(ai$similar(ai$[1, 2], ai$[1, 2, 3]))\tF\n\
bo(ai$similar(ai$[1, 2], ai$[1, 3]))\tF\n\
bo(ai$similar(ai$new(), ai$new()))\tT\n\
bo(ai$similar1(ai$[5: 2], ai$[5: 2]))\tT\n\
bo(ai$similar1(ai$[2], ai$[3]))\tF\n\
ar(ai$copy(ai$[-4: 2, 3]))\t-4(2,3)\n\
ar(ai$copy(e))\t1()\n\
bo(ai$copy(e) = e)\tF\n\
ar(array[ai]$copy(array[ai]$[ai$[5: 1]])[1])\t5(1)\n\
bo(array[ai]$similar(array[ai]$[ai$[1]], array[ai]$[ai$[1]]))\tT\n\
bo(array[ai]$similar1(array[ai]$[ai$[1]], array[ai]$[ai$[1]]))\tF\n\
\tgives kept\0\
si = sequence[int] u = struct[a: sequence[string]] t = sequence[u] s: si := si$[1, 2, 3] e: si := si$new()\n\
es(s)\t1,2,3,\n\
xs(s)\t1,2,3,\n\
es(e)\t\n\
xs(e)\t\n\
bo(s = si$[1, 2, 3])\tT\n\
bo(s = si$[1, 2])\tF\n\
bo(s = si$[1, 2, 4])\tF\n\
bo(e = si$[])\tT\n\
bo(si$similar(s, si$[1, 2, 3]))\tT\n\
bo(si$similar(s, si$[0, 2, 3]))\tF\n\
sq(si$copy(s))\t(1,2,3)\n\
sq(si$copy(e))\t()\n\
bo(t$[u${a: sequence[string]$[\"x\"]}] = t$[u${a: sequence[string]$[\"x\"]}])\tT\n\
bo(t$[u${a: sequence[string]$[\"x\"]}] = t$[u${a: sequence[string]$[\"y\"]}])\tF\n\
\tgives kept\0\
ak = array[k] sk = sequence[k]\n\
bo(ak$similar(ka(1, 2, 3), ka(1, 2, 3)))\t~11 ~22 ~33 T\n\
bo(ak$similar(ka(1, 2, 3), ka(1, 5, 3)))\t~11 ~25 F\n\
bo(ak$similar(ka(1, 2, 3), kl(ka(1, 2, 3), 2)))\tF\n\
bo(ak$similar1(ka(1, 2, 3), ka(1, 2, 4)))\t=11 =22 =34 F\n\
bo(ak$similar(ka(1, 85, 3), ka(1, 2, 3)))\t~11 ~852 failure: own\n\
bo(less(ka(1, 2, 3)))\t~9191 ~11 ~22 ~33 failure: unhandled exception: bounds\n\
va(ak$copy(kl(ka(1, 2, 3), 7)))\tc1 c2 c3 7:2,3,4,\n\
bo(sk$similar(ks(1, 2, 3), ks(1, 2, 3)))\t~11 ~22 ~33 T\n\
bo(ks(1, 2, 3) = ks(1, 5, 3))\t=11 =25 F\n\
vs(sk$copy(ks(1, 2, 3)))\tc1 c2 c3 1:2,3,4,\n\
\tgives kept\0\
";
