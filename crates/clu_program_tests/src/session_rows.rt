//! Sessions of the commands on libraries.

/// How many rows `SESSIONS` has.
pub const SESSIONS_COUNT: usize = 11;

/// Sessions in the form of `sessions`.
pub const SESSIONS: &str = "\
file p.clu\n\
|. p = proc () q() end p\n\
file q.clu\n\
|. q = proc () stream$putl(stream$primary_output(), \"q\") end q\n\
file r.clu\n\
|. q = proc (x: int) end q\n\
file n.clu\n\
|. q = proc () stream$putl(stream$primary_output(), \"new\") end q\n\
$ spec L q.clu\n\
$ compile L p.clu\n\
$ link L g p\n\
! no body: q\n\
= 15\n\
$ compile L q.clu\n\
$ link L g p\n\
$ run L g\n\
> q\n\
$ run L h\n\
! no program: h\n\
= 19\n\
$ compile L r.clu\n\
! spec differs: q\n\
! q=proc()\n\
! q=proc(int)\n\
= 13\n\
$ compile L q.clu\n\
$ run L g\n\
> q\n\
$ compile L n.clu\n\
$ run L g\n\
! no program: g\n\
= 19\n\
$ link L g P\n\
$ run L g\n\
> new\n\
$ xref L\n\
> p: q\n\
> q:\n\
\tgives kept\0\
file p.clu\n\
|. p = proc () q() end p\n\
file q.clu\n\
|. q = proc () stream$putl(stream$primary_output(), \"q\") end q\n\
file r.clu\n\
|. q = proc (x: int) end q\n\
file n.clu\n\
|. q = proc () stream$putl(stream$primary_output(), \"new\") end q\n\
$ spec L q.clu\n\
$ compile L p.clu\n\
$ compile L q.clu\n\
$ link L g p\n\
$ replace L r.clu\n\
$ run L g\n\
! no program: g\n\
= 19\n\
$ link L g p\n\
! stale: p: q changed at 1, checked at 0\n\
= 28\n\
$ compile L p.clu\n\
! p.clu:1:14: V12 ArgumentCount\n\
= 11\n\
$ replace L q.clu\n\
$ link L g p\n\
! stale: p: q changed at 2, checked at 0\n\
= 28\n\
$ compile L p.clu\n\
$ link L g p\n\
! no body: q\n\
= 15\n\
$ compile L q.clu\n\
$ link L g p\n\
$ run L g\n\
> q\n\
$ xref L\n\
> p: q\n\
> q:\n\
\tgives kept\0\
file s.clu\n\
|. s = cluster [t: type] is make rep = null make = proc () returns (cvt) return (nil) end make end s\n\
file v.clu\n\
|. s = cluster is make rep = null make = proc () returns (cvt) return (nil) end make end s\n\
file u.clu\n\
|. u = proc (x: s[int]) end u\n\
$ spec L s.clu\n\
$ spec L u.clu\n\
$ replace L v.clu\n\
! spec needed: u\n\
= 29\n\
$ xref L\n\
> s: -\n\
> u: -\n\
\tgives kept\0\
hex L 43 4c 55 4c 01 00 00 00 01 00 00 00 00 00 00 00 01 00 71 08 00 00 00 00 00 00 00 71 3d 70 72 6f 63 28 29 00\n\
file r.clu\n\
|. q = proc (x: int) end q\n\
$ spec L r.clu\n\
! spec differs: q\n\
! q=proc()\n\
! q=proc(int)\n\
= 13\n\
$ replace L r.clu\n\
head L\n\
& 43 4c 55 4c 02 00 00 00 01 00 00 00 01 00 00 00\n\
$ xref L\n\
> q: -\n\
\tgives kept\0\
hex L 43 4c 55 4c 01 00 00 00 01 00 00 00 00 00 00 00 01 00 71 08 00 00 00 00 00 00 00 71 3d 70 72 6f 63 28 29\n\
$ xref L\n\
! library bad at 35\n\
= 12\n\
hex L 43 4c 55 4c 01 00 00 00 01 00 00 00 00 00 00 00 01 00 71 08 00 00 00 00 00 00 00 71 3d 70 72 6f 63 28 29 00 00\n\
$ xref L\n\
! library bad at 36\n\
= 12\n\
\tgives kept\0\
file both.clu\n\
| tally = cluster [t: type] is note where t has equal: proctype (t, t) returns (bool)\n\
|   rep = null\n\
|   own n: int := 0\n\
|   note = proc (a, b: t) returns (int)\n\
|     if a = b then n := n + 1 end\n\
|     return (n)\n\
|   end note\n\
| end tally\n\
| \n\
| start_up = proc ()\n\
|   i: int := tally[int]$note(1, 1)\n\
|   i := tally[int]$note(2, 2)\n\
|   s: int := tally[string]$note(\"a\", \"a\")\n\
|   stream$putl(stream$primary_output(), int$unparse(i))\n\
|   stream$putl(stream$primary_output(), int$unparse(s))\n\
| end start_up\n\
$ compile L both.clu\n\
$ link L g start_up\n\
$ run L g\n\
> 2\n\
> 1\n\
$ run L g --steps 10\n\
! steps spent\n\
= 5\n\
$ link L h tally\n\
! bad start: tally\n\
= 16\n\
$ compile L both.clu\n\
$ run --store 65536 --stack=65536 L g\n\
> 2\n\
> 1\n\
$ xref L\n\
> start_up: tally\n\
> tally:\n\
\tgives kept\0\
file p.clu\n\
|. p = proc () q() end p\n\
file q.clu\n\
|. q = proc () stream$putl(stream$primary_output(), \"q\") end q\n\
file v.clu\n\
|. v = proc () end v\n\
file w.clu\n\
|. v = proc (x: int) end v\n\
$ spec L q.clu\n\
$ compile L p.clu\n\
$ compile L q.clu\n\
$ compile L v.clu\n\
$ link L g p\n\
$ link L h v\n\
$ replace L w.clu\n\
$ run L g\n\
> q\n\
$ run L h\n\
! no program: h\n\
= 19\n\
$ replace L w.clu\n\
$ run L g\n\
> q\n\
$ compile L p.clu\n\
$ run L g\n\
> q\n\
\tgives kept\0\
file a.clu\n\
|. start_up = proc () s() n() end start_up\n\
file s.clu\n\
|. s = proc () t() end s\n\
file t.clu\n\
|. t = proc () end t\n\
file u.clu\n\
|. t = proc (x: int) end t\n\
file n.clu\n\
|. n = proc () end n\n\
$ spec L t.clu\n\
$ spec L s.clu\n\
$ spec L n.clu\n\
$ compile L s.clu\n\
$ compile L t.clu\n\
$ compile L a.clu\n\
$ replace L u.clu\n\
$ link L g start_up\n\
! no body: n\n\
= 15\n\
$ compile L n.clu\n\
$ link L g start_up\n\
! stale: s: t changed at 1, checked at 0\n\
= 28\n\
\tgives kept\0\
file z.clu\n\
|. z = proc () end z\n\
file a.clu\n\
|@ q = proc [a, b: int] () end q r = proc [a: int] () ^64^q[a, ?]() ^end r start_up = proc () z() ^64^r[?]() ^end start_up\n\
file b.clu\n\
|@ p = proc [n: int] () x: int := 0 ^900^x := x + n ^if x ~= 900 * n then signal failure(\"sum\") end end p start_up = proc () ^80^p[?]() ^z() end start_up\n\
$ spec L z.clu\n\
$ spec M z.clu\n\
$ compile L a.clu\n\
$ link L g start_up\n\
! too many instances\n\
= 17\n\
$ compile M b.clu\n\
$ link M g start_up\n\
! no body: z\n\
= 15\n\
$ compile M z.clu\n\
$ link M g start_up\n\
! program too large\n\
= 18\n\
\tgives kept\0\
file all.clu\n\
|@ ^4096^k? = proc () end k? ^\n\
file first.clu\n\
|. x = proc () end x k0 = proc (y: int) end k0\n\
file second.clu\n\
|. k0 = proc (y: int) end k0 x = proc () end x\n\
file more.clu\n\
|. x = proc () end x\n\
file one.clu\n\
|. k0 = proc (y: int) end k0\n\
$ spec L all.clu\n\
$ spec L first.clu\n\
! library full\n\
= 21\n\
$ spec L second.clu\n\
! spec differs: k0\n\
! k0=proc()\n\
! k0=proc(int)\n\
= 13\n\
$ compile L first.clu\n\
! library full\n\
= 21\n\
$ replace L more.clu\n\
! library full\n\
= 21\n\
$ replace L one.clu\n\
$ spec L one.clu\n\
\tgives kept\0\
file a.clu\n\
|@ p = proc () returns (int) n: int := 1 n := 2 n := 3 while true do if n = 3 then break end end return (n) end p start_up = proc () @#p())) end start_up\n\
$ compile L a.clu\n\
$ compile --peep M a.clu\n\
$ link L g start_up\n\
$ link M g start_up\n\
$ compile --peep L a.clu\n\
$ run L g\n\
> 3\n\
$ run M g\n\
> 3\n\
$ compile M a.clu\n\
$ run M g\n\
> 3\n\
\tgives kept\0\
";
