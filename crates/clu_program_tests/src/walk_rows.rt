//! The session that docs/library.md shows, which `.ci/walks` compares with it.

/// How many rows `WALKS` has.
pub const WALKS_COUNT: usize = 1;

/// A session in the form of `sessions`.
pub const WALKS: &str = "\
file stack.clu\n\
| stack = cluster [t: type] is create, push, pop\n\
|   rep = array[t]\n\
|   create = proc () returns (cvt) end create\n\
|   push = proc (s: cvt, x: t) end push\n\
|   pop = proc (s: cvt) returns (t) signals (empty) end pop\n\
| end stack\n\
$ spec team.lib stack.clu\n\
$ xref team.lib\n\
> stack: -\n\
file main.clu\n\
| start_up = proc ()\n\
|   s: stack[int] := stack[int]$create()\n\
|   stack[int]$push(s, 3)\n\
|   stream$putl(stream$primary_output(), int$unparse(stack[int]$pop(s)))\n\
|   except when empty: end\n\
| end start_up\n\
$ compile team.lib main.clu\n\
$ xref team.lib\n\
> stack: -\n\
> start_up: stack\n\
$ link team.lib main start_up\n\
! no body: stack\n\
= 15\n\
file bodies.clu\n\
| stack = cluster [t: type] is create, push, pop\n\
|   rep = array[t]\n\
|   create = proc () returns (cvt) return (rep$new()) end create\n\
|   push = proc (s: cvt, x: t) rep$addh(s, x) end push\n\
|   pop = proc (s: cvt) returns (t) signals (empty)\n\
|     return (rep$remh(s))\n\
|     except when bounds: signal empty end\n\
|   end pop\n\
| end stack\n\
$ compile team.lib bodies.clu\n\
$ link team.lib main start_up\n\
$ run team.lib main\n\
> 3\n\
$ xref team.lib\n\
> stack:\n\
> start_up: stack\n\
file sized.clu\n\
| stack = cluster [t: type] is create, push, pop, size\n\
|   rep = array[t]\n\
|   create = proc () returns (cvt) return (rep$new()) end create\n\
|   push = proc (s: cvt, x: t) rep$addh(s, x) end push\n\
|   pop = proc (s: cvt) returns (t) signals (empty)\n\
|     return (rep$remh(s))\n\
|     except when bounds: signal empty end\n\
|   end pop\n\
|   size = proc (s: cvt) returns (int) return (rep$size(s)) end size\n\
| end stack\n\
$ compile team.lib sized.clu\n\
! spec differs: stack\n\
! stack=cluster[type]is;create:proc()returns(stack[#1]);pop:proc(stack[#1])returns(#1)signals(empty);push:proc(stack[#1],#1)\n\
! stack=cluster[type]is;create:proc()returns(stack[#1]);pop:proc(stack[#1])returns(#1)signals(empty);push:proc(stack[#1],#1);size:proc(stack[#1])returns(int)\n\
= 13\n\
$ replace team.lib sized.clu\n\
$ run team.lib main\n\
! no program: main\n\
= 19\n\
$ xref team.lib\n\
> stack: -\n\
> start_up: stack\n\
$ link team.lib main start_up\n\
! stale: start_up: stack changed at 1, checked at 0\n\
= 28\n\
$ compile team.lib main.clu\n\
$ compile team.lib sized.clu\n\
$ link team.lib main start_up\n\
$ run team.lib main\n\
> 3\n\
file sum.clu\n\
| sum = proc (s: stack[int]) returns (int) end sum\n\
file plain.clu\n\
| stack = cluster is create\n\
|   rep = array[int]\n\
|   create = proc () returns (cvt) end create\n\
| end stack\n\
$ spec team.lib sum.clu\n\
$ replace team.lib plain.clu\n\
! spec needed: sum\n\
= 29\n\
file anna.clu\n\
| anna = proc ()\n\
|   s: stack[string] := stack[string]$create()\n\
|   stack[string]$push(s, \"by anna\")\n\
|   stream$putl(stream$primary_output(), stack[string]$pop(s))\n\
| end anna\n\
$ compile team.lib anna.clu\n\
$ link team.lib report anna\n\
$ run team.lib report\n\
> by anna\n\
$ run team.lib reports\n\
! no program: reports\n\
= 19\n\
\tgives kept\0\
";
