//! Libraries that another program could have made: each is one by the format, though no source has these objects.

/// How many rows `FOREIGN` has.
pub const FOREIGN_COUNT: usize = 49;

/// Sessions in the form of `sessions` over a library of these fields. Its bodies have no texts and name all modules; the words of
/// code are LUI x5, 0 and ADDI x5, x5, 0 for each hole, JALR x0, x1, 0, and ADDI x0, x0, 0 for each region.
///
/// No types, own variables that only a routine has that is not reached, or that no set-up is called for, or of a cluster
/// that is not there, are no fault. A type whose actual parameters do not fit its cluster has no operations. A descriptor
/// has 24 bytes, a use 88 with the operation that it may be, a constant and a type 8, an own variable 24, a table of
/// regions 24 and each region 96 with its arm, and each node allows 256. Last come an image that is run as it is kept, and an object
/// that is linked as it is kept, though the text of its body is of another one.
pub const FOREIGN: &str = "\
fields L CLUL w2 w0 w1 w0 'p \"p=proc() w0 b1 \" w0 b0 ( CLUO w2 'p w1 'p w2 w1 w32871 w0 w0 w0 w0 w0 )\n\
$ link L g p\n\
$ run L g\n\
\tgives kept\0\
fields L CLUL w2 w0 w1 w0 'p \"p=proc() w0 b1 \" w0 b0 ( CLUO w2 'p w1 'p w2 w1 w32871 w0 w0 w0 w1 \"proctype() w0 )\n\
$ link L g p\n\
$ run L g\n\
\tgives kept\0\
fields L CLUL w2 w0 w1 w0 'p \"p=proc() w0 b1 \" w0 b0 ( CLUO w2 'p w1 'q w2 w1 w32871 w0 w0 w0 w0 w0 )\n\
$ link L g p\n\
! object misfit: p\n\
= 31\n\
\tgives kept\0\
fields L CLUL w2 w0 w1 w0 'p \"p=proc() w0 b1 \" w0 b0 ( CLUO w2 'p w2 'p w2 w1 w32871 w0 w0 w0 w0 w0 'p w0 w1 \
w32871 w0 w0 w0 w0 w0 )\n\
$ link L g p\n\
$ run L g\n\
\tgives kept\0\
fields L CLUL w2 w0 w1 w0 'p \"p=proc() w0 b1 \" w0 b0 ( CLUO w2 'p w2 'p w0 w1 w32871 w0 w0 w0 w0 w0 'p w2 w1 \
w32871 w0 w0 w0 w0 w0 )\n\
$ link L g p\n\
! object misfit: p\n\
= 31\n\
\tgives kept\0\
fields L CLUL w2 w0 w1 w0 'p \"p=proc() w0 b1 \" w0 b0 ( CLUO w2 'p w1 'p w0 w1 w32871 w0 w0 w0 w0 w0 )\n\
$ link L g p\n\
! object misfit: p\n\
= 31\n\
\tgives kept\0\
fields L CLUL w2 w0 w1 w0 'p \"p=proc() w0 b1 \" w0 b0 ( CLUO w2 'p w1 'p w262144 w1 w32871 w0 w0 w0 w0 w0 )\n\
$ link L g p\n\
$ run L g\n\
\tgives kept\0\
fields L CLUL w2 w0 w1 w0 'p \"p=proc() w0 b1 \" w0 b0 ( CLUO w2 'p w1 'p w262145 w1 w32871 w0 w0 w0 w0 w0 )\n\
$ link L g p\n\
! program too large\n\
= 18\n\
\tgives kept\0\
fields L CLUL w2 w0 w1 w0 'p \"p=proc() w0 b1 \" w0 b0 ( CLUO w2 'p w1 'p w4294967295 w5 w695 w164499 w695 \
w164499 w32871 w2 w0 b3 w4294967295 w2 b4 w4294967295 w0 w0 w0 w0 )\n\
$ link L g p\n\
! program too large\n\
= 18\n\
\tgives kept\0\
fields L CLUL w2 w0 w1 w0 'p \"p=proc() w0 b1 \" w0 b0 ( CLUO w2 'p w1 'p w2 w1 w32871 w0 w1 \"int$zork w0 w0 w0 )\n\
$ link L g p\n\
! object misfit: p\n\
= 31\n\
\tgives kept\0\
fields L CLUL w2 w0 w1 w0 'p \"p=proc() w0 b1 \" w0 b0 ( CLUO w2 'p w1 'p w2 w1 w32871 w0 w1 \"int$own w0 w0 w0 )\n\
$ link L g p\n\
! object misfit: p\n\
= 31\n\
\tgives kept\0\
fields L CLUL w2 w0 w1 w0 'p \"p=proc() w0 b1 \" w0 b0 ( CLUO w2 'p w1 'p w2 w1 w32871 w0 w1 \"any$equal w0 w0 w0 )\n\
$ link L g p\n\
! object misfit: p\n\
= 31\n\
\tgives kept\0\
fields L CLUL w2 w0 w1 w0 'p \"p=proc() w0 b1 \" w0 b0 ( CLUO w2 'p w1 'p w2 w1 w32871 w0 w1 \"zork$force w0 w1 \
\"zork[int,5] w0 )\n\
$ link L g p\n\
$ run L g\n\
\tgives kept\0\
fields L CLUL w2 w0 w1 w0 'p \"p=proc() w0 b1 \" w0 b0 ( CLUO w2 'p w1 'p w2 w1 w32871 w0 w1 \"zork w0 w0 w0 )\n\
$ link L g p\n\
! object misfit: p\n\
= 31\n\
\tgives kept\0\
fields L CLUL w2 w0 w1 w0 'p \"p=proc() w0 b1 \" w0 b0 ( CLUO w2 'p w1 'p w2 w1 w32871 w0 w1 \"zork$own w0 w0 w0 )\n\
$ link L g p\n\
! object misfit: p\n\
= 31\n\
\tgives kept\0\
fields L CLUL w2 w0 w1 w0 'p \"p=proc() w0 b1 \" w0 b0 ( CLUO w2 'p w1 'p w2 w1 w32871 w0 w1 \"p$own w0 w0 w0 )\n\
$ link L g p\n\
! object misfit: p\n\
= 31\n\
\tgives kept\0\
fields L CLUL w2 w0 w1 w0 'p \"p=proc() w0 b1 \" w0 b0 ( CLUO w2 'p w1 'p w2 w1 w32871 w0 w1 \"#1$equal w0 w0 w0 )\n\
$ link L g p\n\
! object misfit: p\n\
= 31\n\
\tgives kept\0\
fields L CLUL w2 w0 w1 w0 'p \"p=proc() w0 b1 \" w0 b0 ( CLUO w2 'p w1 'p w2 w1 w32871 w0 w0 w1 b5 w1 w0 w0 )\n\
$ link L g p\n\
! object misfit: p\n\
= 31\n\
\tgives kept\0\
fields L CLUL w2 w0 w1 w0 'p \"p=proc() w0 b1 \" w0 b0 ( CLUO w2 'p w1 'p w2 w1 w32871 w0 w0 w0 w1 \"#1 w0 )\n\
$ link L g p\n\
! object misfit: p\n\
= 31\n\
\tgives kept\0\
fields L CLUL w2 w0 w1 w0 'p \"p=proc() w0 b1 \" w0 b0 ( CLUO w2 'p w1 'p w2 w1 w32871 w0 w0 w0 w1 \"c[%1] w0 )\n\
$ link L g p\n\
! object misfit: p\n\
= 31\n\
\tgives kept\0\
fields L CLUL w2 w0 w2 w0 'g \"g=proc[type,int]() w0 b1 \" w0 b0 ( CLUO w2 'g w1 'g w2 w1 w32871 w0 w0 w0 w0 w0 \
) 'p \"p=proc() w0 b1 \" w0 b0 ( CLUO w2 'p w1 'p w2 w1 w32871 w0 w1 \"g[int,%1] w0 w0 w0 )\n\
$ link L g p\n\
! object misfit: p\n\
= 31\n\
\tgives kept\0\
fields L CLUL w2 w0 w3 w0 'g \"g=proc[type,int]() w0 b1 \" w0 b0 ( CLUO w2 'g w1 'g w2 w1 w32871 w0 w1 \"h[%1] \
w0 w0 w0 ) 'h \"h=proc[type]() w0 b1 \" w0 b0 ( CLUO w2 'h w1 'h w2 w1 w32871 w0 w0 w0 w0 w0 ) 'p \"p=proc() w0 \
b1 \" w0 b0 ( CLUO w2 'p w1 'p w2 w1 w32871 w0 w1 \"g[int,5] w0 w0 w0 )\n\
$ link L g p\n\
! object misfit: g\n\
= 31\n\
\tgives kept\0\
fields L CLUL w2 w0 w3 w0 'g \"g=proc[type,int]() w0 b1 \" w0 b0 ( CLUO w2 'g w1 'g w2 w1 w32871 w0 w1 \"h[#1] \
w0 w0 w0 ) 'h \"h=proc[type]() w0 b1 \" w0 b0 ( CLUO w2 'h w1 'h w2 w1 w32871 w0 w0 w0 w0 w0 ) 'p \"p=proc() w0 \
b1 \" w0 b0 ( CLUO w2 'p w1 'p w2 w1 w32871 w0 w1 \"g[int,5] w0 w0 w0 )\n\
$ link L g p\n\
$ run L g\n\
\tgives kept\0\
fields L CLUL w2 w0 w1 w0 'p \"p=proc() w0 b1 \" w0 b0 ( CLUO w2 'p w1 'p w2 w5 w695 w164499 w695 w164499 \
w32871 w2 w0 b7 w3 w2 b6 w4294967295 w0 w0 w0 w0 )\n\
$ link L g p\n\
$ run L g\n\
\tgives kept\0\
fields L CLUL w2 w0 w1 w0 'p \"p=proc() w0 b1 \" w0 b0 ( CLUO w2 'p w1 'p w2 w3 w695 w164499 w32871 w1 w0 b7 w4 \
w0 w0 w0 w0 )\n\
$ link L g p\n\
! object misfit: p\n\
= 31\n\
\tgives kept\0\
fields L CLUL w2 w0 w1 w0 'p \"p=proc() w0 b1 \" w0 b0 ( CLUO w2 'p w1 'p w2 w9 w695 w164499 w695 w164499 w695 \
w164499 w695 w164499 w32871 w4 w0 b3 w4294967295 w2 b4 w4294967295 w4 b3 w0 w6 b4 w0 w0 w0 w0 w0 )\n\
$ link L g p\n\
$ run L g\n\
\tgives kept\0\
fields L CLUL w2 w0 w2 w0 'c \"c=clusteris;a:proc() w0 b1 \" w0 b0 ( CLUO w2 'c w3 'own w2 w1 w32871 w0 w0 w0 \
w0 w0 'a w2 w3 w695 w164499 w32871 w1 w0 b4 w1 w0 w0 w0 w0 'b w2 w5 w695 w164499 w695 w164499 w32871 w2 w0 b4 \
w4294967295 w2 b3 w4294967295 w0 w0 w0 w0 ) 'p \"p=proc() w0 b1 \" w0 b0 ( CLUO w2 'p w1 'p w2 w1 w32871 w0 w2 \
\"c$a \"c$own w0 w0 w0 )\n\
$ link L g p\n\
$ run L g\n\
\tgives kept\0\
fields L CLUL w2 w0 w2 w0 'c \"c=clusteris;a:proc() w0 b1 \" w0 b0 ( CLUO w2 'c w2 'a w2 w5 w695 w164499 w695 \
w164499 w32871 w2 w0 b4 w0 w2 b4 w4294967295 w0 w0 w0 w0 'b w2 w5 w695 w164499 w695 w164499 w32871 w2 w0 b4 w7 \
w2 b4 w0 w0 w0 w0 w0 ) 'p \"p=proc() w0 b1 \" w0 b0 ( CLUO w2 'p w1 'p w2 w1 w32871 w0 w2 \"c$a \"c$b w0 w0 w0 )\n\
$ link L g p\n\
$ run L g\n\
\tgives kept\0\
fields L CLUL w2 w0 w2 w0 'c \"c=clusteris;a:proc() w0 b1 \" w0 b0 ( CLUO w2 'c w1 'a w2 w1 w32871 w0 w0 w0 w0 \
w0 ) 'p \"p=proc() w0 b1 \" w0 b0 ( CLUO w2 'p w1 'p w2 w1 w32871 w0 w1 \"c$own w0 w0 w0 )\n\
$ link L g p\n\
! object misfit: c\n\
= 31\n\
\tgives kept\0\
fields L CLUL w2 w0 w2 w0 'c \"c=clusteris;a:proc() w0 b1 \" w0 b0 ( CLUO w2 'c w2 'a w2 w1 w32871 w0 w0 w0 w0 \
w0 'own w0 w1 w32871 w0 w0 w0 w0 w0 ) 'p \"p=proc() w0 b1 \" w0 b0 ( CLUO w2 'p w1 'p w2 w1 w32871 w0 w1 \"c$a \
w0 w0 w0 )\n\
$ link L g p\n\
$ run L g\n\
\tgives kept\0\
fields L CLUL w2 w0 w2 w0 'c \"c=cluster[type]is;a:proc() w0 b0 'p \"p=proc() w0 b1 \" w0 b0 ( CLUO w2 'p w1 'p \
w2 w1 w32871 w0 w1 \"c[5]$a w0 w0 w0 )\n\
$ link L g p\n\
! object misfit: p\n\
= 31\n\
\tgives kept\0\
fields L CLUL w2 w0 w2 w0 'c \"c=cluster[type]is;a:proc() w0 b0 'p \"p=proc() w0 b1 \" w0 b0 ( CLUO w2 'p w1 'p \
w2 w1 w32871 w0 w1 \"c[int,int]$own w0 w0 w0 )\n\
$ link L g p\n\
! object misfit: p\n\
= 31\n\
\tgives kept\0\
fields L CLUL w2 w0 w2 w0 'c \"c=cluster[type]is;copy:proc(c[5])returns(c[5]) w0 b0 'p \"p=proc() w0 b1 \" w0 \
b0 ( CLUO w2 'p w1 'p w2 w1 w32871 w0 w1 \"array[c[5]]$copy w0 w0 w0 )\n\
$ link L g p\n\
! object misfit: p\n\
= 31\n\
\tgives kept\0\
fields L CLUL w2 w0 w2 w0 'c \"c=cluster[type]is;copy:proc(c[5])returns(c[5])~where~#1~has~f:proctype()~ w0 b0 \
'p \"p=proc() w0 b1 \" w0 b0 ( CLUO w2 'p w1 'p w2 w1 w32871 w0 w1 \"struct[a:c[5],b:int]$copy w0 w0 w0 )\n\
$ link L g p\n\
! object misfit: p\n\
= 31\n\
\tgives kept\0\
fields L CLUL w2 w0 w2 w0 'c \"c=cluster[type]is;equal:proc(c[5],c[5])returns(bool) w0 b0 'p \"p=proc() w0 b1 \
\" w0 b0 ( CLUO w2 'p w1 'p w2 w1 w32871 w0 w1 \"sequence[array[c[5]]]$equal w0 w0 w0 )\n\
$ link L g p\n\
$ run L g\n\
\tgives kept\0\
fields L CLUL w2 w0 w3 w0 'c \"c=cluster[type]is;copy:proc(c[#1])returns(c[#1]) w0 b1 \" w0 b0 ( CLUO w2 'c w1 \
'copy w2 w1 w32871 w0 w1 \"#1$copy w0 w0 w0 ) 'd \"d=cluster[int]is;copy:proc(d[%1])returns(d[%1]) w0 b0 'p \
\"p=proc() w0 b1 \" w0 b0 ( CLUO w2 'p w1 'p w2 w1 w32871 w0 w1 \"array[c[d[int]]]$copy w0 w0 w0 )\n\
$ link L g p\n\
! object misfit: c\n\
= 31\n\
\tgives kept\0\
fields L CLUL w2 w0 w2 w0 'c \"c=proc() w0 b1 \" w0 b0 ( CLUO w2 'c w1 'c w2 w1 w32871 w0 w0 w0 w0 w0 ) 'p \
\"p=proc() w0 b1 \" w0 b0 ( CLUO w2 'p w1 'p w2 w1 w32871 w0 w1 \"array[c]$copy w0 w0 w0 )\n\
$ link L g p\n\
! object misfit: p\n\
= 31\n\
\tgives kept\0\
fields L CLUL w2 w0 w2 w0 'c \"c=clusteris;copy:proc(c)returns(c) w0 b1 \" w0 b0 ( CLUO w2 'c w1 'a w2 w1 \
w32871 w0 w0 w0 w0 w0 ) 'p \"p=proc() w0 b1 \" w0 b0 ( CLUO w2 'p w1 'p w2 w1 w32871 w0 w1 \"array[c]$copy w0 \
w0 w0 )\n\
$ link L g p\n\
! object misfit: c\n\
= 31\n\
\tgives kept\0\
fields L CLUL w2 w0 w2 w0 'c \"c=clusteris;copy:proc(c)returns(c) w0 b1 \" w0 b0 ( CLUO w2 'c w1 'copy w2 w1 \
w32871 w0 w0 w0 w0 w0 ) 'p \"p=proc() w0 b1 \" w0 b0 ( CLUO w2 'p w1 'p w2 w1 w32871 w0 w1 \"array[c]$copy w0 \
w0 w0 )\n\
$ link L g p\n\
$ run L g\n\
\tgives kept\0\
fields L CLUL w2 w0 w2 w0 'c \"c=clusteris;copy:proc(c)returns(c) w0 b0 'p \"p=proc() w0 b1 \" w0 b0 ( CLUO w2 \
'p w1 'p w2 w1 w32871 w0 w1 \"array[c]$copy w0 w0 w0 )\n\
$ link L g p\n\
! no body: c\n\
= 15\n\
\tgives kept\0\
fields L CLUL w2 w0 w1 w0 'p \"p=proc() w0 b1 \" w0 b0 ( CLUO w2 'p w1 'p w2 w1 w32871 w0 w5 \"int$add \
\"int$sub \"int$mul \"int$div \"int$mod w0 w0 w0 )\n\
$ link L g p\n\
$ run L g\n\
\tgives kept\0\
fields L CLUL w2 w0 w1 w0 'p \"p=proc() w0 b1 \" w0 b0 ( CLUO w2 'p w1 'p w2 w1 w32871 w0 w6 \"int$add \
\"int$sub \"int$mul \"int$div \"int$mod \"int$minus w0 w0 w0 )\n\
$ link L g p\n\
! object misfit: p\n\
= 31\n\
\tgives kept\0\
fields L CLUL w2 w0 w1 w0 'p \"p=proc() w0 b1 \" w0 b0 ( CLUO w2 'p w1 'p w2 w5 w32871 w19 w19 w19 w19 w0 w0 w0 \
w0 w4 w1 w1 w4294967295 w1 'e w0 w0 w2 w2 w4294967295 w1 'e w0 w0 w3 w3 w4294967295 w1 'e w0 w0 w4 w4 \
w4294967295 w1 'e w0 w0 )\n\
$ link L g p\n\
$ run L g\n\
\tgives kept\0\
fields L CLUL w2 w0 w1 w0 'p \"p=proc() w0 b1 \" w0 b0 ( CLUO w2 'p w1 'p w2 w6 w32871 w19 w19 w19 w19 w19 w0 \
w0 w0 w0 w5 w1 w1 w4294967295 w1 'e w0 w0 w2 w2 w4294967295 w1 'e w0 w0 w3 w3 w4294967295 w1 'e w0 w0 w4 w4 \
w4294967295 w1 'e w0 w0 w5 w5 w4294967295 w1 'e w0 w0 )\n\
$ link L g p\n\
! object misfit: p\n\
= 31\n\
\tgives kept\0\
fields L CLUL w2 w0 w1 w0 'p \"p=proc() w0 b1 \" w0 b0 ( CLUO w2 'p w1 'p w2 w39 w695 w164499 w695 w164499 w695 \
w164499 w695 w164499 w695 w164499 w695 w164499 w695 w164499 w695 w164499 w695 w164499 w695 w164499 w695 w164499 \
w695 w164499 w695 w164499 w695 w164499 w695 w164499 w695 w164499 w695 w164499 w695 w164499 w695 w164499 w32871 \
w19 w0 b3 w0 w2 b3 w1 w4 b3 w2 w6 b3 w3 w8 b3 w4 w10 b3 w5 w12 b3 w6 w14 b3 w7 w16 b3 w8 w18 b3 w9 w20 b3 w10 \
w22 b3 w11 w24 b3 w12 w26 b3 w13 w28 b3 w14 w30 b3 w15 w32 b3 w16 w34 b3 w17 w36 b3 w18 w0 w0 w0 w0 )\n\
$ link L g p\n\
$ run L g\n\
\tgives kept\0\
fields L CLUL w2 w0 w1 w0 'p \"p=proc() w0 b1 \" w0 b0 ( CLUO w2 'p w1 'p w2 w41 w695 w164499 w695 w164499 w695 \
w164499 w695 w164499 w695 w164499 w695 w164499 w695 w164499 w695 w164499 w695 w164499 w695 w164499 w695 w164499 \
w695 w164499 w695 w164499 w695 w164499 w695 w164499 w695 w164499 w695 w164499 w695 w164499 w695 w164499 w695 \
w164499 w32871 w20 w0 b3 w0 w2 b3 w1 w4 b3 w2 w6 b3 w3 w8 b3 w4 w10 b3 w5 w12 b3 w6 w14 b3 w7 w16 b3 w8 w18 b3 \
w9 w20 b3 w10 w22 b3 w11 w24 b3 w12 w26 b3 w13 w28 b3 w14 w30 b3 w15 w32 b3 w16 w34 b3 w17 w36 b3 w18 w38 b4 \
w19 w0 w0 w0 w0 )\n\
$ link L g p\n\
! object misfit: p\n\
= 31\n\
\tgives kept\0\
fields L CLUL w2 w0 w1 w0 'p \"p=proc() w0 b1 \" w0 b0 ( CLUO w2 'p w1 'p w400 w1001 w32871 ^1000^w19 ^w0 w0 w0 \
w0 w1000 ^1000^w! w! w4294967295 w1 'e w0 w0 ^)\n\
$ link L g p\n\
$ run L g\n\
\tgives kept\0\
fields L CLUL w2 w0 w1 w1 'p \"p=proc() w0 b1 \"p~=~proc~()~stream$putl(stream$primary_output(),~\"p\")~end~p \
w0 b0 ( CLUO w2 'p w1 'p w2 w1 w32871 w0 w0 w0 w0 w0 ) 'g 'p w1 'p ( CLUI w1 w0 w7 w8 w4196499 w66871 w33883411 \
w3147155 w115 w2195 w115 b104 b105 b10 b0 b0 b0 b0 b0 )\n\
$ run L g\n\
> hi\n\
$ run --steps 6 L g\n\
> hi\n\
! steps spent\n\
= 5\n\
\tgives kept\0\
fields L CLUL w2 w0 w1 w0 'p \"p=proc() w0 b1 \"p~=~proc~()~stream$putl(stream$primary_output(),~\"p\")~end~p \
w0 b1 w0 ( CLUO w2 'p w1 'p w2 w1 w32871 w0 w1 \"int$zork w0 w1 \"proctype() w0 )\n\
$ link L g p\n\
! object misfit: p\n\
= 31\n\
\tgives kept\0\
";
