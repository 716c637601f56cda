//! Texts of specifications, types and uses.

/// How many rows `SPECIFICATIONS` has besides comments.
pub const SPECIFICATIONS_COUNT: usize = 61;

/// Texts of specifications, which are written again as they were read, and texts that are none, with the length of the longest
/// front that begins one.
pub const SPECIFICATIONS: &str = "\
    tally=cluster[type] where #1 has equal:proctype(#1,#1)returns(bool) is;note:proc(#1,#1)returns(int)\tgives ok\0\
    p=proc()\tgives ok\0\
    p=iter[int,type](#2)yields(null,stream)signals(e,f(int,char))\tgives ok\0\
    q=proc[type](#1) where #1 has copy:proctype(#1)returns(#1),#1 has equal:any \tgives ok\0\
    c=clusteris;a:proc();b:iter()yields(c)\tgives ok\0\
    c=cluster[type,string,type] where #1 has f:#3,#3 has a:any is;x:proc(c[#1,%2,#3]) where #3 has g:any \
    ;y:proc()\tgives ok\0\
    r=proc(record[a:int,b:array[bool]],struct[x:c[1,-5,0,'0a,\"6869\",nil,true,false]])\tgives ok\0\
    r=iter(oneof[a:any],variant[t:sequence[char],u:int])\tgives ok\0\
    s=proc(proctype(itertype()yields(int)signals(e(int)))returns(any)signals(a,b))\tgives ok\0\
    int_=proc(stream,streams,_)\tgives ok\0\
    m=proc(a[\"\"],b[9223372036854775807],c[-9223372036854775808])\tgives ok\0\
    own1=proc[int,int,int,int,int,int,int,int,int,type](#10,c[%1,%9])\tgives ok\0\
    P=proc()\tgives 0\0\
    1a=proc()\tgives 0\0\
    proc=proc()\tgives 4\0\
    stream=proc()\tgives 6\0\
    p:proc()\tgives 1\0\
    p=prox()\tgives 5\0\
    p=proc[]()\tgives 7\0\
    p=proc[real]()\tgives 7\0\
    p=proc[typo]()\tgives 10\0\
    p=proc(#1)\tgives 7\0\
    p=proc[int](#1)\tgives 12\0\
    p=proc[type](#2)\tgives 14\0\
    p=proc[type](%1)\tgives 13\0\
    p=proc[type](c[%1])\tgives 15\0\
    p=proc(int,)\tgives 11\0\
    p=proc()yields(int)\tgives 8\0\
    p=iter()returns(int)\tgives 8\0\
    p=proc()signals(failure)\tgives 23\0\
    p=proc()signals(b,a)\tgives 18\0\
    p=proc()signals(b,b)\tgives 19\0\
    p=proc(record[a:int,a:int])\tgives 21\0\
    p=proc(record[])\tgives 14\0\
    p=proc(c[])\tgives 9\0\
    p=proc() \tgives 8\0\
    p=proc() where #1 has f:any \tgives 8\0\
    p=proc[type]() where #1 has f:any\tgives 33\0\
    p=proc[type]() where #1 has g:any,#1 has f:any \tgives 41\0\
    p=proc[type,type]() where #2 has g:any,#1 has g:any \tgives 40\0\
    c=cluster\tgives 9\0\
    c=clusteris\tgives 11\0\
    c=clusteris;\tgives 12\0\
    c=clusteris;b:proc();a:proc()\tgives 21\0\
    c=clusteris;b:proc();b:proc()\tgives 22\0\
    p=proc(c[01])\tgives 10\0\
    p=proc(c[-0])\tgives 10\0\
    p=proc(c[9223372036854775808])\tgives 27\0\
    p=proc(c[-9223372036854775809])\tgives 28\0\
    p=proc(c['0A])\tgives 11\0\
    p=proc(c[\"0\"])\tgives 11\0\
    p=proc()x\tgives 8\0\
    p=proc(type)\tgives 11\0\
    p=proc(array(int))\tgives 12\0\
    p=proc(stream[int])\tgives 13\0\
    p=proc()returns()\tgives 16\0\
    p=proc[int,int,int,int,int,int,int,int,int,type](#1)\tgives 51\0\
    p=proc[int,int,int,int,int,int,int,int,int,type](#2)\tgives 50\0\
    p=proc[int,int,int,int,int,int,int,int,int,type](#100)\tgives 52\0\
    a^199^a^=proc()\tgives ok\0\
    aa^199^a^=proc()\tgives 200\0\
";

/// How many rows `TYPES` has besides comments.
pub const TYPES_COUNT: usize = 54;

/// The same of types.
pub const TYPES: &str = "\
    array[#4294967295]\tgives ok\0\
    \tgives 0\0\
    #\tgives 1\0\
    #0\tgives 1\0\
    #01\tgives 1\0\
    #4294967296\tgives 10\0\
    nil\tgives 3\0\
    real\tgives 4\0\
    int,\tgives 3\0\
    array[int\tgives 9\0\
    %1\tgives 0\0\
    proctype\tgives 8\0\
    record[b:int,a:int]\tgives 13\0\
    record[z^199^z^:int,a:int]\tgives 211\0\
    record[y^199^z^:int,yz:int]\tgives 212\0\
    % Types that nest deep; each without its last byte, and with a reserved word in the place of the innermost type.\0\
    ^30000^array[^int^30000^]^\tgives ok\0\
    ^30000^array[^int^29999^]^\tgives 210002\0\
    ^30000^array[^real^30000^]^\tgives 180004\0\
    ^10000^sequence[^int^10000^]^\tgives ok\0\
    ^10000^sequence[^int^9999^]^\tgives 100002\0\
    ^10000^sequence[^real^10000^]^\tgives 90004\0\
    ^10000^record[a:^int^10000^]^\tgives ok\0\
    ^10000^record[a:^int^9999^]^\tgives 100002\0\
    ^10000^record[a:^real^10000^]^\tgives 90004\0\
    ^10000^oneof[a:int,b:^int^10000^,c:null]^\tgives ok\0\
    ^10000^oneof[a:int,b:^int^9999^,c:null]^,c:null\tgives 220002\0\
    ^10000^oneof[a:int,b:^real^10000^,c:null]^\tgives 140004\0\
    ^10000^proctype(^int^10000^)^\tgives ok\0\
    ^10000^proctype(^int^9999^)^\tgives 100002\0\
    ^10000^proctype(^real^10000^)^\tgives 90004\0\
    ^10000^proctype(int,^int^10000^,bool)returns(any)signals(a,b(int))^\tgives ok\0\
    ^10000^proctype(int,^int^9999^,bool)returns(any)signals(a,b(int))^,bool)returns(any)signals(a,b(int)\tgives \
    480002\0\
    ^10000^proctype(int,^real^10000^,bool)returns(any)signals(a,b(int))^\tgives 130004\0\
    ^10000^itertype()yields(^int^10000^)^\tgives ok\0\
    ^10000^itertype()yields(^int^9999^)^\tgives 180002\0\
    ^10000^itertype()yields(^real^10000^)^\tgives 170004\0\
    ^10000^proctype()returns(int,^int^10000^)signals(a)^\tgives ok\0\
    ^10000^proctype()returns(int,^int^9999^)signals(a)^)signals(a\tgives 330002\0\
    ^10000^proctype()returns(int,^real^10000^)signals(a)^\tgives 220004\0\
    ^10000^itertype()signals(a,b(^int^10000^))^\tgives ok\0\
    ^10000^itertype()signals(a,b(^int^9999^))^)\tgives 240002\0\
    ^10000^itertype()signals(a,b(^real^10000^))^\tgives 220004\0\
    ^10000^proctype()signals(a(int,^int^10000^,any),b)^\tgives ok\0\
    ^10000^proctype()signals(a(int,^int^9999^,any),b)^,any),b\tgives 320002\0\
    ^10000^proctype()signals(a(int,^real^10000^,any),b)^\tgives 240004\0\
    ^10000^c[^int^10000^]^\tgives ok\0\
    ^10000^c[^int^9999^]^\tgives 30002\0\
    ^10000^c[^real^10000^]^\tgives 20004\0\
    ^10000^c[1,'0a,true,^int^10000^,\"61\",d[nil]]^\tgives ok\0\
    ^10000^c[1,'0a,true,^int^9999^,\"61\",d[nil]]^,\"61\",d[nil]\tgives 260002\0\
    ^10000^c[1,'0a,true,^real^10000^,\"61\",d[nil]]^\tgives 130004\0\
    ^10000^array[record[a:c[proctype(int)returns(^int^10000^)]]]^\tgives ok\0\
    ^10000^array[record[a:c[proctype(int)returns(^int^9999^)]]]^)]]\tgives 420002\0\
    ^10000^array[record[a:c[proctype(int)returns(^real^10000^)]]]^\tgives 380004\0\
";

/// How many rows `USES` has besides comments.
pub const USES_COUNT: usize = 18;

/// The same of uses.
pub const USES: &str = "\
    m\tgives ok\0\
    m[int,%4294967295,'ff]\tgives ok\0\
    int$add\tgives ok\0\
    stream$getl\tgives ok\0\
    array[#1]$fetch\tgives ok\0\
    record[a:int]$get_a\tgives ok\0\
    c[int]$own\tgives ok\0\
    #3$force\tgives ok\0\
    own_[1]$x\tgives ok\0\
    int\tgives 3\0\
    stream\tgives 6\0\
    m$own \tgives 5\0\
    m$if\tgives 4\0\
    m$1\tgives 2\0\
    $x\tgives 0\0\
    own$x\tgives 3\0\
    m$aaaaa^199^a^\tgives ok\0\
    m$aaaaaa^199^a^\tgives 206\0\
";

/// How many rows `INCLUSIONS` has besides comments.
pub const INCLUSIONS_COUNT: usize = 14;

/// Two types, and whether the first is included in the second.
pub const INCLUSIONS: &str = "\
    proctype() proctype()signals(e)\tgives yes\0\
    proctype()signals(e) proctype()\tgives no\0\
    proctype()signals(e) proctype()signals(e,f)\tgives yes\0\
    proctype()signals(e,f) proctype()signals(e)\tgives no\0\
    proctype()signals(b,d) proctype()signals(a,b,c,d,e)\tgives yes\0\
    proctype()signals(b,d,f) proctype()signals(a,b,c,d,e)\tgives no\0\
    proctype()signals(b(int)) proctype()signals(a,b,b2)\tgives no\0\
    proctype() proctype()\tgives yes\0\
    proctype()signals(e,f) any\tgives yes\0\
    any any\tgives yes\0\
    any proctype()\tgives no\0\
    proctype() itertype()\tgives no\0\
    itertype()yields(int) itertype()yields(int)signals(e(int))\tgives yes\0\
    itertype()yields(int) itertype()yields(char)signals(e(int))\tgives no\0\
";

/// How many rows `SUBSTITUTIONS` has besides comments.
pub const SUBSTITUTIONS_COUNT: usize = 6;

/// A type, a use, and the type with the actual parameters of the use put in.
pub const SUBSTITUTIONS: &str = "\
    struct[x:#2,y:#2] m[5,char]\tgives struct[x:char,y:char]\0\
    #2 m\tgives #2\0\
    #1 m[5,char]\tgives #1\0\
    c[%1,array[#2]] m[5,char]\tgives c[5,array[char]]\0\
    c[%1] m[%3]\tgives c[%3]\0\
    ^10000^array[^#1^10000^]^ c[int]\tgives ^10000^array[^int^10000^]^\0\
";

/// How many rows `CARRIED` has besides comments.
pub const CARRIED_COUNT: usize = 5;

/// The same, of a type that is read in an arena of its own.
pub const CARRIED: &str = "\
    struct[x:#2,y:#2] m\tgives struct[x:#2,y:#2]\0\
    #2 m\tgives #2\0\
    struct[x:#2,y:#2] m[5,char]\tgives struct[x:char,y:char]\0\
    c[%1,array[#2]] m[5,char]\tgives c[5,array[char]]\0\
    ^10000^array[^#1^10000^]^ c[int]\tgives ^10000^array[^int^10000^]^\0\
";

/// How many rows `HEADINGS` has besides comments.
pub const HEADINGS_COUNT: usize = 14;

/// A type and a name, with the type of the built-in operation, or `none`.
pub const HEADINGS: &str = "\
    int add\tgives proctype(int,int)returns(int)signals(overflow)\0\
    int div\tgives proctype(int,int)returns(int)signals(overflow,zero_divide)\0\
    int from_to_by\tgives itertype(int,int,int)yields(int)\0\
    array[int] set_low\tgives proctype(array[int],int)\0\
    array[int] similar\tgives proctype(array[int],array[int])returns(bool)\0\
    struct[x:int,y:array[int]] get_x\tgives proctype(struct[x:int,y:array[int]])returns(int)\0\
    struct[x:int,y:array[int]] replace_y\tgives \
    proctype(struct[x:int,y:array[int]],array[int])returns(struct[x:int,y:array[int]])\0\
    struct[x:int,y:array[int]] copy\tgives proctype(struct[x:int,y:array[int]])returns(struct[x:int,y:array[int]])\0\
    stream getc\tgives proctype(stream)returns(char)signals(end_of_file,not_possible(string))\0\
    int concat\tgives none\0\
    any equal\tgives none\0\
    #1 copy\tgives none\0\
    array[int] get_x\tgives none\0\
    int \tgives none\0\
";
