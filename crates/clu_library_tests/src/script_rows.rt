//! Scripts over libraries.

/// How many rows `SCRIPTS` has besides comments.
pub const SCRIPTS_COUNT: usize = 21;

/// Lines with a step, and after a tab what comes of it.
pub const SCRIPTS: &str = "\
    % A body is stale by what was replaced after it was checked; what is entered again is not.\0\
    s q=proc()\tok\ns p=proc()\tok\nb p q\tok\nb q\tok\np g p q\tok\nw\t0 p 0 0,q 0 0,g\nr q=proc(int)\ttrue\nw\t1 p \
    0 0,q 1,\nt p\tq 1 0\nt q\t-\nt x\t-\nr q=proc()\ttrue\nw\t2 p 0 0,q 2,\nt p\tq 2 0\nb p q\tok\nt p\t-\nr \
    q=proc()\tfalse\nw\t2 p 0 2,q 2,\ns q=proc(int)\tdiffers\nw\t2 p 0 2,q 2,\n\tgives kept\0\
    % It rests on what the specifications of the modules that it names name. Programs go with their stale bodies.\0\
    s s=clusteris;m:proc()\tok\ns q=proc(array[s])\tok\ns p=proc()\tok\ns r=proc()\tok\nb p q\tok\nb r\tok\np g \
    p\tok\np h r\tok\np f p r\tok\nr s=clusteris;m:proc(int)\ttrue\nt p\ts 1 0\nt r\t-\nw\t1 p 0 0,q 0,r 0 0,s \
    1,h\n\tgives kept\0\
    % Its own module is left out, and what it rests on is not led through its specification.\0\
    s q=clusteris;m:proc()\tok\ns p=clusteris;m:proc(q)\tok\ns r=proc(p)\tok\nb p r\tok\nb r p q\tok\np g p\tok\np h \
    r\tok\nr q=clusteris;m:proc(int)\ttrue\nt p\t-\nt r\tq 1 0\nw\t1 p 0 0,q 1,r 0 0,g\n\tgives kept\0\
    % Names that are all stand for every other module.\0\
    s p=proc()\tok\ns q=proc()\tok\nb p *\tok\np g p\tok\nr q=proc(int)\ttrue\nt p\tq 1 0\nw\t1 p 0 0,q 1,\nr \
    p=proc(int)\ttrue\nw\t2 p 2,q 1,\nb p *\tok\nt p\t-\ns a=proc()\tok\nt p\t-\n\tgives kept\0\
    % The least name, and its own number.\0\
    s a=proc()\tok\ns b=proc()\tok\ns p=proc()\tok\nb p a b\tok\nr b=proc(int)\ttrue\nt p\tb 1 0\nr \
    a=proc(int)\ttrue\nt p\ta 2 0\nb p a b\tok\nt p\t-\nr b=proc()\ttrue\nt p\tb 3 2\nw\t3 a 2,b 3,p 0 2,\n\tgives \
    kept\0\
    % A new specification and an equal one take no program away, nor does a change that no body of it rests on.\0\
    s p=proc()\tok\nb p\tok\np g p\tok\nr q=proc()\ttrue\nr q=proc()\tfalse\nw\t0 p 0 0,q 0,g\nr \
    q=proc(int)\ttrue\nw\t1 p 0 0,q 1,g\nr p=proc(int)\ttrue\nw\t2 p 2,q 1,\n\tgives kept\0\
    % In a circle of specifications.\0\
    s a=clusteris;m:proc(b)\tok\ns b=clusteris;m:proc(a)\tok\ns c=clusteris;m:proc(a)\tok\nb a b\tok\nb c b\tok\np g \
    a\tok\np h c\tok\nr b=clusteris;m:proc(a,int)\ttrue\nt a\tb 1 0\nt c\tb 1 0\nw\t1 a 0 0,b 1,c 0 0,\n\tgives kept\0\
    % Along a chain, from where a specification was replaced.\0\
    s a=clusteris;m:proc()\tok\ns b=clusteris;m:proc(a)\tok\ns c=clusteris;m:proc(b)\tok\ns \
    d=clusteris;m:proc(c)\tok\nb a\tok\nb b a\tok\nb c b\tok\nb d c\tok\np g b\tok\np h c d\tok\np f a\tok\nr \
    b=clusteris;m:proc(a,int)\ttrue\nt a\t-\nt c\tb 1 0\nt d\tb 1 0\nw\t1 a 0 0,b 1,c 0 0,d 0 0,f\nb b a\tok\nb c \
    b\tok\np g b c\tok\nr a=clusteris;m:proc(int)\ttrue\nt d\ta 2 0\nw\t2 a 2,b 1 1,c 0 1,d 0 0,\n\tgives kept\0\
    % What a file keeps counts as it stands there: a body that was stale before, and a program with it.\0\
    f CLUL w2 w5 w2 w1 'p \"p=proc() w0 b1 \"t w3 b1 w1 'q ( CLUO w2 'p w0 ) 'q \"q=proc() w4 b0 'g 'p w1 'p ( CLUI \
    w2 w0 w1 w0 w0 w115 )\tok\nt p\tq 4 3\ns r=proc()\tok\nw\t5 p 0 3,q 4,r 0,g\nr r=proc(int)\ttrue\nw\t6 p 0 3,q \
    4,r 6,\n\tgives kept\0\
    % The last revision, and the last module.\0\
    f CLUL w2 w4294967295 w1 w0 'q \"q=proc() w7 b1 \"t w4294967295 b0 ( CLUO w2 'q w0 )\tok\nr q=proc(int)\tfull\nr \
    q=proc()\tfalse\nr p=proc()\ttrue\nw\t4294967295 p 0,q 7 4294967295,\n\tgives kept\0\
    ^4096^s m?=proc()\tok\n^u\t-\ns m4095=proc()\tok\ns a=proc()\tfull\nr a=proc()\tfull\nr \
    m7=proc(int)\ttrue\n\tgives kept\0\
    % Types of clusters that are kept, of their kinds.\0\
    s s=cluster[type]is;make:proc()returns(s[#1])\tok\ns u=proc(s[int])\tok\nu\t-\nr \
    s=clusteris;make:proc()returns(s)\ttrue\nu\tu\nu s\tu\nu s u\t-\n\tgives kept\0\
    s u=proc(zork)\tok\ns t=proc(record[a:array[u]])\tok\nu\tt\nu t\tu\nu t u\t-\ns q=proc()\tok\ns \
    a=proc()signals(e(q))\tok\nu t u\ta\n\tgives kept\0\
    s s=cluster[type,int]is;m:proc()\tok\ns a=proc(s[int,3])\tok\ns b=proc[int](s[int,%1])\tok\nu\t-\ns \
    c=proc(s[3,int])\tok\nu\tc\ns d=proc[char](s[int,%1])\tok\nu c\td\ns e=proc(s[int])\tok\nu c d\te\ns \
    f=proc(s[int,\"00\"])\tok\nu c d e\tf\n\tgives kept\0\
    % Actual parameters that meet what is demanded.\0\
    s s=cluster[type] where #1 has f:proctype(#1) is;m:proc()\tok\ns c=clusteris;f:proc(c)\tok\ns \
    u=proc(s[c])\tok\nu\t-\nr c=clusteris;g:proc(c)\ttrue\nu\tu\nr c=clusteris;f:proc(c)signals(e)\ttrue\nu\tu\nr \
    c=clusteris;f:proc(c)\ttrue\nu\t-\ns v=proc(s[int])\tok\nu\tv\n\tgives kept\0\
    s s=cluster[type] where #1 has equal:proctype(#1,#1)returns(bool) is;m:proc()\tok\ns \
    a=proc(s[int],s[array[s[char]]])\tok\nu\t-\ns b=proc(s[any])\tok\nu\tb\n\tgives kept\0\
    s s=cluster[type] where #1 has f:proctype(#1) is;m:proc()\tok\ns a=proc[type](s[#1]) where #1 has f:proctype(#1) \
    \tok\nu\t-\ns b=proc[type](s[#1])\tok\nu\tb\ns c=cluster[type]is;m:proc(s[#1]) where #1 has f:proctype(#1) \
    ;n:proc()\tok\nu b\t-\ns d=cluster[type]is;m:proc() where #1 has f:proctype(#1) ;n:proc(s[#1])\tok\nu b\td\ns \
    e=cluster[type] where #1 has f:proctype(#1) is;n:proc(s[#1])\tok\nu b d\t-\ns f=cluster[type] where #1 has \
    g:proctype(s[#1]) is;n:proc()\tok\nu b d\tf\n\tgives kept\0\
    s s=cluster[type] where #1 has f:proctype(int) is;m:proc()\tok\ns c=clusteris;f:proc(int)\tok\ns \
    a=proc(array[record[x:sequence[s[c]]]])\tok\nu\t-\ns b=proc(oneof[x:struct[y:itertype(s[int])]])\tok\nu\tb\ns \
    d=proc(s[s[c]])\tok\nu b\td\ns k=cluster[type] where #1 has f:proctype(int) is;m:proc(s[#1]) where #1 has \
    f:proctype() \tok\nu b d\t-\ns l=cluster[type] where #1 has f:proctype(int) is;m:proc(s[#1]) where #1 has \
    g:proctype() \tok\nu b d\t-\n\tgives kept\0\
    % Of two where clauses on one operation one is enough.\0\
    s e=cluster[type] where #1 has add:proctype(int) is;m:proc()\tok\ns k=cluster[type] where #1 has \
    add:proctype(int) is;m:proc(e[#1]) where #1 has add:proctype() \tok\nu\t-\nr k=cluster[type] where #1 has \
    add:proctype(any) is;m:proc(e[#1]) where #1 has add:proctype() \ttrue\nu\tk\n\tgives kept\0\
    % A specification enters once, and a body takes away the programs of its module.\0\
    s q=proc()\tok\ns p=proc()\tok\ns q=proc()\tok\ns q=iter()\tdiffers\nw\t0 p 0,q 0,\n\tgives kept\0\
    s p=proc()\tok\np f p\tok\np g q\tok\nb p\tok\nw\t0 p 0 0,g\n\tgives kept\0\
";
