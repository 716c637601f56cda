//! Scripts of what the linker refuses.

/// How many rows `LINKS` has besides comments.
pub const LINKS_COUNT: usize = 40;

/// Scripts in which bodies are linked. In each `p` has a string and these uses, `q` has no body, and `i` is an iterator.
pub const LINKS: &str = "\
    % What `p` uses and what `g` uses, which has a type and an int as parameters, the constant of `g`, and a type \
    that it names.\0\
    s p=proc()\tok\ns q=proc()\tok\ns i=iter()\tok\no p CLUO w2 'p w1 'p w9 w3 w695 w164499 w32871 w1 w0 b1 w0 w1 \
    \"g[string,5] w1 b4 \"ninebytes w2 \"proctype() \"any w0\tok\ns g=proc[type,int]()\tok\no g CLUO w2 'g w1 'g w9 \
    w3 w695 w164499 w32871 w1 w0 b1 w0 w1 \"#1$size w1 b5 w2 w2 \"proctype() \"array[#1] w0\tok\nl \
    p\tlinked\n\tgives kept\0\
    s p=proc()\tok\ns q=proc()\tok\ns i=iter()\tok\no p CLUO w2 'p w1 'p w9 w3 w695 w164499 w32871 w1 w0 b1 w0 w1 \
    \"g[int,5] w1 b4 \"ninebytes w2 \"proctype() \"any w0\tok\ns g=proc[type,int]()\tok\no g CLUO w2 'g w1 'g w9 w3 \
    w695 w164499 w32871 w1 w0 b1 w0 w1 \"#1$size w1 b5 w2 w2 \"proctype() \"#1 w0\tok\nl p\tmisfit g\n\tgives kept\0\
    s p=proc()\tok\ns q=proc()\tok\ns i=iter()\tok\no p CLUO w2 'p w1 'p w9 w3 w695 w164499 w32871 w1 w0 b1 w0 w1 \
    \"g[int,5] w1 b4 \"ninebytes w2 \"proctype() \"any w0\tok\ns g=proc[type,int]()\tok\no g CLUO w2 'g w1 'g w9 w3 \
    w695 w164499 w32871 w1 w0 b1 w0 w1 \"g[#1,%2] w1 b5 w2 w2 \"proctype() \"#1 w0\tok\nl p\tlinked\n\tgives kept\0\
    s p=proc()\tok\ns q=proc()\tok\ns i=iter()\tok\no p CLUO w2 'p w1 'p w9 w3 w695 w164499 w32871 w1 w0 b1 w0 w1 \
    \"g[int,5] w1 b4 \"ninebytes w2 \"proctype() \"any w0\tok\ns g=proc[type,int]()\tok\no g CLUO w2 'g w1 'g w9 w3 \
    w695 w164499 w32871 w1 w0 b1 w0 w1 \"g[string,6] w1 b5 w2 w2 \"proctype() \"#1 w0\tok\nl p\tlinked\n\tgives kept\0\
    s p=proc()\tok\ns q=proc()\tok\ns i=iter()\tok\no p CLUO w2 'p w1 'p w9 w3 w695 w164499 w32871 w1 w0 b1 w0 w1 \
    \"g[int,5] w1 b4 \"ninebytes w2 \"proctype() \"any w0\tok\ns g=proc[type,int]()\tok\no g CLUO w2 'g w1 'g w9 w3 \
    w695 w164499 w32871 w1 w0 b1 w0 w1 \"g[array[#1],%2] w1 b5 w2 w2 \"proctype() \"#1 w0\tok\nl p\ttoo many \
    instances\n\tgives kept\0\
    s p=proc()\tok\ns q=proc()\tok\ns i=iter()\tok\no p CLUO w2 'p w1 'p w9 w3 w695 w164499 w32871 w1 w0 b1 w0 w1 \
    \"g[int,5] w1 b4 \"ninebytes w2 \"proctype() \"any w0\tok\ns g=proc[type,int]()\tok\no g CLUO w2 'g w1 'g w9 w3 \
    w695 w164499 w32871 w1 w0 b1 w0 w1 \"g[#1,%1] w1 b5 w2 w2 \"proctype() \"#1 w0\tok\nl p\tmisfit g\n\tgives kept\0\
    s p=proc()\tok\ns q=proc()\tok\ns i=iter()\tok\no p CLUO w2 'p w1 'p w9 w3 w695 w164499 w32871 w1 w0 b1 w0 w1 \
    \"g[int,5] w1 b4 \"ninebytes w2 \"proctype() \"any w0\tok\ns g=proc[type,int]()\tok\no g CLUO w2 'g w1 'g w9 w3 \
    w695 w164499 w32871 w1 w0 b1 w0 w1 \"g[#2,%2] w1 b5 w2 w2 \"proctype() \"#1 w0\tok\nl p\tmisfit g\n\tgives kept\0\
    s p=proc()\tok\ns q=proc()\tok\ns i=iter()\tok\no p CLUO w2 'p w1 'p w9 w3 w695 w164499 w32871 w1 w0 b1 w0 w1 \
    \"g[int,5] w1 b4 \"ninebytes w2 \"proctype() \"any w0\tok\ns g=proc[type,int]()\tok\no g CLUO w2 'g w1 'g w9 w3 \
    w695 w164499 w32871 w1 w0 b1 w0 w1 \"g[#3,%2] w1 b5 w2 w2 \"proctype() \"#1 w0\tok\nl p\tmisfit g\n\tgives kept\0\
    s p=proc()\tok\ns q=proc()\tok\ns i=iter()\tok\no p CLUO w2 'p w1 'p w9 w3 w695 w164499 w32871 w1 w0 b1 w0 w1 \
    \"g[int,5] w1 b4 \"ninebytes w2 \"proctype() \"any w0\tok\ns g=proc[type,int]()\tok\no g CLUO w2 'g w1 'g w9 w3 \
    w695 w164499 w32871 w1 w0 b1 w0 w1 \"#1$force w1 b5 w1 w2 \"proctype() \"#1 w0\tok\nl p\tmisfit g\n\tgives kept\0\
    s p=proc()\tok\ns q=proc()\tok\ns i=iter()\tok\no p CLUO w2 'p w1 'p w9 w3 w695 w164499 w32871 w1 w0 b1 w0 w1 \
    \"g[int,5] w1 b4 \"ninebytes w2 \"proctype() \"any w0\tok\ns g=proc[type,int]()\tok\no g CLUO w2 'g w1 'g w9 w3 \
    w695 w164499 w32871 w1 w0 b1 w0 w1 \"#1$force w1 b5 w3 w2 \"proctype() \"#1 w0\tok\nl p\tmisfit g\n\tgives kept\0\
    s p=proc()\tok\ns q=proc()\tok\ns i=iter()\tok\no p CLUO w2 'p w1 'p w9 w3 w695 w164499 w32871 w1 w0 b1 w0 w1 \
    \"g[int,5] w1 b4 \"ninebytes w2 \"proctype() \"any w0\tok\ns g=proc[type,int]()\tok\no g CLUO w2 'g w1 'g w9 w3 \
    w695 w164499 w32871 w1 w0 b1 w0 w1 \"#1$force w1 b5 w2 w2 \"proctype() \"record[a:#2] w0\tok\nl p\tmisfit \
    g\n\tgives kept\0\
    s p=proc()\tok\ns q=proc()\tok\ns i=iter()\tok\no p CLUO w2 'p w1 'p w9 w3 w695 w164499 w32871 w1 w0 b1 w0 w1 \
    \"g[int,5] w1 b4 \"ninebytes w2 \"proctype() \"any w0\tok\ns g=proc[type,int]()\tok\no g CLUO w2 'g w1 'g w9 w3 \
    w695 w164499 w32871 w1 w0 b1 w0 w1 \"#1$force w1 b5 w2 w2 \"proctype() \"c[#1,%2] w0\tok\nl p\tlinked\n\tgives \
    kept\0\
    s p=proc()\tok\ns q=proc()\tok\ns i=iter()\tok\no p CLUO w2 'p w1 'p w9 w3 w695 w164499 w32871 w1 w0 b1 w0 w1 \
    \"g[int,5] w1 b4 \"ninebytes w2 \"proctype() \"any w0\tok\ns g=proc[type,int]()\tok\no g CLUO w2 'g w1 'g w9 w3 \
    w695 w164499 w32871 w1 w0 b1 w0 w1 \"#1$force w1 b5 w2 w2 \"proctype() \"c[%1] w0\tok\nl p\tmisfit g\n\tgives \
    kept\0\
    s p=proc()\tok\ns q=proc()\tok\ns i=iter()\tok\no p CLUO w2 'p w1 'p w9 w3 w695 w164499 w32871 w1 w0 b1 w0 w1 \
    \"g[int,5] w1 b4 \"ninebytes w2 \"proctype() \"any w0\tok\ns g=proc[type,int]()\tok\no g CLUO w2 'g w1 'g w9 w3 \
    w695 w164499 w32871 w1 w0 b1 w0 w1 \"array[#1]$similar w1 b5 w2 w2 \"proctype() \"#1 w0\tok\nl \
    p\tlinked\n\tgives kept\0\
    s p=proc()\tok\ns q=proc()\tok\ns i=iter()\tok\no p CLUO w2 'p w1 'p w9 w3 w695 w164499 w32871 w1 w0 b1 w0 w1 \
    \"g[any,5] w1 b4 \"ninebytes w2 \"proctype() \"any w0\tok\ns g=proc[type,int]()\tok\no g CLUO w2 'g w1 'g w9 w3 \
    w695 w164499 w32871 w1 w0 b1 w0 w1 \"array[#1]$similar w1 b5 w2 w2 \"proctype() \"#1 w0\tok\nl p\tmisfit \
    g\n\tgives kept\0\
    s p=proc()\tok\ns q=proc()\tok\ns i=iter()\tok\no p CLUO w2 'p w1 'p w9 w3 w695 w164499 w32871 w1 w0 b1 w0 w1 \
    \"g[any,5] w1 b4 \"ninebytes w2 \"proctype() \"any w0\tok\ns g=proc[type,int]()\tok\no g CLUO w2 'g w1 'g w9 w3 \
    w695 w164499 w32871 w1 w0 b1 w0 w1 \"struct[a:int,b:#1]$equal w1 b5 w2 w2 \"proctype() \"#1 w0\tok\nl p\tmisfit \
    g\n\tgives kept\0\
    s p=proc()\tok\ns q=proc()\tok\ns i=iter()\tok\no p CLUO w2 'p w1 'p w9 w3 w695 w164499 w32871 w1 w0 b1 w0 w1 \
    \"g[char,5] w1 b4 \"ninebytes w2 \"proctype() \"any w0\tok\ns g=proc[type,int]()\tok\no g CLUO w2 'g w1 'g w9 w3 \
    w695 w164499 w32871 w1 w0 b1 w0 w1 \"struct[a:int,b:#1]$equal w1 b5 w2 w2 \"proctype() \"#1 w0\tok\nl \
    p\tlinked\n\tgives kept\0\
    s p=proc()\tok\ns q=proc()\tok\ns i=iter()\tok\no p CLUO w2 'p w1 'p w9 w3 w695 w164499 w32871 w1 w0 b1 w0 w1 \
    \"g w1 b4 \"ninebytes w2 \"proctype() \"any w0\tok\ns g=proc[type,int]()\tok\no g CLUO w2 'g w1 'g w9 w3 w695 \
    w164499 w32871 w1 w0 b1 w0 w1 \"#1$force w1 b5 w2 w2 \"proctype() \"#1 w0\tok\nl p\tmisfit p\n\tgives kept\0\
    s p=proc()\tok\ns q=proc()\tok\ns i=iter()\tok\no p CLUO w2 'p w1 'p w9 w3 w695 w164499 w32871 w1 w0 b1 w0 w1 \
    \"g[int] w1 b4 \"ninebytes w2 \"proctype() \"any w0\tok\ns g=proc[type,int]()\tok\no g CLUO w2 'g w1 'g w9 w3 \
    w695 w164499 w32871 w1 w0 b1 w0 w1 \"#1$force w1 b5 w2 w2 \"proctype() \"#1 w0\tok\nl p\tmisfit p\n\tgives kept\0\
    s p=proc()\tok\ns q=proc()\tok\ns i=iter()\tok\no p CLUO w2 'p w1 'p w9 w3 w695 w164499 w32871 w1 w0 b1 w0 w1 \
    \"g[5,int] w1 b4 \"ninebytes w2 \"proctype() \"any w0\tok\ns g=proc[type,int]()\tok\no g CLUO w2 'g w1 'g w9 w3 \
    w695 w164499 w32871 w1 w0 b1 w0 w1 \"#1$force w1 b5 w2 w2 \"proctype() \"#1 w0\tok\nl p\tmisfit p\n\tgives kept\0\
    s p=proc()\tok\ns q=proc()\tok\ns i=iter()\tok\no p CLUO w2 'p w1 'p w9 w3 w695 w164499 w32871 w1 w0 b1 w0 w1 \
    \"g[int,nil] w1 b4 \"ninebytes w2 \"proctype() \"any w0\tok\ns g=proc[type,int]()\tok\no g CLUO w2 'g w1 'g w9 \
    w3 w695 w164499 w32871 w1 w0 b1 w0 w1 \"#1$force w1 b5 w2 w2 \"proctype() \"#1 w0\tok\nl p\tmisfit p\n\tgives \
    kept\0\
    % The nodes of `g` and `h`, which `p` and `g` use with the same parameters, and their uses. Neither `q` nor `r` \
    has a body. What is used first comes before what its uses use; more than 4,096 instances before one without a \
    body, that before a misfit, and that before too much weight.\0\
    s p=proc()\tok\ns q=proc()\tok\ns i=iter()\tok\no p CLUO w2 'p w1 'p w9 w3 w695 w164499 w32871 w1 w0 b1 w0 w1 \
    \"g[int,1] w1 b4 \"ninebytes w2 \"proctype() \"any w0\tok\ns r=proc()\tok\ns g=proc[type,int]()\tok\no g CLUO w2 \
    'g w1 'g w9 w3 w695 w164499 w32871 w1 w0 b1 w0 w2 \"h[#1,%2] \"q w1 b5 w2 w2 \"proctype() \"#1 w0\tok\ns \
    h=proc[type,int]()\tok\no h CLUO w2 'h w1 'h w9 w3 w695 w164499 w32871 w1 w0 b1 w0 w1 \"r w1 b5 w2 w2 \
    \"proctype() \"#1 w0\tok\nl p\tno body q\n\tgives kept\0\
    s p=proc()\tok\ns q=proc()\tok\ns i=iter()\tok\no p CLUO w2 'p w1 'p w9 w3 w695 w164499 w32871 w1 w0 b1 w0 w1 \
    \"g[int,1] w1 b4 \"ninebytes w2 \"proctype() \"any w0\tok\ns r=proc()\tok\ns g=proc[type,int]()\tok\no g CLUO w2 \
    'g w1 'g w9 w3 w695 w164499 w32871 w1 w0 b1 w0 w1 \"h[#1,%2] w1 b5 w2 w2 \"proctype() \"#1 w0\tok\ns \
    h=proc[type,int]()\tok\no h CLUO w2 'h w1 'h w9 w3 w695 w164499 w32871 w1 w0 b1 w0 w2 \"r \"q w1 b5 w2 w2 \
    \"proctype() \"#1 w0\tok\nl p\tno body r\n\tgives kept\0\
    s p=proc()\tok\ns q=proc()\tok\ns i=iter()\tok\no p CLUO w2 'p w1 'p w9 w3 w695 w164499 w32871 w1 w0 b1 w0 w1 \
    \"g[int,1] w1 b4 \"ninebytes w2 \"proctype() \"any w0\tok\ns r=proc()\tok\ns g=proc[type,int]()\tok\no g CLUO w2 \
    'g w1 'g w9 w3 w695 w164499 w32871 w1 w0 b1 w0 w2 \"q \"h[#1,%2] w1 b5 w2 w2 \"proctype() \"#1 w0\tok\ns \
    h=proc[type,int]()\tok\no h CLUO w2 'h w1 'h w9 w3 w695 w164499 w32871 w1 w0 b1 w0 w1 \"h[array[#1],%2] w1 b5 w2 \
    w2 \"proctype() \"#1 w0\tok\nl p\ttoo many instances\n\tgives kept\0\
    s p=proc()\tok\ns q=proc()\tok\ns i=iter()\tok\no p CLUO w2 'p w1 'p w9 w3 w695 w164499 w32871 w1 w0 b1 w0 w1 \
    \"g[int,1] w1 b4 \"ninebytes w2 \"proctype() \"any w0\tok\ns r=proc()\tok\ns g=proc[type,int]()\tok\no g CLUO w2 \
    'g w1 'g w9 w3 w695 w164499 w32871 w1 w0 b1 w0 w2 \"#2$size \"h[#1,%2] w1 b5 w2 w2 \"proctype() \"#1 w0\tok\ns \
    h=proc[type,int]()\tok\no h CLUO w2 'h w1 'h w9 w3 w695 w164499 w32871 w1 w0 b1 w0 w1 \"q w1 b5 w2 w2 \
    \"proctype() \"#1 w0\tok\nl p\tmisfit g\n\tgives kept\0\
    s p=proc()\tok\ns q=proc()\tok\ns i=iter()\tok\no p CLUO w2 'p w1 'p w9 w3 w695 w164499 w32871 w1 w0 b1 w0 w1 \
    \"g[int,1] w1 b4 \"ninebytes w2 \"proctype() \"any w0\tok\ns r=proc()\tok\ns g=proc[type,int]()\tok\no g CLUO w2 \
    'g w1 'g w9 w3 w695 w164499 w32871 w1 w0 b1 w0 w2 \"h[#1,%2] \"q w1 b5 w2 w2 \"proctype() \"#1 w0\tok\ns \
    h=proc[type,int]()\tok\no h CLUO w2 'h w1 'h w9 w3 w695 w164499 w32871 w1 w0 b1 w0 w1 \"#2$size w1 b5 w2 w2 \
    \"proctype() \"#1 w0\tok\nl p\tno body q\n\tgives kept\0\
    s p=proc()\tok\ns q=proc()\tok\ns i=iter()\tok\no p CLUO w2 'p w1 'p w9 w3 w695 w164499 w32871 w1 w0 b1 w0 w1 \
    \"g[int,1] w1 b4 \"ninebytes w2 \"proctype() \"any w0\tok\ns r=proc()\tok\ns g=proc[type,int]()\tok\no g CLUO w2 \
    'g w1 'g w300000 w3 w695 w164499 w32871 w1 w0 b1 w0 w1 \"h[#1,%2] w1 b5 w2 w2 \"proctype() \"#1 w0\tok\ns \
    h=proc[type,int]()\tok\no h CLUO w2 'h w1 'h w300000 w3 w695 w164499 w32871 w1 w0 b1 w0 w1 \"#2$size w1 b5 w2 w2 \
    \"proctype() \"#1 w0\tok\nl p\tmisfit h\n\tgives kept\0\
    s p=proc()\tok\ns q=proc()\tok\ns i=iter()\tok\no p CLUO w2 'p w1 'p w9 w3 w695 w164499 w32871 w1 w0 b1 w0 w1 \
    \"g[int,1] w1 b4 \"ninebytes w2 \"proctype() \"any w0\tok\ns r=proc()\tok\ns g=proc[type,int]()\tok\no g CLUO w2 \
    'g w1 'g w100000 w3 w695 w164499 w32871 w1 w0 b1 w0 w1 \"h[#1,%2] w1 b5 w2 w2 \"proctype() \"#1 w0\tok\ns \
    h=proc[type,int]()\tok\no h CLUO w2 'h w1 'h w100000 w3 w695 w164499 w32871 w1 w0 b1 w0 w1 \"h[#1,3] w1 b5 w2 w2 \
    \"proctype() \"#1 w0\tok\nl p\ttoo large\n\tgives kept\0\
    % Each refusal. Operations that are texts use others, down to int$from_to_by. Three words are too many for no \
    node.\0\
    s p=proc()\tok\ns q=proc()\tok\ns i=iter()\tok\no p CLUO w2 'p w1 'p w9 w3 w695 w164499 w32871 w1 w0 b1 w0 w1 \
    \"p w1 b4 \"ninebytes w2 \"proctype() \"any w0\tok\nl p\tlinked\n\tgives kept\0\
    s p=proc()\tok\ns q=proc()\tok\ns i=iter()\tok\no p CLUO w2 'p w1 'p w9 w3 w695 w164499 w32871 w1 w0 b1 w0 w1 \
    \"p w1 b4 \"ninebytes w2 \"proctype() \"any w0\tok\nl r\tno module r\n\tgives kept\0\
    s p=proc()\tok\ns q=proc()\tok\ns i=iter()\tok\no p CLUO w2 'p w1 'p w9 w3 w695 w164499 w32871 w1 w0 b1 w0 w1 \
    \"p w1 b4 \"ninebytes w2 \"proctype() \"any w0\tok\nl i\tbad start i\n\tgives kept\0\
    s p=proc()\tok\ns q=proc()\tok\ns i=iter()\tok\no p CLUO w2 'p w1 'p w9 w3 w695 w164499 w32871 w1 w0 b1 w0 w1 \
    \"q w1 b4 \"ninebytes w2 \"proctype() \"any w0\tok\nl p\tno body q\n\tgives kept\0\
    s p=proc()\tok\ns q=proc()\tok\ns i=iter()\tok\no p CLUO w2 'p w1 'p w9 w3 w695 w164499 w32871 w1 w0 b1 w0 w1 \
    \"int$zork w1 b4 \"ninebytes w2 \"proctype() \"any w0\tok\nl p\tmisfit p\n\tgives kept\0\
    s p=proc()\tok\ns q=proc()\tok\ns i=iter()\tok\no p CLUO w2 'p w1 'p w9 w3 w695 w164499 w32871 w1 w0 b1 w0 w1 \
    \"#1$equal w1 b4 \"ninebytes w2 \"proctype() \"any w0\tok\nl p\tmisfit p\n\tgives kept\0\
    s p=proc()\tok\ns q=proc()\tok\ns i=iter()\tok\no p CLUO w2 'p w1 'p w9 w3 w695 w164499 w32871 w1 w0 b1 w0 w1 \
    \"array[int]$elements w1 b4 \"ninebytes w2 \"proctype() \"any w0\tok\nl p\tlinked\n\tgives kept\0\
    s p=proc()\tok\ns q=proc()\tok\ns i=iter()\tok\no p CLUO w2 'p w1 'p w9 w3 w695 w164499 w32871 w1 w0 b1 w0 w1 \
    \"sequence[string]$copy w1 b4 \"ninebytes w2 \"proctype() \"any w0\tok\nl p\tlinked\n\tgives kept\0\
    s p=proc()\tok\ns q=proc()\tok\ns i=iter()\tok\no p CLUO w2 'p w1 'p w9 w3 w695 w164499 w32871 w1 w0 b1 w0 w1 \
    \"array[stream]$elems w1 b4 \"ninebytes w2 \"proctype() \"any w0\tok\nl p\tmisfit p\n\tgives kept\0\
    s p=proc()\tok\ns q=proc()\tok\ns i=iter()\tok\no p CLUO w2 'p w1 'p w0 w3 w695 w164499 w32871 w1 w0 b1 w0 w1 \
    \"p w1 b4 \"ninebytes w2 \"proctype() \"any w0\tok\nl p\tmisfit p\n\tgives kept\0\
    s p=proc()\tok\ns q=proc()\tok\ns i=iter()\tok\no p CLUO w2 'p w1 'p w262144 w3 w695 w164499 w32871 w1 w0 b1 w0 \
    w1 \"p w1 b4 \"ninebytes w2 \"proctype() \"any w0\tok\nl p\tlinked\n\tgives kept\0\
    s p=proc()\tok\ns q=proc()\tok\ns i=iter()\tok\no p CLUO w2 'p w1 'p w262145 w3 w695 w164499 w32871 w1 w0 b1 w0 \
    w1 \"p w1 b4 \"ninebytes w2 \"proctype() \"any w0\tok\nl p\ttoo large\n\tgives kept\0\
";
