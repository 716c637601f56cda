//! Programs at the limits of a program, and programs that are large.

/// How many rows `LIMITS` has besides comments.
pub const LIMITS_COUNT: usize = 12;

/// Rows as those of `status_rows`: more modules than a library keeps; 4,096 instances, which are the start, 63 of a procedure with
/// one constant and for each of them 64 with two, and more; types whose texts double from call to call; the outermost of many
/// arms; many types that come to one arm; many objects that are signalled on; many uses of own and of bare variables; a small
/// routine of a cluster with hundreds of own variables; and a loop that ends an inner one at each turn, in a stack that has no
/// room for what some turns would leave.
pub const LIMITS: &str = "\
    go a b\t\t\t^4097^p? = proc () end p?\n^\tgives 21\t\tlibrary full\n\0\
    go a b\t\t\tq = proc [a, b: int] () end q r = proc [a: int] () ^64^q[a, ?]() ^end r start_up = proc () \
    ^63^r[?]() ^@\"all\") end start_up\tgives 0\tall\n\t\0\
    go a b\t\t\tq = proc [a, b: int] () end q r = proc [a: int] () ^64^q[a, ?]() ^end r start_up = proc () \
    ^64^r[?]() ^@\"all\") end start_up\tgives 17\t\ttoo many instances\n\0\
    go a b\t\t\tstart_up = proc () p0[int]() end start_up ^59^p? = proc [t: type] () where t has equal: proctype (t, \
    t) returns (bool) p![struct[a, b: t]]() end p? ^p59 = proc [t: type] () where t has equal: proctype (t, t) \
    returns (bool) f: proctype (t, t) returns (bool) := t$equal if f = t$equal then @\"equal\") end end p59\tgives \
    0\tequal\n\t\0\
    go a b\t\t\tp = proc () signals (e) signal e end p start_up = proc () ^90^begin ^p() ^89^end except when e?: \
    @\"inner\") end ^end except when e: @\"outer\") end end start_up\tgives 0\touter\n\t\0\
    go a b\t\t\tp = proc () signals (e0(int), e1(bool), e2(char), e3(string), e4(null), e5(array[int]), \
    e6(array[bool]), e7(array[char]), e8(sequence[int]), e9(sequence[bool])) signal e9(sequence[bool]$[true]) end p \
    start_up = proc () begin ^100^p() ^end except when e0, e1, e2, e3, e4, e5, e6, e7, e8, e9 (x: any): if \
    force[sequence[bool]](x)[1] then @\"bound\") end end end start_up\tgives 0\tbound\n\t\0\
    go a b\t\t\tq = proc () signals (e(int^59^, int^)) signal e(0^59^, !^) end q r = proc () signals (e(any^59^, \
    any^)) ^60^q() resignal e ^end r start_up = proc () r() except when e (x0^59^, x!^: any): @#force[int](x1))) end \
    end start_up\tgives 0\t1\n\t\0\
    go a b\t\t\tstart_up = proc () own x: int := 7 a: array[any] := array[any]$[x^999^, x^] @#force[int](a[2]))) end \
    start_up\tgives 0\t7\n\t\0\
    go a b\t\t\tstart_up = proc () own x: any := 7 a: array[any] := array[any]$[x^999^, x^] @#force[int](a[2]))) end \
    start_up\tgives 0\t7\n\t\0\
    go a b\t\t\tstart_up = proc () x: int x := 7 a: array[any] := array[any]$[x^999^, x^] @#force[int](a[2]))) end \
    start_up\tgives 0\t7\n\t\0\
    go a b\t\t\tc = cluster is get rep = null ^300^own v?: int := ? ^get = proc () returns (int) return (v299) end \
    get end c start_up = proc () @#c$get())) end start_up\tgives 0\t299\n\t\0\
    go --stack 4096 a b\t\t\tstart_up = proc () n: int := 0 for i: int in int$from_to(1, 100000) do for j: int in \
    int$from_to(1, 3) do n := n + j if j = 2 then break end end end @#n)) end start_up\tgives 0\t300000\n\t\0\
";

/// How many rows `LARGE` has besides comments.
pub const LARGE_COUNT: usize = 2;

/// How many words of code the images of sources have at most: 64 for each node, and 16,384.
pub const LARGE: &str = "\
    % The start has five nodes for each of 60 constants, and two of its own; `p` has 3,607.\0\
    267328 p = proc [n: int] () x: int := 0 ^900^x := x + n ^if x ~= 900 * n then signal failure(\"sum\") end end p \
    start_up = proc () ^60^p[?]() ^end start_up\tgives kept\0\
    % Each operation is bound to one variable after the other; beside those of its nodes an image has no more words \
    than these.\0\
    16383 start_up = proc () x: any := nil x := null$equal x := null$similar x := null$copy x := bool$equal x := \
    bool$similar x := bool$copy x := int$equal x := int$similar x := int$copy x := char$equal x := char$similar x := \
    char$copy x := string$equal x := string$similar x := string$copy x := proctype ()$equal x := proctype ()$similar \
    x := proctype ()$copy x := bool$and x := bool$or x := bool$not x := int$add x := int$sub x := int$mul x := \
    int$minus x := int$div x := int$mod x := int$power x := int$lt x := int$le x := int$ge x := int$gt x := \
    int$parse x := int$unparse x := char$i2c x := char$c2i x := char$lt x := char$le x := char$ge x := char$gt x := \
    string$size x := string$empty x := string$lt x := string$le x := string$ge x := string$gt x := string$c2s x := \
    string$concat x := string$append x := string$fetch x := string$rest x := string$substr x := string$indexs x := \
    string$indexc x := string$s2ac x := string$ac2s x := array[int]$create x := array[int]$new x := \
    array[int]$predict x := array[int]$fill x := array[int]$size x := array[int]$low x := array[int]$high x := \
    array[int]$empty x := array[int]$set_low x := array[int]$fetch x := array[int]$store x := array[int]$bottom x := \
    array[int]$top x := array[int]$addh x := array[int]$addl x := array[int]$remh x := array[int]$reml x := \
    array[int]$trim x := array[int]$copy1 x := array[int]$equal x := sequence[int]$new x := sequence[int]$e2s x := \
    sequence[int]$fill x := sequence[int]$size x := sequence[int]$empty x := sequence[int]$fetch x := \
    sequence[int]$bottom x := sequence[int]$top x := sequence[int]$replace x := sequence[int]$addh x := \
    sequence[int]$addl x := sequence[int]$remh x := sequence[int]$reml x := sequence[int]$concat x := \
    sequence[int]$subseq x := sequence[int]$a2s x := sequence[int]$s2a x := struct[a,b: int]$get_a x := struct[a,b: \
    int]$replace_a x := record[a,b: int]$get_a x := record[a,b: int]$set_a x := record[a,b: int]$equal x := \
    record[a,b: int]$copy1 x := oneof[a,b: int]$make_a x := oneof[a,b: int]$is_a x := oneof[a,b: int]$value_a x := \
    variant[a,b: int]$make_a x := variant[a,b: int]$is_a x := variant[a,b: int]$value_a x := variant[a,b: \
    int]$change_a x := variant[a,b: int]$equal x := variant[a,b: int]$copy1 x := stream$primary_input x := \
    stream$primary_output x := stream$getc x := stream$getl x := stream$empty x := stream$putc x := stream$puts x := \
    stream$putl x := stream$equal end start_up\tgives kept\0\
";
