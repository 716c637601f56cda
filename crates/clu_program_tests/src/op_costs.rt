//! What the operations take of the store.

/// How many rows `COSTS` has besides comments.
pub const COSTS_COUNT: usize = 55;

/// Declarations and statements, and how often the statements are done in a store of 512 words, at most 600 times.
pub const COSTS: &str = "\
    s: string\ts := int$unparse(1)\tgives 128\0\
    s: string\ts := string$c2s('x')\tgives 256\0\
    s: string\ts := \"12345678\" || \"1\"\tgives 170\0\
    s: string\ts := string$append(\"1234567\", '8')\tgives 256\0\
    s: string\ts := string$rest(\"abc\", 2)\tgives 256\0\
    s: string\ts := string$substr(\"abcdefghij\", 1, 10)\tgives 170\0\
    q: array[char]\tq := string$s2ac(\"abc\")\tgives 56\0\
    s: string q: array[char] := array[char]$['a', 'b', 'c']\ts := string$ac2s(q)\tgives 251\0\
    b: bool\tb := \"abc\" < \"abd\"\tgives 600\0\
    n: int\tn := int$parse(\"123\") + string$indexs(\"b\", \"ab\") + string$size(\"abc\") + 2 ** 5 * 3 - 4 / 2 // \
    1\tgives 600\0\
    a: array[int]\ta := array[int]$create(3)\tgives 85\0\
    a: array[int]\ta := array[int]$new()\tgives 85\0\
    a: array[int]\ta := array[int]$predict(3, 9)\tgives 85\0\
    a: array[int]\ta := array[int]$fill(1, 4, 0)\tgives 51\0\
    a: array[int]\ta := array[int]$[1, 2, 3]\tgives 56\0\
    a: array[int] := array[int]$new()\tarray[int]$addh(a, 1)\tgives 128\0\
    a: array[int] := array[int]$new()\tarray[int]$addl(a, 1)\tgives 128\0\
    a: array[int] := array[int]$[1, 2, 3]\ta := array[int]$copy1(a)\tgives 55\0\
    a: array[int] := array[int]$[1, 2, 3] n: int\tn := array[int]$remh(a) array[int]$addh(a, n) n := \
    array[int]$reml(a) array[int]$addl(a, n)\tgives 600\0\
    a: array[int] := array[int]$[1, 2, 3]\ta[1] := a[2] + array[int]$top(a) array[int]$trim(a, 1, 3) \
    array[int]$set_low(a, 1)\tgives 600\0\
    s: sequence[int]\ts := sequence[int]$new()\tgives 512\0\
    s: sequence[int]\ts := sequence[int]$e2s(1)\tgives 256\0\
    s: sequence[int]\ts := sequence[int]$fill(3, 1)\tgives 128\0\
    s: sequence[int]\ts := sequence[int]$[1, 2, 3]\tgives 128\0\
    s: sequence[int] := sequence[int]$[1, 2, 3] t: sequence[int]\tt := sequence[int]$replace(s, 1, 1)\tgives 127\0\
    s: sequence[int] := sequence[int]$[1, 2, 3] t: sequence[int]\tt := sequence[int]$addh(s, 1)\tgives 101\0\
    s: sequence[int] := sequence[int]$[1, 2, 3] t: sequence[int]\tt := sequence[int]$addl(s, 1)\tgives 101\0\
    s: sequence[int] := sequence[int]$[1, 2, 3] t: sequence[int]\tt := sequence[int]$remh(s)\tgives 169\0\
    s: sequence[int] := sequence[int]$[1, 2, 3] t: sequence[int]\tt := sequence[int]$reml(s)\tgives 169\0\
    s: sequence[int] := sequence[int]$[1, 2, 3] t: sequence[int]\tt := s || s\tgives 72\0\
    s: sequence[int] := sequence[int]$[1, 2, 3] t: sequence[int]\tt := sequence[int]$subseq(s, 2, 2)\tgives 169\0\
    a: array[int] := array[int]$[1, 2, 3] t: sequence[int]\tt := sequence[int]$a2s(a)\tgives 125\0\
    s: sequence[int] := sequence[int]$[1, 2, 3] a: array[int]\ta := sequence[int]$s2a(s)\tgives 56\0\
    a: array[int] := array[int]$[1, 2, 3]\ta := array[int]$copy(a)\tgives 50\0\
    s: sequence[int] := sequence[int]$[1, 2, 3]\ts := sequence[int]$copy(s)\tgives 36\0\
    n: int := 0\tfor i: int in int$from_to(1, 3) do n := i end for c: char in string$chars(\"ab\") do n := 1 \
    end\tgives 600\0\
    a: array[int] := array[int]$[1, 2, 3] n: int\tfor i: int in array[int]$elements(a) do n := i end if \
    array[int]$similar(a, a) then n := 0 end\tgives 600\0\
    x: any\tfor y: any in int$from_to(1, 2) do x := y end\tgives 128\0\
    t = struct[a, b: int] x: t\tx := t${a, b: 1}\tgives 170\0\
    t = struct[a, b: int] x: t := t${a, b: 1}\tx := t$replace_a(x, 2)\tgives 169\0\
    t = struct[a, b: int] x: t := t${a, b: 1}\tx := t$copy(x)\tgives 169\0\
    t = struct[a, b: int] x: t := t${a, b: 1} b: bool\tb := x.a = x.b & x = x & t$similar(x, x)\tgives 600\0\
    t = record[a, b: int] x: t\tx := t${a, b: 1}\tgives 170\0\
    t = record[a, b: int] x: t := t${a, b: 1}\tx := t$copy(x)\tgives 169\0\
    t = record[a, b: int] x: t := t${a, b: 1}\tx := t$copy1(x)\tgives 169\0\
    t = record[a, b: int] x: t := t${a, b: 1} b: bool\tx.a := x.b b := x = x & t$similar(x, x) & t$similar1(x, \
    x)\tgives 600\0\
    t = oneof[a, b: int] x: t\tx := t$make_b(1)\tgives 256\0\
    t = oneof[a, b: int] x: t := t$make_a(1)\tx := t$copy(x)\tgives 255\0\
    t = variant[a, b: int] x: t\tx := t$make_b(1)\tgives 170\0\
    t = variant[a, b: int] x: t := t$make_a(1)\tx := t$copy(x)\tgives 169\0\
    t = variant[a, b: int] x: t := t$make_a(1)\tx := t$copy1(x)\tgives 169\0\
    t = variant[a, b: int] x: t := t$make_a(1) n: int\tt$change_b(x, 2) n := t$value_b(x) t$change_a(x, n)\tgives \
    600\0\
    x: any\tx := 1\tgives 256\0\
    n: int\tn := force[int](1)\tgives 256\0\
    x: any := 1 n: int\tn := force[int](x)\tgives 600\0\
";
