//! Procedures that the rows of operations call.

/// In the source `@` is `stream$putl(stream$primary_output(), ` and `#` is `int$unparse(`. The objects of the cluster `k` write
/// themselves when they are compared or copied.
pub const HELPERS: &str = "\
bo = proc (x: bool) returns (string) if x then return (\"T\") end return (\"F\") end bo\n\
nu = proc (x: int) returns (string) return (#x)) end nu\n\
ar = proc (x: array[int]) returns (string) ai = array[int] s: string := \"\" k: int := ai$low(x) n: int := ai$size(x) while n > 0 do if k > ai$low(x) then s := s || \",\" end s := s || #x[k]) n := n - 1 if n > 0 then k := k + 1 end end return (#ai$low(x)) || \"(\" || s || \")\") end ar\n\
sq = proc (x: sequence[int]) returns (string) s: string := \"\" k: int := 1 while k <= sequence[int]$size(x) do if k > 1 then s := s || \",\" end s := s || #x[k]) k := k + 1 end return (\"(\" || s || \")\") end sq\n\
low = proc (x: array[int], n: int) returns (array[int]) array[int]$set_low(x, n) return (x) end low\n\
put = proc (x: array[int], n, v: int) returns (array[int]) signals (bounds) x[n] := v resignal bounds return (x) end put\n\
addh = proc (x: array[int], v: int) returns (array[int]) array[int]$addh(x, v) return (x) end addh\n\
addl = proc (x: array[int], v: int) returns (array[int]) array[int]$addl(x, v) return (x) end addl\n\
trim = proc (x: array[int], n, v: int) returns (array[int]) signals (negative_size, bounds) array[int]$trim(x, n, v) resignal negative_size, bounds return (x) end trim\n\
set = proc (x: record[b: string, a: int], v: int) returns (string) x.a := v return (#x.a)) end set\n\
change = proc (x: variant[n: null, i: int, s: string], v: string) returns (string) variant[n: null, i: int, s: string]$change_s(x, v) return (v) end change\n\
pc = proc (s: stream, c: char) returns (string) signals (not_possible(string)) stream$putc(s, c) resignal not_possible return (\"\") end pc\n\
ps = proc (s: stream, t: string) returns (string) signals (not_possible(string)) stream$puts(s, t) resignal not_possible return (\"\") end ps\n\
pl = proc (s: stream, t: string) returns (string) signals (not_possible(string)) stream$putl(s, t) resignal not_possible return (\"\") end pl\n\
ft = proc (x, y: int) returns (string) s: string := \"\" for i: int in int$from_to(x, y) do s := s || #i) || \",\" end return (s) end ft\n\
fb = proc (x, y, z: int) returns (string) s: string := \"\" n: int := 0 for i: int in int$from_to_by(x, y, z) do s := s || #i) || \",\" n := n + 1 if n = 4 then break end end return (s) end fb\n\
ch = proc (x: string) returns (string) s: string := \"\" for c: char in string$chars(x) do s := string$append(s, c) || \",\" end return (s) end ch\n\
el = proc (x: array[int]) returns (string) s: string := \"\" for i: int in array[int]$elements(x) do s := s || #i) || \",\" end return (s) end el\n\
ix = proc (x: array[int]) returns (string) s: string := \"\" for i: int in array[int]$indexes(x) do s := s || #i) || \",\" end return (s) end ix\n\
eh = proc (x: array[int]) returns (string) s: string := \"\" for i: int in array[int]$elements(x) do s := s || #i) || \",\" array[int]$remh(x) end return (s) end eh\n\
eb = proc (x: array[int]) returns (string) s: string := \"\" for i: int in array[int]$elements(x) do s := s || #i) || \",\" array[int]$reml(x) array[int]$addh(x, 9) end return (s) end eb\n\
er = proc (x: array[int]) returns (string) s: string := \"\" for i: int in array[int]$elements(x) do s := s || #i) || \",\" array[int]$set_low(x, i + 1) end return (s) end er\n\
ih = proc (x: array[int]) returns (string) s: string := \"\" for i: int in array[int]$indexes(x) do s := s || #i) || \",\" array[int]$trim(x, array[int]$low(x), 0) end return (s) end ih\n\
es = proc (x: sequence[int]) returns (string) s: string := \"\" for i: int in sequence[int]$elements(x) do s := s || #i) || \",\" end return (s) end es\n\
xs = proc (x: sequence[int]) returns (string) s: string := \"\" for i: int in sequence[int]$indexes(x) do s := s || #i) || \",\" end return (s) end xs\n\
k = cluster is make, equal, similar, copy, value rep = record[v: int, of: array[k]] make = proc (x: int, y: array[k]) returns (cvt) return (rep${v: x, of: y}) end make value = proc (x: cvt) returns (int) return (x.v) end value equal = proc (x, y: cvt) returns (bool) stream$puts(stream$primary_output(), \"=\" || #x.v) || #y.v) || \" \") return (x.v = y.v) end equal similar = proc (x, y: k) returns (bool) z: rep := down(x) stream$puts(stream$primary_output(), \"~\" || #z.v) || #k$value(y)) || \" \") if z.v > 90 then array[k]$remh(z.of) elseif z.v > 80 then signal failure(\"own\") end return (z.v = k$value(y)) end similar copy = proc (x: cvt) returns (cvt) stream$puts(stream$primary_output(), \"c\" || #x.v) || \" \") return (rep${v: x.v + 1, of: x.of}) end copy end k\n\
ka = proc (x, y, z: int) returns (array[k]) n: array[k] := array[k]$new() return (array[k]$[k$make(x, n), k$make(y, n), k$make(z, n)]) end ka\n\
ks = proc (x, y, z: int) returns (sequence[k]) return (sequence[k]$a2s(ka(x, y, z))) end ks\n\
va = proc (x: array[k]) returns (string) s: string := #array[k]$low(x)) || \":\" for y: k in array[k]$elements(x) do s := s || #k$value(y)) || \",\" end return (s) end va\n\
vs = proc (x: sequence[k]) returns (string) return (va(sequence[k]$s2a(x))) end vs\n\
kl = proc (x: array[k], y: int) returns (array[k]) array[k]$set_low(x, y) return (x) end kl\n\
less = proc (x: array[k]) returns (bool) array[k]$addl(x, k$make(91, x)) array[k]$addh(x, k$make(7, x)) y: array[k] := array[k]$copy1(x) return (array[k]$similar(x, y)) end less\n\
";
