//! What the operations of null, bool, int, char, string and stream come to.

/// How many rows `TEXT_GROUPS` has.
pub const TEXT_GROUPS_COUNT: usize = 5;

/// Rows of lines: the declarations that the others share, and expressions of type string, each with a tab and its value, or the
/// name of the exception that it raises. The objects are those that the lines before have left.
pub const TEXT_GROUPS: &str = "\
b: bool := true n: null := nil\n\
bo(bool$and(true, false))\tF\n\
bo(bool$or(true, false))\tT\n\
bo(bool$not(true))\tF\n\
bo(bool$equal(false, false))\tT\n\
bo(bool$similar(true, false))\tF\n\
bo(bool$copy(b))\tT\n\
bo(null$equal(n, nil))\tT\n\
bo(null$similar(n, n))\tT\n\
bo(null$equal(null$copy(n), nil))\tT\n\
bo(true & false | true)\tT\n\
bo(~b)\tF\n\
\tgives kept\0\
m: int := 9223372036854775807 l: int := -9223372036854775807 - 1\n\
nu(m + 0)\t9223372036854775807\n\
nu(m + 1)\toverflow\n\
nu(l + -1)\toverflow\n\
nu(l + m)\t-1\n\
nu(l - 1)\toverflow\n\
nu(l - l)\t0\n\
nu(0 - l)\toverflow\n\
nu(-1 - m)\t-9223372036854775808\n\
nu(m * 1)\t9223372036854775807\n\
nu(3037000500 * 3037000500)\toverflow\n\
nu(3037000499 * 3037000499)\t9223372030926249001\n\
nu(l * -1)\toverflow\n\
nu(l * 1)\t-9223372036854775808\n\
nu(-l)\toverflow\n\
nu(-m)\t-9223372036854775807\n\
nu(7 / 2)\t3\n\
nu(-7 / 2)\t-4\n\
nu(7 / -2)\t-3\n\
nu(-7 / -2)\t4\n\
nu(l / -1)\toverflow\n\
nu(l / 1)\t-9223372036854775808\n\
nu(1 / 0)\tzero_divide\n\
nu(l / 0)\tzero_divide\n\
nu(7 // 2)\t1\n\
nu(-7 // 2)\t1\n\
nu(7 // -2)\t1\n\
nu(-7 // -2)\t1\n\
nu(l // -1)\t0\n\
nu(m // l)\t9223372036854775807\n\
nu(-1 // l)\t9223372036854775807\n\
nu(1 // 0)\tzero_divide\n\
nu(2 ** 62)\t4611686018427387904\n\
nu(2 ** 63)\toverflow\n\
nu((-2) ** 63)\t-9223372036854775808\n\
nu((-2) ** 64)\toverflow\n\
nu(0 ** 0)\t1\n\
nu(l ** 1)\t-9223372036854775808\n\
nu(1 ** m)\t1\n\
nu((-1) ** m)\t-1\n\
nu(0 ** m)\t0\n\
nu(2 ** -1)\tnegative_exponent\n\
nu(m ** 2)\toverflow\n\
bo(l < m)\tT\n\
bo(m < m)\tF\n\
bo(m <= m)\tT\n\
bo(l >= m)\tF\n\
bo(m >= m)\tT\n\
bo(m > l)\tT\n\
bo(l = l)\tT\n\
bo(int$similar(l, m))\tF\n\
nu(int$copy(l))\t-9223372036854775808\n\
nu(int$parse(\"9223372036854775807\"))\t9223372036854775807\n\
nu(int$parse(\"9223372036854775808\"))\toverflow\n\
nu(int$parse(\"-9223372036854775808\"))\t-9223372036854775808\n\
nu(int$parse(\"-9223372036854775809\"))\toverflow\n\
nu(int$parse(\"+00012\"))\t12\n\
nu(int$parse(\"\"))\tbad_format\n\
nu(int$parse(\"+\"))\tbad_format\n\
nu(int$parse(\"-\"))\tbad_format\n\
nu(int$parse(\"1x\"))\tbad_format\n\
nu(int$parse(\" 1\"))\tbad_format\n\
nu(int$parse(\"99999999999999999999x\"))\tbad_format\n\
nu(int$parse(\"+-1\"))\tbad_format\n\
nu(0)\t0\n\
nu(10)\t10\n\
nu(-100)\t-100\n\
\tgives kept\0\
c: char := 'a'\n\
nu(char$c2i(char$i2c(0)))\t0\n\
nu(char$c2i(char$i2c(255)))\t255\n\
nu(char$c2i(char$i2c(256)))\tillegal_char\n\
nu(char$c2i(char$i2c(-1)))\tillegal_char\n\
nu(char$c2i(c))\t97\n\
bo('a' < 'b')\tT\n\
bo('b' < 'a')\tF\n\
bo('a' <= 'a')\tT\n\
bo('a' >= 'b')\tF\n\
bo('b' > 'a')\tT\n\
bo('\\377' > 'a')\tT\n\
bo('a' = 'a')\tT\n\
bo(char$similar('a', 'b'))\tF\n\
nu(char$c2i(char$copy(c)))\t97\n\
\tgives kept\0\
e: string := \"\" s: string := \"abcdefghij\" z: string := \"\" q: array[char] q := array[char]$new()\n\
nu(string$size(e))\t0\n\
nu(string$size(s))\t10\n\
bo(string$empty(e))\tT\n\
bo(string$empty(s))\tF\n\
bo(e < s)\tT\n\
bo(s < s)\tF\n\
bo(\"abc\" < \"abd\")\tT\n\
bo(\"abcdefgh\" < \"abcdefghi\")\tT\n\
bo(\"abcdefghi\" < \"abcdefgh\")\tF\n\
bo(\"b\" < \"abc\")\tF\n\
bo(\"a\" < \"\\377\")\tT\n\
bo(\"abc\" <= \"abc\")\tT\n\
bo(\"abd\" <= \"abc\")\tF\n\
bo(\"abc\" >= \"abd\")\tF\n\
bo(\"abc\" >= \"ab\")\tT\n\
bo(\"abc\" > \"ab\")\tT\n\
bo(\"ab\" > \"ab\")\tF\n\
bo(s = \"abcdefghij\")\tT\n\
bo(s = \"abcdefghik\")\tF\n\
bo(e = z)\tT\n\
bo(string$similar(s, e))\tF\n\
string$copy(s)\tabcdefghij\n\
string$c2s('x')\tx\n\
e || e\t\n\
s || e\tabcdefghij\n\
e || s\tabcdefghij\n\
s || s\tabcdefghijabcdefghij\n\
string$append(e, 'q')\tq\n\
string$append(\"1234567\", '8')\t12345678\n\
string$append(\"12345678\", '9')\t123456789\n\
string$c2s(s[1])\ta\n\
string$c2s(s[10])\tj\n\
string$c2s(s[0])\tbounds\n\
string$c2s(s[11])\tbounds\n\
string$c2s(s[-9223372036854775807 - 1])\tbounds\n\
string$c2s(e[1])\tbounds\n\
string$rest(s, 1)\tabcdefghij\n\
string$rest(s, 10)\tj\n\
string$rest(s, 11)\t\n\
string$rest(s, 12)\tbounds\n\
string$rest(s, 0)\tbounds\n\
string$rest(e, 1)\t\n\
string$rest(e, 2)\tbounds\n\
string$substr(s, 3, 2)\tcd\n\
string$substr(s, 9, 5)\tij\n\
string$substr(s, 11, 1)\t\n\
string$substr(s, 12, 0)\tbounds\n\
string$substr(s, 0, 1)\tbounds\n\
string$substr(s, 99, -1)\tnegative_size\n\
string$substr(s, 1, 9223372036854775807)\tabcdefghij\n\
string$substr(s, 1, 0)\t\n\
nu(string$indexs(\"\", \"\"))\t1\n\
nu(string$indexs(\"\", s))\t1\n\
nu(string$indexs(\"a\", \"\"))\t0\n\
nu(string$indexs(\"abcdefghij\", s))\t1\n\
nu(string$indexs(\"j\", s))\t10\n\
nu(string$indexs(\"ef\", s))\t5\n\
nu(string$indexs(\"fe\", s))\t0\n\
nu(string$indexs(\"aab\", \"aaab\"))\t2\n\
nu(string$indexs(\"abcdefghijk\", s))\t0\n\
nu(string$indexc('j', s))\t10\n\
nu(string$indexc('a', s))\t1\n\
nu(string$indexc('z', s))\t0\n\
nu(string$indexc('a', e))\t0\n\
nu(array[char]$size(string$s2ac(s)))\t10\n\
nu(array[char]$low(string$s2ac(e)))\t1\n\
string$c2s(string$s2ac(s)[9])\ti\n\
string$ac2s(string$s2ac(s))\tabcdefghij\n\
string$ac2s(q)\t\n\
string$ac2s(array[char]$[7: '1', '2', '3', '4', '5', '6', '7', '8'])\t12345678\n\
string$ac2s(array[char]$copy1(string$s2ac(\"xy\")))\txy\n\
\tgives kept\0\
si: stream := stream$primary_input() so: stream := stream$primary_output() e: string := \"\" c: char := 'x'\n\
bo(si = stream$primary_input())\tT\n\
bo(si = so)\tF\n\
bo(stream$empty(si))\tF\n\
string$c2s(stream$getc(si))\ta\n\
stream$getl(si)\tbcdefghij\n\
stream$getl(si)\t\n\
nu(char$c2i(stream$getc(si)))\t10\n\
bo(stream$empty(si))\tF\n\
stream$getl(si)\tlast one\n\
bo(stream$empty(si))\tT\n\
stream$getl(si)\tend_of_file\n\
string$c2s(stream$getc(si))\tend_of_file\n\
string$c2s(stream$getc(so))\tnot_possible: cannot read\n\
stream$getl(so)\tnot_possible: cannot read\n\
bo(stream$empty(so))\tnot_possible: cannot read\n\
pc(so, 'y')\ty\n\
pc(si, 'y')\tnot_possible: cannot write\n\
ps(so, \"yz\")\tyz\n\
ps(so, e)\t\n\
ps(si, \"yz\")\tnot_possible: cannot write\n\
pl(so, \"yz\")\tyz\n\
\t\n\
pl(si, \"yz\")\tnot_possible: cannot write\n\
\tgives kept\0\
";
