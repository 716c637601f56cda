//! What equates unfold to: circles, constants, types, the places of refusals, and the bound on texts. Each name is asked
//! for where a cluster's actual parameter or a type is wanted.

/// How many rows `ROWS` has besides comments.
pub const ROWS_COUNT: usize = 142;

/// Sources with the place and the rule of their refusal, or `ok`.
pub const ROWS: &str = "\
    % Circles of one, two and three equates, and names outside them, each asked in the heading.\0\
    p = proc (x: c[a]) a = a end p c = cluster [n: int] is f rep = null f = proc () end f end c\tgives 1:16:V7\0\
    p = proc (x: c[a]) a = array[a] end p c = cluster [n: int] is f rep = null f = proc () end f end c\tgives \
    1:16:V7\0\
    p = proc (x: c[a]) a = b b = a end p c = cluster [n: int] is f rep = null f = proc () end f end c\tgives 1:16:V7\0\
    p = proc (x: c[b]) a = b b = a end p c = cluster [n: int] is f rep = null f = proc () end f end c\tgives 1:16:V7\0\
    p = proc (x: c[a]) a = b b = c c = a end p c = cluster [n: int] is f rep = null f = proc () end f end c\tgives \
    1:16:V7\0\
    p = proc (x: c[b]) a = b b = c c = a end p c = cluster [n: int] is f rep = null f = proc () end f end c\tgives \
    1:16:V7\0\
    p = proc (x: c[c]) a = b b = c c = a end p c = cluster [n: int] is f rep = null f = proc () end f end c\tgives \
    1:16:V7\0\
    p = proc (x: c[d]) d = a a = b b = a end p c = cluster [n: int] is f rep = null f = proc () end f end c\tgives \
    1:16:V7\0\
    p = proc (x: c[d]) a = b b = a d = a + 1 end p c = cluster [n: int] is f rep = null f = proc () end f end \
    c\tgives 1:16:V7\0\
    p = proc (x: c[b]) a = record[x: b] b = proctype (int) returns (a) end p c = cluster [n: int] is f rep = null f \
    = proc () end f end c\tgives 1:16:V7\0\
    p = proc (x: c[b]) a = {u | u has f: b} b = a end p c = cluster [n: int] is f rep = null f = proc () end f end \
    c\tgives 1:16:V7\0\
    p = proc (x: c[b]) a = 1 + a b = 2 end p c = cluster [n: int] is f rep = null f = proc () end f end c\tgives \
    1:28:V7\0\
    p = proc (x: c[a]) a = b b = zork end p c = cluster [n: int] is f rep = null f = proc () end f end c\tgives \
    1:16:V8\0\
    p = proc (x: c[a]) a = variant[x: b] b = 1 end p c = cluster [n: int] is f rep = null f = proc () end f end \
    c\tgives 1:16:V8\0\
    % Literals.\0\
    p = proc (x: c[9223372036854775807]) a = 09223372036854775807 y: c[a] := x end p c = cluster [n: int] is f rep = \
    null f = proc () end f end c\tgives ok\0\
    p = proc (x: c[7]) a = 007 y: c[a] := x end p c = cluster [n: int] is f rep = null f = proc () end f end \
    c\tgives ok\0\
    % Operators of int.\0\
    p = proc (x: c[7]) a = 3 + 4 y: c[a] := x end p c = cluster [n: int] is f rep = null f = proc () end f end \
    c\tgives ok\0\
    p = proc (x: c[-1]) a = 3 - 4 y: c[a] := x end p c = cluster [n: int] is f rep = null f = proc () end f end \
    c\tgives ok\0\
    p = proc (x: c[-9223372036854775807 - 1]) a = -9223372036854775807 + -1 y: c[a] := x end p c = cluster [n: int] \
    is f rep = null f = proc () end f end c\tgives ok\0\
    p = proc (x: c[-12]) a = 3 * -4 y: c[a] := x end p c = cluster [n: int] is f rep = null f = proc () end f end \
    c\tgives ok\0\
    p = proc (x: c[-12]) a = -(3 * 4) y: c[a] := x end p c = cluster [n: int] is f rep = null f = proc () end f end \
    c\tgives ok\0\
    p = proc (x: c[3]) a = 7 / 2 y: c[a] := x end p c = cluster [n: int] is f rep = null f = proc () end f end \
    c\tgives ok\0\
    p = proc (x: c[-4]) a = -7 / 2 y: c[a] := x end p c = cluster [n: int] is f rep = null f = proc () end f end \
    c\tgives ok\0\
    p = proc (x: c[-3]) a = 7 / -2 y: c[a] := x end p c = cluster [n: int] is f rep = null f = proc () end f end \
    c\tgives ok\0\
    p = proc (x: c[4]) a = -7 / -2 y: c[a] := x end p c = cluster [n: int] is f rep = null f = proc () end f end \
    c\tgives ok\0\
    p = proc (x: c[1]) a = 7 // 2 y: c[a] := x end p c = cluster [n: int] is f rep = null f = proc () end f end \
    c\tgives ok\0\
    p = proc (x: c[1]) a = -7 // 2 y: c[a] := x end p c = cluster [n: int] is f rep = null f = proc () end f end \
    c\tgives ok\0\
    p = proc (x: c[1]) a = 7 // -2 y: c[a] := x end p c = cluster [n: int] is f rep = null f = proc () end f end \
    c\tgives ok\0\
    p = proc (x: c[1]) a = -7 // -2 y: c[a] := x end p c = cluster [n: int] is f rep = null f = proc () end f end \
    c\tgives ok\0\
    p = proc (x: c[1024]) a = 2 ** 10 y: c[a] := x end p c = cluster [n: int] is f rep = null f = proc () end f end \
    c\tgives ok\0\
    p = proc (x: c[-8]) a = -2 ** 3 y: c[a] := x end p c = cluster [n: int] is f rep = null f = proc () end f end \
    c\tgives ok\0\
    p = proc (x: c[4611686018427387904]) a = 2 ** 62 y: c[a] := x end p c = cluster [n: int] is f rep = null f = \
    proc () end f end c\tgives ok\0\
    p = proc (x: c[-9223372036854775807 - 1]) a = -2 ** 63 y: c[a] := x end p c = cluster [n: int] is f rep = null f \
    = proc () end f end c\tgives ok\0\
    p = proc (x: c[1]) a = 0 ** 0 y: c[a] := x end p c = cluster [n: int] is f rep = null f = proc () end f end \
    c\tgives ok\0\
    p = proc (x: c[8]) a = b + 1 b = c1 c1 = (7) y: c[a] := x end p c = cluster [n: int] is f rep = null f = proc () \
    end f end c\tgives ok\0\
    % A constant parameter.\0\
    p = proc [n: int] (x: c[n]) a = n y: c[a] := x end p c = cluster [n: int] is f rep = null f = proc () end f end \
    c\tgives ok\0\
    p = proc [n: int] (x: c[n]) a = (n) y: c[a] := x end p c = cluster [n: int] is f rep = null f = proc () end f \
    end c\tgives ok\0\
    p = proc [n: int] (x: c[n]) a = b b = n y: c[a] := x end p c = cluster [n: int] is f rep = null f = proc () end \
    f end c\tgives ok\0\
    p = proc [n: int] (x: a) a = c[n] b = c[2] y: b := x end p c = cluster [n: int] is f rep = null f = proc () end \
    f end c\tgives 1:44:V15\0\
    p = proc (x: a) a = c[2] b = c[1 + 1] y: b := x end p c = cluster [n: int] is f rep = null f = proc () end f end \
    c\tgives ok\0\
    % Operators whose result is a bool.\0\
    p = proc (x: c[true]) a = TRUE y: c[a] := x end p c = cluster [b: bool] is f rep = null f = proc () end f end \
    c\tgives ok\0\
    p = proc (x: c[false]) a = false y: c[a] := x end p c = cluster [b: bool] is f rep = null f = proc () end f end \
    c\tgives ok\0\
    p = proc (x: c[true]) a = 1 < 2 y: c[a] := x end p c = cluster [b: bool] is f rep = null f = proc () end f end \
    c\tgives ok\0\
    p = proc (x: c[true]) a = 2 <= 2 y: c[a] := x end p c = cluster [b: bool] is f rep = null f = proc () end f end \
    c\tgives ok\0\
    p = proc (x: c[false]) a = 1 = 2 y: c[a] := x end p c = cluster [b: bool] is f rep = null f = proc () end f end \
    c\tgives ok\0\
    p = proc (x: c[false]) a = 1 >= 2 y: c[a] := x end p c = cluster [b: bool] is f rep = null f = proc () end f end \
    c\tgives ok\0\
    p = proc (x: c[false]) a = 1 > 2 y: c[a] := x end p c = cluster [b: bool] is f rep = null f = proc () end f end \
    c\tgives ok\0\
    p = proc (x: c[false]) a = 1 ~< 2 y: c[a] := x end p c = cluster [b: bool] is f rep = null f = proc () end f end \
    c\tgives ok\0\
    p = proc (x: c[false]) a = 2 ~<= 2 y: c[a] := x end p c = cluster [b: bool] is f rep = null f = proc () end f \
    end c\tgives ok\0\
    p = proc (x: c[true]) a = 1 ~= 2 y: c[a] := x end p c = cluster [b: bool] is f rep = null f = proc () end f end \
    c\tgives ok\0\
    p = proc (x: c[true]) a = 1 ~>= 2 y: c[a] := x end p c = cluster [b: bool] is f rep = null f = proc () end f end \
    c\tgives ok\0\
    p = proc (x: c[true]) a = 1 ~> 2 y: c[a] := x end p c = cluster [b: bool] is f rep = null f = proc () end f end \
    c\tgives ok\0\
    p = proc (x: c[false]) a = true & false y: c[a] := x end p c = cluster [b: bool] is f rep = null f = proc () end \
    f end c\tgives ok\0\
    p = proc (x: c[true]) a = true cand true y: c[a] := x end p c = cluster [b: bool] is f rep = null f = proc () \
    end f end c\tgives ok\0\
    p = proc (x: c[true]) a = false | true y: c[a] := x end p c = cluster [b: bool] is f rep = null f = proc () end \
    f end c\tgives ok\0\
    p = proc (x: c[false]) a = false cor false y: c[a] := x end p c = cluster [b: bool] is f rep = null f = proc () \
    end f end c\tgives ok\0\
    p = proc (x: c[false]) a = ~true y: c[a] := x end p c = cluster [b: bool] is f rep = null f = proc () end f end \
    c\tgives ok\0\
    p = proc (x: c[false]) a = true = false y: c[a] := x end p c = cluster [b: bool] is f rep = null f = proc () end \
    f end c\tgives ok\0\
    p = proc (x: c[true]) a = true ~= false y: c[a] := x end p c = cluster [b: bool] is f rep = null f = proc () end \
    f end c\tgives ok\0\
    p = proc (x: c[true]) a = nil = nil y: c[a] := x end p c = cluster [b: bool] is f rep = null f = proc () end f \
    end c\tgives ok\0\
    p = proc (x: c[false]) a = nil ~= nil y: c[a] := x end p c = cluster [b: bool] is f rep = null f = proc () end f \
    end c\tgives ok\0\
    p = proc (x: c[true]) a = 'a' < 'b' y: c[a] := x end p c = cluster [b: bool] is f rep = null f = proc () end f \
    end c\tgives ok\0\
    p = proc (x: c[false]) a = 'a' ~= 'a' y: c[a] := x end p c = cluster [b: bool] is f rep = null f = proc () end f \
    end c\tgives ok\0\
    p = proc (x: c[true]) a = \"ab\" < \"b\" y: c[a] := x end p c = cluster [b: bool] is f rep = null f = proc () \
    end f end c\tgives ok\0\
    p = proc (x: c[true]) a = \"a\" < \"ab\" y: c[a] := x end p c = cluster [b: bool] is f rep = null f = proc () \
    end f end c\tgives ok\0\
    p = proc (x: c[false]) a = \"b\" <= \"ab\" y: c[a] := x end p c = cluster [b: bool] is f rep = null f = proc () \
    end f end c\tgives ok\0\
    p = proc (x: c[true]) a = \"\" = \"\" y: c[a] := x end p c = cluster [b: bool] is f rep = null f = proc () end f \
    end c\tgives ok\0\
    % Literals of null, characters and strings.\0\
    p = proc (x: c[nil]) a = NIL y: c[a] := x end p c = cluster [z: null] is f rep = null f = proc () end f end \
    c\tgives ok\0\
    p = proc (x: c['x']) a = '\\170' y: c[a] := x end p c = cluster [k: char] is f rep = null f = proc () end f end \
    c\tgives ok\0\
    p = proc (x: c['\\377']) a = '\\377' y: c[a] := x end p c = cluster [k: char] is f rep = null f = proc () end f \
    end c\tgives ok\0\
    p = proc (x: c[\"a\\n\"]) a = \"\\141\\012\" y: c[a] := x end p c = cluster [s: string] is f rep = null f = proc \
    () end f end c\tgives ok\0\
    p = proc (x: c[\"\"]) a = \"\" y: c[a] := x end p c = cluster [s: string] is f rep = null f = proc () end f end \
    c\tgives ok\0\
    p = proc (x: c[\"xyA\"]) a = \"x\" || \"y\" || b b = \"\\101\" y: c[a] := x end p c = cluster [s: string] is f \
    rep = null f = proc () end f end c\tgives ok\0\
    % Types of one word.\0\
    p = proc (x: null) a = null y: a := x end p c = cluster [t: type] is f rep = null f = proc () end f end c\tgives \
    ok\0\
    p = proc (x: bool) a = bool y: a := x end p c = cluster [t: type] is f rep = null f = proc () end f end c\tgives \
    ok\0\
    p = proc (x: int) a = int y: a := x end p c = cluster [t: type] is f rep = null f = proc () end f end c\tgives \
    ok\0\
    p = proc (x: char) a = char y: a := x end p c = cluster [t: type] is f rep = null f = proc () end f end c\tgives \
    ok\0\
    p = proc (x: string) a = string y: a := x end p c = cluster [t: type] is f rep = null f = proc () end f end \
    c\tgives ok\0\
    p = proc (x: any) a = any y: a := x end p c = cluster [t: type] is f rep = null f = proc () end f end c\tgives \
    ok\0\
    p = proc (x: stream) a = stream y: a := x end p c = cluster [t: type] is f rep = null f = proc () end f end \
    c\tgives ok\0\
    p = proc [t: type] (x: t) a = t y: a := x end p c = cluster [t: type] is f rep = null f = proc () end f end \
    c\tgives ok\0\
    % Types with parts.\0\
    p = proc (x: array[sequence[record[x: int, y: int, z: struct[x: any]]]]) a = array[b] b = sequence[d] d = \
    record[x, y: int, z: struct[x: any]] y: a := x end p c = cluster [t: type] is f rep = null f = proc () end f end \
    c\tgives ok\0\
    p = proc (x: struct[x: any]) a = struct[x: any] y: a := x end p c = cluster [t: type] is f rep = null f = proc \
    () end f end c\tgives ok\0\
    p = proc [t: type] (x: proctype (int, t) returns (t) signals (e(oneof[x: null]))) a = proctype (int, t) returns \
    (t) signals (e(b), failure(string)) b = oneof[x: null] y: a := x end p c = cluster [t: type] is f rep = null f = \
    proc () end f end c\tgives ok\0\
    p = proc (x: itertype () yields (char)) a = itertype () yields (char) y: a := x end p c = cluster [t: type] is f \
    rep = null f = proc () end f end c\tgives ok\0\
    p = proc (x: variant[x: int]) a = variant[x: int] y: a := x end p c = cluster [t: type] is f rep = null f = proc \
    () end f end c\tgives ok\0\
    p = proc (x: c[int]) a = c[int] y: a := x end p c = cluster [t: type] is f rep = null f = proc () end f end \
    c\tgives ok\0\
    % Equates of the same and of other types.\0\
    p = proc (x: a) a = array[d] d = int b = array[int] y: b := x end p c = cluster [t: type] is f rep = null f = \
    proc () end f end c\tgives ok\0\
    p = proc (x: a) a = array[int] b = array[char] y: b := x end p c = cluster [t: type] is f rep = null f = proc () \
    end f end c\tgives 1:48:V15\0\
    p = proc (x: a) a = array[int] b = sequence[int] y: b := x end p c = cluster [t: type] is f rep = null f = proc \
    () end f end c\tgives 1:50:V15\0\
    p = proc (x: a) a = record[x, y: int] b = record[y: int, x: int] y: b := x end p c = cluster [t: type] is f rep \
    = null f = proc () end f end c\tgives ok\0\
    p = proc (x: a) a = record[x: int] b = struct[x: int] y: b := x end p c = cluster [t: type] is f rep = null f = \
    proc () end f end c\tgives 1:55:V15\0\
    p = proc (x: a) a = record[x: int] b = record[y: int] y: b := x end p c = cluster [t: type] is f rep = null f = \
    proc () end f end c\tgives 1:55:V15\0\
    p = proc (x: a) a = oneof[x: int] b = variant[x: int] y: b := x end p c = cluster [t: type] is f rep = null f = \
    proc () end f end c\tgives 1:55:V15\0\
    p = proc (x: a) a = proctype () b = itertype () y: b := x end p c = cluster [t: type] is f rep = null f = proc \
    () end f end c\tgives 1:49:V15\0\
    p = proc (x: a) a = proctype (int) b = proctype () returns (int) y: b := x end p c = cluster [t: type] is f rep \
    = null f = proc () end f end c\tgives 1:66:V15\0\
    p = proc (x: a) a = proctype (int, char) b = proctype (char, int) y: b := x end p c = cluster [t: type] is f rep \
    = null f = proc () end f end c\tgives 1:67:V15\0\
    p = proc (x: a) a = proctype () signals (e) b = proctype () signals (e(int)) y: b := x end p c = cluster [t: \
    type] is f rep = null f = proc () end f end c\tgives 1:78:V15\0\
    p = proc (x: a) a = proctype () signals (e, d) b = proctype () signals (d, e) y: b := x end p c = cluster [t: \
    type] is f rep = null f = proc () end f end c\tgives ok\0\
    p = proc (x: a) a = proctype () signals (failure(string)) b = proctype () y: b := x end p c = cluster [t: type] \
    is f rep = null f = proc () end f end c\tgives ok\0\
    p = proc [t: type] (x: a) a = c[int] b = c[t] y: b := x end p c = cluster [t: type] is f rep = null f = proc () \
    end f end c\tgives 1:47:V15\0\
    % A set is none of the names that it defines for its own inside, and its equates stand inside alone.\0\
    p = proc () a = {u | u has f: proctype (u)} u = a end p c = cluster [t: type] is f rep = null f = proc () end f \
    end c\tgives 1:41:V7\0\
    p = proc [t: type] (x: t) where t in s a = {u | u has f: proctype (u)} s = a t$f(x) end p c = cluster [t: type] \
    is f rep = null f = proc () end f end c\tgives ok\0\
    p = proc [t: type] (x: t) where t in s s = {u | u has g, f: proctype (v), h: proctype (u) v = array[u]} \
    t$f(array[t]$[]) t$g(array[t]$[]) t$h(x) end p c = cluster [t: type] is f rep = null f = proc () end f end \
    c\tgives ok\0\
    p = proc [t: type] () where t in {u | u has f: v v = proctype (u)} u: int v: int end p c = cluster [t: type] is \
    f rep = null f = proc () end f end c\tgives ok\0\
    % Right sides that are refused, at the place; by V4, V13 and V14 before they are by V8.\0\
    % V5: a name that denotes nothing.\0\
    p = proc [t: type, n: int] (y: int) a = zork end p\tgives 1:41:V5\0\
    p = proc [t: type, n: int] (y: int) a = zork + 1 end p\tgives 1:41:V5\0\
    p = proc [t: type, n: int] (y: int) a = array[zork] end p\tgives 1:47:V5\0\
    % V7: a name of a circle of one, two or three equates, or of an equate that leads to one.\0\
    p = proc [t: type, n: int] (y: int) a = a end p\tgives 1:41:V7\0\
    p = proc [t: type, n: int] (y: int) a = b b = a end p\tgives 1:41:V7\0\
    p = proc [t: type, n: int] (y: int) a = b b = c c = a end p\tgives 1:41:V7\0\
    p = proc [t: type, n: int] (y: int) a = 1 + b b = b end p\tgives 1:45:V7\0\
    p = proc [t: type, n: int] (y: int) a = array[b] b = array[a] end p\tgives 1:47:V7\0\
    p = proc [t: type, n: int] (y: int) a = b b = c c = c end p\tgives 1:41:V7\0\
    % V8: no constant, at the topmost node of it.\0\
    p = proc [t: type, n: int] (y: int) a = y end p\tgives 1:41:V8\0\
    p = proc [t: type, n: int] (y: int) a = p end p\tgives 1:41:V8\0\
    p = proc [t: type, n: int] (y: int) a = y + 1 end p\tgives 1:43:V8\0\
    p = proc [t: type, n: int] (y: int) a = y[1] end p\tgives 1:42:V8\0\
    p = proc [t: type, n: int] (y: int) a = \"abc\"[1] end p\tgives 1:46:V8\0\
    p = proc [t: type, n: int] (y: int) a = b b = zork end p\tgives 1:41:V8\0\
    p = proc [t: type, n: int] (y: int) a = b + 1 b = zork end p\tgives 1:41:V8\0\
    p = proc [t: type, n: int] (y: int) a = ~(1 + true) end p\tgives 1:45:V13\0\
    % V8: an operator that would signal.\0\
    p = proc [t: type, n: int] (y: int) a = 9223372036854775807 + 1 end p\tgives 1:61:V8\0\
    p = proc [t: type, n: int] (y: int) a = 1 / 0 end p\tgives 1:43:V8\0\
    p = proc [t: type, n: int] (y: int) a = 1 // 0 end p\tgives 1:43:V8\0\
    p = proc [t: type, n: int] (y: int) a = 2 ** -1 end p\tgives 1:43:V8\0\
    p = proc [t: type, n: int] (y: int) a = 2 ** (-1) end p\tgives 1:43:V8\0\
    p = proc [t: type, n: int] (y: int) a = -(-9223372036854775807 - 1) end p\tgives 1:41:V8\0\
    p = proc [t: type, n: int] (y: int) a = -(-9223372036854775808) end p\tgives 1:44:V4\0\
    p = proc [t: type, n: int] (y: int) a = (1 / 0) + 1 end p\tgives 1:49:V8\0\
    % V9: no type.\0\
    p = proc [t: type, n: int] (y: int) a = array[b] b = zork end p\tgives 1:47:V9\0\
    p = proc [t: type, n: int] (y: int) a = array[y] end p\tgives 1:47:V9\0\
    p = proc [t: type, n: int] (y: int) a = array[n] end p\tgives 1:47:V9\0\
    p = proc [t: type, n: int] (y: int) a = record[x: int, y: b] b = 1 end p\tgives 1:59:V9\0\
    p = proc [t: type, n: int] (y: int) a = (t) end p\tgives 1:42:V14\0\
    p = proc [t: type, n: int] (y: int) a = b[1] b = \"abc\" end p\tgives 1:42:V8\0\
    % The text of a struct over types of each sort has 65,536 bytes, and one more.\0\
    p = proc [t: type, n: int] () t0 = int t1 = struct[a, b: t0] t2 = struct[a, b: t1] t3 = struct[a, b: t2] t4 = \
    struct[a, b: t3] t5 = struct[a, b: t4] t6 = struct[a, b: t5] t7 = struct[a, b: t6] t8 = struct[a, b: t7] t9 = \
    struct[a, b: t8] t10 = struct[a, b: t9] t11 = struct[a, b: t10] u = struct[a: t11, b: t10, c: t9, d: t8, e: t7, \
    f: t6, g: t4, x0: null, x1: bool, x2: int, x3: char, x4: string, x5: any, x6: stream, x7: t, x8: array[int], x9: \
    sequence[bool], x10: record[x: int], x11: struct[y: array[char], x: int], x12: oneof[some: int, none: null], \
    x13: variant[left, middle, right: any], x14: proctype (), x15: proctype (int), x16: proctype (int, char, t), \
    x17: proctype () returns (int, bool), x18: proctype () signals (ends), x19: proctype () signals (stops(int, \
    char), ends), x20: proctype () signals (failure(string)), x21: proctype (int) returns (int) signals (e(int)), \
    x22: itertype (), x23: itertype (int) yields (char), x24: itertype () yields (int, int) signals \
    (failure(string), f), x25: q, x26: r[int], x27: s[array[int], t, n], x28: v[nil, TRUE, false], x29: w[0, 9, 10, \
    99, 100], x30: k[-1, -10], x31: k[9223372036854775807, -9223372036854775807 - 1], x32: l['A', '\\377'], x33: \
    m[\"\", \"AB\"], ^121^z^: int] end p q = cluster is f rep = null f = proc () end f end q r = cluster [t: type] \
    is f rep = null f = proc () end f end r s = cluster [t, u: type, n: int] is f rep = null f = proc () end f end s \
    v = cluster [z: null, a, b: bool] is f rep = null f = proc () end f end v w = cluster [a, b, d, e, g: int] is f \
    rep = null f = proc () end f end w k = cluster [a, b: int] is f rep = null f = proc () end f end k l = cluster \
    [a, b: char] is f rep = null f = proc () end f end l m = cluster [a, b: string] is f rep = null f = proc () end \
    f end m\tgives ok\0\
    p = proc [t: type, n: int] () t0 = int t1 = struct[a, b: t0] t2 = struct[a, b: t1] t3 = struct[a, b: t2] t4 = \
    struct[a, b: t3] t5 = struct[a, b: t4] t6 = struct[a, b: t5] t7 = struct[a, b: t6] t8 = struct[a, b: t7] t9 = \
    struct[a, b: t8] t10 = struct[a, b: t9] t11 = struct[a, b: t10] u = struct[a: t11, b: t10, c: t9, d: t8, e: t7, \
    f: t6, g: t4, x0: null, x1: bool, x2: int, x3: char, x4: string, x5: any, x6: stream, x7: t, x8: array[int], x9: \
    sequence[bool], x10: record[x: int], x11: struct[y: array[char], x: int], x12: oneof[some: int, none: null], \
    x13: variant[left, middle, right: any], x14: proctype (), x15: proctype (int), x16: proctype (int, char, t), \
    x17: proctype () returns (int, bool), x18: proctype () signals (ends), x19: proctype () signals (stops(int, \
    char), ends), x20: proctype () signals (failure(string)), x21: proctype (int) returns (int) signals (e(int)), \
    x22: itertype (), x23: itertype (int) yields (char), x24: itertype () yields (int, int) signals \
    (failure(string), f), x25: q, x26: r[int], x27: s[array[int], t, n], x28: v[nil, TRUE, false], x29: w[0, 9, 10, \
    99, 100], x30: k[-1, -10], x31: k[9223372036854775807, -9223372036854775807 - 1], x32: l['A', '\\377'], x33: \
    m[\"\", \"AB\"], ^122^z^: int] end p q = cluster is f rep = null f = proc () end f end q r = cluster [t: type] \
    is f rep = null f = proc () end f end r s = cluster [t, u: type, n: int] is f rep = null f = proc () end f end s \
    v = cluster [z: null, a, b: bool] is f rep = null f = proc () end f end v w = cluster [a, b, d, e, g: int] is f \
    rep = null f = proc () end f end w k = cluster [a, b: int] is f rep = null f = proc () end f end k l = cluster \
    [a, b: char] is f rep = null f = proc () end f end l m = cluster [a, b: string] is f rep = null f = proc () end \
    f end m\tgives 1:289:V9\0\
    % A chain of 1,000 equates.\0\
    p = proc () ^1000^a? = a! ^a1000 = 7 end p\tgives ok\0\
    p = proc () ^1000^a? = a! ^a1000 = a900 end p\tgives 1:18:V7\0\
    p = proc () ^1000^a? = a! ^a1000 = a1000 end p\tgives 1:18:V7\0\
    p = proc () ^1000^a? = a! ^a1000 = zork end p\tgives 1:18:V8\0\
";
