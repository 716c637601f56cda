//! Signals, exits, loops, returns, end names and own variables: V25 to V30, V34 and V37.

/// How many rows `ROWS` has besides comments.
pub const ROWS_COUNT: usize = 99;

/// Sources with the place and the rule of their refusal, or `ok`.
pub const ROWS: &str = "\
    % V25: a signal that the heading does not list, at the statement or at `resignal`.\0\
    start_up = proc () signal e end start_up\tgives 1:20:V25\0\
    p = proc () signals (e) signal f end p\tgives 1:25:V25\0\
    p = proc () signals (e(int)) signal f(\"x\") end p\tgives 1:30:V25\0\
    p = proc () q() resignal e end p q = proc () signals (e) end q\tgives 1:17:V25\0\
    p = proc () signals (e) q() resignal e, f end p q = proc () signals (e, f) end q\tgives 1:29:V25\0\
    p = proc () begin end resignal zork end p\tgives 1:23:V25\0\
    c = cluster is f, g rep = null f = proc () signals (e) end f g = proc () signal e end g end c\tgives 1:74:V25\0\
    p = proc () signals (e) signal E end p\tgives ok\0\
    p = proc () signal failure(\"x\") end p\tgives ok\0\
    p = proc () q() resignal failure end p q = proc () end q\tgives ok\0\
    p = proc () signals (e) begin end resignal e end p\tgives ok\0\
    % V26: number and types of what is signalled.\0\
    p = proc () signals (e(int)) signal e end p\tgives 1:30:V26\0\
    p = proc () signals (e) signal e(1) end p\tgives 1:25:V26\0\
    p = proc () signals (e(int)) signal e(\"a\") end p\tgives 1:30:V26\0\
    p = proc (a: any) signals (e(int, int)) signal e(1, a) end p\tgives 1:41:V26\0\
    p = proc () signal failure end p\tgives 1:13:V26\0\
    p = proc () signal failure(1) end p\tgives 1:13:V26\0\
    p = proc () signal failure(\"a\", \"b\") end p\tgives 1:13:V26\0\
    p = proc () signals (e(int)) q() resignal e end p q = proc () signals (e(string)) end q\tgives 1:34:V26\0\
    p = proc () signals (e) q() resignal e end p q = proc () signals (e(string)) end q\tgives 1:29:V26\0\
    p = proc () signals (e(int)) begin q() r() end resignal e end p q = proc () signals (e(int)) end q r = proc () \
    signals (e) end r\tgives 1:48:V26\0\
    p = proc () signals (e(int), f) q() resignal f, e end p q = proc () signals (e(string), f) end q\tgives 1:37:V26\0\
    p = proc () signals (e(any)) signal e(1) end p\tgives ok\0\
    p = proc () signals (e(any)) q() resignal e end p q = proc () signals (e(string)) end q\tgives ok\0\
    p = proc () signals (e(int)) q() except when e: end resignal e end p q = proc () signals (e) end q\tgives ok\0\
    % `failure` is listed with one string, in types of routines too.\0\
    p = proc () signals (failure) end p\tgives 1:22:V26\0\
    p = proc () signals (e, failure(int)) end p\tgives 1:25:V26\0\
    p = proc () signals (failure(string, string)) end p\tgives 1:22:V26\0\
    p = proc () signals (failure(any)) end p\tgives 1:22:V26\0\
    p = proc (f: proctype () signals (failure)) end p\tgives 1:35:V26\0\
    p = proc (f: itertype () yields (int) signals (failure(int))) end p\tgives 1:48:V26\0\
    p = proc (f: proctype () signals (failure(string))) signals (failure(string), e) end p\tgives ok\0\
    % Inside a cluster a routine raises what its callers see.\0\
    c = cluster is f, g rep = null f = proc () signals (e(cvt)) end f g = proc () signals (e(cvt)) f() resignal e \
    end g end c\tgives 1:100:V26\0\
    c = cluster is f, g rep = null f = proc () signals (e(cvt)) end f g = proc () f() except when e (x: rep): end \
    end g end c\tgives 1:90:V23\0\
    c = cluster is f, g rep = null f = proc () signals (e(cvt)) signal e(nil) end f g = proc () signals (e(c)) f() \
    resignal e end g end c\tgives ok\0\
    c = cluster is f, g rep = null f = proc () signals (e(cvt)) end f g = proc () f() except when e (x: c): end end \
    g end c\tgives ok\0\
    % An exit against the arm that takes it.\0\
    p = proc () begin exit e(1) end except when e: end end p\tgives 1:19:V26\0\
    p = proc () begin exit e end except when e (n: int): end end p\tgives 1:19:V26\0\
    p = proc () begin exit e(\"a\") end except when e (n: int): end end p\tgives 1:19:V26\0\
    p = proc () begin begin exit e(1) end except when e: end end except when e (n: int): end end p\tgives 1:25:V26\0\
    p = proc () begin exit e(1) end except when e (*): end begin exit e(1) end except when e (n: any): end end \
    p\tgives ok\0\
    p = proc () begin begin exit e(1) end except when f: when e (n: int): end end except when e: end end p\tgives ok\0\
    % V27: no enclosing arm of that name in the routine.\0\
    p = proc () exit e end p\tgives 1:13:V27\0\
    p = proc () begin exit e end except when f: end end p\tgives 1:19:V27\0\
    p = proc () begin exit e end except others: end end p\tgives 1:19:V27\0\
    p = proc () begin end except when e: when f: exit e end end p\tgives 1:46:V27\0\
    p = proc () begin end except when e: others: exit e end end p\tgives 1:46:V27\0\
    p = proc () signals (e) begin exit e end resignal e end p\tgives 1:31:V27\0\
    p = proc () begin end except when e: end exit e end p\tgives 1:42:V27\0\
    p = proc () begin for i: int in int$from_to(1, 2) do while true do exit e end end end except when e: end end \
    p\tgives ok\0\
    p = proc () begin begin exit e end except others: end end except when e: end end p\tgives ok\0\
    p = proc () signals (e) begin begin exit e end resignal e end except when e: end end p\tgives ok\0\
    p = proc () begin begin end except when f: exit e end end except when E: end end p\tgives ok\0\
    % V28: outside a loop of the routine.\0\
    start_up = proc () break end start_up\tgives 1:20:V28\0\
    p = proc () continue end p\tgives 1:13:V28\0\
    p = proc () if true then break end end p\tgives 1:26:V28\0\
    p = proc () while true do end break end p\tgives 1:31:V28\0\
    p = proc () for i: int in int$from_to(1, 2) do end except when e: continue end end p\tgives 1:67:V28\0\
    p = proc () begin while true do end continue end end p\tgives 1:37:V28\0\
    p = proc () while true do break end for i: int in int$from_to(1, 2) do if true then continue end end end \
    p\tgives ok\0\
    p = proc () while true do begin end except when e: break others: continue end end end p\tgives ok\0\
    % V29: a yield outside an iterator.\0\
    p = proc () yield end p\tgives 1:13:V29\0\
    p = proc () yield (1) end p\tgives 1:13:V29\0\
    p = proc () returns (int) while true do yield (1) end end p\tgives 1:41:V29\0\
    c = cluster is f rep = null f = proc () yield end f end c\tgives 1:41:V29\0\
    p = iter () yields (int) yield (1) yield (2) end p\tgives ok\0\
    p = iter () yield end p\tgives ok\0\
    % V30: number and types of what is returned or yielded.\0\
    p = proc () returns (int) return end p\tgives 1:27:V30\0\
    p = proc () return (1) end p\tgives 1:13:V30\0\
    p = proc () returns (int) return (\"a\") end p\tgives 1:27:V30\0\
    p = proc () returns (int, int) return (1) end p\tgives 1:32:V30\0\
    p = proc (a: any) returns (int) return (a) end p\tgives 1:33:V30\0\
    p = iter () yields (int) return (1) end p\tgives 1:26:V30\0\
    p = iter () yields (int) yield end p\tgives 1:26:V30\0\
    p = iter () yields (int) yield (\"a\") end p\tgives 1:26:V30\0\
    p = iter () yields (int, int) yield (1, 2, 3) end p\tgives 1:31:V30\0\
    p = iter () yield (1) end p\tgives 1:13:V30\0\
    c = cluster is f rep = int f = proc (a: c) returns (cvt) return (a) end f end c\tgives 1:58:V30\0\
    p = proc () returns (any, int) return (\"a\", 1) end p\tgives ok\0\
    p = iter () yields (int) return yield (1) end p\tgives ok\0\
    p = proc () returns (int) end p\tgives ok\0\
    c = cluster is f, g rep = int f = proc (a: cvt) returns (cvt) return (a + 1) end f g = iter (a: c) yields (c, \
    cvt) yield (a, 1) end g end c\tgives ok\0\
    % V34: the name behind `end`, behind all else of the routine or cluster.\0\
    start_up = proc () end go\tgives 1:1:V34\0\
    c = cluster is f rep = null f = proc () end g end c\tgives 1:29:V34\0\
    c = cluster is f rep = null f = proc () end f end d\tgives 1:1:V34\0\
    p = iter () yields (int) end start_up\tgives 1:1:V34\0\
    n = 1 p = proc () end q\tgives 1:7:V34\0\
    c = cluster is f rep = null f = proc () end g end d\tgives 1:29:V34\0\
    p = proc () break end q\tgives 1:13:V28\0\
    P = proc () end p c = cluster is F rep = null f = proc () end F end C\tgives ok\0\
    % V37: an own initialiser names a formal argument, at the Own.\0\
    p = proc (x: int) own n: int := x end p\tgives 1:19:V37\0\
    p = proc (x: int) own n: int := 1 + -x end p\tgives 1:19:V37\0\
    p = proc (x: int) own m: int := 1 own n: int := q(m, x) end p q = proc (a, b: int) returns (int) return (a) end \
    q\tgives 1:35:V37\0\
    p = proc (x: int) own a, b: int := q(x) end p q = proc (x: int) returns (int, int) return (x, x) end q\tgives \
    1:19:V37\0\
    p = iter (x: any) yields (int) own n: any := x end p\tgives 1:32:V37\0\
    c = cluster is f rep = null f = proc (x: int) own n: int := x end f end c\tgives 1:47:V37\0\
    p = proc (x: int) own n: string := x end p\tgives 1:19:V15\0\
    p = proc [n: int] (x: int) own m: int := n own k: int := m + 1 x := k end p\tgives ok\0\
    p = proc (x: record[x: int]) own n: any := record[x: int]${x: 1} end p\tgives ok\0\
";
