//! `tagcase` and the arms of `except`: V21 to V24.

/// How many rows `ROWS` has besides comments.
pub const ROWS_COUNT: usize = 76;

/// Sources with the place and the rule of their refusal, or `ok`.
pub const ROWS: &str = "\
    % V21: `tagcase` on no oneof or variant; its arms then violate nothing.\0\
    p = proc (x: int) tagcase x tag a: end end p\tgives 1:19:V21\0\
    p = proc (x: record[a: int]) tagcase x tag a: others: end end p\tgives 1:30:V21\0\
    p = proc (x: any) tagcase x tag a (n: int): tag a: end end p\tgives 1:19:V21\0\
    c = cluster is f rep = oneof[a: int] f = proc (x: c) tagcase x tag a: end end f end c\tgives 1:54:V21\0\
    p = proc (x: int) tagcase x tag a: break end end p\tgives 1:36:V28\0\
    c = cluster is f rep = oneof[a: int] f = proc (x: cvt) tagcase x tag a: end tagcase down(up(x)) tag a: end end f \
    end c\tgives ok\0\
    % V22: a foreign tag or one twice at the TagArm, one that is left at the Tagcase.\0\
    p = proc (o: oneof[a: int]) tagcase o tag a: tag b: end end p\tgives 1:46:V22\0\
    p = proc (o: oneof[a: int]) tagcase o tag b: others: end end p\tgives 1:39:V22\0\
    p = proc (o: variant[a: int]) tagcase o tag a: tag a: end end p\tgives 1:48:V22\0\
    p = proc (o: oneof[a: int]) tagcase o tag a, a: end end p\tgives 1:39:V22\0\
    p = proc (o: oneof[a, b: int]) tagcase o tag b: tag a, b: end end p\tgives 1:49:V22\0\
    p = proc (o: oneof[a, b: int]) tagcase o tag a: end end p\tgives 1:32:V22\0\
    p = proc (o: variant[a, b, c: int]) tagcase o tag c, a: end end p\tgives 1:37:V22\0\
    p = proc (o: oneof[a: int, b: string]) tagcase o tag a, c (n: string): end end p\tgives 1:50:V15\0\
    p = proc (o: oneof[a: int, b: string]) tagcase o tag c (n: string): end end p\tgives 1:50:V22\0\
    p = proc (o: oneof[a, b, c: int]) tagcase o tag c, a: tag b (n: int): end end p\tgives ok\0\
    p = proc (o: variant[a, b, c: int]) tagcase o tag c: others: end end p\tgives ok\0\
    p = proc (o: oneof[A: int]) tagcase o tag a: others: end end p\tgives ok\0\
    % V23: the declarations of an arm against what the statement raises of its names, at the When or Others.\0\
    p = proc () q() except when e: end end p q = proc () signals (e(int)) end q\tgives 1:24:V23\0\
    p = proc () q() except when e (n: int): end end p q = proc () signals (e) end q\tgives 1:24:V23\0\
    p = proc () q() except when e (n: string): end end p q = proc () signals (e(int)) end q\tgives 1:24:V23\0\
    p = proc () q() except when e (n: int, m: int): end end p q = proc () signals (e(int)) end q\tgives 1:24:V23\0\
    p = proc () q() except when e, f (n: int): end end p q = proc () signals (e(int), f(string)) end q\tgives \
    1:24:V23\0\
    p = proc () begin q() r() end except when e (n: int): end end p q = proc () signals (e(int)) end q r = proc () \
    signals (e(string)) end r\tgives 1:38:V23\0\
    p = proc () q() except when f: when e: end end p q = proc () signals (e(int)) end q\tgives 1:32:V23\0\
    p = proc () begin q() end except others (n: int): end end p q = proc () end q\tgives 1:34:V23\0\
    p = proc () begin end except others (c: char): end end p\tgives 1:30:V23\0\
    p = proc () begin end except others (o: oneof[a: string]): end end p\tgives 1:30:V23\0\
    p = proc (s: string) c: char := s[1] except when bounds (n: int): end end p\tgives 1:45:V23\0\
    p = proc () x: int := 1 / 2 except when zero_divide (s: string): end end p\tgives 1:36:V23\0\
    p = proc (f: proctype () signals (e(int))) f() except when e: end end p\tgives 1:55:V23\0\
    p = proc (s: stream) c: char := stream$getc(s) except when not_possible: end end p\tgives 1:55:V23\0\
    p = proc () for i: int in q() do end except when e: end end p q = iter () yields (int) signals (e(int)) end \
    q\tgives 1:45:V23\0\
    p = proc () while true do q() end except when e: end end p q = proc () signals (e(int)) end q\tgives 1:42:V23\0\
    p = proc () for i: int in int$from_to(1, 2) do q() end except when e: end end p q = proc () signals (e(int)) end \
    q\tgives 1:63:V23\0\
    p = proc () q() except when e (n: int): end end p q = proc () signals (e(int)) end q\tgives ok\0\
    p = proc () q() except when e (n: any): end end p q = proc () signals (e(int)) end q\tgives ok\0\
    p = proc () q() except when e, f (*): end end p q = proc () signals (e(int), f) end q\tgives ok\0\
    p = proc () q() except when e, f (n: any): end end p q = proc () signals (e(int), f(string)) end q\tgives ok\0\
    p = proc () begin end except others (a: any): end begin end except others (s: string): end end p\tgives ok\0\
    p = proc () begin end except when zork (n: int, s: string): end end p\tgives ok\0\
    % `failure(string)` is raised by each invocation, sugar, use of a variable and Elems.\0\
    p = proc () q() except when failure: end end p q = proc () end q\tgives 1:24:V23\0\
    p = proc () x: int := 1 + 1 except when failure: end end p\tgives 1:36:V23\0\
    p = proc (x: int) y: int := x except when failure: end end p\tgives 1:38:V23\0\
    p = proc (x: int) if true then x := x end except when failure: end end p\tgives 1:50:V23\0\
    p = proc () a: any := array[int]$[1] except when failure: end end p\tgives 1:45:V23\0\
    p = proc (r: record[a: int]) r.a := 1 except when failure (n: int): end end p\tgives 1:46:V23\0\
    p = proc (x: any) returns (any) return (x) except when failure: end end p\tgives 1:51:V23\0\
    p = proc (x: bool) while x do end except when failure: end end p\tgives 1:42:V23\0\
    p = proc (x: any) y: int := force[int](x) except when wrong_type (s: string): end end p\tgives 1:50:V23\0\
    p = proc () q() except when failure (s: string): end end p q = proc () end q\tgives ok\0\
    p = proc () x: int x := 1 except when failure: end end p\tgives ok\0\
    p = proc () r: any r := record[a: int]${a: 1} except when failure: end end p\tgives ok\0\
    p = proc () f: any f := int$add except when failure: end end p\tgives ok\0\
    p = proc () signals (e) begin signal e end except when failure: end end p\tgives ok\0\
    p = proc () while true do break end except when failure: end end p\tgives ok\0\
    p = proc (x: int) signals (e(int)) begin signal e(x) end except when failure: end end p\tgives 1:65:V23\0\
    p = proc (x: int) begin exit e(x) end except when e (n: int): when failure: end end p\tgives 1:63:V23\0\
    % What an arm inside takes is no raise of the statement, what its body raises is.\0\
    p = proc () begin q() except when e (n: int): end end except when e: end end p q = proc () signals (e(int)) end \
    q\tgives ok\0\
    p = proc () begin q() except others: end end except when e: when failure: end end p q = proc () signals (e(int)) \
    end q\tgives ok\0\
    p = proc () signals (e(int)) begin q() resignal e end except when e: end end p q = proc () signals (e(int)) end \
    q\tgives ok\0\
    p = proc () begin q() except when f: end end except when e: end end p q = proc () signals (e(int), f) end \
    q\tgives 1:53:V23\0\
    p = proc () begin begin exit x end except when x: q() end end except when e: end end p q = proc () signals \
    (e(int)) end q\tgives 1:70:V23\0\
    p = proc () begin q() except others: q() end end except when e: end end p q = proc () signals (e(int)) end \
    q\tgives 1:57:V23\0\
    p = proc () q() except when f: q() when e (n: int): end end p q = proc () signals (e(int), f) end q\tgives ok\0\
    % Declarations and body of an arm before its rules.\0\
    p = proc () q() except when e (n: t): end end p q = proc () signals (e(int)) end q\tgives 1:35:V5\0\
    p = proc () q() except when e: break end end p q = proc () signals (e(int)) end q\tgives 1:32:V28\0\
    p = proc () q() except when e: when f: break end end p q = proc () signals (e(int)) end q\tgives 1:24:V23\0\
    % V24: a name in two arms of one `except`, at the second.\0\
    p = proc () q() except when e: when e: end end p q = proc () signals (e) end q\tgives 1:32:V24\0\
    p = proc () begin end except when e, f: when g: when h, f: end end p\tgives 1:49:V24\0\
    p = proc () begin end except when e: when e: when e: end end p\tgives 1:38:V24\0\
    p = proc () begin end except when e: when E: others: end end p\tgives 1:38:V24\0\
    p = proc () q() except when e: when e (n: int): end end p q = proc () signals (e) end q\tgives 1:32:V23\0\
    p = proc () begin end except when e, e: end end p\tgives ok\0\
    p = proc () begin begin end except when e: end end except when e: end end p\tgives ok\0\
    p = proc () begin end except when e: when others2: others: end end p\tgives ok\0\
";
