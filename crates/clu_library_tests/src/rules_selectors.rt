//! Selectors and constructors: V17.

/// How many rows `ROWS` has besides comments.
pub const ROWS_COUNT: usize = 22;

/// Sources with the place and the rule of their refusal, or `ok`.
pub const ROWS: &str = "\
    % V17: a selector stands twice.\0\
    p = proc (r: record[a: int, a: string]) end p\tgives 1:29:V17\0\
    p = proc (r: record[a, a: int]) end p\tgives 1:21:V17\0\
    p = proc (r: struct[a, b: int, b: int]) end p\tgives 1:32:V17\0\
    t = oneof[a: int, b: null, A: int] p = proc () end p\tgives 1:28:V17\0\
    p = proc () x: variant[a: int, a: int] end p\tgives 1:32:V17\0\
    p = proc () r: any := record[a: int]${a: 1, a: 2} end p\tgives 1:45:V17\0\
    p = proc () r: any := record[a: int]${a, a: 1} end p\tgives 1:39:V17\0\
    % A constructor has not exactly the selectors of its type, or the type has no such constructor.\0\
    p = proc () r: any := record[a, b: int]${a: 1} end p\tgives 1:23:V17\0\
    p = proc () r: any := record[a: int]${a: 1, b: 2} end p\tgives 1:23:V17\0\
    p = proc () r: any := struct[a: int]${b: 1} end p\tgives 1:23:V17\0\
    p = proc () r: any := array[int]${a: 1} end p\tgives 1:23:V17\0\
    p = proc () r: any := int${a: 1} end p\tgives 1:23:V17\0\
    p = proc () r: any := oneof[a: int]${a: 1} end p\tgives 1:23:V17\0\
    p = proc () r: any := record[a: int]$[1] end p\tgives 1:23:V17\0\
    p = proc () r: any := int$[] end p\tgives 1:23:V17\0\
    p = proc () r: any := string$['a'] end p\tgives 1:23:V17\0\
    p = proc () r: any := sequence[int]$[1: 2, 3] end p\tgives 1:23:V17\0\
    c = cluster is f rep = array[int] f = proc () end f end c p = proc () x: any := c$[1] end p\tgives 1:81:V17\0\
    p = proc [t: type] () x: any := t$[] end p\tgives 1:33:V17\0\
    p = proc () r: any := record[a, b: int]${b: 1, a: 2} r := struct[a, b: int]${a, b: 1} r := array[int]$[5: 1, 2] \
    end p\tgives ok\0\
    p = proc () r: any := sequence[int]$[] r := array[int]$[] r := array[int]$[1:] end p\tgives ok\0\
    p = proc (r: record[b: string, a: int]) r := record[a: int, b: string]${a: 1, b: \"x\"} end p\tgives ok\0\
";
