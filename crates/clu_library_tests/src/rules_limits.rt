//! The limits: bytes of a name, of the text of an equated value, nodes of a routine, depth: V4, V8, V9 and V35.

/// How many rows `ROWS` has besides comments.
pub const ROWS_COUNT: usize = 88;

/// Sources with the place and the rule of their refusal, or `ok`.
pub const ROWS: &str = "\
    % A name of 200 bytes, and of 201: V4 at the node that has it.\0\
    p = proc () ^200^a^: int end p\tgives ok\0\
    ^200^a^ = proc () end ^200^a^\tgives ok\0\
    p = proc (^200^a^: int) end p\tgives ok\0\
    p = proc [^200^a^: type] () end p\tgives ok\0\
    p = proc () signals (^200^a^) end p\tgives ok\0\
    p = proc (x: record[^200^a^: int]) end p\tgives ok\0\
    p = proc [t: type] () where t has ^200^a^: proctype () end p\tgives ok\0\
    s = {^200^a^ | ^200^a^ has f: proctype ()} p = proc () end p\tgives ok\0\
    p = proc () own ^200^a^: int end p\tgives ok\0\
    p = proc () ^200^a^ = 1 end p\tgives ok\0\
    p = proc () begin end except when ^200^a^: end end p\tgives ok\0\
    p = proc () begin end except others (^200^a^: string): end end p\tgives ok\0\
    p = proc () begin exit ^200^a^ end except when ^200^a^: end end p\tgives ok\0\
    p = proc () ^201^a^: int end p\tgives 1:13:V4\0\
    ^201^a^ = proc () end ^201^a^\tgives 1:1:V4\0\
    p = proc (^201^a^: int) end p\tgives 1:11:V4\0\
    p = proc [^201^a^: type] () end p\tgives 1:11:V4\0\
    p = proc () signals (^201^a^) end p\tgives 1:22:V4\0\
    p = proc (x: record[^201^a^: int]) end p\tgives 1:21:V4\0\
    p = proc [t: type] () where t has ^201^a^: proctype () end p\tgives 1:35:V4\0\
    s = {^201^a^ | ^201^a^ has f: proctype ()} p = proc () end p\tgives 1:5:V4\0\
    p = proc () own ^201^a^: int end p\tgives 1:17:V4\0\
    p = proc () ^201^a^ = 1 end p\tgives 1:13:V4\0\
    p = proc () begin end except when ^201^a^: end end p\tgives 1:30:V4\0\
    p = proc () begin end except others (^201^a^: string): end end p\tgives 1:30:V4\0\
    p = proc () begin exit ^201^a^ end except when ^201^a^: end end p\tgives 1:19:V4\0\
    % Before other rules at the node; a module behind its body.\0\
    p = proc () x: any := ^201^a^ end p\tgives 1:23:V4\0\
    p = proc () ^201^a^ := 1 end p\tgives 1:13:V4\0\
    p = proc (x: ^201^a^) end p\tgives 1:14:V4\0\
    p = proc () x: any := int$^201^a^ end p\tgives 1:23:V4\0\
    p = proc (x: record[a: int]) y: int := x.^201^a^ end p\tgives 1:41:V4\0\
    p = proc () r: any := record[a: int]${^201^a^: 1} end p\tgives 1:39:V4\0\
    p = proc () where ^201^a^ has f: proctype () end p\tgives 1:19:V4\0\
    p = proc () for ^201^a^ in int$from_to(1, 2) do end end p\tgives 1:13:V4\0\
    p = proc (o: oneof[a: int]) tagcase o tag ^201^a^: others: end end p\tgives 1:39:V4\0\
    p = proc () signal ^201^a^ end p\tgives 1:13:V4\0\
    p = proc () begin end resignal ^201^a^ end p\tgives 1:23:V4\0\
    p = proc () end ^201^a^\tgives 1:1:V4\0\
    ^201^a^ = proc () break end ^201^a^\tgives 1:213:V28\0\
    ^201^a^ = proc () end ^201^a^ p = proc (x: t) end p\tgives 1:432:V5\0\
    c = cluster is ^201^a^, f rep = null f = proc () end f end c\tgives 1:1:V33\0\
    c = cluster is ^201^a^ rep = null ^201^a^ = proc () end ^201^a^ end c\tgives 1:229:V4\0\
    c = cluster is ^201^a^ rep = null ^201^a^ = proc () break end ^201^a^ end c\tgives 1:441:V28\0\
    % Digits of an integer literal are no limit.\0\
    p = proc () x: int := ^500^0^7 end p\tgives ok\0\
    % The text of an equated value has 65,536 bytes at most; that of a string of n bytes has 2 + 2 * n.\0\
    s = \"^32767^x^\" p = proc () end p\tgives ok\0\
    s = \"^32768^x^\" p = proc () end p\tgives 1:5:V8\0\
    s = \"^32768^x^\" || \"\" p = proc () end p\tgives 1:32776:V8\0\
    p = proc (x: c[s]) s = \"^32768^x^\" end p c = cluster [s: string] is f rep = null f = proc () end f end \
    c\tgives 1:16:V8\0\
    p = proc () s: string := \"^32768^x^\" end p\tgives ok\0\
    % Here t12 has a text of 65,523 bytes.\0\
    t0 = int t1 = struct[a, b: t0] t2 = struct[a, b: t1] t3 = struct[a, b: t2] t4 = struct[a, b: t3] t5 = struct[a, \
    b: t4] t6 = struct[a, b: t5] t7 = struct[a, b: t6] t8 = struct[a, b: t7] t9 = struct[a, b: t8] t10 = struct[a, \
    b: t9] t11 = struct[a, b: t10] t12 = struct[a, b: t11] t = record[^4^a^: t12] p = proc () end p\tgives ok\0\
    t0 = int t1 = struct[a, b: t0] t2 = struct[a, b: t1] t3 = struct[a, b: t2] t4 = struct[a, b: t3] t5 = struct[a, \
    b: t4] t6 = struct[a, b: t5] t7 = struct[a, b: t6] t8 = struct[a, b: t7] t9 = struct[a, b: t8] t10 = struct[a, \
    b: t9] t11 = struct[a, b: t10] t12 = struct[a, b: t11] t = record[^5^a^: t12] p = proc () end p\tgives 1:283:V9\0\
    t0 = int t1 = struct[a, b: t0] t2 = struct[a, b: t1] t3 = struct[a, b: t2] t4 = struct[a, b: t3] t5 = struct[a, \
    b: t4] t6 = struct[a, b: t5] t7 = struct[a, b: t6] t8 = struct[a, b: t7] t9 = struct[a, b: t8] t10 = struct[a, \
    b: t9] t11 = struct[a, b: t10] t12 = struct[a, b: t11] p = proc (x: record[^5^a^: t12]) end p\tgives ok\0\
    t0 = int t1 = struct[a, b: t0] t2 = struct[a, b: t1] t3 = struct[a, b: t2] t4 = struct[a, b: t3] t5 = struct[a, \
    b: t4] t6 = struct[a, b: t5] t7 = struct[a, b: t6] t8 = struct[a, b: t7] t9 = struct[a, b: t8] t10 = struct[a, \
    b: t9] t11 = struct[a, b: t10] t12 = struct[a, b: t11] p = proc (x: array[t]) t = record[^5^a^: t12] end \
    p\tgives 1:298:V9\0\
    % 4,000 nodes of a routine: statements, names after the first, parts of types, elements.\0\
    p = proc () ^3998^return ^end p\tgives ok\0\
    p = proc () n = 1 end p q = iter () ^3998^return ^end q\tgives ok\0\
    c = cluster is f rep = null f = proc () ^3998^return ^end f end c\tgives ok\0\
    c = cluster is f rep = null f = proc () ^3998^return ^end f g = proc () ^3998^return ^end g end c\tgives ok\0\
    p = proc () ^3999^return ^end p\tgives 1:1:V35\0\
    p = proc () n = 1 end p q = iter () ^3999^return ^end q\tgives 1:25:V35\0\
    c = cluster is f rep = null f = proc () ^3999^return ^end f end c\tgives 1:29:V35\0\
    p = proc () ^3999^return ^end q\tgives 1:1:V34\0\
    p = proc () ^3999^return ^break end p\tgives 1:28006:V28\0\
    p = proc () begin end except when ^3995^e, ^e: end end p\tgives ok\0\
    p = proc () begin end except when ^3996^e, ^e: end end p\tgives 1:1:V35\0\
    p = proc (x: proctype (^3995^int, ^int)) end p\tgives ok\0\
    p = proc (x: proctype (^3996^int, ^int)) end p\tgives 1:1:V35\0\
    p = proc () a: any := array[int]$[^3992^1, ^1] end p\tgives ok\0\
    c = cluster is f rep = null own b: int own a: any := array[int]$[^3992^1, ^1] f = proc () end f end c\tgives \
    1:1:V35\0\
    p = proc () a: any := array[int]$[^3993^1, ^1] end p\tgives 1:1:V35\0\
    t = proctype (^4001^int, ^int) p = proc () end p\tgives ok\0\
    % A string counts one node, and one more for each whole 64 bytes that it denotes.\0\
    p = proc () a: any := array[string]$[^3992^\"xxxxxxxxxxxxxxxxxxxxxxxxxxxxxxxxxxxxxxxxxxxxxxxxxxxxxxxxxxxxxxx\", \
    ^\"\"] end p\tgives ok\0\
    p = proc () a: any := array[string]$[^3993^\"xxxxxxxxxxxxxxxxxxxxxxxxxxxxxxxxxxxxxxxxxxxxxxxxxxxxxxxxxxxxxxx\", \
    ^\"\"] end p\tgives 1:1:V35\0\
    p = proc () a: any := array[string]$[^1996^\"xxxxxxxxxxxxxxxxxxxxxxxxxxxxxxxxxxxxxxxxxxxxxxxxxxxxxxxxxxxxxxxx\", \
    ^\"\"] end p\tgives ok\0\
    p = proc () return a: any := \
    array[string]$[^1996^\"xxxxxxxxxxxxxxxxxxxxxxxxxxxxxxxxxxxxxxxxxxxxxxxxxxxxxxxxxxxxxxxx\", ^\"\"] end p\tgives \
    1:1:V35\0\
    p = proc () a: any := array[string]$[^1997^\"xxxxxxxxxxxxxxxxxxxxxxxxxxxxxxxxxxxxxxxxxxxxxxxxxxxxxxxxxxxxxxxx\", \
    ^\"\"] end p\tgives 1:1:V35\0\
    p = proc () a: any := \
    array[string]$[^1100^\"\\101\\101\\101\\101\\101\\101\\101\\101\\101\\101\\101\\101\\101\\101\\101\\101\\101\\101\\101\\101\\101\\101\\101\\101\\101\\101\\101\\101\\101\\101\\101\\101\\101\\101\\101\\101\\101\\101\\101\\101\\101\\101\\101\\101\\101\\101\\101\\101\\101\\101\\101\\101\\101\\101\\101\\101\\101\\101\\101\\101\\101\\101\\101\", \
    ^\"\"] end p\tgives ok\0\
    % 4,000 nodes of a cluster's own declarations together.\0\
    c = cluster is f rep = null own b: int own a: any := array[int]$[^3991^1, ^1] f = proc () end f end c\tgives ok\0\
    c = cluster is f rep = null own a: any := array[int]$[^3991^1, ^1] own b, d: int f = proc () end f end c\tgives \
    1:1:V35\0\
    c = cluster is f rep = null own a: any := array[int]$[^3990^1, ^1] own b, d: int f = proc () end f end c\tgives \
    ok\0\
    t = proctype (^3000^int, ^int) c = cluster is f u = proctype (^3000^int, ^int) rep = array[u] f = proc () end f \
    end c\tgives ok\0\
    % Depth 200, in each sort of node that nests.\0\
    p = proc () x: bool := ^196^~^true end p\tgives ok\0\
    p = proc () x = ^196^~^true end p\tgives ok\0\
    p = proc () x: int := ^196^1 + ^1 end p\tgives ok\0\
    x = ^197^~^true p = proc () end p\tgives ok\0\
    p = proc () q[^194^~^true]() end p q = proc [b: bool] () end q\tgives ok\0\
    p = proc () begin end ^197^resignal failure ^end p\tgives ok\0\
    p = proc () begin end ^197^except end ^end p\tgives ok\0\
    p = proc () if true then ^1000^elseif true then ^end end p\tgives ok\0\
";
