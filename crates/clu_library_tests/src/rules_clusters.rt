//! The parts of clusters: V31 to V33.

/// How many rows `ROWS` has besides comments.
pub const ROWS_COUNT: usize = 44;

/// Sources with the place and the rule of their refusal, or `ok`.
pub const ROWS: &str = "\
    % V31: `cvt` stands whole in arguments, results, yields and signals of a cluster's routine, `rep` inside a \
    cluster.\0\
    p = proc (x: cvt) end p\tgives 1:14:V31\0\
    p = proc () returns (cvt) end p\tgives 1:22:V31\0\
    p = proc () x: cvt end p\tgives 1:16:V31\0\
    p = proc () x: rep end p\tgives 1:16:V31\0\
    p = proc () x: any := rep$new() end p\tgives 1:23:V31\0\
    p = proc (x: rep) end p\tgives 1:14:V31\0\
    t = rep c = cluster is f rep = null f = proc () end f end c\tgives 1:5:V31\0\
    p = proc (x: array[rep]) end p c = cluster is f rep = null f = proc () end f end c\tgives 1:20:V31\0\
    c = cluster is f rep = null f = proc (x: array[cvt]) end f end c\tgives 1:48:V31\0\
    c = cluster is f rep = null f = proc (x: proctype (cvt)) end f end c\tgives 1:52:V31\0\
    c = cluster is f rep = null own x: cvt f = proc () end f end c\tgives 1:36:V31\0\
    c = cluster is f rep = null t = cvt f = proc () end f end c\tgives 1:33:V31\0\
    c = cluster is f rep = array[cvt] f = proc () end f end c\tgives 1:30:V31\0\
    c = cluster is f rep = null f = proc () x: cvt end f end c\tgives 1:44:V31\0\
    c = cluster is f rep = null f = proc () cvt$f() end f end c\tgives 1:41:V31\0\
    c = cluster is f rep = null f = proc () x: any := force[cvt](1) end f end c\tgives 1:57:V31\0\
    c = cluster [t: type] is f rep = null f = proc () where t has h: proctype (cvt) end f end c\tgives 1:76:V31\0\
    c = cluster [t: type] is f where t has h: proctype () returns (cvt) rep = null f = proc () end f end c\tgives \
    1:64:V31\0\
    c = cluster [n: cvt] is f rep = null f = proc () end f end c\tgives 1:17:V31\0\
    c = cluster is f, g rep = int f = proc (x, y: cvt, z: rep) returns (cvt, rep, int) signals (e(cvt, int)) z := x \
    + y return (x, y, z) end f g = iter () yields (cvt) yield (1) end g end c\tgives ok\0\
    c = cluster is f rep = array[int] t = record[a: rep] own r: rep := rep$new() f = proc () x: array[rep] := \
    array[rep]$[r] end f end c\tgives ok\0\
    % A cluster has one `rep`; asked at the Cluster, behind its routines.\0\
    c = cluster is f f = proc () end f end c\tgives 1:1:V31\0\
    c = cluster is f rep = null rep = int f = proc () end f end c\tgives 1:1:V31\0\
    p = proc () end p c = cluster is f t = int f = proc () end f end d\tgives 1:19:V31\0\
    c = cluster is f f = proc () break end f end c\tgives 1:30:V28\0\
    c = cluster is f f = proc (x: rep) end f end c\tgives 1:31:V9\0\
    c = cluster is f f = proc () x: rep end f end c\tgives 1:33:V9\0\
    c = cluster is f f = proc (x: cvt) x := 1 end f end c\tgives 1:36:V15\0\
    % V32: `up` and `down` inside a cluster, on a rep object and on an object of its type.\0\
    p = proc () x: any := up(1) end p\tgives 1:23:V32\0\
    p = proc () x: any := down(1) end p\tgives 1:23:V32\0\
    start_up = proc () a: array[int] := down(box$make()) end start_up box = cluster is make rep = array[int] make = \
    proc () returns (cvt) return (rep$new()) end make end box\tgives 1:37:V32\0\
    c = cluster is f rep = int f = proc () x: any := up(\"a\") end f end c\tgives 1:50:V32\0\
    c = cluster is f rep = any f = proc () x: any := up(1) end f end c\tgives 1:50:V32\0\
    c = cluster is f rep = int f = proc (a: c) x: any := up(a) end f end c\tgives 1:54:V32\0\
    c = cluster is f rep = int f = proc (a: cvt) x: any := down(a) end f end c\tgives 1:56:V32\0\
    c = cluster [t: type] is f rep = int f = proc (a: c[int]) x: any := down(a) end f end c\tgives 1:69:V32\0\
    c = cluster is f rep = int f = proc (a: c, b: cvt) a := up(b + down(a)) end f end c\tgives ok\0\
    c = cluster [t: type] is f rep = t f = proc (a: c[t]) b: t := down(a) a := up(b) end f end c\tgives ok\0\
    % V33: an exported name without a routine, at the Cluster on the first walk.\0\
    c = cluster is g rep = null f = proc () end f end c\tgives 1:1:V33\0\
    c = cluster is f, g rep = null f = proc () end f end c\tgives 1:1:V33\0\
    p = proc () break end p c = cluster is f, g rep = null f = proc () end f end c\tgives 1:25:V33\0\
    c = cluster is n rep = null n = 1 f = proc () end f end c\tgives 1:1:V33\0\
    c = cluster is f, g rep = null f = proc (x: t) end f end c\tgives 1:45:V5\0\
    c = cluster is f rep = null f = proc () end f g = proc () end g end c\tgives ok\0\
";
