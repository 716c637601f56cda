//! Programs with operations of built-in types in place, and the same called through where clauses and routine objects:
//! what they raise and where, the order of what is raised, conditions, expressions that are deep, and far variables.

/// How many rows `PLACE_FILES` has besides comments.
pub const PLACE_FILES_COUNT: usize = 9;

/// Rows as those of `status_rows`.
pub const PLACE_FILES: &str = "\
    go a b\t\t\tstart_up = proc () f: proctype (int, int) returns (int) signals (overflow) := int$add @#f(2, 3))) \
    @#f(9223372036854775807, 1))) except when overflow: @\"over\") end g: proctype (int, int) returns (int) signals \
    (overflow, zero_divide) := int$div @#g(-7, 2))) @#g(1, 0))) except when zero_divide: @\"zero\") end h: proctype \
    (string, int) returns (char) signals (bounds) := string$fetch @string$c2s(h(\"abc\", 2))) @string$c2s(h(\"abc\", \
    4))) except when bounds: @\"bounds\") end s: proctype (array[int], int, int) signals (bounds) := \
    array[int]$store a: array[int] := array[int]$[1, 2] s(a, 2, 7) @#a[2])) s(a, 3, 7) except when bounds: \
    @\"bounds\") end i: proctype (int) returns (char) signals (illegal_char) := char$i2c @#char$c2i(i(97)))) \
    @#char$c2i(i(256)))) except when illegal_char: @\"illegal\") end end start_up\tgives \
    0\t5\nover\n-4\nzero\nb\nbounds\n7\nbounds\n97\nillegal\n\t\0\
    go a b\t\t\tsum = proc [t: type] (a, b: t) returns (t) signals (overflow) where t has add: proctype (t, t) \
    returns (t) signals (overflow) return (t$add(a, b)) resignal overflow end sum pick = proc [t: type] (x: t) \
    returns (int) signals (wrong_tag) where t has value_a: proctype (t) returns (int) signals (wrong_tag) return \
    (t$value_a(x)) resignal wrong_tag end pick put = proc [t: type] (x: t, n: int) where t has set_f: proctype (t, \
    int) t$set_f(x, n) end put o = oneof[a: int, b: null] r = record[f: int, g: int] start_up = proc () \
    @#sum[int](3, 4))) @#sum[int](9223372036854775807, 4))) except when overflow: @\"over\") end \
    @#pick[o](o$make_a(1)))) @#pick[o](o$make_b(nil)))) except when wrong_tag: @\"tag\") end x: r := r${f: 1, g: 2} \
    put[r](x, 9) @#x.f)) end start_up\tgives 0\t7\nover\n1\ntag\n9\n\t\0\
    go a b\t\t\tstart_up = proc () big: int := 9223372036854775807 a: array[int] := array[int]$[1] x: int := 0 begin \
    x := a[2] + big end except when overflow: @\"over\") when bounds: @\"bounds\") end begin x := a[1] + big end \
    except when overflow: @\"over\") when bounds: @\"bounds\") end x := a[1] x := x + big except when overflow: \
    @\"sum\") end begin x := a[2] except when bounds: @\"first\") end x := x + big end except when overflow: \
    @\"second\") end end start_up\tgives 0\tbounds\nover\nsum\nfirst\nsecond\n\t\0\
    go a b\t\t\tstart_up = proc () z: int := 0 a: array[int] := array[int]$[1] a[1 / z] := a[9] except when \
    zero_divide: @\"index\") when bounds: @\"element\") end a[9] := 1 / z except when zero_divide: @\"value\") when \
    bounds: @\"place\") end a[9] := 1 except when bounds: @\"place\") end a[a[1]] := 5 @#a[1])) end start_up\tgives \
    0\tindex\nvalue\nplace\n5\n\t\0\
    go a b\t\t\tstart_up = proc () z: int := 0 t: bool := true f: bool := false if f cand 1 / z = 1 then @\"a\") \
    else @\"b\") end if t cor 1 / z = 1 then @\"c\") end if ~(t cand f) cand z < 1 cor f then @\"d\") end b: bool := \
    t cand 1 / z = 1 except when zero_divide: @\"e\") end while z < 3 cand t do z := z + 1 end @#z)) x: bool := f \
    cor z = 3 if x then @\"f\") end end start_up\tgives 0\tb\nc\nd\ne\n3\nf\n\t\0\
    go a b\t\t\tstart_up = proc () n: int := 1 @#n + (n + (n + (n + (n + (n + (n + (n + (n + (n + (n + (n + (n + (n \
    + (n + (n + (n + (n + (n + (n + (n + (n + (n + (n + (n + (n + (n + (n + (n + (n + (n + (n + (n + (n + (n + (n + \
    (n + (n + (n + (n + (n + (n + (n + (n + (n + (n + (n + (n + (n + (n + (n + (n + (n + (n + (n + (n + (n + (n + (n \
    + (n + (n + (n + (n + (n + (n + (n + (n + (n + (n + (n + (n + (n + (n + (n + (n + (n + (n + (n + (n + (n + (n + \
    (n + (n + (n + (n + (n + (n + (n + (n + (n + \
    (n)))))))))))))))))))))))))))))))))))))))))))))))))))))))))))))))))))))))))))))))))))))))))))) @#n + n + n + n + \
    n + n + n + n + n + n + n + n + n + n + n + n + n + n + n + n + n + n + n + n + n + n + n + n + n + n + n + n + \
    n + n + n + n + n + n + n + n + n + n + n + n + n + n + n + n + n + n + n + n + n + n + n + n + n + n + n + n + \
    n + n + n + n + n + n + n + n + n + n + n + n + n + n + n + n + n + n + n + n + n + n + n + n + n + n + n + n + \
    n + n + n + n + n + n + n + n + n + n + n + n + n + n + n + n + n + n + n + n + n + n + n + n + n + n + n + n + \
    n + n + n + n + n + n + n + n + n + n + n + n + n + n + n + n + n + n + n + n + n + n + n + n + n + n + n + n + \
    n + n + n + n + n + n + n + n + n + n + n + n + n + n + n + n)) end start_up\tgives 0\t91\n160\n\t\0\
    go a b\t\t\tstart_up = proc () v1, v2, v3, v4, v5, v6, v7, v8, v9, v10, v11, v12, v13, v14, v15, v16, v17, v18, \
    v19, v20, v21, v22, v23, v24, v25, v26, v27, v28, v29, v30, v31, v32, v33, v34, v35, v36, v37, v38, v39, v40, \
    v41, v42, v43, v44, v45, v46, v47, v48, v49, v50, v51, v52, v53, v54, v55, v56, v57, v58, v59, v60, v61, v62, \
    v63, v64, v65, v66, v67, v68, v69, v70, v71, v72, v73, v74, v75, v76, v77, v78, v79, v80, v81, v82, v83, v84, \
    v85, v86, v87, v88, v89, v90, v91, v92, v93, v94, v95, v96, v97, v98, v99, v100, v101, v102, v103, v104, v105, \
    v106, v107, v108, v109, v110, v111, v112, v113, v114, v115, v116, v117, v118, v119, v120, v121, v122, v123, \
    v124, v125, v126, v127, v128, v129, v130, v131, v132, v133, v134, v135, v136, v137, v138, v139, v140: int a: \
    array[int] b: bool s: string q: sequence[int] v138 := 2 v139 := 7 v140 := v138 + v139 @#v140)) v140 := v138 - \
    v139 @#v140)) v140 := v138 * v139 @#v140)) v140 := v138 / v139 @#v140)) v140 := v138 // v139 @#v140)) b := v138 \
    < v139 if b then @\"yes\") end s := \"abc\" @string$c2s(s[v138])) a := array[int]$[3, 4] v140 := a[v138] \
    @#v140)) a[v138] := v140 + v138 @#a[v138])) v140 := 9223372036854775807 v140 := v140 + v138 except when \
    overflow: @\"over\") end q := sequence[int]$[1, 2] v140 := q[v138] @#v140)) if v138 = 2 cand v139 > v138 then \
    @\"a\") end if v138 = 3 cor v139 ~= 7 then @\"b\") else @\"c\") end end start_up\tgives \
    0\t9\n-5\n14\n0\n2\nyes\nb\n4\n6\nover\n2\na\nc\n\t\0\
    go a b\t\t\tstart_up = proc () x: int y: int := 1 y := y + x end start_up\tgives 1\t\tfailure: uninitialized \
    variable\n\0\
    go a b\t\t\tstart_up = proc () for i: int in int$from_to(1, 3) do @#i)) end for i: int in \
    int$from_to(9223372036854775807, 9223372036854775807) do @\"1\") end for i: int in int$from_to(3, 2) do @#i)) \
    end for i: int in int$from_to_by(3, 1, -3) do @#i)) end for c: char in string$chars(\"ab\") do @string$c2s(c)) \
    end for c: char in string$chars(\"\") do @string$c2s(c)) end a: array[int] := array[int]$[3: 5, 6] for i: int in \
    array[int]$indexes(a) do @#i)) end for e: int in array[int]$elements(a) do @#array[int]$size(a) + 2)) break end \
    for e: int in array[int]$elements(a) do if e = 5 then x: int := array[int]$remh(a) end @#e - 2)) end q: \
    sequence[int] := sequence[int]$[] for e: int in sequence[int]$elements(q) do @#e)) end for i: int in \
    sequence[int]$indexes(q) do @#i)) end @#sequence[int]$size(q))) end start_up\tgives \
    0\t1\n2\n3\n1\n3\na\nb\n3\n4\n4\n3\n0\n\t\0\
";
