//! Programs whose code is at the edges of what instructions, frames and registers hold, each with and without `--peep`.

/// How many rows `CODE_FILES` has besides comments.
pub const CODE_FILES_COUNT: usize = 30;

/// Rows as those of `status_rows`.
pub const CODE_FILES: &str = "\
    % Words of each length.\0\
    go a b\t\t\tstart_up = proc () @#0)) @#1)) @#2047)) @#2048)) @#4294967295)) @#2147483647)) @#2147481600)) \
    @#2147483648)) @#9223372036854775807)) @#9223372034707292160)) @#1311768467463790320)) @#-1)) @#-2047)) \
    @#-2048)) @#-2049)) @#-2147483648)) @#-81985529216486896)) @#-9223372036854775807 - 1)) end start_up\tgives \
    0\t0\n1\n2047\n2048\n4294967295\n2147483647\n2147481600\n2147483648\n9223372036854775807\n9223372034707292160\n1311768467463790320\n-1\n-2047\n-2048\n-2049\n-2147483648\n-81985529216486896\n-9223372036854775808\n\t\0\
    go --peep a b\t\t\tstart_up = proc () @#0)) @#1)) @#2047)) @#2048)) @#4294967295)) @#2147483647)) @#2147481600)) \
    @#2147483648)) @#9223372036854775807)) @#9223372034707292160)) @#1311768467463790320)) @#-1)) @#-2047)) \
    @#-2048)) @#-2049)) @#-2147483648)) @#-81985529216486896)) @#-9223372036854775807 - 1)) end start_up\tgives \
    0\t0\n1\n2047\n2048\n4294967295\n2147483647\n2147481600\n2147483648\n9223372036854775807\n9223372034707292160\n1311768467463790320\n-1\n-2047\n-2048\n-2049\n-2147483648\n-81985529216486896\n-9223372036854775808\n\t\0\
    % Sums and comparisons with what an immediate holds, and with what it does not.\0\
    go a b\t\t\tstart_up = proc () x: int := 7 @#x + 2047)) @#x + 2048)) @#x - 2048)) @#x - 2049)) @#2047 + x)) \
    @#2048 - x)) @#x * 2048)) b: bool := x < 2047 | x > 2048 if b & ~(x = 2048) then @\"small\") end end \
    start_up\tgives 0\t2054\n2055\n-2041\n-2042\n2054\n2041\n14336\nsmall\n\t\0\
    go --peep a b\t\t\tstart_up = proc () x: int := 7 @#x + 2047)) @#x + 2048)) @#x - 2048)) @#x - 2049)) @#2047 + \
    x)) @#2048 - x)) @#x * 2048)) b: bool := x < 2047 | x > 2048 if b & ~(x = 2048) then @\"small\") end end \
    start_up\tgives 0\t2054\n2055\n-2041\n-2042\n2054\n2041\n14336\nsmall\n\t\0\
    % Slots that are far: from 8 * 256 bytes on they are out of an immediate's reach.\0\
    go a b\t\t\tstart_up = proc () ^245^v?: int := ? ^@#v0 + v244)) @#v244 - v242)) v1 := v243 @#v1)) end \
    start_up\tgives 0\t244\n2\n243\n\t\0\
    go --peep a b\t\t\tstart_up = proc () ^245^v?: int := ? ^@#v0 + v244)) @#v244 - v242)) v1 := v243 @#v1)) end \
    start_up\tgives 0\t244\n2\n243\n\t\0\
    go a b\t\t\tstart_up = proc () ^250^v?: int := ? ^@#v0 + v249)) @#v249 - v247)) v1 := v248 @#v1)) end \
    start_up\tgives 0\t249\n2\n248\n\t\0\
    go --peep a b\t\t\tstart_up = proc () ^250^v?: int := ? ^@#v0 + v249)) @#v249 - v247)) v1 := v248 @#v1)) end \
    start_up\tgives 0\t249\n2\n248\n\t\0\
    go a b\t\t\tstart_up = proc () ^255^v?: int := ? ^@#v0 + v254)) @#v254 - v252)) v1 := v253 @#v1)) end \
    start_up\tgives 0\t254\n2\n253\n\t\0\
    go --peep a b\t\t\tstart_up = proc () ^255^v?: int := ? ^@#v0 + v254)) @#v254 - v252)) v1 := v253 @#v1)) end \
    start_up\tgives 0\t254\n2\n253\n\t\0\
    go a b\t\t\tstart_up = proc () ^260^v?: int := ? ^@#v0 + v259)) @#v259 - v257)) v1 := v258 @#v1)) end \
    start_up\tgives 0\t259\n2\n258\n\t\0\
    go --peep a b\t\t\tstart_up = proc () ^260^v?: int := ? ^@#v0 + v259)) @#v259 - v257)) v1 := v258 @#v1)) end \
    start_up\tgives 0\t259\n2\n258\n\t\0\
    go a b\t\t\tstart_up = proc () ^600^v?: int := ? ^@#v0 + v599)) @#v599 - v597)) v1 := v598 @#v1)) end \
    start_up\tgives 0\t599\n2\n598\n\t\0\
    go --peep a b\t\t\tstart_up = proc () ^600^v?: int := ? ^@#v0 + v599)) @#v599 - v597)) v1 := v598 @#v1)) end \
    start_up\tgives 0\t599\n2\n598\n\t\0\
    % Sums that need twelve and nineteen registers, or one.\0\
    go a b\t\t\tstart_up = proc () x: int := 7 @#^11^(x + ^x^11^)^)) @#^18^(x + ^x^18^)^)) @#x^16^ + 1^)) @#(x + 8) \
    * (x + 8) - (x * 8 - (8 - x)))) end start_up\tgives 0\t84\n133\n23\n170\n\t\0\
    go --peep a b\t\t\tstart_up = proc () x: int := 7 @#^11^(x + ^x^11^)^)) @#^18^(x + ^x^18^)^)) @#x^16^ + 1^)) \
    @#(x + 8) * (x + 8) - (x * 8 - (8 - x)))) end start_up\tgives 0\t84\n133\n23\n170\n\t\0\
    % Conditions that are jumps.\0\
    go a b\t\t\tstart_up = proc () a: array[bool] := array[bool]$[true, false] x: int := 7 if x < 8 & a[1] cor a[9] \
    then @\"a\") end if x = 8 | a[2] cor x ~= 7 then @\"b\") elseif ~a[2] cand x > 6 then @\"c\") end b: bool := x < \
    8 & ~a[2] if b cand a[3] then @\"d\") end except when bounds: @\"e\") end end start_up\tgives 0\ta\nc\ne\n\t\0\
    go --peep a b\t\t\tstart_up = proc () a: array[bool] := array[bool]$[true, false] x: int := 7 if x < 8 & a[1] \
    cor a[9] then @\"a\") end if x = 8 | a[2] cor x ~= 7 then @\"b\") elseif ~a[2] cand x > 6 then @\"c\") end b: \
    bool := x < 8 & ~a[2] if b cand a[3] then @\"d\") end except when bounds: @\"e\") end end start_up\tgives \
    0\ta\nc\ne\n\t\0\
    % The longest name.\0\
    go a b\t\t\tp = proc () signals (^200^n^) signal ^200^n^ end p start_up = proc () p() end start_up\tgives \
    1\t\tfailure: unhandled exception: ^200^n^\n\0\
    go --peep a b\t\t\tp = proc () signals (^200^n^) signal ^200^n^ end p start_up = proc () p() end start_up\tgives \
    1\t\tfailure: unhandled exception: ^200^n^\n\0\
    % What a routine passes on has all its objects; no arm takes the last.\0\
    go a b\t\t\tp = proc () signals (e(int, int)) signal e(11, 22) end p q = proc () signals (e(int, int)) p() \
    resignal e end q start_up = proc () q() except when e (a, b: int): @#a)) @#b)) end p() end start_up\tgives \
    1\t11\n22\n\tfailure: unhandled exception: e\n\0\
    go --peep a b\t\t\tp = proc () signals (e(int, int)) signal e(11, 22) end p q = proc () signals (e(int, int)) \
    p() resignal e end q start_up = proc () q() except when e (a, b: int): @#a)) @#b)) end p() end start_up\tgives \
    1\t11\n22\n\tfailure: unhandled exception: e\n\0\
    % Three hundred regions that lie side by side, and a failure that is taken twice.\0\
    go a b\t\t\tp = proc () x: int @#x)) end p q = proc () p() end q start_up = proc () ^300^x?: int := ? begin x? \
    := x? / x? end except when zero_divide: x? := 1 end ^ @#x0 + x1 + x299)) p() except when failure (s: string): \
    @s) end q() except when failure (s: string): @s) end end start_up\tgives 0\t3\nuninitialized \
    variable\nuninitialized variable\n\t\0\
    go --peep a b\t\t\tp = proc () x: int @#x)) end p q = proc () p() end q start_up = proc () ^300^x?: int := ? \
    begin x? := x? / x? end except when zero_divide: x? := 1 end ^ @#x0 + x1 + x299)) p() except when failure (s: \
    string): @s) end q() except when failure (s: string): @s) end end start_up\tgives 0\t3\nuninitialized \
    variable\nuninitialized variable\n\t\0\
    % Routines without a frame, as objects, whose traps an arm round the call takes, or none.\0\
    go a b\t\t\tstart_up = proc () f: proctype (int, int) returns (int) signals (overflow) := int$add g: proctype \
    (string, int) returns (char) signals (bounds) := string$fetch @#f(3, 4))) @#char$c2i(g(\"a\\377\", 2)))) \
    @#f(9223372036854775807, 1))) except when overflow: @\"overflow\") end c: char := g(\"a\", 2) end \
    start_up\tgives 1\t7\n255\noverflow\n\tfailure: unhandled exception: bounds\n\0\
    go --peep a b\t\t\tstart_up = proc () f: proctype (int, int) returns (int) signals (overflow) := int$add g: \
    proctype (string, int) returns (char) signals (bounds) := string$fetch @#f(3, 4))) @#char$c2i(g(\"a\\377\", \
    2)))) @#f(9223372036854775807, 1))) except when overflow: @\"overflow\") end c: char := g(\"a\", 2) end \
    start_up\tgives 1\t7\n255\noverflow\n\tfailure: unhandled exception: bounds\n\0\
    % Loops that end themselves, and a call in the frame that is left then.\0\
    go a b\t\t\tfalling = iter (n: int) yields (int) while n > 0 do yield (n) n := n - 1 end end falling wide = proc \
    () ^20^w?: int := ? ^@#w19)) end wide start_up = proc () n: int := 0 for i: int in falling(9) do if i = 7 then \
    break end for j: int in falling(3) do if j = 1 then break end n := n + j end wide() end @#n)) end \
    start_up\tgives 0\t19\n19\n10\n\t\0\
    go --peep a b\t\t\tfalling = iter (n: int) yields (int) while n > 0 do yield (n) n := n - 1 end end falling wide \
    = proc () ^20^w?: int := ? ^@#w19)) end wide start_up = proc () n: int := 0 for i: int in falling(9) do if i = 7 \
    then break end for j: int in falling(3) do if j = 1 then break end n := n + j end wide() end @#n)) end \
    start_up\tgives 0\t19\n19\n10\n\t\0\
    % An arm round a yield takes neither what the body raises nor what the iterator signals behind it.\0\
    go a b\t\t\tit = iter () yields (int) signals (late) yield (1) except others: @\"iterator\") end signal late end \
    it start_up = proc () for i: int in it() do x: int := 1 / 0 end except when zero_divide: @\"body\") when late: \
    @\"late\") end for i: int in it() do @\"turn\") end except when zero_divide: @\"body\") when late: @\"late\") \
    end end start_up\tgives 0\tbody\nturn\nlate\n\t\0\
    go --peep a b\t\t\tit = iter () yields (int) signals (late) yield (1) except others: @\"iterator\") end signal \
    late end it start_up = proc () for i: int in it() do x: int := 1 / 0 end except when zero_divide: @\"body\") \
    when late: @\"late\") end for i: int in it() do @\"turn\") end except when zero_divide: @\"body\") when late: \
    @\"late\") end end start_up\tgives 0\tbody\nturn\nlate\n\t\0\
";
