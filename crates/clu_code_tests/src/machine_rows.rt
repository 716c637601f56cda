//! Instructions and what they do, after the tables of the RISC-V manual, and small programs. Numbers have hexadecimal
//! digits, steps decimal ones.

/// How many rows `INSTRUCTIONS` has besides comments.
pub const INSTRUCTIONS_COUNT: usize = 83;

/// What a row shows, the word, what x5 and x6 hold, and what x10, the pc and the eight bytes from which x6 was loaded
/// are after it. The word stands at 0x1000c, and x5 was loaded from 16(x7) and x6 from 24(x7).
pub const INSTRUCTIONS: &str = "\
    add wraps: 00628533 ffffffffffffffff 2\tgives 1 10010 2\0\
    sub wraps: 40628533 1 2\tgives ffffffffffffffff 10010 2\0\
    sll by 6 bits: 00629533 3 41\tgives 6 10010 41\0\
    slt is signed: 0062a533 ffffffffffffffff 0\tgives 1 10010 0\0\
    sltu is not: 0062b533 ffffffffffffffff 0\tgives 0 10010 0\0\
    xor: 0062c533 ff00 ff0\tgives f0f0 10010 ff0\0\
    srl brings zeros: 0062d533 8000000000000000 3f\tgives 1 10010 3f\0\
    sra brings the sign: 4062d533 8000000000000000 3f\tgives ffffffffffffffff 10010 3f\0\
    or: 0062e533 f0 f\tgives ff 10010 f\0\
    and: 0062f533 ff0 ff\tgives f0 10010 ff\0\
    mul wraps: 02628533 8000000000000000 3\tgives 8000000000000000 10010 3\0\
    mulh of -1 and -1: 02629533 ffffffffffffffff ffffffffffffffff\tgives 0 10010 ffffffffffffffff\0\
    mulh of the least twice: 02629533 8000000000000000 8000000000000000\tgives 4000000000000000 10010 \
    8000000000000000\0\
    mulhsu of -1 and the greatest: 0262a533 ffffffffffffffff ffffffffffffffff\tgives ffffffffffffffff 10010 \
    ffffffffffffffff\0\
    mulhu of the greatest twice: 0262b533 ffffffffffffffff ffffffffffffffff\tgives fffffffffffffffe 10010 \
    ffffffffffffffff\0\
    div rounds toward zero: 0262c533 fffffffffffffff9 2\tgives fffffffffffffffd 10010 2\0\
    div by zero: 0262c533 5 0\tgives ffffffffffffffff 10010 0\0\
    div overflow: 0262c533 8000000000000000 ffffffffffffffff\tgives 8000000000000000 10010 ffffffffffffffff\0\
    divu: 0262d533 ffffffffffffffff 2\tgives 7fffffffffffffff 10010 2\0\
    divu by zero: 0262d533 5 0\tgives ffffffffffffffff 10010 0\0\
    rem has the sign of the dividend: 0262e533 fffffffffffffff9 2\tgives ffffffffffffffff 10010 2\0\
    rem by zero: 0262e533 fffffffffffffff9 0\tgives fffffffffffffff9 10010 0\0\
    rem overflow: 0262e533 8000000000000000 ffffffffffffffff\tgives 0 10010 ffffffffffffffff\0\
    remu: 0262f533 ffffffffffffffff a\tgives 5 10010 a\0\
    remu by zero: 0262f533 7 0\tgives 7 10010 0\0\
    addw extends: 0062853b 7fffffff 1\tgives ffffffff80000000 10010 1\0\
    subw extends: 4062853b 0 1\tgives ffffffffffffffff 10010 1\0\
    sllw by 5 bits: 0062953b 1 3f\tgives ffffffff80000000 10010 3f\0\
    srlw extends: 0062d53b ffffffff 20\tgives ffffffffffffffff 10010 20\0\
    sraw: 4062d53b 80000000 1f\tgives ffffffffffffffff 10010 1f\0\
    mulw: 0262853b 10000 8000\tgives ffffffff80000000 10010 8000\0\
    divw overflow: 0262c53b 80000000 ffffffff\tgives ffffffff80000000 10010 ffffffff\0\
    divw by zero: 0262c53b 5 100000000\tgives ffffffffffffffff 10010 100000000\0\
    divuw extends: 0262d53b ffffffff 1\tgives ffffffffffffffff 10010 1\0\
    divuw by zero: 0262d53b 5 100000000\tgives ffffffffffffffff 10010 100000000\0\
    remw: 0262e53b fffffffffffffff9 2\tgives ffffffffffffffff 10010 2\0\
    remw by zero extends: 0262e53b 80000000 100000000\tgives ffffffff80000000 10010 100000000\0\
    remw overflow: 0262e53b 80000000 ffffffff\tgives 0 10010 ffffffff\0\
    remuw by zero extends: 0262f53b 80000000 0\tgives ffffffff80000000 10010 0\0\
    remuw: 0262f53b ffffffff 10\tgives f 10010 10\0\
    addi of -1: fff28513 0 0\tgives ffffffffffffffff 10010 0\0\
    slti is signed: fff2a513 fffffffffffffffe 0\tgives 1 10010 0\0\
    sltiu of the extended: fff2b513 5 0\tgives 1 10010 0\0\
    xori of -1 is not: fff2c513 f0 0\tgives ffffffffffffff0f 10010 0\0\
    ori: 00f2e513 f0 0\tgives ff 10010 0\0\
    andi of -16: ff02f513 ffffffffffffffff 0\tgives fffffffffffffff0 10010 0\0\
    slli: 03f29513 1 0\tgives 8000000000000000 10010 0\0\
    srli: 03f2d513 8000000000000000 0\tgives 1 10010 0\0\
    srai: 43f2d513 8000000000000000 0\tgives ffffffffffffffff 10010 0\0\
    addiw: 0012851b 7fffffff 0\tgives ffffffff80000000 10010 0\0\
    slliw: 01f2951b 1 0\tgives ffffffff80000000 10010 0\0\
    srliw: 0012d51b ffffffffffffffff 0\tgives 7fffffff 10010 0\0\
    sraiw: 41f2d51b 80000000 0\tgives ffffffffffffffff 10010 0\0\
    lui extends: 80000537 0 0\tgives ffffffff80000000 10010 0\0\
    auipc: 00001517 0 0\tgives 1100c 10010 0\0\
    x0 stays 0: 00500013 9 0\tgives 0 10010 0\0\
    lb extends: 01038503 8182838485868788 0\tgives ffffffffffffff88 10010 0\0\
    lh extends: 01039503 8182838485868788 0\tgives ffffffffffff8788 10010 0\0\
    lw extends: 0103a503 8182838485868788 0\tgives ffffffff85868788 10010 0\0\
    ld: 0103b503 8182838485868788 0\tgives 8182838485868788 10010 0\0\
    lbu: 0173c503 8182838485868788 0\tgives 81 10010 0\0\
    lhu: 0163d503 8182838485868788 0\tgives 8182 10010 0\0\
    lwu: 0143e503 8182838485868788 0\tgives 81828384 10010 0\0\
    sb: 00538ca3 1122334455667788 ffffffffffffffff\tgives 0 10010 ffffffffffff88ff\0\
    sh: 00539d23 1122334455667788 ffffffffffffffff\tgives 0 10010 ffffffff7788ffff\0\
    sw: 0053ae23 1122334455667788 ffffffffffffffff\tgives 0 10010 55667788ffffffff\0\
    sd: 0053bc23 1122334455667788 ffffffffffffffff\tgives 0 10010 1122334455667788\0\
    beq taken: fe628ae3 4 4\tgives 0 10000 4\0\
    beq not taken: fe628ae3 4 5\tgives 0 10010 5\0\
    bne taken: fe629ee3 4 5\tgives 0 10008 5\0\
    bne not taken: fe629ee3 4 4\tgives 0 10010 4\0\
    blt taken: fe62cee3 ffffffffffffffff 0\tgives 0 10008 0\0\
    blt not taken: fe62cee3 0 ffffffffffffffff\tgives 0 10010 ffffffffffffffff\0\
    bge taken: fe62dee3 0 0\tgives 0 10008 0\0\
    bge not taken: fe62dee3 ffffffffffffffff 0\tgives 0 10010 0\0\
    bltu taken: fe62eee3 0 ffffffffffffffff\tgives 0 10008 ffffffffffffffff\0\
    bltu not taken: fe62eee3 ffffffffffffffff 0\tgives 0 10010 0\0\
    bgeu taken: fe62fee3 ffffffffffffffff 0\tgives 0 10008 0\0\
    bgeu not taken: fe62fee3 0 1\tgives 0 10010 1\0\
    jal: ff5ff56f 0 0\tgives 10010 10000 0\0\
    jalr clears bit 0: 00128567 10004 0\tgives 10010 10004 0\0\
    jalr reads rs1 first: 000282e7 10008 0\tgives 0 10008 0\0\
    fence does nothing: 0ff0000f 1 2\tgives 0 10010 2\0\
";

/// How many rows `RUNS` has besides comments.
pub const RUNS_COUNT: usize = 46;

/// What a row shows; how many steps a run has, how many bytes the input `abc` gives at once, which two of its reads and
/// which two writes of the output fail; the code, the fixed part and the data of an image; and how the run ends, with the text
/// of a failure, or else with what was written.
pub const RUNS: &str = "\
    % Two words of code, with eight bytes of the fixed part and eight of data.\0\
    no instruction: 100 1 63 63 0 63; 00000000 00000000; 00 00 00 00 00 00 00 00; 00 00 00 00 00 00 00 00\tgives bad \
    instruction 10000\0\
    ebreak: 100 1 63 63 0 63; 00100073 00000000; 00 00 00 00 00 00 00 00; 00 00 00 00 00 00 00 00\tgives bad \
    instruction 10000\0\
    lw x1, 0(x0): 100 1 63 63 0 63; 00002083 00000000; 00 00 00 00 00 00 00 00; 00 00 00 00 00 00 00 00\tgives bad \
    access 0\0\
    jal x0, 2: 100 1 63 63 0 63; 0020006f 00000000; 00 00 00 00 00 00 00 00; 00 00 00 00 00 00 00 00\tgives bad jump \
    10002\0\
    jalr x0, 2(x3): 100 1 63 63 0 63; 00218067 00000000; 00 00 00 00 00 00 00 00; 00 00 00 00 00 00 00 00\tgives bad \
    jump 10000002\0\
    jalr x0, 0(x3), outside the code: 100 1 63 63 0 63; 00018067 00000000; 00 00 00 00 00 00 00 00; 00 00 00 00 00 \
    00 00 00\tgives bad jump 10000000\0\
    beq x0, x0, 2: 100 1 63 63 0 63; 00000163 00000000; 00 00 00 00 00 00 00 00; 00 00 00 00 00 00 00 00\tgives bad \
    jump 10002\0\
    bne x0, x0, 2: 100 1 63 63 0 63; 00001163 00000000; 00 00 00 00 00 00 00 00; 00 00 00 00 00 00 00 00\tgives bad \
    instruction 10004\0\
    addi x17, x0, 99: 100 1 63 63 0 63; 06300893 00000073; 00 00 00 00 00 00 00 00; 00 00 00 00 00 00 00 00\tgives \
    bad call 63\0\
    div x17, x0, x0: 100 1 63 63 0 63; 020048b3 00000073; 00 00 00 00 00 00 00 00; 00 00 00 00 00 00 00 00\tgives \
    bad call ffffffffffffffff\0\
    lui x10, 0x10 and sw x0, 0(x10), the code: 100 1 63 63 0 63; 00010537 00052023; 00 00 00 00 00 00 00 00; 00 00 \
    00 00 00 00 00 00\tgives bad access 10000\0\
    lui x10, 0x10 and sw x8, 0(x10), the code: 100 1 63 63 0 63; 00010537 00852023; 00 00 00 00 00 00 00 00; 00 00 \
    00 00 00 00 00 00\tgives bad access 10000\0\
    lui x10, 0x10 and sw x0, 8(x10), the fixed part: 100 1 63 63 0 63; 00010537 00052423; 00 00 00 00 00 00 00 00; \
    00 00 00 00 00 00 00 00\tgives bad access 10008\0\
    lui x10, 0x10 and sw x0, 16(x10), data: 100 1 63 63 0 63; 00010537 00052823; 00 00 00 00 00 00 00 00; 00 00 00 \
    00 00 00 00 00\tgives bad jump 10008\0\
    lui x10, 0x10 and lw x1, 8(x10): 100 1 63 63 0 63; 00010537 00852083; 00 00 00 00 00 00 00 00; 00 00 00 00 00 00 \
    00 00\tgives bad jump 10008\0\
    lui x10, 0x10 and lw x1, 2(x10): 100 1 63 63 0 63; 00010537 00252083; 00 00 00 00 00 00 00 00; 00 00 00 00 00 00 \
    00 00\tgives bad access 10002\0\
    lui x10, 0x10 and lh x1, 1(x10): 100 1 63 63 0 63; 00010537 00151083; 00 00 00 00 00 00 00 00; 00 00 00 00 00 00 \
    00 00\tgives bad access 10001\0\
    lui x10, 0x10 and ld x1, 4(x10): 100 1 63 63 0 63; 00010537 00453083; 00 00 00 00 00 00 00 00; 00 00 00 00 00 00 \
    00 00\tgives bad access 10004\0\
    sd x0, 4(x2): 100 1 63 63 0 63; 00013223 00000000; 00 00 00 00 00 00 00 00; 00 00 00 00 00 00 00 00\tgives bad \
    access 20000004\0\
    sh x0, 1(x2): 100 1 63 63 0 63; 000110a3 00000000; 00 00 00 00 00 00 00 00; 00 00 00 00 00 00 00 00\tgives bad \
    access 20000001\0\
    sw x0, 2(x2): 100 1 63 63 0 63; 00012123 00000000; 00 00 00 00 00 00 00 00; 00 00 00 00 00 00 00 00\tgives bad \
    access 20000002\0\
    lb x1, 0(x4), behind the store: 100 1 63 63 0 63; 00020083 00000000; 00 00 00 00 00 00 00 00; 00 00 00 00 00 00 \
    00 00\tgives bad access 10001000\0\
    lb x1, -1(x4): 100 1 63 63 0 63; fff20083 00000000; 00 00 00 00 00 00 00 00; 00 00 00 00 00 00 00 00\tgives bad \
    instruction 10004\0\
    lb x1, -1(x3): 100 1 63 63 0 63; fff18083 00000000; 00 00 00 00 00 00 00 00; 00 00 00 00 00 00 00 00\tgives bad \
    access fffffff\0\
    sb x0, 0(x8), behind the stack: 100 1 63 63 0 63; 00040023 00000000; 00 00 00 00 00 00 00 00; 00 00 00 00 00 00 \
    00 00\tgives bad access 20001000\0\
    sd x0, -8(x8): 100 1 63 63 0 63; fe043c23 00000000; 00 00 00 00 00 00 00 00; 00 00 00 00 00 00 00 00\tgives bad \
    instruction 10004\0\
    addi x17, x0, 2: 100 1 63 63 0 63; 00200893 00000073; 00 00 00 00 00 00 00 00; 00 00 00 00 00 00 00 00\tgives \
    store full\0\
    addi x17, x0, 3: 100 1 63 63 0 63; 00300893 00000073; 00 00 00 00 00 00 00 00; 00 00 00 00 00 00 00 00\tgives \
    stack full\0\
    addi x17, x0, 1: 100 1 63 63 0 63; 00100893 00000073; 00 00 00 00 00 00 00 00; 00 00 00 00 00 00 00 00\tgives \
    failure\0\
    addi x17, x0, 4, no bytes: 100 1 63 63 0 63; 00400893 00000073; 00 00 00 00 00 00 00 00; 00 00 00 00 00 00 00 \
    00\tgives bad jump 10008\0\
    % `hi` is written within six steps, and is where x10 points, in data or in the fixed part.\0\
    hi: 6 1 63 63 63 63; 00400893 00010537 02050513 00300593 00000073 00000893 00000073; ; 68 69 0a 00 00 00 00 \
    00\tgives steps spent hi\n\0\
    hi: 64 1 63 63 63 63; 00400893 00010537 02050513 00300593 00000073 00000893 00000073; ; 68 69 0a 00 00 00 00 \
    00\tgives returned hi\n\0\
    hi: 6 1 63 63 63 63; 00400893 00010537 02050513 00300593 00000073 00000893 00000073; 68 69 0a 00 00 00 00 00; \
    \tgives steps spent hi\n\0\
    hi: 64 1 63 63 63 63; 00400893 00010537 02050513 00300593 00000073 00000893 00000073; 68 69 0a 00 00 00 00 00; \
    \tgives returned hi\n\0\
    % The text of a failure has three bytes, or nine, which do not lie in the image.\0\
    failure: 9 1 63 63 63 63; 00100893 00010537 02050513 00300593 00000073 00000893 00000073; ; 68 69 0a 00 00 00 00 \
    00\tgives failure hi\n\0\
    failure: 9 1 63 63 63 63; 00100893 00010537 02050513 00900593 00000073 00000893 00000073; ; 68 69 0a 00 00 00 00 \
    00\tgives bad access 10020\0\
    failure: 9 1 63 63 63 63; 00100893 00010537 02050513 00300593 00000073 00000893 00000073; 68 69 0a 00 00 00 00 \
    00; \tgives failure hi\n\0\
    failure: 9 1 63 63 63 63; 00100893 00010537 02050513 00900593 00000073 00000893 00000073; 68 69 0a 00 00 00 00 \
    00; \tgives bad access 10020\0\
    % Each byte of the input is written, after it was looked at. The input gives so many bytes at once.\0\
    echo: 1000 1 63 63 63 63; 00600893 00000073 00050613 00500893 00000073 02054263 02c51463 000106b7 04a68423 \
    04868513 00100593 00400893 00000073 fcdff06f 00000893 00000073 00100073 0ff0000f; ; 00 00 00 00 00 00 00 \
    00\tgives returned abc\0\
    echo: 1000 2 63 63 63 63; 00600893 00000073 00050613 00500893 00000073 02054263 02c51463 000106b7 04a68423 \
    04868513 00100593 00400893 00000073 fcdff06f 00000893 00000073 00100073 0ff0000f; ; 00 00 00 00 00 00 00 \
    00\tgives returned abc\0\
    echo: 1000 40 63 63 63 63; 00600893 00000073 00050613 00500893 00000073 02054263 02c51463 000106b7 04a68423 \
    04868513 00100593 00400893 00000073 fcdff06f 00000893 00000073 00100073 0ff0000f; ; 00 00 00 00 00 00 00 \
    00\tgives returned abc\0\
    echo: 1000 1 0 63 63 63; 00600893 00000073 00050613 00500893 00000073 02054263 02c51463 000106b7 04a68423 \
    04868513 00100593 00400893 00000073 fcdff06f 00000893 00000073 00100073 0ff0000f; ; 00 00 00 00 00 00 00 \
    00\tgives read fault\0\
    echo: 1000 1 2 63 63 63; 00600893 00000073 00050613 00500893 00000073 02054263 02c51463 000106b7 04a68423 \
    04868513 00100593 00400893 00000073 fcdff06f 00000893 00000073 00100073 0ff0000f; ; 00 00 00 00 00 00 00 \
    00\tgives read fault ab\0\
    echo: 1000 40 1 63 63 63; 00600893 00000073 00050613 00500893 00000073 02054263 02c51463 000106b7 04a68423 \
    04868513 00100593 00400893 00000073 fcdff06f 00000893 00000073 00100073 0ff0000f; ; 00 00 00 00 00 00 00 \
    00\tgives read fault abc\0\
    echo: 1000 40 63 63 0 63; 00600893 00000073 00050613 00500893 00000073 02054263 02c51463 000106b7 04a68423 \
    04868513 00100593 00400893 00000073 fcdff06f 00000893 00000073 00100073 0ff0000f; ; 00 00 00 00 00 00 00 \
    00\tgives write fault\0\
    echo: 1000 40 63 63 1 63; 00600893 00000073 00050613 00500893 00000073 02054263 02c51463 000106b7 04a68423 \
    04868513 00100593 00400893 00000073 fcdff06f 00000893 00000073 00100073 0ff0000f; ; 00 00 00 00 00 00 00 \
    00\tgives write fault a\0\
";

/// How many rows `LIMITS` has besides comments.
pub const LIMITS_COUNT: usize = 8;

/// A store and a stack in bytes, and whether there are such limits.
pub const LIMITS: &str = "\
    4096 4096\tgives 4096 4096\0\
    268435456 67108864\tgives 268435456 67108864\0\
    4080 4096\tgives none\0\
    4096 4080\tgives none\0\
    4100 4096\tgives none\0\
    4096 4100\tgives none\0\
    268435472 4096\tgives none\0\
    4096 67108880\tgives none\0\
";
