//! Lines and texts of assembly, and files of images.

/// How many rows `LINES` has besides comments.
pub const LINES_COUNT: usize = 86;

/// The lines of words, a word of each mnemonic, as an assembler of another project (llvm-mc) writes it. A word that is no
/// instruction has a line with its digits.
pub const LINES: &str = "\
    lui x31,-2147483648\tgives 80000fb7\0\
    auipc x1,2147479552\tgives 7ffff097\0\
    jal x1,-1048576\tgives 800000ef\0\
    jalr x5,x6,-2048\tgives 800302e7\0\
    beq x1,x31,4094\tgives 7ff08fe3\0\
    bne x31,x1,-4096\tgives 801f9063\0\
    blt x10,x11,2\tgives 00b54163\0\
    bge x10,x11,-2\tgives feb55fe3\0\
    bltu x12,x13,2048\tgives 00d660e3\0\
    bgeu x13,x12,-2048\tgives 80c6f0e3\0\
    fence x0,x0,51\tgives 0330000f\0\
    ecall\tgives 00000073\0\
    ebreak\tgives 00100073\0\
    lb x1,x2,2047\tgives 7ff10083\0\
    lh x3,x4,-2048\tgives 80021183\0\
    lw x5,x6,1\tgives 00132283\0\
    ld x7,x8,-1\tgives fff43383\0\
    lbu x9,x10,8\tgives 00854483\0\
    lhu x11,x12,16\tgives 01065583\0\
    lwu x13,x14,32\tgives 02076683\0\
    sb x16,x15,2047\tgives 7ef80fa3\0\
    sh x18,x17,-2048\tgives 81191023\0\
    sw x20,x19,31\tgives 013a2fa3\0\
    sd x22,x21,32\tgives 035b3023\0\
    addi x0,x0,0\tgives 00000013\0\
    slti x23,x24,-1\tgives fffc2b93\0\
    sltiu x25,x26,1\tgives 001d3c93\0\
    xori x27,x28,-2048\tgives 800e4d93\0\
    ori x29,x30,2047\tgives 7fff6e93\0\
    andi x31,x1,85\tgives 0550ff93\0\
    slli x2,x3,63\tgives 03f19113\0\
    srli x4,x5,32\tgives 0202d213\0\
    srai x6,x7,63\tgives 43f3d313\0\
    addiw x25,x26,-2048\tgives 800d0c9b\0\
    slliw x27,x28,31\tgives 01fe1d9b\0\
    srliw x29,x30,1\tgives 001f5e9b\0\
    sraiw x31,x1,16\tgives 4100df9b\0\
    add x8,x9,x10\tgives 00a48433\0\
    sub x11,x12,x13\tgives 40d605b3\0\
    sll x14,x15,x16\tgives 01079733\0\
    slt x17,x18,x19\tgives 013928b3\0\
    sltu x20,x21,x22\tgives 016aba33\0\
    xor x23,x24,x25\tgives 019c4bb3\0\
    srl x26,x27,x28\tgives 01cddd33\0\
    sra x29,x30,x31\tgives 41ff5eb3\0\
    or x1,x2,x4\tgives 004160b3\0\
    and x8,x16,x31\tgives 01f87433\0\
    mul x1,x2,x3\tgives 023100b3\0\
    mulh x4,x5,x6\tgives 02629233\0\
    mulhsu x7,x8,x9\tgives 029423b3\0\
    mulhu x10,x11,x12\tgives 02c5b533\0\
    div x13,x14,x15\tgives 02f746b3\0\
    divu x16,x17,x18\tgives 0328d833\0\
    rem x19,x20,x21\tgives 035a69b3\0\
    remu x22,x23,x24\tgives 038bfb33\0\
    addw x2,x3,x4\tgives 0041813b\0\
    subw x5,x6,x7\tgives 407302bb\0\
    sllw x8,x9,x10\tgives 00a4943b\0\
    srlw x11,x12,x13\tgives 00d655bb\0\
    sraw x14,x15,x16\tgives 4107d73b\0\
    mulw x17,x18,x19\tgives 033908bb\0\
    divw x20,x21,x22\tgives 036aca3b\0\
    divuw x23,x24,x25\tgives 039c5bbb\0\
    remw x26,x27,x28\tgives 03cded3b\0\
    remuw x29,x30,x31\tgives 03ff7ebb\0\
    word 00000000\tgives 00000000\0\
    word ffffffff\tgives ffffffff\0\
    word 00001067\tgives 00001067\0\
    word 00200073\tgives 00200073\0\
    word 12abcdee\tgives 12abcdee\0\
    word 00002063\tgives 00002063\0\
    word 00007003\tgives 00007003\0\
    word 00004023\tgives 00004023\0\
    word 04001013\tgives 04001013\0\
    word 40001013\tgives 40001013\0\
    word 0200101b\tgives 0200101b\0\
    word 0000201b\tgives 0000201b\0\
    word 04000033\tgives 04000033\0\
    word 40001033\tgives 40001033\0\
    word 0000203b\tgives 0000203b\0\
    word 0200103b\tgives 0200103b\0\
    word 0000100f\tgives 0000100f\0\
    word 000000f3\tgives 000000f3\0\
    word 00008073\tgives 00008073\0\
    word 00001073\tgives 00001073\0\
    word 0000007f\tgives 0000007f\0\
";

/// How many rows `TEXTS` has besides comments.
pub const TEXTS_COUNT: usize = 95;

/// Texts of images, with the words of their code, their fixed part and their data, and texts that are refused, with the place.
/// The first program writes `hi`.
pub const TEXTS: &str = "\
    entry 0\naddi x17,x0,4\nlui x10,65536\naddi x10,x10,32\naddi x11,x0,3\necall\naddi x17,x0,0\necall\ndata \
    68690a0000000000\n\tgives code 00400893 00010537 02050513 00300593 00000073 00000893 00000073 fixed data 68 69 \
    0a 00 00 00 00 00\0\
    entry 0\nxor x1,x2,x3\nword 00000000\nfixed 0011223344556677\ndata 8899aabbccddeeff\n\tgives code 003140b3 \
    00000000 fixed 00 11 22 33 44 55 66 77 data 88 99 aa bb cc dd ee ff\0\
    \tgives 0\0\
    e\tgives 1\0\
    entry 0\tgives 7\0\
    entry 00\tgives 0\0\
    entry 16793600\tgives 0\0\
    entry 1679359\tgives 13\0\
    entry 0\n\tgives 8\0\
    entry 16793600\n\tgives 0\0\
    entry 16793599\n\tgives 15\0\
    entry -1\n\tgives 0\0\
    entry\n\tgives 0\0\
    entry x\n\tgives 0\0\
    Entry 0\n\tgives 0\0\
    entry  0\n\tgives 0\0\
    entry 0 \n\tgives 0\0\
    entry 0\r\n\tgives 0\0\
    \n\tgives 0\0\
    ecall\n\tgives 0\0\
    entry 1\necall\n\tgives 14\0\
    entry 0\ny\tgives 8\0\
    entry 0\nADDI x0,x0,0\n\tgives 8\0\
    entry 0\naddi x0, x0,0\n\tgives 8\0\
    entry 0\naddi  x0,x0,0\n\tgives 8\0\
    entry 0\naddi x0,x0,00\n\tgives 8\0\
    entry 0\naddi x0,x0,-0\n\tgives 8\0\
    entry 0\naddi x0,x0,+1\n\tgives 8\0\
    entry 0\naddi x00,x0,0\n\tgives 8\0\
    entry 0\naddi x32,x0,0\n\tgives 8\0\
    entry 0\naddi x0,x0,2048\n\tgives 8\0\
    entry 0\naddi x0,x0\n\tgives 8\0\
    entry 0\naddi x0,x0,0,\n\tgives 8\0\
    entry 0\naddi x0,x0,x0\n\tgives 8\0\
    entry 0\nadd x0,x0,0\n\tgives 8\0\
    entry 0\necall \n\tgives 8\0\
    entry 0\necall x0\n\tgives 8\0\
    entry 0\naddi\n\tgives 8\0\
    entry 0\n\n\tgives 8\0\
    entry 0\nslli x0,x0,64\n\tgives 8\0\
    entry 0\nslliw x0,x0,32\n\tgives 8\0\
    entry 0\nlui x1,1\n\tgives 8\0\
    entry 0\nlui x1,2147479553\tgives 8\0\
    entry 0\njal x1,3\n\tgives 8\0\
    entry 0\njal x1,1048575\tgives 8\0\
    entry 0\nbeq x1,x31,4093\tgives 8\0\
    entry 0\nadd x32\tgives 8\0\
    entry 0\nadd x3,5\tgives 8\0\
    entry 0\nsd x3,x4,-0\tgives 8\0\
    entry 0\nsrai x3,x4,-\tgives 8\0\
    entry 0\nadd x3,x4,x5,\tgives 8\0\
    entry 0\nword 00000073\n\tgives 8\0\
    entry 0\nword 00000073\tgives 8\0\
    entry 0\nword 0000000A\n\tgives 8\0\
    entry 0\nword 000000000\n\tgives 8\0\
    entry 0\nword 000000g\tgives 8\0\
    entry 0\necall \tgives 8\0\
    entry 0\necallx\tgives 8\0\
    entry 0\nentry 0\n\tgives 8\0\
    entry 0\nx\tgives 9\0\
    entry 0\nlui x1,1\tgives 16\0\
    entry 0\nlui x1,-2147483648\tgives 26\0\
    entry 0\nlui x1,21474795\tgives 23\0\
    entry 0\njal x1,3\tgives 16\0\
    entry 0\njal x1,-1048576\tgives 23\0\
    entry 0\nbeq x1,x31,409\tgives 22\0\
    entry 0\nadd x3\tgives 14\0\
    entry 0\nadd x3,\tgives 15\0\
    entry 0\nadd x3,x\tgives 16\0\
    entry 0\nsd x3,x4,-\tgives 18\0\
    entry 0\nword 0000000\tgives 20\0\
    entry 0\nword 00000000\tgives 21\0\
    entry 0\nword \tgives 13\0\
    entry 0\nwo\tgives 10\0\
    entry 0\necall\tgives 13\0\
    entry 0\naddi\tgives 12\0\
    entry 0\naddi \tgives 13\0\
    entry 0\njal\tgives 11\0\
    entry 0\necall\nfixed 00\n\tgives 14\0\
    entry 0\necall\nfixed 0\tgives 21\0\
    entry 0\necall\nfixed 0A\tgives 14\0\
    entry 0\necall\nfixed 00112233445566778\tgives 14\0\
    entry 0\necall\nfixed 0011223344556677\tgives 36\0\
    entry 0\necall\nda\tgives 16\0\
    entry 1\necall\nfixed 0011223344556677\n\tgives 14\0\
    entry 1\necall\nf\tgives 15\0\
    entry 1\necall\nfi\tgives 14\0\
    entry 0\necall\nfixed 0011223344556677\necall\n\tgives 37\0\
    entry 0\necall\nfixed 0011223344556677\nfence\tgives 37\0\
    entry 0\necall\nfixed 0011223344556677\nd\tgives 38\0\
    entry 0\necall\ndata 0011223344556677\nfixed 0011223344556677\n\tgives 36\0\
    entry 0\necall\ndata 0011223344556677\nf\tgives 36\0\
    entry 0\necall\ndata 0011223344556677\ndi\tgives 36\0\
    entry 0\necall\ndata 0011223344556677\nd\tgives 37\0\
    addi x17,x0,4\nlui x10,65536\n\tgives 0\0\
";

/// How many rows `FILES` has besides comments.
pub const FILES_COUNT: usize = 15;

/// Files by their bytes in hexadecimal digits, with their images and the bytes that are written for these, or where they are
/// refused. The first one has version 2, entry 1, two code words, eight fixed bytes and eight of data; the second one has
/// version 1, entry 0, one code word and no data. The others are these with a byte more, and the first one with another
/// number in one of its fields.
pub const FILES: &str = "\
    43 4c 55 49 02 00 00 00 01 00 00 00 02 00 00 00 08 00 00 00 08 00 00 00 13 00 00 00 73 00 00 00 01 02 03 04 05 \
    06 07 08 0b 0c 0d 0e 0f 10 11 12\tgives entry 1 code 00000013 00000073 fixed 01 02 03 04 05 06 07 08 data 0b 0c \
    0d 0e 0f 10 11 12 file 43 4c 55 49 02 00 00 00 01 00 00 00 02 00 00 00 08 00 00 00 08 00 00 00 13 00 00 00 73 00 \
    00 00 01 02 03 04 05 06 07 08 0b 0c 0d 0e 0f 10 11 12\0\
    43 4c 55 49 01 00 00 00 00 00 00 00 01 00 00 00 00 00 00 00 73 00 00 00\tgives entry 0 code 00000073 fixed data \
    file 43 4c 55 49 02 00 00 00 00 00 00 00 01 00 00 00 00 00 00 00 00 00 00 00 73 00 00 00\0\
    43 4c 55 49 01 00 00 00 00 00 00 00 01 00 00 00 00 00 00 00 73 00 00 00 78\tgives 24\0\
    43 4c 55 49 02 00 00 00 01 00 00 00 02 00 00 00 08 00 00 00 08 00 00 00 13 00 00 00 73 00 00 00 01 02 03 04 05 \
    06 07 08 0b 0c 0d 0e 0f 10 11 12 78\tgives 48\0\
    44 4c 55 49 02 00 00 00 01 00 00 00 02 00 00 00 08 00 00 00 08 00 00 00 13 00 00 00 73 00 00 00 01 02 03 04 05 \
    06 07 08 0b 0c 0d 0e 0f 10 11 12\tgives 0\0\
    43 4c 55 49 00 00 00 00 01 00 00 00 02 00 00 00 08 00 00 00 08 00 00 00 13 00 00 00 73 00 00 00 01 02 03 04 05 \
    06 07 08 0b 0c 0d 0e 0f 10 11 12\tgives 4\0\
    43 4c 55 49 03 00 00 00 01 00 00 00 02 00 00 00 08 00 00 00 08 00 00 00 13 00 00 00 73 00 00 00 01 02 03 04 05 \
    06 07 08 0b 0c 0d 0e 0f 10 11 12\tgives 4\0\
    43 4c 55 49 02 00 00 00 02 00 00 00 02 00 00 00 08 00 00 00 08 00 00 00 13 00 00 00 73 00 00 00 01 02 03 04 05 \
    06 07 08 0b 0c 0d 0e 0f 10 11 12\tgives 8\0\
    43 4c 55 49 02 00 00 00 01 00 00 00 00 00 00 00 08 00 00 00 08 00 00 00 13 00 00 00 73 00 00 00 01 02 03 04 05 \
    06 07 08 0b 0c 0d 0e 0f 10 11 12\tgives 8\0\
    43 4c 55 49 02 00 00 00 01 00 00 00 01 00 00 00 08 00 00 00 08 00 00 00 13 00 00 00 73 00 00 00 01 02 03 04 05 \
    06 07 08 0b 0c 0d 0e 0f 10 11 12\tgives 8\0\
    43 4c 55 49 02 00 00 00 01 00 00 00 01 40 00 01 08 00 00 00 08 00 00 00 13 00 00 00 73 00 00 00 01 02 03 04 05 \
    06 07 08 0b 0c 0d 0e 0f 10 11 12\tgives 12\0\
    43 4c 55 49 02 00 00 00 01 00 00 00 02 00 00 00 04 00 00 00 08 00 00 00 13 00 00 00 73 00 00 00 01 02 03 04 05 \
    06 07 08 0b 0c 0d 0e 0f 10 11 12\tgives 16\0\
    43 4c 55 49 02 00 00 00 01 00 00 00 02 00 00 00 08 00 01 04 08 00 00 00 13 00 00 00 73 00 00 00 01 02 03 04 05 \
    06 07 08 0b 0c 0d 0e 0f 10 11 12\tgives 16\0\
    43 4c 55 49 02 00 00 00 01 00 00 00 02 00 00 00 08 00 00 00 04 00 00 00 13 00 00 00 73 00 00 00 01 02 03 04 05 \
    06 07 08 0b 0c 0d 0e 0f 10 11 12\tgives 20\0\
    43 4c 55 49 02 00 00 00 01 00 00 00 02 00 00 00 08 00 00 00 00 00 01 04 13 00 00 00 73 00 00 00 01 02 03 04 05 \
    06 07 08 0b 0c 0d 0e 0f 10 11 12\tgives 20\0\
";
