//! Words of the command line.

/// How many rows `COMMANDS` has besides comments.
pub const COMMANDS_COUNT: usize = 61;

/// Words, with whether they are a command. The last row has none.
pub const COMMANDS: &str = "\
    go a b\tgives a command\0\
    go --steps 1 a b\tgives a command\0\
    go a --steps=1000000000000000 b --store 4096 --stack 67108864\tgives a command\0\
    go --peep a --trace b\tgives a command\0\
    go -- a b\tgives a command\0\
    go -- -a --\tgives a command\0\
    go a b --\tgives a command\0\
    go - -\tgives a command\0\
    spec L a\tgives a command\0\
    replace L a\tgives a command\0\
    compile L a\tgives a command\0\
    compile --peep L a\tgives a command\0\
    link L g START\tgives a command\0\
    run L g --steps 7 --store=268435456\tgives a command\0\
    exec a\tgives a command\0\
    exec --stack 4096 a\tgives a command\0\
    gen 1\tgives a command\0\
    gen 007\tgives a command\0\
    gen 500\tgives a command\0\
    list a\tgives a command\0\
    asm a b\tgives a command\0\
    print a\tgives a command\0\
    xref L\tgives a command\0\
    go\tgives usage\0\
    go a\tgives usage\0\
    go a b c\tgives usage\0\
    go -a b\tgives usage\0\
    go --steps 0 a b\tgives usage\0\
    go --steps 1000000000000001 a b\tgives usage\0\
    go --steps +1 a b\tgives usage\0\
    go --steps 1 --steps 1 a b\tgives usage\0\
    go --steps a b\tgives usage\0\
    go --step 1 a b\tgives usage\0\
    go --store 4095 a b\tgives usage\0\
    go --store 4104 a b\tgives usage\0\
    go --stack 67108880 a b\tgives usage\0\
    go --peep --peep a b\tgives usage\0\
    go --peep=1 a b\tgives usage\0\
    go --help\tgives usage\0\
    go -h\tgives usage\0\
    spec L\tgives usage\0\
    spec L a --peep\tgives usage\0\
    compile --trace L a\tgives usage\0\
    link L g\tgives usage\0\
    link L g START more\tgives usage\0\
    run L\tgives usage\0\
    exec\tgives usage\0\
    exec a b\tgives usage\0\
    gen\tgives usage\0\
    gen 0\tgives usage\0\
    gen 501\tgives usage\0\
    gen x\tgives usage\0\
    gen -- -1\tgives usage\0\
    list --steps 1 a\tgives usage\0\
    help\tgives usage\0\
    version\tgives usage\0\
    --help\tgives usage\0\
    -h\tgives usage\0\
    Go a b\tgives usage\0\
    zork\tgives usage\0\
    \tgives usage\0\
";
