//! The code of operations of built-in types.

/// How many rows `CODE` has besides comments.
pub const CODE_COUNT: usize = 78;

/// Operations, with `value` or `put` for code without a frame, or how many arguments the code takes, and after commas its
/// constants; `-` where there is none.
pub const CODE: &str = "\
    null equal\tgives value\0\
    null copy\tgives value\0\
    null lt\tgives -\0\
    bool and\tgives value\0\
    bool or\tgives value\0\
    bool not\tgives value\0\
    bool similar\tgives value\0\
    bool add\tgives -\0\
    int add\tgives value\0\
    int sub\tgives value\0\
    int mul\tgives value\0\
    int minus\tgives value\0\
    int div\tgives value\0\
    int mod\tgives value\0\
    int power\tgives 2,negative_exponent,overflow\0\
    int lt\tgives value\0\
    int le\tgives value\0\
    int ge\tgives value\0\
    int gt\tgives value\0\
    int parse\tgives 1,bad_format,overflow\0\
    int unparse\tgives 1\0\
    int from_to\tgives -\0\
    int from_to_by\tgives -\0\
    int copy\tgives value\0\
    char i2c\tgives value\0\
    char c2i\tgives value\0\
    char gt\tgives value\0\
    string size\tgives value\0\
    string lt\tgives 2\0\
    string concat\tgives 2\0\
    string fetch\tgives value\0\
    string rest\tgives 2,bounds\0\
    string substr\tgives 3,negative_size,bounds\0\
    string indexs\tgives 2\0\
    string indexc\tgives 2\0\
    string chars\tgives -\0\
    string s2ac\tgives 1\0\
    stream primary_input\tgives value\0\
    stream primary_output\tgives value\0\
    stream getc\tgives 1,cannot read,not_possible,end_of_file\0\
    stream getl\tgives 1,cannot read,not_possible,end_of_file\0\
    stream empty\tgives 1,cannot read,not_possible\0\
    stream puts\tgives 2,cannot write,not_possible\0\
    stream putl\tgives 2,cannot write,not_possible,\n\0\
    stream equal\tgives value\0\
    stream copy\tgives -\0\
    any equal\tgives -\0\
    % Of arrays and sequences.\0\
    array[int] create\tgives 1,bounds out of range,failure\0\
    array[int] new\tgives 0\0\
    array[int] predict\tgives 2,bounds out of range,failure\0\
    array[int] fill\tgives 3,negative_size,bounds out of range,failure\0\
    array[int] size\tgives value\0\
    array[int] high\tgives value\0\
    array[int] set_low\tgives 2,bounds out of range,failure\0\
    array[int] fetch\tgives value\0\
    array[int] store\tgives put\0\
    array[int] top\tgives value\0\
    array[int] addh\tgives 2,bounds out of range,failure\0\
    array[int] addl\tgives 2,bounds out of range,failure\0\
    array[int] remh\tgives 1,bounds\0\
    array[int] reml\tgives 1,bounds,bounds out of range,failure\0\
    array[int] trim\tgives 3,negative_size,bounds\0\
    array[int] copy1\tgives 1\0\
    array[int] equal\tgives value\0\
    array[int] elements\tgives -\0\
    array[int] similar\tgives -\0\
    sequence[int] new\tgives 0\0\
    sequence[int] e2s\tgives 1\0\
    sequence[int] fill\tgives 2,negative_size\0\
    sequence[int] fetch\tgives value\0\
    sequence[int] replace\tgives 3,bounds\0\
    sequence[int] addh\tgives 2\0\
    sequence[int] reml\tgives 1,bounds\0\
    sequence[int] concat\tgives 2\0\
    sequence[int] subseq\tgives 3,negative_size,bounds\0\
    sequence[int] a2s\tgives 1\0\
    sequence[int] s2a\tgives 1\0\
    sequence[int] store\tgives -\0\
";

/// How many rows `SCHEMES` has besides comments.
pub const SCHEMES_COUNT: usize = 12;

/// Operations over those of components, with how many arguments they take, and after commas their uses; `-` where there is none.
pub const SCHEMES: &str = "\
    struct[a:int,b:int] equal\tgives 2,#1$equal,#2$equal\0\
    struct[a:int,b:int] similar\tgives 2,#1$similar,#2$similar\0\
    struct[a:int,b:int] similar1\tgives -\0\
    struct[a:int,b:int] copy\tgives 1,#1$copy,#2$copy\0\
    record[a:int,b:int] equal\tgives -\0\
    record[a:int,b:int] similar\tgives 2,#1$similar,#2$similar\0\
    record[a:int,b:int] similar1\tgives 2,#1$equal,#2$equal\0\
    record[a:int,b:int] copy\tgives 1,#1$copy,#2$copy\0\
    oneof[a:int,b:int] equal\tgives 2,#1$equal,#2$equal\0\
    variant[a:int,b:int] similar1\tgives 2,#1$equal,#2$equal\0\
    variant[a:int,b:int] copy\tgives 1,#1$copy,#2$copy\0\
    variant[a:int,b:int] copy1\tgives -\0\
";

/// How many rows `KNOWN` has besides comments.
pub const KNOWN_COUNT: usize = 3;

/// Operations on components, with what is known of their types: the distance of a component and the words of the object, or the
/// number of a tag; a point where there is none.
pub const KNOWN: &str = "\
    struct[a:int,b:int] get_b\tgives 16 3\0\
    variant[a:int,b:int] change_b\tgives 1\0\
    struct[a:int,b:int] get_c\tgives .\0\
";
