//! Objects and libraries by their fields.

/// How many rows `FILES` has besides comments.
pub const FILES_COUNT: usize = 115;

/// `O` for an object or `L` for a library, and its fields: files that are read and written again as they were, and files that are
/// refused at the field after `!`.
pub const FILES: &str = "\
    % An object: holes of several kinds, each sort of use and constant, nested regions, and the setting up.\0\
    O CLUO w2 'p w2 'p w7 w7 w695 w164499 w695 w164499 w695 w164499 w32871 w3 w0 b1 w0 w2 b3 w99 w4 b8 w6 w4 \"q \
    \"q[int,%1,'0a] \"array[int]$new \"c$own w6 b0 b1 b1 b2 q5 b3 b255 b4 \"hi b5 w1 w2 \"proctype() \"record[a:int] \
    w3 w0 w6 w4294967295 w1 'e w1 w8 w1 w2 w0 w2 'failure w6 w0 ' w0 w0 w3 w5 w0 w0 'own w0 w0 w0 w0 w0 w0 w0\tgives \
    kept\0\
    O CLUO w2 'a_1 w0\tgives kept\0\
    O CLUO w2 'p w1 'q w1 w2 w695 w164499 w1 w0 b7 w12345 w0 w0 w0 w0\tgives kept\0\
    % Libraries: an empty one, one with all sorts of parts, one whose body names all.\0\
    L CLUL w2 w0 w0 w0\tgives kept\0\
    L CLUL w2 w3 w3 w2 'p \"p=proc() w0 b1 \"p~=~proc~()~q()~end~p w2 b1 w2 'c 'q ( CLUO w2 'p w0 ) 'q \"q=proc(int) \
    w3 b0 's \"s=cluster[type]~where~#1~has~f:proctype()~is;m:proc() w0 b1 \" w3 b1 w0 ( CLUO w2 's w0 ) 'G~ 'p w2 \
    'p 'q ( CLUI w2 w0 w1 w0 w0 w115 ) 'g ' w0 ( CLUI w2 w0 w1 w0 w0 w115 )\tgives kept\0\
    L CLUL w2 w1 w1 w0 'q \"q=iter() w1 b1 \"t w0 b0 ( CLUO w2 'p w0 )\tgives kept\0\
    L CLUL w2 w4294967295 w0 w1 '^200^a^ 'START w1 'p ( CLUI w2 w0 w1 w0 w0 w115 )\tgives kept\0\
    % A hole whose instructions have operands.\0\
    O CLUO w2 'p w1 'p w1 w2 w305418935 w4294083219 w1 w0 b6 w0 w0 w0 w0 w0\tgives kept\0\
    % The head of an object, and names in it.\0\
    O !CLUL w2 'p w0\tgives refused\0\
    O !\tgives refused\0\
    O CLUO !w1 'p w0\tgives refused\0\
    O CLUO !w3 'p w0\tgives refused\0\
    O CLUO w2 !'P w0\tgives refused\0\
    O CLUO w2 !'stream w0\tgives refused\0\
    O CLUO w2 !' w0\tgives refused\0\
    O CLUO w2 !'proc w0\tgives refused\0\
    O CLUO w2 !'1a w0\tgives refused\0\
    O CLUO w2 'p w0 !b0\tgives refused\0\
    O CLUO w2 !a201 w0\tgives refused\0\
    % Counts that the file can't hold.\0\
    O CLUO w2 'p w4294967295 !\tgives refused\0\
    O CLUO w2 'p w1 'p w1 w4294967295 w1 w2 !b0\tgives refused\0\
    O CLUO w2 'p w1 'p w1 w3 w695 w164499 w32871 w4294967295 w0 b3 w0 !\tgives refused\0\
    O CLUO w2 'p w1 'p w1 w3 w695 w164499 w32871 w0 w4294967295 \"q !\tgives refused\0\
    O CLUO w2 'p w1 'p w1 w3 w695 w164499 w32871 w0 w0 w4294967295 b0 !\tgives refused\0\
    O CLUO w2 'p w1 'p w1 w3 w695 w164499 w32871 w0 w0 w0 w4294967295 \"int !\tgives refused\0\
    O CLUO w2 'p w1 'p w1 w3 w695 w164499 w32871 w0 w0 w0 w0 w4294967295 w0 w0 w4294967295 w0 !\tgives refused\0\
    O CLUO w2 'p w1 'p w1 w3 w695 w164499 w32871 w0 w1 !b255 b255 b255 b255 b255 b255 b255 b255 b113\tgives refused\0\
    % Names of routines.\0\
    O CLUO w2 'p w1 !'end w0 w0 w0 w0 w0 w0 w0\tgives refused\0\
    O CLUO w2 'p w1 !' w0 w0 w0 w0 w0 w0 w0\tgives refused\0\
    % Places of holes.\0\
    O CLUO w2 'p w1 'p w1 w3 w695 w164499 w32871 w1 !w1 b6 w0 w0 w0 w0 w0\tgives refused\0\
    O CLUO w2 'p w1 'p w1 w3 w695 w164499 w32871 w1 !w2 b6 w0 w0 w0 w0 w0\tgives refused\0\
    O CLUO w2 'p w1 'p w1 w3 w695 w164499 w32871 w1 !w4294967295 b6 w0 w0 w0 w0 w0\tgives refused\0\
    O CLUO w2 'p w1 'p w1 w1 w695 w1 !w0 b6 w0 w0 w0 w0 w0\tgives refused\0\
    O CLUO w2 'p w1 'p w1 w2 w695 w164627 w1 !w0 b6 w0 w0 w0 w0 w0\tgives refused\0\
    O CLUO w2 'p w1 'p w1 w4 w695 w164499 w695 w164499 w2 w2 b6 w0 !w0 b6 w0 w0 w0 w0 w0\tgives refused\0\
    O CLUO w2 'p w1 'p w1 w4 w695 w164499 w695 w164499 w2 w0 b6 w0 !w0 b6 w0 w0 w0 w0 w0\tgives refused\0\
    % Under a hole AUIPC in the place of LUI, SLTI in that of ADDI, another register read, and both exchanged.\0\
    O CLUO w2 'p w1 'p w1 w2 w663 w164499 w1 !w0 b6 w0 w0 w0 w0 w0\tgives refused\0\
    O CLUO w2 'p w1 'p w1 w2 w695 w172691 w1 !w0 b6 w0 w0 w0 w0 w0\tgives refused\0\
    O CLUO w2 'p w1 'p w1 w2 w695 w197267 w1 !w0 b6 w0 w0 w0 w0 w0\tgives refused\0\
    O CLUO w2 'p w1 'p w1 w2 w164499 w695 w1 !w0 b6 w0 w0 w0 w0 w0\tgives refused\0\
    % Kinds and numbers of holes, by the counts that stand behind them.\0\
    O CLUO w2 'p w1 'p w1 w3 w695 w164499 w32871 w1 w0 !b9 w0 w0 w0 w0 w0\tgives refused\0\
    O CLUO w2 'p w1 'p w1 w3 w695 w164499 w32871 w1 w0 b0 !w1 w1 \"q w0 w0 w0\tgives refused\0\
    O CLUO w2 'p w1 'p w1 w3 w695 w164499 w32871 w1 w0 b1 !w0 w0 w0 w0 w0\tgives refused\0\
    O CLUO w2 'p w1 'p w1 w3 w695 w164499 w32871 w1 w0 b2 !w0 w1 \"q w0 w0 w0\tgives refused\0\
    O CLUO w2 'p w1 'p w1 w3 w695 w164499 w32871 w1 w0 b5 !w1 w0 w0 w1 \"int w0\tgives refused\0\
    O CLUO w2 'p w1 'p w1 w3 w695 w164499 w32871 w1 w0 b8 !w3 w0 w0 w0 w0\tgives refused\0\
    O CLUO w2 'p w1 'p w1 w3 w695 w164499 w32871 w1 w0 b5 !w2 w1 \"q w6 b0 b1 b1 b2 q5 b3 b255 b4 \"hi b5 w1 w2 \
    \"int \"int w0\tgives refused\0\
    % The least wrong field: a number before a wrong use, and a number whose count is not there.\0\
    O CLUO w2 'p w1 'p w1 w3 w695 w164499 w32871 w1 w0 b2 !w0 w1 \"Q w0 w0 w0\tgives refused\0\
    O CLUO w2 'p w1 'p w1 w3 w695 w164499 w32871 w1 w0 b2 w5 w1 \"q !\tgives refused\0\
    O CLUO w2 'p w1 'p w1 w3 w695 w164499 w32871 w1 w0 b5 w7 w0 w1 !b6\tgives refused\0\
    O CLUO w2 'p w1 'p w1 w3 w695 w164499 w32871 w1 w0 b1 w9 !\tgives refused\0\
    % Uses, constants and types.\0\
    O CLUO w2 'p w1 'p w1 w3 w695 w164499 w32871 w0 w1 !\"Q w0 w0 w0\tgives refused\0\
    O CLUO w2 'p w1 'p w1 w3 w695 w164499 w32871 w0 w1 !\" w0 w0 w0\tgives refused\0\
    O CLUO w2 'p w1 'p w1 w3 w695 w164499 w32871 w0 w1 !\"int w0 w0 w0\tgives refused\0\
    O CLUO w2 'p w1 'p w1 w3 w695 w164499 w32871 w0 w2 \"q !\"q$ w0 w0 w0\tgives refused\0\
    O CLUO w2 'p w1 'p w1 w3 w695 w164499 w32871 w0 w0 w1 !b6 w0 w0\tgives refused\0\
    O CLUO w2 'p w1 'p w1 w3 w695 w164499 w32871 w0 w0 w1 b1 !b2 w0 w0\tgives refused\0\
    O CLUO w2 'p w1 'p w1 w3 w695 w164499 w32871 w0 w0 w1 b5 !w0 w0 w0\tgives refused\0\
    O CLUO w2 'p w1 'p w1 w3 w695 w164499 w32871 w0 w0 w0 w1 !\"Int w0\tgives refused\0\
    O CLUO w2 'p w1 'p w1 w3 w695 w164499 w32871 w0 w0 w0 w1 !\"int, w0\tgives refused\0\
    % Ranges of regions.\0\
    O CLUO w2 'p w1 'p w1 w3 w1 w2 w3 w0 w0 w0 w0 w1 !w3 w3 w4294967295 w0\tgives refused\0\
    O CLUO w2 'p w1 'p w1 w3 w1 w2 w3 w0 w0 w0 w0 w1 !w3\tgives refused\0\
    O CLUO w2 'p w1 'p w1 w3 w1 w2 w3 w0 w0 w0 w0 w1 !w2 w1 w4294967295 w0\tgives refused\0\
    O CLUO w2 'p w1 'p w1 w3 w1 w2 w3 w0 w0 w0 w0 w1 w0 !w3 w4294967295 w0\tgives refused\0\
    O CLUO w2 'p w1 'p w1 w3 w1 w2 w3 w0 w0 w0 w0 w1 w0 w2 !w0 w0\tgives refused\0\
    O CLUO w2 'p w1 'p w1 w3 w1 w2 w3 w0 w0 w0 w0 w2 w0 w1 w4294967295 w0 w1 w2 !w0 w0\tgives refused\0\
    O CLUO w2 'p w1 'p w1 w3 w1 w2 w3 w0 w0 w0 w0 w2 w0 w1 w4294967295 w0 w1 w2 !w4294967295 w0\tgives refused\0\
    O CLUO w2 'p w1 'p w1 w3 w1 w2 w3 w0 w0 w0 w0 w3 w0 w2 w4294967295 w0 w0 w1 w0 w0 w1 w2 !w0 w0\tgives refused\0\
    O CLUO w2 'p w1 'p w1 w3 w1 w2 w3 w0 w0 w0 w0 w2 w1 w1 w4294967295 w0 w0 w2 !w4294967295 w0\tgives refused\0\
    O CLUO w2 'p w1 'p w1 w3 w1 w2 w3 w0 w0 w0 w0 w3 w0 w2 w4294967295 w0 w0 w0 w0 w0 w2 w2 !w1 w0\tgives refused\0\
    % Arms.\0\
    O CLUO w2 'p w1 'p w1 w3 w1 w2 w3 w0 w0 w0 w0 w1 w0 w2 w4294967295 w1 !'E w0 w0\tgives refused\0\
    O CLUO w2 'p w1 'p w1 w3 w1 w2 w3 w0 w0 w0 w0 w1 w0 w2 w4294967295 w1 'e !w3 w0\tgives refused\0\
    O CLUO w2 'p w1 'p w1 w3 w1 w2 w3 w0 w0 w0 w0 w1 w0 w2 w4294967295 w2 'e w0 w0 !'when w0 w0\tgives refused\0\
    % The head of a library.\0\
    L !CLUX w2 w0 w0 w0\tgives refused\0\
    L !CLUO w2 w0 w0 w0\tgives refused\0\
    L CLUL !w0 w0 w0 w0\tgives refused\0\
    L CLUL !w3 w0 w0 w0\tgives refused\0\
    L CLUL w2 w0 !w4097 w0\tgives refused\0\
    L CLUL w2 w0 w0 !w4097\tgives refused\0\
    L CLUL w1 !w4097 w0\tgives refused\0\
    L CLUL w1 w0 !w4294967295\tgives refused\0\
    L CLUL w2 w0 w0 w0 !b0\tgives refused\0\
    L CLUL w1 w0 w0 !b0\tgives refused\0\
    L CLUL w2 w0 w4096 w4096 !\tgives refused\0\
    % Modules.\0\
    L CLUL w2 w0 w1 w0 !'Q \"q=proc() w0 b0\tgives refused\0\
    L CLUL w2 w0 w1 w0 !'int \"q=proc() w0 b0\tgives refused\0\
    L CLUL w2 w0 w2 w0 'q \"q=proc() w0 b0 !'q \"q=proc() w0 b0\tgives refused\0\
    L CLUL w2 w0 w2 w0 'q \"q=proc() w0 b0 !'p \"p=proc() w0 b0\tgives refused\0\
    L CLUL w2 w0 w1 w0 'q !\"p=proc() w0 b0\tgives refused\0\
    L CLUL w2 w0 w1 w0 'q !\"q=proc(,) w0 b0\tgives refused\0\
    L CLUL w2 w0 w1 w0 'q !\" w0 b0\tgives refused\0\
    L CLUL w2 w0 w1 w0 'q !b255 b255 b255 b255 b255 b255 b255 b255\tgives refused\0\
    L CLUL w2 w1 w1 w0 'q \"q=proc() !w2 b0\tgives refused\0\
    L CLUL w2 w0 w1 w0 'q \"q=proc() w0 !b2\tgives refused\0\
    L CLUL w1 w1 w0 'q \"q=proc() !b2\tgives refused\0\
    % Bodies.\0\
    L CLUL w2 w1 w1 w0 'q \"q=proc() w0 b1 \"t !w2 b0 ( CLUO w2 'q w0 )\tgives refused\0\
    L CLUL w2 w1 w1 w0 'q \"q=proc() w0 b1 \"t w1 !b2 ( CLUO w2 'q w0 )\tgives refused\0\
    L CLUL w2 w1 w1 w0 'q \"q=proc() w0 b1 \"t w0 b1 w1 !'q ( CLUO w2 'q w0 )\tgives refused\0\
    L CLUL w2 w1 w1 w0 'q \"q=proc() w0 b1 \"t w0 b1 w2 'b !'a ( CLUO w2 'q w0 )\tgives refused\0\
    L CLUL w2 w1 w1 w0 'q \"q=proc() w0 b1 \"t w0 b1 w2 'a !'a ( CLUO w2 'q w0 )\tgives refused\0\
    L CLUL w2 w1 w1 w0 'q \"q=proc() w0 b1 \"t w0 b1 w1 !'stream ( CLUO w2 'q w0 )\tgives refused\0\
    L CLUL w2 w1 w1 w0 'q \"q=proc() w0 b1 \"t w0 b1 w4294967295 'a !\tgives refused\0\
    L CLUL w2 w1 w1 w0 'q \"q=proc() w0 b1 \"t w0 b0 !( CLUO w1 'q w0 )\tgives refused\0\
    L CLUL w2 w1 w1 w0 'q \"q=proc() w0 b1 \"t w0 b0 !( CLUO w2 'q w0 b0 )\tgives refused\0\
    L CLUL w2 w1 w1 w0 'q \"q=proc() w0 b1 \"t w0 b0 !( CLUO w2 'q )\tgives refused\0\
    L CLUL w1 w1 w0 'q \"q=proc() b1 \"t !( CLUO w1 'q w0 )\tgives refused\0\
    % Programs.\0\
    L CLUL w2 w0 w0 w1 !' 'q w0 ( CLUI w2 w0 w1 w0 w0 w115 )\tgives refused\0\
    L CLUL w2 w0 w0 w1 !a201 'q w0 ( CLUI w2 w0 w1 w0 w0 w115 )\tgives refused\0\
    L CLUL w2 w0 w0 w2 'g 'q w0 ( CLUI w2 w0 w1 w0 w0 w115 ) !'g 'q w0 ( CLUI w2 w0 w1 w0 w0 w115 )\tgives refused\0\
    L CLUL w2 w0 w0 w2 'g 'q w0 ( CLUI w2 w0 w1 w0 w0 w115 ) !'f 'q w0 ( CLUI w2 w0 w1 w0 w0 w115 )\tgives refused\0\
    L CLUL w2 w0 w0 w1 'g 'q w1 !'B ( CLUI w2 w0 w1 w0 w0 w115 )\tgives refused\0\
    L CLUL w2 w0 w0 w1 'g 'q w2 'b !'a ( CLUI w2 w0 w1 w0 w0 w115 )\tgives refused\0\
    L CLUL w2 w0 w0 w1 'g 'q w2 'b !'b ( CLUI w2 w0 w1 w0 w0 w115 )\tgives refused\0\
    L CLUL w2 w0 w0 w1 'g 'q w0 !( CLUI w2 w0 w0 w0 w0 )\tgives refused\0\
    L CLUL w2 w0 w0 w1 'g 'q w0 !( CLUI w2 w0 w1 w0 w0 w115 b0 )\tgives refused\0\
";

/// How many rows `FIRST` has besides comments.
pub const FIRST_COUNT: usize = 2;

/// Libraries of version 1, each after a tab as version 2.
pub const FIRST: &str = "\
    CLUL w1 w1 w0 'q \"q=proc() b0\tCLUL w2 w0 w1 w0 'q \"q=proc() w0 b0\tgives kept\0\
    CLUL w1 w1 w1 'q \"q=proc() b1 \"t ( CLUO w2 'q w0 ) 'g 'q w1 'q ( CLUI w1 w0 w1 w0 w115 )\tCLUL w2 w0 w1 w1 'q \
    \"q=proc() w0 b1 \"t w0 b0 ( CLUO w2 'q w0 ) 'g 'q w1 'q ( CLUI w2 w0 w1 w0 w0 w115 )\tgives kept\0\
";
