//! The table of built-in operations, one row a line: the operation, its arguments, what it gives, its signals, and
//! what it needs of the types of the parts. docs/operations.md says what each of them does.

use crate::names::{Op, Signal};
use crate::row::{Gives, Needs, Raises, Row, Slot, Takes};

/// Rows as `Operation: arguments => result, signals, needs;`.
macro_rules! rows {
    ($($op:ident: $takes:ident $(($($arg:ident),*))? => $gives:ident $(($result:ident))?, $raises:ident $(($($signal:ident),*))?, $needs:ident;)*) => {
        [$(Row(
            Op::$op,
            Takes::$takes $(($(Slot::$arg),*))?,
            Gives::$gives $((Slot::$result))?,
            Raises::$raises $(($(Signal::$signal),*))?,
            Needs::$needs,
        )),*]
    };
}

/// The operations of bool.
pub const BOOL: [Row; 6] = rows! {
    And: Two(Own, Own) => Value(Own), Nothing, Nothing;
    Or: Two(Own, Own) => Value(Own), Nothing, Nothing;
    Not: One(Own) => Value(Own), Nothing, Nothing;
    Equal: Two(Own, Own) => Value(Bool), Nothing, Nothing;
    Similar: Two(Own, Own) => Value(Bool), Nothing, Nothing;
    Copy: One(Own) => Value(Own), Nothing, Nothing;
};

/// The operations of int.
pub const INT: [Row; 18] = rows! {
    Add: Two(Own, Own) => Value(Own), One(Overflow), Nothing;
    Sub: Two(Own, Own) => Value(Own), One(Overflow), Nothing;
    Mul: Two(Own, Own) => Value(Own), One(Overflow), Nothing;
    Minus: One(Own) => Value(Own), One(Overflow), Nothing;
    Div: Two(Own, Own) => Value(Own), Two(Overflow, ZeroDivide), Nothing;
    Mod: Two(Own, Own) => Value(Own), One(ZeroDivide), Nothing;
    Power: Two(Own, Own) => Value(Own), Two(NegativeExponent, Overflow), Nothing;
    Lt: Two(Own, Own) => Value(Bool), Nothing, Nothing;
    Le: Two(Own, Own) => Value(Bool), Nothing, Nothing;
    Ge: Two(Own, Own) => Value(Bool), Nothing, Nothing;
    Gt: Two(Own, Own) => Value(Bool), Nothing, Nothing;
    Parse: One(Str) => Value(Own), Two(BadFormat, Overflow), Nothing;
    Unparse: One(Own) => Value(Str), Nothing, Nothing;
    FromTo: Two(Own, Own) => Yields(Own), Nothing, Nothing;
    FromToBy: Three(Own, Own, Own) => Yields(Own), Nothing, Nothing;
    Equal: Two(Own, Own) => Value(Bool), Nothing, Nothing;
    Similar: Two(Own, Own) => Value(Bool), Nothing, Nothing;
    Copy: One(Own) => Value(Own), Nothing, Nothing;
};

/// The operations of char.
pub const CHAR: [Row; 9] = rows! {
    I2c: One(Int) => Value(Own), One(IllegalChar), Nothing;
    C2i: One(Own) => Value(Int), Nothing, Nothing;
    Lt: Two(Own, Own) => Value(Bool), Nothing, Nothing;
    Le: Two(Own, Own) => Value(Bool), Nothing, Nothing;
    Ge: Two(Own, Own) => Value(Bool), Nothing, Nothing;
    Gt: Two(Own, Own) => Value(Bool), Nothing, Nothing;
    Equal: Two(Own, Own) => Value(Bool), Nothing, Nothing;
    Similar: Two(Own, Own) => Value(Bool), Nothing, Nothing;
    Copy: One(Own) => Value(Own), Nothing, Nothing;
};

/// The operations of null, and of proctypes and itertypes.
pub const NULL: [Row; 3] = rows! {
    Equal: Two(Own, Own) => Value(Bool), Nothing, Nothing;
    Similar: Two(Own, Own) => Value(Bool), Nothing, Nothing;
    Copy: One(Own) => Value(Own), Nothing, Nothing;
};

/// The operations of string.
pub const STRING: [Row; 20] = rows! {
    Size: One(Own) => Value(Int), Nothing, Nothing;
    Empty: One(Own) => Value(Bool), Nothing, Nothing;
    Lt: Two(Own, Own) => Value(Bool), Nothing, Nothing;
    Le: Two(Own, Own) => Value(Bool), Nothing, Nothing;
    Ge: Two(Own, Own) => Value(Bool), Nothing, Nothing;
    Gt: Two(Own, Own) => Value(Bool), Nothing, Nothing;
    C2s: One(Char) => Value(Own), Nothing, Nothing;
    Concat: Two(Own, Own) => Value(Own), Nothing, Nothing;
    Append: Two(Own, Char) => Value(Own), Nothing, Nothing;
    Fetch: Two(Own, Int) => Value(Char), One(Bounds), Nothing;
    Rest: Two(Own, Int) => Value(Own), One(Bounds), Nothing;
    Substr: Three(Own, Int, Int) => Value(Own), Two(Bounds, NegativeSize), Nothing;
    Indexs: Two(Own, Own) => Value(Int), Nothing, Nothing;
    Indexc: Two(Char, Own) => Value(Int), Nothing, Nothing;
    S2ac: One(Own) => Value(Array), Nothing, Nothing;
    Ac2s: One(Array) => Value(Own), Nothing, Nothing;
    Chars: One(Own) => Yields(Char), Nothing, Nothing;
    Equal: Two(Own, Own) => Value(Bool), Nothing, Nothing;
    Similar: Two(Own, Own) => Value(Bool), Nothing, Nothing;
    Copy: One(Own) => Value(Own), Nothing, Nothing;
};

/// The operations of arrays.
pub const ARRAY: [Row; 25] = rows! {
    Create: One(Int) => Value(Own), Nothing, Nothing;
    New: Nothing => Value(Own), Nothing, Nothing;
    Predict: Two(Int, Int) => Value(Own), Nothing, Nothing;
    Fill: Three(Int, Int, Part) => Value(Own), One(NegativeSize), Nothing;
    Size: One(Own) => Value(Int), Nothing, Nothing;
    Low: One(Own) => Value(Int), Nothing, Nothing;
    High: One(Own) => Value(Int), Nothing, Nothing;
    Empty: One(Own) => Value(Bool), Nothing, Nothing;
    SetLow: Two(Own, Int) => Nothing, Nothing, Nothing;
    Fetch: Two(Own, Int) => Value(Part), One(Bounds), Nothing;
    Store: Three(Own, Int, Part) => Nothing, One(Bounds), Nothing;
    Bottom: One(Own) => Value(Part), One(Bounds), Nothing;
    Top: One(Own) => Value(Part), One(Bounds), Nothing;
    Addh: Two(Own, Part) => Nothing, Nothing, Nothing;
    Addl: Two(Own, Part) => Nothing, Nothing, Nothing;
    Remh: One(Own) => Value(Part), One(Bounds), Nothing;
    Reml: One(Own) => Value(Part), One(Bounds), Nothing;
    Trim: Three(Own, Int, Int) => Nothing, Two(Bounds, NegativeSize), Nothing;
    Copy1: One(Own) => Value(Own), Nothing, Nothing;
    Equal: Two(Own, Own) => Value(Bool), Nothing, Nothing;
    Similar: Two(Own, Own) => Value(Bool), Nothing, Similar;
    Similar1: Two(Own, Own) => Value(Bool), Nothing, Equal;
    Copy: One(Own) => Value(Own), Nothing, Copy;
    Elements: One(Own) => Yields(Part), Nothing, Nothing;
    Indexes: One(Own) => Yields(Int), Nothing, Nothing;
};

/// The operations of sequences.
pub const SEQUENCE: [Row; 22] = rows! {
    New: Nothing => Value(Own), Nothing, Nothing;
    E2s: One(Part) => Value(Own), Nothing, Nothing;
    Fill: Two(Int, Part) => Value(Own), One(NegativeSize), Nothing;
    Size: One(Own) => Value(Int), Nothing, Nothing;
    Empty: One(Own) => Value(Bool), Nothing, Nothing;
    Fetch: Two(Own, Int) => Value(Part), One(Bounds), Nothing;
    Bottom: One(Own) => Value(Part), One(Bounds), Nothing;
    Top: One(Own) => Value(Part), One(Bounds), Nothing;
    Replace: Three(Own, Int, Part) => Value(Own), One(Bounds), Nothing;
    Addh: Two(Own, Part) => Value(Own), Nothing, Nothing;
    Addl: Two(Own, Part) => Value(Own), Nothing, Nothing;
    Remh: One(Own) => Value(Own), One(Bounds), Nothing;
    Reml: One(Own) => Value(Own), One(Bounds), Nothing;
    Concat: Two(Own, Own) => Value(Own), Nothing, Nothing;
    Subseq: Three(Own, Int, Int) => Value(Own), Two(Bounds, NegativeSize), Nothing;
    A2s: One(Array) => Value(Own), Nothing, Nothing;
    S2a: One(Own) => Value(Array), Nothing, Nothing;
    Equal: Two(Own, Own) => Value(Bool), Nothing, Equal;
    Similar: Two(Own, Own) => Value(Bool), Nothing, Similar;
    Copy: One(Own) => Value(Own), Nothing, Copy;
    Elements: One(Own) => Yields(Part), Nothing, Nothing;
    Indexes: One(Own) => Yields(Int), Nothing, Nothing;
};

/// The operations of structs and oneofs, beside those of their selectors.
pub const STRUCT: [Row; 3] = rows! {
    Equal: Two(Own, Own) => Value(Bool), Nothing, Equal;
    Similar: Two(Own, Own) => Value(Bool), Nothing, Similar;
    Copy: One(Own) => Value(Own), Nothing, Copy;
};

/// The operations of records and variants, beside those of their selectors.
pub const RECORD: [Row; 5] = rows! {
    Equal: Two(Own, Own) => Value(Bool), Nothing, Nothing;
    Similar: Two(Own, Own) => Value(Bool), Nothing, Similar;
    Similar1: Two(Own, Own) => Value(Bool), Nothing, Equal;
    Copy: One(Own) => Value(Own), Nothing, Copy;
    Copy1: One(Own) => Value(Own), Nothing, Nothing;
};

/// The operations of streams.
pub const STREAM: [Row; 9] = rows! {
    PrimaryInput: Nothing => Value(Own), Nothing, Nothing;
    PrimaryOutput: Nothing => Value(Own), Nothing, Nothing;
    Getc: One(Own) => Value(Char), Two(EndOfFile, NotPossible), Nothing;
    Getl: One(Own) => Value(Str), Two(EndOfFile, NotPossible), Nothing;
    Empty: One(Own) => Value(Bool), One(NotPossible), Nothing;
    Putc: Two(Own, Char) => Nothing, One(NotPossible), Nothing;
    Puts: Two(Own, Str) => Nothing, One(NotPossible), Nothing;
    Putl: Two(Own, Str) => Nothing, One(NotPossible), Nothing;
    Equal: Two(Own, Own) => Value(Bool), Nothing, Nothing;
};

/// The operations of each selector of a struct.
pub const STRUCT_SELECTORS: [Row; 2] = rows! {
    Get: One(Own) => Value(Part), Nothing, Nothing;
    ReplaceOf: Two(Own, Part) => Value(Own), Nothing, Nothing;
};

/// The operations of each selector of a record.
pub const RECORD_SELECTORS: [Row; 2] = rows! {
    Get: One(Own) => Value(Part), Nothing, Nothing;
    Set: Two(Own, Part) => Nothing, Nothing, Nothing;
};

/// The operations of each tag of a oneof.
pub const ONEOF_SELECTORS: [Row; 3] = rows! {
    Make: One(Part) => Value(Own), Nothing, Nothing;
    Is: One(Own) => Value(Bool), Nothing, Nothing;
    Value: One(Own) => Value(Part), One(WrongTag), Nothing;
};

/// The operations of each tag of a variant.
pub const VARIANT_SELECTORS: [Row; 4] = rows! {
    Make: One(Part) => Value(Own), Nothing, Nothing;
    Is: One(Own) => Value(Bool), Nothing, Nothing;
    Value: One(Own) => Value(Part), One(WrongTag), Nothing;
    Change: Two(Own, Part) => Nothing, Nothing, Nothing;
};
