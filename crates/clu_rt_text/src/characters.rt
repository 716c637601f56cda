//! The operations of char, whose objects are words from 0 to 255.

use crate::code::{Deed, EQUAL, Expr, FIRST, Operation, X, value};
use crate::integers::{GE, GT, LE, LT};
use clu_wir::{Trap, WOp};

const I2C: Expr = Expr::With(
    &[X],
    &Expr::Check(
        &Expr::Op(WOp::Sltu, &FIRST, &Expr::Word(256)),
        Trap::IllegalChar,
        &FIRST,
    ),
);

/// The operations of char.
pub fn char_operations() -> &'static [Operation] {
    CHAR
}

const CHAR: &[Operation] = &[
    value!(b"i2c", 1, I2C),
    value!(b"c2i", 1, X),
    value!(b"lt", 2, LT),
    value!(b"le", 2, LE),
    value!(b"ge", 2, GE),
    value!(b"gt", 2, GT),
    value!(b"equal", 2, EQUAL),
    value!(b"similar", 2, EQUAL),
    value!(b"copy", 1, X),
];
