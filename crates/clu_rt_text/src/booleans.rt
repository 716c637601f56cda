//! The operations of null and of bool. False is 0 and true is 1; nil is 0.

use crate::code::{Deed, EQUAL, Expr, Operation, X, Y, value};
use clu_wir::WOp;

/// The operations of null.
pub fn null_operations() -> &'static [Operation] {
    NULL
}

const NULL: &[Operation] = &[
    value!(b"equal", 2, EQUAL),
    value!(b"similar", 2, EQUAL),
    value!(b"copy", 1, X),
];

/// The operations of bool.
pub fn bool_operations() -> &'static [Operation] {
    BOOL
}

const BOOL: &[Operation] = &[
    value!(b"and", 2, Expr::Op(WOp::And, &X, &Y)),
    value!(b"or", 2, Expr::Op(WOp::Or, &X, &Y)),
    value!(b"not", 1, Expr::Op(WOp::Xor, &X, &Expr::Word(1))),
    value!(b"equal", 2, EQUAL),
    value!(b"similar", 2, EQUAL),
    value!(b"copy", 1, X),
];
