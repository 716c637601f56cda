//! The operation parse of int.

use crate::code::{Expr, Step, X, Y};
use clu_wir::WOp;

const BAD_FORMAT: Step = Step::Signal(b"bad_format", &[]);

const OVERFLOW: Step = Step::Signal(b"overflow", &[]);

const ZERO: Expr = Expr::Word(0);

const ONE: Expr = Expr::Word(1);

const TEN: Expr = Expr::Word(10);

/// The place from 0 is in slot 1, whether the number is negative in slot 2.
const NEGATIVE: Expr = Expr::Slot(2);
/// The number so far, of which the negative is kept, since the least int has no other; and whether it is too large.
const VALUE: Expr = Expr::Slot(3);

const BYTE: Expr = Expr::Slot(4);

const OVER: Expr = Expr::Slot(5);

/// The least int, and the tenth of it.
const LEAST: Expr = Expr::Word(0x8000_0000_0000_0000);

const TENTH: Expr = Expr::Word(0xF333_3333_3333_3334);

const SIZE: Expr = Expr::Load(&X, 0);

const AT: Expr = Expr::Op(WOp::Add, &Expr::Op(WOp::Add, &X, &Expr::Word(8)), &Y);

const IS_END: Expr = Expr::Op(WOp::Equal, &Y, &SIZE);

const NEXT: Step = Step::Set(1, Expr::Op(WOp::Add, &Y, &ONE));

/// Takes a sign, if one is at the front.
const TAKE_SIGN: Step = Step::Unless(
    IS_END,
    &[
        Step::Set(4, Expr::Byte(&AT)),
        Step::Set(2, Expr::Op(WOp::Equal, &BYTE, &Expr::Word(b'-' as u64))),
        Step::When(
            Expr::Op(
                WOp::Or,
                &NEGATIVE,
                &Expr::Op(WOp::Equal, &BYTE, &Expr::Word(b'+' as u64)),
            ),
            &[NEXT],
        ),
    ],
);

/// Takes the digit in slot 4 off ten times the number.
const ASK_TENTH: Step = Step::When(Expr::Op(WOp::Slt, &VALUE, &TENTH), &[Step::Set(5, ONE)]);

const TIMES_TEN: Step = Step::Set(3, Expr::Op(WOp::Mul, &VALUE, &TEN));

const ASK_DIGIT: Step = Step::When(
    Expr::Op(WOp::Slt, &VALUE, &Expr::Op(WOp::Sub, &VALUE, &BYTE)),
    &[Step::Set(5, ONE)],
);

const LESS_DIGIT: Step = Step::Set(3, Expr::Op(WOp::Sub, &VALUE, &BYTE));

/// The format of the whole is asked before the size of the number.
pub const PARSE: &[Step] = &[
    Step::Set(1, ZERO),
    Step::Set(2, ZERO),
    Step::Set(3, ZERO),
    Step::Set(5, ZERO),
    TAKE_SIGN,
    Step::When(IS_END, &[BAD_FORMAT]),
    Step::Loop(&[
        Step::When(IS_END, &[Step::Break]),
        Step::Set(4, Expr::Byte(&AT)),
        Step::Set(4, Expr::Op(WOp::Sub, &BYTE, &Expr::Word(b'0' as u64))),
        Step::Unless(Expr::Op(WOp::Sltu, &BYTE, &TEN), &[BAD_FORMAT]),
        ASK_TENTH,
        TIMES_TEN,
        ASK_DIGIT,
        LESS_DIGIT,
        NEXT,
    ]),
    Step::When(OVER, &[OVERFLOW]),
    Step::When(NEGATIVE, &[Step::Return(&[VALUE])]),
    Step::When(Expr::Op(WOp::Equal, &VALUE, &LEAST), &[OVERFLOW]),
    Step::Return(&[Expr::Op(WOp::Sub, &ZERO, &VALUE)]),
];
