//! The operations of int, whose objects are words of two's complement.

ghost use Rattle.std.specs.Prelude.{◌≡◌, IfSome};

use crate::code::{Deed, EQUAL, Expr, FIRST, Operation, SECOND, Step, THIRD, X, Y, steps, value};
use crate::finding::named;
use crate::parsing::PARSE;
use clu_wir::{Primitive, Trap, WOp};

const OVERFLOW: Step = Step::Signal(b"overflow", &[]);

const NEGATIVE_EXPONENT: Step = Step::Signal(b"negative_exponent", &[]);

const ZERO: Expr = Expr::Word(0);

const ONE: Expr = Expr::Word(1);

const TEN: Expr = Expr::Word(10);

/// What the operations work with after their arguments.
const R: Expr = Expr::Slot(2);

const S: Expr = Expr::Slot(3);

/// The words that a sum, a difference, a product or a quotient is made of, and what it is.
const THIS: Expr = FIRST;

const THAT: Expr = SECOND;

const RESULT: Expr = THIRD;

const THAT_IS_NEGATIVE: Expr = Expr::Op(WOp::Slt, &THAT, &ZERO);

/// A sum is less than the first part just where the second is negative, unless it overflows.
const SUM: Expr = Expr::Check(
    &Expr::Op(
        WOp::Equal,
        &THAT_IS_NEGATIVE,
        &Expr::Op(WOp::Slt, &RESULT, &THIS),
    ),
    Trap::Overflow,
    &RESULT,
);

/// The sum of the two words that are bound.
pub const PLUS: Expr = Expr::With(&[THIS, THAT, Expr::Op(WOp::Add, &THIS, &THAT)], &SUM);

const ADD: Expr = Expr::With(&[X, Y], &PLUS);

/// A difference is less than the first part just where the second is positive, unless it overflows.
const DIFFERENCE: Expr = Expr::Check(
    &Expr::Op(
        WOp::Equal,
        &Expr::Op(WOp::Slt, &ZERO, &THAT),
        &Expr::Op(WOp::Slt, &RESULT, &THIS),
    ),
    Trap::Overflow,
    &RESULT,
);

const SUB: Expr = Expr::With(
    &[X, Y],
    &Expr::With(&[THIS, THAT, Expr::Op(WOp::Sub, &THIS, &THAT)], &DIFFERENCE),
);

/// A product overflows where its upper word isn't all sign.
const PRODUCT: Expr = Expr::Check(
    &Expr::Op(
        WOp::Equal,
        &Expr::Op(WOp::Mulh, &THIS, &THAT),
        &Expr::Op(WOp::Sra, &RESULT, &Expr::Word(63)),
    ),
    Trap::Overflow,
    &RESULT,
);

const MUL: Expr = Expr::With(
    &[X, Y],
    &Expr::With(&[THIS, THAT, Expr::Op(WOp::Mul, &THIS, &THAT)], &PRODUCT),
);

/// Of the least int alone the negative has the same sign.
const MINUS: Expr = Expr::With(
    &[X],
    &Expr::With(
        &[FIRST, Expr::Op(WOp::Sub, &ZERO, &FIRST)],
        &Expr::Check(
            &Expr::Op(
                WOp::Equal,
                &Expr::Op(WOp::Slt, &Expr::Op(WOp::And, &FIRST, &SECOND), &ZERO),
                &ZERO,
            ),
            Trap::Overflow,
            &SECOND,
        ),
    ),
);

/// The quotient that leaves no negative rest, from the one that is rounded toward zero. Only the least int by -1 overflows:
/// all three are negative then.
const QUOTIENT: Expr = Expr::Check(
    &Expr::Op(
        WOp::Equal,
        &Expr::Op(
            WOp::Slt,
            &Expr::Op(WOp::And, &Expr::Op(WOp::And, &THIS, &THAT), &RESULT),
            &ZERO,
        ),
        &ZERO,
    ),
    Trap::Overflow,
    &Expr::If(
        &Expr::Op(WOp::Slt, &Expr::Op(WOp::Rem, &THIS, &THAT), &ZERO),
        &Expr::If(
            &THAT_IS_NEGATIVE,
            &Expr::Op(WOp::Add, &RESULT, &ONE),
            &Expr::Op(WOp::Sub, &RESULT, &ONE),
        ),
        &RESULT,
    ),
);

const DIV: Expr = Expr::With(
    &[X, Y],
    &Expr::Check(
        &THAT,
        Trap::ZeroDivide,
        &Expr::With(&[THIS, THAT, Expr::Op(WOp::Div, &THIS, &THAT)], &QUOTIENT),
    ),
);

/// The rest, which isn't negative and less than the size of the divisor.
const REST: Expr = Expr::If(
    &Expr::Op(WOp::Slt, &RESULT, &ZERO),
    &Expr::If(
        &THAT_IS_NEGATIVE,
        &Expr::Op(WOp::Sub, &RESULT, &THAT),
        &Expr::Op(WOp::Add, &RESULT, &THAT),
    ),
    &RESULT,
);

const MOD: Expr = Expr::With(
    &[X, Y],
    &Expr::Check(
        &THAT,
        Trap::ZeroDivide,
        &Expr::With(&[THIS, THAT, Expr::Op(WOp::Rem, &THIS, &THAT)], &REST),
    ),
);

/// By squaring: the power of what is left of base and exponent, times the product so far, is the result. A square
/// that overflows is a factor of the result, since the exponent isn't used up.
const POWER: &[Step] = &[
    Step::When(Expr::Op(WOp::Slt, &Y, &ZERO), &[NEGATIVE_EXPONENT]),
    Step::Set(2, ONE),
    Step::Loop(&[
        Step::When(
            Expr::Op(WOp::And, &Y, &ONE),
            &[
                Step::Set(3, Expr::Op(WOp::Mul, &R, &X)),
                Step::Unless(
                    Expr::Op(
                        WOp::Equal,
                        &Expr::Op(WOp::Mulh, &R, &X),
                        &Expr::Op(WOp::Sra, &S, &Expr::Word(63)),
                    ),
                    &[OVERFLOW],
                ),
                Step::Set(2, S),
            ],
        ),
        Step::Set(1, Expr::Op(WOp::Srl, &Y, &ONE)),
        Step::Unless(Y, &[Step::Return(&[R])]),
        Step::Set(3, Expr::Op(WOp::Mul, &X, &X)),
        Step::Unless(
            Expr::Op(
                WOp::Equal,
                &Expr::Op(WOp::Mulh, &X, &X),
                &Expr::Op(WOp::Sra, &S, &Expr::Word(63)),
            ),
            &[OVERFLOW],
        ),
        Step::Set(0, S),
    ]),
];

/// The string in slot 1, the size without its sign in slot 2, what is left of that in slot 3, and in slot 4 first the
/// number of characters and then the address after those that are still to be written, least digit first.
const UNPARSE: &[Step] = &[
    Step::Get(1, Primitive::Allocate, &[Expr::Word(4)]),
    Step::Set(2, X),
    Step::Set(4, ONE),
    Step::When(
        Expr::Op(WOp::Slt, &X, &ZERO),
        &[
            Step::Set(2, Expr::Op(WOp::Sub, &ZERO, &X)),
            Step::Set(4, Expr::Word(2)),
            Step::Do(
                Primitive::SaveByte,
                &[
                    Expr::Op(WOp::Add, &Y, &Expr::Word(8)),
                    Expr::Word(b'-' as u64),
                ],
            ),
        ],
    ),
    Step::Set(3, Expr::Op(WOp::Divu, &R, &TEN)),
    Step::Loop(&[
        Step::Unless(S, &[Step::Break]),
        Step::Set(3, Expr::Op(WOp::Divu, &S, &TEN)),
        Step::Set(4, Expr::Op(WOp::Add, &Expr::Slot(4), &ONE)),
    ]),
    Step::Put(Y, 0, Expr::Slot(4)),
    Step::Set(
        4,
        Expr::Op(
            WOp::Add,
            &Expr::Op(WOp::Add, &Y, &Expr::Word(8)),
            &Expr::Slot(4),
        ),
    ),
    Step::Loop(&[
        Step::Set(4, Expr::Op(WOp::Sub, &Expr::Slot(4), &ONE)),
        Step::Do(
            Primitive::SaveByte,
            &[
                Expr::Slot(4),
                Expr::Op(
                    WOp::Add,
                    &Expr::Op(WOp::Remu, &R, &TEN),
                    &Expr::Word(b'0' as u64),
                ),
            ],
        ),
        Step::Set(2, Expr::Op(WOp::Divu, &R, &TEN)),
        Step::Unless(R, &[Step::Return(&[Y])]),
    ]),
];

pub const LT: Expr = Expr::Op(WOp::Slt, &X, &Y);

pub const LE: Expr = Expr::With(
    &[X, Y],
    &Expr::Op(WOp::Xor, &Expr::Op(WOp::Slt, &SECOND, &FIRST), &ONE),
);

pub const GE: Expr = Expr::Op(WOp::Xor, &Expr::Op(WOp::Slt, &X, &Y), &ONE);

pub const GT: Expr = Expr::With(&[X, Y], &Expr::Op(WOp::Slt, &SECOND, &FIRST));

/// The operation of int of this name, if it is no text.
pub fn int_operation(name: &[u8]) -> Option<&'static Operation>
    ensures { IfSome result (λ operation. operation.now.name.now ≡ name.now) }
{
    match named(arithmetic(), name) {
        Some(operation) => Some(operation),
        None => match named(comparisons(), name) {
            Some(operation) => Some(operation),
            None => named(decimals(), name),
        },
    }
}

/// What is reckoned with ints.
fn arithmetic() -> &'static [Operation] {
    ARITHMETIC
}

const ARITHMETIC: &[Operation] = &[
    value!(b"add", 2, ADD),
    value!(b"sub", 2, SUB),
    value!(b"mul", 2, MUL),
    value!(b"minus", 1, MINUS),
    value!(b"div", 2, DIV),
    value!(b"mod", 2, MOD),
    steps!(b"power", 2, 4, POWER),
];

/// How ints are compared and copied.
fn comparisons() -> &'static [Operation] {
    COMPARISONS
}

const COMPARISONS: &[Operation] = &[
    value!(b"lt", 2, LT),
    value!(b"le", 2, LE),
    value!(b"ge", 2, GE),
    value!(b"gt", 2, GT),
    value!(b"equal", 2, EQUAL),
    value!(b"similar", 2, EQUAL),
    value!(b"copy", 1, X),
];

/// How ints are read and written in decimal digits.
fn decimals() -> &'static [Operation] {
    DECIMALS
}

const DECIMALS: &[Operation] = &[
    steps!(b"parse", 1, 6, PARSE),
    steps!(b"unparse", 1, 5, UNPARSE),
];
