//! The operations of string. A string is the address of the word of its size, after which its bytes lie, eight a
//! word; what is left of the last word is 0.

ghost use Rattle.std.specs.Prelude.{◌≡◌, IfSome};

use crate::code::{Deed, Expr, FIRST, Operation, SECOND, Step, X, Y, Z, steps, value};
use crate::finding::named;
use clu_wir::{Primitive, Trap, WOp};

const BOUNDS: Step = Step::Signal(b"bounds", &[]);

const NEGATIVE_SIZE: Step = Step::Signal(b"negative_size", &[]);

const ZERO: Expr = Expr::Word(0);

const ONE: Expr = Expr::Word(1);

const SEVEN: Expr = Expr::Word(7);

const EIGHT: Expr = Expr::Word(8);

/// A place in a string, from 0 or from 1.
const PLACE: Expr = Expr::Slot(3);

const BYTE: Expr = Expr::Slot(4);

const OTHER: Expr = Expr::Slot(5);

/// The size of a new string, and the string.
const N: Expr = Expr::Slot(3);

const MADE: Expr = Expr::Slot(4);
/// From where bytes are copied up to which address, and whereto.
const FROM: Expr = Expr::Slot(5);

const END: Expr = Expr::Slot(6);

const TO: Expr = Expr::Slot(7);

const X_SIZE: Expr = Expr::Load(&X, 0);

const Y_SIZE: Expr = Expr::Load(&Y, 0);

const X_BYTES: Expr = Expr::Op(WOp::Add, &X, &EIGHT);

const Y_BYTES: Expr = Expr::Op(WOp::Add, &Y, &EIGHT);

const X_END: Expr = Expr::Op(WOp::Add, &X_BYTES, &X_SIZE);

const Y_END: Expr = Expr::Op(WOp::Add, &Y_BYTES, &Y_SIZE);

/// The address of the byte at the place `y` of `x`, from 1.
const X_AT_Y: Expr = Expr::Op(WOp::Add, &Expr::Op(WOp::Add, &X, &SEVEN), &Y);

/// To slot 4 the byte of `x` at a place from 0, and to slot 5 that of `y`.
const GET_X: Step = Step::Set(4, Expr::Byte(&Expr::Op(WOp::Add, &X_BYTES, &PLACE)));

const GET_Y: Step = Step::Set(5, Expr::Byte(&Expr::Op(WOp::Add, &Y_BYTES, &PLACE)));

const NEXT: Step = Step::Set(3, Expr::Op(WOp::Add, &PLACE, &ONE));

const EMPTY: Expr = Expr::Op(WOp::Equal, &X_SIZE, &ZERO);

/// Byte by byte up to the first that differs or the end of one of the strings. What is answered where `x` is less,
/// where it is greater, and where they are equal.
macro_rules! compared {
    ($less:expr, $greater:expr, $equal:expr) => {
        &[
            Step::Set(3, ZERO),
            Step::Loop(&[
                Step::When(
                    Expr::Op(WOp::Equal, &PLACE, &X_SIZE),
                    &[
                        Step::When(
                            Expr::Op(WOp::Equal, &PLACE, &Y_SIZE),
                            &[Step::Return(&[Expr::Word($equal)])],
                        ),
                        Step::Return(&[Expr::Word($less)]),
                    ],
                ),
                Step::When(
                    Expr::Op(WOp::Equal, &PLACE, &Y_SIZE),
                    &[Step::Return(&[Expr::Word($greater)])],
                ),
                GET_X,
                GET_Y,
                Step::When(
                    Expr::Op(WOp::Sltu, &BYTE, &OTHER),
                    &[Step::Return(&[Expr::Word($less)])],
                ),
                Step::When(
                    Expr::Op(WOp::Sltu, &OTHER, &BYTE),
                    &[Step::Return(&[Expr::Word($greater)])],
                ),
                NEXT,
            ]),
        ]
    };
}

const LT: &[Step] = compared!(1, 0, 0);

const LE: &[Step] = compared!(1, 0, 1);

const GE: &[Step] = compared!(0, 1, 1);

const GT: &[Step] = compared!(0, 1, 0);

/// Strings of different sizes are told apart at once.
const EQUAL: &[Step] = &[
    Step::Unless(
        Expr::Op(WOp::Equal, &X_SIZE, &Y_SIZE),
        &[Step::Return(&[ZERO])],
    ),
    Step::Set(3, ZERO),
    Step::Loop(&[
        Step::When(
            Expr::Op(WOp::Equal, &PLACE, &X_SIZE),
            &[Step::Return(&[ONE])],
        ),
        GET_X,
        GET_Y,
        Step::Unless(
            Expr::Op(WOp::Equal, &BYTE, &OTHER),
            &[Step::Return(&[ZERO])],
        ),
        NEXT,
    ]),
];

const C2S: &[Step] = &[
    Step::Get(1, Primitive::Allocate, &[Expr::Word(2)]),
    Step::Put(Y, 0, ONE),
    Step::Put(Y, 8, X),
    Step::Return(&[Y]),
];

/// A new string of the size in slot 3 to slot 4; its bytes are to be copied to the address in slot 7.
const MAKE: Step = Step::Get(
    4,
    Primitive::Allocate,
    &[Expr::Op(
        WOp::Add,
        &Expr::Op(WOp::Srl, &Expr::Op(WOp::Add, &N, &SEVEN), &Expr::Word(3)),
        &ONE,
    )],
);

const PUT_SIZE: Step = Step::Put(MADE, 0, N);

const TO_BYTES: Step = Step::Set(7, Expr::Op(WOp::Add, &MADE, &EIGHT));

/// Copies the bytes from the address in slot 5 up to that in slot 6.
const COPY_BYTES: Step = Step::Loop(&[
    Step::When(Expr::Op(WOp::Equal, &FROM, &END), &[Step::Break]),
    Step::Do(Primitive::SaveByte, &[TO, Expr::Byte(&FROM)]),
    Step::Set(5, Expr::Op(WOp::Add, &FROM, &ONE)),
    Step::Set(7, Expr::Op(WOp::Add, &TO, &ONE)),
]);

const COPY_WORDS: Step = Step::Loop(&[
    Step::When(Expr::Op(WOp::Equal, &FROM, &END), &[Step::Break]),
    Step::Put(TO, 0, Expr::Load(&FROM, 0)),
    Step::Set(5, Expr::Op(WOp::Add, &FROM, &EIGHT)),
    Step::Set(7, Expr::Op(WOp::Add, &TO, &EIGHT)),
]);

const ROUNDED: Expr = Expr::Op(
    WOp::Sll,
    &Expr::Op(
        WOp::Srl,
        &Expr::Op(WOp::Add, &X_SIZE, &SEVEN),
        &Expr::Word(3),
    ),
    &Expr::Word(3),
);

const CONCAT: &[Step] = &[
    Step::Set(3, Expr::Op(WOp::Add, &X_SIZE, &Y_SIZE)),
    MAKE,
    PUT_SIZE,
    TO_BYTES,
    Step::Set(5, X_BYTES),
    Step::Set(6, Expr::Op(WOp::Add, &FROM, &ROUNDED)),
    COPY_WORDS,
    Step::Set(
        7,
        Expr::Op(WOp::Add, &Expr::Op(WOp::Add, &MADE, &EIGHT), &X_SIZE),
    ),
    Step::Set(5, Y_BYTES),
    Step::Set(6, Y_END),
    COPY_BYTES,
    Step::Return(&[MADE]),
];

const APPEND: &[Step] = &[
    Step::Set(3, Expr::Op(WOp::Add, &X_SIZE, &ONE)),
    MAKE,
    PUT_SIZE,
    TO_BYTES,
    Step::Set(5, X_BYTES),
    Step::Set(6, Expr::Op(WOp::Add, &FROM, &ROUNDED)),
    COPY_WORDS,
    Step::Set(
        7,
        Expr::Op(WOp::Add, &Expr::Op(WOp::Add, &MADE, &EIGHT), &X_SIZE),
    ),
    Step::Do(Primitive::SaveByte, &[TO, Y]),
    Step::Return(&[MADE]),
];

const FETCH: Expr = Expr::With(
    &[X, Y],
    &Expr::Check(
        &Expr::Op(
            WOp::Sltu,
            &Expr::Op(WOp::Sub, &SECOND, &ONE),
            &Expr::Load(&FIRST, 0),
        ),
        Trap::Bounds,
        &Expr::Byte(&Expr::Op(WOp::Add, &Expr::Op(WOp::Add, &FIRST, &SEVEN), &SECOND)),
    ),
);

/// A place at which a part may begin is at most one after the string.
const IN_BOUNDS: Step = Step::Unless(
    Expr::Op(
        WOp::Sltu,
        &Expr::Op(WOp::Sub, &Y, &ONE),
        &Expr::Op(WOp::Add, &X_SIZE, &ONE),
    ),
    &[BOUNDS],
);

/// How many bytes are left from the place `y` on.
const LEFT: Expr = Expr::Op(WOp::Sub, &X_SIZE, &Expr::Op(WOp::Sub, &Y, &ONE));

const REST: &[Step] = &[
    IN_BOUNDS,
    Step::Set(3, LEFT),
    MAKE,
    PUT_SIZE,
    TO_BYTES,
    Step::Set(5, X_AT_Y),
    Step::Set(6, X_END),
    COPY_BYTES,
    Step::Return(&[MADE]),
];

const SUBSTR: &[Step] = &[
    Step::When(Expr::Op(WOp::Slt, &Z, &ZERO), &[NEGATIVE_SIZE]),
    IN_BOUNDS,
    Step::Set(3, LEFT),
    Step::When(Expr::Op(WOp::Slt, &Z, &N), &[Step::Set(3, Z)]),
    MAKE,
    PUT_SIZE,
    TO_BYTES,
    Step::Set(5, X_AT_Y),
    Step::Set(6, Expr::Op(WOp::Add, &FROM, &N)),
    COPY_BYTES,
    Step::Return(&[MADE]),
];

/// In slot 2 how far the first string is moved along the second, in which it is to fit.
const INDEXS: &[Step] = &[
    Step::Set(2, ZERO),
    Step::Loop(&[
        Step::When(
            Expr::Op(WOp::Slt, &Y_SIZE, &Expr::Op(WOp::Add, &Z, &X_SIZE)),
            &[Step::Return(&[ZERO])],
        ),
        Step::Set(3, ZERO),
        Step::Loop(&[
            Step::When(
                Expr::Op(WOp::Equal, &PLACE, &X_SIZE),
                &[Step::Return(&[Expr::Op(WOp::Add, &Z, &ONE)])],
            ),
            GET_X,
            Step::Set(
                5,
                Expr::Byte(&Expr::Op(WOp::Add, &Expr::Op(WOp::Add, &Y_BYTES, &Z), &PLACE)),
            ),
            Step::Unless(Expr::Op(WOp::Equal, &BYTE, &OTHER), &[Step::Break]),
            NEXT,
        ]),
        Step::Set(2, Expr::Op(WOp::Add, &Z, &ONE)),
    ]),
];

const INDEXC: &[Step] = &[
    Step::Set(3, ZERO),
    Step::Loop(&[
        Step::When(
            Expr::Op(WOp::Equal, &PLACE, &Y_SIZE),
            &[Step::Return(&[ZERO])],
        ),
        Step::Set(4, Expr::Byte(&Expr::Op(WOp::Add, &Y_BYTES, &PLACE))),
        NEXT,
        Step::When(Expr::Op(WOp::Equal, &BYTE, &X), &[Step::Return(&[PLACE])]),
    ]),
];

/// The operation of string of this name, if it is no text and makes no array.
pub fn string_operation(name: &[u8]) -> Option<&'static Operation>
    ensures { IfSome result (λ operation. operation.now.name.now ≡ name.now) }
{
    match named(comparisons(), name) {
        Some(operation) => Some(operation),
        None => match named(wholes(), name) {
            Some(operation) => Some(operation),
            None => named(parts(), name),
        },
    }
}

/// Which of two strings comes first.
fn comparisons() -> &'static [Operation] {
    COMPARISONS
}

const COMPARISONS: &[Operation] = &[
    steps!(b"lt", 2, 6, LT),
    steps!(b"le", 2, 6, LE),
    steps!(b"ge", 2, 6, GE),
    steps!(b"gt", 2, 6, GT),
];

/// What is asked of whole strings and made of them.
fn wholes() -> &'static [Operation] {
    WHOLES
}

const WHOLES: &[Operation] = &[
    steps!(b"equal", 2, 6, EQUAL),
    steps!(b"similar", 2, 6, EQUAL),
    value!(b"size", 1, X_SIZE),
    value!(b"empty", 1, EMPTY),
    steps!(b"c2s", 1, 2, C2S),
    steps!(b"concat", 2, 8, CONCAT),
    steps!(b"append", 2, 8, APPEND),
    value!(b"copy", 1, X),
];

/// What is found in strings and taken out of them.
fn parts() -> &'static [Operation] {
    PARTS
}

const PARTS: &[Operation] = &[
    value!(b"fetch", 2, FETCH),
    steps!(b"rest", 2, 8, REST),
    steps!(b"substr", 3, 8, SUBSTR),
    steps!(b"indexs", 2, 6, INDEXS),
    steps!(b"indexc", 2, 5, INDEXC),
];
