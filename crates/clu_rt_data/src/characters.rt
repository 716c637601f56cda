//! The operations of string over arrays of its characters. The layouts are those of `arrays` and of strings: the word of
//! the size, and after it the bytes, eight a word.

use crate::arrays::{ELEMENT, FIND, FROM_FIRST, SIZE as ARRAY_SIZE, WRAP};
use crate::rows::steps;
use clu_rt_text::{Deed, Expr, Operation, Step, X, Y};
use clu_wir::{Primitive, WOp};

const ZERO: Expr = Expr::Word(0);

const ONE: Expr = Expr::Word(1);

const SEVEN: Expr = Expr::Word(7);

const EIGHT: Expr = Expr::Word(8);

/// What is made is in slot 1; in slot 2 how many characters were copied.
const DONE: Expr = Expr::Slot(2);

const NEXT: Step = Step::Set(2, Expr::Op(WOp::Add, &DONE, &ONE));

const SIZE: Expr = Expr::Load(&X, 0);

const BYTES: Expr = Expr::Op(WOp::Add, &X, &EIGHT);

/// The array's room is after its six words, at the address in slot 4.
const S2AC: &[Step] = &[
    Step::Get(
        1,
        Primitive::Allocate,
        &[Expr::Op(WOp::Add, &SIZE, &Expr::Word(6))],
    ),
    Step::Put(Y, 0, ONE),
    Step::Put(Y, 8, SIZE),
    Step::Put(Y, 16, SIZE),
    Step::Set(4, Expr::Op(WOp::Add, &Y, &Expr::Word(48))),
    Step::Put(Y, 32, Expr::Slot(4)),
    Step::Set(2, ZERO),
    Step::Loop(&[
        Step::When(Expr::Op(WOp::Equal, &DONE, &SIZE), &[Step::Return(&[Y])]),
        Step::Put(
            Expr::Op(
                WOp::Add,
                &Expr::Slot(4),
                &Expr::Op(WOp::Sll, &DONE, &Expr::Word(3)),
            ),
            0,
            Expr::Byte(&Expr::Op(WOp::Add, &BYTES, &DONE)),
        ),
        NEXT,
    ]),
];

/// The words of a string of the array's size.
const STRING_WORDS: Expr = Expr::Op(
    WOp::Add,
    &Expr::Op(
        WOp::Srl,
        &Expr::Op(WOp::Add, &ARRAY_SIZE, &SEVEN),
        &Expr::Word(3),
    ),
    &ONE,
);

const AC2S: &[Step] = &[
    Step::Get(1, Primitive::Allocate, &[STRING_WORDS]),
    Step::Put(Y, 0, ARRAY_SIZE),
    Step::Set(2, ZERO),
    Step::Loop(&[
        Step::When(
            Expr::Op(WOp::Equal, &DONE, &ARRAY_SIZE),
            &[Step::Return(&[Y])],
        ),
        Step::Set(3, DONE),
        FROM_FIRST,
        WRAP,
        FIND,
        Step::Do(
            Primitive::SaveByte,
            &[
                Expr::Op(WOp::Add, &Expr::Op(WOp::Add, &Y, &EIGHT), &DONE),
                ELEMENT,
            ],
        ),
        NEXT,
    ]),
];

/// The operations of string over arrays.
pub const STRING: &[Operation] = &[steps!(b"s2ac", 1, 5, S2AC), steps!(b"ac2s", 1, 5, AC2S)];
