//! The operations of sequences. A sequence is the address of the word of its size, after which its elements lie.

ghost use Rattle.std.specs.Prelude.{◌≡◌, IfSome};

use crate::arrays::A2S;
use crate::rows::{steps, value};
use clu_rt_text::{Deed, Expr, FIRST, Operation, SECOND, Step, X, Y, Z, named};
use clu_wir::{Primitive, Trap, WOp};

const BOUNDS: Step = Step::Signal(b"bounds", &[]);

const NEGATIVE_SIZE: Step = Step::Signal(b"negative_size", &[]);

const ZERO: Expr = Expr::Word(0);

const ONE: Expr = Expr::Word(1);

const EIGHT: Expr = Expr::Word(8);

const THREE: Expr = Expr::Word(3);

pub const SIZE: Expr = Expr::Load(&X, 0);

pub const Y_SIZE: Expr = Expr::Load(&Y, 0);

const LESS: Expr = Expr::Op(WOp::Sub, &SIZE, &ONE);

const MORE: Expr = Expr::Op(WOp::Add, &SIZE, &ONE);

const FRONT: Expr = Expr::Op(WOp::Add, &X, &EIGHT);

const Y_FRONT: Expr = Expr::Op(WOp::Add, &Y, &EIGHT);
/// The address of the last element, which lies as many words after the size as there are elements, and the address
/// after it.
const LAST: Expr = Expr::Op(WOp::Add, &X, &Expr::Op(WOp::Sll, &SIZE, &THREE));

const BEHIND: Expr = Expr::Op(WOp::Add, &LAST, &EIGHT);

const Y_BEHIND: Expr = Expr::Op(WOp::Add, &Y_FRONT, &Expr::Op(WOp::Sll, &Y_SIZE, &THREE));
/// The address of the element `y`, from 1.
pub const AT_Y: Expr = Expr::Op(WOp::Add, &X, &Expr::Op(WOp::Sll, &Y, &THREE));

/// The size of a new sequence, and the sequence.
const N: Expr = Expr::Slot(3);

const MADE: Expr = Expr::Slot(4);
/// From where words are copied up to which address, and whereto.
const FROM: Expr = Expr::Slot(5);

const END: Expr = Expr::Slot(6);

const TO: Expr = Expr::Slot(7);

/// A new sequence of the size in slot 3 to slot 4; its elements are to be copied to the address in slot 7.
const MAKE: Step = Step::Get(4, Primitive::Allocate, &[Expr::Op(WOp::Add, &N, &ONE)]);

const PUT_SIZE: Step = Step::Put(MADE, 0, N);

const TO_FRONT: Step = Step::Set(7, Expr::Op(WOp::Add, &MADE, &EIGHT));

/// Copies the words from the address in slot 5 up to that in slot 6.
const COPY_WORDS: Step = Step::Loop(&[
    Step::When(Expr::Op(WOp::Equal, &FROM, &END), &[Step::Break]),
    Step::Put(TO, 0, Expr::Load(&FROM, 0)),
    Step::Set(5, Expr::Op(WOp::Add, &FROM, &EIGHT)),
    Step::Set(7, Expr::Op(WOp::Add, &TO, &EIGHT)),
]);

const NEW: &[Step] = &[
    Step::Get(0, Primitive::Allocate, &[ONE]),
    Step::Return(&[X]),
];

const E2S: &[Step] = &[
    Step::Get(1, Primitive::Allocate, &[Expr::Word(2)]),
    Step::Put(Y, 0, ONE),
    Step::Put(Y, 8, X),
    Step::Return(&[Y]),
];

const FILL: &[Step] = &[
    Step::When(Expr::Op(WOp::Slt, &X, &ZERO), &[NEGATIVE_SIZE]),
    Step::Set(3, X),
    MAKE,
    PUT_SIZE,
    TO_FRONT,
    Step::Set(6, Expr::Op(WOp::Add, &TO, &Expr::Op(WOp::Sll, &N, &THREE))),
    Step::Loop(&[
        Step::When(Expr::Op(WOp::Equal, &TO, &END), &[Step::Return(&[MADE])]),
        Step::Put(TO, 0, Y),
        Step::Set(7, Expr::Op(WOp::Add, &TO, &EIGHT)),
    ]),
];

const IN_BOUNDS: Step = Step::Unless(
    Expr::Op(WOp::Sltu, &Expr::Op(WOp::Sub, &Y, &ONE), &SIZE),
    &[BOUNDS],
);

/// The size of the sequence that is bound first.
const ITS_SIZE: Expr = Expr::Load(&FIRST, 0);

const NOT_EMPTY: Step = Step::Unless(SIZE, &[BOUNDS]);

/// The element whose place is bound after the sequence, from 1.
const ELEMENT: Expr = Expr::Load(
    &Expr::Op(WOp::Add, &FIRST, &Expr::Op(WOp::Sll, &SECOND, &THREE)),
    0,
);

const FETCH: Expr = Expr::With(
    &[X, Y],
    &Expr::Check(
        &Expr::Op(WOp::Sltu, &Expr::Op(WOp::Sub, &SECOND, &ONE), &ITS_SIZE),
        Trap::Bounds,
        &ELEMENT,
    ),
);

const BOTTOM: Expr = Expr::With(
    &[X],
    &Expr::Check(&ITS_SIZE, Trap::Bounds, &Expr::Load(&FIRST, 8)),
);

const TOP: Expr = Expr::With(
    &[X],
    &Expr::With(
        &[FIRST, ITS_SIZE],
        &Expr::Check(&SECOND, Trap::Bounds, &ELEMENT),
    ),
);

const REPLACE: &[Step] = &[
    IN_BOUNDS,
    Step::Set(3, SIZE),
    MAKE,
    PUT_SIZE,
    TO_FRONT,
    Step::Set(5, FRONT),
    Step::Set(6, BEHIND),
    COPY_WORDS,
    Step::Put(
        Expr::Op(WOp::Add, &MADE, &Expr::Op(WOp::Sll, &Y, &THREE)),
        0,
        Z,
    ),
    Step::Return(&[MADE]),
];

const ADDH: &[Step] = &[
    Step::Set(3, MORE),
    MAKE,
    PUT_SIZE,
    TO_FRONT,
    Step::Set(5, FRONT),
    Step::Set(6, BEHIND),
    COPY_WORDS,
    Step::Put(TO, 0, Y),
    Step::Return(&[MADE]),
];

const ADDL: &[Step] = &[
    Step::Set(3, MORE),
    MAKE,
    PUT_SIZE,
    TO_FRONT,
    Step::Put(TO, 0, Y),
    Step::Set(7, Expr::Op(WOp::Add, &TO, &EIGHT)),
    Step::Set(5, FRONT),
    Step::Set(6, BEHIND),
    COPY_WORDS,
    Step::Return(&[MADE]),
];

const REMH: &[Step] = &[
    NOT_EMPTY,
    Step::Set(3, LESS),
    MAKE,
    PUT_SIZE,
    TO_FRONT,
    Step::Set(5, FRONT),
    Step::Set(6, LAST),
    COPY_WORDS,
    Step::Return(&[MADE]),
];

const REML: &[Step] = &[
    NOT_EMPTY,
    Step::Set(3, LESS),
    MAKE,
    PUT_SIZE,
    TO_FRONT,
    Step::Set(5, Expr::Op(WOp::Add, &FRONT, &EIGHT)),
    Step::Set(6, BEHIND),
    COPY_WORDS,
    Step::Return(&[MADE]),
];

const CONCAT: &[Step] = &[
    Step::Set(3, Expr::Op(WOp::Add, &SIZE, &Y_SIZE)),
    MAKE,
    PUT_SIZE,
    TO_FRONT,
    Step::Set(5, FRONT),
    Step::Set(6, BEHIND),
    COPY_WORDS,
    Step::Set(5, Y_FRONT),
    Step::Set(6, Y_BEHIND),
    COPY_WORDS,
    Step::Return(&[MADE]),
];

/// How many elements are left from the element `y` on, which may be one after the last.
const SUBSEQ: &[Step] = &[
    Step::When(Expr::Op(WOp::Slt, &Z, &ZERO), &[NEGATIVE_SIZE]),
    Step::Unless(
        Expr::Op(WOp::Sltu, &Expr::Op(WOp::Sub, &Y, &ONE), &MORE),
        &[BOUNDS],
    ),
    Step::Set(3, Expr::Op(WOp::Sub, &MORE, &Y)),
    Step::When(Expr::Op(WOp::Slt, &Z, &N), &[Step::Set(3, Z)]),
    MAKE,
    PUT_SIZE,
    TO_FRONT,
    Step::Set(5, AT_Y),
    Step::Set(
        6,
        Expr::Op(WOp::Add, &FROM, &Expr::Op(WOp::Sll, &N, &THREE)),
    ),
    COPY_WORDS,
    Step::Return(&[MADE]),
];

const S2A: &[Step] = &[
    Step::Get(
        4,
        Primitive::Allocate,
        &[Expr::Op(WOp::Add, &SIZE, &Expr::Word(6))],
    ),
    Step::Put(MADE, 0, ONE),
    Step::Put(MADE, 8, SIZE),
    Step::Put(MADE, 16, SIZE),
    Step::Set(7, Expr::Op(WOp::Add, &MADE, &Expr::Word(48))),
    Step::Put(MADE, 32, TO),
    Step::Set(5, FRONT),
    Step::Set(6, BEHIND),
    COPY_WORDS,
    Step::Return(&[MADE]),
];

/// The operation of sequences of this name, if it is no text.
pub fn sequence_operation(name: &[u8]) -> Option<&'static Operation>
    ensures { IfSome result (λ operation. operation.now.name.now ≡ name.now) }
{
    match named(wholes(), name) {
        Some(operation) => Some(operation),
        None => match named(elements(), name) {
            Some(operation) => Some(operation),
            None => named(ends(), name),
        },
    }
}

/// What makes sequences and asks of their sizes.
fn wholes() -> &'static [Operation] {
    WHOLES
}

const WHOLES: &[Operation] = &[
    steps!(b"new", 0, 1, NEW),
    steps!(b"e2s", 1, 2, E2S),
    steps!(b"fill", 2, 8, FILL),
    value!(b"size", 1, SIZE),
    value!(b"empty", 1, Expr::Op(WOp::Equal, &SIZE, &ZERO)),
    steps!(b"concat", 2, 8, CONCAT),
    steps!(b"a2s", 1, 9, A2S),
    steps!(b"s2a", 1, 8, S2A),
];

/// What reads elements and takes parts, or puts an element in the place of another.
fn elements() -> &'static [Operation] {
    ELEMENTS
}

const ELEMENTS: &[Operation] = &[
    value!(b"fetch", 2, FETCH),
    value!(b"bottom", 1, BOTTOM),
    value!(b"top", 1, TOP),
    steps!(b"replace", 3, 8, REPLACE),
    steps!(b"subseq", 3, 8, SUBSEQ),
];

/// What makes a sequence that has an element more or less.
fn ends() -> &'static [Operation] {
    ENDS
}

const ENDS: &[Operation] = &[
    steps!(b"addh", 2, 8, ADDH),
    steps!(b"addl", 2, 8, ADDL),
    steps!(b"remh", 1, 8, REMH),
    steps!(b"reml", 1, 8, REML),
];
