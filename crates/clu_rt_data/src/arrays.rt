//! The operations of arrays. An array is the address of six words: its low bound, the number of its elements, the room
//! for elements, the place in the room of the first element, the address of the room, and one that is not used. The
//! room is circular: after its last word comes its first. New words of the store are 0.

ghost use Rattle.std.specs.Prelude.{◌≡◌, IfSome};

use crate::rows::{put, steps, value};
use clu_rt_text::{
    Deed, EQUAL, Expr, FIRST as FIRST_BOUND, Operation, SECOND, Step, X, Y, Z, named,
};
use clu_wir::{Primitive, Trap, WOp};

const BOUNDS: Step = Step::Signal(b"bounds", &[]);

const NEGATIVE_SIZE: Step = Step::Signal(b"negative_size", &[]);

const OUT_OF_RANGE: Step = Step::Signal(b"failure", &[Expr::Text(b"bounds out of range")]);

const ZERO: Expr = Expr::Word(0);

const ONE: Expr = Expr::Word(1);

const HEADER: Expr = Expr::Word(48);

const LEAST: Expr = Expr::Word(0x8000_0000_0000_0000);

pub const GREATEST: Expr = Expr::Word(0x7FFF_FFFF_FFFF_FFFF);

pub const LOW: Expr = Expr::Load(&X, 0);

pub const SIZE: Expr = Expr::Load(&X, 8);

const ROOM: Expr = Expr::Load(&X, 16);

const FIRST: Expr = Expr::Load(&X, 24);

const BLOCK: Expr = Expr::Load(&X, 32);

pub const HIGH: Expr = Expr::Op(WOp::Sub, &Expr::Op(WOp::Add, &LOW, &SIZE), &ONE);

const LESS: Expr = Expr::Op(WOp::Sub, &SIZE, &ONE);

const MORE: Expr = Expr::Op(WOp::Add, &SIZE, &ONE);

/// In slot 3 a place among the elements, from 0, and then in the room; in slot 4 the address of that word.
pub const PLACE: Expr = Expr::Slot(3);

const ADDRESS: Expr = Expr::Slot(4);

pub const FROM_FIRST: Step = Step::Set(3, Expr::Op(WOp::Add, &FIRST, &PLACE));

pub const WRAP: Step = Step::Unless(
    Expr::Op(WOp::Sltu, &PLACE, &ROOM),
    &[Step::Set(3, Expr::Op(WOp::Sub, &PLACE, &ROOM))],
);

pub const FIND: Step = Step::Set(
    4,
    Expr::Op(
        WOp::Add,
        &BLOCK,
        &Expr::Op(WOp::Sll, &PLACE, &Expr::Word(3)),
    ),
);

pub const ELEMENT: Expr = Expr::Load(&ADDRESS, 0);

/// Copies the elements to the words at the address in slot 8; in slot 7 how many were copied.
const DONE: Expr = Expr::Slot(7);

const COPY_ELEMENTS: Step = Step::Loop(&[
    Step::When(Expr::Op(WOp::Equal, &DONE, &SIZE), &[Step::Break]),
    Step::Set(3, DONE),
    FROM_FIRST,
    WRAP,
    FIND,
    Step::Put(
        Expr::Op(
            WOp::Add,
            &Expr::Slot(8),
            &Expr::Op(WOp::Sll, &DONE, &Expr::Word(3)),
        ),
        0,
        ELEMENT,
    ),
    Step::Set(7, Expr::Op(WOp::Add, &DONE, &ONE)),
]);

const MAKE_EMPTY: Step = Step::Get(1, Primitive::Allocate, &[Expr::Word(6)]);

const CREATE: &[Step] = &[
    Step::When(Expr::Op(WOp::Equal, &X, &LEAST), &[OUT_OF_RANGE]),
    MAKE_EMPTY,
    Step::Put(Y, 0, X),
    Step::Return(&[Y]),
];

const NEW: &[Step] = &[MAKE_EMPTY, Step::Put(Y, 0, ONE), Step::Return(&[Y])];

/// `y` elements from the low bound `x` on go past the ints. The sum is less than it should be only where it wraps.
const PAST_THE_INTS: Step = Step::When(
    Expr::Op(
        WOp::Slt,
        &Expr::Op(WOp::Sub, &Expr::Op(WOp::Add, &X, &Y), &ONE),
        &Expr::Op(WOp::Sub, &X, &ONE),
    ),
    &[OUT_OF_RANGE],
);

const FILL: &[Step] = &[
    Step::When(Expr::Op(WOp::Slt, &Y, &ZERO), &[NEGATIVE_SIZE]),
    Step::When(Expr::Op(WOp::Equal, &X, &LEAST), &[OUT_OF_RANGE]),
    PAST_THE_INTS,
    Step::Get(
        3,
        Primitive::Allocate,
        &[Expr::Op(WOp::Add, &Y, &Expr::Word(6))],
    ),
    Step::Put(Expr::Slot(3), 0, X),
    Step::Put(Expr::Slot(3), 8, Y),
    Step::Put(Expr::Slot(3), 16, Y),
    Step::Set(4, Expr::Op(WOp::Add, &Expr::Slot(3), &HEADER)),
    Step::Put(Expr::Slot(3), 32, Expr::Slot(4)),
    Step::Set(
        5,
        Expr::Op(
            WOp::Add,
            &Expr::Slot(4),
            &Expr::Op(WOp::Sll, &Y, &Expr::Word(3)),
        ),
    ),
    Step::Loop(&[
        Step::When(
            Expr::Op(WOp::Equal, &Expr::Slot(4), &Expr::Slot(5)),
            &[Step::Return(&[Expr::Slot(3)])],
        ),
        Step::Put(Expr::Slot(4), 0, Z),
        Step::Set(4, Expr::Op(WOp::Add, &Expr::Slot(4), &Expr::Word(8))),
    ]),
];

/// The last element has a place in the ints too.
const SET_LOW: &[Step] = &[
    Step::When(Expr::Op(WOp::Equal, &Y, &LEAST), &[OUT_OF_RANGE]),
    Step::When(
        Expr::Op(
            WOp::Slt,
            &Expr::Op(WOp::Sub, &Expr::Op(WOp::Add, &Y, &SIZE), &ONE),
            &Expr::Op(WOp::Sub, &Y, &ONE),
        ),
        &[OUT_OF_RANGE],
    ),
    Step::Put(X, 0, Y),
    Step::Return(&[]),
];

/// An index below the low bound is so far from it that its place, without sign, is no less than the size.
pub const TAKE_PLACE: Step = Step::Set(3, Expr::Op(WOp::Sub, &Y, &LOW));

const NOT_EMPTY: Step = Step::Unless(SIZE, &[BOUNDS]);

/// The words of the array that is bound first.
const ITS_LOW: Expr = Expr::Load(&FIRST_BOUND, 0);

const ITS_SIZE: Expr = Expr::Load(&FIRST_BOUND, 8);

const ITS_ROOM: Expr = Expr::Load(&FIRST_BOUND, 16);

const ITS_FIRST: Expr = Expr::Load(&FIRST_BOUND, 24);

const ITS_BLOCK: Expr = Expr::Load(&FIRST_BOUND, 32);

/// The address of the word in the room of the array at a place that is bound after it, which may be past the room's end.
const AT_PLACE: Expr = Expr::Op(
    WOp::Add,
    &ITS_BLOCK,
    &Expr::Op(
        WOp::Sll,
        &Expr::If(
            &Expr::Op(WOp::Sltu, &SECOND, &ITS_ROOM),
            &SECOND,
            &Expr::Op(WOp::Sub, &SECOND, &ITS_ROOM),
        ),
        &Expr::Word(3),
    ),
);

/// The address of the element at a place that is bound after the array, counted from the first.
const AT_NUMBER: Expr = Expr::With(
    &[FIRST_BOUND, Expr::Op(WOp::Add, &ITS_FIRST, &SECOND)],
    &AT_PLACE,
);

/// The address of the element of this index.
const AT_INDEX: Expr = Expr::With(
    &[X, Y],
    &Expr::With(
        &[FIRST_BOUND, Expr::Op(WOp::Sub, &SECOND, &ITS_LOW)],
        &Expr::Check(
            &Expr::Op(WOp::Sltu, &SECOND, &ITS_SIZE),
            Trap::Bounds,
            &AT_NUMBER,
        ),
    ),
);

const FETCH: Expr = Expr::Load(&AT_INDEX, 0);

/// The first element lies where the room says.
const BOTTOM: Expr = Expr::With(
    &[X],
    &Expr::Check(
        &ITS_SIZE,
        Trap::Bounds,
        &Expr::Load(
            &Expr::Op(
                WOp::Add,
                &ITS_BLOCK,
                &Expr::Op(WOp::Sll, &ITS_FIRST, &Expr::Word(3)),
            ),
            0,
        ),
    ),
);

const TOP: Expr = Expr::With(
    &[X],
    &Expr::Check(
        &ITS_SIZE,
        Trap::Bounds,
        &Expr::Load(
            &Expr::With(
                &[FIRST_BOUND, Expr::Op(WOp::Sub, &ITS_SIZE, &ONE)],
                &AT_NUMBER,
            ),
            0,
        ),
    ),
);

const ITS_HIGH: Expr = Expr::With(
    &[X],
    &Expr::Op(WOp::Sub, &Expr::Op(WOp::Add, &ITS_LOW, &ITS_SIZE), &ONE),
);

/// Where the room is used up it becomes the greater of 4 and twice itself, and the elements begin at its front.
const GROW: Step = Step::When(
    Expr::Op(WOp::Equal, &SIZE, &ROOM),
    &[
        Step::Set(5, Expr::Op(WOp::Sll, &ROOM, &ONE)),
        Step::When(
            Expr::Op(WOp::Slt, &Expr::Slot(5), &Expr::Word(4)),
            &[Step::Set(5, Expr::Word(4))],
        ),
        Step::Get(8, Primitive::Allocate, &[Expr::Slot(5)]),
        Step::Set(7, ZERO),
        COPY_ELEMENTS,
        Step::Put(X, 16, Expr::Slot(5)),
        Step::Put(X, 24, ZERO),
        Step::Put(X, 32, Expr::Slot(8)),
    ],
);

const ADDH: &[Step] = &[
    Step::When(Expr::Op(WOp::Equal, &HIGH, &GREATEST), &[OUT_OF_RANGE]),
    GROW,
    Step::Set(3, SIZE),
    FROM_FIRST,
    WRAP,
    FIND,
    Step::Put(ADDRESS, 0, Y),
    Step::Put(X, 8, MORE),
    Step::Return(&[]),
];

/// The new low bound has one below it.
const ADDL: &[Step] = &[
    Step::When(
        Expr::Op(WOp::Equal, &Expr::Op(WOp::Sub, &LOW, &ONE), &LEAST),
        &[OUT_OF_RANGE],
    ),
    GROW,
    Step::Set(
        3,
        Expr::Op(WOp::Sub, &Expr::Op(WOp::Add, &FIRST, &ROOM), &ONE),
    ),
    WRAP,
    FIND,
    Step::Put(ADDRESS, 0, Y),
    Step::Put(X, 24, PLACE),
    Step::Put(X, 8, MORE),
    Step::Put(X, 0, Expr::Op(WOp::Sub, &LOW, &ONE)),
    Step::Return(&[]),
];

const REMH: &[Step] = &[
    NOT_EMPTY,
    Step::Set(3, LESS),
    FROM_FIRST,
    WRAP,
    FIND,
    Step::Put(X, 8, LESS),
    Step::Return(&[ELEMENT]),
];

const REML: &[Step] = &[
    NOT_EMPTY,
    Step::When(Expr::Op(WOp::Equal, &LOW, &GREATEST), &[OUT_OF_RANGE]),
    Step::Set(3, FIRST),
    FIND,
    Step::Set(3, Expr::Op(WOp::Add, &FIRST, &ONE)),
    WRAP,
    Step::Put(X, 24, PLACE),
    Step::Put(X, 8, LESS),
    Step::Put(X, 0, Expr::Op(WOp::Add, &LOW, &ONE)),
    Step::Return(&[ELEMENT]),
];

/// In slot 5 how many elements are kept. Here an index below the low bound is asked for, since the place after the
/// last element is allowed.
const TRIM: &[Step] = &[
    Step::When(Expr::Op(WOp::Slt, &Z, &ZERO), &[NEGATIVE_SIZE]),
    Step::When(Expr::Op(WOp::Slt, &Y, &LOW), &[BOUNDS]),
    TAKE_PLACE,
    Step::Unless(Expr::Op(WOp::Sltu, &PLACE, &MORE), &[BOUNDS]),
    Step::Set(5, Expr::Op(WOp::Sub, &SIZE, &PLACE)),
    Step::When(Expr::Op(WOp::Slt, &Z, &Expr::Slot(5)), &[Step::Set(5, Z)]),
    FROM_FIRST,
    WRAP,
    Step::Put(X, 24, PLACE),
    Step::Put(X, 8, Expr::Slot(5)),
    Step::Put(X, 0, Y),
    Step::Return(&[]),
];

const COPY1: &[Step] = &[
    Step::Get(
        1,
        Primitive::Allocate,
        &[Expr::Op(WOp::Add, &SIZE, &Expr::Word(6))],
    ),
    Step::Put(Y, 0, LOW),
    Step::Put(Y, 8, SIZE),
    Step::Put(Y, 16, SIZE),
    Step::Set(8, Expr::Op(WOp::Add, &Y, &HEADER)),
    Step::Put(Y, 32, Expr::Slot(8)),
    Step::Set(7, ZERO),
    COPY_ELEMENTS,
    Step::Return(&[Y]),
];

/// The operation a2s of sequences.
pub const A2S: &[Step] = &[
    Step::Get(1, Primitive::Allocate, &[MORE]),
    Step::Put(Y, 0, SIZE),
    Step::Set(8, Expr::Op(WOp::Add, &Y, &Expr::Word(8))),
    Step::Set(7, ZERO),
    COPY_ELEMENTS,
    Step::Return(&[Y]),
];

/// The operation of arrays of this name, if it is no text.
pub fn array_operation(name: &[u8]) -> Option<&'static Operation>
    ensures { IfSome result (λ operation. operation.now.name.now ≡ name.now) }
{
    match named(wholes(), name) {
        Some(operation) => Some(operation),
        None => match named(elements(), name) {
            Some(operation) => Some(operation),
            None => match named(removing(), name) {
                Some(operation) => Some(operation),
                None => named(growing(), name),
            },
        },
    }
}

/// What makes arrays, asks of their bounds, and changes these.
fn wholes() -> &'static [Operation] {
    WHOLES
}

const WHOLES: &[Operation] = &[
    steps!(b"create", 1, 2, CREATE),
    steps!(b"new", 0, 2, NEW),
    steps!(b"predict", 2, 2, CREATE),
    steps!(b"fill", 3, 6, FILL),
    value!(b"size", 1, SIZE),
    value!(b"low", 1, LOW),
    value!(b"high", 1, ITS_HIGH),
    value!(b"empty", 1, Expr::Op(WOp::Equal, &SIZE, &ZERO)),
    steps!(b"set_low", 2, 2, SET_LOW),
    steps!(b"copy1", 1, 9, COPY1),
    value!(b"equal", 2, EQUAL),
];

/// What reads and replaces elements.
fn elements() -> &'static [Operation] {
    ELEMENTS
}

const ELEMENTS: &[Operation] = &[
    value!(b"fetch", 2, FETCH),
    put!(b"store", 3, AT_INDEX, 0, Z),
    value!(b"bottom", 1, BOTTOM),
    value!(b"top", 1, TOP),
];

/// What removes elements.
fn removing() -> &'static [Operation] {
    REMOVING
}

const REMOVING: &[Operation] = &[
    steps!(b"remh", 1, 5, REMH),
    steps!(b"reml", 1, 5, REML),
    steps!(b"trim", 3, 6, TRIM),
];

/// What adds elements.
fn growing() -> &'static [Operation] {
    GROWING
}

const GROWING: &[Operation] = &[steps!(b"addh", 2, 9, ADDH), steps!(b"addl", 2, 9, ADDL)];
