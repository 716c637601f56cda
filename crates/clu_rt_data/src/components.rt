//! The operations of records, structs, oneofs and variants that use no others, one for all selectors of all types. What
//! depends on the type is two constants: of a record or a struct the distance of the component from the object's
//! address, in bytes, and the words of the object; of a oneof or a variant the number of the tag among the tags.
//!
//! A record or a struct is the address of a word that is not used, after which the components lie in the ascending
//! order of their selectors. A oneof is the address of the number of its tag, after which its object lies; a variant
//! has a word more, which is not used.

use crate::rows::{put, steps, value};
use clu_rt_text::{Deed, EQUAL, Expr, FIRST, Operation, Step, X, Y, Z};
use clu_wir::{Primitive, Trap, WOp};

/// The constants of the type.
const DISTANCE: Expr = Expr::Known(1);

const TAG: Expr = Expr::Known(1);

const WORDS: Expr = Expr::Known(2);

const EIGHT: Expr = Expr::Word(8);

/// The address of the component in `x`.
const PLACE: Expr = Expr::Op(WOp::Add, &X, &DISTANCE);

const GET: Expr = Expr::Load(&PLACE, 0);

/// In slot 2 the new object, in slots 3 and 5 from where and whereto words are copied, in slot 4 where they end.
const FROM: Expr = Expr::Slot(3);

const END: Expr = Expr::Slot(4);

const TO: Expr = Expr::Slot(5);

/// A new object in slot 2 with the words of `x`.
macro_rules! copied {
    ($last:expr) => {
        &[
            Step::Get(2, Primitive::Allocate, &[WORDS]),
            Step::Set(3, X),
            Step::Set(
                4,
                Expr::Op(
                    WOp::Add,
                    &X,
                    &Expr::Op(WOp::Sll, &WORDS, &Expr::Word(3)),
                ),
            ),
            Step::Set(5, Z),
            Step::Loop(&[
                Step::When(Expr::Op(WOp::Equal, &FROM, &END), &[Step::Break]),
                Step::Put(TO, 0, Expr::Load(&FROM, 0)),
                Step::Set(3, Expr::Op(WOp::Add, &FROM, &EIGHT)),
                Step::Set(5, Expr::Op(WOp::Add, &TO, &EIGHT)),
            ]),
            $last,
            Step::Return(&[Z]),
        ]
    };
}

const REPLACE: &[Step] = copied!(Step::Put(Expr::Op(WOp::Add, &Z, &DISTANCE), 0, Y));

const COPY1: &[Step] = copied!(Step::Put(Z, 0, Expr::Load(&X, 0)));

/// A new oneof or variant of these words in slot 1.
macro_rules! made {
    ($words:expr) => {
        &[
            Step::Get(1, Primitive::Allocate, &[Expr::Word($words)]),
            Step::Put(Y, 0, TAG),
            Step::Put(Y, 8, X),
            Step::Return(&[Y]),
        ]
    };
}

const MAKE_ONEOF: &[Step] = made!(2);

const MAKE_VARIANT: &[Step] = made!(3);

/// Whether `x` has the tag.
const HAS_TAG: Expr = Expr::Op(WOp::Equal, &Expr::Load(&X, 0), &TAG);

const VALUE: Expr = Expr::With(
    &[X],
    &Expr::Check(
        &Expr::Op(WOp::Equal, &Expr::Load(&FIRST, 0), &TAG),
        Trap::WrongTag,
        &Expr::Load(&FIRST, 8),
    ),
);

const CHANGE: &[Step] = &[Step::Put(X, 0, TAG), Step::Put(X, 8, Y), Step::Return(&[])];

const COPY1_VARIANT: &[Step] = &[
    Step::Get(1, Primitive::Allocate, &[Expr::Word(3)]),
    Step::Put(Y, 0, Expr::Load(&X, 0)),
    Step::Put(Y, 8, Expr::Load(&X, 8)),
    Step::Return(&[Y]),
];

const GET_COMPONENT: Operation = value!(b"get_", 1, GET);

/// The operations of structs that use no others; those of a selector come before its name.
pub const STRUCT: &[Operation] = &[GET_COMPONENT, steps!(b"replace_", 2, 6, REPLACE)];

/// The operations of records that use no others.
pub const RECORD: &[Operation] = &[
    GET_COMPONENT,
    put!(b"set_", 2, PLACE, 0, Y),
    value!(b"equal", 2, EQUAL),
    steps!(b"copy1", 1, 6, COPY1),
];

/// The operations of oneofs that use no others.
pub const ONEOF: &[Operation] = &[
    steps!(b"make_", 1, 2, MAKE_ONEOF),
    value!(b"is_", 1, HAS_TAG),
    value!(b"value_", 1, VALUE),
];

/// The operations of variants that use no others.
pub const VARIANT: &[Operation] = &[
    steps!(b"make_", 1, 2, MAKE_VARIANT),
    value!(b"is_", 1, HAS_TAG),
    value!(b"value_", 1, VALUE),
    steps!(b"change_", 2, 2, CHANGE),
    value!(b"equal", 2, EQUAL),
    steps!(b"copy1", 1, 2, COPY1_VARIANT),
];
