//! The operations of int and string that are defined by texts of CLU: iterators. What a text does with other operations
//! stands here as word code; these are uses of the routine all the same.

ghost use Rattle.std.specs.Prelude.{◌≡◌, IfSome};
ghost use Rattle.std.specs.Option.{option_map};
ghost use Rattle.clu_rt_text.specs.Texts.{count_in, int_counts, names_and_counts, string_counts};

use crate::code::{Derived, Expr, Step, X, Y, Z};
use crate::integers::PLUS;
use clu_wir::{Trap, WOp};

const ZERO: Expr = Expr::Word(0);

const ONE: Expr = Expr::Word(1);

const SEVEN: Expr = Expr::Word(7);

/// The greatest int.
const GREATEST: Expr = Expr::Word(0x7FFF_FFFF_FFFF_FFFF);

const END: Step = Step::Return(&[]);

/// From `x` on by `z`, up to `y` or down to it. Where the next int would be past the ints, it overflows and this ends it.
const FROM_TO_BY: &[Step] = &[
    Step::Handle(
        b"overflow",
        &[Step::Loop(&[
            Step::When(
                Expr::Op(WOp::Slt, &ZERO, &Z),
                &[Step::When(Expr::Op(WOp::Slt, &Y, &X), &[END])],
            ),
            Step::When(
                Expr::Op(WOp::Slt, &Z, &ZERO),
                &[Step::When(Expr::Op(WOp::Slt, &X, &Y), &[END])],
            ),
            Step::Yield(&[X]),
            Step::Set(0, Expr::With(&[X, Z], &PLUS)),
        ])],
    ),
    END,
];

/// After the greatest int the loop over `from_to_by`, in whose place this is, overflows and ends by that.
const PAST_X: Step = Step::Handle(
    b"overflow",
    &[Step::Set(
        0,
        Expr::Check(&Expr::Op(WOp::Slt, &X, &GREATEST), Trap::Overflow, &X),
    )],
);

/// From `x` on up to `y`.
const FROM_TO: &[Step] = &[
    Step::When(Expr::Op(WOp::Slt, &Y, &X), &[END]),
    Step::Loop(&[
        Step::Yield(&[X]),
        Step::Unless(Expr::Op(WOp::Slt, &X, &Y), &[PAST_X, END]),
        Step::Set(0, Expr::Op(WOp::Add, &X, &ONE)),
    ]),
];

/// The places from 1 in slot 1.
const CHARS: &[Step] = &[
    Step::Set(1, ONE),
    Step::Loop(&[
        Step::When(Expr::Op(WOp::Slt, &Expr::Load(&X, 0), &Y), &[END]),
        Step::Yield(&[Expr::Byte(&Expr::Op(WOp::Add, &Expr::Op(WOp::Add, &X, &SEVEN), &Y))]),
        Step::Set(1, Expr::Op(WOp::Add, &Y, &ONE)),
    ]),
];

/// The operation of int of this name that is a text.
pub fn derived_of_int(name: &[u8]) -> Option<&'static Derived>
    ensures named { IfSome result (λ derived. derived.now.name.now ≡ name.now) }
    ensures counts { option_map (λ derived. derived.now.nodes) result ≡ count_in int_counts name.now }
{
    derived_named(texts_of_int(), name)
}

fn texts_of_int() -> &'static [Derived]
    ensures { names_and_counts result.now ≡ int_counts }
{
    INT
}

const INT: &[Derived] = &[
    Derived {
        name: b"from_to",
        args: 2,
        slots: 2,
        steps: FROM_TO,
        uses: &[b"int$from_to_by"],
        nodes: 18,
    },
    Derived {
        name: b"from_to_by",
        args: 3,
        slots: 3,
        steps: FROM_TO_BY,
        uses: &[],
        nodes: 41,
    },
];

/// The operation of string of this name that is a text.
pub fn derived_of_string(name: &[u8]) -> Option<&'static Derived>
    ensures named { IfSome result (λ derived. derived.now.name.now ≡ name.now) }
    ensures counts { option_map (λ derived. derived.now.nodes) result ≡ count_in string_counts name.now }
{
    derived_named(texts_of_string(), name)
}

fn texts_of_string() -> &'static [Derived]
    ensures { names_and_counts result.now ≡ string_counts }
{
    STRING
}

const STRING: &[Derived] = &[Derived {
    name: b"chars",
    args: 1,
    slots: 2,
    steps: CHARS,
    uses: &[b"int$from_to"],
    nodes: 21,
}];

/// The first of these operations that has this name.
pub fn derived_named(operations: &'static [Derived], name: &[u8]) -> Option<&'static Derived>
    ensures named { IfSome result (λ derived. derived.now.name.now ≡ name.now) }
    ensures counts { option_map (λ derived. derived.now.nodes) result ≡ count_in (names_and_counts operations.now) name.now }
{
    for derived in operations {
        if derived.name == name {
            return Some(derived);
        }
    }
    None
}
