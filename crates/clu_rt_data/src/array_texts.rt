//! The operations of arrays that are defined by texts of CLU. What a text does with operations that can't signal there
//! stands here as word code, and so do its loops over ranges of ints; what it does with others is a call. All of them are
//! uses of the routine.

ghost use Rattle.std.specs.Prelude.{◌≡◌, IfSome};
ghost use Rattle.std.specs.Option.{option_map};
ghost use Rattle.clu_rt_text.specs.Texts.{count_in, names_and_counts};
ghost use Rattle.clu_rt_data.specs.Texts.{array_counts, array_iterator_counts, array_procedure_counts};

use crate::arrays::{
    ELEMENT, FIND, FROM_FIRST, GREATEST, HIGH, LOW, PLACE, SIZE, TAKE_PLACE, WRAP,
};
use clu_rt_text::{Derived, Expr, Step, X, Y, Z, derived_named};
use clu_wir::{Trap, WOp};

const END: Step = Step::Return(&[]);

const FALSE: Step = Step::Return(&[Expr::Word(0)]);

const TRUE: Step = Step::Return(&[Expr::Word(1)]);

/// The indexes, as they are at the start, in slot 1, and the last of them in slot 2.
const FROM_LOW: Step = Step::Set(1, LOW);

const TO_HIGH: Step = Step::Set(2, HIGH);

const NONE: Step = Step::When(Expr::Op(WOp::Slt, &Z, &Y), &[END]);

const AT_LAST: Step = Step::Unless(Expr::Op(WOp::Slt, &Y, &Z), &[PAST_Y, END]);

/// After the greatest int the loop over `from_to_by`, in whose place this is, overflows and ends by that.
const PAST_Y: Step = Step::Handle(
    b"overflow",
    &[Step::Set(
        1,
        Expr::Check(&Expr::Op(WOp::Slt, &Y, &GREATEST), Trap::Overflow, &Y),
    )],
);

const NEXT: Step = Step::Set(1, Expr::Op(WOp::Add, &Y, &Expr::Word(1)));

const INDEXES: &[Step] = &[
    FROM_LOW,
    TO_HIGH,
    NONE,
    Step::Loop(&[Step::Yield(&[Y]), AT_LAST, NEXT]),
];

/// It ends where an index lies outside the bounds by then.
const ELEMENTS: &[Step] = &[
    FROM_LOW,
    TO_HIGH,
    NONE,
    Step::Loop(&[
        TAKE_PLACE,
        Step::Unless(Expr::Op(WOp::Sltu, &PLACE, &SIZE), &[END]),
        FROM_FIRST,
        WRAP,
        FIND,
        Step::Yield(&[ELEMENT]),
        AT_LAST,
        NEXT,
    ]),
];

const Y_LOW: Expr = Expr::Load(&Y, 0);

const Y_SIZE: Expr = Expr::Load(&Y, 8);

/// The elements of both arrays, which may be others by then.
const LEFT: Expr = Expr::Slot(3);

const RIGHT: Expr = Expr::Slot(4);

/// The indexes in slot 2. The elements are fetched by calls, as there may be none by then.
const SIMILAR: &[Step] = &[
    Step::When(Expr::Op(WOp::Xor, &LOW, &Y_LOW), &[FALSE]),
    Step::When(Expr::Op(WOp::Xor, &SIZE, &Y_SIZE), &[FALSE]),
    Step::Iterate(
        0,
        &[X],
        2,
        &[
            Step::Call(2, &[X, Z], &[3]),
            Step::Call(2, &[Y, Z], &[4]),
            Step::Call(1, &[LEFT, RIGHT], &[3]),
            Step::Unless(LEFT, &[FALSE]),
        ],
    ),
    TRUE,
];

/// The new array in slot 1, the elements and then their copies in slot 2.
const COPY: &[Step] = &[
    Step::Call(0, &[LOW], &[1]),
    Step::Iterate(
        1,
        &[X],
        2,
        &[Step::Call(3, &[Z], &[2]), Step::Call(2, &[Y, Z], &[])],
    ),
    Step::Return(&[Y]),
];

/// The operation of arrays of this name that is a text.
pub fn derived_of_arrays(name: &[u8]) -> Option<&'static Derived>
    ensures named { IfSome result (λ derived. derived.now.name.now ≡ name.now) }
    ensures counts { option_map (λ derived. derived.now.nodes) result ≡ count_in array_counts name.now }
{
    match derived_named(iterators(), name) {
        Some(derived) => Some(derived),
        None => derived_named(procedures(), name),
    }
}

fn iterators() -> &'static [Derived]
    ensures { names_and_counts result.now ≡ array_iterator_counts }
{
    ITERATORS
}

const ITERATORS: &[Derived] = &[
    Derived {
        name: b"elements",
        args: 1,
        slots: 5,
        steps: ELEMENTS,
        uses: &[b"array[#1]$indexes"],
        nodes: 36,
    },
    Derived {
        name: b"indexes",
        args: 1,
        slots: 3,
        steps: INDEXES,
        uses: &[b"int$from_to"],
        nodes: 25,
    },
];

fn procedures() -> &'static [Derived]
    ensures { names_and_counts result.now ≡ array_procedure_counts }
{
    PROCEDURES
}

const PROCEDURES: &[Derived] = &[
    Derived {
        name: b"similar",
        args: 2,
        slots: 5,
        steps: SIMILAR,
        uses: &[b"array[#1]$indexes", b"#1$similar", b"array[#1]$fetch"],
        nodes: 57,
    },
    Derived {
        name: b"similar1",
        args: 2,
        slots: 5,
        steps: SIMILAR,
        uses: &[b"array[#1]$indexes", b"#1$equal", b"array[#1]$fetch"],
        nodes: 57,
    },
    Derived {
        name: b"copy",
        args: 1,
        slots: 3,
        steps: COPY,
        uses: &[
            b"array[#1]$create",
            b"array[#1]$elements",
            b"array[#1]$addh",
            b"#1$copy",
        ],
        nodes: 40,
    },
];
