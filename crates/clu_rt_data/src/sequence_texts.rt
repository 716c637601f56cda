//! The operations of sequences that are defined by texts of CLU. What a text does with operations that can't signal there
//! stands here as word code, and so do its loops over ranges of ints; what it does with others is a call. All of them are
//! uses of the routine.

ghost use Rattle.std.specs.Prelude.{◌≡◌, IfSome};
ghost use Rattle.std.specs.Option.{option_map};
ghost use Rattle.clu_rt_text.specs.Texts.{count_in, names_and_counts};
ghost use Rattle.clu_rt_data.specs.Texts.{sequence_counts, sequence_iterator_counts, sequence_procedure_counts};

use crate::sequences::{AT_Y, SIZE, Y_SIZE};
use clu_rt_text::{Derived, Expr, Step, X, Y, Z, derived_named};
use clu_wir::WOp;

const END: Step = Step::Return(&[]);

const FALSE: Step = Step::Return(&[Expr::Word(0)]);

const TRUE: Step = Step::Return(&[Expr::Word(1)]);

/// The places in slot 1.
const FIRST: Step = Step::Set(1, Expr::Word(1));

const PAST_LAST: Step = Step::When(Expr::Op(WOp::Slt, &SIZE, &Y), &[END]);

const NEXT: Step = Step::Set(1, Expr::Op(WOp::Add, &Y, &Expr::Word(1)));

const INDEXES: &[Step] = &[FIRST, Step::Loop(&[PAST_LAST, Step::Yield(&[Y]), NEXT])];

const ELEMENTS: &[Step] = &[
    FIRST,
    Step::Loop(&[PAST_LAST, Step::Yield(&[Expr::Load(&AT_Y, 0)]), NEXT]),
];

/// In slot 2 a place, in slot 3 how far after the size its element is.
const DISTANCE: Expr = Expr::Slot(3);

const LEFT: Expr = Expr::Load(&Expr::Op(WOp::Add, &X, &DISTANCE), 0);

const RIGHT: Expr = Expr::Load(&Expr::Op(WOp::Add, &Y, &DISTANCE), 0);

const COMPARED: &[Step] = &[
    Step::When(Expr::Op(WOp::Xor, &SIZE, &Y_SIZE), &[FALSE]),
    Step::Iterate(
        0,
        &[X],
        2,
        &[
            Step::Set(3, Expr::Op(WOp::Sll, &Z, &Expr::Word(3))),
            Step::Call(1, &[LEFT, RIGHT], &[3]),
            Step::Unless(DISTANCE, &[FALSE]),
        ],
    ),
    TRUE,
];

/// The array of the copies in slot 1, the elements and then their copies in slot 2.
const COPY: &[Step] = &[
    Step::Call(0, &[], &[1]),
    Step::Iterate(
        1,
        &[X],
        2,
        &[Step::Call(3, &[Z], &[2]), Step::Call(2, &[Y, Z], &[])],
    ),
    Step::Call(4, &[Y], &[1]),
    Step::Return(&[Y]),
];

/// The operation of sequences of this name that is a text.
pub fn derived_of_sequences(name: &[u8]) -> Option<&'static Derived>
    ensures named { IfSome result (λ derived. derived.now.name.now ≡ name.now) }
    ensures counts { option_map (λ derived. derived.now.nodes) result ≡ count_in sequence_counts name.now }
{
    match derived_named(iterators(), name) {
        Some(derived) => Some(derived),
        None => derived_named(procedures(), name),
    }
}

fn iterators() -> &'static [Derived]
    ensures { names_and_counts result.now ≡ sequence_iterator_counts }
{
    ITERATORS
}

const ITERATORS: &[Derived] = &[
    Derived {
        name: b"elements",
        args: 1,
        slots: 2,
        steps: ELEMENTS,
        uses: &[b"sequence[#1]$indexes"],
        nodes: 19,
    },
    Derived {
        name: b"indexes",
        args: 1,
        slots: 2,
        steps: INDEXES,
        uses: &[b"int$from_to"],
        nodes: 21,
    },
];

fn procedures() -> &'static [Derived]
    ensures { names_and_counts result.now ≡ sequence_procedure_counts }
{
    PROCEDURES
}

const PROCEDURES: &[Derived] = &[
    Derived {
        name: b"equal",
        args: 2,
        slots: 4,
        steps: COMPARED,
        uses: &[b"sequence[#1]$indexes", b"#1$equal"],
        nodes: 45,
    },
    Derived {
        name: b"similar",
        args: 2,
        slots: 4,
        steps: COMPARED,
        uses: &[b"sequence[#1]$indexes", b"#1$similar"],
        nodes: 45,
    },
    Derived {
        name: b"copy",
        args: 1,
        slots: 3,
        steps: COPY,
        uses: &[
            b"array[#1]$new",
            b"sequence[#1]$elements",
            b"array[#1]$addh",
            b"#1$copy",
            b"sequence[#1]$a2s",
        ],
        nodes: 39,
    },
];
