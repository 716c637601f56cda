//! The operations of stream. Its objects are 0, the input, and 1, the output.

use crate::code::{Deed, EQUAL, Expr, Operation, Step, X, Y, steps, value};
use clu_wir::{Primitive, WOp};

/// What is read has to be the input.
const INPUT_ONLY: Step = Step::When(
    X,
    &[Step::Signal(b"not_possible", &[Expr::Text(b"cannot read")])],
);

/// What a byte of the input is at its end.
const END: Expr = Expr::Word(u64::MAX);

const AT_END: Step = Step::When(
    Expr::Op(WOp::Equal, &Y, &END),
    &[Step::Signal(b"end_of_file", &[])],
);

const GETC: &[Step] = &[
    INPUT_ONLY,
    Step::Get(1, Primitive::TakeByte, &[]),
    AT_END,
    Step::Return(&[Y]),
];

/// The string in slot 2, and in slot 3 its size so far. It grows word by word at the end of the store.
const GETL: &[Step] = &[
    INPUT_ONLY,
    Step::Get(1, Primitive::PeekByte, &[]),
    AT_END,
    Step::Get(2, Primitive::Allocate, &[Expr::Word(1)]),
    Step::Set(3, Expr::Word(0)),
    Step::Loop(&[
        Step::Get(1, Primitive::TakeByte, &[]),
        Step::When(
            Expr::Op(
                WOp::Or,
                &Expr::Op(WOp::Equal, &Y, &END),
                &Expr::Op(WOp::Equal, &Y, &Expr::Word(b'\n' as u64)),
            ),
            &[Step::Break],
        ),
        Step::Unless(
            Expr::Op(WOp::And, &Expr::Slot(3), &Expr::Word(7)),
            &[Step::Get(4, Primitive::Allocate, &[Expr::Word(1)])],
        ),
        Step::Do(
            Primitive::SaveByte,
            &[
                Expr::Op(
                    WOp::Add,
                    &Expr::Op(WOp::Add, &Expr::Slot(2), &Expr::Word(8)),
                    &Expr::Slot(3),
                ),
                Y,
            ],
        ),
        Step::Set(3, Expr::Op(WOp::Add, &Expr::Slot(3), &Expr::Word(1))),
    ]),
    Step::Put(Expr::Slot(2), 0, Expr::Slot(3)),
    Step::Return(&[Expr::Slot(2)]),
];

const EMPTY: &[Step] = &[
    INPUT_ONLY,
    Step::Get(1, Primitive::PeekByte, &[]),
    Step::Return(&[Expr::Op(WOp::Equal, &Y, &END)]),
];

/// What is written has to be the output.
const OUTPUT_ONLY: Step = Step::Unless(
    X,
    &[Step::Signal(b"not_possible", &[Expr::Text(b"cannot write")])],
);

/// A string's bytes begin after the word of its size.
const WRITE: Step = Step::Do(
    Primitive::Write,
    &[Expr::Op(WOp::Add, &Y, &Expr::Word(8)), Expr::Load(&Y, 0)],
);

const WRITE_LINE_END: Step = Step::Do(
    Primitive::Write,
    &[
        Expr::Op(WOp::Add, &Expr::Text(b"\n"), &Expr::Word(8)),
        Expr::Word(1),
    ],
);

/// All bytes, each at the place that is its number.
const ALL: &[u8] = b"\
      \x00\x01\x02\x03\x04\x05\x06\x07\x08\x09\x0a\x0b\x0c\x0d\x0e\x0f\
      \x10\x11\x12\x13\x14\x15\x16\x17\x18\x19\x1a\x1b\x1c\x1d\x1e\x1f\
      \x20\x21\x22\x23\x24\x25\x26\x27\x28\x29\x2a\x2b\x2c\x2d\x2e\x2f\
      \x30\x31\x32\x33\x34\x35\x36\x37\x38\x39\x3a\x3b\x3c\x3d\x3e\x3f\
      \x40\x41\x42\x43\x44\x45\x46\x47\x48\x49\x4a\x4b\x4c\x4d\x4e\x4f\
      \x50\x51\x52\x53\x54\x55\x56\x57\x58\x59\x5a\x5b\x5c\x5d\x5e\x5f\
      \x60\x61\x62\x63\x64\x65\x66\x67\x68\x69\x6a\x6b\x6c\x6d\x6e\x6f\
      \x70\x71\x72\x73\x74\x75\x76\x77\x78\x79\x7a\x7b\x7c\x7d\x7e\x7f\
      \x80\x81\x82\x83\x84\x85\x86\x87\x88\x89\x8a\x8b\x8c\x8d\x8e\x8f\
      \x90\x91\x92\x93\x94\x95\x96\x97\x98\x99\x9a\x9b\x9c\x9d\x9e\x9f\
      \xa0\xa1\xa2\xa3\xa4\xa5\xa6\xa7\xa8\xa9\xaa\xab\xac\xad\xae\xaf\
      \xb0\xb1\xb2\xb3\xb4\xb5\xb6\xb7\xb8\xb9\xba\xbb\xbc\xbd\xbe\xbf\
      \xc0\xc1\xc2\xc3\xc4\xc5\xc6\xc7\xc8\xc9\xca\xcb\xcc\xcd\xce\xcf\
      \xd0\xd1\xd2\xd3\xd4\xd5\xd6\xd7\xd8\xd9\xda\xdb\xdc\xdd\xde\xdf\
      \xe0\xe1\xe2\xe3\xe4\xe5\xe6\xe7\xe8\xe9\xea\xeb\xec\xed\xee\xef\
      \xf0\xf1\xf2\xf3\xf4\xf5\xf6\xf7\xf8\xf9\xfa\xfb\xfc\xfd\xfe\xff";

/// A character is written from a string that has each at its place, so that it takes no store.
const PUTC: &[Step] = &[
    OUTPUT_ONLY,
    Step::Do(
        Primitive::Write,
        &[
            Expr::Op(
                WOp::Add,
                &Expr::Op(WOp::Add, &Expr::Text(ALL), &Expr::Word(8)),
                &Y,
            ),
            Expr::Word(1),
        ],
    ),
    Step::Return(&[]),
];

const PUTS: &[Step] = &[OUTPUT_ONLY, WRITE, Step::Return(&[])];

const PUTL: &[Step] = &[OUTPUT_ONLY, WRITE, WRITE_LINE_END, Step::Return(&[])];

/// The operations of stream.
pub fn stream_operations() -> &'static [Operation] {
    STREAM
}

const STREAM: &[Operation] = &[
    value!(b"primary_input", 0, Expr::Word(0)),
    value!(b"primary_output", 0, Expr::Word(1)),
    steps!(b"getc", 1, 2, GETC),
    steps!(b"getl", 1, 5, GETL),
    steps!(b"empty", 1, 2, EMPTY),
    steps!(b"putc", 2, 2, PUTC),
    steps!(b"puts", 2, 2, PUTS),
    steps!(b"putl", 2, 2, PUTL),
    value!(b"equal", 2, EQUAL),
];
