//! The rows of the grammar for equates, own variables, declarations, constants and types. Each comment is the production that the rows below it
//! read: `[x]` is optional, `{x}` is any number, `x#` is one or more x separated by commas, and
//! `a / b` is a choice.

use crate::items::Action::{Close, Give, Note, Open};
use crate::items::Item::{Action as A, Nonterminal as N, Terminal as T};
use crate::items::Row::{Otherwise, Peek, Take};
use crate::items::{Nonterminal as R, Row};
use crate::sets::{FIELDS, LIST, SIMPLE, TYPE_WORDS};
use clu_lexer::Symbol as S;
use clu_tree::NodeKind as K;

// Equate = (idn / rep) "=" (constant / TypeSet), and one ";"
pub const EQUATE_REST: [Row; 2] = [
    Take(
        &[S::LeftBrace],
        &[
            A(Open),
            N(R::TypeSetRest),
            A(Close(K::Equate)),
            N(R::Semicolon),
        ],
    ),
    Otherwise(&[N(R::Constant), A(Close(K::Equate)), N(R::Semicolon)]),
];

pub const SEMICOLON: [Row; 2] = [Take(&[S::Semicolon], &[]), Otherwise(&[])];

// Own = own (Decl# / idn ":" type ":=" expr / Decl# ":=" Call), and one ";"
pub const OWN_REST: [Row; 2] = [
    Take(&[S::Colon], &[N(R::AnyType), N(R::OwnOne)]),
    Take(
        &[S::Comma],
        &[
            T(S::Idn),
            A(Note),
            N(R::Names),
            T(S::Colon),
            N(R::AnyType),
            A(Close(K::Decl)),
            N(R::OwnMany),
        ],
    ),
];

pub const OWN_ONE: [Row; 2] = [
    Take(
        &[S::Assign],
        &[A(Give), N(R::Expr), A(Close(K::Own)), N(R::Semicolon)],
    ),
    Otherwise(&[A(Close(K::Decl)), N(R::OwnEnd)]),
];

pub const OWN_MANY: [Row; 2] = [
    Take(
        &[S::Assign],
        &[N(R::Call), A(Close(K::Own)), N(R::Semicolon)],
    ),
    Otherwise(&[N(R::OwnEnd)]),
];

pub const OWN_END: [Row; 2] = [
    Take(
        &[S::Comma],
        &[T(S::Idn), A(Open), A(Note), N(R::DeclRest), N(R::OwnMany)],
    ),
    Otherwise(&[A(Close(K::Own)), N(R::Semicolon)]),
];

// Decl = idn# ":" type
pub const DECL_REST: [Row; 1] = [Otherwise(&[
    N(R::Names),
    T(S::Colon),
    N(R::AnyType),
    A(Close(K::Decl)),
])];

pub const DECLS_REST: [Row; 2] = [
    Take(
        &[S::Comma],
        &[T(S::Idn), A(Open), A(Note), N(R::DeclRest), N(R::DeclsRest)],
    ),
    Otherwise(&[]),
];

pub const DECLS: [Row; 2] = [
    Take(
        &[S::Idn],
        &[A(Open), A(Note), N(R::DeclRest), N(R::DeclsRest)],
    ),
    Otherwise(&[]),
];

// constant = expr / type
pub const CONSTANT: [Row; 2] = [
    Peek(&TYPE_WORDS, &[N(R::WordType), N(R::ConstantRest)]),
    Otherwise(&[N(R::Operand), N(R::Operators)]),
];

pub const CONSTANT_REST: [Row; 2] = [
    Peek(
        &[S::Dollar],
        &[N(R::Dollar), N(R::PostfixExpr), N(R::Operators)],
    ),
    Otherwise(&[]),
];

pub const CONSTANTS_REST: [Row; 2] = [
    Take(&[S::Comma], &[N(R::Constant), N(R::ConstantsRest)]),
    Otherwise(&[]),
];

// type = Simple / ListT / FieldsT / RoutineT / NameT; TypeW is all but NameT; FieldT = idn# ":" type
pub const ANY_TYPE: [Row; 2] = [
    Take(
        &[S::Idn],
        &[A(Open), A(Note), N(R::Actuals), A(Close(K::NameT))],
    ),
    Otherwise(&[N(R::WordType)]),
];

pub const ACTUALS: [Row; 2] = [
    Take(
        &[S::LeftBracket],
        &[N(R::Constant), N(R::ConstantsRest), T(S::RightBracket)],
    ),
    Otherwise(&[]),
];

pub const WORD_TYPE: [Row; 5] = [
    Take(&SIMPLE, &[A(Open), A(Note), A(Close(K::Simple))]),
    Take(
        &LIST,
        &[
            A(Open),
            A(Note),
            T(S::LeftBracket),
            N(R::AnyType),
            T(S::RightBracket),
            A(Close(K::ListT)),
        ],
    ),
    Take(
        &FIELDS,
        &[
            A(Open),
            A(Note),
            T(S::LeftBracket),
            T(S::Idn),
            A(Open),
            A(Note),
            N(R::FieldTRest),
            N(R::FieldTsRest),
            T(S::RightBracket),
            A(Close(K::FieldsT)),
        ],
    ),
    Take(
        &[S::Proctype],
        &[
            A(Open),
            A(Note),
            T(S::LeftParen),
            N(R::Types),
            T(S::RightParen),
            N(R::Returns),
            N(R::Signals),
            A(Close(K::RoutineT)),
        ],
    ),
    Take(
        &[S::Itertype],
        &[
            A(Open),
            A(Note),
            T(S::LeftParen),
            N(R::Types),
            T(S::RightParen),
            N(R::Yields),
            N(R::Signals),
            A(Close(K::RoutineT)),
        ],
    ),
];

pub const TYPES: [Row; 2] = [
    Peek(&[S::RightParen], &[]),
    Otherwise(&[N(R::AnyType), N(R::TypesRest)]),
];

pub const TYPES_REST: [Row; 2] = [
    Take(&[S::Comma], &[N(R::AnyType), N(R::TypesRest)]),
    Otherwise(&[]),
];

pub const FIELD_T_REST: [Row; 1] = [Otherwise(&[
    N(R::Names),
    T(S::Colon),
    N(R::AnyType),
    A(Close(K::FieldT)),
])];

pub const FIELD_TS_REST: [Row; 2] = [
    Take(
        &[S::Comma],
        &[
            T(S::Idn),
            A(Open),
            A(Note),
            N(R::FieldTRest),
            N(R::FieldTsRest),
        ],
    ),
    Otherwise(&[]),
];
