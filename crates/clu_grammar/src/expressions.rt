//! The rows of the grammar for expressions. Each comment is the production that the rows below it
//! read: `[x]` is optional, `{x}` is any number, `x#` is one or more x separated by commas, and
//! `a / b` is a choice.

use crate::items::Action::{Base, Close, Note, Open, Wrap};
use crate::items::Item::{Action as A, Nonterminal as N, Terminal as T};
use crate::items::Row::{Otherwise, Peek, Take};
use crate::items::{Nonterminal as R, Row};
use crate::sets::{
    ADD_OPERATORS, AND_OPERATORS, COMPARISONS, LITERALS, MUL_OPERATORS, OR_OPERATORS, POSTFIXES,
    SIGNS, TYPE_WORDS,
};
use clu_lexer::Symbol as S;
use clu_tree::NodeKind as K;

// expr = Infix / Prefix / Paren / primary; Unary any operand, Operand one that doesn't begin with a type word
pub const EXPR: [Row; 1] = [Otherwise(&[N(R::Unary), N(R::Operators)])];

pub const EXPRS_REST: [Row; 2] = [
    Take(&[S::Comma], &[N(R::Expr), N(R::ExprsRest)]),
    Otherwise(&[]),
];

pub const ARGUMENTS: [Row; 2] = [
    Peek(&[S::RightParen], &[]),
    Otherwise(&[N(R::Expr), N(R::ExprsRest)]),
];

pub const UNARY: [Row; 2] = [
    Peek(
        &TYPE_WORDS,
        &[N(R::WordType), N(R::Dollar), N(R::PostfixExpr)],
    ),
    Otherwise(&[N(R::Operand)]),
];

pub const OPERAND: [Row; 4] = [
    Take(
        &SIGNS,
        &[A(Open), A(Note), N(R::Unary), A(Close(K::Prefix))],
    ),
    Take(
        &[S::LeftParen],
        &[A(Open), N(R::Expr), T(S::RightParen), A(Close(K::Paren))],
    ),
    Take(&[S::Idn], &[A(Open), A(Note), N(R::IdnExpr)]),
    Otherwise(&[N(R::Atom), N(R::PostfixExpr)]),
];

// Infix = expr operator expr
pub const OPERATORS: [Row; 1] = [Otherwise(&[
    N(R::Pow),
    N(R::Mul),
    N(R::Add),
    N(R::Compare),
    N(R::And),
    N(R::Or),
])];

pub const POW: [Row; 2] = [
    Take(
        &[S::Power],
        &[A(Wrap), A(Note), N(R::Unary), N(R::Pow), A(Close(K::Infix))],
    ),
    Otherwise(&[]),
];

pub const MUL: [Row; 2] = [
    Take(
        &MUL_OPERATORS,
        &[
            A(Wrap),
            A(Note),
            N(R::Unary),
            N(R::Pow),
            A(Close(K::Infix)),
            N(R::Mul),
        ],
    ),
    Otherwise(&[]),
];

pub const ADD: [Row; 2] = [
    Take(
        &ADD_OPERATORS,
        &[
            A(Wrap),
            A(Note),
            N(R::Unary),
            N(R::Pow),
            N(R::Mul),
            A(Close(K::Infix)),
            N(R::Add),
        ],
    ),
    Otherwise(&[]),
];

pub const COMPARE: [Row; 2] = [
    Take(
        &COMPARISONS,
        &[
            A(Wrap),
            A(Note),
            N(R::Unary),
            N(R::Pow),
            N(R::Mul),
            N(R::Add),
            A(Close(K::Infix)),
            N(R::Compare),
        ],
    ),
    Otherwise(&[]),
];

pub const AND: [Row; 2] = [
    Take(
        &AND_OPERATORS,
        &[
            A(Wrap),
            A(Note),
            N(R::Unary),
            N(R::Pow),
            N(R::Mul),
            N(R::Add),
            N(R::Compare),
            A(Close(K::Infix)),
            N(R::And),
        ],
    ),
    Otherwise(&[]),
];

pub const OR: [Row; 2] = [
    Take(
        &OR_OPERATORS,
        &[
            A(Wrap),
            A(Note),
            N(R::Unary),
            N(R::Pow),
            N(R::Mul),
            N(R::Add),
            N(R::Compare),
            N(R::And),
            A(Close(K::Infix)),
            N(R::Or),
        ],
    ),
    Otherwise(&[]),
];

// primary = Literal / Name / Index / Get / Call / Fields / Elems / OperOf / Force / Up / Down; Prim begins with no idn
pub const PRIMARY: [Row; 2] = [
    Peek(&TYPE_WORDS, &[N(R::WordType), N(R::Dollar)]),
    Otherwise(&[N(R::Atom)]),
];

pub const ATOM: [Row; 4] = [
    Take(&LITERALS, &[A(Open), A(Note), A(Close(K::Literal))]),
    Take(
        &[S::Force],
        &[
            A(Open),
            T(S::LeftBracket),
            N(R::AnyType),
            T(S::RightBracket),
            A(Close(K::Force)),
        ],
    ),
    Take(
        &[S::Up],
        &[
            A(Open),
            T(S::LeftParen),
            N(R::Expr),
            T(S::RightParen),
            A(Close(K::Up)),
        ],
    ),
    Take(
        &[S::Down],
        &[
            A(Open),
            T(S::LeftParen),
            N(R::Expr),
            T(S::RightParen),
            A(Close(K::Down)),
        ],
    ),
];

// Name = idn; Index = primary "[" constant# "]"; Get = primary "." idn; Call = primary "(" [expr#] ")"
pub const IDN_EXPR: [Row; 3] = [
    Take(
        &[S::LeftBracket],
        &[
            A(Base),
            N(R::Constant),
            N(R::ConstantsRest),
            T(S::RightBracket),
            N(R::BaseExpr),
        ],
    ),
    Peek(
        &[S::Dollar],
        &[A(Close(K::NameT)), N(R::Dollar), N(R::PostfixExpr)],
    ),
    Otherwise(&[A(Close(K::Name)), N(R::SelectorExpr)]),
];

pub const BASE_EXPR: [Row; 2] = [
    Peek(
        &[S::Dollar],
        &[A(Close(K::NameT)), N(R::Dollar), N(R::PostfixExpr)],
    ),
    Otherwise(&[A(Close(K::Index)), N(R::PostfixExpr)]),
];

pub const POSTFIX_EXPR: [Row; 2] = [
    Take(
        &[S::LeftBracket],
        &[
            A(Wrap),
            N(R::Constant),
            N(R::ConstantsRest),
            T(S::RightBracket),
            A(Close(K::Index)),
            N(R::PostfixExpr),
        ],
    ),
    Otherwise(&[N(R::SelectorExpr)]),
];

pub const SELECTOR_EXPR: [Row; 3] = [
    Take(
        &[S::Point],
        &[
            A(Wrap),
            T(S::Idn),
            A(Note),
            A(Close(K::Get)),
            N(R::PostfixExpr),
        ],
    ),
    Take(
        &[S::LeftParen],
        &[
            A(Wrap),
            N(R::Arguments),
            T(S::RightParen),
            A(Close(K::Call)),
            N(R::PostfixExpr),
        ],
    ),
    Otherwise(&[]),
];

// a primary that must be a Call (For, Init, Own): PostC after one that is none, MoreC after a Call
pub const CALL: [Row; 2] = [
    Take(&[S::Idn], &[A(Open), A(Note), N(R::IdnCall)]),
    Otherwise(&[N(R::Primary), N(R::PostfixCall)]),
];

pub const IDN_CALL: [Row; 3] = [
    Take(
        &[S::LeftBracket],
        &[
            A(Base),
            N(R::Constant),
            N(R::ConstantsRest),
            T(S::RightBracket),
            N(R::BaseCall),
        ],
    ),
    Peek(
        &[S::Dollar],
        &[A(Close(K::NameT)), N(R::Dollar), N(R::PostfixCall)],
    ),
    Otherwise(&[A(Close(K::Name)), N(R::SelectorCall)]),
];

pub const BASE_CALL: [Row; 2] = [
    Peek(
        &[S::Dollar],
        &[A(Close(K::NameT)), N(R::Dollar), N(R::PostfixCall)],
    ),
    Otherwise(&[A(Close(K::Index)), N(R::PostfixCall)]),
];

pub const POSTFIX_CALL: [Row; 2] = [
    Take(
        &[S::LeftBracket],
        &[
            A(Wrap),
            N(R::Constant),
            N(R::ConstantsRest),
            T(S::RightBracket),
            A(Close(K::Index)),
            N(R::PostfixCall),
        ],
    ),
    Otherwise(&[N(R::SelectorCall)]),
];

pub const SELECTOR_CALL: [Row; 2] = [
    Take(
        &[S::Point],
        &[
            A(Wrap),
            T(S::Idn),
            A(Note),
            A(Close(K::Get)),
            N(R::PostfixCall),
        ],
    ),
    Take(
        &[S::LeftParen],
        &[
            A(Wrap),
            N(R::Arguments),
            T(S::RightParen),
            A(Close(K::Call)),
            N(R::AfterCall),
        ],
    ),
];

pub const AFTER_CALL: [Row; 2] = [Peek(&POSTFIXES, &[N(R::PostfixCall)]), Otherwise(&[])];

// OperOf = type "$" idn; Fields = type "$" "{" FieldE# "}"; FieldE = idn# ":" expr
// Elems = type "$" "[" [expr ":"] [expr#] "]"
pub const DOLLAR: [Row; 1] = [Take(&[S::Dollar], &[A(Wrap), N(R::AfterDollar)])];

pub const AFTER_DOLLAR: [Row; 3] = [
    Take(&[S::Idn], &[A(Note), A(Close(K::OperOf))]),
    Take(
        &[S::LeftBrace],
        &[
            T(S::Idn),
            A(Open),
            A(Note),
            N(R::FieldERest),
            N(R::FieldEsRest),
            T(S::RightBrace),
            A(Close(K::Fields)),
        ],
    ),
    Take(
        &[S::LeftBracket],
        &[N(R::Elems), T(S::RightBracket), A(Close(K::Elems))],
    ),
];

pub const FIELD_E_REST: [Row; 1] = [Otherwise(&[
    N(R::Names),
    T(S::Colon),
    N(R::Expr),
    A(Close(K::FieldE)),
])];

pub const FIELD_ES_REST: [Row; 2] = [
    Take(
        &[S::Comma],
        &[
            T(S::Idn),
            A(Open),
            A(Note),
            N(R::FieldERest),
            N(R::FieldEsRest),
        ],
    ),
    Otherwise(&[]),
];

pub const ELEMS: [Row; 2] = [
    Peek(&[S::RightBracket], &[]),
    Otherwise(&[N(R::Expr), N(R::ElemsRest)]),
];

pub const ELEMS_REST: [Row; 2] = [
    Take(&[S::Colon], &[A(Note), N(R::ElemsLow)]),
    Otherwise(&[N(R::ExprsRest)]),
];

pub const ELEMS_LOW: [Row; 2] = [
    Peek(&[S::RightBracket], &[]),
    Otherwise(&[N(R::Expr), N(R::ExprsRest)]),
];
