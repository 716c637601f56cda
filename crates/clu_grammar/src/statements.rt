//! The rows of the grammar for bodies and statements. Each comment is the production that the rows below it
//! read: `[x]` is optional, `{x}` is any number, `x#` is one or more x separated by commas, and
//! `a / b` is a choice.

use crate::items::Action::{Base, Close, Give, Note, Open, Wrap};
use crate::items::Item::{Action as A, Nonterminal as N, Terminal as T};
use crate::items::Row::{Otherwise, Peek, Take};
use crate::items::{Nonterminal as R, Row};
use crate::sets::{BODY_ENDS, POSTFIXES, TYPE_WORDS};
use clu_lexer::Symbol as S;
use clu_tree::NodeKind as K;

// body = {Equate} {stmt}
pub const BODY: [Row; 2] = [
    Take(&[S::Idn], &[A(Open), A(Note), N(R::BodyIdn)]),
    Otherwise(&[N(R::StmtsByWord)]),
];

pub const BODY_IDN: [Row; 2] = [
    Take(&[S::Equal], &[N(R::EquateRest), N(R::Body)]),
    Otherwise(&[N(R::StmtByIdn)]),
];

// {stmt}: Stmts all, StmtsW what doesn't begin with an idn, Next after a stmt
pub const STMTS: [Row; 2] = [
    Take(&[S::Idn], &[A(Open), A(Note), N(R::StmtByIdn)]),
    Otherwise(&[N(R::StmtsByWord)]),
];

pub const STMTS_BY_WORD: [Row; 13] = [
    Take(
        &[S::While],
        &[
            A(Open),
            N(R::Expr),
            T(S::Do),
            N(R::Body),
            T(S::End),
            A(Close(K::While)),
            N(R::AfterStmt),
        ],
    ),
    Take(
        &[S::For],
        &[
            A(Open),
            N(R::ForVars),
            T(S::In),
            N(R::Call),
            T(S::Do),
            N(R::Body),
            T(S::End),
            A(Close(K::For)),
            N(R::AfterStmt),
        ],
    ),
    Take(
        &[S::If],
        &[
            A(Open),
            N(R::Expr),
            T(S::Then),
            N(R::Body),
            N(R::Elses),
            T(S::End),
            A(Close(K::If)),
            N(R::AfterStmt),
        ],
    ),
    Take(
        &[S::Tagcase],
        &[
            A(Open),
            N(R::Expr),
            T(S::Tag),
            A(Open),
            T(S::Idn),
            A(Note),
            N(R::TagArmRest),
            N(R::TagArms),
            T(S::End),
            A(Close(K::Tagcase)),
            N(R::AfterStmt),
        ],
    ),
    Take(
        &[S::Return],
        &[
            A(Open),
            N(R::ExprsInParens),
            A(Close(K::Return)),
            N(R::AfterStmt),
        ],
    ),
    Take(
        &[S::Yield],
        &[
            A(Open),
            N(R::ExprsInParens),
            A(Close(K::Yield)),
            N(R::AfterStmt),
        ],
    ),
    Take(
        &[S::Signal],
        &[
            A(Open),
            T(S::Idn),
            A(Note),
            N(R::ExprsInParens),
            A(Close(K::Signal)),
            N(R::AfterStmt),
        ],
    ),
    Take(
        &[S::Exit],
        &[
            A(Open),
            T(S::Idn),
            A(Note),
            N(R::ExprsInParens),
            A(Close(K::Exit)),
            N(R::AfterStmt),
        ],
    ),
    Take(&[S::Break], &[A(Open), A(Close(K::Break)), N(R::AfterStmt)]),
    Take(
        &[S::Continue],
        &[A(Open), A(Close(K::Continue)), N(R::AfterStmt)],
    ),
    Take(
        &[S::Begin],
        &[
            A(Open),
            N(R::Body),
            T(S::End),
            A(Close(K::Begin)),
            N(R::AfterStmt),
        ],
    ),
    Peek(&BODY_ENDS, &[]),
    Otherwise(&[N(R::Primary), N(R::PostfixStmt)]),
];

// Resignal = stmt resignal idn#; Except = stmt except {When} [Others] end; one ";" after each stmt
pub const AFTER_STMT: [Row; 2] = [
    Take(&[S::Semicolon], &[N(R::AfterSemicolon)]),
    Otherwise(&[N(R::AfterSemicolon)]),
];

pub const AFTER_SEMICOLON: [Row; 3] = [
    Take(
        &[S::Resignal],
        &[
            A(Wrap),
            T(S::Idn),
            A(Note),
            N(R::Names),
            A(Close(K::Resignal)),
            N(R::AfterStmt),
        ],
    ),
    Take(
        &[S::Except],
        &[
            A(Wrap),
            N(R::Whens),
            T(S::End),
            A(Close(K::Except)),
            N(R::AfterStmt),
        ],
    ),
    Otherwise(&[N(R::Stmts)]),
];

// a stmt that begins with an idn, after it
pub const STMT_BY_IDN: [Row; 6] = [
    Take(&[S::Colon], &[N(R::AnyType), N(R::DeclOne)]),
    Take(
        &[S::Comma],
        &[T(S::Idn), A(Note), N(R::Names), N(R::StmtByNames)],
    ),
    Take(
        &[S::Assign],
        &[
            N(R::Expr),
            N(R::ExprsRest),
            A(Close(K::Assign)),
            N(R::AfterStmt),
        ],
    ),
    Take(&[S::LeftBracket], &[A(Base), N(R::BaseIndexStmt)]),
    Peek(
        &[S::Dollar],
        &[A(Close(K::NameT)), N(R::Dollar), N(R::PostfixStmt)],
    ),
    Otherwise(&[A(Close(K::Name)), N(R::SelectorStmt)]),
];

// Declare = Decl; Init = idn ":" type ":=" expr / Decl# ":=" Call; Assign = idn# ":=" expr#
pub const STMT_BY_NAMES: [Row; 2] = [
    Take(
        &[S::Colon],
        &[N(R::AnyType), A(Close(K::Decl)), N(R::DeclMany)],
    ),
    Take(
        &[S::Assign],
        &[
            N(R::Expr),
            N(R::ExprsRest),
            A(Close(K::Assign)),
            N(R::AfterStmt),
        ],
    ),
];

pub const DECL_ONE: [Row; 2] = [
    Take(
        &[S::Assign],
        &[N(R::Expr), A(Close(K::Init)), N(R::AfterStmt)],
    ),
    Otherwise(&[A(Close(K::Decl)), N(R::DeclEnd)]),
];

pub const DECL_MANY: [Row; 2] = [
    Take(
        &[S::Assign],
        &[A(Wrap), N(R::Call), A(Close(K::Init)), N(R::AfterStmt)],
    ),
    Otherwise(&[N(R::DeclEnd)]),
];

pub const DECL_END: [Row; 2] = [
    Take(
        &[S::Comma],
        &[
            A(Wrap),
            T(S::Idn),
            A(Open),
            A(Note),
            N(R::DeclRest),
            N(R::DeclsRest),
            T(S::Assign),
            N(R::Call),
            A(Close(K::Init)),
            N(R::AfterStmt),
        ],
    ),
    Otherwise(&[A(Wrap), A(Close(K::Declare)), N(R::AfterStmt)]),
];

// SetField = primary "." idn ":=" expr; CallS = Call; PostS after a primary that can't be a stmt, MoreS after a Call
pub const POSTFIX_STMT: [Row; 2] = [
    Take(&[S::LeftBracket], &[A(Wrap), N(R::IndexStmt)]),
    Otherwise(&[N(R::SelectorStmt)]),
];

pub const SELECTOR_STMT: [Row; 2] = [
    Take(&[S::Point], &[A(Wrap), T(S::Idn), A(Note), N(R::GetStmt)]),
    Take(
        &[S::LeftParen],
        &[
            A(Wrap),
            N(R::Arguments),
            T(S::RightParen),
            A(Close(K::Call)),
            N(R::AfterCallStmt),
        ],
    ),
];

pub const GET_STMT: [Row; 2] = [
    Take(
        &[S::Assign],
        &[N(R::Expr), A(Close(K::SetField)), N(R::AfterStmt)],
    ),
    Otherwise(&[A(Close(K::Get)), N(R::PostfixStmt)]),
];

pub const AFTER_CALL_STMT: [Row; 2] = [
    Peek(&POSTFIXES, &[N(R::PostfixStmt)]),
    Otherwise(&[A(Wrap), A(Close(K::CallS)), N(R::AfterStmt)]),
];

// SetIndex = primary "[" expr "]" ":=" expr; IdxS inside the "[" of a chain
pub const INDEX_STMT: [Row; 2] = [
    Peek(&TYPE_WORDS, &[N(R::WordType), N(R::IndexTypeStmt)]),
    Otherwise(&[N(R::Operand), N(R::Operators), N(R::IndexOneStmt)]),
];

pub const INDEX_TYPE_STMT: [Row; 2] = [
    Peek(
        &[S::Dollar],
        &[
            N(R::Dollar),
            N(R::PostfixExpr),
            N(R::Operators),
            N(R::IndexOneStmt),
        ],
    ),
    Otherwise(&[
        N(R::ConstantsRest),
        T(S::RightBracket),
        A(Close(K::Index)),
        N(R::PostfixStmt),
    ]),
];

pub const INDEX_ONE_STMT: [Row; 2] = [
    Take(&[S::RightBracket], &[N(R::IndexEndStmt)]),
    Take(
        &[S::Comma],
        &[
            N(R::Constant),
            N(R::ConstantsRest),
            T(S::RightBracket),
            A(Close(K::Index)),
            N(R::PostfixStmt),
        ],
    ),
];

pub const INDEX_END_STMT: [Row; 2] = [
    Take(
        &[S::Assign],
        &[N(R::Expr), A(Close(K::SetIndex)), N(R::AfterStmt)],
    ),
    Otherwise(&[A(Close(K::Index)), N(R::PostfixStmt)]),
];

// the same inside the "[" after a stmt's first idn, which may be a NameT's
pub const BASE_INDEX_STMT: [Row; 2] = [
    Peek(&TYPE_WORDS, &[N(R::WordType), N(R::BaseIndexTypeStmt)]),
    Otherwise(&[N(R::Operand), N(R::Operators), N(R::BaseIndexOneStmt)]),
];

pub const BASE_INDEX_TYPE_STMT: [Row; 2] = [
    Peek(
        &[S::Dollar],
        &[
            N(R::Dollar),
            N(R::PostfixExpr),
            N(R::Operators),
            N(R::BaseIndexOneStmt),
        ],
    ),
    Otherwise(&[N(R::ConstantsRest), T(S::RightBracket), N(R::BaseStmt)]),
];

pub const BASE_INDEX_ONE_STMT: [Row; 2] = [
    Take(&[S::RightBracket], &[N(R::BaseIndexEndStmt)]),
    Take(
        &[S::Comma],
        &[
            N(R::Constant),
            N(R::ConstantsRest),
            T(S::RightBracket),
            N(R::BaseStmt),
        ],
    ),
];

pub const BASE_INDEX_END_STMT: [Row; 2] = [
    Take(
        &[S::Assign],
        &[N(R::Expr), A(Close(K::SetIndex)), N(R::AfterStmt)],
    ),
    Otherwise(&[N(R::BaseStmt)]),
];

pub const BASE_STMT: [Row; 2] = [
    Peek(
        &[S::Dollar],
        &[A(Close(K::NameT)), N(R::Dollar), N(R::PostfixStmt)],
    ),
    Otherwise(&[A(Close(K::Index)), N(R::PostfixStmt)]),
];

// For = for [Decl# / idn#] in Call do body end
pub const FOR_VARS: [Row; 2] = [
    Take(&[S::Idn], &[A(Open), A(Note), N(R::Names), N(R::ForKind)]),
    Otherwise(&[]),
];

pub const FOR_KIND: [Row; 2] = [
    Take(
        &[S::Colon],
        &[N(R::AnyType), A(Close(K::Decl)), N(R::DeclsRest)],
    ),
    Otherwise(&[A(Give)]),
];

// If = if expr then body {elseif expr then body} [else body] end
pub const ELSES: [Row; 3] = [
    Take(
        &[S::Elseif],
        &[N(R::Expr), T(S::Then), N(R::Body), N(R::Elses)],
    ),
    Take(&[S::Else], &[A(Note), N(R::Body)]),
    Otherwise(&[]),
];

// Tagcase = tagcase expr TagArm {TagArm} [others ":" body] end; TagArm = tag idn# ["(" idn ":" type ")"] ":" body
pub const TAG_ARM_REST: [Row; 1] = [Otherwise(&[
    N(R::Names),
    N(R::Variable),
    T(S::Colon),
    N(R::Body),
    A(Close(K::TagArm)),
])];

pub const TAG_ARMS: [Row; 3] = [
    Take(
        &[S::Tag],
        &[A(Open), T(S::Idn), A(Note), N(R::TagArmRest), N(R::TagArms)],
    ),
    Take(&[S::Others], &[A(Note), T(S::Colon), N(R::Body)]),
    Otherwise(&[]),
];

pub const VARIABLE: [Row; 2] = [
    Take(
        &[S::LeftParen],
        &[
            T(S::Idn),
            A(Note),
            T(S::Colon),
            N(R::AnyType),
            T(S::RightParen),
        ],
    ),
    Otherwise(&[]),
];

// Return, Yield, Signal, Exit: ["(" expr# ")"]
pub const EXPRS_IN_PARENS: [Row; 2] = [
    Take(
        &[S::LeftParen],
        &[N(R::Expr), N(R::ExprsRest), T(S::RightParen)],
    ),
    Otherwise(&[]),
];

// When = when idn# ["(" Decl# ")" / "(" "*" ")"] ":" body; Others = others ["(" idn ":" type ")"] ":" body
pub const WHENS: [Row; 3] = [
    Take(
        &[S::When],
        &[
            A(Open),
            T(S::Idn),
            A(Note),
            N(R::Names),
            N(R::WhenParens),
            T(S::Colon),
            N(R::Body),
            A(Close(K::When)),
            N(R::Whens),
        ],
    ),
    Take(
        &[S::Others],
        &[
            A(Open),
            N(R::Variable),
            T(S::Colon),
            N(R::Body),
            A(Close(K::Others)),
        ],
    ),
    Otherwise(&[]),
];

pub const WHEN_PARENS: [Row; 2] = [
    Take(&[S::LeftParen], &[N(R::WhenInside), T(S::RightParen)]),
    Otherwise(&[]),
];

pub const WHEN_INSIDE: [Row; 2] = [
    Take(&[S::Star], &[A(Note)]),
    Take(
        &[S::Idn],
        &[A(Open), A(Note), N(R::DeclRest), N(R::DeclsRest)],
    ),
];
