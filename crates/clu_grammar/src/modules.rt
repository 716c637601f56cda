//! The rows of the grammar for files, modules, headings and demands. Each comment is the production that the rows below it
//! read: `[x]` is optional, `{x}` is any number, `x#` is one or more x separated by commas, and
//! `a / b` is a choice.

use crate::items::Action::{Close, Note, Open};
use crate::items::Item::{Action as A, Nonterminal as N, Terminal as T};
use crate::items::Row::{Otherwise, Peek, Take};
use crate::items::{Nonterminal as R, Row};
use crate::sets::HAS_OR_IN;
use clu_lexer::Symbol as S;
use clu_tree::NodeKind as K;

// File = Module {Module}
pub const FILE: [Row; 1] = [Take(
    &[S::Idn],
    &[
        A(Open),
        A(Open),
        A(Open),
        A(Note),
        T(S::Equal),
        N(R::Definition),
        N(R::Modules),
        A(Close(K::File)),
    ],
)];

pub const MODULES: [Row; 2] = [
    Take(
        &[S::Idn],
        &[
            A(Open),
            A(Open),
            A(Note),
            T(S::Equal),
            N(R::Definition),
            N(R::Modules),
        ],
    ),
    Otherwise(&[]),
];

// Module = {Equate} (Routine / Cluster); Def stands after idn "="
pub const DEFINITION: [Row; 4] = [
    Take(
        &[S::Proc],
        &[A(Note), N(R::Parms), N(R::Proc), A(Close(K::Module))],
    ),
    Take(
        &[S::Iter],
        &[A(Note), N(R::Parms), N(R::Iter), A(Close(K::Module))],
    ),
    Take(
        &[S::Cluster],
        &[
            A(Note),
            N(R::Parms),
            T(S::Is),
            T(S::Idn),
            A(Note),
            N(R::Names),
            N(R::Where),
            N(R::ClusterBody),
            T(S::End),
            T(S::Idn),
            A(Note),
            A(Close(K::Cluster)),
            A(Close(K::Module)),
        ],
    ),
    Otherwise(&[N(R::EquateRest), N(R::ModuleItem)]),
];

pub const MODULE_ITEM: [Row; 1] = [Take(
    &[S::Idn],
    &[A(Open), A(Note), T(S::Equal), N(R::Definition)],
)];

// Routine = idn "=" (proc / iter) ["[" Parm# "]"] "(" [Decl#] ")" [Results] [Signals] [Where] {Equate} {Own} {stmt} end idn
pub const PROC: [Row; 1] = [Take(
    &[S::LeftParen],
    &[
        N(R::Decls),
        T(S::RightParen),
        N(R::Returns),
        N(R::Signals),
        N(R::Where),
        N(R::RoutineBody),
        T(S::End),
        T(S::Idn),
        A(Note),
        A(Close(K::Routine)),
    ],
)];

pub const ITER: [Row; 1] = [Take(
    &[S::LeftParen],
    &[
        N(R::Decls),
        T(S::RightParen),
        N(R::Yields),
        N(R::Signals),
        N(R::Where),
        N(R::RoutineBody),
        T(S::End),
        T(S::Idn),
        A(Note),
        A(Close(K::Routine)),
    ],
)];

pub const ROUTINE_BODY: [Row; 3] = [
    Take(&[S::Idn], &[A(Open), A(Note), N(R::RoutineBodyIdn)]),
    Take(
        &[S::Own],
        &[
            A(Open),
            A(Note),
            T(S::Idn),
            A(Open),
            A(Note),
            N(R::OwnRest),
            N(R::Owns),
        ],
    ),
    Otherwise(&[N(R::StmtsByWord)]),
];

pub const ROUTINE_BODY_IDN: [Row; 2] = [
    Take(&[S::Equal], &[N(R::EquateRest), N(R::RoutineBody)]),
    Otherwise(&[N(R::StmtByIdn)]),
];

pub const OWNS: [Row; 2] = [
    Take(
        &[S::Own],
        &[
            A(Open),
            A(Note),
            T(S::Idn),
            A(Open),
            A(Note),
            N(R::OwnRest),
            N(R::Owns),
        ],
    ),
    Otherwise(&[N(R::Stmts)]),
];

// Cluster = idn "=" cluster ["[" Parm# "]"] is idn# [Where] {Equate} {Own} Routine {Routine} end idn
pub const CLUSTER_BODY: [Row; 3] = [
    Take(
        &[S::Idn],
        &[A(Open), A(Note), T(S::Equal), N(R::ClusterDefinition)],
    ),
    Take(
        &[S::Rep],
        &[
            A(Open),
            A(Note),
            T(S::Equal),
            N(R::EquateRest),
            N(R::ClusterBody),
        ],
    ),
    Take(
        &[S::Own],
        &[
            A(Open),
            A(Note),
            T(S::Idn),
            A(Open),
            A(Note),
            N(R::OwnRest),
            N(R::ClusterOwns),
        ],
    ),
];

pub const CLUSTER_DEFINITION: [Row; 3] = [
    Take(&[S::Proc], &[A(Note), N(R::Proc), N(R::Routines)]),
    Take(&[S::Iter], &[A(Note), N(R::Iter), N(R::Routines)]),
    Otherwise(&[N(R::EquateRest), N(R::ClusterBody)]),
];

pub const CLUSTER_OWNS: [Row; 2] = [
    Take(
        &[S::Own],
        &[
            A(Open),
            A(Note),
            T(S::Idn),
            A(Open),
            A(Note),
            N(R::OwnRest),
            N(R::ClusterOwns),
        ],
    ),
    Take(
        &[S::Idn],
        &[A(Open), A(Note), T(S::Equal), N(R::Routine), N(R::Routines)],
    ),
];

pub const ROUTINES: [Row; 2] = [
    Take(
        &[S::Idn],
        &[A(Open), A(Note), T(S::Equal), N(R::Routine), N(R::Routines)],
    ),
    Otherwise(&[]),
];

pub const ROUTINE: [Row; 2] = [
    Take(&[S::Proc], &[A(Note), N(R::Proc)]),
    Take(&[S::Iter], &[A(Note), N(R::Iter)]),
];

// Parm = idn# ":" (type-word / type); Names is idn# after its first idn
pub const PARMS: [Row; 2] = [
    Take(
        &[S::LeftBracket],
        &[
            T(S::Idn),
            A(Open),
            A(Note),
            N(R::ParmRest),
            N(R::ParmsRest),
            T(S::RightBracket),
        ],
    ),
    Otherwise(&[]),
];

pub const PARMS_REST: [Row; 2] = [
    Take(
        &[S::Comma],
        &[T(S::Idn), A(Open), A(Note), N(R::ParmRest), N(R::ParmsRest)],
    ),
    Otherwise(&[]),
];

pub const PARM_REST: [Row; 1] = [Otherwise(&[
    N(R::Names),
    T(S::Colon),
    N(R::ParmType),
    A(Close(K::Parm)),
])];

pub const PARM_TYPE: [Row; 2] = [
    Take(&[S::TypeWord], &[A(Note)]),
    Otherwise(&[N(R::AnyType)]),
];

pub const NAMES: [Row; 2] = [
    Take(&[S::Comma], &[T(S::Idn), A(Note), N(R::Names)]),
    Otherwise(&[]),
];

// Results = returns "(" type# ")" / yields "(" type# ")"
pub const RETURNS: [Row; 2] = [
    Take(
        &[S::Returns],
        &[
            A(Open),
            A(Note),
            T(S::LeftParen),
            N(R::AnyType),
            N(R::TypesRest),
            T(S::RightParen),
            A(Close(K::Results)),
        ],
    ),
    Otherwise(&[]),
];

pub const YIELDS: [Row; 2] = [
    Take(
        &[S::Yields],
        &[
            A(Open),
            A(Note),
            T(S::LeftParen),
            N(R::AnyType),
            N(R::TypesRest),
            T(S::RightParen),
            A(Close(K::Results)),
        ],
    ),
    Otherwise(&[]),
];

// Signals = signals "(" Exc# ")"; Exc = idn ["(" type# ")"]
pub const SIGNALS: [Row; 2] = [
    Take(
        &[S::Signals],
        &[
            A(Open),
            T(S::LeftParen),
            T(S::Idn),
            A(Open),
            A(Note),
            N(R::ExcRest),
            A(Close(K::Exc)),
            N(R::ExcsRest),
            T(S::RightParen),
            A(Close(K::Signals)),
        ],
    ),
    Otherwise(&[]),
];

pub const EXCS_REST: [Row; 2] = [
    Take(
        &[S::Comma],
        &[
            T(S::Idn),
            A(Open),
            A(Note),
            N(R::ExcRest),
            A(Close(K::Exc)),
            N(R::ExcsRest),
        ],
    ),
    Otherwise(&[]),
];

pub const EXC_REST: [Row; 2] = [
    Take(
        &[S::LeftParen],
        &[N(R::AnyType), N(R::TypesRest), T(S::RightParen)],
    ),
    Otherwise(&[]),
];

// Where = where Restrict#; Restrict = idn has Oper# / idn in idn / idn in TypeSet
pub const WHERE: [Row; 2] = [
    Take(
        &[S::Where],
        &[
            A(Open),
            T(S::Idn),
            A(Open),
            A(Note),
            N(R::Restrict),
            A(Close(K::Where)),
        ],
    ),
    Otherwise(&[]),
];

pub const RESTRICT: [Row; 2] = [
    Take(
        &[S::Has],
        &[
            A(Note),
            T(S::Idn),
            A(Open),
            A(Note),
            N(R::OperRest),
            N(R::Opers),
        ],
    ),
    Take(&[S::In], &[A(Note), N(R::InRest)]),
];

pub const OPERS: [Row; 2] = [
    Take(&[S::Comma], &[T(S::Idn), N(R::OperIdn)]),
    Otherwise(&[A(Close(K::Restrict))]),
];

pub const OPER_IDN: [Row; 2] = [
    Peek(
        &HAS_OR_IN,
        &[A(Close(K::Restrict)), A(Open), A(Note), N(R::Restrict)],
    ),
    Otherwise(&[A(Open), A(Note), N(R::OperRest), N(R::Opers)]),
];

pub const IN_REST: [Row; 2] = [
    Take(
        &[S::Idn],
        &[A(Note), A(Close(K::Restrict)), N(R::RestrictsRest)],
    ),
    Take(
        &[S::LeftBrace],
        &[
            A(Open),
            N(R::TypeSetRest),
            A(Close(K::Restrict)),
            N(R::RestrictsRest),
        ],
    ),
];

pub const RESTRICTS_REST: [Row; 2] = [
    Take(&[S::Comma], &[T(S::Idn), A(Open), A(Note), N(R::Restrict)]),
    Otherwise(&[]),
];

// Oper = idn# ":" type
pub const OPER_REST: [Row; 1] = [Otherwise(&[
    N(R::Names),
    T(S::Colon),
    N(R::AnyType),
    A(Close(K::Oper)),
])];

// TypeSet = "{" idn "|" idn has Oper# {Equate} "}"
pub const TYPE_SET_REST: [Row; 1] = [Take(
    &[S::Idn],
    &[
        A(Note),
        T(S::Bar),
        T(S::Idn),
        A(Note),
        T(S::Has),
        T(S::Idn),
        A(Open),
        A(Note),
        N(R::OperRest),
        N(R::TypeSetOpers),
        N(R::TypeSetEquates),
        T(S::RightBrace),
        A(Close(K::TypeSet)),
    ],
)];

pub const TYPE_SET_OPERS: [Row; 2] = [
    Take(
        &[S::Comma],
        &[
            T(S::Idn),
            A(Open),
            A(Note),
            N(R::OperRest),
            N(R::TypeSetOpers),
        ],
    ),
    Otherwise(&[]),
];

pub const TYPE_SET_EQUATES: [Row; 2] = [
    Take(
        &[S::Idn],
        &[
            A(Open),
            A(Note),
            T(S::Equal),
            N(R::EquateRest),
            N(R::TypeSetEquates),
        ],
    ),
    Otherwise(&[]),
];
