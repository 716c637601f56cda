//! Sets of symbols that rows name.

use clu_lexer::Symbol as S;

pub const SIMPLE: [S; 9] = [
    S::Null,
    S::Bool,
    S::Int,
    S::Real,
    S::Char,
    S::String,
    S::Any,
    S::Rep,
    S::Cvt,
];

pub const LIST: [S; 2] = [S::Array, S::Sequence];

pub const FIELDS: [S; 4] = [S::Record, S::Struct, S::Oneof, S::Variant];

pub const TYPE_WORDS: [S; 17] = [
    S::Null,
    S::Bool,
    S::Int,
    S::Real,
    S::Char,
    S::String,
    S::Any,
    S::Rep,
    S::Cvt,
    S::Array,
    S::Sequence,
    S::Record,
    S::Struct,
    S::Oneof,
    S::Variant,
    S::Proctype,
    S::Itertype,
];

pub const LITERALS: [S; 7] = [
    S::Nil,
    S::True,
    S::False,
    S::IntLiteral,
    S::RealLiteral,
    S::CharLiteral,
    S::StringLiteral,
];

pub const SIGNS: [S; 2] = [S::Tilde, S::Minus];

pub const MUL_OPERATORS: [S; 3] = [S::Star, S::Slash, S::Remainder];

pub const ADD_OPERATORS: [S; 3] = [S::Plus, S::Minus, S::Concat];

pub const COMPARISONS: [S; 10] = [
    S::Less,
    S::AtMost,
    S::Equal,
    S::AtLeast,
    S::Greater,
    S::NotLess,
    S::NotAtMost,
    S::NotEqual,
    S::NotAtLeast,
    S::NotGreater,
];

pub const AND_OPERATORS: [S; 2] = [S::And, S::Cand];

pub const OR_OPERATORS: [S; 2] = [S::Bar, S::Cor];

pub const POSTFIXES: [S; 3] = [S::Point, S::LeftBracket, S::LeftParen];

pub const HAS_OR_IN: [S; 2] = [S::Has, S::In];

pub const BODY_ENDS: [S; 6] = [S::End, S::Elseif, S::Else, S::Tag, S::Others, S::When];
