//! The words and marks that choose between the forms of a construct.

ghost use Rattle.std.specs.Prelude.{◌≡◌};
ghost use Rattle.clu_syntax.specs.Words.{are_digits, fields_type, infix_operator, is_small, list_type, literal_of, literal_told, number_of, routine_kind, sign, simple_type, symbol_in, word_of};

use clu_base::Kind;
use clu_lexer::{Symbol, symbol_of};

/// The infix operators (CLU Reference Manual, section 10.15).
#[derive(Clone, Copy)]
pub enum Operator {
    /// `**`
    Power,
    /// `*`
    Multiply,
    /// `/`
    Divide,
    /// `//`
    Remainder,
    /// `+`
    Add,
    /// `-`
    Subtract,
    /// `||`
    Concatenate,
    /// `<`
    Less,
    /// `<=`
    AtMost,
    /// `=`
    Equal,
    /// `>=`
    AtLeast,
    /// `>`
    Greater,
    /// `~<`
    NotLess,
    /// `~<=`
    NotAtMost,
    /// `~=`
    NotEqual,
    /// `~>=`
    NotAtLeast,
    /// `~>`
    NotGreater,
    /// `&`
    And,
    /// `cand`
    Cand,
    /// `|`
    Or,
    /// `cor`
    Cor,
}

/// The prefix operators.
#[derive(Clone, Copy)]
pub enum Sign {
    /// `~`
    Not,
    /// `-`
    Minus,
}

/// The types that are one word.
#[derive(Clone, Copy, PartialEq, Eq)]
pub enum SimpleType {
    Null,
    Bool,
    Int,
    Real,
    Char,
    String,
    Any,
    /// The type that represents a cluster, inside it.
    Rep,
    /// The cluster's type outside of a routine, its representation inside.
    Cvt,
}

/// The types that are made of one other.
#[derive(Clone, Copy)]
pub enum ListType {
    Array,
    Sequence,
}

/// The types that are made of selectors with their types.
#[derive(Clone, Copy)]
pub enum FieldsType {
    Record,
    Struct,
    Oneof,
    Variant,
}

/// What a routine or a type of routines is.
#[derive(Clone, Copy)]
pub enum RoutineKind {
    /// `proc`, `proctype`
    Procedure,
    /// `iter`, `itertype`
    Iterator,
}

/// A literal; a number, character or string as it is spelled.
#[derive(Clone, Copy)]
pub enum Literal<'a> {
    Nil,
    True,
    False,
    Integer(&'a [u8]),
    Real(&'a [u8]),
    Character(&'a [u8]),
    String(&'a [u8]),
}

fn is_small(b: u8) -> bool
    ensures { result ≡ is_small b }
{
    b'a' <= b && b <= b'z'
}

/// What the value of a node is to the grammar, where it is a word or a mark.
fn symbol_in(value: &[u8]) -> Symbol
    ensures { result ≡ symbol_in value.now }
{
    match value {
        [] => Symbol::Unknown,
        [b, ..] => {
            if is_small(*b) {
                symbol_of(Kind::Word, value)
            } else {
                symbol_of(Kind::Mark, value)
            }
        }
    }
}

/// The operator of an Infix, by its value.
pub fn infix_operator(value: &[u8]) -> Operator
    ensures { result ≡ infix_operator (symbol_in value.now) }
{
    match symbol_in(value) {
        Symbol::Power => Operator::Power,
        Symbol::Star => Operator::Multiply,
        Symbol::Slash => Operator::Divide,
        Symbol::Remainder => Operator::Remainder,
        Symbol::Plus => Operator::Add,
        Symbol::Minus => Operator::Subtract,
        Symbol::Concat => Operator::Concatenate,
        Symbol::Less => Operator::Less,
        Symbol::AtMost => Operator::AtMost,
        Symbol::Equal => Operator::Equal,
        Symbol::AtLeast => Operator::AtLeast,
        Symbol::Greater => Operator::Greater,
        Symbol::NotLess => Operator::NotLess,
        Symbol::NotAtMost => Operator::NotAtMost,
        Symbol::NotEqual => Operator::NotEqual,
        Symbol::NotAtLeast => Operator::NotAtLeast,
        Symbol::NotGreater => Operator::NotGreater,
        Symbol::And => Operator::And,
        Symbol::Cand => Operator::Cand,
        Symbol::Bar => Operator::Or,
        _ => Operator::Cor,
    }
}

/// The operator of a Prefix, by its value.
pub fn prefix_operator(value: &[u8]) -> Sign
    ensures { result ≡ sign (symbol_in value.now) }
{
    match symbol_in(value) {
        Symbol::Tilde => Sign::Not,
        _ => Sign::Minus,
    }
}

/// The type that is one word, by this word.
pub fn simple_type(value: &[u8]) -> SimpleType
    ensures { result ≡ simple_type (symbol_in value.now) }
{
    match symbol_in(value) {
        Symbol::Null => SimpleType::Null,
        Symbol::Bool => SimpleType::Bool,
        Symbol::Int => SimpleType::Int,
        Symbol::Real => SimpleType::Real,
        Symbol::Char => SimpleType::Char,
        Symbol::String => SimpleType::String,
        Symbol::Any => SimpleType::Any,
        Symbol::Rep => SimpleType::Rep,
        _ => SimpleType::Cvt,
    }
}

pub fn list_type(value: &[u8]) -> ListType
    ensures { result ≡ list_type (symbol_in value.now) }
{
    match symbol_in(value) {
        Symbol::Array => ListType::Array,
        _ => ListType::Sequence,
    }
}

pub fn fields_type(value: &[u8]) -> FieldsType
    ensures { result ≡ fields_type (symbol_in value.now) }
{
    match symbol_in(value) {
        Symbol::Record => FieldsType::Record,
        Symbol::Struct => FieldsType::Struct,
        Symbol::Oneof => FieldsType::Oneof,
        _ => FieldsType::Variant,
    }
}

/// What a routine or a type of routines is, by its word.
pub fn routine_kind(value: &[u8]) -> RoutineKind
    ensures { result ≡ routine_kind (symbol_in value.now) }
{
    match symbol_in(value) {
        Symbol::Proc | Symbol::Proctype => RoutineKind::Procedure,
        _ => RoutineKind::Iterator,
    }
}

/// Whether all of these bytes are digits, as those of an integer literal are.
#[tactic(auto, unfolding(crate::specs::Words::are_digits))]
fn are_digits(mut bytes: &[u8]) -> bool
    ensures { result ≡ are_digits bytes.entry.now }
{
    while let [b, rest @ ..] = bytes {
        if *b < b'0' || b'9' < *b {
            return false;
        }
        bytes = rest;
    }
    true
}

fn number_of(value: &[u8]) -> Literal<'_>
    ensures { literal_told result ≡ number_of value.now }
{
    if are_digits(value) {
        Literal::Integer(value)
    } else {
        Literal::Real(value)
    }
}

fn word_of<'a>(value: &'a [u8]) -> Literal<'a>
    ensures { literal_told result ≡ word_of (symbol_in value.now) }
{
    match symbol_in(value) {
        Symbol::Nil => Literal::Nil,
        Symbol::True => Literal::True,
        _ => Literal::False,
    }
}

/// The literal that is spelled so.
pub fn literal_in(value: &[u8]) -> Literal<'_>
    ensures { literal_told result ≡ literal_of value.now }
{
    match value {
        [] => Literal::False,
        [b, ..] => {
            if *b == b'"' {
                Literal::String(value)
            } else if *b == b'\'' {
                Literal::Character(value)
            } else if is_small(*b) {
                word_of(value)
            } else {
                number_of(value)
            }
        }
    }
}
