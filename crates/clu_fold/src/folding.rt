//! Folding of operators over constants of the types null, bool, int, char and string. An operator
//! that would signal, or that the type doesn't have, gives no constant.

ghost use Rattle.std.specs.Prelude.{◌≡◌, ◌≤◌, ◌++◌, FitsSigned, IfOk, SomeIff, nat_abs};
ghost use Rattle.std.specs.Option.{option_map};
ghost use Rattle.std.specs.Int.{w64, IsNonZero, IsNonNegative, int_rem_euclid, int_pow};
ghost use Rattle.clu_base.specs.declared.constants.Const.TheVariants as constant;
ghost use Rattle.clu_fold.specs.Folding.{order_row, equality_row, bool_row, string_row, comparison, IsIntRow, IsFolded, IsPrefixed};

use clu_base::{Bytes, Const, Memory};
use std::cmp::Ordering;

/// The infix operators (CLU Reference Manual, section 10.15).
#[derive(Clone, Copy)]
pub enum Operator {
    Power,
    Multiply,
    Divide,
    Modulo,
    Concat,
    Add,
    Subtract,
    Less,
    LessEqual,
    Equal,
    GreaterEqual,
    Greater,
    NotLess,
    NotLessEqual,
    NotEqual,
    NotGreaterEqual,
    NotGreater,
    And,
    Cand,
    Or,
    Cor,
}

/// The prefix operators.
#[derive(Clone, Copy)]
pub enum Prefix {
    Minus,
    Not,
}

/// The operators by their spelling, words in lower case.
const SPELLINGS: [(&[u8], Operator); 21] = [
    (b"**", Operator::Power),
    (b"*", Operator::Multiply),
    (b"/", Operator::Divide),
    (b"//", Operator::Modulo),
    (b"||", Operator::Concat),
    (b"+", Operator::Add),
    (b"-", Operator::Subtract),
    (b"<", Operator::Less),
    (b"<=", Operator::LessEqual),
    (b"=", Operator::Equal),
    (b">=", Operator::GreaterEqual),
    (b">", Operator::Greater),
    (b"~<", Operator::NotLess),
    (b"~<=", Operator::NotLessEqual),
    (b"~=", Operator::NotEqual),
    (b"~>=", Operator::NotGreaterEqual),
    (b"~>", Operator::NotGreater),
    (b"&", Operator::And),
    (b"cand", Operator::Cand),
    (b"|", Operator::Or),
    (b"cor", Operator::Cor),
];

/// The infix operator of this spelling.
pub fn infix_operator(spelling: &[u8]) -> Option<Operator> {
    for (spelled, operator) in &SPELLINGS {
        if *spelled == spelling {
            return Some(*operator);
        }
    }
    None
}

/// The prefix operator of this spelling.
pub fn prefix_operator(spelling: &[u8]) -> Option<Prefix> {
    match spelling {
        [b'-'] => Some(Prefix::Minus),
        [b'~'] => Some(Prefix::Not),
        _ => None,
    }
}

/// What an infix operator gives for two constants, if it gives one. The only error is that memory runs out.
pub fn fold(left: Const, operator: Operator, right: &Const) -> Result<Option<Const>, Memory>
    ensures { IfOk result (λ folded. IsFolded left operator right.now folded) }
{
    match left {
        Const::Null => Ok(fold_null(operator, right)),
        Const::Bool(a) => Ok(fold_bool(a, operator, right)),
        Const::Int(a) => Ok(fold_int(a, operator, right)),
        Const::Char(a) => Ok(fold_char(a, operator, right)),
        Const::Str(a) => fold_string(a, operator, right),
    }
}

fn fold_null(operator: Operator, right: &Const) -> Option<Const>
    ensures { IsFolded constant.Null operator right.now result }
{
    match right {
        Const::Null => fold_equality(true, operator),
        Const::Bool(_) => None,
        Const::Int(_) => None,
        Const::Char(_) => None,
        Const::Str(_) => None,
    }
}

fn fold_bool(a: bool, operator: Operator, right: &Const) -> Option<Const>
    ensures { IsFolded (constant.Bool a) operator right.now result }
{
    match right {
        Const::Bool(b) => fold_bools(a, operator, *b),
        Const::Null => None,
        Const::Int(_) => None,
        Const::Char(_) => None,
        Const::Str(_) => None,
    }
}

fn fold_int(a: i64, operator: Operator, right: &Const) -> Option<Const>
    ensures { IsFolded (constant.Int a) operator right.now result }
{
    match right {
        Const::Int(b) => fold_ints(a, operator, *b),
        Const::Null => None,
        Const::Bool(_) => None,
        Const::Char(_) => None,
        Const::Str(_) => None,
    }
}

fn fold_char(a: u8, operator: Operator, right: &Const) -> Option<Const>
    ensures { IsFolded (constant.Char a) operator right.now result }
{
    match right {
        Const::Char(b) => fold_order(a.cmp(b), operator),
        Const::Null => None,
        Const::Bool(_) => None,
        Const::Int(_) => None,
        Const::Str(_) => None,
    }
}

fn fold_string(a: Bytes, operator: Operator, right: &Const) -> Result<Option<Const>, Memory>
    ensures { IfOk result (λ folded. IsFolded (constant.Str a) operator right.now folded) }
{
    match right {
        Const::Str(b) => fold_strings(a, operator, b),
        Const::Null => Ok(None),
        Const::Bool(_) => Ok(None),
        Const::Int(_) => Ok(None),
        Const::Char(_) => Ok(None),
    }
}

fn fold_bools(a: bool, operator: Operator, b: bool) -> Option<Const>
    ensures { result ≡ bool_row operator a b }
{
    match operator {
        Operator::And => Some(Const::Bool(a && b)),
        Operator::Cand => Some(Const::Bool(a && b)),
        Operator::Or => Some(Const::Bool(a || b)),
        Operator::Cor => Some(Const::Bool(a || b)),
        _ => fold_equality(a == b, operator),
    }
}

fn fold_ints(a: i64, operator: Operator, b: i64) -> Option<Const>
    ensures { IsIntRow operator a b result }
{
    match operator {
        Operator::Add => as_int(a.checked_add(b)),
        Operator::Subtract => as_int(a.checked_sub(b)),
        Operator::Multiply => as_int(a.checked_mul(b)),
        Operator::Divide => as_int(a.checked_div_euclid(b)),
        Operator::Modulo => as_int(modulo(a, b)),
        Operator::Power => as_int(power(a, b)),
        _ => fold_order(a.cmp(&b), operator),
    }
}

fn as_int(n: Option<i64>) -> Option<Const>
    ensures { result ≡ option_map constant.Int n }
{
    match n {
        Some(n) => Some(Const::Int(n)),
        None => None,
    }
}

/// What is left of `a`, from 0, when it is divided by `b`. None where `b` is 0.
fn modulo(a: i64, b: i64) -> Option<i64>
    ensures { SomeIff result (IsNonZero w64 b) (int_rem_euclid a b) }
{
    if b == 0 {
        None
    } else if b == -1 {
        Some(0)
    } else {
        Some(a.rem_euclid(b))
    }
}

/// `a` to the power `b`. None where `b` is negative, or the power is no int.
fn power(a: i64, b: i64) -> Option<i64>
    ensures { SomeIff result (IsNonNegative b × FitsSigned w64 (int_pow a (nat_abs b))) (int_pow a (nat_abs b)) }
{
    if b < 0 {
        return None;
    }
    let exponent = b.unsigned_abs();
    match u32::try_from(exponent) {
        Ok(exponent) => a.checked_pow(exponent),
        Err(_) => large_power(a, exponent),
    }
}

/// `a` to a power of 64 or more: only those of -1, 0 and 1 are ints.
fn large_power(a: i64, exponent: u64) -> Option<i64>
    requires { 64 ≤ exponent }
    ensures { SomeIff result (FitsSigned w64 (int_pow a exponent)) (int_pow a exponent) }
{
    let size = a.unsigned_abs();
    if size > 1 {
        None
    } else if exponent % 2 == 0 {
        Some(size as i64)
    } else {
        Some(a)
    }
}

fn fold_strings(a: Bytes, operator: Operator, b: &Bytes) -> Result<Option<Const>, Memory>
    ensures { IfOk result (λ folded. folded ≡ string_row operator a b.now) }
{
    match operator {
        Operator::Concat => Ok(Some(Const::Str(joined(a, b)?))),
        _ => Ok(fold_order(a.cmp(b), operator)),
    }
}

fn joined(a: Bytes, b: &Bytes) -> Result<Bytes, Memory>
    ensures { IfOk result (λ whole. whole ≡ a ++ b.now) }
{
    let mut whole = a.into_vec();
    whole.extend_from_slice(b.as_slice())?;
    Ok(Bytes::from_vec(whole))
}

/// What an operator gives of two constants of which only equality is asked.
fn fold_equality(same: bool, operator: Operator) -> Option<Const>
    ensures { result ≡ equality_row operator same }
{
    match operator {
        Operator::Equal => Some(Const::Bool(same)),
        Operator::NotEqual => Some(Const::Bool(!same)),
        _ => None,
    }
}

/// What a comparison gives of two constants in this order.
fn fold_order(order: Ordering, operator: Operator) -> Option<Const>
    ensures { result ≡ order_row operator order }
{
    match compared(order, operator) {
        Some(holds) => Some(Const::Bool(holds)),
        None => None,
    }
}

fn compared(order: Ordering, operator: Operator) -> Option<bool>
    ensures { result ≡ comparison operator order }
{
    match operator {
        Operator::Less => Some(order.is_lt()),
        Operator::LessEqual => Some(!order.is_gt()),
        Operator::Equal => Some(order.is_eq()),
        Operator::GreaterEqual => Some(!order.is_lt()),
        Operator::Greater => Some(order.is_gt()),
        Operator::NotLess => Some(!order.is_lt()),
        Operator::NotLessEqual => Some(order.is_gt()),
        Operator::NotEqual => Some(!order.is_eq()),
        Operator::NotGreaterEqual => Some(order.is_lt()),
        Operator::NotGreater => Some(!order.is_gt()),
        _ => None,
    }
}

/// What a prefix operator gives for a constant, if it gives one.
pub fn fold_prefix(operator: Prefix, operand: &Const) -> Option<Const>
    ensures { IsPrefixed operator operand.now result }
{
    match operator {
        Prefix::Minus => match operand {
            Const::Int(n) => as_int(n.checked_neg()),
            _ => None,
        },
        Prefix::Not => match operand {
            Const::Bool(b) => Some(Const::Bool(!*b)),
            _ => None,
        },
    }
}
