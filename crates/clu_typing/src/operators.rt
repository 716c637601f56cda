//! The operations for which operators stand (CLU Reference Manual, section 10).

ghost use Rattle.std.specs.Prelude.{◌≡◌, option_map};
ghost use Rattle.clu_typing.specs.Operators.{infix_operation, is_negated, prefix_operation};

use clu_syntax::{Operator, Sign};

/// The operation of an operator; of a comparison with `~` that of the comparison, and none of `cand` and `cor`.
#[tactic(auto, unfolding(crate::specs::Operators::infix_operation))]
pub fn infix_operation(operator: Operator) -> Option<&'static str>
    ensures { option_map (λ word. word.now) result ≡ infix_operation operator }
{
    match operator {
        Operator::Power => Some("power"),
        Operator::Multiply => Some("mul"),
        Operator::Divide => Some("div"),
        Operator::Remainder => Some("mod"),
        Operator::Add => Some("add"),
        Operator::Subtract => Some("sub"),
        Operator::Concatenate => Some("concat"),
        Operator::Less | Operator::NotLess => Some("lt"),
        Operator::AtMost | Operator::NotAtMost => Some("le"),
        Operator::Equal | Operator::NotEqual => Some("equal"),
        Operator::AtLeast | Operator::NotAtLeast => Some("ge"),
        Operator::Greater | Operator::NotGreater => Some("gt"),
        Operator::And => Some("and"),
        Operator::Or => Some("or"),
        Operator::Cand | Operator::Cor => None,
    }
}

/// Whether an operator is a comparison with `~`.
pub fn is_negated(operator: Operator) -> bool
    ensures { result ≡ is_negated operator }
{
    match operator {
        Operator::NotLess
        | Operator::NotAtMost
        | Operator::NotEqual
        | Operator::NotAtLeast
        | Operator::NotGreater => true,
        _ => false,
    }
}

#[tactic(auto, unfolding(crate::specs::Operators::prefix_operation))]
pub fn prefix_operation(sign: Sign) -> &'static str
    ensures { result.now ≡ prefix_operation sign }
{
    match sign {
        Sign::Not => "not",
        Sign::Minus => "minus",
    }
}
