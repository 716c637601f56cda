//! What holds of the order of refusals. The functions do nothing: their contracts are the laws.

ghost use Rattle.std.specs.Prelude.{ℕ, Bool, List, Option};
ghost use Rattle.clu_base.specs.declared.rules.Rule.{Rule};
ghost use Rattle.clu_checking.specs.Rules.{least};
ghost use Rattle.clu_checking.specs.Refusals.{first_among};
ghost use Rattle.clu_checking.specs.Order.{IsLeast, IsFirst};

/// The rule that is found at a node is the least of those that are violated there; if none is found, none is violated.
pub fn least_rule()
    ensures { (violated : Rule → Bool) (rules : List Rule) → IsLeast violated rules (least violated rules) }
{}

/// The node that is found on a walk is the first that has a fault; if none is found, none has one.
pub fn first_node()
    ensures { (fault : ℕ → Option Rule) (nodes : List ℕ) → IsFirst fault nodes (first_among fault nodes) }
{}
