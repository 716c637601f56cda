//! Whether a node violates a rule, by the rules' numbers.

ghost use Rattle.std.specs.Prelude.{◌≡◌, ◌≤◌, ℕ, All, IfSome, IsFalse, IsTrue, None, Some, find, is_some, slice_get};
ghost use Rattle.clu_base.specs.Rules.{number_of};
ghost use Rattle.clu_tree.specs.declared.node.Node.{Node};
ghost use Rattle.clu_syntax.specs.Items.{Item};
ghost use Rattle.clu_name_rules.specs.Constructors.{ValuesAscend};
ghost use Rattle.clu_name_rules.specs.Closed.{ends_as_named, has_long_name, is_definition};
ghost use Rattle.clu_check_mod.specs.Asking.{RuleAscends, RulesAscend, is_violated, is_violated_of_types};
ghost use Rattle.clu_check_mod.specs.Walks.{IsPassed};

use clu_base::Rule;
use clu_name_rules::{Tables, v4, v5, v6, v7, v8, v9, v10, v17, v19, v31, v33, v34, v35, v37};
use clu_type_rules::{
    Known, v11, v12, v13, v14, v15, v16, v18, v20, v21, v22, v23, v24, v25, v26, v27, v28, v29,
    v30, v32, v36,
};

/// Whether the node n violates this rule, if it is one of those by which types are refused. `bad` says of each Equate whether it
/// is bad.
#[tactic(auto, unfolding(crate::specs::Asking::is_violated_of_types))]
fn violates_of_types(t: &Tables<'_>, bad: &[bool], n: u32, rule: Rule) -> bool
    ensures exact { (items : ℕ → Item) → ValuesAscend t.now → result ≡ is_violated_of_types t.now bad.now items n rule }
    ensures number { IsTrue result → 4 ≤ number_of rule }
    ensures lengths { rule ≡ Rule.LiteralRange → (node : Node) → slice_get t.now.file.syntax.now n ≡ Some node → IsFalse result → IsFalse (has_long_name node) }
{
    match rule {
        Rule::LiteralRange => v4(t, n),
        Rule::UnknownName => v5(t, n),
        Rule::CircularEquate => v7(t, n),
        Rule::NotConstant => v8(t, bad, n),
        Rule::NotType => v9(t, bad, n),
        Rule::Real => v10(t, n),
        Rule::Selectors => v17(t, n),
        Rule::ParameterKind => v19(t, n),
        Rule::CvtPlace => v31(t, n),
        _ => false,
    }
}

/// Whether the node n violates this rule. `bad` says of each Equate and of each Decl of an arm whether it is bad.
#[tactic(auto, unfolding(crate::specs::Asking::is_violated, crate::specs::Asking::is_violated_of_types))]
fn violates(k: &Known<'_>, bad: &[bool], n: u32, rule: Rule) -> bool
    ensures exact { (items : ℕ → Item) → ValuesAscend k.now.tables → RuleAscends k.now n rule → result ≡ is_violated k.now bad.now items n rule }
    ensures number { IsTrue result → 4 ≤ number_of rule }
    ensures lengths { rule ≡ Rule.LiteralRange → (node : Node) → slice_get k.now.tables.file.syntax.now n ≡ Some node → IsFalse result → IsFalse (has_long_name node) }
    ensures end { rule ≡ Rule.EndName → (node : Node) → slice_get k.now.tables.file.syntax.now n ≡ Some node → IsTrue (is_definition node.kind) → IsFalse result → IsTrue (ends_as_named node) }
{
    let t = &k.tables;
    match rule {
        Rule::DefinedTwice => v6(t, bad, k.disagrees, n),
        Rule::NoOperation => v11(k, n),
        Rule::ArgumentCount => v12(k, n),
        Rule::ArgumentType => v13(k, n),
        Rule::ResultCount => v14(k, n),
        Rule::AssignType => v15(k, n),
        Rule::NotBool => v16(k, n),
        Rule::WhereNotMet => v18(k, n),
        Rule::NotInTypeSet => v20(k, n),
        Rule::NotTagged => v21(k, n),
        Rule::TagMissingOrTwice => v22(k, n),
        Rule::ArmTypes => v23(k, n),
        Rule::ArmTwice => v24(k, n),
        Rule::SignalNotListed => v25(k, n),
        Rule::SignalTypes => v26(k, bad, n),
        Rule::ExitNoArm => v27(k, n),
        Rule::NotInLoop => v28(t.file, n),
        Rule::NotInIterator => v29(k, n),
        Rule::ReturnValues => v30(k, n),
        Rule::UpDown => v32(k, n),
        Rule::ExportMissing => v33(t, n),
        Rule::EndName => v34(t, n),
        Rule::RoutineTooLarge => v35(t, n),
        Rule::IteratorUse => v36(k, n),
        Rule::OwnPlace => v37(t, n),
        Rule::LiteralRange
        | Rule::UnknownName
        | Rule::CircularEquate
        | Rule::NotConstant
        | Rule::NotType
        | Rule::Real
        | Rule::Selectors
        | Rule::ParameterKind
        | Rule::CvtPlace => violates_of_types(t, bad, n, rule),
        Rule::Token | Rule::Syntax | Rule::TooDeep => false,
    }
}

/// The first of the rules that the node n violates.
#[tactic(auto, using(crate::proofs::Closed::passed_more))]
pub fn least(k: &Known<'_>, bad: &[bool], n: u32, rules: &[Rule]) -> Option<Rule>
    ensures exact { (items : ℕ → Item) → ValuesAscend k.now.tables → RulesAscend k.now n rules.now → result ≡ find (is_violated k.now bad.now items n) rules.now }
    ensures number { IfSome result (λ rule. 4 ≤ number_of rule) }
    ensures passed { (node : Node) → slice_get k.now.tables.file.syntax.now n ≡ Some node → result ≡ None → All (IsPassed node) rules.now }
{
    for rule in rules {
        if violates(k, bad, n, *rule) {
            return Some(*rule);
        }
    }
    None
}

/// Whether the node n violates one of these rules, if they are some by which types are refused.
#[tactic(auto, using(crate::proofs::Finding::find_here, crate::proofs::Finding::find_next, crate::proofs::Finding::find_none))]
pub fn is_no_type(t: &Tables<'_>, bad: &[bool], n: u32, rules: &[Rule]) -> bool
    ensures { (items : ℕ → Item) → ValuesAscend t.now → result ≡ is_some (find (is_violated_of_types t.now bad.now items n) rules.now) }
{
    for rule in rules {
        if violates_of_types(t, bad, n, *rule) {
            return true;
        }
    }
    false
}
