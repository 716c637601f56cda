//! The two walks: which refusal comes first.

ghost use Rattle.std.specs.Prelude.{◌≡◌, ◌≤◌, ℕ, IfErr, IfSome, None, OnOk, Some, slice_get};
ghost use Rattle.clu_base.specs.Rules.{number_of};
ghost use Rattle.clu_syntax.specs.Items.{Item};
ghost use Rattle.clu_syntax.specs.Kinds.{kind_at};
ghost use Rattle.clu_syntax.specs.Rounds.{round_at};
ghost use Rattle.clu_name_rules.specs.Constructors.{ValuesAscend};
ghost use Rattle.clu_check_mod.specs.Answered.{IsNoLoss};
ghost use Rattle.clu_check_mod.specs.Asking.{RulesAscend};
ghost use Rattle.clu_check_mod.specs.Refusals.{IsOfTree, IsTold};
ghost use Rattle.clu_check_mod.specs.Walks.{AreClosed, IsClosedNode, WalkAscends, WalksAscend, fault_at, first_on, first_in, rules_of};

use crate::asking::least;
use crate::errors::CheckError;
use crate::rules::{Walk, rules_asked};
use clu_base::{Refused, Rule};
use clu_tree::Node;
use clu_type_rules::Known;

/// How much of a file is asked.
#[derive(Clone, Copy)]
pub enum Extent {
    /// The headings alone, by which specifications are entered.
    Headings,
    Whole,
}

/// The least rule that the node n violates of those that the walk asks there.
#[tactic(auto, using(crate::proofs::Closed::closed_node))]
fn fault_at(k: &Known<'_>, bad: &[bool], walk: Walk, n: u32, node: &Node) -> Option<Rule>
    requires { slice_get k.now.tables.file.syntax.now n ≡ Some node.now }
    ensures exact { (items : ℕ → Item) → ValuesAscend k.now.tables → RulesAscend k.now n (rules_of walk (kind_at k.now.tables.file.syntax.now n) (round_at k.now.tables.file.rounds.now n).heading) → result ≡ fault_at k.now bad.now items walk n }
    ensures number { IfSome result (λ rule. 4 ≤ number_of rule) }
    ensures closed { walk ≡ Walk.Rest → result ≡ None → IsClosedNode k.now.tables.file.syntax.now n }
{
    let round = k.tables.file.round(n);
    least(k, bad, n, rules_asked(walk, node.kind, round.heading))
}

/// One walk: refused at the first node that violates a rule which the walk asks there. Nodes come after their children, in the
/// order of the text.
#[tactic(auto, using(crate::proofs::Places::refused_at, crate::proofs::Closed::closed_more, crate::proofs::Closed::closed_all, crate::proofs::Finding::walk_here, crate::proofs::Finding::walk_end))]
fn walk_nodes(k: &Known<'_>, bad: &[bool], walk: Walk) -> Result<(), CheckError>
    ensures exact { (items : ℕ → Item) → ValuesAscend k.now.tables → WalkAscends k.now bad.now items walk → IsTold result (first_on k.now bad.now items walk) }
    ensures closed { walk ≡ Walk.Rest → OnOk result (AreClosed k.now.tables.file.syntax.now) }
    ensures refused { IfErr result (IsOfTree k.now.tables.file.syntax.now) }
    ensures decided { IfErr result IsNoLoss }
{
    let tree = k.tables.file.syntax.tree();
    for n in 0..tree.len() {
        let node = tree.node(n);
        if let Some(rule) = fault_at(k, bad, walk, n, node) {
            let place = node.place;
            return Err(CheckError::Refused(Refused { rule, place }));
        }
    }
    Ok(())
}

/// The walk over the headings, and if so much is asked, the walk over the rest.
#[tactic(auto, using(crate::proofs::Finding::told_at_once, crate::proofs::Finding::told_then))]
pub fn ask_rules(k: &Known<'_>, bad: &[bool], extent: Extent) -> Result<(), CheckError>
    ensures exact { (items : ℕ → Item) → ValuesAscend k.now.tables → WalksAscend k.now bad.now items extent → IsTold result (first_in k.now bad.now items extent) }
    ensures closed { extent ≡ Extent.Whole → OnOk result (AreClosed k.now.tables.file.syntax.now) }
    ensures refused { IfErr result (IsOfTree k.now.tables.file.syntax.now) }
    ensures decided { IfErr result IsNoLoss }
{
    walk_nodes(k, bad, Walk::Headings)?;
    match extent {
        Extent::Headings => Ok(()),
        Extent::Whole => walk_nodes(k, bad, Walk::Rest),
    }
}
