//! The pass over the nodes of a file, in the order of their numbers: of each what is known by what is known of the nodes before.

ghost use Rattle.std.specs.Prelude.{◌≡◌, ℕ, List, length, IfOk, OnOk};
ghost use Rattle.clu_types.specs.Arena.{IsArena, Grows};
ghost use Rattle.clu_types.specs.declared.term.Term.{Term};
ghost use Rattle.clu_syntax.specs.Items.{Item};
ghost use Rattle.clu_typing.specs.Invoking.{lists_of, no_lists};
ghost use Rattle.clu_typing.specs.Pass.{IsNoted, IsNext, HasNothing, KnowsNothing, AreKnown, HaveTypes, IsSound};

use crate::applied::{Applied, applied_at};
use crate::facts::{Facts, Invocations};
use crate::invoked::invoked_at;
use crate::invoking::note_invocations;
use crate::raises::raises_at;
use crate::raising::Raising;
use crate::typing::node_type;
use clu_base::Memory;
use clu_bindings::Headed;
use clu_operations::{Finding, enter_given};
use clu_types::TypeArena;
use std::alloc::Global;

fn no_invocations(alloc: Global) -> Invocations
    ensures { lists_of result ≡ no_lists }
{
    Invocations {
        starts: Vec::new(alloc),
        operation_starts: Vec::new(alloc),
        asker_starts: Vec::new(alloc),
        all: Vec::new(alloc),
        arguments: Vec::new(alloc),
        operations: Vec::new(alloc),
        askers: Vec::new(alloc),
    }
}

fn no_facts(alloc: Global) -> Result<Box<Facts>, Memory>
    ensures { IfOk result (λ facts. HasNothing facts.value) }
{
    let facts = Facts {
        types: Vec::new(alloc),
        invocations: no_invocations(alloc),
        invoked: Vec::new(alloc),
        raises: Vec::new(alloc),
        raising: Raising::new(alloc),
        finding: Finding::new(alloc),
    };
    Ok(Box::new(alloc, facts)?)
}

/// Takes the memory for where the invocations of so many nodes begin.
fn reserve_starts(list: &mut Invocations, nodes: usize) -> Result<(), Memory>
    ensures { lists_of list.new ≡ lists_of list.old }
{
    list.starts.reserve(nodes)?;
    list.operation_starts.reserve(nodes)?;
    list.asker_starts.reserve(nodes)?;
    Ok(())
}

/// Takes the memory for the tables of so many nodes at once.
fn reserve(facts: &mut Facts, nodes: usize) -> Result<(), Memory>
    ensures { HasNothing facts.old → OnOk result (HasNothing facts.new) }
{
    facts.types.reserve(nodes)?;
    facts.invoked.reserve(nodes)?;
    facts.raises.reserve(nodes)?;
    reserve_starts(&mut facts.invocations, nodes)
}

/// Notes the type of the node n, and what is invoked, named and asked there. Gives that for which it stands.
fn note_known(
    headed: Headed<'_>,
    types: &mut TypeArena,
    facts: &mut Facts,
    n: u32,
) -> Result<Applied, Memory>
    ensures noted { (items : ℕ → Item) → IfOk result (IsNoted headed.entry items n types.old types.new facts.old facts.new) }
    ensures kept { Grows types.old types.new }
{
    let applied = applied_at(headed, types, facts.types.as_slice(), &mut facts.finding, n)?;
    let of = node_type(
        headed,
        types,
        facts.types.as_slice(),
        &mut facts.finding,
        applied,
        n,
    )?;
    facts.types.push(of)?;
    note_invocations(
        headed,
        types,
        facts.types.as_slice(),
        &mut facts.finding,
        &mut facts.invocations,
        applied,
        n,
    )?;
    let invoked = invoked_at(headed.file, types, facts.invoked.as_slice(), applied, n);
    facts.invoked.push(invoked)?;
    Ok(applied)
}

/// Notes all that is known of the node n.
fn note_node(
    headed: Headed<'_>,
    types: &mut TypeArena,
    facts: &mut Facts,
    n: u32,
) -> Result<(), Memory>
    ensures next { (items : ℕ → Item) → OnOk result (IsNext headed.entry items n types.old types.new facts.old facts.new) }
    ensures kept { Grows types.old types.new }
{
    let applied = note_known(headed, types, facts, n)?;
    let raised = raises_at(headed, types, facts, applied, n)?;
    facts.raises.push(raised)?;
    Ok(())
}

fn note_nodes(headed: Headed<'_>, types: &mut TypeArena, facts: &mut Facts) -> Result<(), Memory>
    ensures known { (items : ℕ → Item) (first : List Term) → KnowsNothing headed.entry first types.old facts.old → OnOk result (AreKnown headed.entry items first (length headed.entry.file.syntax.now) types.new facts.new) }
    ensures kept { Grows types.old types.new }
{
    for n in 0..headed.file.syntax.tree().len() {
        note_node(headed, types, facts, n)?;
    }
    Ok(())
}

/// Enters the first sets of raises, and what where clauses give.
fn enter_first(headed: Headed<'_>, types: &mut TypeArena, facts: &mut Facts) -> Result<(), Memory>
    ensures nothing { HasNothing facts.old → OnOk result (KnowsNothing headed.entry types.old types.new facts.new) }
    ensures kept { Grows types.old types.new }
{
    let words = &mut facts.finding.words;
    facts.raising.begin(headed.file.alloc, types, words)?;
    enter_given(headed, &mut facts.finding)
}

fn note_all(headed: Headed<'_>, types: &mut TypeArena, facts: &mut Facts) -> Result<(), Memory>
    ensures known { (items : ℕ → Item) → HasNothing facts.old → OnOk result (AreKnown headed.entry items types.old (length headed.entry.file.syntax.now) types.new facts.new) }
    ensures sound { HasNothing facts.old → HaveTypes headed.entry (length types.old) → IsArena types.new → OnOk result (IsSound headed.entry types.new facts.new) }
    ensures kept { Grows types.old types.new }
{
    reserve(facts, headed.file.syntax.tree().len() as usize)?;
    enter_first(headed, types, facts)?;
    note_nodes(headed, types, facts)
}

/// What is known of the nodes of a file, with types of the arena of its values. The only error is that memory runs out.
pub fn facts_of(headed: Headed<'_>, types: &mut TypeArena) -> Result<Box<Facts>, Memory>
    ensures known { (items : ℕ → Item) → IfOk result (λ facts. AreKnown headed.entry items types.old (length headed.entry.file.syntax.now) types.new facts.value) }
    ensures sound { HaveTypes headed.entry (length types.old) → IsArena types.new → IfOk result (λ facts. IsSound headed.entry types.new facts.value) }
    ensures kept { Grows types.old types.new }
{
    let mut facts = no_facts(headed.file.alloc)?;
    note_all(headed, types, &mut facts)?;
    Ok(facts)
}
