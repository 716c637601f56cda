//! What where clauses and type sets give of type parameters.

ghost use Rattle.std.specs.Prelude.{◌≡◌, ◌∷◌, [], ℕ, List, length, OnOk};
ghost use Rattle.clu_types.specs.declared.term.Term.{Term};
ghost use Rattle.clu_head.specs.declared.head.Demanded.{Demanded};
ghost use Rattle.clu_operations.specs.Bundles.{WantedBelow};
ghost use Rattle.clu_operations.specs.Entering.{PutsOne, IsEntering, also};
ghost use Rattle.clu_operations.specs.Finding.{Extends, IsBelowIf};
ghost use Rattle.clu_operations.specs.Wished.{AreHeads, FindsNothing, IsFinding};
ghost use Rattle.clu_operations.specs.Words.{with_name};
ghost use Rattle.clu_operations.specs.Clauses.{given_by, is_set_kind, is_set_round, count_round, set_round, given};

use crate::finding::Finding;
use crate::found::{FoundId, Given};
use crate::words::NameId;
use clu_base::Memory;
use clu_bindings::{File, Headed, number_at};
use clu_head::Demanded;
use clu_tree::NodeKind;
use clu_types::TypeId;
use std::alloc::Global;

fn put(finding: &mut Finding, key: Given, wanted: Option<TypeId>) -> Result<(), Memory>
    ensures { OnOk result (PutsOne finding.old finding.new key wanted) }
{
    let from = finding.asked_count();
    let found = finding.keep(wanted, from)?;
    finding.given.insert(key, found)?;
    Ok(())
}

/// Enters that the node n asks this, which asks nothing itself; of two of one name the first counts.
fn enter_one(alloc: Global, finding: &mut Finding, n: u32, demand: &Demanded) -> Result<(), Memory>
    ensures entered { (asked : ℕ → List Demanded) (terms : List Term) → IsBelowIf (length terms) demand.now.wanted → IsEntering asked terms finding.old → OnOk result (IsEntering (also n (demand.now ∷ []) asked) terms finding.new) }
    ensures words { OnOk result (finding.new.words ≡ with_name finding.old.words demand.now.operation) }
{
    let key = Given {
        node: n,
        parameter: demand.parameter,
        operation: finding.words.number(alloc, &demand.operation)?,
    };
    if finding.given.contains_key(&key) {
        Ok(())
    } else {
        put(finding, key, demand.wanted)
    }
}

/// Enters what the node n asks.
fn enter(alloc: Global, finding: &mut Finding, n: u32, demands: &[Demanded]) -> Result<(), Memory>
    ensures entered { (asked : ℕ → List Demanded) (terms : List Term) → WantedBelow (length terms) demands.now → IsEntering asked terms finding.old → OnOk result (IsEntering (also n demands.now asked) terms finding.new) }
    ensures words { OnOk result (Extends finding.old.words finding.new.words) }
{
    for demand in demands {
        enter_one(alloc, finding, n, demand)?;
    }
    Ok(())
}

/// Enters what the nodes of a file ask. The only error is that memory runs out.
pub fn enter_given(headed: Headed<'_>, finding: &mut Finding) -> Result<(), Memory>
    ensures found { (terms : List Term) → AreHeads headed.entry (length terms) → FindsNothing finding.old → OnOk result (IsFinding headed.entry terms finding.new) }
    ensures words { OnOk result (Extends finding.old.words finding.new.words) }
{
    for n in 0..headed.file.syntax.tree().len() {
        enter(headed.file.alloc, finding, n, headed.heads.asked.of(n))?;
    }
    Ok(())
}

/// What is given of a type parameter by a node.
pub fn given_by(
    finding: &Finding,
    node: Option<u32>,
    parameter: u32,
    operation: NameId,
) -> Option<FoundId>
    ensures { result ≡ given_by finding.now node parameter operation }
{
    let key = Given {
        node: node?,
        parameter,
        operation,
    };
    finding.given.get(&key).copied()
}

fn is_set_kind(kind: NodeKind) -> bool
    ensures { result ≡ is_set_kind kind }
{
    match kind {
        NodeKind::TypeSet => true,
        _ => false,
    }
}

/// Whether the node `set` is a TypeSet in which the node n stands.
fn is_set_round(file: File<'_>, n: u32, set: u32) -> bool
    ensures { result ≡ is_set_round file.entry n set }
{
    is_set_kind(file.kind(set)) && file.round(set).first <= n && n <= set
}

/// How many parameters the module round the node n has.
fn count_round(file: File<'_>, n: u32) -> u32
    ensures { result ≡ count_round file.entry n }
{
    match file.round(n).unit {
        Some(unit) => number_at(file.bindings.parameters.counts.as_slice(), unit as usize),
        None => 0,
    }
}

/// The type set whose variable has this number, if the node n stands in it.
pub fn set_round(file: File<'_>, n: u32, parameter: u32) -> Option<u32>
    ensures { result ≡ set_round file.entry n parameter }
{
    let count = count_round(file, n);
    if count < parameter && is_set_round(file, n, parameter - count - 1) {
        Some(parameter - count - 1)
    } else {
        None
    }
}

/// What is given at the node n of the type parameter of this number: what the routine gives before what the cluster gives, and
/// behind these what a type set asks in which the node stands.
pub fn given(
    headed: Headed<'_>,
    finding: &Finding,
    n: u32,
    parameter: u32,
    operation: NameId,
) -> Option<FoundId>
    ensures { result ≡ given headed.entry.file finding.now n parameter operation }
{
    let file = headed.file;
    let round = file.round(n);
    let by_routine = given_by(finding, round.routine, parameter, operation);
    let by_cluster = given_by(finding, round.cluster, parameter, operation);
    let by_set = given_by(finding, set_round(file, n, parameter), parameter, operation);
    by_routine.or(by_cluster).or(by_set)
}
