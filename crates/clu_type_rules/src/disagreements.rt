//! Demands of where clauses and type sets that ask for an operation of a parameter that was asked for with another type.

ghost use Rattle.std.specs.Prelude.{◌≡◌, [], ◌∷◌, true, false, fold, replicate, set, IfOk, OnOk};
ghost use Rattle.std.specs.HashMap.{get};
ghost use Rattle.clu_type_rules.specs.Disagreeing.{same, is_other_than, seen_with, marked, operation_of, with_demand, with_notes, with_clauses, demands_in, state, Notes};

use clu_base::{Bytes, Memory};
use clu_head::{Asked, Demanded};
use clu_types::TypeId;
use std::alloc::Global;
use std::collections::HashMap;

/// An operation of a parameter.
#[derive(Drop, PartialEq, Eq, Hash)]
pub struct Operation {
    pub parameter: u32,
    pub name: Bytes,
}

/// The type with which an operation was asked for; None if with several.
type Seen = HashMap<Operation, Option<TypeId>>;

fn is_other_than(wanted: TypeId, seen: Option<Option<TypeId>>) -> bool
    ensures { result ≡ is_other_than wanted seen }
{
    match seen {
        Some(Some(before)) => before.0 != wanted.0,
        Some(None) => true,
        None => false,
    }
}

/// The type with which it was asked for, now that it is with this one.
fn seen_with(wanted: TypeId, seen: Option<Option<TypeId>>) -> Option<TypeId>
    ensures { result ≡ seen_with wanted seen }
{
    match seen {
        Some(Some(before)) => {
            if before.0 == wanted.0 {
                Some(wanted)
            } else {
                None
            }
        }
        Some(None) => None,
        None => Some(wanted),
    }
}

fn mark(bits: &mut Vec<bool>, n: u32)
    ensures { bits.new.items ≡ set bits.old.items n true }
{
    if (n as usize) < bits.len() {
        bits[n as usize] = true;
    }
}

fn mark_if(is: bool, bits: &mut Vec<bool>, n: u32)
    ensures { bits.new.items ≡ marked is n bits.old.items }
{
    if is {
        mark(bits, n);
    }
}

/// Notes that a node asks for an operation with this type, and marks the node if one before it did with another.
fn note(
    seen: &mut Seen,
    bits: &mut Vec<bool>,
    operation: Operation,
    wanted: TypeId,
    node: u32,
) -> Result<(), Memory>
    ensures { OnOk result (Notes (λ before. record { operation = operation; wanted = wanted; node = node } ∷ before) (state (get same seen.old) bits.old.items) (state (get same seen.new) bits.new.items)) }
{
    let before = seen.get(&operation).copied();
    mark_if(is_other_than(wanted, before), bits, node);
    seen.insert(operation, seen_with(wanted, before))?;
    Ok(())
}

fn operation_of(alloc: Global, demand: &Demanded) -> Result<Operation, Memory>
    ensures { IfOk result (λ made. made ≡ operation_of demand.now) }
{
    Ok(Operation {
        parameter: demand.parameter,
        name: demand.operation.copy(alloc)?,
    })
}

/// The same of a demand. One for a type that is refused disagrees with none.
fn note_demand(
    alloc: Global,
    seen: &mut Seen,
    bits: &mut Vec<bool>,
    demand: &Demanded,
) -> Result<(), Memory>
    ensures { OnOk result (Notes (λ before. with_demand before demand.now) (state (get same seen.old) bits.old.items) (state (get same seen.new) bits.new.items)) }
{
    match demand.wanted {
        Some(wanted) => {
            let operation = operation_of(alloc, demand)?;
            note(seen, bits, operation, wanted, demand.node)
        }
        None => Ok(()),
    }
}

fn note_demands(
    alloc: Global,
    seen: &mut Seen,
    bits: &mut Vec<bool>,
    demands: &[Demanded],
) -> Result<(), Memory>
    ensures { OnOk result (Notes (λ before. fold with_demand before demands.now) (state (get same seen.old) bits.old.items) (state (get same seen.new) bits.new.items)) }
{
    for demand in demands {
        note_demand(alloc, seen, bits, demand)?;
    }
    Ok(())
}

/// Marks the nodes of one clause or set of which a demand disagrees with one before it.
fn note_together(alloc: Global, bits: &mut Vec<bool>, demands: &[Demanded]) -> Result<(), Memory>
    ensures { OnOk result (bits.new.items ≡ with_notes (fold with_demand [] demands.now) bits.old.items) }
{
    let mut seen = HashMap::new(alloc);
    note_demands(alloc, &mut seen, bits, demands)
}

/// The same; most nodes are no clause and no set.
fn note_clause(alloc: Global, bits: &mut Vec<bool>, demands: &[Demanded]) -> Result<(), Memory>
    ensures { OnOk result (bits.new.items ≡ with_notes (fold with_demand [] demands.now) bits.old.items) }
{
    match demands {
        [] => Ok(()),
        [_, ..] => note_together(alloc, bits, demands),
    }
}

/// For each of so many nodes whether a demand of it disagrees with one before it in its clause or set. The only error is that
/// memory runs out.
pub fn disagreeing(alloc: Global, asked: &Asked, nodes: u32) -> Result<Vec<bool>, Memory>
    ensures { IfOk result (λ made. made.items ≡ with_clauses asked.now nodes (replicate nodes false)) }
{
    let mut disagrees = vec![in alloc; false; nodes as usize]?;
    for n in 0..nodes {
        note_clause(alloc, &mut disagrees, asked.of(n))?;
    }
    Ok(disagrees)
}
