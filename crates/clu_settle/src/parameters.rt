//! The numbers of parameters.

ghost use Rattle.std.specs.Prelude.{◌≡◌, ◌&&◌, ℕ, if◌then◌else◌, [], OnOk, IfOk, Some, length, get_or};
ghost use Rattle.clu_names.specs.Scopes.{next, kind_at_parent};
ghost use Rattle.clu_settle.specs.Parameters.{parent_round, is_of_module, is_parameter, is_unit, count_in, is_counted, counted, numbers_to, AreNumbered};

use clu_base::Memory;
use clu_names::Declared;
use clu_syntax::Round;
use clu_tree::{NodeKind, Tree};
use std::alloc::Global;

/// For each declaration the number of the parameter that it is, and for each Module node how many it has.
#[derive(Drop)]
pub struct Parameters {
    pub numbers: Vec<u32>,
    pub counts: Vec<u32>,
}

/// The kind of a node; File if there is none.
pub fn kind_of(tree: &Tree, n: Option<u32>) -> NodeKind
    ensures { result ≡ kind_at_parent tree.now n }
{
    match n {
        Some(n) => {
            if n < tree.len() {
                tree.node(n).kind
            } else {
                NodeKind::File
            }
        }
        None => NodeKind::File,
    }
}

fn parent_of(rounds: &[Round], n: Option<u32>) -> Option<u32>
    ensures { result ≡ parent_round rounds.now n }
{
    match n {
        Some(n) => match rounds.get(n as usize) {
            Some(round) => round.parent,
            None => None,
        },
        None => None,
    }
}

fn is_of_module(kind: NodeKind, outer: NodeKind) -> bool
    ensures { result ≡ is_of_module kind outer }
{
    match kind {
        NodeKind::Parm => match outer {
            NodeKind::Module => true,
            _ => false,
        },
        _ => false,
    }
}

/// Whether the node is a Parm of a module, and of no routine of a cluster.
fn is_parameter(tree: &Tree, rounds: &[Round], n: u32) -> bool
    ensures { result ≡ is_parameter tree.now rounds.now n }
{
    let outer = parent_of(rounds, parent_of(rounds, Some(n)));
    is_of_module(kind_of(tree, Some(n)), kind_of(tree, outer))
}

/// What is kept for a module.
pub fn count_in(counts: &[u32], unit: Option<u32>) -> u32
    ensures { result ≡ count_in counts.now unit }
{
    match unit {
        Some(unit) => match counts.get(unit as usize) {
            Some(count) => *count,
            None => 0,
        },
        None => 0,
    }
}

/// Counts one more of the module `unit`.
fn count_one(counts: &mut [u32], unit: Option<u32>)
    ensures counts { (u : ℕ) → get_or counts.new u 0 ≡ (if is_unit (length counts.old) u unit then next (get_or counts.old u 0) else get_or counts.old u 0) }
{
    if let Some(unit) = unit {
        let unit = unit as usize;
        if unit < counts.len() {
            counts[unit] = counts[unit].saturating_add(1);
        }
    }
}

/// The number of a declaration, which is counted if it is a parameter.
fn number_one(counts: &mut [u32], tree: &Tree, rounds: &[Round], one: &Declared) -> u32
    requires size { length counts.old ≡ length tree.now }
    ensures counts { (u : ℕ) → get_or counts.new u 0 ≡ (if is_counted tree.now rounds.now u (Some one.now) then next (get_or counts.old u 0) else get_or counts.old u 0) }
    ensures number { result ≡ (if is_parameter tree.now rounds.now one.now.node then count_in counts.new one.now.unit else 0) }
{
    if is_parameter(tree, rounds, one.node) {
        count_one(counts, one.unit);
        count_in(counts, one.unit)
    } else {
        0
    }
}

#[tactic(auto, unfolding(crate::specs::Parameters::numbers_to, crate::specs::Parameters::counted))]
fn number_all(
    numbers: &mut Vec<u32>,
    counts: &mut [u32],
    tree: &Tree,
    rounds: &[Round],
    declared: &[Declared],
) -> Result<(), Memory>
    requires none { numbers.old.items ≡ [] }
    requires size { length counts.old ≡ length tree.now }
    requires zero { (u : ℕ) → get_or counts.old u 0 ≡ 0 }
    ensures numbers { OnOk result (numbers.new.items ≡ numbers_to tree.now rounds.now declared.now (length declared.now)) }
    ensures counts { OnOk result ((u : ℕ) → get_or counts.new u 0 ≡ counted tree.now rounds.now declared.now u (length declared.now)) }
{
    for place in 0..declared.len() {
        numbers.push(number_one(counts, tree, rounds, &declared[place]))?;
    }
    Ok(())
}

/// The numbers of the parameters of each module, from 1, in the order of the text, where `rounds` is what surrounds the
/// nodes. A Parm in a routine of a cluster is none. The only error is that memory runs out.
pub fn number_parameters(
    alloc: Global,
    tree: &Tree,
    rounds: &[Round],
    declared: &[Declared],
) -> Result<Parameters, Memory>
    ensures { IfOk result (AreNumbered tree.now rounds.now declared.now) }
{
    let mut counts = vec![in alloc; 0u32; tree.len() as usize]?;
    let mut numbers = Vec::new(alloc);
    number_all(&mut numbers, &mut counts, tree, rounds, declared)?;
    Ok(Parameters { numbers, counts })
}
