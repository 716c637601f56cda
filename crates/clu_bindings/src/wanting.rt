//! What is wanted at each node, and after which names brackets hold actual parameters.

ghost use Rattle.std.specs.Prelude.{◌≡◌, IfOk, slice_get};
ghost use Rattle.clu_bindings.specs.Wanting.{is_type, stands_for_set, takes_actuals, takes_first, is_taker, takers_of, wanted_in_brackets, wanted_below, wanted_at, wanted_of};

use crate::meaning::Meaning;
use crate::nodes::{children_of, round_of};
use crate::tables::{is_set, items_of, optional_at};
use crate::wanted::{Wanted, wanted_by_role};
use clu_base::Memory;
use clu_head::is_at;
use clu_names::Names;
use clu_settle::Value;
use clu_syntax::{Role, Round};
use clu_tree::{NodeKind, Tree};
use std::alloc::Global;

fn is_type(values: &[Value], n: u32) -> bool
    ensures { result ≡ is_type (slice_get values.now n) }
{
    match values.get(n as usize) {
        Some(Value::Type(_)) => true,
        _ => false,
    }
}

fn stands_for_set(sets: &[Option<u32>], bound: Option<usize>) -> bool
    ensures { result ≡ stands_for_set sets.now bound }
{
    match bound {
        Some(place) => optional_at(sets, place).is_some(),
        None => false,
    }
}

/// Brackets after a name hold actual parameters, and no index: it is a module's, or stands for a type or a type set.
fn takes_actuals(
    values: &[Value],
    sets: &[Option<u32>],
    meaning: Meaning,
    bound: Option<usize>,
) -> bool
    ensures { result ≡ takes_actuals values.now sets.now meaning bound }
{
    match meaning {
        Meaning::Equate(right) => is_type(values, right) || stands_for_set(sets, bound),
        Meaning::TypeSet | Meaning::TypeParameter(_) | Meaning::Module(_) => true,
        _ => false,
    }
}

/// The same of the first of these names.
fn takes_first(
    values: &[Value],
    sets: &[Option<u32>],
    meanings: &[Meaning],
    bounds: &[Option<usize>],
) -> bool
    ensures { result ≡ takes_first values.now sets.now meanings.now bounds.now }
{
    match meanings {
        [meaning, ..] => match bounds {
            [bound, ..] => takes_actuals(values, sets, *meaning, *bound),
            [] => false,
        },
        [] => false,
    }
}

/// Whether the node n is a Name and brackets after it hold actual parameters.
fn is_taker(
    tree: &Tree,
    names: &Names,
    values: &[Value],
    meanings: &[Meaning],
    sets: &[Option<u32>],
    n: u32,
) -> bool
    ensures { result ≡ is_taker values.now sets.now tree.now names.now meanings.now n }
{
    let starts = names.starts.as_slice();
    let meanings = items_of(meanings, starts, n);
    let bounds = items_of(names.bound.as_slice(), starts, n);
    is_at(tree, n, NodeKind::Name) && takes_first(values, sets, meanings, bounds)
}

/// For each node whether it is a Name and brackets after it hold actual parameters. The only error is that memory runs out.
#[tactic(auto, unfolding(crate::specs::Tables::table_to))]
pub fn takers_of(
    alloc: Global,
    tree: &Tree,
    names: &Names,
    values: &[Value],
    meanings: &[Meaning],
    sets: &[Option<u32>],
) -> Result<Vec<bool>, Memory>
    ensures { IfOk result (λ all. all.items ≡ takers_of values.now sets.now tree.now names.now meanings.now) }
{
    let mut all = Vec::with_capacity(alloc, tree.len() as usize)?;
    for n in 0..tree.len() {
        all.push(is_taker(tree, names, values, meanings, sets, n))?;
    }
    Ok(all)
}

/// What is wanted of the child n of an Index with these children.
fn wanted_in_brackets(takers: &[bool], children: &[u32], n: u32) -> Wanted
    ensures { result ≡ wanted_in_brackets takers.now children.now n }
{
    match children {
        [first, ..] => {
            if !is_set(takers, *first as usize) {
                Wanted::Object
            } else if *first == n {
                Wanted::NameWithActuals
            } else {
                Wanted::Constant
            }
        }
        [] => Wanted::Object,
    }
}

fn wanted_below(tree: &Tree, takers: &[bool], parent: Option<u32>, role: Role, n: u32) -> Wanted
    ensures { result ≡ wanted_below takers.now tree.now parent role n }
{
    match parent {
        Some(parent) => {
            if is_at(tree, parent, NodeKind::Index) {
                wanted_in_brackets(takers, children_of(tree, parent), n)
            } else {
                wanted_by_role(role)
            }
        }
        None => wanted_by_role(role),
    }
}

fn wanted_at(tree: &Tree, takers: &[bool], rounds: &[Round], n: u32) -> Wanted
    ensures { result ≡ wanted_at takers.now tree.now rounds.now n }
{
    let round = round_of(rounds, n);
    wanted_below(tree, takers, round.parent, round.role, n)
}

/// For each node what is wanted there. The only error is that memory runs out.
#[tactic(auto, unfolding(crate::specs::Tables::table_to))]
pub fn wanted_of(
    alloc: Global,
    tree: &Tree,
    rounds: &[Round],
    takers: &[bool],
) -> Result<Vec<Wanted>, Memory>
    ensures { IfOk result (λ all. all.items ≡ wanted_of takers.now tree.now rounds.now) }
{
    let mut all = Vec::with_capacity(alloc, tree.len() as usize)?;
    for n in 0..tree.len() {
        all.push(wanted_at(tree, takers, rounds, n))?;
    }
    Ok(all)
}
