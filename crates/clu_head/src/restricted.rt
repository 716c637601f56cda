//! What each restriction of a where clause restricts: a type parameter, and by which type set, if it names one.

ghost use Rattle.std.specs.Prelude.{◌≡◌, ◌<◌, length, slice_get, IfOk, Some};
ghost use Rattle.std.specs.Option.{option_and_then};
ghost use Rattle.clu_syntax.specs.Splits.{children_of, type_of};
ghost use Rattle.clu_names.specs.Denotes.{bound_to, starts_to};
ghost use Rattle.clu_head.specs.Asking.{restricted_in};
ghost use Rattle.clu_head.specs.Restricting.{number_of, type_parameter, parameter_of, set_of_name, set_among, restricted_at, restricted_to};
ghost use Rattle.clu_head.specs.Sets.{kept_at};

use crate::bounds::{first_bound, second_bound};
use crate::known::is_at;
use crate::parameter_kinds::type_of;
use clu_base::Memory;
use clu_names::{Declared, Names};
use clu_syntax::Syntax;
use clu_tree::{NodeKind, Tree};
use std::alloc::Global;

/// What a Restrict restricts.
#[derive(Clone, Copy)]
pub struct Restricted {
    /// The number of the type parameter; None if its first name is that of none.
    pub parameter: Option<u32>,
    /// The TypeSet that it has, or for which its second name stands.
    pub set: Option<u32>,
}

/// The number of a parameter, unless it has a type.
fn number_of(declared: Option<u32>, number: Option<u32>) -> Option<u32>
    ensures { result ≡ number_of declared number }
{
    match declared {
        None => number,
        Some(_) => None,
    }
}

/// The number of the parameter at a place among the declarations, if it is a type parameter.
#[tactic(auto, unfolding(crate::specs::Restricting::type_parameter))]
fn type_parameter(tree: &Tree, one: &Declared, numbers: &[u32], place: usize) -> Option<u32>
    ensures { result ≡ type_parameter tree.now numbers.now place one.now }
{
    if is_at(tree, one.node, NodeKind::Parm) {
        let declared = type_of(tree, tree.node(one.node).children.as_slice());
        number_of(declared, numbers.get(place).copied())
    } else {
        None
    }
}

fn parameter_of(
    tree: &Tree,
    declared: &[Declared],
    numbers: &[u32],
    bound: Option<usize>,
) -> Option<u32>
    ensures { result ≡ parameter_of tree.now numbers.now declared.now bound }
{
    match bound {
        Some(place) => match declared.get(place) {
            Some(one) => type_parameter(tree, one, numbers, place),
            None => None,
        },
        None => None,
    }
}

/// The set for which the declaration at a place stands.
fn set_named(sets: &[Option<u32>], bound: Option<usize>) -> Option<u32>
    ensures { result ≡ option_and_then (kept_at sets.now) bound }
{
    match bound {
        Some(place) => match sets.get(place) {
            Some(set) => *set,
            None => None,
        },
        None => None,
    }
}

/// The set of the Restrict n with these children.
fn set_among(
    tree: &Tree,
    names: &Names,
    sets: &[Option<u32>],
    n: u32,
    children: &[u32],
) -> Option<u32>
    requires bound { names.now.bound.items ≡ bound_to tree.now names.now.declared.items (length tree.now) }
    requires starts { names.now.starts.items ≡ starts_to tree.now names.now.declared.items (length tree.now) }
    ensures { result ≡ set_among tree.now names.now.declared.items sets.now n children.now }
{
    match children {
        [] => set_named(sets, second_bound(tree, names, n)),
        [c, ..] => {
            if is_at(tree, *c, NodeKind::TypeSet) {
                Some(*c)
            } else {
                set_named(sets, second_bound(tree, names, n))
            }
        }
    }
}

/// What the node n restricts, if it is a Restrict.
#[tactic(auto, unfolding(crate::specs::Restricting::restricted_at))]
fn restricted_at(
    tree: &Tree,
    names: &Names,
    numbers: &[u32],
    sets: &[Option<u32>],
    n: u32,
) -> Restricted
    requires bound { names.now.bound.items ≡ bound_to tree.now names.now.declared.items (length tree.now) }
    requires starts { names.now.starts.items ≡ starts_to tree.now names.now.declared.items (length tree.now) }
    ensures { result ≡ restricted_at tree.now names.now.declared.items sets.now numbers.now n }
{
    if is_at(tree, n, NodeKind::Restrict) {
        let bound = first_bound(tree, names, n);
        Restricted {
            parameter: parameter_of(tree, names.declared.as_slice(), numbers, bound),
            set: set_among(tree, names, sets, n, tree.node(n).children.as_slice()),
        }
    } else {
        Restricted {
            parameter: None,
            set: None,
        }
    }
}

/// For each node what it restricts, if it is a Restrict, where the parameters have these numbers by their declarations and
/// equates stand for these sets. The only error is that memory runs out.
#[tactic(auto, unfolding(crate::specs::Restricting::restricted_to))]
pub fn restricted_of(
    alloc: Global,
    syntax: &Syntax,
    names: &Names,
    numbers: &[u32],
    sets: &[Option<u32>],
) -> Result<Vec<Restricted>, Memory>
    requires bound { names.now.bound.items ≡ bound_to syntax.now names.now.declared.items (length syntax.now) }
    requires starts { names.now.starts.items ≡ starts_to syntax.now names.now.declared.items (length syntax.now) }
    ensures { IfOk result (λ all. all.items ≡ restricted_to syntax.now names.now.declared.items sets.now numbers.now (length syntax.now)) }
{
    let mut all = Vec::new(alloc);
    for n in 0..syntax.tree().len() {
        all.push(restricted_at(syntax.tree(), names, numbers, sets, n))?;
    }
    Ok(all)
}

/// What is restricted at the node n.
pub fn restricted_in(restricted: &[Restricted], n: u32) -> Restricted
    ensures { result ≡ restricted_in (slice_get restricted.now n) }
{
    match restricted.get(n as usize) {
        Some(one) => *one,
        None => Restricted {
            parameter: None,
            set: None,
        },
    }
}
