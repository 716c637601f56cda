//! The type sets that equates stand for, also by the names of other equates.

ghost use Rattle.std.specs.Prelude.{◌≡◌, ◌<◌, ◌+◌, ℕ, All, IfOk, Some, None, fold, length, map, replicate, slice_get};
ghost use Rattle.clu_syntax.specs.Splits.{children_of};
ghost use Rattle.clu_names.specs.Denotes.{bound_to, starts_to};
ghost use Rattle.clu_head.specs.Sets.{IsBelow, same_as, said_by, said_by_first, said_at, said_of, target_of, kept, kept_at, led_by, set_led, with_set, AreOne};

use crate::bounds::first_bound;
use crate::known::is_at;
use clu_base::Memory;
use clu_circles::{Span, find_circles};
use clu_names::{Declared, Names};
use clu_syntax::Syntax;
use clu_tree::{NodeKind, Tree};
use std::alloc::Global;

/// What an equate says of type sets.
#[derive(Clone, Copy)]
pub enum Said {
    /// It is no equate, or stands for a constant or a type.
    Nothing,
    /// It stands for this TypeSet.
    Set(u32),
    /// It stands for what the declaration at this place does.
    Same(usize),
}

fn same_as(place: Option<usize>) -> Said
    ensures { result ≡ same_as place }
{
    match place {
        Some(place) => Said::Same(place),
        None => Said::Nothing,
    }
}

/// What an equate says whose right side is the node c.
#[tactic(auto, unfolding(crate::specs::Sets::said_by))]
fn said_by(tree: &Tree, names: &Names, c: u32) -> Said
    requires bound { names.now.bound.items ≡ bound_to tree.now names.now.declared.items (length tree.now) }
    requires starts { names.now.starts.items ≡ starts_to tree.now names.now.declared.items (length tree.now) }
    ensures { result ≡ said_by tree.now names.now.declared.items c }
{
    if is_at(tree, c, NodeKind::TypeSet) {
        Said::Set(c)
    } else if is_at(tree, c, NodeKind::Name) {
        same_as(first_bound(tree, names, c))
    } else {
        Said::Nothing
    }
}

/// The same by the nodes below it.
fn said_by_first(tree: &Tree, names: &Names, children: &[u32]) -> Said
    requires bound { names.now.bound.items ≡ bound_to tree.now names.now.declared.items (length tree.now) }
    requires starts { names.now.starts.items ≡ starts_to tree.now names.now.declared.items (length tree.now) }
    ensures { result ≡ said_by_first tree.now names.now.declared.items children.now }
{
    match children {
        [c, ..] => said_by(tree, names, *c),
        [] => Said::Nothing,
    }
}

/// What the node n says, if it is an Equate.
#[tactic(auto, unfolding(crate::specs::Sets::said_at))]
fn said_at(tree: &Tree, names: &Names, n: u32) -> Said
    requires bound { names.now.bound.items ≡ bound_to tree.now names.now.declared.items (length tree.now) }
    requires starts { names.now.starts.items ≡ starts_to tree.now names.now.declared.items (length tree.now) }
    ensures { result ≡ said_at tree.now names.now.declared.items n }
{
    if is_at(tree, n, NodeKind::Equate) {
        said_by_first(tree, names, tree.node(n).children.as_slice())
    } else {
        Said::Nothing
    }
}

/// What each of these declarations says.
fn said_of(
    alloc: Global,
    tree: &Tree,
    names: &Names,
    declared: &[Declared],
) -> Result<Vec<Said>, Memory>
    requires bound { names.now.bound.items ≡ bound_to tree.now names.now.declared.items (length tree.now) }
    requires starts { names.now.starts.items ≡ starts_to tree.now names.now.declared.items (length tree.now) }
    ensures { IfOk result (λ all. all.items ≡ said_of tree.now names.now.declared.items declared.now) }
{
    let mut all = Vec::new(alloc);
    for one in declared {
        all.push(said_at(tree, names, one.node))?;
    }
    Ok(all)
}

/// The place to which an equate leads, if it is one of so many.
fn target_of(said: Said, many: usize) -> Option<usize>
    ensures below { IsBelow many result }
    ensures exact { result ≡ target_of many said }
{
    match said {
        Said::Same(place) => { if place < many { Some(place) } else { None } }
        _ => None,
    }
}

fn targets_of(alloc: Global, said: &[Said], many: usize) -> Result<Vec<Option<usize>>, Memory>
    ensures below { IfOk result (λ targets. All (IsBelow many) targets.items) }
    ensures exact { IfOk result (λ targets. targets.items ≡ map (target_of many) said.now) }
{
    let mut targets = Vec::new(alloc);
    for one in said {
        targets.push(target_of(*one, many))?;
    }
    Ok(targets)
}

/// One target for each of so many.
fn spans_of(alloc: Global, many: usize) -> Result<Vec<Span>, Memory>
    ensures size { IfOk result (λ spans. length spans.items ≡ many) }
    ensures one { IfOk result (λ spans. AreOne spans.items many) }
{
    let mut spans = Vec::new(alloc);
    for at in 0..many {
        spans.push(Span {
            from: at,
            to: at + 1,
        })?;
    }
    Ok(spans)
}

/// The set that is kept at a place.
fn set_at(sets: &[Option<u32>], place: usize) -> Option<u32>
    ensures { result ≡ kept_at sets.now place }
{
    match sets.get(place) {
        Some(set) => *set,
        None => None,
    }
}

fn set_of(sets: &[Option<u32>], said: Said) -> Option<u32>
    ensures { result ≡ led_by (kept_at sets.now) (Some said) }
{
    match said {
        Said::Nothing => None,
        Said::Set(set) => Some(set),
        Said::Same(place) => set_at(sets, place),
    }
}

#[tactic(auto, unfolding(crate::specs::Sets::with_set))]
fn find_set(sets: &mut [Option<u32>], said: &[Said], place: usize)
    ensures exact { sets.new ≡ with_set said.now sets.old place }
    ensures size { length sets.new ≡ length sets.old }
{
    if place < sets.len() && place < said.len() {
        let set = set_of(sets, said[place]);
        sets[place] = set;
    }
}

fn find_sets(sets: &mut [Option<u32>], said: &[Said], order: &[usize])
    ensures exact { sets.new ≡ fold (with_set said.now) sets.old order.now }
    ensures size { length sets.new ≡ length sets.old }
{
    for place in order {
        find_set(sets, said, *place);
    }
}

fn no_sets(alloc: Global, many: usize) -> Result<Vec<Option<u32>>, Memory>
    ensures { IfOk result (λ sets. sets.items ≡ replicate many None) }
{
    Ok(vec![in alloc; None; many]?)
}

/// The set of each declaration, found in this order.
fn all_found(alloc: Global, said: &[Said], order: &[usize]) -> Result<Vec<Option<u32>>, Memory>
    ensures { IfOk result (λ sets. sets.items ≡ fold (with_set said.now) (replicate (length said.now) None) order.now) }
{
    let mut sets = no_sets(alloc, said.len())?;
    find_sets(&mut sets, said, order);
    Ok(sets)
}

/// For each declaration the TypeSet for which it stands. A circle of equates stands for none. The only error is that memory
/// runs out.
pub fn sets_of(alloc: Global, syntax: &Syntax, names: &Names) -> Result<Vec<Option<u32>>, Memory>
    requires bound { names.now.bound.items ≡ bound_to syntax.now names.now.declared.items (length syntax.now) }
    requires starts { names.now.starts.items ≡ starts_to syntax.now names.now.declared.items (length syntax.now) }
    ensures { IfOk result (λ sets. (place : ℕ) → kept_at sets.items place ≡ set_led (said_of syntax.now names.now.declared.items names.now.declared.items) place) }
{
    let said = said_of(alloc, syntax.tree(), names, names.declared.as_slice())?;
    let many = said.len();
    let targets = targets_of(alloc, said.as_slice(), many)?;
    let spans = spans_of(alloc, many)?;
    let order = find_circles(alloc, targets.as_slice(), spans.as_slice())?;
    let sets = all_found(alloc, said.as_slice(), order.order.as_slice())?;
    Ok(sets)
}
