//! The equates whose unfolding meets itself, whatever they are equated to: constants, types and type sets.

ghost use Rattle.std.specs.Prelude.{◌≡◌, ◌<◌, ◌++◌, ◌↔◌, ℕ, true, [], OnOk, IfOk, Some, length, map, slice_get, vec_len};
ghost use Rattle.clu_circles.specs.Circles.{AreCircles};
ghost use Rattle.clu_names.specs.Denotes.{bound_to, starts_to};
ghost use Rattle.clu_settle.specs.Graph.{is_equate_at, equate_of, unfolded_at, unfolded_to};
ghost use Rattle.clu_settle.specs.Circular.{is_circular, unfolded_starts, start_in, span_in, spans_to};

use clu_base::Memory;
use clu_circles::{Circles, Span, find_circles};
use clu_names::{Declared, Names};
use clu_syntax::Round;
use clu_tree::{NodeKind, Tree};
use std::alloc::Global;

/// The names by which equates are unfolded: for each node those of the declarations that they denote, by their places.
#[derive(Drop)]
struct Unfolded {
    /// None where no equate is denoted.
    targets: Vec<Option<usize>>,
    /// Where those of each node begin.
    starts: Vec<usize>,
}

fn is_equate(tree: &Tree, n: u32) -> bool
    ensures { result ≡ is_equate_at tree.now n }
{
    if n < tree.len() {
        match tree.node(n).kind {
            NodeKind::Equate => true,
            _ => false,
        }
    } else {
        false
    }
}

/// The declaration, if it is an equate.
fn equate_of(tree: &Tree, declared: &[Declared], bound: Option<usize>) -> Option<usize>
    ensures { result ≡ equate_of tree.now declared.now bound }
{
    match bound {
        Some(place) => match declared.get(place) {
            Some(one) => {
                if is_equate(tree, one.node) {
                    Some(place)
                } else {
                    None
                }
            }
            None => None,
        },
        None => None,
    }
}

fn push_names(
    targets: &mut Vec<Option<usize>>,
    tree: &Tree,
    declared: &[Declared],
    names: &[Option<usize>],
) -> Result<(), Memory>
    ensures { OnOk result (targets.new.items ≡ targets.old.items ++ map (equate_of tree.now declared.now) names.now) }
{
    for bound in names {
        targets.push(equate_of(tree, declared, *bound))?;
    }
    Ok(())
}

fn push_node(
    targets: &mut Vec<Option<usize>>,
    tree: &Tree,
    names: &Names,
    n: u32,
) -> Result<(), Memory>
    requires inside { n < length tree.now }
    requires bound { names.now.bound.items ≡ bound_to tree.now names.now.declared.items (length tree.now) }
    requires starts { names.now.starts.items ≡ starts_to tree.now names.now.declared.items (length tree.now) }
    ensures { OnOk result (targets.new.items ≡ targets.old.items ++ unfolded_at tree.now names.now.declared.items n) }
{
    match tree.node(n).kind {
        NodeKind::Name | NodeKind::NameT | NodeKind::Simple => {
            push_names(targets, tree, names.declared.as_slice(), names.of(tree, n))
        }
        _ => Ok(()),
    }
}

#[tactic(auto, unfolding(crate::specs::Graph::unfolded_to, crate::specs::Circular::unfolded_starts))]
fn push_all(unfolded: &mut Unfolded, tree: &Tree, names: &Names) -> Result<(), Memory>
    requires bound { names.now.bound.items ≡ bound_to tree.now names.now.declared.items (length tree.now) }
    requires starts { names.now.starts.items ≡ starts_to tree.now names.now.declared.items (length tree.now) }
    requires none { unfolded.old.targets.items ≡ [] }
    requires no_starts { unfolded.old.starts.items ≡ [] }
    ensures targets { OnOk result (unfolded.new.targets.items ≡ unfolded_to tree.now names.now.declared.items (length tree.now)) }
    ensures starts { OnOk result (unfolded.new.starts.items ≡ unfolded_starts tree.now names.now.declared.items (length tree.now)) }
{
    for n in 0..tree.len() {
        unfolded.starts.push(unfolded.targets.len())?;
        push_node(&mut unfolded.targets, tree, names, n)?;
    }
    Ok(())
}

/// Where the names of the node n begin.
fn start_of(unfolded: &Unfolded, n: u32) -> usize
    ensures { result ≡ start_in (vec_len unfolded.now.targets) (slice_get unfolded.now.starts.items n) }
{
    match unfolded.starts.as_slice().get(n as usize) {
        Some(start) => *start,
        None => unfolded.targets.len(),
    }
}

/// The names in an equate: those at the nodes from its first one on, up to itself, which has none. Nothing else has any.
fn span_of(unfolded: &Unfolded, tree: &Tree, rounds: &[Round], one: &Declared) -> Span
    ensures { result ≡ span_in tree.now rounds.now (vec_len unfolded.now.targets) unfolded.now.starts.items one.now }
{
    if is_equate(tree, one.node) {
        match rounds.get(one.node as usize) {
            Some(round) => Span {
                from: start_of(unfolded, round.first),
                to: start_of(unfolded, one.node),
            },
            None => Span { from: 0, to: 0 },
        }
    } else {
        Span { from: 0, to: 0 }
    }
}

fn spans_of(
    alloc: Global,
    unfolded: &Unfolded,
    tree: &Tree,
    rounds: &[Round],
    declared: &[Declared],
) -> Result<Vec<Span>, Memory>
    ensures size { IfOk result (λ spans. length spans.items ≡ length declared.now) }
    ensures spans { IfOk result (λ spans. spans.items ≡ map (span_in tree.now rounds.now (vec_len unfolded.now.targets) unfolded.now.starts.items) declared.now) }
{
    let mut spans = Vec::new(alloc);
    for one in declared {
        spans.push(span_of(unfolded, tree, rounds, one))?;
    }
    Ok(spans)
}

fn unfolded_names(alloc: Global, tree: &Tree, names: &Names) -> Result<Unfolded, Memory>
    requires bound { names.now.bound.items ≡ bound_to tree.now names.now.declared.items (length tree.now) }
    requires starts { names.now.starts.items ≡ starts_to tree.now names.now.declared.items (length tree.now) }
    ensures targets { IfOk result (λ unfolded. unfolded.targets.items ≡ unfolded_to tree.now names.now.declared.items (length tree.now)) }
    ensures starts { IfOk result (λ unfolded. unfolded.starts.items ≡ unfolded_starts tree.now names.now.declared.items (length tree.now)) }
{
    let mut unfolded = Unfolded {
        targets: Vec::new(alloc),
        starts: Vec::new(alloc),
    };
    push_all(&mut unfolded, tree, names)?;
    Ok(unfolded)
}

/// Which declarations are equates whose unfolding meets itself, and in which order the others come after the equates that they
/// name. The only error is that memory runs out.
pub fn equate_circles(
    alloc: Global,
    tree: &Tree,
    rounds: &[Round],
    names: &Names,
) -> Result<Circles, Memory>
    requires bound { names.now.bound.items ≡ bound_to tree.now names.now.declared.items (length tree.now) }
    requires starts { names.now.starts.items ≡ starts_to tree.now names.now.declared.items (length tree.now) }
    ensures order { IfOk result (λ circles. AreCircles (unfolded_to tree.now names.now.declared.items (length tree.now)) (spans_to tree.now rounds.now names.now.declared.items) circles.order.items circles.circular.items) }
    ensures circular { IfOk result (λ circles. length rounds.now ≡ length tree.now → (k : ℕ) → k < length names.now.declared.items → (slice_get circles.circular.items k ≡ Some true) ↔ (is_circular tree.now rounds.now names.now.declared.items k ≡ true)) }
{
    let unfolded = unfolded_names(alloc, tree, names)?;
    let declared = names.declared.as_slice();
    let spans = spans_of(alloc, &unfolded, tree, rounds, declared)?;
    let found = find_circles(alloc, unfolded.targets.as_slice(), spans.as_slice())?;
    Ok(found)
}

/// For each declaration whether it is an equate whose unfolding meets itself. The only error is that memory runs out.
pub fn circular_equates(
    alloc: Global,
    tree: &Tree,
    rounds: &[Round],
    names: &Names,
) -> Result<Vec<bool>, Memory>
    requires bound { names.now.bound.items ≡ bound_to tree.now names.now.declared.items (length tree.now) }
    requires starts { names.now.starts.items ≡ starts_to tree.now names.now.declared.items (length tree.now) }
    ensures { IfOk result (λ circular. length rounds.now ≡ length tree.now → (k : ℕ) → k < length names.now.declared.items → (slice_get circular.items k ≡ Some true) ↔ (is_circular tree.now rounds.now names.now.declared.items k ≡ true)) }
{
    let found = equate_circles(alloc, tree, rounds, names)?;
    Ok(found.circular)
}
