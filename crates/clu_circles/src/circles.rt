//! The order of all numbers that lead to no circle.

ghost use Rattle.std.specs.Prelude.{◌≡◌, ◌<◌, ◌↔◌, ℕ, true, OnOk, IfOk, length, map, replicate, [], slice_get, Some};
ghost use Rattle.clu_circles.specs.Circles.{AreInside, AreCircles, LeadsFor};
ghost use Rattle.clu_circles.specs.Search.{IsSearch, IsOrdered, is_circular};

use crate::search::visit;
use crate::states::{Begun, Span, State};
use clu_base::Memory;
use std::alloc::Global;

/// Which numbers lead to a circle, and an order of the others.
#[derive(Drop)]
pub struct Circles {
    /// All that lead to no circle, each after those that it leads to.
    pub order: Vec<usize>,
    /// For each number whether it leads to a circle.
    pub circular: Vec<bool>,
}

fn is_circular(state: State) -> bool
    ensures { result ≡ is_circular state }
{
    match state {
        State::Circular => true,
        _ => false,
    }
}

fn circular_of(alloc: Global, states: &[State]) -> Result<Vec<bool>, Memory>
    ensures { IfOk result (λ circular. circular.items ≡ map is_circular states.now) }
{
    let mut circular = Vec::with_capacity(alloc, states.len())?;
    for state in states {
        circular.push(is_circular(*state))?;
    }
    Ok(circular)
}

fn visit_all(
    states: &mut [State],
    begun: &mut Vec<Begun>,
    order: &mut Vec<usize>,
    targets: &[Option<usize>],
    spans: &[Span],
) -> Result<(), Memory>
    requires inside { AreInside targets.now spans.now }
    requires none { begun.old.items ≡ [] }
    requires search { IsSearch targets.now spans.now states.old [] }
    requires ordered { IsOrdered targets.now spans.now states.old order.old.items }
    ensures search { OnOk result (IsSearch targets.now spans.now states.new []) }
    ensures ordered { OnOk result (IsOrdered targets.now spans.now states.new order.new.items) }
    ensures seen { OnOk result ((k : ℕ) → k < length spans.now → slice_get states.new k ≡ Some State.New → ⊥) }
{
    for number in 0..spans.len() {
        visit(states, begun, order, targets, spans, number)?;
    }
    Ok(())
}

/// What comes of all numbers, of which nothing is known yet.
fn all_visited(
    alloc: Global,
    states: &mut [State],
    targets: &[Option<usize>],
    spans: &[Span],
) -> Result<Circles, Memory>
    requires inside { AreInside targets.now spans.now }
    requires new { states.old ≡ replicate (length spans.now) State.New }
    ensures { IfOk result (λ all. AreCircles targets.now spans.now all.order.items all.circular.items) }
{
    let mut order = Vec::new(alloc);
    let mut begun = Vec::new(alloc);
    visit_all(states, &mut begun, &mut order, targets, spans)?;
    let circular = circular_of(alloc, states)?;
    Ok(Circles { order, circular })
}

/// Which numbers lead to a circle, and in which order the others come after those that they lead to. The number k leads to
/// the targets that stand in the k-th of the spans. The only error is that memory runs out.
pub fn find_circles(
    alloc: Global,
    targets: &[Option<usize>],
    spans: &[Span],
) -> Result<Circles, Memory>
    requires { AreInside targets.now spans.now }
    ensures circles { IfOk result (λ all. AreCircles targets.now spans.now all.order.items all.circular.items) }
    ensures exactly { IfOk result (λ all. (k : ℕ) → k < length spans.now → (slice_get all.circular.items k ≡ Some true) ↔ LeadsFor targets.now spans.now (length spans.now) k) }
{
    let mut states = vec![in alloc; State::New; spans.len()]?;
    let all = all_visited(alloc, &mut states, targets, spans)?;
    Ok(all)
}
