//! The search: what is begun stands on a stack, on which each number leads to the next one. If the last one leads back to one
//! of them, or to a circle, they are all circular.

ghost use Rattle.std.specs.Prelude.{◌≡◌, ◌<◌, ℕ, OnOk, true, false, length, set, ◌++◌, ◌∷◌, [], slice_get, Some};
ghost use Rattle.clu_circles.specs.Circles.{AreInside};
ghost use Rattle.clu_circles.specs.Search.{IsSearch, IsOrdered, Fewer, GoesOn, Opens, is_new, left_in};

use crate::states::{Begun, Found, Span, State, begin, first_open, is_new, mark, span_at};
use clu_base::Memory;

/// All targets of a number are straight, so it is.
fn finish(states: &mut [State], order: &mut Vec<usize>, number: usize) -> Result<(), Memory>
    requires { number < length states.old }
    ensures states { OnOk result (states.new ≡ set states.old number State.Straight) }
    ensures order { OnOk result (order.new.items ≡ order.old.items ++ number ∷ []) }
{
    order.push(number)?;
    states[number] = State::Straight;
    Ok(())
}

/// The number that was taken from the stack leads to one that is new, at a place of its targets.
fn go_deeper(
    states: &mut [State],
    begun: &mut Vec<Begun>,
    targets: &[Option<usize>],
    spans: &[Span],
    top: Begun,
    found: Found,
) -> Result<(), Memory>
    requires search { IsSearch targets.now spans.now states.old (begun.old.items ++ top ∷ []) }
    requires inside { found.target < length spans.now }
    requires opens { Opens targets.now spans.now states.old top found.place found.target }
    requires new { is_new (slice_get states.old found.target) ≡ true }
    ensures search { OnOk result (IsSearch targets.now spans.now states.new begun.new.items) }
    ensures on { OnOk result (GoesOn states.old states.new) }
{
    let number = top.number;
    let next = found.place;
    begun.push(Begun { number, next })?;
    begin(states, begun, spans, found.target)?;
    Ok(())
}

/// It leads to one that is begun or circular, at a place of its targets.
fn close(
    states: &mut [State],
    begun: &mut Vec<Begun>,
    targets: &[Option<usize>],
    spans: &[Span],
    top: Begun,
    found: Found,
) -> Result<(), Memory>
    requires search { IsSearch targets.now spans.now states.old (begun.old.items ++ top ∷ []) }
    requires inside { found.target < length spans.now }
    requires opens { Opens targets.now spans.now states.old top found.place found.target }
    requires old { is_new (slice_get states.old found.target) ≡ false }
    ensures search { OnOk result (IsSearch targets.now spans.now states.new begun.new.items) }
    ensures on { OnOk result (GoesOn states.old states.new) }
{
    begun.push(top)?;
    mark(states, begun.as_slice());
    begun.clear();
    Ok(())
}

/// The number that was taken from the stack leads to one that is not straight.
fn go_on(
    states: &mut [State],
    begun: &mut Vec<Begun>,
    targets: &[Option<usize>],
    spans: &[Span],
    top: Begun,
    found: Found,
) -> Result<(), Memory>
    requires search { IsSearch targets.now spans.now states.old (begun.old.items ++ top ∷ []) }
    requires inside { found.target < length spans.now }
    requires opens { Opens targets.now spans.now states.old top found.place found.target }
    ensures search { OnOk result (IsSearch targets.now spans.now states.new begun.new.items) }
    ensures on { OnOk result (GoesOn states.old states.new) }
{
    if is_new(states, found.target) {
        go_deeper(states, begun, targets, spans, top, found)
    } else {
        close(states, begun, targets, spans, top, found)
    }
}

/// One step, for the number that was taken from the stack.
fn step(
    states: &mut [State],
    begun: &mut Vec<Begun>,
    order: &mut Vec<usize>,
    targets: &[Option<usize>],
    spans: &[Span],
    top: Begun,
) -> Result<(), Memory>
    requires inside { AreInside targets.now spans.now }
    requires search { IsSearch targets.now spans.now states.old (begun.old.items ++ top ∷ []) }
    requires ordered { IsOrdered targets.now spans.now states.old order.old.items }
    ensures search { OnOk result (IsSearch targets.now spans.now states.new begun.new.items) }
    ensures ordered { OnOk result (IsOrdered targets.now spans.now states.new order.new.items) }
    ensures fewer { OnOk result (Fewer states.old states.new) }
    ensures less { OnOk result (left_in states.new < left_in states.old) }
{
    let number = top.number;
    let span = span_at(spans, number);
    match first_open(states, targets, top.next, span.to) {
        None => {
            finish(states, order, number)?;
            Ok(())
        }
        Some(found) => {
            go_on(states, begun, targets, spans, top, found)?;
            Ok(())
        }
    }
}

/// Steps until the stack is empty.
fn run(
    states: &mut [State],
    begun: &mut Vec<Begun>,
    order: &mut Vec<usize>,
    targets: &[Option<usize>],
    spans: &[Span],
) -> Result<(), Memory>
    requires inside { AreInside targets.now spans.now }
    requires search { IsSearch targets.now spans.now states.old begun.old.items }
    requires ordered { IsOrdered targets.now spans.now states.old order.old.items }
    ensures over { OnOk result (begun.new.items ≡ []) }
    ensures search { OnOk result (IsSearch targets.now spans.now states.new []) }
    ensures ordered { OnOk result (IsOrdered targets.now spans.now states.new order.new.items) }
    ensures fewer { OnOk result (Fewer states.old states.new) }
{
    'stack: while let Some(top) = begun.pop() {
        step(states, begun, order, targets, spans, top)?;
    }
    Ok(())
}

/// The search from one number on, if that is new.
pub fn visit(
    states: &mut [State],
    begun: &mut Vec<Begun>,
    order: &mut Vec<usize>,
    targets: &[Option<usize>],
    spans: &[Span],
    number: usize,
) -> Result<(), Memory>
    requires inside { AreInside targets.now spans.now }
    requires number { number < length spans.now }
    requires none { begun.old.items ≡ [] }
    requires search { IsSearch targets.now spans.now states.old [] }
    requires ordered { IsOrdered targets.now spans.now states.old order.old.items }
    ensures over { OnOk result (begun.new.items ≡ []) }
    ensures search { OnOk result (IsSearch targets.now spans.now states.new []) }
    ensures ordered { OnOk result (IsOrdered targets.now spans.now states.new order.new.items) }
    ensures fewer { OnOk result (Fewer states.old states.new) }
    ensures seen { OnOk result (slice_get states.new number ≡ Some State.New → ⊥) }
{
    if is_new(states, number) {
        begin(states, begun, spans, number)?;
        run(states, begun, order, targets, spans)?;
        Ok(())
    } else {
        Ok(())
    }
}
