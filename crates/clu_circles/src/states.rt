//! How far each number has come.

ghost use Rattle.std.specs.Prelude.{◌≡◌, ◌<◌, OnOk, length, set, ◌++◌, ◌∷◌, [], slice_get, Some};
ghost use Rattle.clu_circles.specs.Search.{has_ended, is_straight, is_untouched, is_new, if_open, target_in, open_at, IsFirstOpen, marked, begun_at};

use clu_base::Memory;

/// Where in the list of targets those of one number stand: from the place `from` on, up to the place `to`.
#[derive(Clone, Copy)]
pub struct Span {
    pub from: usize,
    pub to: usize,
}

/// What is known of a number.
#[derive(Clone, Copy)]
pub enum State {
    New,
    /// Those that it leads to are being looked at.
    Begun,
    /// It leads to no circle.
    Straight,
    /// It leads to a circle.
    Circular,
}

/// A number that is begun. Its targets before the place `next` are straight.
#[derive(Clone, Copy)]
pub struct Begun {
    pub number: usize,
    pub next: usize,
}

fn has_ended(state: State) -> bool
    ensures { result ≡ has_ended state }
{
    match state {
        State::Straight => true,
        _ => false,
    }
}

fn is_straight(states: &[State], number: usize) -> bool
    ensures { result ≡ is_straight (slice_get states.now number) }
{
    match states.get(number) {
        Some(state) => has_ended(*state),
        None => false,
    }
}

/// The number, if it isn't straight.
fn if_open(states: &[State], number: usize) -> Option<usize>
    ensures { result ≡ if_open states.now number }
{
    if is_straight(states, number) {
        None
    } else {
        Some(number)
    }
}

fn target_at(targets: &[Option<usize>], place: usize) -> Option<usize>
    ensures { result ≡ target_in (slice_get targets.now place) }
{
    match targets.get(place) {
        Some(target) => *target,
        None => None,
    }
}

/// The target at a place, if there is one that isn't straight.
fn open_at(states: &[State], targets: &[Option<usize>], place: usize) -> Option<usize>
    ensures { result ≡ open_at states.now targets.now place }
{
    match target_at(targets, place) {
        Some(target) => if_open(states, target),
        None => None,
    }
}

/// A target that isn't straight, with its place in the list of targets.
#[derive(Clone, Copy)]
pub struct Found {
    pub place: usize,
    pub target: usize,
}

/// The first of the targets from a place on, up to another, that isn't straight.
pub fn first_open(
    states: &[State],
    targets: &[Option<usize>],
    from: usize,
    to: usize,
) -> Option<Found>
    ensures { IsFirstOpen states.now targets.now from to result }
{
    let mut place = from;
    'places: while place < to {
        match open_at(states, targets, place) {
            Some(target) => return Some(Found { place, target }),
            None => place += 1,
        }
    }
    None
}

fn is_untouched(state: State) -> bool
    ensures { result ≡ is_untouched state }
{
    match state {
        State::New => true,
        _ => false,
    }
}

/// Whether nothing is known of a number yet.
pub fn is_new(states: &[State], number: usize) -> bool
    ensures { result ≡ is_new (slice_get states.now number) }
{
    match states.get(number) {
        Some(state) => is_untouched(*state),
        None => false,
    }
}

/// The span of a number.
pub fn span_at(spans: &[Span], number: usize) -> Span
    requires { number < length spans.now }
    ensures { slice_get spans.now number ≡ Some result }
{
    spans[number]
}

/// A number begins.
pub fn begin(
    states: &mut [State],
    begun: &mut Vec<Begun>,
    spans: &[Span],
    number: usize,
) -> Result<(), Memory>
    requires inside { number < length spans.now }
    requires size { length states.old ≡ length spans.now }
    ensures states { OnOk result (states.new ≡ set states.old number State.Begun) }
    ensures begun { OnOk result (begun.new.items ≡ begun.old.items ++ begun_at number (slice_get spans.now number) ∷ []) }
{
    let span = span_at(spans, number);
    let next = span.from;
    begun.push(Begun { number, next })?;
    states[number] = State::Begun;
    Ok(())
}

fn mark_one(states: &mut [State], number: usize)
    ensures { states.new ≡ set states.old number State.Circular }
{
    if number < states.len() {
        states[number] = State::Circular;
    }
}

/// All that are begun are circular.
pub fn mark(states: &mut [State], begun: &[Begun])
    ensures { states.new ≡ marked states.old begun.now }
{
    for one in begun {
        mark_one(states, one.number);
    }
}
