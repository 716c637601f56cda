//! What a step says to its neighbours.

ghost use Rattle.std.specs.Prelude.{◌≡◌};
ghost use Rattle.clu_wir.specs.Plain.{expr_of};
ghost use Rattle.clu_frames.specs.Plain.{step_of};
ghost use Rattle.clu_frames.specs.Labels.{jump_of, label_of, same};
ghost use Rattle.clu_peep.specs.Steps.{from_slot, is_back, is_idle, move_of, with_word, word_slot};

use clu_frames::Flat;
use clu_wir::WExpr;

/// What gives a slot the word of another.
#[derive(Clone, Copy)]
pub struct Move {
    pub to: u32,
    pub from: u32,
}

/// The move that a step is.
pub fn move_of(step: &Flat) -> Option<Move>
    ensures { result ≡ move_of (step_of step.now) }
{
    match step {
        Flat::Set(to, value) => from_slot(*to, value),
        _ => None,
    }
}

fn from_slot(to: u32, value: &WExpr) -> Option<Move>
    ensures { result ≡ from_slot to (expr_of value.now) }
{
    match value {
        WExpr::Slot(from) => Some(Move { to, from: *from }),
        _ => None,
    }
}

/// The slot to which a step gives a word that is known.
pub fn word_slot(step: &Flat) -> Option<u32>
    ensures { result ≡ word_slot (step_of step.now) }
{
    match step {
        Flat::Set(to, value) => with_word(*to, value),
        _ => None,
    }
}

fn with_word(to: u32, value: &WExpr) -> Option<u32>
    ensures { result ≡ with_word to (expr_of value.now) }
{
    match value {
        WExpr::Word(_) => Some(to),
        _ => None,
    }
}

/// The label that a step is.
pub fn label_of(step: &Flat) -> Option<u32>
    ensures { result ≡ label_of (step_of step.now) }
{
    match step {
        Flat::Label(label) => Some(*label),
        _ => None,
    }
}

/// The label to which a step jumps.
pub fn jump_of(step: &Flat) -> Option<u32>
    ensures { result ≡ jump_of (step_of step.now) }
{
    match step {
        Flat::Jump(label) => Some(*label),
        _ => None,
    }
}

/// Whether two numbers are there and the same.
pub fn same(first: Option<u32>, second: Option<u32>) -> bool
    ensures { result ≡ same first second }
{
    match first {
        Some(first) => match second {
            Some(second) => first == second,
            None => false,
        },
        None => false,
    }
}

/// Whether a move changes nothing.
pub fn is_idle(found: Option<Move>) -> bool
    ensures { result ≡ is_idle found }
{
    match found {
        Some(found) => found.to == found.from,
        None => false,
    }
}

/// Whether the first move goes the way of the second one back.
pub fn is_back(first: Option<Move>, second: Option<Move>) -> bool
    ensures { result ≡ is_back first second }
{
    match first {
        Some(first) => match second {
            Some(second) => first.to == second.from && first.from == second.to,
            None => false,
        },
        None => false,
    }
}
