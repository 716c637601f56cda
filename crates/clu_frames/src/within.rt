//! Whether steps name slots of their frame alone.

ghost use Rattle.std.specs.Prelude.{◌≡◌};
ghost use Rattle.clu_frames.specs.Within.{are_within as all_within, is_within as step_within, mark_within, value_within};

use crate::flat::{FOOT, Flat};
use clu_wir::WExpr;

/// Whether a word of a frame of so many slots is one of its foot or a slot.
fn is_word(mark: u32, frame: u32) -> bool
    ensures { result ≡ mark_within frame mark }
{
    u64::from(mark) < u64::from(frame) + u64::from(FOOT)
}

/// Whether a frame of so many slots has those that an expression names.
fn has(frame: u32, value: &WExpr) -> bool
    ensures { result ≡ value_within frame value.now }
{
    value.slots() <= u64::from(frame)
}

impl Flat {
    /// Whether a frame of so many slots has those that the step names. Where a step names the first of several words that
    /// may be none, it may also be the slot after the last.
    pub fn is_within(&self, frame: u32) -> bool
        ensures { result ≡ step_within frame self.now }
    {
        match self {
            Flat::Set(to, value) => *to < frame && has(frame, value),
            Flat::Put(address, _, value) => has(frame, address) && has(frame, value),
            Flat::Label(_) => true,
            Flat::Jump(_) => true,
            Flat::Branch(condition, _, _) => has(frame, condition),
            Flat::Enter(arguments) => *arguments <= frame,
            Flat::Bind(number, value, to) => {
                has(frame, number) && has(frame, value) && *to < frame
            }
            Flat::Invoke(routine, slot) => has(frame, routine) && *slot <= frame,
            Flat::Yield(slot, _) => *slot <= frame,
            Flat::Resume(slot) => *slot < frame,
            Flat::Take(to) => *to < frame,
            Flat::Result(to, _) => *to < frame,
            Flat::Cut(mark) => is_word(*mark, frame),
            Flat::Leave(slot, _) => *slot <= frame,
            Flat::Raise(slot) => *slot < frame,
            Flat::Signal(slot) => *slot < frame,
            Flat::Pass => true,
            Flat::Prim(_, slot) => *slot <= frame,
        }
    }
}

/// Whether a frame of so many slots has those that all the steps name.
pub fn are_within(frame: u32, steps: &[Flat]) -> bool
    ensures { result ≡ all_within frame steps.now }
{
    for step in steps {
        if !step.is_within(frame) {
            return false;
        }
    }
    true
}
