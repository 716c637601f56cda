//! What stands round a statement of word code.

ghost use Rattle.std.specs.Prelude.{◌≡◌, slice_get};
ghost use Rattle.clu_frames.specs.Flattening.{guards_of, outermost, round_of};
ghost use Rattle.clu_frames.specs.Standing.{standing_of};
ghost use Rattle.clu_wir.specs.Formed.{begun_with};

use crate::flat::OUTER_MARK;
use clu_base::ObjConst;
use clu_wir::WArm;

/// What stands round a statement.
#[derive(Clone, Copy)]
pub struct Surroundings<'a> {
    /// Those of the routine.
    pub constants: &'a [ObjConst],
    /// The first slot that is free for work.
    pub work: u32,
    pub turns: Option<Turns>,
    /// The innermost guard.
    pub guards: Option<&'a Guards<'a>>,
    /// The word of the frame that holds the top of the stack.
    pub mark: u32,
    /// The number of the innermost region.
    pub region: Option<u32>,
}

/// The innermost loop.
#[derive(Clone, Copy)]
pub struct Turns {
    /// The label before what begins the next turn.
    pub next: u32,
    pub end: u32,
    /// The mark outside the loop, where it goes over an iterator.
    pub cut: Option<u32>,
}

/// A guard.
#[derive(Clone, Copy)]
pub struct Guard<'a> {
    pub arms: &'a [WArm],
    /// The label of the first arm; those of the others follow.
    pub label: u32,
    /// The label of its end.
    pub end: u32,
    pub region: u32,
    /// The mark outside it.
    pub mark: u32,
}

/// A guard in whose list a statement stands, and those outside it.
#[derive(Clone, Copy)]
pub struct Guards<'a> {
    pub guard: Guard<'a>,
    pub outside: Option<&'a Guards<'a>>,
}

impl<'a> Surroundings<'a> {
    /// What stands round the body of a routine with so many slots and these constants.
    pub fn outermost(slots: u32, constants: &'a [ObjConst]) -> Surroundings<'a>
        ensures round { round_of result ≡ outermost constants.now slots }
        ensures standing { standing_of result ≡ begun_with constants.now }
    {
        Surroundings {
            constants,
            work: slots,
            turns: None,
            guards: None,
            mark: OUTER_MARK,
            region: None,
        }
    }

    /// The guard that so many others stand inside of.
    pub fn guard(self, inside: u32) -> Option<Guard<'a>>
        ensures { result ≡ slice_get (guards_of self.entry) inside }
    {
        let mut guards = self.guards?;
        let mut left = inside;
        while left > 0 {
            guards = guards.outside?;
            left -= 1;
        }
        Some(guards.guard)
    }
}
