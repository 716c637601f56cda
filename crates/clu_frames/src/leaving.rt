//! Statements that go on elsewhere.

ghost use Rattle.std.specs.Prelude.{◌≡◌, IsTrue, OnOk, Some, length, map, slice_get};
ghost use Rattle.clu_wir.specs.Plain.{expr_of};
ghost use Rattle.clu_wir.specs.Formed.{has_arm, is_count, is_named};
ghost use Rattle.clu_frames.specs.Flattening.{break_onto, cut_onto, exception_onto, exit_onto, guard_exit_onto, guarding_of, guards_of, leave_onto, made, name_of, recut_onto, round_of};
ghost use Rattle.clu_frames.specs.Standing.{arms_of, standing_of};

use crate::errors::FrameError;
use crate::flat::Flat;
use crate::steps::{Steps, above, number};
use crate::surroundings::{Guard, Surroundings, Turns};
use clu_base::Bytes;
use clu_wir::{HoleKind, WExpr, place_of};

impl Steps {
    pub fn break_loop(&mut self, turns: Turns) -> Result<(), FrameError>
        ensures made { OnOk result (made self.new ≡ break_onto (Some turns) (made self.old)) }
    {
        self.cut(turns.cut)?;
        self.push(Flat::Jump(turns.end))
    }

    fn cut(&mut self, mark: Option<u32>) -> Result<(), FrameError>
        ensures made { OnOk result (made self.new ≡ cut_onto mark (made self.old)) }
    {
        match mark {
            Some(mark) => self.push(Flat::Cut(mark)),
            None => Ok(()),
        }
    }

    /// Puts the name of an exception, which is a constant, into the first free slot and its objects after it.
    pub fn exception(
        &mut self,
        name: &Bytes,
        objects: &[WExpr],
        round: Surroundings<'_>,
    ) -> Result<(), FrameError>
        requires named { IsTrue (is_named name.now (standing_of round)) }
        ensures made { OnOk result (made self.new ≡ exception_onto (name_of round.entry.constants.now name.now) (map expr_of objects.now) round.entry.work (made self.old)) }
    {
        let place = number(place_of(round.constants, name).unwrap())?;
        let name = WExpr::Hole(HoleKind::Constant, place);
        self.push(Flat::Set(round.work, name))?;
        self.set_row(above(round.work, 1)?, objects)
    }

    /// Goes on at an arm of the guard that so many others stand inside of.
    pub fn exit(
        &mut self,
        inside: u32,
        arm: u32,
        words: &[WExpr],
        round: Surroundings<'_>,
    ) -> Result<(), FrameError>
        requires formed { IsTrue (has_arm arm (length words.now) (slice_get (map arms_of (guards_of round)) inside)) }
        ensures made { OnOk result (made self.new ≡ exit_onto inside arm (map expr_of words.now) (round_of round.entry) (made self.old)) }
    {
        self.exit_guard(round.guard(inside).unwrap(), arm, words, round)
    }

    /// Goes on at an arm of a guard.
    fn exit_guard(
        &mut self,
        guard: Guard<'_>,
        arm: u32,
        words: &[WExpr],
        round: Surroundings<'_>,
    ) -> Result<(), FrameError>
        requires formed { IsTrue (is_count (length words.now) (slice_get (arms_of guard) arm)) }
        ensures made { OnOk result (made self.new ≡ guard_exit_onto (Some (guarding_of guard.entry)) arm (map expr_of words.now) (round_of round.entry) (made self.old)) }
    {
        let target = &guard.arms[arm as usize];
        let label = above(guard.label, arm)?;
        self.set_row(round.work, words)?;
        self.recut(round.mark, guard.mark)?;
        self.push_moves(target.slots.as_slice(), round.work)?;
        self.push(Flat::Jump(label))
    }

    /// Cuts the stack to the mark outside, if it is another.
    fn recut(&mut self, mark: u32, outside: u32) -> Result<(), FrameError>
        ensures made { OnOk result (made self.new ≡ recut_onto mark outside (made self.old)) }
    {
        if outside == mark {
            Ok(())
        } else {
            self.push(Flat::Cut(outside))
        }
    }

    pub fn leave(&mut self, results: &[WExpr], work: u32) -> Result<(), FrameError>
        ensures made { OnOk result (made self.new ≡ leave_onto (map expr_of results.now) work (made self.old)) }
    {
        let first = self.row(work, results)?;
        self.push(Flat::Leave(first, number(results.len())?))
    }
}
