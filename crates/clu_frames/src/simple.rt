//! Statements that go on with the next one and have none inside.

ghost use Rattle.std.specs.Prelude.{◌≡◌, OnOk, map};
ghost use Rattle.clu_wir.specs.Plain.{expr_of};
ghost use Rattle.clu_frames.specs.Flattening.{call_onto, made, primitive_onto, taken_onto, yield_onto};

use crate::errors::FrameError;
use crate::flat::Flat;
use crate::steps::{Steps, number};
use clu_wir::WExpr;

impl Steps {
    pub fn call(
        &mut self,
        routine: &WExpr,
        arguments: &[WExpr],
        results: &[u32],
        work: u32,
    ) -> Result<(), FrameError>
        ensures made { OnOk result (made self.new ≡ call_onto (expr_of routine.now) (map expr_of arguments.now) results.now work (made self.old)) }
    {
        self.invoke(routine, arguments, work)?;
        self.take(results)
    }

    /// To the slots the words that travelled: one is the value itself.
    pub fn take(&mut self, slots: &[u32]) -> Result<(), FrameError>
        ensures made { OnOk result (made self.new ≡ taken_onto slots.now (made self.old)) }
    {
        match slots {
            [] => Ok(()),
            [only] => self.push(Flat::Take(*only)),
            [_, _, ..] => self.push_results(slots),
        }
    }

    pub fn primitive(
        &mut self,
        number: u32,
        arguments: &[WExpr],
        results: &[u32],
        work: u32,
    ) -> Result<(), FrameError>
        ensures made { OnOk result (made self.new ≡ primitive_onto number (map expr_of arguments.now) results.now work (made self.old)) }
    {
        self.set_row(work, arguments)?;
        self.push(Flat::Prim(number, work))?;
        self.push_moves(results, work)
    }

    pub fn yield_words(&mut self, words: &[WExpr], work: u32) -> Result<(), FrameError>
        ensures made { OnOk result (made self.new ≡ yield_onto (map expr_of words.now) work (made self.old)) }
    {
        let first = self.row(work, words)?;
        self.push(Flat::Yield(first, number(words.len())?))
    }
}
