//! How choices and loops over iterators begin.

ghost use Rattle.std.specs.Prelude.{◌≡◌, IfOk, OnOk, map};
ghost use Rattle.clu_wir.specs.Plain.{expr_of};
ghost use Rattle.clu_frames.specs.Flattening.{choice_onto, end_of, made, other_onto, round_of, turns_at, turns_begun};

use crate::errors::FrameError;
use crate::flat::Flat;
use crate::steps::{Steps, above};
use crate::surroundings::{Surroundings, Turns};
use clu_wir::WExpr;

impl Steps {
    /// Goes on at a label, which is the answer, where the condition is 0.
    pub fn begin_choice(&mut self, condition: &WExpr) -> Result<u32, FrameError>
        ensures label { IfOk result (λ label. label ≡ (made self.old).labels) }
        ensures made { OnOk result (made self.new ≡ choice_onto (expr_of condition.now) (made self.old)) }
    {
        let otherwise = self.label()?;
        self.branch(condition, false, otherwise)?;
        Ok(otherwise)
    }

    /// Ends the first list of a choice, and begins the other one unless it is empty. The answer is the label of the
    /// choice's end.
    pub fn begin_other(&mut self, otherwise: u32, is_empty: bool) -> Result<u32, FrameError>
        ensures end { IfOk result (λ label. label ≡ end_of is_empty otherwise (made self.old)) }
        ensures made { OnOk result (made self.new ≡ other_onto is_empty otherwise (made self.old)) }
    {
        if is_empty {
            return Ok(otherwise);
        }
        let end = self.label()?;
        self.push(Flat::Jump(end))?;
        self.push(Flat::Label(otherwise))?;
        Ok(end)
    }

    /// Calls an iterator. The first slot of work keeps the top of the stack round the loop's body. The call goes on at the
    /// Jump after it when the iterator ends, and at the Take after that when it yields.
    pub fn begin_turns(
        &mut self,
        routine: &WExpr,
        arguments: &[WExpr],
        items: &[u32],
        round: Surroundings<'_>,
    ) -> Result<Turns, FrameError>
        ensures turns { IfOk result (λ turns. turns ≡ turns_at (made self.old).labels round.entry.mark) }
        ensures made { OnOk result (made self.new ≡ turns_begun (expr_of routine.now) (map expr_of arguments.now) items.now (round_of round.entry) (made self.old)) }
    {
        let top = round.work;
        let work = above(top, 1)?;
        let next = self.labels(2)?;
        let end = above(next, 1)?;
        self.invoke(routine, arguments, work)?;
        self.push(Flat::Jump(end))?;
        self.push(Flat::Take(top))?;
        self.push_results(items)?;
        Ok(Turns {
            next,
            end,
            cut: Some(round.mark),
        })
    }
}
