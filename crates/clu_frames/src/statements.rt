//! The walk over the statements of word code.

ghost use Rattle.std.specs.Prelude.{◌≡◌, IsTrue, OnOk, map};
ghost use Rattle.clu_wir.specs.Formed.{all_formed, arm_formed_of, arms_formed, formed_of, in_a_guard, in_a_loop};
ghost use Rattle.clu_wir.specs.Plain.{arm_of, arms_of, body_of, expr_of, stmt_of};
ghost use Rattle.clu_frames.specs.Flattening.{all_onto, arms_onto, end_of_turns, end_uncut, exit_of, guarded_onto, guarding_of, is_break, is_none, is_only_break, made, onto, resignal_onto, round_of, turns_ended, turns_onto, unless_from};
ghost use Rattle.clu_frames.specs.Standing.{arms_of as counts, standing_of};

use crate::errors::FrameError;
use crate::flat::Flat;
use crate::steps::{Steps, above, mark_of};
use crate::surroundings::{Guard, Guards, Surroundings, Turns};
use clu_base::Bytes;
use clu_wir::{WArm, WExpr, WStmt};

impl Steps {
    #[cycle(statements)]
    #[tactic(auto, unfolding(crate::specs::Flattening::onto, crate::specs::Flattening::all_onto, crate::specs::Flattening::arms_onto))]
    pub fn list(&mut self, statements: &[WStmt], round: Surroundings<'_>) -> Result<(), FrameError>
        requires formed { IsTrue (all_formed (map formed_of statements.now) (standing_of round)) }
        ensures made { OnOk result (made self.new ≡ all_onto (body_of statements.now) (round_of round.entry) (made self.old)) }
    {
        for statement in statements {
            self.statement(statement, round)?;
        }
        Ok(())
    }

    #[cycle(statements)]
    #[tactic(auto, unfolding(crate::specs::Flattening::onto, crate::specs::Flattening::all_onto, crate::specs::Flattening::arms_onto))]
    fn statement(&mut self, statement: &WStmt, round: Surroundings<'_>) -> Result<(), FrameError>
        requires formed { IsTrue (formed_of statement.now (standing_of round)) }
        ensures made { OnOk result (made self.new ≡ onto (stmt_of statement.now) (round_of round.entry) (made self.old)) }
    {
        let work = round.work;
        match statement {
            WStmt::Set(slot, value) => self.set(*slot, value),
            WStmt::Put(address, bytes, value) => self.put(address, *bytes, value),
            WStmt::Call(routine, arguments, results) => {
                self.call(routine, arguments.as_slice(), results.as_slice(), work)
            }
            WStmt::Prim(number, arguments, results) => {
                self.primitive(*number, arguments.as_slice(), results.as_slice(), work)
            }
            WStmt::Bind(number, value, to) => self.bind(number, value, *to),
            WStmt::If(condition, then, other) => {
                if is_none(then.as_slice()) {
                    return self.unless(other.as_slice(), condition, round);
                }
                let otherwise = self.begin_choice(condition)?;
                self.list(then.as_slice(), round)?;
                let end = self.begin_other(otherwise, is_none(other.as_slice()))?;
                self.list(other.as_slice(), round)?;
                self.push(Flat::Label(end))
            }
            WStmt::Loop(body) => self.turns(body.as_slice(), round),
            WStmt::Break => self.break_loop(round.turns.unwrap()),
            WStmt::Continue => self.push(Flat::Jump(round.turns.unwrap().next)),
            WStmt::Iterate(routine, arguments, items, body) => {
                let turns = self.begin_turns(
                    routine,
                    arguments.as_slice(),
                    items.as_slice(),
                    round,
                )?;
                self.iterate(body.as_slice(), turns, round)
            }
            WStmt::Yield(words) => self.yield_words(words.as_slice(), work),
            WStmt::Raise(name, objects) => {
                self.exception(name, objects.as_slice(), round)?;
                self.push(Flat::Raise(work))
            }
            WStmt::Signal(name, objects) => {
                self.exception(name, objects.as_slice(), round)?;
                self.push(Flat::Signal(work))
            }
            WStmt::Exit(inside, arm, words) => self.exit(*inside, *arm, words.as_slice(), round),
            WStmt::Guard(body, arms) => {
                let guard = self.begin_guard(arms.as_slice(), round)?;
                self.guarded(body.as_slice(), guard, round)?;
                self.arms(arms.as_slice(), guard, round)
            }
            WStmt::Resignal(body, names) => {
                self.resignalled(body.as_slice(), names.as_slice(), round)
            }
            WStmt::Return(results) => self.leave(results.as_slice(), work),
        }
    }

    /// A list that runs where the condition is 0.
    #[cycle(statements)]
    #[tactic(auto, unfolding(crate::specs::Flattening::onto, crate::specs::Flattening::all_onto, crate::specs::Flattening::arms_onto))]
    fn unless(
        &mut self,
        other: &[WStmt],
        condition: &WExpr,
        round: Surroundings<'_>,
    ) -> Result<(), FrameError>
        requires formed { IsTrue (all_formed (map formed_of other.now) (standing_of round)) }
        ensures made { OnOk result (made self.new ≡ unless_from (exit_of (body_of other.now) (round_of round.entry).turns) (expr_of condition.now) (all_onto (body_of other.now)) (round_of round.entry) (made self.old)) }
    {
        match exit_of(other, round.turns) {
            Some(end) => self.branch(condition, false, end),
            None => {
                let end = self.label()?;
                self.branch(condition, true, end)?;
                self.list(other, round)?;
                self.push(Flat::Label(end))
            }
        }
    }

    #[cycle(statements)]
    #[tactic(auto, unfolding(crate::specs::Flattening::onto, crate::specs::Flattening::all_onto, crate::specs::Flattening::arms_onto))]
    fn turns(&mut self, body: &[WStmt], round: Surroundings<'_>) -> Result<(), FrameError>
        requires formed { IsTrue (all_formed (map formed_of body.now) (in_a_loop (standing_of round))) }
        ensures made { OnOk result (made self.new ≡ turns_onto (all_onto (body_of body.now)) (round_of round.entry) (made self.old)) }
    {
        let next = self.labels(2)?;
        let end = above(next, 1)?;
        let turns = Some(Turns {
            next,
            end,
            cut: None,
        });
        self.push(Flat::Label(next))?;
        self.list(body, Surroundings { turns, ..round })?;
        self.push(Flat::Jump(next))?;
        self.push(Flat::Label(end))
    }

    /// The body of a loop over an iterator, and what begins its next turn.
    #[cycle(statements)]
    #[tactic(auto, unfolding(crate::specs::Flattening::onto, crate::specs::Flattening::all_onto, crate::specs::Flattening::arms_onto))]
    fn iterate(
        &mut self,
        body: &[WStmt],
        turns: Turns,
        round: Surroundings<'_>,
    ) -> Result<(), FrameError>
        requires formed { IsTrue (all_formed (map formed_of body.now) (in_a_loop (standing_of round))) }
        ensures made { OnOk result (made self.new ≡ turns_ended (all_onto (body_of body.now)) turns (round_of round.entry) (made self.old)) }
    {
        let top = round.work;
        let work = above(top, 1)?;
        let mark = mark_of(top)?;
        self.list(
            body,
            Surroundings {
                work,
                turns: Some(turns),
                mark,
                ..round
            },
        )?;
        self.push(Flat::Label(turns.next))?;
        self.push(Flat::Resume(top))?;
        self.push(Flat::Label(turns.end))
    }

    /// The list of a guard, in its region.
    #[cycle(statements)]
    #[tactic(auto, unfolding(crate::specs::Flattening::onto, crate::specs::Flattening::all_onto, crate::specs::Flattening::arms_onto))]
    fn guarded<'a>(
        &mut self,
        body: &[WStmt],
        guard: Guard<'a>,
        round: Surroundings<'a>,
    ) -> Result<(), FrameError>
        requires formed { IsTrue (all_formed (map formed_of body.now) (in_a_guard (counts guard) (standing_of round))) }
        ensures made { OnOk result (made self.new ≡ guarded_onto (all_onto (body_of body.now)) (guarding_of guard.entry) guard.entry.region guard.entry.end (round_of round.entry) (made self.old)) }
    {
        let guards = Guards {
            guard,
            outside: round.guards,
        };
        self.list(
            body,
            Surroundings {
                guards: Some(&guards),
                region: Some(guard.region),
                ..round
            },
        )?;
        self.close_region(guard.region, guard.end)
    }

    /// The list whose exceptions of these names are signalled on, in its region.
    #[cycle(statements)]
    #[tactic(auto, unfolding(crate::specs::Flattening::onto, crate::specs::Flattening::all_onto, crate::specs::Flattening::arms_onto))]
    fn resignalled(
        &mut self,
        body: &[WStmt],
        names: &[Bytes],
        round: Surroundings<'_>,
    ) -> Result<(), FrameError>
        requires formed { IsTrue (all_formed (map formed_of body.now) (standing_of round)) }
        ensures made { OnOk result (made self.new ≡ resignal_onto (all_onto (body_of body.now)) names.now (round_of round.entry) (made self.old)) }
    {
        let end = self.label()?;
        let region = self.open_region(round.region)?;
        self.list(
            body,
            Surroundings {
                region: Some(region),
                ..round
            },
        )?;
        self.close_region(region, end)?;
        self.pass_on(names, region, round.mark)?;
        self.push(Flat::Label(end))
    }

    #[cycle(statements)]
    #[tactic(auto, unfolding(crate::specs::Flattening::onto, crate::specs::Flattening::all_onto, crate::specs::Flattening::arms_onto))]
    fn arms(
        &mut self,
        arms: &[WArm],
        guard: Guard<'_>,
        round: Surroundings<'_>,
    ) -> Result<(), FrameError>
        requires formed { IsTrue (arms_formed (map arm_formed_of arms.now) (standing_of round)) }
        ensures made { OnOk result (made self.new ≡ arms_onto (arms_of (map arm_of arms.now)) guard.entry.label guard.entry.end guard.entry.region (round_of round.entry) (made self.old)) }
    {
        let mut label = guard.label;
        for arm in arms {
            self.begin_arm(arm, guard.region, round.mark)?;
            self.push(Flat::Label(label))?;
            self.list(arm.body.as_slice(), round)?;
            self.push(Flat::Jump(guard.end))?;
            label = above(label, 1)?;
        }
        self.push(Flat::Label(guard.end))
    }
}

/// The label at which a list leaves its loop that does nothing else.
fn exit_of(list: &[WStmt], turns: Option<Turns>) -> Option<u32>
    ensures { result ≡ exit_of (body_of list.now) turns }
{
    if is_only_break(list) {
        end_of_turns(turns)
    } else {
        None
    }
}

fn is_none(list: &[WStmt]) -> bool
    ensures { result ≡ is_none (body_of list.now) }
{
    match list {
        [] => true,
        [_, ..] => false,
    }
}

fn is_only_break(list: &[WStmt]) -> bool
    ensures { result ≡ is_only_break (body_of list.now) }
{
    match list {
        [] => false,
        [only] => is_break(only),
        [_, _, ..] => false,
    }
}

fn is_break(statement: &WStmt) -> bool
    ensures { result ≡ is_break (stmt_of statement.now) }
{
    match statement {
        WStmt::Break => true,
        _ => false,
    }
}

/// The label of the loop's end, if there is nothing to cut before it.
fn end_of_turns(turns: Option<Turns>) -> Option<u32>
    ensures { result ≡ end_of_turns turns }
{
    match turns {
        Some(turns) => end_uncut(turns.cut, turns.end),
        None => None,
    }
}

fn end_uncut(cut: Option<u32>, end: u32) -> Option<u32>
    ensures { result ≡ end_uncut cut end }
{
    match cut {
        None => Some(end),
        Some(_) => None,
    }
}
