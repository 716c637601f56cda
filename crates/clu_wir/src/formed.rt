//! Whether word code is well formed: each statement finds what it leads to round it, and each name that it raises among the
//! constants.

ghost use Rattle.std.specs.Prelude.{◌≡◌, map, option_map, slice_get};
ghost use Rattle.std.specs.Option.{option_copied};
ghost use Rattle.clu_wir.specs.Formed.{all_formed, arm_formed_of, arms_formed, counts_of, formed_of, in_a_guard, is_count, is_formed, is_text, place_of, standing_of};

use crate::routine::WRoutine;
use crate::statement::{WArm, WStmt};
use clu_base::{Bytes, Const, ObjConst};

/// What stands round a statement.
#[derive(Clone, Copy)]
struct Surroundings<'a> {
    constants: &'a [ObjConst],
    in_loop: bool,
    /// The innermost guard.
    guards: Option<&'a Guards<'a>>,
}

/// A guard in whose list a statement stands, and those outside it.
#[derive(Clone, Copy)]
struct Guards<'a> {
    arms: &'a [WArm],
    outside: Option<&'a Guards<'a>>,
}

/// The number of the constant that is this string.
#[tactic(auto, unfolding(crate::specs::Formed::place_of))]
pub fn place_of(constants: &[ObjConst], text: &Bytes) -> Option<usize>
    ensures { result ≡ place_of constants.now text.now }
{
    constants
        .iter()
        .position(|constant| is_text(constant, text))
}

fn is_text(constant: &ObjConst, text: &Bytes) -> bool
    ensures { result ≡ is_text text.now constant.now }
{
    match constant {
        ObjConst::Value(Const::Str(bytes)) => bytes.as_slice() == text.as_slice(),
        _ => false,
    }
}

impl WRoutine {
    /// Whether it is well formed: it names its own slots alone, each Break and Continue stands in a loop, each Exit in a guard
    /// with such an arm, which has as many slots as it gives words, and each name of a Raise or a Signal is a constant.
    pub fn is_formed(&self) -> bool
        ensures { result ≡ is_formed self.now }
    {
        let round = Surroundings {
            constants: self.constants.as_slice(),
            in_loop: false,
            guards: None,
        };
        self.keeps_slots() && list(self.body.as_slice(), round)
    }
}

#[cycle(forms)]
fn list(statements: &[WStmt], round: Surroundings<'_>) -> bool
    ensures { result ≡ all_formed (map formed_of statements.now) (standing_of round.entry) }
{
    for each in statements {
        if !statement(each, round) {
            return false;
        }
    }
    true
}

#[cycle(forms)]
fn arms(arms: &[WArm], round: Surroundings<'_>) -> bool
    ensures { result ≡ arms_formed (map arm_formed_of arms.now) (standing_of round.entry) }
{
    for arm in arms {
        if !list(arm.body.as_slice(), round) {
            return false;
        }
    }
    true
}

#[cycle(forms)]
fn statement(statement: &WStmt, round: Surroundings<'_>) -> bool
    ensures { result ≡ formed_of statement.now (standing_of round.entry) }
{
    match statement {
        WStmt::If(_, then, other) => list(then.as_slice(), round) && list(other.as_slice(), round),
        WStmt::Loop(body) | WStmt::Iterate(_, _, _, body) => {
            let in_loop = true;
            list(body.as_slice(), Surroundings { in_loop, ..round })
        }
        WStmt::Break | WStmt::Continue => round.in_loop,
        WStmt::Raise(name, _) | WStmt::Signal(name, _) => {
            place_of(round.constants, name).is_some()
        }
        WStmt::Exit(inside, arm, words) => match round.arms(*inside) {
            Some(arms) => has_slots(arms, *arm, words.len()),
            None => false,
        },
        WStmt::Guard(body, handlers) => {
            guarded(body.as_slice(), handlers.as_slice(), round) && arms(handlers.as_slice(), round)
        }
        WStmt::Resignal(body, _) => list(body.as_slice(), round),
        _ => true,
    }
}

/// The list of a guard with these arms.
#[cycle(forms)]
fn guarded<'a>(body: &[WStmt], arms: &'a [WArm], round: Surroundings<'a>) -> bool
    ensures { result ≡ all_formed (map formed_of body.now) (in_a_guard (counts_of arms.now) (standing_of round.entry)) }
{
    let guards = Guards {
        arms,
        outside: round.guards,
    };
    let guards = Some(&guards);
    list(body, Surroundings { guards, ..round })
}

impl<'a> Surroundings<'a> {
    /// The arms of the guard that so many others stand inside of.
    fn arms(self, inside: u32) -> Option<&'a [WArm]>
        ensures { option_map counts_of (option_copied result) ≡ slice_get (standing_of self.entry).guards inside }
    {
        let mut guards = self.guards?;
        let mut left = inside;
        while left > 0 {
            guards = guards.outside?;
            left -= 1;
        }
        Some(guards.arms)
    }
}

/// Whether an arm is there, with so many slots.
fn has_slots(arms: &[WArm], arm: u32, count: usize) -> bool
    ensures { result ≡ is_count count (slice_get (counts_of arms.now) arm) }
{
    match arms.get(arm as usize) {
        Some(arm) => arm.slots.len() == count,
        None => false,
    }
}
