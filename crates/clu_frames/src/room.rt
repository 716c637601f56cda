//! How many words of code steps take.

ghost use Rattle.std.specs.Prelude.{◌≡◌};
ghost use Rattle.clu_frames.specs.Steps.{code_words, enter_words, step_words, with_both, with_step};

use crate::flat::{Flat, FlatRoutine};
use clu_wir::{Cost, WExpr};

impl Flat {
    /// The words of code that the step takes at most, in a frame of any size.
    pub fn words(&self) -> u64
        ensures { result ≡ step_words self.now }
    {
        match self {
            Flat::Set(_, value) => with(value, Cost::Save),
            Flat::Put(address, _, value) => both(address, value, Cost::Save),
            Flat::Label(_) => 0,
            Flat::Jump(_) => Cost::Jump.words(),
            Flat::Branch(condition, _, _) => with(condition, Cost::Branch),
            Flat::Enter(arguments) => enter(*arguments),
            Flat::Bind(number, value, _) => both(number, value, Cost::Bind),
            Flat::Invoke(routine, _) => with(routine, Cost::Invoke),
            Flat::Yield(_, _) => Cost::Yield.words(),
            Flat::Resume(_) => Cost::Resume.words(),
            Flat::Take(_) => Cost::Take.words(),
            Flat::Result(_, _) => Cost::Result.words(),
            Flat::Cut(_) => Cost::Cut.words(),
            Flat::Leave(_, _) => Cost::Leave.words(),
            Flat::Raise(_) => Cost::Raise.words(),
            Flat::Signal(_) => Cost::Signal.words(),
            Flat::Pass => Cost::Pass.words(),
            Flat::Prim(_, _) => Cost::Primitive.words(),
        }
    }
}

/// An expression, and a step over its word.
fn with(value: &WExpr, cost: Cost) -> u64
    ensures { result ≡ with_step value.now cost }
{
    value.words().saturating_add(cost.words())
}

/// Two expressions, and a step over their words.
fn both(first: &WExpr, second: &WExpr, cost: Cost) -> u64
    ensures { result ≡ with_both first.now second.now cost }
{
    first
        .words()
        .saturating_add(second.words())
        .saturating_add(cost.words())
}

fn enter(arguments: u32) -> u64
    ensures { result ≡ enter_words arguments }
{
    let copies = Cost::Argument.words().saturating_mul(u64::from(arguments));
    Cost::Enter.words().saturating_add(copies)
}

impl FlatRoutine {
    /// The words of code that it takes at most.
    pub fn words(&self) -> u64
        ensures { result ≡ code_words self.now.code.items }
    {
        let mut words = 0u64;
        for step in &self.code {
            words = words.saturating_add(step.words());
        }
        words
    }
}
