//! Where the words of expressions are.

ghost use Rattle.std.specs.Prelude.{◌≡◌, IfOk, IsTrue, OnOk, bit_or, nat_lt, slice_get, slice_set};
ghost use Rattle.rv_select.specs.Operands.{bit as bit_at, bit_of as bits_of, free as free_in, free_among, free_of, has_free, has_free_among, has_free_of, keeping as keeping_in, put_onto, register_of, register_onto, unbound};
ghost use Rattle.rv_select.specs.Written.{written};

use crate::error::{Answer, SelectError};
use crate::number::known;
use crate::register::{Register, WORK};
use crate::words::Words;

/// Where the word of an expression is.
#[derive(Clone, Copy)]
pub enum Operand {
    At(Register),
    Known(u64),
}

impl Operand {
    /// A register that holds the word: `to`, where it is in none yet.
    #[tactic(auto, unfolding(crate::specs::Operands::register_onto))]
    pub(crate) fn register(self, words: &mut Words, to: Register) -> Answer<Register>
        ensures register { IfOk result (λ register. register ≡ register_of self to) }
        ensures written { OnOk result (written words.new ≡ register_onto self to (written words.old)) }
    {
        match self {
            Operand::At(register) => Ok(register),
            Operand::Known(word) => {
                if word == 0 {
                    return Ok(Register::Zero);
                }
                known(words, to, word)?;
                Ok(to)
            }
        }
    }

    /// Gives a register the word.
    #[tactic(auto, unfolding(crate::specs::Operands::put_onto))]
    pub(crate) fn put(self, words: &mut Words, to: Register) -> Answer<()>
        ensures { OnOk result (written words.new ≡ put_onto self to (written words.old)) }
    {
        match self {
            Operand::At(register) => {
                if register.number() == to.number() {
                    return Ok(());
                }
                words.copy(to, register)
            }
            Operand::Known(word) => known(words, to, word),
        }
    }
}

/// How many words an expression may bind at once.
const MOST_BOUND: usize = 4;

/// What the evaluation of an expression finds and leaves.
#[derive(Clone, Copy)]
pub struct Scope {
    /// Whether the routine has no frame: its slots are the arguments, and what it raises is raised where it was called.
    pub is_leaf: bool,
    /// A bit for each register that is to be left as it is.
    pub kept: u32,
    pub bound: [Operand; MOST_BOUND],
}

impl Scope {
    /// At the start of a step.
    pub(crate) fn new(is_leaf: bool) -> Scope
        ensures { result ≡ unbound is_leaf }
    {
        Scope {
            is_leaf,
            kept: 0,
            bound: [Operand::Known(0); MOST_BOUND],
        }
    }

    /// The first register of work that may change.
    pub(crate) fn free(&self) -> Answer<Register>
        ensures register { IfOk result (λ register. register ≡ free_in self.now) }
        ensures fits { OnOk result (IsTrue (has_free self.now)) }
    {
        first_free(self.kept)
    }

    /// The same, where the register of a word is to be left too.
    pub(crate) fn keeping(self, operand: Operand) -> Scope
        ensures { result ≡ keeping_in operand self }
    {
        Scope {
            kept: self.kept | bit_of(operand),
            ..self
        }
    }

    /// The word that is bound by this number.
    pub(crate) fn bound(&self, number: u32) -> Option<Operand>
        ensures { result ≡ slice_get self.now.bound number }
    {
        self.bound.get(number as usize).copied()
    }

    /// The same, with the bound words of another.
    pub(crate) fn with_bound(self, others: Scope) -> Scope
        ensures { result ≡ record self { bound = others.bound } }
    {
        let bound = others.bound;
        Scope { bound, ..self }
    }

    /// Binds a word by this number.
    pub(crate) fn bind(&mut self, number: usize, operand: Operand) -> Answer<()>
        ensures bound { OnOk result (self.new ≡ record self.old { bound = slice_set self.old.bound number operand }) }
        ensures room { OnOk result (IsTrue (nat_lt number 4)) }
    {
        if MOST_BOUND <= number {
            return Err(SelectError::NotYet);
        }
        self.bound[number] = operand;
        Ok(())
    }
}

/// The first register of work whose bit is not in the set.
#[tactic(auto, unfolding(crate::specs::Operands::free_of, crate::specs::Operands::has_free_of))]
fn first_free(kept: u32) -> Answer<Register>
    ensures register { IfOk result (λ register. register ≡ free_of kept) }
    ensures fits { OnOk result (IsTrue (has_free_of kept)) }
{
    first_among(&WORK, kept)
}

fn first_among(registers: &[Register], kept: u32) -> Answer<Register>
    ensures register { IfOk result (λ register. register ≡ free_among kept registers.now) }
    ensures fits { OnOk result (IsTrue (has_free_among kept registers.now)) }
{
    for register in registers {
        if kept & bit(*register) == 0 {
            return Ok(*register);
        }
    }
    Err(SelectError::NotYet)
}

/// The bit of the register that holds a word, if one does.
fn bit_of(operand: Operand) -> u32
    ensures { result ≡ bits_of operand }
{
    match operand {
        Operand::At(register) => bit(register),
        Operand::Known(_) => 0,
    }
}

fn bit(register: Register) -> u32
    ensures { result ≡ bit_at register }
{
    1u32.wrapping_shl(u32::from(register.number()))
}
