//! The words of a routine, in the making and in the end.

ghost use Rattle.rv_select.specs.Instructions.{AreInstructions};

use clu_object::Hole;
use rv_isa::Instr;

/// The words of a routine so far, with what is still to be filled in.
#[derive(Drop)]
pub(crate) struct Words {
    pub code: Vec<u32>,
    pub holes: Vec<Hole>,
    /// For each label the number of the word at which it stands.
    pub labels: Vec<Option<u32>>,
    pub references: Vec<Reference>,
    pub ghost instructions: { AreInstructions code.items },
}

/// An instruction whose distance to a label is still 0.
#[derive(Clone, Copy)]
pub struct Reference {
    /// The number of its word.
    pub at: u32,
    pub label: u32,
    pub instr: Instr,
}

/// Finished words, and the holes in them.
#[derive(Drop)]
pub(crate) struct Finished {
    pub code: Vec<u32>,
    pub holes: Vec<Hole>,
    pub ghost instructions: { AreInstructions code.items },
}
