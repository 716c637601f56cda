//! The strings of a program, each once, and the words of its constants.

use clu_base::{Bytes, Const, Memory};
use clu_object::{ObjRoutine, Region};
use clu_reach::{LinkError, Program, constant_of};
use clu_types::Actual;
use clu_wir::{TRAPS, Trap};
use indexmap::IndexSet;
use std::alloc::Global;

/// The name of the exception that every routine may signal.
pub const FAILURE: &[u8] = b"failure";

/// What stands before the name of an exception that was not handled.
pub const UNHANDLED: &[u8] = b"unhandled exception: ";

/// The word of a constant.
#[derive(Clone, Copy)]
pub enum Cell {
    /// This word.
    Word(u64),
    /// The address of the string of this number.
    Text(usize),
}

/// The strings of a trap, by their numbers.
#[derive(Clone, Copy)]
pub struct TrapTexts {
    pub name: usize,
    pub object: Option<usize>,
}

/// The strings of a program, and the constants of its code.
#[derive(Drop)]
pub struct Texts {
    /// Each string once, in the order in which it is met first.
    pub strings: IndexSet<Bytes>,
    /// For each callable its constants.
    pub constants: Vec<Vec<Cell>>,
    /// The string `failure`.
    pub failure: usize,
    /// The string `unhandled exception: `.
    pub unhandled: usize,
    /// Those of each trap.
    pub traps: Vec<TrapTexts>,
}

/// The strings and constants of a program.
pub fn collect_texts(alloc: Global, program: &Program<'_>) -> Result<Texts, LinkError> {
    let mut texts = Texts {
        strings: IndexSet::new(alloc),
        constants: Vec::new(alloc),
        failure: 0,
        unhandled: 0,
        traps: Vec::new(alloc),
    };
    match texts.add_all(alloc, program) {
        Ok(()) => Ok(texts),
        Err(error) => Err(error),
    }
}

impl Texts {
    fn add_all(&mut self, alloc: Global, program: &Program<'_>) -> Result<(), LinkError> {
        self.failure = number(alloc, &mut self.strings, FAILURE)?;
        self.unhandled = number(alloc, &mut self.strings, UNHANDLED)?;
        self.add_traps(alloc)?;
        for callable in program.callables.as_slice() {
            let routine = program.routine(callable.code)?;
            self.add(alloc, routine, callable.actuals.as_slice())?;
        }
        Ok(())
    }

    fn add_traps(&mut self, alloc: Global) -> Result<(), LinkError> {
        for trap in TRAPS {
            let texts = trap_texts(alloc, &mut self.strings, trap)?;
            self.traps.push(texts)?;
        }
        Ok(())
    }

    /// Adds what the code of a callable names.
    fn add(
        &mut self,
        alloc: Global,
        routine: &ObjRoutine,
        actuals: &[Actual],
    ) -> Result<(), LinkError> {
        let cells = constants_of(alloc, &mut self.strings, routine, actuals)?;
        self.constants.push(cells)?;
        names_of_arms(alloc, &mut self.strings, routine.regions.as_slice())?;
        Ok(())
    }
}

/// The number of a string, which is added if it is new.
fn number(alloc: Global, strings: &mut IndexSet<Bytes>, text: &[u8]) -> Result<usize, Memory> {
    let (number, _) = strings.insert_full(Bytes::from_slice(alloc, text)?)?;
    Ok(number)
}

/// The strings of a trap.
fn trap_texts(
    alloc: Global,
    strings: &mut IndexSet<Bytes>,
    trap: Trap,
) -> Result<TrapTexts, Memory> {
    let name = number(alloc, strings, trap.name())?;
    let object = match trap.text() {
        Some(text) => Some(number(alloc, strings, text)?),
        None => None,
    };
    Ok(TrapTexts { name, object })
}

fn constants_of(
    alloc: Global,
    strings: &mut IndexSet<Bytes>,
    routine: &ObjRoutine,
    actuals: &[Actual],
) -> Result<Vec<Cell>, LinkError> {
    let mut cells = Vec::new(alloc);
    for constant in routine.constants.as_slice() {
        match constant_of(constant, actuals) {
            Some(value) => cells.push(cell_of(alloc, strings, value)?)?,
            None => return Err(LinkError::NotYet),
        }
    }
    Ok(cells)
}

/// The word of a constant, by the words of objects.
fn cell_of(alloc: Global, strings: &mut IndexSet<Bytes>, value: &Const) -> Result<Cell, Memory> {
    match value {
        Const::Null => Ok(Cell::Word(0)),
        Const::Bool(b) => Ok(Cell::Word(if *b { 1 } else { 0 })),
        Const::Int(n) => Ok(Cell::Word(u64::from_le_bytes(n.to_le_bytes()))),
        Const::Char(c) => Ok(Cell::Word(*c as u64)),
        Const::Str(text) => Ok(Cell::Text(number(alloc, strings, text.as_slice())?)),
    }
}

/// The names of arms are strings of the program too, as names are told apart by their addresses.
fn names_of_arms(
    alloc: Global,
    strings: &mut IndexSet<Bytes>,
    regions: &[Region],
) -> Result<(), Memory> {
    for region in regions {
        for arm in region.arms.as_slice() {
            number(alloc, strings, arm.name.as_slice())?;
        }
    }
    Ok(())
}
