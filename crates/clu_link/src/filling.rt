//! The words of a program's code, with its holes filled in.

ghost use Rattle.std.specs.Prelude.{◌≡◌, ◌≤◌, length, IfNone, IfSome};
ghost use Rattle.clu_wir.specs.Numbers.{kind_number};
ghost use Rattle.clu_wir.specs.Rooms.{plus, times};
ghost use Rattle.clu_reach.specs.Tables.{own_holes};

use crate::places::Places;
use clu_object::{Hole, HoleKind, ObjRoutine};
use clu_reach::{CELL, LinkError, Program, own_holes};
use std::alloc::Global;

/// The numbers that a LUI and an ADDI can give.
const HOLE_LIMIT: u64 = 1 << 30;

/// What the holes of a code are filled by.
#[derive(Clone, Copy)]
struct Filling {
    /// The address of its first word.
    first: u64,
    /// The address of its regions table.
    regions: u64,
    /// The numbers of the first cells for descriptors, constants and types in a link table.
    descriptors: u64,
    constants: u64,
    types: u64,
    /// That of the cell for the next hole that names an own variable.
    own: u64,
}

/// The code of a program.
pub fn code_words(
    alloc: Global,
    program: &Program<'_>,
    places: &Places,
) -> Result<Vec<u32>, LinkError> {
    let mut words = Vec::new(alloc);
    for (number, code) in program.codes.as_slice().iter().enumerate() {
        let (first, regions) = places.of_code(number)?;
        let filling = Filling::new(code.routine(), first, regions);
        add_code(&mut words, code.routine(), filling, places)?;
    }
    Ok(words)
}

/// Adds the words of a code.
fn add_code(
    words: &mut Vec<u32>,
    routine: &ObjRoutine,
    filling: Filling,
    places: &Places,
) -> Result<(), LinkError> {
    let first = words.len();
    words.extend_from_slice(routine.code.as_slice())?;
    let mut filling = filling;
    for hole in routine.holes.as_slice() {
        let number = filling.number(hole, places)?;
        let at = first.saturating_add(hole.at as usize);
        fill(words, at, number)?;
    }
    Ok(())
}

impl Filling {
    fn new(routine: &ObjRoutine, first: u64, regions: u64) -> Filling
        ensures descriptors { result.descriptors ≡ plus (length routine.now.uses) 1 }
        ensures constants { result.constants ≡ plus (times (length routine.now.uses) 2) 1 }
        ensures own { result.own ≡ plus result.constants (length routine.now.constants) }
        ensures types { result.types ≡ plus result.own (own_holes routine.now.holes) }
    {
        let uses = routine.uses.as_slice().len() as u64;
        let constants = uses.saturating_mul(2).saturating_add(1);
        let own = constants.saturating_add(routine.constants.as_slice().len() as u64);
        Filling {
            first,
            regions,
            descriptors: uses.saturating_add(1),
            constants,
            types: own.saturating_add(own_holes(routine.holes.as_slice())),
            own,
        }
    }

    /// What a hole is to give: the place of a cell in the link table, or an address.
    fn number(&mut self, hole: &Hole, places: &Places) -> Result<u64, LinkError> {
        let number = hole.number as u64;
        match kind_of(hole.kind) {
            Some(HoleKind::Entry) => Ok(cell(1, number)),
            Some(HoleKind::Descriptor) => Ok(cell(self.descriptors, number)),
            Some(HoleKind::Constant) => Ok(cell(self.constants, number)),
            Some(HoleKind::RoutineOwn | HoleKind::ClusterOwn) => Ok(self.next_own()),
            Some(HoleKind::TypeWord | HoleKind::TypeCell) => Ok(cell(self.types, number)),
            Some(HoleKind::Regions) => Ok(self.regions),
            Some(HoleKind::Runtime) => places.entry(hole.number as usize),
            Some(HoleKind::Code) => Ok(self.first.saturating_add(number.saturating_mul(4))),
            None => Err(LinkError::NotYet),
        }
    }

    /// The place of the cell for the next hole that names an own variable.
    fn next_own(&mut self) -> u64
        ensures place { result ≡ times self.old.own 8 }
        ensures next { self.new.own ≡ plus self.old.own 1 }
    {
        let place = self.own.saturating_mul(CELL);
        self.own = self.own.saturating_add(1);
        place
    }
}

/// How many bytes a cell is from the start of the link table.
fn cell(first: u64, number: u64) -> u64
    ensures { result ≡ times (plus first number) 8 }
{
    first.saturating_add(number).saturating_mul(CELL)
}

/// The kinds of holes by their numbers.
fn kind_of(number: u8) -> Option<HoleKind>
    ensures kind { IfSome result (λ kind. kind_number kind ≡ number) }
    ensures none { IfNone result (9 ≤ number) }
{
    match number {
        0 => Some(HoleKind::Entry),
        1 => Some(HoleKind::Descriptor),
        2 => Some(HoleKind::Constant),
        3 => Some(HoleKind::RoutineOwn),
        4 => Some(HoleKind::ClusterOwn),
        5 => Some(HoleKind::TypeWord),
        6 => Some(HoleKind::Regions),
        7 => Some(HoleKind::Runtime),
        8 => Some(HoleKind::Code),
        _ => None,
    }
}

/// Lets the LUI at this word and the ADDI after it give a number.
fn fill(words: &mut Vec<u32>, at: usize, number: u64) -> Result<(), LinkError> {
    let code = words.as_mut_slice();
    if number >= HOLE_LIMIT || code.len() < 2 || at > code.len() - 2 {
        return Err(LinkError::NotYet);
    }
    let number = number as u32;
    code[at] = with_upper(code[at], number);
    code[at + 1] = with_lower(code[at + 1], number);
    Ok(())
}

/// A LUI of the upper bits of a number: the nearest from which the lower twelve, with their sign, lead to it.
fn with_upper(lui: u32, number: u32) -> u32 {
    (lui & 0xfff) | (number.wrapping_add(2048) & 0xffff_f000)
}

/// An ADDI of the lower twelve bits of a number.
fn with_lower(addi: u32, number: u32) -> u32 {
    (addi & 0xf_ffff) | ((number & 0xfff) << 20)
}
