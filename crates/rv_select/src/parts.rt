//! The parts of the runtime that no flat code can say, and how a program starts.
//!
//! The hole of a part's regions table is the address of the runtime's own table: the addresses of the strings `failure`
//! and `unhandled exception: `, the address of the descriptor of the procedure at which the program starts, and for each
//! trap two words, the address of the string of its name and the word of its object, or 0 if it has none.

ghost use Rattle.std.specs.Prelude.{◌≡◌, IfOk, OnOk, codes, length};
ghost use Rattle.rv_select.specs.Parts.{part_number};
ghost use Rattle.rv_select.specs.Evaluation.{trap_distance, trap_onto, trap_to};
ghost use Rattle.rv_select.specs.Written.{written};
ghost use Rattle.rv_select.specs.Finished.{blank};
ghost use Rattle.rv_select.specs.Runtime.{HasWords, raising_trap_onto, start_onto, trap_row_onto, trap_rows_onto, traps_onto};
ghost use Rattle.rv_select.specs.Selected.{IsBare, IsPart};

use crate::error::{Answer, SelectError};
use crate::exceptions::part_address;
use crate::register::Register;
use crate::register::Register::{
    Back, Caller, First, Frame, Second, Table, Top, Value, Words as Objects, Zero,
};
use crate::words::{Finished, Words};
use clu_base::{Bytes, ObjConst, Sequence};
use clu_object::ObjRoutine;
use clu_wir::{HoleKind, TRAPS, Trap};
use rv_isa::Op;
use std::alloc::Global;

/// The parts, each at its number.
#[derive(Clone, Copy)]
pub enum Part {
    /// Where a program starts.
    Start,
    /// Where the arm of what was raised is searched.
    Search,
    /// Where an object becomes one of type any.
    Bind,
    /// Where traps are raised.
    Trap,
}

impl Part {
    /// The number of the part in a hole.
    pub fn number(self) -> u32
        ensures { result ≡ part_number self }
    {
        self as u32
    }
}

/// How many bytes each word of the runtime's table is from its start.
pub(crate) const FAILURE: i32 = 0;

pub(crate) const UNHANDLED: i32 = 8;

const START: i32 = 16;

/// How many bytes the words of the first trap are from the start of the runtime's table, and those of each trap.
const TRAP_ROWS: i32 = 24;

const TRAP_ROW: i32 = 16;

/// How many bytes of code the part that raises traps has for each, before all else.
pub const TRAP_ENTRY: i32 = 8;

/// The environment's call that ends a run as it should.
const RETURNED: i32 = 0;

/// The part where a program starts: it calls the first procedure from no frame, and the run ends when that returns.
pub fn start_part(alloc: Global) -> Result<ObjRoutine, SelectError>
    ensures part { IfOk result (IsPart (codes "start")) }
    ensures words { IfOk result (HasWords (start_onto (blank 0))) }
{
    let mut words = Words::new(alloc, 0)?;
    start(&mut words)?;
    make_part(alloc, b"start", words)
}

fn start(words: &mut Words) -> Answer<()>
    ensures { OnOk result (written words.new ≡ start_onto (written words.old)) }
{
    words.copy(Frame, Zero)?;
    words.hole(First, HoleKind::Regions, 0)?;
    words.ld(First, First, START)?;
    words.copy(Value, Top)?;
    words.copy(Caller, Zero)?;
    words.ld(Table, First, 16)?;
    words.ld(First, First, 0)?;
    words.jalr(Back, First, 0)?;
    words.service(RETURNED)
}

/// The part that raises traps, with the return address after the place of the trap. It is entered at the two words that
/// each trap has.
pub fn trap_part(alloc: Global) -> Result<ObjRoutine, SelectError>
    ensures part { IfOk result (IsPart (codes "trap")) }
    ensures words { IfOk result (HasWords (traps_onto (blank 0))) }
{
    let mut words = Words::new(alloc, 0)?;
    traps(&mut words)?;
    make_part(alloc, b"trap", words)
}

fn traps(words: &mut Words) -> Answer<()>
    ensures { OnOk result (written words.new ≡ traps_onto (written words.old)) }
{
    let raise = words.fresh()?;
    trap_rows(words, raise, &TRAPS)?;
    raise_row(words, raise)
}

fn trap_rows(words: &mut Words, raise: u32, traps: &[Trap]) -> Answer<()>
    ensures { OnOk result (written words.new ≡ trap_rows_onto raise traps.now (written words.old)) }
{
    for trap in traps {
        trap_row(words, raise, *trap)?;
    }
    Ok(())
}

/// The two words of a trap: where its item is.
fn trap_row(words: &mut Words, raise: u32, trap: Trap) -> Answer<()>
    ensures { OnOk result (written words.new ≡ trap_row_onto raise trap (written words.old)) }
{
    words.addi(First, Zero, place_of(trap, TRAP_ROWS, TRAP_ROW)?)?;
    words.go(raise)
}

/// What all traps have in common: the name, the address of the object, and the search.
fn raise_row(words: &mut Words, raise: u32) -> Answer<()>
    ensures { OnOk result (written words.new ≡ raising_trap_onto raise (written words.old)) }
{
    words.label(raise)?;
    words.hole(Second, HoleKind::Regions, 0)?;
    words.three(Op::Add, Second, Second, First)?;
    words.ld(Value, Second, 0)?;
    words.addi(Objects, Second, 8)?;
    part_address(words, First, Part::Search)?;
    words.jalr(Zero, First, 0)
}

/// How many bytes the item of a trap is from where the first one is so many, each of so many bytes.
fn place_of(trap: Trap, first: i32, each: i32) -> Answer<i32>
    ensures { IfOk result (λ bytes. bytes ≡ trap_distance trap first each) }
{
    let number = i32::try_from(trap.number())?;
    Ok(each.saturating_mul(number).saturating_add(first))
}

/// Raises a trap here. A routine without a frame gives it to its caller, with the caller's link table.
#[tactic(auto, unfolding(crate::specs::Evaluation::trap_onto))]
pub(crate) fn raise_trap(words: &mut Words, trap: Trap, is_leaf: bool) -> Answer<()>
    ensures { OnOk result (written words.new ≡ trap_onto trap is_leaf (written words.old)) }
{
    if is_leaf {
        words.copy(Table, Caller)?;
        return go_to_trap(words, Zero, trap);
    }
    go_to_trap(words, Back, trap)
}

fn go_to_trap(words: &mut Words, link: Register, trap: Trap) -> Answer<()>
    ensures { OnOk result (written words.new ≡ trap_to link trap (written words.old)) }
{
    part_address(words, First, Part::Trap)?;
    words.jalr(link, First, place_of(trap, 0, TRAP_ENTRY)?)
}

/// The routine of a part's words. It has no nodes, and names nothing.
pub(crate) fn make_part(alloc: Global, name: &[u8], words: Words) -> Answer<ObjRoutine>
    ensures part { IfOk result (IsPart name.now) }
    ensures words { IfOk result (HasWords (written words)) }
{
    let name = Bytes::from_slice(alloc, name)?;
    let constants = Sequence::from_vec(Vec::new(alloc));
    make_bare(alloc, name, constants, words)
}

/// A routine of these words alone, with constants that its holes name.
pub(crate) fn make_bare(
    alloc: Global,
    name: Bytes,
    constants: Sequence<ObjConst>,
    words: Words,
) -> Answer<ObjRoutine>
    ensures bare { IfOk result (IsBare name constants) }
    ensures words { IfOk result (HasWords (written words)) }
{
    let Finished { code, holes } = words.finish()?;
    let made = ObjRoutine {
        name,
        nodes: 0,
        code: Sequence::from_vec(code),
        holes: Sequence::from_vec(holes),
        uses: Sequence::from_vec(Vec::new(alloc)),
        constants,
        types: Sequence::from_vec(Vec::new(alloc)),
        regions: Sequence::from_vec(Vec::new(alloc)),
    };
    if !made.has_holes() {
        return Err(SelectError::NotYet);
    }
    Ok(made)
}
