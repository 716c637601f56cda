//! Exceptions: the name and the address of the objects travel to the part of the runtime that searches, with the return
//! address after the place that raised, and from there to an arm.

ghost use Rattle.std.specs.Prelude.{◌≡◌, OnOk};
ghost use Rattle.rv_select.specs.Steps.{cut_onto, exception_onto, part_onto, pass_onto, raise_onto, signal_onto};
ghost use Rattle.rv_select.specs.Written.{written};

use crate::calls::leave_frame;
use crate::error::Answer;
use crate::parts::Part;
use crate::register::Register;
use crate::register::Register::{Back, First, Frame, Top, Value, Words as Travelling};
use crate::slots::{load_at, load_slot, slot_address, word_distance};
use crate::words::Words;
use clu_wir::HoleKind;

/// The address of a part of the runtime.
pub(crate) fn part_address(words: &mut Words, to: Register, part: Part) -> Answer<()>
    ensures { OnOk result (written words.new ≡ part_onto to part (written words.old)) }
{
    words.hole(to, HoleKind::Runtime, part.number())
}

/// The name is in the slot, the objects after it.
fn exception(words: &mut Words, slot: u32) -> Answer<()>
    ensures { OnOk result (written words.new ≡ exception_onto slot (written words.old)) }
{
    load_slot(words, Value, slot)?;
    slot_address(words, Travelling, slot.saturating_add(1))
}

/// Raises here. The jump is the last word.
pub(crate) fn raise(words: &mut Words, slot: u32) -> Answer<()>
    ensures { OnOk result (written words.new ≡ raise_onto slot (written words.old)) }
{
    exception(words, slot)?;
    part_address(words, First, Part::Search)?;
    words.jalr(Back, First, 0)
}

/// Ends the routine and raises where it was called.
pub(crate) fn signal(words: &mut Words, slot: u32) -> Answer<()>
    ensures { OnOk result (written words.new ≡ signal_onto slot (written words.old)) }
{
    exception(words, slot)?;
    pass(words)
}

/// Ends the routine and raises the exception that travels where it was called.
pub(crate) fn pass(words: &mut Words) -> Answer<()>
    ensures { OnOk result (written words.new ≡ pass_onto (written words.old)) }
{
    part_address(words, First, Part::Search)?;
    leave_frame(words, First)
}

/// Cuts the stack to the top in this word of the frame.
pub(crate) fn cut(words: &mut Words, mark: u32) -> Answer<()>
    ensures { OnOk result (written words.new ≡ cut_onto mark (written words.old)) }
{
    load_at(words, Top, Frame, word_distance(mark)?)
}
