//! Iterators: a yield leaves its frame on the stack with a record above it, and the loop's body runs above both.
//!
//! A record is where the iterator goes on, the place of its frame, and its link table.

ghost use Rattle.std.specs.Prelude.{◌≡◌, OnOk};
ghost use Rattle.rv_select.specs.Steps.{resume_onto, yield_onto, yielded_onto};
ghost use Rattle.rv_select.specs.Written.{written};

use crate::calls::{caller_frame, test_room};
use crate::error::Answer;
use crate::register::Register::{
    First, Frame, Second, Table, Top, Value, Words as Travelling, Zero,
};
use crate::slots::{load_slot, slot_address};
use crate::words::Words;

/// The bytes of a record.
const RECORD: i32 = 24;

/// The limits on the stack count 16 words for a suspended loop.
const _: () = prove!(RECORD <= 16 * 8);

/// The return address of an iterator leads to the one word that ends its loop; the loop's body is after that.
const BODY: i32 = 4;

/// Yields so many words from this slot on.
pub(crate) fn yield_words(words: &mut Words, slot: u32, count: u32) -> Answer<()>
    ensures { OnOk result (written words.new ≡ yield_onto slot count (written words.old)) }
{
    let resumed = words.fresh()?;
    words.addi(Second, Top, RECORD)?;
    test_room(words)?;
    hand_out(words, slot, count)?;
    words.address(First, resumed)?;
    words.sd(First, Top, 0)?;
    words.sd(Frame, Top, 8)?;
    words.sd(Table, Top, 16)?;
    words.copy(Value, Second)?;
    words.copy(Top, Second)?;
    words.ld(First, Frame, 0)?;
    caller_frame(words)?;
    words.jalr(Zero, First, BODY)?;
    words.label(resumed)
}

fn hand_out(words: &mut Words, slot: u32, count: u32) -> Answer<()>
    ensures { OnOk result (written words.new ≡ yielded_onto slot count (written words.old)) }
{
    match count {
        0 => Ok(()),
        _ => slot_address(words, Travelling, slot),
    }
}

/// Takes off the record below the top that is in the slot, and goes on in its iterator.
pub(crate) fn resume(words: &mut Words, slot: u32) -> Answer<()>
    ensures { OnOk result (written words.new ≡ resume_onto slot (written words.old)) }
{
    load_slot(words, First, slot)?;
    words.addi(Top, First, -RECORD)?;
    words.ld(Second, Top, 0)?;
    words.ld(Frame, Top, 8)?;
    words.ld(Table, Top, 16)?;
    words.jalr(Zero, Second, 0)
}
