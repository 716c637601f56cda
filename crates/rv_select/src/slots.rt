//! The words of a frame, and words at any distance from a register.

ghost use Rattle.std.specs.Prelude.{◌≡◌, IfOk, OnOk};
ghost use Rattle.rv_select.specs.Slots.{address_at_onto, load_at_onto, load_slot_onto, lowest, near_base, near_onto, save_at_onto, save_slot_onto, slot_address_onto, slot_distance as distance_of_slot, word_distance as distance_of_word};
ghost use Rattle.rv_select.specs.Written.{written};

use crate::error::Answer;
use crate::number::halves;
use crate::register::Register;
use crate::register::Register::{Far, Frame};
use crate::words::Words;
use clu_frames::FOOT;
use rv_isa::Op;

/// How many bytes a word of a frame is from the frame's place.
pub(crate) fn word_distance(word: u32) -> Answer<i32>
    ensures { IfOk result (λ distance. distance ≡ distance_of_word word) }
{
    Ok(i32::try_from(u64::from(word) * 8)?)
}

/// How many bytes a slot is from the frame's place.
pub(crate) fn slot_distance(slot: u32) -> Answer<i32>
    ensures { IfOk result (λ distance. distance ≡ distance_of_slot slot) }
{
    word_distance(slot.saturating_add(FOOT))
}

/// A register and a distance that an immediate reaches, at the address so many bytes from `base`.
fn near(words: &mut Words, base: Register, distance: i32) -> Answer<(Register, i32)>
    ensures base { IfOk result (λ place. place.0 ≡ near_base base distance) }
    ensures distance { IfOk result (λ place. place.1 ≡ lowest distance) }
    ensures written { OnOk result (written words.new ≡ near_onto base distance (written words.old)) }
{
    let (upper, lower) = halves(distance)?;
    if upper == 0 {
        return Ok((base, lower));
    }
    words.upper(Op::Lui, Far, upper)?;
    words.three(Op::Add, Far, Far, base)?;
    Ok((Far, lower))
}

/// Loads the word so many bytes from `base`.
pub(crate) fn load_at(words: &mut Words, to: Register, base: Register, bytes: i32) -> Answer<()>
    ensures { OnOk result (written words.new ≡ load_at_onto to base bytes (written words.old)) }
{
    let (base, bytes) = near(words, base, bytes)?;
    words.ld(to, base, bytes)
}

/// Saves a word so many bytes from `base`.
pub(crate) fn save_at(words: &mut Words, from: Register, base: Register, bytes: i32) -> Answer<()>
    ensures { OnOk result (written words.new ≡ save_at_onto from base bytes (written words.old)) }
{
    let (base, bytes) = near(words, base, bytes)?;
    words.sd(from, base, bytes)
}

/// The address so many bytes from `base`.
pub(crate) fn address_at(words: &mut Words, to: Register, base: Register, bytes: i32) -> Answer<()>
    ensures { OnOk result (written words.new ≡ address_at_onto to base bytes (written words.old)) }
{
    let (base, bytes) = near(words, base, bytes)?;
    words.addi(to, base, bytes)
}

/// Loads the word of a slot.
pub(crate) fn load_slot(words: &mut Words, to: Register, slot: u32) -> Answer<()>
    ensures { OnOk result (written words.new ≡ load_slot_onto to slot (written words.old)) }
{
    load_at(words, to, Frame, slot_distance(slot)?)
}

/// Saves a word into a slot.
pub(crate) fn save_slot(words: &mut Words, from: Register, slot: u32) -> Answer<()>
    ensures { OnOk result (written words.new ≡ save_slot_onto from slot (written words.old)) }
{
    save_at(words, from, Frame, slot_distance(slot)?)
}

/// The address of a slot.
pub(crate) fn slot_address(words: &mut Words, to: Register, slot: u32) -> Answer<()>
    ensures { OnOk result (written words.new ≡ slot_address_onto to slot (written words.old)) }
{
    address_at(words, to, Frame, slot_distance(slot)?)
}
