//! What is held of each constant of a list.

ghost use Rattle.std.specs.Prelude.{◌≡◌, ◌<◌, ◌≤◌, ◌+◌, ◌++◌, [], All, IfOk, OnOk, length, slice_get};
ghost use Rattle.std.specs.Option.{option_copied, option_map};
ghost use Rattle.clu_constants.specs.Held.{AreHeld, HasBytes, capped, listed, steps_at, steps_left, text_at, text_left, text_of};
ghost use Rattle.clu_constants.specs.Outlines.{outlined};

use crate::outline::{Outline, outline_of};
use clu_base::{Bytes, Const, Memory};
use std::alloc::Global;

/// What is held of a constant.
#[derive(Drop)]
pub enum Held {
    /// The constant.
    Whole(Const),
    /// The text at the first of these places and behind it that at the second, and how many bytes both have. Neither is
    /// empty.
    Joined(usize, usize, u64),
}

fn held_at(held: &[Held], place: usize) -> Option<&Held>
    ensures { option_copied result ≡ slice_get held.now place }
{
    held.get(place)
}

/// The constant of a place, but for its text.
pub fn outline_at(held: &[Held], place: usize) -> Option<Outline>
    requires { AreHeld [] held.now }
    ensures { result ≡ option_map outlined (slice_get (listed held.now) place) }
{
    match held_at(held, place) {
        Some(Held::Whole(constant)) => Some(outline_of(constant)),
        Some(Held::Joined(_, _, length)) => Some(Outline::Str(*length)),
        None => None,
    }
}

/// Writes the text of a constant.
fn write_text(bytes: &mut Vec<u8>, constant: &Const) -> Result<(), Memory>
    ensures { OnOk result (bytes.new.items ≡ bytes.old.items ++ text_of constant.now) }
{
    match constant {
        Const::Str(text) => {
            bytes.extend_from_slice(text.as_slice())?;
            Ok(())
        }
        Const::Null | Const::Bool(_) | Const::Int(_) | Const::Char(_) => Ok(()),
    }
}

/// Writes the text of a place, or adds the two of which it is made to the places that are left, the first of them last.
fn write_next(
    held: &[Held],
    bytes: &mut Vec<u8>,
    left: &mut Vec<usize>,
    next: usize,
) -> Result<(), Memory>
    requires held { AreHeld [] held.now }
    requires some { HasBytes (listed held.now) next }
    ensures written { OnOk result (bytes.new.items ++ text_left (listed held.now) left.new.items ≡ bytes.old.items ++ text_at (listed held.now) next ++ text_left (listed held.now) left.old.items) }
    ensures fewer { OnOk result (steps_left (listed held.now) left.new.items < steps_left (listed held.now) left.old.items + steps_at (listed held.now) next) }
    ensures some { All (HasBytes (listed held.now)) left.old.items → OnOk result (All (HasBytes (listed held.now)) left.new.items) }
{
    match held_at(held, next) {
        Some(Held::Whole(constant)) => {
            write_text(bytes, constant)?;
            Ok(())
        }
        Some(Held::Joined(first, second, _)) => {
            left.push(*second)?;
            left.push(*first)?;
            Ok(())
        }
        None => Ok(()),
    }
}

/// The text of a place, of so many bytes.
fn text(alloc: Global, held: &[Held], place: usize, length: u64) -> Result<Bytes, Memory>
    requires held { AreHeld [] held.now }
    requires some { HasBytes (listed held.now) place }
    ensures { IfOk result (λ text. text ≡ text_at (listed held.now) place) }
{
    let mut bytes = Vec::with_capacity(alloc, length as usize)?;
    let mut left = vec![in alloc; place]?;
    while let Some(next) = left.pop() {
        write_next(held, &mut bytes, &mut left, next)?;
    }
    Ok(Bytes::from_vec(bytes))
}

/// The constant of a place, by itself.
pub fn copy_at(alloc: Global, held: &[Held], place: usize) -> Result<Option<Const>, Memory>
    requires { AreHeld [] held.now }
    ensures { IfOk result (λ constant. constant ≡ slice_get (listed held.now) place) }
{
    match held_at(held, place) {
        Some(Held::Whole(constant)) => Ok(Some(constant.copy(alloc)?)),
        Some(Held::Joined(_, _, length)) => {
            Ok(Some(Const::Str(text(alloc, held, place, *length)?)))
        }
        None => Ok(None),
    }
}
