//! The code of a routine and its holes, read from a file.

ghost use Rattle.std.specs.Prelude.{◌≡◌, [], length};
ghost use Rattle.clu_specs.specs.Reading.{Gives};
ghost use Rattle.clu_format.specs.Lists.{counted};
ghost use Rattle.clu_format.specs.Fields.{number_read};
ghost use Rattle.clu_object.specs.ObjectReading.{code_read, place_read, kind_read, hole_number_read, hole_read, next_hole_read, holes_read};

use crate::counts_ahead::CountsAhead;
use crate::holes::has_pair;
use crate::object::Hole;
use clu_base::{FormatError, Sequence};
use clu_format::{byte_field, fault, u32_field};
use std::alloc::Global;

/// The greatest number of a kind of holes.
const LAST_KIND: u8 = 8;

/// Code words after their count.
pub fn code_at(alloc: Global, bytes: &[u8]) -> Result<(Sequence<u32>, &[u8]), FormatError>
    ensures { Gives (λ x. (x.0, x.1.now)) result (code_read bytes.now) }
{
    let (count, rest) = u32_field(bytes)?;
    words_at(alloc, count, rest)
}

fn words_at(alloc: Global, count: u32, bytes: &[u8]) -> Result<(Sequence<u32>, &[u8]), FormatError>
    ensures { Gives (λ x. (x.0, x.1.now)) result (counted (λ made. number_read 4) count [] bytes.now) }
{
    let mut words = Vec::new(alloc);
    let mut rest = bytes;
    for _ in 0..count {
        let (word, after) = u32_field(rest)?;
        words.push(word)?;
        rest = after;
    }
    Ok((Sequence::from_vec(words), rest))
}

/// Holes after their count, in this code.
pub fn holes_at<'a>(
    alloc: Global,
    code: &[u32],
    bytes: &'a [u8],
) -> Result<(Sequence<Hole>, &'a [u8]), FormatError>
    ensures { Gives (λ x. (x.0, x.1.now)) result (holes_read code.now bytes.now) }
{
    let (count, rest) = u32_field(bytes)?;
    let ahead = CountsAhead::find(count, rest);
    more_holes_at(alloc, code, ahead, count, rest)
}

/// So many holes, each after the words of the one before it.
fn more_holes_at<'a>(
    alloc: Global,
    code: &[u32],
    ahead: CountsAhead,
    count: u32,
    bytes: &'a [u8],
) -> Result<(Sequence<Hole>, &'a [u8]), FormatError>
    ensures { Gives (λ x. (x.0, x.1.now)) result (counted (next_hole_read code.now ahead) count [] bytes.now) }
{
    let mut holes = Vec::new(alloc);
    let mut least = 0;
    let mut rest = bytes;
    for _ in 0..count {
        let (hole, after) = hole_at(code, ahead, least, rest)?;
        holes.push(hole)?;
        least = hole.at as usize + 2;
        rest = after;
    }
    Ok((Sequence::from_vec(holes), rest))
}

/// A hole from the code word `least` on.
#[tactic(auto, unfolding(crate::specs::ObjectReading::hole_read))]
fn hole_at<'a>(
    code: &[u32],
    ahead: CountsAhead,
    least: usize,
    bytes: &'a [u8],
) -> Result<(Hole, &'a [u8]), FormatError>
    ensures { Gives (λ x. (x.0, x.1.now)) result (hole_read code.now ahead least bytes.now) }
{
    let (at, rest) = place_at(code, least, bytes)?;
    let (kind, rest) = kind_at(rest)?;
    let (number, rest) = number_at(ahead, kind, code.len(), rest)?;
    Ok((Hole { at, kind, number }, rest))
}

/// The number of a hole of a kind, in a routine of so many code words.
fn number_at(
    ahead: CountsAhead,
    kind: u8,
    words: usize,
    bytes: &[u8],
) -> Result<(u32, &[u8]), FormatError>
    ensures { Gives (λ x. (x.0, x.1.now)) result (hole_number_read ahead kind words bytes.now) }
{
    let (number, rest) = u32_field(bytes)?;
    if !ahead.allow(kind, number, words) {
        return Err(fault(bytes));
    }
    Ok((number, rest))
}

/// The place of a hole from the code word `least` on: it is over a LUI and an ADDI of one register.
fn place_at<'a>(code: &[u32], least: usize, bytes: &'a [u8]) -> Result<(u32, &'a [u8]), FormatError>
    ensures { Gives (λ x. (x.0, x.1.now)) result (place_read code.now least bytes.now) }
{
    let (at, rest) = u32_field(bytes)?;
    if (at as usize) < least || !has_pair(code, at as usize) {
        return Err(fault(bytes));
    }
    Ok((at, rest))
}

fn kind_at(bytes: &[u8]) -> Result<(u8, &[u8]), FormatError>
    ensures { Gives (λ x. (x.0, x.1.now)) result (kind_read bytes.now) }
{
    let (kind, rest) = byte_field(bytes)?;
    if kind > LAST_KIND {
        return Err(fault(bytes));
    }
    Ok((kind, rest))
}
