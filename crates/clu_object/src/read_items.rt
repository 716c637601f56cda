//! What the holes of a routine name, read from a file: its uses, constants and types.

ghost use Rattle.std.specs.Prelude.{◌≡◌, [], IfOk};
ghost use Rattle.clu_specs.specs.Reading.{Gives};
ghost use Rattle.clu_format.specs.Lists.{counted};
ghost use Rattle.clu_object.specs.ObjectReading.{list_read, is_use_text, is_type_text, use_read, type_text_read, constant_by, constant_read, bool_read, int_read, char_read, string_read, parameter_read};

use clu_base::{Bytes, Const, FormatError, Memory, ObjConst, Sequence};
use clu_format::{byte_field, fault, i64_field, text64_field, u32_field};
use clu_specs::{read_type, read_use};
use clu_types::TypeArena;
use std::alloc::Global;

/// Whether the text is that of a use. The types that it names go into the arena.
pub fn is_use(alloc: Global, types: &mut TypeArena, text: &[u8]) -> Result<bool, Memory>
    ensures { IfOk result (λ b. b ≡ is_use_text text.now) }
{
    match read_use(alloc, types, text) {
        Ok(target) => {
            drop(target);
            Ok(true)
        }
        Err(FormatError::Bad(_)) => Ok(false),
        Err(FormatError::Memory) => Err(Memory),
    }
}

/// Whether the text is that of a type. It goes into the arena.
pub fn is_type(alloc: Global, types: &mut TypeArena, text: &[u8]) -> Result<bool, Memory>
    ensures { IfOk result (λ b. b ≡ is_type_text text.now) }
{
    match read_type(alloc, types, text) {
        Ok(_) => Ok(true),
        Err(FormatError::Bad(_)) => Ok(false),
        Err(FormatError::Memory) => Err(Memory),
    }
}

/// Texts of uses after their count.
pub fn uses_at<'a>(
    alloc: Global,
    types: &mut TypeArena,
    bytes: &'a [u8],
) -> Result<(Sequence<Bytes>, &'a [u8]), FormatError>
    ensures { Gives (λ x. (x.0, x.1.now)) result (list_read (λ made. use_read) bytes.now) }
{
    let (count, rest) = u32_field(bytes)?;
    more_uses_at(alloc, types, count, rest)
}

fn more_uses_at<'a>(
    alloc: Global,
    types: &mut TypeArena,
    count: u32,
    bytes: &'a [u8],
) -> Result<(Sequence<Bytes>, &'a [u8]), FormatError>
    ensures { Gives (λ x. (x.0, x.1.now)) result (counted (λ made. use_read) count [] bytes.now) }
{
    let mut uses = Vec::new(alloc);
    let mut rest = bytes;
    for _ in 0..count {
        let (text, after) = use_at(alloc, types, rest)?;
        uses.push(text)?;
        rest = after;
    }
    Ok((Sequence::from_vec(uses), rest))
}

#[tactic(auto, unfolding(crate::specs::ObjectReading::use_read))]
fn use_at<'a>(
    alloc: Global,
    types: &mut TypeArena,
    bytes: &'a [u8],
) -> Result<(Bytes, &'a [u8]), FormatError>
    ensures { Gives (λ x. (x.0, x.1.now)) result (use_read bytes.now) }
{
    let (text, rest) = text64_field(bytes)?;
    if !is_use(alloc, types, text)? {
        return Err(fault(bytes));
    }
    Ok((Bytes::from_slice(alloc, text)?, rest))
}

/// Texts of types after their count.
pub fn types_at<'a>(
    alloc: Global,
    types: &mut TypeArena,
    bytes: &'a [u8],
) -> Result<(Sequence<Bytes>, &'a [u8]), FormatError>
    ensures { Gives (λ x. (x.0, x.1.now)) result (list_read (λ made. type_text_read) bytes.now) }
{
    let (count, rest) = u32_field(bytes)?;
    more_types_at(alloc, types, count, rest)
}

fn more_types_at<'a>(
    alloc: Global,
    types: &mut TypeArena,
    count: u32,
    bytes: &'a [u8],
) -> Result<(Sequence<Bytes>, &'a [u8]), FormatError>
    ensures { Gives (λ x. (x.0, x.1.now)) result (counted (λ made. type_text_read) count [] bytes.now) }
{
    let mut texts = Vec::new(alloc);
    let mut rest = bytes;
    for _ in 0..count {
        let (text, after) = type_text_at(alloc, types, rest)?;
        texts.push(text)?;
        rest = after;
    }
    Ok((Sequence::from_vec(texts), rest))
}

#[tactic(auto, unfolding(crate::specs::ObjectReading::type_text_read))]
fn type_text_at<'a>(
    alloc: Global,
    types: &mut TypeArena,
    bytes: &'a [u8],
) -> Result<(Bytes, &'a [u8]), FormatError>
    ensures { Gives (λ x. (x.0, x.1.now)) result (type_text_read bytes.now) }
{
    let (text, rest) = text64_field(bytes)?;
    if !is_type(alloc, types, text)? {
        return Err(fault(bytes));
    }
    Ok((Bytes::from_slice(alloc, text)?, rest))
}

/// Constants after their count.
pub fn constants_at(alloc: Global, bytes: &[u8]) -> Result<(Sequence<ObjConst>, &[u8]), FormatError>
    ensures { Gives (λ x. (x.0, x.1.now)) result (list_read (λ made. constant_read) bytes.now) }
{
    let (count, rest) = u32_field(bytes)?;
    more_constants_at(alloc, count, rest)
}

fn more_constants_at(
    alloc: Global,
    count: u32,
    bytes: &[u8],
) -> Result<(Sequence<ObjConst>, &[u8]), FormatError>
    ensures { Gives (λ x. (x.0, x.1.now)) result (counted (λ made. constant_read) count [] bytes.now) }
{
    let mut constants = Vec::new(alloc);
    let mut rest = bytes;
    for _ in 0..count {
        let (constant, after) = constant_at(alloc, rest)?;
        constants.push(constant)?;
        rest = after;
    }
    Ok((Sequence::from_vec(constants), rest))
}

/// A constant: its kind, and then its value by the kind.
#[tactic(auto, unfolding(crate::specs::ObjectReading::constant_by))]
fn constant_at(alloc: Global, bytes: &[u8]) -> Result<(ObjConst, &[u8]), FormatError>
    ensures { Gives (λ x. (x.0, x.1.now)) result (constant_read bytes.now) }
{
    let (kind, rest) = byte_field(bytes)?;
    match kind {
        0 => Ok((ObjConst::Value(Const::Null), rest)),
        1 => bool_at(rest),
        2 => int_at(rest),
        3 => char_at(rest),
        4 => string_at(alloc, rest),
        5 => parameter_at(rest),
        _ => Err(fault(bytes)),
    }
}

fn bool_at(bytes: &[u8]) -> Result<(ObjConst, &[u8]), FormatError>
    ensures { Gives (λ x. (x.0, x.1.now)) result (bool_read bytes.now) }
{
    let (value, rest) = byte_field(bytes)?;
    match value {
        0 => Ok((ObjConst::Value(Const::Bool(false)), rest)),
        1 => Ok((ObjConst::Value(Const::Bool(true)), rest)),
        _ => Err(fault(bytes)),
    }
}

fn int_at(bytes: &[u8]) -> Result<(ObjConst, &[u8]), FormatError>
    ensures { Gives (λ x. (x.0, x.1.now)) result (int_read bytes.now) }
{
    let (value, rest) = i64_field(bytes)?;
    Ok((ObjConst::Value(Const::Int(value)), rest))
}

fn char_at(bytes: &[u8]) -> Result<(ObjConst, &[u8]), FormatError>
    ensures { Gives (λ x. (x.0, x.1.now)) result (char_read bytes.now) }
{
    let (value, rest) = byte_field(bytes)?;
    Ok((ObjConst::Value(Const::Char(value)), rest))
}

fn string_at(alloc: Global, bytes: &[u8]) -> Result<(ObjConst, &[u8]), FormatError>
    ensures { Gives (λ x. (x.0, x.1.now)) result (string_read bytes.now) }
{
    let (text, rest) = text64_field(bytes)?;
    let value = Bytes::from_slice(alloc, text)?;
    Ok((ObjConst::Value(Const::Str(value)), rest))
}

/// A constant parameter; they are numbered from 1.
fn parameter_at(bytes: &[u8]) -> Result<(ObjConst, &[u8]), FormatError>
    ensures { Gives (λ x. (x.0, x.1.now)) result (parameter_read bytes.now) }
{
    let (number, rest) = u32_field(bytes)?;
    if number == 0 {
        return Err(fault(bytes));
    }
    Ok((ObjConst::Param(number), rest))
}
