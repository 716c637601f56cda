//! Fields, read from the left. A reader gives what it read with the bytes that follow it, or refuses a field at its start.

ghost use Rattle.std.specs.Prelude.{◌≡◌};
ghost use Rattle.clu_specs.specs.Reading.{Gives};
ghost use Rattle.clu_format.specs.Fields.{byte_read, number_read, signed_read, content_read, text_read, mark_read, module_read};

use crate::faults::fault;
use crate::names::{is_after, is_module_name};
use byteorder::{ByteOrder, LittleEndian};
use clu_base::FormatError;

/// What follows these bytes, which must stand first.
pub fn mark<'a>(fixed: &[u8], bytes: &'a [u8]) -> Result<&'a [u8], FormatError>
    ensures { Gives (λ rest. rest.now) result (mark_read fixed.now bytes.now) }
{
    if bytes.starts_with(fixed) {
        Ok(&bytes[fixed.len()..])
    } else {
        Err(fault(bytes))
    }
}

/// A byte.
pub fn byte_field(bytes: &[u8]) -> Result<(u8, &[u8]), FormatError>
    ensures { Gives (λ x. (x.0, x.1.now)) result (byte_read bytes.now) }
{
    match bytes {
        [] => Err(fault(bytes)),
        [first, rest @ ..] => Ok((*first, rest)),
    }
}

/// A number of two bytes.
pub fn u16_field(bytes: &[u8]) -> Result<(u16, &[u8]), FormatError>
    ensures { Gives (λ x. (x.0, x.1.now)) result (number_read 2 bytes.now) }
{
    if bytes.len() < 2 {
        return Err(fault(bytes));
    }
    let (field, rest) = bytes.split_at(2);
    Ok((LittleEndian::read_u16(field), rest))
}

/// A number of four bytes.
pub fn u32_field(bytes: &[u8]) -> Result<(u32, &[u8]), FormatError>
    ensures { Gives (λ x. (x.0, x.1.now)) result (number_read 4 bytes.now) }
{
    if bytes.len() < 4 {
        return Err(fault(bytes));
    }
    let (field, rest) = bytes.split_at(4);
    Ok((LittleEndian::read_u32(field), rest))
}

/// A number of eight bytes.
pub fn u64_field(bytes: &[u8]) -> Result<(u64, &[u8]), FormatError>
    ensures { Gives (λ x. (x.0, x.1.now)) result (number_read 8 bytes.now) }
{
    if bytes.len() < 8 {
        return Err(fault(bytes));
    }
    let (field, rest) = bytes.split_at(8);
    Ok((LittleEndian::read_u64(field), rest))
}

/// A signed number of eight bytes, by two's complement.
pub fn i64_field(bytes: &[u8]) -> Result<(i64, &[u8]), FormatError>
    ensures { Gives (λ x. (x.0, x.1.now)) result (signed_read bytes.now) }
{
    if bytes.len() < 8 {
        return Err(fault(bytes));
    }
    let (field, rest) = bytes.split_at(8);
    Ok((LittleEndian::read_i64(field), rest))
}

/// The first of these bytes as the content of a field, so many, and what follows them. If fewer are there, the field is
/// refused at its start.
fn content<'a>(
    field: &[u8],
    bytes: &'a [u8],
    count: u64,
) -> Result<(&'a [u8], &'a [u8]), FormatError>
    ensures { Gives (λ x. (x.0.now, x.1.now)) result (content_read field.now count bytes.now) }
{
    if (bytes.len() as u64) < count {
        return Err(fault(field));
    }
    Ok(bytes.split_at(count as usize))
}

/// Bytes after their number, which has two bytes.
pub fn text16_field(bytes: &[u8]) -> Result<(&[u8], &[u8]), FormatError>
    ensures { Gives (λ x. (x.0.now, x.1.now)) result (text_read 2 bytes.now) }
{
    let (count, rest) = u16_field(bytes)?;
    content(bytes, rest, u64::from(count))
}

/// Bytes after their number, which has eight bytes.
pub fn text64_field(bytes: &[u8]) -> Result<(&[u8], &[u8]), FormatError>
    ensures { Gives (λ x. (x.0.now, x.1.now)) result (text_read 8 bytes.now) }
{
    let (count, rest) = u64_field(bytes)?;
    content(bytes, rest, count)
}

/// The name of a module that comes after another one (empty: any).
pub fn module_after<'a>(
    previous: &[u8],
    bytes: &'a [u8],
) -> Result<(&'a [u8], &'a [u8]), FormatError>
    ensures { Gives (λ x. (x.0.now, x.1.now)) result (module_read previous.now bytes.now) }
{
    let (name, rest) = text16_field(bytes)?;
    if is_module_name(name) && is_after(previous, name) {
        Ok((name, rest))
    } else {
        Err(fault(bytes))
    }
}
