//! Fields, written at the end of what is there. The only error of each call is that memory runs out.

ghost use Rattle.std.specs.Prelude.{◌≡◌, ◌++◌, OnOk};
ghost use Rattle.clu_format.specs.Fields.{count_bytes, signed_bytes, text16_bytes, text64_bytes};

use byteorder::{ByteOrder, LittleEndian};
use clu_base::{Memory, u16_add, u32_add, u64_add};

/// Appends how many items a list has, in four bytes. A longer list than these can number is of no format; its count
/// is the greatest.
pub fn count_add(out: &mut Vec<u8>, count: usize) -> Result<(), Memory>
    ensures { OnOk result (out.new.items ≡ out.old.items ++ count_bytes count) }
{
    u32_add(out, count.min(0xffff_ffff) as u32)
}

/// Appends a signed number of eight bytes, by two's complement.
pub fn i64_add(out: &mut Vec<u8>, n: i64) -> Result<(), Memory>
    ensures { OnOk result (out.new.items ≡ out.old.items ++ signed_bytes n) }
{
    let mut field = [0; 8];
    LittleEndian::write_i64(&mut field, n);
    out.extend_from_slice(&field)?;
    Ok(())
}

/// Appends bytes after their number, which has two bytes. A longer text than these can number is of no format.
pub fn text16_add(out: &mut Vec<u8>, text: &[u8]) -> Result<(), Memory>
    ensures { OnOk result (out.new.items ≡ out.old.items ++ text16_bytes text.now) }
{
    u16_add(out, text.len().min(0xffff) as u16)?;
    out.extend_from_slice(text)?;
    Ok(())
}

/// Appends bytes after their number, which has eight bytes.
pub fn text64_add(out: &mut Vec<u8>, text: &[u8]) -> Result<(), Memory>
    ensures { OnOk result (out.new.items ≡ out.old.items ++ text64_bytes text.now) }
{
    u64_add(out, text.len() as u64)?;
    out.extend_from_slice(text)?;
    Ok(())
}
