//! The little-endian fields of binary formats: numbers of two, four and eight bytes, read at a
//! place in a slice and appended to a vector.

ghost use Rattle.std.specs.Prelude.{◌≡◌, ◌++◌, drop, take, IfSome, OnOk, OnErr};
ghost use Rattle.byteorder.specs.Endian.{little_bytes};
ghost use Rattle.clu_base.specs.Fields.{field_at};

use crate::errors::Memory;
use byteorder::{ByteOrder, LittleEndian};

/// The number in the two bytes that follow place `at`. None exactly where fewer follow.
pub fn u16_at(b: &[u8], at: usize) -> Option<u16>
    ensures number { result ≡ field_at 2 b.now at }
    ensures bytes { IfSome result (λ n. little_bytes 2 n ≡ take 2 (drop at b.now)) }
{
    if at > b.len() || b.len() - at < 2 {
        return None;
    }
    Some(LittleEndian::read_u16(&b[at..]))
}

/// The number in the four bytes that follow place `at`. None exactly where fewer follow.
pub fn u32_at(b: &[u8], at: usize) -> Option<u32>
    ensures number { result ≡ field_at 4 b.now at }
    ensures bytes { IfSome result (λ n. little_bytes 4 n ≡ take 4 (drop at b.now)) }
{
    if at > b.len() || b.len() - at < 4 {
        return None;
    }
    Some(LittleEndian::read_u32(&b[at..]))
}

/// The number in the eight bytes that follow place `at`. None exactly where fewer follow.
pub fn u64_at(b: &[u8], at: usize) -> Option<u64>
    ensures number { result ≡ field_at 8 b.now at }
    ensures bytes { IfSome result (λ n. little_bytes 8 n ≡ take 8 (drop at b.now)) }
{
    if at > b.len() || b.len() - at < 8 {
        return None;
    }
    Some(LittleEndian::read_u64(&b[at..]))
}

/// Appends the two bytes of a number. The only error is that memory runs out, which leaves `out`
/// unchanged.
pub fn u16_add(out: &mut Vec<u8>, n: u16) -> Result<(), Memory>
    ensures added { OnOk result (out.new.items ≡ out.old.items ++ little_bytes 2 n) }
    ensures unchanged { OnErr result (out.new.items ≡ out.old.items) }
{
    let mut field = [0; 2];
    LittleEndian::write_u16(&mut field, n);
    out.extend_from_slice(&field)?;
    Ok(())
}

/// Appends the four bytes of a number. The only error is that memory runs out, which leaves `out`
/// unchanged.
pub fn u32_add(out: &mut Vec<u8>, n: u32) -> Result<(), Memory>
    ensures added { OnOk result (out.new.items ≡ out.old.items ++ little_bytes 4 n) }
    ensures unchanged { OnErr result (out.new.items ≡ out.old.items) }
{
    let mut field = [0; 4];
    LittleEndian::write_u32(&mut field, n);
    out.extend_from_slice(&field)?;
    Ok(())
}

/// Appends the eight bytes of a number. The only error is that memory runs out, which leaves `out`
/// unchanged.
pub fn u64_add(out: &mut Vec<u8>, n: u64) -> Result<(), Memory>
    ensures added { OnOk result (out.new.items ≡ out.old.items ++ little_bytes 8 n) }
    ensures unchanged { OnErr result (out.new.items ≡ out.old.items) }
{
    let mut field = [0; 8];
    LittleEndian::write_u64(&mut field, n);
    out.extend_from_slice(&field)?;
    Ok(())
}
