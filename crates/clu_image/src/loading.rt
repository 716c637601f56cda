//! From bytes to images.

ghost use Rattle.std.specs.Prelude.{◌≡◌, ◌+◌, ◌*◌, ◌%◌, length, vec_len, None, IfOk, IfErr, OnOk, MatchResult};
ghost use Rattle.std.specs.List.{flat_map};
ghost use Rattle.rv_isa.specs.Image.{Contents, contents, IsImage};
ghost use Rattle.clu_image.specs.Header.{AreBounded};
ghost use Rattle.clu_image.specs.Parts.{HasContents};
ghost use Rattle.clu_image.specs.ImageFile.{number_bytes, IsFileOf};
ghost use Rattle.clu_image.specs.Faults.{fault_of, IsFault, IsRefusal};

use crate::header::Header;
use clu_base::{Bytes, FormatError, Memory, u32_at};
use rv_isa::Image;
use std::alloc::Global;

/// The image of a file of version 1 or 2. Refuses other bytes with the place of the first field that
/// is missing, cut or out of its range, or of the first byte after the end; `FormatError::Memory` comes
/// only when memory runs out.
pub fn load(alloc: Global, b: &[u8]) -> Result<Image, FormatError>
    ensures file { IfOk result (IsFileOf b.now) }
    ensures good { OnOk result (fault_of b.now ≡ None) }
    ensures refused { IfErr result (IsRefusal (fault_of b.now)) }
    ensures every_file { (i : Contents) → IsFileOf b.now i → MatchResult result (λ j. j ≡ i) (λ e. e ≡ FormatError.Memory) }
{
    read(alloc, b)
}

/// The parts of a file.
#[derive(Drop)]
struct Parts<'a> {
    entry: u32,
    code: &'a [u8],
    fixed: &'a [u8],
    area: &'a [u8],
}

impl<'a> Parts<'a> {
    ghost use Rattle.clu_image.specs.Parts.{HasParts};

    /// Finds the parts of a file. Refuses it at its first field that is not good.
    fn find(b: &'a [u8]) -> Result<Parts<'a>, FormatError>
        ensures good { IfOk result (HasParts b.now) }
        ensures fault { IfErr result (IsFault (fault_of b.now)) }
    {
        let header = Header::read(b)?;
        let fixed_at = header.code_at + 4 * header.words as usize;
        let area_at = fixed_at + header.fixed as usize;
        let end = area_at + header.area as usize;
        if b.len() < fixed_at {
            return Err(FormatError::Bad(header.code_at as u64));
        }
        if b.len() < area_at {
            return Err(FormatError::Bad(fixed_at as u64));
        }
        if b.len() < end {
            return Err(FormatError::Bad(area_at as u64));
        }
        if b.len() > end {
            return Err(FormatError::Bad(end as u64));
        }
        Ok(Parts {
            entry: header.entry,
            code: &b[header.code_at..fixed_at],
            fixed: &b[fixed_at..area_at],
            area: &b[area_at..],
        })
    }
}

/// The numbers of four bytes each. The only error is that memory runs out.
fn numbers(alloc: Global, bytes: &[u8]) -> Result<Vec<u32>, Memory>
    requires { length bytes.now % 4 ≡ 0 }
    ensures count { IfOk result (λ numbers. 4 * vec_len numbers ≡ length bytes.now) }
    ensures bytes { IfOk result (λ numbers. flat_map number_bytes numbers.items ≡ bytes.now) }
{
    let count = bytes.len() / 4;
    let mut numbers = Vec::with_capacity(alloc, count)?;
    for i in 0..count {
        numbers.push(u32_at(bytes, 4 * i).unwrap())?;
    }
    Ok(numbers)
}

/// The image of these parts, which are known to be within its bounds.
fn image(entry: u32, code: Vec<u32>, fixed: Vec<u8>, area: Vec<u8>) -> Image
    requires { AreBounded entry (vec_len code) (vec_len fixed) (vec_len area) }
    ensures image { IsImage result }
    ensures value { result ≡ contents entry code.items fixed.items area.items }
{
    Image::new(entry, code, fixed, area).unwrap()
}

/// The image of a file, or the place of the first fault.
fn read(alloc: Global, b: &[u8]) -> Result<Image, FormatError>
    ensures good { IfOk result (HasContents b.now) }
    ensures refused { IfErr result (IsRefusal (fault_of b.now)) }
{
    let parts = Parts::find(b)?;
    let code = numbers(alloc, parts.code)?;
    let fixed = Bytes::from_slice(alloc, parts.fixed)?.into_vec();
    let area = Bytes::from_slice(alloc, parts.area)?.into_vec();
    Ok(image(parts.entry, code, fixed, area))
}
