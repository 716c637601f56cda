//! The head of an image file: the numbers before its code.

ghost use Rattle.std.specs.Prelude.{◌≡◌, Some, None, IfOk, IfErr};
ghost use Rattle.clu_image.specs.Faults.{first_fault, head_fields, fixed_size_of, area_size_at, is_version, is_size, IsFault};
ghost use Rattle.clu_base.specs.Fields.{field_at};

use clu_base::{FormatError, u32_at};
use rv_isa::Image;

/// The numbers at the head of an image file.
#[derive(Clone, Copy)]
pub(crate) struct Header {
    pub entry: u32,
    pub words: u32,
    pub fixed: u32,
    pub area: u32,
    /// Where the code starts.
    pub code_at: usize,
}

impl Header {
    ghost use Rattle.clu_image.specs.Header.{HasHeader};

    /// Reads the head of a file. Refuses it at its first field that is not good.
    pub(crate) fn read(b: &[u8]) -> Result<Header, FormatError>
        ensures good { IfOk result (HasHeader b.now) }
        ensures fault { IfErr result (IsFault (first_fault (head_fields b.now))) }
    {
        if !b.starts_with(b"CLUI") {
            return Err(FormatError::Bad(0));
        }
        let version = number(b, 4)?;
        if !is_version(version) {
            return Err(FormatError::Bad(4));
        }
        let entry = number(b, 8)?;
        let words = number(b, 12)?;
        if entry >= words {
            return Err(FormatError::Bad(8));
        }
        if words as usize > Image::MAX_WORDS {
            return Err(FormatError::Bad(12));
        }
        let fixed = fixed_size(b, version)?;
        if !is_size(0, fixed) {
            return Err(FormatError::Bad(16));
        }
        let size_at = area_size_at(b, version);
        let area = number(b, size_at)?;
        if !is_size(fixed, area) {
            return Err(FormatError::Bad(size_at as u64));
        }
        Ok(Header {
            entry,
            words,
            fixed,
            area,
            code_at: size_at + 4,
        })
    }
}

fn number(b: &[u8], at: usize) -> Result<u32, FormatError>
    ensures whole { IfOk result (λ n. field_at 4 b.now at ≡ Some n) }
    ensures missing { IfErr result (λ e. (field_at 4 b.now at ≡ None) × (e ≡ FormatError.Bad at)) }
{
    u32_at(b, at).ok_or(FormatError::Bad(at as u64))
}

/// The size of the fixed part, which version 1 does not have.
fn fixed_size(b: &[u8], version: u32) -> Result<u32, FormatError>
    requires { field_at 4 b.now 4 ≡ Some version }
    ensures whole { IfOk result (λ n. fixed_size_of b.now ≡ Some n) }
    ensures missing { IfErr result (λ e. (fixed_size_of b.now ≡ None) × (e ≡ FormatError.Bad 16)) }
{
    if version == 1 { Ok(0) } else { number(b, 16) }
}

/// Where the size of the data stands.
fn area_size_at(b: &[u8], version: u32) -> usize
    requires { field_at 4 b.now 4 ≡ Some version }
    ensures { result ≡ area_size_at b.now }
{
    if version == 1 { 16 } else { 20 }
}

/// Whether this is a version that can be read.
fn is_version(n: u32) -> bool
    ensures { result ≡ is_version n }
{
    n == 1 || n == 2
}

/// Whether the fixed part or the data may have this size, after parts of so many bytes.
fn is_size(before: u32, n: u32) -> bool
    ensures { result ≡ is_size before n }
{
    n % 8 == 0 && before as usize + n as usize <= Image::MAX_BYTES
}
