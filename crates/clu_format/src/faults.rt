//! Where bytes are refused. While a file is read from the left, `FormatError::Bad` has the number of bytes that are left
//! where the first bad field starts; the call that was given the whole file turns it into the offset.

ghost use Rattle.std.specs.Prelude.{◌≡◌, ◌<◌, length, OnOk, IfErr};
ghost use Rattle.clu_specs.specs.Reading.{offset_error};
ghost use Rattle.clu_format.specs.Fields.{field_error};

use clu_base::FormatError;

/// The refusal of the field that starts where these bytes do.
pub fn fault(bytes: &[u8]) -> FormatError
    ensures { result ≡ FormatError.Bad (length bytes.now) }
{
    FormatError::Bad(bytes.len() as u64)
}

/// The refusal of the field that starts where these bytes do, since what stands in it is refused. Out of memory
/// stays what it is.
pub fn field_fault(bytes: &[u8], error: FormatError) -> FormatError
    ensures { result ≡ field_error (length bytes.now) error }
{
    match error {
        FormatError::Bad(_) => fault(bytes),
        FormatError::Memory => FormatError::Memory,
    }
}

/// The end of a file; refused at the first byte after it.
pub fn end(bytes: &[u8]) -> Result<(), FormatError>
    ensures ok { OnOk result (length bytes.now ≡ 0) }
    ensures err { IfErr result (λ e. (e ≡ FormatError.Bad (length bytes.now)) × (0 < length bytes.now)) }
{
    if bytes.is_empty() {
        Ok(())
    } else {
        Err(fault(bytes))
    }
}

/// The error with the offset from the first of `bytes` in place of the number of bytes left.
pub fn at_offset(bytes: &[u8], error: FormatError) -> FormatError
    ensures { result ≡ offset_error (length bytes.now) error }
{
    match error {
        FormatError::Bad(left) => FormatError::Bad((bytes.len() as u64).saturating_sub(left)),
        FormatError::Memory => FormatError::Memory,
    }
}
