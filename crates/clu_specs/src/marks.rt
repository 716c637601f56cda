//! The fixed parts of a text, and where a text is refused. Inside this crate `FormatError::Bad` has the number
//! of bytes that are left at the fault; the public calls turn it into the offset.

ghost use Rattle.std.specs.Prelude.{◌≡◌, ◌<◌, length, OnOk, IfErr};
ghost use Rattle.std.specs.Option.{option_copied};
ghost use Rattle.clu_specs.specs.Reading.{Gives, literal_at, behind, begins_with, offset_error};

use clu_base::FormatError;

/// The refusal of a text at the byte where `rest` begins.
pub fn fault(rest: &[u8]) -> FormatError
    ensures { result ≡ FormatError.Bad (length rest.now) }
{
    FormatError::Bad(rest.len() as u64)
}

/// What follows the fixed part; refused at its first byte that is missing or differs. It goes as deep as the part
/// is long; each is a word of this crate.
#[tactic(auto, unfolding(crate::specs::Reading::literal_at))]
pub fn literal<'a>(fixed: &[u8], bytes: &'a [u8]) -> Result<&'a [u8], FormatError>
    ensures { Gives (λ rest. rest.now) result (literal_at fixed.now bytes.now) }
{
    match fixed {
        [] => Ok(bytes),
        [wanted, fixed @ ..] => match bytes {
            [] => Err(fault(bytes)),
            [found, rest @ ..] => {
                if found == wanted {
                    literal(fixed, rest)
                } else {
                    Err(fault(bytes))
                }
            }
        },
    }
}

/// Whether the bytes begin with this one.
pub fn begins_with(b: u8, bytes: &[u8]) -> bool
    ensures { result ≡ begins_with b bytes.now }
{
    match bytes {
        [] => false,
        [first, ..] => *first == b,
    }
}

/// What follows the mark, or None where another byte or none stands there.
pub fn behind(mark: u8, bytes: &[u8]) -> Option<&[u8]>
    ensures { option_copied result ≡ behind mark bytes.now }
{
    match bytes {
        [] => None,
        [first, rest @ ..] => { if *first == mark { Some(rest) } else { None } }
    }
}

/// The end of a text; refused at the first byte after it.
pub fn end(bytes: &[u8]) -> Result<(), FormatError>
    ensures ok { OnOk result (length bytes.now ≡ 0) }
    ensures err { IfErr result (λ e. (e ≡ FormatError.Bad (length bytes.now)) × (0 < length bytes.now)) }
{
    if bytes.is_empty() {
        Ok(())
    } else {
        Err(fault(bytes))
    }
}

/// The error with the offset from the first of `bytes` in place of the number of bytes left.
pub fn at_offset(bytes: &[u8], error: FormatError) -> FormatError
    ensures { result ≡ offset_error (length bytes.now) error }
{
    match error {
        FormatError::Bad(left) => FormatError::Bad((bytes.len() as u64).saturating_sub(left)),
        FormatError::Memory => FormatError::Memory,
    }
}
