//! The parameters of specifications, read from their texts.

ghost use Rattle.std.specs.Prelude.{◌≡◌, map};
ghost use Rattle.std.specs.Option.{option_copied};
ghost use Rattle.clu_specs.specs.Reading.{Gives};
ghost use Rattle.clu_specs.specs.SpecReading.{begin_alike, kind_in, kind_read, next_kind, kinds_read, parameters_read};

use crate::marks::{begins_with, behind, fault, literal};
use crate::scope::LAST_NUMBER;
use clu_base::FormatError;
use clu_types::ParamKind;
use std::alloc::Global;

/// The kinds of the parameters in brackets, or none.
#[tactic(auto, unfolding(crate::specs::SpecReading::parameters_by))]
pub fn parameters_at(alloc: Global, bytes: &[u8]) -> Result<(Vec<ParamKind>, &[u8]), FormatError>
    ensures { Gives (λ x. (x.0.items, x.1.now)) result (parameters_read bytes.now) }
{
    match behind(b'[', bytes) {
        Some(rest) => {
            let (kinds, rest) = kinds_at(alloc, rest)?;
            Ok((kinds, literal(b"]", rest)?))
        }
        None => Ok((Vec::new(alloc), bytes)),
    }
}

/// Kinds of parameters with commas between them.
fn kinds_at(alloc: Global, bytes: &[u8]) -> Result<(Vec<ParamKind>, &[u8]), FormatError>
    ensures { Gives (λ x. (x.0.items, x.1.now)) result (kinds_read bytes.now) }
{
    let mut made = Vec::new(alloc);
    let mut rest = bytes;
    for _ in 0..bytes.len() {
        let (kind, after) = kind_at(rest)?;
        made.push(kind)?;
        match next_kind(made.len(), after) {
            Some(next) => rest = next,
            None => return Ok((made, after)),
        }
    }
    Err(fault(rest))
}

/// What follows the comma, where another parameter may follow so many.
fn next_kind(count: usize, bytes: &[u8]) -> Option<&[u8]>
    ensures { option_copied result ≡ next_kind count bytes.now }
{
    if (count as u64) < LAST_NUMBER {
        behind(b',', bytes)
    } else {
        None
    }
}

const KINDS: [(&[u8], ParamKind); 6] = [
    (b"type", ParamKind::OfType),
    (b"null", ParamKind::Null),
    (b"bool", ParamKind::Bool),
    (b"int", ParamKind::Int),
    (b"char", ParamKind::Char),
    (b"string", ParamKind::Str),
];

/// The kind of a parameter; the first byte shows which.
#[tactic(auto, unfolding(crate::specs::SpecReading::kind_read))]
fn kind_at(bytes: &[u8]) -> Result<(ParamKind, &[u8]), FormatError>
    ensures { Gives (λ x. (x.0, x.1.now)) result (kind_read bytes.now) }
{
    kind_in(&KINDS, bytes)
}

fn kind_in<'a>(
    table: &[(&[u8], ParamKind)],
    bytes: &'a [u8],
) -> Result<(ParamKind, &'a [u8]), FormatError>
    ensures { Gives (λ x. (x.0, x.1.now)) result (kind_in (map (λ entry. (entry.0.now, entry.1)) table.now) bytes.now) }
{
    match table {
        [] => Err(fault(bytes)),
        [(word, kind), others @ ..] => {
            if begin_alike(word, bytes) {
                Ok((*kind, literal(word, bytes)?))
            } else {
                kind_in(others, bytes)
            }
        }
    }
}

/// Whether both have a first byte, the same.
fn begin_alike(a: &[u8], b: &[u8]) -> bool
    ensures { result ≡ begin_alike a.now b.now }
{
    match a {
        [] => false,
        [first, ..] => begins_with(*first, b),
    }
}
