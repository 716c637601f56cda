//! Actual parameters that are no types, told by their first byte.

ghost use Rattle.std.specs.Prelude.{◌≡◌, ℕ, List, [], ◌∷◌, IfOk};
ghost use Rattle.clu_types.specs.CluType.{CluType};
ghost use Rattle.clu_types.specs.Arena.{actuals_at, ActualBelow};
ghost use Rattle.clu_specs.specs.Reading.{Gives};
ghost use Rattle.clu_specs.specs.TypeReading.{lead_of, is_marked, marked_actual_read};

use crate::constants::{byte_at, integer_at, string_at};
use crate::marks::fault;
use crate::scope::{Scope, Sort};
use clu_base::{Const, FormatError};
use clu_types::Actual;
use std::alloc::Global;

/// What an actual parameter is, by its first byte.
#[derive(Clone, Copy)]
pub enum Lead {
    Parameter,
    Char,
    Text,
    Integer,
    Word,
}

/// What the actual parameter at the front is.
pub fn lead_of(bytes: &[u8]) -> Lead
    ensures { result ≡ lead_of bytes.now }
{
    match bytes {
        [] => Lead::Word,
        [first, ..] => match *first {
            b'%' => Lead::Parameter,
            b'\'' => Lead::Char,
            b'"' => Lead::Text,
            b'-' => Lead::Integer,
            b => {
                if b.is_ascii_digit() {
                    Lead::Integer
                } else {
                    Lead::Word
                }
            }
        },
    }
}

/// Whether the first byte shows a constant or a constant parameter.
pub fn is_marked(lead: Lead) -> bool
    ensures { result ≡ is_marked lead }
{
    match lead {
        Lead::Word => false,
        _ => true,
    }
}

/// The constant or constant parameter at the front, which the first byte shows.
#[tactic(auto, unfolding(crate::specs::TypeReading::marked_actual_read))]
pub fn marked_actual_at<'a>(
    alloc: Global,
    scope: &Scope,
    lead: Lead,
    bytes: &'a [u8],
) -> Result<(Actual, &'a [u8]), FormatError>
    ensures reads { (ks : List CluType) → Gives (λ x. (actuals_at ks (x.0 ∷ []), x.1.now)) result (marked_actual_read scope.now lead bytes.now) }
    ensures within { IfOk result (λ x. (n : ℕ) → ActualBelow n x.0) }
{
    match bytes {
        [] => Err(fault(bytes)),
        [_, behind_mark @ ..] => match lead {
            Lead::Parameter => {
                let (n, rest) = scope.parameter_at(Sort::Constant, bytes, behind_mark)?;
                Ok((Actual::ConstParam(n), rest))
            }
            Lead::Char => {
                let (b, rest) = byte_at(behind_mark)?;
                Ok((Actual::Const(Const::Char(b)), rest))
            }
            Lead::Text => {
                let (text, rest) = string_at(alloc, behind_mark)?;
                Ok((Actual::Const(Const::Str(text)), rest))
            }
            Lead::Integer => {
                let (n, rest) = integer_at(bytes)?;
                Ok((Actual::Const(Const::Int(n)), rest))
            }
            Lead::Word => Err(fault(bytes)),
        },
    }
}
