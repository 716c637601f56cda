//! Types at the front of a text, read into an arena. The types that were begun and wait for a type in them are
//! kept in a stack of their own, so that the depth of a type costs no calls.

ghost use Rattle.std.specs.Prelude.{◌≡◌, ◌<◌, length, IfOk};
ghost use Rattle.clu_types.specs.Arena.{type_at, types_of, Grows};
ghost use Rattle.clu_specs.specs.Reading.{Gives};
ghost use Rattle.clu_specs.specs.TypeReading.{type_read};

use crate::begin_types::begin_type;
use crate::marks::fault;
use crate::next_items::{begin_item, begin_signal};
use crate::pending::{Found, Pending};
use crate::resume_types::resume;
use crate::scope::Scope;
use clu_base::FormatError;
use clu_types::{TypeArena, TypeId};
use std::alloc::Global;

/// The type at the front, nested `depth` deep at most, and what follows it.
pub fn type_at<'a>(
    alloc: Global,
    types: &mut TypeArena,
    scope: &Scope,
    bytes: &'a [u8],
    depth: usize,
) -> Result<(TypeId, &'a [u8]), FormatError>
    ensures reads { Gives (λ x. (type_at (types_of types.new) x.0, x.1.now)) result (type_read scope.now depth bytes.now) }
    ensures within { IfOk result (λ x. x.0.0 < length types.new) }
    ensures kept { Grows types.old types.new }
{
    let mut pending: Vec<Pending<'a>> = Vec::new(alloc);
    if depth == 0 {
        return Err(fault(bytes));
    }
    let (mut found, mut rest) = begin_type(alloc, types, scope, bytes)?;
    loop {
        let (next, after) = match found {
            Found::Whole(id) => match pending.pop() {
                Some(begun) => resume(alloc, types, begun, id, rest)?,
                None => return Ok((id, rest)),
            },
            Found::Inside(begun) => {
                if depth <= pending.len() + 1 {
                    return Err(fault(rest));
                }
                pending.push(begun)?;
                begin_type(alloc, types, scope, rest)?
            }
            Found::Item(begun) => begin_item(alloc, types, scope, begun, rest)?,
            Found::Signal(signals) => begin_signal(alloc, types, signals, rest)?,
        };
        found = next;
        rest = after;
    }
}
