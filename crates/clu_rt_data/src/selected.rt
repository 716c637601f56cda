//! The operation of a type that serves all types of its kind, and what is known of the type besides.

ghost use Rattle.std.specs.Prelude.{◌<◌, length, IfOk, IfSome, IsSome};
ghost use Rattle.clu_rt_data.specs.Selectors.{begins};

use crate::components::{ONEOF, RECORD, STRUCT, VARIANT};
use crate::operations::operation_of;
use clu_base::{Bytes, Const, Memory};
use clu_rt_text::Operation;
use clu_types::{Field, Term, TypeArena, TypeId};
use std::alloc::Global;

/// An operation whose code serves all types of a kind.
#[derive(Drop)]
pub struct Selected {
    pub operation: &'static Operation,
    /// The constants of the type that its code names, from number 1 on.
    pub known: Vec<Const>,
}

/// The operation `op` of the type `of`; None where the type has none whose code is kept here, or one that uses others.
/// The only error is that memory runs out.
pub fn select_operation(
    alloc: Global,
    types: &TypeArena,
    of: TypeId,
    op: &Bytes,
) -> Result<Option<Selected>, Memory>
    ensures named { IfOk result (λ found. IfSome found (λ selected. begins selected.operation.now.name.now op.now)) }
    ensures known { IfOk result (λ found. IsSome found → of.0 < length types.now) }
{
    if !types.contains(of) {
        return Ok(None);
    }
    let name = op.as_slice();
    match types.view(of) {
        Term::Record(fields) => component(alloc, RECORD, fields.as_slice(), name),
        Term::Struct(fields) => component(alloc, STRUCT, fields.as_slice(), name),
        Term::Oneof(fields) => tag(alloc, ONEOF, fields.as_slice(), name),
        Term::Variant(fields) => tag(alloc, VARIANT, fields.as_slice(), name),
        term => Ok(plain(alloc, term, name)),
    }
}

/// An operation that asks nothing more of the type.
fn plain(alloc: Global, term: &Term, name: &[u8]) -> Option<Selected>
    ensures { IfSome result (λ selected. begins selected.operation.now.name.now name.now) }
{
    match operation_of(term, name) {
        Some(operation) => Some(Selected {
            operation,
            known: Vec::new(alloc),
        }),
        None => None,
    }
}

/// An operation of records or structs: the distance of the component and the words of the object are known.
fn component(
    alloc: Global,
    operations: &'static [Operation],
    fields: &[Field],
    name: &[u8],
) -> Result<Option<Selected>, Memory>
    ensures { IfOk result (λ found. IfSome found (λ selected. begins selected.operation.now.name.now name.now)) }
{
    let Some((operation, place)) = with_selector(operations, fields, name) else {
        return Ok(None);
    };
    let mut known = Vec::new(alloc);
    known.push(number(place.saturating_add(1).saturating_mul(8)))?;
    known.push(number(fields.len().saturating_add(1)))?;
    Ok(Some(Selected { operation, known }))
}

/// An operation of oneofs or variants: the number of the tag is known.
fn tag(
    alloc: Global,
    operations: &'static [Operation],
    fields: &[Field],
    name: &[u8],
) -> Result<Option<Selected>, Memory>
    ensures { IfOk result (λ found. IfSome found (λ selected. begins selected.operation.now.name.now name.now)) }
{
    let Some((operation, place)) = with_selector(operations, fields, name) else {
        return Ok(None);
    };
    let mut known = Vec::new(alloc);
    known.push(number(place))?;
    Ok(Some(Selected { operation, known }))
}

fn number(place: usize) -> Const {
    Const::Int(i64::try_from(place).unwrap_or(i64::MAX))
}

/// The operation of this name, and the place of the selector after it, which is 0 where none belongs to it.
fn with_selector(
    operations: &'static [Operation],
    fields: &[Field],
    name: &[u8],
) -> Option<(&'static Operation, usize)>
    ensures { IfSome result (λ found. begins found.0.now.name.now name.now) }
{
    for operation in operations {
        if operation.name == name {
            return Some((operation, 0));
        }
        match selector_of(operation, fields, name) {
            Some(place) => return Some((operation, place)),
            None => {}
        }
    }
    None
}

/// The place of the selector that stands after the name of the operation.
fn selector_of(operation: &Operation, fields: &[Field], name: &[u8]) -> Option<usize>
    ensures { IsSome result → begins operation.now.name.now name.now }
{
    if operation.name.last() != Some(&b'_') {
        return None;
    }
    let selector = name.strip_prefix(operation.name)?;
    fields
        .iter()
        .position(|field| field.name.as_slice() == selector)
}
