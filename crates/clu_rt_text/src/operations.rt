//! The word code of an operation, found by its type and its name.

ghost use Rattle.std.specs.Prelude.{◌≡◌, ◌<◌, length, IfOk, IfSome, IsSome};
ghost use Rattle.clu_rt_text.specs.Operations.{IsCodeNamed};

use crate::assembly::code_of;
use crate::booleans::{bool_operations, null_operations};
use crate::characters::char_operations;
use crate::code::Operation;
use crate::finding::named;
use crate::integers::int_operation;
use crate::streams::stream_operations;
use crate::strings::string_operation;
use clu_base::{Bytes, Memory};
use clu_types::{Term, TypeArena, TypeId};
use clu_wir::WCode;
use std::alloc::Global;

/// The word code of the built-in operation `op` of the type `of`; None where the type has no such operation whose code
/// is kept here. A routine uses no others and names no type but that of a string, and its `nodes` are 0, since limits on
/// programs count no operations. The only error is that memory runs out.
pub fn word_code(
    alloc: Global,
    types: &TypeArena,
    of: TypeId,
    op: &Bytes,
) -> Result<Option<WCode>, Memory>
    ensures code { IfOk result (λ found. IfSome found (IsCodeNamed op.now)) }
    ensures known { IfOk result (λ found. IsSome found → of.0 < length types.now) }
{
    match operation_of(types, of, op) {
        Some(operation) => Ok(Some(code_of(alloc, operation)?)),
        None => Ok(None),
    }
}

/// The built-in operation of this name of a type, where its code is kept here.
pub fn operation_of(types: &TypeArena, of: TypeId, op: &Bytes) -> Option<&'static Operation>
    ensures named { IfSome result (λ operation. operation.now.name.now ≡ op.now) }
    ensures known { IsSome result → of.0 < length types.now }
{
    if !types.contains(of) {
        return None;
    }
    match types.view(of) {
        Term::Null => named(null_operations(), op.as_slice()),
        Term::Bool => named(bool_operations(), op.as_slice()),
        Term::Int => int_operation(op.as_slice()),
        Term::Char => named(char_operations(), op.as_slice()),
        Term::Str => string_operation(op.as_slice()),
        Term::Stream => named(stream_operations(), op.as_slice()),
        _ => None,
    }
}
