//! The word code of an operation, found by its type and its name.

ghost use Rattle.std.specs.Prelude.{◌≡◌, ◌<◌, length, IfOk, IfSome, IsSome};
ghost use Rattle.clu_rt_text.specs.Operations.{IsCodeNamed};

use crate::arrays::array_operation;
use crate::characters::STRING;
use crate::rows::value;
use crate::sequences::sequence_operation;
use clu_base::{Bytes, Memory};
use clu_rt_text::{Deed, EQUAL, Operation, X, code_of, named};
use clu_types::{Term, TypeArena, TypeId};
use clu_wir::WCode;
use std::alloc::Global;

/// The word code of the built-in operation `op` of the type `of`; None where the type has no such operation whose code
/// is kept here. It is one code for all types of elements. A routine uses no others and names no type but that of a
/// string, and its `nodes` are 0, since limits on programs count no operations. The only error is that memory runs out.
pub fn word_code(
    alloc: Global,
    types: &TypeArena,
    of: TypeId,
    op: &Bytes,
) -> Result<Option<WCode>, Memory>
    ensures code { IfOk result (λ found. IfSome found (IsCodeNamed op.now)) }
    ensures known { IfOk result (λ found. IsSome found → of.0 < length types.now) }
{
    if !types.contains(of) {
        return Ok(None);
    }
    match operation_of(types.view(of), op.as_slice()) {
        Some(operation) => Ok(Some(code_of(alloc, operation)?)),
        None => Ok(None),
    }
}

/// The operation of this name of a type, where it asks nothing more of the type.
pub fn operation_of(term: &Term, name: &[u8]) -> Option<&'static Operation>
    ensures { IfSome result (λ operation. operation.now.name.now ≡ name.now) }
{
    match term {
        Term::Str => named(STRING, name),
        Term::Array(_) => array_operation(name),
        Term::Sequence(_) => sequence_operation(name),
        Term::Proc(_) | Term::Iter(_) => named(routine_operations(), name),
        _ => None,
    }
}

/// What a routine object is compared and copied by.
fn routine_operations() -> &'static [Operation] {
    ROUTINE
}

const ROUTINE: &[Operation] = &[
    value!(b"equal", 2, EQUAL),
    value!(b"similar", 2, EQUAL),
    value!(b"copy", 1, X),
];
