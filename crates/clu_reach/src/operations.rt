//! The code of operations of built-in types, made by the same steps as that of modules, and the types that operations
//! have as objects.

use crate::errors::LinkError;
use clu_base::{Bytes, Sequence};
use clu_builtin::{Builtin, heading};
use clu_core::intern;
use clu_frames::flatten;
use clu_handlers::Regions;
use clu_object::ObjRoutine;
use clu_rt_text::{Operation, code_of as operation_of};
use clu_types::{Exception, Heading, Term, TypeArena, TypeId};
use clu_wir::{WCode, WRoutine};
use rv_select::{select, select_leaf};
use std::alloc::Global;

/// The type of an operation as an object: that of its heading, if the type is a built-in one that has it, else that of a
/// procedure without arguments.
pub fn type_of_operation(
    alloc: Global,
    types: &mut TypeArena,
    of: TypeId,
    name: &Bytes,
) -> Result<TypeId, LinkError> {
    if !types.contains(of) {
        return Err(LinkError::NotYet);
    }
    match heading(alloc, types, of, name)? {
        Some(
            Builtin {
                iter,
                heading,
                needs: _,
            },
        ) => {
            if iter {
                Ok(types.intern(Term::Iter(heading))?)
            } else {
                Ok(types.intern(Term::Proc(heading))?)
            }
        }
        None => type_of_plain(alloc, types),
    }
}

/// The type of a procedure without arguments: `proctype ()`.
pub fn type_of_plain(alloc: Global, types: &mut TypeArena) -> Result<TypeId, LinkError> {
    let heading = Heading {
        args: Sequence::from_vec(Vec::new(alloc)),
        results: Sequence::from_vec(Vec::new(alloc)),
        signals: Sequence::from_vec(Vec::new(alloc)),
    };
    Ok(intern(types, Term::Proc(heading))?)
}

/// The type of `force` of a type: `proctype (any) returns (t) signals (wrong_type)`.
pub fn type_of_force(
    alloc: Global,
    types: &mut TypeArena,
    of: TypeId,
) -> Result<TypeId, LinkError> {
    let any = types.intern(Term::Any)?;
    let heading = force_heading(alloc, any, of)?;
    Ok(intern(types, Term::Proc(heading))?)
}

fn force_heading(alloc: Global, any: TypeId, of: TypeId) -> Result<Heading, LinkError> {
    let args = vec![in alloc; any]?;
    let results = vec![in alloc; of]?;
    let signal = Exception {
        name: Bytes::from_slice(alloc, b"wrong_type")?,
        objects: Sequence::from_vec(Vec::new(alloc)),
    };
    let signals = vec![in alloc; signal]?;
    Ok(Heading {
        args: Sequence::from_vec(args),
        results: Sequence::from_vec(results),
        signals: Sequence::from_vec(signals),
    })
}

/// The words of an operation.
pub fn operation_code(alloc: Global, operation: &Operation) -> Result<ObjRoutine, LinkError> {
    match operation_of(alloc, operation)? {
        WCode::Leaf(leaf) => Ok(select_leaf(alloc, &leaf)?),
        WCode::Routine(routine) => code_of(alloc, &routine),
    }
}

/// The words of a routine in word code. No contract shows yet that those of the runtime are well formed: it is tested.
pub fn code_of(alloc: Global, routine: &WRoutine) -> Result<ObjRoutine, LinkError> {
    if !routine.is_formed() {
        return Err(LinkError::NotYet);
    }
    let mut regions = Regions::new(alloc);
    let flat = flatten(alloc, routine, &mut regions)?;
    Ok(select(alloc, &flat, &regions)?)
}
