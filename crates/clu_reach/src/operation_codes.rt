//! Which code an operation of a built-in type has: one for all types of a kind.

use crate::errors::LinkError;
use clu_base::{Bytes, Const};
use clu_rt_data::select_operation;
use clu_rt_text::{Operation, operation_of};
use clu_types::{Term, TypeArena, TypeId};
use std::alloc::Global;

/// The kinds of types whose operations have a code each.
#[derive(Clone, Copy, PartialEq, Eq, Hash)]
pub enum Family {
    Null,
    Bool,
    Int,
    Char,
    Str,
    Stream,
    Array,
    Sequence,
    Record,
    Struct,
    Oneof,
    Variant,
    Routine,
    /// `force`, for all types.
    Force,
}

/// A code by the kind of its type and its name there.
#[derive(Drop, PartialEq, Eq, Hash)]
pub struct CodeName {
    pub family: Family,
    pub name: Bytes,
}

/// The code of an operation, and what it asks to be known of the type.
#[derive(Drop)]
pub struct Chosen {
    pub code: CodeName,
    pub operation: &'static Operation,
    pub known: Vec<Const>,
}

/// The code of the operation of this name of a type. `NotYet` where none is kept.
pub fn choose(
    alloc: Global,
    types: &TypeArena,
    of: TypeId,
    name: &Bytes,
) -> Result<Chosen, LinkError> {
    let family = family_of(types, of)?;
    if let Some(found) = select_operation(alloc, types, of, name)? {
        return Ok(Chosen {
            code: code_name(alloc, family, found.operation)?,
            operation: found.operation,
            known: found.known,
        });
    }
    match operation_of(types, of, name) {
        Some(operation) => Ok(Chosen {
            code: code_name(alloc, family, operation)?,
            operation,
            known: Vec::new(alloc),
        }),
        None => Err(LinkError::NotYet),
    }
}

fn code_name(alloc: Global, family: Family, operation: &Operation) -> Result<CodeName, LinkError> {
    Ok(CodeName {
        family,
        name: Bytes::from_slice(alloc, operation.name)?,
    })
}

/// The kind of a built-in type.
pub fn family_of(types: &TypeArena, of: TypeId) -> Result<Family, LinkError> {
    if !types.contains(of) {
        return Err(LinkError::NotYet);
    }
    match types.view(of) {
        Term::Null => Ok(Family::Null),
        Term::Bool => Ok(Family::Bool),
        Term::Int => Ok(Family::Int),
        Term::Char => Ok(Family::Char),
        Term::Str => Ok(Family::Str),
        Term::Stream => Ok(Family::Stream),
        Term::Array(_) => Ok(Family::Array),
        Term::Sequence(_) => Ok(Family::Sequence),
        Term::Record(_) => Ok(Family::Record),
        Term::Struct(_) => Ok(Family::Struct),
        Term::Oneof(_) => Ok(Family::Oneof),
        Term::Variant(_) => Ok(Family::Variant),
        Term::Proc(_) | Term::Iter(_) => Ok(Family::Routine),
        Term::Any | Term::Cluster(_, _) | Term::Param(_) => Err(LinkError::NotYet),
    }
}
