//! Where the code of an instance comes from, and the actual parameters that it has.

ghost use Rattle.std.specs.Prelude.{IfOk, Some, slice_get};
ghost use Rattle.clu_reach.specs.Walked.{IsOrigin, IsOriginIn};

use crate::errors::LinkError;
use crate::member::Member;
use crate::parameters::copied;
use clu_base::Bytes;
use clu_core::term;
use clu_types::{Actual, Field, Term, TypeArena, TypeId};
use std::alloc::Global;

/// The name of the routine that sets up a cluster's own variables.
pub const SET_UP: &[u8] = b"own";

/// A routine of a module with its actual parameters.
#[derive(Drop)]
pub struct Kept {
    pub module: Bytes,
    pub routine: Bytes,
    /// The type of the cluster that the module is.
    pub cluster: Option<TypeId>,
    pub actuals: Vec<Actual>,
}

/// Where the code of an instance comes from.
#[derive(Drop)]
pub enum Origin {
    /// From what is kept of a module.
    Module(Kept),
    /// From an operation of a built-in type, to which the types of its parts are actuals.
    Builtin(TypeId, Bytes, Vec<Actual>),
}

/// Where the code of a member comes from that is an instance.
pub fn origin_of(alloc: Global, types: &TypeArena, member: &Member) -> Result<Origin, LinkError>
    ensures { IfOk result (IsOrigin types.now member.now) }
{
    match member {
        Member::Module(name, actuals) => Ok(Origin::Module(Kept {
            module: name.copy(alloc)?,
            routine: name.copy(alloc)?,
            cluster: None,
            actuals: copied(alloc, actuals.as_slice())?,
        })),
        Member::Op(of, op) => origin_of_operation(alloc, types, *of, op.copy(alloc)?),
        Member::OwnSetUp(of) => {
            let set_up = Bytes::from_slice(alloc, SET_UP)?;
            origin_of_operation(alloc, types, *of, set_up)
        }
        Member::ForceOf(_) => Err(LinkError::NotYet),
    }
}

#[tactic(auto, using(crate::proofs::Steps::origins))]
fn origin_of_operation(
    alloc: Global,
    types: &TypeArena,
    of: TypeId,
    op: Bytes,
) -> Result<Origin, LinkError>
    ensures { IfOk result (IsOriginIn (slice_get types.now of.0) op) }
{
    origin_in(alloc, term(types, of)?, of, op)
}

/// Where the code of an operation of a type with this term comes from.
fn origin_in(alloc: Global, term: &Term, of: TypeId, op: Bytes) -> Result<Origin, LinkError>
    ensures { IfOk result (IsOriginIn (Some term.now) op) }
{
    match term {
        Term::Cluster(name, actuals) => Ok(Origin::Module(Kept {
            module: name.copy(alloc)?,
            routine: op,
            cluster: Some(of),
            actuals: copied(alloc, actuals.as_slice())?,
        })),
        Term::Null
        | Term::Bool
        | Term::Int
        | Term::Char
        | Term::Str
        | Term::Any
        | Term::Stream
        | Term::Array(_)
        | Term::Sequence(_)
        | Term::Record(_)
        | Term::Struct(_)
        | Term::Oneof(_)
        | Term::Variant(_)
        | Term::Proc(_)
        | Term::Iter(_)
        | Term::Param(_) => Ok(Origin::Builtin(of, op, parts_of(alloc, term)?)),
    }
}

/// The types of the parts of a type: of its elements, or of its components in the order of their selectors.
fn parts_of(alloc: Global, of: &Term) -> Result<Vec<Actual>, LinkError> {
    match of {
        Term::Array(element) | Term::Sequence(element) => {
            Ok(vec![in alloc; Actual::Of(*element)]?)
        }
        Term::Record(fields) | Term::Struct(fields) | Term::Oneof(fields) | Term::Variant(fields) =>
            field_types(alloc, fields.as_slice()),
        _ => Ok(Vec::new(alloc)),
    }
}

fn field_types(alloc: Global, fields: &[Field]) -> Result<Vec<Actual>, LinkError> {
    let mut types = Vec::new(alloc);
    for field in fields {
        types.push(Actual::Of(field.of))?;
    }
    Ok(types)
}
