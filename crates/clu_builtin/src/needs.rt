//! What a built-in operation needs of the types of the parts.

ghost use Rattle.std.specs.Prelude.{◌≡◌, ◌<◌, length, IfOk};
ghost use Rattle.clu_types.specs.Arena.{type_at, types_at, types_of, AreBelow, Grows};
ghost use Rattle.clu_builtin.specs.Rows.{needs_of, need_type, need_name};
ghost use Rattle.clu_builtin.specs.Operation.{comparing, copying, asking};
ghost use Rattle.clu_builtin.specs.Built.{needs_at, NeedsBelow};

use crate::names::Op;
use crate::row::Needs;
use clu_base::{Bytes, Memory, Sequence};
use clu_types::{Heading, Term, TypeArena, TypeId};
use std::alloc::Global;

/// A type must have an operation of this name whose heading is included in the wanted type.
#[derive(Drop)]
pub struct Need {
    pub of: TypeId,
    pub op: Bytes,
    pub wanted: TypeId,
}

/// The needs of each of the parts.
pub fn needs_of_parts(
    alloc: Global,
    types: &mut TypeArena,
    parts: &[TypeId],
    asked: Needs,
) -> Result<Sequence<Need>, Memory>
    requires { AreBelow (length types.old) parts.now }
    ensures needs { IfOk result (λ needs. needs_at (types_of types.new) needs ≡ needs_of asked (types_at (types_of types.old) parts.now)) }
    ensures within { IfOk result (NeedsBelow (length types.new)) }
    ensures kept { Grows types.old types.new }
{
    match asked {
        Needs::Nothing => Ok(Sequence::from_vec(Vec::new(alloc))),
        Needs::Equal => each_needs(alloc, types, parts, Needs::Equal),
        Needs::Similar => each_needs(alloc, types, parts, Needs::Similar),
        Needs::Copy => each_needs(alloc, types, parts, Needs::Copy),
    }
}

fn each_needs(
    alloc: Global,
    types: &mut TypeArena,
    parts: &[TypeId],
    asked: Needs,
) -> Result<Sequence<Need>, Memory>
    requires { AreBelow (length types.old) parts.now }
    ensures needs { IfOk result (λ needs. needs_at (types_of types.new) needs ≡ asking (need_name asked) (need_type asked) (types_at (types_of types.old) parts.now)) }
    ensures within { IfOk result (NeedsBelow (length types.new)) }
    ensures kept { Grows types.old types.new }
{
    let mut needs = Vec::new(alloc);
    for part in parts {
        let wanted = wanted(alloc, types, *part, asked)?;
        needs.push(Need {
            of: *part,
            op: Bytes::from_slice(alloc, need_op(asked).as_bytes())?,
            wanted,
        })?;
    }
    Ok(Sequence::from_vec(needs))
}

fn need_op(asked: Needs) -> &'static str
    ensures { result.now ≡ need_name asked }
{
    match asked {
        Needs::Nothing => "",
        Needs::Equal => Op::Equal.name(),
        Needs::Similar => Op::Similar.name(),
        Needs::Copy => Op::Copy.name(),
    }
}

/// The type of the operation that a part must have.
fn wanted(
    alloc: Global,
    types: &mut TypeArena,
    part: TypeId,
    asked: Needs,
) -> Result<TypeId, Memory>
    requires { part.0 < length types.old }
    ensures of_type { IfOk result (λ id. type_at (types_of types.new) id ≡ need_type asked (type_at (types_of types.old) part)) }
    ensures within { IfOk result (λ id. id.0 < length types.new) }
    ensures kept { Grows types.old types.new }
{
    match asked {
        Needs::Copy => copying(alloc, types, part),
        Needs::Equal => comparing(alloc, types, part),
        Needs::Similar => comparing(alloc, types, part),
        Needs::Nothing => comparing(alloc, types, part),
    }
}

fn comparing(alloc: Global, types: &mut TypeArena, part: TypeId) -> Result<TypeId, Memory>
    requires { part.0 < length types.old }
    ensures of_type { IfOk result (λ id. type_at (types_of types.new) id ≡ comparing (type_at (types_of types.old) part)) }
    ensures within { IfOk result (λ id. id.0 < length types.new) }
    ensures kept { Grows types.old types.new }
{
    let bool = types.intern(Term::Bool)?;
    let args = ids(alloc, &[part, part])?;
    let results = ids(alloc, &[bool])?;
    let signals = Sequence::from_vec(Vec::new(alloc));
    types.intern(Term::Proc(Heading {
        args,
        results,
        signals,
    }))
}

fn copying(alloc: Global, types: &mut TypeArena, part: TypeId) -> Result<TypeId, Memory>
    requires { part.0 < length types.old }
    ensures of_type { IfOk result (λ id. type_at (types_of types.new) id ≡ copying (type_at (types_of types.old) part)) }
    ensures within { IfOk result (λ id. id.0 < length types.new) }
    ensures kept { Grows types.old types.new }
{
    let args = ids(alloc, &[part])?;
    let results = ids(alloc, &[part])?;
    let signals = Sequence::from_vec(Vec::new(alloc));
    types.intern(Term::Proc(Heading {
        args,
        results,
        signals,
    }))
}

fn ids(alloc: Global, ids: &[TypeId]) -> Result<Sequence<TypeId>, Memory>
    ensures { IfOk result (λ made. made ≡ ids.now) }
{
    Ok(Sequence::from_vec(ids.to_vec(alloc)?))
}
