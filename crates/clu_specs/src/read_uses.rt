//! Uses, read from their texts: what an object file names of other modules and types.

ghost use Rattle.std.specs.Prelude.{◌≡◌, ◌+◌, ◌<◌, length, IfOk, IfErr, Ok};
ghost use Rattle.clu_types.specs.Arena.{type_at, types_of, Grows};
ghost use Rattle.clu_specs.specs.Reading.{Gives};
ghost use Rattle.clu_specs.specs.Seen.{Used, use_text, target_seen};
ghost use Rattle.clu_specs.specs.Offsets.{BeginsUse, SoFar, NoFurther};
ghost use Rattle.clu_specs.specs.Grammar.{IsUse};
ghost use Rattle.clu_specs.specs.UseReading.{module_of, operation_read, whole_use};
ghost use Rattle.clu_specs.specs.Uses.{TargetBelow};

use crate::keywords::split_word;
use crate::marks::{at_offset, end, fault, literal};
use crate::names::{LONGEST_OPERATION, name_after};
use crate::read_types::type_at;
use crate::scope::any_scope;
use clu_base::{Bytes, FormatError, Memory, Sequence};
use clu_types::{Actual, Term, TypeArena, TypeId};
use std::alloc::Global;

/// What a use names.
#[derive(Drop)]
pub enum Target {
    /// A module that is a routine, with its actual parameters.
    Module(Bytes, Sequence<Actual>),
    /// An operation of a type.
    Op(TypeId, Bytes),
    /// The setting up of a cluster's own variables.
    OwnSetUp(TypeId),
    /// `force` of a type.
    ForceOf(TypeId),
}

/// Reads the text of a use; the types that it names go into the arena. `Bad` has the length of the longest front
/// that begins some use's text. After an error the arena may have grown; numbers that were given keep their type.
pub fn read_use(alloc: Global, types: &mut TypeArena, b: &[u8]) -> Result<Target, FormatError>
    ensures spelled { IfOk result (λ target. b.now ≡ use_text (target_seen (types_of types.new) target)) }
    ensures grammar { IfOk result (λ target. IsUse (target_seen (types_of types.new) target)) }
    ensures complete { (u : Used) → IsUse u → b.now ≡ use_text u → Gives (λ target. target_seen (types_of types.new) target) result (Ok u) }
    ensures so_far { IfErr result (SoFar BeginsUse b.now) }
    ensures no_further { IfErr result (NoFurther BeginsUse b.now) }
    ensures within { IfOk result (λ target. TargetBelow (length types.new) target) }
    ensures kept { Grows types.old types.new }
{
    match whole_use(alloc, types, b) {
        Ok(target) => Ok(target),
        Err(error) => Err(at_offset(b, error)),
    }
}

#[tactic(auto, unfolding(crate::specs::UseReading::whole_use))]
fn whole_use(alloc: Global, types: &mut TypeArena, b: &[u8]) -> Result<Target, FormatError>
    ensures reads { Gives (λ target. target_seen (types_of types.new) target) result (whole_use b.now) }
    ensures within { IfOk result (λ target. TargetBelow (length types.new) target) }
    ensures kept { Grows types.old types.new }
{
    let scope = any_scope(alloc);
    let (id, rest) = type_at(alloc, types, &scope, b, b.len())?;
    if rest.is_empty() {
        return module_use(alloc, types, id);
    }
    match operation_at(alloc, rest)? {
        Operation::Named(name) => Ok(Target::Op(id, name)),
        Operation::Own => Ok(Target::OwnSetUp(id)),
        Operation::Force => Ok(Target::ForceOf(id)),
    }
}

/// The use of a module whose name and actual parameters were read as a cluster type.
fn module_use(alloc: Global, types: &TypeArena, id: TypeId) -> Result<Target, FormatError>
    requires { id.0 < length types.now }
    ensures reads { Gives (λ target. target_seen (types_of types.now) target) result (module_of (type_at (types_of types.now) id)) }
    ensures within { IfOk result (λ target. TargetBelow (length types.now) target) }
{
    match types.view(id).copy(alloc)? {
        Term::Cluster(name, actuals) => Ok(Target::Module(name, actuals)),
        _ => Err(fault(&[])),
    }
}

/// What stands after a type in a use, from its `$` to the end.
#[derive(Drop)]
enum Operation {
    Named(Bytes),
    Own,
    Force,
}

#[tactic(auto, unfolding(crate::specs::UseReading::operation_read))]
fn operation_at(alloc: Global, bytes: &[u8]) -> Result<Operation, FormatError>
    ensures { Gives (λ op. op) result (operation_read bytes.now) }
{
    let rest = literal(b"$", bytes)?;
    let (word, behind_word) = split_word(rest);
    if word == b"own".as_slice() {
        end(behind_word)?;
        return Ok(Operation::Own);
    }
    if word == b"force".as_slice() {
        end(behind_word)?;
        return Ok(Operation::Force);
    }
    let (name, rest) = name_after(&[], LONGEST_OPERATION, rest)?;
    end(rest)?;
    Ok(Operation::Named(Bytes::from_slice(alloc, name)?))
}
