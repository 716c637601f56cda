//! What is looked up of types by callers that keep no count of them: a number that is none of the arena is `NotYet`.

ghost use Rattle.std.specs.Prelude.{◌≡◌, ◌≤◌, IfOk, OnErr, Some, length, slice_get};
ghost use Rattle.clu_types.specs.Arena.{actuals_at, type_at, types_of, Grows};
ghost use Rattle.clu_types.specs.Substituted.{substituted};

use clu_base::Memory;
use clu_types::{Actual, Term, TypeArena, TypeId};
use std::alloc::{AllocError, Global};

/// Why nothing was found.
#[derive(Clone, Copy, Debug)]
pub enum LookupError {
    /// Memory was refused.
    Memory,
    /// What no source brings about, but no contract rules out yet.
    NotYet,
}

impl From<Memory> for LookupError {
    ghost use Rattle.std.specs.Prelude.{◌≡◌};
    ghost use Rattle.clu_core.specs.declared.lookups.LookupError.{LookupError};

    ghost from_gives = { λ _ e. e ≡ LookupError.Memory };

    fn from(_error: Memory) -> LookupError {
        LookupError::Memory
    }
}

impl From<AllocError> for LookupError {
    ghost use Rattle.std.specs.Prelude.{◌≡◌};
    ghost use Rattle.clu_core.specs.declared.lookups.LookupError.{LookupError};

    ghost from_gives = { λ _ e. e ≡ LookupError.Memory };

    fn from(_error: AllocError) -> LookupError {
        LookupError::Memory
    }
}

/// The number of the type that a term denotes.
pub fn intern(types: &mut TypeArena, term: Term) -> Result<TypeId, LookupError>
    ensures found { IfOk result (λ id. slice_get types.new id.0 ≡ Some term) }
    ensures kept { Grows types.old types.new }
{
    if types.holds(&term) {
        Ok(types.intern(term)?)
    } else {
        Err(LookupError::NotYet)
    }
}

/// The term of a type.
pub fn term(types: &TypeArena, id: TypeId) -> Result<&Term, LookupError>
    ensures found { IfOk result (λ term. slice_get types.now id.0 ≡ Some term.now) }
    ensures none { OnErr result (length types.now ≤ id.0) }
{
    if types.contains(id) {
        Ok(types.view(id))
    } else {
        Err(LookupError::NotYet)
    }
}

/// The type that `t` has in another arena, with actuals of this one put in for its parameters.
pub fn carry(
    alloc: Global,
    types: &mut TypeArena,
    from: &TypeArena,
    t: TypeId,
    actuals: &[Actual],
) -> Result<TypeId, LookupError>
    ensures of_type { IfOk result (λ id. type_at (types_of types.new) id ≡ substituted (actuals_at (types_of types.old) actuals.now) (type_at (types_of from.now) t)) }
    ensures kept { Grows types.old types.new }
{
    if from.contains(t) && types.holds_actuals(actuals) {
        Ok(types.carry(alloc, from, t, actuals)?)
    } else {
        Err(LookupError::NotYet)
    }
}
