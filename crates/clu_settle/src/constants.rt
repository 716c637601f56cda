//! The list of constants that values name.

ghost use Rattle.std.specs.Prelude.{◌≡◌, ◌<◌, ℕ, List, IfOk, Some, length};
ghost use Rattle.clu_base.specs.declared.constants.Const.{Const};
ghost use Rattle.clu_types.specs.CluType.{CluType};
ghost use Rattle.clu_meaning.specs.Settling.{constant_value};
ghost use Rattle.clu_settle.specs.Values.{told, Kept, TypeWithin, ConstantWithin, constant_at};

use crate::value::Value;
use clu_base::{Const, Memory};
use clu_constants::Constants;
use std::alloc::Global;

/// The constant of this place.
pub fn constant_at(alloc: Global, constants: &Constants, place: usize) -> Result<Const, Memory>
    ensures { IfOk result (λ constant. constant ≡ constant_at constants.now place) }
{
    match constants.copy(alloc, place)? {
        Some(constant) => Ok(constant),
        None => Ok(Const::Null),
    }
}

/// Keeps a constant, if there is one. Constants that were kept stay, also when memory runs out.
pub fn keep(constants: &mut Constants, found: Option<Const>) -> Result<Value, Memory>
    ensures known { IfOk result (λ v. (types : List CluType) → told types constants.new v ≡ Some (constant_value found)) }
    ensures constant_in { IfOk result (λ v. ConstantWithin (length constants.new) v) }
    ensures type_in { IfOk result (λ v. (n : ℕ) → TypeWithin n v) }
    ensures kept { Kept constants.old constants.new }
{
    match found {
        Some(constant) => {
            let place = constants.len();
            constants.push(constant)?;
            Ok(Value::Constant(place))
        }
        None => Ok(Value::Nothing),
    }
}
