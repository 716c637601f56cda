//! Types read from their texts. A type may be nested as deep as its text has bytes.

ghost use Rattle.std.specs.Prelude.{◌≡◌, ◌<◌, length, IfOk, IfErr, Ok};
ghost use Rattle.clu_types.specs.CluType.{CluType};
ghost use Rattle.clu_types.specs.Arena.{type_at, types_of, Grows};
ghost use Rattle.clu_specs.specs.Scopes.{any_scope};
ghost use Rattle.clu_specs.specs.Grammar.{IsType};
ghost use Rattle.clu_specs.specs.Texts.{type_text};
ghost use Rattle.clu_specs.specs.Offsets.{BeginsType, SoFar, NoFurther};
ghost use Rattle.clu_specs.specs.Reading.{Gives};
ghost use Rattle.clu_specs.specs.TypeReading.{whole_type};

use crate::marks::{at_offset, end};
use crate::read_types::type_at;
use crate::scope::any_scope;
use clu_base::FormatError;
use clu_types::{TypeArena, TypeId};
use std::alloc::Global;

/// Reads the text of a type into the arena: exactly the texts of the grammar in docs/formats.md. `Bad` has the
/// length of the longest front that begins some type's text. After an error the arena may have grown; numbers
/// that were given keep their type.
pub fn read_type(alloc: Global, types: &mut TypeArena, b: &[u8]) -> Result<TypeId, FormatError>
    ensures spelled { IfOk result (λ id. b.now ≡ type_text (type_at (types_of types.new) id)) }
    ensures grammar { IfOk result (λ id. IsType any_scope (type_at (types_of types.new) id)) }
    ensures complete { (t : CluType) → IsType any_scope t → b.now ≡ type_text t → Gives (λ id. type_at (types_of types.new) id) result (Ok t) }
    ensures so_far { IfErr result (SoFar BeginsType b.now) }
    ensures no_further { IfErr result (NoFurther BeginsType b.now) }
    ensures within { IfOk result (λ id. id.0 < length types.new) }
    ensures kept { Grows types.old types.new }
{
    match whole_type(alloc, types, b) {
        Ok(id) => Ok(id),
        Err(error) => Err(at_offset(b, error)),
    }
}

#[tactic(auto, unfolding(crate::specs::TypeReading::whole_type))]
fn whole_type(alloc: Global, types: &mut TypeArena, b: &[u8]) -> Result<TypeId, FormatError>
    ensures reads { Gives (λ id. type_at (types_of types.new) id) result (whole_type b.now) }
    ensures within { IfOk result (λ id. id.0 < length types.new) }
    ensures kept { Grows types.old types.new }
{
    let scope = any_scope(alloc);
    let (id, rest) = type_at(alloc, types, &scope, b, b.len())?;
    end(rest)?;
    Ok(id)
}
