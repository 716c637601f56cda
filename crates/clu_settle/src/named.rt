//! The values of names, with and without actual parameters.

ghost use Rattle.std.specs.Prelude.{◌≡◌, ℕ, [], List, All, IfOk, Some, None, length};
ghost use Rattle.clu_base.specs.declared.constants.Const.{Const};
ghost use Rattle.clu_types.specs.CluType.{CluType, Actuals, no_actuals, cluster_of};
ghost use Rattle.clu_types.specs.Arena.{ActualsBelow, Grows, actuals_at};
ghost use Rattle.clu_types.specs.Arena.{types_of as arena_types};
ghost use Rattle.clu_syntax.specs.Syntax.{Constant};
ghost use Rattle.clu_meaning.specs.Scoping.{Scope};
ghost use Rattle.clu_meaning.specs.Scoping.{Meaning as Meant};
ghost use Rattle.clu_meaning.specs.Settling.{Value as Settled, settled_type, module_type, value_of_meaning};
ghost use Rattle.clu_meaning.specs.Settling.{with_brackets as settled_with_brackets};
ghost use Rattle.clu_settle.specs.declared.value.Value.{Value};
ghost use Rattle.clu_settle.specs.Values.{told, Agrees, TypeWithin, IsWithin, AreWithin};
ghost use Rattle.clu_settle.specs.Lists.{actuals_behind, value_of};
ghost use Rattle.clu_settle.specs.Lost.{IsNameLost};
ghost use Rattle.clu_settle.specs.Agreeing.{ActualsAgree, MeaningAgrees};
ghost use Rattle.clu_settle.specs.Standing.{is_lost, right_named};

use crate::lists::actuals_of;
use crate::meanings::Meaning;
use crate::type_values::type_value;
use crate::value::{Value, value_at};
use clu_base::{Bytes, Memory, Sequence};
use clu_constants::Constants;
use clu_types::{Actual, Term, TypeArena};
use std::alloc::Global;

/// The type of a module's name without actual parameters. `stream` is the name of a built-in type where no module has it.
fn unapplied_type(alloc: Global, types: &mut TypeArena, name: &Bytes) -> Result<Value, Memory>
    ensures known { IfOk result (λ v. (constants : List Const) → told (arena_types types.new) constants v ≡ Some (settled_type (module_type name.now no_actuals))) }
    ensures within { IfOk result (λ v. (n : ℕ) → IsWithin (length types.new) n v) }
    ensures kept { Grows types.old types.new }
{
    if name.as_slice() == b"stream".as_slice() {
        type_value(types, Term::Stream)
    } else {
        let name = name.copy(alloc)?;
        let none = Sequence::from_vec(Vec::new(alloc));
        type_value(types, Term::Cluster(name, none))
    }
}

/// The same with some.
fn applied_type(
    alloc: Global,
    types: &mut TypeArena,
    name: &Bytes,
    given: Sequence<Actual>,
) -> Result<Value, Memory>
    requires { ActualsBelow (length types.old) given }
    ensures known { IfOk result (λ v. (constants : List Const) → told (arena_types types.new) constants v ≡ Some (settled_type (cluster_of name.now (actuals_at (arena_types types.old) given)))) }
    ensures within { IfOk result (λ v. (n : ℕ) → IsWithin (length types.new) n v) }
    ensures kept { Grows types.old types.new }
{
    let name = name.copy(alloc)?;
    type_value(types, Term::Cluster(name, given))
}

/// The type of a module's name with actual parameters.
fn module_type(
    alloc: Global,
    types: &mut TypeArena,
    name: &Bytes,
    given: Sequence<Actual>,
) -> Result<Value, Memory>
    requires { ActualsBelow (length types.old) given }
    ensures known { IfOk result (λ v. (constants : List Const) → told (arena_types types.new) constants v ≡ Some (settled_type (module_type name.now (actuals_at (arena_types types.old) given)))) }
    ensures within { IfOk result (λ v. (n : ℕ) → IsWithin (length types.new) n v) }
    ensures kept { Grows types.old types.new }
{
    if given.as_slice().is_empty() {
        unapplied_type(alloc, types, name)
    } else {
        applied_type(alloc, types, name, given)
    }
}

fn module_value(
    alloc: Global,
    types: &mut TypeArena,
    constants: &Constants,
    values: &[Value],
    name: &Bytes,
    given: &[u32],
) -> Result<Value, Memory>
    ensures known { IfOk result (λ v. (gs : Actuals) → ActualsAgree (arena_types types.old) constants.now values.now given.now gs → Agrees (told (arena_types types.new) constants.now v) (settled_type (module_type name.now gs))) }
    ensures within { IfOk result (λ v. (n : ℕ) → IsWithin (length types.new) n v) }
    ensures kept { Grows types.old types.new }
    ensures lost { IfOk result (λ v. v ≡ Value.Lost → All (TypeWithin (length types.old)) values.now → actuals_behind values.now constants.now [] given.now ≡ None) }
{
    match actuals_of(alloc, constants, values, given)? {
        Some(given) => {
            if types.holds_actuals(given.as_slice()) {
                module_type(alloc, types, name, given)
            } else {
                Ok(Value::Lost)
            }
        }
        None => Ok(Value::Lost),
    }
}

/// The value of a name that stands for this, with actual parameters for a module.
pub fn value_of_name(
    alloc: Global,
    types: &mut TypeArena,
    constants: &Constants,
    values: &[Value],
    meaning: Meaning,
    name: &Bytes,
    given: &[u32],
) -> Result<Value, Memory>
    ensures known { IfOk result (λ v. (scope : Scope) (unfolded : Constant → Settled) (m : Meant) (gs : Actuals) → MeaningAgrees (arena_types types.old) constants.now values.now unfolded meaning m → ActualsAgree (arena_types types.old) constants.now values.now given.now gs → Agrees (told (arena_types types.new) constants.now v) (value_of_meaning scope unfolded name.now gs m)) }
    ensures within { IfOk result (λ v. (n : ℕ) → AreWithin (length types.old) n values.now → IsWithin (length types.new) n v) }
    ensures kept { Grows types.old types.new }
    ensures lost { IfOk result (λ v. v ≡ Value.Lost → All (TypeWithin (length types.old)) values.now → IsNameLost values.now constants.now given.now meaning) }
    ensures same { IfOk result (λ v. (r : ℕ) → right_named meaning ≡ Some r → v ≡ value_of values.now r) }
{
    match meaning {
        Meaning::Equate(right) => Ok(value_at(values, right)),
        Meaning::TypeParameter(number) => type_value(types, Term::Param(number)),
        Meaning::ConstantParameter(number) => Ok(Value::Parameter(number)),
        Meaning::Module => module_value(alloc, types, constants, values, name, given),
        Meaning::Other => Ok(Value::Nothing),
    }
}

/// A name with brackets is a type with actual parameters; what is no type makes no constant with them.
pub fn with_brackets(value: Value) -> Value
    ensures known { (types : List CluType) (constants : List Const) (a : Settled) → Agrees (told types constants value) a → Agrees (told types constants result) (settled_with_brackets a) }
    ensures within { (types constants : ℕ) → IsWithin types constants value → IsWithin types constants result }
    ensures lost { result ≡ Value.Lost → value ≡ Value.Lost }
    ensures same { is_lost result ≡ is_lost value }
{
    match value {
        Value::Type(id) => Value::Type(id),
        Value::Lost => Value::Lost,
        _ => Value::Nothing,
    }
}
