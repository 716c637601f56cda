//! The values of types, by those of their parts.

ghost use Rattle.std.specs.Prelude.{◌≡◌, ◌<◌, ◌⊎◌, ℕ, true, [], List, All, IfOk, Some, None, length};
ghost use Rattle.clu_base.specs.declared.constants.Const.{Const};
ghost use Rattle.clu_types.specs.CluType.{CluType, CluTypes, Fields, Signals};
ghost use Rattle.clu_types.specs.Arena.{PartsBelow, AreBelow, FieldsBelow, SignalsBelow, Grows, type_of, type_at, types_at, fields_at, signals_at};
ghost use Rattle.clu_types.specs.Arena.{types_of as arena_types};
ghost use Rattle.clu_meaning.specs.Settling.{settled_type, list_type, fields_type, routine_type};
ghost use Rattle.clu_settle.specs.declared.value.Value.{Value};
ghost use Rattle.clu_settle.specs.Values.{told, Agrees, TypeWithin, ConstantWithin};
ghost use Rattle.clu_settle.specs.Lists.{type_id, value_of, ids_behind, selectors_behind, signals_behind};
ghost use Rattle.clu_settle.specs.Lost.{is_typed};
ghost use Rattle.clu_settle.specs.Agreeing.{TypesAgree, SelectorsAgree, SignalsAgree};

use crate::lists::{fields_of, signals_of, types_of};
use crate::value::{Value, value_at};
use clu_base::{Memory, Sequence};
use clu_syntax::{FieldsType, ListType, RoutineKind};
use clu_tree::Tree;
use clu_types::{Exception, Field, Heading, Term, TypeArena, TypeId};
use std::alloc::Global;

/// The type of a term whose parts are known.
pub fn type_value(types: &mut TypeArena, term: Term) -> Result<Value, Memory>
    requires { PartsBelow (length types.old) term }
    ensures known { IfOk result (λ v. (constants : List Const) → told (arena_types types.new) constants v ≡ Some (settled_type (type_of (arena_types types.old) term))) }
    ensures constant_in { IfOk result (λ v. (n : ℕ) → ConstantWithin n v) }
    ensures type_in { IfOk result (λ v. TypeWithin (length types.new) v) }
    ensures kept { Grows types.old types.new }
    ensures typed { IfOk result (λ v. is_typed v ≡ true) }
    ensures there { IfOk result (λ v. v ≡ Value.Lost → ⊥) }
{
    Ok(Value::Type(types.intern(term)?))
}

/// The same of a term of any parts.
fn made(types: &mut TypeArena, term: Term) -> Result<Value, Memory>
    ensures known { IfOk result (λ v. (constants : List Const) → Agrees (told (arena_types types.new) constants v) (settled_type (type_of (arena_types types.old) term))) }
    ensures constant_in { IfOk result (λ v. (n : ℕ) → ConstantWithin n v) }
    ensures type_in { IfOk result (λ v. TypeWithin (length types.new) v) }
    ensures kept { Grows types.old types.new }
    ensures typed { IfOk result (λ v. is_typed v ≡ true) }
    ensures lost { IfOk result (λ v. v ≡ Value.Lost → PartsBelow (length types.old) term → ⊥) }
{
    if types.holds(&term) {
        type_value(types, term)
    } else {
        Ok(Value::Lost)
    }
}

fn list_term(word: ListType, of: TypeId) -> Term
    ensures of_type { (types : List CluType) → type_of types result ≡ list_type word (type_at types of) }
    ensures parts { (n : ℕ) → of.0 < n → PartsBelow n result }
{
    match word {
        ListType::Array => Term::Array(of),
        ListType::Sequence => Term::Sequence(of),
    }
}

/// `array[of]`, `sequence[of]`
pub fn list_value(
    types: &mut TypeArena,
    values: &[Value],
    word: ListType,
    of: u32,
) -> Result<Value, Memory>
    ensures known { IfOk result (λ v. (constants : List Const) (t : CluType) → Agrees (told (arena_types types.old) constants (value_of values.now of)) (settled_type t) → Agrees (told (arena_types types.new) constants v) (settled_type (list_type word t))) }
    ensures constant_in { IfOk result (λ v. (n : ℕ) → ConstantWithin n v) }
    ensures type_in { IfOk result (λ v. TypeWithin (length types.new) v) }
    ensures kept { Grows types.old types.new }
    ensures typed { IfOk result (λ v. is_typed v ≡ true) }
    ensures lost { IfOk result (λ v. v ≡ Value.Lost → All (TypeWithin (length types.old)) values.now → type_id (value_of values.now of) ≡ None) }
{
    match value_at(values, of) {
        Value::Type(of) => made(types, list_term(word, of)),
        _ => Ok(Value::Lost),
    }
}

fn fields_term(word: FieldsType, fields: Sequence<Field>) -> Term
    ensures of_type { (types : List CluType) → type_of types result ≡ fields_type word (fields_at types fields) }
    ensures parts { (n : ℕ) → FieldsBelow n fields → PartsBelow n result }
{
    match word {
        FieldsType::Record => Term::Record(fields),
        FieldsType::Struct => Term::Struct(fields),
        FieldsType::Oneof => Term::Oneof(fields),
        FieldsType::Variant => Term::Variant(fields),
    }
}

/// `record[selector, ..]` and its like.
pub fn fields_value(
    alloc: Global,
    types: &mut TypeArena,
    tree: &Tree,
    values: &[Value],
    word: FieldsType,
    selectors: &[u32],
) -> Result<Value, Memory>
    ensures known { IfOk result (λ v. (constants : List Const) (fs : Fields) → SelectorsAgree (arena_types types.old) constants values.now tree.now selectors.now fs → Agrees (told (arena_types types.new) constants v) (settled_type (fields_type word fs))) }
    ensures constant_in { IfOk result (λ v. (n : ℕ) → ConstantWithin n v) }
    ensures type_in { IfOk result (λ v. TypeWithin (length types.new) v) }
    ensures kept { Grows types.old types.new }
    ensures typed { IfOk result (λ v. is_typed v ≡ true) }
    ensures lost { IfOk result (λ v. v ≡ Value.Lost → All (TypeWithin (length types.old)) values.now → selectors_behind values.now tree.now [] selectors.now ≡ None) }
{
    match fields_of(alloc, tree, values, selectors)? {
        Some(fields) => made(types, fields_term(word, fields)),
        None => Ok(Value::Lost),
    }
}

fn routine_term(
    kind: RoutineKind,
    args: Sequence<TypeId>,
    results: Sequence<TypeId>,
    signals: Sequence<Exception>,
) -> Term
    ensures of_type { (types : List CluType) → type_of types result ≡ routine_type kind (types_at types args) (types_at types results) (signals_at types signals) }
    ensures parts { (n : ℕ) → AreBelow n args → AreBelow n results → SignalsBelow n signals → PartsBelow n result }
{
    let heading = Heading {
        args,
        results,
        signals,
    };
    match kind {
        RoutineKind::Procedure => Term::Proc(heading),
        RoutineKind::Iterator => Term::Iter(heading),
    }
}

/// `proctype(argument, ..) returns (result, ..) signals (exception, ..)`, and likewise `itertype`.
pub fn routine_value(
    alloc: Global,
    types: &mut TypeArena,
    tree: &Tree,
    values: &[Value],
    kind: RoutineKind,
    arguments: &[u32],
    results: &[u32],
    exceptions: &[u32],
) -> Result<Value, Memory>
    ensures known { IfOk result (λ v. (constants : List Const) (args given : CluTypes) (ss : Signals) → TypesAgree (arena_types types.old) constants values.now arguments.now args → TypesAgree (arena_types types.old) constants values.now results.now given → SignalsAgree (arena_types types.old) constants values.now tree.now exceptions.now ss → Agrees (told (arena_types types.new) constants v) (settled_type (routine_type kind args given ss))) }
    ensures constant_in { IfOk result (λ v. (n : ℕ) → ConstantWithin n v) }
    ensures type_in { IfOk result (λ v. TypeWithin (length types.new) v) }
    ensures kept { Grows types.old types.new }
    ensures typed { IfOk result (λ v. is_typed v ≡ true) }
    ensures lost { IfOk result (λ v. v ≡ Value.Lost → All (TypeWithin (length types.old)) values.now → (ids_behind values.now [] arguments.now ≡ None) ⊎ ((ids_behind values.now [] results.now ≡ None) ⊎ (signals_behind values.now tree.now [] exceptions.now ≡ None))) }
{
    let Some(args) = types_of(alloc, values, arguments)? else {
        return Ok(Value::Lost);
    };
    let Some(results) = types_of(alloc, values, results)? else {
        return Ok(Value::Lost);
    };
    let Some(signals) = signals_of(alloc, tree, values, exceptions)? else {
        return Ok(Value::Lost);
    };
    made(types, routine_term(kind, args, results, signals))
}
