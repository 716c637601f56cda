//! The value of a node, by those of the nodes from which it is made.

ghost use Rattle.std.specs.Prelude.{◌≡◌, ◌<◌, ◌⊎◌, ℕ, true, false, [], List, All, IfOk, Some, length, slice_get, codes};
ghost use Rattle.clu_base.specs.declared.constants.Const.{Const};
ghost use Rattle.clu_types.specs.CluType.{Actuals};
ghost use Rattle.clu_types.specs.Arena.{Grows};
ghost use Rattle.clu_types.specs.Arena.{types_of as arena_types};
ghost use Rattle.clu_syntax.specs.declared.words.SimpleType.{SimpleType};
ghost use Rattle.clu_syntax.specs.Kinds.{is_expression, is_type, kind_at};
ghost use Rattle.clu_syntax.specs.Nodes.{item_at};
ghost use Rattle.clu_syntax.specs.Syntax.{Constant};
ghost use Rattle.clu_meaning.specs.Scoping.{Scope, meaning_of};
ghost use Rattle.clu_meaning.specs.Scoping.{Meaning as Meant};
ghost use Rattle.clu_meaning.specs.Settling.{Value as Settled, settled_type, type_in, simple_type, representation_at, value_of_meaning, value_of_constant, value_of_expression, type_of};
ghost use Rattle.clu_settle.specs.declared.value.Value.{Value};
ghost use Rattle.clu_settle.specs.Values.{told, Agrees, Kept, TypeWithin, IsWithin, AreWithin};
ghost use Rattle.clu_settle.specs.Lost.{is_cvt, is_typed, AreTyped, IsNameLost, IsExplained};
ghost use Rattle.clu_settle.specs.Names.{is_constant, meaning_in};
ghost use Rattle.clu_settle.specs.Agreeing.{ActualsAgree, MeaningAgrees};
ghost use Rattle.clu_settle.specs.Known.{AreKnown};
ghost use Rattle.clu_settle.specs.Indexed.{indexed};
ghost use Rattle.clu_settle.specs.Lists.{value_of};
ghost use Rattle.clu_settle.specs.Standing.{is_lost, is_cvt_type, is_plain_word, is_plain_type, right_named_at, word_stands_for, type_stands_for, index_stands_for, expression_stands_for, IsRead};

use crate::literals::literal_value;
use crate::meanings::{Meaning, meaning_at};
use crate::named::{value_of_name, with_brackets};
use crate::operators::{infix_value, prefix_value};
use crate::type_values::{fields_value, list_value, routine_value, type_value};
use crate::value::{Value, value_at};
use clu_base::{Bytes, Memory};
use clu_constants::Constants;
use clu_syntax::{Expression, SimpleType, Syntax, TypeExpression, is_expression, is_type};
use clu_types::{Term, TypeArena};
use std::alloc::Global;

/// What values are made from.
#[derive(Clone, Copy)]
pub struct Asked<'a> {
    pub alloc: Global,
    pub syntax: &'a Syntax,
    /// What the name of each node stands for.
    pub meanings: &'a [Meaning],
}

/// A type from what stands for one; `no_type` is the parameter 0, of which no object is.
fn as_type(types: &mut TypeArena, value: Value) -> Result<Value, Memory>
    ensures known { IfOk result (λ v. (constants : List Const) (s : Settled) → Agrees (told (arena_types types.old) constants value) s → Agrees (told (arena_types types.new) constants v) (settled_type (type_in s))) }
    ensures within { IfOk result (λ v. (n : ℕ) → IsWithin (length types.old) n value → IsWithin (length types.new) n v) }
    ensures kept { Grows types.old types.new }
    ensures typed { IfOk result (λ v. is_typed v ≡ true) }
    ensures lost { IfOk result (λ v. v ≡ Value.Lost → value ≡ Value.Lost) }
    ensures same { IfOk result (λ v. is_lost v ≡ is_lost value) }
{
    match value {
        Value::Type(id) => Ok(Value::Type(id)),
        Value::Lost => Ok(Value::Lost),
        _ => type_value(types, Term::Param(0)),
    }
}

/// The type at the node n that has this name and these actual parameters.
fn named_type(
    asked: Asked<'_>,
    types: &mut TypeArena,
    constants: &Constants,
    values: &[Value],
    n: u32,
    name: &Bytes,
    given: &[u32],
) -> Result<Value, Memory>
    ensures known { IfOk result (λ v. (scope : Scope) (unfolded : Constant → Settled) (m : Meant) (gs : Actuals) → MeaningAgrees (arena_types types.old) constants.now values.now unfolded (meaning_in (slice_get asked.entry.meanings.now n)) m → ActualsAgree (arena_types types.old) constants.now values.now given.now gs → Agrees (told (arena_types types.new) constants.now v) (settled_type (type_in (value_of_meaning scope unfolded name.now gs m)))) }
    ensures within { IfOk result (λ v. (n : ℕ) → AreWithin (length types.old) n values.now → IsWithin (length types.new) n v) }
    ensures kept { Grows types.old types.new }
    ensures typed { IfOk result (λ v. is_typed v ≡ true) }
    ensures lost { IfOk result (λ v. v ≡ Value.Lost → All (TypeWithin (length types.old)) values.now → IsNameLost values.now constants.now given.now (meaning_in (slice_get asked.entry.meanings.now n))) }
    ensures same { IfOk result (λ v. (r : ℕ) → right_named_at asked.entry.meanings.now n ≡ Some r → is_lost v ≡ is_lost (value_of values.now r)) }
{
    let meaning = meaning_at(asked.meanings, n);
    let value = value_of_name(asked.alloc, types, constants, values, meaning, name, given)?;
    as_type(types, value)
}

/// The type of the word `rep` at the node n.
fn representation(
    asked: Asked<'_>,
    types: &mut TypeArena,
    constants: &Constants,
    values: &[Value],
    n: u32,
) -> Result<Value, Memory>
    ensures known { IfOk result (λ v. (scope : Scope) (unfolded : Constant → Settled) → MeaningAgrees (arena_types types.old) constants.now values.now unfolded (meaning_in (slice_get asked.entry.meanings.now n)) (meaning_of scope n (codes "rep")) → Agrees (told (arena_types types.new) constants.now v) (settled_type (representation_at scope unfolded n))) }
    ensures within { IfOk result (λ v. (n : ℕ) → AreWithin (length types.old) n values.now → IsWithin (length types.new) n v) }
    ensures kept { Grows types.old types.new }
    ensures typed { IfOk result (λ v. is_typed v ≡ true) }
    ensures lost { IfOk result (λ v. v ≡ Value.Lost → All (TypeWithin (length types.old)) values.now → IsNameLost values.now constants.now [] (meaning_in (slice_get asked.entry.meanings.now n))) }
    ensures same { IfOk result (λ v. (r : ℕ) → right_named_at asked.entry.meanings.now n ≡ Some r → is_lost v ≡ is_lost (value_of values.now r)) }
{
    let name = Bytes::from_slice(asked.alloc, b"rep")?;
    named_type(asked, types, constants, values, n, &name, &[])
}

/// The value of a type that is one word. `rep` is the name of an equate; `cvt` has two types, of which the heading says
/// which one is meant.
fn simple_value(
    asked: Asked<'_>,
    types: &mut TypeArena,
    constants: &Constants,
    values: &[Value],
    n: u32,
    word: SimpleType,
) -> Result<Value, Memory>
    ensures known { IfOk result (λ v. (scope : Scope) (unfolded : Constant → Settled) → (word ≡ SimpleType.Rep → MeaningAgrees (arena_types types.old) constants.now values.now unfolded (meaning_in (slice_get asked.entry.meanings.now n)) (meaning_of scope n (codes "rep"))) → Agrees (told (arena_types types.new) constants.now v) (settled_type (simple_type scope unfolded n word))) }
    ensures within { IfOk result (λ v. (n : ℕ) → AreWithin (length types.old) n values.now → IsWithin (length types.new) n v) }
    ensures kept { Grows types.old types.new }
    ensures typed { IfOk result (λ v. is_typed v ≡ true) }
    ensures lost { IfOk result (λ v. v ≡ Value.Lost → All (TypeWithin (length types.old)) values.now → (is_cvt word ≡ true) ⊎ IsNameLost values.now constants.now [] (meaning_in (slice_get asked.entry.meanings.now n))) }
    ensures same { IfOk result (λ v. (r : ℕ) → word_stands_for asked.entry.meanings.now n word ≡ Some r → is_lost v ≡ is_lost (value_of values.now r)) }
    ensures cvt { IfOk result (λ v. word ≡ SimpleType.Cvt → v ≡ Value.Lost) }
    ensures plain { IfOk result (λ v. is_plain_word word ≡ true → is_lost v ≡ false) }
{
    match word {
        SimpleType::Null => type_value(types, Term::Null),
        SimpleType::Bool => type_value(types, Term::Bool),
        SimpleType::Int => type_value(types, Term::Int),
        SimpleType::Real => type_value(types, Term::Param(0)),
        SimpleType::Char => type_value(types, Term::Char),
        SimpleType::String => type_value(types, Term::Str),
        SimpleType::Any => type_value(types, Term::Any),
        SimpleType::Rep => representation(asked, types, constants, values, n),
        SimpleType::Cvt => Ok(Value::Lost),
    }
}

/// The value of the type at the node n.
fn value_of_type(
    asked: Asked<'_>,
    types: &mut TypeArena,
    constants: &Constants,
    values: &[Value],
    n: u32,
) -> Result<Value, Memory>
    requires { n < length asked.syntax.now }
    ensures known { IfOk result (λ v. (scope : Scope) (unfolded : Constant → Settled) → AreKnown asked.entry.syntax.now scope asked.entry.meanings.now (arena_types types.old) constants.now values.now unfolded → is_type (kind_at asked.entry.syntax.now n) ≡ true → Agrees (told (arena_types types.new) constants.now v) (settled_type (type_of scope unfolded (item_at asked.entry.syntax.now n).type))) }
    ensures within { IfOk result (λ v. (n : ℕ) → AreWithin (length types.old) n values.now → IsWithin (length types.new) n v) }
    ensures kept { Grows types.old types.new }
    ensures typed { IfOk result (λ v. is_typed v ≡ true) }
    ensures lost { IfOk result (λ v. v ≡ Value.Lost → All (TypeWithin (length types.old)) values.now → AreTyped asked.entry.syntax.now values.now → is_type (kind_at asked.entry.syntax.now n) ≡ true → IsExplained asked.entry.syntax.now asked.entry.meanings.now values.now n) }
    ensures same { IfOk result (λ v. (r : ℕ) → type_stands_for asked.entry.meanings.now (item_at asked.entry.syntax.now n).type ≡ Some r → is_lost v ≡ is_lost (value_of values.now r)) }
    ensures cvt { IfOk result (λ v. is_cvt_type (item_at asked.entry.syntax.now n).type ≡ true → v ≡ Value.Lost) }
    ensures plain { IfOk result (λ v. is_plain_type (item_at asked.entry.syntax.now n).type ≡ true → is_lost v ≡ false) }
{
    let tree = asked.syntax.tree();
    match asked.syntax.type_expression(n) {
        TypeExpression::Simple(word) => simple_value(asked, types, constants, values, n, word),
        TypeExpression::List { word, of } => list_value(types, values, word, of),
        TypeExpression::Fields { word, selectors } => {
            fields_value(asked.alloc, types, tree, values, word, selectors)
        }
        TypeExpression::Routine {
            kind,
            arguments,
            results,
            exceptions,
        } => routine_value(
            asked.alloc,
            types,
            tree,
            values,
            kind,
            arguments,
            results,
            exceptions,
        ),
        TypeExpression::Named {
            name,
            constants: given,
        } => named_type(asked, types, constants, values, n, name, given),
    }
}

/// The value of a name with brackets, whose node is `of`; brackets behind anything else make no constant.
fn index_value(
    asked: Asked<'_>,
    types: &mut TypeArena,
    constants: &Constants,
    values: &[Value],
    of: u32,
    given: &[u32],
) -> Result<Value, Memory>
    requires { of < length asked.syntax.now }
    ensures known { IfOk result (λ v. (scope : Scope) (unfolded : Constant → Settled) (gs : Actuals) → AreKnown asked.entry.syntax.now scope asked.entry.meanings.now (arena_types types.old) constants.now values.now unfolded → is_expression (kind_at asked.entry.syntax.now of) ≡ true → ActualsAgree (arena_types types.old) constants.now values.now given.now gs → Agrees (told (arena_types types.new) constants.now v) (indexed scope unfolded (item_at asked.entry.syntax.now of).expression gs)) }
    ensures within { IfOk result (λ v. (n : ℕ) → AreWithin (length types.old) n values.now → IsWithin (length types.new) n v) }
    ensures kept { Grows types.old types.new }
    ensures lost { IfOk result (λ v. v ≡ Value.Lost → All (TypeWithin (length types.old)) values.now → IsNameLost values.now constants.now given.now (meaning_in (slice_get asked.entry.meanings.now of))) }
    ensures same { IfOk result (λ v. (r : ℕ) → index_stands_for asked.entry.meanings.now (item_at asked.entry.syntax.now of).expression ≡ Some r → is_lost v ≡ is_lost (value_of values.now r)) }
{
    match asked.syntax.expression(of) {
        Expression::Name(name) => {
            let meaning = meaning_at(asked.meanings, of);
            let value = value_of_name(asked.alloc, types, constants, values, meaning, name, given)?;
            Ok(with_brackets(value))
        }
        _ => Ok(Value::Nothing),
    }
}

/// The same, where a child stands below its node.
fn index_value_at(
    asked: Asked<'_>,
    types: &mut TypeArena,
    constants: &Constants,
    values: &[Value],
    of: u32,
    given: &[u32],
) -> Result<Value, Memory>
    ensures known { IfOk result (λ v. (scope : Scope) (unfolded : Constant → Settled) (gs : Actuals) → AreKnown asked.entry.syntax.now scope asked.entry.meanings.now (arena_types types.old) constants.now values.now unfolded → is_expression (kind_at asked.entry.syntax.now of) ≡ true → ActualsAgree (arena_types types.old) constants.now values.now given.now gs → Agrees (told (arena_types types.new) constants.now v) (indexed scope unfolded (item_at asked.entry.syntax.now of).expression gs)) }
    ensures within { IfOk result (λ v. (n : ℕ) → AreWithin (length types.old) n values.now → IsWithin (length types.new) n v) }
    ensures kept { Grows types.old types.new }
    ensures lost { IfOk result (λ v. v ≡ Value.Lost → All (TypeWithin (length types.old)) values.now → of < length asked.entry.syntax.now → IsNameLost values.now constants.now given.now (meaning_in (slice_get asked.entry.meanings.now of))) }
    ensures same { IfOk result (λ v. of < length asked.entry.syntax.now → (r : ℕ) → index_stands_for asked.entry.meanings.now (item_at asked.entry.syntax.now of).expression ≡ Some r → is_lost v ≡ is_lost (value_of values.now r)) }
{
    if of < asked.syntax.tree().len() {
        index_value(asked, types, constants, values, of, given)
    } else {
        Ok(Value::Lost)
    }
}

/// The value of the expression at the node n.
fn value_of_expression(
    asked: Asked<'_>,
    types: &mut TypeArena,
    constants: &mut Constants,
    values: &[Value],
    n: u32,
) -> Result<Value, Memory>
    requires { n < length asked.syntax.now }
    ensures known { IfOk result (λ v. (scope : Scope) (unfolded : Constant → Settled) → AreKnown asked.entry.syntax.now scope asked.entry.meanings.now (arena_types types.old) constants.old values.now unfolded → is_expression (kind_at asked.entry.syntax.now n) ≡ true → Agrees (told (arena_types types.new) constants.new v) (value_of_expression scope unfolded (item_at asked.entry.syntax.now n).expression)) }
    ensures within { IfOk result (λ v. AreWithin (length types.old) (length constants.old) values.now → IsWithin (length types.new) (length constants.new) v) }
    ensures types_kept { Grows types.old types.new }
    ensures constants_kept { Kept constants.old constants.new }
    ensures lost { IfOk result (λ v. v ≡ Value.Lost → All (TypeWithin (length types.old)) values.now → AreTyped asked.entry.syntax.now values.now → IsExplained asked.entry.syntax.now asked.entry.meanings.now values.now n) }
    ensures same { IfOk result (λ v. (r : ℕ) → expression_stands_for asked.entry.meanings.now (item_at asked.entry.syntax.now n).expression ≡ Some r → is_lost v ≡ is_lost (value_of values.now r)) }
{
    match asked.syntax.expression(n) {
        Expression::Infix {
            operator,
            left,
            right,
        } => {
            let left = value_at(values, left);
            infix_value(
                asked.alloc,
                constants,
                operator,
                left,
                value_at(values, right),
            )
        }
        Expression::Prefix { sign, operand } => {
            prefix_value(asked.alloc, constants, sign, value_at(values, operand))
        }
        Expression::Paren { inside } => Ok(value_at(values, inside)),
        Expression::Literal(literal) => literal_value(asked.alloc, constants, literal),
        Expression::Name(name) => {
            let meaning = meaning_at(asked.meanings, n);
            value_of_name(asked.alloc, types, constants, values, meaning, name, &[])
        }
        Expression::Index {
            of,
            constants: given,
        } => index_value_at(asked, types, constants, values, of, given),
        _ => Ok(Value::Nothing),
    }
}

/// The value of the node n. One that is neither an expression nor a type has none.
pub fn node_value(
    asked: Asked<'_>,
    types: &mut TypeArena,
    constants: &mut Constants,
    values: &[Value],
    n: u32,
) -> Result<Value, Memory>
    requires { n < length asked.syntax.now }
    ensures known { IfOk result (λ v. (scope : Scope) (unfolded : Constant → Settled) → AreKnown asked.entry.syntax.now scope asked.entry.meanings.now (arena_types types.old) constants.old values.now unfolded → is_constant asked.entry.syntax.now n ≡ true → Agrees (told (arena_types types.new) constants.new v) (value_of_constant scope unfolded (item_at asked.entry.syntax.now n).constant)) }
    ensures within { IfOk result (λ v. AreWithin (length types.old) (length constants.old) values.now → IsWithin (length types.new) (length constants.new) v) }
    ensures types_kept { Grows types.old types.new }
    ensures constants_kept { Kept constants.old constants.new }
    ensures typed { IfOk result (λ v. is_type (kind_at asked.entry.syntax.now n) ≡ true → is_typed v ≡ true) }
    ensures lost { IfOk result (λ v. v ≡ Value.Lost → All (TypeWithin (length types.old)) values.now → AreTyped asked.entry.syntax.now values.now → IsExplained asked.entry.syntax.now asked.entry.meanings.now values.now n) }
    ensures read { IfOk result (λ v. IsRead asked.entry.syntax.now asked.entry.meanings.now values.now n v) }
{
    let kind = asked.syntax.tree().node(n).kind;
    if is_type(kind) {
        value_of_type(asked, types, constants, values, n)
    } else if is_expression(kind) {
        value_of_expression(asked, types, constants, values, n)
    } else {
        Ok(Value::Nothing)
    }
}
