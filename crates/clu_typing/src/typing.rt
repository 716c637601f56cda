//! The types of expressions, each from the types of what stands in it. An expression that violates a rule may have none.

ghost use Rattle.std.specs.Prelude.{◌≡◌, ◌<◌, ℕ, true, [], ◌∷◌, length, IfOk, OnOk, Some};
ghost use Rattle.clu_types.specs.Arena.{type_at, type_of, types_of, PartsBelow, Grows};
ghost use Rattle.clu_syntax.specs.Items.{Item};
ghost use Rattle.clu_syntax.specs.Kinds.{is_expression};
ghost use Rattle.clu_syntax.specs.Views.{expression_told};
ghost use Rattle.clu_syntax.specs.Words.{literal_told};
ghost use Rattle.clu_settle.specs.Lists.{type_id};
ghost use Rattle.clu_bindings.specs.Readers.{kind_in, meaning_in, value_in};
ghost use Rattle.clu_operations.specs.Finding.{IsBelowIf};
ghost use Rattle.clu_operations.specs.Wished.{IsFinding};
ghost use Rattle.clu_typing.specs.Found.{FindsMore};
ghost use Rattle.clu_typing.specs.Typing.{IsType, literal_type, outline_type, IsValueType, applied_type, IsInfixType, IsInstanceType, wrong_type, force_term, force_type, IsForceType, IsIndexType, IsNameType, IsTypeBy, IsTypeHere, IsNodeType};

use crate::applied::{Applied, module_operation, result_of};
use crate::facts::type_found;
use crate::nodes::{first_settled, first_type, has_actuals, names_module};
use clu_base::{Bytes, Memory, Sequence};
use clu_bindings::{
    Headed, Meaning, known_inside, own_type, parameter_type, representation, type_of_value,
};
use clu_constants::Outline;
use clu_operations::Finding;
use clu_settle::Value;
use clu_syntax::{Expression, Literal, Operator, is_expression};
use clu_types::{Exception, Heading, Term, TypeArena, TypeId};
use std::alloc::Global;

/// The type of a term.
fn type_of(types: &mut TypeArena, term: Term) -> Result<Option<TypeId>, Memory>
    requires { PartsBelow (length types.old) term }
    ensures of_type { IfOk result (λ of. IsType types.new of (Some (type_of (types_of types.old) term))) }
    ensures kept { Grows types.old types.new }
{
    Ok(Some(types.intern(term)?))
}

fn literal_type(types: &mut TypeArena, literal: Literal<'_>) -> Result<Option<TypeId>, Memory>
    ensures of_type { IfOk result (λ of. IsType types.new of (literal_type (literal_told literal.entry))) }
    ensures kept { Grows types.old types.new }
{
    match literal {
        Literal::Nil => type_of(types, Term::Null),
        Literal::True | Literal::False => type_of(types, Term::Bool),
        Literal::Integer(_) => type_of(types, Term::Int),
        Literal::Real(_) => Ok(None),
        Literal::Character(_) => type_of(types, Term::Char),
        Literal::String(_) => type_of(types, Term::Str),
    }
}

fn constant_type(types: &mut TypeArena, constant: Outline) -> Result<Option<TypeId>, Memory>
    ensures of_type { IfOk result (λ of. IsType types.new of (Some (outline_type constant))) }
    ensures kept { Grows types.old types.new }
{
    match constant {
        Outline::Null => type_of(types, Term::Null),
        Outline::Bool(_) => type_of(types, Term::Bool),
        Outline::Int(_) => type_of(types, Term::Int),
        Outline::Char(_) => type_of(types, Term::Char),
        Outline::Str(_) => type_of(types, Term::Str),
    }
}

// ---- names

fn value_type(
    headed: Headed<'_>,
    types: &mut TypeArena,
    n: u32,
    value: Value,
) -> Result<Option<TypeId>, Memory>
    ensures of_type { IfOk result (IsValueType types.old types.new headed.entry.file n value) }
    ensures kept { Grows types.old types.new }
{
    match value {
        Value::Constant(place) => match headed.file.constants.outline(place) {
            Some(constant) => constant_type(types, constant),
            None => Ok(None),
        },
        Value::Parameter(number) => Ok(parameter_type(headed.file, types, n, number)),
        _ => Ok(None),
    }
}

/// The type of the routine of a module with actual parameters, to which the node n comes.
fn module_type(
    headed: Headed<'_>,
    types: &mut TypeArena,
    finding: &mut Finding,
    n: u32,
) -> Result<Option<TypeId>, Memory>
    ensures of_type { IfOk result (IsInstanceType types.old types.new finding.old finding.new headed.entry n) }
    ensures found { IsBelowIf (length types.old) (type_id (value_in headed.entry.file n)) → IsFinding headed.entry types.old finding.old → OnOk result (FindsMore headed.entry types.new finding.old finding.new) }
    ensures kept { Grows types.old types.new }
{
    let of = type_of_value(headed.file.value(n));
    let operation = module_operation(headed, types, finding, of)?;
    Ok(type_found(finding, operation))
}

#[tactic(auto, using(crate::proofs::Telling::steps))]
fn name_type(
    headed: Headed<'_>,
    types: &mut TypeArena,
    finding: &mut Finding,
    applied: Applied,
    n: u32,
) -> Result<Option<TypeId>, Memory>
    ensures of_type { (items : ℕ → Item) → IfOk result (IsNameType types.old types.new finding.old finding.new headed.entry n applied items (meaning_in headed.entry.file n)) }
    ensures found { IsBelowIf (length types.old) (type_id (value_in headed.entry.file n)) → IsFinding headed.entry types.old finding.old → OnOk result (FindsMore headed.entry types.new finding.old finding.new) }
    ensures kept { Grows types.old types.new }
{
    match headed.file.meaning(n) {
        Meaning::Local(t) | Meaning::OwnOfRoutine(t) | Meaning::OwnOfCluster(t) => Ok(known_inside(
            headed, n, t,
        )),
        Meaning::Equate(right) => value_type(headed, types, n, headed.file.value(right)),
        Meaning::ConstantParameter(number) => Ok(parameter_type(headed.file, types, n, number)),
        Meaning::RoutineOfCluster => Ok(applied_type(types, finding, applied)),
        Meaning::Module(_) => module_type(headed, types, finding, n),
        Meaning::TypeSet | Meaning::TypeParameter(_) => Ok(None),
    }
}

// ---- expressions

/// The type of that for which a node stands.
fn applied_type(types: &TypeArena, finding: &Finding, applied: Applied) -> Option<TypeId>
    ensures { result ≡ applied_type types.now finding.now applied }
{
    match applied {
        Applied::Invoked(_, Some(last)) | Applied::Invoked(last, None) => {
            result_of(types, type_found(finding, last.operation))
        }
        Applied::Named(Some(used)) => type_found(finding, used.operation),
        Applied::Nothing | Applied::Named(None) => None,
    }
}

fn infix_type(
    types: &mut TypeArena,
    finding: &Finding,
    applied: Applied,
    operator: Operator,
) -> Result<Option<TypeId>, Memory>
    ensures of_type { IfOk result (IsInfixType types.old types.new finding.now applied operator) }
    ensures kept { Grows types.old types.new }
{
    match operator {
        Operator::Cand | Operator::Cor => type_of(types, Term::Bool),
        _ => Ok(applied_type(types, finding, applied)),
    }
}

/// The type of the Index n.
#[tactic(auto, using(crate::proofs::Telling::steps))]
fn index_type(
    headed: Headed<'_>,
    types: &mut TypeArena,
    finding: &mut Finding,
    applied: Applied,
    n: u32,
) -> Result<Option<TypeId>, Memory>
    ensures of_type { IfOk result (IsIndexType types.old types.new finding.old finding.new headed.entry n applied) }
    ensures found { IsBelowIf (length types.old) (type_id (value_in headed.entry.file n)) → IsFinding headed.entry types.old finding.old → OnOk result (FindsMore headed.entry types.new finding.old finding.new) }
    ensures kept { Grows types.old types.new }
{
    if !has_actuals(headed.file, n) {
        return Ok(applied_type(types, finding, applied));
    }
    if names_module(headed.file, n) {
        module_type(headed, types, finding, n)
    } else {
        Ok(None)
    }
}

fn one(alloc: Global, of: TypeId) -> Result<Sequence<TypeId>, Memory>
    ensures { IfOk result (λ made. made ≡ of ∷ []) }
{
    Ok(Sequence::from_vec(vec![in alloc; of]?))
}

#[tactic(auto, unfolding(crate::specs::Typing::wrong_type))]
fn wrong_type(alloc: Global) -> Result<Sequence<Exception>, Memory>
    ensures { IfOk result (λ made. made ≡ wrong_type) }
{
    let name = Bytes::from_slice(alloc, b"wrong_type".as_slice())?;
    let objects = Sequence::from_vec(Vec::new(alloc));
    Ok(Sequence::from_vec(vec![in alloc; Exception { name, objects }]?))
}

fn force_term(alloc: Global, any: TypeId, to: TypeId) -> Result<Term, Memory>
    ensures { IfOk result (λ made. made ≡ force_term any to) }
{
    Ok(Term::Proc(Heading {
        args: one(alloc, any)?,
        results: one(alloc, to)?,
        signals: wrong_type(alloc)?,
    }))
}

/// The type of `force[to]`, where `to` is of the arena.
fn force_known(alloc: Global, types: &mut TypeArena, to: TypeId) -> Result<Option<TypeId>, Memory>
    requires { to.0 < length types.old }
    ensures of_type { IfOk result (λ of. IsType types.new of (Some (force_type (type_at (types_of types.old) to)))) }
    ensures kept { Grows types.old types.new }
{
    let any = types.intern(Term::Any)?;
    let term = force_term(alloc, any, to)?;
    type_of(types, term)
}

/// The type of `force[to]`.
fn force_type(
    alloc: Global,
    types: &mut TypeArena,
    to: Option<TypeId>,
) -> Result<Option<TypeId>, Memory>
    ensures of_type { IfOk result (IsForceType types.old types.new to) }
    ensures kept { Grows types.old types.new }
{
    let Some(to) = to else {
        return Ok(None);
    };
    if types.contains(to) {
        force_known(alloc, types, to)
    } else {
        Ok(None)
    }
}

#[tactic(auto, using(crate::proofs::Telling::steps), unfolding(crate::specs::Typing::IsTypeBy))]
fn expression_type(
    headed: Headed<'_>,
    types: &mut TypeArena,
    known: &[Option<TypeId>],
    finding: &mut Finding,
    applied: Applied,
    n: u32,
    expression: Expression<'_>,
) -> Result<Option<TypeId>, Memory>
    ensures of_type { (items : ℕ → Item) → IfOk result (IsTypeBy types.old types.new finding.old finding.new headed.entry n applied known.now items (expression_told items n expression.entry)) }
    ensures found { IsBelowIf (length types.old) (type_id (value_in headed.entry.file n)) → IsFinding headed.entry types.old finding.old → OnOk result (FindsMore headed.entry types.new finding.old finding.new) }
    ensures kept { Grows types.old types.new }
{
    let file = headed.file;
    match expression {
        Expression::Infix { operator, .. } => infix_type(types, finding, applied, operator),
        Expression::Prefix { .. } | Expression::Get { .. } | Expression::Operation { .. } => {
            Ok(applied_type(types, finding, applied))
        }
        Expression::Paren { .. } => Ok(first_type(file, known, n)),
        Expression::Literal(literal) => literal_type(types, literal),
        Expression::Name(_) => name_type(headed, types, finding, applied, n),
        Expression::Index { .. } => index_type(headed, types, finding, applied, n),
        Expression::Call { .. } => Ok(result_of(types, first_type(file, known, n))),
        Expression::Fields { .. } | Expression::Elements { .. } | Expression::ElementsFrom { .. } =>
            { Ok(first_settled(file, n)) }
        Expression::Force { .. } => force_type(file.alloc, types, first_settled(file, n)),
        Expression::Up { .. } => Ok(own_type(file, n)),
        Expression::Down { .. } => Ok(representation(headed, n)),
    }
}

/// The same of the node n, if it is an expression.
#[tactic(auto, using(crate::proofs::Telling::steps))]
fn type_here(
    headed: Headed<'_>,
    types: &mut TypeArena,
    known: &[Option<TypeId>],
    finding: &mut Finding,
    applied: Applied,
    n: u32,
) -> Result<Option<TypeId>, Memory>
    ensures of_type { is_expression (kind_in headed.entry.file n) ≡ true → (items : ℕ → Item) → IfOk result (IsTypeHere types.old types.new finding.old finding.new headed.entry n applied known.now items) }
    ensures found { IsBelowIf (length types.old) (type_id (value_in headed.entry.file n)) → IsFinding headed.entry types.old finding.old → OnOk result (FindsMore headed.entry types.new finding.old finding.new) }
    ensures kept { Grows types.old types.new }
{
    match headed.file.expression(n) {
        Some(expression) => expression_type(headed, types, known, finding, applied, n, expression),
        None => Ok(None),
    }
}

/// The type of the node n, if it is an expression, by what is known of the nodes before it.
#[tactic(auto, using(crate::proofs::Telling::steps))]
pub fn node_type(
    headed: Headed<'_>,
    types: &mut TypeArena,
    known: &[Option<TypeId>],
    finding: &mut Finding,
    applied: Applied,
    n: u32,
) -> Result<Option<TypeId>, Memory>
    ensures of_type { (items : ℕ → Item) → IfOk result (IsNodeType types.old types.new finding.old finding.new headed.entry n applied known.now items) }
    ensures found { IsBelowIf (length types.old) (type_id (value_in headed.entry.file n)) → IsFinding headed.entry types.old finding.old → OnOk result (FindsMore headed.entry types.new finding.old finding.new) }
    ensures kept { Grows types.old types.new }
{
    if is_expression(headed.file.kind(n)) {
        type_here(headed, types, known, finding, applied, n)
    } else {
        Ok(None)
    }
}
