//! What the operation of a type asks in its turn.

ghost use Rattle.std.specs.Prelude.{◌≡◌, ◌↔◌, ◌<◌, ◌==◌, ◌&&◌, List, [], bytes_eq, map, length, IfOk, IsTrue};
ghost use Rattle.clu_types.specs.Arena.{type_at, types_of, actuals_at, ActualsBelow, HeadingBelow, Grows};
ghost use Rattle.clu_builtin.specs.Built.{operation_at, NeedsBelow};
ghost use Rattle.clu_specs.specs.Seen.{Demanded, demand_seen};
ghost use Rattle.clu_specs.specs.Specifications.{DemandsBelow};
ghost use Rattle.clu_demands.specs.Asking.{as_asked, IsBelow, AreBelowIf, Answers, HasNone, parameter_of, instance_with, instance_of};
ghost use Rattle.clu_demands.specs.Meeting.{AsksOf, AsksOfBuiltin, AsksOfCluster, AsksOfOperation, AsksOfParameter, IsGiven};

use crate::carried::intern_routine;
use crate::exported::asked_of_cluster;
use crate::needs::{Asked, Instance};
use clu_base::{Bytes, Memory, Sequence};
use clu_builtin::{Builtin, Need, heading};
use clu_types::{Actual, Demand, Specs, Term, TypeArena, TypeId};
use std::alloc::Global;

/// What the needed operation asks, if the type has one of a type included in the wanted one.
pub fn asked_by(
    alloc: Global,
    need: &Asked,
    given: &[Demand],
    specs: &Specs,
    types: &mut TypeArena,
) -> Result<Option<Sequence<Asked>>, Memory>
    requires need_in { IsBelow (length types.old) need.now }
    requires given_in { DemandsBelow (length types.old) given.now }
    ensures asks { IfOk result (Answers (AsksOf (map (demand_seen (types_of types.old)) given.now) specs.now (type_at (types_of types.old) need.now.of) need.now.op (type_at (types_of types.old) need.now.wanted)) (types_of types.new)) }
    ensures within { IfOk result (AreBelowIf (length types.new)) }
    ensures kept { Grows types.old types.new }
{
    match parameter_of(types.view(need.of)) {
        Some(n) => asked_of_parameter(alloc, given, n, need, types),
        None => asked_of_other(alloc, need, specs, types),
    }
}

/// The same of a need whose type is no parameter.
fn asked_of_other(
    alloc: Global,
    need: &Asked,
    specs: &Specs,
    types: &mut TypeArena,
) -> Result<Option<Sequence<Asked>>, Memory>
    requires need_in { IsBelow (length types.old) need.now }
    requires other { HasNone parameter_of types.old need.now.of }
    ensures asks { (given : List Demanded) → IfOk result (Answers (AsksOf given specs.now (type_at (types_of types.old) need.now.of) need.now.op (type_at (types_of types.old) need.now.wanted)) (types_of types.new)) }
    ensures within { IfOk result (AreBelowIf (length types.new)) }
    ensures kept { Grows types.old types.new }
{
    let instance = instance_of(alloc, types.view(need.of))?;
    match instance {
        Some(instance) => asked_of_instance(alloc, &instance, need, specs, types),
        None => asked_of_builtin(alloc, need.of, &need.op, need.wanted, types),
    }
}

/// The number of the type parameter that a type is.
fn parameter_of(term: &Term) -> Option<u32>
    ensures { result ≡ parameter_of term.now }
{
    match term {
        Term::Param(n) => Some(*n),
        Term::Null
        | Term::Bool
        | Term::Int
        | Term::Char
        | Term::Str
        | Term::Any
        | Term::Stream
        | Term::Array(_)
        | Term::Sequence(_)
        | Term::Record(_)
        | Term::Struct(_)
        | Term::Oneof(_)
        | Term::Variant(_)
        | Term::Proc(_)
        | Term::Iter(_)
        | Term::Cluster(_, _) => None,
    }
}

/// The cluster type that a type is.
pub fn instance_of(alloc: Global, term: &Term) -> Result<Option<Instance>, Memory>
    ensures { IfOk result (λ found. found ≡ instance_of term.now) }
{
    match term {
        Term::Cluster(name, actuals) => Ok(Some(cluster_type(alloc, name, actuals.as_slice())?)),
        Term::Null
        | Term::Bool
        | Term::Int
        | Term::Char
        | Term::Str
        | Term::Any
        | Term::Stream
        | Term::Array(_)
        | Term::Sequence(_)
        | Term::Record(_)
        | Term::Struct(_)
        | Term::Oneof(_)
        | Term::Variant(_)
        | Term::Proc(_)
        | Term::Iter(_)
        | Term::Param(_) => Ok(None),
    }
}

fn cluster_type(alloc: Global, name: &Bytes, actuals: &[Actual]) -> Result<Instance, Memory>
    ensures { IfOk result (λ made. made ≡ instance_with name.now actuals.now) }
{
    let name = name.copy(alloc)?;
    let actuals = Sequence::from_vec(copied(alloc, actuals)?);
    Ok(Instance { name, actuals })
}

fn copied(alloc: Global, actuals: &[Actual]) -> Result<Vec<Actual>, Memory>
    ensures { IfOk result (λ made. made.items ≡ actuals.now) }
{
    let mut made = Vec::new(alloc);
    for actual in actuals {
        made.push(actual.copy(alloc)?)?;
    }
    Ok(made)
}

fn asked_of_instance(
    alloc: Global,
    instance: &Instance,
    need: &Asked,
    specs: &Specs,
    types: &mut TypeArena,
) -> Result<Option<Sequence<Asked>>, Memory>
    requires actuals_in { ActualsBelow (length types.old) instance.now.actuals }
    requires wanted_in { need.now.wanted.0 < length types.old }
    ensures asks { IfOk result (Answers (AsksOfCluster specs.now instance.now.name (actuals_at (types_of types.old) instance.now.actuals) need.now.op (type_at (types_of types.old) need.now.wanted)) (types_of types.new)) }
    ensures within { IfOk result (AreBelowIf (length types.new)) }
    ensures kept { Grows types.old types.new }
{
    asked_of_cluster(
        alloc,
        &instance.name,
        instance.actuals.as_slice(),
        &need.op,
        need.wanted,
        specs,
        types,
    )
}

/// What is given of a type parameter asks nothing.
fn asked_of_parameter(
    alloc: Global,
    given: &[Demand],
    n: u32,
    need: &Asked,
    types: &TypeArena,
) -> Result<Option<Sequence<Asked>>, Memory>
    requires need_in { IsBelow (length types.now) need.now }
    requires given_in { DemandsBelow (length types.now) given.now }
    ensures asks { IfOk result (Answers (AsksOfParameter (map (demand_seen (types_of types.now)) given.now) n need.now.op (type_at (types_of types.now) need.now.wanted)) (types_of types.now)) }
    ensures within { IfOk result (AreBelowIf (length types.now)) }
{
    if gives(given, n, &need.op, need.wanted, types) {
        Ok(Some(Sequence::from_vec(Vec::new(alloc))))
    } else {
        Ok(None)
    }
}

/// Whether the operation is given of the parameter, with a type included in the wanted one.
fn gives(given: &[Demand], n: u32, op: &Bytes, wanted: TypeId, types: &TypeArena) -> bool
    requires given_in { DemandsBelow (length types.now) given.now }
    requires wanted_in { wanted.0 < length types.now }
    ensures { IsTrue result ↔ AsksOfParameter (map (demand_seen (types_of types.now)) given.now) n op.now (type_at (types_of types.now) wanted) [] }
{
    for demand in given {
        if is_given(demand, n, op, wanted, types) {
            return true;
        }
    }
    false
}

fn is_given(demand: &Demand, n: u32, op: &Bytes, wanted: TypeId, types: &TypeArena) -> bool
    requires demand_in { demand.now.wanted.0 < length types.now }
    requires wanted_in { wanted.0 < length types.now }
    ensures { IsTrue result ↔ IsGiven n op.now (type_at (types_of types.now) wanted) (demand_seen (types_of types.now) demand.now) }
{
    if is_of(demand, n, op) {
        types.included(demand.wanted, wanted)
    } else {
        false
    }
}

fn is_of(demand: &Demand, n: u32, op: &Bytes) -> bool
    ensures { result ≡ ((demand.now.param == n) && bytes_eq demand.now.op op.now) }
{
    demand.param == n && demand.op == *op
}

fn asked_of_builtin(
    alloc: Global,
    of: TypeId,
    op: &Bytes,
    wanted: TypeId,
    types: &mut TypeArena,
) -> Result<Option<Sequence<Asked>>, Memory>
    requires of_in { of.0 < length types.old }
    requires wanted_in { wanted.0 < length types.old }
    ensures asks { IfOk result (Answers (AsksOfBuiltin (type_at (types_of types.old) of) op.now (type_at (types_of types.old) wanted)) (types_of types.new)) }
    ensures within { IfOk result (AreBelowIf (length types.new)) }
    ensures kept { Grows types.old types.new }
{
    let found = heading(alloc, types, of, op)?;
    match found {
        Some(builtin) => asked_of_operation(alloc, builtin, wanted, types),
        None => Ok(None),
    }
}

fn asked_of_operation(
    alloc: Global,
    builtin: Builtin,
    wanted: TypeId,
    types: &mut TypeArena,
) -> Result<Option<Sequence<Asked>>, Memory>
    requires heading_in { HeadingBelow (length types.old) builtin.heading }
    requires needs_in { NeedsBelow (length types.old) builtin.needs }
    requires wanted_in { wanted.0 < length types.old }
    ensures asks { IfOk result (Answers (AsksOfOperation (operation_at (types_of types.old) builtin) (type_at (types_of types.old) wanted)) (types_of types.new)) }
    ensures within { IfOk result (AreBelowIf (length types.new)) }
    ensures kept { Grows types.old types.new }
{
    let Builtin {
        iter,
        heading,
        needs,
    } = builtin;
    let asked = asked_of(alloc, &needs)?;
    let routine = intern_routine(types, iter, heading)?;
    if types.included(routine, wanted) {
        Ok(Some(asked))
    } else {
        Ok(None)
    }
}

/// The same needs.
fn asked_of(alloc: Global, needs: &Sequence<Need>) -> Result<Sequence<Asked>, Memory>
    ensures { IfOk result (λ made. made ≡ map as_asked needs.now) }
{
    let mut made = Vec::new(alloc);
    let needs = needs.as_slice();
    for need in needs {
        made.push(as_asked(alloc, need)?)?;
    }
    Ok(Sequence::from_vec(made))
}

fn as_asked(alloc: Global, need: &Need) -> Result<Asked, Memory>
    ensures { IfOk result (λ made. made ≡ as_asked need.now) }
{
    Ok(Asked {
        of: need.of,
        op: need.op.copy(alloc)?,
        wanted: need.wanted,
    })
}
