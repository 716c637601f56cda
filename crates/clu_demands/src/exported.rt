//! What an exported operation of a cluster asks. Of a cluster these alone count, inside it too.

ghost use Rattle.std.specs.Prelude.{◌≡◌, ◌↔◌, ◌<◌, length, IfOk, IsTrue, Some};
ghost use Rattle.clu_types.specs.Arena.{type_at, types_of, actuals_at, ActualsBelow, Grows};
ghost use Rattle.clu_specs.specs.Specifications.{DemandsBelow, OpBelow};
ghost use Rattle.clu_demands.specs.Asking.{AreBelowIf, IsBelowIf, IsBelow, Answers, seen_if, asked_if, asked_seen};
ghost use Rattle.clu_demands.specs.Kinds.{MayBeAll};
ghost use Rattle.clu_demands.specs.Meeting.{AsksOfCluster, AsksOfSpec, AsksOfNamed, AsksOfRoutine, all_demanded, demanded, demanded_of};

use crate::carried::carried_type;
use crate::found::{op_named, type_actual};
use crate::kinds::may_be_of;
use crate::needs::Asked;
use crate::whole::is_whole_op;
use clu_base::{Bytes, Memory, Sequence};
use clu_types::{Actual, Demand, OpSpec, Spec, Specs, TypeArena, TypeId};
use std::alloc::Global;

pub fn asked_of_cluster(
    alloc: Global,
    name: &Bytes,
    actuals: &[Actual],
    op: &Bytes,
    wanted: TypeId,
    specs: &Specs,
    types: &mut TypeArena,
) -> Result<Option<Sequence<Asked>>, Memory>
    requires actuals_in { ActualsBelow (length types.old) actuals.now }
    requires wanted_in { wanted.0 < length types.old }
    ensures asks { IfOk result (Answers (AsksOfCluster specs.now name.now (actuals_at (types_of types.old) actuals.now) op.now (type_at (types_of types.old) wanted)) (types_of types.new)) }
    ensures within { IfOk result (AreBelowIf (length types.new)) }
    ensures kept { Grows types.old types.new }
{
    match specs.get(name) {
        Some(spec) => asked_of_spec(alloc, spec, actuals, op, wanted, types),
        None => Ok(None),
    }
}

fn asked_of_spec(
    alloc: Global,
    spec: &Spec,
    actuals: &[Actual],
    op: &Bytes,
    wanted: TypeId,
    types: &mut TypeArena,
) -> Result<Option<Sequence<Asked>>, Memory>
    requires actuals_in { ActualsBelow (length types.old) actuals.now }
    requires wanted_in { wanted.0 < length types.old }
    ensures asks { IfOk result (Answers (AsksOfSpec spec.now (actuals_at (types_of types.old) actuals.now) op.now (type_at (types_of types.old) wanted)) (types_of types.new)) }
    ensures within { IfOk result (AreBelowIf (length types.new)) }
    ensures kept { Grows types.old types.new }
{
    if fits(actuals, spec) {
        asked_of_named(alloc, spec, actuals, op, wanted, types)
    } else {
        Ok(None)
    }
}

fn fits(actuals: &[Actual], spec: &Spec) -> bool
    ensures { IsTrue result ↔ MayBeAll actuals.now spec.now.kinds }
{
    may_be_of(actuals, spec.kinds.as_slice())
}

fn asked_of_named(
    alloc: Global,
    spec: &Spec,
    actuals: &[Actual],
    op: &Bytes,
    wanted: TypeId,
    types: &mut TypeArena,
) -> Result<Option<Sequence<Asked>>, Memory>
    requires actuals_in { ActualsBelow (length types.old) actuals.now }
    requires wanted_in { wanted.0 < length types.old }
    ensures asks { IfOk result (Answers (AsksOfNamed spec.now (actuals_at (types_of types.old) actuals.now) op.now (type_at (types_of types.old) wanted)) (types_of types.new)) }
    ensures within { IfOk result (AreBelowIf (length types.new)) }
    ensures kept { Grows types.old types.new }
{
    match op_named(&spec.form, op) {
        Some(routine) => asked_of_routine(alloc, spec, routine, actuals, wanted, types),
        None => Ok(None),
    }
}

fn asked_of_routine(
    alloc: Global,
    spec: &Spec,
    routine: &OpSpec,
    actuals: &[Actual],
    wanted: TypeId,
    types: &mut TypeArena,
) -> Result<Option<Sequence<Asked>>, Memory>
    requires actuals_in { ActualsBelow (length types.old) actuals.now }
    requires wanted_in { wanted.0 < length types.old }
    ensures asks { IfOk result (Answers (AsksOfRoutine spec.now (actuals_at (types_of types.old) actuals.now) routine.now (type_at (types_of types.old) wanted)) (types_of types.new)) }
    ensures within { IfOk result (AreBelowIf (length types.new)) }
    ensures kept { Grows types.old types.new }
{
    if is_whole_op(&spec.types, routine) {
        asked_of_whole(alloc, spec, routine, actuals, wanted, types)
    } else {
        Ok(None)
    }
}

fn asked_of_whole(
    alloc: Global,
    spec: &Spec,
    routine: &OpSpec,
    actuals: &[Actual],
    wanted: TypeId,
    types: &mut TypeArena,
) -> Result<Option<Sequence<Asked>>, Memory>
    requires routine_in { OpBelow (length spec.now.types) routine.now }
    requires actuals_in { ActualsBelow (length types.old) actuals.now }
    requires wanted_in { wanted.0 < length types.old }
    ensures asks { IfOk result (Answers (AsksOfRoutine spec.now (actuals_at (types_of types.old) actuals.now) routine.now (type_at (types_of types.old) wanted)) (types_of types.new)) }
    ensures within { IfOk result (AreBelowIf (length types.new)) }
    ensures kept { Grows types.old types.new }
{
    let of = carried_type(alloc, types, &spec.types, routine, actuals)?;
    if types.included(of, wanted) {
        demanded_by(alloc, &spec.types, routine, actuals, types)
    } else {
        Ok(None)
    }
}

/// What the routine's own where clause asks of the actual parameters.
fn demanded_by(
    alloc: Global,
    from: &TypeArena,
    routine: &OpSpec,
    actuals: &[Actual],
    types: &mut TypeArena,
) -> Result<Option<Sequence<Asked>>, Memory>
    requires demands_in { DemandsBelow (length from.now) routine.now.demands }
    requires actuals_in { ActualsBelow (length types.old) actuals.now }
    ensures demanded { IfOk result (λ made. seen_if (types_of types.new) made ≡ all_demanded (types_of from.now) (actuals_at (types_of types.old) actuals.now) routine.now.demands) }
    ensures within { IfOk result (AreBelowIf (length types.new)) }
    ensures kept { Grows types.old types.new }
{
    all_demanded(alloc, from, routine.demands.as_slice(), actuals, types)
}

/// Demands with actual parameters put in, if each is of one that is a type.
pub fn all_demanded(
    alloc: Global,
    from: &TypeArena,
    demands: &[Demand],
    actuals: &[Actual],
    types: &mut TypeArena,
) -> Result<Option<Sequence<Asked>>, Memory>
    requires demands_in { DemandsBelow (length from.now) demands.now }
    requires actuals_in { ActualsBelow (length types.old) actuals.now }
    ensures demanded { IfOk result (λ made. seen_if (types_of types.new) made ≡ all_demanded (types_of from.now) (actuals_at (types_of types.old) actuals.now) demands.now) }
    ensures within { IfOk result (AreBelowIf (length types.new)) }
    ensures kept { Grows types.old types.new }
{
    let mut made = Vec::new(alloc);
    for demand in demands {
        let next = demanded(alloc, from, demand, actuals, types)?;
        match next {
            Some(asked) => made.push(asked)?,
            None => return Ok(None),
        }
    }
    Ok(Some(Sequence::from_vec(made)))
}

fn demanded(
    alloc: Global,
    from: &TypeArena,
    demand: &Demand,
    actuals: &[Actual],
    types: &mut TypeArena,
) -> Result<Option<Asked>, Memory>
    requires demand_in { demand.now.wanted.0 < length from.now }
    requires actuals_in { ActualsBelow (length types.old) actuals.now }
    ensures demanded { IfOk result (λ made. asked_if (types_of types.new) made ≡ demanded (types_of from.now) (actuals_at (types_of types.old) actuals.now) demand.now) }
    ensures within { IfOk result (IsBelowIf (length types.new)) }
    ensures kept { Grows types.old types.new }
{
    match type_actual(actuals, demand.param) {
        Some(of) => Ok(Some(demanded_of(alloc, of, from, demand, actuals, types)?)),
        None => Ok(None),
    }
}

/// The demand, of the type that is the actual parameter.
fn demanded_of(
    alloc: Global,
    of: TypeId,
    from: &TypeArena,
    demand: &Demand,
    actuals: &[Actual],
    types: &mut TypeArena,
) -> Result<Asked, Memory>
    requires of_in { of.0 < length types.old }
    requires demand_in { demand.now.wanted.0 < length from.now }
    requires actuals_in { ActualsBelow (length types.old) actuals.now }
    ensures demanded { IfOk result (λ made. Some (asked_seen (types_of types.new) made) ≡ demanded_of (types_of from.now) (actuals_at (types_of types.old) actuals.now) demand.now (Some (type_at (types_of types.old) of))) }
    ensures within { IfOk result (IsBelow (length types.new)) }
    ensures kept { Grows types.old types.new }
{
    let op = demand.op.copy(alloc)?;
    let wanted = types.carry(alloc, from, demand.wanted, actuals)?;
    Ok(Asked { of, op, wanted })
}
