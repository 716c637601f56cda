//! Types of clusters: whether what is demanded of their actual parameters is met.

ghost use Rattle.std.specs.Prelude.{◌≡◌, ◌↔◌, ◌<◌, map, find, length, IfOk, OnOk, IsTrue};
ghost use Rattle.std.specs.Str.{bytes_eq};
ghost use Rattle.clu_types.specs.Arena.{type_at, types_of, actuals_at, ActualsBelow, Grows};
ghost use Rattle.clu_specs.specs.Seen.{demand_seen};
ghost use Rattle.clu_specs.specs.Specifications.{DemandsBelow};
ghost use Rattle.clu_demands.specs.Asking.{asked_seen, IsBelow, AreBelowAll};
ghost use Rattle.clu_demands.specs.Meeting.{Meets};
ghost use Rattle.clu_sound.specs.Sound.{AreDemandsMet, IsFormInstanceMet, IsInstanceMet};
ghost use Rattle.clu_sound.specs.Visiting.{HoldsMet, AreAllMet, IsOwnMet};

use clu_base::{Memory, Sequence};
use clu_demands::{Asked, Instance, all_demanded, holds_demands, instance_of, is_met};
use clu_types::{Actual, Demand, Form, Spec, Specs, TypeArena, TypeId};
use indexmap::IndexSet;
use std::alloc::Global;

/// Whether a type is none of a cluster, or the actual parameters meet what the cluster demands; `given` is what where
/// clauses give of type parameters. Needs of `met` were met before.
pub fn is_own_met(
    alloc: Global,
    id: TypeId,
    given: &[Demand],
    specs: &Specs,
    types: &mut TypeArena,
    met: &mut IndexSet<Asked>,
) -> Result<bool, Memory>
    requires id_in { id.0 < length types.old }
    requires given_in { DemandsBelow (length types.old) given.now }
    requires holds { HoldsMet given.now specs.now types.old types.old met.old.keys }
    ensures met { IfOk result (λ met. IsTrue met ↔ IsOwnMet (map (demand_seen (types_of types.old)) given.now) specs.now (type_at (types_of types.old) id)) }
    ensures holds { OnOk result (HoldsMet given.now specs.now types.old types.new met.new.keys) }
    ensures kept { Grows types.old types.new }
{
    let instance = instance_of(alloc, types.view(id))?;
    match instance {
        Some(instance) => is_instance_met(alloc, &instance, given, specs, types, met),
        None => Ok(true),
    }
}

fn is_instance_met(
    alloc: Global,
    instance: &Instance,
    given: &[Demand],
    specs: &Specs,
    types: &mut TypeArena,
    met: &mut IndexSet<Asked>,
) -> Result<bool, Memory>
    requires actuals_in { ActualsBelow (length types.old) instance.now.actuals }
    requires given_in { DemandsBelow (length types.old) given.now }
    requires holds { HoldsMet given.now specs.now types.old types.old met.old.keys }
    ensures met { IfOk result (λ met. IsTrue met ↔ IsInstanceMet (map (demand_seen (types_of types.old)) given.now) specs.now (actuals_at (types_of types.old) instance.now.actuals) (find (λ s. bytes_eq s.name instance.now.name) specs.now)) }
    ensures holds { OnOk result (HoldsMet given.now specs.now types.old types.new met.new.keys) }
    ensures kept { Grows types.old types.new }
{
    match specs.get(&instance.name) {
        Some(spec) => {
            is_spec_met(
                alloc,
                spec,
                instance.actuals.as_slice(),
                given,
                specs,
                types,
                met,
            )
        }
        None => Ok(false),
    }
}

fn is_spec_met(
    alloc: Global,
    spec: &Spec,
    actuals: &[Actual],
    given: &[Demand],
    specs: &Specs,
    types: &mut TypeArena,
    met: &mut IndexSet<Asked>,
) -> Result<bool, Memory>
    requires actuals_in { ActualsBelow (length types.old) actuals.now }
    requires given_in { DemandsBelow (length types.old) given.now }
    requires holds { HoldsMet given.now specs.now types.old types.old met.old.keys }
    ensures met { IfOk result (λ met. IsTrue met ↔ IsFormInstanceMet (map (demand_seen (types_of types.old)) given.now) specs.now spec.now (actuals_at (types_of types.old) actuals.now) spec.now.form) }
    ensures holds { OnOk result (HoldsMet given.now specs.now types.old types.new met.new.keys) }
    ensures kept { Grows types.old types.new }
{
    match &spec.form {
        Form::Cluster(demands, _) => {
            are_demands_met(
                alloc,
                spec,
                demands.as_slice(),
                actuals,
                given,
                specs,
                types,
                met,
            )
        }
        Form::Routine(_) => Ok(false),
    }
}

fn are_demands_met(
    alloc: Global,
    spec: &Spec,
    demands: &[Demand],
    actuals: &[Actual],
    given: &[Demand],
    specs: &Specs,
    types: &mut TypeArena,
    met: &mut IndexSet<Asked>,
) -> Result<bool, Memory>
    requires actuals_in { ActualsBelow (length types.old) actuals.now }
    requires given_in { DemandsBelow (length types.old) given.now }
    requires holds { HoldsMet given.now specs.now types.old types.old met.old.keys }
    ensures met { IfOk result (λ met. IsTrue met ↔ AreDemandsMet (map (demand_seen (types_of types.old)) given.now) specs.now spec.now demands.now (actuals_at (types_of types.old) actuals.now)) }
    ensures holds { OnOk result (HoldsMet given.now specs.now types.old types.new met.new.keys) }
    ensures kept { Grows types.old types.new }
{
    if holds_demands(&spec.types, demands) {
        are_whole_met(alloc, spec, demands, actuals, given, specs, types, met)
    } else {
        Ok(false)
    }
}

fn are_whole_met(
    alloc: Global,
    spec: &Spec,
    demands: &[Demand],
    actuals: &[Actual],
    given: &[Demand],
    specs: &Specs,
    types: &mut TypeArena,
    met: &mut IndexSet<Asked>,
) -> Result<bool, Memory>
    requires demands_in { DemandsBelow (length spec.now.types) demands.now }
    requires actuals_in { ActualsBelow (length types.old) actuals.now }
    requires given_in { DemandsBelow (length types.old) given.now }
    requires holds { HoldsMet given.now specs.now types.old types.old met.old.keys }
    ensures met { IfOk result (λ met. IsTrue met ↔ AreDemandsMet (map (demand_seen (types_of types.old)) given.now) specs.now spec.now demands.now (actuals_at (types_of types.old) actuals.now)) }
    ensures holds { OnOk result (HoldsMet given.now specs.now types.old types.new met.new.keys) }
    ensures kept { Grows types.old types.new }
{
    let asked = all_demanded(alloc, &spec.types, demands, actuals, types)?;
    match asked {
        Some(asked) => are_needs_met(alloc, &asked, given, specs, types, met),
        None => Ok(false),
    }
}

fn are_needs_met(
    alloc: Global,
    asked: &Sequence<Asked>,
    given: &[Demand],
    specs: &Specs,
    types: &mut TypeArena,
    met: &mut IndexSet<Asked>,
) -> Result<bool, Memory>
    requires asked_in { AreBelowAll (length types.old) asked.now }
    requires given_in { DemandsBelow (length types.old) given.now }
    requires holds { HoldsMet given.now specs.now types.old types.old met.old.keys }
    ensures met { IfOk result (λ met. IsTrue met ↔ AreAllMet (map (demand_seen (types_of types.old)) given.now) specs.now (types_of types.old) asked.now) }
    ensures holds { OnOk result (HoldsMet given.now specs.now types.old types.new met.new.keys) }
    ensures kept { Grows types.old types.new }
{
    are_all_met(alloc, asked.as_slice(), given, specs, types, met)
}

fn are_all_met(
    alloc: Global,
    asked: &[Asked],
    given: &[Demand],
    specs: &Specs,
    types: &mut TypeArena,
    met: &mut IndexSet<Asked>,
) -> Result<bool, Memory>
    requires asked_in { AreBelowAll (length types.old) asked.now }
    requires given_in { DemandsBelow (length types.old) given.now }
    requires holds { HoldsMet given.now specs.now types.old types.old met.old.keys }
    ensures met { IfOk result (λ met. IsTrue met ↔ AreAllMet (map (demand_seen (types_of types.old)) given.now) specs.now (types_of types.old) asked.now) }
    ensures holds { OnOk result (HoldsMet given.now specs.now types.old types.new met.new.keys) }
    ensures kept { Grows types.old types.new }
{
    for need in asked {
        let is_one_met = is_need_met(alloc, need, given, specs, types, met)?;
        if !is_one_met {
            return Ok(false);
        }
    }
    Ok(true)
}

fn is_need_met(
    alloc: Global,
    need: &Asked,
    given: &[Demand],
    specs: &Specs,
    types: &mut TypeArena,
    met: &mut IndexSet<Asked>,
) -> Result<bool, Memory>
    requires need_in { IsBelow (length types.old) need.now }
    requires given_in { DemandsBelow (length types.old) given.now }
    requires holds { HoldsMet given.now specs.now types.old types.old met.old.keys }
    ensures met { IfOk result (λ met. IsTrue met ↔ Meets (map (demand_seen (types_of types.old)) given.now) specs.now (asked_seen (types_of types.old) need.now)) }
    ensures holds { OnOk result (HoldsMet given.now specs.now types.old types.new met.new.keys) }
    ensures kept { Grows types.old types.new }
{
    let need = need.copy(alloc)?;
    is_met(alloc, need, given, specs, types, met)
}
