//! The parts of modules with actual parameters put in: their types, and what they ask.

ghost use Rattle.std.specs.Prelude.{◌≡◌, ◌<◌, List, length, flat_map, option_map, slice_get, IfOk, OnOk, Option, Some};
ghost use Rattle.clu_types.specs.CluType.{CluType, CluTypes};
ghost use Rattle.clu_types.specs.Arena.{type_at, types_of, actuals_at, ActualsBelow, Grows};
ghost use Rattle.clu_types.specs.Substituted.{substituted, type_put};
ghost use Rattle.clu_types.specs.declared.term.TypeId.{TypeId};
ghost use Rattle.clu_specs.specs.Specifications.{DemandsBelow, OpBelow, SpecHolds};
ghost use Rattle.clu_demands.specs.Meeting.{op_type};
ghost use Rattle.clu_operations.specs.Asked.{AsksMore};
ghost use Rattle.clu_operations.specs.Bundles.{bundle_type, nth_type, unless_refused, IsPut};
ghost use Rattle.clu_operations.specs.Finding.{IsBelowIf};
ghost use Rattle.clu_operations.specs.Found.{Finds};
ghost use Rattle.clu_operations.specs.Modules.{Shows, part_seen, kept_routine};
ghost use Rattle.clu_operations.specs.Told.{asked_of, demand_told, part_told, kept_demand_told, kept_told};

use crate::asking::push_asked;
use crate::bundles::{bundled, put_in};
use crate::finding::Finding;
use crate::found::FoundId;
use crate::modules::{OwnPart, Part, kept_demands, kept_routine};
use clu_base::{Bytes, Memory};
use clu_demands::{carried_type, is_whole_op, type_actual};
use clu_head::Demanded;
use clu_types::{Actual, Demand, OpSpec, Spec, Term, TypeArena, TypeId};
use std::alloc::Global;

/// The type that is put in for a type parameter; it stays where no type is.
fn put_of(types: &mut TypeArena, actuals: &[Actual], parameter: u32) -> Result<TypeId, Memory>
    ensures of_type { IfOk result (λ id. type_at (types_of types.new) id ≡ type_put (actuals_at (types_of types.old) actuals.now) parameter) }
    ensures within { ActualsBelow (length types.old) actuals.now → IfOk result (λ id. id.0 < length types.new) }
    ensures kept { Grows types.old types.new }
{
    match type_actual(actuals, parameter) {
        Some(of) => Ok(of),
        None => types.intern(Term::Param(parameter)),
    }
}

/// Appends that an operation is asked of the type that is put in for a parameter.
fn push_wanted(
    alloc: Global,
    types: &mut TypeArena,
    finding: &mut Finding,
    actuals: &[Actual],
    parameter: u32,
    operation: &Bytes,
    wanted: TypeId,
    in_set: bool,
) -> Result<(), Memory>
    ensures asks { ActualsBelow (length types.old) actuals.now → wanted.0 < length types.old → OnOk result (AsksMore types.new finding.old finding.new (asked_of (actuals_at (types_of types.old) actuals.now) parameter operation.now in_set (Some (type_at (types_of types.old) wanted)))) }
    ensures kept { Grows types.old types.new }
{
    let of = put_of(types, actuals, parameter)?;
    push_asked(
        alloc,
        &mut finding.words,
        &mut finding.asked,
        of,
        operation,
        wanted,
        in_set,
    )
}

/// The same; nothing, if the wanted type is refused.
fn push_demand(
    alloc: Global,
    types: &mut TypeArena,
    finding: &mut Finding,
    actuals: &[Actual],
    parameter: u32,
    operation: &Bytes,
    wanted: Option<TypeId>,
    in_set: bool,
) -> Result<(), Memory>
    ensures asks { ActualsBelow (length types.old) actuals.now → IsBelowIf (length types.old) wanted → OnOk result (AsksMore types.new finding.old finding.new (asked_of (actuals_at (types_of types.old) actuals.now) parameter operation.now in_set (option_map (type_at (types_of types.old)) wanted))) }
    ensures kept { Grows types.old types.new }
{
    match wanted {
        Some(wanted) => push_wanted(
            alloc, types, finding, actuals, parameter, operation, wanted, in_set,
        ),
        None => Ok(()),
    }
}

// ---- modules of the file

fn bundled_if(types: &TypeArena, bundle: Option<TypeId>, at: usize) -> Option<TypeId>
    ensures of_type { (all : CluTypes) → IsBelowIf (length types.now) bundle → option_map (type_at (types_of types.now)) bundle ≡ Some (bundle_type all) → option_map (type_at (types_of types.now)) result ≡ nth_type all at }
    ensures within { IsBelowIf (length types.now) result }
{
    match bundle {
        Some(bundle) => bundled(types, bundle, at),
        None => None,
    }
}

/// The type at a place of a bundle, unless it is refused.
fn shown_at(
    types: &TypeArena,
    bundle: Option<TypeId>,
    at: usize,
    of: Option<TypeId>,
) -> Option<TypeId>
    ensures of_type { (all : CluTypes) → IsBelowIf (length types.now) bundle → option_map (type_at (types_of types.now)) bundle ≡ Some (bundle_type all) → option_map (type_at (types_of types.now)) result ≡ unless_refused of (nth_type all at) }
    ensures within { IsBelowIf (length types.now) result }
{
    match of {
        Some(_) => bundled_if(types, bundle, at),
        None => None,
    }
}

/// Appends what the demand at a place asks, of which the bundle has the wanted type.
fn push_shown(
    alloc: Global,
    types: &mut TypeArena,
    finding: &mut Finding,
    actuals: &[Actual],
    demand: &Demanded,
    shown: Option<TypeId>,
    at: usize,
) -> Result<(), Memory>
    ensures asks { (source : List CluType) (shows : Shows) → ActualsBelow (length types.old) actuals.now → IsPut types.old (actuals_at (types_of types.old) actuals.now) source shows shown → slice_get shows.demands at ≡ Some demand.now → OnOk result (AsksMore types.new finding.old finding.new (demand_told source (actuals_at (types_of types.old) actuals.now) demand.now)) }
    ensures kept { Grows types.old types.new }
{
    let wanted = shown_at(types, shown, at, demand.wanted);
    push_demand(
        alloc,
        types,
        finding,
        actuals,
        demand.parameter,
        &demand.operation,
        wanted,
        demand.in_set,
    )
}

fn push_own(
    alloc: Global,
    types: &mut TypeArena,
    finding: &mut Finding,
    actuals: &[Actual],
    demands: &[Demanded],
    shown: Option<TypeId>,
) -> Result<(), Memory>
    ensures asks { (source : List CluType) (of : Option TypeId) → ActualsBelow (length types.old) actuals.now → IsPut types.old (actuals_at (types_of types.old) actuals.now) source (record { of = of; demands = demands.now }) shown → OnOk result (AsksMore types.new finding.old finding.new (flat_map (demand_told source (actuals_at (types_of types.old) actuals.now)) demands.now)) }
    ensures kept { Grows types.old types.new }
{
    for at in 0..demands.len() {
        push_shown(alloc, types, finding, actuals, &demands[at], shown, at)?;
    }
    Ok(())
}

fn count_of(part: OwnPart<'_>) -> usize
    ensures { result ≡ length (part_seen part.entry).demands }
{
    part.demands.len()
}

/// Keeps a part of a module of the file, of which the bundle has the types.
pub fn keep_own(
    alloc: Global,
    types: &mut TypeArena,
    finding: &mut Finding,
    actuals: &[Actual],
    part: OwnPart<'_>,
    shown: Option<TypeId>,
) -> Result<FoundId, Memory>
    ensures found { (source : List CluType) → ActualsBelow (length types.old) actuals.now → IsPut types.old (actuals_at (types_of types.old) actuals.now) source (part_seen part.entry) shown → IfOk result (λ id. Finds (length types.old) types.new finding.old finding.new (Some (part_told source (actuals_at (types_of types.old) actuals.now) (part_seen part.entry))) (Some id)) }
    ensures shown { (source : List CluType) → ActualsBelow (length types.old) actuals.now → IsPut types.old (actuals_at (types_of types.old) actuals.now) source (part_seen part.entry) shown → OnOk result (finding.new.shown ≡ finding.old.shown) }
    ensures kept { Grows types.old types.new }
{
    let from = finding.asked_count();
    push_own(alloc, types, finding, actuals, part.demands, shown)?;
    let of = shown_at(types, shown, count_of(part), part.of);
    finding.keep(of, from)
}

// ---- modules of the library

fn routine_type(
    alloc: Global,
    types: &mut TypeArena,
    from: &TypeArena,
    routine: &OpSpec,
    actuals: &[Actual],
) -> Result<Option<TypeId>, Memory>
    ensures of_type { OpBelow (length from.now) routine.now → ActualsBelow (length types.old) actuals.now → IfOk result (λ of. option_map (type_at (types_of types.new)) of ≡ Some (substituted (actuals_at (types_of types.old) actuals.now) (op_type (types_of from.now) routine.now))) }
    ensures within { IfOk result (IsBelowIf (length types.new)) }
    ensures kept { Grows types.old types.new }
{
    if is_whole_op(from, routine) && types.holds_actuals(actuals) {
        Ok(Some(carried_type(alloc, types, from, routine, actuals)?))
    } else {
        Ok(None)
    }
}

fn kept_type(
    alloc: Global,
    types: &mut TypeArena,
    actuals: &[Actual],
    spec: &Spec,
    part: Part,
) -> Result<Option<TypeId>, Memory>
    ensures of_type { SpecHolds spec.now → ActualsBelow (length types.old) actuals.now → IfOk result (λ of. option_map (type_at (types_of types.new)) of ≡ option_map (λ op. substituted (actuals_at (types_of types.old) actuals.now) (op_type (types_of spec.now.types) op)) (kept_routine spec.now.form part)) }
    ensures within { IfOk result (IsBelowIf (length types.new)) }
    ensures kept { Grows types.old types.new }
{
    match kept_routine(&spec.form, part) {
        Some(routine) => routine_type(alloc, types, &spec.types, routine, actuals),
        None => Ok(None),
    }
}

/// Appends what a demand with types of another arena asks.
fn push_kept(
    alloc: Global,
    types: &mut TypeArena,
    finding: &mut Finding,
    actuals: &[Actual],
    from: &TypeArena,
    demand: &Demand,
) -> Result<(), Memory>
    ensures asks { demand.now.wanted.0 < length from.now → ActualsBelow (length types.old) actuals.now → OnOk result (AsksMore types.new finding.old finding.new (kept_demand_told (types_of from.now) (actuals_at (types_of types.old) actuals.now) demand.now)) }
    ensures kept { Grows types.old types.new }
{
    let wanted = put_in(alloc, types, from, demand.wanted, actuals)?;
    push_demand(
        alloc,
        types,
        finding,
        actuals,
        demand.param,
        &demand.op,
        wanted,
        false,
    )
}

fn push_all_kept(
    alloc: Global,
    types: &mut TypeArena,
    finding: &mut Finding,
    actuals: &[Actual],
    from: &TypeArena,
    demands: &[Demand],
) -> Result<(), Memory>
    ensures asks { DemandsBelow (length from.now) demands.now → ActualsBelow (length types.old) actuals.now → OnOk result (AsksMore types.new finding.old finding.new (flat_map (kept_demand_told (types_of from.now) (actuals_at (types_of types.old) actuals.now)) demands.now)) }
    ensures kept { Grows types.old types.new }
{
    for demand in demands {
        push_kept(alloc, types, finding, actuals, from, demand)?;
    }
    Ok(())
}

/// A part of a module of the library with actual parameters.
pub fn kept_found(
    alloc: Global,
    types: &mut TypeArena,
    finding: &mut Finding,
    actuals: &[Actual],
    spec: &Spec,
    part: Part,
) -> Result<FoundId, Memory>
    ensures found { SpecHolds spec.now → ActualsBelow (length types.old) actuals.now → IfOk result (λ id. Finds (length types.old) types.new finding.old finding.new (Some (kept_told spec.now (actuals_at (types_of types.old) actuals.now) part)) (Some id)) }
    ensures shown { SpecHolds spec.now → ActualsBelow (length types.old) actuals.now → OnOk result (finding.new.shown ≡ finding.old.shown) }
    ensures kept { Grows types.old types.new }
{
    let of = kept_type(alloc, types, actuals, spec, part)?;
    let from = finding.asked_count();
    let demands = kept_demands(&spec.form, part);
    push_all_kept(alloc, types, finding, actuals, &spec.types, demands)?;
    finding.keep(of, from)
}
