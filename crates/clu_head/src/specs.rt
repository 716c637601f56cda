//! Specifications, which have the types that they name in arenas of their own. None if a type of one is refused or lost.

ghost use Rattle.std.specs.Prelude.{◌≡◌, ◌∷◌, [], List, IfOk, IfSome, IsSome, IsTrue, Some, map};
ghost use Rattle.std.specs.List.{filter};
ghost use Rattle.clu_types.specs.Arena.{Grows};
ghost use Rattle.clu_head.specs.declared.head.Demanded.{Demanded};
ghost use Rattle.clu_head.specs.declared.head.HeadForm.TheVariants as HeadForm;
ghost use Rattle.clu_head.specs.Adding.{Adds};
ghost use Rattle.clu_head.specs.Kept.{IsMoved, IsHeadingOf, AreMovedParts, IsDemandOf, AreDemandsOf, IsRoutineOf, AreRoutinesOf, IsFormOf};
ghost use Rattle.clu_head.specs.Whole.{IsRoutineTerm, HasType, HasRoutineType, AreWholeDemands, IsWholeRoutine, IsWholeIfExported, AreWholeRoutines, IsWholeForm, AreWholeKinds, IsWhole};

use crate::head::{Demanded, Head, HeadForm, RoutineHead};
use clu_base::{Bytes, Memory, Sequence};
use clu_types::{Demand, Form, Heading, OpSpec, ParamKind, Spec, Term, TypeArena, TypeId};
use std::alloc::Global;

/// A type of the arena `from` in the arena `to`; None if it is lost.
#[tactic(auto, using(crate::proofs::Keeping::type_carried, crate::proofs::Whole::no_type))]
fn moved(
    alloc: Global,
    to: &mut TypeArena,
    from: &TypeArena,
    id: Option<TypeId>,
) -> Result<Option<TypeId>, Memory>
    ensures moved { IfOk result (λ found. IfSome found (IsMoved from.now to.new id)) }
    ensures whole { IfOk result (λ found. HasType from.now id → IsSome found) }
    ensures kept { Grows to.old to.new }
{
    match id {
        Some(id) => {
            if from.contains(id) {
                Ok(Some(to.carry(alloc, from, id, &[])?))
            } else {
                Ok(None)
            }
        }
        None => Ok(None),
    }
}

/// The parts of a type of a routine.
#[tactic(auto, unfolding(crate::specs::Kept::IsHeadingOf))]
fn parts_of(alloc: Global, term: &Term) -> Result<Option<Heading>, Memory>
    ensures heading { IfOk result (λ found. IfSome found (IsHeadingOf term.now)) }
    ensures whole { IfOk result (λ found. IsRoutineTerm term.now → IsSome found) }
{
    match term {
        Term::Proc(heading) | Term::Iter(heading) => Ok(Some(heading.copy(alloc)?)),
        _ => Ok(None),
    }
}

/// The parts of the type of a routine in the arena `to`; None if it is lost.
fn moved_parts(
    alloc: Global,
    to: &mut TypeArena,
    from: &TypeArena,
    of_type: Option<TypeId>,
) -> Result<Option<Heading>, Memory>
    ensures parts { IfOk result (λ found. IfSome found (AreMovedParts from.now to.new of_type)) }
    ensures whole { IfOk result (λ found. HasRoutineType from.now of_type → IsSome found) }
    ensures kept { Grows to.old to.new }
{
    match moved(alloc, to, from, of_type)? {
        Some(id) => {
            if to.contains(id) {
                parts_of(alloc, to.view(id))
            } else {
                Ok(None)
            }
        }
        None => Ok(None),
    }
}

/// Appends a demand; whether its type is known.
fn push_demand(
    alloc: Global,
    to: &mut TypeArena,
    from: &TypeArena,
    all: &mut Vec<Demand>,
    demand: &Demanded,
) -> Result<bool, Memory>
    ensures more { IfOk result (λ is. IsTrue is → Adds (IsDemandOf from.now to.new) (demand.now ∷ []) all.old.items all.new.items) }
    ensures whole { IfOk result (λ is. HasType from.now demand.now.wanted → IsTrue is) }
    ensures kept { Grows to.old to.new }
{
    match moved(alloc, to, from, demand.wanted)? {
        Some(wanted) => {
            let op = demand.operation.copy(alloc)?;
            all.push(Demand {
                param: demand.parameter,
                op,
                wanted,
            })?;
            Ok(true)
        }
        None => Ok(false),
    }
}

fn moved_demands(
    alloc: Global,
    to: &mut TypeArena,
    from: &TypeArena,
    demands: &[Demanded],
) -> Result<Option<Sequence<Demand>>, Memory>
    ensures demands { IfOk result (λ found. IfSome found (AreDemandsOf from.now to.new demands.now)) }
    ensures whole { IfOk result (λ found. AreWholeDemands from.now demands.now → IsSome found) }
    ensures kept { Grows to.old to.new }
{
    let mut all = Vec::new(alloc);
    for demand in demands {
        if !push_demand(alloc, to, from, &mut all, demand)? {
            return Ok(None);
        }
    }
    Ok(Some(Sequence::from_vec(all)))
}

/// A routine with this heading and these demands.
fn routine_with(
    alloc: Global,
    routine: &RoutineHead,
    heading: Heading,
    demands: Sequence<Demand>,
) -> Result<Box<OpSpec>, Memory>
    ensures name { IfOk result (λ op. op.value.name ≡ routine.now.name) }
    ensures iter { IfOk result (λ op. op.value.iter ≡ routine.now.iter) }
    ensures heading { IfOk result (λ op. op.value.heading ≡ heading) }
    ensures demands { IfOk result (λ op. op.value.demands ≡ demands) }
{
    let op = OpSpec {
        name: routine.name.copy(alloc)?,
        iter: routine.iter,
        heading,
        demands,
    };
    Ok(Box::new(alloc, op)?)
}

/// A routine with this heading in the arena `to`.
fn moved_with(
    alloc: Global,
    to: &mut TypeArena,
    from: &TypeArena,
    routine: &RoutineHead,
    heading: Heading,
) -> Result<Option<Box<OpSpec>>, Memory>
    ensures routine { IfOk result (λ found. IfSome found (λ op. AreMovedParts from.now to.old routine.now.of_type heading → IsRoutineOf from.now to.new routine.now op.value)) }
    ensures whole { IfOk result (λ found. AreWholeDemands from.now routine.now.demands → IsSome found) }
    ensures kept { Grows to.old to.new }
{
    match moved_demands(alloc, to, from, routine.demands.as_slice())? {
        Some(demands) => Ok(Some(routine_with(alloc, routine, heading, demands)?)),
        None => Ok(None),
    }
}

fn moved_routine(
    alloc: Global,
    to: &mut TypeArena,
    from: &TypeArena,
    routine: &RoutineHead,
) -> Result<Option<Box<OpSpec>>, Memory>
    ensures routine { IfOk result (λ found. IfSome found (λ op. IsRoutineOf from.now to.new routine.now op.value)) }
    ensures whole { IfOk result (λ found. IsWholeRoutine from.now routine.now → IsSome found) }
    ensures kept { Grows to.old to.new }
{
    match moved_parts(alloc, to, from, routine.of_type)? {
        Some(heading) => moved_with(alloc, to, from, routine, heading),
        None => Ok(None),
    }
}

/// Appends a routine, if it is exported; whether its types are known.
fn push_routine(
    alloc: Global,
    to: &mut TypeArena,
    from: &TypeArena,
    all: &mut Vec<OpSpec>,
    routine: &RoutineHead,
) -> Result<bool, Memory>
    ensures more { IfOk result (λ is. IsTrue is → Adds (IsRoutineOf from.now to.new) (filter (λ r. r.exported) (routine.now ∷ [])) all.old.items all.new.items) }
    ensures whole { IfOk result (λ is. IsWholeIfExported from.now routine.now → IsTrue is) }
    ensures kept { Grows to.old to.new }
{
    if !routine.exported {
        return Ok(true);
    }
    match moved_routine(alloc, to, from, routine)? {
        Some(op) => {
            all.push(Box::into_inner(op))?;
            Ok(true)
        }
        None => Ok(false),
    }
}

/// Those that are exported.
fn moved_routines(
    alloc: Global,
    to: &mut TypeArena,
    from: &TypeArena,
    routines: &[RoutineHead],
) -> Result<Option<Sequence<OpSpec>>, Memory>
    ensures routines { IfOk result (λ found. IfSome found (AreRoutinesOf from.now to.new routines.now)) }
    ensures whole { IfOk result (λ found. AreWholeRoutines from.now routines.now → IsSome found) }
    ensures kept { Grows to.old to.new }
{
    let mut all = Vec::new(alloc);
    for routine in routines {
        if !push_routine(alloc, to, from, &mut all, routine)? {
            return Ok(None);
        }
    }
    Ok(Some(Sequence::from_vec(all)))
}

#[tactic(auto, unfolding(crate::specs::Kept::IsFormOf))]
fn routine_form(
    alloc: Global,
    to: &mut TypeArena,
    from: &TypeArena,
    routine: &RoutineHead,
) -> Result<Option<Box<Form>>, Memory>
    ensures form { IfOk result (λ found. IfSome found (λ made. IsFormOf from.now to.new (HeadForm.Routine routine.now) made.value)) }
    ensures whole { IfOk result (λ found. IsWholeRoutine from.now routine.now → IsSome found) }
    ensures kept { Grows to.old to.new }
{
    match moved_routine(alloc, to, from, routine)? {
        Some(op) => Ok(Some(Box::new(alloc, Form::Routine(Box::into_inner(op)))?)),
        None => Ok(None),
    }
}

/// A cluster that asks this, with those of its routines that are exported.
fn cluster_with(
    alloc: Global,
    to: &mut TypeArena,
    from: &TypeArena,
    demands: Sequence<Demand>,
    routines: &Sequence<RoutineHead>,
) -> Result<Option<Box<Form>>, Memory>
    ensures form { IfOk result (λ found. IfSome found (λ made. (asked : List Demanded) → AreDemandsOf from.now to.old asked demands → IsFormOf from.now to.new (HeadForm.Cluster asked routines.now) made.value)) }
    ensures whole { IfOk result (λ found. AreWholeRoutines from.now routines.now → IsSome found) }
    ensures kept { Grows to.old to.new }
{
    match moved_routines(alloc, to, from, routines.as_slice())? {
        Some(ops) => Ok(Some(Box::new(alloc, Form::Cluster(demands, ops))?)),
        None => Ok(None),
    }
}

fn cluster_form(
    alloc: Global,
    to: &mut TypeArena,
    from: &TypeArena,
    demands: &Sequence<Demanded>,
    routines: &Sequence<RoutineHead>,
) -> Result<Option<Box<Form>>, Memory>
    ensures form { IfOk result (λ found. IfSome found (λ made. IsFormOf from.now to.new (HeadForm.Cluster demands.now routines.now) made.value)) }
    ensures whole { IfOk result (λ found. AreWholeDemands from.now demands.now → AreWholeRoutines from.now routines.now → IsSome found) }
    ensures kept { Grows to.old to.new }
{
    match moved_demands(alloc, to, from, demands.as_slice())? {
        Some(demands) => cluster_with(alloc, to, from, demands, routines),
        None => Ok(None),
    }
}

#[tactic(auto, unfolding(crate::specs::Whole::IsWholeForm))]
fn moved_form(
    alloc: Global,
    to: &mut TypeArena,
    from: &TypeArena,
    form: &HeadForm,
) -> Result<Option<Box<Form>>, Memory>
    ensures form { IfOk result (λ found. IfSome found (λ made. IsFormOf from.now to.new form.now made.value)) }
    ensures whole { IfOk result (λ found. IsWholeForm from.now form.now → IsSome found) }
    ensures kept { Grows to.old to.new }
{
    match form {
        HeadForm::Routine(routine) => routine_form(alloc, to, from, routine),
        HeadForm::Cluster(demands, routines) => cluster_form(alloc, to, from, demands, routines),
    }
}

/// The kinds, if all of them are known.
fn all_kinds(
    alloc: Global,
    kinds: &[Option<ParamKind>],
) -> Result<Option<Sequence<ParamKind>>, Memory>
    ensures kinds { IfOk result (λ found. IfSome found (λ all. map Some all ≡ kinds.now)) }
    ensures whole { IfOk result (λ found. AreWholeKinds kinds.now → IsSome found) }
{
    let mut all = Vec::new(alloc);
    for kind in kinds {
        match kind {
            Some(kind) => all.push(*kind)?,
            None => return Ok(None),
        }
    }
    Ok(Some(Sequence::from_vec(all)))
}

fn with_parts(
    alloc: Global,
    name: &Bytes,
    kinds: Sequence<ParamKind>,
    types: Box<TypeArena>,
    form: Box<Form>,
) -> Result<Box<Spec>, Memory>
    ensures name { IfOk result (λ spec. spec.value.name ≡ name.now) }
    ensures kinds { IfOk result (λ spec. spec.value.kinds ≡ kinds) }
    ensures types { IfOk result (λ spec. spec.value.types ≡ types.value) }
    ensures form { IfOk result (λ spec. spec.value.form ≡ form.value) }
{
    let name = name.copy(alloc)?;
    let spec = Spec {
        name,
        kinds,
        types: Box::into_inner(types),
        form: Box::into_inner(form),
    };
    Ok(Box::new(alloc, spec)?)
}

fn with_kinds(
    alloc: Global,
    types: &TypeArena,
    head: &Head,
    kinds: Sequence<ParamKind>,
) -> Result<Option<Box<Spec>>, Memory>
    ensures name { IfOk result (λ found. IfSome found (λ spec. spec.value.name ≡ head.now.name)) }
    ensures kinds { IfOk result (λ found. IfSome found (λ spec. spec.value.kinds ≡ kinds)) }
    ensures form { IfOk result (λ found. IfSome found (λ spec. IsFormOf types.now spec.value.types head.now.form spec.value.form)) }
    ensures whole { IfOk result (λ found. IsWholeForm types.now head.now.form → IsSome found) }
{
    let mut own = Box::new(alloc, TypeArena::new(alloc))?;
    match moved_form(alloc, &mut own, types, &head.form)? {
        Some(form) => Ok(Some(with_parts(alloc, &head.name, kinds, own, form)?)),
        None => Ok(None),
    }
}

/// The specification of a module, whose head has types of this arena: of a cluster the operations that it exports. None just if
/// a type or a kind of it is refused or lost. The only error is that memory runs out.
pub fn spec_of(alloc: Global, types: &TypeArena, head: &Head) -> Result<Option<Box<Spec>>, Memory>
    ensures name { IfOk result (λ found. IfSome found (λ spec. spec.value.name ≡ head.now.name)) }
    ensures kinds { IfOk result (λ found. IfSome found (λ spec. map Some spec.value.kinds ≡ head.now.kinds)) }
    ensures form { IfOk result (λ found. IfSome found (λ spec. IsFormOf types.now spec.value.types head.now.form spec.value.form)) }
    ensures whole { IfOk result (λ found. IsWhole types.now head.now → IsSome found) }
{
    match all_kinds(alloc, head.kinds.as_slice())? {
        Some(kinds) => with_kinds(alloc, types, head, kinds),
        None => Ok(None),
    }
}
