//! The types that a module of the file shows, in an arena of their own, so that what puts actual parameters in costs no more
//! than the module's heading. They are put together as the arguments of routine types, so that many are carried at once.

ghost use Rattle.std.specs.Prelude.{◌≡◌, ◌<◌, ◌∷◌, [], List, length, option_map, IfOk, IfSome, IsSome, slice_get};
ghost use Rattle.clu_types.specs.CluType.{CluType, CluTypes};
ghost use Rattle.clu_types.specs.Arena.{type_at, types_at, types_of, actuals_at, AreBelow, ActualsBelow, Grows};
ghost use Rattle.clu_types.specs.Substituted.{substituted};
ghost use Rattle.clu_head.specs.declared.head.HeadForm.{HeadForm};
ghost use Rattle.clu_head.specs.declared.head.RoutineHead.{RoutineHead};
ghost use Rattle.clu_operations.specs.Bundles.{in_bundle, wanted_or, part_ids, bundle_type, part_type, routine_types, form_type, nth_type, HasAll, IsShown, PartBelow, RoutinesBelow, FormBelow};
ghost use Rattle.clu_operations.specs.Finding.{IsBelowIf};
ghost use Rattle.clu_operations.specs.Modules.{of_routine, part_seen, own_part};
ghost use Rattle.clu_operations.specs.declared.modules.Part.TheVariants as which;

use crate::modules::{OwnPart, Part, of_routine, routines_in, whole};
use clu_base::{Memory, Sequence};
use clu_head::{Demanded, Head, HeadForm, RoutineHead};
use clu_types::{Actual, Heading, Term, TypeArena, TypeId};
use std::alloc::Global;

/// The types that a module shows: a bundle of its own bundle and of one of the bundles of its routines.
#[derive(Drop)]
pub struct Shown {
    types: TypeArena,
    parts: Option<TypeId>,
}

/// A type with these types as its parts; null if one of them is not of the arena.
fn bundle(alloc: Global, types: &mut TypeArena, args: Vec<TypeId>) -> Result<TypeId, Memory>
    ensures of_type { AreBelow (length types.old) args.items → IfOk result (λ id. type_at (types_of types.new) id ≡ bundle_type (types_at (types_of types.old) args.items)) }
    ensures within { IfOk result (λ id. id.0 < length types.new) }
    ensures kept { Grows types.old types.new }
{
    let term = Term::Proc(Heading {
        args: Sequence::from_vec(args),
        results: Sequence::from_vec(Vec::new(alloc)),
        signals: Sequence::from_vec(Vec::new(alloc)),
    });
    if types.holds(&term) {
        types.intern(term)
    } else {
        types.intern(Term::Null)
    }
}

fn in_bundle(bundle: &Term) -> &[TypeId]
    ensures { result.now ≡ in_bundle bundle.now }
{
    match bundle {
        Term::Proc(heading) => heading.args.as_slice(),
        _ => &[],
    }
}

fn nth_in(bundle: &Term, at: usize) -> Option<TypeId>
    ensures { result ≡ slice_get (in_bundle bundle.now) at }
{
    in_bundle(bundle).get(at).copied()
}

/// The type at a place of a bundle.
pub fn bundled(types: &TypeArena, bundle: TypeId, at: usize) -> Option<TypeId>
    ensures of_type { (all : CluTypes) → bundle.0 < length types.now → type_at (types_of types.now) bundle ≡ bundle_type all → option_map (type_at (types_of types.now)) result ≡ nth_type all at }
    ensures within { IsBelowIf (length types.now) result }
{
    if types.contains(bundle) {
        nth_in(types.view(bundle), at)
    } else {
        None
    }
}

/// What is wanted; `other` stands for what is refused.
fn wanted_or(alloc: Global, demands: &[Demanded], other: TypeId) -> Result<Vec<TypeId>, Memory>
    ensures { IfOk result (λ made. made.items ≡ wanted_or other demands.now) }
{
    let mut made = Vec::new(alloc);
    for demand in demands {
        made.push(demand.wanted.unwrap_or(other))?;
    }
    Ok(made)
}

fn part_ids(alloc: Global, part: OwnPart<'_>, null: TypeId) -> Result<Vec<TypeId>, Memory>
    ensures { IfOk result (λ made. made.items ≡ part_ids null (part_seen part.entry)) }
{
    let mut made = wanted_or(alloc, part.demands, null)?;
    made.push(part.of.unwrap_or(null))?;
    Ok(made)
}

/// What the demands of a part want, and behind these its own type; null stands for what is refused.
pub fn part_bundle(
    alloc: Global,
    types: &mut TypeArena,
    part: OwnPart<'_>,
) -> Result<TypeId, Memory>
    ensures of_type { PartBelow (length types.old) (part_seen part.entry) → IfOk result (λ id. type_at (types_of types.new) id ≡ part_type (types_of types.old) (part_seen part.entry)) }
    ensures within { IfOk result (λ id. id.0 < length types.new) }
    ensures kept { Grows types.old types.new }
{
    let null = types.intern(Term::Null)?;
    let ids = part_ids(alloc, part, null)?;
    bundle(alloc, types, ids)
}

/// The bundles of routines, in order.
fn routine_bundles(
    alloc: Global,
    types: &mut TypeArena,
    routines: &[RoutineHead],
) -> Result<Vec<TypeId>, Memory>
    ensures of_types { RoutinesBelow (length types.old) routines.now → IfOk result (λ made. types_at (types_of types.new) made.items ≡ routine_types (types_of types.old) routines.now) }
    ensures within { IfOk result (λ made. AreBelow (length types.new) made.items) }
    ensures kept { Grows types.old types.new }
{
    let mut made = Vec::new(alloc);
    for routine in routines {
        let part = part_bundle(alloc, types, of_routine(routine))?;
        made.push(part)?;
    }
    Ok(made)
}

fn routines_bundle(
    alloc: Global,
    types: &mut TypeArena,
    routines: &[RoutineHead],
) -> Result<TypeId, Memory>
    ensures of_type { RoutinesBelow (length types.old) routines.now → IfOk result (λ id. type_at (types_of types.new) id ≡ bundle_type (routine_types (types_of types.old) routines.now)) }
    ensures within { IfOk result (λ id. id.0 < length types.new) }
    ensures kept { Grows types.old types.new }
{
    let parts = routine_bundles(alloc, types, routines)?;
    bundle(alloc, types, parts)
}

fn both(alloc: Global, first: TypeId, second: TypeId) -> Result<Vec<TypeId>, Memory>
    ensures { IfOk result (λ made. made.items ≡ first ∷ second ∷ []) }
{
    let mut made = Vec::new(alloc);
    made.push(first)?;
    made.push(second)?;
    Ok(made)
}

fn parts_bundle(alloc: Global, types: &mut TypeArena, form: &HeadForm) -> Result<TypeId, Memory>
    ensures of_type { FormBelow (length types.old) form.now → IfOk result (λ id. type_at (types_of types.new) id ≡ form_type (types_of types.old) form.now) }
    ensures within { IfOk result (λ id. id.0 < length types.new) }
    ensures kept { Grows types.old types.new }
{
    let own = part_bundle(alloc, types, whole(form))?;
    let routines = routines_bundle(alloc, types, routines_in(form))?;
    let all = both(alloc, own, routines)?;
    bundle(alloc, types, all)
}

/// The bundle of a routine in the bundle of all routines.
fn routine_among(types: &TypeArena, all: TypeId, place: usize) -> Option<TypeId>
    ensures of_type { (source : List CluType) (routines : List RoutineHead) → all.0 < length types.now → type_at (types_of types.now) all ≡ bundle_type (routine_types source routines) → option_map (type_at (types_of types.now)) result ≡ option_map (part_type source) (option_map of_routine (slice_get routines place)) }
    ensures within { IsBelowIf (length types.now) result }
{
    bundled(types, all, place)
}

fn routine_in(types: &TypeArena, parts: TypeId, place: usize) -> Option<TypeId>
    ensures of_type { (source : List CluType) (form : HeadForm) → parts.0 < length types.now → type_at (types_of types.now) parts ≡ form_type source form → option_map (type_at (types_of types.now)) result ≡ option_map (part_type source) (own_part form (which.Routine place)) }
    ensures within { IsBelowIf (length types.now) result }
{
    match bundled(types, parts, 1) {
        Some(all) => routine_among(types, all, place),
        None => None,
    }
}

/// The bundle of the module itself.
fn whole_in(types: &TypeArena, parts: TypeId) -> Option<TypeId>
    ensures of_type { (source : List CluType) (form : HeadForm) → parts.0 < length types.now → type_at (types_of types.now) parts ≡ form_type source form → option_map (type_at (types_of types.now)) result ≡ option_map (part_type source) (own_part form which.Itself) }
    ensures within { IsBelowIf (length types.now) result }
{
    bundled(types, parts, 0)
}

/// The bundle of a part in the bundle of all of them.
fn part_in(types: &TypeArena, parts: TypeId, part: Part) -> Option<TypeId>
    ensures of_type { (source : List CluType) (form : HeadForm) → parts.0 < length types.now → type_at (types_of types.now) parts ≡ form_type source form → option_map (type_at (types_of types.now)) result ≡ option_map (part_type source) (own_part form part) }
    ensures within { IsBelowIf (length types.now) result }
{
    match part {
        Part::Itself => whole_in(types, parts),
        Part::Routine(place) => routine_in(types, parts, place),
    }
}

/// A type of another arena with actual parameters put in.
pub fn put_in(
    alloc: Global,
    types: &mut TypeArena,
    from: &TypeArena,
    id: TypeId,
    actuals: &[Actual],
) -> Result<Option<TypeId>, Memory>
    ensures found { id.0 < length from.now → ActualsBelow (length types.old) actuals.now → IfOk result IsSome }
    ensures of_type { IfOk result (λ put. IfSome put (λ p. type_at (types_of types.new) p ≡ substituted (actuals_at (types_of types.old) actuals.now) (type_at (types_of from.now) id))) }
    ensures within { IfOk result (IsBelowIf (length types.new)) }
    ensures kept { Grows types.old types.new }
{
    if from.contains(id) && types.holds_actuals(actuals) {
        Ok(Some(types.carry(alloc, from, id, actuals)?))
    } else {
        Ok(None)
    }
}

/// These types in an arena of their own.
fn apart(alloc: Global, types: &TypeArena, all: TypeId) -> Result<Box<Shown>, Memory>
    ensures { all.0 < length types.now → IfOk result (λ shown. HasAll (type_at (types_of types.now) all) shown.value) }
{
    let mut own = TypeArena::new(alloc);
    let parts = put_in(alloc, &mut own, types, all, &[])?;
    let shown = Box::new(alloc, Shown { types: own, parts })?;
    Ok(shown)
}

/// What a module shows. The only error is that memory runs out.
pub fn shown_by(alloc: Global, types: &mut TypeArena, head: &Head) -> Result<Box<Shown>, Memory>
    ensures shown { FormBelow (length types.old) head.now.form → IfOk result (λ shown. IsShown (types_of types.old) shown.value head.now.form) }
    ensures kept { Grows types.old types.new }
{
    let all = parts_bundle(alloc, types, &head.form)?;
    apart(alloc, types, all)
}

impl Shown {
    /// The bundle of a part.
    fn bundle_of(&self, part: Part) -> Option<TypeId>
        ensures of_type { (source : List CluType) (form : HeadForm) → IsShown source self.now form → option_map (type_at (types_of self.now.types)) result ≡ option_map (part_type source) (own_part form part) }
        ensures within { IsBelowIf (length self.now.types) result }
    {
        match self.parts {
            Some(parts) => part_in(&self.types, parts, part),
            None => None,
        }
    }

    /// The bundle of a part with actual parameters put in.
    pub fn put(
        &self,
        alloc: Global,
        types: &mut TypeArena,
        part: Part,
        actuals: &[Actual],
    ) -> Result<Option<TypeId>, Memory>
        ensures of_type { (source : List CluType) (form : HeadForm) → IsShown source self.now form → ActualsBelow (length types.old) actuals.now → IfOk result (λ put. option_map (type_at (types_of types.new)) put ≡ option_map (substituted (actuals_at (types_of types.old) actuals.now)) (option_map (part_type source) (own_part form part))) }
        ensures within { IfOk result (IsBelowIf (length types.new)) }
        ensures kept { Grows types.old types.new }
    {
        match self.bundle_of(part) {
            Some(bundle) => put_in(alloc, types, &self.types, bundle, actuals),
            None => Ok(None),
        }
    }
}
