//! What the parts of modules with actual parameters are: of the file by what the module shows, which is kept once.

ghost use Rattle.std.specs.Prelude.{◌≡◌, List, length, option_map, IfOk, OnOk, IsSome, Some};
ghost use Rattle.clu_types.specs.CluType.{CluType};
ghost use Rattle.clu_types.specs.Arena.{type_at, types_of, actuals_at, ActualsBelow, Grows};
ghost use Rattle.clu_types.specs.Substituted.{substituted};
ghost use Rattle.clu_specs.specs.Specifications.{SpecHolds};
ghost use Rattle.clu_head.specs.declared.head.HeadForm.{HeadForm};
ghost use Rattle.clu_operations.specs.Bundles.{part_type, FormBelow, IsShownIn, ShowsMore, shown_in, IsPut, are_none};
ghost use Rattle.clu_operations.specs.Finding.{IsBelowIf};
ghost use Rattle.clu_operations.specs.Found.{Finds, ModuleBelow, IsModuleShown, ModuleShowsMore};
ghost use Rattle.clu_operations.specs.Modules.{part_seen, own_part, module_seen};
ghost use Rattle.clu_operations.specs.Told.{part_told, kept_told, module_told};

use crate::bundles::{Shown, part_bundle, shown_by};
use crate::finding::Finding;
use crate::found::FoundId;
use crate::modules::{Known, OwnPart, Part, own_part};
use crate::parts::{keep_own, kept_found};
use clu_base::Memory;
use clu_bindings::ModuleId;
use clu_head::Head;
use clu_types::{Actual, Spec, TypeArena, TypeId};
use std::alloc::Global;
use std::collections::HashMap;

/// A part of a module, with actual parameters.
#[derive(Clone, Copy)]
pub struct Callee<'a> {
    pub id: ModuleId,
    pub part: Part,
    pub actuals: &'a [Actual],
}

fn put_shown(
    alloc: Global,
    types: &mut TypeArena,
    kept: &mut HashMap<ModuleId, Box<Shown>>,
    id: ModuleId,
    head: &Head,
) -> Result<(), Memory>
    ensures there { OnOk result (IsSome (shown_in kept.new id)) }
    ensures shown { FormBelow (length types.old) head.now.form → OnOk result (ShowsMore (types_of types.old) kept.old kept.new id head.now.form) }
    ensures kept { Grows types.old types.new }
{
    let shown = shown_by(alloc, types, head)?;
    kept.insert(id, shown)?;
    Ok(())
}

/// Keeps what the module shows.
fn enter_shown(
    alloc: Global,
    types: &mut TypeArena,
    kept: &mut HashMap<ModuleId, Box<Shown>>,
    id: ModuleId,
    head: &Head,
) -> Result<(), Memory>
    ensures there { OnOk result (IsSome (shown_in kept.new id)) }
    ensures shown { FormBelow (length types.old) head.now.form → OnOk result (ShowsMore (types_of types.old) kept.old kept.new id head.now.form) }
    ensures kept { Grows types.old types.new }
{
    if kept.contains_key(&id) {
        Ok(())
    } else {
        put_shown(alloc, types, kept, id, head)
    }
}

/// What is kept of a part, with actual parameters put in.
fn kept_part(
    alloc: Global,
    types: &mut TypeArena,
    kept: &HashMap<ModuleId, Box<Shown>>,
    callee: Callee<'_>,
) -> Result<Option<TypeId>, Memory>
    ensures put { (source : List CluType) (form : HeadForm) → IsSome (shown_in kept.now callee.entry.id) → IsShownIn source kept.now callee.entry.id form → ActualsBelow (length types.old) callee.entry.actuals.now → IfOk result (λ put. option_map (type_at (types_of types.new)) put ≡ option_map (substituted (actuals_at (types_of types.old) callee.entry.actuals.now)) (option_map (part_type source) (own_part form callee.entry.part))) }
    ensures within { IfOk result (IsBelowIf (length types.new)) }
    ensures kept { Grows types.old types.new }
{
    match kept.get(&callee.id) {
        Some(shown) => shown.put(alloc, types, callee.part, callee.actuals),
        None => Ok(None),
    }
}

fn entered_part(
    alloc: Global,
    types: &mut TypeArena,
    kept: &mut HashMap<ModuleId, Box<Shown>>,
    callee: Callee<'_>,
    head: &Head,
) -> Result<Option<TypeId>, Memory>
    ensures put { FormBelow (length types.old) head.now.form → IsShownIn (types_of types.old) kept.old callee.entry.id head.now.form → ActualsBelow (length types.old) callee.entry.actuals.now → IfOk result (λ put. option_map (type_at (types_of types.new)) put ≡ option_map (substituted (actuals_at (types_of types.old) callee.entry.actuals.now)) (option_map (part_type (types_of types.old)) (own_part head.now.form callee.entry.part))) }
    ensures within { IfOk result (IsBelowIf (length types.new)) }
    ensures shown { FormBelow (length types.old) head.now.form → OnOk result (ShowsMore (types_of types.old) kept.old kept.new callee.entry.id head.now.form) }
    ensures kept { Grows types.old types.new }
{
    enter_shown(alloc, types, kept, callee.id, head)?;
    kept_part(alloc, types, kept, callee)
}

fn are_none(actuals: &[Actual]) -> bool
    ensures { result ≡ are_none actuals.now }
{
    match actuals {
        [] => true,
        [_, ..] => false,
    }
}

/// What such a part shows, as a bundle. Without actual parameters nothing is kept.
fn shown_of(
    alloc: Global,
    types: &mut TypeArena,
    kept: &mut HashMap<ModuleId, Box<Shown>>,
    callee: Callee<'_>,
    head: &Head,
    part: OwnPart<'_>,
) -> Result<Option<TypeId>, Memory>
    ensures put { own_part head.now.form callee.entry.part ≡ Some (part_seen part.entry) → FormBelow (length types.old) head.now.form → IsShownIn (types_of types.old) kept.old callee.entry.id head.now.form → ActualsBelow (length types.old) callee.entry.actuals.now → IfOk result (IsPut types.new (actuals_at (types_of types.old) callee.entry.actuals.now) (types_of types.old) (part_seen part.entry)) }
    ensures shown { FormBelow (length types.old) head.now.form → OnOk result (ShowsMore (types_of types.old) kept.old kept.new callee.entry.id head.now.form) }
    ensures kept { Grows types.old types.new }
{
    if are_none(callee.actuals) {
        let bundle = part_bundle(alloc, types, part)?;
        Ok(Some(bundle))
    } else {
        entered_part(alloc, types, kept, callee, head)
    }
}

fn own_kept(
    alloc: Global,
    types: &mut TypeArena,
    finding: &mut Finding,
    callee: Callee<'_>,
    head: &Head,
    part: OwnPart<'_>,
) -> Result<FoundId, Memory>
    ensures found { own_part head.now.form callee.entry.part ≡ Some (part_seen part.entry) → FormBelow (length types.old) head.now.form → IsShownIn (types_of types.old) finding.old.shown callee.entry.id head.now.form → ActualsBelow (length types.old) callee.entry.actuals.now → IfOk result (λ id. Finds (length types.old) types.new finding.old finding.new (Some (part_told (types_of types.old) (actuals_at (types_of types.old) callee.entry.actuals.now) (part_seen part.entry))) (Some id)) }
    ensures shown { own_part head.now.form callee.entry.part ≡ Some (part_seen part.entry) → FormBelow (length types.old) head.now.form → IsShownIn (types_of types.old) finding.old.shown callee.entry.id head.now.form → ActualsBelow (length types.old) callee.entry.actuals.now → OnOk result (ShowsMore (types_of types.old) finding.old.shown finding.new.shown callee.entry.id head.now.form) }
    ensures kept { Grows types.old types.new }
{
    let shown = shown_of(alloc, types, &mut finding.shown, callee, head, part)?;
    keep_own(alloc, types, finding, callee.actuals, part, shown)
}

fn own_some(
    alloc: Global,
    types: &mut TypeArena,
    finding: &mut Finding,
    callee: Callee<'_>,
    head: &Head,
    part: OwnPart<'_>,
) -> Result<Option<FoundId>, Memory>
    ensures found { own_part head.now.form callee.entry.part ≡ Some (part_seen part.entry) → FormBelow (length types.old) head.now.form → IsShownIn (types_of types.old) finding.old.shown callee.entry.id head.now.form → ActualsBelow (length types.old) callee.entry.actuals.now → IfOk result (Finds (length types.old) types.new finding.old finding.new (Some (part_told (types_of types.old) (actuals_at (types_of types.old) callee.entry.actuals.now) (part_seen part.entry)))) }
    ensures shown { own_part head.now.form callee.entry.part ≡ Some (part_seen part.entry) → FormBelow (length types.old) head.now.form → IsShownIn (types_of types.old) finding.old.shown callee.entry.id head.now.form → ActualsBelow (length types.old) callee.entry.actuals.now → OnOk result (ShowsMore (types_of types.old) finding.old.shown finding.new.shown callee.entry.id head.now.form) }
    ensures kept { Grows types.old types.new }
{
    let found = own_kept(alloc, types, finding, callee, head, part)?;
    Ok(Some(found))
}

fn own_found(
    alloc: Global,
    types: &mut TypeArena,
    finding: &mut Finding,
    callee: Callee<'_>,
    head: &Head,
) -> Result<Option<FoundId>, Memory>
    ensures found { FormBelow (length types.old) head.now.form → IsShownIn (types_of types.old) finding.old.shown callee.entry.id head.now.form → ActualsBelow (length types.old) callee.entry.actuals.now → IfOk result (Finds (length types.old) types.new finding.old finding.new (option_map (part_told (types_of types.old) (actuals_at (types_of types.old) callee.entry.actuals.now)) (own_part head.now.form callee.entry.part))) }
    ensures shown { FormBelow (length types.old) head.now.form → IsShownIn (types_of types.old) finding.old.shown callee.entry.id head.now.form → ActualsBelow (length types.old) callee.entry.actuals.now → OnOk result (ShowsMore (types_of types.old) finding.old.shown finding.new.shown callee.entry.id head.now.form) }
    ensures kept { Grows types.old types.new }
{
    match own_part(&head.form, callee.part) {
        Some(part) => own_some(alloc, types, finding, callee, head, part),
        None => Ok(None),
    }
}

fn library_found(
    alloc: Global,
    types: &mut TypeArena,
    finding: &mut Finding,
    callee: Callee<'_>,
    spec: &Spec,
) -> Result<Option<FoundId>, Memory>
    ensures found { SpecHolds spec.now → ActualsBelow (length types.old) callee.entry.actuals.now → IfOk result (Finds (length types.old) types.new finding.old finding.new (Some (kept_told spec.now (actuals_at (types_of types.old) callee.entry.actuals.now) callee.entry.part))) }
    ensures shown { SpecHolds spec.now → ActualsBelow (length types.old) callee.entry.actuals.now → OnOk result (finding.new.shown ≡ finding.old.shown) }
    ensures kept { Grows types.old types.new }
{
    let found = kept_found(alloc, types, finding, callee.actuals, spec, callee.part)?;
    Ok(Some(found))
}

/// The part of a module with actual parameters.
pub fn part_found(
    alloc: Global,
    types: &mut TypeArena,
    finding: &mut Finding,
    callee: Callee<'_>,
    known: Known<'_>,
) -> Result<Option<FoundId>, Memory>
    ensures found { ModuleBelow (length types.old) (module_seen known.entry) → IsModuleShown (types_of types.old) finding.old callee.entry.id (module_seen known.entry) → ActualsBelow (length types.old) callee.entry.actuals.now → IfOk result (Finds (length types.old) types.new finding.old finding.new (module_told (types_of types.old) (actuals_at (types_of types.old) callee.entry.actuals.now) (module_seen known.entry) callee.entry.part)) }
    ensures shown { ModuleBelow (length types.old) (module_seen known.entry) → IsModuleShown (types_of types.old) finding.old callee.entry.id (module_seen known.entry) → ActualsBelow (length types.old) callee.entry.actuals.now → OnOk result (ModuleShowsMore (types_of types.old) finding.old finding.new callee.entry.id (module_seen known.entry)) }
    ensures kept { Grows types.old types.new }
{
    match known {
        Known::Own(head) => own_found(alloc, types, finding, callee, head),
        Known::Kept(spec) => library_found(alloc, types, finding, callee, spec),
    }
}
