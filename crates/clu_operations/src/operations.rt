//! The operations that types have at a node, and modules with actual parameters, each found once.

ghost use Rattle.std.specs.Prelude.{◌≡◌, ◌<◌, List, length, option_copied, option_map, option_and_then, IfOk, IfSome, OnOk, Some, None};
ghost use Rattle.clu_types.specs.CluType.{CluType, Actuals};
ghost use Rattle.clu_types.specs.Arena.{type_at, types_of, actuals_at, ActualsBelow, Grows};
ghost use Rattle.clu_operations.specs.Builtins.{ComponentsAscend};
ghost use Rattle.clu_operations.specs.Finding.{IsNameBelow};
ghost use Rattle.clu_operations.specs.Found.{Finds, ModuleBelow, IsModuleShown, ModuleShowsMore};
ghost use Rattle.clu_operations.specs.Modules.{module_seen, HasAscending};
ghost use Rattle.clu_operations.specs.Operations.{instance_at, name_round, is_inside, view_named, view_of, view_at};
ghost use Rattle.clu_operations.specs.Told.{told, module_told};
ghost use Rattle.clu_operations.specs.Wished.{cluster_given, told_in, told_by, told_of, builtin_by, wished_told, told_seen, told_at, AreReady, IsFinding, FindsOf};

use crate::builtins::builtin_found;
use crate::callees::{Callee, part_found};
use crate::clauses::given;
use crate::finding::Finding;
use crate::found::{FoundId, View, Wished};
use crate::modules::{Known, Part, known_of, part_named};
use crate::shapes::{Shape, cluster_name, shape_of};
use crate::words::NameId;
use clu_base::{Bytes, Memory, Sequence};
use clu_bindings::{Headed, ModuleId};
use clu_demands::{Instance, instance_of};
use clu_types::{Actual, TypeArena, TypeId};
use std::alloc::Global;

fn instance(alloc: Global, types: &TypeArena, of: TypeId) -> Result<Option<Instance>, Memory>
    ensures found { IfOk result (λ found. found ≡ instance_at types.now of) }
    ensures given { IfOk result (λ found. option_map (λ its. actuals_at (types_of types.now) its.actuals) found ≡ cluster_given (type_at (types_of types.now) of)) }
    ensures within { IfOk result (λ found. IfSome found (λ its. ActualsBelow (length types.now) its.actuals)) }
{
    if types.contains(of) {
        instance_of(alloc, types.view(of))
    } else {
        Ok(None)
    }
}

/// The routine of this name.
fn routine_part(known: Known<'_>, name: &Bytes, inside: bool) -> Option<Part>
    ensures { HasAscending (module_seen known.entry) → (types : List CluType) (given : Actuals) → option_and_then (module_told types given (module_seen known.entry)) result ≡ told_in types inside (module_seen known.entry) (Some name.now) given }
{
    match part_named(known, name, inside) {
        Some(place) => Some(Part::Routine(place)),
        None => None,
    }
}

fn part_numbered(
    finding: &Finding,
    known: Known<'_>,
    operation: NameId,
    inside: bool,
) -> Option<Part>
    ensures { HasAscending (module_seen known.entry) → (types : List CluType) (given : Actuals) → option_and_then (module_told types given (module_seen known.entry)) result ≡ told_by types inside (module_seen known.entry) finding.now.words (Some operation) given }
{
    match finding.words.name(operation) {
        Some(name) => routine_part(known, name, inside),
        None => None,
    }
}

/// The part of a module for which an operation stands; without a name it is the module itself.
fn part_of(
    finding: &Finding,
    known: Known<'_>,
    operation: Option<NameId>,
    inside: bool,
) -> Option<Part>
    ensures { HasAscending (module_seen known.entry) → (types : List CluType) (given : Actuals) → option_and_then (module_told types given (module_seen known.entry)) result ≡ told_by types inside (module_seen known.entry) finding.now.words operation given }
{
    match operation {
        Some(operation) => part_numbered(finding, known, operation, inside),
        None => Some(Part::Itself),
    }
}

fn instance_found(
    alloc: Global,
    types: &mut TypeArena,
    finding: &mut Finding,
    id: ModuleId,
    part: Part,
    actuals: &Sequence<Actual>,
    known: Known<'_>,
) -> Result<Option<FoundId>, Memory>
    ensures found { ModuleBelow (length types.old) (module_seen known.entry) → IsModuleShown (types_of types.old) finding.old id (module_seen known.entry) → ActualsBelow (length types.old) actuals.now → IfOk result (Finds (length types.old) types.new finding.old finding.new (module_told (types_of types.old) (actuals_at (types_of types.old) actuals.now) (module_seen known.entry) part)) }
    ensures shown { ModuleBelow (length types.old) (module_seen known.entry) → IsModuleShown (types_of types.old) finding.old id (module_seen known.entry) → ActualsBelow (length types.old) actuals.now → OnOk result (ModuleShowsMore (types_of types.old) finding.old finding.new id (module_seen known.entry)) }
    ensures kept { Grows types.old types.new }
{
    let actuals = actuals.as_slice();
    let callee = Callee { id, part, actuals };
    part_found(alloc, types, finding, callee, known)
}

/// A part of a module with the actual parameters of a type.
fn find_part(
    alloc: Global,
    types: &mut TypeArena,
    finding: &mut Finding,
    id: ModuleId,
    known: Known<'_>,
    part: Part,
    of: TypeId,
) -> Result<Option<FoundId>, Memory>
    ensures found { ModuleBelow (length types.old) (module_seen known.entry) → IsModuleShown (types_of types.old) finding.old id (module_seen known.entry) → IfOk result (Finds (length types.old) types.new finding.old finding.new (option_and_then (λ given. module_told (types_of types.old) given (module_seen known.entry) part) (cluster_given (type_at (types_of types.old) of)))) }
    ensures shown { ModuleBelow (length types.old) (module_seen known.entry) → IsModuleShown (types_of types.old) finding.old id (module_seen known.entry) → OnOk result (ModuleShowsMore (types_of types.old) finding.old finding.new id (module_seen known.entry)) }
    ensures kept { Grows types.old types.new }
{
    let instance = instance(alloc, types, of)?;
    match instance {
        Some(instance) => {
            instance_found(alloc, types, finding, id, part, &instance.actuals, known)
        }
        None => Ok(None),
    }
}

fn find_known(
    alloc: Global,
    types: &mut TypeArena,
    finding: &mut Finding,
    id: ModuleId,
    known: Known<'_>,
    inside: bool,
    wished: Wished,
) -> Result<Option<FoundId>, Memory>
    ensures found { HasAscending (module_seen known.entry) → ModuleBelow (length types.old) (module_seen known.entry) → IsModuleShown (types_of types.old) finding.old id (module_seen known.entry) → IfOk result (Finds (length types.old) types.new finding.old finding.new (option_and_then (told_by (types_of types.old) inside (module_seen known.entry) finding.old.words wished.operation) (cluster_given (type_at (types_of types.old) wished.of)))) }
    ensures shown { HasAscending (module_seen known.entry) → ModuleBelow (length types.old) (module_seen known.entry) → IsModuleShown (types_of types.old) finding.old id (module_seen known.entry) → OnOk result (ModuleShowsMore (types_of types.old) finding.old finding.new id (module_seen known.entry)) }
    ensures kept { Grows types.old types.new }
{
    match part_of(finding, known, wished.operation, inside) {
        Some(part) => find_part(alloc, types, finding, id, known, part, wished.of),
        None => Ok(None),
    }
}

fn find_in(
    headed: Headed<'_>,
    types: &mut TypeArena,
    finding: &mut Finding,
    id: ModuleId,
    inside: bool,
    wished: Wished,
) -> Result<Option<FoundId>, Memory>
    ensures found { AreReady headed.entry types.old finding.old → IfOk result (Finds (length types.old) types.new finding.old finding.new (told_of headed.entry (types_of types.old) finding.old.words id inside wished)) }
    ensures ready { AreReady headed.entry types.old finding.old → OnOk result (AreReady headed.entry types.new finding.new) }
    ensures kept { Grows types.old types.new }
{
    match known_of(headed, id) {
        Some(known) => find_known(headed.file.alloc, types, finding, id, known, inside, wished),
        None => Ok(None),
    }
}

/// The operation of a built-in type; None without a name.
fn find_builtin(
    alloc: Global,
    types: &mut TypeArena,
    finding: &mut Finding,
    of: TypeId,
    operation: Option<NameId>,
) -> Result<Option<FoundId>, Memory>
    ensures found { of.0 < length types.old → ComponentsAscend (type_at (types_of types.old) of) → IfOk result (Finds (length types.old) types.new finding.old finding.new (builtin_by (type_at (types_of types.old) of) finding.old.words operation)) }
    ensures stays { IfOk result (λ found. Finds (length types.old) types.new finding.old finding.new (option_map (told (types_of types.new) finding.new) found) found) }
    ensures shown { OnOk result (finding.new.shown ≡ finding.old.shown) }
    ensures kept { Grows types.old types.new }
{
    match operation {
        Some(name) => builtin_found(alloc, types, finding, of, name),
        None => Ok(None),
    }
}

/// Looks for an operation or a module where it is wished.
#[tactic(auto, unfolding(crate::specs::Wished::wished_told))]
fn find(
    headed: Headed<'_>,
    types: &mut TypeArena,
    finding: &mut Finding,
    wished: Wished,
) -> Result<Option<FoundId>, Memory>
    ensures found { wished.of.0 < length types.old → AreReady headed.entry types.old finding.old → ComponentsAscend (type_at (types_of types.old) wished.of) → IfOk result (Finds (length types.old) types.new finding.old finding.new (wished_told headed.entry (types_of types.old) finding.old.words wished)) }
    ensures stays { AreReady headed.entry types.old finding.old → IfOk result (λ found. Finds (length types.old) types.new finding.old finding.new (option_map (told (types_of types.new) finding.new) found) found) }
    ensures ready { AreReady headed.entry types.old finding.old → OnOk result (AreReady headed.entry types.new finding.new) }
    ensures kept { Grows types.old types.new }
{
    match wished.view {
        View::Builtin => {
            find_builtin(
                headed.file.alloc,
                types,
                finding,
                wished.of,
                wished.operation,
            )
        }
        View::Inside(id) => find_in(headed, types, finding, id, true, wished),
        View::Outside(id) => find_in(headed, types, finding, id, false, wished),
    }
}

/// The same, noted.
fn find_first(
    headed: Headed<'_>,
    types: &mut TypeArena,
    finding: &mut Finding,
    wished: Wished,
) -> Result<Option<FoundId>, Memory>
    ensures found { wished.of.0 < length types.old → IsNameBelow (length finding.old.words) wished.operation → IsFinding headed.entry types.old finding.old → IfOk result (FindsOf headed.entry types.old types.new finding.old finding.new wished.of (wished_told headed.entry (types_of types.old) finding.old.words wished)) }
    ensures kept { Grows types.old types.new }
{
    let found = find(headed, types, finding, wished)?;
    finding.wished.insert(wished, found)?;
    Ok(found)
}

/// The same, looked for once.
fn find_once(
    headed: Headed<'_>,
    types: &mut TypeArena,
    finding: &mut Finding,
    wished: Wished,
) -> Result<Option<FoundId>, Memory>
    ensures found { wished.of.0 < length types.old → IsNameBelow (length finding.old.words) wished.operation → IsFinding headed.entry types.old finding.old → IfOk result (FindsOf headed.entry types.old types.new finding.old finding.new wished.of (wished_told headed.entry (types_of types.old) finding.old.words wished)) }
    ensures kept { Grows types.old types.new }
{
    match finding.wished.get(&wished).copied() {
        Some(found) => Ok(found),
        None => find_first(headed, types, finding, wished),
    }
}

// ---- at a node

/// The name of the cluster in which the node n stands.
fn name_round<'a>(headed: Headed<'a>, n: Option<u32>) -> Option<&'a Bytes>
    ensures { option_copied result ≡ name_round headed.entry.file n }
{
    let cluster = headed.file.round(n?).cluster?;
    headed.file.names(cluster).first()
}

fn is_inside(headed: Headed<'_>, n: Option<u32>, name: &Bytes) -> bool
    ensures { result ≡ is_inside headed.entry.file n name.now }
{
    match name_round(headed, n) {
        Some(own) => *own == *name,
        None => false,
    }
}

/// Users see what the first module of the name exports, the text of a cluster all its routines.
fn view_named(headed: Headed<'_>, n: Option<u32>, name: &Bytes) -> Option<View>
    ensures { result ≡ view_named headed.entry.file n name.now }
{
    if is_inside(headed, n, name) {
        Some(View::Inside(headed.file.unit_module(n?)?))
    } else {
        Some(View::Outside(headed.file.module_named(name)?))
    }
}

fn view_of(headed: Headed<'_>, types: &TypeArena, n: Option<u32>, of: TypeId) -> Option<View>
    ensures { result ≡ view_of headed.entry.file types.now n of }
{
    match cluster_name(types, of) {
        Some(name) => view_named(headed, n, name),
        None => None,
    }
}

/// Where a type has its operations at a node; a type parameter has none by itself.
fn view_at(headed: Headed<'_>, types: &TypeArena, n: Option<u32>, of: TypeId) -> Option<View>
    ensures { result ≡ view_at headed.entry.file types.now n of }
{
    match shape_of(types, of) {
        Shape::Builtin => Some(View::Builtin),
        Shape::Cluster => view_of(headed, types, n, of),
        Shape::Parameter(_) => None,
    }
}

/// An operation or a module, as it is seen at the node n or from outside.
#[tactic(auto, unfolding(crate::specs::Wished::told_seen))]
fn found_at(
    headed: Headed<'_>,
    types: &mut TypeArena,
    finding: &mut Finding,
    n: Option<u32>,
    of: TypeId,
    operation: Option<NameId>,
) -> Result<Option<FoundId>, Memory>
    ensures found { of.0 < length types.old → IsNameBelow (length finding.old.words) operation → IsFinding headed.entry types.old finding.old → IfOk result (FindsOf headed.entry types.old types.new finding.old finding.new of (told_seen headed.entry types.old finding.old.words n of operation)) }
    ensures kept { Grows types.old types.new }
{
    match view_at(headed, types, n, of) {
        Some(view) => {
            let wished = Wished {
                of,
                operation,
                view,
            };
            find_once(headed, types, finding, wished)
        }
        None => Ok(None),
    }
}

/// The operation of this name that a type has at the node n, for sugar and for `t$op`: inside a cluster all its routines
/// count. None if it has none.
#[tactic(auto, unfolding(crate::specs::Wished::told_at))]
pub fn operation_found(
    headed: Headed<'_>,
    types: &mut TypeArena,
    finding: &mut Finding,
    n: u32,
    of: TypeId,
    operation: NameId,
) -> Result<Option<FoundId>, Memory>
    ensures found { of.0 < length types.old → operation.0 < length finding.old.words → IsFinding headed.entry types.old finding.old → IfOk result (FindsOf headed.entry types.old types.new finding.old finding.new of (told_at headed.entry types.old finding.old.words n of operation)) }
    ensures kept { Grows types.old types.new }
{
    match shape_of(types, of) {
        Shape::Parameter(number) => Ok(given(headed, finding, n, number, operation)),
        Shape::Builtin => found_at(headed, types, finding, Some(n), of, Some(operation)),
        Shape::Cluster => found_at(headed, types, finding, Some(n), of, Some(operation)),
    }
}

/// The operation of this name by which a type that is no parameter meets what is asked: of a cluster its exported operations
/// count alone, wherever it is asked. What the operation asks in its turn is what it asks where it is found.
pub fn exported_operation(
    headed: Headed<'_>,
    types: &mut TypeArena,
    finding: &mut Finding,
    of: TypeId,
    operation: NameId,
) -> Result<Option<FoundId>, Memory>
    ensures found { of.0 < length types.old → operation.0 < length finding.old.words → IsFinding headed.entry types.old finding.old → IfOk result (FindsOf headed.entry types.old types.new finding.old finding.new of (told_seen headed.entry types.old finding.old.words None of (Some operation))) }
    ensures kept { Grows types.old types.new }
{
    found_at(headed, types, finding, None, of, Some(operation))
}

/// The module with actual parameters that stands in the arena as this cluster type. None if there is no module of its name.
pub fn module_found(
    headed: Headed<'_>,
    types: &mut TypeArena,
    finding: &mut Finding,
    of: TypeId,
) -> Result<Option<FoundId>, Memory>
    ensures found { of.0 < length types.old → IsFinding headed.entry types.old finding.old → IfOk result (FindsOf headed.entry types.old types.new finding.old finding.new of (told_seen headed.entry types.old finding.old.words None of None)) }
    ensures kept { Grows types.old types.new }
{
    found_at(headed, types, finding, None, of, None)
}
