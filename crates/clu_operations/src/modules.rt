//! The parts of modules: a module itself, and the routines of a cluster.

ghost use Rattle.std.specs.Prelude.{◌≡◌, ◌<◌, true, false, length, option_copied, option_map, slice_get, IfSome};
ghost use Rattle.std.specs.List.Sorted.{IsPartitionPoint};
ghost use Rattle.clu_operations.specs.Modules.{module_seen, known_of, routines_in, operations_in, routine_name, operation_name, if_seen, routine_named, IsNamed, IsPlaceIn, part_seen, of_routine, whole, own_part, operation_at, kept_routine, cluster_demands, kept_demands};
ghost use Rattle.clu_operations.specs.ByName.{AreAscending, is_below, if_named, first_named, item_at};

use clu_base::Bytes;
use clu_bindings::{Headed, ModuleId};
use clu_head::{Demanded, Head, HeadForm, RoutineHead};
use clu_types::{Demand, Form, OpSpec, Spec, TypeId};

/// What is known of a module: its head, if it is of the file, or what the library keeps.
#[derive(Clone, Copy)]
pub enum Known<'a> {
    Own(&'a Head),
    Kept(&'a Spec),
}

/// A part of a module.
#[derive(Clone, Copy)]
pub enum Part {
    /// The module itself.
    Itself,
    /// The routine at this place among those of a cluster, which ascend by name.
    Routine(usize),
}

/// What is known of a module.
pub fn known_of<'a>(headed: Headed<'a>, id: ModuleId) -> Option<Known<'a>>
    ensures { option_map module_seen result ≡ known_of headed.entry id }
{
    let own = headed.file.bindings.modules.of_file;
    if id.0 < own {
        Some(Known::Own(headed.heads.modules.as_slice().get(id.0 as usize)?))
    } else {
        Some(Known::Kept(headed.file.library.at(id.0 - own)?))
    }
}

/// The routines of a cluster of the file.
pub fn routines_in(form: &HeadForm) -> &[RoutineHead]
    ensures { result.now ≡ routines_in form.now }
{
    match form {
        HeadForm::Routine(_) => &[],
        HeadForm::Cluster(_, routines) => routines.as_slice(),
    }
}

/// The operations of a cluster of the library.
fn operations_in(form: &Form) -> &[OpSpec]
    ensures { result.now ≡ operations_in form.now }
{
    match form {
        Form::Routine(_) => &[],
        Form::Cluster(_, operations) => operations.as_slice(),
    }
}

/// Where the first of the routines begins whose name isn't below this one.
fn place_among(routines: &[RoutineHead], name: &Bytes) -> usize
    ensures { AreAscending routine_name routines.now → IsPartitionPoint (λ routine. is_below routine_name name.now routine ≡ true) (λ routine. is_below routine_name name.now routine ≡ false) routines.now result }
{
    routines.partition_point(
        |one: &RoutineHead| -> bool
            ensures { result ≡ is_below routine_name name.entry.now one.now }
        { one.name.cmp(name).is_lt() },
    )
}

/// The place of a routine, if it has this name and is seen.
fn own_if_named(routines: &[RoutineHead], place: usize, name: &Bytes, inside: bool) -> Option<usize>
    ensures { item_at routines.now result ≡ if_seen inside (if_named routine_name name.now (slice_get routines.now place)) }
{
    let routine = routines.get(place)?;
    if routine.name == *name && (inside || routine.exported) {
        Some(place)
    } else {
        None
    }
}

/// The place of the routine of this name in a cluster of the file.
fn own_named(routines: &[RoutineHead], name: &Bytes, inside: bool) -> Option<usize>
    ensures { AreAscending routine_name routines.now → item_at routines.now result ≡ routine_named inside name.now routines.now }
{
    own_if_named(routines, place_among(routines, name), name, inside)
}

fn place_among_kept(operations: &[OpSpec], name: &Bytes) -> usize
    ensures { AreAscending operation_name operations.now → IsPartitionPoint (λ operation. is_below operation_name name.now operation ≡ true) (λ operation. is_below operation_name name.now operation ≡ false) operations.now result }
{
    operations.partition_point(
        |one: &OpSpec| -> bool
            ensures { result ≡ is_below operation_name name.entry.now one.now }
        { one.name.cmp(name).is_lt() },
    )
}

fn kept_if_named(operations: &[OpSpec], place: usize, name: &Bytes) -> Option<usize>
    ensures named { item_at operations.now result ≡ if_named operation_name name.now (slice_get operations.now place) }
    ensures there { IfSome result (λ found. found < length operations.now) }
{
    if operations.get(place)?.name == *name {
        Some(place)
    } else {
        None
    }
}

/// The place of the operation of this name in a cluster of the library, of which only those that are exported are known.
fn kept_named(operations: &[OpSpec], name: &Bytes) -> Option<usize>
    ensures named { AreAscending operation_name operations.now → item_at operations.now result ≡ first_named operation_name name.now operations.now }
    ensures there { IfSome result (λ place. place < length operations.now) }
{
    kept_if_named(operations, place_among_kept(operations, name), name)
}

/// The place of the routine of this name in a cluster, if it is exported or seen from inside.
pub fn part_named(known: Known<'_>, name: &Bytes, inside: bool) -> Option<usize>
    ensures named { IsNamed (module_seen known.entry) name.now inside result }
    ensures there { IfSome result (IsPlaceIn (module_seen known.entry)) }
{
    match known {
        Known::Own(head) => own_named(routines_in(&head.form), name, inside),
        Known::Kept(spec) => kept_named(operations_in(&spec.form), name),
    }
}

/// A part of a module of the file: its type, None of a cluster, and what it asks.
#[derive(Clone, Copy)]
pub struct OwnPart<'a> {
    pub of: Option<TypeId>,
    pub demands: &'a [Demanded],
}

pub fn of_routine(routine: &RoutineHead) -> OwnPart<'_>
    ensures { part_seen result ≡ of_routine routine.now }
{
    OwnPart {
        of: routine.of_type,
        demands: routine.demands.as_slice(),
    }
}

/// The module itself.
pub fn whole(form: &HeadForm) -> OwnPart<'_>
    ensures { part_seen result ≡ whole form.now }
{
    match form {
        HeadForm::Routine(routine) => of_routine(routine),
        HeadForm::Cluster(demands, _) => OwnPart {
            of: None,
            demands: demands.as_slice(),
        },
    }
}

/// A part of a module of the file.
pub fn own_part(form: &HeadForm, part: Part) -> Option<OwnPart<'_>>
    ensures { option_map part_seen result ≡ own_part form.now part }
{
    match part {
        Part::Routine(place) => Some(of_routine(routines_in(form).get(place)?)),
        Part::Itself => Some(whole(form)),
    }
}

/// The operation that a part of a cluster of the library is.
fn operation_at(operations: &[OpSpec], part: Part) -> Option<&OpSpec>
    ensures { option_copied result ≡ operation_at operations.now part }
{
    match part {
        Part::Routine(place) => operations.get(place),
        Part::Itself => None,
    }
}

/// The routine that a part of a module of the library is.
pub fn kept_routine(form: &Form, part: Part) -> Option<&OpSpec>
    ensures { option_copied result ≡ kept_routine form.now part }
{
    match form {
        Form::Routine(operation) => Some(operation),
        Form::Cluster(_, operations) => operation_at(operations.as_slice(), part),
    }
}

/// What a cluster of the library asks itself.
fn cluster_demands(form: &Form) -> &[Demand]
    ensures { result.now ≡ cluster_demands form.now }
{
    match form {
        Form::Routine(_) => &[],
        Form::Cluster(demands, _) => demands.as_slice(),
    }
}

/// What a part of a module of the library asks.
pub fn kept_demands(form: &Form, part: Part) -> &[Demand]
    ensures { result.now ≡ kept_demands form.now part }
{
    match kept_routine(form, part) {
        Some(operation) => operation.demands.as_slice(),
        None => cluster_demands(form),
    }
}
