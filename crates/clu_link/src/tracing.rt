//! The map by which a run of an image shows which instances are live: where the search part is entered, and for each
//! instance its link table and its name.

ghost use Rattle.std.specs.Prelude.{◌↔◌, IsTrue, length};
ghost use Rattle.clu_specs.specs.Uses.{TargetBelow};

use crate::places::Places;
use clu_base::{Bytes, Sequence};
use clu_core::term;
use clu_reach::{LinkError, Member, Program, SET_UP, copied};
use clu_specs::{Target, use_text};
use clu_trace::{Instance, TraceMap};
use clu_types::{Term, TypeArena, TypeId};
use indexmap::IndexSet;
use rv_select::Part;
use std::alloc::Global;

/// The most iterators that one loops over through another: `elements`, `indexes`, `from_to` and `from_to_by`.
const DEEPEST: usize = 4;

/// The map of a program whose first callables are these members.
pub fn map_of(
    alloc: Global,
    program: &Program<'_>,
    members: &IndexSet<Member>,
    places: &Places,
) -> Result<TraceMap, LinkError> {
    let search = places.entry(Part::Search.number() as usize)?;
    let names = names_of(alloc, &program.types, members)?;
    let instances = instances_of(alloc, program, members, places)?;
    Ok(TraceMap {
        search,
        names: Sequence::from_vec(names),
        instances: Sequence::from_vec(instances),
    })
}

/// The names of members, each as the text of its use.
fn names_of(
    alloc: Global,
    types: &TypeArena,
    members: &IndexSet<Member>,
) -> Result<Vec<Bytes>, LinkError> {
    let mut names = Vec::new(alloc);
    for member in members {
        names.push(name_of(alloc, types, member)?)?;
    }
    Ok(names)
}

fn name_of(alloc: Global, types: &TypeArena, member: &Member) -> Result<Bytes, LinkError> {
    let target = target_of(alloc, member)?;
    if !is_known(types, &target) {
        return Err(LinkError::NotYet);
    }
    Ok(use_text(alloc, types, &target)?)
}

/// What the name of a member names. The setting up of a cluster's own variables is told as an operation of the cluster.
fn target_of(alloc: Global, member: &Member) -> Result<Target, LinkError> {
    match member {
        Member::Module(name, actuals) => {
            let actuals = copied(alloc, actuals.as_slice())?;
            Ok(Target::Module(name.copy(alloc)?, Sequence::from_vec(actuals)))
        }
        Member::Op(of, op) => Ok(Target::Op(*of, op.copy(alloc)?)),
        Member::OwnSetUp(of) => Ok(Target::Op(*of, Bytes::from_slice(alloc, SET_UP)?)),
        Member::ForceOf(of) => Ok(Target::ForceOf(*of)),
    }
}

/// Whether the types that a use names are numbers of the arena.
fn is_known(types: &TypeArena, target: &Target) -> bool
    ensures { IsTrue result ↔ TargetBelow (length types.now) target.now }
{
    match target {
        Target::Module(_, actuals) => types.holds_actuals(actuals.as_slice()),
        Target::Op(of, _) => types.contains(*of),
        Target::OwnSetUp(of) => types.contains(*of),
        Target::ForceOf(of) => types.contains(*of),
    }
}

/// The instances, with the numbers of their names.
fn instances_of(
    alloc: Global,
    program: &Program<'_>,
    members: &IndexSet<Member>,
    places: &Places,
) -> Result<Vec<Instance>, LinkError> {
    let mut instances = Vec::new(alloc);
    for number in 0..members.len() {
        let entries = entries_of(alloc, program, members, number)?;
        instances.push(Instance {
            table: places.table(number)?,
            entries: Sequence::from_vec(entries),
        })?;
    }
    Ok(instances)
}

/// The instances that the frame of one tells, the latest begun first.
fn entries_of(
    alloc: Global,
    program: &Program<'_>,
    members: &IndexSet<Member>,
    number: usize,
) -> Result<Vec<u32>, LinkError> {
    let mut entries = Vec::new(alloc);
    let mut next = Some(number);
    for _ in 0..DEEPEST {
        let Some(number) = next else {
            break;
        };
        entries.push(as_entry(number)?)?;
        next = loop_in_place(program, members, number)?;
    }
    entries.reverse();
    Ok(entries)
}

fn as_entry(number: usize) -> Result<u32, LinkError> {
    match u32::try_from(number) {
        Ok(entry) => Ok(entry),
        Err(_) => Err(LinkError::NotYet),
    }
}

/// The iterator whose loop stands in the code of an instance in place of a call. It is the first that the instance uses.
fn loop_in_place(
    program: &Program<'_>,
    members: &IndexSet<Member>,
    number: usize,
) -> Result<Option<usize>, LinkError> {
    match members.get_index(number) {
        Some(Member::Op(of, op)) => {
            if has_loop_in_place(&program.types, *of, op)? {
                first_used(program, number)
            } else {
                Ok(None)
            }
        }
        _ => Ok(None),
    }
}

fn first_used(program: &Program<'_>, number: usize) -> Result<Option<usize>, LinkError> {
    match program.callables.get(number) {
        Some(callable) => Ok(callable.uses.first().copied()),
        None => Err(LinkError::NotYet),
    }
}

/// Whether the text of an operation loops over another iterator whose loop stands in its code.
fn has_loop_in_place(types: &TypeArena, of: TypeId, op: &Bytes) -> Result<bool, LinkError> {
    let name = op.as_slice();
    match term(types, of)? {
        Term::Int => Ok(name == b"from_to".as_slice()),
        Term::Str => Ok(name == b"chars".as_slice()),
        Term::Array(_) | Term::Sequence(_) => {
            Ok(name == b"indexes".as_slice() || name == b"elements".as_slice())
        }
        _ => Ok(false),
    }
}
