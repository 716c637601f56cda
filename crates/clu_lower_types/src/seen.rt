//! Headings of operations as those see them who invoke them by sugar: of a cluster's operation, and of one that a where
//! clause gives of a type parameter. Each stands in an arena of its own, with the cluster's actual parameters put in.

use crate::errors::{LowerError, Result};
use crate::fixed::Fixed;
use crate::headings::{exported_operation, routine_of};
use crate::types::operation_of;
use crate::written::written_heading;
use clu_base::{Bytes, Sequence};
use clu_core::{Checked, OpRef, carry, term};
use clu_types::{Actual, Exception, Heading, Term, TypeArena, TypeId};
use std::alloc::Global;
use std::boxed::Box;

/// A heading with the arena of its types.
#[derive(Drop)]
pub struct Seen {
    pub types: Box<TypeArena>,
    pub heading: Box<Heading>,
}

/// The heading of the operation that the sugar at a node invokes; None for one of a built-in type.
pub fn seen_at(fixed: &Fixed, n: u32) -> Result<Option<Seen>> {
    let types = &fixed.c.types;
    match operation_of(fixed.c, n) {
        Some(OpRef::Builtin(_, _)) => Ok(None),
        Some(OpRef::Cluster(of, op)) => Ok(Some(of_cluster(fixed.alloc, fixed.c, types, *of, op)?)),
        Some(OpRef::Param(param, op)) => Ok(Some(given(fixed, *param, op)?)),
        _ => Err(LowerError::NotYet),
    }
}

/// The heading of the operation of this name of a type of the arena; None for one of a built-in type.
pub fn seen_of(fixed: &Fixed, types: &TypeArena, of: TypeId, op: &Bytes) -> Result<Option<Seen>> {
    match term(types, of)? {
        Term::Cluster(_, _) => Ok(Some(of_cluster(fixed.alloc, fixed.c, types, of, op)?)),
        Term::Param(param) => Ok(Some(given(fixed, *param, op)?)),
        _ => Ok(None),
    }
}

/// What a where clause gives, with the parameters as they are.
fn given(fixed: &Fixed, param: u32, op: &Bytes) -> Result<Seen> {
    let Some(wanted) = fixed.given(param, op) else {
        return Err(LowerError::NotYet);
    };
    let mut types = Box::new(fixed.alloc, TypeArena::new(fixed.alloc))?;
    let of = carry(fixed.alloc, &mut types, &fixed.given_types, wanted, &[])?;
    let heading = copied_heading(fixed.alloc, &types, of)?;
    Ok(Seen { types, heading })
}

/// The heading of a routine's type.
fn copied_heading(alloc: Global, types: &TypeArena, of: TypeId) -> Result<Box<Heading>> {
    match term(types, of)? {
        Term::Proc(heading) => Ok(Box::new(alloc, heading.copy(alloc)?)?),
        Term::Iter(heading) => Ok(Box::new(alloc, heading.copy(alloc)?)?),
        _ => Err(LowerError::NotYet),
    }
}

/// An operation that is exported is in the cluster's specification, any other in the cluster's text.
fn of_cluster(
    alloc: Global,
    c: &Checked,
    from: &TypeArena,
    of: TypeId,
    op: &Bytes,
) -> Result<Seen> {
    let mut sealed = sealed_type(alloc, from, of)?;
    match exported_operation(c, &sealed.name, op) {
        Some((from, heading)) => sealed.put_into(alloc, from, heading),
        None => {
            let routine = routine_of(c, &sealed.name, op)?;
            let heading = written_heading(alloc, c, routine, &mut sealed)?;
            let Sealed { types, .. } = sealed;
            Ok(Seen { types, heading })
        }
    }
}

/// The type of a cluster in an arena of its own.
#[derive(Drop)]
pub struct Sealed {
    pub types: Box<TypeArena>,
    pub of: TypeId,
    pub name: Bytes,
    pub actuals: Vec<Actual>,
}

fn sealed_type(alloc: Global, from: &TypeArena, of: TypeId) -> Result<Sealed> {
    let mut types = Box::new(alloc, TypeArena::new(alloc))?;
    let of = carry(alloc, &mut types, from, of, &[])?;
    let Term::Cluster(name, actuals) = term(&types, of)? else {
        return Err(LowerError::NotYet);
    };
    let name = name.copy(alloc)?;
    let actuals = copied_actuals(alloc, actuals.as_slice())?;
    Ok(Sealed {
        types,
        of,
        name,
        actuals,
    })
}

impl Sealed {
    /// A heading of the cluster's specification with the actuals put in.
    fn put_into(self, alloc: Global, from: &TypeArena, heading: &Heading) -> Result<Seen> {
        let Sealed {
            mut types,
            actuals,
            ..
        } = self;
        let heading = carried(alloc, &mut types, from, heading, actuals.as_slice())?;
        let heading = Box::new(alloc, heading)?;
        Ok(Seen { types, heading })
    }
}

fn copied_actuals(alloc: Global, actuals: &[Actual]) -> Result<Vec<Actual>> {
    let mut copied = Vec::new(alloc);
    for actual in actuals {
        copied.push(actual.copy(alloc)?)?;
    }
    Ok(copied)
}

/// A heading of another arena with actuals of this one put in; without actuals the parameters stay.
pub fn carried(
    alloc: Global,
    types: &mut TypeArena,
    from: &TypeArena,
    heading: &Heading,
    actuals: &[Actual],
) -> Result<Heading> {
    let args = carried_types(alloc, types, from, heading.args.as_slice(), actuals)?;
    let results = carried_types(alloc, types, from, heading.results.as_slice(), actuals)?;
    let signals = carried_signals(alloc, types, from, heading.signals.as_slice(), actuals)?;
    Ok(Heading {
        args,
        results,
        signals,
    })
}

fn carried_signals(
    alloc: Global,
    types: &mut TypeArena,
    from: &TypeArena,
    signals: &[Exception],
    actuals: &[Actual],
) -> Result<Sequence<Exception>> {
    let mut made = Vec::new(alloc);
    for signal in signals {
        made.push(carried_signal(alloc, types, from, signal, actuals)?)?;
    }
    Ok(Sequence::from_vec(made))
}

fn carried_signal(
    alloc: Global,
    types: &mut TypeArena,
    from: &TypeArena,
    signal: &Exception,
    actuals: &[Actual],
) -> Result<Exception> {
    let name = signal.name.copy(alloc)?;
    let objects = carried_types(alloc, types, from, signal.objects.as_slice(), actuals)?;
    Ok(Exception { name, objects })
}

fn carried_types(
    alloc: Global,
    types: &mut TypeArena,
    from: &TypeArena,
    ids: &[TypeId],
    actuals: &[Actual],
) -> Result<Sequence<TypeId>> {
    let mut made = Vec::new(alloc);
    for id in ids {
        made.push(carry(alloc, types, from, *id, actuals)?)?;
    }
    Ok(Sequence::from_vec(made))
}
