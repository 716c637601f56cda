//! The types that a routine names, and the parts of a type.

ghost use Rattle.std.specs.Prelude.{◌≡◌, fold, OnOk};
ghost use Rattle.clu_sound.specs.Parts.{with_id, with_field, with_objects, with_actual, with_heading, with_wanted, with_op, with_parts};

use clu_base::Memory;
use clu_types::{Actual, Demand, Exception, Field, Heading, OpSpec, Term, TypeId};
use indexmap::IndexSet;

fn add(ids: &mut IndexSet<TypeId>, id: TypeId) -> Result<(), Memory>
    ensures { OnOk result (ids.new.keys ≡ with_id ids.old.keys id) }
{
    ids.insert(id)?;
    Ok(())
}

fn add_all(ids: &mut IndexSet<TypeId>, more: &[TypeId]) -> Result<(), Memory>
    ensures { OnOk result (ids.new.keys ≡ fold with_id ids.old.keys more.now) }
{
    for id in more {
        add(ids, *id)?;
    }
    Ok(())
}

fn add_fields(ids: &mut IndexSet<TypeId>, fields: &[Field]) -> Result<(), Memory>
    ensures { OnOk result (ids.new.keys ≡ fold with_field ids.old.keys fields.now) }
{
    for field in fields {
        add(ids, field.of)?;
    }
    Ok(())
}

fn add_objects(ids: &mut IndexSet<TypeId>, signals: &[Exception]) -> Result<(), Memory>
    ensures { OnOk result (ids.new.keys ≡ fold with_objects ids.old.keys signals.now) }
{
    for signal in signals {
        add_all(ids, signal.objects.as_slice())?;
    }
    Ok(())
}

fn add_heading(ids: &mut IndexSet<TypeId>, heading: &Heading) -> Result<(), Memory>
    ensures { OnOk result (ids.new.keys ≡ with_heading ids.old.keys heading.now) }
{
    add_all(ids, heading.args.as_slice())?;
    add_all(ids, heading.results.as_slice())?;
    add_objects(ids, heading.signals.as_slice())
}

fn add_actuals(ids: &mut IndexSet<TypeId>, actuals: &[Actual]) -> Result<(), Memory>
    ensures { OnOk result (ids.new.keys ≡ fold with_actual ids.old.keys actuals.now) }
{
    for actual in actuals {
        add_actual(ids, actual)?;
    }
    Ok(())
}

fn add_actual(ids: &mut IndexSet<TypeId>, actual: &Actual) -> Result<(), Memory>
    ensures { OnOk result (ids.new.keys ≡ with_actual ids.old.keys actual.now) }
{
    match actual {
        Actual::Of(id) => add(ids, *id),
        Actual::Const(_) => Ok(()),
        Actual::ConstParam(_) => Ok(()),
    }
}

/// Adds the types that are demanded.
pub fn add_wanted(ids: &mut IndexSet<TypeId>, demands: &[Demand]) -> Result<(), Memory>
    ensures { OnOk result (ids.new.keys ≡ fold with_wanted ids.old.keys demands.now) }
{
    for demand in demands {
        add(ids, demand.wanted)?;
    }
    Ok(())
}

/// Adds the types of a routine's heading and demands.
pub fn add_op(ids: &mut IndexSet<TypeId>, op: &OpSpec) -> Result<(), Memory>
    ensures { OnOk result (ids.new.keys ≡ with_op ids.old.keys op.now) }
{
    add_heading(ids, &op.heading)?;
    add_wanted(ids, op.demands.as_slice())
}

/// Adds the parts of a type.
pub fn add_parts(ids: &mut IndexSet<TypeId>, term: &Term) -> Result<(), Memory>
    ensures { OnOk result (ids.new.keys ≡ with_parts ids.old.keys term.now) }
{
    match term {
        Term::Array(of) => add(ids, *of),
        Term::Sequence(of) => add(ids, *of),
        Term::Record(fields) => add_fields(ids, fields.as_slice()),
        Term::Struct(fields) => add_fields(ids, fields.as_slice()),
        Term::Oneof(fields) => add_fields(ids, fields.as_slice()),
        Term::Variant(fields) => add_fields(ids, fields.as_slice()),
        Term::Proc(heading) => add_heading(ids, heading),
        Term::Iter(heading) => add_heading(ids, heading),
        Term::Cluster(_, actuals) => add_actuals(ids, actuals.as_slice()),
        Term::Null
        | Term::Bool
        | Term::Int
        | Term::Char
        | Term::Str
        | Term::Any
        | Term::Stream
        | Term::Param(_) => Ok(()),
    }
}
