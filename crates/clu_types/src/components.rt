//! The types that a term is made of, by their numbers, in the order in which it has them.

ghost use Rattle.std.specs.Prelude.{◌≡◌, ◌++◌, OnOk, IfOk};
ghost use Rattle.clu_types.specs.PartsOf.{field_parts, signal_parts, heading_parts, actual_part, actual_parts, parts_of};

use crate::term::{Actual, Exception, Field, Heading, Term, TypeId};
use clu_base::Memory;
use std::alloc::Global;

fn push_ids(parts: &mut Vec<TypeId>, ids: &[TypeId]) -> Result<(), Memory>
    ensures { OnOk result (parts.new.items ≡ parts.old.items ++ ids.now) }
{
    parts.extend_from_slice(ids)?;
    Ok(())
}

fn push_fields(parts: &mut Vec<TypeId>, fields: &[Field]) -> Result<(), Memory>
    ensures { OnOk result (parts.new.items ≡ parts.old.items ++ field_parts fields.now) }
{
    for field in fields {
        parts.push(field.of)?;
    }
    Ok(())
}

fn push_signals(parts: &mut Vec<TypeId>, signals: &[Exception]) -> Result<(), Memory>
    ensures { OnOk result (parts.new.items ≡ parts.old.items ++ signal_parts signals.now) }
{
    for signal in signals {
        push_ids(parts, signal.objects.as_slice())?;
    }
    Ok(())
}

fn push_heading(parts: &mut Vec<TypeId>, heading: &Heading) -> Result<(), Memory>
    ensures { OnOk result (parts.new.items ≡ parts.old.items ++ heading_parts heading.now) }
{
    push_ids(parts, heading.args.as_slice())?;
    push_ids(parts, heading.results.as_slice())?;
    push_signals(parts, heading.signals.as_slice())
}

fn push_actual(parts: &mut Vec<TypeId>, actual: &Actual) -> Result<(), Memory>
    ensures { OnOk result (parts.new.items ≡ parts.old.items ++ actual_part actual.now) }
{
    match actual {
        Actual::Of(id) => parts.push(*id)?,
        Actual::Const(_) | Actual::ConstParam(_) => {}
    }
    Ok(())
}

fn push_actuals(parts: &mut Vec<TypeId>, actuals: &[Actual]) -> Result<(), Memory>
    ensures { OnOk result (parts.new.items ≡ parts.old.items ++ actual_parts actuals.now) }
{
    for actual in actuals {
        push_actual(parts, actual)?;
    }
    Ok(())
}

fn push_parts(parts: &mut Vec<TypeId>, term: &Term) -> Result<(), Memory>
    ensures { OnOk result (parts.new.items ≡ parts.old.items ++ parts_of term.now) }
{
    match term {
        Term::Array(of) | Term::Sequence(of) => parts.push(*of)?,
        Term::Record(fields) | Term::Struct(fields) | Term::Oneof(fields) | Term::Variant(fields) =>
            { push_fields(parts, fields.as_slice())? }
        Term::Proc(heading) | Term::Iter(heading) => push_heading(parts, heading)?,
        Term::Cluster(_, actuals) => push_actuals(parts, actuals.as_slice())?,
        Term::Null
        | Term::Bool
        | Term::Int
        | Term::Char
        | Term::Str
        | Term::Any
        | Term::Stream
        | Term::Param(_) => {}
    }
    Ok(())
}

/// The parts of a term.
pub fn parts_of(alloc: Global, term: &Term) -> Result<Vec<TypeId>, Memory>
    ensures { IfOk result (λ parts. parts.items ≡ parts_of term.now) }
{
    let mut parts = Vec::new(alloc);
    push_parts(&mut parts, term)?;
    Ok(parts)
}
