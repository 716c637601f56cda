//! Terms with the numbers of a table for their parts, and actuals put in for constant parameters.
//! The entry of a number in a table is what it becomes; a number that has none stays.

ghost use Rattle.std.specs.Prelude.{◌≡◌, map, IfOk};
ghost use Rattle.clu_types.specs.Numbering.{numbers_of};
ghost use Rattle.clu_types.specs.Renumbered.{number_in, field_in, signal_in, heading_in, actual_in, term_in};

use crate::actuals::constant_actual;
use crate::numbering::Numbering;
use crate::term::{Actual, Exception, Field, Heading, Term, TypeId};
use clu_base::{Memory, Sequence};
use std::alloc::Global;

fn ids(alloc: Global, table: &Numbering, old: &[TypeId]) -> Result<Sequence<TypeId>, Memory>
    ensures { IfOk result (λ made. made ≡ map (number_in (numbers_of table.now)) old.now) }
{
    let mut made = Vec::new(alloc);
    for id in old {
        made.push(table.of(*id))?;
    }
    Ok(Sequence::from_vec(made))
}

fn fields(alloc: Global, table: &Numbering, old: &[Field]) -> Result<Sequence<Field>, Memory>
    ensures { IfOk result (λ made. made ≡ map (field_in (numbers_of table.now)) old.now) }
{
    let mut made = Vec::new(alloc);
    for field in old {
        made.push(Field {
            name: field.name.copy(alloc)?,
            of: table.of(field.of),
        })?;
    }
    Ok(Sequence::from_vec(made))
}

/// An exception with the numbers of the table.
pub fn signal(alloc: Global, table: &Numbering, old: &Exception) -> Result<Exception, Memory>
    ensures { IfOk result (λ made. made ≡ signal_in (numbers_of table.now) old.now) }
{
    Ok(Exception {
        name: old.name.copy(alloc)?,
        objects: ids(alloc, table, old.objects.as_slice())?,
    })
}

fn signals(
    alloc: Global,
    table: &Numbering,
    old: &[Exception],
) -> Result<Sequence<Exception>, Memory>
    ensures { IfOk result (λ made. made ≡ map (signal_in (numbers_of table.now)) old.now) }
{
    let mut made = Vec::new(alloc);
    for one in old {
        made.push(signal(alloc, table, one)?)?;
    }
    Ok(Sequence::from_vec(made))
}

/// A heading with the numbers of the table.
pub fn heading(alloc: Global, table: &Numbering, old: &Heading) -> Result<Heading, Memory>
    ensures { IfOk result (λ made. made ≡ heading_in (numbers_of table.now) old.now) }
{
    Ok(Heading {
        args: ids(alloc, table, old.args.as_slice())?,
        results: ids(alloc, table, old.results.as_slice())?,
        signals: signals(alloc, table, old.signals.as_slice())?,
    })
}

fn actual(
    alloc: Global,
    table: &Numbering,
    given: &[Actual],
    old: &Actual,
) -> Result<Actual, Memory>
    ensures { IfOk result (λ made. made ≡ actual_in (numbers_of table.now) given.now old.now) }
{
    match old {
        Actual::Of(id) => Ok(Actual::Of(table.of(*id))),
        Actual::Const(c) => Ok(Actual::Const(c.copy(alloc)?)),
        Actual::ConstParam(n) => constant_actual(alloc, given, *n),
    }
}

fn actuals(
    alloc: Global,
    table: &Numbering,
    given: &[Actual],
    old: &[Actual],
) -> Result<Sequence<Actual>, Memory>
    ensures { IfOk result (λ made. made ≡ map (actual_in (numbers_of table.now) given.now) old.now) }
{
    let mut made = Vec::new(alloc);
    for one in old {
        made.push(actual(alloc, table, given, one)?)?;
    }
    Ok(Sequence::from_vec(made))
}

/// A term with the numbers of the table for its parts, and what is given for constant parameters among them.
pub fn renumbered(
    alloc: Global,
    table: &Numbering,
    given: &[Actual],
    term: &Term,
) -> Result<Term, Memory>
    ensures { IfOk result (λ made. made ≡ term_in (numbers_of table.now) given.now term.now) }
{
    match term {
        Term::Null => Ok(Term::Null),
        Term::Bool => Ok(Term::Bool),
        Term::Int => Ok(Term::Int),
        Term::Char => Ok(Term::Char),
        Term::Str => Ok(Term::Str),
        Term::Any => Ok(Term::Any),
        Term::Stream => Ok(Term::Stream),
        Term::Array(of) => Ok(Term::Array(table.of(*of))),
        Term::Sequence(of) => Ok(Term::Sequence(table.of(*of))),
        Term::Record(old) => Ok(Term::Record(fields(alloc, table, old.as_slice())?)),
        Term::Struct(old) => Ok(Term::Struct(fields(alloc, table, old.as_slice())?)),
        Term::Oneof(old) => Ok(Term::Oneof(fields(alloc, table, old.as_slice())?)),
        Term::Variant(old) => Ok(Term::Variant(fields(alloc, table, old.as_slice())?)),
        Term::Proc(old) => Ok(Term::Proc(heading(alloc, table, old)?)),
        Term::Iter(old) => Ok(Term::Iter(heading(alloc, table, old)?)),
        Term::Cluster(name, old) => Ok(Term::Cluster(
            name.copy(alloc)?,
            actuals(alloc, table, given, old.as_slice())?,
        )),
        Term::Param(n) => Ok(Term::Param(*n)),
    }
}
