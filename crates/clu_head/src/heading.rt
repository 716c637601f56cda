//! The types of routines as callers see them.

ghost use Rattle.std.specs.Prelude.{◌≡◌, IfOk, slice_get};
ghost use Rattle.std.specs.List.{list_any};
ghost use Rattle.clu_syntax.specs.Splits.{children_of};
ghost use Rattle.clu_types.specs.Arena.{Grows};
ghost use Rattle.clu_head.specs.Outside.{heading_outside};
ghost use Rattle.clu_head.specs.Terms.{is_of_type, is_there_of_type, is_refused_part, is_refused_heading, term_of, routine_term, IsNumbered};

use crate::known::{Known, interned};
use crate::lists::{arguments_of, signals_of, types_of};
use crate::refusals::is_refused;
use clu_base::Memory;
use clu_syntax::{Routine, RoutineKind};
use clu_tree::{NodeKind, Tree};
use clu_types::{Heading, Term, TypeArena, TypeId};

/// Whether a part of this kind of a routine makes its type.
fn is_of_type(kind: NodeKind) -> bool
    ensures { result ≡ is_of_type kind }
{
    match kind {
        NodeKind::Decl | NodeKind::Results | NodeKind::Signals => true,
        _ => false,
    }
}

/// The same of the node n.
fn is_there_of_type(tree: &Tree, n: u32) -> bool
    ensures { result ≡ is_there_of_type (slice_get tree.now n) }
{
    if n < tree.len() {
        is_of_type(tree.node(n).kind)
    } else {
        false
    }
}

/// Whether the node n makes a routine's type, and a type of it is refused where it stands.
#[tactic(auto, unfolding(crate::specs::Terms::is_refused_part))]
fn is_refused_part(known: Known<'_>, n: u32) -> bool
    ensures { result ≡ is_refused_part known.entry.syntax.now known.entry.refused.now known.entry.rounds.now n }
{
    is_there_of_type(known.syntax.tree(), n) && is_refused(known.refused, known.rounds, n)
}

/// Whether a type of the arguments, results or signals among these children of a Routine is refused where it stands.
fn is_refused_in(known: Known<'_>, mut children: &[u32]) -> bool
    ensures { result ≡ list_any (is_refused_part known.entry.syntax.now known.entry.refused.now known.entry.rounds.now) children.entry.now }
{
    while let [n, rest @ ..] = children {
        if is_refused_part(known, *n) {
            return true;
        }
        children = rest;
    }
    false
}

/// The same of the Routine n.
fn is_refused_heading(known: Known<'_>, n: u32) -> bool
    ensures { result ≡ is_refused_heading known.entry.syntax.now known.entry.refused.now known.entry.rounds.now n }
{
    if n < known.syntax.tree().len() {
        is_refused_in(known, known.syntax.tree().node(n).children.as_slice())
    } else {
        false
    }
}

/// The heading of a routine by the types at its nodes.
fn heading_with(
    known: Known<'_>,
    own: Option<TypeId>,
    routine: Routine<'_>,
) -> Result<Option<Heading>, Memory>
    ensures { IfOk result (λ found. found ≡ heading_outside own known.entry.syntax.now known.entry.values.now routine.entry.arguments.now routine.entry.results.now routine.entry.exceptions.now) }
{
    let Some(args) = arguments_of(known, own, routine.arguments)? else {
        return Ok(None);
    };
    let Some(results) = types_of(known, own, routine.results)? else {
        return Ok(None);
    };
    let Some(signals) = signals_of(known, own, routine.exceptions)? else {
        return Ok(None);
    };
    Ok(Some(Heading {
        args,
        results,
        signals,
    }))
}

fn term_of(kind: RoutineKind, heading: Heading) -> Term
    ensures { result ≡ term_of kind heading }
{
    match kind {
        RoutineKind::Procedure => Term::Proc(heading),
        RoutineKind::Iterator => Term::Iter(heading),
    }
}

/// The type of the Routine n, where `cvt` stands for the type `own`; None if a type of it is refused or lost.
pub fn type_of_routine(
    known: Known<'_>,
    types: &mut TypeArena,
    own: Option<TypeId>,
    routine: Routine<'_>,
    n: u32,
) -> Result<Option<TypeId>, Memory>
    ensures numbered { IfOk result (λ found. IsNumbered types.old types.new (routine_term (is_refused_heading known.entry.syntax.now known.entry.refused.now known.entry.rounds.now n) routine.entry.kind (heading_outside own known.entry.syntax.now known.entry.values.now routine.entry.arguments.now routine.entry.results.now routine.entry.exceptions.now)) found) }
    ensures kept { Grows types.old types.new }
{
    if is_refused_heading(known, n) {
        return Ok(None);
    }
    match heading_with(known, own, routine)? {
        Some(heading) => interned(types, term_of(routine.kind, heading)),
        None => Ok(None),
    }
}
