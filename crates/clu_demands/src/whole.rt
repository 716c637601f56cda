//! Whether the types that a specification names are those of its own arena.

ghost use Rattle.std.specs.Prelude.{◌↔◌, length, IsTrue};
ghost use Rattle.clu_types.specs.Arena.{AreBelow, SignalsBelow, HeadingBelow};
ghost use Rattle.clu_specs.specs.Specifications.{DemandsBelow, OpBelow, OpsBelow, SpecHolds};

use clu_types::{Demand, Exception, Form, Heading, OpSpec, Spec, TypeArena, TypeId};

/// Whether the types that the specification names are those of its own arena, as of all that a library keeps.
pub fn is_whole(s: &Spec) -> bool
    ensures { IsTrue result ↔ SpecHolds s.now }
{
    match &s.form {
        Form::Routine(op) => is_whole_op(&s.types, op),
        Form::Cluster(demands, ops) => {
            holds_demands(&s.types, demands.as_slice()) && holds_ops(&s.types, ops.as_slice())
        }
    }
}

fn holds_ids(types: &TypeArena, ids: &[TypeId]) -> bool
    ensures { IsTrue result ↔ AreBelow (length types.now) ids.now }
{
    match ids {
        [] => true,
        [first, rest @ ..] => types.contains(*first) && holds_ids(types, rest),
    }
}

fn holds_signals(types: &TypeArena, signals: &[Exception]) -> bool
    ensures { IsTrue result ↔ SignalsBelow (length types.now) signals.now }
{
    match signals {
        [] => true,
        [first, rest @ ..] => {
            holds_ids(types, first.objects.as_slice()) && holds_signals(types, rest)
        }
    }
}

fn holds_heading(types: &TypeArena, heading: &Heading) -> bool
    ensures { IsTrue result ↔ HeadingBelow (length types.now) heading.now }
{
    holds_ids(types, heading.args.as_slice())
        && holds_ids(types, heading.results.as_slice())
        && holds_signals(types, heading.signals.as_slice())
}

/// Whether the wanted types are those of the arena.
pub fn holds_demands(types: &TypeArena, demands: &[Demand]) -> bool
    ensures { IsTrue result ↔ DemandsBelow (length types.now) demands.now }
{
    match demands {
        [] => true,
        [first, rest @ ..] => types.contains(first.wanted) && holds_demands(types, rest),
    }
}

/// Whether the types that a routine names are those of the arena.
pub fn is_whole_op(types: &TypeArena, op: &OpSpec) -> bool
    ensures { IsTrue result ↔ OpBelow (length types.now) op.now }
{
    holds_heading(types, &op.heading) && holds_demands(types, op.demands.as_slice())
}

fn holds_ops(types: &TypeArena, ops: &[OpSpec]) -> bool
    ensures { IsTrue result ↔ OpsBelow (length types.now) ops.now }
{
    match ops {
        [] => true,
        [first, rest @ ..] => is_whole_op(types, first) && holds_ops(types, rest),
    }
}
