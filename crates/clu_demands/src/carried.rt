//! The type of a routine of a specification, brought into another arena with actual parameters put in.

ghost use Rattle.std.specs.Prelude.{◌≡◌, ◌<◌, length, IfOk};
ghost use Rattle.clu_types.specs.Arena.{type_at, types_at, signals_at, actuals_at, types_of, AreBelow, SignalsBelow, ActualsBelow, HeadingBelow, Grows};
ghost use Rattle.clu_types.specs.Substituted.{substituted, types_substituted, signals_substituted};
ghost use Rattle.clu_specs.specs.Specifications.{OpBelow};
ghost use Rattle.clu_demands.specs.Meeting.{op_type, routine_type};

use clu_base::{Memory, Sequence};
use clu_types::{Actual, Exception, Heading, OpSpec, Term, TypeArena, TypeId};
use std::alloc::Global;

/// The type of a routine whose types are in `from`, with actual parameters of the arena put in.
pub fn carried_type(
    alloc: Global,
    types: &mut TypeArena,
    from: &TypeArena,
    op: &OpSpec,
    actuals: &[Actual],
) -> Result<TypeId, Memory>
    requires op_in { OpBelow (length from.now) op.now }
    requires actuals_in { ActualsBelow (length types.old) actuals.now }
    ensures of_type { IfOk result (λ id. type_at (types_of types.new) id ≡ substituted (actuals_at (types_of types.old) actuals.now) (op_type (types_of from.now) op.now)) }
    ensures within { IfOk result (λ id. id.0 < length types.new) }
    ensures kept { Grows types.old types.new }
{
    let args = carry_ids(alloc, types, from, &op.heading.args, actuals)?;
    let results = carry_ids(alloc, types, from, &op.heading.results, actuals)?;
    let signals = carry_exceptions(alloc, types, from, &op.heading.signals, actuals)?;
    let heading = Heading {
        args,
        results,
        signals,
    };
    intern_routine(types, op.iter, heading)
}

/// The type of a routine.
pub fn intern_routine(types: &mut TypeArena, iter: bool, heading: Heading) -> Result<TypeId, Memory>
    requires { HeadingBelow (length types.old) heading }
    ensures of_type { IfOk result (λ id. type_at (types_of types.new) id ≡ routine_type iter (types_at (types_of types.old) heading.args) (types_at (types_of types.old) heading.results) (signals_at (types_of types.old) heading.signals)) }
    ensures within { IfOk result (λ id. id.0 < length types.new) }
    ensures kept { Grows types.old types.new }
{
    if iter {
        types.intern(Term::Iter(heading))
    } else {
        types.intern(Term::Proc(heading))
    }
}

fn carry_ids(
    alloc: Global,
    types: &mut TypeArena,
    from: &TypeArena,
    ids: &Sequence<TypeId>,
    actuals: &[Actual],
) -> Result<Sequence<TypeId>, Memory>
    requires ids_in { AreBelow (length from.now) ids.now }
    requires actuals_in { ActualsBelow (length types.old) actuals.now }
    ensures made { IfOk result (λ made. types_at (types_of types.new) made ≡ types_substituted (actuals_at (types_of types.old) actuals.now) (types_at (types_of from.now) ids.now)) }
    ensures within { IfOk result (λ made. AreBelow (length types.new) made) }
    ensures kept { Grows types.old types.new }
{
    carry_all(alloc, types, from, ids.as_slice(), actuals)
}

fn carry_exceptions(
    alloc: Global,
    types: &mut TypeArena,
    from: &TypeArena,
    signals: &Sequence<Exception>,
    actuals: &[Actual],
) -> Result<Sequence<Exception>, Memory>
    requires signals_in { SignalsBelow (length from.now) signals.now }
    requires actuals_in { ActualsBelow (length types.old) actuals.now }
    ensures made { IfOk result (λ made. signals_at (types_of types.new) made ≡ signals_substituted (actuals_at (types_of types.old) actuals.now) (signals_at (types_of from.now) signals.now)) }
    ensures within { IfOk result (λ made. SignalsBelow (length types.new) made) }
    ensures kept { Grows types.old types.new }
{
    carry_signals(alloc, types, from, signals.as_slice(), actuals)
}

fn carry_all(
    alloc: Global,
    types: &mut TypeArena,
    from: &TypeArena,
    ids: &[TypeId],
    actuals: &[Actual],
) -> Result<Sequence<TypeId>, Memory>
    requires ids_in { AreBelow (length from.now) ids.now }
    requires actuals_in { ActualsBelow (length types.old) actuals.now }
    ensures made { IfOk result (λ made. types_at (types_of types.new) made ≡ types_substituted (actuals_at (types_of types.old) actuals.now) (types_at (types_of from.now) ids.now)) }
    ensures within { IfOk result (λ made. AreBelow (length types.new) made) }
    ensures kept { Grows types.old types.new }
{
    let mut made = Vec::new(alloc);
    for id in ids {
        let carried = types.carry(alloc, from, *id, actuals)?;
        made.push(carried)?;
    }
    Ok(Sequence::from_vec(made))
}

fn carry_signals(
    alloc: Global,
    types: &mut TypeArena,
    from: &TypeArena,
    signals: &[Exception],
    actuals: &[Actual],
) -> Result<Sequence<Exception>, Memory>
    requires signals_in { SignalsBelow (length from.now) signals.now }
    requires actuals_in { ActualsBelow (length types.old) actuals.now }
    ensures made { IfOk result (λ made. signals_at (types_of types.new) made ≡ signals_substituted (actuals_at (types_of types.old) actuals.now) (signals_at (types_of from.now) signals.now)) }
    ensures within { IfOk result (λ made. SignalsBelow (length types.new) made) }
    ensures kept { Grows types.old types.new }
{
    let mut made = Vec::new(alloc);
    for signal in signals {
        let carried = carry_signal(alloc, types, from, signal, actuals)?;
        made.push(carried)?;
    }
    Ok(Sequence::from_vec(made))
}

fn carry_signal(
    alloc: Global,
    types: &mut TypeArena,
    from: &TypeArena,
    signal: &Exception,
    actuals: &[Actual],
) -> Result<Exception, Memory>
    requires signal_in { AreBelow (length from.now) signal.now.objects }
    requires actuals_in { ActualsBelow (length types.old) actuals.now }
    ensures name { IfOk result (λ made. made.name ≡ signal.now.name) }
    ensures made { IfOk result (λ made. types_at (types_of types.new) made.objects ≡ types_substituted (actuals_at (types_of types.old) actuals.now) (types_at (types_of from.now) signal.now.objects)) }
    ensures within { IfOk result (λ made. AreBelow (length types.new) made.objects) }
    ensures kept { Grows types.old types.new }
{
    let name = signal.name.copy(alloc)?;
    let objects = carry_ids(alloc, types, from, &signal.objects, actuals)?;
    Ok(Exception { name, objects })
}
