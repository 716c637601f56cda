//! How a type that was begun goes on, once the type that it waited for was read.

ghost use Rattle.std.specs.Prelude.{◌≡◌, ◌<◌, [], ◌∷◌, length, IfOk};
ghost use Rattle.std.specs.Option.{option_copied};
ghost use Rattle.clu_types.specs.CluType.{no_types, type_and, no_fields, field_and, no_signals, signal_and, no_actuals};
ghost use Rattle.clu_types.specs.Arena.{type_at, types_at, fields_at, signals_at, actuals_at, types_of, AreBelow, FieldsBelow, SignalsBelow, ActualBelow, ActualsBelow, HeadingBelow, PartsBelow, Grows};
ghost use Rattle.clu_specs.specs.Reading.{Gives, behind};
ghost use Rattle.clu_specs.specs.TypeReading.{types_joined, actuals_joined, next_after};
ghost use Rattle.clu_specs.specs.Pending.{resumed, field_ended, argument_ended, result_ended, signal_ended, signal_made, object_ended, actual_ended, with_signal, signals_seen, waiting_seen, found_seen, SoFarBelow, PendingBelow, FoundBelow};

use crate::begin_types::{begin_results, begin_signals};
use crate::marks::{behind, literal};
use crate::names::next_after;
use crate::pending::{
    ActualsSoFar, ArgumentsSoFar, FieldsSoFar, Found, ObjectsSoFar, Pending, ResultsSoFar,
    SignalsSoFar, pushed,
};
use crate::terms::{listing_term, routine_term, selecting_term};
use clu_base::{Bytes, FormatError, Sequence};
use clu_types::{Actual, Exception, Field, Heading, Term, TypeArena, TypeId};
use std::alloc::Global;

/// The type that is pending, after the type that it waited for.
#[tactic(auto, unfolding(crate::specs::Pending::resumed))]
pub fn resume<'a>(
    alloc: Global,
    types: &mut TypeArena,
    pending: Pending<'a>,
    id: TypeId,
    bytes: &'a [u8],
) -> Result<(Found<'a>, &'a [u8]), FormatError>
    requires pending { PendingBelow (length types.old) pending }
    requires id { id.0 < length types.old }
    ensures reads { Gives (λ x. (found_seen (types_of types.new) x.0, x.1.now)) result (resumed (waiting_seen (types_of types.old) pending.entry) (type_at (types_of types.old) id) bytes.now) }
    ensures within { IfOk result (λ x. FoundBelow (length types.new) x.0) }
    ensures kept { Grows types.old types.new }
{
    match pending {
        Pending::Element(word) => {
            let rest = literal(b"]", bytes)?;
            Ok((Found::Whole(types.intern(listing_term(word, id))?), rest))
        }
        Pending::Field(fields) => end_field(alloc, types, fields, id, bytes),
        Pending::Argument(args) => end_argument(alloc, types, args, id, bytes),
        Pending::Outcome(results) => end_result(alloc, types, results, id, bytes),
        Pending::Object(objects) => end_object(alloc, types, objects, id, bytes),
        Pending::Actual(actuals) => end_actual(types, actuals, Actual::Of(id), bytes),
    }
}

/// After a field's type.
#[tactic(auto, using(crate::proofs::Rows::fields_push, crate::proofs::Growing::fields_pushed), unfolding(crate::specs::Pending::resumed, crate::specs::Pending::field_ended))]
fn end_field<'a>(
    alloc: Global,
    types: &mut TypeArena,
    fields: FieldsSoFar<'a>,
    id: TypeId,
    bytes: &'a [u8],
) -> Result<(Found<'a>, &'a [u8]), FormatError>
    requires fields { FieldsBelow (length types.old) fields.made }
    requires id { id.0 < length types.old }
    ensures reads { Gives (λ x. (found_seen (types_of types.new) x.0, x.1.now)) result (resumed (waiting_seen (types_of types.old) (Pending.Field fields.entry)) (type_at (types_of types.old) id) bytes.now) }
    ensures within { IfOk result (λ x. FoundBelow (length types.new) x.0) }
    ensures kept { Grows types.old types.new }
{
    let FieldsSoFar {
        word,
        made,
        name,
        left,
    } = fields;
    let field = Field {
        name: Bytes::from_slice(alloc, name)?,
        of: id,
    };
    let made = pushed(made, field)?;
    match next_after(name, bytes) {
        Some(rest) => {
            let fields = FieldsSoFar {
                word,
                made,
                name,
                left,
            };
            Ok((Found::Item(Pending::Field(fields)), rest))
        }
        None => {
            let rest = literal(b"]", bytes)?;
            Ok((
                Found::Whole(types.intern(selecting_term(word, made))?),
                rest,
            ))
        }
    }
}

/// After an argument's type.
#[tactic(auto, using(crate::proofs::Rows::types_push, crate::proofs::Growing::types_pushed), unfolding(crate::specs::Pending::resumed, crate::specs::Pending::argument_ended))]
fn end_argument<'a>(
    alloc: Global,
    types: &mut TypeArena,
    args: ArgumentsSoFar,
    id: TypeId,
    bytes: &'a [u8],
) -> Result<(Found<'a>, &'a [u8]), FormatError>
    requires args { AreBelow (length types.old) args.made }
    requires id { id.0 < length types.old }
    ensures reads { Gives (λ x. (found_seen (types_of types.new) x.0, x.1.now)) result (resumed (waiting_seen (types_of types.old) (Pending.Argument args)) (type_at (types_of types.old) id) bytes.now) }
    ensures within { IfOk result (λ x. FoundBelow (length types.new) x.0) }
    ensures kept { Grows types.old types.new }
{
    let ArgumentsSoFar { iter, made, left } = args;
    let made = pushed(made, id)?;
    match behind(b',', bytes) {
        Some(rest) => {
            let args = ArgumentsSoFar { iter, made, left };
            Ok((Found::Item(Pending::Argument(args)), rest))
        }
        None => {
            let rest = literal(b")", bytes)?;
            begin_results(alloc, types, iter, made, rest)
        }
    }
}

/// After a result's type.
#[tactic(auto, using(crate::proofs::Rows::types_push, crate::proofs::Growing::types_pushed), unfolding(crate::specs::Pending::resumed, crate::specs::Pending::result_ended))]
fn end_result<'a>(
    alloc: Global,
    types: &mut TypeArena,
    results: ResultsSoFar,
    id: TypeId,
    bytes: &'a [u8],
) -> Result<(Found<'a>, &'a [u8]), FormatError>
    requires results { PendingBelow (length types.old) (Pending.Outcome results) }
    requires id { id.0 < length types.old }
    ensures reads { Gives (λ x. (found_seen (types_of types.new) x.0, x.1.now)) result (resumed (waiting_seen (types_of types.old) (Pending.Outcome results)) (type_at (types_of types.old) id) bytes.now) }
    ensures within { IfOk result (λ x. FoundBelow (length types.new) x.0) }
    ensures kept { Grows types.old types.new }
{
    let ResultsSoFar {
        iter,
        args,
        made,
        left,
    } = results;
    let made = pushed(made, id)?;
    match behind(b',', bytes) {
        Some(rest) => {
            let results = ResultsSoFar {
                iter,
                args,
                made,
                left,
            };
            Ok((Found::Item(Pending::Outcome(results)), rest))
        }
        None => {
            let rest = literal(b")", bytes)?;
            begin_signals(alloc, types, iter, args, made, rest)
        }
    }
}

/// After the type of a signal's object.
#[tactic(auto, using(crate::proofs::Rows::types_push, crate::proofs::Growing::types_pushed), unfolding(crate::specs::Pending::resumed, crate::specs::Pending::object_ended))]
fn end_object<'a>(
    alloc: Global,
    types: &mut TypeArena,
    objects: ObjectsSoFar<'a>,
    id: TypeId,
    bytes: &'a [u8],
) -> Result<(Found<'a>, &'a [u8]), FormatError>
    requires objects { PendingBelow (length types.old) (Pending.Object objects) }
    requires id { id.0 < length types.old }
    ensures reads { Gives (λ x. (found_seen (types_of types.new) x.0, x.1.now)) result (resumed (waiting_seen (types_of types.old) (Pending.Object objects.entry)) (type_at (types_of types.old) id) bytes.now) }
    ensures within { IfOk result (λ x. FoundBelow (length types.new) x.0) }
    ensures kept { Grows types.old types.new }
{
    let ObjectsSoFar {
        signals,
        made,
        left,
    } = objects;
    let made = pushed(made, id)?;
    match behind(b',', bytes) {
        Some(rest) => {
            let objects = ObjectsSoFar {
                signals,
                made,
                left,
            };
            Ok((Found::Item(Pending::Object(objects)), rest))
        }
        None => {
            let rest = literal(b")", bytes)?;
            end_signal(alloc, types, signals, made, rest)
        }
    }
}

/// After a signal with these objects.
#[tactic(auto, using(crate::proofs::Rows::signals_push, crate::proofs::Growing::signals_pushed), unfolding(crate::specs::Pending::signal_ended))]
pub fn end_signal<'a>(
    alloc: Global,
    types: &mut TypeArena,
    signals: SignalsSoFar<'a>,
    objects: Sequence<TypeId>,
    bytes: &'a [u8],
) -> Result<(Found<'a>, &'a [u8]), FormatError>
    requires signals { SoFarBelow (length types.old) signals }
    requires objects { AreBelow (length types.old) objects }
    ensures reads { Gives (λ x. (found_seen (types_of types.new) x.0, x.1.now)) result (signal_made (signals_seen (types_of types.old) signals.entry) (types_at (types_of types.old) objects) bytes.now) }
    ensures within { IfOk result (λ x. FoundBelow (length types.new) x.0) }
    ensures kept { Grows types.old types.new }
{
    let SignalsSoFar {
        iter,
        args,
        results,
        made,
        name,
        left,
    } = signals;
    let signal = Exception {
        name: Bytes::from_slice(alloc, name)?,
        objects,
    };
    let made = pushed(made, signal)?;
    match next_after(name, bytes) {
        Some(rest) => {
            let signals = SignalsSoFar {
                iter,
                args,
                results,
                made,
                name,
                left,
            };
            Ok((Found::Signal(signals), rest))
        }
        None => {
            let rest = literal(b")", bytes)?;
            let heading = Heading {
                args,
                results,
                signals: made,
            };
            Ok((
                Found::Whole(types.intern(routine_term(iter, heading))?),
                rest,
            ))
        }
    }
}

/// After an actual parameter.
#[tactic(auto, using(crate::proofs::Rows::actuals_push, crate::proofs::Growing::actuals_pushed), unfolding(crate::specs::Pending::actual_ended))]
pub fn end_actual<'a>(
    types: &mut TypeArena,
    actuals: ActualsSoFar,
    actual: Actual,
    bytes: &'a [u8],
) -> Result<(Found<'a>, &'a [u8]), FormatError>
    requires actuals { ActualsBelow (length types.old) actuals.made }
    requires actual { ActualBelow (length types.old) actual }
    ensures reads { Gives (λ x. (found_seen (types_of types.new) x.0, x.1.now)) result (actual_ended actuals.name actuals.left (actuals_joined (actuals_at (types_of types.old) actuals.made) (actuals_at (types_of types.old) (actual ∷ []))) (behind 44 bytes.now) bytes.now) }
    ensures within { IfOk result (λ x. FoundBelow (length types.new) x.0) }
    ensures kept { Grows types.old types.new }
{
    let ActualsSoFar { name, made, left } = actuals;
    let made = pushed(made, actual)?;
    match behind(b',', bytes) {
        Some(rest) => {
            let actuals = ActualsSoFar { name, made, left };
            Ok((Found::Item(Pending::Actual(actuals)), rest))
        }
        None => {
            let rest = literal(b"]", bytes)?;
            Ok((Found::Whole(types.intern(Term::Cluster(name, made))?), rest))
        }
    }
}
