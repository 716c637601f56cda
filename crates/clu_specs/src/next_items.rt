//! The next item of a type that was begun, up to the first type in it.

ghost use Rattle.std.specs.Prelude.{◌≡◌, ℕ, List, [], length, IfOk};
ghost use Rattle.clu_types.specs.CluType.{CluType, no_types};
ghost use Rattle.clu_types.specs.Arena.{types_at, actuals_at, types_of, ActualsBelow, Grows};
ghost use Rattle.clu_specs.specs.Reading.{Gives};
ghost use Rattle.clu_specs.specs.Names.{first_word};
ghost use Rattle.clu_specs.specs.Constants.{word_constant};
ghost use Rattle.clu_specs.specs.TypeReading.{lead_of};
ghost use Rattle.clu_specs.specs.Pending.{item_begun, actual_begun, word_actual_begun, signal_begun, signals_seen, waiting_seen, found_seen, SoFarBelow, PendingBelow, FoundBelow};

use crate::actuals::{is_marked, lead_of, marked_actual_at};
use crate::constants::word_constant;
use crate::keywords::split_word;
use crate::marks::{behind, fault, literal};
use crate::names::{LONGEST, name_after, signal_name_after};
use crate::pending::{
    ActualsSoFar, ArgumentsSoFar, FieldsSoFar, Found, ObjectsSoFar, Pending, ResultsSoFar,
    SignalsSoFar,
};
use crate::resume_types::{end_actual, end_signal};
use crate::scope::Scope;
use clu_base::{FormatError, Sequence};
use clu_types::{Actual, TypeArena};
use std::alloc::Global;

/// The next item of the type that is pending.
#[tactic(auto, unfolding(crate::specs::Pending::item_begun))]
pub fn begin_item<'a>(
    alloc: Global,
    types: &mut TypeArena,
    scope: &Scope,
    pending: Pending<'a>,
    bytes: &'a [u8],
) -> Result<(Found<'a>, &'a [u8]), FormatError>
    requires { PendingBelow (length types.old) pending }
    ensures reads { Gives (λ x. (found_seen (types_of types.new) x.0, x.1.now)) result (item_begun scope.now (waiting_seen (types_of types.old) pending.entry) bytes.now) }
    ensures within { IfOk result (λ x. FoundBelow (length types.new) x.0) }
    ensures kept { Grows types.old types.new }
{
    match pending {
        Pending::Element(word) => Ok((Found::Inside(Pending::Element(word)), bytes)),
        Pending::Field(fields) => begin_field(fields, bytes),
        Pending::Argument(args) => begin_argument(args, bytes),
        Pending::Outcome(results) => begin_result(results, bytes),
        Pending::Object(objects) => begin_object(objects, bytes),
        Pending::Actual(actuals) => begin_actual(alloc, types, scope, actuals, bytes),
    }
}

/// The next field, up to its type.
#[tactic(auto, unfolding(crate::specs::Pending::item_begun))]
fn begin_field<'a>(
    fields: FieldsSoFar<'a>,
    bytes: &'a [u8],
) -> Result<(Found<'a>, &'a [u8]), FormatError>
    ensures reads { (ks : List CluType) (scope : Scope) → Gives (λ x. (found_seen ks x.0, x.1.now)) result (item_begun scope (waiting_seen ks (Pending.Field fields.entry)) bytes.now) }
    ensures within { (n : ℕ) → PendingBelow n (Pending.Field fields.entry) → IfOk result (λ x. FoundBelow n x.0) }
{
    if fields.left == 0 {
        return Err(fault(bytes));
    }
    let FieldsSoFar {
        word,
        made,
        name,
        left,
    } = fields;
    let (name, rest) = name_after(name, LONGEST, bytes)?;
    let rest = literal(b":", rest)?;
    let fields = FieldsSoFar {
        word,
        made,
        name,
        left: left - 1,
    };
    Ok((Found::Inside(Pending::Field(fields)), rest))
}

/// The next argument's type.
#[tactic(auto, unfolding(crate::specs::Pending::item_begun))]
fn begin_argument<'a>(
    args: ArgumentsSoFar,
    bytes: &'a [u8],
) -> Result<(Found<'a>, &'a [u8]), FormatError>
    ensures reads { (ks : List CluType) (scope : Scope) → Gives (λ x. (found_seen ks x.0, x.1.now)) result (item_begun scope (waiting_seen ks (Pending.Argument args)) bytes.now) }
    ensures within { (n : ℕ) → PendingBelow n (Pending.Argument args) → IfOk result (λ x. FoundBelow n x.0) }
{
    if args.left == 0 {
        return Err(fault(bytes));
    }
    let ArgumentsSoFar { iter, made, left } = args;
    let args = ArgumentsSoFar {
        iter,
        made,
        left: left - 1,
    };
    Ok((Found::Inside(Pending::Argument(args)), bytes))
}

/// The next result's type.
#[tactic(auto, unfolding(crate::specs::Pending::item_begun))]
fn begin_result<'a>(
    results: ResultsSoFar,
    bytes: &'a [u8],
) -> Result<(Found<'a>, &'a [u8]), FormatError>
    ensures reads { (ks : List CluType) (scope : Scope) → Gives (λ x. (found_seen ks x.0, x.1.now)) result (item_begun scope (waiting_seen ks (Pending.Outcome results)) bytes.now) }
    ensures within { (n : ℕ) → PendingBelow n (Pending.Outcome results) → IfOk result (λ x. FoundBelow n x.0) }
{
    if results.left == 0 {
        return Err(fault(bytes));
    }
    let ResultsSoFar {
        iter,
        args,
        made,
        left,
    } = results;
    let results = ResultsSoFar {
        iter,
        args,
        made,
        left: left - 1,
    };
    Ok((Found::Inside(Pending::Outcome(results)), bytes))
}

/// The type of a signal's next object.
#[tactic(auto, unfolding(crate::specs::Pending::item_begun))]
fn begin_object<'a>(
    objects: ObjectsSoFar<'a>,
    bytes: &'a [u8],
) -> Result<(Found<'a>, &'a [u8]), FormatError>
    ensures reads { (ks : List CluType) (scope : Scope) → Gives (λ x. (found_seen ks x.0, x.1.now)) result (item_begun scope (waiting_seen ks (Pending.Object objects.entry)) bytes.now) }
    ensures within { (n : ℕ) → PendingBelow n (Pending.Object objects.entry) → IfOk result (λ x. FoundBelow n x.0) }
{
    if objects.left == 0 {
        return Err(fault(bytes));
    }
    let ObjectsSoFar {
        signals,
        made,
        left,
    } = objects;
    let objects = ObjectsSoFar {
        signals,
        made,
        left: left - 1,
    };
    Ok((Found::Inside(Pending::Object(objects)), bytes))
}

/// The next actual parameter: a constant, or the type that begins here.
#[tactic(auto, unfolding(crate::specs::Pending::item_begun, crate::specs::Pending::actual_begun))]
fn begin_actual<'a>(
    alloc: Global,
    types: &mut TypeArena,
    scope: &Scope,
    actuals: ActualsSoFar,
    bytes: &'a [u8],
) -> Result<(Found<'a>, &'a [u8]), FormatError>
    requires { ActualsBelow (length types.old) actuals.made }
    ensures reads { Gives (λ x. (found_seen (types_of types.new) x.0, x.1.now)) result (item_begun scope.now (waiting_seen (types_of types.old) (Pending.Actual actuals)) bytes.now) }
    ensures within { IfOk result (λ x. FoundBelow (length types.new) x.0) }
    ensures kept { Grows types.old types.new }
{
    let ActualsSoFar { name, made, left } = actuals;
    if left == 0 {
        return Err(fault(bytes));
    }
    let actuals = ActualsSoFar {
        name,
        made,
        left: left - 1,
    };
    let lead = lead_of(bytes);
    if is_marked(lead) {
        let (actual, rest) = marked_actual_at(alloc, scope, lead, bytes)?;
        return end_actual(types, actuals, actual, rest);
    }
    begin_word_actual(types, actuals, bytes)
}

/// The actual parameter that begins with a word or `#`.
#[tactic(auto, unfolding(crate::specs::Pending::word_actual_begun))]
fn begin_word_actual<'a>(
    types: &mut TypeArena,
    actuals: ActualsSoFar,
    bytes: &'a [u8],
) -> Result<(Found<'a>, &'a [u8]), FormatError>
    requires { ActualsBelow (length types.old) actuals.made }
    ensures reads { Gives (λ x. (found_seen (types_of types.new) x.0, x.1.now)) result (word_actual_begun actuals.name actuals.left (actuals_at (types_of types.old) actuals.made) (word_constant (first_word bytes.now)) bytes.now) }
    ensures within { IfOk result (λ x. FoundBelow (length types.new) x.0) }
    ensures kept { Grows types.old types.new }
{
    let (word, rest) = split_word(bytes);
    match word_constant(word) {
        Some(constant) => end_actual(types, actuals, Actual::Const(constant), rest),
        None => Ok((Found::Inside(Pending::Actual(actuals)), bytes)),
    }
}

/// The next signal, up to the type of its first object.
#[tactic(auto, unfolding(crate::specs::Pending::signal_begun, crate::specs::Pending::objects_begun))]
pub fn begin_signal<'a>(
    alloc: Global,
    types: &mut TypeArena,
    signals: SignalsSoFar<'a>,
    bytes: &'a [u8],
) -> Result<(Found<'a>, &'a [u8]), FormatError>
    requires { SoFarBelow (length types.old) signals }
    ensures reads { Gives (λ x. (found_seen (types_of types.new) x.0, x.1.now)) result (signal_begun (signals_seen (types_of types.old) signals.entry) bytes.now) }
    ensures within { IfOk result (λ x. FoundBelow (length types.new) x.0) }
    ensures kept { Grows types.old types.new }
{
    let SignalsSoFar {
        iter,
        args,
        results,
        made,
        name,
        left,
    } = signals;
    if left == 0 {
        return Err(fault(bytes));
    }
    let (name, rest) = signal_name_after(name, bytes)?;
    let signals = SignalsSoFar {
        iter,
        args,
        results,
        made,
        name,
        left: left - 1,
    };
    let made = Sequence::from_vec(Vec::new(alloc));
    match behind(b'(', rest) {
        Some(rest) => {
            let objects = ObjectsSoFar {
                signals,
                made,
                left: rest.len(),
            };
            Ok((Found::Item(Pending::Object(objects)), rest))
        }
        None => end_signal(alloc, types, signals, made, rest),
    }
}
