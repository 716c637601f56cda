//! What a routine takes, gives and signals, at the front of a text. Each reader answers what it read with the
//! bytes that follow; a type in it may be nested `depth` deep.

ghost use Rattle.std.specs.Prelude.{◌≡◌, [], ◌∷◌, length, IfOk};
ghost use Rattle.clu_specs.specs.Reading.{Gives};
ghost use Rattle.clu_specs.specs.TypeReading.{type_read, types_read, closed_types_read, signal_read, signals_read, objects_read, arguments_read, results_read, all_signals_read, heading_read};
ghost use Rattle.clu_types.specs.Arena.{type_at, types_at, signals_at, types_of, AreBelow, SignalsBelow, HeadingBelow, Grows};

use crate::marks::{begins_with, behind, fault, literal};
use crate::names::{next_after, signal_name_after};
use crate::read_types::type_at;
use crate::scope::Scope;
use clu_base::{Bytes, FormatError, Sequence};
use clu_types::{Exception, Heading, TypeArena, TypeId};
use std::alloc::Global;

/// Types with commas between them.
#[tactic(auto, unfolding(crate::specs::TypeReading::types_read))]
fn types_at<'a>(
    alloc: Global,
    types: &mut TypeArena,
    scope: &Scope,
    bytes: &'a [u8],
    depth: usize,
) -> Result<(Sequence<TypeId>, &'a [u8]), FormatError>
    ensures reads { Gives (λ x. (types_at (types_of types.new) x.0, x.1.now)) result (types_read (type_read scope.now depth) bytes.now) }
    ensures within { IfOk result (λ x. AreBelow (length types.new) x.0) }
    ensures kept { Grows types.old types.new }
{
    let mut made = Vec::new(alloc);
    let mut rest = bytes;
    for _ in 0..bytes.len() {
        let (id, after) = type_at(alloc, types, scope, rest, depth)?;
        made.push(id)?;
        match behind(b',', after) {
            Some(next) => rest = next,
            None => return Ok((Sequence::from_vec(made), after)),
        }
    }
    Err(fault(rest))
}

/// Types with commas between them, and `)`.
#[tactic(auto, unfolding(crate::specs::TypeReading::closed_types_read))]
fn closed_types_at<'a>(
    alloc: Global,
    types: &mut TypeArena,
    scope: &Scope,
    bytes: &'a [u8],
    depth: usize,
) -> Result<(Sequence<TypeId>, &'a [u8]), FormatError>
    ensures reads { Gives (λ x. (types_at (types_of types.new) x.0, x.1.now)) result (closed_types_read (type_read scope.now depth) bytes.now) }
    ensures within { IfOk result (λ x. AreBelow (length types.new) x.0) }
    ensures kept { Grows types.old types.new }
{
    let (ids, rest) = types_at(alloc, types, scope, bytes, depth)?;
    let rest = literal(b")", rest)?;
    Ok((ids, rest))
}

/// Signals in ascending order, with the types of their objects.
#[tactic(auto, unfolding(crate::specs::TypeReading::signals_read))]
fn signals_at<'a>(
    alloc: Global,
    types: &mut TypeArena,
    scope: &Scope,
    bytes: &'a [u8],
    depth: usize,
) -> Result<(Sequence<Exception>, &'a [u8]), FormatError>
    ensures reads { Gives (λ x. (signals_at (types_of types.new) x.0, x.1.now)) result (signals_read (type_read scope.now depth) bytes.now) }
    ensures within { IfOk result (λ x. SignalsBelow (length types.new) x.0) }
    ensures kept { Grows types.old types.new }
{
    let mut made = Vec::new(alloc);
    let mut previous: &[u8] = &[];
    let mut rest = bytes;
    for _ in 0..bytes.len() {
        let (signal, name, after) = signal_at(alloc, types, scope, previous, rest, depth)?;
        made.push(signal)?;
        match next_after(name, after) {
            Some(next) => rest = next,
            None => return Ok((Sequence::from_vec(made), after)),
        }
        previous = name;
    }
    Err(fault(rest))
}

/// A signal after `previous` with the types of its objects, its name, and what follows.
#[tactic(auto, unfolding(crate::specs::TypeReading::signal_read))]
fn signal_at<'a>(
    alloc: Global,
    types: &mut TypeArena,
    scope: &Scope,
    previous: &[u8],
    bytes: &'a [u8],
    depth: usize,
) -> Result<(Exception, &'a [u8], &'a [u8]), FormatError>
    ensures reads { Gives (λ x. ((x.0.name, types_at (types_of types.new) x.0.objects), x.2.now)) result (signal_read (type_read scope.now depth) previous.now bytes.now) }
    ensures name { IfOk result (λ x. x.1.now ≡ x.0.name) }
    ensures within { IfOk result (λ x. AreBelow (length types.new) x.0.objects) }
    ensures kept { Grows types.old types.new }
{
    let (name, rest) = signal_name_after(previous, bytes)?;
    let (objects, rest) = objects_at(alloc, types, scope, rest, depth)?;
    let name_of_signal = Bytes::from_slice(alloc, name)?;
    let signal = Exception {
        name: name_of_signal,
        objects,
    };
    Ok((signal, name, rest))
}

/// The types of a signal's objects in parentheses, or none.
#[tactic(auto, unfolding(crate::specs::TypeReading::objects_by))]
fn objects_at<'a>(
    alloc: Global,
    types: &mut TypeArena,
    scope: &Scope,
    bytes: &'a [u8],
    depth: usize,
) -> Result<(Sequence<TypeId>, &'a [u8]), FormatError>
    ensures reads { Gives (λ x. (types_at (types_of types.new) x.0, x.1.now)) result (objects_read (type_read scope.now depth) bytes.now) }
    ensures within { IfOk result (λ x. AreBelow (length types.new) x.0) }
    ensures kept { Grows types.old types.new }
{
    match behind(b'(', bytes) {
        Some(rest) => closed_types_at(alloc, types, scope, rest, depth),
        None => Ok((Sequence::from_vec(Vec::new(alloc)), bytes)),
    }
}

/// The types of arguments in parentheses.
#[tactic(auto, unfolding(crate::specs::TypeReading::arguments_read, crate::specs::TypeReading::arguments_by))]
fn arguments_at<'a>(
    alloc: Global,
    types: &mut TypeArena,
    scope: &Scope,
    bytes: &'a [u8],
    depth: usize,
) -> Result<(Sequence<TypeId>, &'a [u8]), FormatError>
    ensures reads { Gives (λ x. (types_at (types_of types.new) x.0, x.1.now)) result (arguments_read (type_read scope.now depth) bytes.now) }
    ensures within { IfOk result (λ x. AreBelow (length types.new) x.0) }
    ensures kept { Grows types.old types.new }
{
    let rest = literal(b"(", bytes)?;
    match behind(b')', rest) {
        Some(rest) => Ok((Sequence::from_vec(Vec::new(alloc)), rest)),
        None => closed_types_at(alloc, types, scope, rest, depth),
    }
}

/// The types after `returns`, of an iterator after `yields`, or none.
#[tactic(auto, unfolding(crate::specs::TypeReading::results_read))]
fn results_at<'a>(
    alloc: Global,
    types: &mut TypeArena,
    scope: &Scope,
    iter: bool,
    bytes: &'a [u8],
    depth: usize,
) -> Result<(Sequence<TypeId>, &'a [u8]), FormatError>
    ensures reads { Gives (λ x. (types_at (types_of types.new) x.0, x.1.now)) result (results_read (type_read scope.now depth) iter bytes.now) }
    ensures within { IfOk result (λ x. AreBelow (length types.new) x.0) }
    ensures kept { Grows types.old types.new }
{
    if iter && begins_with(b'y', bytes) {
        let rest = literal(b"yields(", bytes)?;
        return closed_types_at(alloc, types, scope, rest, depth);
    }
    if !iter && begins_with(b'r', bytes) {
        let rest = literal(b"returns(", bytes)?;
        return closed_types_at(alloc, types, scope, rest, depth);
    }
    Ok((Sequence::from_vec(Vec::new(alloc)), bytes))
}

/// The signals in parentheses after `signals`, or none.
#[tactic(auto, unfolding(crate::specs::TypeReading::all_signals_read))]
fn all_signals_at<'a>(
    alloc: Global,
    types: &mut TypeArena,
    scope: &Scope,
    bytes: &'a [u8],
    depth: usize,
) -> Result<(Sequence<Exception>, &'a [u8]), FormatError>
    ensures reads { Gives (λ x. (signals_at (types_of types.new) x.0, x.1.now)) result (all_signals_read (type_read scope.now depth) bytes.now) }
    ensures within { IfOk result (λ x. SignalsBelow (length types.new) x.0) }
    ensures kept { Grows types.old types.new }
{
    if !begins_with(b's', bytes) {
        return Ok((Sequence::from_vec(Vec::new(alloc)), bytes));
    }
    let rest = literal(b"signals(", bytes)?;
    let (signals, rest) = signals_at(alloc, types, scope, rest, depth)?;
    let rest = literal(b")", rest)?;
    Ok((signals, rest))
}

/// What a routine takes, gives and signals.
#[tactic(auto, unfolding(crate::specs::TypeReading::heading_read))]
pub fn heading_at<'a>(
    alloc: Global,
    types: &mut TypeArena,
    scope: &Scope,
    iter: bool,
    bytes: &'a [u8],
    depth: usize,
) -> Result<(Heading, &'a [u8]), FormatError>
    ensures reads { Gives (λ x. ((types_at (types_of types.new) x.0.args, types_at (types_of types.new) x.0.results, signals_at (types_of types.new) x.0.signals), x.1.now)) result (heading_read (type_read scope.now depth) iter bytes.now) }
    ensures within { IfOk result (λ x. HeadingBelow (length types.new) x.0) }
    ensures kept { Grows types.old types.new }
{
    let (args, rest) = arguments_at(alloc, types, scope, bytes, depth)?;
    let (results, rest) = results_at(alloc, types, scope, iter, rest, depth)?;
    let (signals, rest) = all_signals_at(alloc, types, scope, rest, depth)?;
    Ok((
        Heading {
            args,
            results,
            signals,
        },
        rest,
    ))
}
