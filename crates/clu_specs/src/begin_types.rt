//! The front of a type, up to the first type in it.

ghost use Rattle.std.specs.Prelude.{◌≡◌, ◌<◌, [], length, IfOk};
ghost use Rattle.clu_types.specs.CluType.{no_types, no_actuals};
ghost use Rattle.clu_types.specs.Arena.{type_at, types_at, signals_at, types_of, AreBelow, HeadingBelow, PartsBelow, Grows};
ghost use Rattle.clu_specs.specs.Reading.{Gives};
ghost use Rattle.clu_specs.specs.Pending.{type_begun, word_begun, keyword_begun, cluster_begun, results_begun, signals_begun, found_seen, FoundBelow};
ghost use Rattle.clu_specs.specs.TypeReading.{routine_type};

use crate::keywords::{Keyword, keyword_of, split_word};
use crate::marks::{begins_with, behind, literal};
use crate::names::{LONGEST, name_after};
use crate::pending::{
    ActualsSoFar, ArgumentsSoFar, FieldsSoFar, Found, Pending, ResultsSoFar, SignalsSoFar,
};
use crate::scope::{Scope, Sort};
use crate::terms::{routine_term, simple_term};
use clu_base::{Bytes, FormatError, Sequence};
use clu_types::{Heading, Term, TypeArena, TypeId};
use std::alloc::Global;

/// The front of the type that begins here.
#[tactic(auto, unfolding(crate::specs::Pending::type_begun_by, crate::specs::Pending::word_begun))]
pub fn begin_type<'a>(
    alloc: Global,
    types: &mut TypeArena,
    scope: &Scope,
    bytes: &'a [u8],
) -> Result<(Found<'a>, &'a [u8]), FormatError>
    ensures reads { Gives (λ x. (found_seen (types_of types.new) x.0, x.1.now)) result (type_begun scope.now bytes.now) }
    ensures within { IfOk result (λ x. FoundBelow (length types.new) x.0) }
    ensures kept { Grows types.old types.new }
{
    match behind(b'#', bytes) {
        Some(behind_mark) => {
            let (n, rest) = scope.parameter_at(Sort::Type, bytes, behind_mark)?;
            Ok((Found::Whole(types.intern(Term::Param(n))?), rest))
        }
        None => {
            let (word, rest) = split_word(bytes);
            match keyword_of(word) {
                Some(word) => begin_keyword(alloc, types, word, rest),
                None => begin_cluster(alloc, types, bytes),
            }
        }
    }
}

/// The front of a type after its word.
#[tactic(auto, unfolding(crate::specs::Pending::keyword_begun, crate::specs::Pending::arguments_begun))]
fn begin_keyword<'a>(
    alloc: Global,
    types: &mut TypeArena,
    word: Keyword,
    bytes: &'a [u8],
) -> Result<(Found<'a>, &'a [u8]), FormatError>
    ensures reads { Gives (λ x. (found_seen (types_of types.new) x.0, x.1.now)) result (keyword_begun word bytes.now) }
    ensures within { IfOk result (λ x. FoundBelow (length types.new) x.0) }
    ensures kept { Grows types.old types.new }
{
    match word {
        Keyword::Simple(word) => Ok((Found::Whole(types.intern(simple_term(word))?), bytes)),
        Keyword::Listing(word) => {
            let rest = literal(b"[", bytes)?;
            Ok((Found::Inside(Pending::Element(word)), rest))
        }
        Keyword::Selecting(word) => {
            let rest = literal(b"[", bytes)?;
            let fields = FieldsSoFar {
                word,
                made: Sequence::from_vec(Vec::new(alloc)),
                name: &[],
                left: rest.len(),
            };
            Ok((Found::Item(Pending::Field(fields)), rest))
        }
        Keyword::Routine(iter) => {
            let rest = literal(b"(", bytes)?;
            let made = Sequence::from_vec(Vec::new(alloc));
            match behind(b')', rest) {
                Some(rest) => begin_results(alloc, types, iter, made, rest),
                None => {
                    let args = ArgumentsSoFar {
                        iter,
                        made,
                        left: rest.len(),
                    };
                    Ok((Found::Item(Pending::Argument(args)), rest))
                }
            }
        }
    }
}

/// The cluster type at the front, up to its first actual parameter.
#[tactic(auto, unfolding(crate::specs::Pending::cluster_begun, crate::specs::Pending::actuals_begun))]
fn begin_cluster<'a>(
    alloc: Global,
    types: &mut TypeArena,
    bytes: &'a [u8],
) -> Result<(Found<'a>, &'a [u8]), FormatError>
    ensures reads { Gives (λ x. (found_seen (types_of types.new) x.0, x.1.now)) result (cluster_begun bytes.now) }
    ensures within { IfOk result (λ x. FoundBelow (length types.new) x.0) }
    ensures kept { Grows types.old types.new }
{
    let (name, rest) = name_after(&[], LONGEST, bytes)?;
    let name = Bytes::from_slice(alloc, name)?;
    let made = Sequence::from_vec(Vec::new(alloc));
    match behind(b'[', rest) {
        Some(rest) => {
            let actuals = ActualsSoFar {
                name,
                made,
                left: rest.len(),
            };
            Ok((Found::Item(Pending::Actual(actuals)), rest))
        }
        None => Ok((Found::Whole(types.intern(Term::Cluster(name, made))?), rest)),
    }
}

/// What a routine gives and signals, after what it takes.
#[tactic(auto, unfolding(crate::specs::Pending::results_begun))]
pub fn begin_results<'a>(
    alloc: Global,
    types: &mut TypeArena,
    iter: bool,
    args: Sequence<TypeId>,
    bytes: &'a [u8],
) -> Result<(Found<'a>, &'a [u8]), FormatError>
    requires { AreBelow (length types.old) args }
    ensures reads { Gives (λ x. (found_seen (types_of types.new) x.0, x.1.now)) result (results_begun iter (types_at (types_of types.old) args) bytes.now) }
    ensures within { IfOk result (λ x. FoundBelow (length types.new) x.0) }
    ensures kept { Grows types.old types.new }
{
    let made = Sequence::from_vec(Vec::new(alloc));
    if iter && begins_with(b'y', bytes) {
        let rest = literal(b"yields(", bytes)?;
        let results = ResultsSoFar {
            iter,
            args,
            made,
            left: rest.len(),
        };
        return Ok((Found::Item(Pending::Outcome(results)), rest));
    }
    if !iter && begins_with(b'r', bytes) {
        let rest = literal(b"returns(", bytes)?;
        let results = ResultsSoFar {
            iter,
            args,
            made,
            left: rest.len(),
        };
        return Ok((Found::Item(Pending::Outcome(results)), rest));
    }
    begin_signals(alloc, types, iter, args, made, bytes)
}

/// What a routine signals, after what it takes and gives.
#[tactic(auto, unfolding(crate::specs::Pending::signals_begun))]
pub fn begin_signals<'a>(
    alloc: Global,
    types: &mut TypeArena,
    iter: bool,
    args: Sequence<TypeId>,
    results: Sequence<TypeId>,
    bytes: &'a [u8],
) -> Result<(Found<'a>, &'a [u8]), FormatError>
    requires args { AreBelow (length types.old) args }
    requires results { AreBelow (length types.old) results }
    ensures reads { Gives (λ x. (found_seen (types_of types.new) x.0, x.1.now)) result (signals_begun iter (types_at (types_of types.old) args) (types_at (types_of types.old) results) bytes.now) }
    ensures within { IfOk result (λ x. FoundBelow (length types.new) x.0) }
    ensures kept { Grows types.old types.new }
{
    let made = Sequence::from_vec(Vec::new(alloc));
    if begins_with(b's', bytes) {
        let rest = literal(b"signals(", bytes)?;
        let signals = SignalsSoFar {
            iter,
            args,
            results,
            made,
            name: &[],
            left: rest.len(),
        };
        return Ok((Found::Signal(signals), rest));
    }
    let heading = Heading {
        args,
        results,
        signals: made,
    };
    Ok((
        Found::Whole(types.intern(routine_term(iter, heading))?),
        bytes,
    ))
}
