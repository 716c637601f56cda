//! Names of modules, operations, selectors and signals. A list of them ascends, and a text is refused at the
//! first byte after which no name can follow any more.

ghost use Rattle.std.specs.Prelude.{◌≡◌, ◌≤◌, ◌<◌, length, IfSome};
ghost use Rattle.std.specs.Option.{option_copied};
ghost use Rattle.clu_specs.specs.Reading.{Gives};
ghost use Rattle.clu_specs.specs.Names.{is_before, common, last_below_z, shared_with_later, has_later, is_named, name_after};
ghost use Rattle.clu_specs.specs.TypeReading.{next_after, signal_name_after};

use crate::keywords::{begins_name, is_reserved, split_word};
use crate::marks::{behind, fault};
use clu_base::FormatError;

/// How many bytes a name has at most.
pub const LONGEST: usize = 200;

/// The same of an operation in a use, where `get_` or `set_` may stand before a selector.
pub const LONGEST_OPERATION: usize = 204;

/// Whether the first name comes before the second: a proper prefix does. It goes as deep as the shorter one is
/// long, at most `LONGEST_OPERATION`.
fn is_before(a: &[u8], b: &[u8]) -> bool
    ensures { result ≡ is_before a.now b.now }
{
    match b {
        [] => false,
        [second, behind_second @ ..] => match a {
            [] => true,
            [first, behind_first @ ..] => {
                if first == second {
                    is_before(behind_first, behind_second)
                } else {
                    first < second
                }
            }
        },
    }
}

/// How many first bytes are the same. It goes as deep as that, at most `LONGEST_OPERATION`.
fn common(a: &[u8], b: &[u8]) -> usize
    ensures is { result ≡ common a.now b.now }
    ensures within { result ≤ length b.now }
{
    match b {
        [] => 0,
        [second, behind_second @ ..] => match a {
            [] => 0,
            [first, behind_first @ ..] => {
                if first == second {
                    1 + common(behind_first, behind_second)
                } else {
                    0
                }
            }
        },
    }
}

/// The place of the last byte that a greater one can replace; `z` is the greatest. It goes as deep as the name is
/// long, at most `LONGEST_OPERATION`.
fn last_below_z(name: &[u8]) -> Option<usize>
    ensures is { result ≡ last_below_z name.now }
    ensures within { IfSome result (λ i. i < length name.now) }
{
    match name {
        [] => None,
        [first, rest @ ..] => match last_below_z(rest) {
            Some(i) => Some(i + 1),
            None => { if *first < b'z' { Some(0) } else { None } }
        },
    }
}

/// How many first bytes a later name may share with this one; None where no name comes later.
#[tactic(auto, unfolding(crate::specs::Names::shared_with_later))]
pub fn shared_with_later(name: &[u8]) -> Option<usize>
    ensures { result ≡ shared_with_later name.now }
{
    if name.len() < LONGEST {
        Some(name.len())
    } else {
        last_below_z(name)
    }
}

/// Whether a name may come later than this one.
pub fn has_later(name: &[u8]) -> bool
    ensures { result ≡ has_later name.now }
{
    match shared_with_later(name) {
        Some(_) => true,
        None => false,
    }
}

/// Whether the word begins as a name does.
fn is_named(word: &[u8]) -> bool
    ensures { result ≡ is_named word.now }
{
    match word {
        [] => false,
        [first, ..] => begins_name(*first),
    }
}

/// The name of at most `limit` bytes at the front, which is to come after `previous` (empty: any), and what
/// follows it. Refused where no such name can go on.
#[tactic(auto, unfolding(crate::specs::Names::name_after))]
pub fn name_after<'a>(
    previous: &[u8],
    limit: usize,
    bytes: &'a [u8],
) -> Result<(&'a [u8], &'a [u8]), FormatError>
    ensures { Gives (λ x. (x.0.now, x.1.now)) result (name_after previous.now limit bytes.now) }
{
    let (word, rest) = split_word(bytes);
    if !is_named(word) {
        return Err(fault(bytes));
    }
    let (front, _) = word.split_at(word.len().min(limit));
    if !is_before(previous, front) {
        let kept = common(previous, front).min(shared_with_later(previous).unwrap_or(0));
        return Err(FormatError::Bad((bytes.len() as u64).saturating_sub(kept as u64)));
    }
    if limit < word.len() {
        return Err(FormatError::Bad((bytes.len() as u64).saturating_sub(limit as u64)));
    }
    if is_reserved(word) {
        return Err(fault(rest));
    }
    Ok((word, rest))
}

/// What follows the comma, where an item of a list with this name may have a successor.
pub fn next_after<'a>(name: &[u8], bytes: &'a [u8]) -> Option<&'a [u8]>
    ensures { option_copied result ≡ next_after name.now bytes.now }
{
    if has_later(name) {
        behind(b',', bytes)
    } else {
        None
    }
}

/// The name of a signal, which is not `failure`.
#[tactic(auto, unfolding(crate::specs::TypeReading::signal_name_after))]
pub fn signal_name_after<'a>(
    previous: &[u8],
    bytes: &'a [u8],
) -> Result<(&'a [u8], &'a [u8]), FormatError>
    ensures { Gives (λ x. (x.0.now, x.1.now)) result (signal_name_after previous.now bytes.now) }
{
    let (name, rest) = name_after(previous, LONGEST, bytes)?;
    if name == b"failure".as_slice() {
        return Err(fault(rest));
    }
    Ok((name, rest))
}
