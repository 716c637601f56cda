//! Names of modules, read from a file.

ghost use Rattle.std.specs.Prelude.{◌≡◌, []};
ghost use Rattle.clu_specs.specs.Reading.{Gives};
ghost use Rattle.clu_format.specs.Lists.{counted};
ghost use Rattle.clu_library.specs.LibraryReading.{name_but_read, next_name_read, names_but, listed_read, names_by, names_read};

use clu_base::{Bytes, FormatError, Sequence};
use clu_format::{byte_field, fault, module_after, u32_field};
use std::alloc::Global;

/// The names of a body of the module `own`: all, or those that are listed.
pub fn names_at<'a>(
    alloc: Global,
    own: &[u8],
    bytes: &'a [u8],
) -> Result<(Option<Sequence<Bytes>>, &'a [u8]), FormatError>
    ensures { Gives (λ x. (x.0, x.1.now)) result (names_read own.now bytes.now) }
{
    let (listed, rest) = byte_field(bytes)?;
    names_by(alloc, own, listed, bytes, rest)
}

/// The same behind the byte that tells whether they are listed, where `field` starts.
fn names_by<'a>(
    alloc: Global,
    own: &[u8],
    listed: u8,
    field: &[u8],
    rest: &'a [u8],
) -> Result<(Option<Sequence<Bytes>>, &'a [u8]), FormatError>
    ensures { Gives (λ x. (x.0, x.1.now)) result (names_by own.now listed field.now rest.now) }
{
    match listed {
        0 => Ok((None, rest)),
        1 => listed_at(alloc, own, rest),
        _ => Err(fault(field)),
    }
}

fn listed_at<'a>(
    alloc: Global,
    own: &[u8],
    bytes: &'a [u8],
) -> Result<(Option<Sequence<Bytes>>, &'a [u8]), FormatError>
    ensures { Gives (λ x. (x.0, x.1.now)) result (listed_read own.now bytes.now) }
{
    let (names, rest) = names_but(alloc, own, bytes)?;
    Ok((Some(names), rest))
}

/// Names of modules after their count, ascending; none of them is `own`.
pub fn names_but<'a>(
    alloc: Global,
    own: &[u8],
    bytes: &'a [u8],
) -> Result<(Sequence<Bytes>, &'a [u8]), FormatError>
    ensures { Gives (λ x. (x.0, x.1.now)) result (names_but own.now bytes.now) }
{
    let (count, rest) = u32_field(bytes)?;
    more_names_but(alloc, own, count, rest)
}

fn more_names_but<'a>(
    alloc: Global,
    own: &[u8],
    count: u32,
    bytes: &'a [u8],
) -> Result<(Sequence<Bytes>, &'a [u8]), FormatError>
    ensures { Gives (λ x. (x.0, x.1.now)) result (counted (next_name_read own.now) count [] bytes.now) }
{
    let mut names = Vec::new(alloc);
    let mut previous: &[u8] = &[];
    let mut rest = bytes;
    for _ in 0..count {
        let (name, after) = name_but_at(own, previous, rest)?;
        let kept = Bytes::from_slice(alloc, name)?;
        names.push(kept)?;
        previous = name;
        rest = after;
    }
    Ok((Sequence::from_vec(names), rest))
}

/// The name of a module after the one before it; it is not `own`.
fn name_but_at<'a>(
    own: &[u8],
    previous: &[u8],
    bytes: &'a [u8],
) -> Result<(&'a [u8], &'a [u8]), FormatError>
    ensures { Gives (λ x. (x.0.now, x.1.now)) result (name_but_read own.now previous.now bytes.now) }
{
    let (name, rest) = module_after(previous, bytes)?;
    if name == own {
        return Err(fault(bytes));
    }
    Ok((name, rest))
}
