//! Libraries, read from files: one part after the other from the left.

ghost use Rattle.std.specs.Prelude.{◌≡◌, length, IfOk};
ghost use Rattle.std.specs.Result.{MatchResult};
ghost use Rattle.clu_specs.specs.Reading.{Gives, offset_of};
ghost use Rattle.clu_library.specs.Contents.{Contents};
ghost use Rattle.clu_library.specs.Libraries.{IsLibrary};
ghost use Rattle.clu_library.specs.LibraryFile.{library_bytes, IsFile, IsPresent};
ghost use Rattle.clu_library.specs.LibraryReading.{library_seen, number_up_to, counts_read, second_head_read, head_by, head_read, library_into, library_read};

use crate::library::{LIMIT, Library};
use crate::read_modules::{Version, modules_at};
use crate::read_programs::programs_at;
use clu_base::FormatError;
use clu_format::{at_offset, end, fault, mark, u32_field};
use std::alloc::Global;

/// The numbers at the head of a library file.
#[derive(Clone, Copy)]
struct Head {
    version: Version,
    revision: u32,
    modules: u32,
    programs: u32,
}

impl Library {
    /// The library of a file of version 1 or 2, by docs/formats.md. Other bytes are refused with the place of the first
    /// field that is missing, cut, out of its range or out of order, or of the first byte after the end.
    /// `FormatError::Memory` comes only when memory runs out.
    pub fn read(alloc: Global, b: &[u8]) -> Result<Library, FormatError>
        ensures reads { Gives library_seen result (offset_of (length b.now) (library_read b.now)) }
        ensures library { IfOk result (λ l. IsLibrary (library_seen l)) }
        ensures file { IfOk result (IsFile b.now) }
        ensures written { IfOk result (λ l. IsPresent b.now l → library_bytes l ≡ b.now) }
        ensures every_library { (l : Contents) → IsLibrary (library_seen l) → b.now ≡ library_bytes l → MatchResult result (λ p. library_seen p ≡ library_seen l) (λ e. e ≡ FormatError.Memory) }
    {
        let mut library = Library::empty(alloc);
        match read_whole(alloc, &mut library, b) {
            Ok(()) => Ok(library),
            Err(error) => Err(at_offset(b, error)),
        }
    }
}

/// Reads a file into a library.
#[tactic(auto, unfolding(crate::specs::LibraryReading::library_into))]
fn read_whole(alloc: Global, library: &mut Library, b: &[u8]) -> Result<(), FormatError>
    ensures { Gives (λ u. library_seen library.new) result (library_into (library_seen library.old) b.now) }
{
    let (head, rest) = head_at(b)?;
    library.revision = head.revision;
    let rest = modules_at(alloc, library, head.version, head.modules, rest)?;
    let rest = programs_at(alloc, &mut library.programs, head.programs, rest)?;
    end(rest)?;
    Ok(())
}

#[tactic(auto, unfolding(crate::specs::LibraryReading::head_read))]
fn head_at(bytes: &[u8]) -> Result<(Head, &[u8]), FormatError>
    ensures { Gives (λ x. (x.0, x.1.now)) result (head_read bytes.now) }
{
    let field = mark(b"CLUL", bytes)?;
    let (number, rest) = u32_field(field)?;
    head_by(number, field, rest)
}

/// The head of the version of this number, whose field starts where `field` does.
fn head_by<'a>(number: u32, field: &[u8], rest: &'a [u8]) -> Result<(Head, &'a [u8]), FormatError>
    ensures { Gives (λ x. (x.0, x.1.now)) result (head_by number field.now rest.now) }
{
    match number {
        1 => counts_at(Version::First, 0, rest),
        2 => second_head_at(rest),
        _ => Err(fault(field)),
    }
}

fn second_head_at(bytes: &[u8]) -> Result<(Head, &[u8]), FormatError>
    ensures { Gives (λ x. (x.0, x.1.now)) result (second_head_read bytes.now) }
{
    let (revision, rest) = u32_field(bytes)?;
    counts_at(Version::Second, revision, rest)
}

fn counts_at(version: Version, revision: u32, bytes: &[u8]) -> Result<(Head, &[u8]), FormatError>
    ensures { Gives (λ x. (x.0, x.1.now)) result (counts_read version revision bytes.now) }
{
    let (modules, rest) = number_up_to(LIMIT, bytes)?;
    let (programs, rest) = number_up_to(LIMIT, rest)?;
    let head = Head {
        version,
        revision,
        modules,
        programs,
    };
    Ok((head, rest))
}

/// A number that is at most this one.
pub fn number_up_to(most: u32, bytes: &[u8]) -> Result<(u32, &[u8]), FormatError>
    ensures { Gives (λ x. (x.0, x.1.now)) result (number_up_to most bytes.now) }
{
    let (number, rest) = u32_field(bytes)?;
    if number > most {
        return Err(fault(bytes));
    }
    Ok((number, rest))
}
