//! Libraries as files. An absent file is an empty library.

ghost use Rattle.std.specs.Prelude.{◌≡◌, ◌≤◌, IfErr, IfOk, List, OnOk, Option, Some, option_map, ℕ};
ghost use Rattle.clu_library.specs.LibraryFile.{library_bytes};
ghost use Rattle.clu_checked.specs.Sources.{AreKept};
ghost use Rattle.clu_driver.specs.Held.{HasLibrary, IsLibraryFile, IsLibraryOf, IsUnreadable, NotLibrary};
ghost use Rattle.clu_driver.specs.Libraries.{BytesShow, IsUnwritable, LibraryShows};
ghost use Rattle.clu_driver.specs.Shows.{Reported};

use crate::file::{content_if_any, put};
use clu_base::{Bytes, FormatError, Sink, Store};
use clu_library::Library;
use clu_outcome::{Outcome, report};
use std::alloc::Global;

/// The library in a file. The outcomes are `FileFault`, `LibraryBad` and `Memory`.
pub fn library_in<'a, F: Store>(
    alloc: Global,
    name: &'a str,
    files: &mut F,
) -> Result<Box<Library>, Outcome<'a>>
    ensures counts { F.faults files.old ≤ F.faults files.new }
    ensures kept { F.files files.new ≡ F.files files.old }
    ensures library { IfOk result (λ library. HasLibrary (F.files files.old) name.now library.value) }
    ensures refused { IfErr result (λ how. NotLibrary how name.now (F.files files.old) (F.faults files.old) (F.faults files.new)) }
{
    let content = content_if_any(alloc, name, files)?;
    library_of(alloc, content)
}

/// The library of a file's content. The outcomes are `LibraryBad` and `Memory`.
pub fn library_of<'a>(alloc: Global, content: Option<Vec<u8>>) -> Result<Box<Library>, Outcome<'a>>
    ensures library { IfOk result (λ library. IsLibraryOf (option_map (λ v. v.items) content) library.value) }
    ensures specs { IfOk result (λ library. AreKept library.value.specs) }
    ensures refused { IfErr result (λ how. IsUnreadable how (option_map (λ v. v.items) content)) }
{
    match content {
        Some(bytes) => read(alloc, &bytes),
        None => boxed(alloc, Library::empty(alloc)),
    }
}

fn read<'a>(alloc: Global, bytes: &[u8]) -> Result<Box<Library>, Outcome<'a>>
    ensures library { IfOk result (λ library. IsLibraryOf (Some bytes.now) library.value) }
    ensures specs { IfOk result (λ library. AreKept library.value.specs) }
    ensures refused { IfErr result (λ how. IsUnreadable how (Some bytes.now)) }
{
    match Library::read(alloc, bytes) {
        Ok(library) => {
            library.sound();
            boxed(alloc, library)
        }
        Err(FormatError::Bad(offset)) => Err(Outcome::LibraryBad(offset)),
        Err(FormatError::Memory) => Err(Outcome::Memory),
    }
}

fn boxed<'a>(alloc: Global, library: Library) -> Result<Box<Library>, Outcome<'a>>
    ensures same { IfOk result (λ kept. kept.value ≡ library) }
    ensures refused { IfErr result (λ how. (content : Option (List ℕ)) → IsUnreadable how content) }
{
    match Box::new(alloc, library) {
        Ok(library) => Ok(library),
        Err(_) => Err(Outcome::Memory),
    }
}

/// Puts a library and reports how that ended.
pub fn put_library<E: Sink, F: Store>(
    alloc: Global,
    name: &str,
    library: &Library,
    errors: &mut E,
    files: &mut F,
) -> u8
    ensures told { Reported (λ how. LibraryShows how name.now library.now (F.files files.old) (F.files files.new) (F.faults files.old) (F.faults files.new))
        result (E.written errors.old) (E.written errors.new) (E.faults errors.old) (E.faults errors.new) }
{
    match file_of(alloc, library) {
        Ok(bytes) => put_bytes(alloc, name, bytes.as_slice(), errors, files),
        Err(how) => report(errors, &how),
    }
}

// The file of a library. No contract shows yet that every library is read again: it is tried.
fn file_of<'a>(alloc: Global, library: &Library) -> Result<Bytes, Outcome<'a>>
    ensures bytes { IfOk result (λ b. b ≡ library_bytes library.now) }
    ensures read { OnOk result (IsLibraryFile (Some (library_bytes library.now))) }
    ensures refused { IfErr result IsUnwritable }
{
    match library.write(alloc) {
        Ok(bytes) => match Library::read(alloc, bytes.as_slice()) {
            Ok(_) => Ok(bytes),
            Err(FormatError::Bad(_)) => Err(Outcome::NotYet),
            Err(FormatError::Memory) => Err(Outcome::Memory),
        },
        Err(_) => Err(Outcome::Memory),
    }
}

// Puts the bytes of a library and reports how that ended.
fn put_bytes<E: Sink, F: Store>(
    alloc: Global,
    name: &str,
    bytes: &[u8],
    errors: &mut E,
    files: &mut F,
) -> u8
    ensures told { Reported (λ how. BytesShow how name.now bytes.now (F.files files.old) (F.files files.new) (F.faults files.old) (F.faults files.new))
        result (E.written errors.old) (E.written errors.new) (E.faults errors.old) (E.faults errors.new) }
{
    match put(alloc, name, bytes, files) {
        Ok(()) => report(errors, &Outcome::Done),
        Err(how) => report(errors, &how),
    }
}
