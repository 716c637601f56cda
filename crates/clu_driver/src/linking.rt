//! The command `link`: links a program of a library and enters it.

ghost use Rattle.std.specs.Prelude.{◌≡◌, IfErr, IfOk, OnOk, map};
ghost use Rattle.std.specs.Char.{to_ascii_lowercase};
ghost use Rattle.clu_build.specs.Programs.{IsLinked};
ghost use Rattle.clu_driver.specs.Libraries.{LinkShows, LinkedShows};
ghost use Rattle.clu_build.specs.Refusals.{IsOfProgram};
ghost use Rattle.clu_driver.specs.Shows.{Reported};

use crate::libraries::{library_in, put_library};
use crate::refusals::refusal_of;
use clu_base::{Bytes, Memory, Sink, Store};
use clu_build::{BuildError, enter_program};
use clu_library::Library;
use clu_outcome::report;
use std::alloc::Global;

/// Links the program that starts with the module `start`, in lower case, and enters it into the library as `program`.
pub fn link<E: Sink, F: Store>(
    alloc: Global,
    library: &str,
    program: &str,
    start: &str,
    errors: &mut E,
    files: &mut F,
) -> u8
    ensures told { Reported (λ how. LinkShows how library.now program.now start.now (F.files files.old) (F.faults files.old) (F.files files.new) (F.faults files.new))
        result (E.written errors.old) (E.written errors.new) (E.faults errors.old) (E.faults errors.new) }
{
    match library_in(alloc, library, files) {
        Ok(mut kept) => link_and_put(alloc, library, &mut kept, program, start, errors, files),
        Err(how) => report(errors, &how),
    }
}

// Links a program, enters it and puts the library.
fn link_and_put<E: Sink, F: Store>(
    alloc: Global,
    name: &str,
    library: &mut Library,
    program: &str,
    start: &str,
    errors: &mut E,
    files: &mut F,
) -> u8
    ensures told { Reported (λ how. LinkedShows how name.now program.now (map to_ascii_lowercase start.now) library.old (F.files files.old) (F.faults files.old) (F.files files.new) (F.faults files.new))
        result (E.written errors.old) (E.written errors.new) (E.faults errors.old) (E.faults errors.new) }
{
    match linked(alloc, library, program, start) {
        Ok(()) => put_library(alloc, name, library, errors, files),
        Err(error) => report(errors, &refusal_of(&error)),
    }
}

fn linked(
    alloc: Global,
    library: &mut Library,
    program: &str,
    start: &str,
) -> Result<(), BuildError>
    ensures entered { OnOk result (IsLinked library.old library.new program.now (map to_ascii_lowercase start.now)) }
    ensures refused { IfErr result (λ e. IsOfProgram e library.old (map to_ascii_lowercase start.now)) }
{
    let program = Bytes::from_slice(alloc, program.as_bytes())?;
    let start = in_lower_case(alloc, start)?;
    enter_program(alloc, library, &program, &start)
}

/// The letters of ASCII in lower case.
fn in_lower_case(alloc: Global, name: &str) -> Result<Bytes, Memory>
    ensures { IfOk result (λ lower. lower ≡ map to_ascii_lowercase name.now) }
{
    let lower = name
        .as_bytes()
        .iter()
        .map(|b| b.to_ascii_lowercase())
        .collect(alloc)?;
    Ok(Bytes::from_vec(lower))
}
