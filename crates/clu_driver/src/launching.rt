//! The command `run`: runs a program of a library.

ghost use Rattle.std.specs.Prelude.{◌≡◌};
ghost use Rattle.clu_words.specs.Command.{seen_limits};
ghost use Rattle.clu_driver.specs.Libraries.{ProgramShows, RunOfShows};
ghost use Rattle.clu_driver.specs.Shows.{Reported};
ghost use Rattle.clu_driver.specs.World.{streams_of, world_of};

use crate::libraries::library_in;
use crate::running;
use clu_base::{Bytes, Sink, Source, Store};
use clu_library::Library;
use clu_outcome::{Outcome, report};
use clu_words::RunLimits;
use std::alloc::Global;

/// Runs the program `program` of the library `library`.
pub fn run<S: Source, K: Sink, E: Sink, F: Store>(
    alloc: Global,
    library: &str,
    program: &str,
    limits: RunLimits,
    input: &mut S,
    output: &mut K,
    errors: &mut E,
    files: &mut F,
) -> u8
    ensures told { Reported (λ how. RunOfShows how library.now program.now (seen_limits limits)
        (world_of (F.files files.old) (F.faults files.old) (streams_of (S.left input.old) (S.faults input.old) (K.written output.old) (K.faults output.old)))
        (world_of (F.files files.new) (F.faults files.new) (streams_of (S.left input.new) (S.faults input.new) (K.written output.new) (K.faults output.new))))
        result (E.written errors.old) (E.written errors.new) (E.faults errors.old) (E.faults errors.new) }
{
    match library_in(alloc, library, files) {
        Ok(kept) => run_of(alloc, &kept, program, limits, input, output, errors),
        Err(how) => report(errors, &how),
    }
}

// Runs a program of a library.
fn run_of<S: Source, K: Sink, E: Sink>(
    alloc: Global,
    library: &Library,
    name: &str,
    limits: RunLimits,
    input: &mut S,
    output: &mut K,
    errors: &mut E,
) -> u8
    ensures told { Reported (λ how. ProgramShows how name.now library.now (seen_limits limits)
        (streams_of (S.left input.old) (S.faults input.old) (K.written output.old) (K.faults output.old))
        (streams_of (S.left input.new) (S.faults input.new) (K.written output.new) (K.faults output.new)))
        result (E.written errors.old) (E.written errors.new) (E.faults errors.old) (E.faults errors.new) }
{
    match Bytes::from_slice(alloc, name.as_bytes()) {
        Ok(wanted) => match library.program(&wanted) {
            Some(kept) => running::run(alloc, &kept.image, limits, input, output, errors),
            None => report(errors, &Outcome::NoProgram(name)),
        },
        Err(_) => report(errors, &Outcome::Memory),
    }
}
