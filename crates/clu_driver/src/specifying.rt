//! The commands `spec` and `replace`: enter the specifications of a source's modules into a library.

ghost use Rattle.std.specs.Prelude.{◌≡◌, IfErr, OnOk};
ghost use Rattle.clu_checked.specs.Sources.{AreKept, IsRead, IsSource};
ghost use Rattle.clu_driver.specs.Libraries.{IsSpecified, SpecifiedShows, SpecifyShows, SpecsShow};
ghost use Rattle.clu_driver.specs.Refusals.{IsOfSpecifying};
ghost use Rattle.clu_driver.specs.Shows.{Reported};

use crate::checking::headings;
use crate::gathering::{Gathered, gather};
use crate::libraries::put_library;
use crate::refusals::refusal_of;
use clu_base::{Sink, Store};
use clu_build::{BuildError, enter_specs, replace_specs};
use clu_library::Library;
use clu_outcome::report;
use clu_types::Spec;
use std::alloc::Global;

/// What becomes of a kept specification that is not the one of the source.
#[derive(Clone, Copy)]
pub enum Kept {
    /// It stays, and the source is refused.
    Stays,
    /// The source's takes its place.
    Goes,
}

/// Enters the specifications of the source `file` into the library `library`.
pub fn specify<E: Sink, F: Store>(
    alloc: Global,
    kept: Kept,
    library: &str,
    file: &str,
    errors: &mut E,
    files: &mut F,
) -> u8
    ensures told { Reported (λ how. SpecifyShows kept how library.now file.now (F.files files.old) (F.faults files.old) (F.files files.new) (F.faults files.new))
        result (E.written errors.old) (E.written errors.new) (E.faults errors.old) (E.faults errors.new) }
{
    match gather(alloc, library, file, files) {
        Ok(gathered) => specify_source(alloc, kept, library, file, gathered, errors, files),
        Err(how) => report(errors, &how),
    }
}

// Enters the specifications of a source.
fn specify_source<E: Sink, F: Store>(
    alloc: Global,
    kept: Kept,
    library: &str,
    file: &str,
    gathered: Gathered,
    errors: &mut E,
    files: &mut F,
) -> u8
    requires parsed { IsSource gathered.source.value.bytes.items gathered.source.value.tokens.items gathered.source.value.syntax }
    requires read { IsRead gathered.source.value.bytes.items gathered.source.value.tokens.items gathered.source.value.syntax }
    requires specs { AreKept gathered.library.value.specs }
    ensures told { Reported (λ how. SpecifiedShows kept how library.now file.now gathered.source.value.syntax gathered.library.value (F.files files.old) (F.faults files.old) (F.files files.new) (F.faults files.new))
        result (E.written errors.old) (E.written errors.new) (E.faults errors.old) (E.faults errors.new) }
{
    let Gathered {
        library: mut known,
        source,
    } = gathered;
    match headings(alloc, file, &source.syntax, known.specs()) {
        Ok(specs) => enter_and_put(alloc, kept, library, &mut known, &specs, errors, files),
        Err(how) => report(errors, &how),
    }
}

// Enters specifications into a library and puts it.
fn enter_and_put<E: Sink, F: Store>(
    alloc: Global,
    kept: Kept,
    name: &str,
    library: &mut Library,
    specs: &[Spec],
    errors: &mut E,
    files: &mut F,
) -> u8
    ensures told { Reported (λ how. SpecsShow kept how name.now library.old specs.now (F.files files.old) (F.faults files.old) (F.files files.new) (F.faults files.new))
        result (E.written errors.old) (E.written errors.new) (E.faults errors.old) (E.faults errors.new) }
{
    match enter(alloc, kept, library, specs) {
        Ok(()) => put_library(alloc, name, library, errors, files),
        Err(error) => report(errors, &refusal_of(&error)),
    }
}

fn enter(alloc: Global, kept: Kept, library: &mut Library, specs: &[Spec]) -> Result<(), BuildError>
    ensures specified { OnOk result (IsSpecified kept library.old specs.now library.new) }
    ensures refused { IfErr result (λ e. IsOfSpecifying kept e library.old specs.now) }
{
    match kept {
        Kept::Stays => enter_specs(alloc, library, specs),
        Kept::Goes => replace_specs(alloc, library, specs),
    }
}
