//! The command `compile`: checks a source under a library's specifications and enters its modules.

ghost use Rattle.std.specs.Prelude.{◌≡◌};
ghost use Rattle.clu_build.specs.Entering.{own_of, text_at};
ghost use Rattle.clu_checked.specs.Sources.{AreKept, IsRead, IsSource};
ghost use Rattle.clu_driver.specs.Libraries.{CompileShows, CompiledShows, EnteredShows};
ghost use Rattle.clu_driver.specs.Shows.{Reported};

use crate::checking::checked;
use crate::gathering::{Gathered, gather};
use crate::libraries::put_library;
use crate::refusals::refusal_of;
use crate::sources::Parsed;
use clu_base::{Sink, Store};
use clu_build::{Text, enter_file};
use clu_core::Checked;
use clu_library::Library;
use clu_outcome::report;
use std::alloc::Global;

/// Compiles the source `file` into the library `library`, by shorter code if `peep` is true.
pub fn compile<E: Sink, F: Store>(
    alloc: Global,
    library: &str,
    file: &str,
    peep: bool,
    errors: &mut E,
    files: &mut F,
) -> u8
    ensures told { Reported (λ how. CompileShows how library.now file.now (F.files files.old) (F.faults files.old) (F.files files.new) (F.faults files.new))
        result (E.written errors.old) (E.written errors.new) (E.faults errors.old) (E.faults errors.new) }
{
    match gather(alloc, library, file, files) {
        Ok(gathered) => compile_source(alloc, library, file, gathered, peep, errors, files),
        Err(how) => report(errors, &how),
    }
}

// Compiles a source.
fn compile_source<E: Sink, F: Store>(
    alloc: Global,
    name: &str,
    file: &str,
    gathered: Gathered,
    peep: bool,
    errors: &mut E,
    files: &mut F,
) -> u8
    requires parsed { IsSource gathered.source.value.bytes.items gathered.source.value.tokens.items gathered.source.value.syntax }
    requires read { IsRead gathered.source.value.bytes.items gathered.source.value.tokens.items gathered.source.value.syntax }
    requires specs { AreKept gathered.library.value.specs }
    ensures told { Reported (λ how. CompiledShows how name.now file.now gathered.library.value gathered.source.value.bytes.items gathered.source.value.tokens.items gathered.source.value.syntax (F.files files.old) (F.faults files.old) (F.files files.new) (F.faults files.new))
        result (E.written errors.old) (E.written errors.new) (E.faults errors.old) (E.faults errors.new) }
{
    let Gathered {
        mut library,
        source,
    } = gathered;
    let Parsed {
        bytes,
        tokens,
        syntax,
    } = Box::into_inner(source);
    let text = Text {
        bytes: &bytes,
        tokens: &tokens,
    };
    match checked(alloc, file, syntax, library.specs()) {
        Ok(checked) => enter_and_put(
            alloc,
            name,
            &mut library,
            text,
            &checked,
            peep,
            errors,
            files,
        ),
        Err(how) => report(errors, &how),
    }
}

// Enters the modules of a checked source into a library and puts it.
fn enter_and_put<E: Sink, F: Store>(
    alloc: Global,
    name: &str,
    library: &mut Library,
    text: Text<'_>,
    checked: &Checked,
    peep: bool,
    errors: &mut E,
    files: &mut F,
) -> u8
    ensures told { Reported (λ how. EnteredShows how name.now library.old (own_of checked.now) (text_at text.entry.bytes.now text.entry.tokens.now checked.now.syntax) (F.files files.old) (F.faults files.old) (F.files files.new) (F.faults files.new))
        result (E.written errors.old) (E.written errors.new) (E.faults errors.old) (E.faults errors.new) }
{
    match enter_file(alloc, library, text, checked, peep) {
        Ok(()) => put_library(alloc, name, library, errors, files),
        Err(error) => report(errors, &refusal_of(&error)),
    }
}
