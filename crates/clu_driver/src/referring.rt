//! The command `xref`: writes which modules of a library name which.

ghost use Rattle.std.specs.Prelude.{◌≡◌, ◌≤◌, IfErr, IfOk};
ghost use Rattle.clu_driver.specs.Held.{NotLibrary};
ghost use Rattle.clu_driver.specs.Libraries.{IsReferenceText, XrefShows};
ghost use Rattle.clu_driver.specs.Shows.{Reported};

use crate::libraries::library_in;
use crate::printing::write_text;
use clu_base::{Sink, Store};
use clu_build::cross_reference;
use clu_outcome::{Outcome, report};
use std::alloc::Global;

/// Writes the cross-reference of the library `library`.
pub fn refer<K: Sink, E: Sink, F: Store>(
    alloc: Global,
    library: &str,
    output: &mut K,
    errors: &mut E,
    files: &mut F,
) -> u8
    ensures told { Reported (λ how. XrefShows how library.now
        (F.files files.old) (F.faults files.old) (K.written output.old) (K.faults output.old)
        (F.files files.new) (F.faults files.new) (K.written output.new) (K.faults output.new))
        result (E.written errors.old) (E.written errors.new) (E.faults errors.old) (E.faults errors.new) }
{
    match references(alloc, library, files) {
        Ok(text) => write_text(&text, output, errors),
        Err(how) => report(errors, &how),
    }
}

// The cross-reference of a library file.
fn references<'a, F: Store>(
    alloc: Global,
    name: &'a str,
    files: &mut F,
) -> Result<Vec<u8>, Outcome<'a>>
    ensures counts { F.faults files.old ≤ F.faults files.new }
    ensures kept { F.files files.new ≡ F.files files.old }
    ensures text { IfOk result (λ text. IsReferenceText (F.files files.old) name.now text.items) }
    ensures refused { IfErr result (λ how. NotLibrary how name.now (F.files files.old) (F.faults files.old) (F.faults files.new)) }
{
    let library = library_in(alloc, name, files)?;
    match cross_reference(alloc, &library) {
        Ok(text) => Ok(text),
        Err(_) => Err(Outcome::Memory),
    }
}
