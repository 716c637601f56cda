//! The command `print`: writes a source in its one layout.

ghost use Rattle.std.specs.Prelude.{◌≡◌, ◌≤◌, IfErr, IfOk};
ghost use Rattle.clu_driver.specs.Commands.{IsPrintOf, PrintedShows};
ghost use Rattle.clu_driver.specs.Shows.{Reported, TextShows};
ghost use Rattle.clu_driver.specs.Found.{IsFound};
ghost use Rattle.clu_driver.specs.Sources.{NotParsed};

use crate::sources::parse_file;
use clu_base::{Bytes, Failed, Sink, Store, write_all};
use clu_outcome::{Outcome, report};
use clu_printer::printed;
use std::alloc::Global;

/// Prints the source `file`.
pub fn print<K: Sink, E: Sink, F: Store>(
    alloc: Global,
    file: &str,
    output: &mut K,
    errors: &mut E,
    files: &mut F,
) -> u8
    ensures told { Reported (λ how. PrintedShows how file.now
        (F.files files.old) (F.faults files.old) (K.written output.old) (K.faults output.old)
        (F.files files.new) (F.faults files.new) (K.written output.new) (K.faults output.new))
        result (E.written errors.old) (E.written errors.new) (E.faults errors.old) (E.faults errors.new) }
{
    match printed_text(alloc, file, files) {
        Ok(text) => write_text(text.as_slice(), output, errors),
        Err(how) => report(errors, &how),
    }
}

// The printed text of a source file.
fn printed_text<'a, F: Store>(
    alloc: Global,
    file: &'a str,
    files: &mut F,
) -> Result<Bytes, Outcome<'a>>
    ensures counts { F.faults files.old ≤ F.faults files.new }
    ensures kept { F.files files.new ≡ F.files files.old }
    ensures printed { IfOk result (λ text. IsFound (F.files files.old) file.now (λ bytes. IsPrintOf bytes text)) }
    ensures refused { IfErr result (λ how. NotParsed how file.now (F.files files.old) (F.faults files.old) (F.faults files.new)) }
{
    let source = parse_file(alloc, file, files)?;
    match printed(alloc, &source.bytes, &source.tokens, source.syntax.tree()) {
        Ok(text) => Ok(text),
        Err(_) => Err(Outcome::Memory),
    }
}

/// Writes a text to the output and reports how that ended.
pub fn write_text<K: Sink, E: Sink>(text: &[u8], output: &mut K, errors: &mut E) -> u8
    ensures told { Reported (λ how. TextShows how text.now (K.written output.old) (K.faults output.old) (K.written output.new) (K.faults output.new))
        result (E.written errors.old) (E.written errors.new) (E.faults errors.old) (E.faults errors.new) }
{
    match write_all(output, text) {
        Ok(()) => report(errors, &Outcome::Done),
        Err(Failed) => report(errors, &Outcome::WriteFault),
    }
}
