//! The command `list`: writes an image as assembly text.

ghost use Rattle.std.specs.Prelude.{◌≡◌, ◌≤◌, IfErr, IfOk};
ghost use Rattle.clu_driver.specs.Commands.{IsListing, ListShows, NotLoaded};
ghost use Rattle.clu_driver.specs.Found.{IsFound};
ghost use Rattle.clu_driver.specs.Shows.{Reported};

use crate::executing::loaded;
use crate::printing::write_text;
use clu_asm::asm_text;
use clu_base::{Bytes, Sink, Store};
use clu_outcome::{Outcome, report};
use std::alloc::Global;

/// Lists the image file `image`.
pub fn list<K: Sink, E: Sink, F: Store>(
    alloc: Global,
    image: &str,
    output: &mut K,
    errors: &mut E,
    files: &mut F,
) -> u8
    ensures told { Reported (λ how. ListShows how image.now
        (F.files files.old) (F.faults files.old) (K.written output.old) (K.faults output.old)
        (F.files files.new) (F.faults files.new) (K.written output.new) (K.faults output.new))
        result (E.written errors.old) (E.written errors.new) (E.faults errors.old) (E.faults errors.new) }
{
    match listing(alloc, image, files) {
        Ok(text) => write_text(text.as_slice(), output, errors),
        Err(how) => report(errors, &how),
    }
}

// The assembly text of an image file.
fn listing<'a, F: Store>(alloc: Global, name: &'a str, files: &mut F) -> Result<Bytes, Outcome<'a>>
    ensures counts { F.faults files.old ≤ F.faults files.new }
    ensures kept { F.files files.new ≡ F.files files.old }
    ensures text { IfOk result (λ text. IsFound (F.files files.old) name.now (λ bytes. IsListing bytes text)) }
    ensures refused { IfErr result (λ how. NotLoaded how name.now (F.files files.old) (F.faults files.old) (F.faults files.new)) }
{
    let image = loaded(alloc, name, files)?;
    match asm_text(alloc, &image) {
        Ok(text) => Ok(text),
        Err(_) => Err(Outcome::Memory),
    }
}
