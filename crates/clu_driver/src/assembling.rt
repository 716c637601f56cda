//! The command `asm`: puts the image of an assembly text.

ghost use Rattle.std.specs.Prelude.{◌≡◌, ◌≤◌, IfErr, IfOk};
ghost use Rattle.clu_asm.specs.AssemblyText.{asm_text};
ghost use Rattle.clu_driver.specs.Commands.{AsmShows, AssembledShows, NotAssembled};
ghost use Rattle.clu_driver.specs.Found.{IsFound};
ghost use Rattle.clu_driver.specs.Shows.{Reported};

use crate::compiling::put_image;
use crate::file::content;
use clu_asm::read_asm;
use clu_base::{FormatError, Sink, Store};
use clu_outcome::{Outcome, report};
use rv_isa::Image;
use std::alloc::Global;

/// Puts the image of the assembly text `file` as `image`.
pub fn assemble<E: Sink, F: Store>(
    alloc: Global,
    file: &str,
    image: &str,
    errors: &mut E,
    files: &mut F,
) -> u8
    ensures told { Reported (λ how. AsmShows how file.now image.now (F.files files.old) (F.faults files.old) (F.files files.new) (F.faults files.new))
        result (E.written errors.old) (E.written errors.new) (E.faults errors.old) (E.faults errors.new) }
{
    match assembled(alloc, file, files) {
        Ok(made) => put_assembled(alloc, image, &made, errors, files),
        Err(how) => report(errors, &how),
    }
}

// The image of the text in a file.
fn assembled<'a, F: Store>(
    alloc: Global,
    name: &'a str,
    files: &mut F,
) -> Result<Image, Outcome<'a>>
    ensures counts { F.faults files.old ≤ F.faults files.new }
    ensures kept { F.files files.new ≡ F.files files.old }
    ensures text { IfOk result (λ image. IsFound (F.files files.old) name.now (λ bytes. bytes ≡ asm_text image)) }
    ensures refused { IfErr result (λ how. NotAssembled how name.now (F.files files.old) (F.faults files.old) (F.faults files.new)) }
{
    let bytes = content(alloc, name, files)?;
    match read_asm(alloc, &bytes) {
        Ok(image) => Ok(image),
        Err(FormatError::Bad(offset)) => Err(Outcome::AsmBad(offset)),
        Err(FormatError::Memory) => Err(Outcome::Memory),
    }
}

// Puts an image and reports how that ended.
fn put_assembled<E: Sink, F: Store>(
    alloc: Global,
    name: &str,
    image: &Image,
    errors: &mut E,
    files: &mut F,
) -> u8
    ensures told { Reported (λ how. AssembledShows how name.now image.now (F.files files.old) (F.files files.new) (F.faults files.old) (F.faults files.new))
        result (E.written errors.old) (E.written errors.new) (E.faults errors.old) (E.faults errors.new) }
{
    match put_image(alloc, name, image, files) {
        Ok(()) => report(errors, &Outcome::Done),
        Err(how) => report(errors, &how),
    }
}
