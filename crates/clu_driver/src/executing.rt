//! The command `exec`: runs an image file.

ghost use Rattle.std.specs.Prelude.{◌≡◌, ◌≤◌, IfErr, IfOk};
ghost use Rattle.clu_image.specs.ImageFile.{IsFileOf};
ghost use Rattle.clu_words.specs.Command.{seen_limits};
ghost use Rattle.clu_driver.specs.Commands.{ExecShows, NotLoaded};
ghost use Rattle.clu_driver.specs.Found.{IsFound};
ghost use Rattle.clu_driver.specs.Shows.{Reported};
ghost use Rattle.clu_driver.specs.World.{streams_of, world_of};

use crate::file::content;
use crate::running::run;
use clu_base::{FormatError, Sink, Source, Store};
use clu_image::load;
use clu_outcome::{Outcome, report};
use clu_words::RunLimits;
use rv_isa::Image;
use std::alloc::Global;

/// Runs the image file `image`.
pub fn exec<S: Source, K: Sink, E: Sink, F: Store>(
    alloc: Global,
    image: &str,
    limits: RunLimits,
    input: &mut S,
    output: &mut K,
    errors: &mut E,
    files: &mut F,
) -> u8
    ensures told { Reported (λ how. ExecShows how image.now (seen_limits limits)
        (world_of (F.files files.old) (F.faults files.old) (streams_of (S.left input.old) (S.faults input.old) (K.written output.old) (K.faults output.old)))
        (world_of (F.files files.new) (F.faults files.new) (streams_of (S.left input.new) (S.faults input.new) (K.written output.new) (K.faults output.new))))
        result (E.written errors.old) (E.written errors.new) (E.faults errors.old) (E.faults errors.new) }
{
    match loaded(alloc, image, files) {
        Ok(loaded) => run(alloc, &loaded, limits, input, output, errors),
        Err(outcome) => report(errors, &outcome),
    }
}

/// The image of the file. The outcomes are `NoFile`, `FileFault`, `ImageBad` and `Memory`.
pub fn loaded<'a, F: Store>(
    alloc: Global,
    name: &'a str,
    files: &mut F,
) -> Result<Image, Outcome<'a>>
    ensures counts { F.faults files.old ≤ F.faults files.new }
    ensures kept { F.files files.new ≡ F.files files.old }
    ensures found { IfOk result (λ image. IsFound (F.files files.old) name.now (λ bytes. IsFileOf bytes image)) }
    ensures refused { IfErr result (λ how. NotLoaded how name.now (F.files files.old) (F.faults files.old) (F.faults files.new)) }
{
    let bytes = content(alloc, name, files)?;
    match load(alloc, &bytes) {
        Ok(image) => Ok(image),
        Err(FormatError::Bad(offset)) => Err(Outcome::ImageBad(offset)),
        Err(FormatError::Memory) => Err(Outcome::Memory),
    }
}
