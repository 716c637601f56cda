//! The command `go`: checks a source, links it, puts its image and runs it.

ghost use Rattle.std.specs.Prelude.{◌≡◌, ◌≤◌, [], IfErr, IfOk, OnOk, length, take};
ghost use Rattle.std.specs.Option.{is_some};
ghost use Rattle.clu_image.specs.ImageFile.{image_bytes};
ghost use Rattle.clu_tree.specs.Nodes.{modules};
ghost use Rattle.clu_words.specs.Command.{seen_limits};
ghost use Rattle.clu_checked.specs.Sources.{IsRead, IsSource};
ghost use Rattle.clu_driver.specs.Commands.{GoShows, IsImagePut, PutShows};
ghost use Rattle.clu_driver.specs.Puts.{NotPut};
ghost use Rattle.clu_driver.specs.Sources.{IsAccepted, IsChecked, NotBuilt, NotCompiled, NotMade};
ghost use Rattle.clu_driver.specs.Found.{IsFound};
ghost use Rattle.clu_driver.specs.Shows.{IsAsked, Reported, untraced};
ghost use Rattle.clu_driver.specs.World.{streams_of, world_of};

use crate::building::{Built, Flags, image_of_modules};
use crate::checking::checked;
use crate::file::put;
use crate::running::run_with;
use crate::sources::{Parsed, parse_file};
use clu_base::{Sink, Source, Store, Token};
use clu_build::Text;
use clu_core::Checked;
use clu_image::store;
use clu_outcome::{Outcome, report};
use clu_trace::TraceMap;
use clu_types::Specs;
use clu_words::RunLimits;
use rv_isa::Image;
use std::alloc::Global;

/// Compiles the source `file` into the image file `image` and runs that image. If the run is traced, a failure is told with
/// the instances that were live at its last raise.
pub fn go<S: Source, K: Sink, E: Sink, F: Store>(
    alloc: Global,
    file: &str,
    image: &str,
    limits: RunLimits,
    flags: Flags,
    input: &mut S,
    output: &mut K,
    errors: &mut E,
    files: &mut F,
) -> u8
    ensures told { Reported (λ how. IsAsked how flags.trace × GoShows (untraced how) file.now image.now (seen_limits limits)
        (world_of (F.files files.old) (F.faults files.old) (streams_of (S.left input.old) (S.faults input.old) (K.written output.old) (K.faults output.old)))
        (world_of (F.files files.new) (F.faults files.new) (streams_of (S.left input.new) (S.faults input.new) (K.written output.new) (K.faults output.new))))
        result (E.written errors.old) (E.written errors.new) (E.faults errors.old) (E.faults errors.new) }
{
    match compiled(alloc, file, flags, files) {
        Ok(compiled) => {
            let Built { image: made, map } = compiled;
            put_and_run(
                alloc, image, &made, map, limits, input, output, errors, files,
            )
        }
        Err(how) => report(errors, &how),
    }
}

// Puts an image under its name and runs it.
fn put_and_run<S: Source, K: Sink, E: Sink, F: Store>(
    alloc: Global,
    name: &str,
    image: &Image,
    map: Option<TraceMap>,
    limits: RunLimits,
    input: &mut S,
    output: &mut K,
    errors: &mut E,
    files: &mut F,
) -> u8
    ensures told { Reported (λ how. IsAsked how (is_some map) × PutShows (untraced how) name.now image.now (seen_limits limits)
        (world_of (F.files files.old) (F.faults files.old) (streams_of (S.left input.old) (S.faults input.old) (K.written output.old) (K.faults output.old)))
        (world_of (F.files files.new) (F.faults files.new) (streams_of (S.left input.new) (S.faults input.new) (K.written output.new) (K.faults output.new))))
        result (E.written errors.old) (E.written errors.new) (E.faults errors.old) (E.faults errors.new) }
{
    match put_image(alloc, name, image, files) {
        Ok(()) => run_with(alloc, image, map, limits, input, output, errors),
        Err(how) => report(errors, &how),
    }
}

// The image of the source file.
fn compiled<'a, F: Store>(
    alloc: Global,
    file: &'a str,
    flags: Flags,
    files: &mut F,
) -> Result<Built, Outcome<'a>>
    ensures traced { IfOk result (λ built. is_some built.map ≡ flags.trace) }
    ensures counts { F.faults files.old ≤ F.faults files.new }
    ensures kept { F.files files.new ≡ F.files files.old }
    ensures accepted { OnOk result (IsFound (F.files files.old) file.now IsAccepted) }
    ensures refused { IfErr result (λ how. NotCompiled how file.now (F.files files.old) (F.faults files.old) (F.faults files.new)) }
{
    match parse_file(alloc, file, files) {
        Ok(source) => match image_of(alloc, file, source, flags) {
            Ok(built) => Ok(built),
            Err(how) => Err(how),
        },
        Err(how) => Err(how),
    }
}

// The image of a source.
fn image_of<'a>(
    alloc: Global,
    name: &'a str,
    source: Parsed,
    flags: Flags,
) -> Result<Built, Outcome<'a>>
    requires parsed { IsSource source.bytes.items source.tokens.items source.syntax }
    requires read { IsRead source.bytes.items source.tokens.items source.syntax }
    ensures traced { IfOk result (λ built. is_some built.map ≡ flags.trace) }
    ensures accepted { OnOk result (IsChecked [] source.syntax) }
    ensures refused { IfErr result (λ how. NotMade how name.now source.syntax) }
{
    let Parsed {
        bytes,
        tokens,
        syntax,
    } = source;
    match checked(alloc, name, syntax, &Specs::new(alloc)) {
        Ok(checked) => built(alloc, &bytes, &tokens, &checked, flags),
        Err(how) => Err(how),
    }
}

// The image of an accepted source.
fn built<'a>(
    alloc: Global,
    bytes: &[u8],
    tokens: &[Token],
    c: &Checked,
    flags: Flags,
) -> Result<Built, Outcome<'a>>
    ensures traced { IfOk result (λ built. is_some built.map ≡ flags.trace) }
    ensures refused { IfErr result (λ how. NotBuilt how (take (length (modules c.now.syntax)) c.now.specs.items)) }
{
    image_of_modules(alloc, Text { bytes, tokens }, c, flags)
}

/// Puts the image under its name. The outcomes are `FileFault` and `Memory`.
pub fn put_image<'a, F: Store>(
    alloc: Global,
    name: &'a str,
    image: &Image,
    files: &mut F,
) -> Result<(), Outcome<'a>>
    ensures counts { F.faults files.old ≤ F.faults files.new }
    ensures done { OnOk result (IsImagePut name.now image.now (F.files files.old) (F.files files.new)) }
    ensures refused { IfErr result (λ how. NotPut how name.now (image_bytes image.now) (F.files files.old) (F.files files.new) (F.faults files.old) (F.faults files.new)) }
{
    match store(alloc, image) {
        Ok(bytes) => put(alloc, name, bytes.as_slice(), files),
        Err(_) => Err(Outcome::Memory),
    }
}
