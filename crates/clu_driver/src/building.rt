//! From an accepted file to its image: its modules are entered into an empty library and linked from `start_up`.

ghost use Rattle.std.specs.Prelude.{◌≡◌, IfErr, IfOk, codes, length, take};
ghost use Rattle.std.specs.Option.{is_some, option_copied};
ghost use Rattle.std.specs.Str.{bytes_eq};
ghost use Rattle.clu_tree.specs.Nodes.{modules};
ghost use Rattle.clu_driver.specs.Sources.{NotBuilt, start_in};

use crate::refusals::refusal_of_file;
use clu_base::Bytes;
use clu_build::{BuildError, Text, enter_file, own_specs};
use clu_core::Checked;
use clu_library::Library;
use clu_link::{Traced, link, link_traced};
use clu_outcome::Outcome;
use clu_reach::is_start;
use clu_trace::TraceMap;
use clu_types::Spec;
use rv_isa::Image;
use std::alloc::Global;

/// The module with which a program starts.
const START: &str = "start_up";

/// What the flags of `go` ask for.
#[derive(Clone, Copy)]
pub struct Flags {
    /// Whether the code of routines is shortened.
    pub peep: bool,
    /// Whether the run is traced.
    pub trace: bool,
}

/// An image, with a map of it if a run of it is to be traced.
#[derive(Drop)]
pub struct Built {
    pub image: Image,
    pub map: Option<TraceMap>,
}

/// The image of an accepted file.
pub fn image_of_modules<'a>(
    alloc: Global,
    text: Text<'_>,
    c: &Checked,
    flags: Flags,
) -> Result<Built, Outcome<'a>>
    ensures traced { IfOk result (λ built. is_some built.map ≡ flags.trace) }
    ensures refused { IfErr result (λ how. NotBuilt how (take (length (modules c.now.syntax)) c.now.specs.items)) }
{
    match library_of(alloc, text, c, flags.peep) {
        Ok(library) => image_from(alloc, &library, own_specs(c), flags.trace),
        Err(error) => Err(refusal_of_file(&error)),
    }
}

/// The library in which nothing is kept but the modules of the file.
fn library_of(
    alloc: Global,
    text: Text<'_>,
    c: &Checked,
    peep: bool,
) -> Result<Box<Library>, BuildError> {
    let mut library = Box::new(alloc, Library::empty(alloc))?;
    enter_file(alloc, &mut library, text, c, peep)?;
    Ok(library)
}

/// The image of the program of a library that keeps modules with these specifications.
fn image_from<'a>(
    alloc: Global,
    library: &Library,
    own: &[Spec],
    trace: bool,
) -> Result<Built, Outcome<'a>>
    ensures traced { IfOk result (λ built. is_some built.map ≡ trace) }
    ensures refused { IfErr result (λ how. NotBuilt how own.now) }
{
    match may_start(own) {
        Ok(()) => match linked(alloc, library, trace) {
            Ok(built) => Ok(built),
            Err(error) => Err(refusal_of_file(&error)),
        },
        Err(how) => Err(how),
    }
}

/// Whether a program may start, as the linker asks it of the library. Asked of the file itself, a refusal speaks of the
/// file.
fn may_start<'a>(own: &[Spec]) -> Result<(), Outcome<'a>>
    ensures { IfErr result (λ how. NotBuilt how own.now) }
{
    match start_of(own) {
        None => Err(Outcome::NoModule(START.as_bytes())),
        Some(spec) if is_start(spec) => Ok(()),
        Some(_) => Err(Outcome::BadStart(START.as_bytes())),
    }
}

/// The first specification of the module with which a program starts.
fn start_of(own: &[Spec]) -> Option<&Spec>
    ensures { option_copied result ≡ start_in own.now }
{
    own.iter().find(
        |spec| -> bool
            ensures { result ≡ bytes_eq spec.now.now.name (codes "start_up") }
        { spec.name.as_slice() == START.as_bytes() },
    )
}

fn linked(alloc: Global, library: &Library, trace: bool) -> Result<Built, BuildError>
    ensures { IfOk result (λ built. is_some built.map ≡ trace) }
{
    let start = Bytes::from_slice(alloc, START.as_bytes())?;
    if trace {
        let Traced { linked, map } = link_traced(alloc, library, &start)?;
        Ok(Built {
            image: linked.image,
            map: Some(map),
        })
    } else {
        Ok(Built {
            image: link(alloc, library, &start)?.image,
            map: None,
        })
    }
}
