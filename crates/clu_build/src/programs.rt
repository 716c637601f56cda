//! Programs of a library.

ghost use Rattle.std.specs.Prelude.{◌≡◌, IfErr, IfOk, OnErr, OnOk};
ghost use Rattle.clu_library.specs.Contents.{spec_of};
ghost use Rattle.clu_reach.specs.Causes.{HaveBodies};
ghost use Rattle.clu_reach.specs.Starts.{MayStart};
ghost use Rattle.clu_build.specs.Programs.{IsCalled, IsLinked};
ghost use Rattle.clu_build.specs.Refusals.{IsOfProgram};

use crate::errors::BuildError;
use clu_base::{Bytes, Sequence};
use clu_library::{Library, Program};
use clu_link::{Linked, link};
use std::alloc::Global;

/// Links the program that starts with the module `start` and enters it under a name of 1 to 200 bytes; a kept one of the
/// name is replaced. Refused as by the linker, and then by `LibraryFull`.
#[tactic(auto, using(crate::proofs::Refusals::programs))]
pub fn enter_program(
    alloc: Global,
    library: &mut Library,
    name: &Bytes,
    start: &Bytes,
) -> Result<(), BuildError>
    ensures entered { OnOk result (IsLinked library.old library.new name.now start.now) }
    ensures unchanged { OnErr result (library.new ≡ library.old) }
    ensures refused { IfErr result (λ e. IsOfProgram e library.old start.now) }
{
    let program = program_of(alloc, library, name, start)?;
    Ok(library.enter_program(Box::into_inner(program))?)
}

#[tactic(auto, using(crate::proofs::Refusals::programs))]
fn program_of(
    alloc: Global,
    library: &Library,
    name: &Bytes,
    start: &Bytes,
) -> Result<Box<Program>, BuildError>
    ensures started { OnOk result (MayStart (spec_of library.now start.now)) }
    ensures called { IfOk result (λ p. IsCalled name.now start.now p.value) }
    ensures bodies { IfOk result (λ p. HaveBodies library.now p.value.modules) }
    ensures refused { IfErr result (λ e. IsOfProgram e library.now start.now) }
{
    let name = name.copy(alloc)?;
    let first = start.copy(alloc)?;
    let linked = link(alloc, library, start)?;
    Ok(Box::new(alloc, program(name, first, linked))?)
}

fn program(name: Bytes, start: Bytes, linked: Linked) -> Program
    ensures called { IsCalled name start result }
    ensures modules { result.modules ≡ linked.modules.items }
{
    let Linked { image, modules } = linked;
    Program {
        name,
        start,
        modules: Sequence::from_vec(modules),
        image,
    }
}
