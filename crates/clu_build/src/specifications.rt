//! Specifications of a file as entries of a library.

ghost use Rattle.std.specs.Prelude.{◌≡◌, ◌<◌, [], length, slice_get, IfErr, IfOk, None, OnOk};
ghost use Rattle.clu_library.specs.Contents.{HaveSameText, spec_of};
ghost use Rattle.clu_library.specs.Replacing.{Replaces};
ghost use Rattle.clu_library.specs.Unmet.{TellsUnmet};
ghost use Rattle.clu_specs.specs.Specifications.{SpecHolds};
ghost use Rattle.clu_build.specs.Entering.{AreAdded, AreEntered, AreReplaced, AreSame, IsOneEntered, IsOneEnteredIf, IsSameOf, names_of};
ghost use Rattle.clu_build.specs.Numbering.{AreNumbered, IsNumbered};
ghost use Rattle.clu_build.specs.Refusals.{IsInner, IsOfEach, IsOfEntries, IsOfKept, IsOfNeeded, IsOfOne, IsOfReplacement, IsOfRoom};

use crate::errors::{BuildError, Difference};
use clu_base::Bytes;
use clu_library::{LIMIT, Library, is_whole};
use clu_specs::spec_text;
use clu_types::Spec;
use indexmap::IndexMap;
use std::alloc::Global;

/// Enters specifications. First it is asked of each, in the order in which they are given, whether another one is kept of
/// its module (`SpecDiffers`) and whether there is room (`LibraryFull`).
#[tactic(auto, using(crate::proofs::Refusals::entries))]
pub fn enter_specs(alloc: Global, library: &mut Library, specs: &[Spec]) -> Result<(), BuildError>
    ensures entered { OnOk result (AreEntered library.old library.new specs.now) }
    ensures refused { IfErr result (λ e. IsOfEntries e library.old) }
{
    ask_each(alloc, library, specs)?;
    let numbers = ascending(alloc, specs)?;
    enter_each(alloc, library, specs, &numbers)
}

/// Enters specifications in place of the kept ones, in the order in which they are given. `LibraryFull` if there is no
/// room for one of them, and then `SpecNeeded` with the least module, but for those of the specifications, of which the
/// kept specification would not be sound.
#[tactic(auto, using(crate::proofs::Refusals::replacements))]
pub fn replace_specs(alloc: Global, library: &mut Library, specs: &[Spec]) -> Result<(), BuildError>
    ensures replaced { OnOk result (AreReplaced library.old specs.now library.new) }
    ensures sound { OnOk result (TellsUnmet library.new (names_of specs.now) None) }
    ensures refused { IfErr result (λ e. IsOfReplacement e library.old specs.now) }
{
    replace_each(alloc, library, specs)?;
    ask_needed(alloc, library, specs)
}

/// The numbers of specifications by the names of their modules, ascending.
pub fn ascending(alloc: Global, specs: &[Spec]) -> Result<Box<IndexMap<Bytes, usize>>, BuildError>
    ensures numbered { IfOk result (λ numbers. AreNumbered specs.now numbers.value.entries) }
    ensures refused { IfErr result IsInner }
{
    let mut numbers = Box::new(alloc, IndexMap::new(alloc))?;
    number(alloc, specs, &mut numbers)?;
    Ok(numbers)
}

fn number(
    alloc: Global,
    specs: &[Spec],
    numbers: &mut IndexMap<Bytes, usize>,
) -> Result<(), BuildError>
    requires { numbers.old.entries ≡ [] }
    ensures numbered { OnOk result (AreNumbered specs.now numbers.new.entries) }
    ensures refused { IfErr result IsInner }
{
    add_each(alloc, specs, numbers)?;
    Ok(numbers.sort_keys()?)
}

fn add_each(
    alloc: Global,
    specs: &[Spec],
    numbers: &mut IndexMap<Bytes, usize>,
) -> Result<(), BuildError>
    requires { numbers.old.entries ≡ [] }
    ensures numbered { OnOk result (AreNumbered specs.now numbers.new.entries) }
    ensures refused { IfErr result IsInner }
{
    for number in 0..specs.len() {
        add(alloc, &specs[number], number, numbers)?;
    }
    Ok(())
}

/// The modules of a file have differing names.
fn add(
    alloc: Global,
    spec: &Spec,
    number: usize,
    numbers: &mut IndexMap<Bytes, usize>,
) -> Result<(), BuildError>
    ensures added { OnOk result (IsNumbered numbers.old.entries numbers.new.entries spec.now.name number) }
    ensures refused { IfErr result IsInner }
{
    match numbers.insert(spec.name.copy(alloc)?, number)? {
        None => Ok(()),
        Some(_) => Err(BuildError::NotYet),
    }
}

/// Whether each may be entered after those before it.
#[tactic(auto, using(crate::proofs::Refusals::entries))]
fn ask_each(alloc: Global, library: &Library, specs: &[Spec]) -> Result<(), BuildError>
    ensures same { OnOk result (AreSame library.now specs.now) }
    ensures refused { IfErr result (λ e. IsOfEntries e library.now) }
{
    let mut new = 0u32;
    for spec in specs {
        new = ask(alloc, library, spec, new)?;
    }
    Ok(())
}

/// Whether a specification may be entered after so many new ones, and how many are new then.
#[tactic(auto, using(crate::proofs::Refusals::entries))]
fn ask(alloc: Global, library: &Library, spec: &Spec, new: u32) -> Result<u32, BuildError>
    ensures same { OnOk result (IsSameOf library.now spec.now) }
    ensures refused { IfErr result (λ e. IsOfEntries e library.now) }
{
    match library.spec(&spec.name) {
        Some(kept) => {
            ask_same(alloc, kept, spec)?;
            Ok(new)
        }
        None => ask_room(library, new.saturating_add(1)),
    }
}

/// Whether the specification that is kept of the module has the text of this one.
fn ask_same(alloc: Global, kept: &Spec, given: &Spec) -> Result<(), BuildError>
    requires { SpecHolds kept.now }
    ensures same { OnOk result (HaveSameText kept.now given.now) }
    ensures refused { IfErr result (λ e. IsOfKept e given.now.name kept.now) }
{
    if !is_whole(given) {
        return Err(BuildError::NotYet);
    }
    let text = spec_text(alloc, kept)?;
    let other = spec_text(alloc, given)?;
    if text == other {
        return Ok(());
    }
    Err(BuildError::SpecDiffers(Difference {
        name: given.name.copy(alloc)?,
        kept: text,
        given: other,
    }))
}

/// Whether a library has room for so many modules more.
fn ask_room(library: &Library, new: u32) -> Result<u32, BuildError>
    ensures refused { IfErr result IsOfRoom }
{
    if new <= LIMIT && library.specs().at(LIMIT - new).is_none() {
        Ok(new)
    } else {
        Err(BuildError::LibraryFull)
    }
}

/// Enters all of them; in ascending order none that is there is moved.
#[tactic(auto, using(crate::proofs::Refusals::entries))]
fn enter_each(
    alloc: Global,
    library: &mut Library,
    specs: &[Spec],
    numbers: &IndexMap<Bytes, usize>,
) -> Result<(), BuildError>
    requires { AreNumbered specs.now numbers.now.entries }
    ensures added { OnOk result (AreAdded library.old library.new specs.now) }
    ensures refused { IfErr result IsOfRoom }
{
    for at in 0..numbers.len() {
        let Some((_, number)) = numbers.get_index(at) else {
            break;
        };
        enter_nth(alloc, library, specs, *number)?;
    }
    Ok(())
}

fn enter_nth(
    alloc: Global,
    library: &mut Library,
    specs: &[Spec],
    number: usize,
) -> Result<(), BuildError>
    requires { number < length specs.now }
    ensures entered { OnOk result (IsOneEnteredIf library.old library.new (slice_get specs.now number)) }
    ensures refused { IfErr result IsOfRoom }
{
    enter(alloc, library, &specs[number])
}

#[tactic(auto, using(crate::proofs::Refusals::entries))]
fn enter(alloc: Global, library: &mut Library, spec: &Spec) -> Result<(), BuildError>
    ensures entered { OnOk result (IsOneEntered library.old library.new spec.now) }
    ensures refused { IfErr result IsOfRoom }
{
    if !is_whole(spec) {
        return Err(BuildError::NotYet);
    }
    let copied = spec.copy(alloc)?;
    Ok(library.enter_spec(alloc, copied)?)
}

#[tactic(auto, using(crate::proofs::Refusals::replacements))]
fn replace_each(alloc: Global, library: &mut Library, specs: &[Spec]) -> Result<(), BuildError>
    ensures replaced { OnOk result (AreReplaced library.old specs.now library.new) }
    ensures refused { IfErr result (λ e. IsOfEach e library.old specs.now) }
{
    for spec in specs {
        replace(alloc, library, spec)?;
    }
    Ok(())
}

#[tactic(auto, using(crate::proofs::Refusals::replacements))]
fn replace(alloc: Global, library: &mut Library, spec: &Spec) -> Result<bool, BuildError>
    ensures replaced { IfOk result (λ changed. Replaces library.old spec.now (spec_of library.old spec.now.name) library.new changed) }
    ensures refused { IfErr result (λ e. IsOfOne e library.old spec.now) }
{
    if !is_whole(spec) {
        return Err(BuildError::NotYet);
    }
    let copied = spec.copy(alloc)?;
    Ok(library.replace_spec(alloc, copied)?)
}

/// Whether the specifications of all other modules are sound.
#[tactic(auto, using(crate::proofs::Refusals::replacements))]
fn ask_needed(alloc: Global, library: &Library, specs: &[Spec]) -> Result<(), BuildError>
    ensures sound { OnOk result (TellsUnmet library.now (names_of specs.now) None) }
    ensures refused { IfErr result (λ e. IsOfNeeded e library.now (names_of specs.now)) }
{
    let names = names(alloc, specs)?;
    match library.unmet(alloc, names.as_slice())? {
        Some(name) => Err(BuildError::SpecNeeded(name)),
        None => Ok(()),
    }
}

fn names(alloc: Global, specs: &[Spec]) -> Result<Vec<Bytes>, BuildError>
    ensures named { IfOk result (λ names. names.items ≡ names_of specs.now) }
    ensures refused { IfErr result IsInner }
{
    let mut names = Vec::new(alloc);
    for spec in specs {
        names.push(spec.name.copy(alloc)?)?;
    }
    Ok(names)
}
