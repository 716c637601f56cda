//! Libraries, written as files. The only error of each call is that memory runs out.

ghost use Rattle.std.specs.Prelude.{◌≡◌, ◌++◌, length, min, take, IfOk, OnOk};
ghost use Rattle.std.specs.List.{flat_map};
ghost use Rattle.std.specs.Option.{option_copied};
ghost use Rattle.clu_specs.specs.Seen.{seen, spec_text};
ghost use Rattle.clu_specs.specs.Specifications.{SpecHolds};
ghost use Rattle.clu_format.specs.Fields.{text64_bytes};
ghost use Rattle.clu_library.specs.Contents.{limit};
ghost use Rattle.clu_library.specs.LibraryFile.{list_of_names, names_bytes, body_bytes, kept_bytes, module_bytes, program_bytes, start_bytes, head_bytes, library_bytes};

use crate::body::Body;
use crate::library::{LIMIT, Library};
use crate::program::Program;
use clu_base::{Bytes, Memory, Sequence, u32_add};
use clu_format::{count_add, text16_add, text64_add};
use clu_specs::spec_text;
use clu_types::Spec;
use std::alloc::Global;

impl Library {
    /// The file of the library, version 2, by docs/formats.md.
    pub fn write(&self, alloc: Global) -> Result<Bytes, Memory>
        ensures { IfOk result (λ b. b ≡ library_bytes self.now) }
    {
        let mut out = Vec::new(alloc);
        head_add(&mut out, self)?;
        modules_add(alloc, &mut out, self)?;
        programs_add(alloc, &mut out, self.programs.as_slice())?;
        Ok(Bytes::from_vec(out))
    }

    /// How many modules there are, up to the most that a library has.
    #[tactic(auto, using(crate::proofs::Walking::count_here))]
    fn modules(&self) -> u32
        ensures { result ≡ min (length self.now.specs) limit }
    {
        for n in 0..LIMIT {
            match self.nth_spec(n) {
                Some(_) => (),
                None => return n,
            }
        }
        LIMIT
    }
}

fn head_add(out: &mut Vec<u8>, library: &Library) -> Result<(), Memory>
    ensures { OnOk result (out.new.items ≡ out.old.items ++ head_bytes library.now) }
{
    start_add(out, library.revision())?;
    u32_add(out, library.modules())?;
    count_add(out, library.programs.len())
}

/// Appends the head of a file up to the number of modules.
#[tactic(auto, unfolding(crate::specs::LibraryFile::start_bytes))]
fn start_add(out: &mut Vec<u8>, revision: u32) -> Result<(), Memory>
    ensures { OnOk result (out.new.items ≡ out.old.items ++ start_bytes revision) }
{
    out.extend_from_slice(b"CLUL")?;
    u32_add(out, 2)?;
    u32_add(out, revision)
}

fn modules_add(alloc: Global, out: &mut Vec<u8>, library: &Library) -> Result<(), Memory>
    ensures { OnOk result (out.new.items ≡ out.old.items ++ flat_map (module_bytes library.now) (take limit library.now.specs)) }
{
    for n in 0..LIMIT {
        match library.nth_spec(n) {
            Some(spec) => module_add(alloc, out, library, spec)?,
            None => return Ok(()),
        }
    }
    Ok(())
}

#[tactic(auto, unfolding(crate::specs::LibraryFile::module_bytes))]
fn module_add(
    alloc: Global,
    out: &mut Vec<u8>,
    library: &Library,
    spec: &Spec,
) -> Result<(), Memory>
    requires { SpecHolds spec.now }
    ensures { OnOk result (out.new.items ≡ out.old.items ++ module_bytes library.now spec.now) }
{
    text16_add(out, spec.name.as_slice())?;
    spec_add(alloc, out, spec)?;
    u32_add(out, library.last_change(&spec.name))?;
    kept_add(alloc, out, library.body(&spec.name))
}

fn spec_add(alloc: Global, out: &mut Vec<u8>, spec: &Spec) -> Result<(), Memory>
    requires { SpecHolds spec.now }
    ensures { OnOk result (out.new.items ≡ out.old.items ++ text64_bytes (spec_text (seen spec.now))) }
{
    let text = spec_text(alloc, spec)?;
    text64_add(out, text.as_slice())
}

/// Appends a body, if there is one.
fn kept_add(alloc: Global, out: &mut Vec<u8>, body: Option<&Body>) -> Result<(), Memory>
    ensures { OnOk result (out.new.items ≡ out.old.items ++ kept_bytes (option_copied body.entry)) }
{
    match body {
        Some(body) => body_add(alloc, out, body),
        None => Ok(out.push(0)?),
    }
}

fn body_add(alloc: Global, out: &mut Vec<u8>, body: &Body) -> Result<(), Memory>
    ensures { OnOk result (out.new.items ≡ out.old.items ++ body_bytes body.now) }
{
    out.push(1)?;
    text64_add(out, body.text.as_slice())?;
    u32_add(out, body.checked)?;
    names_add(out, &body.names)?;
    let object = clu_object::write(alloc, &body.object)?;
    text64_add(out, object.as_slice())
}

/// Appends the names of a body: all, or those that are listed.
fn names_add(out: &mut Vec<u8>, names: &Option<Sequence<Bytes>>) -> Result<(), Memory>
    ensures { OnOk result (out.new.items ≡ out.old.items ++ names_bytes names.now) }
{
    match names {
        None => Ok(out.push(0)?),
        Some(names) => {
            out.push(1)?;
            list_add(out, names.as_slice())
        }
    }
}

fn list_add(out: &mut Vec<u8>, names: &[Bytes]) -> Result<(), Memory>
    ensures { OnOk result (out.new.items ≡ out.old.items ++ list_of_names names.now) }
{
    count_add(out, names.len())?;
    for name in names {
        text16_add(out, name.as_slice())?;
    }
    Ok(())
}

fn programs_add(alloc: Global, out: &mut Vec<u8>, programs: &[Program]) -> Result<(), Memory>
    ensures { OnOk result (out.new.items ≡ out.old.items ++ flat_map program_bytes programs.now) }
{
    for program in programs {
        program_add(alloc, out, program)?;
    }
    Ok(())
}

#[tactic(auto, unfolding(crate::specs::LibraryFile::program_bytes))]
fn program_add(alloc: Global, out: &mut Vec<u8>, program: &Program) -> Result<(), Memory>
    ensures { OnOk result (out.new.items ≡ out.old.items ++ program_bytes program.now) }
{
    text16_add(out, program.name.as_slice())?;
    text16_add(out, program.start.as_slice())?;
    list_add(out, program.modules.as_slice())?;
    let image = clu_image::store(alloc, &program.image)?;
    text64_add(out, image.as_slice())
}
