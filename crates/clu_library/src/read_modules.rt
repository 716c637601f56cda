//! The modules of a library, read from a file.

ghost use Rattle.std.specs.Prelude.{◌≡◌, length, IfOk, OnOk};
ghost use Rattle.clu_object.specs.ObjectReading.{object_read};
ghost use Rattle.clu_specs.specs.Reading.{Gives};
ghost use Rattle.clu_specs.specs.Seen.{seen};
ghost use Rattle.clu_specs.specs.Specifications.{SpecHolds};
ghost use Rattle.clu_specs.specs.SpecReading.{whole_spec};
ghost use Rattle.clu_library.specs.LibraryReading.{library_seen, content_in, named_spec, with_seen, spec_kept, with_revision, change_kept, object_kept, checked_kept, behind_text, text_kept, body_by, body_kept, module_kept, next_module_kept, modules_kept};

use crate::body::{Body, Change, ModuleBody};
use crate::by_name::ByName;
use crate::library::Library;
use crate::read_names::names_at;
use crate::reading::number_up_to;
use clu_base::{Bytes, FormatError, Memory, Sequence};
use clu_format::{byte_field, fault, field_fault, module_after, text64_field};
use clu_object::Object;
use clu_specs::read_spec;
use clu_types::Spec;
use std::alloc::Global;

/// A version of library files. The first has no revisions and no names of bodies.
#[derive(Clone, Copy)]
pub enum Version {
    First,
    Second,
}

/// Reads so many modules into a library, ascending.
pub fn modules_at<'a>(
    alloc: Global,
    library: &mut Library,
    version: Version,
    count: u32,
    bytes: &'a [u8],
) -> Result<&'a [u8], FormatError>
    ensures { Gives (λ rest. (library_seen library.new, rest.now)) result (modules_kept version count (library_seen library.old) bytes.now) }
{
    let mut previous: &[u8] = &[];
    let mut rest = bytes;
    for _ in 0..count {
        let (name, after) = next_module_at(alloc, library, version, previous, rest)?;
        previous = name;
        rest = after;
    }
    Ok(rest)
}

/// Reads a module after the one before it. Gives its name, and what follows it.
fn next_module_at<'a>(
    alloc: Global,
    library: &mut Library,
    version: Version,
    previous: &[u8],
    bytes: &'a [u8],
) -> Result<(&'a [u8], &'a [u8]), FormatError>
    ensures { Gives (λ x. ((x.0.now, library_seen library.new), x.1.now)) result (next_module_kept version (previous.now, library_seen library.old) bytes.now) }
{
    let (name, rest) = module_after(previous, bytes)?;
    let rest = module_at(alloc, library, version, name, rest)?;
    Ok((name, rest))
}

/// Reads what stands behind the name of a module.
#[tactic(auto, unfolding(crate::specs::LibraryReading::module_kept))]
fn module_at<'a>(
    alloc: Global,
    library: &mut Library,
    version: Version,
    name: &[u8],
    bytes: &'a [u8],
) -> Result<&'a [u8], FormatError>
    ensures { Gives (λ rest. (library_seen library.new, rest.now)) result (module_kept version name.now (library_seen library.old) bytes.now) }
{
    let rest = spec_at(alloc, library, name, bytes)?;
    let most = library.revision;
    let rest = change_at(alloc, &mut library.changes, version, most, name, rest)?;
    let rest = body_at(alloc, &mut library.bodies, version, most, name, rest)?;
    Ok(rest)
}

/// Reads the specification of a module, which has its name.
#[tactic(auto, unfolding(crate::specs::LibraryReading::spec_kept))]
fn spec_at<'a>(
    alloc: Global,
    library: &mut Library,
    name: &[u8],
    bytes: &'a [u8],
) -> Result<&'a [u8], FormatError>
    ensures { Gives (λ rest. (library_seen library.new, rest.now)) result (spec_kept name.now (library_seen library.old) bytes.now) }
{
    let (text, rest) = text64_field(bytes)?;
    let spec = spec_named(alloc, name, bytes, text)?;
    keep_spec(library, spec)?;
    Ok(rest)
}

/// The specification of this text in this field, which has the name.
#[tactic(auto, using(crate::proofs::Contained::specs))]
fn spec_named(alloc: Global, name: &[u8], field: &[u8], text: &[u8]) -> Result<Spec, FormatError>
    ensures reads { Gives seen result (named_spec name.now (length field.now) (whole_spec text.now)) }
    ensures holds { IfOk result SpecHolds }
{
    match read_spec(alloc, text) {
        Ok(spec) => if spec.name.as_slice() == name {
            Ok(spec)
        } else {
            Err(fault(field))
        },
        Err(error) => Err(field_fault(field, error)),
    }
}

#[tactic(auto, using(crate::proofs::Entering::laws, crate::proofs::Contained::spec_seen))]
fn keep_spec(library: &mut Library, spec: Spec) -> Result<(), Memory>
    requires { SpecHolds spec }
    ensures { OnOk result (library_seen library.new ≡ with_seen (library_seen library.old) (seen spec)) }
{
    library.specs.with(spec)?;
    Ok(())
}

/// Reads the revision at which the specification of a module was replaced last, if the version has one; 0 if it never was.
fn change_at<'a>(
    alloc: Global,
    changes: &mut ByName<Change>,
    version: Version,
    most: u32,
    name: &[u8],
    bytes: &'a [u8],
) -> Result<&'a [u8], FormatError>
    ensures { Gives (λ rest. (changes.new, rest.now)) result (change_kept version most name.now changes.old bytes.now) }
{
    match version {
        Version::First => Ok(bytes),
        Version::Second => {
            let (revision, rest) = number_up_to(most, bytes)?;
            keep_revision(alloc, changes, name, revision)?;
            Ok(rest)
        }
    }
}

fn keep_revision(
    alloc: Global,
    changes: &mut ByName<Change>,
    name: &[u8],
    revision: u32,
) -> Result<(), Memory>
    ensures { OnOk result (changes.new ≡ with_revision name.now revision changes.old) }
{
    if revision > 0 {
        let name = Bytes::from_slice(alloc, name)?;
        changes.put(Change { name, revision })
    } else {
        Ok(())
    }
}

/// Reads the body of a module, if it has one.
#[tactic(auto, unfolding(crate::specs::LibraryReading::body_kept))]
fn body_at<'a>(
    alloc: Global,
    bodies: &mut ByName<ModuleBody>,
    version: Version,
    most: u32,
    name: &[u8],
    bytes: &'a [u8],
) -> Result<&'a [u8], FormatError>
    ensures { Gives (λ rest. (bodies.new, rest.now)) result (body_kept version most name.now bodies.old bytes.now) }
{
    let (is_there, rest) = byte_field(bytes)?;
    match is_there {
        0 => Ok(rest),
        1 => text_at(alloc, bodies, version, most, name, rest),
        _ => Err(fault(bytes)),
    }
}

/// Reads a body that is there.
fn text_at<'a>(
    alloc: Global,
    bodies: &mut ByName<ModuleBody>,
    version: Version,
    most: u32,
    name: &[u8],
    bytes: &'a [u8],
) -> Result<&'a [u8], FormatError>
    ensures { Gives (λ rest. (bodies.new, rest.now)) result (text_kept version most name.now bodies.old bytes.now) }
{
    let (text, rest) = text64_field(bytes)?;
    match version {
        Version::First => object_at(alloc, bodies, name, text, 0, None, rest),
        Version::Second => checked_at(alloc, bodies, most, name, text, rest),
    }
}

/// Reads what stands behind the text of a body.
fn checked_at<'a>(
    alloc: Global,
    bodies: &mut ByName<ModuleBody>,
    most: u32,
    name: &[u8],
    text: &[u8],
    bytes: &'a [u8],
) -> Result<&'a [u8], FormatError>
    ensures { Gives (λ rest. (bodies.new, rest.now)) result (checked_kept most name.now text.now bodies.old bytes.now) }
{
    let (checked, rest) = number_up_to(most, bytes)?;
    let (names, rest) = names_at(alloc, name, rest)?;
    object_at(alloc, bodies, name, text, checked, names, rest)
}

/// Reads the object of a body, and keeps the body.
#[tactic(auto, unfolding(crate::specs::LibraryReading::object_kept))]
fn object_at<'a>(
    alloc: Global,
    bodies: &mut ByName<ModuleBody>,
    name: &[u8],
    text: &[u8],
    checked: u32,
    names: Option<Sequence<Bytes>>,
    bytes: &'a [u8],
) -> Result<&'a [u8], FormatError>
    ensures { Gives (λ rest. (bodies.new, rest.now)) result (object_kept name.now text.now checked names bodies.old bytes.now) }
{
    let (content, rest) = text64_field(bytes)?;
    let object = object_in(alloc, bytes, content)?;
    let body = Body {
        text: Bytes::from_slice(alloc, text)?,
        names,
        checked,
        object,
    };
    let name = Bytes::from_slice(alloc, name)?;
    bodies.put(ModuleBody { name, body })?;
    Ok(rest)
}

/// The object that is the content of a field.
#[tactic(auto, using(crate::proofs::Contained::objects))]
fn object_in(alloc: Global, field: &[u8], content: &[u8]) -> Result<Object, FormatError>
    ensures { Gives (λ o. o) result (content_in (length field.now) (object_read content.now)) }
{
    match clu_object::read(alloc, content) {
        Ok(object) => Ok(object),
        Err(error) => Err(field_fault(field, error)),
    }
}
