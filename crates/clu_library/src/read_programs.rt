//! The programs of a library, read from a file.

ghost use Rattle.std.specs.Prelude.{◌≡◌, length};
ghost use Rattle.clu_specs.specs.Reading.{Gives};
ghost use Rattle.clu_library.specs.ImageReading.{image_read};
ghost use Rattle.clu_library.specs.LibraryReading.{content_in, is_program_name, program_name_read, image_kept, program_kept, next_program_kept, programs_kept};

use crate::by_name::ByName;
use crate::program::Program;
use crate::read_names::names_but;
use clu_base::{Bytes, FormatError, Sequence};
use clu_format::{fault, field_fault, is_after, text16_field, text64_field};
use rv_isa::Image;
use std::alloc::Global;

/// Reads so many programs, ascending.
pub fn programs_at<'a>(
    alloc: Global,
    programs: &mut ByName<Program>,
    count: u32,
    bytes: &'a [u8],
) -> Result<&'a [u8], FormatError>
    ensures { Gives (λ rest. (programs.new, rest.now)) result (programs_kept count programs.old bytes.now) }
{
    let mut previous: &[u8] = &[];
    let mut rest = bytes;
    for _ in 0..count {
        let (name, after) = next_program_at(alloc, programs, previous, rest)?;
        previous = name;
        rest = after;
    }
    Ok(rest)
}

/// Reads a program after the one before it. Gives its name, and what follows it.
fn next_program_at<'a>(
    alloc: Global,
    programs: &mut ByName<Program>,
    previous: &[u8],
    bytes: &'a [u8],
) -> Result<(&'a [u8], &'a [u8]), FormatError>
    ensures { Gives (λ x. ((x.0.now, programs.new), x.1.now)) result (next_program_kept (previous.now, programs.old) bytes.now) }
{
    let (name, rest) = program_name_at(previous, bytes)?;
    let rest = program_at(alloc, programs, name, rest)?;
    Ok((name, rest))
}

/// The name of a program after the one before it, of 1 to 200 bytes.
fn program_name_at<'a>(
    previous: &[u8],
    bytes: &'a [u8],
) -> Result<(&'a [u8], &'a [u8]), FormatError>
    ensures { Gives (λ x. (x.0.now, x.1.now)) result (program_name_read previous.now bytes.now) }
{
    let (name, rest) = text16_field(bytes)?;
    if is_program_name(name) && is_after(previous, name) {
        Ok((name, rest))
    } else {
        Err(fault(bytes))
    }
}

fn is_program_name(name: &[u8]) -> bool
    ensures { result ≡ is_program_name name.now }
{
    1 <= name.len() && name.len() <= 200
}

/// Reads what stands behind the name of a program, and keeps the program.
fn program_at<'a>(
    alloc: Global,
    programs: &mut ByName<Program>,
    name: &[u8],
    bytes: &'a [u8],
) -> Result<&'a [u8], FormatError>
    ensures { Gives (λ rest. (programs.new, rest.now)) result (program_kept name.now programs.old bytes.now) }
{
    let (start, rest) = text16_field(bytes)?;
    let (modules, rest) = names_but(alloc, &[], rest)?;
    image_at(alloc, programs, name, start, modules, rest)
}

/// Reads the image of a program, and keeps the program.
#[tactic(auto, unfolding(crate::specs::LibraryReading::image_kept))]
fn image_at<'a>(
    alloc: Global,
    programs: &mut ByName<Program>,
    name: &[u8],
    start: &[u8],
    modules: Sequence<Bytes>,
    bytes: &'a [u8],
) -> Result<&'a [u8], FormatError>
    ensures { Gives (λ rest. (programs.new, rest.now)) result (image_kept name.now start.now modules programs.old bytes.now) }
{
    let (content, rest) = text64_field(bytes)?;
    let image = image_in(alloc, bytes, content)?;
    let name = Bytes::from_slice(alloc, name)?;
    let start = Bytes::from_slice(alloc, start)?;
    programs.put(Program {
        name,
        start,
        modules,
        image,
    })?;
    Ok(rest)
}

/// The image that is the content of a field.
#[tactic(auto, using(crate::proofs::Contained::images))]
fn image_in(alloc: Global, field: &[u8], content: &[u8]) -> Result<Image, FormatError>
    ensures { Gives (λ i. i) result (content_in (length field.now) (image_read content.now)) }
{
    match clu_image::load(alloc, content) {
        Ok(image) => Ok(image),
        Err(error) => Err(field_fault(field, error)),
    }
}
