//! Lines and texts of assembly, and files of images.

use clu_asm::{asm_line, read_asm};
use clu_base::{FormatError, Memory};
use clu_image::{load, store};
use clu_rows::{bytes_of, put_bytes};
use rv_isa::Image;
use std::alloc::Global;
use std::fmt::Write;
use std::test::Fail;

/// Writes the word that a line is read as, if the line is that of the word.
pub fn put_line(alloc: Global, found: &mut String, line: &str) -> Result<(), Fail> {
    let source = format!(in alloc; "entry 0\n{line}\n")?;
    let image = read_asm(alloc, source.as_bytes())?;
    let word = image.code.as_slice().first().copied().unwrap_or(0);
    let again = asm_line(alloc, word)?;
    match again.as_slice().strip_suffix(b"\n".as_slice()) {
        Some(front) => {
            if front != line.as_bytes() {
                return Err("another line")?;
            }
            Ok(write!(found, "{word:08x}")?)
        }
        None => Err("no line")?,
    }
}

/// Writes where bytes are refused.
fn put_error(found: &mut String, error: &FormatError) -> Result<(), Fail> {
    match error {
        FormatError::Bad(at) => Ok(write!(found, " {at}")?),
        FormatError::Memory => Err("out of memory")?,
    }
}

/// Writes the parts of an image.
fn put_parts(found: &mut String, image: &Image) -> Result<(), Memory> {
    found.push_str(" code")?;
    for word in image.code.as_slice() {
        write!(found, " {word:08x}")?;
    }
    found.push_str(" fixed")?;
    put_bytes(found, image.fixed.as_slice())?;
    found.push_str(" data")?;
    put_bytes(found, image.area.as_slice())
}

/// Writes the image that a text is read as, or where it is refused.
pub fn put_text(alloc: Global, found: &mut String, source: &[u8]) -> Result<(), Fail> {
    match &read_asm(alloc, source) {
        Ok(image) => Ok(put_parts(found, image)?),
        Err(error) => put_error(found, error),
    }
}

/// Writes the image of a file and the bytes that are written for it, or where the file is refused.
pub fn put_file(alloc: Global, found: &mut String, digits: &str) -> Result<(), Fail> {
    let bytes = bytes_of(alloc, digits)?;
    match &load(alloc, bytes.as_slice()) {
        Ok(image) => {
            write!(found, " entry {}", image.entry)?;
            put_parts(found, image)?;
            found.push_str(" file")?;
            Ok(put_bytes(found, store(alloc, image)?.as_slice())?)
        }
        Err(error) => put_error(found, error),
    }
}
