//! Files of objects and libraries by their fields, read and written again.

use clu_base::{Bytes, FormatError};
use clu_library::Library;
use clu_object::{is_object, read, write};
use clu_rows::{Fields, parts};
use std::alloc::Global;
use std::fmt::Write;
use std::test::Fail;

fn object_again(alloc: Global, bytes: &[u8]) -> Result<Bytes, FormatError> {
    let object = Box::new(alloc, read(alloc, bytes)?)?;
    if is_object(alloc, &object)? {
        Ok(write(alloc, &object)?)
    } else {
        Err(FormatError::Memory)
    }
}

/// The library of a file.
pub fn read_library(alloc: Global, bytes: &[u8]) -> Result<Box<Library>, FormatError> {
    Ok(Box::new(alloc, Library::read(alloc, bytes)?)?)
}

fn library_again(alloc: Global, bytes: &[u8]) -> Result<Bytes, FormatError> {
    let library = read_library(alloc, bytes)?;
    Ok(library.write(alloc)?)
}

/// Writes `kept` if a file is written again as it was read, and `refused` if it is refused at its wrong field.
pub fn put_file(alloc: Global, found: &mut String, row: &str) -> Result<(), Fail> {
    let (sort, row) = parts(row);
    let fields = Fields::of(alloc, row)?;
    let bytes = fields.bytes.as_slice();
    let again = if sort == "O" {
        object_again(alloc, bytes)
    } else {
        library_again(alloc, bytes)
    };
    match &again {
        Ok(written) => {
            if written.as_slice() == bytes {
                found.push_str("kept")?;
            }
            Ok(())
        }
        Err(FormatError::Bad(at)) => {
            if *at == fields.wrong as u64 {
                return Ok(found.push_str("refused")?);
            }
            Ok(write!(found, "refused at {at}")?)
        }
        Err(FormatError::Memory) => Err("out of memory")?,
    }
}

/// Of a library of version 1, and after a tab one of version 2: writes `kept` if this is written for it.
pub fn put_first(alloc: Global, found: &mut String, row: &str) -> Result<(), Fail> {
    let (first, second) = row.split_once('\t').unwrap_or(("", row));
    let first = Fields::of(alloc, first)?;
    let second = Fields::of(alloc, second)?;
    let written = library_again(alloc, first.bytes.as_slice())?;
    if written.as_slice() == second.bytes.as_slice() {
        found.push_str("kept")?;
    }
    Ok(())
}
