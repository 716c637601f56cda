//! Scripts over a library: lines with a step, and after a tab what comes of it. A step is a letter and what it takes:
//!
//! - `s` enters a specification, `r` replaces one.
//! - `b NAME NAMES` enters a body without routines, whose text names these modules, or all for `*`; `o NAME FIELDS` one whose
//!   object has these fields.
//! - `p NAME MODULES` enters a program; `f FIELDS` reads the library of a file.
//! - `t NAME` tells why a body is stale, `u NAMES` the least module besides these whose specification isn't sound, `l START` what
//!   comes of linking, and `w` the revision, the modules, when each changed and its body was checked, and which of the
//!   programs `f`, `g` and `h` are there.

use crate::files::read_library;
use clu_base::{Bytes, Memory, Sequence};
use clu_library::{Body, EnterError, Library, Program};
use clu_link::{link, link_traced};
use clu_object::{Object, read};
use clu_reach::LinkError;
use clu_rows::{Fields, parts};
use clu_specs::read_spec;
use rv_isa::Image;
use std::alloc::Global;
use std::fmt::Write;
use std::test::Fail;

fn bytes(alloc: Global, text: &str) -> Result<Bytes, Memory> {
    Bytes::from_slice(alloc, text.as_bytes())
}

fn names(alloc: Global, text: &str) -> Result<Vec<Bytes>, Memory> {
    let mut names = Vec::new(alloc);
    for name in text.split(' ') {
        if !name.is_empty() {
            names.push(bytes(alloc, name)?)?;
        }
    }
    Ok(names)
}

fn put_text(found: &mut String, text: &Bytes) -> Result<(), Fail> {
    Ok(found.push_str(str::from_utf8(text.as_slice()).unwrap_or("?"))?)
}

/// Writes why an entry is refused.
fn put_error(found: &mut String, error: EnterError) -> Result<(), Fail> {
    match error {
        EnterError::Differs => Ok(found.push_str("differs")?),
        EnterError::Full => Ok(found.push_str("full")?),
        EnterError::Memory => Err("out of memory")?,
    }
}

/// Enters a specification, or replaces one.
fn put_spec(
    alloc: Global,
    found: &mut String,
    library: &mut Library,
    text: &str,
    is_new: bool,
) -> Result<(), Fail> {
    let spec = read_spec(alloc, text.as_bytes())?;
    if is_new {
        return match library.enter_spec(alloc, spec) {
            Ok(()) => Ok(found.push_str("ok")?),
            Err(error) => put_error(found, error),
        };
    }
    match library.replace_spec(alloc, spec) {
        Ok(true) => Ok(found.push_str("true")?),
        Ok(false) => Ok(found.push_str("false")?),
        Err(error) => put_error(found, error),
    }
}

/// The modules that a text names; none for `*`, which is all.
fn listed(alloc: Global, named: &str) -> Result<Option<Sequence<Bytes>>, Memory> {
    if named == "*" {
        return Ok(None);
    }
    Ok(Some(Sequence::from_vec(names(alloc, named)?)))
}

/// A body without routines, whose text names these modules.
fn named_body(alloc: Global, name: &str, named: &str) -> Result<Box<Body>, Memory> {
    let module = bytes(alloc, name)?;
    let text = bytes(alloc, "text")?;
    let names = listed(alloc, named)?;
    let body = Body {
        text,
        names,
        checked: 77,
        object: Object {
            module,
            routines: Sequence::from_vec(Vec::new(alloc)),
        },
    };
    Ok(Box::new(alloc, body)?)
}

/// A body with the object of these fields, whose text names all modules.
fn object_body(alloc: Global, given: &str) -> Result<Box<Body>, Fail> {
    let fields = Fields::of(alloc, given)?;
    let text = bytes(alloc, "")?;
    let object = Box::new(alloc, read(alloc, fields.bytes.as_slice())?)?;
    let body = Body {
        text,
        names: None,
        checked: 0,
        object: Box::into_inner(object),
    };
    Ok(Box::new(alloc, body)?)
}

fn enter_body(
    alloc: Global,
    found: &mut String,
    library: &mut Library,
    name: &str,
    body: Box<Body>,
) -> Result<(), Fail> {
    let name = bytes(alloc, name)?;
    if library.spec(&name).is_none() {
        return Err("no specification")?;
    }
    library.enter_body(alloc, &name, Box::into_inner(body))?;
    Ok(found.push_str("ok")?)
}

/// A program of these modules with the image of one instruction.
fn program(alloc: Global, name: &str, modules: &str) -> Result<Box<Program>, Fail> {
    let code = vec![in alloc; 0x73]?;
    let name = bytes(alloc, name)?;
    let start = bytes(alloc, "p")?;
    let modules = Sequence::from_vec(names(alloc, modules)?);
    match Image::new(0, code, Vec::new(alloc), Vec::new(alloc)) {
        Some(image) => Ok(Box::new(
            alloc,
            Program {
                name,
                start,
                modules,
                image,
            },
        )?),
        None => Err("no image")?,
    }
}

fn put_program(
    alloc: Global,
    found: &mut String,
    library: &mut Library,
    name: &str,
    modules: &str,
) -> Result<(), Fail> {
    let program = program(alloc, name, modules)?;
    match library.enter_program(Box::into_inner(program)) {
        Ok(()) => Ok(found.push_str("ok")?),
        Err(error) => put_error(found, error),
    }
}

/// Reads the library of a file by its fields.
fn read_fields(alloc: Global, library: &mut Library, row: &str) -> Result<(), Fail> {
    let fields = Fields::of(alloc, row)?;
    *library = Box::into_inner(read_library(alloc, fields.bytes.as_slice())?);
    Ok(())
}

/// Writes what makes a body stale, and both revisions.
fn put_stale(alloc: Global, found: &mut String, library: &Library, name: &str) -> Result<(), Fail> {
    let name = bytes(alloc, name)?;
    match &library.stale(alloc, &name)? {
        Some(stale) => {
            put_text(found, &stale.by)?;
            Ok(write!(found, " {} {}", stale.changed, stale.checked)?)
        }
        None => Ok(found.push_str("-")?),
    }
}

fn put_unmet(alloc: Global, found: &mut String, library: &Library, left: &str) -> Result<(), Fail> {
    let left = names(alloc, left)?;
    match &library.unmet(alloc, left.as_slice())? {
        Some(name) => put_text(found, name),
        None => Ok(found.push_str("-")?),
    }
}

/// Writes of each module its name, when it changed, and when its body was checked.
fn put_modules(found: &mut String, library: &Library) -> Result<(), Fail> {
    write!(found, "{} ", library.revision())?;
    for n in 0..4096 {
        let Some(spec) = library.specs().at(n) else {
            return Ok(());
        };
        put_text(found, &spec.name)?;
        write!(found, " {}", library.changed(&spec.name).unwrap_or(0))?;
        if let Some(body) = library.body(&spec.name) {
            write!(found, " {}", body.checked)?;
        }
        found.push_str(",")?;
    }
    Ok(())
}

fn put_all(alloc: Global, found: &mut String, library: &Library) -> Result<(), Fail> {
    put_modules(found, library)?;
    for name in ["f", "g", "h"] {
        if library.program(&bytes(alloc, name)?).is_some() {
            found.push_str(name)?;
        }
    }
    Ok(())
}

fn put_link_error(found: &mut String, error: &LinkError) -> Result<(), Fail> {
    let (word, name) = match error {
        LinkError::NoModule(name) => ("no module ", name.as_slice()),
        LinkError::BadStart(name) => ("bad start ", name.as_slice()),
        LinkError::NoBody(name) => ("no body ", name.as_slice()),
        LinkError::Misfit(name) => ("misfit ", name.as_slice()),
        LinkError::TooManyInstances => ("too many instances", b"".as_slice()),
        LinkError::ProgramTooLarge => ("too large", b"".as_slice()),
        _ => ("another", b"".as_slice()),
    };
    Ok(write!(found, "{word}{}", str::from_utf8(name).unwrap_or("?"))?)
}

/// Writes what comes of linking from a start, which is the same with a map.
fn put_linked(
    alloc: Global,
    found: &mut String,
    library: &Library,
    start: &str,
) -> Result<(), Fail> {
    let start = bytes(alloc, start)?;
    let is_linked = match &link(alloc, library, &start) {
        Ok(_) => true,
        Err(error) => {
            put_link_error(found, error)?;
            false
        }
    };
    let is_traced = link_traced(alloc, library, &start).is_ok();
    if is_traced != is_linked {
        return Err("another end with a map")?;
    }
    if is_linked {
        found.push_str("linked")?;
    }
    Ok(())
}

/// Does a step, and writes what comes of it.
fn put_step(
    alloc: Global,
    found: &mut String,
    library: &mut Library,
    sort: &str,
    text: &str,
) -> Result<(), Fail> {
    let (name, rest) = text.split_once(' ').unwrap_or((text, ""));
    match sort {
        "s" => put_spec(alloc, found, library, text, true),
        "r" => put_spec(alloc, found, library, text, false),
        "b" => enter_body(alloc, found, library, name, named_body(alloc, name, rest)?),
        "o" => enter_body(alloc, found, library, name, object_body(alloc, rest)?),
        "p" => put_program(alloc, found, library, name, rest),
        "f" => {
            read_fields(alloc, library, text)?;
            Ok(found.push_str("ok")?)
        }
        "t" => put_stale(alloc, found, library, text),
        "u" => put_unmet(alloc, found, library, text),
        "l" => put_linked(alloc, found, library, text),
        _ => put_all(alloc, found, library),
    }
}

/// Writes `kept` if what a script tells comes of each of its steps, and else what does.
pub fn put_script(alloc: Global, found: &mut String, script: &str) -> Result<(), Fail> {
    let mut library = Box::new(alloc, Library::empty(alloc))?;
    for line in script.split_terminator('\n') {
        let (step, _) = line.split_once('\t').unwrap_or((line, ""));
        let (sort, text) = step.split_once(' ').unwrap_or((step, ""));
        write!(found, "{step}\t")?;
        put_step(alloc, found, &mut library, sort, text)?;
        found.push_str("\n")?;
    }
    if found.as_str() == script {
        found.clear();
        found.push_str("kept")?;
    }
    Ok(())
}
