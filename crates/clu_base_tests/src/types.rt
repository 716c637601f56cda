//! Texts of types, uses and specifications, what they come to, and built-in operations.

use clu_base::{Bytes, FormatError, Sequence};
use clu_builtin::{Builtin, heading};
use clu_rows::parts;
use clu_specs::{Target, read_spec, read_type, read_use, spec_text, type_text, use_text};
use clu_types::{Actual, Term, TypeArena, TypeId};
use std::alloc::Global;
use std::fmt::Write;
use std::test::Fail;

/// Writes `ok` if what is written of a text is the same, and else where the text was refused.
fn put_again(
    found: &mut String,
    given: &[u8],
    written: &Result<Bytes, FormatError>,
) -> Result<(), Fail> {
    match written {
        Ok(written) => {
            if written.as_slice() != given {
                return Err("written as another text")?;
            }
            Ok(found.push_str("ok")?)
        }
        Err(FormatError::Bad(at)) => Ok(write!(found, "{at}")?),
        Err(FormatError::Memory) => Err("out of memory")?,
    }
}

fn spec_again(alloc: Global, given: &[u8]) -> Result<Bytes, FormatError> {
    let spec = Box::new(alloc, read_spec(alloc, given)?)?;
    Ok(spec_text(alloc, &spec)?)
}

/// Writes `ok`, or where a specification is refused.
pub fn put_spec(alloc: Global, found: &mut String, given: &[u8]) -> Result<(), Fail> {
    put_again(found, given, &spec_again(alloc, given))
}

fn type_again(alloc: Global, given: &[u8]) -> Result<Bytes, FormatError> {
    let mut types = Box::new(alloc, TypeArena::new(alloc))?;
    let id = read_type(alloc, &mut types, given)?;
    Ok(type_text(alloc, &types, id)?)
}

/// Writes `ok`, or where a type is refused.
pub fn put_type(alloc: Global, found: &mut String, given: &[u8]) -> Result<(), Fail> {
    put_again(found, given, &type_again(alloc, given))
}

fn use_again(alloc: Global, given: &[u8]) -> Result<Bytes, FormatError> {
    let mut types = Box::new(alloc, TypeArena::new(alloc))?;
    let target = Box::new(alloc, read_use(alloc, &mut types, given)?)?;
    Ok(use_text(alloc, &types, &target)?)
}

/// Writes `ok`, or where a use is refused.
pub fn put_use(alloc: Global, found: &mut String, given: &[u8]) -> Result<(), Fail> {
    put_again(found, given, &use_again(alloc, given))
}

/// Writes of two types whether the first is included in the second.
pub fn put_inclusion(alloc: Global, found: &mut String, given: &str) -> Result<(), Fail> {
    let (narrow, wide) = parts(given);
    let mut types = Box::new(alloc, TypeArena::new(alloc))?;
    let narrow = read_type(alloc, &mut types, narrow.as_bytes())?;
    let wide = read_type(alloc, &mut types, wide.as_bytes())?;
    if !types.contains(narrow) {
        return Err("the first type is not of the arena")?;
    }
    let word = if types.included(narrow, wide) {
        "yes"
    } else {
        "no"
    };
    Ok(found.push_str(word)?)
}

/// The actual parameters of a use.
fn actuals_of(alloc: Global, types: &mut TypeArena, given: &str) -> Result<Sequence<Actual>, Fail> {
    let target = Box::new(alloc, read_use(alloc, types, given.as_bytes())?)?;
    match Box::into_inner(target) {
        Target::Module(_, actuals) => Ok(actuals),
        _ => Err("no module")?,
    }
}

/// Writes of a type and a use the type with the actual parameters of the use put in.
pub fn put_substituted(alloc: Global, found: &mut String, given: &str) -> Result<(), Fail> {
    let (generic, given) = parts(given);
    let mut types = Box::new(alloc, TypeArena::new(alloc))?;
    let actuals = actuals_of(alloc, &mut types, given)?;
    let generic = read_type(alloc, &mut types, generic.as_bytes())?;
    if !types.holds_actuals(actuals.as_slice()) {
        return Err("an actual is not of the arena")?;
    }
    let made = types.subst(alloc, generic, actuals.as_slice())?;
    put_made(alloc, found, &types, made)
}

/// The same, where the type comes from another arena.
pub fn put_carried(alloc: Global, found: &mut String, given: &str) -> Result<(), Fail> {
    let (generic, given) = parts(given);
    let mut types = Box::new(alloc, TypeArena::new(alloc))?;
    let mut from = Box::new(alloc, TypeArena::new(alloc))?;
    let actuals = actuals_of(alloc, &mut types, given)?;
    let generic = read_type(alloc, &mut from, generic.as_bytes())?;
    if !types.holds_actuals(actuals.as_slice()) {
        return Err("an actual is not of the arena")?;
    }
    let made = types.carry(alloc, &from, generic, actuals.as_slice())?;
    put_made(alloc, found, &types, made)
}

/// Writes the text of a type.
fn put_made(
    alloc: Global,
    found: &mut String,
    types: &TypeArena,
    made: TypeId,
) -> Result<(), Fail> {
    if !types.contains(made) {
        return Err("the type is not of the arena")?;
    }
    let text = type_text(alloc, types, made)?;
    Ok(found.push_str(str::from_utf8(text.as_slice()).unwrap_or("?"))?)
}

/// The type of an operation, as a term.
fn term_of(builtin: Builtin) -> Term {
    let Builtin { iter, heading, .. } = builtin;
    if iter {
        Term::Iter(heading)
    } else {
        Term::Proc(heading)
    }
}

fn put_term(
    alloc: Global,
    found: &mut String,
    types: &mut TypeArena,
    term: Term,
) -> Result<(), Fail> {
    if !types.holds(&term) {
        return Err("the heading is not of the arena")?;
    }
    let id = types.intern(term)?;
    put_made(alloc, found, types, id)
}

/// Writes of a type and a name the type of the built-in operation, or `none`.
pub fn put_heading(alloc: Global, found: &mut String, given: &str) -> Result<(), Fail> {
    let (of, name) = parts(given);
    let name = Bytes::from_slice(alloc, name.as_bytes())?;
    let mut types = Box::new(alloc, TypeArena::new(alloc))?;
    let of = read_type(alloc, &mut types, of.as_bytes())?;
    match heading(alloc, &mut types, of, &name)? {
        Some(builtin) => put_term(alloc, found, &mut types, term_of(builtin)),
        None => Ok(found.push_str("none")?),
    }
}
