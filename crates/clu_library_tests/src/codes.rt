//! The code of operations of built-in types.

use clu_base::{Bytes, Const, Memory, ObjConst};
use clu_rows::parts;
use clu_rt_data::{scheme, select_operation};
use clu_specs::read_type;
use clu_types::{TypeArena, TypeId};
use clu_wir::{WCode, WDeed, WLeaf, WRoutine};
use std::alloc::Global;
use std::fmt::Write;
use std::test::Fail;

/// Appends what constants name, each after a comma.
fn put_constants(found: &mut String, constants: &[ObjConst]) -> Result<(), Fail> {
    for constant in constants {
        match constant {
            ObjConst::Value(Const::Str(bytes)) => {
                write!(
                    found,
                    ",{}",
                    str::from_utf8(bytes.as_slice()).unwrap_or("?")
                )?;
            }
            _ => return Err("no string")?,
        }
    }
    Ok(())
}

fn put_routine(found: &mut String, code: &WRoutine) -> Result<(), Fail> {
    if code.nodes != 0 || code.width() > 32 || code.args > code.slots || code.args > 9 {
        return Err("no code of an operation")?;
    }
    write!(found, "{}", code.args)?;
    put_constants(found, code.constants.as_slice())
}

/// The code of an operation that no text defines.
fn code_of(
    alloc: Global,
    types: &TypeArena,
    of: TypeId,
    name: &Bytes,
) -> Result<Option<WCode>, Memory> {
    match clu_rt_text::word_code(alloc, types, of, name)? {
        Some(code) => Ok(Some(code)),
        None => clu_rt_data::word_code(alloc, types, of, name),
    }
}

fn put_leaf(found: &mut String, leaf: &WLeaf) -> Result<(), Fail> {
    match leaf.deed {
        WDeed::Value(_) => found.push_str("value")?,
        WDeed::Put(_, _, _) => found.push_str("put")?,
    }
    put_constants(found, leaf.constants.as_slice())
}

/// Writes what this code is.
pub fn put_code(alloc: Global, found: &mut String, row: &str) -> Result<(), Fail> {
    let (of, name) = parts(row);
    let name = Bytes::from_slice(alloc, name.as_bytes())?;
    let mut types = Box::new(alloc, TypeArena::new(alloc))?;
    let of = read_type(alloc, &mut types, of.as_bytes())?;
    match &code_of(alloc, &types, of, &name)? {
        None => Ok(found.push_str("-")?),
        Some(WCode::Leaf(leaf)) => put_leaf(found, leaf),
        Some(WCode::Routine(code)) => put_routine(found, code),
    }
}

/// Writes how many arguments a scheme takes and what it uses. It counts 24 nodes, and takes no more than these allow.
fn put_uses(found: &mut String, code: &WRoutine) -> Result<(), Fail> {
    let room = code.room();
    if code.nodes != 24 || code.width() > 48 || room.code > 1536 || room.data > 6144 {
        return Err("more than its nodes allow")?;
    }
    write!(found, "{}", code.args)?;
    for used in &code.uses {
        write!(found, ",{}", str::from_utf8(used.as_slice()).unwrap_or("?"))?;
    }
    Ok(())
}

/// Writes what the code is of an operation over those of two components.
pub fn put_scheme(alloc: Global, found: &mut String, row: &str) -> Result<(), Fail> {
    let (of, name) = parts(row);
    let name = Bytes::from_slice(alloc, name.as_bytes())?;
    let mut types = Box::new(alloc, TypeArena::new(alloc))?;
    let of = read_type(alloc, &mut types, of.as_bytes())?;
    match &scheme(alloc, &types, of, &name)? {
        None => Ok(found.push_str("-")?),
        Some(code) => put_uses(found, code),
    }
}

fn put_numbers(found: &mut String, known: &[Const]) -> Result<(), Fail> {
    for constant in known {
        if let Const::Int(number) = constant {
            write!(found, " {number}")?;
        }
    }
    Ok(())
}

/// Writes what is known of a type where an operation is done, or a point if there is no such operation.
pub fn put_known(alloc: Global, found: &mut String, row: &str) -> Result<(), Fail> {
    let (of, name) = parts(row);
    let name = Bytes::from_slice(alloc, name.as_bytes())?;
    let mut types = Box::new(alloc, TypeArena::new(alloc))?;
    let of = read_type(alloc, &mut types, of.as_bytes())?;
    match &select_operation(alloc, &types, of, &name)? {
        None => Ok(found.push_str(".")?),
        Some(selected) => put_numbers(found, selected.known.as_slice()),
    }
}
