//! The bytes of the fixed part: strings, descriptors, link tables, the runtime's table and the regions tables,
//! each at its place.

use crate::places::Places;
use crate::runtime::add_regions;
use crate::texts::{Cell, Texts, TrapTexts};
use crate::type_words::type_word;
use clu_base::{Memory, u64_add};
use clu_reach::{Callable, LinkError, Program};
use clu_types::TypeId;
use std::alloc::Global;

/// The fixed part of a program.
pub fn fixed_part(
    alloc: Global,
    program: &Program<'_>,
    texts: &Texts,
    places: &Places,
) -> Result<Vec<u8>, LinkError> {
    let mut out = Vec::new(alloc);
    add_strings(&mut out, texts)?;
    add_descriptors(&mut out, program, places)?;
    add_link_tables(&mut out, program, texts, places)?;
    add_runtime_table(&mut out, texts, places)?;
    add_regions(alloc, &mut out, program, texts, places)?;
    Ok(out)
}

/// Each string is its size and its bytes, in whole words.
fn add_strings(out: &mut Vec<u8>, texts: &Texts) -> Result<(), LinkError> {
    for text in &texts.strings {
        let bytes = text.as_slice();
        u64_add(out, bytes.len() as u64)?;
        out.extend_from_slice(bytes)?;
        pad(out)?;
    }
    Ok(())
}

/// Adds zeros up to a multiple of 8 bytes.
fn pad(out: &mut Vec<u8>) -> Result<(), Memory> {
    let past = out.len() % 8;
    if past > 0 {
        for _ in past..8 {
            out.push(0)?;
        }
    }
    Ok(())
}

/// A descriptor is the entry, the own type and the link table.
fn add_descriptors(
    out: &mut Vec<u8>,
    program: &Program<'_>,
    places: &Places,
) -> Result<(), LinkError> {
    for (callable, table) in program
        .callables
        .as_slice()
        .iter()
        .zip(places.tables.as_slice())
    {
        u64_add(out, places.entry(callable.code)?)?;
        u64_add(out, type_word(&program.types, callable.own))?;
        u64_add(out, *table)?;
    }
    Ok(())
}

fn add_link_tables(
    out: &mut Vec<u8>,
    program: &Program<'_>,
    texts: &Texts,
    places: &Places,
) -> Result<(), LinkError> {
    for (number, callable) in program.callables.as_slice().iter().enumerate() {
        let (_, regions) = places.of_code(callable.code)?;
        u64_add(out, regions)?;
        add_entries(out, program, places, callable)?;
        add_descriptor_cells(out, places, callable)?;
        add_constants(out, texts, places, number)?;
        add_variables(out, places, callable)?;
        add_types(out, program, callable.types.as_slice())?;
    }
    Ok(())
}

fn add_entries(
    out: &mut Vec<u8>,
    program: &Program<'_>,
    places: &Places,
    callable: &Callable,
) -> Result<(), LinkError> {
    for used in callable.uses.as_slice() {
        let Some(used) = program.callables.get(*used) else {
            return Err(LinkError::NotYet);
        };
        u64_add(out, places.entry(used.code)?)?;
    }
    Ok(())
}

fn add_descriptor_cells(
    out: &mut Vec<u8>,
    places: &Places,
    callable: &Callable,
) -> Result<(), LinkError> {
    for used in callable.uses.as_slice() {
        u64_add(out, places.descriptor(*used))?;
    }
    Ok(())
}

fn add_constants(
    out: &mut Vec<u8>,
    texts: &Texts,
    places: &Places,
    callable: usize,
) -> Result<(), LinkError> {
    let Some(constants) = texts.constants.get(callable) else {
        return Err(LinkError::NotYet);
    };
    for constant in constants.as_slice() {
        let word = match constant {
            Cell::Word(word) => *word,
            Cell::Text(text) => places.string(*text)?,
        };
        u64_add(out, word)?;
    }
    Ok(())
}

/// The addresses of the own variables that the holes of the code name.
fn add_variables(out: &mut Vec<u8>, places: &Places, callable: &Callable) -> Result<(), LinkError> {
    for variable in callable.variables.as_slice() {
        u64_add(out, places.variable(*variable))?;
    }
    Ok(())
}

fn add_types(out: &mut Vec<u8>, program: &Program<'_>, types: &[TypeId]) -> Result<(), LinkError> {
    for of in types {
        u64_add(out, type_word(&program.types, *of))?;
    }
    Ok(())
}

/// The runtime's table: the strings that it needs, the descriptor of the start, which is the first callable, and of each
/// trap the name and the object.
fn add_runtime_table(out: &mut Vec<u8>, texts: &Texts, places: &Places) -> Result<(), LinkError> {
    u64_add(out, places.string(texts.failure)?)?;
    u64_add(out, places.string(texts.unhandled)?)?;
    u64_add(out, places.descriptor(0))?;
    for trap in texts.traps.as_slice() {
        add_trap(out, *trap, places)?;
    }
    Ok(())
}

fn add_trap(out: &mut Vec<u8>, trap: TrapTexts, places: &Places) -> Result<(), LinkError> {
    u64_add(out, places.string(trap.name)?)?;
    let object = match trap.object {
        Some(text) => places.string(text)?,
        None => 0,
    };
    Ok(u64_add(out, object)?)
}
