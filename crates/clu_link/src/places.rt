//! Where the parts of a program lie: the code, after it the fixed part, after that the data.

use crate::runtime::{RUNTIME_TABLE, regions_bytes};
use crate::texts::Texts;
use clu_reach::{CELL, DESCRIPTOR, LinkError, OWN_VARIABLE, Program, cells, string_bytes};
use std::alloc::Global;

/// The address of the first code word.
const BASE: u64 = 0x10000;

/// Addresses of the parts of a program.
#[derive(Drop)]
pub struct Places {
    /// For each code that of its first word.
    pub codes: Vec<u64>,
    /// That of the fixed part, in which the next ones lie in this order.
    pub fixed: u64,
    /// For each string that of its size.
    pub strings: Vec<u64>,
    /// That of the first descriptor.
    pub descriptors: u64,
    /// For each callable that of its link table.
    pub tables: Vec<u64>,
    /// That of the runtime's table.
    pub runtime: u64,
    /// For each code that of its regions table, for the parts of the runtime that of the runtime's table.
    pub regions: Vec<u64>,
    /// That of the data, which are the own variables.
    pub data: u64,
    /// That after the data.
    pub end: u64,
}

impl Places {
    /// The address of a code's first word, and that of its regions table.
    pub fn of_code(&self, code: usize) -> Result<(u64, u64), LinkError> {
        Ok((
            at(self.codes.as_slice(), code)?,
            at(self.regions.as_slice(), code)?,
        ))
    }

    /// The entry of a code.
    pub fn entry(&self, code: usize) -> Result<u64, LinkError> {
        at(self.codes.as_slice(), code)
    }

    /// The address of a string.
    pub fn string(&self, text: usize) -> Result<u64, LinkError> {
        at(self.strings.as_slice(), text)
    }

    /// The address of a callable's link table.
    pub fn table(&self, callable: usize) -> Result<u64, LinkError> {
        at(self.tables.as_slice(), callable)
    }

    /// The address of an own variable.
    pub fn variable(&self, number: usize) -> u64 {
        let behind = (number as u64).saturating_mul(OWN_VARIABLE);
        self.data.saturating_add(behind)
    }

    /// The address of a callable's descriptor.
    pub fn descriptor(&self, callable: usize) -> u64 {
        let behind = (callable as u64).saturating_mul(DESCRIPTOR);
        self.descriptors.saturating_add(behind)
    }
}

/// The address of the item of this number.
fn at(places: &[u64], number: usize) -> Result<u64, LinkError> {
    match places.get(number) {
        Some(place) => Ok(*place),
        None => Err(LinkError::NotYet),
    }
}

/// The next address that is free.
#[derive(Clone, Copy)]
struct Cursor {
    next: u64,
}

impl Cursor {
    /// The address of so many bytes.
    fn take(&mut self, bytes: u64) -> u64 {
        let at = self.next;
        self.next = at.saturating_add(bytes);
        at
    }

    /// Goes on at a multiple of 8.
    fn align(&mut self) {
        self.next = self.next.saturating_add(7) & 0xffff_ffff_ffff_fff8;
    }
}

/// Lays out a program.
pub fn lay_out(alloc: Global, program: &Program<'_>, texts: &Texts) -> Result<Places, LinkError> {
    let mut cursor = Cursor { next: BASE };
    let codes = code_places(alloc, &mut cursor, program)?;
    cursor.align();
    let fixed = cursor.next;
    let strings = string_places(alloc, &mut cursor, texts)?;
    let count = program.callables.len() as u64;
    let descriptors = cursor.take(count.saturating_mul(DESCRIPTOR));
    let tables = table_places(alloc, &mut cursor, program)?;
    let runtime = cursor.take(RUNTIME_TABLE);
    let regions = region_places(alloc, &mut cursor, program, runtime)?;
    let variables = program.variables.len() as u64;
    let data = cursor.take(variables.saturating_mul(OWN_VARIABLE));
    Ok(Places {
        codes,
        fixed,
        strings,
        descriptors,
        tables,
        runtime,
        regions,
        data,
        end: cursor.next,
    })
}

fn code_places(
    alloc: Global,
    cursor: &mut Cursor,
    program: &Program<'_>,
) -> Result<Vec<u64>, LinkError> {
    let mut places = Vec::new(alloc);
    for code in program.codes.as_slice() {
        let words = code.routine().code.as_slice().len() as u64;
        places.push(cursor.take(words.saturating_mul(4)))?;
    }
    Ok(places)
}

fn string_places(alloc: Global, cursor: &mut Cursor, texts: &Texts) -> Result<Vec<u64>, LinkError> {
    let mut places = Vec::new(alloc);
    for text in &texts.strings {
        places.push(cursor.take(string_bytes(text.as_slice().len() as u64)))?;
    }
    Ok(places)
}

fn table_places(
    alloc: Global,
    cursor: &mut Cursor,
    program: &Program<'_>,
) -> Result<Vec<u64>, LinkError> {
    let mut places = Vec::new(alloc);
    for callable in program.callables.as_slice() {
        let routine = program.routine(callable.code)?;
        places.push(cursor.take(cells(routine).saturating_mul(CELL)))?;
    }
    Ok(places)
}

fn region_places(
    alloc: Global,
    cursor: &mut Cursor,
    program: &Program<'_>,
    runtime: u64,
) -> Result<Vec<u64>, LinkError> {
    let mut places = Vec::new(alloc);
    for (number, code) in program.codes.as_slice().iter().enumerate() {
        if program.is_part(number) {
            places.push(runtime)?;
        } else {
            let bytes = regions_bytes(alloc, code.routine().regions.as_slice())?;
            places.push(cursor.take(bytes))?;
        }
    }
    Ok(places)
}
