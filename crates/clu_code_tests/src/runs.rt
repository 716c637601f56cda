//! Runs of small images. The words are written after the tables of the RISC-V manual and the values reckoned by hand.

ghost use Rattle.std.specs.Prelude.{◌≡◌, IfOk, None};

use clu_base::{Bytes, MemSink, MemSource};
use clu_rows::{bytes_of, number_at};
use rv_isa::{Image, Reg};
use rv_machine::{Ending, Limits, Machine};
use std::alloc::Global;
use std::fmt::Write;
use std::test::Fail;

/// The number of 64 bits in hexadecimal digits at this place among the words of a text; 0 where there is none.
fn hex_at(text: &str, place: usize) -> u64 {
    u64::from_str_radix(text.split(' ').nth(place).unwrap_or(""), 16).unwrap_or(0)
}

/// A machine with the image of these parts, which starts at this word of its code, and the smallest store and stack.
fn started(
    alloc: Global,
    entry: u32,
    code: Vec<u32>,
    fixed: Vec<u8>,
    area: Vec<u8>,
) -> Result<Box<Machine>, Fail>
    ensures { IfOk result (λ machine. machine.value.ended ≡ None) }
{
    let image = Image::new(entry, code, fixed, area).ok_or("no image")?;
    let limits = Limits::new(4096, 4096).ok_or("no limits")?;
    Ok(Box::new(alloc, Machine::new(alloc, &image, limits)?)?)
}

/// ld x6, 24(x7): what stands wherever the word of a row may go on.
const AGAIN: u32 = 0x0183b303;

/// The code round the word of a row. The tenth word is the last, so that the data stand at 0x10028.
const ROUND: [u32; 10] = [
    AGAIN, AGAIN, AGAIN, AGAIN, AGAIN, 0x000103b7, // lui x7, 0x10
    0x01838393, // addi x7, x7, 24
    0x0103b283, // ld x5, 16(x7)
    0x0183b303, // ld x6, 24(x7)
    0xfe9ff06f, // jal x0, -24
];

/// A machine before the word of a row and the two words of its data.
fn instruction(alloc: Global, row: &str) -> Result<Box<Machine>, Fail> {
    let mut code = ROUND.to_vec(alloc)?;
    if let Some(word) = code.get_mut(3) {
        *word = u32::try_from(hex_at(row, 0)).unwrap_or(0);
    }
    let mut area = Vec::new(alloc);
    area.extend_from_slice(&hex_at(row, 1).to_le_bytes())?;
    area.extend_from_slice(&hex_at(row, 2).to_le_bytes())?;
    started(alloc, 5, code, Vec::new(alloc), area)
}

/// Writes what x10, the pc and the eight bytes are after the word of a row, if neither it nor the next one ends the run.
pub fn put_instruction(alloc: Global, found: &mut String, row: &str) -> Result<(), Fail> {
    let mut machine = instruction(alloc, row.split(": ").last().unwrap_or(""))?;
    let (Some(x6), Some(x10)) = (Reg::new(6), Reg::new(10)) else {
        return Err("no registers")?;
    };
    let mut input = MemSource::new(Bytes::from_vec(Vec::new(alloc)), 1, Vec::new(alloc));
    let mut output = MemSink::new(alloc, 64, 1, Vec::new(alloc))?;
    let first = machine.run(6, &mut input, &mut output);
    let value = machine.reg(x10);
    let pc = machine.pc();
    let second = machine.run(1, &mut input, &mut output);
    if first == Ending::StepsSpent && second == Ending::StepsSpent {
        write!(found, " {value:x} {pc:x} {:x}", machine.reg(x6))?;
    }
    Ok(())
}

/// The words of code of a text.
fn code_of(alloc: Global, digits: &str) -> Result<Vec<u32>, Fail> {
    let mut code = Vec::new(alloc);
    for word in digits.split(' ') {
        code.push(u32::from_str_radix(word, 16)?)?;
    }
    Ok(code)
}

/// The bytes of a text, which may have none.
fn area_of(alloc: Global, digits: &str) -> Result<Vec<u8>, Fail> {
    if digits.is_empty() {
        return Ok(Vec::new(alloc));
    }
    Ok(bytes_of(alloc, digits)?)
}

/// A machine with the image whose parts stand between semicolons.
fn machine_of(alloc: Global, parts: &str) -> Result<Box<Machine>, Fail>
    ensures { IfOk result (λ machine. machine.value.ended ≡ None) }
{
    let mut parts = parts.split("; ");
    let code = code_of(alloc, parts.next().unwrap_or(""))?;
    let fixed = area_of(alloc, parts.next().unwrap_or(""))?;
    let area = area_of(alloc, parts.next().unwrap_or(""))?;
    started(alloc, 0, code, fixed, area)
}

/// Writes how a run ends and what it writes, or the text of its failure; and that it doesn't end the same when it is run again.
pub fn put_run(alloc: Global, found: &mut String, row: &str) -> Result<(), Fail> {
    let (numbers, parts) = row.split_once("; ").ok_or("no image")?;
    let numbers = numbers.split(": ").last().unwrap_or("");
    let mut machine = machine_of(alloc, parts)?;
    let reads = vec![in alloc; hex_at(numbers, 2), hex_at(numbers, 3)]?;
    let writes = vec![in alloc; hex_at(numbers, 4), hex_at(numbers, 5)]?;
    let piece = (hex_at(numbers, 1) as usize).max(1);
    let mut input = MemSource::new(Bytes::from_slice(alloc, b"abc")?, piece, reads);
    let mut output = MemSink::new(alloc, 64, 1, writes)?;
    let ending = machine.run(number_at(numbers, 0), &mut input, &mut output);
    let mut text = Vec::new(alloc);
    match ending {
        Ending::Failure { at, count } => text.extend_from_slice(machine.text(at, count))?,
        _ => text.extend_from_slice(output.bytes())?,
    }
    put_ending(found, ending)?;
    if !text.is_empty() {
        write!(found, " {}", str::from_utf8(&text).unwrap_or("?"))?;
    }
    if ending != Ending::StepsSpent && machine.run(9, &mut input, &mut output) != ending {
        found.push_str(" and not again")?;
    }
    Ok(())
}

/// Writes an ending; addresses and numbers in hexadecimal digits.
fn put_ending(found: &mut String, ending: Ending) -> Result<(), Fail> {
    match ending {
        Ending::Returned => found.push_str("returned")?,
        Ending::Failure { .. } => found.push_str("failure")?,
        Ending::StoreFull => found.push_str("store full")?,
        Ending::StackFull => found.push_str("stack full")?,
        Ending::StepsSpent => found.push_str("steps spent")?,
        Ending::ReadFault => found.push_str("read fault")?,
        Ending::WriteFault => found.push_str("write fault")?,
        Ending::BadInstruction { pc } => write!(found, "bad instruction {pc:x}")?,
        Ending::BadAccess { address } => write!(found, "bad access {address:x}")?,
        Ending::BadJump { target } => write!(found, "bad jump {target:x}")?,
        Ending::BadEcall { number } => write!(found, "bad call {number:x}")?,
    }
    Ok(())
}

/// Writes the limits of a store and a stack, if there are such.
pub fn put_limits(found: &mut String, given: &str) -> Result<(), Fail> {
    match Limits::new(number_at(given, 0), number_at(given, 1)) {
        Some(limits) => Ok(write!(found, " {} {}", limits.store(), limits.stack())?),
        None => Ok(found.push_str(" none")?),
    }
}
