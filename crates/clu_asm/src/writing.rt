//! From images to assembly text.

ghost use Rattle.std.specs.Prelude.{◌≡◌, ◌++◌, ◌∷◌, ◌%◌, [], length, decimal, flat_map, IfOk, OnOk};
ghost use Rattle.clu_asm.specs.AssemblyText as text;

use crate::mnemonics::Mnemonic;
use crate::rows::digits_of;
use clu_base::{Bytes, Memory};
use itoa::Buffer;
use rv_isa::{Image, Instr, Reg, decode};
use std::alloc::Global;

/// The line of a code word, with the byte 10 at its end. The only error is that memory runs out.
pub fn asm_line(alloc: Global, w: u32) -> Result<Bytes, Memory>
    ensures { IfOk result (λ b. b ≡ text.code_line w) }
{
    let mut out = Vec::new(alloc);
    code_line_add(&mut out, w)?;
    Ok(Bytes::from_vec(out))
}

/// The assembly text of an image. The only error is that memory runs out.
pub fn asm_text(alloc: Global, image: &Image) -> Result<Bytes, Memory>
    ensures { IfOk result (λ b. b ≡ text.asm_text image.now) }
{
    let mut out = Vec::new(alloc);
    entry_line_add(&mut out, image.entry)?;
    code_lines_add(&mut out, &image.code)?;
    row_lines_add(&mut out, b"fixed ", &image.fixed)?;
    row_lines_add(&mut out, b"data ", &image.area)?;
    Ok(Bytes::from_vec(out))
}

fn code_lines_add(out: &mut Vec<u8>, code: &[u32]) -> Result<(), Memory>
    ensures { OnOk result (out.new.items ≡ out.old.items ++ flat_map text.code_line code.now) }
{
    for w in code {
        code_line_add(out, *w)?;
    }
    Ok(())
}

fn code_line_add(out: &mut Vec<u8>, w: u32) -> Result<(), Memory>
    ensures { OnOk result (out.new.items ≡ out.old.items ++ text.code_line w) }
{
    code_text_add(out, w)?;
    out.push(b'\n')?;
    Ok(())
}

/// Appends the text of a code word.
#[tactic(auto, unfolding(crate::specs::AssemblyText::code_text))]
pub(crate) fn code_text_add(out: &mut Vec<u8>, w: u32) -> Result<(), Memory>
    ensures { OnOk result (out.new.items ≡ out.old.items ++ text.code_text w) }
{
    match decode(w) {
        Some(i) => instr_add(out, &i),
        None => word_add(out, w),
    }
}

fn word_add(out: &mut Vec<u8>, w: u32) -> Result<(), Memory>
    ensures { OnOk result (out.new.items ≡ out.old.items ++ text.word_text w) }
{
    out.extend_from_slice(b"word ")?;
    let mut digits = [0; 8];
    digits_of(w.to_be_bytes().as_slice(), &mut digits);
    out.extend_from_slice(&digits)?;
    Ok(())
}

fn instr_add(out: &mut Vec<u8>, i: &Instr) -> Result<(), Memory>
    ensures { OnOk result (out.new.items ≡ out.old.items ++ text.instr_text i.now) }
{
    out.extend_from_slice(Mnemonic::of(i).name())?;
    operands_add(out, i)
}

#[tactic(auto, unfolding(crate::specs::AssemblyText::operands))]
fn operands_add(out: &mut Vec<u8>, i: &Instr) -> Result<(), Memory>
    ensures { OnOk result (out.new.items ≡ out.old.items ++ text.operands i.now) }
{
    match *i {
        Instr::Upper { rd, imm, .. } | Instr::Jal { rd, imm } => one_and_number_add(out, rd, imm),
        Instr::Load { rd, rs1, imm, .. }
        | Instr::Imm { rd, rs1, imm, .. }
        | Instr::Jalr { rd, rs1, imm }
        | Instr::Fence { rd, rs1, imm } => two_and_number_add(out, rd, rs1, imm),
        Instr::Branch { rs1, rs2, imm, .. } | Instr::Save { rs1, rs2, imm, .. } => {
            two_and_number_add(out, rs1, rs2, imm)
        }
        Instr::Three { rd, rs1, rs2, .. } => three_add(out, rd, rs1, rs2),
        Instr::Ecall | Instr::Ebreak => Ok(()),
    }
}

fn one_and_number_add(out: &mut Vec<u8>, r: Reg, imm: i32) -> Result<(), Memory>
    ensures { OnOk result (out.new.items ≡ out.old.items ++ (text.register 32 r ++ text.number imm)) }
{
    register_add(out, b' ', r)?;
    number_add(out, imm)
}

fn two_and_number_add(out: &mut Vec<u8>, r: Reg, s: Reg, imm: i32) -> Result<(), Memory>
    ensures { OnOk result (out.new.items ≡ out.old.items ++ (text.register 32 r ++ text.register 44 s ++ text.number imm)) }
{
    register_add(out, b' ', r)?;
    register_add(out, b',', s)?;
    number_add(out, imm)
}

fn three_add(out: &mut Vec<u8>, r: Reg, s: Reg, t: Reg) -> Result<(), Memory>
    ensures { OnOk result (out.new.items ≡ out.old.items ++ (text.register 32 r ++ text.register 44 s ++ text.register 44 t)) }
{
    register_add(out, b' ', r)?;
    register_add(out, b',', s)?;
    register_add(out, b',', t)
}

/// Appends a register after a mark.
fn register_add(out: &mut Vec<u8>, mark: u8, r: Reg) -> Result<(), Memory>
    ensures { OnOk result (out.new.items ≡ out.old.items ++ text.register mark r) }
{
    let mut buffer = Buffer::new();
    out.extend_from_slice(&[mark, b'x'])?;
    out.extend_from_slice(buffer.format(r.number()).as_bytes())?;
    Ok(())
}

fn number_add(out: &mut Vec<u8>, imm: i32) -> Result<(), Memory>
    ensures { OnOk result (out.new.items ≡ out.old.items ++ text.number imm) }
{
    let mut buffer = Buffer::new();
    out.push(b',')?;
    out.extend_from_slice(buffer.format(imm).as_bytes())?;
    Ok(())
}

fn entry_line_add(out: &mut Vec<u8>, n: u32) -> Result<(), Memory>
    ensures { OnOk result (out.new.items ≡ out.old.items ++ text.entry_line n) }
{
    let mut buffer = Buffer::new();
    out.extend_from_slice(b"entry ")?;
    out.extend_from_slice(buffer.format(n).as_bytes())?;
    out.push(b'\n')?;
    Ok(())
}

/// Appends a line for each eight bytes.
fn row_lines_add(out: &mut Vec<u8>, word: &[u8], bytes: &[u8]) -> Result<(), Memory>
    ensures { OnOk result (out.new.items ≡ out.old.items ++ text.row_lines word.now bytes.now) }
{
    let mut left = bytes;
    while left.len() >= 8 {
        let (row, rest) = left.split_at(8);
        row_line_add(out, word, row)?;
        left = rest;
    }
    Ok(())
}

/// Appends the line of eight bytes after a word.
fn row_line_add(out: &mut Vec<u8>, word: &[u8], row: &[u8]) -> Result<(), Memory>
    requires { length row.now ≡ 8 }
    ensures { OnOk result (out.new.items ≡ out.old.items ++ text.row_line word.now row.now) }
{
    let mut digits = [0; 16];
    digits_of(row, &mut digits);
    out.extend_from_slice(word)?;
    out.extend_from_slice(&digits)?;
    out.push(b'\n')?;
    Ok(())
}
