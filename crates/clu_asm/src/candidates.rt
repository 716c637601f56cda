//! From the text of a line to the one code word that can have it.

ghost use Rattle.std.specs.Prelude.{◌≡◌, ◌≢◌, ◌<◌, ◌^◌, ℕ, IfSome, IfNone, IfOk};
ghost use Rattle.rv_isa.specs.Encoded.{encoded as encoded_as};
ghost use Rattle.rv_isa.specs.Valid.{IsInstr};
ghost use Rattle.clu_asm.specs.AssemblyText.{code_text};
ghost use Rattle.clu_asm.specs.Candidates as candidates;

use crate::mnemonics::{Form, MNEMONICS, Mnemonic};
use crate::operands::{number, register};
use crate::places::split;
use crate::rows::word;
use crate::writing::code_text_add;
use clu_base::Memory;
use rv_isa::{Instr, Op, Reg, encode};

/// The code word with this text. The only error is that memory runs out. `scratch` is written over.
pub(crate) fn code_word(scratch: &mut Vec<u8>, text: &[u8]) -> Result<Option<u32>, Memory>
    ensures text { IfOk result (λ o. IfSome o (λ w. text.now ≡ code_text w)) }
    ensures none { IfOk result (λ o. IfNone o ((w : ℕ) → w < 2 ^ 32 → text.now ≢ code_text w)) }
{
    match candidate(text) {
        Some(w) => checked(scratch, w, text),
        None => Ok(None),
    }
}

/// The code word, if this is its text.
fn checked(scratch: &mut Vec<u8>, w: u32, text: &[u8]) -> Result<Option<u32>, Memory>
    ensures text { IfOk result (λ o. IfSome o (λ v. (v ≡ w) × (text.now ≡ code_text w))) }
    ensures none { IfOk result (λ o. IfNone o (text.now ≢ code_text w)) }
{
    scratch.clear();
    code_text_add(scratch, w)?;
    if scratch.as_slice() == text {
        Ok(Some(w))
    } else {
        Ok(None)
    }
}

/// The only code word that can have this text.
fn candidate(text: &[u8]) -> Option<u32>
    ensures { (w : ℕ) → w < 2 ^ 32 → text.now ≡ code_text w → result ≡ Some w }
{
    match instr(text) {
        Some(i) => encoded(i),
        None => word(text),
    }
}

/// The word of an instruction, if it has one.
fn encoded(i: Instr) -> Option<u32>
    ensures { IsInstr i → result ≡ Some (encoded_as i) }
{
    if i.valid() { Some(encode(i)) } else { None }
}

/// The only instruction that can have this text.
#[tactic(auto, unfolding(crate::specs::Candidates::guessed))]
fn instr(text: &[u8]) -> Option<Instr>
    ensures { result ≡ candidates.guessed text.now }
{
    let (name, operands) = split(text, b' ');
    match named(name) {
        Some(m) => with_operands(m, operands),
        None => None,
    }
}

/// The mnemonic that is called so.
#[tactic(auto, unfolding(crate::specs::Candidates::named))]
fn named(name: &[u8]) -> Option<Mnemonic>
    ensures { result ≡ candidates.named name.now }
{
    MNEMONICS.iter().copied().find(|m| m.is_called(name))
}

/// The instruction of a mnemonic and the text of its operands.
fn with_operands(m: Mnemonic, text: &[u8]) -> Option<Instr>
    ensures { result ≡ candidates.with_operands text.now m }
{
    let (a, others) = split(text, b',');
    let (b, c) = split(others, b',');
    made(m, a, b, c)
}

/// The instruction of a mnemonic and the texts of its operands.
fn made(m: Mnemonic, a: &[u8], b: &[u8], c: &[u8]) -> Option<Instr>
    ensures { result ≡ candidates.made m a.now b.now c.now }
{
    match m {
        Mnemonic::Table(op) => of_form(m.form(), op, a, b, c),
        Mnemonic::Jal => match one_and_number(a, b) {
            Some((rd, imm)) => Some(Instr::Jal { rd, imm }),
            None => None,
        },
        Mnemonic::Jalr => match two_and_number(a, b, c) {
            Some((rd, rs1, imm)) => Some(Instr::Jalr { rd, rs1, imm }),
            None => None,
        },
        Mnemonic::Fence => match two_and_number(a, b, c) {
            Some((rd, rs1, imm)) => Some(Instr::Fence { rd, rs1, imm }),
            None => None,
        },
        Mnemonic::Ecall => Some(Instr::Ecall),
        Mnemonic::Ebreak => Some(Instr::Ebreak),
    }
}

/// The instruction of an operation of the table and the texts of its operands.
fn of_form(form: Form, op: Op, a: &[u8], b: &[u8], c: &[u8]) -> Option<Instr>
    ensures { result ≡ candidates.of_form form op a.now b.now c.now }
{
    match form {
        Form::Upper => match one_and_number(a, b) {
            Some((rd, imm)) => Some(Instr::Upper { op, rd, imm }),
            None => None,
        },
        Form::Three => match three(a, b, c) {
            Some((rd, rs1, rs2)) => Some(Instr::Three { op, rd, rs1, rs2 }),
            None => None,
        },
        _ => match two_and_number(a, b, c) {
            Some((r, s, imm)) => Some(with_number(form, op, r, s, imm)),
            None => None,
        },
    }
}

fn one_and_number(a: &[u8], b: &[u8]) -> Option<(Reg, i32)>
    ensures { result ≡ candidates.one_and_number a.now b.now }
{
    match register(a) {
        Some(r) => match number(b) {
            Some(imm) => Some((r, imm)),
            None => None,
        },
        None => None,
    }
}

fn two_and_number(a: &[u8], b: &[u8], c: &[u8]) -> Option<(Reg, Reg, i32)>
    ensures { result ≡ candidates.two_and_number a.now b.now c.now }
{
    match register(a) {
        Some(r) => match one_and_number(b, c) {
            Some((s, imm)) => Some((r, s, imm)),
            None => None,
        },
        None => None,
    }
}

fn three(a: &[u8], b: &[u8], c: &[u8]) -> Option<(Reg, Reg, Reg)>
    ensures { result ≡ candidates.three a.now b.now c.now }
{
    match register(a) {
        Some(r) => match two(b, c) {
            Some((s, t)) => Some((r, s, t)),
            None => None,
        },
        None => None,
    }
}

fn two(a: &[u8], b: &[u8]) -> Option<(Reg, Reg)>
    ensures { result ≡ candidates.two a.now b.now }
{
    match register(a) {
        Some(r) => match register(b) {
            Some(s) => Some((r, s)),
            None => None,
        },
        None => None,
    }
}

/// The instruction of an operation of this form on two registers and a number.
fn with_number(form: Form, op: Op, r: Reg, s: Reg, imm: i32) -> Instr
    ensures { result ≡ candidates.with_number form op r s imm }
{
    match form {
        Form::Branch => Instr::Branch {
            op,
            rs1: r,
            rs2: s,
            imm,
        },
        Form::Load => Instr::Load {
            op,
            rd: r,
            rs1: s,
            imm,
        },
        Form::Save => Instr::Save {
            op,
            rs1: r,
            rs2: s,
            imm,
        },
        _ => Instr::Imm {
            op,
            rd: r,
            rs1: s,
            imm,
        },
    }
}
