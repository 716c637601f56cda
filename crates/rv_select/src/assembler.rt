//! An assembler: instructions become words one by one, and jumps find their labels at the end.

ghost use Rattle.std.specs.Prelude.{◌≡◌, IfOk, IsTrue, OnOk, Some, length, map, slice_set};
ghost use Rattle.rv_select.specs.Finished.{blank, bytes_between, finished, has_place, is_landed, landed, landed_at, with_bytes};
ghost use Rattle.rv_select.specs.Instructions.{AreInstructions, IsInstruction, read};
ghost use Rattle.rv_select.specs.Written.{addi_onto, address_onto, branch_onto, copy_onto, emitted, fresh, go_onto, go_unless_onto, hole_onto, holed, imm_onto, jal_onto, jalr_onto, ld_onto, load_onto, noted, placed, referred, save_onto, sd_onto, service_onto, service_unless_onto, three_onto, upper_onto, written};

use crate::error::{Answer, SelectError};
use crate::register::Register;
use crate::words::{Finished, Reference, Words};
use clu_base::Memory;
use clu_object::Hole;
use clu_wir::HoleKind;
use rv_isa::{Instr, Op, encode};
use std::alloc::Global;

impl Words {
    /// No words yet. Labels are the numbers below `labels`, and those that `fresh` gives.
    pub fn new(alloc: Global, labels: usize) -> Result<Words, Memory>
        ensures { IfOk result (λ words. written words ≡ blank labels) }
    {
        Ok(Words {
            code: Vec::new(alloc),
            holes: Vec::new(alloc),
            labels: vec![in alloc; None; labels]?,
            references: Vec::new(alloc),
        })
    }

    /// The number of the word that comes next.
    #[tactic(auto, using(crate::proofs::Instructions::counting))]
    pub fn here(&self) -> Answer<u32>
        ensures { IfOk result (λ here. here ≡ length (written self.now).code) }
    {
        Ok(u32::try_from(self.code.len())?)
    }

    /// One instruction.
    #[tactic(auto, using(crate::proofs::Instructions::laws), unfolding(crate::specs::Written::emitted))]
    fn emit(&mut self, instr: Instr) -> Answer<()>
        ensures { OnOk result (written self.new ≡ emitted instr (written self.old)) }
    {
        let word = word_of(instr)?;
        self.code.push(word)?;
        Ok(())
    }

    /// Loads what the instruction loads.
    pub fn load(&mut self, op: Op, to: Register, base: Register, distance: i32) -> Answer<()>
        ensures { OnOk result (written self.new ≡ load_onto op to base distance (written self.old)) }
    {
        self.emit(Instr::Load {
            op,
            rd: to.reg(),
            rs1: base.reg(),
            imm: distance,
        })
    }

    /// Loads a word.
    pub fn ld(&mut self, to: Register, base: Register, distance: i32) -> Answer<()>
        ensures { OnOk result (written self.new ≡ ld_onto to base distance (written self.old)) }
    {
        self.load(Op::Ld, to, base, distance)
    }

    /// Saves what the instruction saves.
    pub fn save(&mut self, op: Op, from: Register, base: Register, distance: i32) -> Answer<()>
        ensures { OnOk result (written self.new ≡ save_onto op from base distance (written self.old)) }
    {
        self.emit(Instr::Save {
            op,
            rs1: base.reg(),
            rs2: from.reg(),
            imm: distance,
        })
    }

    /// Saves a word.
    pub fn sd(&mut self, from: Register, base: Register, distance: i32) -> Answer<()>
        ensures { OnOk result (written self.new ≡ sd_onto from base distance (written self.old)) }
    {
        self.save(Op::Sd, from, base, distance)
    }

    /// An operation on a register and a number.
    pub fn imm(&mut self, op: Op, to: Register, from: Register, number: i32) -> Answer<()>
        ensures { OnOk result (written self.new ≡ imm_onto op to from number (written self.old)) }
    {
        self.emit(Instr::Imm {
            op,
            rd: to.reg(),
            rs1: from.reg(),
            imm: number,
        })
    }

    /// Adds a number.
    pub fn addi(&mut self, to: Register, from: Register, number: i32) -> Answer<()>
        ensures { OnOk result (written self.new ≡ addi_onto to from number (written self.old)) }
    {
        self.imm(Op::Addi, to, from, number)
    }

    /// Copies a register.
    pub fn copy(&mut self, to: Register, from: Register) -> Answer<()>
        ensures { OnOk result (written self.new ≡ copy_onto to from (written self.old)) }
    {
        self.addi(to, from, 0)
    }

    /// An operation on two registers.
    pub fn three(&mut self, op: Op, to: Register, left: Register, right: Register) -> Answer<()>
        ensures { OnOk result (written self.new ≡ three_onto op to left right (written self.old)) }
    {
        self.emit(Instr::Three {
            op,
            rd: to.reg(),
            rs1: left.reg(),
            rs2: right.reg(),
        })
    }

    /// LUI and AUIPC.
    pub fn upper(&mut self, op: Op, to: Register, number: i32) -> Answer<()>
        ensures { OnOk result (written self.new ≡ upper_onto op to number (written self.old)) }
    {
        self.emit(Instr::Upper {
            op,
            rd: to.reg(),
            imm: number,
        })
    }

    /// Jumps to the address so many bytes from a register; `link` gets the address of the next word.
    pub fn jalr(&mut self, link: Register, base: Register, distance: i32) -> Answer<()>
        ensures { OnOk result (written self.new ≡ jalr_onto link base distance (written self.old)) }
    {
        self.emit(Instr::Jalr {
            rd: link.reg(),
            rs1: base.reg(),
            imm: distance,
        })
    }

    /// Calls the environment.
    pub fn service(&mut self, number: i32) -> Answer<()>
        ensures { OnOk result (written self.new ≡ service_onto number (written self.old)) }
    {
        self.addi(Register::Service, Register::Zero, number)?;
        self.emit(Instr::Ecall)
    }

    /// Calls the environment unless the comparison holds.
    pub fn service_unless(
        &mut self,
        op: Op,
        left: Register,
        right: Register,
        number: i32,
    ) -> Answer<()>
        ensures { OnOk result (written self.new ≡ service_unless_onto op left right number (written self.old)) }
    {
        let over = self.fresh()?;
        self.branch(op, left, right, over)?;
        self.service(number)?;
        self.label(over)
    }

    /// A number that the linker gives to a register.
    pub fn hole(&mut self, to: Register, kind: HoleKind, number: u32) -> Answer<()>
        ensures { OnOk result (written self.new ≡ hole_onto to kind number (written self.old)) }
    {
        self.push_hole(kind, number)?;
        self.upper(Op::Lui, to, 0)?;
        self.copy(to, to)
    }

    /// The next two words are a hole.
    #[tactic(auto, unfolding(crate::specs::Written::holed))]
    fn push_hole(&mut self, kind: HoleKind, number: u32) -> Answer<()>
        ensures { OnOk result (written self.new ≡ holed kind number (written self.old)) }
    {
        let at = self.here()?;
        let kind = kind.number();
        self.holes.push(Hole { at, kind, number })?;
        Ok(())
    }

    /// The label stands here.
    #[tactic(auto, unfolding(crate::specs::Written::placed))]
    pub fn label(&mut self, label: u32) -> Answer<()>
        ensures { OnOk result (written self.new ≡ placed label (written self.old)) }
    {
        let here = self.here()?;
        let label = label as usize;
        if self.labels.len() <= label {
            return Err(SelectError::NotYet);
        }
        self.labels[label] = Some(here);
        Ok(())
    }

    /// A label that stands nowhere yet.
    #[tactic(auto, unfolding(crate::specs::Written::fresh))]
    pub fn fresh(&mut self) -> Answer<u32>
        ensures number { IfOk result (λ label. label ≡ length (written self.old).labels) }
        ensures written { OnOk result (written self.new ≡ fresh (written self.old)) }
    {
        let number = u32::try_from(self.labels.len())?;
        self.labels.push(None)?;
        Ok(number)
    }

    /// An instruction that names a label.
    fn refer(&mut self, instr: Instr, label: u32) -> Answer<()>
        ensures { OnOk result (written self.new ≡ referred instr label (written self.old)) }
    {
        self.note(&instr, label)?;
        self.emit(instr)
    }

    /// The next word names a label.
    #[tactic(auto, unfolding(crate::specs::Written::noted))]
    fn note(&mut self, instr: &Instr, label: u32) -> Answer<()>
        ensures { OnOk result (written self.new ≡ noted instr.now label (written self.old)) }
    {
        let at = self.here()?;
        let instr = *instr;
        self.references.push(Reference { at, label, instr })?;
        Ok(())
    }

    /// Jumps to a label; `link` gets the address of the next word.
    pub fn jal(&mut self, link: Register, label: u32) -> Answer<()>
        ensures { OnOk result (written self.new ≡ jal_onto link label (written self.old)) }
    {
        self.refer(
            Instr::Jal {
                rd: link.reg(),
                imm: 0,
            },
            label,
        )
    }

    /// Goes on at a label.
    pub fn go(&mut self, label: u32) -> Answer<()>
        ensures { OnOk result (written self.new ≡ go_onto label (written self.old)) }
    {
        self.jal(Register::Zero, label)
    }

    /// Goes on at a label that is at most 1,023 words away, where the comparison holds.
    pub fn branch(&mut self, op: Op, left: Register, right: Register, label: u32) -> Answer<()>
        ensures { OnOk result (written self.new ≡ branch_onto op left right label (written self.old)) }
    {
        self.refer(
            Instr::Branch {
                op,
                rs1: left.reg(),
                rs2: right.reg(),
                imm: 0,
            },
            label,
        )
    }

    /// Goes on at a label unless the comparison holds. It is a branch over a jump, which reaches farther.
    pub fn go_unless(&mut self, op: Op, left: Register, right: Register, label: u32) -> Answer<()>
        ensures { OnOk result (written self.new ≡ go_unless_onto op left right label (written self.old)) }
    {
        let over = self.fresh()?;
        self.branch(op, left, right, over)?;
        self.go(label)?;
        self.label(over)
    }

    /// The address of a label that is at most 511 words away.
    pub fn address(&mut self, to: Register, label: u32) -> Answer<()>
        ensures { OnOk result (written self.new ≡ address_onto to label (written self.old)) }
    {
        self.upper(Op::Auipc, to, 0)?;
        self.refer(
            Instr::Imm {
                op: Op::Addi,
                rd: to.reg(),
                rs1: to.reg(),
                imm: 0,
            },
            label,
        )
    }

    /// The words, each with its distance to the label that it names.
    #[tactic(auto, unfolding(crate::specs::Finished::finished))]
    pub fn finish(self) -> Answer<Finished>
        ensures code { IfOk result (λ words. map read words.code.items ≡ finished (written self)) }
        ensures holes { IfOk result (λ words. words.holes.items ≡ self.holes.items) }
        ensures landed { OnOk result (IsTrue (is_landed (written self))) }
    {
        let Words {
            mut code,
            holes,
            labels,
            references,
        } = self;
        for reference in references.as_slice() {
            reference.land(code.as_mut_slice(), labels.as_slice())?;
        }
        Ok(Finished { code, holes })
    }
}

impl Reference {
    /// Gives the instruction its distance.
    #[tactic(auto, unfolding(crate::specs::Finished::landed))]
    fn land(&self, code: &mut [u32], labels: &[Option<u32>]) -> Answer<()>
        requires { AreInstructions code.old }
        ensures instructions { AreInstructions code.new }
        ensures placed { OnOk result (IsTrue (has_place labels.now self.now)) }
        ensures landed { OnOk result (map read code.new ≡ landed labels.now self.now (map read code.old)) }
    {
        match labels.get(self.label as usize).copied() {
            Some(Some(place)) => self.land_at(code, place),
            _ => Err(SelectError::NotYet),
        }
    }

    #[tactic(auto, using(crate::proofs::Instructions::changing))]
    fn land_at(&self, code: &mut [u32], place: u32) -> Answer<()>
        requires { AreInstructions code.old }
        ensures instructions { AreInstructions code.new }
        ensures landed { OnOk result (map read code.new ≡ landed_at (Some (Some place)) self.now (map read code.old)) }
    {
        let bytes = distance(self.at, place)?;
        let word = word_of(with_distance(self.instr, bytes))?;
        replace(code, self.at as usize, word)
    }
}

/// Puts a word in the place of another.
fn replace(code: &mut [u32], at: usize, word: u32) -> Answer<()>
    requires others { AreInstructions code.old }
    requires word { IsInstruction word }
    ensures instructions { AreInstructions code.new }
    ensures replaced { OnOk result (code.new ≡ slice_set code.old at word) }
{
    if code.len() <= at {
        return Err(SelectError::NotYet);
    }
    code[at] = word;
    Ok(())
}

/// How many bytes it is from one word to another.
fn distance(from: u32, to: u32) -> Answer<i32>
    ensures { IfOk result (λ bytes. bytes ≡ bytes_between from to) }
{
    Ok(i32::try_from((i64::from(to) - i64::from(from)) * 4)?)
}

/// A jump, a branch, or an ADDI after its AUIPC, with a distance from its own word.
fn with_distance(instr: Instr, bytes: i32) -> Instr
    ensures { result ≡ with_bytes instr bytes }
{
    match instr {
        Instr::Jal { rd, .. } => Instr::Jal { rd, imm: bytes },
        Instr::Branch { op, rs1, rs2, .. } => Instr::Branch {
            op,
            rs1,
            rs2,
            imm: bytes,
        },
        Instr::Imm { op, rd, rs1, .. } => Instr::Imm {
            op,
            rd,
            rs1,
            imm: bytes.saturating_add(4),
        },
        other => other,
    }
}

/// The word of an instruction. An immediate that doesn't fit its field is refused.
#[tactic(auto, using(crate::proofs::Instructions::laws), unfolding(crate::specs::Instructions::read))]
fn word_of(instr: Instr) -> Answer<u32>
    ensures instruction { IfOk result IsInstruction }
    ensures word { IfOk result (λ word. read word ≡ instr) }
{
    if !instr.valid() {
        return Err(SelectError::NotYet);
    }
    Ok(encode(instr))
}
