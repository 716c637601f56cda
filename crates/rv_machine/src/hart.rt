//! A hardware thread with its memory: registers, pc, decoded code and the three regions. Its step is
//! the instruction table; the calls of the environment are left to the machine round it.

ghost use Rattle.std.specs.Prelude.{◌≡◌, ◌<◌, Some, IfOk, IsSome};
ghost use Rattle.std.specs.Int.{w64};
ghost use Rattle.std.specs.Option.{option_copied};
ghost use Rattle.rv_machine.specs.Calls.{bytes_at};
ghost use Rattle.rv_machine.specs.Rows.{instr_by};
ghost use Rattle.rv_machine.specs.State.{read_at, register, with_register};
ghost use Rattle.rv_machine.specs.Steps.{advanced, at_pc, branch, fetched, jalr_target, jump, next, next_at, put, put_loaded};
ghost use Rattle.rv_machine.specs.Values.{sum};

mod access;

use crate::limits::Limits;
use crate::memory::Location;
use crate::row::{Code, Row};
use crate::start::{code_bytes, first_registers, rows_of};
use crate::trap::Trap;
use crate::{multiply, values};
use clu_base::Memory;
use rv_isa::{Image, Reg};
use std::alloc::Global;
use std::marker::Model;

/// Where the image region begins, with the code.
pub const IMAGE_START: u64 = 0x10000;
/// Where the store region begins.
pub const STORE_START: u64 = 0x1000_0000;
/// Where the stack region begins.
pub const STACK_START: u64 = 0x2000_0000;

#[derive(Drop)]
pub struct Hart {
    pc: u64,
    registers: [u64; 32],
    rows: Vec<Row>,
    data_start: u64,
    image: Vec<u8>,
    store: Vec<u8>,
    stack: Vec<u8>,
}

impl Model for Hart {
    ghost use Rattle.std.specs.Prelude.{map};
    ghost use Rattle.rv_machine.specs.State.{State, IsSound};
    ghost use Rattle.rv_machine.specs.Rows.{instr_of};

    ghost Value = { State };

    ghost view = { λ h. record { pc = h.pc; registers = h.registers; code = map instr_of h.rows.items; data_start = h.data_start; image = h.image.items; store = h.store.items; stack = h.stack.items } };

    ghost invariant = { λ h. IsSound (record { pc = h.pc; registers = h.registers; code = map instr_of h.rows.items; data_start = h.data_start; image = h.image.items; store = h.store.items; stack = h.stack.items }) };
}

impl Hart {
    ghost use Rattle.rv_machine.specs.Start.{started};

    /// The hart as a run starts it, with all its memory. The only error is that memory runs out.
    pub fn new(alloc: Global, image: &Image, limits: Limits) -> Result<Hart, Memory>
        ensures { IfOk result (λ h. h ≡ started image.now limits) }
    {
        let rows = rows_of(alloc, &image.code)?;
        let room = 4 * image.code.len() + 4 + image.fixed.len() + image.area.len();
        let mut memory = code_bytes(alloc, &image.code, room)?;
        memory.extend_from_slice(&image.fixed)?;
        let data_start = IMAGE_START + memory.len() as u64;
        memory.extend_from_slice(&image.area)?;
        Ok(Hart {
            pc: IMAGE_START + 4 * image.entry as u64,
            registers: first_registers(limits),
            rows,
            data_start,
            image: memory,
            store: vec![in alloc; 0u8; limits.store() as usize]?,
            stack: vec![in alloc; 0u8; limits.stack() as usize]?,
        })
    }

    /// The pc.
    #[inline(always)]
    pub fn pc(&self) -> u64
        ensures { result ≡ self.now.pc }
    {
        self.pc
    }

    #[inline(always)]
    pub fn set_pc(&mut self, pc: u64)
        ensures { self.new ≡ at_pc pc self.old }
    {
        self.pc = pc;
    }

    /// The number in a register.
    #[inline(always)]
    pub fn register(&self, r: Reg) -> u64
        ensures { result ≡ register self.now r }
    {
        self.registers[r.number() as usize]
    }

    /// The number in the register xN, as a call of the environment names it.
    pub fn x(&self, n: usize) -> u64
        requires { n < 32 }
        ensures { result ≡ register self.now n }
    {
        self.registers[n]
    }

    /// Goes on after a call of the environment, with its answer in x10.
    pub fn answer(&mut self, n: u64)
        ensures { self.new ≡ advanced (with_register self.old 10 n) }
    {
        self.registers[10] = n;
        self.pc = next_pc(self.pc);
    }

    /// The bytes of a range, if they lie in one region; no bytes lie anywhere.
    pub fn range(&self, at: u64, count: u64) -> Option<&[u8]>
        ensures { option_copied result ≡ bytes_at self.now at count }
    {
        if count == 0 {
            return Some(&[]);
        }
        match self.locate(at, count)? {
            Location::Image(offset) => Some(&self.image[offset..offset + count as usize]),
            Location::Store(offset) => Some(&self.store[offset..offset + count as usize]),
            Location::Stack(offset) => Some(&self.stack[offset..offset + count as usize]),
        }
    }

    /// The eight bytes at an address, which is aligned and inside one region, as a number.
    pub fn word(&self, at: u64) -> u64
        requires { IsSome (read_at w64 self.now at) }
        ensures { Some result ≡ read_at w64 self.now at }
    {
        self.read_u64(at).unwrap()
    }

    /// Goes on to the next instruction.
    pub fn advance(&mut self)
        ensures { self.new ≡ advanced self.old }
    {
        self.pc = next_pc(self.pc);
    }

    #[inline(always)]
    fn set_register(&mut self, r: Reg, n: u64)
        ensures { self.new ≡ with_register self.old r n }
    {
        if r.number() != 0 {
            self.registers[r.number() as usize] = n;
        }
    }

    #[inline(always)]
    fn put(&mut self, pc: u64, rd: Reg, n: u64) -> Result<u64, Trap>
        ensures { next_at pc result self.new ≡ put (at_pc pc self.old) rd n }
    {
        self.set_register(rd, n);
        Ok(next_pc(pc))
    }

    #[inline(always)]
    fn jump(&mut self, pc: u64, rd: Reg, target: u64) -> Result<u64, Trap>
        ensures { next_at pc result self.new ≡ jump (at_pc pc self.old) rd target }
    {
        if target % 4 != 0 {
            return Err(Trap::Jump { target });
        }
        self.set_register(rd, next_pc(pc));
        Ok(target)
    }

    #[inline(always)]
    fn jump_to_register(&mut self, pc: u64, rd: Reg, rs1: Reg, imm: u64) -> Result<u64, Trap>
        ensures { next_at pc result self.new ≡ jump (at_pc pc self.old) rd (jalr_target self.old rs1 imm) }
    {
        let target = self.register(rs1).wrapping_add(imm);
        self.jump(pc, rd, target - target % 2)
    }

    #[inline(always)]
    fn branch(&self, pc: u64, taken: bool, target: u64) -> Result<u64, Trap>
        ensures { next_at pc result self.now ≡ branch (at_pc pc self.now) taken target }
    {
        if !taken {
            return Ok(next_pc(pc));
        }
        if target % 4 != 0 {
            return Err(Trap::Jump { target });
        }
        Ok(target)
    }

    #[inline(always)]
    fn put_loaded(&mut self, pc: u64, rd: Reg, at: u64, value: Option<u64>) -> Result<u64, Trap>
        ensures { next_at pc result self.new ≡ put_loaded (at_pc pc self.old) rd at value }
    {
        match value {
            Some(n) => self.put(pc, rd, n),
            None => Err(Trap::Access { address: at }),
        }
    }

    #[inline(always)]
    #[tactic(auto, unfolding(crate::specs::Steps::executed))]
    fn execute(
        &mut self,
        pc: u64,
        code: Code,
        rd: Reg,
        rs1: Reg,
        rs2: Reg,
        imm: i32,
    ) -> Result<u64, Trap>
        ensures { next_at pc result self.new ≡ fetched (Some (instr_by code rd rs1 rs2 imm)) (at_pc pc self.old) }
    {
        let a = self.register(rs1);
        let b = self.register(rs2);
        let imm = (imm as i64).cast_unsigned();
        match code {
            Code::Lui => self.put(pc, rd, imm),
            Code::Auipc => self.put(pc, rd, values::add(pc, imm)),
            Code::Beq => self.branch(pc, a == b, pc.wrapping_add(imm)),
            Code::Bne => self.branch(pc, a != b, pc.wrapping_add(imm)),
            Code::Blt => self.branch(pc, a.cast_signed() < b.cast_signed(), pc.wrapping_add(imm)),
            Code::Bge => self.branch(pc, a.cast_signed() >= b.cast_signed(), pc.wrapping_add(imm)),
            Code::Bltu => self.branch(pc, a < b, pc.wrapping_add(imm)),
            Code::Bgeu => self.branch(pc, a >= b, pc.wrapping_add(imm)),
            Code::Lb => {
                let at = a.wrapping_add(imm);
                self.put_loaded(pc, rd, at, self.lb(at))
            }
            Code::Lh => {
                let at = a.wrapping_add(imm);
                self.put_loaded(pc, rd, at, self.lh(at))
            }
            Code::Lw => {
                let at = a.wrapping_add(imm);
                self.put_loaded(pc, rd, at, self.lw(at))
            }
            Code::Ld => {
                let at = a.wrapping_add(imm);
                self.put_loaded(pc, rd, at, self.read_u64(at))
            }
            Code::Lbu => {
                let at = a.wrapping_add(imm);
                self.put_loaded(pc, rd, at, self.lbu(at))
            }
            Code::Lhu => {
                let at = a.wrapping_add(imm);
                self.put_loaded(pc, rd, at, self.lhu(at))
            }
            Code::Lwu => {
                let at = a.wrapping_add(imm);
                self.put_loaded(pc, rd, at, self.lwu(at))
            }
            Code::Sb => self.write_u8(pc, a.wrapping_add(imm), (b % (1 << 8)) as u8),
            Code::Sh => self.write_u16(pc, a.wrapping_add(imm), (b % (1 << 16)) as u16),
            Code::Sw => self.write_u32(pc, a.wrapping_add(imm), values::low(b)),
            Code::Sd => self.write_u64(pc, a.wrapping_add(imm), b),
            Code::Addi => self.put(pc, rd, values::add(a, imm)),
            Code::Slti => self.put(pc, rd, values::slt(a, imm)),
            Code::Sltiu => self.put(pc, rd, values::sltu(a, imm)),
            Code::Xori => self.put(pc, rd, a ^ imm),
            Code::Ori => self.put(pc, rd, a | imm),
            Code::Andi => self.put(pc, rd, a & imm),
            Code::Slli => self.put(pc, rd, values::sll(a, imm)),
            Code::Srli => self.put(pc, rd, values::srl(a, imm)),
            Code::Srai => self.put(pc, rd, values::sra(a, imm)),
            Code::Add => self.put(pc, rd, values::add(a, b)),
            Code::Sub => self.put(pc, rd, values::sub(a, b)),
            Code::Sll => self.put(pc, rd, values::sll(a, b)),
            Code::Slt => self.put(pc, rd, values::slt(a, b)),
            Code::Sltu => self.put(pc, rd, values::sltu(a, b)),
            Code::Xor => self.put(pc, rd, a ^ b),
            Code::Srl => self.put(pc, rd, values::srl(a, b)),
            Code::Sra => self.put(pc, rd, values::sra(a, b)),
            Code::Or => self.put(pc, rd, a | b),
            Code::And => self.put(pc, rd, a & b),
            Code::Mul => self.put(pc, rd, multiply::mul(a, b)),
            Code::Mulh => self.put(pc, rd, multiply::mulh(a, b)),
            Code::Mulhsu => self.put(pc, rd, multiply::mulhsu(a, b)),
            Code::Mulhu => self.put(pc, rd, multiply::mulhu(a, b)),
            Code::Div => self.put(pc, rd, multiply::div(a, b)),
            Code::Divu => self.put(pc, rd, multiply::divu(a, b)),
            Code::Rem => self.put(pc, rd, multiply::rem(a, b)),
            Code::Remu => self.put(pc, rd, multiply::remu(a, b)),
            Code::Addiw => self.put(pc, rd, values::addw(a, imm)),
            Code::Slliw => self.put(pc, rd, values::sllw(a, imm)),
            Code::Srliw => self.put(pc, rd, values::srlw(a, imm)),
            Code::Sraiw => self.put(pc, rd, values::sraw(a, imm)),
            Code::Addw => self.put(pc, rd, values::addw(a, b)),
            Code::Subw => self.put(pc, rd, values::subw(a, b)),
            Code::Sllw => self.put(pc, rd, values::sllw(a, b)),
            Code::Srlw => self.put(pc, rd, values::srlw(a, b)),
            Code::Sraw => self.put(pc, rd, values::sraw(a, b)),
            Code::Mulw => self.put(pc, rd, multiply::mulw(a, b)),
            Code::Divw => self.put(pc, rd, multiply::divw(a, b)),
            Code::Divuw => self.put(pc, rd, multiply::divuw(a, b)),
            Code::Remw => self.put(pc, rd, multiply::remw(a, b)),
            Code::Remuw => self.put(pc, rd, multiply::remuw(a, b)),
            Code::Jal => self.jump(pc, rd, pc.wrapping_add(imm)),
            Code::Jalr => self.jump_to_register(pc, rd, rs1, imm),
            Code::Fence => Ok(next_pc(pc)),
            Code::Ecall => Err(Trap::Call),
            Code::Ebreak | Code::Unknown => Err(Trap::Instruction { pc }),
        }
    }

    /// One step from this pc in place of the hart's own, up to a call of the environment.
    #[inline(always)]
    #[tactic(auto, unfolding(crate::specs::Steps::next))]
    pub fn step_at(&mut self, pc: u64) -> Result<u64, Trap>
        ensures { next_at pc result self.new ≡ next (at_pc pc self.old) }
    {
        let place = (pc.wrapping_sub(IMAGE_START) / 4) as usize;
        if place >= self.rows.len() {
            return Err(Trap::Jump { target: pc });
        }
        let row = &self.rows[place];
        let (code, rd, rs1, rs2, imm) = (row.code, row.rd, row.rs1, row.rs2, row.imm);
        self.execute(pc, code, rd, rs1, rs2, imm)
    }
}

#[inline(always)]
fn next_pc(pc: u64) -> u64
    ensures { result ≡ sum pc 4 }
{
    pc.wrapping_add(4)
}
