//! What a run starts with: the code decoded and in bytes, and the registers.

ghost use Rattle.std.specs.Prelude.{◌≡◌, ◌≤◌, ◌*◌, ◌+◌, length, map, vec_len, IfOk};
ghost use Rattle.rv_isa.specs.Decoded.{decoded};
ghost use Rattle.rv_machine.specs.Rows.{instr_of};
ghost use Rattle.rv_machine.specs.Start.{code_bytes as bytes_of, first_registers as registers_of};

use crate::hart::{STACK_START, STORE_START};
use crate::limits::Limits;
use crate::row::{Row, row_of_word};
use clu_base::Memory;
use std::alloc::Global;

/// The code's words, each decoded. The only error is that memory runs out.
pub fn rows_of(alloc: Global, words: &[u32]) -> Result<Vec<Row>, Memory>
    ensures { IfOk result (λ rows. map instr_of rows.items ≡ map decoded words.now) }
{
    let mut rows = Vec::with_capacity(alloc, words.len())?;
    for word in words {
        rows.push(row_of_word(*word))?;
    }
    Ok(rows)
}

/// The bytes of the code with the gap after it, with room for so many bytes. The only error is that
/// memory runs out.
pub fn code_bytes(alloc: Global, words: &[u32], room: usize) -> Result<Vec<u8>, Memory>
    ensures bytes { IfOk result (λ bytes. bytes.items ≡ bytes_of words.now) }
    ensures length { IfOk result (λ bytes. vec_len bytes ≤ 4 * length words.now + 4) }
{
    let mut bytes = Vec::with_capacity(alloc, room)?;
    for word in words {
        bytes.extend_from_slice(&word.to_le_bytes())?;
    }
    if words.len() % 2 != 0 {
        bytes.extend_from_slice(&[0; 4])?;
    }
    Ok(bytes)
}

/// x2 and x8 have the start and the end of the stack region, x3 and x4 those of the store region.
pub fn first_registers(limits: Limits) -> [u64; 32]
    ensures { result ≡ registers_of limits }
{
    let mut registers = [0; 32];
    registers[2] = STACK_START;
    registers[3] = STORE_START;
    registers[4] = STORE_START + limits.store();
    registers[8] = STACK_START + limits.stack();
    registers
}
