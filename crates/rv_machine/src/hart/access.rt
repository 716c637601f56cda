//! The memory of a hart: where an address lies, and the numbers that loads and stores move.

ghost use Rattle.std.specs.Prelude.{◌≡◌, ◌+◌, ◌≤◌, ◌<◌, length, IfSome};
ghost use Rattle.std.specs.Int.{w8, w16, w32, w64};
ghost use Rattle.rv_isa.specs.declared.op.Op.TheVariants as op;
ghost use Rattle.rv_machine.specs.State.{accessed, location_of, offset_of, read_at, region, stored, written_at};
ghost use Rattle.rv_machine.specs.Steps.{at_pc, loaded, next_at, put_saved};

use super::{Hart, IMAGE_START, STACK_START, STORE_START, next_pc};
use crate::memory::{Location, put_u8, put_u16, put_u32, put_u64, u8_at, u16_at, u32_at, u64_at};
use crate::trap::Trap;

impl Hart {
    /// Where the `count` bytes at an address lie, if they lie in one region.
    #[inline(always)]
    pub fn locate(&self, at: u64, count: u64) -> Option<Location>
        requires { 0 < count }
        ensures value { result ≡ location_of self.now at count }
        ensures inside { IfSome result (λ l. offset_of l + count ≤ length (region self.now l)) }
    {
        if at >= STACK_START {
            let offset = (at - STACK_START) as usize;
            let end = self.stack.len();
            if offset <= end && count <= (end - offset) as u64 {
                return Some(Location::Stack(offset));
            }
        } else if at >= STORE_START {
            let offset = (at - STORE_START) as usize;
            let end = self.store.len();
            if offset <= end && count <= (end - offset) as u64 {
                return Some(Location::Store(offset));
            }
        } else if at >= IMAGE_START {
            let offset = (at - IMAGE_START) as usize;
            let end = self.image.len();
            if offset <= end && count <= (end - offset) as u64 {
                return Some(Location::Image(offset));
            }
        }
        None
    }

    #[inline(always)]
    fn access(&self, at: u64, size: u64) -> Option<Location>
        requires { 0 < size }
        ensures value { result ≡ accessed self.now at size }
        ensures inside { IfSome result (λ l. offset_of l + size ≤ length (region self.now l)) }
    {
        if at % size == 0 {
            self.locate(at, size)
        } else {
            None
        }
    }

    #[inline(always)]
    fn access_to_store(&self, at: u64, size: u64) -> Option<Location>
        requires { 0 < size }
        ensures value { result ≡ stored self.now at size }
        ensures inside { IfSome result (λ l. offset_of l + size ≤ length (region self.now l)) }
    {
        if at < self.data_start {
            None
        } else {
            self.access(at, size)
        }
    }

    #[inline(always)]
    fn read_u8(&self, at: u64) -> Option<u8>
        ensures { result ≡ read_at w8 self.now at }
    {
        match self.access(at, 1)? {
            Location::Image(offset) => Some(u8_at(&self.image, offset)),
            Location::Store(offset) => Some(u8_at(&self.store, offset)),
            Location::Stack(offset) => Some(u8_at(&self.stack, offset)),
        }
    }

    #[inline(always)]
    fn read_u16(&self, at: u64) -> Option<u16>
        ensures { result ≡ read_at w16 self.now at }
    {
        match self.access(at, 2)? {
            Location::Image(offset) => Some(u16_at(&self.image, offset)),
            Location::Store(offset) => Some(u16_at(&self.store, offset)),
            Location::Stack(offset) => Some(u16_at(&self.stack, offset)),
        }
    }

    #[inline(always)]
    fn read_u32(&self, at: u64) -> Option<u32>
        ensures { result ≡ read_at w32 self.now at }
    {
        match self.access(at, 4)? {
            Location::Image(offset) => Some(u32_at(&self.image, offset)),
            Location::Store(offset) => Some(u32_at(&self.store, offset)),
            Location::Stack(offset) => Some(u32_at(&self.stack, offset)),
        }
    }

    #[inline(always)]
    pub(super) fn read_u64(&self, at: u64) -> Option<u64>
        ensures { result ≡ read_at w64 self.now at }
    {
        match self.access(at, 8)? {
            Location::Image(offset) => Some(u64_at(&self.image, offset)),
            Location::Store(offset) => Some(u64_at(&self.store, offset)),
            Location::Stack(offset) => Some(u64_at(&self.stack, offset)),
        }
    }

    #[inline(always)]
    pub(super) fn lb(&self, at: u64) -> Option<u64>
        ensures { result ≡ loaded op.Lb self.now at }
    {
        let n = self.read_u8(at)?.cast_signed();
        Some((n as i64).cast_unsigned())
    }

    #[inline(always)]
    pub(super) fn lh(&self, at: u64) -> Option<u64>
        ensures { result ≡ loaded op.Lh self.now at }
    {
        let n = self.read_u16(at)?.cast_signed();
        Some((n as i64).cast_unsigned())
    }

    #[inline(always)]
    pub(super) fn lw(&self, at: u64) -> Option<u64>
        ensures { result ≡ loaded op.Lw self.now at }
    {
        let n = self.read_u32(at)?.cast_signed();
        Some((n as i64).cast_unsigned())
    }

    #[inline(always)]
    pub(super) fn lbu(&self, at: u64) -> Option<u64>
        ensures { result ≡ loaded op.Lbu self.now at }
    {
        let n = self.read_u8(at)?;
        Some(n as u64)
    }

    #[inline(always)]
    pub(super) fn lhu(&self, at: u64) -> Option<u64>
        ensures { result ≡ loaded op.Lhu self.now at }
    {
        let n = self.read_u16(at)?;
        Some(n as u64)
    }

    #[inline(always)]
    pub(super) fn lwu(&self, at: u64) -> Option<u64>
        ensures { result ≡ loaded op.Lwu self.now at }
    {
        let n = self.read_u32(at)?;
        Some(n as u64)
    }

    #[inline(always)]
    pub(super) fn write_u8(&mut self, pc: u64, at: u64, n: u8) -> Result<u64, Trap>
        ensures { next_at pc result self.new ≡ put_saved (at_pc pc self.old) at (written_at w8 (at_pc pc self.old) at n) }
    {
        match self.access_to_store(at, 1) {
            Some(Location::Image(offset)) => put_u8(&mut self.image, offset, n),
            Some(Location::Store(offset)) => put_u8(&mut self.store, offset, n),
            Some(Location::Stack(offset)) => put_u8(&mut self.stack, offset, n),
            None => return Err(Trap::Access { address: at }),
        }
        Ok(next_pc(pc))
    }

    #[inline(always)]
    pub(super) fn write_u16(&mut self, pc: u64, at: u64, n: u16) -> Result<u64, Trap>
        ensures { next_at pc result self.new ≡ put_saved (at_pc pc self.old) at (written_at w16 (at_pc pc self.old) at n) }
    {
        match self.access_to_store(at, 2) {
            Some(Location::Image(offset)) => put_u16(&mut self.image, offset, n),
            Some(Location::Store(offset)) => put_u16(&mut self.store, offset, n),
            Some(Location::Stack(offset)) => put_u16(&mut self.stack, offset, n),
            None => return Err(Trap::Access { address: at }),
        }
        Ok(next_pc(pc))
    }

    #[inline(always)]
    pub(super) fn write_u32(&mut self, pc: u64, at: u64, n: u32) -> Result<u64, Trap>
        ensures { next_at pc result self.new ≡ put_saved (at_pc pc self.old) at (written_at w32 (at_pc pc self.old) at n) }
    {
        match self.access_to_store(at, 4) {
            Some(Location::Image(offset)) => put_u32(&mut self.image, offset, n),
            Some(Location::Store(offset)) => put_u32(&mut self.store, offset, n),
            Some(Location::Stack(offset)) => put_u32(&mut self.stack, offset, n),
            None => return Err(Trap::Access { address: at }),
        }
        Ok(next_pc(pc))
    }

    #[inline(always)]
    pub(super) fn write_u64(&mut self, pc: u64, at: u64, n: u64) -> Result<u64, Trap>
        ensures { next_at pc result self.new ≡ put_saved (at_pc pc self.old) at (written_at w64 (at_pc pc self.old) at n) }
    {
        match self.access_to_store(at, 8) {
            Some(Location::Image(offset)) => put_u64(&mut self.image, offset, n),
            Some(Location::Store(offset)) => put_u64(&mut self.store, offset, n),
            Some(Location::Stack(offset)) => put_u64(&mut self.stack, offset, n),
            None => return Err(Trap::Access { address: at }),
        }
        Ok(next_pc(pc))
    }
}
