//! The values of the operations on 64-bit numbers, one function for each operation of the base
//! integer instructions (RISC-V unprivileged ISA, chapters RV32I and RV64I).

ghost use Rattle.std.specs.Prelude.{◌≡◌, ◌<◌, ◌^◌, ◌%◌};
ghost use Rattle.rv_isa.specs.declared.op.Op.TheVariants as op;
ghost use Rattle.rv_machine.specs.Values.{low, low_signed, extended, sum, bit, value_of};

/// The low 32 bits.
#[inline(always)]
pub fn low(a: u64) -> u32
    ensures { result ≡ low a }
{
    (a % (1 << 32)) as u32
}

/// 32 bits, extended by their sign.
#[inline(always)]
pub fn extended(a: u32) -> u64
    ensures { result ≡ extended a }
{
    (a.cast_signed() as i64).cast_unsigned()
}

#[inline(always)]
pub fn bit(holds: bool) -> u64
    ensures { result ≡ bit holds }
{
    if holds { 1 } else { 0 }
}

#[inline(always)]
pub fn add(a: u64, b: u64) -> u64
    ensures { result ≡ value_of op.Add a b }
{
    a.wrapping_add(b)
}

#[inline(always)]
pub fn sub(a: u64, b: u64) -> u64
    ensures { result ≡ value_of op.Sub a b }
{
    a.wrapping_sub(b)
}

#[inline(always)]
pub fn slt(a: u64, b: u64) -> u64
    ensures { result ≡ value_of op.Slt a b }
{
    bit(a.cast_signed() < b.cast_signed())
}

#[inline(always)]
pub fn sltu(a: u64, b: u64) -> u64
    ensures { result ≡ value_of op.Sltu a b }
{
    bit(a < b)
}

#[inline(always)]
pub fn sll(a: u64, b: u64) -> u64
    ensures { result ≡ value_of op.Sll a b }
{
    a << (b % 64)
}

#[inline(always)]
pub fn srl(a: u64, b: u64) -> u64
    ensures { result ≡ value_of op.Srl a b }
{
    a >> (b % 64)
}

#[inline(always)]
pub fn sra(a: u64, b: u64) -> u64
    ensures { result ≡ value_of op.Sra a b }
{
    (a.cast_signed() >> (b % 64)).cast_unsigned()
}

#[inline(always)]
pub fn addw(a: u64, b: u64) -> u64
    ensures { result ≡ value_of op.Addw a b }
{
    extended(low(a.wrapping_add(b)))
}

#[inline(always)]
pub fn subw(a: u64, b: u64) -> u64
    ensures { result ≡ value_of op.Subw a b }
{
    extended(low(a.wrapping_sub(b)))
}

#[inline(always)]
pub fn sllw(a: u64, b: u64) -> u64
    ensures { result ≡ value_of op.Sllw a b }
{
    extended(low(a << (b % 32)))
}

#[inline(always)]
pub fn srlw(a: u64, b: u64) -> u64
    ensures { result ≡ value_of op.Srlw a b }
{
    extended(low(a) >> (b % 32))
}

#[inline(always)]
pub fn sraw(a: u64, b: u64) -> u64
    ensures { result ≡ value_of op.Sraw a b }
{
    ((low(a).cast_signed() >> (b % 32)) as i64).cast_unsigned()
}
