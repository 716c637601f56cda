//! The values of multiplication and division, one function for each operation of the M extension
//! (RISC-V unprivileged ISA, chapter M). No operation traps: division by zero and the overflow of
//! the least number by -1 have the values that the chapter gives.

ghost use Rattle.std.specs.Prelude.{◌≡◌, ◌<◌, ◌^◌, ◌%◌};
ghost use Rattle.rv_isa.specs.declared.op.Op.TheVariants as op;
ghost use Rattle.rv_machine.specs.Values.{value_of};

use crate::values::{extended, low};

#[inline(always)]
pub fn mul(a: u64, b: u64) -> u64
    ensures { result ≡ value_of op.Mul a b }
{
    a.wrapping_mul(b)
}

#[inline(always)]
pub fn mulh(a: u64, b: u64) -> u64
    ensures { result ≡ value_of op.Mulh a b }
{
    let product = a.cast_signed() as i128 * b.cast_signed() as i128;
    ((product >> 64) as i64).cast_unsigned()
}

#[inline(always)]
pub fn mulhsu(a: u64, b: u64) -> u64
    ensures { result ≡ value_of op.Mulhsu a b }
{
    let product = a.cast_signed() as i128 * b as i128;
    ((product >> 64) as i64).cast_unsigned()
}

#[inline(always)]
pub fn mulhu(a: u64, b: u64) -> u64
    ensures { result ≡ value_of op.Mulhu a b }
{
    ((a as u128 * b as u128) >> 64) as u64
}

#[inline(always)]
pub fn div(a: u64, b: u64) -> u64
    ensures { result ≡ value_of op.Div a b }
{
    if b == 0 {
        u64::MAX
    } else {
        a.cast_signed()
            .wrapping_div(b.cast_signed())
            .cast_unsigned()
    }
}

#[inline(always)]
pub fn divu(a: u64, b: u64) -> u64
    ensures { result ≡ value_of op.Divu a b }
{
    if b == 0 { u64::MAX } else { a / b }
}

#[inline(always)]
pub fn rem(a: u64, b: u64) -> u64
    ensures { result ≡ value_of op.Rem a b }
{
    if b == 0 {
        a
    } else {
        a.cast_signed()
            .wrapping_rem(b.cast_signed())
            .cast_unsigned()
    }
}

#[inline(always)]
pub fn remu(a: u64, b: u64) -> u64
    ensures { result ≡ value_of op.Remu a b }
{
    if b == 0 { a } else { a % b }
}

#[inline(always)]
pub fn mulw(a: u64, b: u64) -> u64
    ensures { result ≡ value_of op.Mulw a b }
{
    extended(low(a.wrapping_mul(b)))
}

#[inline(always)]
pub fn divw(a: u64, b: u64) -> u64
    ensures { result ≡ value_of op.Divw a b }
{
    let divisor = low(b);
    if divisor == 0 {
        u64::MAX
    } else {
        extended(
            low(a)
                .cast_signed()
                .wrapping_div(divisor.cast_signed())
                .cast_unsigned(),
        )
    }
}

#[inline(always)]
pub fn divuw(a: u64, b: u64) -> u64
    ensures { result ≡ value_of op.Divuw a b }
{
    let divisor = low(b);
    if divisor == 0 {
        u64::MAX
    } else {
        extended(low(a) / divisor)
    }
}

#[inline(always)]
pub fn remw(a: u64, b: u64) -> u64
    ensures { result ≡ value_of op.Remw a b }
{
    let divisor = low(b);
    if divisor == 0 {
        extended(low(a))
    } else {
        (low(a).cast_signed().wrapping_rem(divisor.cast_signed()) as i64).cast_unsigned()
    }
}

#[inline(always)]
pub fn remuw(a: u64, b: u64) -> u64
    ensures { result ≡ value_of op.Remuw a b }
{
    let divisor = low(b);
    if divisor == 0 {
        extended(low(a))
    } else {
        extended(low(a) % divisor)
    }
}
