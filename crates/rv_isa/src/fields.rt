//! The fields of an instruction's word, and the immediates of the forms.

ghost use Rattle.std.specs.Prelude.{◌≡◌, ◌*◌, ◌^◌, ◌<◌, ◌≤◌};
ghost use Rattle.rv_isa.specs.Fields as fields;

use crate::reg::Reg;

/// The number in `count` bits of the word, the lowest of them bit `at`.
#[tactic(auto, using(std::proofs::lemmas::Nat::one_shl, std::proofs::lemmas::Nat::pow_pos))]
pub(crate) fn bits_of(w: u32, at: u32, count: u32) -> u32
    requires at { at < 32 }
    requires count { count < 32 }
    ensures value { result ≡ fields.bits_of w at count }
    ensures bound { result < 2 ^ count }
{
    (w >> at) % (1 << count)
}

/// The register in the five bits from bit `at`.
fn reg_at(w: u32, at: u32) -> Reg
    requires at { at < 32 }
    ensures { result ≡ fields.bits_of w at 5 }
{
    Reg::of(bits_of(w, at, 5) as u8)
}

/// The register that an instruction fills.
pub(crate) fn rd(w: u32) -> Reg
    ensures { result ≡ fields.rd_of w }
{
    reg_at(w, 7)
}

/// The first register that an instruction reads.
pub(crate) fn rs1(w: u32) -> Reg
    ensures { result ≡ fields.rs1_of w }
{
    reg_at(w, 15)
}

/// The second register that an instruction reads.
pub(crate) fn rs2(w: u32) -> Reg
    ensures { result ≡ fields.rs2_of w }
{
    reg_at(w, 20)
}

/// A number of two's complement whose sign bit is worth `half`.
fn sign_extended(half: u32, n: u32) -> i32
    requires half { half ≤ 2 ^ 20 }
    requires bound { n < 2 * half }
    ensures { result ≡ fields.sign_extended half n }
{
    if n < half {
        n as i32
    } else {
        n as i32 - 2 * half as i32
    }
}

/// The immediate of the I-type.
pub(crate) fn i_imm(w: u32) -> i32
    ensures { result ≡ fields.i_imm w }
{
    sign_extended(1 << 11, bits_of(w, 20, 12))
}

/// The immediate of the S-type.
pub(crate) fn s_imm(w: u32) -> i32
    ensures { result ≡ fields.s_imm w }
{
    sign_extended(1 << 11, bits_of(w, 25, 7) * 32 + bits_of(w, 7, 5))
}

/// The immediate of the B-type.
pub(crate) fn b_imm(w: u32) -> i32
    ensures { result ≡ fields.b_imm w }
{
    let upper = bits_of(w, 31, 1) * 4096 + bits_of(w, 7, 1) * 2048;
    let lower = bits_of(w, 25, 6) * 32 + bits_of(w, 8, 4) * 2;
    sign_extended(1 << 12, upper + lower)
}

/// The immediate of the U-type.
pub(crate) fn u_imm(w: u32) -> i32
    ensures { result ≡ fields.u_imm w }
{
    (bits_of(w, 12, 20) * 4096).cast_signed()
}

/// The immediate of the J-type.
pub(crate) fn j_imm(w: u32) -> i32
    ensures { result ≡ fields.j_imm w }
{
    let upper = bits_of(w, 31, 1) * 1_048_576 + bits_of(w, 12, 8) * 4096;
    let lower = bits_of(w, 20, 1) * 2048 + bits_of(w, 21, 10) * 2;
    sign_extended(1 << 20, upper + lower)
}
