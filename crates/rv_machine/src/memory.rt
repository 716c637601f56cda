//! Little-endian numbers in the bytes of a region, and where an address lies.

ghost use Rattle.std.specs.Prelude.{◌≡◌, ◌+◌, ◌≤◌, ◌<◌, length};
ghost use Rattle.std.specs.Int.{w8, w16, w32, w64};
ghost use Rattle.rv_machine.specs.State.{number_at, with_number};

/// A place in memory: a region, and the offset of a byte in it.
#[derive(Clone, Copy)]
pub enum Location {
    Image(usize),
    Store(usize),
    Stack(usize),
}

#[inline(always)]
pub fn u8_at(bytes: &[u8], at: usize) -> u8
    requires { at + 1 ≤ length bytes.now }
    ensures { result ≡ number_at w8 bytes.now at }
{
    bytes[at]
}

#[inline(always)]
pub fn u16_at(bytes: &[u8], at: usize) -> u16
    requires { at + 2 ≤ length bytes.now }
    ensures { result ≡ number_at w16 bytes.now at }
{
    u16::from_le_bytes([bytes[at], bytes[at + 1]])
}

#[inline(always)]
pub fn u32_at(bytes: &[u8], at: usize) -> u32
    requires { at + 4 ≤ length bytes.now }
    ensures { result ≡ number_at w32 bytes.now at }
{
    u32::from_le_bytes([bytes[at], bytes[at + 1], bytes[at + 2], bytes[at + 3]])
}

#[inline(always)]
pub fn u64_at(bytes: &[u8], at: usize) -> u64
    requires { at + 8 ≤ length bytes.now }
    ensures { result ≡ number_at w64 bytes.now at }
{
    u64::from_le_bytes([
        bytes[at],
        bytes[at + 1],
        bytes[at + 2],
        bytes[at + 3],
        bytes[at + 4],
        bytes[at + 5],
        bytes[at + 6],
        bytes[at + 7],
    ])
}

#[inline(always)]
pub fn put_u8(bytes: &mut [u8], at: usize, n: u8)
    requires { at + 1 ≤ length bytes.old }
    ensures { bytes.new ≡ with_number w8 bytes.old at n }
{
    bytes[at..at + 1].copy_from_slice(&n.to_le_bytes());
}

#[inline(always)]
pub fn put_u16(bytes: &mut [u8], at: usize, n: u16)
    requires { at + 2 ≤ length bytes.old }
    ensures { bytes.new ≡ with_number w16 bytes.old at n }
{
    bytes[at..at + 2].copy_from_slice(&n.to_le_bytes());
}

#[inline(always)]
pub fn put_u32(bytes: &mut [u8], at: usize, n: u32)
    requires { at + 4 ≤ length bytes.old }
    ensures { bytes.new ≡ with_number w32 bytes.old at n }
{
    bytes[at..at + 4].copy_from_slice(&n.to_le_bytes());
}

#[inline(always)]
pub fn put_u64(bytes: &mut [u8], at: usize, n: u64)
    requires { at + 8 ≤ length bytes.old }
    ensures { bytes.new ≡ with_number w64 bytes.old at n }
{
    bytes[at..at + 8].copy_from_slice(&n.to_le_bytes());
}
