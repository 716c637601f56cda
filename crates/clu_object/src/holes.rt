//! Whether the holes of a routine are where its code has room for what the linker fills in.

ghost use Rattle.std.specs.Prelude.{◌≡◌, ◌<◌, ◌^◌, length};
ghost use Rattle.clu_object.specs.Holes.{is_pair as pair_of, is_pair_at, are_holes as holes_of, is_named as named_of, are_named, has_holes as fits};

use crate::object::{Hole, ObjRoutine};

/// Whether the words are a LUI and an ADDI of one register.
fn is_pair(upper: u32, lower: u32) -> bool
    ensures { result ≡ pair_of upper lower }
{
    upper % 0x80 == 0x37 && lower % 0x10_0000 == 0x13 + 0x8080 * (upper / 0x80 % 0x20)
}

/// Whether such words stand from this place on.
pub fn has_pair(code: &[u32], at: usize) -> bool
    requires { at < 2 ^ 32 }
    ensures { result ≡ is_pair_at code.now at }
{
    match code.get(at) {
        Some(upper) => match code.get(at + 1) {
            Some(lower) => is_pair(*upper, *lower),
            None => false,
        },
        None => false,
    }
}

/// Whether each hole covers such words, each after the words of the one before.
fn are_holes(code: &[u32], holes: &[Hole]) -> bool
    ensures { result ≡ holes_of code.now 0 holes.now }
{
    let mut least = 0;
    for hole in holes {
        let at = hole.at as usize;
        if at < least || !has_pair(code, at) {
            return false;
        }
        least = at + 2;
    }
    true
}

/// How many items of each kind that is counted a routine has.
#[derive(Clone, Copy)]
struct Counts {
    uses: usize,
    constants: usize,
    types: usize,
    words: usize,
}

impl Counts {
    /// Whether a hole's kind is one of the nine, and its item is there where such items are counted.
    fn has(self, hole: Hole) -> bool
        ensures { result ≡ named_of self.uses self.constants self.types self.words hole }
    {
        let number = hole.number as usize;
        match hole.kind {
            0 | 1 => number < self.uses,
            2 => number < self.constants,
            5 => number < self.types,
            8 => number < self.words,
            kind => kind < 8,
        }
    }
}

fn are_named(counts: Counts, holes: &[Hole]) -> bool
    ensures { result ≡ are_named counts.uses counts.constants counts.types counts.words holes.now }
{
    for hole in holes {
        if !counts.has(*hole) {
            return false;
        }
    }
    true
}

impl ObjRoutine {
    /// Whether each hole covers a LUI and an ADDI of one register, after the words of the hole before it, and names an item
    /// that the routine has: a use, a constant, a type or a code word. Own variables and parts of the runtime are not
    /// counted here.
    pub fn has_holes(&self) -> bool
        ensures { result ≡ fits self.now }
    {
        let counts = Counts {
            uses: self.uses.as_slice().len(),
            constants: self.constants.as_slice().len(),
            types: self.types.as_slice().len(),
            words: self.code.as_slice().len(),
        };
        are_holes(self.code.as_slice(), self.holes.as_slice())
            && are_named(counts, self.holes.as_slice())
    }
}
