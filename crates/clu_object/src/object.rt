//! The parts of an object.

use clu_base::{Bytes, ObjConst, Sequence};
use clu_wir::Arm;

/// The code of a module.
#[derive(Drop, PartialEq, Eq)]
pub struct Object {
    /// The module's name.
    pub module: Bytes,
    pub routines: Sequence<ObjRoutine>,
}

/// The code of a routine. Its words stand once in an image, whatever its instances.
#[derive(Drop, PartialEq, Eq)]
pub struct ObjRoutine {
    /// The routine's name; `own` for the setting up of a cluster's own variables.
    pub name: Bytes,
    /// The number of its nodes that the limits on programs count.
    pub nodes: u32,
    /// Its RV64IM words.
    pub code: Sequence<u32>,
    /// What the linker fills in, ascending by place.
    pub holes: Sequence<Hole>,
    /// What it calls and names, as texts of uses, which holes name by their place here.
    pub uses: Sequence<Bytes>,
    /// Its constants, among them the names of what it raises.
    pub constants: Sequence<ObjConst>,
    /// Its types, as texts; the first is its own.
    pub types: Sequence<Bytes>,
    /// Where it handles exceptions; a region follows the one that it lies in.
    pub regions: Sequence<Region>,
}

/// A LUI and after it an ADDI of the same register, which are to give a number that the linker knows.
#[derive(Clone, Copy, PartialEq, Eq)]
pub struct Hole {
    /// The code word of the LUI, counted from 0.
    pub at: u32,
    /// The number of its `HoleKind`.
    pub kind: u8,
    /// Which item of that kind.
    pub number: u32,
}

/// A part of a routine's code in which arms handle what is raised.
#[derive(Drop, PartialEq, Eq)]
pub struct Region {
    /// Its first code word, counted from 0.
    pub first: u32,
    /// Its last code word.
    pub last: u32,
    /// The innermost region round it, which stands before it.
    pub parent: Option<u32>,
    /// Its arms. Their targets are code words.
    pub arms: Sequence<Arm>,
}
