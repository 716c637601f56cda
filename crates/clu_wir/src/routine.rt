//! Routines in word code.

use crate::expression::WExpr;
use crate::statement::WStmt;
use clu_base::{Bytes, ObjConst};

/// A routine.
#[derive(Drop)]
pub struct WRoutine {
    pub name: Bytes,
    /// How many arguments it takes; they come in the first slots.
    pub args: u32,
    /// How many slots it has.
    pub slots: u32,
    pub body: Vec<WStmt>,
    /// The number of its nodes that the limits on programs count.
    pub nodes: u32,
    /// What it calls and names, as texts of uses; its holes name them by their place here.
    pub uses: Vec<Bytes>,
    /// Its constants, among them the names of what it raises.
    pub constants: Vec<ObjConst>,
    /// Its types, as texts; the first is its own.
    pub types: Vec<Bytes>,
}

/// A routine without a frame. The slots of its expressions are its arguments, and what it raises is raised where it was
/// called.
#[derive(Drop)]
pub struct WLeaf {
    pub name: Bytes,
    pub deed: WDeed,
    /// The constants that its holes name.
    pub constants: Vec<ObjConst>,
}

/// What a routine without a frame does.
#[derive(Drop)]
pub enum WDeed {
    /// Its result is the value.
    Value(WExpr),
    /// Puts the last word so many bytes after the address that the first one is. The word is evaluated first.
    Put(WExpr, u32, WExpr),
}

/// The code of an operation: with a frame of its own, or without.
#[derive(Drop)]
pub enum WCode {
    Leaf(WLeaf),
    Routine(WRoutine),
}
