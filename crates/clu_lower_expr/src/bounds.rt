//! How much of a frame and of an image a routine may take for its nodes.

ghost use Rattle.std.specs.Prelude.{◌≡◌, IsTrue};
ghost use Rattle.clu_lower_expr.specs.Bounds.{IsBounded, string_nodes as nodes_of, weight as weight_of};

use clu_base::{Const, ObjConst};
use clu_wir::WRoutine;

/// The words of a frame for each node.
const WIDTH: u64 = 2;

/// The words of code for each node.
const WORDS: u64 = 64;

/// The bytes of tables for each node of the routine and of its constants.
const BYTES: u64 = 256;

/// The bytes of a string that count as a node.
const STRING: usize = 64;

/// Whether the routine is well formed and takes no more than its nodes allow.
pub fn is_bounded(routine: &WRoutine) -> bool
    ensures { IsTrue result → IsBounded routine.now }
{
    if !routine.is_formed() {
        return false;
    }
    let nodes = u64::from(routine.nodes);
    if u64::from(routine.width()) > WIDTH * nodes {
        return false;
    }
    let room = routine.room();
    if room.code > WORDS * nodes {
        return false;
    }
    room.data <= BYTES.saturating_mul(weight(routine))
}

/// The nodes of a routine and of its constants.
fn weight(routine: &WRoutine) -> u64
    ensures { result ≡ weight_of routine.now }
{
    let mut nodes = u64::from(routine.nodes);
    for constant in &routine.constants {
        nodes = nodes.saturating_add(string_nodes(constant));
    }
    nodes
}

/// The nodes that a constant counts.
fn string_nodes(constant: &ObjConst) -> u64
    ensures { result ≡ nodes_of constant.now }
{
    match constant {
        ObjConst::Value(Const::Str(bytes)) => (bytes.as_slice().len() / STRING) as u64,
        _ => 0,
    }
}
