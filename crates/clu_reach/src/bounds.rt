//! The bounds on what an instance of a routine takes of a program, and what its code may not name.

ghost use Rattle.std.specs.Prelude.{◌≡◌, ◌/◌, fold};
ghost use Rattle.std.specs.List.{list_all};
ghost use Rattle.std.specs.Option.{is_some, option_copied};
ghost use Rattle.clu_wir.specs.Rooms.{plus};
ghost use Rattle.clu_reach.specs.Parameters.{constant_of};
ghost use Rattle.clu_reach.specs.Tables.{arm_step, bytes_of, cells, fits, is_filled, length_of, length_or_0, own_holes, own_step, region_bound, region_step, string_bytes as bytes_of_string, text_length, weight, with_text};

use crate::parameters::constant_of;
use clu_base::{Const, ObjConst};
use clu_object::{Arm, Hole, HoleKind, ObjRoutine, Region};
use clu_types::Actual;

/// The most code words for each node of a routine.
const WORDS_PER_NODE: u64 = 64;

/// The most bytes of the fixed part and the data for each node that a routine counts.
const BYTES_PER_NODE: u64 = 256;

/// Bytes of a string that count as a node.
const BYTES_PER_STRING_NODE: u64 = 64;

/// The bytes of a cell of a link table.
pub const CELL: u64 = 8;

/// The bytes of a descriptor: its entry, its type, its link table.
pub const DESCRIPTOR: u64 = 24;

/// The bytes of an own variable: its object, and whether it names one.
pub const OWN_VARIABLE: u64 = 16;

/// The most bytes of an operation of a built-in type that a use names: a descriptor, and a link table of six cells.
const OPERATION: u64 = 72;

/// The bytes of a table of regions without a region: its size and a cut.
const TABLE: u64 = 24;

/// The bytes of a region in it: a row, and two cuts more.
const REGION: u64 = 56;

/// The bytes of an arm's row.
const ARM: u64 = 24;

/// The parts of the runtime that code may name.
pub const RUNTIME_PARTS: u32 = 4;

/// Whether the constants of the routine name no parameter that is not there or is of a type, its code no part of the
/// runtime that is not there, and an instance with these actual parameters takes no more of the image than the nodes
/// allow.
pub fn fits(routine: &ObjRoutine, actuals: &[Actual]) -> bool
    ensures { result ≡ fits routine.now actuals.now }
{
    are_constants_known(routine.constants.as_slice(), actuals)
        && are_filled(routine.holes.as_slice())
        && routine.code.as_slice().len() as u64
            <= WORDS_PER_NODE.saturating_mul(routine.nodes as u64)
        && bytes_of(routine, actuals) <= BYTES_PER_NODE.saturating_mul(weight(routine, actuals))
}

fn are_constants_known(constants: &[ObjConst], actuals: &[Actual]) -> bool
    ensures { result ≡ list_all (λ c. is_some (constant_of actuals.now c)) constants.now }
{
    for constant in constants {
        if constant_of(constant, actuals).is_none() {
            return false;
        }
    }
    true
}

/// Whether all parts of the runtime that these holes name are there.
fn are_filled(holes: &[Hole]) -> bool
    ensures { result ≡ list_all is_filled holes.now }
{
    for hole in holes {
        if !is_filled(hole) {
            return false;
        }
    }
    true
}

fn is_filled(hole: &Hole) -> bool
    ensures { result ≡ is_filled hole.now }
{
    hole.kind != HoleKind::Runtime.number() || hole.number < RUNTIME_PARTS
}

/// The nodes that the limit on programs counts of an instance of the routine.
pub fn weight(routine: &ObjRoutine, actuals: &[Actual]) -> u64
    ensures { result ≡ weight actuals.now routine.now }
{
    let mut nodes = routine.nodes as u64;
    for constant in routine.constants.as_slice() {
        nodes = nodes.saturating_add(text_nodes(constant, actuals));
    }
    nodes
}

/// The nodes that a constant counts.
fn text_nodes(constant: &ObjConst, actuals: &[Actual]) -> u64
    ensures { result ≡ length_or_0 (text_length (constant_of actuals.now constant.now)) / 64 }
{
    text_length(constant, actuals).unwrap_or(0) / BYTES_PER_STRING_NODE
}

/// The cells of the routine's link table, of which the first has the address of its regions table.
pub fn cells(routine: &ObjRoutine) -> u64
    ensures { result ≡ cells routine.now }
{
    let uses = routine.uses.as_slice().len() as u64;
    let others = (routine.constants.as_slice().len() as u64)
        .saturating_add(own_holes(routine.holes.as_slice()))
        .saturating_add(routine.types.as_slice().len() as u64);
    uses.saturating_mul(2)
        .saturating_add(others)
        .saturating_add(1)
}

/// How many of the holes name own variables, of the routine or of the cluster round it. Each of these has a cell.
pub fn own_holes(holes: &[Hole]) -> u64
    ensures { result ≡ own_holes holes.now }
{
    let mut count = 0u64;
    for hole in holes {
        count = with_hole(count, hole);
    }
    count
}

fn with_hole(count: u64, hole: &Hole) -> u64
    ensures { result ≡ own_step count hole.now }
{
    if hole.kind == HoleKind::RoutineOwn.number() || hole.kind == HoleKind::ClusterOwn.number() {
        count.saturating_add(1)
    } else {
        count
    }
}

/// The bytes of a string of this length in the fixed part: its size and its bytes, in whole words.
pub fn string_bytes(length: u64) -> u64
    ensures { result ≡ bytes_of_string length }
{
    (length.saturating_add(7) / 8)
        .saturating_add(1)
        .saturating_mul(8)
}

/// The most bytes of a table of regions, and of the names of its arms, which are strings of the program. There are no more
/// cuts than twice the regions and one.
fn region_bound(regions: &[Region]) -> u64
    ensures { result ≡ region_bound regions.now }
{
    let mut bytes = TABLE;
    for region in regions {
        bytes = with_arms(bytes, region.arms.as_slice()).saturating_add(REGION);
    }
    bytes
}

/// So many bytes and those of arms.
fn with_arms(before: u64, arms: &[Arm]) -> u64
    ensures { result ≡ fold arm_step before arms.now }
{
    let mut bytes = before;
    for arm in arms {
        bytes = with_arm(bytes, arm);
    }
    bytes
}

fn with_arm(bytes: u64, arm: &Arm) -> u64
    ensures { result ≡ arm_step bytes arm.now }
{
    bytes
        .saturating_add(ARM)
        .saturating_add(string_bytes(arm.name.as_slice().len() as u64))
}

/// The most bytes of the fixed part and the data that an instance takes: where no other has its strings, its own variables
/// and the operations that it uses.
fn bytes_of(routine: &ObjRoutine, actuals: &[Actual]) -> u64
    ensures { result ≡ bytes_of actuals.now routine.now }
{
    let mut bytes = DESCRIPTOR
        .saturating_add(cells(routine).saturating_mul(CELL))
        .saturating_add((routine.uses.as_slice().len() as u64).saturating_mul(OPERATION))
        .saturating_add(own_holes(routine.holes.as_slice()).saturating_mul(OWN_VARIABLE))
        .saturating_add(region_bound(routine.regions.as_slice()));
    for constant in routine.constants.as_slice() {
        bytes = with_text(bytes, text_length(constant, actuals));
    }
    bytes
}

fn with_text(bytes: u64, length: Option<u64>) -> u64
    ensures { result ≡ with_text bytes length }
{
    match length {
        Some(length) => bytes.saturating_add(string_bytes(length)),
        None => bytes,
    }
}

/// The bytes of a constant that is a string.
fn text_length(constant: &ObjConst, actuals: &[Actual]) -> Option<u64>
    ensures { result ≡ text_length (constant_of actuals.now constant.now) }
{
    match constant_of(constant, actuals) {
        Some(value) => length_of(value),
        None => None,
    }
}

fn length_of(value: &Const) -> Option<u64>
    ensures { result ≡ length_of value.now }
{
    match value {
        Const::Str(text) => Some(text.as_slice().len() as u64),
        Const::Null | Const::Bool(_) | Const::Int(_) | Const::Char(_) => None,
    }
}
