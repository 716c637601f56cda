//! Flat code: one list of simple steps over the words of one frame.

use clu_base::{Bytes, ObjConst};
use clu_wir::WExpr;

/// A step of flat code. Numbers of slots count the frame's words after its foot; a slot holds one word. What an expression
/// raises is raised at its step.
///
/// Two words travel with a jump from one routine to another, and `Take`, `Pass` or some `Result` are the first steps where
/// they arrive: a value, and the address of words side by side, which stay as they are until something is pushed on the
/// stack.
#[derive(Debug, Drop)]
pub enum Flat {
    /// To a slot the word of an expression.
    Set(u32, WExpr),
    /// So many bytes after the address that the first expression is, the word of the second, which is evaluated first.
    Put(WExpr, i32, WExpr),
    /// A place for jumps, with its number.
    Label(u32),
    /// Goes on at a label.
    Jump(u32),
    /// Goes on at a label if the word isn't 0 where the second is true, and if it is 0 where the second is false.
    Branch(WExpr, bool, u32),
    /// The first step of a routine: makes its frame, or ends the run where the stack has no room for it, and copies
    /// so many arguments into the first slots.
    Enter(u32),
    /// To a slot, as an object of type any, that of which the first is the number of its type and the second the word.
    Bind(WExpr, WExpr, u32),
    /// Calls the routine whose descriptor's address is the word, with the arguments in the slots from this one on. Its only
    /// result is the value that travels back; if it has several, they are the words. A call of an iterator has a Jump to
    /// the end of its loop after it, and after that the loop's body, to which a Yield comes.
    Invoke(WExpr, u32),
    /// Yields so many words in the slots from this one on: pushes a record of where to go on, or ends the run where the
    /// stack has no room for it, and goes to the body of the loop in the caller's frame. There the value that travels is
    /// the top of the stack above the record, and the words are those yielded.
    Yield(u32, u32),
    /// Takes off the record below the top of the stack that is in the slot, and goes on in its iterator.
    Resume(u32),
    /// To a slot the value that travelled.
    Take(u32),
    /// To a slot the word of this number, from 0, at the address that travelled, which goes on travelling.
    Result(u32, u32),
    /// Cuts the stack to the top that is in this word of the frame.
    Cut(u32),
    /// Ends the routine. Its results are so many words in the slots from this one on.
    Leave(u32, u32),
    /// Raises here the exception whose name is in the slot, with its objects in the slots after it. At the arm that
    /// takes it the value that travels is the name, and the words are the objects.
    Raise(u32),
    /// Ends the routine and raises where it was called, else as Raise.
    Signal(u32),
    /// The first step where an exception arrives: ends the routine and raises it where that was called, with the words
    /// that travel as they are.
    Pass,
    /// The primitive of this number over the slots from this one on: its arguments before it, its results after it.
    Prim(u32, u32),
}

/// The words of a frame before its slots: the return address, the place of the caller's frame, the caller's link
/// table, and the top of the stack outside all loops.
pub const FOOT: u32 = 4;

/// The limits on the stack count 16 words for a call beside those of its slots.
const _: () = prove!(FOOT <= 16);

/// The word of a frame that holds the top of the stack outside all loops.
pub const OUTER_MARK: u32 = 3;

/// A routine in flat code.
#[derive(Drop)]
pub struct FlatRoutine {
    pub name: Bytes,
    /// How many slots its frame has.
    pub frame: u32,
    pub code: Vec<Flat>,
    /// The number of its nodes that the limits on programs count.
    pub nodes: u32,
    pub uses: Vec<Bytes>,
    pub constants: Vec<ObjConst>,
    pub types: Vec<Bytes>,
}
