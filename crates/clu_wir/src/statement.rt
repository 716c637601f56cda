//! Statements of word code.

use crate::expression::WExpr;
use clu_base::Bytes;

/// A statement. Lists of expressions are evaluated from left to right.
#[derive(Drop)]
#[cycle(statements)]
pub enum WStmt {
    /// Puts a word into a slot.
    Set(u32, WExpr),
    /// Puts the last word so many bytes after the address that the first one is. The word is evaluated first.
    Put(WExpr, u32, WExpr),
    /// Calls the routine whose descriptor is at the address, with arguments; its results go into the slots.
    Call(WExpr, Vec<WExpr>, Vec<u32>),
    /// Calls the primitive of this number, with arguments; its results go into the slots.
    Prim(u32, Vec<WExpr>, Vec<u32>),
    /// Puts into a slot an object as one of type any: of the number of its type in the program and its word the address
    /// of its own type's number and its word. Of type any itself it is the word that was given.
    Bind(WExpr, WExpr, u32),
    /// The first list where the word isn't 0, else the second.
    If(WExpr, Vec<WStmt>, Vec<WStmt>),
    /// The list again and again, until a Break.
    Loop(Vec<WStmt>),
    /// Goes on after the innermost Loop or Iterate.
    Break,
    /// Goes on with the next turn of the innermost Loop or Iterate.
    Continue,
    /// Calls the iterator whose descriptor is at the address, with arguments. At each of its yields the words
    /// that it yields go into the slots, and the list runs.
    Iterate(WExpr, Vec<WExpr>, Vec<u32>, Vec<WStmt>),
    /// Yields words to the Iterate that called the routine.
    Yield(Vec<WExpr>),
    /// Raises an exception here, with its objects.
    Raise(Bytes, Vec<WExpr>),
    /// Ends the routine, and raises an exception with its objects where it was called.
    Signal(Bytes, Vec<WExpr>),
    /// Leaves so many Guards, then gives the words to the slots of an arm of the next one, and goes on with the
    /// arm's list. Arms count from 0.
    Exit(u32, u32, Vec<WExpr>),
    /// The list; the arms handle what is raised in it.
    Guard(Vec<WStmt>, Vec<WArm>),
    /// The list; an exception of one of these names that is raised in it ends the routine, and is raised with its
    /// objects where that was called.
    Resignal(Vec<WStmt>, Vec<Bytes>),
    /// Ends the routine with results.
    Return(Vec<WExpr>),
}

/// An arm of a Guard.
#[derive(Drop)]
#[cycle(statements)]
pub struct WArm {
    /// The names that it takes.
    pub names: Vec<Bytes>,
    /// Whether it takes all names.
    pub others: bool,
    /// Where the exception's objects go. Of an arm that takes all names it is at most one slot, for the name, as
    /// the address of a string.
    pub slots: Vec<u32>,
    pub body: Vec<WStmt>,
}
