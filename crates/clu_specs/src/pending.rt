//! A type that is read while types in it are still to come: what was begun, and how far reading has come.
//! A list has at most as many items as bytes follow its opening mark, which is what bounds the counts here.

ghost use Rattle.std.specs.Prelude.{◌≡◌, List, [], ◌∷◌, ◌++◌, IfOk};

use crate::keywords::{Listing, Selecting};
use clu_base::{Bytes, Memory, Sequence};
use clu_types::{Actual, Exception, Field, TypeId};

/// The fields read so far, and the name of the field whose type is read, or of the last.
#[derive(Drop)]
pub struct FieldsSoFar<'a> {
    pub word: Selecting,
    pub made: Sequence<Field>,
    pub name: &'a [u8],
    /// How many fields may still follow.
    pub left: usize,
}

/// The types of a routine's arguments read so far.
#[derive(Drop)]
pub struct ArgumentsSoFar {
    pub iter: bool,
    pub made: Sequence<TypeId>,
    /// How many types may still follow.
    pub left: usize,
}

/// The types of a routine's results read so far.
#[derive(Drop)]
pub struct ResultsSoFar {
    pub iter: bool,
    pub args: Sequence<TypeId>,
    pub made: Sequence<TypeId>,
    /// How many types may still follow.
    pub left: usize,
}

/// A routine's signals read so far, and the name of the signal whose objects are read, or of the last.
#[derive(Drop)]
pub struct SignalsSoFar<'a> {
    pub iter: bool,
    pub args: Sequence<TypeId>,
    pub results: Sequence<TypeId>,
    pub made: Sequence<Exception>,
    pub name: &'a [u8],
    /// How many signals may still follow.
    pub left: usize,
}

/// The types of a signal's objects read so far.
#[derive(Drop)]
pub struct ObjectsSoFar<'a> {
    pub signals: SignalsSoFar<'a>,
    pub made: Sequence<TypeId>,
    /// How many types may still follow.
    pub left: usize,
}

/// The actual parameters of a cluster read so far.
#[derive(Drop)]
pub struct ActualsSoFar {
    pub name: Bytes,
    pub made: Sequence<Actual>,
    /// How many actual parameters may still follow.
    pub left: usize,
}

/// A type that was begun and waits for a type in it.
#[derive(Drop)]
pub enum Pending<'a> {
    Element(Listing),
    Field(FieldsSoFar<'a>),
    Argument(ArgumentsSoFar),
    Outcome(ResultsSoFar),
    Object(ObjectsSoFar<'a>),
    Actual(ActualsSoFar),
}

/// How far reading has come.
#[derive(Drop)]
pub enum Found<'a> {
    /// A type was read.
    Whole(TypeId),
    /// The type that is pending waits for the type that begins here.
    Inside(Pending<'a>),
    /// The next item of the type that is pending begins here.
    Item(Pending<'a>),
    /// The next of a routine's signals begins here.
    Signal(SignalsSoFar<'a>),
}

/// The items, and one more.
pub fn pushed<T: Drop>(items: Sequence<T>, item: T) -> Result<Sequence<T>, Memory>
    ensures { IfOk result (λ made. made ≡ items ++ item ∷ []) }
{
    let mut items = items.into_vec();
    items.push(item)?;
    Ok(Sequence::from_vec(items))
}
