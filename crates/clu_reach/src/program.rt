//! The code of a program, and what may be called in it.

use crate::bounds::RUNTIME_PARTS;
use crate::errors::LinkError;
use crate::variables::Variable;
use clu_object::ObjRoutine;
use clu_types::{Actual, TypeArena, TypeId};
use indexmap::IndexSet;

/// Code that stands once in a program.
#[derive(Drop)]
pub enum Code<'a> {
    /// That of a module's routine, as the library keeps it.
    Kept(&'a ObjRoutine),
    /// That of an operation, of a routine over the components of a type, or of a part of the runtime.
    Made(ObjRoutine),
}

impl Code<'_> {
    /// The routine whose code it is.
    pub fn routine(&self) -> &ObjRoutine {
        match self {
            Code::Kept(routine) => routine,
            Code::Made(routine) => routine,
        }
    }
}

/// What has a descriptor and a link table.
#[derive(Drop)]
pub struct Callable {
    /// The number of its code.
    pub code: usize,
    /// Its own type.
    pub own: TypeId,
    /// The numbers of the callables that its uses come to.
    pub uses: Vec<usize>,
    /// What the types of its code are in the program.
    pub types: Vec<TypeId>,
    /// What takes the places of its code's parameters.
    pub actuals: Vec<Actual>,
    /// The numbers of the own variables that the holes of its code name, in the order of these.
    pub variables: Vec<usize>,
}

/// A program before its parts have addresses.
#[derive(Drop)]
pub struct Program<'a> {
    pub types: TypeArena,
    /// The start part, the search part, the routines of modules and the operations.
    pub codes: Vec<Code<'a>>,
    /// The instances, of which the first is the start, and after them the operations.
    pub callables: Vec<Callable>,
    /// The own variables that the instances name, each once.
    pub variables: IndexSet<Variable>,
}

impl Program<'_> {
    /// Whether the code of this number is a part of the runtime.
    pub fn is_part(&self, code: usize) -> bool {
        code < RUNTIME_PARTS as usize
    }

    /// The routine of a code's number.
    pub fn routine(&self, code: usize) -> Result<&ObjRoutine, LinkError> {
        match self.codes.get(code) {
            Some(code) => Ok(code.routine()),
            None => Err(LinkError::NotYet),
        }
    }
}
