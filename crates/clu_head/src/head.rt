//! What a module shows of itself. Types are numbers of the arena of the values of the file.

ghost use Rattle.std.specs.Prelude.{◌≡◌, IfOk};

use clu_base::{Bytes, Memory, Sequence};
use clu_types::{ParamKind, TypeId};
use std::alloc::Global;

/// What a where clause asks: of the type parameter of this number, from 1, an operation of this name.
#[derive(Drop)]
pub struct Demanded {
    /// The Oper or Restrict that asks.
    pub node: u32,
    pub parameter: u32,
    pub operation: Bytes,
    /// The type in which that of the operation is to be included; None if it is refused where it stands.
    pub wanted: Option<TypeId>,
    /// Whether an `in` clause asks.
    pub in_set: bool,
}

/// A routine as callers see it.
#[derive(Drop)]
pub struct RoutineHead {
    pub node: u32,
    pub name: Bytes,
    pub iter: bool,
    /// Its type; None if a type of its arguments, results or signals is refused where it stands.
    pub of_type: Option<TypeId>,
    /// What the routine asks itself, ascending by parameter and operation, each once.
    pub demands: Sequence<Demanded>,
    /// Whether its cluster exports it.
    pub exported: bool,
}

/// What a module is: one routine; or a cluster, what it asks, and all of its routines, ascending by name, each once.
#[derive(Drop)]
pub enum HeadForm {
    Routine(RoutineHead),
    Cluster(Sequence<Demanded>, Sequence<RoutineHead>),
}

/// What a module shows of itself, and to its own text.
#[derive(Drop)]
pub struct Head {
    pub name: Bytes,
    /// The kind of actual for each parameter, unless the parameter has no legal type.
    pub kinds: Sequence<Option<ParamKind>>,
    pub form: HeadForm,
}

impl Demanded {
    /// An equal demand of its own. The only error is that memory runs out.
    pub fn copy(&self, alloc: Global) -> Result<Demanded, Memory>
        ensures { IfOk result (λ copied. copied ≡ self.now) }
    {
        Ok(Demanded {
            node: self.node,
            parameter: self.parameter,
            operation: self.operation.copy(alloc)?,
            wanted: self.wanted,
            in_set: self.in_set,
        })
    }
}
