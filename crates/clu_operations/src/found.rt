//! Operations that types have, and modules with actual parameters, as plain data.

use crate::words::NameId;
use clu_bindings::ModuleId;
use clu_types::TypeId;

/// What was found, by its place.
#[derive(Clone, Copy, PartialEq, Eq, Hash)]
pub struct FoundId(pub usize);

/// What is asked: that a type has an operation of this name, whose type is included in the wanted one, and that what this
/// operation asks is met in its turn.
#[derive(Clone, Copy, PartialEq, Eq, Hash)]
pub struct Asked {
    pub of: TypeId,
    pub operation: NameId,
    pub wanted: TypeId,
    /// Whether an `in` clause asks.
    pub in_set: bool,
}

/// An operation that was found, or a module with actual parameters. What it asks stands from `from` to `to`.
#[derive(Clone, Copy)]
pub struct Found {
    /// Its type as callers see it; None if that is refused where it is declared, and of a cluster.
    pub of: Option<TypeId>,
    pub from: usize,
    pub to: usize,
}

/// Where a type has its operations: in the table of built-in ones, or in a module, of which all routines count or those that
/// are exported alone.
#[derive(Clone, Copy, PartialEq, Eq, Hash)]
pub enum View {
    Builtin,
    Inside(ModuleId),
    Outside(ModuleId),
}

/// An operation of a type; None is the module itself with the actual parameters of the type.
#[derive(Clone, Copy, PartialEq, Eq, Hash)]
pub struct Wished {
    pub of: TypeId,
    pub operation: Option<NameId>,
    pub view: View,
}

/// What a Routine, a Cluster or a TypeSet asks of a parameter.
#[derive(Clone, Copy, PartialEq, Eq, Hash)]
pub struct Given {
    pub node: u32,
    pub parameter: u32,
    pub operation: NameId,
}
