//! The specification of a module: what other modules may know of it.

use crate::TypeArena;
use crate::term::{Heading, TypeId};
use clu_base::{Bytes, Sequence};

/// What an actual parameter of a module is: a type, or a constant of this type.
#[derive(Clone, Copy, PartialEq, Eq)]
pub enum ParamKind {
    OfType,
    Null,
    Bool,
    Int,
    Char,
    Str,
}

/// What a where clause asks of a type parameter, numbered from 1: an operation of this name and type.
#[derive(Drop, PartialEq, Eq)]
pub struct Demand {
    pub param: u32,
    pub op: Bytes,
    pub wanted: TypeId,
}

/// A procedure or an iterator, alone or as an operation of a cluster, with its own demands.
#[derive(Drop, PartialEq, Eq)]
pub struct OpSpec {
    pub name: Bytes,
    pub iter: bool,
    pub heading: Heading,
    pub demands: Sequence<Demand>,
}

/// What a module is: one routine, or a cluster with its demands and its exported operations.
#[derive(Drop, PartialEq, Eq)]
pub enum Form {
    Routine(OpSpec),
    Cluster(Sequence<Demand>, Sequence<OpSpec>),
}

/// The specification of a module (CLU Reference Manual, section 4). The types that it names are in an arena of its own.
#[derive(Drop)]
pub struct Spec {
    pub name: Bytes,
    pub kinds: Sequence<ParamKind>,
    pub types: TypeArena,
    pub form: Form,
}
