//! One layer of a type: a type constructor over the numbers of its parts.

use clu_base::{Bytes, Const, Sequence};

/// The number of a type in its arena.
#[derive(Clone, Copy, PartialEq, Eq, Hash)]
pub struct TypeId(pub u64);

/// A component of a record or struct, or a tag of a oneof or variant, with its type.
#[derive(Drop, PartialEq, Eq, Hash)]
pub struct Field {
    pub name: Bytes,
    pub of: TypeId,
}

/// An exception that a routine may signal, with the types of its objects.
#[derive(Drop, PartialEq, Eq, Hash)]
pub struct Exception {
    pub name: Bytes,
    pub objects: Sequence<TypeId>,
}

/// What a routine takes, gives and signals. `failure(string)` belongs to every routine and is not listed.
#[derive(Drop, PartialEq, Eq, Hash)]
pub struct Heading {
    pub args: Sequence<TypeId>,
    pub results: Sequence<TypeId>,
    pub signals: Sequence<Exception>,
}

/// An actual parameter of a module: a type, a constant, or a constant parameter of the module round it.
#[derive(Drop, PartialEq, Eq, Hash)]
pub enum Actual {
    Of(TypeId),
    Const(Const),
    ConstParam(u32),
}

/// A type constructor with its parts (CLU Reference Manual, section 5). Fields and signals ascend by name.
/// `Param(n)` is the n-th parameter of the module, from 1.
#[derive(Drop, PartialEq, Eq, Hash)]
pub enum Term {
    Null,
    Bool,
    Int,
    Char,
    Str,
    Any,
    Stream,
    Array(TypeId),
    Sequence(TypeId),
    Record(Sequence<Field>),
    Struct(Sequence<Field>),
    Oneof(Sequence<Field>),
    Variant(Sequence<Field>),
    Proc(Heading),
    Iter(Heading),
    Cluster(Bytes, Sequence<Actual>),
    Param(u32),
}
