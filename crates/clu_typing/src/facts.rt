//! What is known of the nodes of a file, as tables by node.

ghost use Rattle.std.specs.Prelude.{◌≡◌};
ghost use Rattle.clu_typing.specs.Facts.{type_of, invocations, arguments, operation_of, type_found, operation_type, operations_at, askers_at, raised_at};

use crate::raising::{NOTHING, RaisesId, Raising};
use clu_bindings::{items_of, optional_at};
use clu_operations::{Finding, FoundId, NameId};
use clu_types::TypeId;

/// What is invoked or named as an operation.
#[derive(Clone, Copy)]
pub enum Operation {
    /// The type has no operation of this name.
    Missing,
    Found(FoundId),
    /// An object of this type, whether it is a routine or not. It asks nothing.
    Object(TypeId),
}

/// What is invoked at a node. The types of its arguments are those from `from` to `to`.
#[derive(Clone, Copy)]
pub struct Invocation {
    pub operation: Operation,
    pub from: usize,
    pub to: usize,
}

/// The operation that is named or invoked at a node, as it is compiled.
#[derive(Clone, Copy)]
pub enum Invoked {
    /// An operation of a built-in type.
    Builtin(TypeId, NameId),
    /// An operation of the cluster of which this is a type.
    Cluster(TypeId, NameId),
    /// The routine of a module with actual parameters, which stand in the arena as a cluster type of its name.
    Module(TypeId),
    /// An operation that a where clause gives of the type parameter of this number.
    Parameter(u32, NameId),
    /// A routine object.
    Stored,
}

/// What is invoked, named and asked, by node.
#[derive(Drop)]
pub struct Invocations {
    /// For each node where its own begin among `all`, `operations` and `askers`.
    pub starts: Vec<usize>,
    pub operation_starts: Vec<usize>,
    pub asker_starts: Vec<usize>,
    pub all: Vec<Invocation>,
    /// The types of arguments, as far as they have some.
    pub arguments: Vec<Option<TypeId>>,
    pub operations: Vec<Operation>,
    pub askers: Vec<FoundId>,
}

/// What is known of the nodes of a file.
#[derive(Drop)]
pub struct Facts {
    /// For each node the type of the expression that it is.
    pub types: Vec<Option<TypeId>>,
    pub invocations: Invocations,
    /// For each node what is named or invoked there, if anything is.
    pub invoked: Vec<Option<Invoked>>,
    /// For each node what the expression, the statement or the part of a statement may raise.
    pub raises: Vec<RaisesId>,
    pub raising: Raising,
    pub finding: Finding,
}

/// An operation that was looked for.
pub fn operation_of(found: Option<FoundId>) -> Operation
    ensures { result ≡ operation_of found }
{
    match found {
        Some(found) => Operation::Found(found),
        None => Operation::Missing,
    }
}

/// The type of an operation; None if there is none, or if it is refused where it is declared.
pub fn type_found(finding: &Finding, operation: Operation) -> Option<TypeId>
    ensures { result ≡ type_found finding.now operation }
{
    match operation {
        Operation::Missing => None,
        Operation::Found(found) => finding.found(found).of,
        Operation::Object(of) => Some(of),
    }
}

impl Invocations {
    /// What asks something of types at the node n: its operations, and the module that it names, if its actual parameters
    /// are of the kinds that this takes.
    pub fn askers_at(&self, n: u32) -> &[FoundId]
        ensures { result.now ≡ askers_at self.now n }
    {
        items_of(self.askers.as_slice(), self.asker_starts.as_slice(), n)
    }
}

impl Facts {
    /// The type of the expression at the node n, if it is one that has a type.
    pub fn type_of(&self, n: u32) -> Option<TypeId>
        ensures { result ≡ type_of self.now n }
    {
        optional_at(self.types.as_slice(), n as usize)
    }

    /// What is invoked at the node n, by a call or by an operator, a selector or brackets.
    pub fn invocations(&self, n: u32) -> &[Invocation]
        ensures { result.now ≡ invocations self.now n }
    {
        let list = &self.invocations;
        items_of(list.all.as_slice(), list.starts.as_slice(), n)
    }

    /// The types of the arguments of an invocation, as far as they have some.
    pub fn arguments(&self, of: Invocation) -> &[Option<TypeId>]
        ensures { result.now ≡ arguments self.now of }
    {
        let all = self.invocations.arguments.as_slice();
        all.get(of.from..of.to).unwrap_or(&[])
    }

    /// The type of an operation; None if there is none, or if it is refused where it is declared.
    pub fn operation_type(&self, operation: Operation) -> Option<TypeId>
        ensures { result ≡ operation_type self.now operation }
    {
        type_found(&self.finding, operation)
    }

    /// The operations that are invoked at the node n, and behind them those that are named there.
    pub fn operations_at(&self, n: u32) -> &[Operation]
        ensures { result.now ≡ operations_at self.now n }
    {
        let list = &self.invocations;
        items_of(
            list.operations.as_slice(),
            list.operation_starts.as_slice(),
            n,
        )
    }

    /// The set of what the expression or statement at the node n may raise.
    pub fn raised_at(&self, n: u32) -> RaisesId
        ensures { result ≡ raised_at self.now n }
    {
        self.raises.get(n as usize).copied().unwrap_or(NOTHING)
    }
}
