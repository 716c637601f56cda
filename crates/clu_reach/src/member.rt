//! What has an entry and a descriptor in a program.

use clu_base::{Bytes, Sequence};
use clu_types::{Actual, TypeId};

/// A routine with all that it is applied to: what a use names, as a key of tables.
#[derive(Drop, PartialEq, Eq, Hash)]
pub enum Member {
    /// A module that is a routine, with its actual parameters.
    Module(Bytes, Sequence<Actual>),
    /// An operation of a type.
    Op(TypeId, Bytes),
    /// The setting up of a cluster's own variables.
    OwnSetUp(TypeId),
    /// `force` of a type.
    ForceOf(TypeId),
}
