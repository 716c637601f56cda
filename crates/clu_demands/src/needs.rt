//! What is asked of types.

ghost use Rattle.std.specs.Prelude.{◌≡◌, IfOk};

use clu_base::{Bytes, Memory, Sequence};
use clu_types::{Actual, TypeId};
use std::alloc::Global;

/// A need: the type has an operation of this name, of a type included in the wanted one.
#[derive(Drop, PartialEq, Eq, Hash)]
pub struct Asked {
    pub of: TypeId,
    pub op: Bytes,
    pub wanted: TypeId,
}

impl Asked {
    /// An equal need of its own. The only error is that memory runs out.
    pub fn copy(&self, alloc: Global) -> Result<Asked, Memory>
        ensures { IfOk result (λ copied. copied ≡ self.now) }
    {
        Ok(Asked {
            of: self.of,
            op: self.op.copy(alloc)?,
            wanted: self.wanted,
        })
    }
}

/// A type of a cluster: the name of its module and its actual parameters.
#[derive(Drop)]
pub struct Instance {
    pub name: Bytes,
    pub actuals: Sequence<Actual>,
}
