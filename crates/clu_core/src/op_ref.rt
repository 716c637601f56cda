//! Which operation an invocation invokes.

ghost use Rattle.std.specs.Prelude.{◌≡◌, IfOk};

use clu_base::{Bytes, Memory, Sequence};
use clu_types::{Actual, TypeId};
use std::alloc::Global;

/// Which operation a name, an operator or an invocation stands for.
#[derive(Drop, PartialEq, Eq)]
pub enum OpRef {
    /// An operation of a built-in type.
    Builtin(TypeId, Bytes),
    /// An operation of a cluster.
    Cluster(TypeId, Bytes),
    /// A routine that is a module, with its actual parameters.
    Module(Bytes, Sequence<Actual>),
    /// An operation that a where clause gives of a type parameter.
    Param(u32, Bytes),
    /// A routine object.
    Stored,
}

impl OpRef {
    /// An equal reference of its own. The only error is that memory runs out.
    pub fn copy(&self, alloc: Global) -> Result<OpRef, Memory>
        ensures { IfOk result (λ copied. copied ≡ self.now) }
    {
        match self {
            OpRef::Builtin(of, op) => Ok(OpRef::Builtin(*of, op.copy(alloc)?)),
            OpRef::Cluster(of, op) => Ok(OpRef::Cluster(*of, op.copy(alloc)?)),
            OpRef::Module(name, actuals) => Ok(OpRef::Module(
                name.copy(alloc)?,
                copy_actuals(alloc, actuals.as_slice())?,
            )),
            OpRef::Param(n, op) => Ok(OpRef::Param(*n, op.copy(alloc)?)),
            OpRef::Stored => Ok(OpRef::Stored),
        }
    }
}

fn copy_actuals(alloc: Global, actuals: &[Actual]) -> Result<Sequence<Actual>, Memory>
    ensures { IfOk result (λ copied. copied ≡ actuals.now) }
{
    let mut copied = Vec::new(alloc);
    for actual in actuals {
        copied.push(actual.copy(alloc)?)?;
    }
    Ok(Sequence::from_vec(copied))
}
