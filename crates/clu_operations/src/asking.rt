//! What is asked, one behind the other.

ghost use Rattle.std.specs.Prelude.{◌≡◌, OnOk};
ghost use Rattle.clu_operations.specs.Asking.{asks_of, with_asked};

use crate::found::Asked;
use crate::words::Words;
use clu_base::{Bytes, Memory};
use clu_types::TypeId;
use std::alloc::Global;

/// Appends that an operation of this name is asked of a type.
pub fn push_asked(
    alloc: Global,
    words: &mut Words,
    asked: &mut Vec<Asked>,
    of: TypeId,
    operation: &Bytes,
    wanted: TypeId,
    in_set: bool,
) -> Result<(), Memory>
    ensures { OnOk result (asks_of words.new asked.new.items ≡ with_asked of operation.now wanted in_set (asks_of words.old asked.old.items)) }
{
    let operation = words.number(alloc, operation)?;
    asked.push(Asked {
        of,
        operation,
        wanted,
        in_set,
    })?;
    Ok(())
}
