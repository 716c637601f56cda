//! Tables with one entry for each node, of which nothing is known yet.

ghost use Rattle.std.specs.Prelude.{◌≡◌, None, IfOk, replicate};

use clu_base::Memory;
use std::alloc::Global;

/// A table of so many entries, each None. The only error is that memory runs out.
pub fn unknown<T: Drop>(alloc: Global, nodes: usize) -> Result<Vec<Option<T>>, Memory>
    ensures { IfOk result (λ table. table.items ≡ replicate nodes None) }
{
    let mut table = Vec::new(alloc);
    for _ in 0..nodes {
        table.push(None)?;
    }
    Ok(table)
}
