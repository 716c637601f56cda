//! Nodes that are refused, counted, so that it is known at once whether one stands below a node.

ghost use Rattle.std.specs.Prelude.{◌≡◌, ◌+◌, length, slice_get, IfOk};
ghost use Rattle.clu_head.specs.Refused.{counts_to, grows_in, number_in};

use clu_base::Memory;
use clu_syntax::Round;
use std::alloc::Global;

/// For each number of a node, and for the number after the last one, how many of those before it are refused. The only error is
/// that memory runs out.
pub fn counts_of(alloc: Global, refused: &[bool]) -> Result<Vec<usize>, Memory>
    ensures { IfOk result (λ counts. counts.items ≡ counts_to refused.now (length refused.now)) }
{
    let mut count = 0usize;
    let mut counts = vec![in alloc; count]?;
    for n in 0..refused.len() {
        if refused[n] {
            count += 1;
        }
        counts.push(count)?;
    }
    Ok(counts)
}

/// How many of the nodes before this number are refused.
fn count_before(counts: &[usize], n: usize) -> usize
    ensures { result ≡ number_in (slice_get counts.now n) }
{
    match counts.get(n) {
        Some(count) => *count,
        None => 0,
    }
}

/// Whether a node at or below the node n is refused.
pub fn is_refused(counts: &[usize], rounds: &[Round], n: u32) -> bool
    ensures { result ≡ grows_in counts.now (slice_get rounds.now n) n }
{
    match rounds.get(n as usize) {
        Some(round) => count_before(counts, round.first as usize)
            < count_before(counts, n as usize + 1),
        None => false,
    }
}
