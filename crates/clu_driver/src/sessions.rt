//! Calls one after the other.

ghost use Rattle.std.specs.Prelude.{◌≡◌, IfOk, OnErr, map, string_bytes};
ghost use Rattle.clu_driver.specs.Sessions.{IsCall, IsSession, state_of};

use crate::top::clu;
use clu_base::{Memory, Sink, Source, Store};
use std::alloc::Global;

/// Calls `clu` with each list of words in turn, and gives the statuses. If memory for the statuses is refused, which
/// is the only error, nothing was done.
pub fn session<S: Source, K: Sink, E: Sink, F: Store>(
    alloc: Global,
    runs: &[Vec<String>],
    input: &mut S,
    output: &mut K,
    errors: &mut E,
    files: &mut F,
) -> Result<Vec<u8>, Memory>
    ensures done { IfOk result (λ statuses. IsSession (map (λ words. map string_bytes words.items) runs.now) statuses.items
        (state_of (F.files files.old) (F.faults files.old) (S.left input.old) (S.faults input.old) (K.written output.old) (K.faults output.old) (E.written errors.old) (E.faults errors.old))
        (state_of (F.files files.new) (F.faults files.new) (S.left input.new) (S.faults input.new) (K.written output.new) (K.faults output.new) (E.written errors.new) (E.faults errors.new))) }
    ensures refused { OnErr result
        (state_of (F.files files.new) (F.faults files.new) (S.left input.new) (S.faults input.new) (K.written output.new) (K.faults output.new) (E.written errors.new) (E.faults errors.new)
        ≡ state_of (F.files files.old) (F.faults files.old) (S.left input.old) (S.faults input.old) (K.written output.old) (K.faults output.old) (E.written errors.old) (E.faults errors.old)) }
{
    let mut statuses = Vec::with_capacity(alloc, runs.len())?;
    for words in runs {
        statuses.push_reserved(call(alloc, words, input, output, errors, files));
    }
    Ok(statuses)
}

// One call, with what `clu` says of it as one relation.
fn call<S: Source, K: Sink, E: Sink, F: Store>(
    alloc: Global,
    words: &[String],
    input: &mut S,
    output: &mut K,
    errors: &mut E,
    files: &mut F,
) -> u8
    ensures { IsCall (map string_bytes words.now) result
        (state_of (F.files files.old) (F.faults files.old) (S.left input.old) (S.faults input.old) (K.written output.old) (K.faults output.old) (E.written errors.old) (E.faults errors.old))
        (state_of (F.files files.new) (F.faults files.new) (S.left input.new) (S.faults input.new) (K.written output.new) (K.faults output.new) (E.written errors.new) (E.faults errors.new)) }
{
    clu(alloc, words, input, output, errors, files)
}
