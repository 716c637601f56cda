//! What the word `rep` is bound to at each node, as if it stood there.

ghost use Rattle.std.specs.Prelude.{◌≡◌, IfOk, length, set, slice_get};
ghost use Rattle.clu_names.specs.Denotes.{is_rep};
ghost use Rattle.clu_names.specs.Latest.{outlasts, at, reaches};
ghost use Rattle.clu_bindings.specs.Tables.{optional, table_to};
ghost use Rattle.clu_bindings.specs.Reps.{declares_rep, outlasting, with_begun, with_begun_at, begun_to, begun_of, outlasting_at, best_to, reaching, reached_of, rep_found};

use crate::tables::optional_at;
use clu_base::{Bytes, Memory};
use clu_names::Declared;
use std::alloc::Global;

fn is_rep(word: &Bytes) -> bool
    ensures { result ≡ is_rep word.now }
{
    word.as_slice() == b"rep".as_slice()
}

/// Whether it declares `rep` in a module.
fn declares_rep(one: &Declared) -> bool
    ensures { result ≡ declares_rep one.now }
{
    match one.unit {
        Some(_) => is_rep(&one.name),
        None => false,
    }
}

/// Whether the declaration at a place counts where the one at `best` did: its scope ends later, or as late and it stands first.
fn outlasts(declared: &[Declared], one: &Declared, place: usize, best: Option<usize>) -> bool
    ensures { result ≡ outlasts one.now place (at declared.now best) best }
{
    match best {
        None => true,
        Some(b) => match declared.get(b) {
            None => true,
            Some(other) => other.to < one.to || (other.to == one.to && place < b),
        },
    }
}

/// Of the declaration at a place and the one at `best` the one that counts.
fn outlasting(
    declared: &[Declared],
    one: &Declared,
    place: usize,
    best: Option<usize>,
) -> Option<usize>
    ensures { result ≡ outlasting declared.now one.now place best }
{
    if outlasts(declared, one, place, best) {
        Some(place)
    } else {
        best
    }
}

/// Writes what counts at the node n, unless it is beyond the end.
fn keep(begun: &mut [Option<usize>], n: usize, best: Option<usize>)
    ensures { begun.new ≡ set begun.old n best }
{
    if n < begun.len() {
        begun[n] = best;
    }
}

/// Notes a declaration of `rep` at the first node of its scope, if it counts there.
fn note_begun(begun: &mut [Option<usize>], declared: &[Declared], one: &Declared, place: usize)
    ensures { begun.new ≡ with_begun declared.now begun.old place one.now }
{
    if declares_rep(one) {
        let from = one.from as usize;
        let best = optional_at(begun, from);
        keep(begun, from, outlasting(declared, one, place, best));
    }
}

/// The same of the declaration at a place.
fn note_begun_at(begun: &mut [Option<usize>], declared: &[Declared], place: usize)
    ensures { begun.new ≡ with_begun_at declared.now begun.old place (slice_get declared.now place) }
{
    match declared.get(place) {
        Some(one) => note_begun(begun, declared, one, place),
        None => (),
    }
}

/// For each of so many nodes the declaration of `rep` that counts of those whose scopes begin there.
#[tactic(auto, unfolding(crate::specs::Reps::begun_to))]
fn begun_of(alloc: Global, declared: &[Declared], nodes: u32) -> Result<Vec<Option<usize>>, Memory>
    ensures { IfOk result (λ begun. begun.items ≡ begun_of declared.now nodes) }
{
    let mut begun = vec![in alloc; None; nodes as usize]?;
    for place in 0..declared.len() {
        note_begun_at(&mut begun, declared, place);
    }
    Ok(begun)
}

/// Of the declarations at two places the one that counts.
fn outlasting_at(declared: &[Declared], place: Option<usize>, best: Option<usize>) -> Option<usize>
    ensures { result ≡ outlasting_at declared.now place best }
{
    match place {
        Some(place) => match declared.get(place) {
            Some(one) => outlasting(declared, one, place, best),
            None => best,
        },
        None => best,
    }
}

fn reaches(declared: &[Declared], best: Option<usize>, n: u32) -> bool
    ensures { result ≡ reaches n (at declared.now best) }
{
    match best {
        Some(place) => match declared.get(place) {
            Some(one) => n <= one.to,
            None => false,
        },
        None => false,
    }
}

/// What counts, if its scope reaches the node n.
fn reaching(declared: &[Declared], best: Option<usize>, n: u32) -> Option<usize>
    ensures { result ≡ reaching declared.now best n }
{
    if reaches(declared, best, n) {
        best
    } else {
        None
    }
}

/// For each of so many nodes the one that counts there of those that are noted up to it.
#[tactic(auto, unfolding(crate::specs::Tables::table_to, crate::specs::Reps::best_to))]
fn reached_of(
    alloc: Global,
    declared: &[Declared],
    begun: &[Option<usize>],
    nodes: u32,
) -> Result<Vec<Option<usize>>, Memory>
    ensures { IfOk result (λ reps. reps.items ≡ reached_of declared.now begun.now nodes) }
{
    let mut reps = Vec::with_capacity(alloc, nodes as usize)?;
    let mut best = None;
    for n in 0..nodes {
        best = outlasting_at(declared, optional_at(begun, n as usize), best);
        reps.push(reaching(declared, best, n))?;
    }
    Ok(reps)
}

/// For each of so many nodes the place of the declaration of `rep` that counts there. The only error is that memory runs out.
pub fn reps_of(
    alloc: Global,
    declared: &[Declared],
    nodes: u32,
) -> Result<Vec<Option<usize>>, Memory>
    ensures { IfOk result (λ reps. reps.items ≡ table_to (rep_found declared.now) nodes) }
{
    let begun = begun_of(alloc, declared, nodes)?;
    let reps = reached_of(alloc, declared, begun.as_slice(), nodes)?;
    Ok(reps)
}
