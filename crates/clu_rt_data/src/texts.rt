//! The operations that are defined by texts of CLU as routines: one code for all types of a kind, with the type of the
//! elements as its parameter.

ghost use Rattle.std.specs.Prelude.{◌≡◌, ◌<◌, length, slice_get, IfOk, IfSome, IsSome};
ghost use Rattle.std.specs.Option.{option_map};
ghost use Rattle.clu_rt_data.specs.Texts.{text_count, text_count_of};

use crate::array_texts::derived_of_arrays;
use crate::sequence_texts::derived_of_sequences;
use clu_base::{Bytes, Memory};
use clu_rt_text::{Derived, derived_of_int, derived_of_string, routine};
use clu_types::{Term, TypeArena, TypeId};
use clu_wir::WRoutine;
use std::alloc::Global;

/// The operation `op` of the type `of` as word code, where it is defined by a text; else None. Its uses are those of the
/// text, in the order of the text, but for operations whose code stands in its place. Its `nodes` are the count of the
/// text. The only error is that memory runs out.
pub fn derived(
    alloc: Global,
    types: &TypeArena,
    of: TypeId,
    op: &Bytes,
) -> Result<Option<WRoutine>, Memory>
    ensures named { IfOk result (λ found. IfSome found (λ code. code.name ≡ op.now)) }
    ensures counts { IfOk result (λ found. option_map (λ code. code.nodes) found ≡ text_count_of (slice_get types.now of.0) op.now) }
    ensures known { IfOk result (λ found. IsSome found → of.0 < length types.now) }
{
    if !types.contains(of) {
        return Ok(None);
    }
    match derived_of(types.view(of), op.as_slice()) {
        Some(derived) => Ok(Some(made(alloc, derived)?)),
        None => Ok(None),
    }
}

/// The operation of this name of a type.
fn derived_of(term: &Term, name: &[u8]) -> Option<&'static Derived>
    ensures named { IfSome result (λ derived. derived.now.name.now ≡ name.now) }
    ensures counts { option_map (λ derived. derived.now.nodes) result ≡ text_count term.now name.now }
{
    match term {
        Term::Int => derived_of_int(name),
        Term::Str => derived_of_string(name),
        Term::Array(_) => derived_of_arrays(name),
        Term::Sequence(_) => derived_of_sequences(name),
        _ => None,
    }
}

/// The routine of an operation, with the uses and the count of its text.
fn made(alloc: Global, derived: &Derived) -> Result<WRoutine, Memory>
    ensures named { IfOk result (λ code. code.name ≡ derived.now.name.now) }
    ensures counts { IfOk result (λ code. code.nodes ≡ derived.now.nodes) }
{
    let Derived {
        name,
        args,
        slots,
        ..
    } = *derived;
    let mut made = routine(alloc, name, args, slots, derived.steps)?;
    made.nodes = derived.nodes;
    made.uses = texts(alloc, derived.uses)?;
    Ok(made)
}

fn texts(alloc: Global, uses: &[&'static [u8]]) -> Result<Vec<Bytes>, Memory> {
    let mut texts = Vec::new(alloc);
    for used in uses {
        texts.push(Bytes::from_slice(alloc, used)?)?;
    }
    Ok(texts)
}
