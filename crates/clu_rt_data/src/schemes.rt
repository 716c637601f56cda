//! The operations of structs, records, oneofs and variants that use those of their components: equal, similar, similar1
//! and copy. Each is a routine of its own for its type, with one call for each component. The types of the components,
//! in the ascending order of the selectors, are its actual parameters, so no text of it is longer the larger they are.

ghost use Rattle.std.specs.Prelude.{◌≡◌, ◌<◌, length, slice_get, IfOk, IfSome, IsSome};
ghost use Rattle.clu_rt_data.specs.Schemes.{IsScheme, in_32_bits, scheme_nodes, selectors, selectors_of};

use crate::making::made;
use clu_base::{Bytes, Memory};
use clu_types::{Field, Term, TypeArena, TypeId};
use clu_wir::WRoutine;
use std::alloc::Global;

/// What a scheme does with the components.
#[derive(Clone, Copy)]
pub enum Deed {
    /// Compares two objects by `equal` of the components.
    Equal,
    /// Compares two objects by `similar` of the components.
    Similar,
    Copy,
}

/// Of what kind the objects are.
#[derive(Clone, Copy)]
pub enum Shape {
    /// All components stand side by side.
    Record,
    /// A tag and one object, in so many words.
    Tagged(u64),
}

/// The operation `op` of the type `of` as word code, where it is one that uses those of the type's components; else
/// None. Its n-th use is an operation of its n-th parameter. The only error is that memory runs out.
pub fn scheme(
    alloc: Global,
    types: &TypeArena,
    of: TypeId,
    op: &Bytes,
) -> Result<Option<WRoutine>, Memory>
    ensures known { IfOk result (λ found. IsSome found → of.0 < length types.now) }
    ensures scheme { IfOk result (λ found. IfSome found (IsScheme op.now (scheme_nodes (selectors_of (slice_get types.now of.0))))) }
    ensures uses { IfOk result (λ found. IfSome found (λ code. length code.uses.items ≡ in_32_bits (selectors_of (slice_get types.now of.0)))) }
{
    if !types.contains(of) {
        return Ok(None);
    }
    scheme_of(alloc, types.view(of), op)
}

/// The same for the term of a type.
fn scheme_of(alloc: Global, term: &Term, op: &Bytes) -> Result<Option<WRoutine>, Memory>
    ensures scheme { IfOk result (λ found. IfSome found (IsScheme op.now (scheme_nodes (selectors term.now)))) }
    ensures uses { IfOk result (λ found. IfSome found (λ code. length code.uses.items ≡ in_32_bits (selectors term.now))) }
{
    match plan_of(term, op.as_slice()) {
        Some(plan) => Ok(Some(made(alloc, plan, op)?)),
        None => Ok(None),
    }
}

/// What a scheme does with the components, and of what kind its objects are.
#[derive(Clone, Copy)]
pub struct Plan {
    /// How many components there are.
    pub count: u32,
    pub shape: Shape,
    pub deed: Deed,
}

/// The scheme of this name of a type, if it has one.
fn plan_of(term: &Term, name: &[u8]) -> Option<Plan>
    ensures { IfSome result (λ plan. plan.count ≡ in_32_bits (selectors term.now)) }
{
    match term {
        Term::Struct(fields) => planned(fields.as_slice(), Shape::Record, immutable(name)),
        Term::Record(fields) => planned(fields.as_slice(), Shape::Record, mutable(name)),
        Term::Oneof(fields) => planned(fields.as_slice(), Shape::Tagged(2), immutable(name)),
        Term::Variant(fields) => planned(fields.as_slice(), Shape::Tagged(3), mutable(name)),
        _ => None,
    }
}

fn planned(fields: &[Field], shape: Shape, deed: Option<Deed>) -> Option<Plan>
    ensures { IfSome result (λ plan. plan.count ≡ in_32_bits (length fields.now)) }
{
    match deed {
        Some(deed) => Some(Plan {
            count: count_of(fields),
            shape,
            deed,
        }),
        None => None,
    }
}

/// How many selectors there are.
fn count_of(fields: &[Field]) -> u32
    ensures { result ≡ in_32_bits (length fields.now) }
{
    match u32::try_from(fields.len()) {
        Ok(count) => count,
        Err(_) => u32::MAX,
    }
}

/// The scheme of this name of immutable objects.
fn immutable(name: &[u8]) -> Option<Deed> {
    match name {
        b"equal" => Some(Deed::Equal),
        b"similar" => Some(Deed::Similar),
        b"copy" => Some(Deed::Copy),
        _ => None,
    }
}

/// The scheme of this name of mutable objects, which are equal only where they are the same.
fn mutable(name: &[u8]) -> Option<Deed> {
    match name {
        b"similar" => Some(Deed::Similar),
        b"similar1" => Some(Deed::Equal),
        b"copy" => Some(Deed::Copy),
        _ => None,
    }
}
