//! The operations of built-in types. Those of a selector are found on the type with this component alone, so that each costs
//! no more than its own.

ghost use Rattle.std.specs.Prelude.{◌≡◌, ◌<◌, ℕ, List, [], ◌∷◌, length, slice_get, true, false, if◌then◌else◌, option_copied, option_map, IfOk, OnOk, Some};
ghost use Rattle.std.specs.List.Sorted.{IsPartitionPoint};
ghost use Rattle.clu_types.specs.Arena.{type_at, types_at, type_of, types_of, AreBelow, HeadingBelow, PartsBelow, Grows};
ghost use Rattle.clu_builtin.specs.Table.{operation};
ghost use Rattle.clu_builtin.specs.Built.{found_at, operation_at, IsBelow};
ghost use Rattle.clu_operations.specs.Asking.{asks_of, with_needs};
ghost use Rattle.clu_operations.specs.ByName.{AreAscending, is_below, if_named, first_named};
ghost use Rattle.clu_operations.specs.Builtins.{selector_in, field_name, only, fields_of, with_fields, term_with, type_or, IsWithin, type_with, narrowed, ComponentsAscend, IsReplaced, AreReplaced, IsInPlace, IsOfWhole, routine_term, operation_if, builtin_told};
ghost use Rattle.clu_operations.specs.Found.{Finds};
ghost use Rattle.clu_operations.specs.Told.{told};

use crate::asking::push_asked;
use crate::finding::Finding;
use crate::found::{Asked, FoundId};
use crate::words::{NameId, Words};
use clu_base::{Bytes, Memory, Sequence};
use clu_builtin::{Builtin, Need, heading};
use clu_types::{Field, Heading, Term, TypeArena, TypeId};
use std::alloc::Global;

// ---- the type with the component alone of which an operation is

/// What stands in the name of an operation behind its first `_`, which ends what stands there before a selector.
fn selector_in(mut name: &[u8]) -> Option<&[u8]>
    ensures { option_map (λ rest. rest.now) result ≡ selector_in name.entry.now }
{
    while let [first, rest @ ..] = name {
        if *first == b'_' {
            return Some(rest);
        }
        name = rest;
    }
    None
}

fn selector_of(name: &Bytes) -> Option<&[u8]>
    ensures { option_map (λ rest. rest.now) result ≡ selector_in name.now }
{
    selector_in(name.as_slice())
}

/// Where the first of the components begins whose name isn't below this one. They ascend by name.
fn place_among(fields: &[Field], name: &[u8]) -> usize
    ensures { AreAscending field_name fields.now → IsPartitionPoint (λ field. is_below field_name name.now field ≡ true) (λ field. is_below field_name name.now field ≡ false) fields.now result }
{
    fields.partition_point(
        |field: &Field| -> bool
            ensures { result ≡ is_below field_name name.entry.now field.now }
        { field.name.as_slice().cmp(name).is_lt() },
    )
}

/// The component at a place, if it has this name.
fn if_named<'a>(fields: &'a [Field], place: usize, name: &[u8]) -> Option<&'a Field>
    ensures { option_copied result ≡ if_named field_name name.now (slice_get fields.now place) }
{
    match fields.get(place) {
        Some(field) => {
            if field.name.as_slice() == name {
                Some(field)
            } else {
                None
            }
        }
        None => None,
    }
}

/// The component of this name.
fn component<'a>(fields: &'a [Field], name: &[u8]) -> Option<&'a Field>
    ensures { AreAscending field_name fields.now → option_copied result ≡ first_named field_name name.now fields.now }
{
    if_named(fields, place_among(fields, name), name)
}

/// This component alone.
fn listed(alloc: Global, field: &Field) -> Result<Sequence<Field>, Memory>
    ensures { IfOk result (λ made. made ≡ field.now ∷ []) }
{
    let copied = field.copy(alloc)?;
    Ok(Sequence::from_vec(vec![in alloc; copied]?))
}

/// The component of this name alone, or none.
fn only(alloc: Global, fields: &[Field], name: &[u8]) -> Result<Sequence<Field>, Memory>
    ensures { AreAscending field_name fields.now → IfOk result (λ made. made ≡ only name.now fields.now) }
{
    match component(fields, name) {
        Some(field) => listed(alloc, field),
        None => Ok(Sequence::from_vec(Vec::new(alloc))),
    }
}

/// Components and tags.
fn fields_of(term: &Term) -> &[Field]
    ensures { result.now ≡ fields_of term.now }
{
    match term {
        Term::Record(fields) | Term::Struct(fields) | Term::Oneof(fields) | Term::Variant(fields) =>
            { fields.as_slice() }
        _ => &[],
    }
}

/// A type of the same constructor with these components, if it is one with components.
fn with_fields(term: &Term, fields: Sequence<Field>) -> Option<Term>
    ensures { result ≡ with_fields term.now fields }
{
    match term {
        Term::Record(_) => Some(Term::Record(fields)),
        Term::Struct(_) => Some(Term::Struct(fields)),
        Term::Oneof(_) => Some(Term::Oneof(fields)),
        Term::Variant(_) => Some(Term::Variant(fields)),
        _ => None,
    }
}

/// The same with the component of this name alone.
fn term_with(alloc: Global, term: &Term, name: &[u8]) -> Result<Option<Term>, Memory>
    ensures { AreAscending field_name (fields_of term.now) → IfOk result (λ made. made ≡ term_with name.now term.now) }
{
    let fields = only(alloc, fields_of(term), name)?;
    Ok(with_fields(term, fields))
}

/// The number of a type, or this one if a part of it is not of the arena.
fn interned_or(types: &mut TypeArena, term: Term, of: TypeId) -> Result<TypeId, Memory>
    requires { of.0 < length types.old }
    ensures of_type { PartsBelow (length types.old) term → IfOk result (λ id. type_at (types_of types.new) id ≡ type_of (types_of types.old) term) }
    ensures within { IfOk result (λ id. id.0 < length types.new) }
    ensures kept { Grows types.old types.new }
{
    if types.holds(&term) {
        types.intern(term)
    } else {
        Ok(of)
    }
}

fn number_or(types: &mut TypeArena, term: Option<Term>, of: TypeId) -> Result<TypeId, Memory>
    requires { of.0 < length types.old }
    ensures of_type { IsWithin (length types.old) term → IfOk result (λ id. type_at (types_of types.new) id ≡ type_or (types_of types.old) (type_at (types_of types.old) of) term) }
    ensures within { IfOk result (λ id. id.0 < length types.new) }
    ensures kept { Grows types.old types.new }
{
    match term {
        Some(term) => interned_or(types, term, of),
        None => Ok(of),
    }
}

/// The type with the component of this name alone.
fn type_with(
    alloc: Global,
    types: &mut TypeArena,
    of: TypeId,
    selector: &[u8],
) -> Result<TypeId, Memory>
    requires { of.0 < length types.old }
    ensures of_type { ComponentsAscend (type_at (types_of types.old) of) → IfOk result (λ part. type_at (types_of types.new) part ≡ type_with selector.now (type_at (types_of types.old) of)) }
    ensures within { IfOk result (λ part. part.0 < length types.new) }
    ensures kept { Grows types.old types.new }
{
    let term = term_with(alloc, types.view(of), selector)?;
    number_or(types, term, of)
}

/// The type with the component alone of which the operation of this name is, or the whole type.
fn narrowed(
    alloc: Global,
    types: &mut TypeArena,
    of: TypeId,
    name: &Bytes,
) -> Result<TypeId, Memory>
    requires { of.0 < length types.old }
    ensures of_type { ComponentsAscend (type_at (types_of types.old) of) → IfOk result (λ part. type_at (types_of types.new) part ≡ narrowed name.now (type_at (types_of types.old) of)) }
    ensures within { IfOk result (λ part. part.0 < length types.new) }
    ensures kept { Grows types.old types.new }
{
    match selector_of(name) {
        Some(selector) => type_with(alloc, types, of, selector),
        None => Ok(of),
    }
}

// ---- the whole type in its place

fn put_if(same: bool, of: TypeId, id: TypeId) -> TypeId
    ensures { result ≡ (if same then of else id) }
{
    if same { of } else { id }
}

/// The type `of` for `part`, and every other one for itself.
fn put(types: &TypeArena, part: TypeId, of: TypeId, id: TypeId) -> TypeId
    requires part_in { part.0 < length types.now }
    requires of_in { of.0 < length types.now }
    requires id_in { id.0 < length types.now }
    ensures put { IsReplaced (type_at (types_of types.now) part) (type_at (types_of types.now) of) (type_at (types_of types.now) id) (type_at (types_of types.now) result) }
    ensures within { result.0 < length types.now }
{
    put_if(types.equal(id, part), of, id)
}

/// These types with another one in the place of `part`.
fn in_place(
    alloc: Global,
    types: &TypeArena,
    ids: &[TypeId],
    part: TypeId,
    of: TypeId,
) -> Result<Sequence<TypeId>, Memory>
    requires part_in { part.0 < length types.now }
    requires of_in { of.0 < length types.now }
    requires ids_in { AreBelow (length types.now) ids.now }
    ensures put { IfOk result (λ made. AreReplaced (type_at (types_of types.now) part) (type_at (types_of types.now) of) (types_at (types_of types.now) ids.now) (types_at (types_of types.now) made)) }
    ensures within { IfOk result (AreBelow (length types.now)) }
{
    let mut made = Vec::new(alloc);
    for id in ids {
        made.push(put(types, part, of, *id))?;
    }
    Ok(Sequence::from_vec(made))
}

/// A heading with the type `of` in the place of `part`.
fn heading_in_place(
    alloc: Global,
    types: &TypeArena,
    heading: Heading,
    part: TypeId,
    of: TypeId,
) -> Result<Heading, Memory>
    requires part_in { part.0 < length types.now }
    requires of_in { of.0 < length types.now }
    requires heading_in { HeadingBelow (length types.now) heading }
    ensures put { IfOk result (IsInPlace (types_of types.now) part of heading) }
    ensures within { IfOk result (HeadingBelow (length types.now)) }
{
    let args = in_place(alloc, types, heading.args.as_slice(), part, of)?;
    let results = in_place(alloc, types, heading.results.as_slice(), part, of)?;
    Ok(Heading {
        args,
        results,
        signals: heading.signals,
    })
}

/// An operation that was found on the type `part` as one of the type `of`.
fn in_whole(
    alloc: Global,
    types: &TypeArena,
    builtin: Builtin,
    part: TypeId,
    of: TypeId,
) -> Result<Builtin, Memory>
    requires part_in { part.0 < length types.now }
    requires of_in { of.0 < length types.now }
    requires builtin_in { IsBelow (length types.now) (Some builtin) }
    ensures put { IfOk result (IsOfWhole (types_of types.now) part of builtin) }
    ensures within { IfOk result (λ made. IsBelow (length types.now) (Some made)) }
{
    let Builtin {
        iter,
        heading,
        needs,
    } = builtin;
    let heading = heading_in_place(alloc, types, heading, part, of)?;
    Ok(Builtin {
        iter,
        heading,
        needs,
    })
}

fn found_in_whole(
    alloc: Global,
    types: &TypeArena,
    found: Option<Builtin>,
    part: TypeId,
    of: TypeId,
) -> Result<Option<Builtin>, Memory>
    requires part_in { part.0 < length types.now }
    requires of_in { of.0 < length types.now }
    requires found_in { IsBelow (length types.now) found }
    ensures found { (name : List ℕ) → type_at (types_of types.now) part ≡ narrowed name (type_at (types_of types.now) of) → found_at (types_of types.now) found ≡ operation (narrowed name (type_at (types_of types.now) of)) name → IfOk result (λ made. found_at (types_of types.now) made ≡ operation (type_at (types_of types.now) of) name) }
    ensures within { IfOk result (IsBelow (length types.now)) }
{
    match found {
        Some(builtin) => {
            let made = in_whole(alloc, types, builtin, part, of)?;
            Ok(Some(made))
        }
        None => Ok(None),
    }
}

/// The operation of this name of a built-in type, where components ascend.
fn operation_of(
    alloc: Global,
    types: &mut TypeArena,
    of: TypeId,
    name: &Bytes,
) -> Result<Option<Builtin>, Memory>
    requires { of.0 < length types.old }
    ensures found { ComponentsAscend (type_at (types_of types.old) of) → IfOk result (λ found. found_at (types_of types.new) found ≡ operation (type_at (types_of types.old) of) name.now) }
    ensures within { IfOk result (IsBelow (length types.new)) }
    ensures kept { Grows types.old types.new }
{
    let part = narrowed(alloc, types, of, name)?;
    let found = heading(alloc, types, part, name)?;
    found_in_whole(alloc, types, found, part, of)
}

/// None if the type is not of the arena.
fn operation_within(
    alloc: Global,
    types: &mut TypeArena,
    of: TypeId,
    name: &Bytes,
) -> Result<Option<Builtin>, Memory>
    ensures found { of.0 < length types.old → ComponentsAscend (type_at (types_of types.old) of) → IfOk result (λ found. found_at (types_of types.new) found ≡ operation (type_at (types_of types.old) of) name.now) }
    ensures within { IfOk result (IsBelow (length types.new)) }
    ensures kept { Grows types.old types.new }
{
    if types.contains(of) {
        operation_of(alloc, types, of, name)
    } else {
        Ok(None)
    }
}

/// The same by the number of a name; None if there is no such name.
fn operation_named(
    alloc: Global,
    types: &mut TypeArena,
    words: &Words,
    of: TypeId,
    name: NameId,
) -> Result<Option<Builtin>, Memory>
    ensures found { of.0 < length types.old → ComponentsAscend (type_at (types_of types.old) of) → IfOk result (λ found. found_at (types_of types.new) found ≡ operation_if (type_at (types_of types.old) of) (slice_get words.now name.0)) }
    ensures within { IfOk result (IsBelow (length types.new)) }
    ensures kept { Grows types.old types.new }
{
    match words.name(name) {
        Some(text) => operation_within(alloc, types, of, text),
        None => Ok(None),
    }
}

// ---- what was found

fn routine_term(iter: bool, heading: Heading) -> Term
    ensures { result ≡ routine_term iter heading }
{
    if iter {
        Term::Iter(heading)
    } else {
        Term::Proc(heading)
    }
}

/// Appends what a built-in operation needs.
fn push_needs(
    alloc: Global,
    words: &mut Words,
    asked: &mut Vec<Asked>,
    needs: &[Need],
) -> Result<(), Memory>
    ensures { OnOk result (asks_of words.new asked.new.items ≡ with_needs needs.now (asks_of words.old asked.old.items)) }
{
    for need in needs {
        push_asked(alloc, words, asked, need.of, &need.op, need.wanted, false)?;
    }
    Ok(())
}

/// Keeps a built-in operation.
fn keep(
    alloc: Global,
    types: &mut TypeArena,
    finding: &mut Finding,
    builtin: Builtin,
) -> Result<FoundId, Memory>
    requires { IsBelow (length types.old) (Some builtin) }
    ensures found { IfOk result (λ id. Finds (length types.old) types.new finding.old finding.new (Some (builtin_told (operation_at (types_of types.old) builtin))) (Some id)) }
    ensures shown { OnOk result (finding.new.shown ≡ finding.old.shown) }
    ensures kept { Grows types.old types.new }
{
    let Builtin {
        iter,
        heading,
        needs,
    } = builtin;
    let of = types.intern(routine_term(iter, heading))?;
    let from = finding.asked_count();
    push_needs(
        alloc,
        &mut finding.words,
        &mut finding.asked,
        needs.as_slice(),
    )?;
    finding.keep(Some(of), from)
}

fn keep_found(
    alloc: Global,
    types: &mut TypeArena,
    finding: &mut Finding,
    found: Option<Builtin>,
) -> Result<Option<FoundId>, Memory>
    requires { IsBelow (length types.old) found }
    ensures found { IfOk result (Finds (length types.old) types.new finding.old finding.new (option_map builtin_told (found_at (types_of types.old) found))) }
    ensures shown { OnOk result (finding.new.shown ≡ finding.old.shown) }
    ensures kept { Grows types.old types.new }
{
    match found {
        Some(builtin) => {
            let id = keep(alloc, types, finding, builtin)?;
            Ok(Some(id))
        }
        None => Ok(None),
    }
}

/// The operation of this name of a built-in type, of which the components ascend.
pub fn builtin_found(
    alloc: Global,
    types: &mut TypeArena,
    finding: &mut Finding,
    of: TypeId,
    name: NameId,
) -> Result<Option<FoundId>, Memory>
    ensures found { of.0 < length types.old → ComponentsAscend (type_at (types_of types.old) of) → IfOk result (Finds (length types.old) types.new finding.old finding.new (option_map builtin_told (operation_if (type_at (types_of types.old) of) (slice_get finding.old.words name.0)))) }
    ensures stays { IfOk result (λ found. Finds (length types.old) types.new finding.old finding.new (option_map (told (types_of types.new) finding.new) found) found) }
    ensures shown { OnOk result (finding.new.shown ≡ finding.old.shown) }
    ensures kept { Grows types.old types.new }
{
    let found = operation_named(alloc, types, &finding.words, of, name)?;
    let id = keep_found(alloc, types, finding, found)?;
    Ok(id)
}
