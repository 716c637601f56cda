//! Components and tags of types, found by their names.

ghost use Rattle.std.specs.Prelude.{◌≡◌, IfNone, IfSome, None, Some, false, slice_get, true};
ghost use Rattle.std.specs.List.{list_all};
ghost use Rattle.std.specs.List.Sorted.{IsPartitionPoint};
ghost use Rattle.clu_name_rules.specs.Components.{AreAscending, component_type, components_of, element_of, is_array, is_selector_of, is_below, type_if_named};

use clu_base::Bytes;
use clu_types::{Field, Term, TypeId};

/// The components of a record or struct.
pub fn components_of(term: &Term) -> Option<&[Field]>
    ensures some { IfSome result (λ fields. components_of term.now ≡ Some fields.now) }
    ensures none { IfNone result (components_of term.now ≡ None) }
{
    match term {
        Term::Record(fields) | Term::Struct(fields) => Some(fields.as_slice()),
        _ => None,
    }
}

/// The type of the elements of an array or sequence.
pub fn element_of(term: &Term) -> Option<TypeId>
    ensures { result ≡ element_of term.now }
{
    match term {
        Term::Array(of) | Term::Sequence(of) => Some(*of),
        _ => None,
    }
}

pub fn is_array(term: &Term) -> bool
    ensures { result ≡ is_array term.now }
{
    match term {
        Term::Array(_) => true,
        _ => false,
    }
}

/// Where the first of the fields begins whose name isn't below this one; fields ascend by name.
fn place_of(fields: &[Field], name: &[u8]) -> usize
    ensures { AreAscending fields.now → IsPartitionPoint (λ field. is_below name.now field ≡ true) (λ field. is_below name.now field ≡ false) fields.now result }
{
    fields.partition_point(
        |field: &Field| -> bool
            ensures { result ≡ is_below name.entry.now field.now }
        { field.name.as_slice().cmp(name).is_lt() },
    )
}

/// The type of the field at a place, if it has this name.
fn type_if_named(fields: &[Field], place: usize, name: &[u8]) -> Option<TypeId>
    ensures { result ≡ type_if_named (slice_get fields.now place) name.now }
{
    match fields.get(place) {
        Some(field) => {
            if field.name.as_slice() == name {
                Some(field.of)
            } else {
                None
            }
        }
        None => None,
    }
}

/// The type of the component or tag of this name.
pub fn component_type(fields: &[Field], name: &[u8]) -> Option<TypeId>
    ensures { AreAscending fields.now → result ≡ component_type fields.now name.now }
{
    type_if_named(fields, place_of(fields, name), name)
}

/// Whether each of the names is that of a component or tag.
pub fn are_selectors(fields: &[Field], mut names: &[Bytes]) -> bool
    ensures { AreAscending fields.now → result ≡ list_all (is_selector_of fields.now) names.entry.now }
{
    while let [name, rest @ ..] = names {
        if component_type(fields, name.as_slice()).is_none() {
            return false;
        }
        names = rest;
    }
    true
}
