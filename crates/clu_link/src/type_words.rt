//! The numbers by which a running program tells types apart.

ghost use Rattle.std.specs.Prelude.{◌≡◌, ◌<◌, length, slice_get, Some};
ghost use Rattle.clu_types.specs.declared.term.Term.{Term};
ghost use Rattle.clu_link.specs.Numbers.{even_number, type_number};

use clu_types::{Term, TypeArena, TypeId};

/// The number of a type in a program: 0 for any, odd for the types of routines, whose objects know their own type, and
/// even for all others. Types have different numbers.
pub fn type_word(types: &TypeArena, of: TypeId) -> u64
    ensures { (t : Term) → of.0 < length types.now → slice_get types.now of.0 ≡ Some t → result ≡ type_number t of.0 }
{
    if types.contains(of) {
        number_of(types.view(of), of.0)
    } else {
        even_number(of.0)
    }
}

/// The number of the type at this place.
fn number_of(term: &Term, place: u64) -> u64
    ensures { result ≡ type_number term.now place }
{
    match term {
        Term::Any => 0,
        Term::Proc(_) | Term::Iter(_) => even_number(place).saturating_add(1),
        _ => even_number(place),
    }
}

fn even_number(place: u64) -> u64
    ensures { result ≡ even_number place }
{
    place.saturating_add(1).saturating_mul(2)
}
