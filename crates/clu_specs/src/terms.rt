//! The terms of types that begin with a word.

ghost use Rattle.std.specs.Prelude.{◌≡◌, ℕ, ◌<◌, List};
ghost use Rattle.clu_types.specs.CluType.{CluType};
ghost use Rattle.clu_types.specs.Arena.{type_at, types_at, fields_at, signals_at, type_of, FieldsBelow, HeadingBelow, PartsBelow};
ghost use Rattle.clu_specs.specs.TypeReading.{simple_type, listing_type, selecting_type, routine_type};

use crate::keywords::{Listing, Selecting, Simple};
use clu_base::Sequence;
use clu_types::{Field, Heading, Term, TypeId};

/// A type of one word.
pub fn simple_term(word: Simple) -> Term
    ensures of_type { (ks : List CluType) → type_of ks result ≡ simple_type word }
    ensures parts { (n : ℕ) → PartsBelow n result }
{
    match word {
        Simple::Null => Term::Null,
        Simple::Bool => Term::Bool,
        Simple::Int => Term::Int,
        Simple::Char => Term::Char,
        Simple::Str => Term::Str,
        Simple::Any => Term::Any,
        Simple::Stream => Term::Stream,
    }
}

/// An array or sequence type.
pub fn listing_term(word: Listing, of: TypeId) -> Term
    ensures of_type { (ks : List CluType) → type_of ks result ≡ listing_type word (type_at ks of) }
    ensures parts { (n : ℕ) → of.0 < n → PartsBelow n result }
{
    match word {
        Listing::Array => Term::Array(of),
        Listing::Sequence => Term::Sequence(of),
    }
}

/// A type with selectors or tags.
pub fn selecting_term(word: Selecting, fields: Sequence<Field>) -> Term
    ensures of_type { (ks : List CluType) → type_of ks result ≡ selecting_type word (fields_at ks fields) }
    ensures parts { (n : ℕ) → FieldsBelow n fields → PartsBelow n result }
{
    match word {
        Selecting::Record => Term::Record(fields),
        Selecting::Struct => Term::Struct(fields),
        Selecting::Oneof => Term::Oneof(fields),
        Selecting::Variant => Term::Variant(fields),
    }
}

/// A proctype, or an itertype where `iter` holds.
pub fn routine_term(iter: bool, heading: Heading) -> Term
    ensures of_type { (ks : List CluType) → type_of ks result ≡ routine_type iter (types_at ks heading.args) (types_at ks heading.results) (signals_at ks heading.signals) }
    ensures parts { (n : ℕ) → HeadingBelow n heading → PartsBelow n result }
{
    if iter {
        Term::Iter(heading)
    } else {
        Term::Proc(heading)
    }
}
