//! The arena of types. A type is a term whose parts are numbers of earlier terms, and a term that was
//! interned before is found again by its hash.

ghost use Rattle.std.specs.Prelude.{◌≡◌, ◌↔◌, ◌<◌, ◌⊎◌, [], ◌∷◌, ◌++◌, length, slice_get, IfOk, OnOk, IsTrue, Some};
ghost use Rattle.clu_types.specs.Arena.{type_at, type_of, types_of, IsArena, AreBelow, FieldsBelow, SignalsBelow, ActualBelow, ActualsBelow, HeadingBelow, PartsBelow, Grows};

use crate::interned::Interned;
use crate::term::{Actual, Exception, Field, Heading, Term, TypeId};
use clu_base::Memory;
use std::alloc::Global;
use std::marker::Model;

/// Types by number. Equal numbers are equal types, and equal types have one number.
#[derive(Drop)]
pub struct TypeArena {
    pub(crate) terms: Interned,
}

impl Model for TypeArena {
    ghost use Rattle.std.specs.Prelude.{List};
    ghost use Rattle.clu_types.specs.declared.term.Term.{Term};
    ghost use Rattle.clu_types.specs.Arena.{IsArena};

    ghost Value = { List Term };

    ghost view = { λ a. a.terms };

    ghost invariant = { λ a. IsArena a.terms };
}

impl TypeArena {
    /// An arena with no types.
    pub fn new(alloc: Global) -> TypeArena
        ensures { result ≡ [] }
    {
        TypeArena {
            terms: Interned::new(alloc),
        }
    }

    /// The number of the type that a term denotes. Numbers that were given keep their type, also when memory runs out.
    pub fn intern(&mut self, term: Term) -> Result<TypeId, Memory>
        requires { PartsBelow (length self.old) term }
        ensures of_type { IfOk result (λ id. type_at (types_of self.new) id ≡ type_of (types_of self.old) term) }
        ensures found { IfOk result (λ id. slice_get self.new id.0 ≡ Some term) }
        ensures within { IfOk result (λ id. id.0 < length self.new) }
        ensures kept { Grows self.old self.new }
        ensures nothing_else { OnOk result ((self.new ≡ self.old) ⊎ (self.new ≡ self.old ++ term ∷ [])) }
    {
        let number = self.terms.number(term)?;
        Ok(TypeId(number as u64))
    }

    /// The term of a type.
    pub fn view(&self, id: TypeId) -> &Term
        requires { id.0 < length self.now }
        ensures term { slice_get self.now id.0 ≡ Some result.now }
        ensures parts { PartsBelow id.0 result.now }
        ensures of_type { type_at (types_of self.now) id ≡ type_of (types_of self.now) result.now }
    {
        &self.terms.as_slice()[id.0 as usize]
    }

    /// Whether two types are equal.
    pub fn equal(&self, a: TypeId, b: TypeId) -> bool
        requires a_in { a.0 < length self.now }
        requires b_in { b.0 < length self.now }
        ensures { IsTrue result ↔ (type_at (types_of self.now) a ≡ type_at (types_of self.now) b) }
    {
        let _opened = &self.terms;
        a == b
    }

    /// Whether a number is one of this arena.
    pub fn contains(&self, id: TypeId) -> bool
        ensures { IsTrue result ↔ (id.0 < length self.now) }
    {
        (id.0 as usize) < self.terms.len()
    }

    /// How many types there are.
    pub fn len(&self) -> usize
        ensures { result ≡ length self.now }
    {
        self.terms.len()
    }

    /// Does nothing: its contract says what holds of each arena, for callers that tell it on.
    pub fn sound(&self)
        ensures { IsArena self.now }
    {
        let _opened = &self.terms;
    }

    /// Whether the types among actuals are numbers of this arena.
    pub fn holds_actuals(&self, actuals: &[Actual]) -> bool
        ensures { IsTrue result ↔ ActualsBelow (length self.now) actuals.now }
    {
        actuals_below(actuals, self.terms.len() as u64)
    }

    /// Whether the parts of a term are numbers of this arena.
    pub fn holds(&self, term: &Term) -> bool
        ensures { IsTrue result ↔ PartsBelow (length self.now) term.now }
    {
        parts_below(term, self.terms.len() as u64)
    }
}

fn ids_below(ids: &[TypeId], n: u64) -> bool
    ensures { IsTrue result ↔ AreBelow n ids.now }
{
    for id in ids {
        if id.0 >= n {
            return false;
        }
    }
    true
}

fn fields_below(fields: &[Field], n: u64) -> bool
    ensures { IsTrue result ↔ FieldsBelow n fields.now }
{
    for field in fields {
        if field.of.0 >= n {
            return false;
        }
    }
    true
}

fn signals_below(signals: &[Exception], n: u64) -> bool
    ensures { IsTrue result ↔ SignalsBelow n signals.now }
{
    for signal in signals {
        if !ids_below(signal.objects.as_slice(), n) {
            return false;
        }
    }
    true
}

fn heading_below(heading: &Heading, n: u64) -> bool
    ensures { IsTrue result ↔ HeadingBelow n heading.now }
{
    ids_below(heading.args.as_slice(), n)
        && ids_below(heading.results.as_slice(), n)
        && signals_below(heading.signals.as_slice(), n)
}

fn actual_below(actual: &Actual, n: u64) -> bool
    ensures { IsTrue result ↔ ActualBelow n actual.now }
{
    match actual {
        Actual::Of(id) => id.0 < n,
        Actual::Const(_) | Actual::ConstParam(_) => true,
    }
}

fn actuals_below(actuals: &[Actual], n: u64) -> bool
    ensures { IsTrue result ↔ ActualsBelow n actuals.now }
{
    for actual in actuals {
        if !actual_below(actual, n) {
            return false;
        }
    }
    true
}

/// Whether the parts of a term are below a number.
fn parts_below(term: &Term, n: u64) -> bool
    ensures { IsTrue result ↔ PartsBelow n term.now }
{
    match term {
        Term::Array(of) | Term::Sequence(of) => of.0 < n,
        Term::Record(fields) | Term::Struct(fields) | Term::Oneof(fields) | Term::Variant(fields) =>
            { fields_below(fields.as_slice(), n) }
        Term::Proc(heading) | Term::Iter(heading) => heading_below(heading, n),
        Term::Cluster(_, actuals) => actuals_below(actuals.as_slice(), n),
        Term::Null
        | Term::Bool
        | Term::Int
        | Term::Char
        | Term::Str
        | Term::Any
        | Term::Stream
        | Term::Param(_) => true,
    }
}
