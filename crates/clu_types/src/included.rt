//! Inclusion of types: which objects may stand where a type is wanted.

ghost use Rattle.std.specs.Prelude.{◌≡◌, ◌↔◌, ◌<◌, length, IsTrue, MatchOption};
ghost use Rattle.clu_types.specs.Arena.{type_at, types_of};
ghost use Rattle.clu_types.specs.Included.{Included, IsNarrower};
ghost use Rattle.clu_types.specs.Narrower.{HasException, AreExceptionsOf, AreAmongThese, IsNarrowerHeading};

use crate::TypeArena;
use crate::term::{Exception, Heading, Term, TypeId};
use clu_base::Sequence;

impl TypeArena {
    /// Whether an object of type `a` may stand where type `b` is wanted: the types are equal, or `b` is any,
    /// or both are routine types that differ only in that `b` has more exceptions.
    pub fn included(&self, a: TypeId, b: TypeId) -> bool
        requires a_in { a.0 < length self.now }
        requires b_in { b.0 < length self.now }
        ensures { IsTrue result ↔ Included (type_at (types_of self.now) a) (type_at (types_of self.now) b) }
    {
        self.equal(a, b) || self.is_narrower(a, b)
    }

    fn is_narrower(&self, a: TypeId, b: TypeId) -> bool
        requires a_in { a.0 < length self.now }
        requires b_in { b.0 < length self.now }
        ensures { IsTrue result ↔ IsNarrower (type_at (types_of self.now) a) (type_at (types_of self.now) b) }
    {
        let _opened = &self.terms;
        match self.view(b) {
            Term::Any => true,
            Term::Proc(wide) => match self.view(a) {
                Term::Proc(narrow) => is_narrower_heading(narrow, wide),
                _ => false,
            },
            Term::Iter(wide) => match self.view(a) {
                Term::Iter(narrow) => is_narrower_heading(narrow, wide),
                _ => false,
            },
            _ => false,
        }
    }
}

fn is_narrower_heading(narrow: &Heading, wide: &Heading) -> bool
    ensures { IsTrue result ↔ IsNarrowerHeading narrow.now wide.now }
{
    are_same(&narrow.args, &wide.args)
        && are_same(&narrow.results, &wide.results)
        && are_exceptions_of(narrow.signals.as_slice(), wide.signals.as_slice())
}

/// Each search goes on from the exception that was found last, so lists that ascend by name are walked once.
fn are_exceptions_of(few: &[Exception], many: &[Exception]) -> bool
    ensures { IsTrue result ↔ AreExceptionsOf few.now many.now }
{
    let mut left = many;
    for wanted in few {
        match after_wanted(left, many, wanted) {
            Some(rest) => left = rest,
            None => return false,
        }
    }
    true
}

/// What comes after the wanted exception among those that are left, or else among all.
fn after_wanted<'a>(
    left: &'a [Exception],
    many: &'a [Exception],
    wanted: &Exception,
) -> Option<&'a [Exception]>
    requires { AreAmongThese left.now many.now }
    ensures { MatchOption result (HasException wanted.now many.now → ⊥) (λ rest. HasException wanted.now many.now × AreAmongThese rest.now many.now) }
{
    match after(left, wanted) {
        Some(rest) => Some(rest),
        None => after(many, wanted),
    }
}

/// What comes after the wanted exception.
fn after<'a>(mut many: &'a [Exception], wanted: &Exception) -> Option<&'a [Exception]>
    ensures { MatchOption result (HasException wanted.now many.entry.now → ⊥) (λ rest. HasException wanted.now many.entry.now × AreAmongThese rest.now many.entry.now) }
{
    while let [first, rest @ ..] = many {
        if is_same(first, wanted) {
            return Some(rest);
        }
        many = rest;
    }
    None
}

fn is_same(a: &Exception, b: &Exception) -> bool
    ensures { IsTrue result ↔ (a.now ≡ b.now) }
{
    a == b
}

fn are_same(a: &Sequence<TypeId>, b: &Sequence<TypeId>) -> bool
    ensures { IsTrue result ↔ (a.now ≡ b.now) }
{
    a == b
}
