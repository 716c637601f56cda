//! The kinds of actual parameters.

ghost use Rattle.std.specs.Prelude.{◌≡◌, ◌↔◌, IsTrue, Some};
ghost use Rattle.std.specs.Option.{option_copied};
ghost use Rattle.clu_demands.specs.Kinds.{kind_of_value, kind_at, kind_of, AreOfKinds, MayBe, MayBeAll};

use clu_base::Const;
use clu_types::{Actual, ParamKind};

/// The kind of a constant.
pub fn kind_of_value(value: &Const) -> ParamKind
    ensures { result ≡ kind_of_value value.now }
{
    match value {
        Const::Null => ParamKind::Null,
        Const::Bool(_) => ParamKind::Bool,
        Const::Int(_) => ParamKind::Int,
        Const::Char(_) => ParamKind::Char,
        Const::Str(_) => ParamKind::Str,
    }
}

/// The kind of an actual parameter in a module with parameters of the kinds `own`.
pub fn kind_of(own: &[ParamKind], actual: &Actual) -> Option<ParamKind>
    ensures { result ≡ kind_of own.now actual.now }
{
    match actual {
        Actual::Of(_) => Some(ParamKind::OfType),
        Actual::Const(value) => Some(kind_of_value(value)),
        Actual::ConstParam(number) => kind_at(own, *number),
    }
}

/// The kind of the parameter of a number, from 1.
fn kind_at(own: &[ParamKind], number: u32) -> Option<ParamKind>
    ensures { result ≡ kind_at own.now number }
{
    match nth_kind(own, number) {
        Some(kind) => Some(*kind),
        None => None,
    }
}

fn nth_kind(own: &[ParamKind], number: u32) -> Option<&ParamKind>
    ensures { option_copied result ≡ kind_at own.now number }
{
    if number == 0 {
        return None;
    }
    own.get(number as usize - 1)
}

/// Whether actual parameters in a module with parameters of the kinds `own` are of these kinds.
pub fn are_of_kinds(own: &[ParamKind], actuals: &[Actual], kinds: &[ParamKind]) -> bool
    ensures { IsTrue result ↔ AreOfKinds own.now actuals.now kinds.now }
{
    match actuals {
        [] => match kinds {
            [] => true,
            [_, ..] => false,
        },
        [actual, others @ ..] => match kinds {
            [] => false,
            [kind, more @ ..] => {
                is_of_kind(own, actual, *kind) && are_of_kinds(own, others, more)
            }
        },
    }
}

fn is_of_kind(own: &[ParamKind], actual: &Actual, kind: ParamKind) -> bool
    ensures { IsTrue result ↔ (kind_of own.now actual.now ≡ Some kind) }
{
    match kind_of(own, actual) {
        Some(found) => is_same(found, kind),
        None => false,
    }
}

fn is_same(a: ParamKind, b: ParamKind) -> bool
    ensures { IsTrue result ↔ (a ≡ b) }
{
    a == b
}

/// Whether actual parameters may be of these kinds, whatever module they stand in.
pub fn may_be_of(actuals: &[Actual], kinds: &[ParamKind]) -> bool
    ensures { IsTrue result ↔ MayBeAll actuals.now kinds.now }
{
    match actuals {
        [] => match kinds {
            [] => true,
            [_, ..] => false,
        },
        [actual, others @ ..] => match kinds {
            [] => false,
            [kind, more @ ..] => may_be(actual, *kind) && may_be_of(others, more),
        },
    }
}

/// Whether an actual parameter may be of this kind. Of a constant parameter it is only known that it is no type.
fn may_be(actual: &Actual, kind: ParamKind) -> bool
    ensures { IsTrue result ↔ MayBe actual.now kind }
{
    match actual {
        Actual::Of(_) => is_same(kind, ParamKind::OfType),
        Actual::Const(value) => is_same(kind, kind_of_value(value)),
        Actual::ConstParam(_) => !is_same(kind, ParamKind::OfType),
    }
}
