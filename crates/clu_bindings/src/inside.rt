//! Types as the bodies of a cluster's routines see them, and as callers do.

ghost use Rattle.std.specs.Prelude.{◌≡◌, ℕ};
ghost use Rattle.clu_syntax.specs.Items.{Item};
ghost use Rattle.clu_syntax.specs.Views.{type_told};
ghost use Rattle.clu_settle.specs.Lists.{type_id};
ghost use Rattle.clu_bindings.specs.Inside.{is_cvt_word, is_cvt_type, is_cvt, own_type, rep_type, is_refused_rep, representation, type_inside, type_outside, known_inside};

use crate::file::{File, Headed};
use crate::meaning::Meaning;
use crate::tables::optional_at;
use clu_settle::Value;
use clu_syntax::{SimpleType, TypeExpression};
use clu_types::TypeId;

fn is_cvt_word(word: SimpleType) -> bool
    ensures { result ≡ is_cvt_word word }
{
    match word {
        SimpleType::Cvt => true,
        _ => false,
    }
}

fn is_cvt_type(of: TypeExpression<'_>) -> bool
    ensures { (items : ℕ → Item) (n : ℕ) → result ≡ is_cvt_type (type_told items n of.entry) }
{
    match of {
        TypeExpression::Simple(word) => is_cvt_word(word),
        _ => false,
    }
}

/// Whether the word `cvt` stands at the node n.
fn is_cvt(file: File<'_>, n: u32) -> bool
    ensures { (items : ℕ → Item) → result ≡ is_cvt items file.entry.syntax.now n }
{
    match file.type_expression(n) {
        Some(of) => is_cvt_type(of),
        None => false,
    }
}

/// The type that a value is.
pub fn type_of_value(value: Value) -> Option<TypeId>
    ensures { result ≡ type_id value }
{
    match value {
        Value::Type(id) => Some(id),
        _ => None,
    }
}

/// The type of the cluster round the node n, with its own parameters.
pub fn own_type(file: File<'_>, n: u32) -> Option<TypeId>
    ensures { result ≡ own_type file.entry n }
{
    match file.round(n).cluster {
        Some(cluster) => optional_at(file.bindings.own.as_slice(), cluster as usize),
        None => None,
    }
}

/// The type for which the word `rep` stands at the node n.
fn rep_type(file: File<'_>, n: u32) -> Option<TypeId>
    ensures { result ≡ rep_type file.entry n }
{
    match file.declares(file.rep(n)?)? {
        Meaning::Equate(right) => type_of_value(file.value(right)),
        _ => None,
    }
}

/// Whether what `rep` is equated to at the node n is refused.
fn is_refused_rep(headed: Headed<'_>, n: u32) -> bool
    ensures { result ≡ is_refused_rep headed.entry n }
{
    match headed.file.declaring_node(headed.file.rep(n)) {
        Some(node) => headed.is_refused(node),
        None => false,
    }
}

/// The representation of the cluster round the node n, unless it is refused where it stands.
pub fn representation(headed: Headed<'_>, n: u32) -> Option<TypeId>
    ensures { result ≡ representation headed.entry n }
{
    if is_refused_rep(headed, n) {
        None
    } else {
        rep_type(headed.file, n)
    }
}

/// The type at the node t, of a variable, a result or a signal, as the body in which the node n stands sees it. A cluster
/// without `rep` has no other type than its own for its bodies.
pub fn type_inside(file: File<'_>, n: u32, t: u32) -> Option<TypeId>
    ensures { (items : ℕ → Item) → result ≡ type_inside file.entry items n t }
{
    let own = own_type(file, n);
    if !is_cvt(file, t) {
        type_of_value(file.value(t))
    } else if own.is_some() && file.rep(n).is_none() {
        own
    } else {
        rep_type(file, t)
    }
}

/// The same as callers see it.
pub fn type_outside(file: File<'_>, n: u32, t: u32) -> Option<TypeId>
    ensures { (items : ℕ → Item) → result ≡ type_outside file.entry items n t }
{
    if is_cvt(file, t) {
        own_type(file, n)
    } else {
        type_of_value(file.value(t))
    }
}

/// The type of a variable by its name, unless it is refused where it is declared.
pub fn known_inside(headed: Headed<'_>, n: u32, t: u32) -> Option<TypeId>
    ensures { (items : ℕ → Item) → result ≡ known_inside headed.entry items n t }
{
    if headed.is_refused(t) || (is_cvt(headed.file, t) && is_refused_rep(headed, n)) {
        None
    } else {
        type_inside(headed.file, n, t)
    }
}
