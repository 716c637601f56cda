//! What V13 ArgumentType asks of constructors.

ghost use Rattle.std.specs.Prelude.{◌≡◌, ℕ, IfNone, IfSome, None, Some, true};
ghost use Rattle.std.specs.List.{list_all};
ghost use Rattle.clu_syntax.specs.Items.{Item};
ghost use Rattle.clu_settle.specs.Names.{names_of};
ghost use Rattle.clu_name_rules.specs.Components.{AreAscending, component_type};
ghost use Rattle.clu_name_rules.specs.Constructors.{ValuesAscend};
ghost use Rattle.clu_type_rules.specs.Included.{may_be};
ghost use Rattle.clu_type_rules.specs.Known.{nodes, children, first_type, kind_in, term_at};
ghost use Rattle.clu_type_rules.specs.Constructors.{is_other_than_int, components_at, element_at, component_fits, some_component_misfits, element_fits, some_element_misfits, parts_misfit, has_misfit, is_misfit};

use crate::known::{Known, first_type, may_be, term};
use clu_base::Bytes;
use clu_bindings::is_object_wanted;
use clu_name_rules::{component_type, element_of, has_low_at, term_at};
use clu_tree::NodeKind;
use clu_types::{Field, Term, TypeId};

/// Whether an object of this type may be each of the components of these names.
fn fits_names(k: &Known<'_>, fields: &[Field], mut names: &[Bytes], given: Option<TypeId>) -> bool
    ensures { AreAscending fields.now → result ≡ list_all (λ name. may_be k.now.tables.types.now given (component_type fields.now name)) names.entry.now }
{
    while let [name, rest @ ..] = names {
        if !may_be(
            k.tables.types,
            given,
            component_type(fields, name.as_slice()),
        ) {
            return false;
        }
        names = rest;
    }
    true
}

/// Whether the value of the FieldE c may be each of the components that it names.
fn component_fits(k: &Known<'_>, fields: &[Field], c: u32) -> bool
    ensures { AreAscending fields.now → result ≡ component_fits k.now fields.now c }
{
    let f = k.tables.file;
    fits_names(k, fields, f.names(c), first_type(k, f.children(c)))
}

fn components_fit(k: &Known<'_>, fields: &[Field], mut components: &[u32]) -> bool
    ensures { AreAscending fields.now → result ≡ list_all (component_fits k.now fields.now) components.entry.now }
{
    while let [c, rest @ ..] = components {
        if !component_fits(k, fields, *c) {
            return false;
        }
        components = rest;
    }
    true
}

fn elements_fit(k: &Known<'_>, of: Option<TypeId>, mut elements: &[u32]) -> bool
    ensures { result ≡ list_all (element_fits k.now of) elements.entry.now }
{
    while let [e, rest @ ..] = elements {
        if !may_be(k.tables.types, k.facts.type_of(*e), of) {
            return false;
        }
        elements = rest;
    }
    true
}

/// The components of the type at the node n.
fn components_at<'a>(k: &Known<'a>, n: u32) -> Option<&'a [Field]>
    ensures some { IfSome result (λ fields. components_at k.now n ≡ Some fields.now) }
    ensures none { IfNone result (components_at k.now n ≡ None) }
{
    match term_at(&k.tables, n) {
        Some(Term::Record(fields) | Term::Struct(fields)) => Some(fields.as_slice()),
        _ => None,
    }
}

/// The type of the elements of the type at the node n.
fn element_at(k: &Known<'_>, n: u32) -> Option<TypeId>
    ensures { result ≡ element_at k.now n }
{
    match term_at(&k.tables, n) {
        Some(term) => element_of(term),
        None => None,
    }
}

/// Whether the type of the node e is known and not int.
fn is_other_than_int(k: &Known<'_>, e: u32) -> bool
    ensures { result ≡ is_other_than_int (term_at k.now e) }
{
    match term(k, k.facts.type_of(e)) {
        Some(Term::Int) | None => false,
        Some(_) => true,
    }
}

fn some_component_misfits(k: &Known<'_>, of: u32, components: &[u32]) -> bool
    ensures { ValuesAscend k.now.tables → result ≡ some_component_misfits k.now (components_at k.now of) components.now }
{
    match components_at(k, of) {
        Some(fields) => !components_fit(k, fields, components),
        None => false,
    }
}

/// The low bound stands before the elements.
fn low_or_element_misfits(k: &Known<'_>, of: Option<TypeId>, parts: &[u32]) -> bool
    ensures { result ≡ some_element_misfits k.now true of parts.now }
{
    match parts {
        [low, elements @ ..] => is_other_than_int(k, *low) || !elements_fit(k, of, elements),
        [] => false,
    }
}

fn some_element_misfits(k: &Known<'_>, with_low: bool, of: Option<TypeId>, parts: &[u32]) -> bool
    ensures { result ≡ some_element_misfits k.now with_low of parts.now }
{
    if with_low {
        low_or_element_misfits(k, of, parts)
    } else {
        !elements_fit(k, of, parts)
    }
}

/// Whether the parts of the constructor n don't fit the type at the node `of`.
fn parts_misfit(k: &Known<'_>, n: u32, of: u32, parts: &[u32]) -> bool
    ensures { (items : ℕ → Item) → ValuesAscend k.now.tables → result ≡ parts_misfit k.now items (kind_in k.now n) n of parts.now }
{
    let f = k.tables.file;
    match f.kind(n) {
        NodeKind::Fields => some_component_misfits(k, of, parts),
        NodeKind::Elems => some_element_misfits(k, has_low_at(f, n), element_at(k, of), parts),
        _ => false,
    }
}

/// The type stands first.
fn has_misfit(k: &Known<'_>, n: u32) -> bool
    ensures { (items : ℕ → Item) → ValuesAscend k.now.tables → result ≡ has_misfit k.now items (kind_in k.now n) n (children k.now n) }
{
    match k.tables.file.children(n) {
        [of, parts @ ..] => parts_misfit(k, n, *of, parts),
        [] => false,
    }
}

/// Whether a component or element of the constructor n isn't included in its type, or the low bound isn't an int.
pub fn is_misfit(k: &Known<'_>, n: u32) -> bool
    ensures { (items : ℕ → Item) → ValuesAscend k.now.tables → result ≡ is_misfit k.now items n }
{
    is_object_wanted(k.tables.file.wanted(n)) && has_misfit(k, n)
}
