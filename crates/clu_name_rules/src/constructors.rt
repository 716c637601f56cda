//! The rule on selectors and constructors, V17 Selectors.

ghost use Rattle.std.specs.Prelude.{◌≡◌, ℕ, IfNone, IfSome, IsTrue, None, Some, slice_get};
ghost use Rattle.std.specs.List.{list_all};
ghost use Rattle.clu_syntax.specs.Items.{Item};
ghost use Rattle.clu_syntax.specs.Kinds.{kind_at};
ghost use Rattle.clu_syntax.specs.Views.{expression_told};
ghost use Rattle.clu_settle.specs.Names.{names_of};
ghost use Rattle.clu_head.specs.Refused.{is_set};
ghost use Rattle.clu_bindings.specs.Readers.{kind_in, children_in};
ghost use Rattle.clu_name_rules.specs.Components.{AreAscending, components_of, fields_of, leaves_some};
ghost use Rattle.clu_name_rules.specs.Constructors.{ValuesAscend, is_selector, has_low, has_low_at, term_at, are_selectors, are_others, has_other_selectors, has_no_elements, is_of_other, is_of_other_if, has_no_constructor, v17};

use crate::components::{are_selectors, components_of, element_of, is_array};
use crate::tables::{Tables, is_repeated};
use clu_bindings::{File, is_object_wanted, type_of_value};
use clu_syntax::Expression;
use clu_tree::NodeKind;
use clu_types::{Field, Term};

/// The term of the type at the node n, if it is known.
pub fn term_at<'a>(t: &Tables<'a>, n: u32) -> Option<&'a Term>
    ensures some { IfSome result (λ its. term_at t.now n ≡ Some its.now) }
    ensures none { IfNone result (term_at t.now n ≡ None) }
{
    let of = type_of_value(t.file.value(n))?;
    if (of.0 as usize) < t.types.len() {
        Some(t.types.view(of))
    } else {
        None
    }
}

/// Whether all names of the components are selectors of the type.
fn are_components(f: File<'_>, fields: &[Field], mut components: &[u32]) -> bool
    ensures { AreAscending fields.now → result ≡ list_all (are_selectors f.entry.syntax.now fields.now) components.entry.now }
{
    while let [c, rest @ ..] = components {
        if !are_selectors(fields, f.names(*c)) {
            return false;
        }
        components = rest;
    }
    true
}

/// Whether of so many some are left, where each name of the components takes one.
fn leaves_some(f: File<'_>, mut components: &[u32], many: usize) -> bool
    ensures { result ≡ leaves_some (λ c. names_of (slice_get f.entry.syntax.now c)) many components.entry.now }
{
    let mut left = many;
    while let [c, rest @ ..] = components {
        left = left.saturating_sub(f.names(*c).len());
        components = rest;
    }
    left > 0
}

/// Whether the components have not exactly the selectors of a type. One that stands twice is refused at its own node before; so
/// names that are all selectors are all of them if none is left.
fn are_others(f: File<'_>, fields: &[Field], components: &[u32]) -> bool
    ensures { AreAscending fields.now → result ≡ are_others f.entry.syntax.now fields.now components.now }
{
    !are_components(f, fields, components) || leaves_some(f, components, fields.len())
}

fn has_other_selectors(f: File<'_>, term: &Term, components: &[u32]) -> bool
    ensures { AreAscending (fields_of term.now) → result ≡ has_other_selectors f.entry.syntax.now (components_of term.now) components.now }
{
    match components_of(term) {
        Some(fields) => are_others(f, fields, components),
        None => true,
    }
}

fn has_low(expression: Expression<'_>) -> bool
    ensures { (items : ℕ → Item) (n : ℕ) → result ≡ has_low (expression_told items n expression.entry) }
{
    match expression {
        Expression::ElementsFrom { .. } => true,
        _ => false,
    }
}

/// Whether the node n makes an array or sequence from a low bound on.
pub fn has_low_at(f: File<'_>, n: u32) -> bool
    ensures { (items : ℕ → Item) → result ≡ has_low_at items f.entry.syntax.now n }
{
    match f.expression(n) {
        Some(expression) => has_low(expression),
        None => false,
    }
}

fn has_no_elements(with_low: bool, term: &Term) -> bool
    ensures { result ≡ has_no_elements with_low term.now }
{
    if with_low {
        !is_array(term)
    } else {
        element_of(term).is_none()
    }
}

/// Whether the constructor n, of these parts, isn't one of its type.
fn is_of_other(t: &Tables<'_>, n: u32, term: &Term, parts: &[u32]) -> bool
    ensures { (items : ℕ → Item) → AreAscending (fields_of term.now) → result ≡ is_of_other t.now items (kind_in t.now.file n) n term.now parts.now }
{
    match t.file.kind(n) {
        NodeKind::Fields => has_other_selectors(t.file, term, parts),
        NodeKind::Elems => has_no_elements(has_low_at(t.file, n), term),
        _ => false,
    }
}

/// The same of the type at its node; of one that is lost nothing is asked.
fn is_of_other_at(t: &Tables<'_>, n: u32, of: u32, parts: &[u32]) -> bool
    ensures { (items : ℕ → Item) → ValuesAscend t.now → result ≡ is_of_other_if t.now items (kind_in t.now.file n) n (term_at t.now of) parts.now }
{
    match term_at(t, of) {
        Some(term) => is_of_other(t, n, term, parts),
        None => false,
    }
}

/// The type stands first.
fn has_no_constructor(t: &Tables<'_>, n: u32) -> bool
    ensures { (items : ℕ → Item) → ValuesAscend t.now → result ≡ has_no_constructor t.now items (kind_in t.now.file n) n (children_in t.now.file n) }
{
    match t.file.children(n) {
        [of, parts @ ..] => is_of_other_at(t, n, *of, parts),
        [] => false,
    }
}

/// V17: a selector stands twice in a type or constructor, the constructor has not exactly the selectors of its type, or its type
/// has no such constructor (CLU Reference Manual, section 10.8). In `record[a, b: int]${a: 1}` at `record`.
pub fn v17(t: &Tables<'_>, n: u32) -> bool
    ensures selectors { IsTrue (is_selector (kind_at t.now.file.syntax.now n)) → result ≡ is_set (slice_get t.now.items.now.repeated.items n) }
    ensures exact { (items : ℕ → Item) → ValuesAscend t.now → result ≡ v17 t.now items n }
{
    match t.file.kind(n) {
        NodeKind::FieldT | NodeKind::FieldE => is_repeated(t, n),
        NodeKind::Fields | NodeKind::Elems => {
            is_object_wanted(t.file.wanted(n)) && has_no_constructor(t, n)
        }
        _ => false,
    }
}
