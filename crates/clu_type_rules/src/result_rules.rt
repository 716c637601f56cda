//! The rule on numbers of results: V14 ResultCount.

ghost use Rattle.std.specs.Prelude.{◌≡◌, ℕ};
ghost use Rattle.clu_syntax.specs.Items.{Item};
ghost use Rattle.clu_bindings.specs.Readers.{kind_in, children_in};
ghost use Rattle.clu_type_rules.specs.ResultRules.{is_one_wanted, means_no_object, names_no_object, is_object_wanted_at, is_no_object_name, is_no_object_index, is_no_object, has_no_one_result, is_not_one_object, has_other_number};

use crate::binding_rules::binds_other_number;
use crate::invocation_rules::{Fault, some_has_fault};
use crate::known::Known;
use clu_bindings::{File, Meaning, Wanted, is_object_wanted, type_of_value};
use clu_syntax::is_type;
use clu_tree::NodeKind;

/// A call statement, the call of a loop and `r.s := e` may have any number of results.
fn is_one_wanted(kind: NodeKind, wanted: Wanted) -> bool
    ensures { result ≡ is_one_wanted kind wanted }
{
    match kind {
        NodeKind::SetField | NodeKind::SetIndex => false,
        _ => match wanted {
            Wanted::Object => true,
            _ => false,
        },
    }
}

/// Whether the first name of the node n means a type, a type set or a cluster. Modules that are no routines are clusters, and
/// `stream` is a type.
fn means_no_object(f: File<'_>, n: u32, meaning: Meaning) -> bool
    ensures { result ≡ means_no_object f.entry n meaning }
{
    match meaning {
        Meaning::Equate(c) => type_of_value(f.value(c)).is_some() || f.set_named(n).is_some(),
        Meaning::TypeSet | Meaning::TypeParameter(_) => true,
        Meaning::Module(module) => !f.is_routine(module),
        _ => false,
    }
}

fn names_no_object(f: File<'_>, n: u32) -> bool
    ensures { result ≡ names_no_object f.entry n }
{
    means_no_object(f, n, f.meaning(n))
}

fn is_object_wanted_at(f: File<'_>, n: Option<u32>) -> bool
    ensures { result ≡ is_object_wanted_at f.entry n }
{
    match n {
        Some(n) => is_object_wanted(f.wanted(n)),
        None => false,
    }
}

/// A type's name, also before an index.
fn is_no_object_name(f: File<'_>, n: u32, wanted: Wanted) -> bool
    ensures { result ≡ is_no_object_name f.entry wanted n }
{
    match wanted {
        Wanted::NameWithActuals => is_object_wanted_at(f, f.parent(n)) && !f.is_of_module(n),
        _ => is_object_wanted(wanted) && names_no_object(f, n),
    }
}

fn is_no_object_index(f: File<'_>, n: u32) -> bool
    ensures { result ≡ is_no_object_index f.entry (children_in f.entry n) }
{
    match f.children(n) {
        [m, ..] => f.takes_actuals(*m) && names_no_object(f, *m),
        [] => false,
    }
}

fn is_no_object(f: File<'_>, n: u32) -> bool
    ensures { result ≡ is_no_object f.entry (kind_in f.entry n) n }
{
    match f.kind(n) {
        NodeKind::Name => is_no_object_name(f, n, f.wanted(n)),
        NodeKind::Index => is_object_wanted(f.wanted(n)) && is_no_object_index(f, n),
        kind => is_type(kind) && is_object_wanted(f.wanted(n)),
    }
}

fn has_no_one_result(k: &Known<'_>, n: u32) -> bool
    ensures { result ≡ has_no_one_result k.now n }
{
    let f = k.tables.file;
    is_one_wanted(f.kind(n), f.wanted(n)) && some_has_fault(k, n, Fault::ResultCount)
}

/// Whether an expression has not exactly one result, or is a type, a type set or a cluster where an object is wanted.
fn is_not_one_object(k: &Known<'_>, n: u32) -> bool
    ensures { result ≡ is_not_one_object k.now n }
{
    has_no_one_result(k, n) || is_no_object(k.tables.file, n)
}

/// V14: an expression has not exactly one result, or is a type or a cluster where an object is wanted; or a statement has another
/// number of variables than objects (CLU Reference Manual, sections 9 and 10). In `a, b: int := q()` at `a`.
pub fn v14(k: &Known<'_>, n: u32) -> bool
    ensures { (items : ℕ → Item) → result ≡ has_other_number k.now items n }
{
    is_not_one_object(k, n) || binds_other_number(k, n)
}
