//! What stands at a node.

ghost use Rattle.std.specs.Prelude.{◌≡◌};
ghost use Rattle.clu_typing.specs.Nodes.{is_used, is_module, has_actuals, names_module, first_type, first_settled};

use clu_bindings::{File, Meaning, is_object_wanted, optional_at, type_of_value};
use clu_syntax::is_expression;
use clu_tree::NodeKind;
use clu_types::TypeId;

/// Whether the node n stands for an object, or for an operation that changes one. Constants and actual parameters invoke nothing.
pub fn is_used(file: File<'_>, n: u32) -> bool
    ensures { result ≡ is_used file.entry n }
{
    match file.kind(n) {
        NodeKind::SetField | NodeKind::SetIndex => true,
        kind => is_expression(kind) && is_object_wanted(file.wanted(n)),
    }
}

/// Whether the first child of the node n is a Name, and its other children are actual parameters.
pub fn has_actuals(file: File<'_>, n: u32) -> bool
    ensures { result ≡ has_actuals file.entry n }
{
    match file.children(n) {
        [first, ..] => file.takes_actuals(*first),
        [] => false,
    }
}

fn is_module(meaning: Meaning) -> bool
    ensures { result ≡ is_module meaning }
{
    match meaning {
        Meaning::Module(_) => true,
        _ => false,
    }
}

/// Whether the first child of the node n names a module.
pub fn names_module(file: File<'_>, n: u32) -> bool
    ensures { result ≡ names_module file.entry n }
{
    match file.children(n) {
        [first, ..] => is_module(file.meaning(*first)),
        [] => false,
    }
}

/// The type of the first child of the node n, by the types of the nodes before it.
pub fn first_type(file: File<'_>, known: &[Option<TypeId>], n: u32) -> Option<TypeId>
    ensures { result ≡ first_type file.entry known.now n }
{
    match file.children(n) {
        [first, ..] => optional_at(known, *first as usize),
        [] => None,
    }
}

/// The type that the first child of the node n comes to, if it stands for one.
pub fn first_settled(file: File<'_>, n: u32) -> Option<TypeId>
    ensures { result ≡ first_settled file.entry n }
{
    match file.children(n) {
        [first, ..] => type_of_value(file.value(*first)),
        [] => None,
    }
}
