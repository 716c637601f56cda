//! A file with all that is known of its nodes, and types as the rules compare them.

ghost use Rattle.std.specs.Prelude.{◌≡◌, ◌<◌, IfNone, IfSome, None, Some, length};
ghost use Rattle.clu_types.specs.Arena.{type_at, types_of};
ghost use Rattle.clu_layout.specs.SameType.{fits};
ghost use Rattle.clu_type_rules.specs.Included.{is_included, may_be};
ghost use Rattle.clu_type_rules.specs.Known.{heading_in, is_iterator, is_other_than_bool, term_of, term_at, invoked_by, first_type, parts_round};
ghost use Rattle.clu_type_rules.specs.StatementRules.{is_no_condition, some_no_condition};

use crate::routines::{Parts, Routines};
use crate::unmet::Unmet;
use clu_bindings::Headed;
use clu_name_rules::{Tables, is_kind};
use clu_tree::NodeKind;
use clu_types::{Heading, Term, TypeArena, TypeId};
use clu_typing::Facts;

/// A file with the facts of its nodes.
#[derive(Clone, Copy)]
pub struct Known<'a> {
    pub tables: Tables<'a>,
    pub headed: Headed<'a>,
    pub facts: &'a Facts,
    pub routines: &'a Routines,
    /// For each node whether a demand of it disagrees with one before it.
    pub disagrees: &'a [bool],
    /// For each node what is asked there and not met.
    pub unmet: &'a [Unmet],
}

/// The term of a type that is known.
pub fn term<'a>(k: &Known<'a>, of: Option<TypeId>) -> Option<&'a Term>
    ensures some { IfSome result (λ its. term_of k.now of ≡ Some its.now) }
    ensures none { IfNone result (term_of k.now of ≡ None) }
{
    let of = of?;
    if (of.0 as usize) < k.tables.types.len() {
        Some(k.tables.types.view(of))
    } else {
        None
    }
}

/// What a routine of this type takes, gives and signals.
pub fn heading_of<'a>(k: &Known<'a>, of: Option<TypeId>) -> Option<&'a Heading>
    ensures some { IfSome result (λ heading. heading_in (term_of k.now of) ≡ Some heading.now) }
    ensures none { IfNone result (heading_in (term_of k.now of) ≡ None) }
{
    match term(k, of) {
        Some(Term::Proc(heading) | Term::Iter(heading)) => Some(heading),
        _ => None,
    }
}

pub fn is_iterator(k: &Known<'_>, of: Option<TypeId>) -> bool
    ensures { result ≡ is_iterator (term_of k.now of) }
{
    match term(k, of) {
        Some(Term::Iter(_)) => true,
        _ => false,
    }
}

/// Whether an object of one type of the arena may be one of another.
fn fits(types: &TypeArena, given: TypeId, wanted: TypeId) -> bool
    requires given { given.0 < length types.now }
    requires wanted { wanted.0 < length types.now }
    ensures { result ≡ fits (type_at (types_of types.now) given) (type_at (types_of types.now) wanted) }
{
    types.included(given, wanted)
}

/// The same of types that are not in the arena too, of which nothing is known.
fn is_included(types: &TypeArena, given: TypeId, wanted: TypeId) -> bool
    ensures { result ≡ is_included types.now given wanted }
{
    if (given.0 as usize) < types.len() && (wanted.0 as usize) < types.len() {
        fits(types, given, wanted)
    } else {
        true
    }
}

/// Whether an object of one type may be one of another; a type that is not known may be included in any, and include any.
pub fn may_be(types: &TypeArena, given: Option<TypeId>, wanted: Option<TypeId>) -> bool
    ensures { result ≡ may_be types.now given wanted }
{
    match given {
        Some(given) => match wanted {
            Some(wanted) => is_included(types, given, wanted),
            None => true,
        },
        None => true,
    }
}

/// Whether the type of the node n is known and not bool. A statement has no type.
fn is_no_condition(k: &Known<'_>, n: u32) -> bool
    ensures { result ≡ is_no_condition k.now n }
{
    match term(k, k.facts.type_of(n)) {
        Some(Term::Bool) | None => false,
        Some(_) => true,
    }
}

/// Whether that of a child of the node n is.
pub fn some_no_condition(k: &Known<'_>, n: u32) -> bool
    ensures { result ≡ some_no_condition k.now n }
{
    let mut children = k.tables.file.children(n);
    while let [c, rest @ ..] = children {
        if is_no_condition(k, *c) {
            return true;
        }
        children = rest;
    }
    false
}

/// The type of the first of these nodes.
pub fn first_type(k: &Known<'_>, nodes: &[u32]) -> Option<TypeId>
    ensures { result ≡ first_type k.now nodes.now }
{
    match nodes {
        [n, ..] => k.facts.type_of(*n),
        [] => None,
    }
}

/// The type of what the call at a node invokes.
pub fn invoked_by(k: &Known<'_>, call: u32) -> Option<TypeId>
    ensures { result ≡ invoked_by k.now call }
{
    if is_kind(k.tables.file, NodeKind::Call, call) {
        first_type(k, k.tables.file.children(call))
    } else {
        None
    }
}

/// The parts of the routine round the node n.
pub fn routine_round(k: &Known<'_>, n: u32) -> Option<Parts>
    ensures { result ≡ parts_round k.now n }
{
    k.routines.of(k.tables.file.round(n).routine?)
}
