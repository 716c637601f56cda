//! A file with what the rules on names, constants and types read of it. Each function here answers for any number, so that no
//! rule asks anything of its caller.

ghost use Rattle.std.specs.Prelude.{◌≡◌, slice_get};
ghost use Rattle.clu_head.specs.Refused.{is_set};
ghost use Rattle.clu_bindings.specs.Files.{declaring_node, stands_in};
ghost use Rattle.clu_name_rules.specs.NameRules.{equate_of, is_bad_name, is_marked};

use crate::repeated::Items;
use crate::views::is_kind;
use crate::words::Words;
use clu_bindings::{File, is_set};
use clu_tree::NodeKind;
use clu_types::TypeArena;

/// A file before its headings are known, with tables by node and by declaration.
#[derive(Clone, Copy)]
pub struct Tables<'a> {
    pub file: File<'a>,
    pub types: &'a TypeArena,
    /// For each type and for each constant whether its text is longer than that of an equated value may be.
    pub long_types: &'a [bool],
    pub long_constants: &'a [bool],
    /// For each declaration whether it is an equate whose unfolding meets itself.
    pub circular: &'a [bool],
    /// For each node the place of its first declaration.
    pub own: &'a [usize],
    pub words: &'a Words,
    pub items: &'a Items,
}

/// Whether a name of the node n stands twice.
pub fn is_repeated(t: &Tables<'_>, n: u32) -> bool
    ensures { result ≡ is_set (slice_get t.now.items.now.repeated.items n) }
{
    is_set(t.items.repeated.as_slice(), n as usize)
}

/// Whether the parent of the node n is of this kind.
pub fn stands_in(f: File<'_>, kind: NodeKind, n: u32) -> bool
    ensures { result ≡ stands_in f.entry.syntax.now f.entry.rounds.now kind n }
{
    match f.parent(n) {
        Some(parent) => is_kind(f, kind, parent),
        None => false,
    }
}

/// The Equate to which a name is bound.
fn equate_named(f: File<'_>, bound: Option<usize>) -> Option<u32>
    ensures { result ≡ equate_of f.entry.syntax.now (declaring_node f.entry.names.now bound) }
{
    let n = f.declaring_node(bound)?;
    if is_kind(f, NodeKind::Equate, n) {
        Some(n)
    } else {
        None
    }
}

/// Whether a name is that of an equate whose unfolding meets itself.
pub fn leads_to_circle(t: &Tables<'_>, bound: Option<usize>) -> bool
    ensures { result ≡ is_marked t.now.circular.now bound }
{
    match bound {
        Some(place) => is_set(t.circular, place),
        None => false,
    }
}

/// Whether a name is that of a bad equate: a rule is violated in it, or in an equate to which it leads. Of a circle V7 is asked
/// alone. `bad` says of each Equate whether it is bad.
pub fn is_bad_name(t: &Tables<'_>, bad: &[bool], bound: Option<usize>) -> bool
    ensures { result ≡ is_bad_name t.now.file.syntax.now t.now.file.names.now t.now.circular.now bad.now bound }
{
    match equate_named(t.file, bound) {
        Some(e) => is_set(bad, e as usize) && !leads_to_circle(t, bound),
        None => false,
    }
}
