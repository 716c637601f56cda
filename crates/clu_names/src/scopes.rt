//! Declared names with their scopes.

ghost use Rattle.std.specs.Prelude.{◌≡◌};
ghost use Rattle.clu_names.specs.Scopes.{next, after, kind_at_parent, decl_scope, routine_scope, scope_of, is_stream};

use clu_base::Bytes;
use clu_syntax::Round;
use clu_tree::{NodeKind, Tree};

/// A declared name with its scope.
#[derive(Drop)]
pub struct Declared {
    pub name: Bytes,
    /// The node that declares it. Of a module it is the Routine or Cluster, of the variable of a type set or an arm the
    /// TypeSet, TagArm or Others.
    pub node: u32,
    /// The first and the last node of its scope. The scope of a module is every node.
    pub from: u32,
    pub to: u32,
    /// The Module node in which it stands; None of a module.
    pub unit: Option<u32>,
}

/// The next number, if it has 32 bits.
fn next(n: u32) -> u32
    ensures { result ≡ next n }
{
    n.saturating_add(1)
}

/// The number after the parent.
fn after(round: &Round) -> u32
    ensures { result ≡ after round.now.parent }
{
    match round.parent {
        Some(parent) => next(parent),
        None => 0,
    }
}

/// The kind of a node's parent; File if it has none.
pub fn parent_kind(tree: &Tree, round: &Round) -> NodeKind
    ensures { result ≡ kind_at_parent tree.now round.now.parent }
{
    match round.parent {
        Some(parent) => {
            if parent < tree.len() {
                tree.node(parent).kind
            } else {
                NodeKind::File
            }
        }
        None => NodeKind::File,
    }
}

/// The scope of the variables of a Decl: an argument is in scope after its Decl, the variable of a loop or an arm in the
/// body, any other after the statement.
fn decl_scope(parent: NodeKind, n: u32, round: &Round) -> (u32, u32)
    ensures { result ≡ decl_scope parent n round.now }
{
    match parent {
        NodeKind::Routine => (next(n), round.body_last),
        NodeKind::For | NodeKind::When => (round.body_first, round.body_last),
        _ => (after(round), round.body_last),
    }
}

/// The scope of the name of a routine of a cluster.
fn routine_scope(parent: NodeKind, round: &Round) -> Option<(u32, u32)>
    ensures { result ≡ routine_scope parent round.now }
{
    match parent {
        NodeKind::Cluster => Some((round.body_first, round.body_last)),
        _ => None,
    }
}

/// The scope of the names that the node n declares by itself, if it declares any.
pub fn scope_of(kind: NodeKind, parent: NodeKind, n: u32, round: &Round) -> Option<(u32, u32)>
    ensures { result ≡ scope_of kind parent n round.now }
{
    match kind {
        NodeKind::Equate | NodeKind::Parm => Some((round.body_first, round.body_last)),
        NodeKind::Init | NodeKind::Own => Some((next(n), round.body_last)),
        NodeKind::Decl => Some(decl_scope(parent, n, round)),
        NodeKind::Routine => routine_scope(parent, round),
        _ => None,
    }
}

/// Whether the name is that of the built-in type `stream`, by which no module is known.
pub fn is_stream(name: &Bytes) -> bool
    ensures { result ≡ is_stream name.now }
{
    name.as_slice() == b"stream".as_slice()
}
