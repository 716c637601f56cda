//! What is read of a module before its heading: its name and its parameters.

ghost use Rattle.std.specs.Prelude.{◌≡◌, ◌<◌, ◌-◌, true, false, Some, get_or, length, option_map, slice_get};
ghost use Rattle.clu_tree.specs.declared.node.NodeKind.{NodeKind};
ghost use Rattle.clu_syntax.specs.Kinds.{kind_at};
ghost use Rattle.clu_bindings.specs.Headlines.{headline_told, headline_of, defined_in, headline_at};

use crate::nodes::{children_of, kind_of};
use clu_base::Bytes;
use clu_head::is_at;
use clu_syntax::Syntax;
use clu_tree::NodeKind;

/// Of a module its name and its parameters.
#[derive(Clone, Copy)]
pub struct Headline<'a> {
    pub name: &'a Bytes,
    pub parameters: &'a [u32],
    pub is_routine: bool,
}

fn routine_at(syntax: &Syntax, n: u32) -> Headline<'_>
    requires inside { n < length syntax.now }
    requires kind { kind_at syntax.now n ≡ NodeKind.Routine }
    ensures { option_map (headline_of syntax.now true) (slice_get syntax.now n) ≡ Some (headline_told result) }
{
    let routine = syntax.routine(n);
    Headline {
        name: routine.name,
        parameters: routine.parameters,
        is_routine: true,
    }
}

/// That of the Cluster n.
pub fn cluster_at(syntax: &Syntax, n: u32) -> Headline<'_>
    requires inside { n < length syntax.now }
    requires kind { kind_at syntax.now n ≡ NodeKind.Cluster }
    ensures { option_map (headline_of syntax.now false) (slice_get syntax.now n) ≡ Some (headline_told result) }
{
    let cluster = syntax.cluster(n);
    Headline {
        name: cluster.name,
        parameters: cluster.parameters,
        is_routine: false,
    }
}

/// That of the node n, if it is a Routine or a Cluster.
fn defined_at(syntax: &Syntax, n: u32) -> Option<Headline<'_>>
    ensures { option_map headline_told result ≡ defined_in syntax.now (slice_get syntax.now n) }
{
    if is_at(syntax.tree(), n, NodeKind::Routine) {
        Some(routine_at(syntax, n))
    } else if is_at(syntax.tree(), n, NodeKind::Cluster) {
        Some(cluster_at(syntax, n))
    } else {
        None
    }
}

fn last_of(children: &[u32]) -> u32
    ensures { result ≡ get_or children.now (length children.now - 1) 0 }
{
    let last = children.len().saturating_sub(1);
    children.get(last).copied().unwrap_or(0)
}

/// That of the node n, if it is a Module, whose last child is what it defines.
pub fn headline_at(syntax: &Syntax, n: u32) -> Option<Headline<'_>>
    ensures { option_map headline_told result ≡ headline_at syntax.now n }
{
    if is_at(syntax.tree(), n, NodeKind::Module) {
        defined_at(syntax, last_of(children_of(syntax.tree(), n)))
    } else {
        None
    }
}
