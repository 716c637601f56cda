//! The rules on modules: V33 ExportMissing, V34 EndName, V35 RoutineTooLarge.

ghost use Rattle.std.specs.Prelude.{◌≡◌, ◌&&◌, ◌-◌, IsTrue, Some, length, min, not, slice_get};
ghost use Rattle.std.specs.List.{list_any};
ghost use Rattle.clu_tree.specs.declared.node.Node.{Node};
ghost use Rattle.clu_syntax.specs.Kinds.{kind_at};
ghost use Rattle.clu_name_rules.specs.Closed.{ends_as_named, is_definition, same_names};
ghost use Rattle.clu_name_rules.specs.ModuleRules.{lacks_routine, lacks_export, is_ended_otherwise, count_at, own_count, count_owns, is_too_large};

use crate::repeated::exports_of;
use crate::tables::Tables;
use crate::views::is_kind;
use clu_base::Bytes;
use clu_bindings::File;
use clu_tree::{Node, NodeKind};

/// The most nodes of a routine, and of a cluster's own declarations.
const MOST_NODES: u64 = 4000;

/// Whether an exported name is that of no routine of the cluster.
#[tactic(auto, unfolding(crate::specs::ModuleRules::lacks_routine))]
fn lacks_routine(t: &Tables<'_>, cluster: u32, name: &Bytes) -> bool
    ensures { result ≡ lacks_routine t.now.items.now t.now.words.now cluster name.now }
{
    t.items.routine(cluster, t.words.number(name)).is_none()
}

fn lacks_one(t: &Tables<'_>, cluster: u32, mut exports: &[Bytes]) -> bool
    ensures { result ≡ list_any (lacks_routine t.now.items.now t.now.words.now cluster) exports.entry.now }
{
    while let [name, rest @ ..] = exports {
        if lacks_routine(t, cluster, name) {
            return true;
        }
        exports = rest;
    }
    false
}

/// V33: an exported name is that of no routine of the cluster (CLU Reference Manual, section 13.3). In `c = cluster is f, g`,
/// where no `g` is defined, at the cluster.
pub fn v33(t: &Tables<'_>, n: u32) -> bool
    ensures { result ≡ lacks_export t.now.items.now t.now.words.now t.now.file.syntax.now n }
{
    lacks_one(t, n, exports_of(t.file.syntax, n))
}

fn is_definition(kind: NodeKind) -> bool
    ensures { result ≡ is_definition kind }
{
    matches!(kind, NodeKind::Routine | NodeKind::Cluster)
}

fn ends_otherwise(names: &[Bytes]) -> bool
    ensures { result ≡ not (same_names (slice_get names.now 0) (slice_get names.now (length names.now - 1))) }
{
    names.first() != names.last()
}

fn is_ended_otherwise(node: &Node) -> bool
    ensures { result ≡ (is_definition node.now.kind && not (ends_as_named node.now)) }
{
    is_definition(node.kind) && ends_otherwise(node.names.as_slice())
}

/// V34: the name after `end` is another (section 8). In `start_up = proc () end go` at the routine.
pub fn v34(t: &Tables<'_>, n: u32) -> bool
    ensures closed { (node : Node) → slice_get t.now.file.syntax.now n ≡ Some node → IsTrue (is_definition node.kind) → result ≡ not (ends_as_named node) }
    ensures exact { result ≡ is_ended_otherwise (slice_get t.now.file.syntax.now n) }
{
    let tree = t.file.syntax.tree();
    n < tree.len() && is_ended_otherwise(tree.node(n))
}

fn count_at(f: File<'_>, n: u32) -> u64
    ensures { result ≡ count_at f.entry.syntax.now n }
{
    if n < f.syntax.tree().len() {
        u64::from(f.syntax.tree().nodes(n))
    } else {
        0
    }
}

/// How many nodes an Own has.
fn own_count(f: File<'_>, n: u32) -> u64
    ensures { result ≡ own_count f.entry.syntax.now n }
{
    if is_kind(f, NodeKind::Own, n) {
        count_at(f, n)
    } else {
        0
    }
}

/// How many nodes the own variables among these have together.
fn count_owns(f: File<'_>, mut children: &[u32]) -> u64
    ensures { result ≡ min (count_owns f.entry.syntax.now children.entry.now) 18446744073709551615 }
{
    let mut count = 0u64;
    while let [c, rest @ ..] = children {
        count = count.saturating_add(own_count(f, *c));
        children = rest;
    }
    count
}

/// V35: a routine of more than 4,000 nodes, or a cluster whose own variables have more together; a limit of this compiler. At the
/// routine or cluster.
pub fn v35(t: &Tables<'_>, n: u32) -> bool
    ensures { result ≡ is_too_large t.now.file.syntax.now (kind_at t.now.file.syntax.now n) n }
{
    match t.file.kind(n) {
        NodeKind::Routine => count_at(t.file, n) > MOST_NODES,
        NodeKind::Cluster => count_owns(t.file, t.file.children(n)) > MOST_NODES,
        _ => false,
    }
}
