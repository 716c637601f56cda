//! The parts of nodes that ask: the restrictions of modules and routines, and the operations of restrictions and type sets.

ghost use Rattle.std.specs.Prelude.{◌≡◌, ◌<◌, length, slice_get};
ghost use Rattle.clu_tree.specs.declared.node.NodeKind.{NodeKind};
ghost use Rattle.clu_syntax.specs.Kinds.{kind_at};
ghost use Rattle.clu_head.specs.Asking.{opers_in, set_operations, operations_had, had_operations, routine_restrictions, cluster_restrictions, restrictions_in};

use crate::known::is_at;
use clu_syntax::{Restriction, Syntax};
use clu_tree::NodeKind;

fn opers_in(syntax: &Syntax, n: u32) -> &[u32]
    requires inside { n < length syntax.now }
    requires kind { kind_at syntax.now n ≡ NodeKind.TypeSet }
    ensures { result.now ≡ opers_in syntax.now (slice_get syntax.now n) }
{
    syntax.type_set(n).operations
}

/// The operations of the node n, if it is a TypeSet.
#[tactic(auto, unfolding(crate::specs::Asking::set_operations))]
pub fn set_operations(syntax: &Syntax, n: u32) -> &[u32]
    ensures { result.now ≡ set_operations syntax.now (slice_get syntax.now n) }
{
    if is_at(syntax.tree(), n, NodeKind::TypeSet) {
        opers_in(syntax, n)
    } else {
        &[]
    }
}

fn operations_had(syntax: &Syntax, n: u32) -> &[u32]
    requires inside { n < length syntax.now }
    requires kind { kind_at syntax.now n ≡ NodeKind.Restrict }
    ensures { result.now ≡ operations_had syntax.now (slice_get syntax.now n) }
{
    match syntax.restriction(n) {
        Restriction::Has { operations, .. } => operations,
        Restriction::In { .. } => &[],
        Restriction::InSet { .. } => &[],
    }
}

/// The operations of the node n, if it is a Restrict that has some itself.
#[tactic(auto, unfolding(crate::specs::Asking::had_operations))]
pub fn had_operations(syntax: &Syntax, n: u32) -> &[u32]
    ensures { result.now ≡ had_operations syntax.now (slice_get syntax.now n) }
{
    if is_at(syntax.tree(), n, NodeKind::Restrict) {
        operations_had(syntax, n)
    } else {
        &[]
    }
}

fn of_routine(syntax: &Syntax, n: u32) -> &[u32]
    requires inside { n < length syntax.now }
    requires kind { kind_at syntax.now n ≡ NodeKind.Routine }
    ensures { result.now ≡ routine_restrictions syntax.now (slice_get syntax.now n) }
{
    syntax.routine(n).restrictions
}

fn of_cluster(syntax: &Syntax, n: u32) -> &[u32]
    requires inside { n < length syntax.now }
    requires kind { kind_at syntax.now n ≡ NodeKind.Cluster }
    ensures { result.now ≡ cluster_restrictions syntax.now (slice_get syntax.now n) }
{
    syntax.cluster(n).restrictions
}

/// The restrictions of the node n, if it is a Routine or a Cluster.
#[tactic(auto, unfolding(crate::specs::Asking::restrictions_in))]
pub fn restrictions_of(syntax: &Syntax, n: u32) -> &[u32]
    ensures { result.now ≡ restrictions_in syntax.now (slice_get syntax.now n) }
{
    if is_at(syntax.tree(), n, NodeKind::Routine) {
        of_routine(syntax, n)
    } else if is_at(syntax.tree(), n, NodeKind::Cluster) {
        of_cluster(syntax, n)
    } else {
        &[]
    }
}
