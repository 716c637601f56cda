//! Routines, clusters and modules as their parts.

ghost use Rattle.std.specs.Prelude.{◌≡◌, ◌<◌, ◌⊎◌, All, ℕ, List, length};
ghost use Rattle.clu_tree.specs.declared.node.Node.{Node};
ghost use Rattle.clu_syntax.specs.Items.{Item};
ghost use Rattle.clu_syntax.specs.Kinds.{kind_at};
ghost use Rattle.clu_syntax.specs.Nodes.{cluster_from, defined, routine_from};
ghost use Rattle.clu_syntax.specs.Parts.{ClusterParts, RoutineParts, definition_parts};
ghost use Rattle.clu_syntax.specs.Splits.{after_run, last_child, run};
ghost use Rattle.clu_syntax.specs.Views.{cluster_told, definition_told, module_told, routine_told};

use crate::splits::{but_last, last_child, name_at, parts, run};
use crate::words::{RoutineKind, routine_kind};
use clu_base::Bytes;
use clu_tree::{Node, NodeKind, Tree};

/// A procedure or an iterator (CLU Reference Manual, section 8).
#[derive(Clone, Copy)]
pub struct Routine<'a> {
    pub kind: RoutineKind,
    pub name: &'a Bytes,
    /// The name after `end`.
    pub closing: &'a Bytes,
    /// Each a Parm.
    pub parameters: &'a [u32],
    /// Each a Decl.
    pub arguments: &'a [u32],
    /// The types that it returns or yields.
    pub results: &'a [u32],
    /// Each an Exc.
    pub exceptions: &'a [u32],
    /// Each a Restrict.
    pub restrictions: &'a [u32],
    /// Each an Equate.
    pub equates: &'a [u32],
    /// Each an Own.
    pub owns: &'a [u32],
    pub statements: &'a [u32],
}

/// A cluster (CLU Reference Manual, section 8).
#[derive(Clone, Copy)]
pub struct Cluster<'a> {
    pub name: &'a Bytes,
    /// The name after `end`.
    pub closing: &'a Bytes,
    /// Each a Parm.
    pub parameters: &'a [u32],
    /// The names of its operations for users.
    pub exports: &'a [Bytes],
    /// Each a Restrict.
    pub restrictions: &'a [u32],
    /// Each an Equate.
    pub equates: &'a [u32],
    /// Each an Own.
    pub owns: &'a [u32],
    /// Each a Routine.
    pub routines: &'a [u32],
}

/// What a module defines.
#[derive(Clone, Copy)]
pub enum Definition {
    Routine(u32),
    Cluster(u32),
}

/// A module (CLU Reference Manual, section 4).
#[derive(Clone, Copy)]
pub struct Module<'a> {
    /// Each an Equate.
    pub equates: &'a [u32],
    pub definition: Definition,
}

/// What a Routine is made of.
pub fn routine_in<'a>(tree: &'a Tree, n: u32, node: &'a Node) -> Routine<'a>
    requires names { 0 < length node.now.names }
    requires inside { n < length tree.now }
    requires below { All (λ c. c < n) node.now.children }
    ensures told { (items : ℕ → Item) (n : ℕ) → routine_told items n result ≡ routine_from items tree.now n node.now node.now.children (after_run tree.now NodeKind.Decl (after_run tree.now NodeKind.Parm node.now.children)) }
    ensures parts { RoutineParts tree.now n result }
{
    let names = node.names.as_slice();
    let (parameters, rest) = run(tree, n, NodeKind::Parm, node.children.as_slice());
    let (arguments, rest) = run(tree, n, NodeKind::Decl, rest);
    let (results, rest) = parts(tree, n, NodeKind::Results, rest);
    let (exceptions, rest) = parts(tree, n, NodeKind::Signals, rest);
    let (restrictions, rest) = parts(tree, n, NodeKind::Where, rest);
    let (equates, rest) = run(tree, n, NodeKind::Equate, rest);
    let (owns, statements) = run(tree, n, NodeKind::Own, rest);
    Routine {
        kind: routine_kind(node.value.as_slice()),
        name: name_at(names, 0),
        closing: name_at(names, names.len() - 1),
        parameters,
        arguments,
        results,
        exceptions: run(tree, n, NodeKind::Exc, exceptions).0,
        restrictions: run(tree, n, NodeKind::Restrict, restrictions).0,
        equates,
        owns,
        statements,
    }
}

/// What a Cluster is made of.
pub fn cluster_in<'a>(tree: &'a Tree, n: u32, node: &'a Node) -> Cluster<'a>
    requires names { 1 < length node.now.names }
    requires inside { n < length tree.now }
    requires below { All (λ c. c < n) node.now.children }
    ensures told { (items : ℕ → Item) (n : ℕ) → cluster_told items n result ≡ cluster_from items tree.now n node.now node.now.children (after_run tree.now NodeKind.Parm node.now.children) }
    ensures parts { ClusterParts tree.now n result }
{
    let names = node.names.as_slice();
    let (parameters, rest) = run(tree, n, NodeKind::Parm, node.children.as_slice());
    let (restrictions, rest) = parts(tree, n, NodeKind::Where, rest);
    let (equates, rest) = run(tree, n, NodeKind::Equate, rest);
    let (owns, rest) = run(tree, n, NodeKind::Own, rest);
    Cluster {
        name: name_at(names, 0),
        closing: name_at(names, names.len() - 1),
        parameters,
        exports: &but_last(names)[1..],
        restrictions: run(tree, n, NodeKind::Restrict, restrictions).0,
        equates,
        owns,
        routines: run(tree, n, NodeKind::Routine, rest).0,
    }
}

fn definition_in(tree: &Tree, n: u32, c: u32) -> Definition
    requires inside { n < length tree.now }
    requires below { c < n }
    requires defined { (kind_at tree.now c ≡ NodeKind.Routine) ⊎ (kind_at tree.now c ≡ NodeKind.Cluster) }
    ensures told { (items : ℕ → Item) (nodes : List Node) (n : ℕ) (equates : List ℕ) → definition_told items n equates result ≡ defined items nodes n equates (kind_at tree.now c) c }
    ensures parts { definition_parts tree.now n result }
{
    match tree.node(c).kind {
        NodeKind::Cluster => Definition::Cluster(c),
        _ => Definition::Routine(c),
    }
}

/// What a Module is made of.
pub fn module_in<'a>(tree: &Tree, n: u32, node: &'a Node) -> Module<'a>
    requires enough { 0 < length node.now.children }
    requires inside { n < length tree.now }
    requires below { All (λ c. c < n) node.now.children }
    requires defined { (kind_at tree.now (last_child node.now) ≡ NodeKind.Routine) ⊎ (kind_at tree.now (last_child node.now) ≡ NodeKind.Cluster) }
    ensures told { (items : ℕ → Item) (n : ℕ) → module_told items n result ≡ defined items tree.now n (run tree.now NodeKind.Equate node.now.children) (kind_at tree.now (last_child node.now)) (last_child node.now) }
    ensures parts { definition_parts tree.now n result.definition }
{
    Module {
        equates: run(tree, n, NodeKind::Equate, node.children.as_slice()).0,
        definition: definition_in(tree, n, last_child(n, node)),
    }
}
