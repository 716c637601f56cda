//! The parts of routines that are asked for at their statements: whether it is a procedure, its results and its exceptions.

ghost use Rattle.std.specs.Prelude.{◌≡◌, ℕ, IfOk, length, slice_get};
ghost use Rattle.clu_syntax.specs.Items.{Item};
ghost use Rattle.clu_bindings.specs.Tables.{optional};
ghost use Rattle.clu_type_rules.specs.Routines.{child_of_kind, parts_at, parts_to};

use clu_base::Memory;
use clu_bindings::{kind_of, optional_at};
use clu_head::is_at;
use clu_syntax::{RoutineKind, Syntax};
use clu_tree::{NodeKind, Tree};
use std::alloc::Global;

/// What a routine is, with the nodes of its Results and Signals.
#[derive(Clone, Copy)]
pub struct Parts {
    pub is_procedure: bool,
    pub results: Option<u32>,
    pub signals: Option<u32>,
}

/// The parts of all routines of a tree, by their nodes.
#[derive(Drop)]
pub struct Routines {
    pub parts: Vec<Option<Parts>>,
}

/// The first of the children that is of this kind.
fn child_of_kind(tree: &Tree, mut children: &[u32], kind: NodeKind) -> Option<u32>
    ensures { result ≡ child_of_kind tree.now kind children.entry.now }
{
    while let [c, rest @ ..] = children {
        if kind_of(tree, *c) == kind {
            return Some(*c);
        }
        children = rest;
    }
    None
}

fn parts_of(syntax: &Syntax, n: u32) -> Option<Parts>
    ensures { (items : ℕ → Item) → result ≡ parts_at items syntax.now n }
{
    let tree = syntax.tree();
    if !is_at(tree, n, NodeKind::Routine) {
        return None;
    }
    let children = tree.node(n).children.as_slice();
    Some(Parts {
        is_procedure: matches!(syntax.routine(n).kind, RoutineKind::Procedure),
        results: child_of_kind(tree, children, NodeKind::Results),
        signals: child_of_kind(tree, children, NodeKind::Signals),
    })
}

impl Routines {
    /// The routines of a tree. The only error is that memory runs out.
    pub fn of_tree(alloc: Global, syntax: &Syntax) -> Result<Box<Routines>, Memory>
        ensures { (items : ℕ → Item) → IfOk result (λ r. r.value.parts.items ≡ parts_to items syntax.now (length syntax.now)) }
    {
        let mut parts = Vec::new(alloc);
        for n in 0..syntax.tree().len() {
            parts.push(parts_of(syntax, n))?;
        }
        Ok(Box::new(alloc, Routines { parts })?)
    }

    /// The parts of the Routine n.
    pub fn of(&self, n: u32) -> Option<Parts>
        ensures { result ≡ optional (slice_get self.now.parts.items n) }
    {
        optional_at(self.parts.as_slice(), n as usize)
    }
}
