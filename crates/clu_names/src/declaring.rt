//! What each node declares.

ghost use Rattle.std.specs.Prelude.{◌≡◌, ◌<◌, ◌-◌, ◌++◌, ◌∷◌, [], OnOk, IfOk, Some, length, take, drop, slice_get};
ghost use Rattle.clu_syntax.specs.Rounds.{round_at};
ghost use Rattle.clu_names.specs.Scopes.{declared_as, equate_names, own_names, own_at, module_named, is_module, module_at, is_first, opens, variable_names, variable_of, node_at, declared_at, declarations, kind_at_parent};

use crate::scopes::{Declared, is_stream, parent_kind, scope_of};
use clu_base::{Bytes, Memory};
use clu_syntax::{Round, is_type};
use clu_tree::{Node, NodeKind, Tree};
use std::alloc::Global;

/// The first of the names, if there is one.
fn first_only(names: &[Bytes]) -> &[Bytes]
    ensures { result.now ≡ take 1 names.now }
{
    match names {
        [] => names,
        [_, ..] => &names[..1],
    }
}

/// The last of the names, if there is one.
fn last_only(names: &[Bytes]) -> &[Bytes]
    ensures { result.now ≡ drop (length names.now - 1) names.now }
{
    let before = names.len().saturating_sub(1);
    &names[before..]
}

/// Appends the names with their scope, if they have one.
fn declare(
    alloc: Global,
    list: &mut Vec<Declared>,
    n: u32,
    unit: Option<u32>,
    scope: Option<(u32, u32)>,
    names: &[Bytes],
) -> Result<(), Memory>
    ensures { OnOk result (list.new.items ≡ list.old.items ++ declared_as n unit scope names.now) }
{
    let Some((from, to)) = scope else {
        return Ok(());
    };
    for name in names {
        list.push(Declared {
            name: name.copy(alloc)?,
            node: n,
            from,
            to,
            unit,
        })?;
    }
    Ok(())
}

/// Appends one name with its scope, if it has one.
fn declare_one(
    alloc: Global,
    list: &mut Vec<Declared>,
    n: u32,
    unit: Option<u32>,
    scope: Option<(u32, u32)>,
    name: &Bytes,
) -> Result<(), Memory>
    ensures { OnOk result (list.new.items ≡ list.old.items ++ declared_as n unit scope (name.now ∷ [])) }
{
    let Some((from, to)) = scope else {
        return Ok(());
    };
    list.push(Declared {
        name: name.copy(alloc)?,
        node: n,
        from,
        to,
        unit,
    })?;
    Ok(())
}

/// Appends the name of an Equate, or the word `rep`.
fn declare_equate(
    alloc: Global,
    list: &mut Vec<Declared>,
    n: u32,
    unit: Option<u32>,
    scope: Option<(u32, u32)>,
    node: &Node,
) -> Result<(), Memory>
    ensures { OnOk result (list.new.items ≡ list.old.items ++ declared_as n unit scope (equate_names node.now.names node.now.value)) }
{
    match node.names.as_slice() {
        [] => declare_one(alloc, list, n, unit, scope, &node.value),
        names => declare(alloc, list, n, unit, scope, names),
    }
}

/// Appends what the node declares by itself.
fn declare_own(
    alloc: Global,
    list: &mut Vec<Declared>,
    parent: NodeKind,
    n: u32,
    node: &Node,
    round: &Round,
) -> Result<(), Memory>
    ensures { OnOk result (list.new.items ≡ list.old.items ++ own_at parent n node.now round.now) }
{
    let scope = scope_of(node.kind, parent, n, round);
    let names = node.names.as_slice();
    match node.kind {
        NodeKind::Equate => declare_equate(alloc, list, n, round.unit, scope, node),
        NodeKind::Routine => declare(alloc, list, n, round.unit, scope, first_only(names)),
        _ => declare(alloc, list, n, round.unit, scope, names),
    }
}

fn is_module(parent: NodeKind, kind: NodeKind) -> bool
    ensures { result ≡ is_module parent kind }
{
    match parent {
        NodeKind::Module => match kind {
            NodeKind::Routine | NodeKind::Cluster => true,
            _ => false,
        },
        _ => false,
    }
}

/// Appends the module of the first of these names.
fn declare_named(
    alloc: Global,
    list: &mut Vec<Declared>,
    n: u32,
    names: &[Bytes],
) -> Result<(), Memory>
    ensures { OnOk result (list.new.items ≡ list.old.items ++ module_named n names.now) }
{
    match names {
        [] => Ok(()),
        [name, ..] => {
            if is_stream(name) {
                Ok(())
            } else {
                declare_one(alloc, list, n, None, Some((0, 4_294_967_295)), name)
            }
        }
    }
}

/// Appends the module whose Routine or Cluster the node is.
fn declare_module(
    alloc: Global,
    list: &mut Vec<Declared>,
    parent: NodeKind,
    n: u32,
    node: &Node,
) -> Result<(), Memory>
    ensures { OnOk result (list.new.items ≡ list.old.items ++ module_at parent n node.now) }
{
    if is_module(parent, node.kind) {
        declare_named(alloc, list, n, node.names.as_slice())
    } else {
        Ok(())
    }
}

fn is_first(n: u32, children: &[u32]) -> bool
    ensures { result ≡ is_first n children.now }
{
    match children {
        [] => false,
        [c, ..] => *c == n,
    }
}

/// Whether a child of this kind stands before the body, or inside the type set, for which its parent declares a variable.
fn opens(parent: NodeKind, child: NodeKind) -> bool
    ensures { result ≡ opens parent child }
{
    match parent {
        NodeKind::TypeSet => true,
        NodeKind::TagArm | NodeKind::Others => is_type(child),
        _ => false,
    }
}

/// The variable among the names of a type set or an arm.
fn variable_names(kind: NodeKind, names: &[Bytes]) -> &[Bytes]
    ensures { result.now ≡ variable_names kind names.now }
{
    match kind {
        NodeKind::TypeSet => first_only(names),
        _ => last_only(names),
    }
}

/// Appends the variable of a type set or an arm, at its first child n.
fn declare_variable(
    alloc: Global,
    list: &mut Vec<Declared>,
    tree: &Tree,
    n: u32,
    child: NodeKind,
    round: &Round,
) -> Result<(), Memory>
    ensures { OnOk result (list.new.items ≡ list.old.items ++ variable_of n child round.now round.now.parent (node_at tree.now round.now.parent)) }
{
    let Some(p) = round.parent else {
        return Ok(());
    };
    if p >= tree.len() {
        return Ok(());
    }
    let parent = tree.node(p);
    if opens(parent.kind, child) && is_first(n, parent.children.as_slice()) {
        let names = variable_names(parent.kind, parent.names.as_slice());
        let scope = Some((round.body_first, round.body_last));
        declare(alloc, list, p, round.unit, scope, names)
    } else {
        Ok(())
    }
}

/// Appends what is declared at a node.
fn declare_at(
    alloc: Global,
    list: &mut Vec<Declared>,
    tree: &Tree,
    rounds: &[Round],
    n: u32,
) -> Result<(), Memory>
    requires inside { n < length tree.now }
    requires all { length rounds.now ≡ length tree.now }
    ensures { OnOk result (list.new.items ≡ list.old.items ++ declared_at tree.now rounds.now n (slice_get tree.now n)) }
{
    let round = rounds[n as usize];
    let node = tree.node(n);
    let parent = parent_kind(tree, &round);
    declare_variable(alloc, list, tree, n, node.kind, &round)?;
    declare_own(alloc, list, parent, n, node, &round)?;
    declare_module(alloc, list, parent, n, node)
}

/// All declarations of a tree, where `rounds` is what surrounds its nodes. Of two in one body the one that comes first
/// in the text stands first. The only error is that memory runs out.
#[tactic(auto, unfolding(crate::specs::Scopes::declared_to))]
pub fn declarations(alloc: Global, tree: &Tree, rounds: &[Round]) -> Result<Vec<Declared>, Memory>
    requires all { length rounds.now ≡ length tree.now }
    ensures { IfOk result (λ ds. ds.items ≡ declarations tree.now rounds.now) }
{
    let mut list = Vec::new(alloc);
    for n in 0..tree.len() {
        declare_at(alloc, &mut list, tree, rounds, n)?;
    }
    Ok(list)
}
