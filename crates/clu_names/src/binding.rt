//! The declaration that each name denotes, found on one pass over the nodes: the scopes that begin at a node come into
//! play there.

ghost use Rattle.std.specs.Prelude.{◌≡◌, ◌<◌, ◌≤◌, ◌++◌, ◌∷◌, [], List, ℕ, OnOk, IfOk, length, map};
ghost use Rattle.std.specs.Str.{bytes_eq};
ghost use Rattle.indexmap.specs.IndexMap.{get};
ghost use Rattle.clu_names.specs.Denotes.{found, names_in, is_rep, rep_names, bound_to, starts_to};
ghost use Rattle.clu_names.specs.Scopes.{declarations, equate_names};
ghost use Rattle.clu_names.specs.Latest.{AreModules, AreLocals};
ghost use Rattle.clu_names.specs.Order.{AreChains};

use crate::declaring::declarations;
use crate::latest::{Places, denoted, enter_from, note_modules};
use crate::order::{Order, order_of};
use crate::scopes::Declared;
use clu_base::{Bytes, Memory};
use clu_syntax::Round;
use clu_tree::{Node, NodeKind, Tree};
use indexmap::IndexMap;
use std::alloc::Global;

/// The declarations of a tree, and which of them each name denotes.
#[derive(Drop)]
pub struct Names {
    /// The declarations. Of two in one body the one that comes first in the text stands first.
    pub declared: Vec<Declared>,
    /// What names denote, by places in `declared`: those of the first node in their order, then those of the next one.
    /// None denotes no declaration of the file.
    pub bound: Vec<Option<usize>>,
    /// For each node where its names begin in `bound`.
    pub starts: Vec<usize>,
}

/// Appends what these names denote at the node n.
fn bind_all(
    bound: &mut Vec<Option<usize>>,
    declared: &[Declared],
    modules: &Places,
    locals: &Places,
    n: u32,
    names: &[Bytes],
) -> Result<(), Memory>
    requires modules { AreModules declared.now (length declared.now) (get bytes_eq modules.now) }
    requires locals { AreLocals declared.now n (length declared.now) (get bytes_eq locals.now) }
    ensures { OnOk result (bound.new.items ≡ bound.old.items ++ map (λ name. found declared.now name n) names.now) }
{
    for name in names {
        bound.push(denoted(declared, modules, locals, n, name))?;
    }
    Ok(())
}

/// Appends what one name denotes at the node n.
fn bind_one(
    bound: &mut Vec<Option<usize>>,
    declared: &[Declared],
    modules: &Places,
    locals: &Places,
    n: u32,
    name: &Bytes,
) -> Result<(), Memory>
    requires modules { AreModules declared.now (length declared.now) (get bytes_eq modules.now) }
    requires locals { AreLocals declared.now n (length declared.now) (get bytes_eq locals.now) }
    ensures { OnOk result (bound.new.items ≡ bound.old.items ++ found declared.now name.now n ∷ []) }
{
    bound.push(denoted(declared, modules, locals, n, name))?;
    Ok(())
}

/// Whether the word is `rep`.
fn is_rep(word: &Bytes) -> bool
    ensures { result ≡ is_rep word.now }
{
    word.as_slice() == b"rep".as_slice()
}

/// Appends what the word `rep` denotes at the node n; another word denotes nothing.
fn bind_word(
    bound: &mut Vec<Option<usize>>,
    declared: &[Declared],
    modules: &Places,
    locals: &Places,
    n: u32,
    word: &Bytes,
) -> Result<(), Memory>
    requires modules { AreModules declared.now (length declared.now) (get bytes_eq modules.now) }
    requires locals { AreLocals declared.now n (length declared.now) (get bytes_eq locals.now) }
    ensures { OnOk result (bound.new.items ≡ bound.old.items ++ map (λ name. found declared.now name n) (rep_names word.now)) }
{
    if is_rep(word) {
        bind_one(bound, declared, modules, locals, n, word)
    } else {
        Ok(())
    }
}

/// Appends what the name of an Equate, or the word `rep`, denotes at the node n.
fn bind_equate(
    bound: &mut Vec<Option<usize>>,
    declared: &[Declared],
    modules: &Places,
    locals: &Places,
    n: u32,
    node: &Node,
) -> Result<(), Memory>
    requires modules { AreModules declared.now (length declared.now) (get bytes_eq modules.now) }
    requires locals { AreLocals declared.now n (length declared.now) (get bytes_eq locals.now) }
    ensures { OnOk result (bound.new.items ≡ bound.old.items ++ map (λ name. found declared.now name n) (equate_names node.now.names node.now.value)) }
{
    match node.names.as_slice() {
        [] => bind_one(bound, declared, modules, locals, n, &node.value),
        names => bind_all(bound, declared, modules, locals, n, names),
    }
}

/// Appends what the names of the node n denote.
fn bind_node(
    bound: &mut Vec<Option<usize>>,
    declared: &[Declared],
    modules: &Places,
    locals: &Places,
    n: u32,
    node: &Node,
) -> Result<(), Memory>
    requires modules { AreModules declared.now (length declared.now) (get bytes_eq modules.now) }
    requires locals { AreLocals declared.now n (length declared.now) (get bytes_eq locals.now) }
    ensures { OnOk result (bound.new.items ≡ bound.old.items ++ map (λ name. found declared.now name n) (names_in node.now.kind node.now)) }
{
    match node.kind {
        NodeKind::Simple => bind_word(bound, declared, modules, locals, n, &node.value),
        NodeKind::Equate => bind_equate(bound, declared, modules, locals, n, node),
        NodeKind::Routine
        | NodeKind::Parm
        | NodeKind::Restrict
        | NodeKind::TypeSet
        | NodeKind::Own
        | NodeKind::Decl
        | NodeKind::NameT
        | NodeKind::Init
        | NodeKind::Assign
        | NodeKind::For
        | NodeKind::TagArm
        | NodeKind::Others
        | NodeKind::Name => bind_all(bound, declared, modules, locals, n, node.names.as_slice()),
        _ => Ok(()),
    }
}

/// Goes over the nodes of the tree: scopes begin, and the names of each node are bound.
#[tactic(auto, unfolding(crate::specs::Denotes::bound_to, crate::specs::Denotes::starts_to))]
fn walk(
    alloc: Global,
    tree: &Tree,
    declared: &[Declared],
    order: &Order,
    modules: &Places,
    locals: &mut Places,
    bound: &mut Vec<Option<usize>>,
    starts: &mut Vec<usize>,
) -> Result<(), Memory>
    requires chains { AreChains declared.now 0 order.now.heads.items order.now.nexts.items }
    requires size { length order.now.heads.items ≡ length tree.now }
    requires modules { AreModules declared.now (length declared.now) (get bytes_eq modules.now) }
    requires locals { AreLocals declared.now 0 0 (get bytes_eq locals.old) }
    requires bound { bound.old.items ≡ [] }
    requires starts { starts.old.items ≡ [] }
    ensures bound { OnOk result (bound.new.items ≡ bound_to tree.now declared.now (length tree.now)) }
    ensures starts { OnOk result (starts.new.items ≡ starts_to tree.now declared.now (length tree.now)) }
{
    for n in 0..tree.len() {
        let heads = order.heads.as_slice();
        enter_from(alloc, locals, declared, heads, order.nexts.as_slice(), n)?;
        starts.push(bound.len())?;
        bind_node(bound, declared, modules, locals, n, tree.node(n))?;
    }
    Ok(())
}

/// The same, where no module and no declaration is known yet.
fn bind_over(
    alloc: Global,
    tree: &Tree,
    declared: &[Declared],
    order: &Order,
    modules: &mut Places,
    bound: &mut Vec<Option<usize>>,
    starts: &mut Vec<usize>,
) -> Result<(), Memory>
    requires chains { AreChains declared.now 0 order.now.heads.items order.now.nexts.items }
    requires size { length order.now.heads.items ≡ length tree.now }
    requires modules { AreModules declared.now 0 (get bytes_eq modules.old) }
    requires bound { bound.old.items ≡ [] }
    requires starts { starts.old.items ≡ [] }
    ensures bound { OnOk result (bound.new.items ≡ bound_to tree.now declared.now (length tree.now)) }
    ensures starts { OnOk result (starts.new.items ≡ starts_to tree.now declared.now (length tree.now)) }
{
    note_modules(alloc, modules, declared)?;
    let mut locals = IndexMap::new(alloc);
    walk(
        alloc,
        tree,
        declared,
        order,
        modules,
        &mut locals,
        bound,
        starts,
    )
}

/// Binds the names of all nodes.
fn bind(
    alloc: Global,
    tree: &Tree,
    declared: &[Declared],
    bound: &mut Vec<Option<usize>>,
    starts: &mut Vec<usize>,
) -> Result<(), Memory>
    requires bound { bound.old.items ≡ [] }
    requires starts { starts.old.items ≡ [] }
    ensures bound { OnOk result (bound.new.items ≡ bound_to tree.now declared.now (length tree.now)) }
    ensures starts { OnOk result (starts.new.items ≡ starts_to tree.now declared.now (length tree.now)) }
{
    let order = order_of(alloc, declared, tree.len())?;
    let mut modules = IndexMap::new(alloc);
    bind_over(alloc, tree, declared, &order, &mut modules, bound, starts)
}

/// The declarations of a tree, and which of them each name denotes; `rounds` is what surrounds its nodes. The only error
/// is that memory runs out.
pub fn names_of(alloc: Global, tree: &Tree, rounds: &[Round]) -> Result<Names, Memory>
    requires all { length rounds.now ≡ length tree.now }
    ensures declared { IfOk result (λ names. names.declared.items ≡ declarations tree.now rounds.now) }
    ensures bound { IfOk result (λ names. names.bound.items ≡ bound_to tree.now names.declared.items (length tree.now)) }
    ensures starts { IfOk result (λ names. names.starts.items ≡ starts_to tree.now names.declared.items (length tree.now)) }
{
    let declared = declarations(alloc, tree, rounds)?;
    let mut bound = Vec::new(alloc);
    let mut starts = Vec::with_capacity(alloc, tree.len() as usize)?;
    bind(alloc, tree, declared.as_slice(), &mut bound, &mut starts)?;
    Ok(Names {
        declared,
        bound,
        starts,
    })
}
