//! The specifications under which a file is compiled: those of its own modules, and of all others of the library.

ghost use Rattle.std.specs.Prelude.{◌≡◌, ◌-◌, IfErr, IfOk, IfSome, IsSome, List, OnOk, Some, length, option_and_then, slice_get, take};
ghost use Rattle.std.specs.Option.{option_copied};
ghost use Rattle.clu_tree.specs.Nodes.{modules};
ghost use Rattle.clu_tree.specs.declared.node.Node.{Node};
ghost use Rattle.clu_head.specs.Whole.{IsWhole};
ghost use Rattle.clu_check_mod.specs.Answered.{IfLost, IsNoRefusal};
ghost use Rattle.clu_check_mod.specs.Modules.{AreMade, AreOf, AreSpecified, BeginWithOwn, IsMade, IsMadeIf, IsSpecified, definition_of, name_of};

use crate::errors::CheckError;
use clu_base::{Bytes, Memory};
use clu_head::{Head, spec_of};
use clu_tree::{Node, Tree};
use clu_types::{Spec, Specs, TypeArena};
use indexmap::IndexSet;
use std::alloc::Global;

/// The name of the module n: the first of its routine or cluster.
fn name_of(tree: &Tree, n: u32) -> Option<&Bytes>
    ensures { option_copied result ≡ name_of tree.now n }
{
    match definition_of(tree, n) {
        Some(definition) => definition.names.as_slice().first(),
        None => None,
    }
}

/// The routine or cluster of the module n: its last child.
fn definition_of(tree: &Tree, n: u32) -> Option<&Node>
    ensures { option_copied result ≡ definition_of tree.now n }
{
    match node_at(tree, n) {
        Some(node) => last_child(tree, node),
        None => None,
    }
}

fn last_child<'a>(tree: &'a Tree, node: &Node) -> Option<&'a Node>
    ensures { option_copied result ≡ option_and_then (slice_get tree.now) (slice_get node.now.children (length node.now.children - 1)) }
{
    match node.children.as_slice().last() {
        Some(child) => node_at(tree, *child),
        None => None,
    }
}

fn node_at(tree: &Tree, n: u32) -> Option<&Node>
    ensures { option_copied result ≡ slice_get tree.now n }
{
    if n < tree.len() {
        Some(tree.node(n))
    } else {
        None
    }
}

/// The specification that is made of a head, if none of its types is lost.
fn spec_made(alloc: Global, types: &TypeArena, head: &Head) -> Result<Option<Box<Spec>>, Memory>
    ensures name { IfOk result (λ found. IfSome found (λ spec. spec.value.name ≡ head.now.name)) }
    ensures made { IfOk result (λ found. IfSome found (λ spec. IsMade types.now head.now spec.value)) }
    ensures whole { IfOk result (λ found. IsWhole types.now head.now → IsSome found) }
{
    spec_of(alloc, types, head)
}

/// The specification of a module of this name, if this is its head and none of its types is lost.
#[tactic(auto, using(crate::proofs::Losing::other_name))]
fn spec_if(
    alloc: Global,
    types: &TypeArena,
    head: &Head,
    name: &Bytes,
) -> Result<Option<Box<Spec>>, Memory>
    ensures named { IfOk result (λ found. IfSome found (λ spec. spec.value.name ≡ name.now)) }
    ensures made { IfOk result (λ found. IfSome found (λ spec. IsMade types.now head.now spec.value)) }
    ensures whole { IfOk result (λ found. head.now.name ≡ name.now → IsWhole types.now head.now → IsSome found) }
{
    if head.name == *name {
        Ok(spec_made(alloc, types, head)?)
    } else {
        Ok(None)
    }
}

/// The same, if there is a head.
fn spec_by(
    alloc: Global,
    types: &TypeArena,
    head: Option<&Head>,
    name: &Bytes,
) -> Result<Option<Box<Spec>>, Memory>
    ensures named { IfOk result (λ found. IfSome found (λ spec. spec.value.name ≡ name.now)) }
    ensures made { IfOk result (λ found. IfSome found (λ spec. IsMadeIf types.now (option_copied head.entry) spec.value)) }
    ensures whole { IfOk result (λ found. IfSome (option_copied head.entry) (λ h. h.name ≡ name.now → IsWhole types.now h → IsSome found)) }
{
    match head {
        Some(head) => Ok(spec_if(alloc, types, head, name)?),
        None => Ok(None),
    }
}

/// The same, without which the check can't go on.
fn spec_named(
    alloc: Global,
    types: &TypeArena,
    head: Option<&Head>,
    name: &Bytes,
) -> Result<Box<Spec>, CheckError>
    ensures named { IfOk result (λ spec. spec.value.name ≡ name.now) }
    ensures made { IfOk result (λ spec. IsMadeIf types.now (option_copied head.entry) spec.value) }
    ensures refused { IfErr result IsNoRefusal }
    ensures lost { IfErr result (λ e. IfLost e (IfSome (option_copied head.entry) (λ h. h.name ≡ name.now → IsWhole types.now h → ⊥))) }
{
    match spec_by(alloc, types, head, name)? {
        Some(spec) => Ok(spec),
        None => Err(CheckError::NotYet),
    }
}

/// The specification of the module n. A type of a heading is lost only where a rule is violated in the heading, which the walk
/// has found before.
#[tactic(auto, using(crate::proofs::Losing::none_named, crate::proofs::Losing::none_unnamed))]
fn own_spec(
    alloc: Global,
    tree: &Tree,
    types: &TypeArena,
    head: Option<&Head>,
    n: u32,
) -> Result<Box<Spec>, CheckError>
    ensures named { IfOk result (λ spec. name_of tree.now n ≡ Some spec.value.name) }
    ensures made { IfOk result (λ spec. IsMadeIf types.now (option_copied head.entry) spec.value) }
    ensures refused { IfErr result IsNoRefusal }
    ensures lost { IfErr result (λ e. IfLost e (IfSome (option_copied head.entry) (λ h. IsSpecified tree.now types.now n h → ⊥))) }
{
    match name_of(tree, n) {
        Some(name) => Ok(spec_named(alloc, types, head, name)?),
        None => Err(CheckError::NotYet),
    }
}

fn head_at(heads: &[Head], place: usize) -> Option<&Head>
    ensures { option_copied result ≡ slice_get heads.now place }
{
    heads.get(place)
}

/// The specifications of the modules of a tree with these heads, in the order of the text.
pub fn own_specs(
    alloc: Global,
    tree: &Tree,
    types: &TypeArena,
    heads: &[Head],
) -> Result<Vec<Spec>, CheckError>
    ensures own { IfOk result (λ own. AreOf tree.now (modules tree.now) own.items) }
    ensures made { IfOk result (λ own. AreMade types.now heads.now own.items) }
    ensures refused { IfErr result IsNoRefusal }
    ensures lost { IfErr result (λ e. IfLost e (AreSpecified tree.now types.now heads.now → ⊥)) }
{
    let mut own = Vec::new(alloc);
    let numbers = tree.modules();
    for n in numbers {
        let spec = own_spec(alloc, tree, types, head_at(heads, own.len()), *n)?;
        own.push(Box::into_inner(spec))?;
    }
    Ok(own)
}

/// Adds after the specifications of a file, ascending by name, those of all other modules of the library.
#[tactic(auto, using(crate::proofs::OwnSpecs::BeginWithOwn_behind, crate::proofs::OwnSpecs::kept_behind))]
pub fn add_others(alloc: Global, own: &mut Vec<Spec>, library: &Specs) -> Result<(), Memory>
    ensures begins { OnOk result ((nodes : List Node) → AreOf nodes (modules nodes) own.old.items → BeginWithOwn nodes own.new.items) }
    ensures kept { OnOk result (take (length own.old.items) own.new.items ≡ own.old.items) }
{
    let mut others = others(alloc, own.as_slice(), library)?;
    own.append(&mut others)?;
    Ok(())
}

fn others(alloc: Global, own: &[Spec], library: &Specs) -> Result<Vec<Spec>, Memory> {
    let mut names = IndexSet::new(alloc);
    for spec in own {
        names.insert(spec.name.copy(alloc)?)?;
    }
    others_than(alloc, &names, library)
}

fn others_than(
    alloc: Global,
    names: &IndexSet<Bytes>,
    library: &Specs,
) -> Result<Vec<Spec>, Memory> {
    let mut others = Vec::new(alloc);
    for n in 0..u32::MAX {
        let Some(spec) = library.at(n) else {
            break;
        };
        if !names.contains(&spec.name) {
            others.push(spec.copy(alloc)?)?;
        }
    }
    Ok(others)
}
