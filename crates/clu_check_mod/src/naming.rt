//! The other modules that a module's text names: its leading equates, heading, equates and bodies. A name that the text
//! has defined for itself is none of them (CLU Reference Manual, sections 4.2 and 7.2).

ghost use Rattle.std.specs.Prelude.{◌≡◌, ◌<◌, IfOk, OnOk, length, option_copied};
ghost use Rattle.clu_names.specs.Denotes.{bound_to, starts_to};
ghost use Rattle.clu_syntax.specs.Rounds.{round_at};
ghost use Rattle.clu_check_mod.specs.Naming.{AreNamed, declares_other, is_other_module, named_by_all, named_in, other_at, with_name, with_named, with_other};

use clu_base::{Bytes, Memory, Sequence};
use clu_names::{Declared, Names, names_of};
use clu_syntax::{Round, rounds};
use clu_tree::{NodeKind, Tree};
use std::alloc::Global;
use std::collections::BTreeSet;

/// Whether this declares a module other than the one at the nodes from `first` to `last`.
fn declares_other(found: &Declared, first: u32, last: u32) -> bool
    ensures { result ≡ declares_other first last found.now }
{
    found.unit.is_none() && (found.node < first || last < found.node)
}

/// Whether a name denotes a module other than the one at the nodes from `first` to `last`: a name that denotes no
/// declaration of an accepted file is a kept module's, or `stream`.
fn is_other_module(declared: &[Declared], denotes: Option<usize>, first: u32, last: u32) -> bool
    ensures { result ≡ is_other_module declared.now first last denotes }
{
    let Some(at) = denotes else {
        return true;
    };
    match declared.get(at) {
        Some(found) => declares_other(found, first, last),
        None => true,
    }
}

/// The name of another module, or of the type `stream`, that the node n uses.
fn other_at<'a>(tree: &'a Tree, names: &Names, first: u32, last: u32, n: u32) -> Option<&'a Bytes>
    requires inside { n < length tree.now }
    requires bound { names.now.bound.items ≡ bound_to tree.now names.now.declared.items (length tree.now) }
    requires starts { names.now.starts.items ≡ starts_to tree.now names.now.declared.items (length tree.now) }
    ensures { option_copied result ≡ other_at tree.now names.now.declared.items first last n }
{
    let node = tree.node(n);
    match node.kind {
        NodeKind::Name | NodeKind::NameT => {
            let [name, ..] = node.names.as_slice() else {
                return None;
            };
            let [denotes, ..] = names.of(tree, n) else {
                return None;
            };
            if is_other_module(names.declared.as_slice(), *denotes, first, last) {
                Some(name)
            } else {
                None
            }
        }
        _ => None,
    }
}

/// Notes a module that is named; `stream` is the built-in type.
fn meet(alloc: Global, found: &mut BTreeSet<Bytes>, name: &Bytes) -> Result<(), Memory>
    ensures { OnOk result (found.new.keys ≡ with_name found.old.keys name.now) }
{
    if name.as_slice() != b"stream".as_slice() {
        found.insert(name.copy(alloc)?)?;
    }
    Ok(())
}

/// Notes the module that the node n names, if it is another one.
fn meet_at(
    alloc: Global,
    found: &mut BTreeSet<Bytes>,
    tree: &Tree,
    names: &Names,
    first: u32,
    last: u32,
    n: u32,
) -> Result<(), Memory>
    requires inside { n < length tree.now }
    requires bound { names.now.bound.items ≡ bound_to tree.now names.now.declared.items (length tree.now) }
    requires starts { names.now.starts.items ≡ starts_to tree.now names.now.declared.items (length tree.now) }
    ensures { OnOk result (found.new.keys ≡ with_other tree.now names.now.declared.items first last found.old.keys n) }
{
    match other_at(tree, names, first, last, n) {
        Some(name) => meet(alloc, found, name),
        None => Ok(()),
    }
}

/// Notes the modules that the nodes from `first` to `last` name.
fn meet_all(
    alloc: Global,
    found: &mut BTreeSet<Bytes>,
    tree: &Tree,
    names: &Names,
    first: u32,
    last: u32,
) -> Result<(), Memory>
    requires inside { last < length tree.now }
    requires bound { names.now.bound.items ≡ bound_to tree.now names.now.declared.items (length tree.now) }
    requires starts { names.now.starts.items ≡ starts_to tree.now names.now.declared.items (length tree.now) }
    ensures { OnOk result (found.new.keys ≡ with_named tree.now names.now.declared.items first last found.old.keys) }
{
    for n in first..last {
        meet_at(alloc, found, tree, names, first, last, n)?;
    }
    Ok(())
}

/// The modules that the nodes from `first` to `last` name, ascending.
fn named_in(
    alloc: Global,
    tree: &Tree,
    names: &Names,
    first: u32,
    last: u32,
) -> Result<Sequence<Bytes>, Memory>
    requires inside { last < length tree.now }
    requires bound { names.now.bound.items ≡ bound_to tree.now names.now.declared.items (length tree.now) }
    requires starts { names.now.starts.items ≡ starts_to tree.now names.now.declared.items (length tree.now) }
    ensures { IfOk result (λ named. named ≡ named_in tree.now names.now.declared.items first last) }
{
    // In a box, so that a proof about who owns it need not follow each part.
    let mut found = Box::new(alloc, BTreeSet::new(alloc))?;
    meet_all(alloc, &mut found, tree, names, first, last)?;
    let mut ascending = Vec::new(alloc);
    for name in Box::into_inner(found) {
        ascending.push(name)?;
    }
    Ok(Sequence::from_vec(ascending))
}

/// The first node below the node n.
fn first_below(rounds: &[Round], n: u32) -> u32
    ensures { result ≡ (round_at rounds.now n).first }
{
    match rounds.get(n as usize) {
        Some(round) => round.first,
        None => 0,
    }
}

/// Of each module of a file, in the order of the text, the names of the modules other than its own that its text names,
/// ascending. The file is one that was accepted. The only error is that memory runs out.
pub fn named(alloc: Global, tree: &Tree) -> Result<Vec<Sequence<Bytes>>, Memory>
    ensures { IfOk result (λ named. AreNamed tree.now named.items) }
{
    let rounds = rounds(alloc, tree)?;
    let names = names_of(alloc, tree, rounds.as_slice())?;
    named_by_all(alloc, tree, rounds.as_slice(), &names)
}

fn named_by_all(
    alloc: Global,
    tree: &Tree,
    rounds: &[Round],
    names: &Names,
) -> Result<Vec<Sequence<Bytes>>, Memory>
    requires bound { names.now.bound.items ≡ bound_to tree.now names.now.declared.items (length tree.now) }
    requires starts { names.now.starts.items ≡ starts_to tree.now names.now.declared.items (length tree.now) }
    ensures { IfOk result (λ named. named.items ≡ named_by_all tree.now rounds.now names.now.declared.items) }
{
    let mut all = Vec::new(alloc);
    for module in tree.modules() {
        all.push(named_in(alloc, tree, names, first_below(rounds, *module), *module)?)?;
    }
    Ok(all)
}
