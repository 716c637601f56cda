//! How the children and names of a node fall into parts: a run of children of one kind, the children of a part that may
//! be missing, the names before the last.

ghost use Rattle.std.specs.Prelude.{◌≡◌, ◌<◌, ◌≤◌, ◌-◌, All, length, take, drop, get_or, slice_get, option_map, Some};
ghost use Rattle.clu_tree.specs.Nodes.{IsTree};
ghost use Rattle.clu_syntax.specs.Kinds.{kind_at};
ghost use Rattle.clu_syntax.specs.Parts.{option_parts, type_option_parts};
ghost use Rattle.clu_syntax.specs.Splits.{child, last_child, name_at, last_option, leading, leading_types, leading_items, leading_before, run, after_run, parts, after_one, one_of, type_of, after_option, is_of};

use crate::bodies::is_behind;
use crate::kinds::{is_expression, is_type};
use clu_base::Bytes;
use clu_tree::{Node, NodeKind, Tree};

/// The child of this place, from 0, of the node n.
pub fn child(n: u32, node: &Node, k: usize) -> u32
    requires enough { k < length node.now.children }
    requires below { All (λ c. c < n) node.now.children }
    ensures is { result ≡ child k node.now }
    ensures below { result < n }
{
    node.children.as_slice()[k]
}

/// The last child of the node n.
pub fn last_child(n: u32, node: &Node) -> u32
    requires enough { 0 < length node.now.children }
    requires below { All (λ c. c < n) node.now.children }
    ensures is { result ≡ last_child node.now }
    ensures below { result < n }
{
    let children = node.children.as_slice();
    children[children.len() - 1]
}

/// The name of this place, from 0.
pub fn name_at(names: &[Bytes], k: usize) -> &Bytes
    requires { k < length names.now }
    ensures { result.now ≡ name_at k names.now }
{
    &names[k]
}

/// The last name, if there is one.
pub fn last_option(names: &[Bytes]) -> Option<&Bytes>
    ensures { option_map (λ name. name.now) result ≡ last_option names.now }
{
    match names {
        [] => None,
        [_, rest @ ..] => Some(name_at(names, rest.len())),
    }
}

/// The names before the last.
pub fn but_last(names: &[Bytes]) -> &[Bytes]
    requires { 0 < length names.now }
    ensures { result.now ≡ take (length names.now - 1) names.now }
{
    &names[..names.len() - 1]
}

fn is_of(kind: NodeKind, other: NodeKind) -> bool
    ensures { result ≡ is_of kind other }
{
    other == kind
}

/// How many children of this kind a list begins with.
#[tactic(auto, unfolding(crate::specs::Splits::leading))]
fn leading(tree: &Tree, n: u32, kind: NodeKind, children: &[u32]) -> usize
    requires inside { n < length tree.now }
    requires below { All (λ c. c < n) children.now }
    ensures count { result ≡ leading tree.now kind children.now }
    ensures within { result ≤ length children.now }
{
    let mut rest = children;
    let mut count = 0;
    while let [c, more @ ..] = rest {
        if !is_of(kind, tree.node(*c).kind) {
            return count;
        }
        count += 1;
        rest = more;
    }
    count
}

/// How many types a list begins with.
#[tactic(auto, unfolding(crate::specs::Splits::leading_types))]
pub fn leading_types(tree: &Tree, n: u32, children: &[u32]) -> usize
    requires inside { n < length tree.now }
    requires below { All (λ c. c < n) children.now }
    ensures count { result ≡ leading_types tree.now children.now }
    ensures within { result ≤ length children.now }
{
    let mut rest = children;
    let mut count = 0;
    while let [c, more @ ..] = rest {
        if !is_type(tree.node(*c).kind) {
            return count;
        }
        count += 1;
        rest = more;
    }
    count
}

/// How many children that are no expressions a list begins with.
#[tactic(auto, unfolding(crate::specs::Splits::leading_items))]
pub fn leading_items(tree: &Tree, n: u32, children: &[u32]) -> usize
    requires inside { n < length tree.now }
    requires below { All (λ c. c < n) children.now }
    ensures count { result ≡ leading_items tree.now children.now }
    ensures within { result ≤ length children.now }
{
    let mut rest = children;
    let mut count = 0;
    while let [c, more @ ..] = rest {
        if is_expression(tree.node(*c).kind) {
            return count;
        }
        count += 1;
        rest = more;
    }
    count
}

/// How many children that stand before the value of the node a list begins with.
#[tactic(auto, unfolding(crate::specs::Splits::leading_before))]
pub fn leading_before(tree: &Tree, n: u32, node: &Node, children: &[u32]) -> usize
    requires inside { n < length tree.now }
    requires below { All (λ c. c < n) children.now }
    ensures count { result ≡ leading_before tree.now node.now children.now }
    ensures within { result ≤ length children.now }
{
    let mut rest = children;
    let mut count = 0;
    while let [c, more @ ..] = rest {
        if is_behind(node, tree.node(*c)) {
            return count;
        }
        count += 1;
        rest = more;
    }
    count
}

/// The children of this kind with which a list begins, and those after them.
pub fn run<'a>(tree: &Tree, n: u32, kind: NodeKind, children: &'a [u32]) -> (&'a [u32], &'a [u32])
    requires inside { n < length tree.now }
    requires below { All (λ c. c < n) children.now }
    ensures run { result.0.now ≡ run tree.now kind children.now }
    ensures after { result.1.now ≡ after_run tree.now kind children.now }
    ensures kinds { All (λ c. kind_at tree.now c ≡ kind) result.0.now }
    ensures run_below { All (λ c. c < n) result.0.now }
    ensures after_below { All (λ c. c < n) result.1.now }
{
    children.split_at(leading(tree, n, kind, children))
}

/// The children of the first node of a list, if that is of this kind, and the list without it.
#[tactic(auto, using(crate::proofs::Below::before_more))]
pub fn parts<'a>(
    tree: &'a Tree,
    n: u32,
    kind: NodeKind,
    children: &'a [u32],
) -> (&'a [u32], &'a [u32])
    requires inside { n < length tree.now }
    requires below { All (λ c. c < n) children.now }
    ensures parts { result.0.now ≡ parts tree.now kind children.now }
    ensures after { result.1.now ≡ after_one tree.now kind children.now }
    ensures parts_below { All (λ c. c < n) result.0.now }
    ensures after_below { All (λ c. c < n) result.1.now }
{
    match children {
        [] => (&[], children),
        [c, rest @ ..] => {
            let node = tree.node(*c);
            if is_of(kind, node.kind) {
                (node.children.as_slice(), rest)
            } else {
                (&[], children)
            }
        }
    }
}

/// The first node of a list, if it is of this kind.
pub fn one_of(tree: &Tree, n: u32, kind: NodeKind, children: &[u32]) -> Option<u32>
    requires inside { n < length tree.now }
    requires below { All (λ c. c < n) children.now }
    ensures is { result ≡ one_of tree.now kind children.now }
    ensures parts { option_parts tree.now kind n result }
{
    match children {
        [] => None,
        [c, ..] => {
            if is_of(kind, tree.node(*c).kind) {
                Some(*c)
            } else {
                None
            }
        }
    }
}

/// The first node of a list, if it is a type.
pub fn type_of(tree: &Tree, n: u32, children: &[u32]) -> Option<u32>
    requires inside { n < length tree.now }
    requires below { All (λ c. c < n) children.now }
    ensures is { result ≡ type_of tree.now children.now }
    ensures below { type_option_parts n result }
{
    match children {
        [] => None,
        [c, ..] => {
            if is_type(tree.node(*c).kind) {
                Some(*c)
            } else {
                None
            }
        }
    }
}

/// What stands after the first node, if that was taken.
pub fn after_option(n: u32, taken: Option<u32>, children: &[u32]) -> &[u32]
    requires { All (λ c. c < n) children.now }
    ensures is { result.now ≡ after_option taken children.now }
    ensures below { All (λ c. c < n) result.now }
{
    match taken {
        None => children,
        Some(_) => match children {
            [] => children,
            [_, rest @ ..] => rest,
        },
    }
}
