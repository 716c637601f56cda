//! The bodies of a node: a loop and an arm have one, an If one for each condition and one after `else`, a Tagcase one
//! after `others`. A body is a run of children, with what stands before it.

ghost use Rattle.std.specs.Prelude.{◌≡◌, ◌<◌, ◌∷◌, All, length, if◌then◌else◌};
ghost use Rattle.clu_syntax.specs.Bodies.{is_behind, differ, after_heads, last_of_items, last_of_body, opened, begins, part_at, first_part};

use crate::kinds::is_head;
use clu_tree::{Node, Tree};

/// Where a child stands among the bodies of its parent.
#[derive(Clone, Copy)]
pub struct Part {
    /// The first and the last node of the body in which or before which it stands.
    pub from: u32,
    pub last: u32,
    /// Whether it stands before the body.
    pub head: bool,
    /// Whether it stands after the word or mark that is the value of its parent.
    pub behind: bool,
}

/// Whether a child stands after the value of its parent, as the body after `else` does.
pub fn is_behind(node: &Node, child: &Node) -> bool
    ensures { result ≡ is_behind node.now child.now }
{
    match node.value_token {
        Some(token) => child.first > token,
        None => false,
    }
}

fn differ(a: bool, b: bool) -> bool
    ensures { result ≡ differ a b }
{
    if a { !b } else { b }
}

/// The number after the heads with which these children of the node n begin, the first of which begins with `first`.
#[tactic(auto, unfolding(crate::specs::Bodies::after_heads))]
fn after_heads(tree: &Tree, n: u32, mut first: u32, mut children: &[u32]) -> u32
    requires below { All (λ c. c < n) children.now }
    requires inside { n < length tree.now }
    ensures { result ≡ after_heads tree.now first children.entry.now }
{
    while let [c, rest @ ..] = children {
        if !is_head(tree.node(*c).kind) {
            return first;
        }
        first = *c + 1;
        children = rest;
    }
    first
}

/// The last child before the next head or the other side of the value, where `last` is the child before these.
#[tactic(auto, unfolding(crate::specs::Bodies::last_of_items))]
fn last_of_items(tree: &Tree, node: &Node, behind: bool, mut last: u32, mut children: &[u32]) -> u32
    requires { All (λ c. c < length tree.now) children.now }
    ensures { result ≡ last_of_items tree.now node.now behind last children.entry.now }
{
    while let [c, rest @ ..] = children {
        let child = tree.node(*c);
        if is_head(child.kind) || differ(is_behind(node, child), behind) {
            return last;
        }
        last = *c;
        children = rest;
    }
    last
}

/// The last node of the body with which these children begin, after its heads; if the body is empty, the last of the
/// heads.
#[tactic(auto, unfolding(crate::specs::Bodies::last_of_body))]
fn last_of_body(tree: &Tree, node: &Node, mut last: u32, mut children: &[u32]) -> u32
    requires { All (λ c. c < length tree.now) children.now }
    ensures { result ≡ last_of_body tree.now node.now last children.entry.now }
{
    while let [c, rest @ ..] = children {
        let child = tree.node(*c);
        if !is_head(child.kind) {
            return last_of_items(tree, node, is_behind(node, child), last, children);
        }
        last = *c;
        children = rest;
    }
    last
}

/// Whether a body begins at a child: heads begin after what is none, or the value of the parent parts it from the child
/// before.
fn begins(before: &Part, head: bool, behind: bool) -> bool
    ensures { result ≡ begins before.now head behind }
{
    (head && !before.head) || differ(behind, before.behind)
}

/// The body that begins with these children of the node n, the first of which begins with `first`.
fn opened(
    tree: &Tree,
    n: u32,
    node: &Node,
    first: u32,
    head: bool,
    behind: bool,
    children: &[u32],
) -> Part
    requires below { All (λ c. c < n) children.now }
    requires inside { n < length tree.now }
    ensures { result ≡ opened tree.now node.now first head behind children.now }
{
    Part {
        from: after_heads(tree, n, first, children),
        last: last_of_body(tree, node, first, children),
        head,
        behind,
    }
}

/// Where the first of these children of the node n stands, which begins with `first`; `before` is where the child before
/// it stands.
pub fn part_at(
    tree: &Tree,
    n: u32,
    node: &Node,
    child: &Node,
    before: &Part,
    first: u32,
    children: &[u32],
) -> Part
    requires below { All (λ c. c < n) children.now }
    requires inside { n < length tree.now }
    ensures { result ≡ part_at tree.now node.now child.now before.now first children.now }
{
    let head = is_head(child.kind);
    let behind = is_behind(node, child);
    if begins(before, head, behind) {
        opened(tree, n, node, first, head, behind, children)
    } else {
        Part {
            from: before.from,
            last: before.last,
            head,
            behind,
        }
    }
}

/// What counts as standing before the first of all children of the node n.
pub fn first_part(tree: &Tree, n: u32, node: &Node, first: u32) -> Part
    requires below { All (λ c. c < n) node.now.children }
    requires inside { n < length tree.now }
    ensures { result ≡ first_part tree.now node.now first }
{
    opened(tree, n, node, first, true, false, node.children.as_slice())
}
