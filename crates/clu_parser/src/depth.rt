//! Depth: how far a node stands below the file's node, so that a module's node is at depth 1.

ghost use Rattle.std.specs.Prelude.{◌≡◌, ◌<◌, ◌^◌, length, All, IsTrue, IfOk, MatchBool, slice_get, Some};
ghost use Rattle.clu_parser.specs.Depths.{set_all, AreDepths, IsBefore, IsNotBefore, IsEarlier, IsFirstTooDeep};

use crate::levels::DEEPEST;
use clu_base::{Memory, Place};
use clu_tree::Tree;
use std::alloc::Global;

/// Whether the first place comes before the second in the text.
fn is_before(a: Place, b: Place) -> bool
    ensures { MatchBool result (IsBefore a b) (IsNotBefore a b) }
{
    if a.line == b.line {
        a.col < b.col
    } else {
        a.line < b.line
    }
}

/// Gives each of the nodes this depth.
fn set_all(depths: &mut Vec<u32>, nodes: &[u32], depth: u32)
    requires { All (λ n. n < length depths.old.items) nodes.now }
    ensures { depths.new.items ≡ set_all depths.old.items nodes.now depth }
{
    for n in nodes {
        depths[*n as usize] = depth;
    }
}

/// The depth of each node.
fn depths(alloc: Global, tree: &Tree) -> Result<Vec<u32>, Memory>
    ensures { IfOk result (λ depths. AreDepths tree.now depths.items) }
{
    let mut depths = vec![in alloc; 0u32; tree.len() as usize]?;
    let mut n = tree.len();
    'nodes: while n > 0 {
        n -= 1;
        let below = depths.as_slice()[n as usize] + 1;
        set_all(&mut depths, tree.node(n).children.as_slice(), below);
    }
    Ok(depths)
}

/// The earlier of a place that was found and another.
fn earlier(first: Option<Place>, place: Place) -> Place
    ensures { IsEarlier first place result }
{
    match first {
        Some(found) => {
            if is_before(place, found) {
                place
            } else {
                found
            }
        }
        None => place,
    }
}

/// The first place in the text of a node that is deeper than the deepest.
pub fn first_too_deep(alloc: Global, tree: &Tree) -> Result<Option<Place>, Memory>
    ensures { IfOk result (IsFirstTooDeep tree.now) }
{
    let all = depths(alloc, tree)?;
    let depths = all.as_slice();
    let mut first: Option<Place> = None;
    for n in 0..tree.len() {
        if depths[n as usize] > DEEPEST {
            first = Some(earlier(first, tree.node(n).place));
        }
    }
    Ok(first)
}
