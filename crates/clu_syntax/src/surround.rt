//! What surrounds the nodes of a tree, by one pass from the root down: each node says it of its children.

ghost use Rattle.std.specs.Prelude.{◌≡◌, ◌<◌, IfOk, All, List, length, vec_len};
ghost use Rattle.clu_syntax.specs.Rounds.{AreRounds, rounds_in, rounds_of, set_all};
ghost use Rattle.clu_syntax.specs.declared.round.Round.{Round};

use crate::bodies::{first_part, part_at};
use crate::inside::round_in;
use crate::round::{OUTSIDE, Round};
use clu_base::Memory;
use clu_tree::{Node, Tree};
use std::alloc::Global;

/// Writes what surrounds each child of the node n.
#[tactic(auto, unfolding(crate::specs::Rounds::rounds_in, crate::specs::Rounds::set_all))]
fn set_rounds(rounds: &mut Vec<Round>, tree: &Tree, n: u32, node: &Node, round: &Round)
    requires below { All (λ c. c < n) node.now.children }
    requires inside { n < length tree.now }
    requires all { vec_len rounds.old ≡ length tree.now }
    ensures { rounds.new.items ≡ set_all rounds.old.items node.now.children (rounds_of tree.now n node.now round.now) }
{
    let mut first = round.first;
    let mut part = first_part(tree, n, node, first);
    let mut children = node.children.as_slice();
    while let [c, rest @ ..] = children {
        let child = tree.node(*c);
        part = part_at(tree, n, node, child, &part, first, children);
        rounds[*c as usize] = round_in(tree, n, node, child, round, first, &part);
        first = *c + 1;
        children = rest;
    }
}

/// What surrounds each node of a tree, by its number. What surrounds a root is OUTSIDE, as fits the one root of a tree
/// that was parsed. The only error is that memory runs out.
pub fn rounds(alloc: Global, tree: &Tree) -> Result<Vec<Round>, Memory>
    ensures are { IfOk result (λ rs. AreRounds tree.now rs.items) }
    ensures only { IfOk result (λ rs. (others : List Round) → AreRounds tree.now others → others ≡ rs.items) }
{
    let len = tree.len();
    let mut rounds = vec![in alloc; OUTSIDE; len as usize]?;
    let mut n = len;
    while n > 0 {
        n -= 1;
        let node = tree.node(n);
        let round = rounds[n as usize];
        set_rounds(&mut rounds, tree, n, node, &round);
    }
    Ok(rounds)
}
