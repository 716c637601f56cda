//! What surrounds a child: as round its parent, but for what the parent is.

ghost use Rattle.std.specs.Prelude.{◌≡◌, ◌<◌, All, length};
ghost use Rattle.clu_syntax.specs.Rounds.{body_in, unit_in, cluster_in, routine_in, guard_in, loop_in, heading_in, is_of_cluster, round_in};

use crate::bodies::Part;
use crate::kinds::{is_arm, is_equate, is_of_heading, is_outside};
use crate::roles::{has_no_name, role_in};
use crate::round::Round;
use clu_tree::{Node, NodeKind, Tree};

/// The body round a child of this kind, which stands at `part` in the node n.
fn body_in(kind: NodeKind, child: NodeKind, n: u32, round: &Round, part: &Part) -> (u32, u32)
    ensures { result ≡ body_in kind child n round.now part.now }
{
    match kind {
        NodeKind::File
        | NodeKind::Module
        | NodeKind::Routine
        | NodeKind::Cluster
        | NodeKind::TypeSet
        | NodeKind::Begin => (round.first, n),
        NodeKind::While
        | NodeKind::For
        | NodeKind::If
        | NodeKind::Tagcase
        | NodeKind::TagArm
        | NodeKind::When
        | NodeKind::Others => {
            if is_outside(child) {
                (round.body_first, round.body_last)
            } else {
                (part.from, part.last)
            }
        }
        _ => (round.body_first, round.body_last),
    }
}

fn unit_in(kind: NodeKind, n: u32, round: &Round) -> Option<u32>
    ensures { result ≡ unit_in kind n round.now }
{
    match kind {
        NodeKind::Module => Some(n),
        _ => round.unit,
    }
}

fn cluster_in(kind: NodeKind, n: u32, round: &Round) -> Option<u32>
    ensures { result ≡ cluster_in kind n round.now }
{
    match kind {
        NodeKind::Cluster => Some(n),
        _ => round.cluster,
    }
}

fn routine_in(kind: NodeKind, n: u32, round: &Round) -> Option<u32>
    ensures { result ≡ routine_in kind n round.now }
{
    match kind {
        NodeKind::Routine => Some(n),
        _ => round.routine,
    }
}

/// The Except or Resignal in whose statement a child of this kind stands.
fn guard_in(kind: NodeKind, child: NodeKind, n: u32, round: &Round) -> Option<u32>
    ensures { result ≡ guard_in kind child n round.now }
{
    match kind {
        NodeKind::Routine => None,
        NodeKind::Resignal => Some(n),
        NodeKind::Except => { if is_arm(child) { round.guard } else { Some(n) } }
        _ => round.guard,
    }
}

fn loop_in(kind: NodeKind, round: &Round) -> bool
    ensures { result ≡ loop_in kind round.now }
{
    match kind {
        NodeKind::While | NodeKind::For => true,
        NodeKind::Routine => false,
        _ => round.in_loop,
    }
}

/// Whether a child belongs to the heading of a module. An Equate without a name is that of `rep`.
fn heading_in(kind: NodeKind, child: &Node, round: &Round) -> bool
    ensures { result ≡ heading_in kind child.now round.now }
{
    match kind {
        NodeKind::Module => is_equate(child.kind),
        NodeKind::Routine => is_of_heading(child.kind),
        NodeKind::Cluster => is_of_cluster(child.kind, child),
        _ => round.heading,
    }
}

/// Whether a child of a Cluster belongs to its heading.
fn is_of_cluster(kind: NodeKind, child: &Node) -> bool
    ensures { result ≡ is_of_cluster kind child.now.names }
{
    match kind {
        NodeKind::Parm | NodeKind::Where => true,
        NodeKind::Equate => !has_no_name(child),
        _ => false,
    }
}

/// What surrounds a child of the node n that begins with `first` and stands at `part`.
pub fn round_in(
    tree: &Tree,
    n: u32,
    node: &Node,
    child: &Node,
    round: &Round,
    first: u32,
    part: &Part,
) -> Round
    requires { All (λ c. c < length tree.now) node.now.children }
    ensures { result ≡ round_in tree.now n node.now child.now round.now first part.now }
{
    let (body_first, body_last) = body_in(node.kind, child.kind, n, round, part);
    Round {
        parent: Some(n),
        first,
        body_first,
        body_last,
        unit: unit_in(node.kind, n, round),
        cluster: cluster_in(node.kind, n, round),
        routine: routine_in(node.kind, n, round),
        guard: guard_in(node.kind, child.kind, n, round),
        in_loop: loop_in(node.kind, round),
        heading: heading_in(node.kind, child, round),
        role: role_in(tree, node, child.kind),
    }
}
