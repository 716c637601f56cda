//! The declarations that the names of a node denote.

ghost use Rattle.std.specs.Prelude.{◌≡◌, length, slice_get};
ghost use Rattle.clu_names.specs.Denotes.{bound_at, bound_to, starts_to};
ghost use Rattle.clu_head.specs.Sets.{first_in, second_in};

use clu_names::Names;
use clu_tree::Tree;

/// The place of the declaration that the first name of the node n denotes.
pub fn first_bound(tree: &Tree, names: &Names, n: u32) -> Option<usize>
    requires bound { names.now.bound.items ≡ bound_to tree.now names.now.declared.items (length tree.now) }
    requires starts { names.now.starts.items ≡ starts_to tree.now names.now.declared.items (length tree.now) }
    ensures { result ≡ first_in (bound_at names.now.declared.items n (slice_get tree.now n)) }
{
    if n < tree.len() {
        match names.of(tree, n) {
            [bound, ..] => *bound,
            [] => None,
        }
    } else {
        None
    }
}

/// The same of its second name.
pub fn second_bound(tree: &Tree, names: &Names, n: u32) -> Option<usize>
    requires bound { names.now.bound.items ≡ bound_to tree.now names.now.declared.items (length tree.now) }
    requires starts { names.now.starts.items ≡ starts_to tree.now names.now.declared.items (length tree.now) }
    ensures { result ≡ second_in (bound_at names.now.declared.items n (slice_get tree.now n)) }
{
    if n < tree.len() {
        match names.of(tree, n) {
            [_, bound, ..] => *bound,
            _ => None,
        }
    } else {
        None
    }
}
