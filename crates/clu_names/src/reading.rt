//! The names of one node, out of those of all nodes.

ghost use Rattle.std.specs.Prelude.{◌≡◌, ◌<◌, ◌+◌, length, slice_get};
ghost use Rattle.clu_names.specs.Denotes.{bound_at, bound_to, starts_to, end_of};

use crate::binding::Names;
use clu_tree::Tree;

/// Where the names of the node n end, by where those of each node begin; all together are `all`.
fn end_of(starts: &[usize], all: usize, n: usize) -> usize
    requires { n < length starts.now }
    ensures { result ≡ end_of starts.now all n }
{
    match starts.get(n + 1) {
        Some(end) => *end,
        None => all,
    }
}

impl Names {
    /// What the names of the node n of the tree denote, in their order, by places in `declared`; None denotes no
    /// declaration of the file. These are the names of a Name, a NameT, a Restrict, a TypeSet, an Assign and a For, the word
    /// `rep`, and the names of all nodes that declare some. A name that is declared here is bound to what it denotes at
    /// its declaration: it is defined twice if that is another declaration of the module.
    pub fn of(&self, tree: &Tree, n: u32) -> &[Option<usize>]
        requires inside { n < length tree.now }
        requires bound { self.now.bound.items ≡ bound_to tree.now self.now.declared.items (length tree.now) }
        requires starts { self.now.starts.items ≡ starts_to tree.now self.now.declared.items (length tree.now) }
        ensures { result.now ≡ bound_at self.now.declared.items n (slice_get tree.now n) }
    {
        let bound = self.bound.as_slice();
        let starts = self.starts.as_slice();
        let at = n as usize;
        let from = starts[at];
        let to = end_of(starts, bound.len(), at);
        match bound.get(from..to) {
            Some(names) => names,
            None => &[],
        }
    }
}
