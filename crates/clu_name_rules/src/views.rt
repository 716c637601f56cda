//! What nodes are made of, if they are of the kind that is asked for: so that no rule asks anything of its caller.

ghost use Rattle.std.specs.Prelude.{◌≡◌, ◌<◌, IsTrue, length, slice_get};
ghost use Rattle.clu_syntax.specs.Kinds.{kind_at};
ghost use Rattle.clu_head.specs.There.{is_there};

use clu_bindings::File;
use clu_head::is_at;
use clu_tree::NodeKind;

/// Whether the node n is there and of this kind.
pub fn is_kind(f: File<'_>, kind: NodeKind, n: u32) -> bool
    ensures exact { result ≡ is_there kind (slice_get f.entry.syntax.now n) }
    ensures inside { IsTrue result → n < length f.entry.syntax.now }
    ensures kind { IsTrue result → kind_at f.entry.syntax.now n ≡ kind }
{
    is_at(f.syntax.tree(), n, kind)
}
