//! What is lost matters to no walk: where the value of a node is lost a type is refused there or below it, and that is a fault
//! before the node on the same walk.

ghost use Rattle.std.specs.Prelude.{◌≡◌, ◌<◌, ℕ, false, is_some, length, true, Option};
ghost use Rattle.clu_base.specs.declared.rules.Rule.{Rule};
ghost use Rattle.clu_settle.specs.Lost.{IsLost};
ghost use Rattle.clu_settle.specs.Meant.{meanings_of};
ghost use Rattle.clu_checking.specs.Files.{File, kind_in};
ghost use Rattle.clu_checking.specs.Refusals.{Walk, fault_at, is_no_type_at};
ghost use Rattle.clu_passes.specs.Agreeing.{AgreeAt};
ghost use Rattle.clu_passes.specs.Losing.{AreNotRefused, HasReason, HasRefusedBelow, IsPlain, walk_of};
ghost use Rattle.clu_passes.specs.Trees.{IsFileOfTree};

/// What is lost however many steps are taken: at the node or below it stands a type that is refused, or `cvt` as a whole type of
/// a heading, of which the heading says which of its two types is meant.
pub fn lost_refused()
    ensures { (f : File) → IsFileOfTree f → (n : ℕ) → n < length f.nodes → IsLost f.nodes (meanings_of f.nodes f.rounds f.scope.declarations) n → HasReason f n }
{}

/// A node by which a type is refused is a fault on the walk that goes over it.
pub fn refused_faulty()
    ensures { (f : File) (n : ℕ) → is_no_type_at f n ≡ true → is_some (fault_at f (walk_of f n) n) ≡ true }
{}

/// At a node below which a type is refused both readings of the rules find the same at a node before it, if they agree at each node
/// by which a type is refused and below which none is. The node is neither the file nor a module, routine or cluster, and so no
/// such node stands below it.
pub fn agree_where_lost()
    ensures { (f : File) → IsFileOfTree f → (n : ℕ) → IsPlain (kind_in f n) → (first : ℕ → Option Rule) → ((m : ℕ) → m < length f.nodes → is_no_type_at f m ≡ true → AreNotRefused f m → first m ≡ fault_at f (walk_of f m) m) → HasRefusedBelow f n → AgreeAt first (fault_at f (walk_of f n)) n }
{}
