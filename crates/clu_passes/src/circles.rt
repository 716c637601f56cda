//! That `circular_equates` of `clu_settle`, which goes by the places of declarations, finds the circular equates of V7, which
//! go by nodes: the bits that it gives are `AreMarks` of each file with these nodes, surroundings and declarations.

ghost use Rattle.std.specs.Prelude.{◌≡◌, ◌↔◌, ◌&&◌, ℕ, Bool, true, List, slice_get, Some};
ghost use Rattle.clu_tree.specs.declared.node.NodeKind.TheVariants as kind;
ghost use Rattle.clu_parser.specs.Shape.{HaveForms};
ghost use Rattle.clu_syntax.specs.Kinds.{kind_at};
ghost use Rattle.clu_syntax.specs.Syntax.{Identifier};
ghost use Rattle.clu_names.specs.declared.scopes.Declared.{Declared};
ghost use Rattle.clu_names.specs.Scopes.{declarations};
ghost use Rattle.clu_names.specs.Denotes.{found, bound_at};
ghost use Rattle.clu_checking.specs.Files.{File, is_kind, equate_named};
ghost use Rattle.clu_checking.specs.Equates.{is_circular, is_circular_at};
ghost use Rattle.clu_checking.specs.NameRules.{v7};
ghost use Rattle.clu_settle.specs.Circular as by_place;
ghost use Rattle.clu_name_rules.specs.NameRules.{is_marked, leads_to_mark};
ghost use Rattle.clu_passes.specs.Marks.{AreMarks, IsMarked};

/// Of a tree of the grammar, a declaration is circular by its place just if its node is an Equate that is circular.
pub fn circular_by_nodes()
    ensures { (f : File) → HaveForms f.nodes → (k : ℕ) (d : Declared) → slice_get f.scope.declarations k ≡ Some d → by_place.is_circular f.nodes f.rounds f.scope.declarations k ≡ (is_kind f kind.Equate d.node && is_circular f d.node) }
{}

/// In the file of a tree of the grammar, an Equate is circular just if a declaration of it has its bit.
pub fn circular_found()
    ensures { (f : File) → HaveForms f.nodes → (marks : List Bool) → AreMarks f marks → f.scope.declarations ≡ declarations f.nodes f.rounds → (e : ℕ) → is_kind f kind.Equate e ≡ true → (is_circular f e ≡ true) ↔ IsMarked f.scope.declarations marks e }
{}

/// A name is that of a circular equate just if the declaration that it denotes has its bit.
pub fn circle_by_mark()
    ensures { (f : File) → HaveForms f.nodes → (marks : List Bool) → AreMarks f marks → (n : ℕ) (name : Identifier) → is_circular_at f (equate_named f n name) ≡ is_marked marks (found f.scope.declarations name n) }
{}

/// V7 is violated at a node just if a name of it by which equates are unfolded, or one of a Restrict, denotes a declaration that
/// has its bit.
pub fn v7_by_marks()
    ensures { (f : File) → HaveForms f.nodes → (marks : List Bool) → AreMarks f marks → (n : ℕ) → v7 f n ≡ leads_to_mark marks (kind_at f.nodes n) (bound_at f.scope.declarations n (slice_get f.nodes n)) }
{}
