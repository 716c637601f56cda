//! That at statements, and at what else stands in routines and clusters, the rules over tables say what the definitions say, up to the
//! first that is violated: the field `others` of `AreRight`.

ghost use Rattle.std.specs.Prelude.{◌≡◌, ◌<◌, ℕ, Bool, List, false, length};
ghost use Rattle.clu_parser.specs.Trees.{Text};
ghost use Rattle.clu_syntax.specs.Items.{Item};
ghost use Rattle.clu_checking.specs.Specifications.{Specification};
ghost use Rattle.clu_names.specs.Scopes.{declarations};
ghost use Rattle.clu_checking.specs.Files.{File, kind_in, scope_in};
ghost use Rattle.clu_declares.specs.Declares.{IsParsed};
ghost use Rattle.clu_checking.specs.Refusals.{is_bad};
ghost use Rattle.clu_checking.specs.Rules as definition;
ghost use Rattle.clu_type_rules.specs.Asked.{rules_at};
ghost use Rattle.clu_type_rules.specs.Rules.{violates};
ghost use Rattle.clu_type_rules.specs.Tags.{TagsAscend};
ghost use Rattle.clu_type_rules.specs.declared.known.Known.{Known};
ghost use Rattle.clu_passes.specs.Ascending.{SpecificationsAscend};
ghost use Rattle.clu_passes.specs.Bound.{AreBadDecls};
ghost use Rattle.clu_passes.specs.ConstantTables.{file_with};
ghost use Rattle.clu_passes.specs.Losing.{IsPlain};
ghost use Rattle.clu_passes.specs.Made.{IsWhole};
ghost use Rattle.clu_passes.specs.Notes.{HaveParents};
ghost use Rattle.clu_passes.specs.OthersKnown.{AreOthersKnown, ArePlaced, AreRepsThere, is_in_headings};
ghost use Rattle.clu_passes.specs.Refusing.{AgreeOn, IsOrder};
ghost use Rattle.clu_passes.specs.Reps.{AreReps};
ghost use Rattle.clu_passes.specs.RepsOfTree.{HaveReps};
ghost use Rattle.clu_passes.specs.Right.{AreStraight, IsFirst, IsQuiet};
ghost use Rattle.clu_passes.specs.Routines.{AreParts};
ghost use Rattle.clu_passes.specs.Trees.{IsFileOfTree, is_of_constant};

/// Where facts are right but where something is lost, and that is only where a type is refused.
pub fn others_right()
    ensures { (t : Text) (k : Known) (library : List Specification) (refused : List ℕ) → IsWhole t k.tables library refused → (lost : ℕ → Bool) → AreOthersKnown (file_with k.tables.file (scope_in k.tables.file.syntax.now k.tables.file.rounds.now) library refused) k lost → ArePlaced (file_with k.tables.file (scope_in k.tables.file.syntax.now k.tables.file.rounds.now) library refused) k → (order : List ℕ) (circular : List Bool) → IsOrder (file_with k.tables.file (scope_in k.tables.file.syntax.now k.tables.file.rounds.now) library refused) k.tables.file.names.now order circular → (items : ℕ → Item) (bits : List Bool) → (n : ℕ) → n < length k.tables.file.syntax.now → IsPlain (kind_in (file_with k.tables.file (scope_in k.tables.file.syntax.now k.tables.file.rounds.now) library refused) n) → is_of_constant (kind_in (file_with k.tables.file (scope_in k.tables.file.syntax.now k.tables.file.rounds.now) library refused) n) ≡ false → AreStraight (file_with k.tables.file (scope_in k.tables.file.syntax.now k.tables.file.rounds.now) library refused) bits (is_bad (file_with k.tables.file (scope_in k.tables.file.syntax.now k.tables.file.rounds.now) library refused)) → AreBadDecls (file_with k.tables.file (scope_in k.tables.file.syntax.now k.tables.file.rounds.now) library refused) bits (is_bad (file_with k.tables.file (scope_in k.tables.file.syntax.now k.tables.file.rounds.now) library refused)) → IsQuiet (file_with k.tables.file (scope_in k.tables.file.syntax.now k.tables.file.rounds.now) library refused) (is_bad (file_with k.tables.file (scope_in k.tables.file.syntax.now k.tables.file.rounds.now) library refused)) n → IsFirst (file_with k.tables.file (scope_in k.tables.file.syntax.now k.tables.file.rounds.now) library refused) n → AgreeOn (violates k bits items n) (definition.violates (file_with k.tables.file (scope_in k.tables.file.syntax.now k.tables.file.rounds.now) library refused) (is_bad (file_with k.tables.file (scope_in k.tables.file.syntax.now k.tables.file.rounds.now) library refused)) n) (rules_at (kind_in (file_with k.tables.file (scope_in k.tables.file.syntax.now k.tables.file.rounds.now) library refused) n)) }
{}

/// So do the tags of the type on which the Tagcase round such a node selects ascend.
pub fn others_ascend()
    ensures { (t : Text) (k : Known) (library : List Specification) (refused : List ℕ) → IsWhole t k.tables library refused → (lost : ℕ → Bool) → AreOthersKnown (file_with k.tables.file (scope_in k.tables.file.syntax.now k.tables.file.rounds.now) library refused) k lost → ArePlaced (file_with k.tables.file (scope_in k.tables.file.syntax.now k.tables.file.rounds.now) library refused) k → SpecificationsAscend library → (n : ℕ) → n < length k.tables.file.syntax.now → IsPlain (kind_in (file_with k.tables.file (scope_in k.tables.file.syntax.now k.tables.file.rounds.now) library refused) n) → is_of_constant (kind_in (file_with k.tables.file (scope_in k.tables.file.syntax.now k.tables.file.rounds.now) library refused) n) ≡ false → is_in_headings (kind_in (file_with k.tables.file (scope_in k.tables.file.syntax.now k.tables.file.rounds.now) library refused) n) ≡ false → IsFirst (file_with k.tables.file (scope_in k.tables.file.syntax.now k.tables.file.rounds.now) library refused) n → TagsAscend k n }
{}

/// What a rule reads there stands before it or in a heading, where `cvt` in the heading of a routine is the same to its body.
pub fn others_placed()
    ensures { (t : Text) (k : Known) (library : List Specification) (refused : List ℕ) → IsWhole t k.tables library refused → AreParts (file_with k.tables.file (scope_in k.tables.file.syntax.now k.tables.file.rounds.now) library refused) k.routines.now.parts.items → AreRepsThere (file_with k.tables.file (scope_in k.tables.file.syntax.now k.tables.file.rounds.now) library refused) → ArePlaced (file_with k.tables.file (scope_in k.tables.file.syntax.now k.tables.file.rounds.now) library refused) k }
{}

/// So it is where `rep` is an equate of a cluster, as the grammar has it.
pub fn reps_there()
    ensures { (t : Text) (f : File) → IsParsed t f.nodes → IsFileOfTree f → HaveParents f → f.scope.declarations ≡ declarations f.nodes f.rounds → AreReps f → AreRepsThere f }
{}

/// And that is so of the tree of a text, in which the word is reserved, and equates without a name stand in clusters.
pub fn reps_of_tree()
    ensures { (t : Text) (f : File) → IsParsed t f.nodes → IsFileOfTree f → f.scope.declarations ≡ declarations f.nodes f.rounds → HaveReps f.nodes → AreReps f }
{}
