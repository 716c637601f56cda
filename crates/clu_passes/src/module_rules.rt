//! That the rules on modules, as `clu_name_rules` asks them of tables, are those of the definitions.

ghost use Rattle.std.specs.Prelude.{◌≡◌, ℕ, length, slice_get};
ghost use Rattle.clu_parser.specs.Shape.{HaveForms};
ghost use Rattle.clu_syntax.specs.Kinds.{kind_at};
ghost use Rattle.clu_checking.specs.Files.{File};
ghost use Rattle.clu_checking.specs.ModuleRules.{v33, v34, v35};
ghost use Rattle.clu_name_rules.specs.declared.repeated.Items.{Items};
ghost use Rattle.clu_name_rules.specs.Repeated.{AreNoted, notes_of};
ghost use Rattle.clu_name_rules.specs.Words.{words_to};
ghost use Rattle.clu_passes.specs.Notes.{HaveRoutines};
ghost use Rattle.clu_name_rules.specs.ModuleRules.{lacks_export, is_ended_otherwise, is_too_large};

/// V33 of a tree of the grammar, where `Items` has the routines of each cluster by their names.
pub fn v33_by_tables()
    ensures { (f : File) → HaveForms f.nodes → HaveRoutines f → (items : Items) → AreNoted (length f.nodes) (notes_of (words_to f.nodes (length f.nodes)) f.nodes f.scope.declarations) items → (n : ℕ) → v33 f n ≡ lacks_export items (words_to f.nodes (length f.nodes)) f.nodes n }
{}

/// V34, of any file.
pub fn v34_by_nodes()
    ensures { (f : File) (n : ℕ) → v34 f n ≡ is_ended_otherwise (slice_get f.nodes n) }
{}

/// V35, of any file.
pub fn v35_by_nodes()
    ensures { (f : File) (n : ℕ) → v35 f n ≡ is_too_large f.nodes (kind_at f.nodes n) n }
{}
