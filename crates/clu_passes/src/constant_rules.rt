//! That the rules on constants and types, as `clu_name_rules` asks them of tables, are those of the definitions, where each table
//! is what its own definition says and nothing is lost of what is read.

ghost use Rattle.std.specs.Prelude.{◌≡◌, ℕ, Bool, List};
ghost use Rattle.clu_tree.specs.Nodes.{IsTree};
ghost use Rattle.clu_parser.specs.Shape.{HaveForms};
ghost use Rattle.clu_syntax.specs.Items.{Item};
ghost use Rattle.clu_meaning.specs.Scoping.{Scope};
ghost use Rattle.clu_checking.specs.Specifications.{Specification};
ghost use Rattle.clu_checking.specs.ConstantRules.{v8, v9, v10, v19, v31};
ghost use Rattle.clu_bindings.specs.declared.file.File.{File};
ghost use Rattle.clu_bindings.specs.Readers.{meaning_in};
ghost use Rattle.clu_name_rules.specs.declared.tables.Tables.{Tables};
ghost use Rattle.clu_name_rules.specs.ConstantRules as of_tables;
ghost use Rattle.clu_passes.specs.ConstantTables.{file_with, AreTables, AreBad, IsKnown, IsEquateKnown, AreBracketsKnown, AreChildrenKnown};

/// V8.
pub fn v8_by_tables()
    ensures { (t : Tables) (scope : Scope) (library : List Specification) (refused : List ℕ) → HaveForms t.file.syntax.now → IsTree t.file.syntax.now → AreTables (file_with t.file scope library refused) t → (bits : List Bool) (bad : ℕ → Bool) → AreBad (file_with t.file scope library refused) bits bad → (n : ℕ) → IsKnown t.file n → AreBracketsKnown t.file n → v8 (file_with t.file scope library refused) bad n ≡ of_tables.v8 t bits n }
{}

/// V9.
pub fn v9_by_tables()
    ensures { (t : Tables) (scope : Scope) (library : List Specification) (refused : List ℕ) → HaveForms t.file.syntax.now → IsTree t.file.syntax.now → AreTables (file_with t.file scope library refused) t → (bits : List Bool) (bad : ℕ → Bool) → AreBad (file_with t.file scope library refused) bits bad → (items : ℕ → Item) (n : ℕ) → IsKnown t.file n → IsEquateKnown t.file (meaning_in t.file n) → AreBracketsKnown t.file n → v9 (file_with t.file scope library refused) bad n ≡ of_tables.v9 t bits items n }
{}

/// V10.
pub fn v10_by_tables()
    ensures { (r : File) (scope : Scope) (library : List Specification) (refused : List ℕ) (items : ℕ → Item) (n : ℕ) → v10 (file_with r scope library refused) n ≡ of_tables.v10 r items n }
{}

/// V19.
pub fn v19_by_tables()
    ensures { (t : Tables) (scope : Scope) (library : List Specification) (refused : List ℕ) → HaveForms t.file.syntax.now → IsTree t.file.syntax.now → AreTables (file_with t.file scope library refused) t → (n : ℕ) → AreChildrenKnown t.file n → AreBracketsKnown t.file n → v19 (file_with t.file scope library refused) n ≡ of_tables.v19 t n }
{}

/// V31 of a tree of the grammar.
pub fn v31_by_tables()
    ensures { (r : File) (scope : Scope) (library : List Specification) (refused : List ℕ) → HaveForms r.syntax.now → IsTree r.syntax.now → (items : ℕ → Item) (n : ℕ) → v31 (file_with r scope library refused) n ≡ of_tables.v31 r items n }
{}
