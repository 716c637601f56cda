//! That V22, as `clu_type_rules` asks it of tables, is the rule of the definitions: tags that stand twice are bits, and that none
//! is left is a count.

ghost use Rattle.std.specs.Prelude.{◌≡◌, ℕ, Bool, false, List};
ghost use Rattle.clu_tree.specs.Nodes.{IsTree};
ghost use Rattle.clu_parser.specs.Shape.{HaveForms};
ghost use Rattle.clu_syntax.specs.Items.{Item};
ghost use Rattle.clu_meaning.specs.Scoping.{Scope};
ghost use Rattle.clu_checking.specs.Specifications.{Specification};
ghost use Rattle.clu_checking.specs.StatementRules.{v22};
ghost use Rattle.clu_type_rules.specs.declared.known.Known.{Known};
ghost use Rattle.clu_type_rules.specs.Tags as of_tables;
ghost use Rattle.clu_passes.specs.Bound.{IsFirstKnown};
ghost use Rattle.clu_passes.specs.ConstantTables.{file_with, AreTables};
ghost use Rattle.clu_passes.specs.FactTables.{AreFacts};
ghost use Rattle.clu_passes.specs.Notes.{AreRepeated, DeclareModules, HaveParents};

/// V22, where the type on which the Tagcase round an arm selects is known.
pub fn v22_by_facts()
    ensures { (k : Known) (scope : Scope) (library : List Specification) (refused : List ℕ) → HaveForms k.tables.file.syntax.now → IsTree k.tables.file.syntax.now → AreTables (file_with k.tables.file scope library refused) k.tables → (lost : ℕ → Bool) → AreFacts (file_with k.tables.file scope library refused) k.tables.types.now k.facts.now lost → HaveParents (file_with k.tables.file scope library refused) → DeclareModules (file_with k.tables.file scope library refused) → AreRepeated (file_with k.tables.file scope library refused) k.tables.items.now.repeated.items → (items : ℕ → Item) (n : ℕ) → lost n ≡ false → IsFirstKnown (file_with k.tables.file scope library refused) lost n → v22 (file_with k.tables.file scope library refused) n ≡ of_tables.v22 k items n }
{}
