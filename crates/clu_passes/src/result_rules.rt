//! That V14 and V15, as `clu_type_rules` asks them of what nodes bind, are the rules of the definitions, where the tables are
//! right and nothing is lost of the node.

ghost use Rattle.std.specs.Prelude.{◌≡◌, ℕ, Bool, false, List};
ghost use Rattle.clu_tree.specs.Nodes.{IsTree};
ghost use Rattle.clu_parser.specs.Shape.{HaveForms};
ghost use Rattle.clu_syntax.specs.Items.{Item};
ghost use Rattle.clu_meaning.specs.Scoping.{Scope};
ghost use Rattle.clu_checking.specs.Specifications.{Specification};
ghost use Rattle.clu_checking.specs.StatementRules.{v14, v15};
ghost use Rattle.clu_type_rules.specs.declared.known.Known.{Known};
ghost use Rattle.clu_type_rules.specs.Known.{children, kind_in};
ghost use Rattle.clu_type_rules.specs.Bindings as of_tables;
ghost use Rattle.clu_type_rules.specs.Bindings.{meanings};
ghost use Rattle.clu_type_rules.specs.ResultRules.{has_other_number};
ghost use Rattle.clu_passes.specs.Bound.{AreInside, AreTargets, AreTargetsKnown, IsFirstKnown, IsNameKnown, TellModules};
ghost use Rattle.clu_passes.specs.ConstantTables.{file_with, AreBracketsKnown, AreTables};
ghost use Rattle.clu_passes.specs.FactTables.{AreFacts};

/// V14, where what the names denote at which a type or a cluster may stand is known, and so what is wanted there.
pub fn v14_by_facts()
    ensures { (k : Known) (scope : Scope) (library : List Specification) (refused : List ℕ) → HaveForms k.tables.file.syntax.now → IsTree k.tables.file.syntax.now → AreTables (file_with k.tables.file scope library refused) k.tables → TellModules (file_with k.tables.file scope library refused) k.tables.file → (lost : ℕ → Bool) → AreFacts (file_with k.tables.file scope library refused) k.tables.types.now k.facts.now lost → AreTargets (file_with k.tables.file scope library refused) k → (items : ℕ → Item) (n : ℕ) → lost n ≡ false → IsNameKnown k.tables.file (kind_in k n) n (children k n) → AreBracketsKnown k.tables.file n → v14 (file_with k.tables.file scope library refused) n ≡ has_other_number k items n }
{}

/// V15, where the types of the variables to which the node assigns are known, and that on which a Tagcase round it selects.
pub fn v15_by_facts()
    ensures { (k : Known) (scope : Scope) (library : List Specification) (refused : List ℕ) → HaveForms k.tables.file.syntax.now → IsTree k.tables.file.syntax.now → AreTables (file_with k.tables.file scope library refused) k.tables → (lost : ℕ → Bool) → AreFacts (file_with k.tables.file scope library refused) k.tables.types.now k.facts.now lost → AreInside (file_with k.tables.file scope library refused) k lost → AreTargets (file_with k.tables.file scope library refused) k → (items : ℕ → Item) (n : ℕ) → lost n ≡ false → AreTargetsKnown (file_with k.tables.file scope library refused) k n (kind_in k n) (meanings k n) → IsFirstKnown (file_with k.tables.file scope library refused) lost n → v15 (file_with k.tables.file scope library refused) n ≡ of_tables.v15 k items n }
{}
