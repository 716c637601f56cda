//! That the rules on expressions and statements, as `clu_type_rules` asks them of what is known of the nodes of a file, are those
//! of the definitions, where the tables are right and nothing is lost of the node.

ghost use Rattle.std.specs.Prelude.{◌≡◌, ◌&&◌, ℕ, Bool, false, List, slice_get};
ghost use Rattle.std.specs.List.{AllByRecursion, list_any};
ghost use Rattle.clu_tree.specs.declared.node.NodeKind.TheVariants as kind;
ghost use Rattle.clu_tree.specs.Nodes.{IsTree};
ghost use Rattle.clu_parser.specs.Trees.{Text};
ghost use Rattle.clu_parser.specs.Shape.{HaveForms, IsShaped};
ghost use Rattle.clu_types.specs.Arena.{IsArena};
ghost use Rattle.clu_syntax.specs.Items.{Item};
ghost use Rattle.clu_meaning.specs.Scoping.{Scope};
ghost use Rattle.clu_checking.specs.Specifications.{Specification};
ghost use Rattle.clu_checking.specs.Files.{File};
ghost use Rattle.clu_checking.specs.Invocations.{invocations};
ghost use Rattle.clu_checking.specs.ExpressionRules.{v11, v12, v32, has_other_types, has_not_one_result};
ghost use Rattle.clu_checking.specs.StatementRules.{v16, v21, v30, v36};
ghost use Rattle.clu_checking.specs.ExceptionRules.{v24};
ghost use Rattle.clu_head.specs.Refused.{is_set};
ghost use Rattle.clu_head.specs.There.{is_there};
ghost use Rattle.clu_type_rules.specs.declared.known.Known.{Known};
ghost use Rattle.clu_type_rules.specs.declared.invocation_rules.Fault.TheVariants as fault;
ghost use Rattle.clu_type_rules.specs.Known.{kind_in};
ghost use Rattle.clu_type_rules.specs.ExpressionRules.{is_up_or_down_misplaced};
ghost use Rattle.clu_type_rules.specs.InvocationRules.{lacks_operation, some_has_fault, misuses_iterator};
ghost use Rattle.clu_type_rules.specs.StatementRules.{gives_other, has_no_condition, is_on_no_tags, results_round};
ghost use Rattle.clu_passes.specs.ConstantTables.{file_with, AreTables, AreWantedKnown};
ghost use Rattle.clu_passes.specs.FactTables.{AreFacts, AreOwnTypes, IsResultKnown};
ghost use Rattle.clu_passes.specs.Routines.{AreParts, StandInRoutines};
ghost use Rattle.clu_passes.specs.Notes.{AreRepeated, DeclareModules, HaveParents};

/// V11.
pub fn v11_by_facts()
    ensures { (f : File) (k : Known) (lost : ℕ → Bool) → AreFacts f k.tables.types.now k.facts.now lost → (n : ℕ) → lost n ≡ false → v11 f n ≡ lacks_operation k n }
{}

/// V12, and what V13 and V14 ask of invocations.
pub fn v12_by_facts()
    ensures v12 { (f : File) (k : Known) → IsArena k.tables.types.now → (lost : ℕ → Bool) → AreFacts f k.tables.types.now k.facts.now lost → (n : ℕ) → lost n ≡ false → v12 f n ≡ some_has_fault k fault.ArgumentCount n }
    ensures v13 { (f : File) (k : Known) → IsArena k.tables.types.now → (lost : ℕ → Bool) → AreFacts f k.tables.types.now k.facts.now lost → (n : ℕ) → lost n ≡ false → list_any has_other_types (invocations f n) ≡ some_has_fault k fault.ArgumentTypes n }
    ensures v14 { (f : File) (k : Known) → IsArena k.tables.types.now → (lost : ℕ → Bool) → AreFacts f k.tables.types.now k.facts.now lost → (n : ℕ) → lost n ≡ false → list_any has_not_one_result (invocations f n) ≡ some_has_fault k fault.ResultCount n }
{}

/// V16 of a tree of the grammar: of the children of an If or While the conditions alone have a type.
pub fn v16_by_facts()
    ensures { (k : Known) (scope : Scope) (library : List Specification) (refused : List ℕ) → HaveForms k.tables.file.syntax.now → IsTree k.tables.file.syntax.now → AreTables (file_with k.tables.file scope library refused) k.tables → (lost : ℕ → Bool) → AreFacts (file_with k.tables.file scope library refused) k.tables.types.now k.facts.now lost → AreWantedKnown k.tables.file lost → (t : Text) → IsShaped t k.tables.file.syntax.now → (items : ℕ → Item) (n : ℕ) → lost n ≡ false → v16 (file_with k.tables.file scope library refused) n ≡ has_no_condition k items (kind_in k n) n }
{}

/// V21.
pub fn v21_by_facts()
    ensures { (k : Known) (scope : Scope) (library : List Specification) (refused : List ℕ) → HaveForms k.tables.file.syntax.now → IsTree k.tables.file.syntax.now → AreTables (file_with k.tables.file scope library refused) k.tables → (lost : ℕ → Bool) → AreFacts (file_with k.tables.file scope library refused) k.tables.types.now k.facts.now lost → (n : ℕ) → lost n ≡ false → v21 (file_with k.tables.file scope library refused) n ≡ is_on_no_tags k n }
{}

/// V24, by the bits of names that stand twice.
pub fn v24_by_tables()
    ensures { (f : File) → HaveParents f → DeclareModules f → (bits : List Bool) → AreRepeated f bits → (n : ℕ) → v24 f n ≡ (is_there kind.When (slice_get f.nodes n) && is_set (slice_get bits n)) }
{}

/// V30, where the table has the parts of each routine and the types that it gives are known.
pub fn v30_by_facts()
    ensures { (k : Known) (scope : Scope) (library : List Specification) (refused : List ℕ) → HaveForms k.tables.file.syntax.now → IsTree k.tables.file.syntax.now → (lost : ℕ → Bool) → AreFacts (file_with k.tables.file scope library refused) k.tables.types.now k.facts.now lost → StandInRoutines (file_with k.tables.file scope library refused) → AreParts (file_with k.tables.file scope library refused) k.routines.now.parts.items → (items : ℕ → Item) (n : ℕ) → lost n ≡ false → AllByRecursion (IsResultKnown (file_with k.tables.file scope library refused) k n) (results_round k n) → v30 (file_with k.tables.file scope library refused) n ≡ gives_other k items (kind_in k n) n }
{}

/// V32.
pub fn v32_by_facts()
    ensures { (k : Known) (scope : Scope) (library : List Specification) (refused : List ℕ) → HaveForms k.tables.file.syntax.now → IsTree k.tables.file.syntax.now → AreTables (file_with k.tables.file scope library refused) k.tables → (lost : ℕ → Bool) → AreFacts (file_with k.tables.file scope library refused) k.tables.types.now k.facts.now lost → AreOwnTypes (file_with k.tables.file scope library refused) k lost → AreWantedKnown k.tables.file lost → (n : ℕ) → lost n ≡ false → v32 (file_with k.tables.file scope library refused) n ≡ is_up_or_down_misplaced k (kind_in k n) n }
{}

/// V36.
pub fn v36_by_facts()
    ensures { (k : Known) (scope : Scope) (library : List Specification) (refused : List ℕ) → HaveForms k.tables.file.syntax.now → IsTree k.tables.file.syntax.now → AreTables (file_with k.tables.file scope library refused) k.tables → (lost : ℕ → Bool) → AreFacts (file_with k.tables.file scope library refused) k.tables.types.now k.facts.now lost → AreWantedKnown k.tables.file lost → (n : ℕ) → lost n ≡ false → v36 (file_with k.tables.file scope library refused) n ≡ misuses_iterator k (kind_in k n) n }
{}
