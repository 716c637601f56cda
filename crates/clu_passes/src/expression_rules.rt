//! That names which are all selectors or tags of a type, each once, are all of them if none is left: what `clu_name_rules` and
//! `clu_type_rules` count is what the definitions ask. So V17 is the rule of the definitions; and so is V13.

ghost use Rattle.std.specs.Prelude.{◌≡◌, ◌||◌, ℕ, Bool, List, Some, false, flat_map, length, nat_lt, not, true};
ghost use Rattle.std.specs.List.{AllByRecursion, list_all};
ghost use Rattle.clu_tree.specs.Nodes.{IsTree};
ghost use Rattle.clu_parser.specs.Shape.{HaveForms};
ghost use Rattle.clu_types.specs.CluType.{CluType};
ghost use Rattle.clu_types.specs.declared.term.Field.{Field};
ghost use Rattle.clu_types.specs.Arena.{fields_at};
ghost use Rattle.clu_syntax.specs.Items.{Item};
ghost use Rattle.clu_syntax.specs.Syntax.{Identifier};
ghost use Rattle.clu_meaning.specs.Scoping.{Scope};
ghost use Rattle.clu_checking.specs.Specifications.{Specification};
ghost use Rattle.clu_checking.specs.Files.{File, children};
ghost use Rattle.clu_checking.specs.NameRules.{stands_twice};
ghost use Rattle.clu_checking.specs.ExpressionRules.{has_other_selectors, v13, v17};
ghost use Rattle.clu_checking.specs.StatementRules.{count_of};
ghost use Rattle.clu_bindings.specs.Readers.{children_in, kind_in};
ghost use Rattle.clu_name_rules.specs.declared.tables.Tables.{Tables};
ghost use Rattle.clu_name_rules.specs.Components.{is_selector_of, leaves_some};
ghost use Rattle.clu_name_rules.specs.Constructors as of_tables;
ghost use Rattle.clu_type_rules.specs.declared.known.Known.{Known};
ghost use Rattle.clu_type_rules.specs.Constructors as of_facts;
ghost use Rattle.clu_passes.specs.ConstantTables.{file_with, AreTables, AreWantedKnown, IsWantedKnown};
ghost use Rattle.clu_passes.specs.Constructed.{HasEachOnce, IsTyped};
ghost use Rattle.clu_passes.specs.Counting.{names_of_fields};
ghost use Rattle.clu_passes.specs.FactTables.{AreFacts};
ghost use Rattle.clu_passes.specs.Notes.{AreRepeated, DeclareModules, HaveParents};

/// The selectors of components, of a type in which none stands twice.
pub fn selectors_by_count()
    ensures { (f : File) (types : List CluType) (fields : List Field) (names : ℕ → List Identifier) (cs : List ℕ) → stands_twice (names_of_fields fields) ≡ false → stands_twice (flat_map names cs) ≡ false → has_other_selectors f (Some (fields_at types fields)) (flat_map names cs) ≡ (not (list_all (λ c. list_all (is_selector_of fields) (names c)) cs) || leaves_some names (length fields) cs) }
{}

/// The tags of arms.
pub fn tags_by_count()
    ensures { (types : List CluType) (fields : List Field) (names : ℕ → List Identifier) (cs : List ℕ) → nat_lt (length (flat_map names cs)) (count_of (fields_at types fields)) ≡ leaves_some names (length fields) cs }
{}

/// V17, where the type of a constructor is known and no selector of it stands twice, and V17 is violated at no node below.
pub fn v17_by_tables()
    ensures { (t : Tables) (scope : Scope) (library : List Specification) (refused : List ℕ) → HaveForms t.file.syntax.now → IsTree t.file.syntax.now → AreTables (file_with t.file scope library refused) t → HaveParents (file_with t.file scope library refused) → DeclareModules (file_with t.file scope library refused) → AreRepeated (file_with t.file scope library refused) t.items.now.repeated.items → (items : ℕ → Item) (n : ℕ) → IsWantedKnown t.file n → IsTyped t (kind_in t.file n) (children_in t.file n) → HasEachOnce t (kind_in t.file n) (children_in t.file n) → AllByRecursion (λ c. v17 (file_with t.file scope library refused) c ≡ false) (children (file_with t.file scope library refused) n) → v17 (file_with t.file scope library refused) n ≡ of_tables.v17 t items n }
{}

/// V13, where the type of a constructor is known.
pub fn v13_by_facts()
    ensures { (k : Known) (scope : Scope) (library : List Specification) (refused : List ℕ) → HaveForms k.tables.file.syntax.now → IsTree k.tables.file.syntax.now → AreTables (file_with k.tables.file scope library refused) k.tables → (lost : ℕ → Bool) → AreFacts (file_with k.tables.file scope library refused) k.tables.types.now k.facts.now lost → AreWantedKnown k.tables.file lost → (items : ℕ → Item) (n : ℕ) → lost n ≡ false → IsTyped k.tables (kind_in k.tables.file n) (children_in k.tables.file n) → v13 (file_with k.tables.file scope library refused) n ≡ of_facts.v13 k items n }
{}
