//! That the rules on exceptions, as `clu_type_rules` asks them of tables, are those of the definitions, where each table is what
//! its own definition says.

ghost use Rattle.std.specs.Prelude.{◌≡◌, ℕ, Bool, List, false};
ghost use Rattle.std.specs.List.{AllByRecursion};
ghost use Rattle.clu_tree.specs.declared.node.NodeKind.TheVariants as kind;
ghost use Rattle.clu_tree.specs.Nodes.{IsTree};
ghost use Rattle.clu_parser.specs.Shape.{HaveForms};
ghost use Rattle.clu_parser.specs.Trees.{Text};
ghost use Rattle.clu_types.specs.Arena.{IsArena};
ghost use Rattle.clu_syntax.specs.Items.{Item};
ghost use Rattle.clu_syntax.specs.Rounds.{AreRounds};
ghost use Rattle.clu_meaning.specs.Scoping.{Scope};
ghost use Rattle.clu_checking.specs.Specifications.{Specification};
ghost use Rattle.clu_checking.specs.ExceptionRules.{v25, v26, v27};
ghost use Rattle.clu_declares.specs.Declares.{IsParsed};
ghost use Rattle.clu_type_rules.specs.declared.known.Known.{Known};
ghost use Rattle.clu_type_rules.specs.Known.{children, kind_in};
ghost use Rattle.clu_type_rules.specs.Objects.{names};
ghost use Rattle.clu_type_rules.specs.ExceptionRules.{is_not_listed, is_other_failure, lacks_arm};
ghost use Rattle.clu_passes.specs.ConstantTables.{file_with};
ghost use Rattle.clu_passes.specs.Firsts.{AreItems};
ghost use Rattle.clu_passes.specs.SeenTypes.{IsOutsideKnown};
ghost use Rattle.clu_passes.specs.Routines.{AreParts, StandInRoutines};

/// V25, by the first items of lists.
pub fn v25_by_tables()
    ensures { (k : Known) (scope : Scope) (library : List Specification) (refused : List ℕ) → HaveForms k.tables.file.syntax.now → IsTree k.tables.file.syntax.now → AreItems (file_with k.tables.file scope library refused) k.tables → StandInRoutines (file_with k.tables.file scope library refused) → AreParts (file_with k.tables.file scope library refused) k.routines.now.parts.items → (n : ℕ) → v25 (file_with k.tables.file scope library refused) n ≡ is_not_listed k (kind_in k n) n }
{}

/// V27 of the tree of a text, by the first items of lists.
pub fn v27_by_tables()
    ensures { (k : Known) (scope : Scope) (library : List Specification) (refused : List ℕ) (t : Text) → IsParsed t k.tables.file.syntax.now → AreRounds k.tables.file.syntax.now k.tables.file.rounds.now → AreItems (file_with k.tables.file scope library refused) k.tables → (n : ℕ) → v27 (file_with k.tables.file scope library refused) n ≡ lacks_arm k n }
{}

/// V26 of an exception of a heading, of whose types none is lost.
pub fn v26_of_exceptions()
    ensures { (k : Known) (scope : Scope) (library : List Specification) (refused : List ℕ) → HaveForms k.tables.file.syntax.now → IsTree k.tables.file.syntax.now → IsArena k.tables.types.now → (bad : ℕ → Bool) (items : ℕ → Item) (n : ℕ) → kind_in k n ≡ kind.Exc → AllByRecursion (IsOutsideKnown (file_with k.tables.file scope library refused) k n) (children k n) → v26 (file_with k.tables.file scope library refused) bad n ≡ is_other_failure k items n (names k n) }
{}
