//! That V23 and V26, as `clu_type_rules` asks them of the raises of statements, are the rules of the definitions, where the sets of
//! raises are equal and nothing is lost of what is read.

ghost use Rattle.std.specs.Prelude.{◌≡◌, ℕ, Bool, false, List};
ghost use Rattle.std.specs.List.{AllByRecursion};
ghost use Rattle.clu_tree.specs.declared.node.NodeKind.TheVariants as kind;
ghost use Rattle.clu_tree.specs.Nodes.{IsTree};
ghost use Rattle.clu_parser.specs.Shape.{HaveForms};
ghost use Rattle.clu_parser.specs.Trees.{Text};
ghost use Rattle.clu_syntax.specs.Items.{Item};
ghost use Rattle.clu_syntax.specs.Rounds.{AreRounds};
ghost use Rattle.clu_meaning.specs.Scoping.{Scope};
ghost use Rattle.clu_checking.specs.Specifications.{Specification};
ghost use Rattle.clu_checking.specs.ExceptionRules.{v23, v26};
ghost use Rattle.clu_declares.specs.Declares.{IsParsed};
ghost use Rattle.clu_type_rules.specs.declared.known.Known.{Known};
ghost use Rattle.clu_type_rules.specs.Known.{kind_in};
ghost use Rattle.clu_type_rules.specs.Objects.{names};
ghost use Rattle.clu_type_rules.specs.ExceptionRules as of_tables;
ghost use Rattle.clu_passes.specs.Bound.{AreBadDecls, AreInside, IsArmKnown, IsExceptionKnown, IsFirstKnown};
ghost use Rattle.clu_passes.specs.ConstantTables.{file_with, AreTables};
ghost use Rattle.clu_passes.specs.FactTables.{AreFacts};
ghost use Rattle.clu_passes.specs.Firsts.{AreItems};
ghost use Rattle.clu_passes.specs.Notes.{HaveParents};
ghost use Rattle.clu_passes.specs.TableRaises.{AreRaises};
ghost use Rattle.clu_passes.specs.Routines.{AreParts, StandInRoutines};

/// V23, where nothing is lost of the statement that the arm guards.
pub fn v23_by_facts()
    ensures { (k : Known) (scope : Scope) (library : List Specification) (refused : List ℕ) → HaveForms k.tables.file.syntax.now → IsTree k.tables.file.syntax.now → AreTables (file_with k.tables.file scope library refused) k.tables → (lost : ℕ → Bool) → AreFacts (file_with k.tables.file scope library refused) k.tables.types.now k.facts.now lost → AreInside (file_with k.tables.file scope library refused) k lost → AreRaises (file_with k.tables.file scope library refused) k lost → HaveParents (file_with k.tables.file scope library refused) → (items : ℕ → Item) (n : ℕ) → lost n ≡ false → IsFirstKnown (file_with k.tables.file scope library refused) lost n → v23 (file_with k.tables.file scope library refused) n ≡ of_tables.v23 k items n }
{}

/// V26 of a signal, where nothing is lost of the exception that it names.
pub fn v26_of_signals()
    ensures { (k : Known) (scope : Scope) (library : List Specification) (refused : List ℕ) → HaveForms k.tables.file.syntax.now → IsTree k.tables.file.syntax.now → AreTables (file_with k.tables.file scope library refused) k.tables → AreItems (file_with k.tables.file scope library refused) k.tables → StandInRoutines (file_with k.tables.file scope library refused) → AreParts (file_with k.tables.file scope library refused) k.routines.now.parts.items → (lost : ℕ → Bool) → AreFacts (file_with k.tables.file scope library refused) k.tables.types.now k.facts.now lost → (bits : List Bool) (bad : ℕ → Bool) (items : ℕ → Item) (n : ℕ) → kind_in k n ≡ kind.Signal → lost n ≡ false → AllByRecursion (IsExceptionKnown (file_with k.tables.file scope library refused) k n) (names k n) → v26 (file_with k.tables.file scope library refused) bad n ≡ of_tables.v26 k items bits n }
{}

/// V26 of raises that are resignalled, where nothing is lost of the exceptions that are named.
pub fn v26_of_resignals()
    ensures { (k : Known) (scope : Scope) (library : List Specification) (refused : List ℕ) → HaveForms k.tables.file.syntax.now → IsTree k.tables.file.syntax.now → AreTables (file_with k.tables.file scope library refused) k.tables → AreItems (file_with k.tables.file scope library refused) k.tables → StandInRoutines (file_with k.tables.file scope library refused) → AreParts (file_with k.tables.file scope library refused) k.routines.now.parts.items → (lost : ℕ → Bool) → AreFacts (file_with k.tables.file scope library refused) k.tables.types.now k.facts.now lost → AreRaises (file_with k.tables.file scope library refused) k lost → (bits : List Bool) (bad : ℕ → Bool) (items : ℕ → Item) (n : ℕ) → kind_in k n ≡ kind.Resignal → lost n ≡ false → AllByRecursion (IsExceptionKnown (file_with k.tables.file scope library refused) k n) (names k n) → v26 (file_with k.tables.file scope library refused) bad n ≡ of_tables.v26 k items bits n }
{}

/// V26 of an exit in the tree of a text, where nothing is lost of the types of the arm to which it goes.
pub fn v26_of_exits()
    ensures { (k : Known) (scope : Scope) (library : List Specification) (refused : List ℕ) (t : Text) → IsParsed t k.tables.file.syntax.now → AreRounds k.tables.file.syntax.now k.tables.file.rounds.now → AreTables (file_with k.tables.file scope library refused) k.tables → AreItems (file_with k.tables.file scope library refused) k.tables → (lost : ℕ → Bool) → AreFacts (file_with k.tables.file scope library refused) k.tables.types.now k.facts.now lost → AreInside (file_with k.tables.file scope library refused) k lost → (bits : List Bool) (bad : ℕ → Bool) → AreBadDecls (file_with k.tables.file scope library refused) bits bad → (items : ℕ → Item) (n : ℕ) → kind_in k n ≡ kind.Exit → lost n ≡ false → IsArmKnown k lost bad n → v26 (file_with k.tables.file scope library refused) bad n ≡ of_tables.v26 k items bits n }
{}
