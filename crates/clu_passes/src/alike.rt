//! That the rules by which types are refused say the same by tables as by the definitions, up to the first that is violated, whatever
//! is lost; so equates are bad by these rules, and nodes refused, just if the tables say so.

ghost use Rattle.std.specs.Prelude.{◌≡◌, ◌<◌, ℕ, Bool, List, Some, false, length, slice_get, true};
ghost use Rattle.std.specs.List.{AllByRecursion};
ghost use Rattle.clu_base.specs.declared.rules.Rule.{Rule};
ghost use Rattle.clu_parser.specs.Trees.{Text};
ghost use Rattle.clu_types.specs.declared.term.Term.{Term};
ghost use Rattle.clu_tree.specs.declared.node.Node.{Node};
ghost use Rattle.clu_tree.specs.declared.node.NodeKind.TheVariants as kind;
ghost use Rattle.clu_syntax.specs.Items.{Item};
ghost use Rattle.clu_syntax.specs.Syntax.{Identifier};
ghost use Rattle.clu_meaning.specs.Scoping.{Scope};
ghost use Rattle.clu_checking.specs.Specifications.{Specification};
ghost use Rattle.clu_checking.specs.Files.{is_kind, kind_in, scope_in};
ghost use Rattle.clu_checking.specs.Equates.{is_bad_name, is_circular, names_unfolded};
ghost use Rattle.clu_checking.specs.Rules as definition;
ghost use Rattle.clu_checking.specs.Refusals.{is_bad_of, rules_of_types};
ghost use Rattle.clu_bindings.specs.declared.file.File.{File};
ghost use Rattle.clu_name_rules.specs.declared.tables.Tables.{Tables};
ghost use Rattle.clu_type_rules.specs.Asked.{is_asked, rules_at};
ghost use Rattle.clu_type_rules.specs.Rules.{violates, violates_of_types};
ghost use Rattle.clu_type_rules.specs.declared.known.Known.{Known};
ghost use Rattle.clu_passes.specs.Clear.{IsClear, IsOutside};
ghost use Rattle.clu_passes.specs.ConstantTables.{AreBad, file_with};
ghost use Rattle.clu_passes.specs.Losing.{is_plain};
ghost use Rattle.clu_passes.specs.Made.{IsMade, IsWhole};
ghost use Rattle.clu_passes.specs.Notes.{HaveParents};
ghost use Rattle.clu_passes.specs.Refusing.{AgreeInEquates, AgreeInHeadings, AgreeInRest, AgreeOn, AgreeWithin, IsOrder, bits_in, has_fault, is_no_type, of_types};
ghost use Rattle.clu_passes.specs.Right.{AreRight};
ghost use Rattle.clu_passes.specs.Tables.{AreMeanings};
ghost use Rattle.clu_passes.specs.Trees.{IsFileOfTree};
ghost use Rattle.clu_passes.specs.Turns.{bit};

/// Which names that no declaration declares are those of the library's modules.
pub fn meanings_told()
    ensures { (t : Text) (r : File) (library : List Specification) (refused : List ℕ) (types : List Term) → IsMade t r library refused types → AreMeanings (file_with r (scope_in r.syntax.now r.rounds.now) library refused) r.names.now r.bindings.now.meanings.items }
{}

/// At a node before which no type is refused, where the table of bad equates has those among them that it names.
pub fn types_agree()
    ensures { (t : Text) (its : Tables) (library : List Specification) (refused : List ℕ) → IsWhole t its library refused → (items : ℕ → Item) (bits : List Bool) (bad : ℕ → Bool) → AreBad (file_with its.file (scope_in its.file.syntax.now its.file.rounds.now) library refused) bits bad → (n : ℕ) → n < length its.file.syntax.now → IsClear (file_with its.file (scope_in its.file.syntax.now its.file.rounds.now) library refused) n → AllByRecursion (λ (name : Identifier). is_bad_name (file_with its.file (scope_in its.file.syntax.now its.file.rounds.now) library refused) (is_bad_of (file_with its.file (scope_in its.file.syntax.now its.file.rounds.now) library refused) (rules_of_types (file_with its.file (scope_in its.file.syntax.now its.file.rounds.now) library refused))) n name ≡ true → is_bad_name (file_with its.file (scope_in its.file.syntax.now its.file.rounds.now) library refused) bad n name ≡ true) (names_unfolded (file_with its.file (scope_in its.file.syntax.now its.file.rounds.now) library refused) (kind_in (file_with its.file (scope_in its.file.syntax.now its.file.rounds.now) library refused) n) n) → AgreeOn (violates_of_types its bits items n) (of_types (definition.violates (file_with its.file (scope_in its.file.syntax.now its.file.rounds.now) library refused) bad n)) (rules_at (kind_in (file_with its.file (scope_in its.file.syntax.now its.file.rounds.now) library refused) n)) }
{}

/// So the bits that come of asking equates in their order say in which a type is refused; the rules agree in each equate, and in
/// each node that stands in no brackets.
pub fn types_settled()
    ensures bits { (t : Text) (its : Tables) (library : List Specification) (refused : List ℕ) → IsWhole t its library refused → (items : ℕ → Item) (order : List ℕ) (circular : List Bool) → IsOrder (file_with its.file (scope_in its.file.syntax.now its.file.rounds.now) library refused) its.file.names.now order circular → (e : ℕ) → is_kind (file_with its.file (scope_in its.file.syntax.now its.file.rounds.now) library refused) kind.Equate e ≡ true → is_circular (file_with its.file (scope_in its.file.syntax.now its.file.rounds.now) library refused) e ≡ false → bit (bits_in (file_with its.file (scope_in its.file.syntax.now its.file.rounds.now) library refused) order (is_no_type its items)) e ≡ is_bad_of (file_with its.file (scope_in its.file.syntax.now its.file.rounds.now) library refused) (rules_of_types (file_with its.file (scope_in its.file.syntax.now its.file.rounds.now) library refused)) e }
    ensures equates { (t : Text) (its : Tables) (library : List Specification) (refused : List ℕ) → IsWhole t its library refused → (items : ℕ → Item) (order : List ℕ) (circular : List Bool) → IsOrder (file_with its.file (scope_in its.file.syntax.now its.file.rounds.now) library refused) its.file.names.now order circular → AgreeInEquates (file_with its.file (scope_in its.file.syntax.now its.file.rounds.now) library refused) (violates_of_types its (bits_in (file_with its.file (scope_in its.file.syntax.now its.file.rounds.now) library refused) order (is_no_type its items)) items) (λ n. of_types (definition.violates (file_with its.file (scope_in its.file.syntax.now its.file.rounds.now) library refused) (bit (bits_in (file_with its.file (scope_in its.file.syntax.now its.file.rounds.now) library refused) order (is_no_type its items))) n)) }
    ensures within { (t : Text) (its : Tables) (library : List Specification) (refused : List ℕ) → IsWhole t its library refused → (items : ℕ → Item) (order : List ℕ) (circular : List Bool) → IsOrder (file_with its.file (scope_in its.file.syntax.now its.file.rounds.now) library refused) its.file.names.now order circular → (n : ℕ) (node : Node) → slice_get its.file.syntax.now n ≡ Some node → IsOutside (file_with its.file (scope_in its.file.syntax.now its.file.rounds.now) library refused) n → AgreeWithin (file_with its.file (scope_in its.file.syntax.now its.file.rounds.now) library refused) (violates_of_types its (bits_in (file_with its.file (scope_in its.file.syntax.now its.file.rounds.now) library refused) order (is_no_type its items)) items) (λ m. of_types (definition.violates (file_with its.file (scope_in its.file.syntax.now its.file.rounds.now) library refused) (is_bad_of (file_with its.file (scope_in its.file.syntax.now its.file.rounds.now) library refused) (rules_of_types (file_with its.file (scope_in its.file.syntax.now its.file.rounds.now) library refused))) m)) n }
{}

/// Rules over tables that are right at each node, up to the first that is violated there if none is before it (`AreRight`), say what the
/// definitions say in each equate, and on both walks up to the first fault.
pub fn walks_agree()
    ensures equates { (k : Known) (scope : Scope) (library : List Specification) (refused : List ℕ) → IsFileOfTree (file_with k.tables.file scope library refused) → HaveParents (file_with k.tables.file scope library refused) → (items : ℕ → Item) (order : List ℕ) (circular : List Bool) → IsOrder (file_with k.tables.file scope library refused) k.tables.file.names.now order circular → AreRight (file_with k.tables.file scope library refused) k items (bits_in (file_with k.tables.file scope library refused) order (has_fault k items)) → AgreeInEquates (file_with k.tables.file scope library refused) (violates k (bits_in (file_with k.tables.file scope library refused) order (has_fault k items)) items) (definition.violates (file_with k.tables.file scope library refused) (bit (bits_in (file_with k.tables.file scope library refused) order (has_fault k items)))) }
    ensures headings { (k : Known) (scope : Scope) (library : List Specification) (refused : List ℕ) → IsFileOfTree (file_with k.tables.file scope library refused) → HaveParents (file_with k.tables.file scope library refused) → (items : ℕ → Item) (order : List ℕ) (circular : List Bool) → IsOrder (file_with k.tables.file scope library refused) k.tables.file.names.now order circular → AreRight (file_with k.tables.file scope library refused) k items (bits_in (file_with k.tables.file scope library refused) order (has_fault k items)) → AgreeInHeadings (file_with k.tables.file scope library refused) (violates k (bits_in (file_with k.tables.file scope library refused) order (has_fault k items)) items) }
    ensures rest { (k : Known) (scope : Scope) (library : List Specification) (refused : List ℕ) → IsFileOfTree (file_with k.tables.file scope library refused) → HaveParents (file_with k.tables.file scope library refused) → (items : ℕ → Item) (order : List ℕ) (circular : List Bool) → IsOrder (file_with k.tables.file scope library refused) k.tables.file.names.now order circular → AreRight (file_with k.tables.file scope library refused) k items (bits_in (file_with k.tables.file scope library refused) order (has_fault k items)) → AgreeInRest (file_with k.tables.file scope library refused) (violates k (bits_in (file_with k.tables.file scope library refused) order (has_fault k items)) items) }
{}

/// At the file, modules, routines and clusters they say so in any case.
pub fn definitions_same()
    ensures { (t : Text) (k : Known) (library : List Specification) (refused : List ℕ) → IsWhole t k.tables library refused → (items : ℕ → Item) (bits : List Bool) (bad : ℕ → Bool) (n : ℕ) → is_plain (kind_in (file_with k.tables.file (scope_in k.tables.file.syntax.now k.tables.file.rounds.now) library refused) n) ≡ false → (r : Rule) → is_asked (kind_in (file_with k.tables.file (scope_in k.tables.file.syntax.now k.tables.file.rounds.now) library refused) n) r ≡ true → violates k bits items n r ≡ definition.violates (file_with k.tables.file (scope_in k.tables.file.syntax.now k.tables.file.rounds.now) library refused) bad n r }
{}
