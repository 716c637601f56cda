//! That what is noted of the nodes of a file, one after the other, is what the definitions say, where nothing is lost.

ghost use Rattle.std.specs.Prelude.{◌≡◌, ◌<◌, ℕ, Bool, true, false, List, Some, length};
ghost use Rattle.clu_tree.specs.declared.node.NodeKind.TheVariants as kind;
ghost use Rattle.clu_tree.specs.Nodes.{IsTree};
ghost use Rattle.clu_parser.specs.Shape.{HaveForms};
ghost use Rattle.clu_parser.specs.Trees.{Text};
ghost use Rattle.clu_types.specs.Arena.{Grows, IsArena};
ghost use Rattle.clu_types.specs.declared.term.Term.{Term};
ghost use Rattle.clu_syntax.specs.Items.{Item};
ghost use Rattle.clu_syntax.specs.Kinds.{kind_at};
ghost use Rattle.clu_meaning.specs.Scoping.{Scope};
ghost use Rattle.clu_declares.specs.Declares.{IsParsed};
ghost use Rattle.clu_checking.specs.Specifications.{Specification};
ghost use Rattle.clu_checking.specs.Files.{item};
ghost use Rattle.clu_checking.specs.Headings.{known_inside, own_type, parameter_type};
ghost use Rattle.clu_checking.specs.Wanted.{first_name_at};
ghost use Rattle.clu_bindings.specs.declared.file.Headed.{Headed};
ghost use Rattle.clu_bindings.specs.Inside as bound;
ghost use Rattle.clu_bindings.specs.Named as named;
ghost use Rattle.clu_bindings.specs.Readers.{children_in, meaning_in};
ghost use Rattle.clu_name_rules.specs.declared.tables.Tables.{Tables};
ghost use Rattle.clu_operations.specs.declared.finding.Finding.{Finding};
ghost use Rattle.clu_operations.specs.Finding.{Follows};
ghost use Rattle.clu_typing.specs.declared.facts.Facts.{Facts};
ghost use Rattle.clu_typing.specs.Facts.{type_of};
ghost use Rattle.clu_typing.specs.Nodes.{names_module};
ghost use Rattle.clu_typing.specs.Pass.{AreKnown, HaveRows, IsSound};
ghost use Rattle.clu_typing.specs.Raises.{raised_told};
ghost use Rattle.clu_typing.specs.Sets.{HaveSame};
ghost use Rattle.clu_type_rules.specs.Askers.{with_finding};
ghost use Rattle.clu_passes.specs.ConstantTables.{AreTables, IsEquateKnown, IsFirstKnown, IsIndexKnown, IsKnown, file_with};
ghost use Rattle.clu_passes.specs.FactTables.{AreFacts, IsType, typed};
ghost use Rattle.clu_passes.specs.InvokedSaid.{AreSaid};
ghost use Rattle.clu_passes.specs.NamesKnown.{HasTypes, IsNameKnown, IsTypeKnown, variable_of};
ghost use Rattle.clu_passes.specs.PassNoted.{IsKnownFile};
ghost use Rattle.clu_passes.specs.Raised.{raises_of};
ghost use Rattle.clu_passes.specs.Trees.{IsFileOfTree};

/// The types of all expressions.
pub fn types_noted()
    ensures { (t : Text) (h : Headed) (scope : Scope) (library : List Specification) (refused : List ℕ) (items : ℕ → Item) (first : List Term) (lost : ℕ → Bool) → IsKnownFile t h (file_with h.file scope library refused) items first lost → (terms : List Term) (facts : Facts) → IsArena terms → AreKnown h items first (length h.file.syntax.now) terms facts → (n : ℕ) → lost n ≡ false → IsType terms (type_of facts n) (typed (file_with h.file scope library refused) n) }
{}

/// All that is known of the nodes: types, what is invoked, and the operations that are found.
pub fn facts_told()
    ensures { (t : Text) (h : Headed) (scope : Scope) (library : List Specification) (refused : List ℕ) (items : ℕ → Item) (first : List Term) (lost : ℕ → Bool) → IsKnownFile t h (file_with h.file scope library refused) items first lost → (terms : List Term) (facts : Facts) → IsArena terms → AreKnown h items first (length h.file.syntax.now) terms facts → AreFacts (file_with h.file scope library refused) terms facts lost }
{}

/// What each node raises, as a set, where it has the row of what its children raise.
pub fn raises_noted()
    ensures { (t : Text) (h : Headed) (scope : Scope) (library : List Specification) (refused : List ℕ) (items : ℕ → Item) (first : List Term) (lost : ℕ → Bool) → IsKnownFile t h (file_with h.file scope library refused) items first lost → (its : Tables) → AreTables (file_with h.file scope library refused) (record its { file = h.file }) → (facts : Facts) → Grows first its.types.now → IsSound h its.types.now facts → ((n : ℕ) → lost n ≡ false → IsType its.types.now (type_of facts n) (typed (file_with h.file scope library refused) n)) → ((n : ℕ) → lost n ≡ false → IsIndexKnown h.file n) → HaveRows h items (length h.file.syntax.now) its.types.now facts → (n : ℕ) → n < length h.file.syntax.now → lost n ≡ false → HaveSame (raised_told its.types.now facts n) (raises_of (file_with h.file scope library refused) n) }
{}

/// What is read of a Name, where its value is known, and that of the equate that it denotes.
pub fn names_held()
    ensures { (h : Headed) (its : Tables) (scope : Scope) (library : List Specification) (refused : List ℕ) → HaveForms h.file.syntax.now → IsTree h.file.syntax.now → AreTables (file_with h.file scope library refused) (record its { file = h.file }) → (items : ℕ → Item) (n : ℕ) → kind_at h.file.syntax.now n ≡ kind.Name → IsKnown h.file n → IsEquateKnown h.file (meaning_in h.file n) → ((k : ℕ) → IsType its.types.now (named.parameter_type h.file its.types.now n k) (parameter_type (file_with h.file scope library refused) n k)) → ((t : ℕ) → variable_of (meaning_in h.file n) ≡ Some t → IsType its.types.now (bound.known_inside h items n t) (known_inside (file_with h.file scope library refused) n (item (file_with h.file scope library refused) t).type)) → IsType its.types.now (bound.own_type h.file n) (own_type (file_with h.file scope library refused) n) → IsNameKnown (file_with h.file scope library refused) h items its.types.now n n (first_name_at (file_with h.file scope library refused) n) }
{}

/// What is read of an expression that names a type first, or has brackets, where its values are known.
pub fn types_held()
    ensures fields { (t : Text) (h : Headed) (its : Tables) (scope : Scope) (library : List Specification) (refused : List ℕ) → IsParsed t h.file.syntax.now → AreTables (file_with h.file scope library refused) (record its { file = h.file }) → (items : ℕ → Item) (n : ℕ) → kind_at h.file.syntax.now n ≡ kind.Fields → IsTypeKnown h.file (children_in h.file n) → HasTypes (file_with h.file scope library refused) h items its.types.now n (item (file_with h.file scope library refused) n).expression }
    ensures elements { (t : Text) (h : Headed) (its : Tables) (scope : Scope) (library : List Specification) (refused : List ℕ) → IsParsed t h.file.syntax.now → AreTables (file_with h.file scope library refused) (record its { file = h.file }) → (items : ℕ → Item) (n : ℕ) → kind_at h.file.syntax.now n ≡ kind.Elems → IsTypeKnown h.file (children_in h.file n) → HasTypes (file_with h.file scope library refused) h items its.types.now n (item (file_with h.file scope library refused) n).expression }
    ensures operations { (t : Text) (h : Headed) (its : Tables) (scope : Scope) (library : List Specification) (refused : List ℕ) → IsParsed t h.file.syntax.now → AreTables (file_with h.file scope library refused) (record its { file = h.file }) → (items : ℕ → Item) (n : ℕ) → kind_at h.file.syntax.now n ≡ kind.OperOf → IsTypeKnown h.file (children_in h.file n) → HasTypes (file_with h.file scope library refused) h items its.types.now n (item (file_with h.file scope library refused) n).expression }
    ensures forces { (t : Text) (h : Headed) (its : Tables) (scope : Scope) (library : List Specification) (refused : List ℕ) → IsParsed t h.file.syntax.now → AreTables (file_with h.file scope library refused) (record its { file = h.file }) → (items : ℕ → Item) (n : ℕ) → kind_at h.file.syntax.now n ≡ kind.Force → IsTypeKnown h.file (children_in h.file n) → HasTypes (file_with h.file scope library refused) h items its.types.now n (item (file_with h.file scope library refused) n).expression }
    ensures brackets { (t : Text) (h : Headed) (its : Tables) (scope : Scope) (library : List Specification) (refused : List ℕ) → IsParsed t h.file.syntax.now → AreTables (file_with h.file scope library refused) (record its { file = h.file }) → (items : ℕ → Item) (n : ℕ) → kind_at h.file.syntax.now n ≡ kind.Index → (names_module h.file n ≡ true → IsKnown h.file n) → IsFirstKnown h.file (children_in h.file n) → HasTypes (file_with h.file scope library refused) h items its.types.now n (item (file_with h.file scope library refused) n).expression }
{}

/// The same with more types and more that was found, as it is when the rules are asked.
pub fn facts_kept()
    ensures { (t : Text) (h : Headed) (scope : Scope) (library : List Specification) (refused : List ℕ) (items : ℕ → Item) (first : List Term) (lost : ℕ → Bool) → IsKnownFile t h (file_with h.file scope library refused) items first lost → (terms : List Term) (facts : Facts) → IsArena terms → AreKnown h items first (length h.file.syntax.now) terms facts → (new : List Term) → Grows terms new → (finding : Finding) → Follows facts.finding finding → AreFacts (file_with h.file scope library refused) new (with_finding facts finding) lost }
{}

/// What is noted as invoked at each node, with these types and names.
pub fn invoked_kept()
    ensures { (t : Text) (h : Headed) (scope : Scope) (library : List Specification) (refused : List ℕ) (items : ℕ → Item) (first : List Term) (lost : ℕ → Bool) → IsKnownFile t h (file_with h.file scope library refused) items first lost → IsFileOfTree (file_with h.file scope library refused) → (terms : List Term) (facts : Facts) → IsArena terms → AreKnown h items first (length h.file.syntax.now) terms facts → (new : List Term) → Grows terms new → (finding : Finding) → Follows facts.finding finding → AreSaid (file_with h.file scope library refused) new (with_finding facts finding) lost }
{}
