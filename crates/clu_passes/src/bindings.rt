//! That the tables of `bindings_of` of `clu_bindings` are those that the rules on constants and types ask for.

ghost use Rattle.std.specs.Prelude.{◌≡◌, ◌<◌, ◌&&◌, ◌∷◌, ℕ, true, List, Some, codes, is_some, length, slice_get};
ghost use Rattle.clu_tree.specs.declared.node.Node.{Node};
ghost use Rattle.clu_tree.specs.declared.node.NodeKind.TheVariants as kind;
ghost use Rattle.clu_parser.specs.Trees.{Text};
ghost use Rattle.clu_types.specs.declared.term.Term.{Term};
ghost use Rattle.clu_syntax.specs.declared.words.SimpleType.TheVariants as simple;
ghost use Rattle.clu_syntax.specs.Kinds.{kind_at};
ghost use Rattle.clu_syntax.specs.Rounds.{AreRounds};
ghost use Rattle.clu_syntax.specs.Syntax.{Identifier};
ghost use Rattle.clu_names.specs.Denotes.{found, names_in};
ghost use Rattle.clu_names.specs.Scopes.{declarations};
ghost use Rattle.clu_meaning.specs.Scoping.{Scope};
ghost use Rattle.clu_checking.specs.Specifications.{Specification};
ghost use Rattle.clu_checking.specs.Equates.{is_set_name};
ghost use Rattle.clu_checking.specs.ConstantRules.{is_word};
ghost use Rattle.clu_checking.specs.Files.{children, equate_named, is_kind, item, meaning, parent, scope_in};
ghost use Rattle.clu_checking.specs.Headings as headings;
ghost use Rattle.clu_checking.specs.Typing as typing;
ghost use Rattle.clu_checking.specs.Wanted as wants;
ghost use Rattle.clu_checking.specs.Wanted.{first_name_at};
ghost use Rattle.clu_declares.specs.Declares.{AreFew, IsParsed};
ghost use Rattle.clu_bindings.specs.declared.file.File.{File};
ghost use Rattle.clu_bindings.specs.Bindings.{AreBindings};
ghost use Rattle.clu_bindings.specs.Inside.{declared_at, rep_at};
ghost use Rattle.clu_bindings.specs.Readers.{meaning_in, set_at, wanted_in};
ghost use Rattle.clu_bindings.specs.Readers as read;
ghost use Rattle.clu_type_rules.specs.declared.known.Known.{Known};
ghost use Rattle.clu_type_rules.specs.ExpressionRules.{is_equate};
ghost use Rattle.clu_passes.specs.Bound.{AreTargets, TellModules, TellTypeModules};
ghost use Rattle.clu_passes.specs.ConstantTables.{IsEquateKnown, IsMeant, IsTypeOf, IsWantedKnown, Means, file_with, is_equated, wanted_told};
ghost use Rattle.clu_passes.specs.Made.{IsMade};
ghost use Rattle.clu_passes.specs.Tables.{AreNames};

/// The place of a node among its parent's children.
pub fn places_said()
    ensures { (t : Text) (r : File) → IsParsed t r.syntax.now → AreRounds r.syntax.now r.rounds.now → AreBindings r.syntax.now r.rounds.now r.names.now r.values.now r.bindings.now → (scope : Scope) (library : List Specification) (refused : List ℕ) (n p : ℕ) → parent (file_with r scope library refused) n ≡ Some p → read.place_in r n ≡ wants.place_in (file_with r scope library refused) (children (file_with r scope library refused) p) n }
{}

/// The type with which a parameter of the module round a node is declared.
pub fn parameters_declared()
    ensures { (t : Text) (r : File) → IsParsed t r.syntax.now → AreRounds r.syntax.now r.rounds.now → AreBindings r.syntax.now r.rounds.now r.names.now r.values.now r.bindings.now → (scope : Scope) (library : List Specification) (refused : List ℕ) (n k : ℕ) → IsTypeOf r.syntax.now (read.declared_parameter r n k) (headings.declared_parameter (file_with r scope library refused) n k) }
{}

/// What is wanted at a node, where the value of the equate before the brackets in which it stands is known, and so after which
/// names brackets hold actual parameters.
pub fn wanted_said()
    ensures { (r : File) (scope : Scope) (library : List Specification) (refused : List ℕ) → ((n : ℕ) → IsEquateKnown r (meaning_in r n) → read.takes_actuals r n ≡ (is_kind (file_with r scope library refused) kind.Name n && typing.takes_actuals (file_with r scope library refused) n (first_name_at (file_with r scope library refused) n))) → AreRounds r.syntax.now r.rounds.now → AreBindings r.syntax.now r.rounds.now r.names.now r.values.now r.bindings.now → (n : ℕ) → IsWantedKnown r n → wanted_told (wanted_in r n) ≡ wants.wanted (file_with r scope library refused) n }
{}

/// What the first name of a node means, in the file of a tree.
pub fn names_mean()
    ensures { (t : Text) (r : File) (library : List Specification) (refused : List ℕ) → IsParsed t r.syntax.now → AreRounds r.syntax.now r.rounds.now → AreFew r.syntax.now r.rounds.now → AreNames (file_with r (scope_in r.syntax.now r.rounds.now) library refused) r.names.now → AreBindings r.syntax.now r.rounds.now r.names.now r.values.now r.bindings.now → (n : ℕ) (node : Node) (name : Identifier) (rest : List Identifier) → slice_get r.syntax.now n ≡ Some node → names_in node.kind node ≡ name ∷ rest → Means r.syntax.now (meaning_in r n) (meaning (file_with r (scope_in r.syntax.now r.rounds.now) library refused) n name) }
{}

/// A name is that of an equate just if an Equate declares it.
pub fn equates_said()
    ensures { (t : Text) (r : File) (library : List Specification) (refused : List ℕ) → IsParsed t r.syntax.now → AreRounds r.syntax.now r.rounds.now → AreFew r.syntax.now r.rounds.now → AreNames (file_with r (scope_in r.syntax.now r.rounds.now) library refused) r.names.now → AreBindings r.syntax.now r.rounds.now r.names.now r.values.now r.bindings.now → (n : ℕ) (name : Identifier) → is_some (equate_named (file_with r (scope_in r.syntax.now r.rounds.now) library refused) n name) ≡ is_equated (meaning (file_with r (scope_in r.syntax.now r.rounds.now) library refused) n name) }
{}

/// What the first name of a Name, of a type by its name and of a Restrict means, of which kinds the parameters of a module are
/// that it names and whether that is a routine; and what the word `rep` means.
pub fn names_meant()
    ensures names { (t : Text) (r : File) (library : List Specification) (refused : List ℕ) (types : List Term) → IsMade t r library refused types → (n : ℕ) → kind_at r.syntax.now n ≡ kind.Name → IsMeant (file_with r (scope_in r.syntax.now r.rounds.now) library refused) r n (first_name_at (file_with r (scope_in r.syntax.now r.rounds.now) library refused) n) }
    ensures types { (t : Text) (r : File) (library : List Specification) (refused : List ℕ) (types : List Term) → IsMade t r library refused types → (n : ℕ) → kind_at r.syntax.now n ≡ kind.NameT → IsMeant (file_with r (scope_in r.syntax.now r.rounds.now) library refused) r n (first_name_at (file_with r (scope_in r.syntax.now r.rounds.now) library refused) n) }
    ensures restricted { (t : Text) (r : File) (library : List Specification) (refused : List ℕ) (types : List Term) → IsMade t r library refused types → (n : ℕ) → kind_at r.syntax.now n ≡ kind.Restrict → Means r.syntax.now (meaning_in r n) (meaning (file_with r (scope_in r.syntax.now r.rounds.now) library refused) n (first_name_at (file_with r (scope_in r.syntax.now r.rounds.now) library refused) n)) }
    ensures reps { (t : Text) (r : File) (library : List Specification) (refused : List ℕ) (types : List Term) → IsMade t r library refused types → (n : ℕ) → kind_at r.syntax.now n ≡ kind.Simple → is_word simple.Rep (item (file_with r (scope_in r.syntax.now r.rounds.now) library refused) n).type ≡ true → Means r.syntax.now (meaning_in r n) (meaning (file_with r (scope_in r.syntax.now r.rounds.now) library refused) n (codes "rep")) }
{}

/// A name stands for a type set just if the table has one for its declaration.
pub fn sets_said()
    ensures { (t : Text) (r : File) (library : List Specification) (refused : List ℕ) → IsParsed t r.syntax.now → AreNames (file_with r (scope_in r.syntax.now r.rounds.now) library refused) r.names.now → AreBindings r.syntax.now r.rounds.now r.names.now r.values.now r.bindings.now → (n : ℕ) (name : Identifier) → is_some (set_at r (found (declarations r.syntax.now r.rounds.now) name n)) ≡ is_set_name (file_with r (scope_in r.syntax.now r.rounds.now) library refused) n name }
{}

/// After which names brackets hold actual parameters, where the value of the name's equate is known.
pub fn takers_said()
    ensures { (t : Text) (r : File) (library : List Specification) (refused : List ℕ) (types : List Term) → IsMade t r library refused types → (n : ℕ) → IsEquateKnown r (meaning_in r n) → read.takes_actuals r n ≡ (is_kind (file_with r (scope_in r.syntax.now r.rounds.now) library refused) kind.Name n && typing.takes_actuals (file_with r (scope_in r.syntax.now r.rounds.now) library refused) n (first_name_at (file_with r (scope_in r.syntax.now r.rounds.now) library refused) n)) }
{}

/// At each node the word `rep` stands for an equate just if the table has one for it.
pub fn rep_equated()
    ensures { (t : Text) (r : File) (library : List Specification) (refused : List ℕ) → IsParsed t r.syntax.now → AreRounds r.syntax.now r.rounds.now → AreFew r.syntax.now r.rounds.now → AreNames (file_with r (scope_in r.syntax.now r.rounds.now) library refused) r.names.now → AreBindings r.syntax.now r.rounds.now r.names.now r.values.now r.bindings.now → (n : ℕ) → n < length r.syntax.now → is_equate (declared_at r (rep_at r n)) ≡ is_some (equate_named (file_with r (scope_in r.syntax.now r.rounds.now) library refused) n (codes "rep")) }
{}

/// What the names to which a node assigns mean is what the table says.
pub fn targets_mean()
    ensures { (t : Text) (k : Known) (library : List Specification) (refused : List ℕ) → IsParsed t k.tables.file.syntax.now → AreRounds k.tables.file.syntax.now k.tables.file.rounds.now → AreFew k.tables.file.syntax.now k.tables.file.rounds.now → AreNames (file_with k.tables.file (scope_in k.tables.file.syntax.now k.tables.file.rounds.now) library refused) k.tables.file.names.now → AreBindings k.tables.file.syntax.now k.tables.file.rounds.now k.tables.file.names.now k.tables.file.values.now k.tables.file.bindings.now → AreTargets (file_with k.tables.file (scope_in k.tables.file.syntax.now k.tables.file.rounds.now) library refused) k }
{}

/// The name of a Name, or of a type by its name, is that of a module just if the table has one for it.
pub fn modules_told()
    ensures names { (t : Text) (r : File) (library : List Specification) (refused : List ℕ) (types : List Term) → IsMade t r library refused types → TellModules (file_with r (scope_in r.syntax.now r.rounds.now) library refused) r }
    ensures types { (t : Text) (r : File) (library : List Specification) (refused : List ℕ) (types : List Term) → IsMade t r library refused types → TellTypeModules (file_with r (scope_in r.syntax.now r.rounds.now) library refused) r }
{}
