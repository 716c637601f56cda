//! That the operations that the tables of a file tell are those that the definitions find, where the heads tell what the definitions
//! say of modules.

ghost use Rattle.std.specs.Prelude.{◌≡◌, ◌<◌, ℕ, true, List, Option, Some, None, length, slice_get, option_map};
ghost use Rattle.std.specs.List.{AllByRecursion};
ghost use Rattle.clu_types.specs.CluType.{CluType, cluster_of, Actuals};
ghost use Rattle.clu_types.specs.Arena.{IsArena, type_at, types_of};
ghost use Rattle.clu_types.specs.declared.term.Term.{Term};
ghost use Rattle.clu_types.specs.declared.term.TypeId.{TypeId};
ghost use Rattle.clu_tree.specs.declared.node.NodeKind.TheVariants as kind;
ghost use Rattle.clu_parser.specs.Trees.{Text};
ghost use Rattle.clu_syntax.specs.Rounds.{AreRounds};
ghost use Rattle.clu_names.specs.Scopes.{declarations};
ghost use Rattle.clu_syntax.specs.Syntax.{Expression};
ghost use Rattle.clu_declares.specs.Declares.{AreFew, IsParsed};
ghost use Rattle.clu_meaning.specs.Scoping.{Scope, parameter_number};
ghost use Rattle.clu_checking.specs.Specifications.{Specification};
ghost use Rattle.clu_checking.specs.Files.{File, children, is_kind, kind_in, parameters_round, round, stands_below};
ghost use Rattle.clu_checking.specs.Headings.{specification};
ghost use Rattle.clu_checking.specs.Operations.{given_at, given_found, given_of, operation_found};
ghost use Rattle.clu_bindings.specs.declared.file.File.{File as Read};
ghost use Rattle.clu_bindings.specs.declared.file.Headed.{Headed};
ghost use Rattle.clu_bindings.specs.Parameters.{AreParameters};
ghost use Rattle.clu_bindings.specs.Readers.{children_in};
ghost use Rattle.clu_bindings.specs.Tables.{optional};
ghost use Rattle.clu_operations.specs.declared.words.NameId.{NameId};
ghost use Rattle.clu_operations.specs.Clauses.{count_round};
ghost use Rattle.clu_operations.specs.Finding.{AreWithin};
ghost use Rattle.clu_operations.specs.Given.{told_round};
ghost use Rattle.clu_operations.specs.Wished.{told_at, told_seen};
ghost use Rattle.clu_typing.specs.declared.applied.Applied.{Applied};
ghost use Rattle.clu_typing.specs.declared.facts.Facts.{Facts};
ghost use Rattle.clu_typing.specs.Found.{IsAppliedTold};
ghost use Rattle.clu_typing.specs.Stands.{stands_by};
ghost use Rattle.clu_passes.specs.Ascending.{SpecificationsAscend};
ghost use Rattle.clu_passes.specs.ConstantTables.{file_with};
ghost use Rattle.clu_passes.specs.FactTables.{IsType, typed};
ghost use Rattle.clu_passes.specs.FoundTold.{TellFile, found_of, module_found};
ghost use Rattle.clu_passes.specs.NodeTypes.{HasNames, number_of};
ghost use Rattle.clu_passes.specs.NotedLists.{types_given};
ghost use Rattle.clu_passes.specs.StandsFor.{AreOperands, AreOperandsOf, StandsFor};

/// What where clauses and type sets give of a type parameter at a node.
pub fn given_told()
    ensures { (h : Headed) (scope : Scope) (library : List Specification) (refused : List ℕ) (types : List CluType) → TellFile h scope library refused types → (n parameter : ℕ) (name : List ℕ) → option_map found_of (told_round h types n parameter name) ≡ option_map (given_found (file_with h.file scope library refused)) (given_of (given_at (file_with h.file scope library refused) n) parameter name) }
{}

/// The operation of a name that a type has at a node.
pub fn operations_told()
    ensures { (h : Headed) (scope : Scope) (library : List Specification) (refused : List ℕ) (terms : List Term) → IsArena terms → TellFile h scope library refused (types_of terms) → (names : List (List ℕ)) (of : TypeId) → of.0 < length terms → (n : ℕ) (operation : NameId) (name : List ℕ) → slice_get names operation.0 ≡ Some name → option_map found_of (told_at h terms names n of operation) ≡ operation_found (file_with h.file scope library refused) n (type_at (types_of terms) of) name }
{}

/// A module by itself, with the actual parameters of a type: its routine, and what it asks.
pub fn modules_found()
    ensures { (h : Headed) (scope : Scope) (library : List Specification) (refused : List ℕ) (terms : List Term) → IsArena terms → TellFile h scope library refused (types_of terms) → (names : List (List ℕ)) (of : TypeId) → of.0 < length terms → (name : List ℕ) (given : Actuals) → type_at (types_of terms) of ≡ cluster_of name given → option_map found_of (told_seen h terms names None of None) ≡ option_map (module_found given) (option_map (λ s. s.form) (specification (file_with h.file scope library refused) name)) }
{}

/// The types that are known of the children of a node are those of its operands.
pub fn operands_told()
    ensures { (t : Text) (f : File) → IsParsed t f.nodes → (terms : List Term) (types : List (Option TypeId)) (n : ℕ) → AllByRecursion (λ c. IsType terms (optional (slice_get types c)) (typed f c)) (children f n) → AreOperands f terms (types_given types (children f n)) (kind_in f n) n }
{}

/// The operation for which an expression stands, as it was found, where the types of its operands and what its names stand for are
/// so, and components ascend in what the library shows.
pub fn applied_told()
    ensures { (h : Headed) (scope : Scope) (library : List Specification) (refused : List ℕ) (terms : List Term) → IsArena terms → TellFile h scope library refused (types_of terms) → SpecificationsAscend library → (facts : Facts) → AreWithin (length terms) facts.finding → (known : List (Option TypeId)) (n : ℕ) (e : Expression) → number_of e ≡ n → AreOperandsOf (file_with h.file scope library refused) terms (types_given known (children_in h.file n)) e → HasNames (file_with h.file scope library refused) h terms n e → (its : Applied) → IsAppliedTold h terms facts.finding n (stands_by h.file known n e) its → StandsFor (file_with h.file scope library refused) terms facts e its }
{}

/// As many parameters has the module round a node as that round a type set in which the node stands.
pub fn sets_counted()
    ensures { (t : Text) (r : Read) (scope : Scope) (library : List Specification) (refused : List ℕ) → IsParsed t r.syntax.now → AreRounds r.syntax.now r.rounds.now → AreFew r.syntax.now r.rounds.now → AreParameters r.syntax.now r.rounds.now (declarations r.syntax.now r.rounds.now) r.bindings.now.parameters → (n s : ℕ) → is_kind (file_with r scope library refused) kind.TypeSet s ≡ true → stands_below (file_with r scope library refused) n s ≡ true → count_round r n ≡ parameter_number (parameters_round r.syntax.now (round (file_with r scope library refused) s).unit) }
{}
