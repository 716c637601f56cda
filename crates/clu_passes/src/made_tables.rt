//! That the tables which the code makes of a file are those which the rules read: fields of `AreTables`, each of what is said of
//! the call that makes its table, and all of them.

ghost use Rattle.std.specs.Prelude.{◌≡◌, ◌<◌, ◌≤◌, ◌↔◌, ℕ, Bool, true, List, Some, length, map, nat_lt, slice_get};
ghost use Rattle.clu_base.specs.declared.constants.Const.{Const};
ghost use Rattle.clu_parser.specs.Trees.{Text};
ghost use Rattle.clu_types.specs.declared.term.Term.{Term};
ghost use Rattle.clu_types.specs.declared.term.TypeId.{TypeId};
ghost use Rattle.clu_types.specs.Arena.{IsArena, type_at, types_of};
ghost use Rattle.clu_syntax.specs.Nodes.{item_at};
ghost use Rattle.clu_syntax.specs.Rounds.{AreRounds, round_at};
ghost use Rattle.clu_names.specs.declared.binding.Names.{Names};
ghost use Rattle.clu_names.specs.Denotes.{bound_to, starts_to};
ghost use Rattle.clu_names.specs.Scopes.{declarations};
ghost use Rattle.clu_meaning.specs.Scoping.{Scope, parameter_number};
ghost use Rattle.clu_checking.specs.Specifications.{Specification};
ghost use Rattle.clu_specs.specs.Constants.{constant_text};
ghost use Rattle.clu_specs.specs.Texts.{type_text};
ghost use Rattle.clu_checking.specs.Files.{File, scope_in};
ghost use Rattle.clu_checking.specs.Headings as headings;
ghost use Rattle.clu_checking.specs.ConstantRules.{is_long_text};
ghost use Rattle.clu_settle.specs.declared.settling.Values.{Values};
ghost use Rattle.clu_settle.specs.Circular.{is_circular};
ghost use Rattle.clu_settle.specs.Meant.{meanings_of};
ghost use Rattle.clu_settle.specs.Names.{AreMeanings};
ghost use Rattle.clu_settle.specs.Settled.{AreSettled};
ghost use Rattle.clu_settle.specs.Values.{constant_at};
ghost use Rattle.clu_declares.specs.Declares.{AreFew, IsParsed};
ghost use Rattle.clu_head.specs.Refused.{is_set};
ghost use Rattle.clu_bindings.specs.declared.file.File.{File as Read};
ghost use Rattle.clu_bindings.specs.Inside.{own_type};
ghost use Rattle.clu_bindings.specs.Owned.{AreOwned};
ghost use Rattle.clu_name_rules.specs.declared.tables.Tables.{Tables};
ghost use Rattle.clu_name_rules.specs.Lengths.{constant_length, lengths_of};
ghost use Rattle.clu_passes.specs.ConstantTables.{AreTables, file_with};
ghost use Rattle.clu_passes.specs.FactTables.{IsType};
ghost use Rattle.clu_passes.specs.Made.{AreMade};
ghost use Rattle.clu_passes.specs.Marks.{AreMarks};
ghost use Rattle.clu_passes.specs.Tables.{AreNames};

/// `names`: what `names_of` of clu_names gives.
pub fn names_told()
    ensures { (f : File) → f.scope.declarations ≡ declarations f.nodes f.rounds → (names : Names) → names.declared.items ≡ declarations f.nodes f.rounds → names.bound.items ≡ bound_to f.nodes names.declared.items (length f.nodes) → names.starts.items ≡ starts_to f.nodes names.declared.items (length f.nodes) → AreNames f names }
{}

/// `values`: those that `settle` of clu_settle gives.
pub fn values_told()
    ensures { (t : Text) (f : File) → IsParsed t f.nodes → AreRounds f.nodes f.rounds → AreFew f.nodes f.rounds → f.scope ≡ scope_in f.nodes f.rounds → (names : Names) → AreNames f names → (all : Values) → all.meanings.items ≡ meanings_of f.nodes f.rounds names.declared.items → ((scope : Scope) → AreMeanings f.nodes scope all.meanings.items → AreSettled f.nodes scope all.types all.constants all.values.items) → AreSettled f.nodes f.scope all.types all.constants all.values.items }
{}

/// `marks`: the bits that `circular_equates` of clu_settle gives.
pub fn marks_told()
    ensures { (f : File) → AreRounds f.nodes f.rounds → (names : Names) → AreNames f names → (marks : List Bool) → (length f.rounds ≡ length f.nodes → (k : ℕ) → k < length names.declared.items → (slice_get marks k ≡ Some true) ↔ (is_circular f.nodes f.rounds names.declared.items k ≡ true)) → AreMarks f marks }
{}

/// `long_types`: the bits that `long_types` of clu_name_rules gives.
pub fn long_types_told()
    ensures { (types : List Term) (bits : List Bool) → bits ≡ map (nat_lt 65536) (lengths_of types) → (id : TypeId) → id.0 < length types → is_set (slice_get bits id.0) ≡ is_long_text (type_text (type_at (types_of types) id)) }
{}

/// `long_constants`: the bits that `long_constants` of clu_name_rules gives.
pub fn long_constants_told()
    ensures { (constants : List Const) (bits : List Bool) → bits ≡ map (λ c. nat_lt 65536 (constant_length c)) constants → (k : ℕ) → k < length constants → is_set (slice_get bits k) ≡ is_long_text (constant_text (constant_at constants k)) }
{}

/// All fields, of a file that was made so.
pub fn tables_are()
    ensures { (t : Text) (its : Tables) (library : List Specification) (refused : List ℕ) → AreMade t its library refused → AreTables (file_with its.file (scope_in its.file.syntax.now its.file.rounds.now) library refused) its }
{}

/// The own type that the table has of the cluster round each node is that of the definition, if no cluster has more parameters
/// than 32 bits count.
pub fn own_types_said()
    ensures { (t : Text) (r : Read) (scope : Scope) (library : List Specification) (refused : List ℕ) (types : List Term) → IsArena types → IsParsed t r.syntax.now → AreRounds r.syntax.now r.rounds.now → AreOwned types r.values.now r.syntax.now (length r.syntax.now) r.bindings.now.own.items → ((n m : ℕ) → (round_at r.rounds.now n).cluster ≡ Some m → parameter_number (item_at r.syntax.now m).cluster.parameters ≤ 4294967295) → (n : ℕ) → IsType types (own_type r n) (headings.own_type (file_with r scope library refused) n) }
{}
