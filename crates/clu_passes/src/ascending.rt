//! That the components of types ascend by name. Where a selector stands twice its neighbours are equal.

ghost use Rattle.std.specs.Prelude.{◌≡◌, ◌<◌, ◌≤◌, ◌||◌, ℕ, Bool, true, false, List, slice_get, None, Some};
ghost use Rattle.clu_base.specs.declared.constants.Const.{Const};
ghost use Rattle.clu_types.specs.declared.term.Term.{Term};
ghost use Rattle.clu_types.specs.declared.term.TypeId.{TypeId};
ghost use Rattle.clu_types.specs.Arena.{IsArena, type_at, types_of};
ghost use Rattle.clu_types.specs.CluType.{CluType};
ghost use Rattle.clu_tree.specs.declared.node.Node.{Node};
ghost use Rattle.clu_tree.specs.declared.node.NodeKind.TheVariants as kind;
ghost use Rattle.clu_tree.specs.Nodes.{IsTree};
ghost use Rattle.clu_parser.specs.Shape.{HaveForms};
ghost use Rattle.clu_parser.specs.Trees.{Text};
ghost use Rattle.clu_syntax.specs.declared.round.Round.{Round};
ghost use Rattle.clu_syntax.specs.Kinds.{is_type, kind_at};
ghost use Rattle.clu_syntax.specs.Rounds.{AreRounds, round_at};
ghost use Rattle.clu_syntax.specs.Splits.{is_of};
ghost use Rattle.clu_syntax.specs.Syntax.{TypeExpression, Expression};
ghost use Rattle.clu_meaning.specs.Scoping.{Scope};
ghost use Rattle.clu_meaning.specs.Settling.{type_settled};
ghost use Rattle.clu_checking.specs.Files.{File};
ghost use Rattle.clu_checking.specs.Specifications.{Specification};
ghost use Rattle.clu_checking.specs.Typing.{type_of};
ghost use Rattle.clu_settle.specs.declared.value.Value.{Value};
ghost use Rattle.clu_settle.specs.Lists.{type_id, value_of};
ghost use Rattle.clu_settle.specs.Names.{is_constant};
ghost use Rattle.clu_settle.specs.Settled.{AreSettled};
ghost use Rattle.clu_declares.specs.Declares.{IsParsed};
ghost use Rattle.clu_bindings.specs.Readers.{value_in};
ghost use Rattle.clu_name_rules.specs.declared.tables.Tables.{Tables};
ghost use Rattle.clu_name_rules.specs.Components.{AreAscending, fields_in};
ghost use Rattle.clu_name_rules.specs.Constructors.{ValuesAscend};
ghost use Rattle.clu_operations.specs.Builtins.{ComponentsAscend};
ghost use Rattle.clu_type_rules.specs.declared.known.Known.{Known};
ghost use Rattle.clu_type_rules.specs.Asked.{rules_at};
ghost use Rattle.clu_type_rules.specs.Tags.{TagsAscend};
ghost use Rattle.clu_passes.specs.Ascending.{Ascends, AscendsIf, SpecificationsAscend};
ghost use Rattle.clu_passes.specs.Bound.{IsFirstKnown};
ghost use Rattle.clu_passes.specs.ConstantTables.{AreTables, file_with};
ghost use Rattle.clu_passes.specs.FactTables.{AreFacts};
ghost use Rattle.clu_passes.specs.Tags.{asks_tags};

/// Those of each type that a text names, and of the types of which it is made.
pub fn settled_ascend()
    ensures { (scope : Scope) (t : TypeExpression) → Ascends (type_settled scope t) }
{}

/// Those of a type that is known of a node, in the arena.
pub fn components_ascend()
    ensures { (nodes : List Node) (scope : Scope) (types : List Term) (constants : List Const) (values : List Value) → AreSettled nodes scope types constants values → IsArena types → (n : ℕ) → is_type (kind_at nodes n) ≡ true → (id : TypeId) → type_id (value_of values n) ≡ Some id → AreAscending (fields_in (slice_get types id.0)) }
{}

/// Those of the type of an expression, where they ascend in what the library shows.
pub fn expressions_ascend()
    ensures { (f : File) → SpecificationsAscend f.library → (e : Expression) → AscendsIf (type_of f e) }
{}

/// Where they ascend in a type, they do in its term.
pub fn terms_ascend()
    ensures { (types : List Term) → IsArena types → (id : TypeId) → Ascends (type_at (types_of types) id) → AreAscending (fields_in (slice_get types id.0)) }
{}

/// As the operations of built-in types ask it.
pub fn names_ascend()
    ensures { (t : CluType) → Ascends t → ComponentsAscend t }
{}

/// As the code of V13 and V17 asks it of the types that are values of nodes, where one at which neither a constant nor a type stands
/// has none.
pub fn values_ascend()
    ensures { (t : Tables) (scope : Scope) → AreSettled t.file.syntax.now scope t.types.now t.file.constants.now t.file.values.now → IsArena t.types.now → ((n : ℕ) → is_constant t.file.syntax.now n ≡ false → type_id (value_in t.file n) ≡ None) → ValuesAscend t }
{}

/// As that of V15 and V22 asks it at an arm of the tags of the type on which its Tagcase selects, where this is known.
pub fn tags_ascend()
    ensures { (k : Known) (scope : Scope) (library : List Specification) (refused : List ℕ) → HaveForms k.tables.file.syntax.now → IsTree k.tables.file.syntax.now → AreTables (file_with k.tables.file scope library refused) k.tables → (lost : ℕ → Bool) → AreFacts (file_with k.tables.file scope library refused) k.tables.types.now k.facts.now lost → SpecificationsAscend library → (n : ℕ) → IsFirstKnown (file_with k.tables.file scope library refused) lost n → TagsAscend k n }
{}

/// Where a rule that looks for tags is asked of a node, this stands in no heading, and in neither an Equate nor a Decl.
pub fn tags_asked()
    ensures headings { (t : Text) (nodes : List Node) (rounds : List Round) → IsParsed t nodes → AreRounds nodes rounds → (n : ℕ) → (round_at rounds n).heading ≡ true → asks_tags (rules_at (kind_at nodes n)) ≡ false }
    ensures equates { (t : Text) (nodes : List Node) (rounds : List Round) → IsParsed t nodes → AreRounds nodes rounds → (e : ℕ) → (is_of kind.Equate (kind_at nodes e) || is_of kind.Decl (kind_at nodes e)) ≡ true → (n : ℕ) → (round_at rounds e).first ≤ n → n < e → asks_tags (rules_at (kind_at nodes n)) ≡ false }
{}
