//! That the rules on names, as `clu_name_rules` asks them of tables, are those of the definitions, where each table is what its
//! own definition says.

ghost use Rattle.std.specs.Prelude.{◌≡◌, ◌||◌, ◌<◌, ℕ, Bool, List, Some, get_or, length, slice_get};
ghost use Rattle.std.specs.List.{list_any};
ghost use Rattle.clu_base.specs.declared.constants.Const.{Const};
ghost use Rattle.clu_types.specs.declared.term.Term.{Term};
ghost use Rattle.clu_parser.specs.Shape.{HaveForms};
ghost use Rattle.clu_syntax.specs.Items.{Item};
ghost use Rattle.clu_syntax.specs.Kinds.{kind_at};
ghost use Rattle.clu_syntax.specs.Nodes.{item_with};
ghost use Rattle.clu_names.specs.declared.binding.Names.{Names};
ghost use Rattle.clu_syntax.specs.Syntax.{Identifier};
ghost use Rattle.clu_names.specs.declared.scopes.Declared.{Declared};
ghost use Rattle.clu_names.specs.Denotes.{bound_at, found};
ghost use Rattle.clu_checking.specs.Files.{File};
ghost use Rattle.clu_checking.specs.NameRules.{is_preceded, v4, v5, v7, v37};
ghost use Rattle.clu_settle.specs.declared.value.Value.{Value};
ghost use Rattle.clu_settle.specs.declared.value.Value.TheVariants as value;
ghost use Rattle.clu_settle.specs.Settled.{AreSettled};
ghost use Rattle.clu_bindings.specs.declared.meaning.Meaning.{Meaning};
ghost use Rattle.clu_bindings.specs.Tables.{items_at};
ghost use Rattle.clu_settle.specs.Names.{names_of};
ghost use Rattle.clu_bindings.specs.Files.{bound_in};
ghost use Rattle.clu_name_rules.specs.Closed.{is_long};
ghost use Rattle.clu_name_rules.specs.NameRules.{is_literal_out_of_range, uses_unknown, is_redefined, leads_to_mark, takes_argument};
ghost use Rattle.clu_name_rules.specs.Own.{own_places};
ghost use Rattle.clu_passes.specs.Marks.{AreMarks};
ghost use Rattle.clu_passes.specs.Owns.{first_from};
ghost use Rattle.clu_passes.specs.Tables.{AreNames, AreMeanings, AreFoundStrings, OpenOfOne, TellStrings};

/// What the table of names has at a node is what the names of the node denote.
pub fn names_of_node()
    ensures { (f : File) (names : Names) → AreNames f names → (n : ℕ) → bound_in names n ≡ bound_at f.scope.declarations n (slice_get f.nodes n) }
{}

/// V4, where the table of values says of each string whether it denotes something.
pub fn v4_by_tables()
    ensures { (f : File) (values : List Value) → TellStrings f values → (items : ℕ → Item) (n : ℕ) → v4 f n ≡ (list_any is_long (names_of (slice_get f.nodes n)) || is_literal_out_of_range (item_with items f.nodes n (slice_get f.nodes n)).expression (get_or values n value.Lost)) }
{}

/// Values of a file that are right say this, if that of no string is lost.
pub fn strings_told()
    ensures { (f : File) (types : List Term) (constants : List Const) (values : List Value) → AreSettled f.nodes f.scope types constants values → AreFoundStrings f values → TellStrings f values }
{}

/// V5, where the table of meanings says which of the names that no declaration declares are those of the library's modules.
pub fn v5_by_tables()
    ensures { (f : File) (names : Names) → AreNames f names → (meanings : List Meaning) → AreMeanings f names meanings → (n : ℕ) → v5 f n ≡ uses_unknown (kind_at f.nodes n) (names_of (slice_get f.nodes n)) (bound_in names n) (items_at meanings names.starts.items n) }
{}

/// V6: another declaration of the module is in scope at a node and comes before this one just if the one does to which the name
/// is bound there.
pub fn redefined_by_binding()
    ensures { (ds : List Declared) (n : ℕ) (name : Identifier) (own : ℕ) (e : Declared) → slice_get ds own ≡ Some e → OpenOfOne ds n name e → is_preceded n name own e 0 ds ≡ is_redefined ds own (found ds name n) }
{}

/// The place that is noted of a node is that of its first declaration; the number of all if it has none.
pub fn own_is_first()
    ensures { (ds : List Declared) (nodes m : ℕ) → m < nodes → get_or (own_places ds nodes) m 0 ≡ first_from 0 ds m (length ds) }
{}

/// V7 of a tree of the grammar, where the bits are those of circular equates.
pub fn v7_by_tables()
    ensures { (f : File) → HaveForms f.nodes → (names : Names) → AreNames f names → (marks : List Bool) → AreMarks f marks → (n : ℕ) → v7 f n ≡ leads_to_mark marks (kind_at f.nodes n) (bound_in names n) }
{}

/// V37 of a tree of the grammar.
pub fn v37_by_tables()
    ensures { (f : File) → HaveForms f.nodes → (names : Names) → AreNames f names → (n : ℕ) → v37 f n ≡ takes_argument f.nodes f.rounds names n }
{}
