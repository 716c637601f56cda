//! What the laws ask of a file, of the tree of a text with its surroundings and declarations.

ghost use Rattle.std.specs.Prelude.{◌≡◌, ◌<◌, ◌^◌, ℕ, Bool, true, false, List, Some, length, get_or, slice_get};
ghost use Rattle.std.specs.List.{list_any};
ghost use Rattle.clu_base.specs.declared.tokens.Token.{Token};
ghost use Rattle.clu_lexer.specs.Tokens.{Tokens};
ghost use Rattle.clu_tree.specs.declared.node.Node.{Node};
ghost use Rattle.clu_tree.specs.Nodes.{IsTree};
ghost use Rattle.clu_parser.specs.Parsing.{IsTreeOf, text_of};
ghost use Rattle.clu_parser.specs.Shape.{HaveForms, IsShaped};
ghost use Rattle.clu_parser.specs.Trees.{Built, IsBuilt, Text};
ghost use Rattle.clu_syntax.specs.declared.round.Round.{Round};
ghost use Rattle.clu_syntax.specs.Rounds.{AreRounds};
ghost use Rattle.clu_syntax.specs.Syntax.{Identifier};
ghost use Rattle.clu_names.specs.declared.scopes.Declared.{Declared};
ghost use Rattle.clu_names.specs.declared.binding.Names.{Names};
ghost use Rattle.clu_names.specs.Denotes.{is_rep};
ghost use Rattle.clu_names.specs.Scopes.{declarations};
ghost use Rattle.clu_checking.specs.Files.{File, kind_in};
ghost use Rattle.clu_checking.specs.NameRules.{is_redefined, names_defined, stands_twice};
ghost use Rattle.clu_checking.specs.ConstantRules.{is_right_side};
ghost use Rattle.clu_settle.specs.declared.value.Value.{Value};
ghost use Rattle.clu_settle.specs.declared.value.Value.TheVariants as value;
ghost use Rattle.clu_settle.specs.Lists.{value_of};
ghost use Rattle.clu_settle.specs.Lost.{IsLost};
ghost use Rattle.clu_settle.specs.Names.{is_constant, names_of};
ghost use Rattle.clu_settle.specs.Meant.{meanings_of};
ghost use Rattle.clu_bindings.specs.Files.{bound_in};
ghost use Rattle.clu_name_rules.specs.NameRules.{bound_defined, has_redefined};
ghost use Rattle.clu_name_rules.specs.Own.{own_places};
ghost use Rattle.clu_declares.specs.Declares.{IsParsed};
ghost use Rattle.clu_passes.specs.Bound.{AreOfModules};
ghost use Rattle.clu_passes.specs.Notes.{DeclareModules, HaveParents, HaveRoutines};
ghost use Rattle.clu_passes.specs.Owns.{declares_all};
ghost use Rattle.clu_passes.specs.RepsOfTree.{HaveReps};
ghost use Rattle.clu_passes.specs.Tables.{AreFoundStrings, AreNames, OpenOfOne};

/// Each node stands once among the children of its parent, and among those of no other node.
pub fn have_parents()
    ensures { (t : Text) (f : File) → IsParsed t f.nodes → AreRounds f.nodes f.rounds → HaveParents f }
{}

/// The routines of a cluster are its children that are routines.
pub fn have_routines()
    ensures { (t : Text) (f : File) → IsParsed t f.nodes → AreRounds f.nodes f.rounds → HaveRoutines f }
{}

/// What is declared outside of every module is a module.
pub fn declare_modules()
    ensures { (t : Text) (f : File) → IsParsed t f.nodes → AreRounds f.nodes f.rounds → f.scope.declarations ≡ declarations f.nodes f.rounds → DeclareModules f }
{}

/// The value of no string is lost, where what is lost is so by the table of meanings that `settle` of clu_settle makes.
pub fn found_strings()
    ensures { (f : File) → HaveForms f.nodes → IsTree f.nodes → (values : List Value) → ((n : ℕ) → n < length f.nodes → value_of values n ≡ value.Lost → IsLost f.nodes (meanings_of f.nodes f.rounds f.scope.declarations) n) → AreFoundStrings f values }
{}

/// The declarations that a node has in their scope, but for modules, are those of the module of each one that it declares.
pub fn open_of_one()
    ensures { (t : Text) (nodes : List Node) (rounds : List Round) → IsParsed t nodes → AreRounds nodes rounds → length nodes < 2 ^ 32 → (n : ℕ) (name : Identifier) (own : ℕ) (e : Declared) → slice_get (declarations nodes rounds) own ≡ Some e → e.node ≡ n → OpenOfOne (declarations nodes rounds) n name e }
{}

/// What stands on the right side of an equate is a constant or a type set.
pub fn right_sides()
    ensures { (t : Text) (f : File) → IsParsed t f.nodes → AreRounds f.nodes f.rounds → (n : ℕ) → is_right_side f n ≡ true → is_constant f.nodes n ≡ true }
{}

/// Of a node that declares all its names, each once, one of them is redefined just if the places say so.
pub fn redefined_by_places()
    ensures { (t : Text) (f : File) → IsParsed t f.nodes → AreRounds f.nodes f.rounds → f.scope.declarations ≡ declarations f.nodes f.rounds → length f.nodes < 2 ^ 32 → (table : Names) → AreNames f table → (with_variable : Bool) (n : ℕ) → declares_all (kind_in f n) ≡ true → stands_twice (names_defined f (kind_in f n) n) ≡ false → list_any (is_redefined f n) (names_defined f (kind_in f n) n) ≡ has_redefined f.scope.declarations (get_or (own_places f.scope.declarations (length f.nodes)) n (length f.scope.declarations)) (bound_defined (kind_in f n) (names_of (slice_get f.nodes n)) with_variable (bound_in table n)) }
{}

/// Each Parm is a parameter of a module, since the grammar has none of a routine of a cluster.
pub fn parms_of_modules()
    ensures { (t : Text) (nodes : List Node) (rounds : List Round) → IsParsed t nodes → AreRounds nodes rounds → (z : Built) → IsBuilt t z → z.nodes ≡ nodes → AreOfModules nodes rounds }
{}

/// No name of the tree of a text is the word `rep`, which is reserved.
pub fn names_reserved()
    ensures { (bytes : List ℕ) (tokens : List Token) (nodes : List Node) → Tokens bytes tokens → IsShaped (text_of bytes tokens) nodes → (n : ℕ) (node : Node) → slice_get nodes n ≡ Some node → list_any is_rep node.names ≡ false }
{}

/// In the tree of a text no name is the word `rep`, and an equate without a name stands in a cluster.
pub fn reps_of_built()
    ensures { (bytes : List ℕ) (tokens : List Token) (nodes : List Node) → Tokens bytes tokens → IsTreeOf bytes tokens nodes → HaveReps nodes }
{}
