//! That what is known of a type by the value of its node is what the type comes to, also as callers see it.

ghost use Rattle.std.specs.Prelude.{◌≡◌, ℕ, true, List, All, map, flat_map, Option, Some};
ghost use Rattle.std.specs.Option.{option_map};
ghost use Rattle.clu_base.specs.declared.constants.Const.{Const};
ghost use Rattle.clu_types.specs.declared.term.Term.{Term};
ghost use Rattle.clu_types.specs.declared.term.TypeId.{TypeId};
ghost use Rattle.clu_types.specs.Arena.{types_of, type_at};
ghost use Rattle.clu_tree.specs.declared.node.Node.{Node};
ghost use Rattle.clu_tree.specs.Nodes.{IsTree};
ghost use Rattle.clu_syntax.specs.Kinds.{is_type, kind_at};
ghost use Rattle.clu_syntax.specs.Nodes.{item_at};
ghost use Rattle.clu_meaning.specs.Scoping.{Scope};
ghost use Rattle.clu_meaning.specs.Settling.{type_settled};
ghost use Rattle.clu_meaning.specs.Resolving.{Place, heading_type};
ghost use Rattle.clu_checking.specs.Files.{File, item};
ghost use Rattle.clu_checking.specs.Headings.{for_callers, kinds_in};
ghost use Rattle.clu_settle.specs.declared.value.Value.{Value};
ghost use Rattle.clu_settle.specs.Lists.{type_id, value_of};
ghost use Rattle.clu_settle.specs.Lost.{AreRead};
ghost use Rattle.clu_settle.specs.Meant.{meanings_of};
ghost use Rattle.clu_settle.specs.Names.{AreMeanings};
ghost use Rattle.clu_settle.specs.Settled.{AreSettled};
ghost use Rattle.clu_head.specs.Seen.{seen_type};
ghost use Rattle.clu_passes.specs.Legal.{AreLegalKnown};
ghost use Rattle.clu_passes.specs.ParameterKinds.{kinds_at, IsParm};
ghost use Rattle.clu_passes.specs.Trees.{IsFileOfTree};

/// A type whose node has a value that is known comes to that type.
pub fn type_told()
    ensures { (nodes : List Node) (scope : Scope) (types : List Term) (constants : List Const) (values : List Value) → AreSettled nodes scope types constants values → (n : ℕ) → is_type (kind_at nodes n) ≡ true → (id : TypeId) → type_id (value_of values n) ≡ Some id → type_settled scope (item_at nodes n).type ≡ type_at (types_of types) id }
{}

/// The same as callers see it, where `cvt` stands for the own type of the place.
pub fn type_seen()
    ensures { (nodes : List Node) (place : Place) (types : List Term) (constants : List Const) (values : List Value) → AreSettled nodes place.scope types constants values → (own : Option TypeId) → option_map (type_at (types_of types)) own ≡ place.home → (n : ℕ) → is_type (kind_at nodes n) ≡ true → (id : TypeId) → seen_type own (item_at nodes n).type (value_of values n) ≡ Some id → for_callers (heading_type place (item_at nodes n).type) ≡ type_at (types_of types) id }
{}

/// A type whose value is lost has no kind as the type of a parameter, and one whose value is found leads neither to `cvt` nor to a
/// circle of equates.
pub fn legal_known()
    ensures { (f : File) → IsFileOfTree f → (values : List Value) → AreMeanings f.nodes f.scope (meanings_of f.nodes f.rounds f.scope.declarations) → AreRead f.nodes (meanings_of f.nodes f.rounds f.scope.declarations) values → AreLegalKnown f values }
{}

/// The kinds of the parameters of these Parms are those of the types that are known.
pub fn kinds_told()
    ensures { (f : File) (types : List Term) (constants : List Const) (values : List Value) → AreSettled f.nodes f.scope types constants values → IsTree f.nodes → AreLegalKnown f values → (ns : List ℕ) → All (IsParm f.nodes) ns → kinds_in f (map (λ n. (item f n).parameter) ns) ≡ flat_map (kinds_at (types_of types) values f.nodes) ns }
{}
