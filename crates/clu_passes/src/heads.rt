//! That heads tell what the definitions say of modules, where the types of their arena are known: own types, types of routines,
//! what is asked, and the lists of these; and that names stand for the type sets to which the table of sets leads.

ghost use Rattle.std.specs.Prelude.{◌≡◌, ◌<◌, ◌≤◌, ℕ, Bool, true, List, [], All, length, map, filter, slice_get, Option, Some, None};
ghost use Rattle.std.specs.Option.{option_and_then, option_map};
ghost use Rattle.clu_base.specs.declared.constants.Const.{Const};
ghost use Rattle.clu_types.specs.CluType.{CluType, cluster_of};
ghost use Rattle.clu_types.specs.declared.term.Heading.{Heading as TypeHeading};
ghost use Rattle.clu_types.specs.declared.term.Term.{Term};
ghost use Rattle.clu_types.specs.declared.term.TypeId.{TypeId};
ghost use Rattle.clu_types.specs.Arena.{IsArena, PartsBelow, types_of, type_at, types_at, type_of};
ghost use Rattle.clu_tree.specs.declared.node.Node.{Node};
ghost use Rattle.clu_tree.specs.declared.node.NodeKind.TheVariants as kind;
ghost use Rattle.clu_tree.specs.Nodes.{IsTree};
ghost use Rattle.clu_parser.specs.Shape.{HaveForms};
ghost use Rattle.clu_parser.specs.Trees.{Text};
ghost use Rattle.clu_syntax.specs.declared.round.Round.{Round};
ghost use Rattle.clu_syntax.specs.Kinds.{is_type, kind_at};
ghost use Rattle.clu_syntax.specs.Rounds.{AreRounds};
ghost use Rattle.clu_syntax.specs.Splits.{first_name};
ghost use Rattle.clu_syntax.specs.Items.{types_at as expressions_at};
ghost use Rattle.clu_syntax.specs.Nodes.{item_at};
ghost use Rattle.clu_syntax.specs.Syntax.{Cluster, Identifier};
ghost use Rattle.clu_names.specs.Denotes.{found};
ghost use Rattle.clu_names.specs.Scopes.{declarations};
ghost use Rattle.clu_meaning.specs.Scoping.{Scope, is_type_parameter, own_actuals, parameter_number};
ghost use Rattle.clu_meaning.specs.Resolving.{Place, heading_types};
ghost use Rattle.clu_checking.specs.Files.{File, item, meaning, names, scope_in};
ghost use Rattle.clu_checking.specs.Specifications.{Heading, Specification};
ghost use Rattle.clu_checking.specs.Equates.{demands_in, set_named};
ghost use Rattle.clu_checking.specs.Headings.{heading_of, is_refused_heading, listed_demands, listed_headings, is_exported, outside_type, routines_of, for_callers, kinds_in, types_by};
ghost use Rattle.clu_settle.specs.declared.value.Value.{Value};
ghost use Rattle.clu_settle.specs.Parameters.{numbers_to};
ghost use Rattle.clu_settle.specs.Settled.{AreSettled};
ghost use Rattle.clu_settle.specs.Values.{AreWithin};
ghost use Rattle.clu_declares.specs.Declares.{AreFew, IsParsed};
ghost use Rattle.clu_head.specs.declared.head.Demanded.{Demanded};
ghost use Rattle.clu_head.specs.declared.head.RoutineHead.{RoutineHead};
ghost use Rattle.clu_head.specs.declared.known.Known.{Known};
ghost use Rattle.clu_head.specs.declared.restricted.Restricted.{Restricted};
ghost use Rattle.clu_head.specs.declared.routines.Named.{Named};
ghost use Rattle.clu_head.specs.Asked.{demands_at, demands_of, demands_to, starts_to};
ghost use Rattle.clu_head.specs.Asking.{restricted_in, untyped};
ghost use Rattle.clu_head.specs.Listed.{listed};
ghost use Rattle.clu_head.specs.Outside.{heading_outside, types_behind};
ghost use Rattle.clu_head.specs.OwnTypes.{IsOwnType};
ghost use Rattle.clu_head.specs.ParameterKinds.{kinds_of};
ghost use Rattle.clu_head.specs.Ranks.{before, same, demand_rank, both_asked, first_of};
ghost use Rattle.clu_head.specs.Routines.{arguments_in, exceptions_in, kind_in, results_in, term_at};
ghost use Rattle.clu_head.specs.Named.{name_rank};
ghost use Rattle.clu_head.specs.Restricting.{restricted_to};
ghost use Rattle.clu_head.specs.Sets.{kept_at, said_of, set_led};
ghost use Rattle.clu_head.specs.Terms.{IsNumbered, term_of};
ghost use Rattle.clu_passes.specs.Heads.{AreCounted, AreRestricted, IsRestricted, file_known, without_type};
ghost use Rattle.clu_passes.specs.Legal.{AreLegalKnown};
ghost use Rattle.clu_passes.specs.ParameterKinds.{IsParm};
ghost use Rattle.clu_passes.specs.Told.{demand_told, routine_told, AreNamed, AreHeadsOf, listed_names};

/// What a head lists of demands tells what the definition lists of what they tell.
pub fn demands_listed()
    ensures { (types : List CluType) (ds : List Demanded) → map (demand_told types) (listed (before demand_rank) (same demand_rank) both_asked ds) ≡ listed_demands (map (demand_told types) ds) }
{}

/// Routines that are listed by their names have the headings that the definition lists, whatever is told of each beside its
/// name.
pub fn routines_listed()
    ensures { (told : Named → Heading) → ((r : Named) → (told r).name ≡ name_rank r) → (rs : List Named) → map told (listed (before name_rank) (same name_rank) first_of rs) ≡ listed_headings (map told rs) }
{}

/// The heads of a cluster's routines as they are listed by their names tell its routines as the text of the cluster sees them,
/// and those that are exported the routines that its specification has.
pub fn routines_headed()
    ensures own { (f : File) (types : List CluType) (c : Cluster) (rs : List Named) (hs : List RoutineHead) → AreNamed f rs → map (λ r. (item f r.node).routine) rs ≡ c.routines → AreHeadsOf f types c (listed_names rs) hs → map (routine_told types) hs ≡ routines_of f c }
    ensures exported { (f : File) (types : List CluType) (c : Cluster) (rs : List Named) (hs : List RoutineHead) → AreNamed f rs → map (λ r. (item f r.node).routine) rs ≡ c.routines → AreHeadsOf f types c (listed_names rs) hs → map (routine_told types) (filter (λ h. h.exported) hs) ≡ filter (is_exported f c) (routines_of f c) }
{}

/// The types of results and of exceptions, where all of them are known, are those that callers see.
pub fn types_seen()
    ensures { (nodes : List Node) (place : Place) (types : List Term) (constants : List Const) (values : List Value) → AreSettled nodes place.scope types constants values → (own : Option TypeId) → option_map (type_at (types_of types)) own ≡ place.home → (ns : List ℕ) (ids : List TypeId) → All (λ n. is_type (kind_at nodes n) ≡ true) ns → types_behind own nodes values [] ns ≡ Some ids → types_by for_callers (heading_types place (expressions_at (item_at nodes) ns)) ≡ types_at (types_of types) ids }
{}

/// The kinds of the parameters of these Parms are those of the definition.
pub fn kinds_listed()
    ensures { (f : File) (types : List Term) (constants : List Const) (values : List Value) → AreSettled f.nodes f.scope types constants values → IsTree f.nodes → IsArena types → AreLegalKnown f values → (ns : List ℕ) → All (IsParm f.nodes) ns → kinds_of types values f.nodes ns ≡ kinds_in f (map (λ n. (item f n).parameter) ns) }
{}

/// The type set that a name stands for is the one to which the table of sets leads from the declaration that the name denotes.
pub fn sets_named()
    ensures { (f : File) → HaveForms f.nodes → IsTree f.nodes → (n : ℕ) (name : Identifier) → set_named f n name ≡ option_map (λ c. (item f c).type_set) (option_and_then (set_led (said_of f.nodes f.scope.declarations f.scope.declarations)) (found f.scope.declarations name n)) }
{}

/// What the table has of a Restrict whose first name is a type parameter is what it restricts, and by which type set, where the
/// numbers of parameters and the type sets for which equates stand are those of the file of a tree.
pub fn restricted_known()
    ensures { (t : Text) (k : Known) (library : List Specification) (refused : List ℕ) → IsParsed t k.syntax.now → AreRounds k.syntax.now k.rounds.now → AreFew k.syntax.now k.rounds.now → (numbers : List ℕ) → numbers ≡ numbers_to k.syntax.now k.rounds.now (declarations k.syntax.now k.rounds.now) (length (declarations k.syntax.now k.rounds.now)) → (sets : List (Option ℕ)) → ((place : ℕ) → kept_at sets place ≡ set_led (said_of k.syntax.now (declarations k.syntax.now k.rounds.now) (declarations k.syntax.now k.rounds.now)) place) → (n j : ℕ) → kind_at k.syntax.now n ≡ kind.Restrict → meaning (file_known k (scope_in k.syntax.now k.rounds.now) library refused) n (first_name (names (file_known k (scope_in k.syntax.now k.rounds.now) library refused) n)) ≡ is_type_parameter j → IsRestricted (file_known k (scope_in k.syntax.now k.rounds.now) library refused) n (restricted_in (slice_get (restricted_to k.syntax.now (declarations k.syntax.now k.rounds.now) sets numbers (length k.syntax.now)) n)) }
{}

/// The type that stands for a cluster with its own parameters is that of the definition.
pub fn own_type_told()
    ensures { (f : File) (types : List Term) → IsArena types → (c : Cluster) (id : TypeId) → parameter_number c.parameters ≤ 4294967295 → IsOwnType types c.name (kinds_in f c.parameters) (Some id) → type_at (types_of types) id ≡ cluster_of c.name (own_actuals 1 c.parameters) }
{}

/// The type of a routine's head as it is made from the values of its nodes, where all of these are known, is the one that callers
/// see.
pub fn heading_types_told()
    ensures { (f : File) → HaveForms f.nodes → IsTree f.nodes → (place : Place) (types : List Term) (constants : List Const) (values : List Value) → AreSettled f.nodes place.scope types constants values → (own : Option TypeId) → option_map (type_at (types_of types)) own ≡ place.home → (n : ℕ) (node : Node) → slice_get f.nodes n ≡ Some node → node.kind ≡ kind.Routine → (h : TypeHeading) → heading_outside own f.nodes values (arguments_in f.nodes node) (results_in f.nodes node) (exceptions_in f.nodes node) ≡ Some h → type_of (types_of types) (term_of (kind_in node) h) ≡ outside_type f place (item f n).routine }
{}

/// The type of a routine's head is that of the heading of the definition, where what is lost is refused and what is known is of the
/// arena before.
pub fn head_types_told()
    ensures { (k : Known) (scope : Scope) (library : List Specification) (refused : List ℕ) → HaveForms k.syntax.now → IsTree k.syntax.now → AreCounted k (file_known k scope library refused) → (n : ℕ) (node : Node) → slice_get k.syntax.now n ≡ Some node → node.kind ≡ kind.Routine → (place : Place) (old new : List Term) → IsArena new → (constants : List Const) → AreSettled k.syntax.now place.scope new constants k.values.now → (own : Option TypeId) → option_map (type_at (types_of new)) own ≡ place.home → (heading_outside own k.syntax.now k.values.now (arguments_in k.syntax.now node) (results_in k.syntax.now node) (exceptions_in k.syntax.now node) ≡ None → is_refused_heading (file_known k scope library refused) (item_at k.syntax.now n).routine ≡ true) → ((t : Term) → term_at k own n (slice_get k.syntax.now n) ≡ Some t → PartsBelow (length old) t) → (of : Option TypeId) → IsNumbered old new (term_at k own n (slice_get k.syntax.now n)) of → option_map (type_at (types_of new)) of ≡ (heading_of (file_known k scope library refused) place (item_at k.syntax.now n).routine).type }
{}

/// What a file asks by its nodes, one behind the other, falls into what each node asks, but for types.
pub fn asked_in_pieces()
    ensures { (of : ℕ → List Demanded) (size : ℕ) (demands : List Demanded) → map untyped demands ≡ demands_to of size → (n : ℕ) → n < size → map untyped (demands_of demands (starts_to of size) n) ≡ of n }
{}

/// What a routine and a cluster ask by their where clauses is, but for the types that are wanted, what the definition lists of
/// these, where it is known of each Restrict what it restricts.
pub fn demands_told()
    ensures routines { (f : File) → HaveForms f.nodes → IsTree f.nodes → (types : List CluType) (rounds : List Round) (counts : List ℕ) (restricted : List Restricted) → AreRestricted f restricted → (n : ℕ) (node : Node) → slice_get f.nodes n ≡ Some node → node.kind ≡ kind.Routine → map (demand_told types) (demands_at f.nodes rounds counts restricted n) ≡ map without_type (demands_in f (item f n).routine.restrictions) }
    ensures clusters { (f : File) → HaveForms f.nodes → IsTree f.nodes → (types : List CluType) (rounds : List Round) (counts : List ℕ) (restricted : List Restricted) → AreRestricted f restricted → (n : ℕ) (node : Node) → slice_get f.nodes n ≡ Some node → node.kind ≡ kind.Cluster → map (demand_told types) (demands_at f.nodes rounds counts restricted n) ≡ map without_type (demands_in f (item f n).cluster.restrictions) }
{}

/// The parts of a routine's type, as a term, are of each arena of which the values of the nodes and the own type are.
pub fn head_parts_below()
    ensures { (k : Known) (many constants : ℕ) → AreWithin many constants k.values.now → (own : Option TypeId) → ((id : TypeId) → own ≡ Some id → id.0 < many) → (n : ℕ) (its : Option Node) (t : Term) → term_at k own n its ≡ Some t → PartsBelow many t }
{}
