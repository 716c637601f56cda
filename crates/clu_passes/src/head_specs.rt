//! That specifications tell what heads tell, as a library keeps it, and what is asked of each node of a file.

ghost use Rattle.std.specs.Prelude.{◌≡◌, ◌<◌, ℕ, All, Bool, true, List, length, slice_get, Option, None, Some, map, false, []};
ghost use Rattle.std.specs.List.{AllByRecursion};
ghost use Rattle.clu_base.specs.declared.constants.Const.{Const};
ghost use Rattle.clu_tree.specs.declared.node.Node.{Node};
ghost use Rattle.clu_tree.specs.declared.node.NodeKind.TheVariants as kind;
ghost use Rattle.clu_tree.specs.Nodes.{IsTree};
ghost use Rattle.clu_parser.specs.Shape.{HaveForms};
ghost use Rattle.clu_types.specs.Arena.{types_of, Grows, IsArena};
ghost use Rattle.clu_parser.specs.Trees.{Text};
ghost use Rattle.clu_types.specs.declared.term.Term.{Term};
ghost use Rattle.clu_types.specs.declared.spec.Spec.{Spec};
ghost use Rattle.clu_types.specs.declared.spec.ParamKind.{ParamKind};
ghost use Rattle.clu_names.specs.declared.scopes.Declared.{Declared};
ghost use Rattle.clu_syntax.specs.Kinds.{kind_at};
ghost use Rattle.clu_syntax.specs.Splits.{child, is_of};
ghost use Rattle.clu_syntax.specs.Items.{operations_at};
ghost use Rattle.clu_syntax.specs.Nodes.{before, item_at};
ghost use Rattle.clu_meaning.specs.Scoping.{Scope};
ghost use Rattle.clu_checking.specs.Specifications.{Specification, specification_kept, specification_told};
ghost use Rattle.clu_checking.specs.Files.{is_refused};
ghost use Rattle.clu_checking.specs.Equates.{operations_asked};
ghost use Rattle.clu_settle.specs.Lists.{type_id, value_of};
ghost use Rattle.clu_settle.specs.Settled.{AreSettled};
ghost use Rattle.clu_settle.specs.Values.{TypeWithin, AreWithin};
ghost use Rattle.clu_declares.specs.Declares.{AreFew, IsParsed};
ghost use Rattle.clu_head.specs.declared.asked.Asked.{Asked};
ghost use Rattle.clu_head.specs.declared.head.Demanded.{Demanded};
ghost use Rattle.clu_head.specs.declared.head.Head.{Head};
ghost use Rattle.clu_head.specs.declared.known.Known.{Known};
ghost use Rattle.clu_head.specs.Asked.{demands_at, demands_of, starts_to};
ghost use Rattle.clu_head.specs.Asking.{asked_at, asked_by_opers};
ghost use Rattle.clu_head.specs.Kept.{IsFormOf};
ghost use Rattle.clu_head.specs.declared.heads.Heads.{Heads};
ghost use Rattle.clu_head.specs.Modules.{AreHeadsOf, AreKinds, AreOf, AreOfModules};
ghost use Rattle.clu_head.specs.ParameterKinds.{kinds_of};
ghost use Rattle.clu_head.specs.Wanted.{AreAsked, asked_to};
ghost use Rattle.clu_bindings.specs.declared.file.Headed.{Headed};
ghost use Rattle.clu_operations.specs.Wished.{AreHeads};
ghost use Rattle.clu_passes.specs.Heads.{AreCounted, file_known};
ghost use Rattle.clu_passes.specs.Libraries.{HoldAscending};
ghost use Rattle.clu_passes.specs.RoutineTypes.{HaveTypes};
ghost use Rattle.clu_passes.specs.Told.{demand_told, head_told};

/// A specification that is made of a head tells what the head tells, where its iterators have types of iterators and its
/// procedures types of procedures.
pub fn specifications_kept()
    ensures { (types : List Term) (h : Head) (s : Spec) → s.name ≡ h.name → map Some s.kinds ≡ h.kinds → HaveTypes (types_of types) h.form → IsFormOf types s.types h.form s.form → specification_told s ≡ specification_kept (head_told (types_of types) h) }
{}

/// What a file asks by its nodes, one behind the other, falls into what each node asks, with the types that are wanted.
pub fn asked_of_each()
    ensures { (k : Known) (old new : List Term) (size : ℕ) (demands : List Demanded) → AreAsked k old new (asked_to k size) demands → (n : ℕ) → n < size → AreAsked k old new (asked_at k.syntax.now k.rounds.now k.counts.now k.restricted.now n) (demands_of demands (starts_to (demands_at k.syntax.now k.rounds.now k.counts.now k.restricted.now) size) n) }
{}

/// What is asked by Opers, with the types that are wanted, is what the definition asks by them, where what is lost is refused.
pub fn opers_asked()
    ensures { (k : Known) (scope : Scope) (library : List Specification) (refused : List ℕ) → HaveForms k.syntax.now → IsTree k.syntax.now → AreCounted k (file_known k scope library refused) → (old new : List Term) (constants : List Const) → AreSettled k.syntax.now scope new constants k.values.now → ((c : ℕ) (node : Node) → slice_get k.syntax.now c ≡ Some node → node.kind ≡ kind.Oper → type_id (value_of k.values.now (child 0 node)) ≡ None → is_refused (file_known k scope library refused) (child 0 node) ≡ true) → (parameter n : ℕ) (cs : List ℕ) → AllByRecursion (λ c. (c < n) × (is_of kind.Oper (kind_at k.syntax.now c) ≡ true)) cs → (ds : List Demanded) → AreAsked k old new (asked_by_opers parameter None cs) ds → map (demand_told (types_of new)) ds ≡ operations_asked (file_known k scope library refused) scope parameter (operations_at (before n (item_at k.syntax.now)) cs) }
{}

/// The numbers that stand in the heads of a file are those of its arena, routines ascend by name, and what is no node asks
/// nothing, where the types of values are of the arena and each specification of the library is whole.
pub fn heads_numbered()
    ensures { (headed : Headed) (ds : List Declared) (refused : List Bool) (old new : List Term) → Grows old new → (constants : ℕ) → AreWithin (length old) constants headed.file.values.now → HoldAscending headed.file.library.now → AreHeadsOf headed.file.syntax.now headed.file.rounds.now ds headed.file.values.now refused old new headed.heads.now → AreHeads headed (length new) }
{}

/// Of the heads of a file each routine that is an iterator has a type of iterators, and each other one a type of procedures.
pub fn head_types_fit()
    ensures { (k : Known) (old new : List Term) → IsArena new → (heads : Heads) → AreOf k old new heads → (i : ℕ) (h : Head) → slice_get heads.modules.items i ≡ Some h → HaveTypes (types_of new) h.form }
{}

/// The kinds of a head's parameters are those by the whole arena, where the types of values were there before.
pub fn head_kinds_stay()
    ensures { (k : Known) (asked : Asked) (old new : List Term) → All (TypeWithin (length old)) k.values.now → (parameters : List ℕ) (kinds : List (Option ParamKind)) → AreKinds k asked old new parameters kinds → kinds ≡ kinds_of new k.values.now k.syntax.now parameters }
{}
