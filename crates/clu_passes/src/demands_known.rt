//! That the table of what the nodes of a file ask tells what the definition asks of them, with the types that are wanted.

ghost use Rattle.std.specs.Prelude.{◌≡◌, ◌<◌, ℕ, Bool, List, Option, length};
ghost use Rattle.clu_base.specs.declared.constants.Const.{Const};
ghost use Rattle.clu_parser.specs.Trees.{Text};
ghost use Rattle.clu_types.specs.Arena.{Grows, types_of};
ghost use Rattle.clu_types.specs.declared.term.Term.{Term};
ghost use Rattle.clu_syntax.specs.Rounds.{AreRounds};
ghost use Rattle.clu_names.specs.Scopes.{declarations};
ghost use Rattle.clu_checking.specs.Specifications.{Specification};
ghost use Rattle.clu_checking.specs.Files.{File as Checked, scope_in};
ghost use Rattle.clu_checking.specs.Refusals.{with_refused};
ghost use Rattle.clu_settle.specs.declared.value.Value.{Value};
ghost use Rattle.clu_settle.specs.declared.value.Value.TheVariants as value;
ghost use Rattle.clu_settle.specs.Lists.{value_of};
ghost use Rattle.clu_settle.specs.Lost.{IsLost};
ghost use Rattle.clu_settle.specs.Meant.{meanings_of};
ghost use Rattle.clu_settle.specs.Parameters.{numbers_to};
ghost use Rattle.clu_settle.specs.Settled.{AreSettled};
ghost use Rattle.clu_settle.specs.Values.{AreWithin};
ghost use Rattle.clu_declares.specs.Declares.{AreFew, IsParsed};
ghost use Rattle.clu_head.specs.declared.heads.Heads.{Heads};
ghost use Rattle.clu_head.specs.declared.known.Known.{Known};
ghost use Rattle.clu_head.specs.Modules.{AreHeadsOf, AreKnown, AreOf};
ghost use Rattle.clu_head.specs.Refused.{counts_to};
ghost use Rattle.clu_head.specs.Restricting.{restricted_to};
ghost use Rattle.clu_head.specs.Sets.{kept_at, said_of, set_led};
ghost use Rattle.clu_bindings.specs.declared.file.File.{File};
ghost use Rattle.clu_passes.specs.Bound.{AreOfModules};
ghost use Rattle.clu_passes.specs.ConstantTables.{file_with};
ghost use Rattle.clu_passes.specs.Demands.{TellAsked};
ghost use Rattle.clu_passes.specs.DemandsTold.{AreOpersCounted, AreOpersLost, TellDemands};
ghost use Rattle.clu_passes.specs.Heads.{AreRestricted, file_known};
ghost use Rattle.clu_passes.specs.Made.{IsMade};
ghost use Rattle.clu_passes.specs.Trees.{IsFileOfTree};

/// What the table has of each Restrict is what it restricts, and by which type set, where each Parm is a parameter of a module.
pub fn restricts_known()
    ensures { (t : Text) (k : Known) (library : List Specification) (refused : List ℕ) → IsParsed t k.syntax.now → AreRounds k.syntax.now k.rounds.now → AreFew k.syntax.now k.rounds.now → AreOfModules k.syntax.now k.rounds.now → (numbers : List ℕ) → numbers ≡ numbers_to k.syntax.now k.rounds.now (declarations k.syntax.now k.rounds.now) (length (declarations k.syntax.now k.rounds.now)) → (sets : List (Option ℕ)) → ((place : ℕ) → kept_at sets place ≡ set_led (said_of k.syntax.now (declarations k.syntax.now k.rounds.now) (declarations k.syntax.now k.rounds.now)) place) → AreRestricted (file_known k (scope_in k.syntax.now k.rounds.now) library refused) (restricted_to k.syntax.now (declarations k.syntax.now k.rounds.now) sets numbers (length k.syntax.now)) }
{}

/// What each node asks, with the types that are wanted, is what the definition asks of it, where refused types of Opers are
/// counted, what is lost of them is refused, and the values were known in the arena before. By `in` a parameter stands in the
/// place of the variable of a type set.
pub fn demands_wanted()
    ensures { (t : Text) (k : Known) (library : List Specification) (refused : List ℕ) → IsParsed t k.syntax.now → AreRounds k.syntax.now k.rounds.now → AreFew k.syntax.now k.rounds.now → AreOfModules k.syntax.now k.rounds.now → AreOpersCounted (file_known k (scope_in k.syntax.now k.rounds.now) library refused) k.refused.now → (bits : List Bool) → AreKnown k.syntax.now k.rounds.now (declarations k.syntax.now k.rounds.now) k.values.now bits k → (old new : List Term) (constants_before : ℕ) → AreWithin (length old) constants_before k.values.now → (constants : List Const) → AreSettled k.syntax.now (scope_in k.syntax.now k.rounds.now) new constants k.values.now → AreOpersLost (file_known k (scope_in k.syntax.now k.rounds.now) library refused) k.values.now → (heads : Heads) → AreOf k old new heads → TellDemands (file_known k (scope_in k.syntax.now k.rounds.now) library refused) (types_of new) heads.asked }
{}

/// The table of what the nodes of a file ask is right, where heads are made of the file: it tells what the definition asks, its types
/// are of their arena, and each demand stands in its clause.
pub fn asked_tells()
    ensures { (t : Text) (r : File) (library : List Specification) (refused : List ℕ) (types : List Term) → IsMade t r library refused types → AreOfModules r.syntax.now r.rounds.now → (terms : List Term) → Grows types terms → AreSettled r.syntax.now (scope_in r.syntax.now r.rounds.now) terms r.constants.now r.values.now → (bits : List Bool) (heads : Heads) → AreHeadsOf r.syntax.now r.rounds.now r.names.now.declared.items r.values.now bits types terms heads → AreOpersCounted (file_with r (scope_in r.syntax.now r.rounds.now) library refused) (counts_to bits (length bits)) → AreOpersLost (file_with r (scope_in r.syntax.now r.rounds.now) library refused) r.values.now → TellAsked (file_with r (scope_in r.syntax.now r.rounds.now) library refused) (types_of terms) heads.asked }
{}

/// What is lost of the type of an Oper is refused, where types are refused by the definition.
pub fn opers_refused()
    ensures { (f : Checked) → IsFileOfTree f → (types : List Term) (constants : List Const) (values : List Value) → AreSettled f.nodes f.scope types constants values → ((n : ℕ) → n < length f.nodes → value_of values n ≡ value.Lost → IsLost f.nodes (meanings_of f.nodes f.rounds f.scope.declarations) n) → AreOpersLost (with_refused f) values }
{}
