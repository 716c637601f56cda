//! That the heads of the file of a text tell its specifications, and are whole where its headings have no fault.

ghost use Rattle.std.specs.Prelude.{◌≡◌, ◌<◌, ◌^◌, ℕ, Bool, List, [], None, Some, length, map, slice_get};
ghost use Rattle.clu_tree.specs.declared.node.Node.{Node};
ghost use Rattle.clu_tree.specs.Nodes.{modules};
ghost use Rattle.clu_parser.specs.Trees.{Text};
ghost use Rattle.clu_types.specs.Arena.{Grows, IsArena, types_of};
ghost use Rattle.clu_types.specs.declared.term.Term.{Term};
ghost use Rattle.clu_checking.specs.Specifications.{Specification};
ghost use Rattle.clu_checking.specs.Files.{scope_in};
ghost use Rattle.clu_checking.specs.Headings.{own_specifications};
ghost use Rattle.clu_checking.specs.Refusals.{heading_refusal, refused_nodes};
ghost use Rattle.clu_head.specs.declared.head.Head.{Head};
ghost use Rattle.clu_head.specs.declared.heads.Heads.{Heads};
ghost use Rattle.clu_head.specs.Modules.{AreHeadsOf};
ghost use Rattle.clu_head.specs.Whole.{IsWhole};
ghost use Rattle.clu_bindings.specs.declared.bindings.Modules.{Modules};
ghost use Rattle.clu_bindings.specs.declared.file.File.{File};
ghost use Rattle.clu_bindings.specs.declared.file.Headed.{Headed};
ghost use Rattle.clu_bindings.specs.Numbered.{AreNumbered};
ghost use Rattle.clu_passes.specs.ConstantTables.{file_with};
ghost use Rattle.clu_passes.specs.CountsRefused.{AreGone, CountRefused, RefusesAgain};
ghost use Rattle.clu_passes.specs.DemandsTold.{TellDemands};
ghost use Rattle.clu_passes.specs.FoundTold.{TellHeads};
ghost use Rattle.clu_passes.specs.Made.{IsMade};
ghost use Rattle.clu_passes.specs.OwnModules.{AreOwnModules};
ghost use Rattle.clu_passes.specs.Told.{head_told};

/// Heads tell the specifications of the file, where refused nodes are counted, and what is asked is told.
pub fn heads_specified()
    ensures told { (t : Text) (r : File) (library : List Specification) (refused : List ℕ) (types : List Term) → IsMade t r library refused types → AreGone r.syntax.now r.rounds.now r.values.now → refused ≡ refused_nodes (file_with r (scope_in r.syntax.now r.rounds.now) library []) → (bits : List Bool) → CountRefused (file_with r (scope_in r.syntax.now r.rounds.now) library refused) bits → (terms : List Term) → Grows types terms → IsArena terms → (heads : Heads) → TellDemands (file_with r (scope_in r.syntax.now r.rounds.now) library refused) (types_of terms) heads.asked → AreHeadsOf r.syntax.now r.rounds.now r.names.now.declared.items r.values.now bits types terms heads → map (head_told (types_of terms)) heads.modules.items ≡ own_specifications (file_with r (scope_in r.syntax.now r.rounds.now) library refused) }
    ensures whole { (t : Text) (r : File) (library : List Specification) (refused : List ℕ) (types : List Term) → IsMade t r library refused types → AreGone r.syntax.now r.rounds.now r.values.now → refused ≡ refused_nodes (file_with r (scope_in r.syntax.now r.rounds.now) library []) → (bits : List Bool) → CountRefused (file_with r (scope_in r.syntax.now r.rounds.now) library refused) bits → (terms : List Term) → Grows types terms → IsArena terms → (heads : Heads) → TellDemands (file_with r (scope_in r.syntax.now r.rounds.now) library refused) (types_of terms) heads.asked → AreHeadsOf r.syntax.now r.rounds.now r.names.now.declared.items r.values.now bits types terms heads → RefusesAgain (file_with r (scope_in r.syntax.now r.rounds.now) library refused) → heading_refusal (file_with r (scope_in r.syntax.now r.rounds.now) library refused) ≡ None → (i : ℕ) (h : Head) → slice_get heads.modules.items i ≡ Some h → IsWhole terms h }
{}

/// So what is known of modules by the heads is what the definitions say of them, for whatever types come later, where it is known which
/// modules are those of the file.
pub fn heads_found()
    ensures { (t : Text) (h : Headed) (library : List Specification) (refused : List ℕ) (types : List Term) → IsMade t h.file library refused types → AreGone h.file.syntax.now h.file.rounds.now h.file.values.now → refused ≡ refused_nodes (file_with h.file (scope_in h.file.syntax.now h.file.rounds.now) library []) → (bits : List Bool) → CountRefused (file_with h.file (scope_in h.file.syntax.now h.file.rounds.now) library refused) bits → (terms : List Term) → Grows types terms → IsArena terms → TellDemands (file_with h.file (scope_in h.file.syntax.now h.file.rounds.now) library refused) (types_of terms) h.heads.now.asked → AreHeadsOf h.file.syntax.now h.file.rounds.now h.file.names.now.declared.items h.file.values.now bits types terms h.heads.now → AreOwnModules h.file.bindings.now.modules (modules h.file.syntax.now) → (later : List Term) → Grows terms later → TellHeads h (file_with h.file (scope_in h.file.syntax.now h.file.rounds.now) library refused) (types_of later) }
{}

/// Where the Modules of a tree are numbered in the order of the text, it is known which modules are those of the file.
pub fn own_numbered()
    ensures { (nodes : List Node) (its : Modules) → length nodes < 2 ^ 32 → AreNumbered nodes its → AreOwnModules its (modules nodes) }
{}
