//! That the heads of a file's modules tell its specifications, of which nothing is missing where nothing is refused.

ghost use Rattle.std.specs.Prelude.{◌≡◌, ◌<◌, ℕ, List, [], None, length, map};
ghost use Rattle.std.specs.List.{AllByRecursion};
ghost use Rattle.clu_base.specs.declared.constants.Const.{Const};
ghost use Rattle.clu_tree.specs.Nodes.{modules};
ghost use Rattle.clu_parser.specs.Trees.{Text};
ghost use Rattle.clu_types.specs.Arena.{IsArena, types_of};
ghost use Rattle.clu_types.specs.declared.term.Term.{Term};
ghost use Rattle.clu_syntax.specs.Rounds.{AreRounds};
ghost use Rattle.clu_names.specs.Scopes.{declarations};
ghost use Rattle.clu_checking.specs.Specifications.{Specification};
ghost use Rattle.clu_checking.specs.Files.{File, scope_in};
ghost use Rattle.clu_checking.specs.Headings.{own_specifications};
ghost use Rattle.clu_checking.specs.Refusals.{heading_refusal, refused_nodes};
ghost use Rattle.clu_settle.specs.declared.value.Value.TheVariants as value;
ghost use Rattle.clu_settle.specs.Lists.{value_of};
ghost use Rattle.clu_settle.specs.Lost.{IsLost};
ghost use Rattle.clu_settle.specs.Meant.{meanings_of};
ghost use Rattle.clu_settle.specs.Settled.{AreSettled};
ghost use Rattle.clu_settle.specs.Values.{AreWithin};
ghost use Rattle.clu_declares.specs.Declares.{AreFew, IsParsed};
ghost use Rattle.clu_head.specs.declared.asked.Asked.{Asked};
ghost use Rattle.clu_head.specs.declared.head.Head.{Head};
ghost use Rattle.clu_head.specs.declared.known.Known.{Known};
ghost use Rattle.clu_head.specs.Modules.{AreOfModules};
ghost use Rattle.clu_passes.specs.CountsRefused.{RefusesAgain};
ghost use Rattle.clu_passes.specs.Heads.{AreCounted, file_known};
ghost use Rattle.clu_passes.specs.HeadsKnown.{AreHeadsKnown};
ghost use Rattle.clu_passes.specs.Told.{head_told};
ghost use Rattle.clu_passes.specs.WholeTold.{IsWholeTold};

/// The heads of a file's modules tell its specifications, where refused nodes are counted, what is lost is so however many steps are
/// taken, the types of parameters are known, and what is asked is told.
pub fn heads_told()
    ensures { (t : Text) (k : Known) (library : List Specification) (refused : List ℕ) → IsParsed t k.syntax.now → AreRounds k.syntax.now k.rounds.now → AreFew k.syntax.now k.rounds.now → AreCounted k (file_known k (scope_in k.syntax.now k.rounds.now) library refused) → refused ≡ refused_nodes (file_known k (scope_in k.syntax.now k.rounds.now) library []) → (asked : Asked) (old new : List Term) → IsArena new → (constants : List Const) → AreWithin (length old) (length constants) k.values.now → AreSettled k.syntax.now (scope_in k.syntax.now k.rounds.now) new constants k.values.now → ((n : ℕ) → n < length k.syntax.now → value_of k.values.now n ≡ value.Lost → IsLost k.syntax.now (meanings_of k.syntax.now k.rounds.now (declarations k.syntax.now k.rounds.now)) n) → AreHeadsKnown k (file_known k (scope_in k.syntax.now k.rounds.now) library refused) asked new → (hs : List Head) → AreOfModules k asked old new (modules k.syntax.now) hs → map (head_told (types_of new)) hs ≡ own_specifications (file_known k (scope_in k.syntax.now k.rounds.now) library refused) }
{}

/// Where no fault is found on the walk over the headings, nothing of the specifications of a file's modules is missing: each parameter is
/// of a kind, each heading has a type, and each demand one that is wanted.
pub fn specifications_whole()
    ensures { (t : Text) (f : File) → IsParsed t f.nodes → AreRounds f.nodes f.rounds → RefusesAgain f → heading_refusal f ≡ None → AllByRecursion IsWholeTold (own_specifications f) }
{}
