//! That the specifications with which an accepted file is handed on are what the definitions say of its modules.

ghost use Rattle.std.specs.Prelude.{◌<◌, ◌+◌, ◌-◌, ◌^◌, List, length, map};
ghost use Rattle.clu_tree.specs.declared.node.Node.{Node};
ghost use Rattle.clu_tree.specs.Nodes.{modules};
ghost use Rattle.clu_parser.specs.Trees.{Text};
ghost use Rattle.clu_syntax.specs.declared.round.Round.{Round};
ghost use Rattle.clu_syntax.specs.Rounds.{AreRounds};
ghost use Rattle.clu_types.specs.declared.spec.Spec.{Spec};
ghost use Rattle.clu_checking.specs.Specifications.{specification_told};
ghost use Rattle.clu_checking.specs.Refusals.{checked_file};
ghost use Rattle.clu_declares.specs.Declares.{AreFew, IsParsed};
ghost use Rattle.clu_check_mod.specs.Answered.{AreOwn};
ghost use Rattle.clu_check_mod.specs.declared.walk.Extent.{Extent};
ghost use Rattle.clu_checked.specs.Checked.{IsLibrary, IsOfGrammar};
ghost use Rattle.clu_checked.specs.Specified.{AreSpecifications};

/// The specifications of the modules of a file with which it is handed on, or that are entered by its headings, are those of the
/// definitions.
pub fn specified_on()
    ensures { (t : Text) (nodes : List Node) → IsParsed t nodes → (rounds : List Round) → AreRounds nodes rounds → AreFew nodes rounds → (library : List Spec) → length (modules nodes) + length library < 2 ^ 32 - 1 → IsOfGrammar nodes rounds → IsLibrary library → (asked : Extent) (own : List Spec) → AreOwn nodes library asked own → AreSpecifications (checked_file nodes rounds (map specification_told library)) own }
{}
