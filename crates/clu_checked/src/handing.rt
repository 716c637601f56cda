//! That what an accepted file is handed on with is what the definitions say of it.

ghost use Rattle.std.specs.Prelude.{◌<◌, ◌+◌, ◌-◌, ◌^◌, List, length, map};
ghost use Rattle.clu_tree.specs.declared.node.Node.{Node};
ghost use Rattle.clu_tree.specs.Nodes.{modules};
ghost use Rattle.clu_parser.specs.Trees.{Text};
ghost use Rattle.clu_syntax.specs.declared.round.Round.{Round};
ghost use Rattle.clu_syntax.specs.Rounds.{AreRounds};
ghost use Rattle.clu_types.specs.declared.spec.Spec.{Spec};
ghost use Rattle.clu_checking.specs.Specifications.{specification_told};
ghost use Rattle.clu_checking.specs.Refusals.{checked_file};
ghost use Rattle.clu_declares.specs.Declares.{AreFew, IsParsed};
ghost use Rattle.clu_core.specs.declared.checked.Checked.{Checked};
ghost use Rattle.clu_check_mod.specs.Answered.{IsNoted};
ghost use Rattle.clu_checked.specs.Checked.{IsLibrary, IsOfGrammar};
ghost use Rattle.clu_checked.specs.Noted.{IsHandedOn};

/// The types of expressions, the operations that nodes name or invoke, the types that nodes denote and the constants of names
/// with which an accepted file is handed on are those of the definitions.
pub fn handed_on()
    ensures { (t : Text) (nodes : List Node) → IsParsed t nodes → (rounds : List Round) → AreRounds nodes rounds → AreFew nodes rounds → (library : List Spec) → length (modules nodes) + length library < 2 ^ 32 - 1 → IsOfGrammar nodes rounds → IsLibrary library → (checked : Checked) → IsNoted nodes library checked → IsHandedOn (checked_file nodes rounds (map specification_told library)) checked }
{}
