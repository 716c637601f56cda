//! Which children each node has: that they stand in the slots of its form, in the order of the text. The functions do nothing:
//! their contracts are the laws.
#![tactic(auto)]

ghost use Rattle.std.specs.Prelude.{◌≡◌, ℕ, List, Some, slice_get};
ghost use Rattle.clu_tree.specs.declared.node.Node.{Node};
ghost use Rattle.clu_tree.specs.declared.node.NodeKind.{NodeKind};
ghost use Rattle.clu_tree.specs.Nodes.{IsTree};
ghost use Rattle.clu_parser.specs.Trees.{Text};
ghost use Rattle.clu_parser.specs.Shape.{IsShaped, HaveForms};
ghost use Rattle.clu_parts.specs.Slots.{HasSlots, IfParts};
ghost use Rattle.clu_parts.specs.Parts.{parts_of};

/// The children of each node stand in the slots of one of the forms of its kind.
pub fn children_stand()
    ensures { (nodes : List Node) → IsTree nodes → HaveForms nodes → (i : ℕ) (n : Node) → slice_get nodes i ≡ Some n → HasSlots nodes i n }
{}

/// The children of an If are its clauses, each a condition and a body, and the body behind `else`, if it is there.
pub fn ifs_stand()
    ensures { (t : Text) (nodes : List Node) → IsTree nodes → IsShaped t nodes → (i : ℕ) (n : Node) → slice_get nodes i ≡ Some n → n.kind ≡ NodeKind.If → IfParts nodes i n }
{}

/// The parts of each node are its children, in the order of the text: none is left out.
pub fn parts_gathered()
    ensures { (t : Text) (nodes : List Node) → IsTree nodes → IsShaped t nodes → HaveForms nodes → (i : ℕ) (n : Node) → slice_get nodes i ≡ Some n → parts_of nodes n n.kind ≡ n.children }
{}
