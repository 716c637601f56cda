//! That what a check answers of the tree of a source, under a library of which each specification is whole and ordered, is the first
//! violation in it: of the source nothing else is asked than that it was read.

ghost use Rattle.std.specs.Prelude.{List, Option};
ghost use Rattle.clu_base.specs.declared.rules.Refused.{Refused};
ghost use Rattle.clu_tree.specs.declared.node.Node.{Node};
ghost use Rattle.clu_types.specs.declared.spec.Spec.{Spec};
ghost use Rattle.clu_core.specs.declared.checked.Checked.{Checked};
ghost use Rattle.clu_check_mod.specs.Answered.{AreOwn, IsFirst, IsNoted, IsUnspecified};
ghost use Rattle.clu_check_mod.specs.declared.walk.Extent.{Extent};
ghost use Rattle.clu_checked.specs.Sources.{AreKept, HasSource};
ghost use Rattle.clu_checked.specs.Violations.{HasSpecifications, IsFirstViolation, IsHanded};

/// The first fault of the tree of a source by the tables that a check makes of it is the first violation in it, or in its headings;
/// each of its modules has a specification if there is none, which is that of the definitions; and what it is handed on with then is
/// what they say of it.
pub fn first_of_source()
    ensures violation { (nodes : List Node) (library : List Spec) → HasSource nodes → AreKept library → (asked : Extent) (first : Option Refused) → IsFirst nodes library asked first → IsFirstViolation nodes library asked first }
    ensures specified { (nodes : List Node) (library : List Spec) → HasSource nodes → AreKept library → (asked : Extent) → IsUnspecified nodes library asked → ⊥ }
    ensures own { (nodes : List Node) (library : List Spec) → HasSource nodes → AreKept library → (asked : Extent) (own : List Spec) → AreOwn nodes library asked own → HasSpecifications nodes library own }
    ensures handed { (nodes : List Node) (library : List Spec) → HasSource nodes → AreKept library → (checked : Checked) → IsNoted nodes library checked → IsHanded nodes library checked }
{}
