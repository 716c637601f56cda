//! That a check refuses the types which the definitions refuse, where nodes and modules are few: in equates, and at nodes that stand
//! in no brackets.

ghost use Rattle.std.specs.Prelude.{◌≡◌, ◌+◌, ◌-◌, ◌^◌, ◌<◌, ℕ, List, Option, false, length, map, slice_get, true};
ghost use Rattle.clu_base.specs.declared.rules.Refused.{Refused};
ghost use Rattle.clu_tree.specs.declared.node.Node.{Node};
ghost use Rattle.clu_tree.specs.declared.node.NodeKind.TheVariants as kind;
ghost use Rattle.clu_tree.specs.Nodes.{modules};
ghost use Rattle.clu_parser.specs.Trees.{Text};
ghost use Rattle.clu_syntax.specs.Items.{Item};
ghost use Rattle.clu_types.specs.declared.spec.Spec.{Spec};
ghost use Rattle.clu_checking.specs.Specifications.{specification_told};
ghost use Rattle.clu_checking.specs.Files.{is_kind, is_refused};
ghost use Rattle.clu_checking.specs.Equates.{is_circular};
ghost use Rattle.clu_checking.specs.Refusals.{is_bad_of, rules_of_types};
ghost use Rattle.clu_declares.specs.Declares.{AreFew, IsParsed};
ghost use Rattle.clu_head.specs.Refused.{grows_in};
ghost use Rattle.clu_name_rules.specs.Constructors.{ValuesAscend};
ghost use Rattle.clu_passes.specs.Clear.{IsOutside};
ghost use Rattle.clu_passes.specs.Turns.{bit};
ghost use Rattle.clu_check_mod.specs.Answered.{IsFirst};
ghost use Rattle.clu_check_mod.specs.declared.walk.Extent.{Extent};
ghost use Rattle.clu_checked.specs.Checked.{bits_of_types, file, known, plain};

/// Equates are bad by the rules by which types are refused just if a check says so; a node is refused, or one below it, just if its
/// counts grow there; and the components of types that are values of nodes ascend.
pub fn types_right()
    ensures bits { (t : Text) (nodes : List Node) → IsParsed t nodes → (library : List Spec) (asked : Extent) (first : Option Refused) (is : IsFirst nodes library asked first) → AreFew nodes is.rounds → length (modules nodes) + length library < 2 ^ 32 - 1 → (items : ℕ → Item) (e : ℕ) → is_kind (plain nodes library asked first is (map specification_told library)) kind.Equate e ≡ true → is_circular (plain nodes library asked first is (map specification_told library)) e ≡ false → bit (bits_of_types nodes library asked first is items) e ≡ is_bad_of (plain nodes library asked first is (map specification_told library)) (rules_of_types (plain nodes library asked first is (map specification_told library))) e }
    ensures refused { (t : Text) (nodes : List Node) → IsParsed t nodes → (library : List Spec) (asked : Extent) (first : Option Refused) (is : IsFirst nodes library asked first) → AreFew nodes is.rounds → length (modules nodes) + length library < 2 ^ 32 - 1 → (items : ℕ → Item) (n : ℕ) → n < length nodes → IsOutside (file nodes library asked first is (map specification_told library)) n → is_refused (file nodes library asked first is (map specification_told library)) n ≡ grows_in (known nodes library asked first is).headed.refused.now (slice_get is.rounds n) n }
    ensures ascend { (t : Text) (nodes : List Node) → IsParsed t nodes → (library : List Spec) (asked : Extent) (first : Option Refused) (is : IsFirst nodes library asked first) → AreFew nodes is.rounds → length (modules nodes) + length library < 2 ^ 32 - 1 → ValuesAscend (known nodes library asked first is).tables }
{}
