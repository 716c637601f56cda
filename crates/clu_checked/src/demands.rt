//! That what the nodes of a file ask is right in the tables of which a check answers.

ghost use Rattle.std.specs.Prelude.{◌≡◌, ◌<◌, ◌+◌, ◌-◌, ◌^◌, ℕ, Bool, List, Option, length, map};
ghost use Rattle.clu_base.specs.declared.rules.Refused.{Refused};
ghost use Rattle.clu_tree.specs.declared.node.Node.{Node};
ghost use Rattle.clu_tree.specs.Nodes.{modules};
ghost use Rattle.clu_parser.specs.Trees.{Text};
ghost use Rattle.clu_types.specs.Arena.{types_of};
ghost use Rattle.clu_types.specs.declared.spec.Spec.{Spec};
ghost use Rattle.clu_syntax.specs.Kinds.{kind_at};
ghost use Rattle.clu_checking.specs.Specifications.{specification_told};
ghost use Rattle.clu_checking.specs.NameRules.{disagrees_at};
ghost use Rattle.clu_checking.specs.Refusals.{checked_file};
ghost use Rattle.clu_declares.specs.Declares.{AreFew, IsParsed};
ghost use Rattle.clu_name_rules.specs.NameRules.{disagrees_by};
ghost use Rattle.clu_passes.specs.Bound.{AreOfModules};
ghost use Rattle.clu_passes.specs.ConstantTables.{AreBad};
ghost use Rattle.clu_passes.specs.Demands.{TellAsked};
ghost use Rattle.clu_check_mod.specs.Answered.{IsFirst};
ghost use Rattle.clu_check_mod.specs.declared.walk.Extent.{Extent};
ghost use Rattle.clu_checked.specs.Checked.{file, known};

/// The table of what nodes ask tells what the definition asks; and the bits of demands that disagree are V6 of demands, where bad
/// equates are marked.
pub fn demands_answered()
    ensures told { (t : Text) (nodes : List Node) → IsParsed t nodes → (library : List Spec) (asked : Extent) (first : Option Refused) (is : IsFirst nodes library asked first) → AreFew nodes is.rounds → length (modules nodes) + length library < 2 ^ 32 - 1 → AreOfModules nodes is.rounds → TellAsked (file nodes library asked first is (map specification_told library)) (types_of is.is.is.terms) (known nodes library asked first is).headed.heads.now.asked }
    ensures disagrees { (t : Text) (nodes : List Node) → IsParsed t nodes → (library : List Spec) (asked : Extent) (first : Option Refused) (is : IsFirst nodes library asked first) → AreFew nodes is.rounds → length (modules nodes) + length library < 2 ^ 32 - 1 → AreOfModules nodes is.rounds → (marks : List Bool) (bad : ℕ → Bool) → AreBad (checked_file (known nodes library asked first is).tables.file.syntax.now (known nodes library asked first is).tables.file.rounds.now (map specification_told library)) marks bad → (n : ℕ) → disagrees_at (checked_file (known nodes library asked first is).tables.file.syntax.now (known nodes library asked first is).tables.file.rounds.now (map specification_told library)) bad (kind_at (known nodes library asked first is).tables.file.syntax.now n) n ≡ disagrees_by (known nodes library asked first is).tables.file.syntax.now (known nodes library asked first is).tables.file.names.now (known nodes library asked first is).tables.circular.now marks (known nodes library asked first is).disagrees.now (kind_at (known nodes library asked first is).tables.file.syntax.now n) n }
{}
