//! That what `check` of `clu_check_mod` answers is the refusal of the file, as `clu_checking` defines it: what `check` says of its
//! answer over its own tables, put together with the laws of `clu_passes`. The functions do nothing: their contracts are the laws.
#![tactic(auto)]

ghost use Rattle.std.specs.Prelude.{◌≡◌, ◌+◌, ◌-◌, ◌^◌, ◌<◌, ◌≤◌, ℕ, Bool, List, Option, Result, Some, false, length, map, slice_get, true};

mod demands;

ghost use Rattle.std.specs.Prelude.{◌≡◌, ◌<◌, ◌≤◌, ℕ, Bool, List, Option, Some, false, length, slice_get, true};
ghost use Rattle.clu_base.specs.declared.rules.Refused.{Refused};
ghost use Rattle.clu_tree.specs.declared.node.Node.{Node};
ghost use Rattle.clu_tree.specs.declared.node.NodeKind.TheVariants as kind;
ghost use Rattle.clu_tree.specs.Nodes.{modules};
ghost use Rattle.clu_parser.specs.Trees.{Text};
ghost use Rattle.clu_syntax.specs.declared.round.Round.{Round};
ghost use Rattle.clu_syntax.specs.Items.{Item};
ghost use Rattle.clu_syntax.specs.Rounds.{AreRounds};
ghost use Rattle.clu_types.specs.declared.spec.Spec.{Spec};
ghost use Rattle.clu_checking.specs.Specifications.{Specification, specification_told};
ghost use Rattle.clu_checking.specs.Files.{is_kind, is_refused};
ghost use Rattle.clu_checking.specs.Equates.{is_circular};
ghost use Rattle.clu_checking.specs.Rules as definition;
ghost use Rattle.clu_checking.specs.Refusals.{checked_file, heading_refusal, is_bad, is_bad_of, refusal, rules_of_types};
ghost use Rattle.clu_declares.specs.Declares.{AreFew, IsParsed};
ghost use Rattle.clu_head.specs.Refused.{grows_in};
ghost use Rattle.clu_name_rules.specs.Constructors.{ValuesAscend};
ghost use Rattle.clu_type_rules.specs.declared.known.Known.{Known};
ghost use Rattle.clu_type_rules.specs.Rules.{violates, violates_of_types};
ghost use Rattle.clu_type_rules.specs.Walking.{first_fault, first_of};
ghost use Rattle.clu_passes.specs.Refusing.{AgreeBelow, AgreeInEquates, AgreeWithin, IsOrder, heading_fault, of_types, rest_fault};
ghost use Rattle.clu_passes.specs.Turns.{arm_declared, bit};
ghost use Rattle.clu_check_mod.specs.Answered.{IsAnswer, IsFirst, IsUnspecified};
ghost use Rattle.clu_check_mod.specs.Bad.{EquatesAscend};
ghost use Rattle.clu_check_mod.specs.Refusals.{IsTold};
ghost use Rattle.clu_check_mod.specs.Walks.{WalksAscend, first_in};
ghost use Rattle.clu_check_mod.specs.declared.errors.CheckError.{CheckError};
ghost use Rattle.clu_check_mod.specs.declared.walk.Extent.{Extent};
ghost use Rattle.clu_check_mod.specs.declared.walk.Extent.TheVariants as extent;
ghost use Rattle.clu_checked.specs.Checked.{IsLibrary, IsOfGrammar, TagsKnown, bits, bits_of_types, circular, file, known, order, plain, tables};

pub use demands::demands_answered;
pub use handing::handed_on;
pub use naming::named_of_source;
pub use of_source::first_of_source;
pub use specifying::specified_on;

/// The first fault that a check answers is what the walks find by the rules over its tables.
pub fn walks_found()
    ensures headings { (k : Known) (items : ℕ → Item) (bad : List Bool) → first_in k bad items extent.Headings ≡ first_fault (heading_fault k items bad) 0 k.tables.file.syntax.now }
    ensures whole { (k : Known) (items : ℕ → Item) (bad : List Bool) → first_in k bad items extent.Whole ≡ first_of (first_fault (heading_fault k items bad) 0 k.tables.file.syntax.now) (first_fault (rest_fault k items bad) 0 k.tables.file.syntax.now) }
{}

/// The order in which a check of a tree asks equates is one in which each comes after those that it names.
pub fn order_answered()
    ensures { (t : Text) (nodes : List Node) → IsParsed t nodes → (library : List Spec) (asked : Extent) (first : Option Refused) (is : IsFirst nodes library asked first) (specs : List Specification) → IsOrder (file nodes library asked first is specs) is.names (order nodes library asked first is) (circular nodes library asked first is) }
{}

/// What a check finds of equates and of Decls of arms is which of them are bad, if the rules over its tables say what the
/// definitions say at each node of an equate, and of the Decl, up to the first fault in it.
pub fn bad_answered()
    ensures equates { (t : Text) (nodes : List Node) → IsParsed t nodes → (library : List Spec) (asked : Extent) (first : Option Refused) (is : IsFirst nodes library asked first) (specs : List Specification) (items : ℕ → Item) → AgreeInEquates (file nodes library asked first is specs) (violates (known nodes library asked first is) (bits nodes library asked first is items) items) (definition.violates (file nodes library asked first is specs) (bit (bits nodes library asked first is items))) → (e : ℕ) → is_kind (file nodes library asked first is specs) kind.Equate e ≡ true → is_circular (file nodes library asked first is specs) e ≡ false → bit (bits nodes library asked first is items) e ≡ is_bad (file nodes library asked first is specs) e }
    ensures arms { (t : Text) (nodes : List Node) → IsParsed t nodes → (library : List Spec) (asked : Extent) (first : Option Refused) (is : IsFirst nodes library asked first) (specs : List Specification) (items : ℕ → Item) → AgreeInEquates (file nodes library asked first is specs) (violates (known nodes library asked first is) (bits nodes library asked first is items) items) (definition.violates (file nodes library asked first is specs) (bit (bits nodes library asked first is items))) → (e : ℕ) → arm_declared nodes is.rounds e ≡ Some e → AgreeBelow (file nodes library asked first is specs) (violates (known nodes library asked first is) (bits nodes library asked first is items) items) (definition.violates (file nodes library asked first is specs) (bit (bits nodes library asked first is items))) e → bit (bits nodes library asked first is items) e ≡ is_bad (file nodes library asked first is specs) e }
{}

/// The same of the rules by which types are refused. So a node is refused below another one, or is this one, just if the counts that
/// a check has of refused nodes differ, if at each node there these rules over its tables say what the definitions say, up to the
/// first that is refused.
pub fn types_answered()
    ensures equates { (t : Text) (nodes : List Node) → IsParsed t nodes → (library : List Spec) (asked : Extent) (first : Option Refused) (is : IsFirst nodes library asked first) (specs : List Specification) (items : ℕ → Item) → AgreeInEquates (plain nodes library asked first is specs) (violates_of_types (tables nodes library asked first is) (bits_of_types nodes library asked first is items) items) (λ n. of_types (definition.violates (plain nodes library asked first is specs) (bit (bits_of_types nodes library asked first is items)) n)) → (e : ℕ) → is_kind (plain nodes library asked first is specs) kind.Equate e ≡ true → is_circular (plain nodes library asked first is specs) e ≡ false → bit (bits_of_types nodes library asked first is items) e ≡ is_bad_of (plain nodes library asked first is specs) (rules_of_types (plain nodes library asked first is specs)) e }
    ensures refused { (t : Text) (nodes : List Node) → IsParsed t nodes → (library : List Spec) (asked : Extent) (first : Option Refused) (is : IsFirst nodes library asked first) (specs : List Specification) (items : ℕ → Item) → ValuesAscend (tables nodes library asked first is) → (n : ℕ) (round : Round) → n < length nodes → slice_get is.rounds n ≡ Some round → round.first ≤ n → AgreeWithin (plain nodes library asked first is specs) (violates_of_types (tables nodes library asked first is) (bits_of_types nodes library asked first is items) items) (λ m. of_types (definition.violates (plain nodes library asked first is specs) (is_bad_of (plain nodes library asked first is specs) (rules_of_types (plain nodes library asked first is specs))) m)) n → is_refused (file nodes library asked first is specs) n ≡ grows_in (known nodes library asked first is).headed.refused.now (slice_get is.rounds n) n }
{}

/// What rules look for by its name ascends in equates, and at each node before which the walks find nothing, if the components of
/// the types that are values of nodes do, and tags where a rule looks for them.
pub fn types_ascend()
    ensures equates { (t : Text) (k : Known) → IsParsed t k.tables.file.syntax.now → AreRounds k.tables.file.syntax.now k.tables.file.rounds.now → ValuesAscend k.tables → EquatesAscend k }
    ensures walks { (t : Text) (k : Known) → IsParsed t k.tables.file.syntax.now → AreRounds k.tables.file.syntax.now k.tables.file.rounds.now → (bad : List Bool) (items : ℕ → Item) (asked : Extent) → TagsKnown k bad items asked → WalksAscend k bad items asked }
{}

/// The first fault of the tree of a text by the tables that a check makes of it is the refusal of the file, and that of its headings
/// the one of these. Where there is none each module has a specification.
pub fn first_checked()
    ensures whole { (t : Text) (nodes : List Node) → IsParsed t nodes → (rounds : List Round) → AreRounds nodes rounds → AreFew nodes rounds → (library : List Spec) → length (modules nodes) + length library < 2 ^ 32 - 1 → IsOfGrammar nodes rounds → IsLibrary library → (first : Option Refused) → IsFirst nodes library extent.Whole first → first ≡ refusal (checked_file nodes rounds (map specification_told library)) }
    ensures headings { (t : Text) (nodes : List Node) → IsParsed t nodes → (rounds : List Round) → AreRounds nodes rounds → AreFew nodes rounds → (library : List Spec) → length (modules nodes) + length library < 2 ^ 32 - 1 → IsOfGrammar nodes rounds → IsLibrary library → (first : Option Refused) → IsFirst nodes library extent.Headings first → first ≡ heading_refusal (checked_file nodes rounds (map specification_told library)) }
    ensures lost { (t : Text) (nodes : List Node) → IsParsed t nodes → (rounds : List Round) → AreRounds nodes rounds → AreFew nodes rounds → (library : List Spec) → length (modules nodes) + length library < 2 ^ 32 - 1 → IsOfGrammar nodes rounds → IsLibrary library → (asked : Extent) → IsUnspecified nodes library asked → ⊥ }
{}

mod handing;
mod naming;
mod of_source;
mod specifying;
mod types;
