//! That V6 of demands, V18 and V20, which are read of bits for each node, are those of the definitions, where what nodes ask and
//! what is found of types is.

ghost use Rattle.std.specs.Prelude.{◌≡◌, ◌↔◌, ◌<◌, ℕ, Bool, Contains, IfSome, IsTrue, List, Option, Some, false, length, map, replicate};
ghost use Rattle.clu_types.specs.CluType.{CluType};
ghost use Rattle.clu_types.specs.declared.term.Term.{Term};
ghost use Rattle.clu_types.specs.Arena.{IsArena, types_of};
ghost use Rattle.clu_tree.specs.Nodes.{IsTree};
ghost use Rattle.clu_parser.specs.Order.{IsPostOrder};
ghost use Rattle.clu_parser.specs.Shape.{HaveForms};
ghost use Rattle.clu_parser.specs.Trees.{Text};
ghost use Rattle.clu_syntax.specs.Kinds.{kind_at};
ghost use Rattle.clu_meaning.specs.Scoping.{Scope};
ghost use Rattle.clu_syntax.specs.Rounds.{AreRounds};
ghost use Rattle.clu_syntax.specs.Syntax.{Identifier};
ghost use Rattle.clu_checking.specs.Specifications.{Demand, Specification};
ghost use Rattle.clu_checking.specs.ExpressionRules.{v18, v20};
ghost use Rattle.clu_checking.specs.Files.{File};
ghost use Rattle.clu_checking.specs.Headings.{specification};
ghost use Rattle.clu_checking.specs.Invocations.{asks_at};
ghost use Rattle.clu_checking.specs.Operations.{meets, where_at};
ghost use Rattle.clu_checking.specs.NameRules.{disagrees_at};
ghost use Rattle.clu_declares.specs.Declares.{IsParsed};
ghost use Rattle.clu_head.specs.Asked.{demands_at, demands_to, starts_to};
ghost use Rattle.clu_head.specs.Asking.{untyped};
ghost use Rattle.clu_head.specs.declared.asked.Asked.{Asked};
ghost use Rattle.clu_head.specs.declared.head.Demanded.{Demanded};
ghost use Rattle.clu_head.specs.declared.restricted.Restricted.{Restricted};
ghost use Rattle.clu_name_rules.specs.declared.tables.Tables.{Tables};
ghost use Rattle.clu_name_rules.specs.NameRules.{disagrees_by};
ghost use Rattle.clu_bindings.specs.declared.file.Headed.{Headed};
ghost use Rattle.clu_operations.specs.declared.finding.Finding.{Finding};
ghost use Rattle.clu_operations.specs.Told.{Ask, Told};
ghost use Rattle.clu_operations.specs.Wished.{AreHeads, IsFinding};
ghost use Rattle.clu_typing.specs.declared.facts.Invocations.{Invocations};
ghost use Rattle.clu_type_rules.specs.Askers.{AreFoundAt};
ghost use Rattle.clu_type_rules.specs.Disagreeing.{demands_in, with_clauses};
ghost use Rattle.clu_type_rules.specs.Meeting.{Meets, AreUnmet};
ghost use Rattle.clu_type_rules.specs.Needs.{Looks, clauses_at, world};
ghost use Rattle.clu_type_rules.specs.Unmet.{unmet_at};
ghost use Rattle.clu_type_rules.specs.declared.unmet.Unmet.{Unmet};
ghost use Rattle.clu_passes.specs.Ascending.{SpecificationsAscend};
ghost use Rattle.clu_passes.specs.ConstantTables.{file_with, AreTables, AreBad};
ghost use Rattle.clu_passes.specs.Demands.{clause_of, TellAsked, AreOfKinds};
ghost use Rattle.clu_passes.specs.FoundTold.{TellFile};
ghost use Rattle.clu_passes.specs.Met.{asked_told, TellCounted};
ghost use Rattle.clu_passes.specs.Settings.{found_under, setting_of, AreInSets, AreAskedAt};

/// V6 of demands: a demand that a node makes disagrees with one before it just if the bit of the node is set that `disagreeing`
/// of `clu_type_rules` gives, and no set that the node names is bad or circular.
pub fn disagreeing_by_tables()
    ensures { (t : Tables) (scope : Scope) (library : List Specification) (refused : List ℕ) → HaveForms t.file.syntax.now → IsTree t.file.syntax.now → AreTables (file_with t.file scope library refused) t → (bits : List Bool) (bad : ℕ → Bool) → AreBad (file_with t.file scope library refused) bits bad → (terms : List Term) → IsArena terms → (asked : Asked) → TellAsked (file_with t.file scope library refused) (types_of terms) asked → AreOfKinds (file_with t.file scope library refused) → (n : ℕ) → disagrees_at (file_with t.file scope library refused) bad (kind_at t.file.syntax.now n) n ≡ disagrees_by t.file.syntax.now t.file.names.now t.circular.now bits (with_clauses asked (length t.file.syntax.now) (replicate (length t.file.syntax.now) false)) (kind_at t.file.syntax.now n) n }
{}

/// Each demand of a node, but for its type, is made at a node that stands in its clause.
pub fn demands_inside()
    ensures { (t : Text) (f : File) → IsParsed t f.nodes → AreRounds f.nodes f.rounds → (counts : List ℕ) (restricted : List Restricted) (c : ℕ) (d : Demanded) → Contains (demands_at f.nodes f.rounds counts restricted c) d → clause_of f d.node ≡ Some c }
{}

/// Of the table of what nodes ask: types are of the arena of heads, and each demand is made at a node that stands in its clause.
pub fn asked_inside()
    ensures within { (headed : Headed) (types : ℕ) → AreHeads headed types → (c : ℕ) (d : Demanded) → Contains (demands_in headed.heads.now.asked c) d → IfSome d.wanted (λ id. id.0 < types) }
    ensures inside { (t : Text) (f : File) → IsParsed t f.nodes → AreRounds f.nodes f.rounds → (counts : List ℕ) (restricted : List Restricted) (asked : Asked) → asked.starts.items ≡ starts_to (demands_at f.nodes f.rounds counts restricted) (length f.nodes) → map untyped asked.demands.items ≡ demands_to (demands_at f.nodes f.rounds counts restricted) (length f.nodes) → (c : ℕ) (d : Demanded) → Contains (demands_in asked c) d → clause_of f d.node ≡ Some c }
{}

/// What surrounds the nodes of a tree as its routine is a Routine, and as its cluster a Cluster.
pub fn kinds_round()
    ensures { (f : File) → IsTree f.nodes → AreRounds f.nodes f.rounds → AreOfKinds f }
{}

/// What is asked of a type is met just if it is one of some of which each is answered by an operation that asks no others, where
/// what is found of types tells the operations that count.
pub fn met_by_told()
    ensures { (clauses : List (List Demand)) (specified : Identifier → Option Specification) (found : CluType → List ℕ → CluType → Option Told) → TellCounted clauses specified found → (a : Ask) → Meets found a ↔ IsTrue (meets clauses specified a.of a.operation a.wanted) }
{}

/// V18 and V20 by what is known at a node of all that is asked there.
pub fn unmet_by_told()
    ensures v18 { (f : File) (n : ℕ) (found : CluType → List ℕ → CluType → Option Told) → TellCounted (where_at f n) (specification f) found → (asks : List Ask) → map asked_told asks ≡ asks_at f n → (u : Unmet) → AreUnmet found asks u → v18 f n ≡ u.by_has }
    ensures v20 { (f : File) (n : ℕ) (found : CluType → List ℕ → CluType → Option Told) → TellCounted (where_at f n) (specification f) found → (asks : List Ask) → map asked_told asks ≡ asks_at f n → (u : Unmet) → AreUnmet found asks u → v20 f n ≡ u.by_in }
{}

/// Where a node stands in no type set, none gives anything there.
pub fn sets_clauses()
    ensures { (headed : Headed) → HaveForms headed.file.syntax.now → IsPostOrder headed.file.syntax.now → IsTree headed.file.syntax.now → AreRounds headed.file.syntax.now headed.file.rounds.now → AreInSets headed }
{}

/// What is looked for at the nodes of a file, while types are added and more is found, is what is found under their clauses.
pub fn settings_look()
    ensures { (headed : Headed) (terms : List Term) (finding : Finding) → AreInSets headed → IsFinding headed terms finding → Looks headed (setting_of headed terms finding) }
{}

/// What is found so tells the operations that count, where heads tell what the definitions say of modules.
pub fn counted_under_clauses()
    ensures { (headed : Headed) (scope : Scope) (library : List Specification) (refused : List ℕ) (types : List CluType) → AreInSets headed → TellFile headed scope library refused types → (n : ℕ) → TellCounted (where_at (file_with headed.file scope library refused) n) (specification (file_with headed.file scope library refused)) (found_under headed types (clauses_at headed n)) }
{}

/// V18 and V20 are the bits of the table of what is not met, at a node at which nothing is lost.
pub fn unmet_by_tables()
    ensures v18 { (headed : Headed) (scope : Scope) (library : List Specification) (refused : List ℕ) (terms : List Term) (finding : Finding) (invocations : Invocations) (lost : ℕ → Bool) → AreInSets headed → TellFile headed scope library refused (types_of terms) → AreAskedAt (file_with headed.file scope library refused) terms finding invocations lost → SpecificationsAscend library → (made : List Unmet) → AreFoundAt headed (setting_of headed terms finding) (world terms finding) invocations made → (n : ℕ) → lost n ≡ false → n < length made → v18 (file_with headed.file scope library refused) n ≡ (unmet_at made n).by_has }
    ensures v20 { (headed : Headed) (scope : Scope) (library : List Specification) (refused : List ℕ) (terms : List Term) (finding : Finding) (invocations : Invocations) (lost : ℕ → Bool) → AreInSets headed → TellFile headed scope library refused (types_of terms) → AreAskedAt (file_with headed.file scope library refused) terms finding invocations lost → SpecificationsAscend library → (made : List Unmet) → AreFoundAt headed (setting_of headed terms finding) (world terms finding) invocations made → (n : ℕ) → lost n ≡ false → n < length made → v20 (file_with headed.file scope library refused) n ≡ (unmet_at made n).by_in }
{}
