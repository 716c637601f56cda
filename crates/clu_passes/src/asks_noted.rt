//! That what nodes ask of types, as it was noted, is what the definitions say, so that V18 and V20 are the bits of what is not met.

ghost use Rattle.std.specs.Prelude.{◌≡◌, ◌<◌, ℕ, Bool, false, List, length};
ghost use Rattle.clu_parser.specs.Trees.{Text};
ghost use Rattle.clu_types.specs.Arena.{Grows, IsArena};
ghost use Rattle.clu_types.specs.declared.term.Term.{Term};
ghost use Rattle.clu_syntax.specs.Items.{Item};
ghost use Rattle.clu_syntax.specs.Rounds.{AreRounds};
ghost use Rattle.clu_meaning.specs.Scoping.{Scope};
ghost use Rattle.clu_checking.specs.ExpressionRules.{v18, v20};
ghost use Rattle.clu_checking.specs.Files.{scope_in};
ghost use Rattle.clu_checking.specs.Specifications.{Specification};
ghost use Rattle.clu_bindings.specs.declared.file.Headed.{Headed};
ghost use Rattle.clu_name_rules.specs.declared.tables.Tables.{Tables};
ghost use Rattle.clu_typing.specs.declared.facts.Facts.{Facts};
ghost use Rattle.clu_typing.specs.Facts.{askers_at};
ghost use Rattle.clu_typing.specs.Pass.{AreKnown};
ghost use Rattle.clu_type_rules.specs.Askers.{AreAskers, AreFoundAt};
ghost use Rattle.clu_type_rules.specs.Needs.{world};
ghost use Rattle.clu_type_rules.specs.Unmet.{unmet_at};
ghost use Rattle.clu_type_rules.specs.declared.unmet.Unmet.{Unmet};
ghost use Rattle.clu_passes.specs.Bound.{TellModules, TellTypeModules};
ghost use Rattle.clu_passes.specs.ConstantTables.{AreTables, file_with};
ghost use Rattle.clu_passes.specs.Lost.{lost};
ghost use Rattle.clu_passes.specs.Made.{IsWhole};
ghost use Rattle.clu_passes.specs.NamesKnown.{AreActualsKnown};
ghost use Rattle.clu_passes.specs.PassNoted.{IsKnownFile};
ghost use Rattle.clu_passes.specs.Settings.{AreAskedAt, setting_of};

/// What asks something at a node was found.
pub fn askers_there()
    ensures { (t : Text) (h : Headed) (scope : Scope) (library : List Specification) (refused : List ℕ) (items : ℕ → Item) (first : List Term) (lost : ℕ → Bool) → IsKnownFile t h (file_with h.file scope library refused) items first lost → (terms : List Term) (facts : Facts) → IsArena terms → AreKnown h items first (length h.file.syntax.now) terms facts → (n : ℕ) → AreAskers (world terms facts.finding) (askers_at facts.invocations n) }
{}

/// What is asked at nodes at which nothing is lost: by the operations that are invoked or named, and by modules of the actual
/// parameters with which they are named.
pub fn asked_noted()
    ensures { (t : Text) (h : Headed) (scope : Scope) (library : List Specification) (refused : List ℕ) (items : ℕ → Item) (first : List Term) (lost : ℕ → Bool) → IsKnownFile t h (file_with h.file scope library refused) items first lost → (terms : List Term) (facts : Facts) → IsArena terms → AreKnown h items first (length h.file.syntax.now) terms facts → (its : Tables) → AreTables (file_with h.file scope library refused) (record its { file = h.file }) → Grows first its.types.now → TellModules (file_with h.file scope library refused) h.file → TellTypeModules (file_with h.file scope library refused) h.file → AreActualsKnown h.file lost → AreAskedAt (file_with h.file scope library refused) terms facts.finding facts.invocations lost }
{}

/// V18 and V20 are the bits of what is not met, where those are found by what was noted of nodes.
pub fn unmet_noted()
    ensures v18 { (t : Text) (h : Headed) (scope : Scope) (library : List Specification) (refused : List ℕ) (items : ℕ → Item) (first : List Term) (lost : ℕ → Bool) → IsKnownFile t h (file_with h.file scope library refused) items first lost → (terms : List Term) (facts : Facts) → IsArena terms → AreKnown h items first (length h.file.syntax.now) terms facts → (its : Tables) → AreTables (file_with h.file scope library refused) (record its { file = h.file }) → Grows first its.types.now → TellModules (file_with h.file scope library refused) h.file → TellTypeModules (file_with h.file scope library refused) h.file → AreActualsKnown h.file lost → AreRounds h.file.syntax.now h.file.rounds.now → (made : List Unmet) → AreFoundAt h (setting_of h terms facts.finding) (world terms facts.finding) facts.invocations made → (n : ℕ) → lost n ≡ false → n < length made → v18 (file_with h.file scope library refused) n ≡ (unmet_at made n).by_has }
    ensures v20 { (t : Text) (h : Headed) (scope : Scope) (library : List Specification) (refused : List ℕ) (items : ℕ → Item) (first : List Term) (lost : ℕ → Bool) → IsKnownFile t h (file_with h.file scope library refused) items first lost → (terms : List Term) (facts : Facts) → IsArena terms → AreKnown h items first (length h.file.syntax.now) terms facts → (its : Tables) → AreTables (file_with h.file scope library refused) (record its { file = h.file }) → Grows first its.types.now → TellModules (file_with h.file scope library refused) h.file → TellTypeModules (file_with h.file scope library refused) h.file → AreActualsKnown h.file lost → AreRounds h.file.syntax.now h.file.rounds.now → (made : List Unmet) → AreFoundAt h (setting_of h terms facts.finding) (world terms facts.finding) facts.invocations made → (n : ℕ) → lost n ≡ false → n < length made → v20 (file_with h.file scope library refused) n ≡ (unmet_at made n).by_in }
{}

/// What stands in the brackets of names is known where nothing is lost, and so is a type by its name.
pub fn actuals_known()
    ensures { (t : Text) (its : Tables) (library : List Specification) (refused : List ℕ) → IsWhole t its library refused → AreActualsKnown its.file (lost (file_with its.file (scope_in its.file.syntax.now its.file.rounds.now) library refused)) }
{}
