//! That a file which is read as the calls before its headings make it is known, as the pass over its nodes asks; and what is known then of
//! types as bodies see them, of own types and of raises, with whatever types come later.

ghost use Rattle.std.specs.Prelude.{◌≡◌, ◌<◌, ℕ, List, Some, false, length, true};
ghost use Rattle.clu_parser.specs.Trees.{Text};
ghost use Rattle.clu_types.specs.Arena.{Grows, IsArena, types_of};
ghost use Rattle.clu_types.specs.declared.term.Term.{Term};
ghost use Rattle.clu_syntax.specs.Items.{Item};
ghost use Rattle.clu_syntax.specs.Kinds.{is_type};
ghost use Rattle.clu_checking.specs.Specifications.{Specification};
ghost use Rattle.clu_names.specs.Scopes.{declarations};
ghost use Rattle.clu_checking.specs.Files.{File, item, kind_in, round, scope_in};
ghost use Rattle.clu_checking.specs.Headings as headings;
ghost use Rattle.clu_checking.specs.Typing as typing;
ghost use Rattle.clu_bindings.specs.declared.file.Headed.{Headed};
ghost use Rattle.clu_bindings.specs.Inside.{own_type, representation, type_inside};
ghost use Rattle.clu_bindings.specs.Owned.{AreOwned};
ghost use Rattle.clu_name_rules.specs.declared.tables.Tables.{Tables};
ghost use Rattle.clu_operations.specs.Wished.{AreHeads};
ghost use Rattle.clu_typing.specs.declared.facts.Facts.{Facts};
ghost use Rattle.clu_typing.specs.Pass.{AreKnown, IsSound};
ghost use Rattle.clu_typing.specs.Raises.{raised_told};
ghost use Rattle.clu_typing.specs.Sets.{HaveSame};
ghost use Rattle.clu_type_rules.specs.declared.known.Known.{Known};
ghost use Rattle.clu_passes.specs.Ascending.{SpecificationsAscend};
ghost use Rattle.clu_passes.specs.ConstantTables.{AreWantedKnown, file_with};
ghost use Rattle.clu_passes.specs.FactTables.{AreFacts, IsType};
ghost use Rattle.clu_passes.specs.FoundTold.{TellHeads};
ghost use Rattle.clu_passes.specs.KnownFiles.{AreCvtsKnown, AreRoutinesAtHome, IsFileRead};
ghost use Rattle.clu_passes.specs.Lost.{lost};
ghost use Rattle.clu_passes.specs.Made.{IsWhole};
ghost use Rattle.clu_passes.specs.Notes.{HaveParents};
ghost use Rattle.clu_passes.specs.OthersKnown.{AreRepsThere, IsFine, IsTypeFine};
ghost use Rattle.clu_passes.specs.PassNoted.{IsKnownFile};
ghost use Rattle.clu_passes.specs.Raised.{raises_of};
ghost use Rattle.clu_passes.specs.Reps.{AreReps, AreVariableTypes};
ghost use Rattle.clu_passes.specs.Trees.{IsFileOfTree};

/// The pass knows what it asks of the file, where heads tell what the definitions say.
pub fn file_known()
    ensures { (t : Text) (h : Headed) (its : Tables) (library : List Specification) (refused : List ℕ) → IsFileRead t h its library refused → (first : List Term) → Grows its.types.now first → AreHeads h (length first) → ((terms : List Term) → Grows first terms → TellHeads h (file_with h.file (scope_in h.file.syntax.now h.file.rounds.now) library refused) (types_of terms)) → SpecificationsAscend library → (items : ℕ → Item) → IsKnownFile t h (file_with h.file (scope_in h.file.syntax.now h.file.rounds.now) library refused) items first (lost (file_with h.file (scope_in h.file.syntax.now h.file.rounds.now) library refused)) }
{}

/// Types that stand at nodes, those of variables and those in the heading round a node.
pub fn inside_known()
    ensures types { (t : Text) (h : Headed) (its : Tables) (library : List Specification) (refused : List ℕ) → IsFileRead t h its library refused → (terms : List Term) → Grows its.types.now terms → (items : ℕ → Item) (n c : ℕ) → is_type (kind_in (file_with h.file (scope_in h.file.syntax.now h.file.rounds.now) library refused) c) ≡ true → lost (file_with h.file (scope_in h.file.syntax.now h.file.rounds.now) library refused) c ≡ false → IsType terms (type_inside h.file items n c) (Some (headings.type_inside (file_with h.file (scope_in h.file.syntax.now h.file.rounds.now) library refused) n (item (file_with h.file (scope_in h.file.syntax.now h.file.rounds.now) library refused) c).type)) }
    ensures variables { (t : Text) (h : Headed) (its : Tables) (library : List Specification) (refused : List ℕ) → IsFileRead t h its library refused → (terms : List Term) → Grows its.types.now terms → (n c : ℕ) → n < length h.file.syntax.now → IsTypeFine (file_with h.file (scope_in h.file.syntax.now h.file.rounds.now) library refused) n c → (items : ℕ → Item) → IsType terms (type_inside h.file items n c) (Some (headings.type_inside (file_with h.file (scope_in h.file.syntax.now h.file.rounds.now) library refused) n (item (file_with h.file (scope_in h.file.syntax.now h.file.rounds.now) library refused) c).type)) }
    ensures results { (t : Text) (h : Headed) (its : Tables) (library : List Specification) (refused : List ℕ) → IsFileRead t h its library refused → (terms : List Term) → Grows its.types.now terms → (n c : ℕ) → n < length h.file.syntax.now → IsTypeFine (file_with h.file (scope_in h.file.syntax.now h.file.rounds.now) library refused) n c → (items : ℕ → Item) (m : ℕ) → (round (file_with h.file (scope_in h.file.syntax.now h.file.rounds.now) library refused) n).routine ≡ Some m → IsType terms (type_inside h.file items n c) (Some (headings.type_inside (file_with h.file (scope_in h.file.syntax.now h.file.rounds.now) library refused) m (item (file_with h.file (scope_in h.file.syntax.now h.file.rounds.now) library refused) c).type)) }
{}

/// The own type of the cluster round each node, and what `rep` stands for there.
pub fn own_types_known()
    ensures own { (t : Text) (h : Headed) (its : Tables) (library : List Specification) (refused : List ℕ) → IsFileRead t h its library refused → (terms : List Term) → Grows its.types.now terms → (n : ℕ) → IsType terms (own_type h.file n) (headings.own_type (file_with h.file (scope_in h.file.syntax.now h.file.rounds.now) library refused) n) }
    ensures represented { (t : Text) (h : Headed) (its : Tables) (library : List Specification) (refused : List ℕ) → IsFileRead t h its library refused → (terms : List Term) → Grows its.types.now terms → (n : ℕ) → n < length h.file.syntax.now → lost (file_with h.file (scope_in h.file.syntax.now h.file.rounds.now) library refused) n ≡ false → IsType terms (representation h n) (typing.representation (file_with h.file (scope_in h.file.syntax.now h.file.rounds.now) library refused) n) }
{}

/// Where nothing is lost: what is wanted is known, and no type is refused, nor does `cvt` stand there.
pub fn lost_known()
    ensures wanted { (t : Text) (h : Headed) (its : Tables) (library : List Specification) (refused : List ℕ) → IsFileRead t h its library refused → AreWantedKnown h.file (lost (file_with h.file (scope_in h.file.syntax.now h.file.rounds.now) library refused)) }
    ensures kept { (t : Text) (h : Headed) (its : Tables) (library : List Specification) (refused : List ℕ) → IsFileRead t h its library refused → (n : ℕ) → n < length h.file.syntax.now → IsFine (file_with h.file (scope_in h.file.syntax.now h.file.rounds.now) library refused) n → lost (file_with h.file (scope_in h.file.syntax.now h.file.rounds.now) library refused) n ≡ false }
{}

/// Of all nodes, with what was noted of them: their facts, and what they raise.
pub fn nodes_known()
    ensures facts { (t : Text) (h : Headed) (its : Tables) (library : List Specification) (refused : List ℕ) → IsFileRead t h its library refused → (first : List Term) → Grows its.types.now first → AreHeads h (length first) → ((terms : List Term) → Grows first terms → TellHeads h (file_with h.file (scope_in h.file.syntax.now h.file.rounds.now) library refused) (types_of terms)) → SpecificationsAscend library → (items : ℕ → Item) (last : List Term) (facts : Facts) → IsArena last → AreKnown h items first (length h.file.syntax.now) last facts → AreFacts (file_with h.file (scope_in h.file.syntax.now h.file.rounds.now) library refused) last facts (lost (file_with h.file (scope_in h.file.syntax.now h.file.rounds.now) library refused)) }
    ensures raises { (t : Text) (h : Headed) (its : Tables) (library : List Specification) (refused : List ℕ) → IsFileRead t h its library refused → (first : List Term) → Grows its.types.now first → AreHeads h (length first) → ((terms : List Term) → Grows first terms → TellHeads h (file_with h.file (scope_in h.file.syntax.now h.file.rounds.now) library refused) (types_of terms)) → SpecificationsAscend library → (items : ℕ → Item) (last : List Term) (facts : Facts) → IsArena last → AreKnown h items first (length h.file.syntax.now) last facts → IsWhole t (record its { file = h.file; types = record its.types { now = last } }) library refused → Grows first last → IsSound h last facts → (n : ℕ) → n < length h.file.syntax.now → lost (file_with h.file (scope_in h.file.syntax.now h.file.rounds.now) library refused) n ≡ false → HaveSame (raised_told last facts n) (raises_of (file_with h.file (scope_in h.file.syntax.now h.file.rounds.now) library refused) n) }
{}

/// Where routines and the types of variables see the same `rep`; and so `cvt` as a body sees it.
pub fn reps_told()
    ensures routines { (f : File) → IsFileOfTree f → HaveParents f → f.scope.declarations ≡ declarations f.nodes f.rounds → AreReps f → AreRoutinesAtHome f }
    ensures variables { (t : Text) (k : Known) (library : List Specification) (refused : List ℕ) → IsWhole t k.tables library refused → AreRepsThere (file_with k.tables.file (scope_in k.tables.file.syntax.now k.tables.file.rounds.now) library refused) → AreVariableTypes (file_with k.tables.file (scope_in k.tables.file.syntax.now k.tables.file.rounds.now) library refused) k.tables.file }
    ensures cvts { (t : Text) (h : Headed) (its : Tables) (library : List Specification) (refused : List ℕ) → IsWhole t (record its { file = h.file }) library refused → AreOwned its.types.now h.file.values.now h.file.syntax.now (length h.file.syntax.now) h.file.bindings.now.own.items → AreReps (file_with h.file (scope_in h.file.syntax.now h.file.rounds.now) library refused) → AreCvtsKnown (file_with h.file (scope_in h.file.syntax.now h.file.rounds.now) library refused) h its.types.now }
{}
