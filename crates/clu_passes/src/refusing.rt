//! That rules over tables find the refusal of a file, if at each node up to the first fault they say what the definitions say.
//! Where something is lost both may differ behind it.

ghost use Rattle.std.specs.Prelude.{◌≡◌, ◌<◌, ◌≤◌, ◌↔◌, ℕ, Bool, List, Option, Some, false, find, length, slice_get, true};
ghost use Rattle.clu_base.specs.declared.rules.Rule.{Rule};
ghost use Rattle.clu_circles.specs.Circles.{AreCircles};
ghost use Rattle.clu_tree.specs.declared.node.NodeKind.{NodeKind};
ghost use Rattle.clu_tree.specs.declared.node.NodeKind.TheVariants as kind;
ghost use Rattle.clu_syntax.specs.declared.round.Round.{Round};
ghost use Rattle.clu_syntax.specs.Items.{Item};
ghost use Rattle.clu_syntax.specs.Rounds.{AreRounds};
ghost use Rattle.clu_names.specs.declared.binding.Names.{Names};
ghost use Rattle.clu_names.specs.Denotes.{bound_to, starts_to};
ghost use Rattle.clu_names.specs.Scopes.{declarations};
ghost use Rattle.clu_meaning.specs.Scoping.{Scope};
ghost use Rattle.clu_checking.specs.Specifications.{Specification};
ghost use Rattle.clu_checking.specs.Files.{File, is_kind, is_refused};
ghost use Rattle.clu_checking.specs.Equates.{is_circular};
ghost use Rattle.clu_checking.specs.Rules as definition;
ghost use Rattle.clu_checking.specs.Rules.{least};
ghost use Rattle.clu_checking.specs.Refusals.{heading_refusal, is_bad, is_bad_of, refusal, rules_of_types, with_refused};
ghost use Rattle.clu_settle.specs.Circular as by_place;
ghost use Rattle.clu_settle.specs.Circular.{spans_to};
ghost use Rattle.clu_settle.specs.Graph.{unfolded_to};
ghost use Rattle.clu_head.specs.Refused.{counts_to, grows_in};
ghost use Rattle.clu_name_rules.specs.declared.tables.Tables.{Tables};
ghost use Rattle.clu_type_rules.specs.declared.known.Known.{Known};
ghost use Rattle.clu_type_rules.specs.Asked.{is_asked, rules_at, rules_of_headings, rules_of_rest};
ghost use Rattle.clu_type_rules.specs.Rules.{violates, violates_of_types};
ghost use Rattle.clu_type_rules.specs.Walking.{first_fault, first_of};
ghost use Rattle.clu_passes.specs.Agreeing.{AgreeAt};
ghost use Rattle.clu_passes.specs.ConstantTables.{file_with};
ghost use Rattle.clu_passes.specs.Refusing.{AgreeBelow, AgreeInEquates, AgreeInHeadings, AgreeInRest, AgreeOn, AgreeWithin, FindsFirst, IsOrder, bits_in, has_fault, heading_fault, is_no_type, of_types, refused_bits, rest_fault};
ghost use Rattle.clu_passes.specs.Trees.{IsFileOfTree};
ghost use Rattle.clu_passes.specs.Turns.{arm_declared, bit};

/// The first of some rules that is found is the least that is violated, if both say the same up to it.
pub fn least_found()
    ensures { (found violated : Rule → Bool) (rules : List Rule) → AgreeOn found violated rules → find found rules ≡ least violated rules }
{}

/// So they do if they say the same of each rule that is asked at a node of the kind.
pub fn rules_agree()
    ensures at { (found violated : Rule → Bool) (k : NodeKind) → ((r : Rule) → is_asked k r ≡ true → found r ≡ violated r) → AgreeOn found violated (rules_at k) }
    ensures of_headings { (found violated : Rule → Bool) (k : NodeKind) → ((r : Rule) → is_asked k r ≡ true → found r ≡ violated r) → (in_heading : Bool) → AgreeOn found violated (rules_of_headings k in_heading) }
    ensures of_rest { (found violated : Rule → Bool) (k : NodeKind) → ((r : Rule) → is_asked k r ≡ true → found r ≡ violated r) → (in_heading : Bool) → AgreeOn found violated (rules_of_rest k in_heading) }
{}

/// Faults that are found, if at each node they are those that there are where none is before it, agree as far as the first one.
pub fn agree_first()
    ensures { (size : ℕ) (found fault : ℕ → Option Rule) → FindsFirst size found fault → (n : ℕ) → n < size → AgreeAt found fault n }
{}

/// What the walks find by the rules over tables is the refusal of the headings, and of the file, if at each node up to the first
/// fault the rules say what the definitions say.
pub fn refused_by_tables()
    ensures headings { (k : Known) (scope : Scope) (library : List Specification) (refused : List ℕ) → IsFileOfTree (file_with k.tables.file scope library refused) → (items : ℕ → Item) (bits : List Bool) → AgreeInHeadings (file_with k.tables.file scope library refused) (violates k bits items) → first_fault (heading_fault k items bits) 0 k.tables.file.syntax.now ≡ heading_refusal (file_with k.tables.file scope library refused) }
    ensures whole { (k : Known) (scope : Scope) (library : List Specification) (refused : List ℕ) → IsFileOfTree (file_with k.tables.file scope library refused) → (items : ℕ → Item) (bits : List Bool) → AgreeInHeadings (file_with k.tables.file scope library refused) (violates k bits items) → AgreeInRest (file_with k.tables.file scope library refused) (violates k bits items) → first_of (first_fault (heading_fault k items bits) 0 k.tables.file.syntax.now) (first_fault (rest_fault k items bits) 0 k.tables.file.syntax.now) ≡ refusal (file_with k.tables.file scope library refused) }
{}

/// The order in which equates are asked is the one that `equate_circles` of clu_settle gives, with the names that `names_of` of
/// clu_names does.
pub fn order_told()
    ensures { (f : File) → AreRounds f.nodes f.rounds → f.scope.declarations ≡ declarations f.nodes f.rounds → (names : Names) → names.declared.items ≡ declarations f.nodes f.rounds → names.bound.items ≡ bound_to f.nodes names.declared.items (length f.nodes) → names.starts.items ≡ starts_to f.nodes names.declared.items (length f.nodes) → (order : List ℕ) (circular : List Bool) → AreCircles (unfolded_to f.nodes names.declared.items (length f.nodes)) (spans_to f.nodes f.rounds names.declared.items) order circular → (length f.rounds ≡ length f.nodes → (k : ℕ) → k < length names.declared.items → (slice_get circular k ≡ Some true) ↔ (by_place.is_circular f.nodes f.rounds names.declared.items k ≡ true)) → IsOrder f names order circular }
{}

/// The bits that come of asking equates in their order say which of them are bad, by all rules and by those by which types are
/// refused, if by these bits the rules over tables say what the definitions say at each node of an equate up to the first fault.
/// The same of a Decl of an arm.
pub fn bad_by_tables()
    ensures all { (k : Known) (scope : Scope) (library : List Specification) (refused : List ℕ) → IsFileOfTree (file_with k.tables.file scope library refused) → (items : ℕ → Item) (order : List ℕ) (circular : List Bool) → IsOrder (file_with k.tables.file scope library refused) k.tables.file.names.now order circular → (bits : List Bool) → bits ≡ bits_in (file_with k.tables.file scope library refused) order (has_fault k items) → AgreeInEquates (file_with k.tables.file scope library refused) (violates k bits items) (definition.violates (file_with k.tables.file scope library refused) (bit bits)) → (e : ℕ) → is_kind (file_with k.tables.file scope library refused) kind.Equate e ≡ true → is_circular (file_with k.tables.file scope library refused) e ≡ false → bit bits e ≡ is_bad (file_with k.tables.file scope library refused) e }
    ensures arms { (k : Known) (scope : Scope) (library : List Specification) (refused : List ℕ) → IsFileOfTree (file_with k.tables.file scope library refused) → (items : ℕ → Item) (order : List ℕ) (circular : List Bool) → IsOrder (file_with k.tables.file scope library refused) k.tables.file.names.now order circular → (bits : List Bool) → bits ≡ bits_in (file_with k.tables.file scope library refused) order (has_fault k items) → AgreeInEquates (file_with k.tables.file scope library refused) (violates k bits items) (definition.violates (file_with k.tables.file scope library refused) (bit bits)) → (e : ℕ) → arm_declared k.tables.file.syntax.now k.tables.file.rounds.now e ≡ Some e → AgreeBelow (file_with k.tables.file scope library refused) (violates k bits items) (definition.violates (file_with k.tables.file scope library refused) (bit bits)) e → bit bits e ≡ is_bad (file_with k.tables.file scope library refused) e }
    ensures of_types { (t : Tables) (scope : Scope) (library : List Specification) (refused : List ℕ) → IsFileOfTree (file_with t.file scope library refused) → (items : ℕ → Item) (order : List ℕ) (circular : List Bool) → IsOrder (file_with t.file scope library refused) t.file.names.now order circular → (bits : List Bool) → bits ≡ bits_in (file_with t.file scope library refused) order (is_no_type t items) → AgreeInEquates (file_with t.file scope library refused) (violates_of_types t bits items) (λ n. of_types (definition.violates (file_with t.file scope library refused) (bit bits) n)) → (e : ℕ) → is_kind (file_with t.file scope library refused) kind.Equate e ≡ true → is_circular (file_with t.file scope library refused) e ≡ false → bit bits e ≡ is_bad_of (file_with t.file scope library refused) (rules_of_types (file_with t.file scope library refused)) e }
{}

/// A node is refused below another one, or is this one, just if more are refused by the tables before the number after it than
/// before the first number below it, if the rules over tables say there what the definitions say up to the first that is refused.
pub fn types_refused()
    ensures { (t : Tables) (scope : Scope) (library : List Specification) (refused : List ℕ) → IsFileOfTree (file_with t.file scope library refused) → (items : ℕ → Item) (bits : List Bool) (n : ℕ) (its : Round) → n < length t.file.syntax.now → slice_get t.file.rounds.now n ≡ Some its → its.first ≤ n → AgreeWithin (file_with t.file scope library refused) (violates_of_types t bits items) (λ m. of_types (definition.violates (file_with t.file scope library refused) (is_bad_of (file_with t.file scope library refused) (rules_of_types (file_with t.file scope library refused))) m)) n → is_refused (with_refused (file_with t.file scope library refused)) n ≡ grows_in (counts_to (refused_bits t items bits) (length (refused_bits t items bits))) (slice_get t.file.rounds.now n) n }
{}
