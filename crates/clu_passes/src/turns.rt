//! That bad equates may be asked one after the other, each once, and that what is found of each stays right.

ghost use Rattle.std.specs.Prelude.{◌≡◌, ◌<◌, ℕ, Bool, List, None, Option, Some, false, find, fold, is_some, length, replicate, slice_get, true};
ghost use Rattle.std.specs.List.{list_any};
ghost use Rattle.clu_base.specs.declared.rules.Rule.{Rule};
ghost use Rattle.clu_circles.specs.Circles.{AreCircles};
ghost use Rattle.clu_tree.specs.declared.node.NodeKind.TheVariants as kind;
ghost use Rattle.clu_syntax.specs.declared.round.Round.{Round};
ghost use Rattle.clu_syntax.specs.Items.{Item};
ghost use Rattle.clu_syntax.specs.Kinds.{kind_at};
ghost use Rattle.clu_names.specs.declared.binding.Names.{Names};
ghost use Rattle.clu_names.specs.Scopes.{declarations};
ghost use Rattle.clu_checking.specs.Files.{File, is_kind};
ghost use Rattle.clu_checking.specs.Equates.{is_circular};
ghost use Rattle.clu_checking.specs.Rules.{least, violates as violated};
ghost use Rattle.clu_checking.specs.Refusals.{is_bad_of, right_side};
ghost use Rattle.clu_settle.specs.Circular.{spans_to};
ghost use Rattle.clu_settle.specs.Graph.{unfolded_to};
ghost use Rattle.clu_name_rules.specs.declared.tables.Tables.{Tables};
ghost use Rattle.clu_type_rules.specs.declared.known.Known.{Known};
ghost use Rattle.clu_type_rules.specs.Asked.{rules_at};
ghost use Rattle.clu_type_rules.specs.Rules.{violates, violates_of_types};
ghost use Rattle.clu_type_rules.specs.Walking.{Asked, bad_in};
ghost use Rattle.clu_passes.specs.Marks.{AreMarks};
ghost use Rattle.clu_passes.specs.Tables.{AreNames};
ghost use Rattle.clu_passes.specs.Trees.{IsFileOfTree, is_of_constant};
ghost use Rattle.clu_passes.specs.Turns.{AreApart, Reads, ReadsAlone, asked_if_there, bit, nodes_in};

/// Where what stands in each node reads the bit of a node before it alone, at the end the bit of each node of the list says
/// whether there is a fault in it, by these very bits.
pub fn asked_in_turn()
    ensures { (rounds : List Round) (fault : List Bool → ℕ → Bool) (es : List (Option ℕ)) (reads : ℕ → Option ℕ) → AreApart rounds fault es (λ n m. reads n ≡ Some m) → (size : ℕ) → ((q e : ℕ) → slice_get es q ≡ Some (Some e) → e < size) → (a : Asked) → a ≡ fold (asked_if_there rounds fault) (record { bad = replicate size false; faulty = replicate size None }) es → (p e : ℕ) → slice_get es p ≡ Some (Some e) → bit a.bad e ≡ list_any (fault a.bad) (nodes_in rounds e) }
{}

/// The rules over tables ask at a node below an Equate of one bit alone whether an equate is bad: that of the one which its name
/// denotes.
pub fn bits_read()
    ensures all { (k : Known) (items : ℕ → Item) (n : ℕ) → is_of_constant (kind_at k.tables.file.syntax.now n) ≡ true → (b c : List Bool) → ((m : ℕ) → Reads k.tables.file.syntax.now k.tables.file.names.now n m → bit b m ≡ bit c m) → (r : Rule) → violates k b items n r ≡ violates k c items n r }
    ensures of_types { (t : Tables) (items : ℕ → Item) (n : ℕ) → is_of_constant (kind_at t.file.syntax.now n) ≡ true → (b c : List Bool) → ((m : ℕ) → Reads t.file.syntax.now t.file.names.now n m → bit b m ≡ bit c m) → (r : Rule) → violates_of_types t b items n r ≡ violates_of_types t c items n r }
    ensures faults { (k : Known) (items : ℕ → Item) → ReadsAlone k.tables.file.syntax.now k.tables.file.names.now (λ b n. is_some (find (violates k b items n) (rules_at (kind_at k.tables.file.syntax.now n)))) }
    ensures faults_of_types { (t : Tables) (items : ℕ → Item) → ReadsAlone t.file.syntax.now t.file.names.now (λ b n. is_some (find (violates_of_types t b items n) (rules_at (kind_at t.file.syntax.now n)))) }
{}

/// The table of bad equates that comes of asking them in the order of `equate_circles`, each after those that it leads to. Of an
/// equate that leads to no circle it has whether there is a fault in it, by this very table; and where a fault is that a rule of
/// the definitions is violated, it says which equates are bad.
pub fn bad_in_turn()
    ensures faults { (f : File) → IsFileOfTree f → (names : Names) → AreNames f names → (order : List ℕ) (circular : List Bool) → AreCircles (unfolded_to f.nodes f.scope.declarations (length f.nodes)) (spans_to f.nodes f.rounds f.scope.declarations) order circular → (fault : List Bool → ℕ → Bool) → ReadsAlone f.nodes names fault → f.scope.declarations ≡ declarations f.nodes f.rounds → AreMarks f circular → (e : ℕ) → is_kind f kind.Equate e ≡ true → is_circular f e ≡ false → bit (bad_in f.nodes f.rounds fault f.scope.declarations order) e ≡ list_any (fault (bad_in f.nodes f.rounds fault f.scope.declarations order)) (right_side f e) }
    ensures bad { (f : File) → IsFileOfTree f → (names : Names) → AreNames f names → (order : List ℕ) (circular : List Bool) → AreCircles (unfolded_to f.nodes f.scope.declarations (length f.nodes)) (spans_to f.nodes f.rounds f.scope.declarations) order circular → (fault : List Bool → ℕ → Bool) → ReadsAlone f.nodes names fault → f.scope.declarations ≡ declarations f.nodes f.rounds → AreMarks f circular → (rules : List Rule) → ((n : ℕ) → is_of_constant (kind_at f.nodes n) ≡ true → fault (bad_in f.nodes f.rounds fault f.scope.declarations order) n ≡ is_some (least (violated f (bit (bad_in f.nodes f.rounds fault f.scope.declarations order)) n) rules)) → (e : ℕ) → is_kind f kind.Equate e ≡ true → is_circular f e ≡ false → bit (bad_in f.nodes f.rounds fault f.scope.declarations order) e ≡ is_bad_of f rules e }
{}
