//! That a node raises what the definitions say, as a set, where each node of the tables has its row; and that the rules which ask
//! of raises answer the same for equal sets.

ghost use Rattle.std.specs.Prelude.{◌≡◌, ℕ, Bool, List, false, filter};
ghost use Rattle.std.specs.List.{AllByRecursion, list_all};
ghost use Rattle.clu_parser.specs.Trees.{Text};
ghost use Rattle.clu_syntax.specs.Items.{When};
ghost use Rattle.clu_syntax.specs.Syntax.{Identifier, Taken};
ghost use Rattle.clu_declares.specs.Declares.{IsParsed};
ghost use Rattle.clu_checking.specs.Files.{File, children};
ghost use Rattle.clu_checking.specs.Raising.{Raise, is_named};
ghost use Rattle.clu_checking.specs.ExceptionRules.{raise_fits, takes_raises};
ghost use Rattle.clu_typing.specs.Sets.{HaveSame};
ghost use Rattle.clu_passes.specs.Raised.{AreRows, raises_of, row_of};

/// What a node of the tree of a text raises is its row over what its children raise.
pub fn raises_by_rows()
    ensures { (t : Text) (f : File) → IsParsed t f.nodes → (n : ℕ) → raises_of f n ≡ row_of f (raises_of f) n }
{}

/// Tables in which each node has its row over those of its children, where nothing is lost, have what each node raises.
pub fn raises_told()
    ensures { (t : Text) (f : File) → IsParsed t f.nodes → (lost : ℕ → Bool) → ((n : ℕ) → lost n ≡ false → AllByRecursion (λ c. lost c ≡ false) (children f n)) → (told : ℕ → List Raise) → AreRows f lost told → (n : ℕ) → lost n ≡ false → HaveSame (told n) (raises_of f n) }
{}

/// V23 of an arm, and V26 of a resignal, for equal sets of raises.
pub fn raises_judged()
    ensures arms { (f : File) (w : When) (taken : Taken) (xs ys : List Raise) → HaveSame xs ys → takes_raises f w taken xs ≡ takes_raises f w taken ys }
    ensures resignals { (f : File) (bad : ℕ → Bool) (n : ℕ) (names : List Identifier) (xs ys : List Raise) → HaveSame xs ys → list_all (raise_fits f bad n) (filter (is_named names) xs) ≡ list_all (raise_fits f bad n) (filter (is_named names) ys) }
{}
