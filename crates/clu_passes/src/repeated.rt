//! That the bits of names that stand twice, as `Items` of `clu_name_rules` has them, say what the rules ask.

ghost use Rattle.std.specs.Prelude.{◌≡◌, ◌<◌, ◌^◌, ◌||◌, ℕ, Bool, List, length, true, slice_get};
ghost use Rattle.clu_parser.specs.Trees.{Text};
ghost use Rattle.clu_syntax.specs.Items.{Item};
ghost use Rattle.clu_syntax.specs.Rounds.{AreRounds};
ghost use Rattle.clu_names.specs.declared.binding.Names.{Names};
ghost use Rattle.clu_names.specs.Scopes.{declarations};
ghost use Rattle.clu_checking.specs.Files.{File, kind_in, names};
ghost use Rattle.clu_checking.specs.ExpressionRules.{v17};
ghost use Rattle.clu_checking.specs.NameRules.{is_defined_twice, stands_before, stands_twice};
ghost use Rattle.clu_declares.specs.Declares.{IsParsed};
ghost use Rattle.clu_head.specs.Refused.{is_set};
ghost use Rattle.clu_name_rules.specs.Constructors.{is_selector};
ghost use Rattle.clu_name_rules.specs.NameRules as tables;
ghost use Rattle.clu_name_rules.specs.Own.{own_places};
ghost use Rattle.clu_passes.specs.Notes.{AreRepeated, DeclareModules, HaveParents, is_arm, is_listed_item, is_own_list};
ghost use Rattle.clu_passes.specs.Tables.{AreNames};

/// The bit of an item is set just if another item of its list has a name of it before, or it has one twice.
pub fn items_repeated()
    ensures { (f : File) → HaveParents f → DeclareModules f → (bits : List Bool) → AreRepeated f bits → (n : ℕ) → is_listed_item (kind_in f n) ≡ true → is_set (slice_get bits n) ≡ (stands_twice (names f n) || stands_before f (kind_in f n) n) }
{}

/// That of an exception or a when arm, just if another one of its list has a name of it before.
pub fn arms_repeated()
    ensures { (f : File) → HaveParents f → DeclareModules f → (bits : List Bool) → AreRepeated f bits → (n : ℕ) → is_arm (kind_in f n) ≡ true → is_set (slice_get bits n) ≡ stands_before f (kind_in f n) n }
{}

/// That of a node whose names are a list by themselves, just if one of them stands twice among them.
pub fn names_repeated()
    ensures { (f : File) → HaveParents f → DeclareModules f → (bits : List Bool) → AreRepeated f bits → (n : ℕ) → is_own_list (kind_in f n) ≡ true → is_set (slice_get bits n) ≡ stands_twice (names f n) }
{}

/// V17 at a selector of a type or constructor.
pub fn v17_of_selectors()
    ensures { (f : File) → HaveParents f → DeclareModules f → (bits : List Bool) → AreRepeated f bits → (n : ℕ) → is_selector (kind_in f n) ≡ true → v17 f n ≡ is_set (slice_get bits n) }
{}

/// V6 of names, of the tree of a text: a name is defined twice just if the tables of names, of those that stand twice and of the
/// places of declarations say so.
pub fn defined_by_tables()
    ensures { (t : Text) (f : File) → IsParsed t f.nodes → AreRounds f.nodes f.rounds → f.scope.declarations ≡ declarations f.nodes f.rounds → length f.nodes < 2 ^ 32 → (table : Names) → AreNames f table → (bits : List Bool) → AreRepeated f bits → (items : ℕ → Item) (n : ℕ) → is_defined_twice f n ≡ tables.is_defined_twice items f.nodes f.rounds table bits (own_places f.scope.declarations (length f.nodes)) n }
{}
