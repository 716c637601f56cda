//! That asking at each node the rules of its kind alone is asking all rules, and that bad equates may be found one after the other.

ghost use Rattle.std.specs.Prelude.{◌≡◌, ℕ, Bool, List, false, true};
ghost use Rattle.clu_base.specs.declared.rules.Rule.{Rule};
ghost use Rattle.clu_tree.specs.declared.node.NodeKind.TheVariants as kind;
ghost use Rattle.clu_syntax.specs.Syntax.{Identifier};
ghost use Rattle.clu_checking.specs.Files.{File, is_kind, kind_in};
ghost use Rattle.clu_checking.specs.Equates.{is_bad_name, is_circular};
ghost use Rattle.clu_checking.specs.Rules.{violates, least, all_rules};
ghost use Rattle.clu_checking.specs.Refusals.{headings, is_bad_of, rest, rules_by};
ghost use Rattle.clu_type_rules.specs.Asked.{is_asked, rules_at, rules_of_headings, rules_of_rest};
ghost use Rattle.clu_passes.specs.Bad.{AreBadBy};
ghost use Rattle.clu_passes.specs.Trees.{IsFileOfTree};

/// In the file of a tree of the grammar a rule is violated at nodes of its kinds alone. So the least rule that a node violates, of
/// all or of those that a walk asks there, is the least of those that are listed for its kind.
pub fn least_asked()
    ensures elsewhere { (f : File) → IsFileOfTree f → (bad : ℕ → Bool) (n : ℕ) (r : Rule) → is_asked (kind_in f n) r ≡ false → violates f bad n r ≡ false }
    ensures of_all { (f : File) → IsFileOfTree f → (bad : ℕ → Bool) (n : ℕ) → least (violates f bad n) all_rules ≡ least (violates f bad n) (rules_at (kind_in f n)) }
    ensures of_headings { (f : File) → IsFileOfTree f → (bad : ℕ → Bool) (n : ℕ) (in_heading : Bool) → least (violates f bad n) (rules_by (kind_in f n) headings in_heading) ≡ least (violates f bad n) (rules_of_headings (kind_in f n) in_heading) }
    ensures of_rest { (f : File) → IsFileOfTree f → (bad : ℕ → Bool) (n : ℕ) (in_heading : Bool) → least (violates f bad n) (rules_by (kind_in f n) rest in_heading) ≡ least (violates f bad n) (rules_of_rest (kind_in f n) in_heading) }
{}

/// A table that says of each equate which leads to no circle whether a rule is violated in it, where the table says the same of
/// those that it names, says which equates are bad; so a name is that of a bad equate just if it is by the table.
pub fn bad_settled()
    ensures equates { (f : File) → IsFileOfTree f → (rules : List Rule) (bad : ℕ → Bool) → AreBadBy f rules bad → (e : ℕ) → is_kind f kind.Equate e ≡ true → is_circular f e ≡ false → bad e ≡ is_bad_of f rules e }
    ensures named { (f : File) → IsFileOfTree f → (rules : List Rule) (bad : ℕ → Bool) → AreBadBy f rules bad → (n : ℕ) (name : Identifier) → is_bad_name f bad n name ≡ is_bad_name f (is_bad_of f rules) n name }
{}
