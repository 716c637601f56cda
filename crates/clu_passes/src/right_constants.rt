//! That at the nodes that stand in equates, types and expressions the rules over tables say what the definitions say, up to the first
//! that is violated, where no rule is violated before the node.

ghost use Rattle.std.specs.Prelude.{◌≡◌, ◌<◌, ℕ, Bool, List, length, true};
ghost use Rattle.std.specs.List.{AllByRecursion};
ghost use Rattle.clu_parser.specs.Trees.{Text};
ghost use Rattle.clu_syntax.specs.Items.{Item};
ghost use Rattle.clu_syntax.specs.Syntax.{Identifier};
ghost use Rattle.clu_checking.specs.Specifications.{Specification};
ghost use Rattle.clu_checking.specs.Files.{kind_in};
ghost use Rattle.clu_checking.specs.Equates.{is_bad_name, names_unfolded};
ghost use Rattle.clu_type_rules.specs.declared.known.Known.{Known};
ghost use Rattle.clu_passes.specs.ConstantsKnown.{AreConstantsKnown, file_of};
ghost use Rattle.clu_passes.specs.Right.{AgreeThere, AreTypesBad, IsQuiet};
ghost use Rattle.clu_passes.specs.Trees.{is_of_constant};
ghost use Rattle.clu_passes.specs.Turns.{bit};

/// The field `constants` of `AreRight`.
pub fn constants_right()
    ensures { (t : Text) (k : Known) (library : List Specification) (refused : List ℕ) (items : ℕ → Item) (bits : List Bool) → AreConstantsKnown t k library refused → (bad : ℕ → Bool) (n : ℕ) → n < length k.tables.file.syntax.now → is_of_constant (kind_in (file_of k library refused) n) ≡ true → AllByRecursion (λ (name : Identifier). is_bad_name (file_of k library refused) (bit bits) n name ≡ is_bad_name (file_of k library refused) bad n name) (names_unfolded (file_of k library refused) (kind_in (file_of k library refused) n) n) → AreTypesBad (file_of k library refused) bad → IsQuiet (file_of k library refused) bad n → AgreeThere (file_of k library refused) k items bits bad n }
{}
