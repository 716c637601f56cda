//! That the type that is noted of an expression is its type.

ghost use Rattle.std.specs.Prelude.{ℕ, List, Option};
ghost use Rattle.clu_types.specs.Arena.{IsArena, Grows};
ghost use Rattle.clu_types.specs.declared.term.Term.{Term};
ghost use Rattle.clu_types.specs.declared.term.TypeId.{TypeId};
ghost use Rattle.clu_syntax.specs.Items.{Item};
ghost use Rattle.clu_syntax.specs.Syntax.{Expression};
ghost use Rattle.clu_bindings.specs.declared.file.Headed.{Headed};
ghost use Rattle.clu_operations.specs.declared.finding.Finding.{Finding};
ghost use Rattle.clu_checking.specs.Files.{File};
ghost use Rattle.clu_checking.specs.Typing.{type_of};
ghost use Rattle.clu_typing.specs.declared.applied.Applied.{Applied};
ghost use Rattle.clu_typing.specs.declared.facts.Facts.{Facts};
ghost use Rattle.clu_typing.specs.Typing.{IsTypeBy};
ghost use Rattle.clu_passes.specs.FactTables.{IsType};
ghost use Rattle.clu_passes.specs.NodeTypes.{HasParts};
ghost use Rattle.clu_passes.specs.StandsFor.{StandsFor};

/// Where that for which an expression stands and the types of what stands in it are so, what is noted of it is its type.
pub fn expression_typed()
    ensures { (f : File) (h : Headed) (old new : List Term) → Grows old new → IsArena old → (facts : Facts) (after : Finding) (n : ℕ) (its : Applied) (known : List (Option TypeId)) (items : ℕ → Item) (e : Expression) (of : Option TypeId) → HasParts f h old known n e → StandsFor f old facts e its → IsTypeBy old new facts.finding after h n its known items e of → IsType new of (type_of f e) }
{}
