//! That the operations for which operators stand, the types of literals and constants, and the results of routines are those
//! of the definitions.

ghost use Rattle.std.specs.Prelude.{◌≡◌, List, Option};
ghost use Rattle.std.specs.Option.{option_and_then};
ghost use Rattle.clu_base.specs.declared.constants.Const.{Const};
ghost use Rattle.clu_types.specs.CluType.{CluType};
ghost use Rattle.clu_types.specs.declared.term.Term.{Term};
ghost use Rattle.clu_types.specs.declared.term.TypeId.{TypeId};
ghost use Rattle.clu_types.specs.Arena.{IsArena};
ghost use Rattle.clu_syntax.specs.declared.words.Operator.{Operator};
ghost use Rattle.clu_syntax.specs.declared.words.Sign.{Sign};
ghost use Rattle.clu_syntax.specs.Syntax.{Literal, Expression};
ghost use Rattle.clu_meaning.specs.Constants.{sugar, prefix_name};
ghost use Rattle.clu_checking.specs.Files.{File};
ghost use Rattle.clu_checking.specs.Typing as typing;
ghost use Rattle.clu_typing.specs.declared.applied.Applied.{Applied};
ghost use Rattle.clu_typing.specs.declared.facts.Facts.{Facts};
ghost use Rattle.clu_typing.specs.Operators.{infix_operation, is_negated, prefix_operation};
ghost use Rattle.clu_typing.specs.Typing.{literal_type, constant_type, applied_type};
ghost use Rattle.clu_typing.specs.Applied.{result_of};
ghost use Rattle.clu_passes.specs.Sugar.{operation_of, negates};
ghost use Rattle.clu_passes.specs.FactTables.{IsType};
ghost use Rattle.clu_passes.specs.StandsFor.{HasOperation, StandsFor};

/// An operator stands for the operation of its sugar.
pub fn operators_said()
    ensures between { (o : Operator) → infix_operation o ≡ operation_of (sugar o) }
    ensures negated { (o : Operator) → is_negated o ≡ negates (sugar o) }
    ensures before { (s : Sign) → prefix_operation s ≡ prefix_name s }
{}

/// Literals and constants have the types that they are to have.
pub fn constants_typed()
    ensures literals { (l : Literal) → literal_type l ≡ typing.literal_type l }
    ensures constants { (c : Const) → constant_type c ≡ typing.constant_type c }
{}

/// Where the type of a routine is known, that of its only result is.
pub fn results_typed()
    ensures { (terms : List Term) → IsArena terms → (of : Option TypeId) (t : Option CluType) → IsType terms of t → IsType terms (result_of terms of) (option_and_then typing.result_of t) }
{}

/// An expression that stands for an operation has the type that this gives, or that it has if it is named.
pub fn applied_typed()
    ensures { (f : File) (terms : List Term) → IsArena terms → (facts : Facts) (e : Expression) (its : Applied) → HasOperation f e → StandsFor f terms facts e its → IsType terms (applied_type terms facts.finding its) (typing.type_of f e) }
{}
