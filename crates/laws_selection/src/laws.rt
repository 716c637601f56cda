//! The laws, each the contract of a function that does nothing.

ghost use Rattle.laws_selection.specs.Laws.{ConditionsTurn, ExpressionsEvaluate, StepsFollow};

/// The words of an expression evaluate it.
pub fn expressions_evaluate()
    ensures { ExpressionsEvaluate }
{}

/// The words of a jump on an expression go where its word says.
pub fn conditions_turn()
    ensures { ConditionsTurn }
{}

/// The words of a step of flat code do the step.
pub fn steps_follow()
    ensures { StepsFollow }
{}
