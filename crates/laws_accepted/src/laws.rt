//! What holds of types and operations when actuals are put in for parameters, what a file shows of its routines, and of the
//! expressions in its bodies. The functions do nothing: their contracts are the laws.

ghost use Rattle.laws_accepted.specs.Specified.{ActualsKeepTypes};
ghost use Rattle.laws_accepted.specs.Lawful.{BuiltinsAreLawful};
ghost use Rattle.laws_accepted.specs.Accepted.{AcceptedFilesKeepRules, FilesAreAsSpecified};
ghost use Rattle.laws_accepted.specs.Instances.{FoundOperationsRun};
ghost use Rattle.laws_accepted.specs.Expressions.{ExpressionsAreWellTyped};

/// In an accepted file no node violates a rule of the table, whether the walk over headings or the one over the rest asks it.
pub fn accepted_files_keep_rules()
    ensures { AcceptedFilesKeepRules }
{}

/// Actuals of the kinds of the parameters, which meet what where clauses give of these, keep legal types legal and what is met
/// of them met, whatever parameters the actuals are over themselves.
pub fn actuals_keep_types()
    ensures { ActualsKeepTypes }
{}

/// What built-in operations of legal types need is there and lawful, in each program that is as it is specified.
pub fn builtins_are_lawful()
    ensures { BuiltinsAreLawful }
{}

/// In a file that stands alone each routine has, when it runs, the heading that the file shows of it, with the actuals put in;
/// and what a cluster shows it exports.
pub fn files_are_as_specified()
    ensures { FilesAreAsSpecified }
{}

/// An operation that the rules find of a type at a node is there and lawful in each instance of the text, with the type that
/// was found, the actuals put in.
pub fn found_operations_run()
    ensures { FoundOperationsRun }
{}

/// An expression whose nodes stand in the body of a routine and keep the rules is well typed in each instance of the text, where
/// what the rules say that it raises may be raised.
pub fn expressions_are_well_typed()
    ensures { ExpressionsAreWellTyped }
{}
