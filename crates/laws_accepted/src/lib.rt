//! Why programs of accepted files are well typed: which types and routine objects are lawful in them, and that these stay so
//! when actuals are put in for parameters. Laws alone, over the definitions of `clu_checking` and `laws_sound`.
#![tactic(auto)]

mod laws;

pub use laws::{
    accepted_files_keep_rules, actuals_keep_types, builtins_are_lawful, expressions_are_well_typed,
    files_are_as_specified, found_operations_run,
};
