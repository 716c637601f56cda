//! Tests of the check, of libraries and of the linker: the rules asked of whole sources, specifications, files of objects and of
//! libraries, scripts over a library, and the code of operations. It has tests alone, so that no crate below is proved twice.
#![tactic(auto)]

#[cfg(test)]
mod checks;
#[cfg(test)]
mod code_rows;
#[cfg(test)]
mod codes;
#[cfg(test)]
mod file_rows;
#[cfg(test)]
mod files;
#[cfg(test)]
mod link_rows;
#[cfg(test)]
mod rules_actuals;
#[cfg(test)]
mod rules_arms;
#[cfg(test)]
mod rules_clusters;
#[cfg(test)]
mod rules_constants;
#[cfg(test)]
mod rules_definitions;
#[cfg(test)]
mod rules_equates;
#[cfg(test)]
mod rules_examples;
#[cfg(test)]
mod rules_expressions;
#[cfg(test)]
mod rules_first;
#[cfg(test)]
mod rules_instances;
#[cfg(test)]
mod rules_leaving;
#[cfg(test)]
mod rules_limits;
#[cfg(test)]
mod rules_names;
#[cfg(test)]
mod rules_operations;
#[cfg(test)]
mod rules_order;
#[cfg(test)]
mod rules_results;
#[cfg(test)]
mod rules_selectors;
#[cfg(test)]
mod rules_signals;
#[cfg(test)]
mod rules_statements;
#[cfg(test)]
mod script_rows;
#[cfg(test)]
mod scripts;
#[cfg(test)]
mod spec_rows;
#[cfg(test)]
mod tables;
