//! The tables of rows are kept.

use crate::checks::{put_headings, put_named, put_rule, put_texts, put_under};
use crate::code_rows::{CODE, CODE_COUNT, KNOWN, KNOWN_COUNT, SCHEMES, SCHEMES_COUNT};
use crate::codes::{put_code, put_known, put_scheme};
use crate::file_rows::{FILES, FILES_COUNT, FIRST, FIRST_COUNT};
use crate::files::{put_file, put_first};
use crate::link_rows::{LINKS, LINKS_COUNT};
use crate::script_rows::{SCRIPTS, SCRIPTS_COUNT};
use crate::scripts::put_script;
use crate::spec_rows::{
    HEADINGS, HEADINGS_COUNT, NAMING, NAMING_COUNT, SPECIFICATIONS, SPECIFICATIONS_COUNT,
    UNDER_KEPT, UNDER_KEPT_COUNT,
};
use crate::{
    rules_actuals, rules_arms, rules_clusters, rules_constants, rules_definitions, rules_equates,
    rules_examples, rules_expressions, rules_first, rules_instances, rules_leaving, rules_limits,
    rules_names, rules_operations, rules_order, rules_results, rules_selectors, rules_signals,
    rules_statements,
};
use clu_rows::{Rows, Table};
use std::alloc::Global;
use std::test::Fail;

/// What is asked of the rows of a table.
#[derive(Clone, Copy)]
enum Asked {
    /// The first refusal of a source.
    Rules,
    /// That of its headings alone.
    Headings,
    /// That under kept specifications.
    UnderKept,
    /// The specifications of a source.
    Specifications,
    /// The modules that its first one names.
    Naming,
    /// Whether a file is kept or refused.
    Files,
    /// What is written for a library of version 1.
    First,
    /// Whether a script comes to what it tells.
    Scripts,
    /// The code of an operation.
    Code,
    /// The code of an operation over those of components.
    Schemes,
    /// What is known of a type.
    Known,
}

impl Table for Asked {
    fn put(self, alloc: Global, found: &mut String, given: &str) -> Result<(), Fail> {
        match self {
            Asked::Rules => put_rule(alloc, found, given),
            Asked::Headings => put_headings(alloc, found, given),
            Asked::UnderKept => put_under(alloc, found, given),
            Asked::Specifications => put_texts(alloc, found, given),
            Asked::Naming => put_named(alloc, found, given),
            Asked::Files => put_file(alloc, found, given),
            Asked::First => put_first(alloc, found, given),
            Asked::Scripts => put_script(alloc, found, given),
            Asked::Code => put_code(alloc, found, given),
            Asked::Schemes => put_scheme(alloc, found, given),
            Asked::Known => put_known(alloc, found, given),
        }
    }
}

// In several functions, since the check of one has a limit on how much text it reads.
#[test]
fn rules_of_definitions(rt: HostRuntime) -> Result<(), Fail> {
    let mut rows = Rows::new(rt.alloc());
    rows.keep(
        Asked::Rules,
        rules_definitions::ROWS,
        rules_definitions::ROWS_COUNT,
    )?;
    rows.keep(Asked::Rules, rules_names::ROWS, rules_names::ROWS_COUNT)?;
    rows.keep(Asked::Rules, rules_equates::ROWS, rules_equates::ROWS_COUNT)?;
    rows.keep(
        Asked::Rules,
        rules_constants::ROWS,
        rules_constants::ROWS_COUNT,
    )?;
    rows.keep(
        Asked::Rules,
        rules_clusters::ROWS,
        rules_clusters::ROWS_COUNT,
    )?;
    rows.end()
}

#[test]
fn rules_of_parameters(rt: HostRuntime) -> Result<(), Fail> {
    let mut rows = Rows::new(rt.alloc());
    rows.keep(Asked::Rules, rules_actuals::ROWS, rules_actuals::ROWS_COUNT)?;
    rows.keep(
        Asked::Rules,
        rules_instances::ROWS,
        rules_instances::ROWS_COUNT,
    )?;
    rows.keep(Asked::Rules, rules_limits::ROWS, rules_limits::ROWS_COUNT)?;
    rows.keep(
        Asked::Rules,
        rules_statements::LONG_NAMES,
        rules_statements::LONG_NAMES_COUNT,
    )?;
    rows.end()
}

#[test]
fn rules_of_expressions(rt: HostRuntime) -> Result<(), Fail> {
    let mut rows = Rows::new(rt.alloc());
    rows.keep(
        Asked::Rules,
        rules_expressions::ROWS,
        rules_expressions::ROWS_COUNT,
    )?;
    rows.keep(
        Asked::Rules,
        rules_operations::ROWS,
        rules_operations::ROWS_COUNT,
    )?;
    rows.keep(
        Asked::Rules,
        rules_selectors::ROWS,
        rules_selectors::ROWS_COUNT,
    )?;
    rows.keep(Asked::Rules, rules_results::ROWS, rules_results::ROWS_COUNT)?;
    rows.keep(Asked::Rules, rules_arms::ROWS, rules_arms::ROWS_COUNT)?;
    rows.end()
}

#[test]
fn rules_of_statements(rt: HostRuntime) -> Result<(), Fail> {
    let mut rows = Rows::new(rt.alloc());
    rows.keep(
        Asked::Rules,
        rules_statements::ROWS,
        rules_statements::ROWS_COUNT,
    )?;
    rows.keep(Asked::Rules, rules_leaving::ROWS, rules_leaving::ROWS_COUNT)?;
    rows.keep(Asked::Rules, rules_signals::ROWS, rules_signals::ROWS_COUNT)?;
    rows.end()
}

#[test]
fn rules_in_their_order(rt: HostRuntime) -> Result<(), Fail> {
    let mut rows = Rows::new(rt.alloc());
    rows.keep(
        Asked::Rules,
        rules_examples::ROWS,
        rules_examples::ROWS_COUNT,
    )?;
    rows.keep(Asked::Rules, rules_first::ROWS, rules_first::ROWS_COUNT)?;
    rows.keep(Asked::Rules, rules_order::ROWS, rules_order::ROWS_COUNT)?;
    rows.end()
}

#[test]
fn what_an_accepted_source_shows(rt: HostRuntime) -> Result<(), Fail> {
    let mut rows = Rows::new(rt.alloc());
    rows.keep(Asked::Headings, HEADINGS, HEADINGS_COUNT)?;
    rows.keep(Asked::UnderKept, UNDER_KEPT, UNDER_KEPT_COUNT)?;
    rows.keep(Asked::Specifications, SPECIFICATIONS, SPECIFICATIONS_COUNT)?;
    rows.keep(Asked::Naming, NAMING, NAMING_COUNT)?;
    rows.end()
}

#[test]
fn files_scripts_and_code(rt: HostRuntime) -> Result<(), Fail> {
    let mut rows = Rows::new(rt.alloc());
    rows.keep(Asked::Files, FILES, FILES_COUNT)?;
    rows.keep(Asked::First, FIRST, FIRST_COUNT)?;
    rows.keep(Asked::Scripts, SCRIPTS, SCRIPTS_COUNT)?;
    rows.keep(Asked::Scripts, LINKS, LINKS_COUNT)?;
    rows.keep(Asked::Code, CODE, CODE_COUNT)?;
    rows.keep(Asked::Schemes, SCHEMES, SCHEMES_COUNT)?;
    rows.keep(Asked::Known, KNOWN, KNOWN_COUNT)?;
    rows.end()
}
