//! The tables of rows are kept.

use crate::calls::{put_call, put_cost, put_example, put_group, put_large};
use crate::example_rows::{EXAMPLES, EXAMPLES_COUNT};
use crate::foreign_rows::{FOREIGN, FOREIGN_COUNT};
use crate::go_arm_rows::{ARM_FILES, ARM_FILES_COUNT};
use crate::go_bound_rows::{BOUNDED, BOUNDED_COUNT};
use crate::go_code_rows::{CODE_FILES, CODE_FILES_COUNT};
use crate::go_data_rows::{DATA_FILES, DATA_FILES_COUNT};
use crate::go_iter_rows::{ITERATOR_FILES, ITERATOR_FILES_COUNT};
use crate::go_place_rows::{PLACE_FILES, PLACE_FILES_COUNT};
use crate::go_rows::{FILES, FILES_COUNT};
use crate::limit_rows::{LARGE, LARGE_COUNT, LIMITS, LIMITS_COUNT};
use crate::op_costs::{COSTS, COSTS_COUNT};
use crate::op_rows_data::{DATA_GROUPS, DATA_GROUPS_COUNT};
use crate::op_rows_text::{TEXT_GROUPS, TEXT_GROUPS_COUNT};
use crate::order_rows::{GO_PAIRS, GO_PAIRS_COUNT, OTHER_PAIRS, OTHER_PAIRS_COUNT};
use crate::parameter_rows::{PARAMETER_FILES, PARAMETER_FILES_COUNT};
use crate::session_rows::{SESSIONS, SESSIONS_COUNT};
use crate::sessions::put_session;
use crate::status_rows::{
    EXEC_STATUSES, EXEC_STATUSES_COUNT, GO_STATUSES, GO_STATUSES_COUNT, OTHER_STATUSES,
    OTHER_STATUSES_COUNT, RULES, RULES_COUNT,
};
use crate::text_rows::{DERIVED_GROUPS, DERIVED_GROUPS_COUNT};
use crate::trace_rows::{TRACED, TRACED_COUNT};
use crate::walk_rows::{WALKS, WALKS_COUNT};
use clu_rows::{Rows, Table};
use std::alloc::Global;
use std::test::Fail;

/// What is asked of the rows of a table.
#[derive(Clone, Copy)]
enum Asked {
    /// What comes of a call.
    Calls,
    /// What an example writes.
    Examples,
    /// Whether a program writes the values of its lines.
    Groups,
    /// What operations take of the store.
    Costs,
    /// Whether an image has at most so many words.
    Large,
    /// Whether a session comes to what it shows.
    Sessions,
}

impl Table for Asked {
    fn put(self, alloc: Global, found: &mut String, given: &str) -> Result<(), Fail> {
        match self {
            Asked::Calls => put_call(alloc, found, given),
            Asked::Examples => put_example(alloc, found, given),
            Asked::Groups => put_group(alloc, found, given),
            Asked::Costs => put_cost(alloc, found, given),
            Asked::Large => put_large(alloc, found, given),
            Asked::Sessions => put_session(alloc, found, given),
        }
    }
}

#[test]
fn programs(rt: HostRuntime) -> Result<(), Fail> {
    let mut rows = Rows::new(rt.alloc());
    rows.keep(Asked::Calls, FILES, FILES_COUNT)?;
    rows.keep(Asked::Calls, DATA_FILES, DATA_FILES_COUNT)?;
    rows.keep(Asked::Calls, ARM_FILES, ARM_FILES_COUNT)?;
    rows.keep(Asked::Calls, ITERATOR_FILES, ITERATOR_FILES_COUNT)?;
    rows.keep(Asked::Calls, TRACED, TRACED_COUNT)?;
    rows.keep(Asked::Calls, PLACE_FILES, PLACE_FILES_COUNT)?;
    rows.keep(Asked::Calls, PARAMETER_FILES, PARAMETER_FILES_COUNT)?;
    rows.keep(Asked::Calls, BOUNDED, BOUNDED_COUNT)?;
    rows.keep(Asked::Calls, CODE_FILES, CODE_FILES_COUNT)?;
    rows.keep(Asked::Examples, EXAMPLES, EXAMPLES_COUNT)?;
    rows.end()
}

#[test]
fn limits(rt: HostRuntime) -> Result<(), Fail> {
    let mut rows = Rows::new(rt.alloc());
    rows.keep(Asked::Calls, LIMITS, LIMITS_COUNT)?;
    rows.keep(Asked::Large, LARGE, LARGE_COUNT)?;
    rows.end()
}

#[test]
fn commands(rt: HostRuntime) -> Result<(), Fail> {
    let mut rows = Rows::new(rt.alloc());
    rows.keep(Asked::Calls, GO_STATUSES, GO_STATUSES_COUNT)?;
    rows.keep(Asked::Calls, EXEC_STATUSES, EXEC_STATUSES_COUNT)?;
    rows.keep(Asked::Calls, OTHER_STATUSES, OTHER_STATUSES_COUNT)?;
    rows.keep(Asked::Calls, RULES, RULES_COUNT)?;
    rows.keep(Asked::Calls, GO_PAIRS, GO_PAIRS_COUNT)?;
    rows.keep(Asked::Calls, OTHER_PAIRS, OTHER_PAIRS_COUNT)?;
    rows.end()
}

#[test]
fn operations(rt: HostRuntime) -> Result<(), Fail> {
    let mut rows = Rows::new(rt.alloc());
    rows.keep(Asked::Groups, TEXT_GROUPS, TEXT_GROUPS_COUNT)?;
    rows.keep(Asked::Groups, DATA_GROUPS, DATA_GROUPS_COUNT)?;
    rows.keep(Asked::Groups, DERIVED_GROUPS, DERIVED_GROUPS_COUNT)?;
    rows.keep(Asked::Costs, COSTS, COSTS_COUNT)?;
    rows.end()
}

#[test]
fn sessions(rt: HostRuntime) -> Result<(), Fail> {
    let mut rows = Rows::new(rt.alloc());
    rows.keep(Asked::Sessions, SESSIONS, SESSIONS_COUNT)?;
    rows.keep(Asked::Sessions, WALKS, WALKS_COUNT)?;
    rows.keep(Asked::Sessions, FOREIGN, FOREIGN_COUNT)?;
    rows.end()
}
