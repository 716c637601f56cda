//! The tables of rows are kept.

use crate::image_rows::{FILES, FILES_COUNT, LINES, LINES_COUNT, TEXTS, TEXTS_COUNT};
use crate::images::{put_file, put_line, put_text};
use crate::machine_rows::{
    INSTRUCTIONS, INSTRUCTIONS_COUNT, LIMITS, LIMITS_COUNT, RUNS, RUNS_COUNT,
};
use crate::runs::{put_instruction, put_limits, put_run};
use clu_rows::{Rows, Table};
use std::alloc::Global;
use std::test::Fail;

/// What is asked of the rows of a table.
#[derive(Clone, Copy)]
enum Asked {
    /// The word of a line of assembly, whose line it is.
    Lines,
    /// The image of an assembly text, or where the text is refused.
    Texts,
    /// The image of a file, and the file that is stored for it, or where the file is refused.
    Files,
    /// What an instruction does.
    Instructions,
    /// How a run of an image ends, and what it writes.
    Runs,
    /// Whether there are limits of a store and a stack.
    Limits,
}

impl Table for Asked {
    fn put(self, alloc: Global, found: &mut String, given: &str) -> Result<(), Fail> {
        match self {
            Asked::Lines => put_line(alloc, found, given),
            Asked::Texts => put_text(alloc, found, given.as_bytes()),
            Asked::Files => put_file(alloc, found, given),
            Asked::Instructions => put_instruction(alloc, found, given),
            Asked::Runs => put_run(alloc, found, given),
            Asked::Limits => put_limits(found, given),
        }
    }
}

#[test]
fn images_and_runs(rt: HostRuntime) -> Result<(), Fail> {
    let mut rows = Rows::new(rt.alloc());
    rows.keep(Asked::Lines, LINES, LINES_COUNT)?;
    rows.keep(Asked::Texts, TEXTS, TEXTS_COUNT)?;
    rows.keep(Asked::Files, FILES, FILES_COUNT)?;
    rows.keep(Asked::Instructions, INSTRUCTIONS, INSTRUCTIONS_COUNT)?;
    rows.keep(Asked::Runs, RUNS, RUNS_COUNT)?;
    rows.keep(Asked::Limits, LIMITS, LIMITS_COUNT)?;
    rows.end()
}
