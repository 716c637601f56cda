//! Tables of rows. A row ends with byte 0: what is given, after a tab `gives`, and what comes of it. One that begins with `%`
//! and a blank is a comment.

use crate::words::spelled;
use std::alloc::Global;
use std::fmt::Write;
use std::test::Fail;

/// What is asked of the rows of a table.
pub trait Table: Copy {
    /// Writes what comes of what a row gives.
    fn put(self, alloc: Global, found: &mut String, given: &str) -> Result<(), Fail>;
}

/// The rows of which something else came than they say, from all tables so far.
#[derive(Drop)]
pub struct Rows {
    alloc: Global,
    faults: String,
}

impl Rows {
    /// None.
    pub fn new(alloc: Global) -> Rows {
        Rows {
            alloc,
            faults: String::new(alloc),
        }
    }

    /// Notes the rows of a table that are not kept, and whether it has another number of rows than is due.
    pub fn keep<T: Table>(&mut self, table: T, rows: &str, due: usize) -> Result<(), Fail> {
        let mut count = 0usize;
        for row in rows.split_terminator('\0') {
            if !row.starts_with("% ") {
                self.keep_row(table, row)?;
                count = count.saturating_add(1);
            }
        }
        if count != due {
            writeln!(self.faults, "{count} rows, but {due} are due")?;
        }
        Ok(())
    }

    fn keep_row<T: Table>(&mut self, table: T, row: &str) -> Result<(), Fail> {
        let (given, due) = row.split_once("\tgives").unwrap_or((row, "?"));
        let given = spelled(self.alloc, given)?;
        let due = spelled(self.alloc, due)?;
        let mut found = String::new(self.alloc);
        table.put(self.alloc, &mut found, given.as_str())?;
        if found.as_str().trim_start() != due.as_str().trim_start() {
            writeln!(self.faults, "{found} comes of {row}")?;
        }
        Ok(())
    }

    /// Fails with the rows that are not kept.
    pub fn end(self) -> Result<(), Fail> {
        if self.faults.is_empty() {
            return Ok(());
        }
        Err(self.faults)?
    }
}
