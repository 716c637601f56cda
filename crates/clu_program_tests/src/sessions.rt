//! Sessions: commands one after the other over one store, and what comes of each. A session is lines of text:
//!
//! - `file NAME` begins a file; its lines stand after it with `| ` before each, a last line without byte 10 with `|. `, or, if it
//!   is short as `calls` reads it, with `|@ `.
//! - `hex NAME BYTES` is a file by numbers of two hexadecimal digits, `fields NAME FIELDS` one by its fields.
//! - `$ WORDS` is a command; after it stand its lines of output with `> ` before each, those of its errors with `! `, and
//!   `= ` with a status other than 0. A command that is refused leaves the file of its second word as it was.
//! - `head NAME` shows the first bytes of a file: after it stand `& ` and their digits.

use crate::calls::put_long;
use crate::outside::Outside;
use clu_base::Store;
use clu_rows::{Fields, bytes_of, put_bytes};
use std::alloc::Global;
use std::fmt::Write;
use std::test::Fail;

/// How many bytes of a file `head` shows.
const HEAD: usize = 16;

/// A session, and what was found of it so far.
#[derive(Drop)]
struct Session {
    alloc: Global,
    outside: Box<Outside>,
    /// The file that is being written, and its content.
    name: String,
    content: String,
    found: String,
}

/// Writes `kept` if a session comes to what it shows, and else what it comes to.
pub fn put_session(alloc: Global, found: &mut String, text: &str) -> Result<(), Fail> {
    let session = Session {
        alloc,
        outside: Outside::failing(alloc, b"", "", Vec::new(alloc), 0)?,
        name: String::new(alloc),
        content: String::new(alloc),
        found: String::new(alloc),
    };
    let mut session = Box::new(alloc, session)?;
    for line in text.split_terminator('\n') {
        session.do_line(line)?;
    }
    if session.found.as_str() == text {
        return Ok(found.push_str("kept")?);
    }
    Ok(found.push_str(session.found.as_str())?)
}

impl Session {
    /// Does what a line says, and notes the line with what came of it. Lines that show what comes of others are left out.
    fn do_line(&mut self, line: &str) -> Result<(), Fail> {
        let (sort, rest) = line.split_once(' ').unwrap_or((line, ""));
        if matches!(sort, ">" | "!" | "=" | "&") {
            return Ok(());
        }
        writeln!(self.found, "{line}")?;
        match sort {
            "|" => Ok(writeln!(self.content, "{rest}")?),
            "|." => Ok(self.content.push_str(rest)?),
            "|@" => put_long(&mut self.content, rest),
            "file" => self.begin_file(rest),
            "$" => self.call(rest),
            "head" => self.show_head(rest),
            _ => self.put_file(sort, rest),
        }
    }

    /// Puts a file by its bytes or its fields.
    fn put_file(&mut self, sort: &str, rest: &str) -> Result<(), Fail> {
        let (name, given) = rest.split_once(' ').unwrap_or((rest, ""));
        match sort {
            "hex" => {
                let bytes = bytes_of(self.alloc, given)?;
                Ok(self.outside.files.put(self.alloc, name, bytes.as_slice())?)
            }
            "fields" => {
                let fields = Fields::of(self.alloc, given)?;
                Ok(
                    self.outside
                        .files
                        .put(self.alloc, name, fields.bytes.as_slice())?,
                )
            }
            _ => Err("no such line")?,
        }
    }

    fn begin_file(&mut self, name: &str) -> Result<(), Fail> {
        self.end_file()?;
        Ok(self.name.push_str(name)?)
    }

    /// Puts the file that was written.
    fn end_file(&mut self) -> Result<(), Fail> {
        if !self.name.is_empty() {
            let content = self.content.as_bytes();
            self.outside
                .files
                .put(self.alloc, self.name.as_str(), content)?;
        }
        self.name.clear();
        self.content.clear();
        Ok(())
    }

    fn call(&mut self, words: &str) -> Result<(), Fail> {
        self.end_file()?;
        let library = words.split(' ').nth(1).unwrap_or("");
        let kept = self
            .outside
            .files
            .file(library)
            .unwrap_or(b"")
            .to_vec(self.alloc)?;
        let output = self.outside.written().len();
        let errors = self.outside.told().len();
        let status = self.outside.call(self.alloc, words)?;
        put_lines(&mut self.found, ">", self.outside.written(), output)?;
        put_lines(&mut self.found, "!", self.outside.told(), errors)?;
        if status == 0 {
            return Ok(());
        }
        if self.outside.files.file(library).unwrap_or(b"") != kept.as_slice() {
            return Err("a refused command changes no library")?;
        }
        Ok(writeln!(self.found, "= {status}")?)
    }

    fn show_head(&mut self, name: &str) -> Result<(), Fail> {
        let bytes = self.outside.files.file(name).unwrap_or(b"");
        self.found.push_str("&")?;
        put_bytes(&mut self.found, bytes.get(..HEAD).unwrap_or(bytes))?;
        Ok(self.found.push_str("\n")?)
    }
}

/// Appends the lines of a text from a place on, each with a mark and a blank before it.
fn put_lines(found: &mut String, mark: &str, text: &str, start: usize) -> Result<(), Fail> {
    for line in text.get(start..).unwrap_or("?").split_terminator('\n') {
        writeln!(found, "{mark} {line}")?;
    }
    Ok(())
}
