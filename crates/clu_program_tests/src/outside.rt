//! The outside of a call, in memory.

use clu_base::{Bytes, MemSink, MemSource, MemStore, Memory, Store};
use clu_driver::{clu, session};
use std::alloc::Global;
use std::test::Fail;

/// The file that a call finds.
const FILE: &str = "a";

/// The file that `go` puts.
pub const IMAGE: &str = "b";

/// The outside of a call.
#[derive(Drop)]
pub struct Outside {
    pub input: MemSource,
    pub output: MemSink,
    pub errors: MemSink,
    pub files: MemStore,
}

/// `[0]`, if a word stands in a text of words with blanks between them.
fn first_if(alloc: Global, words: &str, word: &str) -> Result<Vec<u64>, Memory> {
    let mut calls = Vec::new(alloc);
    for one in words.split(' ') {
        if one == word {
            calls.push(0)?;
        }
    }
    Ok(calls)
}

/// The numbers of the calls of the store that fail, where call 0 is the put of `FILE`.
fn failing_calls(alloc: Global, words: &str) -> Result<Vec<u64>, Fail> {
    let mut calls = Vec::new(alloc);
    for word in words.split(' ') {
        match word {
            "get" => calls.push(1)?,
            "put" => calls.push(2)?,
            "last" => calls.push(3)?,
            "read" | "write" | "errors" | "" => {}
            _ => return Err("no such fault")?,
        }
    }
    Ok(calls)
}

impl Outside {
    /// One with this input, whose calls of the store fail that have these numbers; a put leaves so many bytes then. What else
    /// fails is named by words with blanks between them: the first `read` of the input, the first `write` of the output, the
    /// first line to `errors`.
    pub fn failing(
        alloc: Global,
        input: &[u8],
        faults: &str,
        calls: Vec<u64>,
        torn: usize,
    ) -> Result<Box<Outside>, Memory> {
        let input = Bytes::from_slice(alloc, input)?;
        let outside = Outside {
            input: MemSource::new(input, 64, first_if(alloc, faults, "read")?),
            output: MemSink::new(alloc, 65_536, 64, first_if(alloc, faults, "write")?)?,
            errors: MemSink::new(alloc, 1024, 64, first_if(alloc, faults, "errors")?)?,
            files: MemStore::new(alloc, calls, torn),
        };
        Ok(Box::new(alloc, outside)?)
    }

    /// One with this content of `FILE`. Of the store there fail, by these words too, the `get` of the first file that the
    /// command reads, and the `put` after it; of a command that reads two files `put` is the get of the second one, and `last`
    /// the put.
    pub fn new(
        alloc: Global,
        input: &[u8],
        content: &[u8],
        faults: &str,
    ) -> Result<Box<Outside>, Fail> {
        let calls = failing_calls(alloc, faults)?;
        let mut outside = Outside::failing(alloc, input, faults, calls, 5)?;
        outside.files.put(alloc, FILE, content)?;
        Ok(outside)
    }

    /// The status of a call with these words, which have blanks between them.
    pub fn call(&mut self, alloc: Global, words: &str) -> Result<u8, Memory> {
        let words = words_of(alloc, words)?;
        Ok(clu(
            alloc,
            &words,
            &mut self.input,
            &mut self.output,
            &mut self.errors,
            &mut self.files,
        ))
    }

    /// The statuses of calls with these lists of words, one after the other.
    pub fn session(&mut self, alloc: Global, runs: &[Vec<String>]) -> Result<Vec<u8>, Memory> {
        session(
            alloc,
            runs,
            &mut self.input,
            &mut self.output,
            &mut self.errors,
            &mut self.files,
        )
    }

    /// What was written.
    pub fn written(&self) -> &str {
        str::from_utf8(self.output.bytes()).unwrap_or("?")
    }

    /// What was written on the errors.
    pub fn told(&self) -> &str {
        str::from_utf8(self.errors.bytes()).unwrap_or("?")
    }
}

/// The words of a line, which has blanks between them.
pub fn words_of(alloc: Global, line: &str) -> Result<Vec<String>, Memory> {
    let mut words = Vec::new(alloc);
    for word in line.split(' ') {
        words.push(String::from_str(alloc, word)?)?;
    }
    Ok(words)
}
