//! Commands of which each write and each store call fails in turn, and commands that are one session.

use crate::outside::{IMAGE, Outside, words_of};
use clu_base::{MemSink, Store};
use clu_rows::bytes_of;
use std::alloc::Global;
use std::fmt::Write;
use std::test::Fail;

/// The sources, which calls 0 to 3 of the store put.
static SOURCES: [(&str, &str); 4] = [
    ("p", "p = proc () q() end p"),
    (
        "q",
        "q = proc () stream$putl(stream$primary_output(), \"q\") end q",
    ),
    ("r", "q = proc (x: int) end q"),
    (
        "n",
        "q = proc () stream$putl(stream$primary_output(), \"new\") end q",
    ),
];

/// Commands that come to status 0 if no call fails. All have the library as their second word.
static COMMANDS: [&str; 8] = [
    "spec L q",
    "compile L p",
    "compile L q",
    "link L g p",
    "run L g",
    "compile L n",
    "replace L r",
    "xref L",
];

/// How many calls of the store these make.
const CALLS: u64 = 19;

/// An outside with the sources, whose store call of this number fails; if it is a put it leaves so many bytes.
fn with_sources(alloc: Global, calls: Vec<u64>, torn: usize) -> Result<Box<Outside>, Fail> {
    let mut outside = Outside::failing(alloc, b"", "", calls, torn)?;
    for (name, source) in &SOURCES {
        outside.files.put(alloc, *name, source.as_bytes())?;
    }
    Ok(outside)
}

/// Whether a library is as it was, or has the first bytes of another one.
fn is_left(before: &[u8], after: &[u8], torn: usize) -> bool {
    before == after || after.len() == torn && b"CLUL\x02\0\0\0".starts_with(after)
}

/// Does the commands until one tells that a file failed; whether one did, and left the library as it should. Done again it comes
/// to status 0, if the library is as it was.
fn fails_well(alloc: Global, call: u64, torn: usize) -> Result<bool, Fail> {
    let mut outside = with_sources(alloc, vec![in alloc; call]?, torn)?;
    for words in &COMMANDS {
        let before = outside.files.file("L").unwrap_or(b"").to_vec(alloc)?;
        let status = outside.call(alloc, *words)?;
        if status == 24 {
            let after = outside.files.file("L").unwrap_or(b"").to_vec(alloc)?;
            let again = outside.call(alloc, *words)?;
            let is_same = before == after;
            return Ok(is_left(&before, &after, torn) && (!is_same || again == 0));
        }
        if status != 0 {
            return Err("another status than is due")?;
        }
    }
    Ok(false)
}

#[test]
fn each_store_call_fails_in_turn(rt: HostRuntime) -> Result<(), Fail> {
    let mut bad = String::new(rt.alloc());
    for call in 4..4 + CALLS {
        let none = fails_well(rt.alloc(), call, 0)?;
        let some = fails_well(rt.alloc(), call, 7)?;
        if !none || !some {
            write!(bad, " {call}")?;
        }
    }
    assert_eq!(rt; bad.as_str(), "");
    Ok(())
}

/// An image that writes `hi` and the end of a line.
const HI_IMAGE: &str =
    "43 4c 55 49 01 00 00 00 00 00 00 00 07 00 00 00 08 00 00 00 93 08 40 00 37 05 01 00 13 05 05 02 \
    93 05 30 00 73 00 00 00 93 08 00 00 73 00 00 00 68 69 0a 00 00 00 00 00";

/// Writes the status of `exec` of it and its output if the write of this number fails, in pieces of this size.
fn put_fault(alloc: Global, found: &mut String, piece: usize, failing: u64) -> Result<(), Fail> {
    let image = bytes_of(alloc, HI_IMAGE)?;
    let mut outside = Outside::new(alloc, b"", image.as_slice(), "")?;
    outside.output = MemSink::new(alloc, 1024, piece.max(1), vec![in alloc; failing]?)?;
    let status = outside.call(alloc, "exec a")?;
    Ok(write!(found, " {status} {}", outside.written())?)
}

#[test]
fn each_write_fails_in_turn(rt: HostRuntime) -> Result<(), Fail> {
    let mut found = String::new(rt.alloc());
    for (piece, failing) in [(64, 0), (1, 0), (1, 1), (1, 2)] {
        put_fault(rt.alloc(), &mut found, piece, failing)?;
    }
    assert_eq!(rt; found.as_str(), " 23  23  23 h 23 hi");
    Ok(())
}

/// The put of the image fails and leaves five bytes.
#[test]
fn a_put_that_fails(rt: HostRuntime) -> Result<(), Fail> {
    let source = b"start_up = proc () end start_up";
    let mut outside = Outside::new(rt.alloc(), b"", source, "put")?;
    let status = outside.call(rt.alloc(), "go a b")?;
    let is_torn = outside.files.file(IMAGE) == Some(b"CLUI\x02".as_slice());
    assert!(rt; status == 24 && is_torn, "{status}");
    Ok(())
}

/// The words of calls one after the other, and what comes of them.
static RUNS: [(&str, u8); 12] = [
    ("spec L q", 0),
    ("compile L p", 0),
    ("link L g p", 15),
    ("compile L q", 0),
    ("link L g p", 0),
    ("run L g", 0),
    ("run L h", 19),
    ("compile L r", 13),
    ("compile L q", 0),
    ("run L g", 0),
    ("compile L n", 0),
    ("run L g", 19),
];

/// What all of them write and tell.
const WRITTEN: &str =
    "q\nq\nno body: q\nno program: h\nspec differs: q\nq=proc()\nq=proc(int)\nno program: g\n";

/// Writes what one session of these calls writes and tells, if their statuses are due.
fn put_runs(alloc: Global, found: &mut String) -> Result<(), Fail> {
    let mut outside = with_sources(alloc, Vec::new(alloc), 0)?;
    let mut runs = Vec::new(alloc);
    let mut due = Vec::new(alloc);
    for (line, status) in &RUNS {
        runs.push(words_of(alloc, *line)?)?;
        due.push(*status)?;
    }
    let statuses = outside.session(alloc, &runs)?;
    if statuses.as_slice() != due.as_slice() {
        return Err("other statuses")?;
    }
    Ok(write!(found, "{}{}", outside.written(), outside.told())?)
}

#[test]
fn calls_one_after_the_other(rt: HostRuntime) -> Result<(), Fail> {
    let mut found = String::new(rt.alloc());
    put_runs(rt.alloc(), &mut found)?;
    assert_eq!(rt; found.as_str(), WRITTEN);
    Ok(())
}

/// Writes what the source of `gen 4` writes as a program.
fn put_generated(alloc: Global, found: &mut String) -> Result<(), Fail> {
    let mut first = Outside::new(alloc, b"", b"", "")?;
    let made = first.call(alloc, "gen 4")?;
    let mut second = Outside::new(alloc, b"", first.output.bytes(), "")?;
    let run = second.call(alloc, "go a b")?;
    Ok(write!(found, "{made} {run} {}", second.written())?)
}

#[test]
fn a_generated_source(rt: HostRuntime) -> Result<(), Fail> {
    let mut found = String::new(rt.alloc());
    put_generated(rt.alloc(), &mut found)?;
    assert_eq!(rt; found.as_str(), "0 0 971491\n");
    Ok(())
}
