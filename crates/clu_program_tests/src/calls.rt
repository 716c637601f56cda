//! Rows of single calls, and of programs.

use crate::op_helpers::HELPERS;
use crate::outside::{IMAGE, Outside};
use clu_image::load;
use clu_rows::{bytes_of, number_at, parts};
use std::alloc::Global;
use std::fmt::Write;
use std::test::Fail;

/// Appends a text: `@` begins the writing of a line and `#` the text of a number.
pub fn put_long(text: &mut String, short: &str) -> Result<(), Fail> {
    for letter in short.chars() {
        match letter {
            '@' => text.push_str("stream$putl(stream$primary_output(), ")?,
            '#' => text.push_str("int$unparse(")?,
            other => text.push(other)?,
        }
    }
    Ok(())
}

/// The content of a file that a row writes short, or by its bytes after `0x`.
fn content_of(alloc: Global, short: &str) -> Result<Vec<u8>, Fail> {
    if let Some(digits) = short.strip_prefix("0x ") {
        return Ok(bytes_of(alloc, digits)?);
    }
    let mut text = String::new(alloc);
    put_long(&mut text, short)?;
    Ok(text.as_bytes().to_vec(alloc)?)
}

/// Writes the status, the output and the errors of a call: of a row of its words, the input, what fails and the file.
pub fn put_call(alloc: Global, found: &mut String, row: &str) -> Result<(), Fail> {
    let mut parts = row.split('\t');
    let words = parts.next().unwrap_or("");
    let input = parts.next().unwrap_or("");
    let faults = parts.next().unwrap_or("");
    let content = content_of(alloc, parts.last().unwrap_or(""))?;
    let mut outside = Outside::new(alloc, input.as_bytes(), content.as_slice(), faults)?;
    let status = outside.call(alloc, words)?;
    if matches!(status, 2 | 10..=21 | 25..=31) && outside.files.file(IMAGE).is_some() {
        return Err("a refused call puts no file")?;
    }
    Ok(write!(found, "{status}\t{}\t{}", outside.written(), outside.told())?)
}

/// Writes what a program writes that comes to status 0: of a row of its name, the input and the source.
pub fn put_example(alloc: Global, found: &mut String, row: &str) -> Result<(), Fail> {
    let (_, rest) = row.split_once('\t').unwrap_or(("", ""));
    let (input, source) = rest.split_once('\t').unwrap_or(("", ""));
    let mut outside = Outside::new(alloc, input.as_bytes(), source.as_bytes(), "")?;
    if outside.call(alloc, "go a b")? != 0 {
        return Err("the program fails")?;
    }
    Ok(found.push_str(outside.written())?)
}

/// What a source writes, and after it what stands on the errors.
fn put_run(alloc: Global, found: &mut String, words: &str, short: &str) -> Result<(), Fail> {
    let content = content_of(alloc, short)?;
    let input = b"abcdefghij\n\n\nlast one";
    let mut outside = Outside::new(alloc, input, content.as_slice(), "")?;
    let _status = outside.call(alloc, words)?;
    found.push_str(outside.written())?;
    Ok(found.push_str(outside.told())?)
}

/// What stands after the expression of a line: the exceptions become strings.
const BEHIND: &str = ") except when failure (fa: string): @\"failure: \" || fa) \
    when not_possible (np: string): @\"not_possible: \" || np) others (ot: string): @ot) end\n";

/// Writes `kept` if a program writes the values of its lines, which are declarations, and expressions with their values. A line
/// that begins with a tab has more of a value.
pub fn put_group(alloc: Global, found: &mut String, row: &str) -> Result<(), Fail> {
    let mut lines = row.lines();
    let declarations = lines.next().unwrap_or("");
    let mut source = format!(in alloc; "{HELPERS}start_up = proc () {declarations}\n")?;
    let mut due = String::new(alloc);
    for line in lines {
        let (expression, value) = line.split_once('\t').unwrap_or(("no value", ""));
        writeln!(due, "{value}")?;
        if !expression.is_empty() {
            write!(source, "@{expression}{BEHIND}")?;
        }
    }
    source.push_str("end start_up")?;
    put_run(alloc, found, "go a b", source.as_str())?;
    if found.as_str() == due.as_str() {
        found.clear();
        found.push_str("kept")?;
    }
    Ok(())
}

/// Writes how often statements are done until a store of 512 words is full, after the declarations before them.
pub fn put_cost(alloc: Global, found: &mut String, row: &str) -> Result<(), Fail> {
    let (declarations, statements) = row.split_once('\t').unwrap_or((row, ""));
    let source = format!(in alloc;
        "start_up = proc () {declarations} k: int := 0 while k < 600 do {statements} \
        stream$puts(stream$primary_output(), \".\") k := k + 1 end end start_up"
    )?;
    let mut text = String::new(alloc);
    put_run(alloc, &mut text, "go --store 4096 a b", source.as_str())?;
    Ok(write!(
        found,
        "{}",
        text.as_str().split('.').count().saturating_sub(1)
    )?)
}

/// Writes whether the image of a source has at most so many words of code: of a row of this number and the source.
pub fn put_large(alloc: Global, found: &mut String, row: &str) -> Result<(), Fail> {
    let (most, source) = parts(row);
    let content = content_of(alloc, source)?;
    let mut outside = Outside::new(alloc, b"", content.as_slice(), "")?;
    if outside.call(alloc, "go a b")? != 0 {
        return Err("the program fails")?;
    }
    let image = load(alloc, outside.files.file(IMAGE).unwrap_or(b""))?;
    let count = image.code.as_slice().len();
    if count as u64 <= number_at(most, 0) {
        return Ok(found.push_str("kept")?);
    }
    Ok(write!(found, "{count} words")?)
}
