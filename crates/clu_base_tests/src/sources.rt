//! What is read of sources, of the spellings of literals and of the words of commands.

use clu_base::Place;
use clu_lexer::{LexError, lex};
use clu_literal::{char_byte, string_bytes};
use clu_parser::{ParseError, parse};
use clu_printer::printed;
use clu_rows::put_bytes;
use clu_words::{WordsError, read_command};
use std::alloc::Global;
use std::fmt::Write;
use std::test::Fail;

/// The most bytes of a source.
const SOURCE_LIMIT: usize = 1_048_576;

fn put_place(found: &mut String, before: &str, place: Place) -> Result<(), Fail> {
    Ok(write!(found, "{before} {} {}", place.line, place.col)?)
}

/// Writes the tokens of a source, and the place of the last one if it doesn't stand in the first line, or where none begins.
pub fn put_tokens(alloc: Global, found: &mut String, source: &[u8]) -> Result<(), Fail> {
    if source.len() > SOURCE_LIMIT {
        return Err("too long")?;
    }
    match lex(alloc, source) {
        Ok(tokens) => {
            let mut last = Place { line: 1, col: 1 };
            for token in tokens.as_slice() {
                last = token.place;
                write!(found, " {:?} {} {}", token.kind, token.start, token.end)?;
            }
            if last.line > 1 {
                put_place(found, " at", last)?;
            }
            Ok(())
        }
        Err(LexError::Token(place)) => put_place(found, " none at", place),
        Err(LexError::Memory) => Err("out of memory")?,
    }
}

/// Writes the bytes that a spelling denotes.
pub fn put_bytes_of(alloc: Global, found: &mut String, spelling: &[u8]) -> Result<(), Fail> {
    if let [b'\'', ..] = spelling {
        return match char_byte(spelling) {
            Some(byte) => Ok(put_bytes(found, &[byte])?),
            None => Ok(found.push_str(" none")?),
        };
    }
    match string_bytes(alloc, spelling)? {
        Some(bytes) => Ok(put_bytes(found, bytes.as_slice())?),
        None => Ok(found.push_str(" none")?),
    }
}

/// Writes `a tree`, or the printed text, or where a source is refused.
pub fn put_source(
    alloc: Global,
    found: &mut String,
    source: &[u8],
    is_printed: bool,
) -> Result<(), Fail> {
    if source.len() > SOURCE_LIMIT {
        return Err("too long")?;
    }
    let tokens = lex(alloc, source)?;
    match parse(alloc, source, tokens.as_slice()) {
        Ok(tree) => {
            if !is_printed {
                return Ok(found.push_str(" a tree")?);
            }
            let text = printed(alloc, source, tokens.as_slice(), &tree)?;
            Ok(found.push_str(str::from_utf8(text.as_slice()).unwrap_or("?"))?)
        }
        Err(ParseError::Syntax(place)) => put_place(found, " none at", place),
        Err(ParseError::TooDeep(place)) => put_place(found, " too deep at", place),
        Err(ParseError::Memory) => Err("out of memory")?,
    }
}

/// Writes whether the words of a line are a command.
pub fn put_command(alloc: Global, found: &mut String, line: &str) -> Result<(), Fail> {
    let mut words = Vec::new(alloc);
    for word in line.split(' ') {
        if !word.is_empty() {
            words.push(String::from_str(alloc, word)?)?;
        }
    }
    match &read_command(alloc, words.as_slice()) {
        Ok(_) => Ok(found.push_str(" a command")?),
        Err(WordsError::Usage) => Ok(found.push_str(" usage")?),
        Err(WordsError::Memory) => Err("out of memory")?,
    }
}
