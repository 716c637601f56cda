//! What comes of a check: the first refusal of a source, or what an accepted one shows.

use clu_base::{Place, Rule};
use clu_check_mod::{CheckError, check, named, specs_of};
use clu_core::Checked;
use clu_lexer::{LexError, lex};
use clu_library::is_whole;
use clu_parser::{ParseError, parse};
use clu_specs::spec_text;
use clu_syntax::Syntax;
use clu_types::{Spec, Specs};
use std::alloc::Global;
use std::fmt::Write;
use std::test::Fail;

/// The most bytes of a source.
const SOURCE_LIMIT: usize = 1_048_576;

fn put_refusal(found: &mut String, rule: Rule, place: Place) -> Result<(), Fail> {
    Ok(write!(found, "{}:{}:V{}", place.line, place.col, rule.number())?)
}

/// The syntax of a source; if it has none, writes why.
fn syntax_of(
    alloc: Global,
    found: &mut String,
    source: &[u8],
) -> Result<Option<Box<Syntax>>, Fail> {
    if source.len() > SOURCE_LIMIT {
        return Err("too long")?;
    }
    let tokens = match lex(alloc, source) {
        Ok(tokens) => tokens,
        Err(LexError::Token(place)) => {
            put_refusal(found, Rule::Token, place)?;
            return Ok(None);
        }
        Err(LexError::Memory) => return Err("out of memory")?,
    };
    match parse(alloc, source, tokens.as_slice()) {
        Ok(tree) => return Ok(Some(Box::new(alloc, Syntax::new(tree))?)),
        Err(ParseError::Syntax(place)) => put_refusal(found, Rule::Syntax, place)?,
        Err(ParseError::TooDeep(place)) => put_refusal(found, Rule::TooDeep, place)?,
        Err(ParseError::Memory) => return Err("out of memory")?,
    }
    Ok(None)
}

fn put_error(found: &mut String, error: CheckError) -> Result<(), Fail> {
    match error {
        CheckError::Refused(how) => put_refusal(found, how.rule, how.place),
        CheckError::Memory => Err("out of memory")?,
        CheckError::NotYet => Err("not yet")?,
    }
}

/// What is found of a source that no rule refuses under specifications; if there is none, writes the first refusal.
fn checked_of(
    alloc: Global,
    found: &mut String,
    source: &str,
    kept: &Specs,
) -> Result<Option<Box<Checked>>, Fail> {
    let Some(syntax) = syntax_of(alloc, found, source.as_bytes())? else {
        return Ok(None);
    };
    match check(alloc, Box::into_inner(syntax), kept) {
        Ok(checked) => Ok(Some(checked)),
        Err(error) => {
            put_error(found, error)?;
            Ok(None)
        }
    }
}

/// Writes the first refusal of a source, or `ok`.
pub fn put_rule(alloc: Global, found: &mut String, source: &str) -> Result<(), Fail> {
    let none = Box::new(alloc, Specs::new(alloc))?;
    match checked_of(alloc, found, source, &none)? {
        Some(_) => Ok(found.push_str("ok")?),
        None => Ok(()),
    }
}

/// Appends the texts of specifications, each in a line.
fn put_specs(alloc: Global, found: &mut String, specs: &[Spec]) -> Result<(), Fail> {
    for spec in specs {
        if !is_whole(spec) {
            return Err("a specification with types of others")?;
        }
        let text = spec_text(alloc, spec)?;
        writeln!(found, "{}", str::from_utf8(text.as_slice()).unwrap_or("?"))?;
    }
    Ok(())
}

/// Writes the specifications that the headings of a source have alone, or their first refusal. The same come of the whole source,
/// if it is accepted.
pub fn put_texts(alloc: Global, found: &mut String, source: &str) -> Result<(), Fail> {
    let none = Box::new(alloc, Specs::new(alloc))?;
    let Some(syntax) = syntax_of(alloc, found, source.as_bytes())? else {
        return Ok(());
    };
    match specs_of(alloc, &syntax, &none) {
        Ok(specs) => put_specs(alloc, found, specs.as_slice())?,
        Err(error) => put_error(found, error)?,
    }
    let mut whole = String::new(alloc);
    match &checked_of(alloc, &mut whole, source, &none)? {
        Some(checked) => put_specs(alloc, &mut whole, checked.specs.as_slice())?,
        None => return Ok(()),
    }
    if whole.as_str() != found.as_str() {
        return Err("other specifications of the headings alone")?;
    }
    Ok(())
}

/// Writes the first refusal of the headings of a source, or `ok`.
pub fn put_headings(alloc: Global, found: &mut String, source: &str) -> Result<(), Fail> {
    let none = Box::new(alloc, Specs::new(alloc))?;
    let Some(syntax) = syntax_of(alloc, found, source.as_bytes())? else {
        return Ok(());
    };
    match specs_of(alloc, &syntax, &none) {
        Ok(_) => Ok(found.push_str("ok")?),
        Err(error) => put_error(found, error),
    }
}

fn add_specs(kept: &mut Specs, specs: Vec<Spec>) -> Result<(), Fail> {
    for spec in specs {
        kept.with(spec)?;
    }
    Ok(())
}

/// The specifications of `q` and `r`.
fn kept(alloc: Global, found: &mut String) -> Result<Box<Specs>, Fail> {
    let source = b"r = proc () end r q = proc (x: int) end q";
    let mut kept = Box::new(alloc, Specs::new(alloc))?;
    if let Some(syntax) = syntax_of(alloc, found, source)? {
        let none = Box::new(alloc, Specs::new(alloc))?;
        let specs = specs_of(alloc, &syntax, &none)?;
        add_specs(&mut kept, specs)?;
    }
    Ok(kept)
}

/// Writes the first refusal of a source under those, or `ok` and the names of its specifications.
pub fn put_under(alloc: Global, found: &mut String, source: &str) -> Result<(), Fail> {
    let kept = kept(alloc, found)?;
    if let Some(checked) = checked_of(alloc, found, source, &kept)? {
        found.push_str("ok")?;
        for spec in checked.specs.as_slice() {
            write!(
                found,
                " {}",
                str::from_utf8(spec.name.as_slice()).unwrap_or("?")
            )?;
        }
    }
    Ok(())
}

/// Writes the modules that the text of the first module of a source names.
pub fn put_named(alloc: Global, found: &mut String, source: &str) -> Result<(), Fail> {
    let none = Box::new(alloc, Specs::new(alloc))?;
    if let Some(checked) = checked_of(alloc, found, source, &none)? {
        if let Some(names) = named(alloc, checked.syntax.tree())?.first() {
            for name in names.as_slice() {
                write!(found, " {}", str::from_utf8(name.as_slice()).unwrap_or("?"))?;
            }
        }
    }
    Ok(())
}
