//! What words of a form say: `clap` takes them or not, and each argument has its text.

ghost use Rattle.std.specs.Prelude.{◌≡◌, ◌≢◌, Err, IfOk, None, Some, map, option_map, string_bytes};
ghost use Rattle.clap.specs.Words.{found_of, kind_of};
ghost use Rattle.clap.specs.declared.error.kind.ErrorKind.TheVariants.{OutOfMemory};
ghost use Rattle.clu_words.specs.Reading.{is_true, said, said_of, values_in};

use crate::form::{Form, form_command};
use clap::error::ErrorKind;
use clap::{ArgMatches, Error};
use std::alloc::Global;

/// Why no command was read.
#[derive(Clone, Copy, Debug)]
pub enum WordsError {
    /// The words are no command.
    Usage,
    /// Memory was refused.
    Memory,
}

/// The texts of the words: positional words in order, the values of options, and flags.
#[derive(Clone, Copy)]
pub struct Texts<'a> {
    pub first: Option<&'a str>,
    pub second: Option<&'a str>,
    pub third: Option<&'a str>,
    pub steps: Option<&'a str>,
    pub store: Option<&'a str>,
    pub stack: Option<&'a str>,
    pub peep: bool,
    pub trace: bool,
}

/// Reads the words after a command's name. `Usage` comes exactly where they are not of the form.
pub fn read<'a>(alloc: Global, form: Form, words: &'a [String]) -> Result<Texts<'a>, WordsError>
    ensures ok { IfOk result (λ texts. said form (map string_bytes words.now) ≡ Some (said_of texts)) }
    ensures usage { result ≡ Err WordsError.Usage → said form (map string_bytes words.now) ≡ None }
{
    match form_command(alloc, form) {
        Ok(command) => match command.try_get_matches_from(words) {
            Ok(matches) => Ok(values(&matches)),
            Err(error) => Err(refusal(error)),
        },
        Err(_) => Err(WordsError::Memory),
    }
}

fn values<'a>(matches: &ArgMatches<'a>) -> Texts<'a>
    ensures { said_of result ≡ values_in (found_of matches.now) }
{
    Texts {
        first: matches.get_str("first"),
        second: matches.get_str("second"),
        third: matches.get_str("third"),
        steps: matches.get_str("steps"),
        store: matches.get_str("store"),
        stack: matches.get_str("stack"),
        peep: is_set(matches.get_str("peep")),
        trace: is_set(matches.get_str("trace")),
    }
}

fn is_set(value: Option<&str>) -> bool
    ensures { result ≡ is_true (option_map (λ text. text.now) value.entry) }
{
    match value {
        Some(text) => text == "true",
        None => false,
    }
}

fn refusal(error: Error) -> WordsError
    ensures { result ≡ WordsError.Usage → kind_of error ≢ OutOfMemory }
{
    match error.kind() {
        ErrorKind::OutOfMemory => WordsError::Memory,
        _ => WordsError::Usage,
    }
}
