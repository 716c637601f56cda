//! The commands of the program and what their words tell them.

ghost use Rattle.std.specs.Prelude.{◌≡◌, ◌≤◌, ◌%◌, ◌<◌, Err, IfOk, None, Some, map, option_and_then, option_map, string_bytes};
ghost use Rattle.clu_words.specs.Command.{command_of, limit_of, limits_of, meaning_of, meant, program_name_of, seen_limits};
ghost use Rattle.clu_words.specs.Reading.{said, said_of};
ghost use Rattle.clu_words.specs.Names.{form_of};

use crate::limits::RunLimits;
use crate::names::Name;
use crate::number::number_within;
use crate::reading::{Texts, WordsError, read};
use std::alloc::Global;

/// A command line, read. A file is named as the words name it.
#[derive(Clone, Copy)]
pub enum Command<'a> {
    /// Check a source, link it, put its image and run it.
    Go {
        file: &'a str,
        image: &'a str,
        limits: RunLimits,
        peep: bool,
        trace: bool,
    },
    /// Enter the specifications of a source into a library.
    Spec {
        library: &'a str,
        file: &'a str,
    },
    /// Enter them in place of the kept ones.
    Replace {
        library: &'a str,
        file: &'a str,
    },
    /// Check a source under a library and enter its objects.
    Compile {
        library: &'a str,
        file: &'a str,
        peep: bool,
    },
    /// Link a program from a module, whose name is taken in lower case.
    Link {
        library: &'a str,
        program: &'a str,
        start: &'a str,
    },
    /// Run a program of a library.
    Run {
        library: &'a str,
        program: &'a str,
        limits: RunLimits,
    },
    /// Run an image.
    Exec {
        image: &'a str,
        limits: RunLimits,
    },
    /// Write a large source of so many procedures.
    Gen {
        procedures: u64,
    },
    /// Write the assembly text of an image.
    List {
        image: &'a str,
    },
    /// Read assembly text and put its image.
    Asm {
        file: &'a str,
        image: &'a str,
    },
    /// Write a source in its one layout.
    Print {
        file: &'a str,
    },
    /// Write which modules name which.
    Xref {
        library: &'a str,
    },
}

/// Reads the words of the command line, without the program's own name. `Usage` comes exactly
/// where they are no command.
#[tactic(auto, unfolding(crate::specs::Command::command_of))]
pub fn read_command<'a>(alloc: Global, words: &'a [String]) -> Result<Command<'a>, WordsError>
    ensures ok { IfOk result (λ c. command_of (map string_bytes words.now) ≡ Some (meant c)) }
    ensures usage { result ≡ Err WordsError.Usage → command_of (map string_bytes words.now) ≡ None }
{
    match words {
        [] => Err(WordsError::Usage),
        [first, rest @ ..] => match Name::of(first.as_str()) {
            Some(name) => named_command(alloc, name, rest),
            None => Err(WordsError::Usage),
        },
    }
}

// The command of this name with these words after it.
fn named_command<'a>(
    alloc: Global,
    name: Name,
    words: &'a [String],
) -> Result<Command<'a>, WordsError>
    ensures ok { IfOk result (λ c. option_and_then (meaning_of name) (said (form_of name) (map string_bytes words.now)) ≡ Some (meant c)) }
    ensures usage { result ≡ Err WordsError.Usage → option_and_then (meaning_of name) (said (form_of name) (map string_bytes words.now)) ≡ None }
{
    match read(alloc, name.form(), words) {
        Ok(texts) => match meaning(name, texts) {
            Some(command) => Ok(command),
            None => Err(WordsError::Usage),
        },
        Err(error) => Err(error),
    }
}

// What the texts of a command's words tell it; None where one is out of its bounds.
fn meaning<'a>(name: Name, texts: Texts<'a>) -> Option<Command<'a>>
    ensures { option_map meant result ≡ meaning_of name (said_of texts.entry) }
{
    let first = texts.first?;
    match name {
        Name::Go => Some(Command::Go {
            file: first,
            image: texts.second?,
            limits: limits(texts)?,
            peep: texts.peep,
            trace: texts.trace,
        }),
        Name::Spec => Some(Command::Spec {
            library: first,
            file: texts.second?,
        }),
        Name::Replace => Some(Command::Replace {
            library: first,
            file: texts.second?,
        }),
        Name::Compile => Some(Command::Compile {
            library: first,
            file: texts.second?,
            peep: texts.peep,
        }),
        Name::Link => Some(Command::Link {
            library: first,
            program: program_name(texts.second?)?,
            start: texts.third?,
        }),
        Name::Run => Some(Command::Run {
            library: first,
            program: program_name(texts.second?)?,
            limits: limits(texts)?,
        }),
        Name::Exec => Some(Command::Exec {
            image: first,
            limits: limits(texts)?,
        }),
        Name::Gen => Some(Command::Gen {
            procedures: number_within(first, 1, 500)?,
        }),
        Name::List => Some(Command::List { image: first }),
        Name::Asm => Some(Command::Asm {
            file: first,
            image: texts.second?,
        }),
        Name::Print => Some(Command::Print { file: first }),
        Name::Xref => Some(Command::Xref { library: first }),
    }
}

// The name of a program has 1 to 200 bytes.
fn program_name(text: &str) -> Option<&str>
    ensures { option_map (λ t. t.now) result ≡ program_name_of text.now }
{
    if text.is_empty() || text.len() > 200 {
        None
    } else {
        Some(text)
    }
}

fn limits(texts: Texts<'_>) -> Option<RunLimits>
    ensures { option_map seen_limits result ≡ limits_of (said_of texts.entry) }
{
    let steps = limit(texts.steps, 1, 1_000_000_000_000_000, 1, 1_000_000_000)?;
    let store = limit(texts.store, 4096, 268_435_456, 16, 16_777_216)?;
    let stack = limit(texts.stack, 4096, 67_108_864, 16, 1_048_576)?;
    Some(RunLimits {
        steps,
        store,
        stack,
    })
}

// The number that an option gives, a multiple of the unit within the bounds, or its default.
fn limit(text: Option<&str>, least: u64, most: u64, unit: u64, default: u64) -> Option<u64>
    requires unit { 0 < unit }
    ensures { result ≡ limit_of least most unit default (option_map (λ t. t.now) text.entry) }
{
    match text {
        None => Some(default),
        Some(text) => {
            let n = number_within(text, least, most)?;
            if n % unit == 0 { Some(n) } else { None }
        }
    }
}
