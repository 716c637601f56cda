//! The tables of rows are kept.

use crate::command_rows::{COMMANDS, COMMANDS_COUNT};
use crate::source_rows::{
    LITERALS, LITERALS_COUNT, PRINTED, PRINTED_COUNT, SOURCES, SOURCES_COUNT, TOKENS, TOKENS_COUNT,
};
use crate::sources::{put_bytes_of, put_command, put_source, put_tokens};
use crate::type_rows::{
    CARRIED, CARRIED_COUNT, HEADINGS, HEADINGS_COUNT, INCLUSIONS, INCLUSIONS_COUNT, SPECIFICATIONS,
    SPECIFICATIONS_COUNT, SUBSTITUTIONS, SUBSTITUTIONS_COUNT, TYPES, TYPES_COUNT, USES, USES_COUNT,
};
use crate::types::{
    put_carried, put_heading, put_inclusion, put_spec, put_substituted, put_type, put_use,
};
use clu_rows::{Rows, Table};
use std::alloc::Global;
use std::test::Fail;

/// What is asked of the rows of a table.
#[derive(Clone, Copy)]
enum Asked {
    /// The tokens of a source, or where none begins.
    Tokens,
    /// The bytes that the spelling of a literal denotes.
    Literals,
    /// Whether a source has a tree, or where it is refused.
    Sources,
    /// The printed text of a source.
    Printed,
    /// Whether words are a command.
    Commands,
    /// Where a specification is refused, or `ok`.
    Specification,
    /// Where a type is refused, or `ok`.
    Type,
    /// Where a use is refused, or `ok`.
    Use,
    /// Whether the first type is included in the second.
    Included,
    /// A type with the actual parameters of a use put in.
    Substituted,
    /// The same, of a type from another arena.
    Carried,
    /// The type of a built-in operation.
    Heading,
}

impl Table for Asked {
    fn put(self, alloc: Global, found: &mut String, given: &str) -> Result<(), Fail> {
        match self {
            Asked::Tokens => put_tokens(alloc, found, given.as_bytes()),
            Asked::Literals => put_bytes_of(alloc, found, given.as_bytes()),
            Asked::Sources => put_source(alloc, found, given.as_bytes(), false),
            Asked::Printed => put_source(alloc, found, given.as_bytes(), true),
            Asked::Commands => put_command(alloc, found, given),
            Asked::Specification => put_spec(alloc, found, given.as_bytes()),
            Asked::Type => put_type(alloc, found, given.as_bytes()),
            Asked::Use => put_use(alloc, found, given.as_bytes()),
            Asked::Included => put_inclusion(alloc, found, given),
            Asked::Substituted => put_substituted(alloc, found, given),
            Asked::Carried => put_carried(alloc, found, given),
            Asked::Heading => put_heading(alloc, found, given),
        }
    }
}

#[test]
fn sources_and_words(rt: HostRuntime) -> Result<(), Fail> {
    let mut rows = Rows::new(rt.alloc());
    rows.keep(Asked::Tokens, TOKENS, TOKENS_COUNT)?;
    rows.keep(Asked::Literals, LITERALS, LITERALS_COUNT)?;
    rows.keep(Asked::Sources, SOURCES, SOURCES_COUNT)?;
    rows.keep(Asked::Printed, PRINTED, PRINTED_COUNT)?;
    rows.keep(Asked::Commands, COMMANDS, COMMANDS_COUNT)?;
    rows.end()
}

#[test]
fn types_and_specifications(rt: HostRuntime) -> Result<(), Fail> {
    let mut rows = Rows::new(rt.alloc());
    rows.keep(Asked::Specification, SPECIFICATIONS, SPECIFICATIONS_COUNT)?;
    rows.keep(Asked::Type, TYPES, TYPES_COUNT)?;
    rows.keep(Asked::Use, USES, USES_COUNT)?;
    rows.keep(Asked::Included, INCLUSIONS, INCLUSIONS_COUNT)?;
    rows.keep(Asked::Substituted, SUBSTITUTIONS, SUBSTITUTIONS_COUNT)?;
    rows.keep(Asked::Carried, CARRIED, CARRIED_COUNT)?;
    rows.keep(Asked::Heading, HEADINGS, HEADINGS_COUNT)?;
    rows.end()
}
