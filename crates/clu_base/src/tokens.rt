//! Places in a source file and its tokens (CLU Reference Manual, section 5, "Notation and
//! lexical considerations").

/// A line and a column of a source file, both from 1. Columns count bytes. The place of the end
/// of a file is the one after its last byte.
#[derive(Clone, Copy, Debug, PartialEq, Eq)]
pub struct Place {
    pub line: u32,
    pub col: u32,
}

/// What a token is.
#[derive(Clone, Copy, Debug)]
pub enum Kind {
    /// A reserved word, in letters of either case.
    Word,
    /// An identifier.
    Idn,
    /// An integer literal.
    Int,
    /// A real literal.
    Real,
    /// A character literal.
    Char,
    /// A string literal.
    Str,
    /// An operator or a mark of punctuation.
    Mark,
}

/// A token: the bytes of the source from `start` up to and not including `end`.
#[derive(Clone, Copy)]
pub struct Token {
    pub kind: Kind,
    pub start: u32,
    pub end: u32,
    pub place: Place,
}
