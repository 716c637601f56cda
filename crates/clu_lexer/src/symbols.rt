//! Symbols: what a token is to the grammar. Each reserved word and each mark is a symbol of its
//! own; all identifiers are one, and so are all literals of a kind.

ghost use Rattle.std.specs.Prelude.{◌≡◌, map};
ghost use Rattle.clu_lexer.specs.Symbols.{spells, symbol_named};
ghost use Rattle.clu_lexer.specs.Words.{symbol_of};

use clu_base::Kind;

/// What a token is to the grammar.
#[derive(Clone, Copy, PartialEq)]
pub enum Symbol {
    /// `any`
    Any,
    /// `array`
    Array,
    /// `begin`
    Begin,
    /// `bool`
    Bool,
    /// `break`
    Break,
    /// `cand`
    Cand,
    /// `char`
    Char,
    /// `cluster`
    Cluster,
    /// `continue`
    Continue,
    /// `cor`
    Cor,
    /// `cvt`
    Cvt,
    /// `do`
    Do,
    /// `down`
    Down,
    /// `else`
    Else,
    /// `elseif`
    Elseif,
    /// `end`
    End,
    /// `except`
    Except,
    /// `exit`
    Exit,
    /// `false`
    False,
    /// `for`
    For,
    /// `force`
    Force,
    /// `has`
    Has,
    /// `if`
    If,
    /// `in`
    In,
    /// `int`
    Int,
    /// `is`
    Is,
    /// `iter`
    Iter,
    /// `itertype`
    Itertype,
    /// `nil`
    Nil,
    /// `null`
    Null,
    /// `oneof`
    Oneof,
    /// `others`
    Others,
    /// `own`
    Own,
    /// `proc`
    Proc,
    /// `proctype`
    Proctype,
    /// `real`
    Real,
    /// `record`
    Record,
    /// `rep`
    Rep,
    /// `resignal`
    Resignal,
    /// `return`
    Return,
    /// `returns`
    Returns,
    /// `sequence`
    Sequence,
    /// `signal`
    Signal,
    /// `signals`
    Signals,
    /// `string`
    String,
    /// `struct`
    Struct,
    /// `tag`
    Tag,
    /// `tagcase`
    Tagcase,
    /// `then`
    Then,
    /// `true`
    True,
    /// `type`
    TypeWord,
    /// `up`
    Up,
    /// `variant`
    Variant,
    /// `when`
    When,
    /// `where`
    Where,
    /// `while`
    While,
    /// `yield`
    Yield,
    /// `yields`
    Yields,
    /// `(`
    LeftParen,
    /// `)`
    RightParen,
    /// `[`
    LeftBracket,
    /// `]`
    RightBracket,
    /// `{`
    LeftBrace,
    /// `}`
    RightBrace,
    /// `,`
    Comma,
    /// `:`
    Colon,
    /// `;`
    Semicolon,
    /// `.`
    Point,
    /// `$`
    Dollar,
    /// `:=`
    Assign,
    /// `=`
    Equal,
    /// `<`
    Less,
    /// `<=`
    AtMost,
    /// `>`
    Greater,
    /// `>=`
    AtLeast,
    /// `~`
    Tilde,
    /// `~=`
    NotEqual,
    /// `~<`
    NotLess,
    /// `~<=`
    NotAtMost,
    /// `~>`
    NotGreater,
    /// `~>=`
    NotAtLeast,
    /// `+`
    Plus,
    /// `-`
    Minus,
    /// `*`
    Star,
    /// `**`
    Power,
    /// `/`
    Slash,
    /// `//`
    Remainder,
    /// `||`
    Concat,
    /// `|`
    Bar,
    /// `&`
    And,
    /// An identifier.
    Idn,
    IntLiteral,
    RealLiteral,
    CharLiteral,
    StringLiteral,
    /// A text that is no word and no mark of the grammar; no token has it.
    Unknown,
}

/// The reserved words. Those that sources have most come first, where a search begins; the others are in the order of the alphabet.
pub const WORDS: [(&[u8], Symbol); 58] = [
    (b"int", Symbol::Int),
    (b"end", Symbol::End),
    (b"if", Symbol::If),
    (b"then", Symbol::Then),
    (b"return", Symbol::Return),
    (b"do", Symbol::Do),
    (b"else", Symbol::Else),
    (b"bool", Symbol::Bool),
    (b"string", Symbol::String),
    (b"proc", Symbol::Proc),
    (b"for", Symbol::For),
    (b"in", Symbol::In),
    (b"while", Symbol::While),
    (b"begin", Symbol::Begin),
    (b"any", Symbol::Any),
    (b"array", Symbol::Array),
    (b"break", Symbol::Break),
    (b"cand", Symbol::Cand),
    (b"char", Symbol::Char),
    (b"cluster", Symbol::Cluster),
    (b"continue", Symbol::Continue),
    (b"cor", Symbol::Cor),
    (b"cvt", Symbol::Cvt),
    (b"down", Symbol::Down),
    (b"elseif", Symbol::Elseif),
    (b"except", Symbol::Except),
    (b"exit", Symbol::Exit),
    (b"false", Symbol::False),
    (b"force", Symbol::Force),
    (b"has", Symbol::Has),
    (b"is", Symbol::Is),
    (b"iter", Symbol::Iter),
    (b"itertype", Symbol::Itertype),
    (b"nil", Symbol::Nil),
    (b"null", Symbol::Null),
    (b"oneof", Symbol::Oneof),
    (b"others", Symbol::Others),
    (b"own", Symbol::Own),
    (b"proctype", Symbol::Proctype),
    (b"real", Symbol::Real),
    (b"record", Symbol::Record),
    (b"rep", Symbol::Rep),
    (b"resignal", Symbol::Resignal),
    (b"returns", Symbol::Returns),
    (b"sequence", Symbol::Sequence),
    (b"signal", Symbol::Signal),
    (b"signals", Symbol::Signals),
    (b"struct", Symbol::Struct),
    (b"tag", Symbol::Tag),
    (b"tagcase", Symbol::Tagcase),
    (b"true", Symbol::True),
    (b"type", Symbol::TypeWord),
    (b"up", Symbol::Up),
    (b"variant", Symbol::Variant),
    (b"when", Symbol::When),
    (b"where", Symbol::Where),
    (b"yield", Symbol::Yield),
    (b"yields", Symbol::Yields),
];

/// The marks; those that sources have most come first.
pub const MARKS: [(&[u8], Symbol); 32] = [
    (b"(", Symbol::LeftParen),
    (b")", Symbol::RightParen),
    (b",", Symbol::Comma),
    (b":", Symbol::Colon),
    (b":=", Symbol::Assign),
    (b"+", Symbol::Plus),
    (b"-", Symbol::Minus),
    (b"*", Symbol::Star),
    (b"=", Symbol::Equal),
    (b"<", Symbol::Less),
    (b"[", Symbol::LeftBracket),
    (b"]", Symbol::RightBracket),
    (b"$", Symbol::Dollar),
    (b".", Symbol::Point),
    (b"//", Symbol::Remainder),
    (b">", Symbol::Greater),
    (b"<=", Symbol::AtMost),
    (b">=", Symbol::AtLeast),
    (b"~=", Symbol::NotEqual),
    (b"~", Symbol::Tilde),
    (b"||", Symbol::Concat),
    (b"/", Symbol::Slash),
    (b"**", Symbol::Power),
    (b"&", Symbol::And),
    (b"|", Symbol::Bar),
    (b"{", Symbol::LeftBrace),
    (b"}", Symbol::RightBrace),
    (b";", Symbol::Semicolon),
    (b"~<", Symbol::NotLess),
    (b"~<=", Symbol::NotAtMost),
    (b"~>", Symbol::NotGreater),
    (b"~>=", Symbol::NotAtLeast),
];

/// Whether the text is the word, in letters of either case.
fn spells(word: &[u8], text: &[u8]) -> bool
    ensures { result ≡ spells word.now text.now }
{
    match word {
        [] => match text {
            [] => true,
            [_, ..] => false,
        },
        [w, word @ ..] => match text {
            [] => false,
            [t, text @ ..] => *w == t.to_ascii_lowercase() && spells(word, text),
        },
    }
}

/// The same; texts of other lengths or with another first letter, which are most, are not looked into.
fn is_spelled(word: &[u8], text: &[u8]) -> bool
    ensures { result ≡ spells word.now text.now }
{
    if word.len() != text.len() {
        return false;
    }
    match word {
        [] => true,
        [w, word @ ..] => match text {
            [] => false,
            [t, text @ ..] => *w == t.to_ascii_lowercase() && spells(word, text),
        },
    }
}

/// The symbol of the entry that the text spells.
pub fn symbol_named(table: &[(&[u8], Symbol)], text: &[u8]) -> Option<Symbol>
    ensures { result ≡ symbol_named (map (λ entry. (entry.0.now, entry.1)) table.now) text.now }
{
    for (word, symbol) in table {
        if is_spelled(word, text) {
            return Some(*symbol);
        }
    }
    None
}

/// What a token of this kind and text is to the grammar.
pub fn symbol_of(kind: Kind, text: &[u8]) -> Symbol
    ensures { result ≡ symbol_of kind text.now }
{
    match kind {
        Kind::Word => symbol_named(&WORDS, text).unwrap_or(Symbol::Unknown),
        Kind::Mark => symbol_named(&MARKS, text).unwrap_or(Symbol::Unknown),
        Kind::Idn => Symbol::Idn,
        Kind::Int => Symbol::IntLiteral,
        Kind::Real => Symbol::RealLiteral,
        Kind::Char => Symbol::CharLiteral,
        Kind::Str => Symbol::StringLiteral,
    }
}
