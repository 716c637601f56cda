//! The automaton that reads a token byte by byte, and with it the longest token at the front of
//! some bytes. Each state says what has been read of a token.

ghost use Rattle.std.specs.Prelude.{◌≡◌, MatchOption};
ghost use Rattle.clu_lexer.specs.Scanner.{begin, only_if, next, accepts, class_of, IsLongest, NoToken};

use crate::classes::{
    begins_name, goes_on_name, is_digit, is_escape_letter, is_exponent_mark, is_octal, is_plain,
    is_sign,
};
use clu_base::Kind;

/// What has been read of a token.
#[derive(Clone, Copy)]
pub enum State {
    /// Nothing.
    Start,
    /// A name, up to here.
    Name,
    /// Digits.
    Whole,
    /// A point without digits before it.
    Point,
    /// Digits with a point, which may be the last of them.
    Fraction,
    /// A number and `e`.
    Exponent,
    /// A number, `e` and a sign.
    Sign,
    /// A number with an exponent.
    Power,
    /// `'`
    CharOpen,
    /// `'` and a backslash.
    CharEscape,
    /// `'`, a backslash and an octal digit.
    CharOctal,
    /// `'`, a backslash and two octal digits.
    CharOctals,
    /// `'` and a character.
    CharClose,
    /// A character literal.
    Char,
    /// `"` and characters.
    Text,
    /// A backslash in a string literal.
    TextEscape,
    /// A backslash and an octal digit in a string literal.
    TextOctal,
    /// A backslash and two octal digits in a string literal.
    TextOctals,
    /// A string literal.
    Str,
    /// A mark that is part of no longer one.
    Mark,
    /// A mark that `=` makes a longer one: `:`, `<`, `>`, `~<` or `~>`.
    BeforeEqual,
    /// `~`
    Tilde,
    /// `*`
    Star,
    /// `/`
    Slash,
    /// A bar.
    Bar,
    /// Bytes that begin no token.
    Stop,
}

/// The state after the first byte.
fn begin(b: u8) -> State
    ensures { result ≡ begin b }
{
    match b {
        b'.' => State::Point,
        b'\'' => State::CharOpen,
        b'"' => State::Text,
        b':' | b'<' | b'>' => State::BeforeEqual,
        b'~' => State::Tilde,
        b'*' => State::Star,
        b'/' => State::Slash,
        b'|' => State::Bar,
        b'(' | b')' | b'[' | b']' | b'{' | b'}' | b',' | b';' | b'$' | b'=' | b'+' | b'-' | b'&' =>
            State::Mark,
        _ if begins_name(b) => State::Name,
        _ if is_digit(b) => State::Whole,
        _ => State::Stop,
    }
}

/// The state after the digits of a number.
fn next_whole(b: u8) -> State
    ensures { result ≡ next State.Whole b }
{
    match b {
        b'.' => State::Fraction,
        _ if is_exponent_mark(b) => State::Exponent,
        _ => only_if(is_digit(b), State::Whole),
    }
}

/// The state after digits with a point.
fn next_fraction(b: u8) -> State
    ensures { result ≡ next State.Fraction b }
{
    if is_exponent_mark(b) {
        State::Exponent
    } else {
        only_if(is_digit(b), State::Fraction)
    }
}

/// The state after a number and `e`.
fn next_exponent(b: u8) -> State
    ensures { result ≡ next State.Exponent b }
{
    if is_sign(b) {
        State::Sign
    } else {
        only_if(is_digit(b), State::Power)
    }
}

/// The state after `'`.
fn next_char(b: u8) -> State
    ensures { result ≡ next State.CharOpen b }
{
    match b {
        b'\\' => State::CharEscape,
        _ => only_if(is_plain(b'\'', b), State::CharClose),
    }
}

/// The state after `'` and a backslash.
fn next_char_escape(b: u8) -> State
    ensures { result ≡ next State.CharEscape b }
{
    if is_octal(b) {
        State::CharOctal
    } else {
        only_if(is_escape_letter(b), State::CharClose)
    }
}

/// The state after `"` and characters.
fn next_text(b: u8) -> State
    ensures { result ≡ next State.Text b }
{
    match b {
        b'"' => State::Str,
        b'\\' => State::TextEscape,
        _ => only_if(is_plain(b'"', b), State::Text),
    }
}

/// The state after a backslash in a string literal.
fn next_text_escape(b: u8) -> State
    ensures { result ≡ next State.TextEscape b }
{
    if is_octal(b) {
        State::TextOctal
    } else {
        only_if(is_escape_letter(b), State::Text)
    }
}

/// The state after `~`.
fn next_tilde(b: u8) -> State
    ensures { result ≡ next State.Tilde b }
{
    match b {
        b'<' | b'>' => State::BeforeEqual,
        _ => only_if(b == b'=', State::Mark),
    }
}

/// The state where the test holds, else `Stop`.
fn only_if(test: bool, then: State) -> State
    ensures { result ≡ only_if test then }
{
    if test { then } else { State::Stop }
}

/// The state after one byte more.
fn next(state: State, b: u8) -> State
    ensures { result ≡ next state b }
{
    match state {
        State::Start => begin(b),
        State::Name => only_if(goes_on_name(b), State::Name),
        State::Whole => next_whole(b),
        State::Point => only_if(is_digit(b), State::Fraction),
        State::Fraction => next_fraction(b),
        State::Exponent => next_exponent(b),
        State::Sign | State::Power => only_if(is_digit(b), State::Power),
        State::CharOpen => next_char(b),
        State::CharEscape => next_char_escape(b),
        State::CharOctal => only_if(is_octal(b), State::CharOctals),
        State::CharOctals => only_if(is_octal(b), State::CharClose),
        State::CharClose => only_if(b == b'\'', State::Char),
        State::Text => next_text(b),
        State::TextEscape => next_text_escape(b),
        State::TextOctal => only_if(is_octal(b), State::TextOctals),
        State::TextOctals => only_if(is_octal(b), State::Text),
        State::BeforeEqual => only_if(b == b'=', State::Mark),
        State::Tilde => next_tilde(b),
        State::Star => only_if(b == b'*', State::Mark),
        State::Slash => only_if(b == b'/', State::Mark),
        State::Bar => only_if(b == b'|', State::Mark),
        State::Char | State::Str | State::Mark | State::Stop => State::Stop,
    }
}

/// The kind of token that what has been read is, if it is a whole one.
fn accepts(state: State) -> Option<Kind>
    ensures { result ≡ accepts state }
{
    match state {
        State::Name => Some(Kind::Idn),
        State::Whole => Some(Kind::Int),
        State::Fraction | State::Power => Some(Kind::Real),
        State::Char => Some(Kind::Char),
        State::Str => Some(Kind::Str),
        State::Point
        | State::Mark
        | State::BeforeEqual
        | State::Tilde
        | State::Star
        | State::Slash
        | State::Bar => Some(Kind::Mark),
        _ => None,
    }
}

/// The longest token at the front of the bytes, with its length; None where none begins there.
/// Reserved words count as identifiers here.
pub fn longest(bytes: &[u8]) -> Option<(Kind, usize)>
    ensures { MatchOption result (NoToken class_of bytes.now) (λ t. IsLongest class_of bytes.now t.0 t.1) }
{
    let mut state = State::Start;
    let mut best = None;
    for (at, b) in bytes.iter().enumerate() {
        state = next(state, *b);
        match state {
            State::Stop => return best,
            _ => {}
        }
        match accepts(state) {
            Some(kind) => best = Some((kind, at + 1)),
            None => {}
        }
    }
    best
}
