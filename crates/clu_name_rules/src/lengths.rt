//! Which types and constants have texts that are too long for an equated value. The parts of a type have smaller numbers, so
//! each length is reckoned once, from those of its parts.

ghost use Rattle.std.specs.Prelude.{◌≡◌, IfOk, map, nat_lt, slice_get};
ghost use Rattle.clu_name_rules.specs.Lengths.{with_more, digits_in, integer_length, constant_length, outline_length, is_long_at, length_of, with_type, types_length, with_field, fields_length, with_signal, signals_length, heading_length, actual_length, with_actual, actuals_length, term_length, lengths_of};

use clu_base::Memory;
use clu_constants::{Constants, Outline, outline_of};
use clu_types::{Actual, Exception, Field, Heading, Term, TypeArena, TypeId};
use std::alloc::Global;

/// The longest text that an equated value may have, in bytes.
const LONGEST_TEXT: u64 = 65_536;

// ---- constants

/// How many decimal digits a number has.
fn digits(n: u64) -> u64
    ensures { result ≡ digits_in 64 n }
{
    let mut left = n;
    for before in 0..64u64 {
        if left / 10 == 0 {
            return before + 1;
        }
        left /= 10;
    }
    64
}

fn of_integer(n: i64) -> u64
    ensures { result ≡ integer_length n }
{
    if n < 0 {
        digits(n.unsigned_abs()).saturating_add(1)
    } else {
        digits(n.unsigned_abs())
    }
}

/// `nil`, a bool's word, an int in decimal, `'` and two digits for a character, two digits for each byte of a string between two
/// marks.
fn of_constant(constant: Outline) -> u64
    ensures { result ≡ outline_length constant }
{
    match constant {
        Outline::Null => 3,
        Outline::Bool(b) => { if b { 4 } else { 5 } }
        Outline::Int(n) => of_integer(n),
        Outline::Char(_) => 3,
        Outline::Str(length) => length.saturating_mul(2).saturating_add(2),
    }
}

// ---- types

/// The length of a type's text; that of `null` if there is no such type.
fn known(lengths: &[u64], id: TypeId) -> u64
    ensures { result ≡ length_of lengths.now id }
{
    lengths.get(id.0 as usize).copied().unwrap_or(4)
}

/// What stands round a list is there if the list is.
fn with_more(size: u64, more: u64) -> u64
    ensures { result ≡ with_more size more }
{
    if size == 0 {
        0
    } else {
        size.saturating_add(more)
    }
}

/// `t,t,`, each type with one mark after it.
fn of_types(lengths: &[u64], ids: &[TypeId]) -> u64
    ensures { result ≡ types_length lengths.now ids.now }
{
    let mut length = 0u64;
    for id in ids {
        length = length.saturating_add(1).saturating_add(known(lengths, *id));
    }
    length
}

fn with_field(lengths: &[u64], size: u64, field: &Field) -> u64
    ensures { result ≡ with_field lengths.now size field.now }
{
    size.saturating_add(field.name.as_slice().len() as u64)
        .saturating_add(2)
        .saturating_add(known(lengths, field.of))
}

/// `f,f]`, each field with one mark after it; `]` alone if there is none.
fn of_fields(lengths: &[u64], fields: &[Field]) -> u64
    ensures { result ≡ fields_length lengths.now fields.now }
{
    let mut length = 0u64;
    for field in fields {
        length = with_field(lengths, length, field);
    }
    length.max(1)
}

fn with_signal(lengths: &[u64], size: u64, signal: &Exception) -> u64
    ensures { result ≡ with_signal lengths.now size signal.now }
{
    let objects = of_types(lengths, signal.objects.as_slice());
    size.saturating_add(signal.name.as_slice().len() as u64)
        .saturating_add(1)
        .saturating_add(with_more(objects, 1))
}

/// `signals(e,e(t))`; nothing if there is none.
fn of_signals(lengths: &[u64], signals: &[Exception]) -> u64
    ensures { result ≡ signals_length lengths.now signals.now }
{
    let mut length = 0u64;
    for signal in signals {
        length = with_signal(lengths, length, signal);
    }
    with_more(length, 8)
}

/// `proctype` or `itertype` with the parts of its heading; `results` is the length of `returns(` or `yields(`.
fn of_heading(lengths: &[u64], results: u64, heading: &Heading) -> u64
    ensures { result ≡ heading_length lengths.now results heading.now }
{
    let args = of_types(lengths, heading.args.as_slice()).max(1);
    let given = with_more(of_types(lengths, heading.results.as_slice()), results);
    let signals = of_signals(lengths, heading.signals.as_slice());
    args.saturating_add(9)
        .saturating_add(given)
        .saturating_add(signals)
}

fn of_actual(lengths: &[u64], actual: &Actual) -> u64
    ensures { result ≡ actual_length lengths.now actual.now }
{
    match actual {
        Actual::Of(id) => known(lengths, *id),
        Actual::Const(constant) => of_constant(outline_of(constant)),
        Actual::ConstParam(n) => digits(u64::from(*n)).saturating_add(1),
    }
}

fn with_actual(lengths: &[u64], size: u64, actual: &Actual) -> u64
    ensures { result ≡ with_actual lengths.now size actual.now }
{
    size.saturating_add(of_actual(lengths, actual))
        .saturating_add(1)
}

/// `[a,a]`; nothing if there is no actual.
fn of_actuals(lengths: &[u64], actuals: &[Actual]) -> u64
    ensures { result ≡ actuals_length lengths.now actuals.now }
{
    let mut length = 0u64;
    for actual in actuals {
        length = with_actual(lengths, length, actual);
    }
    with_more(length, 1)
}

fn of_term(lengths: &[u64], term: &Term) -> u64
    ensures { result ≡ term_length lengths.now term.now }
{
    match term {
        Term::Int | Term::Any => 3,
        Term::Null | Term::Bool | Term::Char => 4,
        Term::Str | Term::Stream => 6,
        Term::Array(of) => known(lengths, *of).saturating_add(7),
        Term::Sequence(of) => known(lengths, *of).saturating_add(10),
        Term::Record(fields) | Term::Struct(fields) => {
            of_fields(lengths, fields.as_slice()).saturating_add(7)
        }
        Term::Oneof(fields) => of_fields(lengths, fields.as_slice()).saturating_add(6),
        Term::Variant(fields) => of_fields(lengths, fields.as_slice()).saturating_add(8),
        Term::Proc(heading) => of_heading(lengths, 8, heading),
        Term::Iter(heading) => of_heading(lengths, 7, heading),
        Term::Cluster(name, actuals) => (name.as_slice().len() as u64).saturating_add(of_actuals(
            lengths,
            actuals.as_slice(),
        )),
        Term::Param(n) => digits(u64::from(*n)).saturating_add(1),
    }
}

fn lengths_of(alloc: Global, types: &TypeArena) -> Result<Vec<u64>, Memory>
    ensures { IfOk result (λ lengths. lengths.items ≡ lengths_of types.now) }
{
    let mut lengths = Vec::new(alloc);
    for id in 0..types.len() {
        let length = of_term(lengths.as_slice(), types.view(TypeId(id as u64)));
        lengths.push(length)?;
    }
    Ok(lengths)
}

fn are_long(alloc: Global, lengths: &[u64]) -> Result<Vec<bool>, Memory>
    ensures { IfOk result (λ long. long.items ≡ map (nat_lt 65536) lengths.now) }
{
    let mut long = Vec::new(alloc);
    for length in lengths {
        long.push(*length > LONGEST_TEXT)?;
    }
    Ok(long)
}

/// For each type of the arena whether its text is longer than that of an equated value may be. The only error is that memory
/// runs out.
pub fn long_types(alloc: Global, types: &TypeArena) -> Result<Vec<bool>, Memory>
    ensures { IfOk result (λ long. long.items ≡ map (nat_lt 65536) (lengths_of types.now)) }
{
    let lengths = lengths_of(alloc, types)?;
    are_long(alloc, lengths.as_slice())
}

/// The same of constants.
pub fn long_constants(alloc: Global, constants: &Constants) -> Result<Vec<bool>, Memory>
    ensures { IfOk result (λ long. long.items ≡ map (λ c. nat_lt 65536 (constant_length c)) constants.now) }
{
    let mut long = Vec::new(alloc);
    for place in 0..constants.len() {
        long.push(is_long(constants, place))?;
    }
    Ok(long)
}

/// Whether the text of the constant of this place is too long.
fn is_long(constants: &Constants, place: usize) -> bool
    ensures { result ≡ is_long_at (slice_get constants.now place) }
{
    match constants.outline(place) {
        Some(constant) => of_constant(constant) > LONGEST_TEXT,
        None => false,
    }
}
