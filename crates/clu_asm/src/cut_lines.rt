//! Lines that are cut off at the end of a text: whether one can still go on to a line. It is asked
//! once of a text that is refused, so the numbers that can stand in a place are tried in turn.

ghost use Rattle.std.specs.Prelude.{◌≡◌, ◌↔◌, ◌≤◌, ◌^◌, ◌*◌, ◌-ℤ◌, pos, IsTrue};
ghost use Rattle.clu_asm.specs.CutLines as cut_lines;

use crate::mnemonics::{Form, MNEMONICS, Mnemonic};
use crate::places::{after, is_front};
use crate::rows::{begins_row, word};
use itoa::Buffer;
use rv_isa::decode;

/// What can stand in the place of an operand.
#[derive(Clone, Copy)]
pub(crate) enum Kind {
    Register,
    Immediate,
    Amount,
    WordAmount,
    Branch,
    Jump,
    Upper,
}

/// Numbers: so many of them, so far apart, the lowest `-low`.
#[derive(Clone, Copy)]
struct Range {
    count: u32,
    step: u32,
    low: u32,
}

/// Whether the text of a code word can begin so.
pub(crate) fn begins_code(cut: &[u8]) -> bool
    ensures { IsTrue result ↔ cut_lines.CodeBegins cut.now }
{
    if begins_word(cut) {
        true
    } else {
        begins_instr(cut)
    }
}

/// Whether the text of a word that is no instruction can begin so. Fewer than 8 digits always go on
/// to one, since no instruction ends with the digit 0.
fn begins_word(cut: &[u8]) -> bool
    ensures { IsTrue result ↔ cut_lines.WordBegins cut.now }
{
    if begins_row(b"word ", 7, cut) {
        return true;
    }
    match word(cut) {
        Some(w) => decode(w).is_none(),
        None => false,
    }
}

/// Whether the text of an instruction can begin so.
fn begins_instr(cut: &[u8]) -> bool
    ensures { IsTrue result ↔ cut_lines.InstrBegins cut.now }
{
    begins_one(&MNEMONICS, cut)
}

/// Whether the text of an instruction with one of these mnemonics can begin so.
#[tactic(auto, unfolding(crate::specs::CutLines::OneBegins))]
fn begins_one(mnemonics: &[Mnemonic], cut: &[u8]) -> bool
    ensures { IsTrue result ↔ cut_lines.OneBegins mnemonics.now cut.now }
{
    for m in mnemonics {
        if begins_with(*m, cut) {
            return true;
        }
    }
    false
}

/// Whether the text of an instruction with this mnemonic can begin so.
fn begins_with(m: Mnemonic, cut: &[u8]) -> bool
    ensures { IsTrue result ↔ cut_lines.InstrBeginsWith m cut.now }
{
    let name = m.name();
    match after(cut, name) {
        Some(operands) => begins(kinds(m.form()), b' ', operands),
        None => is_front(cut, name),
    }
}

/// The operands of a form.
fn kinds(form: Form) -> &'static [Kind]
    ensures { result.now ≡ cut_lines.kinds_of form }
{
    match form {
        Form::Upper => &[Kind::Register, Kind::Upper],
        Form::Jump => &[Kind::Register, Kind::Jump],
        Form::Branch => &[Kind::Register, Kind::Register, Kind::Branch],
        Form::Load | Form::Save | Form::Imm => &[Kind::Register, Kind::Register, Kind::Immediate],
        Form::Shift => &[Kind::Register, Kind::Register, Kind::Amount],
        Form::ShiftWord => &[Kind::Register, Kind::Register, Kind::WordAmount],
        Form::Three => &[Kind::Register, Kind::Register, Kind::Register],
        Form::Alone => &[],
    }
}

/// Whether operands of these kinds, the first after this mark, can begin so. It goes as deep as the
/// kinds are many, at most 3.
#[cycle(cut)]
fn begins(kinds: &[Kind], mark: u8, cut: &[u8]) -> bool
    ensures { IsTrue result ↔ cut_lines.OperandsBegin kinds.now mark cut.now }
{
    match kinds {
        [] => cut.is_empty(),
        [kind, rest @ ..] => match cut {
            [] => true,
            [first, left @ ..] => {
                if *first == mark {
                    begins_operand(*kind, rest, left)
                } else {
                    false
                }
            }
        },
    }
}

/// Whether an operand of this kind, and others after it, can begin so.
#[cycle(cut)]
fn begins_operand(kind: Kind, rest: &[Kind], cut: &[u8]) -> bool
    ensures { IsTrue result ↔ cut_lines.OperandBegins kind rest.now cut.now }
{
    match kind {
        Kind::Register => match cut {
            [] => true,
            [first, left @ ..] => {
                if *first == b'x' {
                    begins_number(kind, rest, left)
                } else {
                    false
                }
            }
        },
        _ => begins_number(kind, rest, cut),
    }
}

/// Whether a number of this kind, and other operands after it, can begin so.
#[cycle(cut)]
fn begins_number(kind: Kind, rest: &[Kind], cut: &[u8]) -> bool
    ensures { IsTrue result ↔ cut_lines.NumberBegins kind rest.now cut.now }
{
    let count = range_of(kind).count;
    for n in 0..count {
        if begins_at(kind, n, rest, cut) {
            return true;
        }
    }
    false
}

/// Whether the number of this kind after n lower ones, and other operands after it, can begin so.
#[cycle(cut)]
fn begins_at(kind: Kind, n: u32, rest: &[Kind], cut: &[u8]) -> bool
    ensures { IsTrue result ↔ cut_lines.BeginsAt kind rest.now cut.now n }
{
    let mut buffer = Buffer::new();
    let text = buffer.format(number(kind, n)).as_bytes();
    match after(cut, text) {
        Some(left) => begins(rest, b',', left),
        None => is_front(cut, text),
    }
}

/// The number of this kind after n lower ones.
fn number(kind: Kind, n: u32) -> i64
    ensures { result ≡ cut_lines.number_at kind n }
{
    range_of(kind).number(n)
}

/// The numbers of a kind.
fn range_of(kind: Kind) -> Range
    ensures count { result.count ≡ cut_lines.count_of kind }
    ensures step { result.step ≡ cut_lines.step_of kind }
    ensures low { result.low ≡ cut_lines.low_of kind }
    ensures narrow { result.step ≤ 2 ^ 12 }
{
    match kind {
        Kind::Register | Kind::WordAmount => Range::new(32, 1, 0),
        Kind::Amount => Range::new(64, 1, 0),
        Kind::Immediate => Range::new(1 << 12, 1, 1 << 11),
        Kind::Branch => Range::new(1 << 12, 2, 1 << 12),
        Kind::Jump => Range::new(1 << 20, 2, 1 << 20),
        Kind::Upper => Range::new(1 << 20, 1 << 12, 1 << 31),
    }
}

impl Range {
    fn new(count: u32, step: u32, low: u32) -> Range
        ensures count { result.count ≡ count }
        ensures step { result.step ≡ step }
        ensures low { result.low ≡ low }
    {
        Range { count, step, low }
    }

    /// The number after n lower ones.
    fn number(&self, n: u32) -> i64
        requires { self.now.step ≤ 2 ^ 12 }
        ensures { result ≡ pos (n * self.now.step) -ℤ pos self.now.low }
    {
        i64::from(n) * i64::from(self.step) - i64::from(self.low)
    }
}
