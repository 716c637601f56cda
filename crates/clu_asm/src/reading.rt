//! From assembly text to images.

ghost use Rattle.std.specs.Prelude.{◌≡◌, ◌++◌, ◌+◌, ◌-◌, ◌⊎◌, ◌↔◌, pos, codes, decimal, ◌%◌, ◌≤◌, ◌<◌, [], length, flat_map, vec_len, ℕ, Some, IfSome, IfOk, IfErr, IsTrue, MatchResult};
ghost use Rattle.rv_isa.specs.Image.{AreBytes, AreWords, Contents, max_words, max_bytes, contents, IsImage};
ghost use Rattle.clu_asm.specs.AssemblyText as asm;
ghost use Rattle.clu_asm.specs.CutLines.{CodeBegins, DigitsBegin, EntryBegins, LineBegins};
ghost use Rattle.clu_asm.specs.Faults.{IsFault, IsFaultAt};
ghost use Rattle.clu_asm.specs.Lines.{NoCode, NoRow};
ghost use Rattle.clu_asm.specs.Places.{IsFree};

use crate::candidates::code_word;
use crate::cut_lines::begins_code;
use crate::operands::number;
use crate::places::{after, first_line, is_front};
use crate::rows::{begins_row, row};
use clu_base::{FormatError, Memory};
use rv_isa::Image;
use std::alloc::Global;

/// The image of an assembly text. Other bytes are refused with the place of the first line after
/// which no continuation is an assembly text, or with their length if there is no such line.
/// `FormatError::Memory` comes only when memory runs out.
pub fn read_asm(alloc: Global, b: &[u8]) -> Result<Image, FormatError>
    ensures text { IfOk result (λ i. b.now ≡ asm.asm_text i) }
    ensures every_text { (i : Contents) → IsImage i → b.now ≡ asm.asm_text i → MatchResult result (λ j. j ≡ i) (λ e. e ≡ FormatError.Memory) }
    ensures place { IfErr result (λ e. IsFault e b.now) }
{
    match first_line(b) {
        Some((text, rest)) => match entry(text) {
            Some(n) => read_parts(alloc, n, rest, b.len()),
            None => Err(FormatError::Bad(0)),
        },
        None => Err(FormatError::Bad(cut_entry(b))),
    }
}

/// The entry of this line, without its end.
fn entry(text: &[u8]) -> Option<u32>
    ensures text { IfSome result (λ n. text.now ≡ codes "entry " ++ decimal n) }
    ensures bound { IfSome result (λ n. n < max_words) }
    ensures only { (n : ℕ) → n < max_words → text.now ≡ codes "entry " ++ decimal n → result ≡ Some n }
{
    match after(text, b"entry ") {
        Some(digits) => match number(digits) {
            Some(n) => entry_number(n),
            None => None,
        },
        None => None,
    }
}

/// The number as an entry, if an image can have it.
fn entry_number(n: i32) -> Option<u32>
    ensures number { IfSome result (λ m. n ≡ pos m) }
    ensures bound { IfSome result (λ m. m < max_words) }
    ensures only { (m : ℕ) → m < max_words → n ≡ pos m → result ≡ Some m }
{
    if 0 <= n && n < Image::MAX_WORDS as i32 {
        Some(n as u32)
    } else {
        None
    }
}

/// Where bytes without a byte 10 are refused.
fn cut_entry(b: &[u8]) -> u64
    requires { IsFree 10 b.now }
    ensures { IsFaultAt result b.now }
{
    if begins_entry(b) { b.len() as u64 } else { 0 }
}

/// Whether the first line can begin so.
fn begins_entry(cut: &[u8]) -> bool
    ensures { IsTrue result ↔ EntryBegins cut.now }
{
    if is_front(cut, b"entry ") {
        true
    } else {
        entry(cut).is_some()
    }
}

/// The image whose entry was read, from the lines after it; `end` is the length of the whole text.
fn read_parts(alloc: Global, entry: u32, b: &[u8], end: usize) -> Result<Image, FormatError>
    requires entry { entry < max_words }
    requires end { end ≡ length (asm.entry_line entry ++ b.now) }
    ensures text { IfOk result (λ i. asm.entry_line entry ++ b.now ≡ asm.asm_text i) }
    ensures every_text { (i : Contents) → IsImage i → asm.entry_line entry ++ b.now ≡ asm.asm_text i → MatchResult result (λ j. j ≡ i) (λ e. e ≡ FormatError.Memory) }
    ensures place { IfErr result (λ e. IsFault e (asm.entry_line entry ++ b.now)) }
{
    let mut code = Vec::new(alloc);
    let mut fixed = Vec::new(alloc);
    let mut area = Vec::new(alloc);
    let rest = read_code(alloc, &mut code, b)?;
    let room = room_of(entry, &code);
    let rest = read_rows(&mut fixed, b"fixed ", room, rest)?;
    let rest = read_rows(&mut area, b"data ", room - fixed.len(), rest)?;
    if rest.is_empty() && room > 0 {
        return Ok(image(entry, code, fixed, area));
    }
    let next = Next::new(code.len(), &fixed, &area, room);
    Err(FormatError::Bad(next.fault(rest, end)))
}

/// The image of these parts, which are known to be within its bounds.
fn image(entry: u32, code: Vec<u32>, fixed: Vec<u8>, area: Vec<u8>) -> Image
    requires entry { entry < vec_len code }
    requires code { vec_len code ≤ max_words }
    requires fixed { vec_len fixed % 8 ≡ 0 }
    requires area { vec_len area % 8 ≡ 0 }
    requires room { vec_len fixed + vec_len area ≤ max_bytes }
    ensures image { IsImage result }
    ensures value { result ≡ contents entry code.items fixed.items area.items }
{
    Image::new(entry, code, fixed, area).unwrap()
}

/// How many bytes the fixed part and the data may have after this code.
fn room_of(entry: u32, code: &[u32]) -> usize
    ensures entered { 0 < result → entry < length code.now }
    ensures all { entry < length code.now → result ≡ max_bytes }
    ensures bound { result ≤ max_bytes }
    ensures words { AreWords code.now }
{
    if (entry as usize) < code.len() {
        Image::MAX_BYTES
    } else {
        0
    }
}

/// The code words of the first lines, and what follows them.
fn read_code<'a>(alloc: Global, code: &mut Vec<u32>, b: &'a [u8]) -> Result<&'a [u8], Memory>
    requires { code.old.items ≡ [] }
    ensures text { IfOk result (λ rest. b.now ≡ flat_map asm.code_line code.new.items ++ rest.now) }
    ensures few { vec_len code.new ≤ max_words }
    ensures stops { IfOk result (λ rest. (vec_len code.new ≡ max_words) ⊎ NoCode rest.now) }
{
    let mut scratch = Vec::new(alloc);
    let mut rest = b;
    while code.len() < Image::MAX_WORDS {
        let Some((line, after)) = first_line(rest) else {
            return Ok(rest);
        };
        let Some(w) = code_word(&mut scratch, line)? else {
            return Ok(rest);
        };
        code.push(w)?;
        rest = after;
    }
    Ok(rest)
}

/// The bytes of the first lines with this word, at most so many, and what follows them.
fn read_rows<'a>(
    bytes: &mut Vec<u8>,
    word: &[u8],
    room: usize,
    b: &'a [u8],
) -> Result<&'a [u8], Memory>
    requires empty { bytes.old.items ≡ [] }
    requires word { IsFree 10 word.now }
    ensures text { IfOk result (λ rest. b.now ≡ asm.row_lines word.now bytes.new.items ++ rest.now) }
    ensures whole { vec_len bytes.new % 8 ≡ 0 }
    ensures few { vec_len bytes.new ≤ room }
    ensures stops { IfOk result (λ rest. (room < vec_len bytes.new + 8) ⊎ NoRow word.now rest.now) }
{
    let mut rest = b;
    while room - bytes.len() >= 8 {
        let Some((line, after)) = first_line(rest) else {
            return Ok(rest);
        };
        let Some(row) = row(word, line) else {
            return Ok(rest);
        };
        bytes.extend_from_slice(&row)?;
        rest = after;
    }
    Ok(rest)
}

/// Which lines can come next.
#[derive(Clone, Copy)]
struct Next {
    code: bool,
    fixed: bool,
    area: bool,
}

impl Next {
    /// What can come after so many code words and these bytes; `room` as for these.
    fn new(words: usize, fixed: &[u8], area: &[u8], room: usize) -> Next
        requires { length fixed.now + length area.now ≤ room }
        ensures fixed_bytes { AreBytes fixed.now }
        ensures area_bytes { AreBytes area.now }
        ensures code { IsTrue result.code ↔ ((words < max_words) × (length fixed.now + length area.now ≡ 0)) }
        ensures fixed { IsTrue result.fixed ↔ ((length fixed.now + length area.now + 8 ≤ room) × (length area.now ≡ 0)) }
        ensures area { IsTrue result.area ↔ (length fixed.now + length area.now + 8 ≤ room) }
    {
        let rows = fixed.len() + area.len();
        let is_room = room - rows >= 8;
        Next {
            code: is_code_next(words, rows),
            fixed: is_fixed_next(is_room, area.len()),
            area: is_room,
        }
    }

    /// Where a text of this length is refused that goes on with `rest`.
    fn fault(self, rest: &[u8], end: usize) -> u64
        requires { length rest.now ≤ end }
        ensures { (IsFree 10 rest.now × LineBegins self.code self.fixed self.area rest.now × (result ≡ end))
            ⊎ ((IsFree 10 rest.now → LineBegins self.code self.fixed self.area rest.now → ⊥) × (result ≡ end - length rest.now)) }
    {
        match first_line(rest) {
            None => {
                if self.can_begin(rest) {
                    end as u64
                } else {
                    (end - rest.len()) as u64
                }
            }
            Some(_) => (end - rest.len()) as u64,
        }
    }

    /// Whether a line that can come next can begin so.
    fn can_begin(self, cut: &[u8]) -> bool
        ensures { IsTrue result ↔ LineBegins self.code self.fixed self.area cut.now }
    {
        if can_code_begin(self.code, cut) {
            true
        } else if can_row_begin(self.fixed, b"fixed ", cut) {
            true
        } else {
            can_row_begin(self.area, b"data ", cut)
        }
    }
}

/// Whether a code word can come after so many, and so many bytes.
fn is_code_next(words: usize, rows: usize) -> bool
    ensures { IsTrue result ↔ ((words < max_words) × (rows ≡ 0)) }
{
    words < Image::MAX_WORDS && rows == 0
}

/// Whether a line of the fixed part can come, if there is room for a row, after so much data.
fn is_fixed_next(is_room: bool, area: usize) -> bool
    ensures { IsTrue result ↔ (IsTrue is_room × (area ≡ 0)) }
{
    is_room && area == 0
}

/// Whether a code word can come and can begin so.
fn can_code_begin(can_come: bool, cut: &[u8]) -> bool
    ensures { IsTrue result ↔ (IsTrue can_come × CodeBegins cut.now) }
{
    if can_come { begins_code(cut) } else { false }
}

/// Whether a line with this word and eight bytes can come and can begin so.
fn can_row_begin(can_come: bool, word: &[u8], cut: &[u8]) -> bool
    ensures { IsTrue result ↔ (IsTrue can_come × DigitsBegin word.now 16 cut.now) }
{
    if can_come {
        begins_row(word, 16, cut)
    } else {
        false
    }
}
