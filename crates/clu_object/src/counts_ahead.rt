//! The counts that stand behind the holes of a routine in a file. A hole's number is below the count of what it names, so
//! these are looked up before the holes are read, as far as they are there.

ghost use Rattle.std.specs.Prelude.{◌≡◌};
ghost use Rattle.std.specs.Option.{option_map};
ghost use Rattle.clu_format.specs.Fields.{number_read};
ghost use Rattle.clu_object.specs.Ahead.{skipped, text_skipped, value_skipped, constant_skipped, items_skipped, count_in, count_at, behind_items, number_of, counts_ahead, is_below, allows};

use byteorder::{ByteOrder, LittleEndian};

/// How many bytes a hole takes.
const HOLE: usize = 9;

/// How many uses, constants and types a routine has, each if its count is there.
#[derive(Clone, Copy)]
pub struct CountsAhead {
    uses: Option<u32>,
    constants: Option<u32>,
    types: Option<u32>,
}

impl CountsAhead {
    /// The counts behind so many holes, at which these bytes start.
    #[tactic(auto, unfolding(crate::specs::Ahead::counts_ahead))]
    pub fn find(holes: u32, bytes: &[u8]) -> CountsAhead
        ensures { result ≡ counts_ahead holes bytes.now }
    {
        let uses = count_at(skip(HOLE * holes as usize, bytes));
        let constants = count_at(behind_texts(uses));
        let types = count_at(behind_constants(constants));
        CountsAhead {
            uses: number_of(uses),
            constants: number_of(constants),
            types: number_of(types),
        }
    }

    /// Whether a hole of a kind may have a number, in a routine of so many code words. Items that are not counted here are
    /// not bounded.
    pub fn allow(self, kind: u8, number: u32, words: usize) -> bool
        ensures { result ≡ allows self kind number words }
    {
        match kind {
            0 | 1 => is_below(number, self.uses),
            2 => is_below(number, self.constants),
            5 => is_below(number, self.types),
            8 => (number as usize) < words,
            _ => true,
        }
    }
}

fn is_below(number: u32, count: Option<u32>) -> bool
    ensures { result ≡ is_below number count }
{
    match count {
        Some(count) => number < count,
        None => true,
    }
}

fn number_of(found: Option<(u32, &[u8])>) -> Option<u32>
    ensures { result ≡ number_of (option_map (λ x. (x.0, x.1.now)) found.entry) }
{
    match found {
        Some((count, _)) => Some(count),
        None => None,
    }
}

/// The count at the front, with what follows it.
fn count_at(bytes: Option<&[u8]>) -> Option<(u32, &[u8])>
    ensures { option_map (λ x. (x.0, x.1.now)) result ≡ count_at (option_map (λ b. b.now) bytes.entry) }
{
    match bytes {
        Some(bytes) => count_in(bytes),
        None => None,
    }
}

fn count_in(bytes: &[u8]) -> Option<(u32, &[u8])>
    ensures { option_map (λ x. (x.0, x.1.now)) result ≡ count_in (number_read 4 bytes.now) }
{
    if bytes.len() < 4 {
        return None;
    }
    let (field, rest) = bytes.split_at(4);
    Some((LittleEndian::read_u32(field), rest))
}

/// What follows so many texts.
fn behind_texts(found: Option<(u32, &[u8])>) -> Option<&[u8]>
    ensures { option_map (λ b. b.now) result ≡ behind_items text_skipped (option_map (λ x. (x.0, x.1.now)) found.entry) }
{
    match found {
        Some((count, bytes)) => skip_texts(count, bytes),
        None => None,
    }
}

fn skip_texts(count: u32, bytes: &[u8]) -> Option<&[u8]>
    ensures { option_map (λ b. b.now) result ≡ items_skipped text_skipped count bytes.now }
{
    let mut rest = bytes;
    for _ in 0..count {
        match skip_text(rest) {
            Some(after) => rest = after,
            None => return None,
        }
    }
    Some(rest)
}

fn skip_text(bytes: &[u8]) -> Option<&[u8]>
    ensures { option_map (λ b. b.now) result ≡ text_skipped bytes.now }
{
    if bytes.len() < 8 {
        return None;
    }
    let (field, rest) = bytes.split_at(8);
    let size = LittleEndian::read_u64(field);
    if (rest.len() as u64) < size {
        None
    } else {
        Some(&rest[size as usize..])
    }
}

/// What follows so many constants.
fn behind_constants(found: Option<(u32, &[u8])>) -> Option<&[u8]>
    ensures { option_map (λ b. b.now) result ≡ behind_items constant_skipped (option_map (λ x. (x.0, x.1.now)) found.entry) }
{
    match found {
        Some((count, bytes)) => skip_constants(count, bytes),
        None => None,
    }
}

fn skip_constants(count: u32, bytes: &[u8]) -> Option<&[u8]>
    ensures { option_map (λ b. b.now) result ≡ items_skipped constant_skipped count bytes.now }
{
    let mut rest = bytes;
    for _ in 0..count {
        match skip_constant(rest) {
            Some(after) => rest = after,
            None => return None,
        }
    }
    Some(rest)
}

fn skip_constant(bytes: &[u8]) -> Option<&[u8]>
    ensures { option_map (λ b. b.now) result ≡ constant_skipped bytes.now }
{
    match bytes {
        [] => None,
        [kind, rest @ ..] => skip_value(*kind, rest),
    }
}

/// What follows the value of a constant of a kind.
#[tactic(auto, unfolding(crate::specs::Ahead::value_skipped))]
fn skip_value(kind: u8, bytes: &[u8]) -> Option<&[u8]>
    ensures { option_map (λ b. b.now) result ≡ value_skipped kind bytes.now }
{
    match kind {
        0 => Some(bytes),
        1 | 3 => skip(1, bytes),
        2 => skip(8, bytes),
        4 => skip_text(bytes),
        5 => skip(4, bytes),
        _ => None,
    }
}

fn skip(size: usize, bytes: &[u8]) -> Option<&[u8]>
    ensures { option_map (λ b. b.now) result ≡ skipped size bytes.now }
{
    if bytes.len() < size {
        None
    } else {
        Some(&bytes[size..])
    }
}
