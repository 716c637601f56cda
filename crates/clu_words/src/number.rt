//! Numbers in the words: one or more digits, within bounds.

ghost use Rattle.std.specs.Prelude.{◌≡◌};
ghost use Rattle.std.specs.Char.{is_ascii_digit};
ghost use Rattle.std.specs.List.{list_all};
ghost use Rattle.clu_words.specs.Number.{is_numeral, number_within};

/// The number that the text writes. None exactly where it is not one or more digits, or the
/// number is not from `least` to `most`.
pub fn number_within(text: &str, least: u64, most: u64) -> Option<u64>
    ensures { result ≡ number_within least most text.now }
{
    if !is_numeral(text.as_bytes()) {
        return None;
    }
    match text.parse::<u64>() {
        Ok(n) if least <= n && n <= most => Some(n),
        _ => None,
    }
}

fn is_numeral(text: &[u8]) -> bool
    ensures { result ≡ is_numeral text.now }
{
    match text {
        [] => false,
        [_, ..] => are_digits(text),
    }
}

fn are_digits(text: &[u8]) -> bool
    ensures { result ≡ list_all is_ascii_digit text.now }
{
    text.iter().all(|b| b.is_ascii_digit())
}
