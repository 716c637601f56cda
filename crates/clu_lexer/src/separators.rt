//! What stands between tokens: separators, and comments from `%` to the end of the line.

ghost use Rattle.std.specs.Prelude.{◌≡◌, ◌≤◌, false, length};
ghost use Rattle.clu_lexer.specs.Separators.{is_separator, gap_len};

/// Whether the byte separates tokens: a blank, or one of the bytes from tab to carriage return.
fn is_separator(b: u8) -> bool
    ensures { result ≡ is_separator b }
{
    b == b' ' || (9 <= b && b <= 13)
}

/// How many bytes of separators and comments stand at the front.
pub fn gap(bytes: &[u8]) -> usize
    ensures gap { result ≡ gap_len false bytes.now }
    ensures within { result ≤ length bytes.now }
{
    let mut in_comment = false;
    for (at, b) in bytes.iter().enumerate() {
        if in_comment {
            in_comment = *b != b'\n';
        } else if *b == b'%' {
            in_comment = true;
        } else if !is_separator(*b) {
            return at;
        }
    }
    bytes.len()
}
