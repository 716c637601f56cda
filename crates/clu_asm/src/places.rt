//! Where a byte first stands in a text, and the parts of the text before and after it.

ghost use Rattle.std.specs.Prelude.{◌≡◌, ◌≢◌, ◌≤◌, ◌++◌, ◌↔◌, ℕ, List, length, IfSome, IfNone, IsTrue, MatchOption};
ghost use Rattle.clu_asm.specs.Places as places;
ghost use Rattle.clu_asm.specs.AssemblyText.{line as line_of};

/// How many bytes stand before the first such byte.
#[tactic(auto, unfolding(crate::specs::Places::place))]
fn place(text: &[u8], mark: u8) -> usize
    ensures value { result ≡ places.place mark text.now }
    ensures within { result ≤ length text.now }
{
    for (i, b) in text.iter().enumerate() {
        if *b == mark {
            return i;
        }
    }
    text.len()
}

/// What stands before the first such byte, and what stands after it. If there is none, all and
/// nothing.
pub(crate) fn split(text: &[u8], mark: u8) -> (&[u8], &[u8])
    ensures before { result.0.now ≡ places.before mark text.now }
    ensures after { result.1.now ≡ places.after mark text.now }
{
    let at = place(text, mark);
    if at < text.len() {
        (&text[..at], &text[at + 1..])
    } else {
        (text, &[])
    }
}

/// The first line without its end, and what stands after it.
pub(crate) fn first_line(text: &[u8]) -> Option<(&[u8], &[u8])>
    ensures splits { IfSome result (λ parts. text.now ≡ line_of parts.0.now ++ parts.1.now) }
    ensures free { IfSome result (λ parts. places.IsFree 10 parts.0.now) }
    ensures none { IfNone result (places.IsFree 10 text.now) }
{
    let at = place(text, b'\n');
    if at < text.len() {
        Some((&text[..at], &text[at + 1..]))
    } else {
        None
    }
}

/// What stands after this word, if the text begins with it.
pub(crate) fn after<'a>(text: &'a [u8], word: &[u8]) -> Option<&'a [u8]>
    ensures { MatchOption result ((rest : List ℕ) → text.now ≢ word.now ++ rest) (λ rest. text.now ≡ word.now ++ rest.now) }
{
    text.strip_prefix(word)
}

/// Whether the text begins so.
pub(crate) fn is_front(cut: &[u8], text: &[u8]) -> bool
    ensures { IsTrue result ↔ places.IsFront cut.now text.now }
{
    text.starts_with(cut)
}
