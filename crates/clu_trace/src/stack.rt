//! The words of a program's stack.

ghost use Rattle.std.specs.Prelude.{◌≡◌, ◌≤◌, length};
ghost use Rattle.clu_trace.specs.Walk.{has_word as is_there, word_at};

use rv_machine::Machine;

/// The start of the stack region, and the most bytes that it has.
const START: u64 = 0x2000_0000;

/// The word at an address, if it is one of the stack, which has so many bytes.
pub(crate) fn stack_word(m: &Machine, bytes: u64, at: u64) -> Option<u64>
    requires small { bytes ≤ 0x4000000 }
    requires stack { bytes ≤ length m.now.state.stack }
    ensures { result ≡ word_at bytes m.now.state at }
{
    if has_word(bytes, at) {
        Some(m.word(at))
    } else {
        None
    }
}

/// Whether a stack of so many bytes has a word at an address.
fn has_word(bytes: u64, at: u64) -> bool
    requires { bytes ≤ 0x4000000 }
    ensures { result ≡ is_there bytes at }
{
    START <= at && at % 8 == 0 && at.saturating_add(8) <= START + bytes
}
