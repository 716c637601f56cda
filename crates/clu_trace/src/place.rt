//! Places from which the stack is read downward.
//!
//! A frame is, from its place up: the return address, the place of the caller's frame, the caller's link table, the top
//! of the stack outside all loops, and the slots. The record of a suspended iterator is where it goes on, the place of its
//! frame, and its link table.

ghost use Rattle.std.specs.Prelude.{◌≡◌, ◌≤◌, length};
ghost use Rattle.clu_trace.specs.Walk.{place_below, record_of};

use crate::stack::stack_word;
use rv_machine::Machine;

/// How many bytes words of a frame are from its place, and the first two of them words of a record.
const FRAME: u64 = 8;

const TABLE: u64 = 16;

const OUTSIDE: u64 = 24;

/// The bytes of a record.
const RECORD: u64 = 24;

/// A frame, the top of what stands on it, and the link table of its instance.
#[derive(Clone, Copy)]
pub(crate) struct Place {
    pub frame: u64,
    pub top: u64,
    pub table: u64,
}

/// The place to which a frame or a record leads: from a frame to its caller's, from a record to the iterator's. What stands
/// on that frame goes up to here. None where a frame leads to none.
pub(crate) fn place_below(m: &Machine, bytes: u64, at: u64) -> Option<Place>
    requires small { bytes ≤ 0x4000000 }
    requires stack { bytes ≤ length m.now.state.stack }
    ensures { result ≡ place_below bytes m.now.state at }
{
    let frame = stack_word(m, bytes, at.saturating_add(FRAME))?;
    let table = stack_word(m, bytes, at.saturating_add(TABLE))?;
    Some(Place {
        frame,
        top: at,
        table,
    })
}

impl Place {
    /// The record of the iterator that is suspended highest on the frame, if one is.
    pub fn suspended(self, m: &Machine, bytes: u64) -> Option<u64>
        requires small { bytes ≤ 0x4000000 }
        requires stack { bytes ≤ length m.now.state.stack }
        ensures { result ≡ record_of bytes m.now.state self }
    {
        let outside = stack_word(m, bytes, self.frame.saturating_add(OUTSIDE))?;
        if outside < self.top {
            Some(self.top.saturating_sub(RECORD))
        } else {
            None
        }
    }
}
