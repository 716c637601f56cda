//! The output of a program: the trait of what takes bytes, a sink in memory, and the loop that
//! writes a whole piece.

ghost use Rattle.std.specs.Prelude.{◌≡◌, ℕ, ◌<◌, ◌≤◌, ◌++◌, ◌-◌, ◌↔◌, ◌⊎◌, min, List, [], length, take, Option, Some, IsErr, IfOk, OnOk, OnErr, Contains};
ghost use Rattle.clu_base.specs.Outside.{appended, next_count, GrewWithin, Rose};

use crate::errors::{Failed, Memory};
use std::alloc::Global;
use std::marker::Model;

/// What takes the bytes that a program writes.
///
/// `written` is the list of bytes written so far where the sink tells it, and None where it does
/// not, as for a terminal. `faults` counts the calls that failed; it never falls, and stands
/// still at its type's end.
pub trait Sink {
    ghost written: { Self → Option (List ℕ) };

    ghost faults: { Self → ℕ };

    /// Takes the first bytes of a piece and answers how many: at least one of a piece that isn't
    /// empty. `Failed` comes only where the count of faults rose, and then no byte was taken.
    fn write(&mut self, bytes: &[u8]) -> Result<usize, Failed>
        ensures counts { faults self.old ≤ faults self.new }
        ensures failed { OnErr result (Rose (faults self.old) (faults self.new)) }
        ensures within { IfOk result (λ n. n ≤ length bytes.now) }
        ensures some { IfOk result (λ n. 0 < length bytes.now → 0 < n) }
        ensures grew { IfOk result (λ n. written self.new ≡ appended (written self.old) (take n bytes.now)) }
        ensures kept { OnErr result (written self.new ≡ written self.old) };
}

/// Writes all the bytes, in as many calls as the sink wants. After `Failed` some first bytes of
/// them are written.
#[tactic(auto, using(crate::proofs::Written::laws))]
pub fn write_all<K: Sink>(sink: &mut K, bytes: &[u8]) -> Result<(), Failed>
    ensures counts { K.faults sink.old ≤ K.faults sink.new }
    ensures failed { OnErr result (Rose (K.faults sink.old) (K.faults sink.new)) }
    ensures whole { OnOk result (K.written sink.new ≡ appended (K.written sink.old) bytes.now) }
    ensures part { OnErr result (GrewWithin (K.written sink.old) (K.written sink.new) bytes.now) }
{
    let mut done = 0;
    while done < bytes.len() {
        let (_, rest) = bytes.split_at(done);
        done += sink.write(rest)?;
    }
    Ok(())
}

/// A sink in memory of bounded room, which takes bytes in pieces and fails at chosen calls.
#[derive(Drop)]
pub struct MemSink {
    bytes: Vec<u8>,
    room: usize,
    piece: usize,
    failing: Vec<u64>,
    calls: u64,
    faults: u64,
}

impl Model for MemSink {
    ghost use Rattle.std.specs.Prelude.{◌≤◌, vec_capacity, vec_len};
    ghost use Rattle.clu_base.specs.InMemory.{SinkState};

    ghost Value = { SinkState };

    ghost view = { λ s. record { bytes = s.bytes.items; room = s.room; piece = s.piece; failing = s.failing.items; calls = s.calls; failed = s.faults } };

    ghost invariant = { λ s. (vec_len s.bytes ≤ s.room) × (s.room ≤ vec_capacity s.bytes) × (1 ≤ s.piece) };
}

impl MemSink {
    /// An empty sink that takes at most `room` bytes in all and at most `piece` of them at once.
    /// The calls whose numbers, from 0, are in `failing` fail and take nothing, and so does a
    /// call where the room is used up. The only error is that memory for the room runs out.
    pub fn new(
        alloc: Global,
        room: usize,
        piece: usize,
        failing: Vec<u64>,
    ) -> Result<MemSink, Memory>
        requires { 1 ≤ piece }
        ensures { IfOk result (λ sink. sink ≡ record { bytes = []; room = room; piece = piece; failing = failing.items; calls = 0; failed = 0 }) }
    {
        Ok(MemSink {
            bytes: Vec::with_capacity(alloc, room)?,
            room,
            piece,
            failing,
            calls: 0,
            faults: 0,
        })
    }

    /// The bytes written so far.
    pub fn bytes(&self) -> &[u8]
        ensures { result.now ≡ self.now.bytes }
    {
        self.bytes.as_slice()
    }
}

impl Sink for MemSink {
    ghost written = { λ s. Some s.bytes };

    ghost faults = { λ s. s.failed };

    #[tactic(auto, unfolding(crate::specs::Outside::appended))]
    fn write(&mut self, bytes: &[u8]) -> Result<usize, Failed>
        ensures counts { self.old.failed ≤ self.new.failed }
        ensures failed { OnErr result (Rose self.old.failed self.new.failed) }
        ensures within { IfOk result (λ n. n ≤ length bytes.now) }
        ensures some { IfOk result (λ n. 0 < length bytes.now → 0 < n) }
        ensures grew { IfOk result (λ n. Some self.new.bytes ≡ appended (Some self.old.bytes) (take n bytes.now)) }
        ensures kept { OnErr result (Some self.new.bytes ≡ Some self.old.bytes) }

        // More than the trait says: which calls fail, how much the others take, and the counts.
        ensures fails { IsErr result ↔ (Contains self.old.failing self.old.calls ⊎ (self.old.room ≤ length self.old.bytes)) }
        ensures amount { IfOk result (λ n. n ≡ min self.old.piece (min (length bytes.now) (self.old.room - length self.old.bytes))) }
        ensures called { self.new.calls ≡ next_count self.old.calls }
        ensures fault { OnErr result (self.new.failed ≡ next_count self.old.failed) }
        ensures no_fault { OnOk result (self.new.failed ≡ self.old.failed) }
    {
        let fails = self.failing.contains(&self.calls) || self.bytes.len() >= self.room;
        self.calls = self.calls.saturating_add(1);
        if fails {
            self.faults = self.faults.saturating_add(1);
            return Err(Failed);
        }
        let room = self.room - self.bytes.len();
        let (taken, _) = bytes.split_at(self.piece.min(bytes.len()).min(room));
        match self.bytes.extend_from_slice(taken) {
            Ok(()) => Ok(taken.len()),
            Err(_) => unreachable!(),
        }
    }
}
