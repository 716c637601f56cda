//! The input of a program: the trait of what gives bytes, and a source in memory.

ghost use Rattle.std.specs.Prelude.{◌≡◌, ℕ, ◌<◌, ◌≤◌, ◌++◌, ◌↔◌, min, List, length, take, Option, Some, IsErr, IfOk, OnOk, OnErr, Contains};
ghost use Rattle.clu_base.specs.Outside.{preceded, next_count, IsAtEnd, Rose};

use crate::byte_string::Bytes;
use crate::errors::Failed;
use std::marker::Model;

/// What gives the bytes that a program reads.
///
/// `left` is the list of bytes left to read where the source tells it, and None where it does
/// not, as for a terminal. `faults` counts the calls that failed; it never falls, and stands
/// still at its type's end.
pub trait Source {
    ghost left: { Self → Option (List ℕ) };

    ghost faults: { Self → ℕ };

    /// Takes the next bytes into the front of `buf` and answers how many. Zero for a buffer that
    /// isn't empty is the end. `Failed` comes only where the count of faults rose, and then no
    /// byte was taken.
    fn read(&mut self, buf: &mut [u8]) -> Result<usize, Failed>
        ensures counts { faults self.old ≤ faults self.new }
        ensures failed { OnErr result (Rose (faults self.old) (faults self.new)) }
        ensures within { IfOk result (λ n. n ≤ length buf.old) }
        ensures took { IfOk result (λ n. left self.old ≡ preceded (take n buf.new) (left self.new)) }
        ensures end { IfOk result (λ n. n ≡ 0 → 0 < length buf.old → IsAtEnd (left self.old)) }
        ensures kept { OnErr result (left self.new ≡ left self.old) };
}

/// A source over bytes in memory, which gives them in pieces and fails at chosen calls.
#[derive(Drop)]
pub struct MemSource {
    bytes: Bytes,
    at: usize,
    piece: usize,
    failing: Vec<u64>,
    calls: u64,
    faults: u64,
}

impl Model for MemSource {
    ghost use Rattle.std.specs.Prelude.{◌≤◌, drop, length};
    ghost use Rattle.clu_base.specs.InMemory.{SourceState};

    ghost Value = { SourceState };

    ghost view = { λ s. record { bytes = drop s.at s.bytes; piece = s.piece; failing = s.failing.items; calls = s.calls; failed = s.faults } };

    ghost invariant = { λ s. (s.at ≤ length s.bytes) × (1 ≤ s.piece) };
}

impl MemSource {
    /// A source of these bytes that gives at most `piece` of them at once. The calls whose
    /// numbers, from 0, are in `failing` fail and take nothing.
    pub fn new(bytes: Bytes, piece: usize, failing: Vec<u64>) -> MemSource
        requires { 1 ≤ piece }
        ensures { result ≡ record { bytes = bytes; piece = piece; failing = failing.items; calls = 0; failed = 0 } }
    {
        MemSource {
            bytes,
            at: 0,
            piece,
            failing,
            calls: 0,
            faults: 0,
        }
    }
}

impl Source for MemSource {
    ghost left = { λ s. Some s.bytes };

    ghost faults = { λ s. s.failed };

    #[tactic(auto, unfolding(crate::specs::Outside::preceded))]
    fn read(&mut self, buf: &mut [u8]) -> Result<usize, Failed>
        ensures counts { self.old.failed ≤ self.new.failed }
        ensures failed { OnErr result (Rose self.old.failed self.new.failed) }
        ensures within { IfOk result (λ n. n ≤ length buf.old) }
        ensures took { IfOk result (λ n. Some self.old.bytes ≡ preceded (take n buf.new) (Some self.new.bytes)) }
        ensures end { IfOk result (λ n. n ≡ 0 → 0 < length buf.old → IsAtEnd (Some self.old.bytes)) }
        ensures kept { OnErr result (Some self.new.bytes ≡ Some self.old.bytes) }

        // More than the trait says: which calls fail, how much the others give, and the counts.
        ensures fails { IsErr result ↔ Contains self.old.failing self.old.calls }
        ensures amount { IfOk result (λ n. n ≡ min self.old.piece (min (length buf.old) (length self.old.bytes))) }
        ensures called { self.new.calls ≡ next_count self.old.calls }
        ensures fault { OnErr result (self.new.failed ≡ next_count self.old.failed) }
        ensures no_fault { OnOk result (self.new.failed ≡ self.old.failed) }
    {
        let fails = self.failing.contains(&self.calls);
        self.calls = self.calls.saturating_add(1);
        if fails {
            self.faults = self.faults.saturating_add(1);
            return Err(Failed);
        }
        let (_, rest) = self.bytes.as_slice().split_at(self.at);
        let n = self.piece.min(buf.len()).min(rest.len());
        let (given, _) = rest.split_at(n);
        buf.split_at_mut(n).0.copy_from_slice(given);
        self.at += n;
        Ok(n)
    }
}
