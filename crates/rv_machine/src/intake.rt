//! The input that the machine has read ahead: the source is asked for a piece only when no byte of
//! the last one is left.

ghost use Rattle.std.specs.Prelude.{◌≡◌, ◌≤◌, ◌<◌, true, length, [], slice_get, drop, IfOk, OnOk, OnErr};
ghost use Rattle.clu_base.specs.Outside.{Rose};

use clu_base::{Failed, Memory, Source};
use std::alloc::Global;
use std::marker::Model;

/// The most bytes that are asked for at once.
const PIECE: usize = 4096;

/// Bytes of the input between `from` and `to` that the program has still to be given.
#[derive(Drop)]
pub struct Intake {
    piece: Vec<u8>,
    from: usize,
    to: usize,
    at_end: bool,
}

impl Model for Intake {
    ghost use Rattle.std.specs.Prelude.{◌-◌, ◌<◌, ◌≤◌, take, drop, vec_len};
    ghost use Rattle.rv_machine.specs.Input.{Kept};

    ghost Value = { Kept };

    ghost view = { λ i. record { bytes = take (i.to - i.from) (drop i.from i.piece.items); at_end = i.at_end } };

    ghost invariant = { λ i. (i.from ≤ i.to) × (i.to ≤ vec_len i.piece) × (0 < vec_len i.piece) };
}

impl Intake {
    ghost use Rattle.std.specs.Prelude.{◌≡◌, ◌≤◌, false, true, [], drop, slice_get, IfOk, OnOk, OnErr};
    ghost use Rattle.rv_machine.specs.Input.{Kept, SameInput};

    /// No input yet. The only error is that memory runs out.
    pub fn new(alloc: Global) -> Result<Intake, Memory>
        ensures { IfOk result (λ i. i ≡ record { bytes = []; at_end = false }) }
    {
        let piece = vec![in alloc; 0u8; PIECE]?;
        Ok(Intake {
            piece,
            from: 0,
            to: 0,
            at_end: false,
        })
    }

    /// Reads a piece if no byte is kept and the end was not met. Then a byte is kept, or the end
    /// was met.
    pub fn fill<S: Source>(&mut self, input: &mut S) -> Result<(), Failed>
        ensures filled { OnOk result (self.new.bytes ≡ [] → self.new.at_end ≡ true) }
        ensures same { OnOk result (SameInput self.old (S.left input.old) self.new (S.left input.new)) }
        ensures kept { OnErr result (self.new ≡ self.old) }
        ensures left { OnErr result (S.left input.new ≡ S.left input.old) }
        ensures counts { S.faults input.old ≤ S.faults input.new }
        ensures failed { OnErr result (Rose (S.faults input.old) (S.faults input.new)) }
    {
        if self.from < self.to || self.at_end {
            return Ok(());
        }
        self.read(input)
    }

    fn read<S: Source>(&mut self, input: &mut S) -> Result<(), Failed>
        requires empty { self.old.bytes ≡ [] }
        requires goes_on { self.old.at_end ≡ false }
        ensures filled { OnOk result (self.new.bytes ≡ [] → self.new.at_end ≡ true) }
        ensures same { OnOk result (SameInput self.old (S.left input.old) self.new (S.left input.new)) }
        ensures kept { OnErr result (self.new ≡ self.old) }
        ensures left { OnErr result (S.left input.new ≡ S.left input.old) }
        ensures counts { S.faults input.old ≤ S.faults input.new }
        ensures failed { OnErr result (Rose (S.faults input.old) (S.faults input.new)) }
    {
        self.from = 0;
        self.to = 0;
        let count = input.read(&mut self.piece)?;
        self.to = count;
        self.at_end = count == 0;
        Ok(())
    }

    /// The first byte kept.
    pub fn first(&self) -> Option<u8>
        ensures { result ≡ slice_get self.now.bytes 0 }
    {
        if self.from < self.to {
            Some(self.piece[self.from])
        } else {
            None
        }
    }

    /// Gives the first byte kept away, if there is one.
    pub fn drop_first(&mut self)
        ensures { self.new ≡ record self.old { bytes = drop 1 self.old.bytes } }
    {
        if self.from < self.to {
            self.from += 1;
        }
    }
}
