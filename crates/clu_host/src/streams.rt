//! Standard input, output and error as a source and as sinks. They tell no contents, since no
//! contract can say what a terminal gives or takes.

ghost use Rattle.std.specs.Prelude.{◌≡◌, ◌≤◌, ℕ, IfOk, Option, None, length};

use clu_base::{Failed, Sink, Source};
use std::io::{self, ErrorKind};

/// How often a read or a write is tried that a signal interrupts.
const TRIES: u32 = 64;

/// A reader as the source of a program's input.
#[derive(Drop)]
pub struct InputStream<R> {
    reader: R,
    faults: u64,
}

impl<R> InputStream<R> {
    pub fn new(reader: R) -> InputStream<R> {
        InputStream { reader, faults: 0 }
    }
}

impl<R: io::Read> Source for InputStream<R> {
    ghost left = { λ _. None };

    ghost faults = { λ s. s.faults };

    #[tactic(auto, unfolding(clu_base::specs::Outside::preceded))]
    fn read(&mut self, buf: &mut [u8]) -> Result<usize, Failed> {
        match read_once(&mut self.reader, buf) {
            Ok(n) => Ok(n),
            Err(Failed) => {
                self.faults = self.faults.saturating_add(1);
                Err(Failed)
            }
        }
    }
}

// One read, which is tried again if a signal interrupts it.
fn read_once<R: io::Read>(reader: &mut R, buf: &mut [u8]) -> Result<usize, Failed>
    ensures { IfOk result (λ n. n ≤ length buf.new) }
{
    for _ in 0..TRIES {
        match reader.read(buf) {
            Ok(n) => return Ok(n),
            Err(error) if error.kind() == ErrorKind::Interrupted => {}
            Err(_) => return Err(Failed),
        }
    }
    Err(Failed)
}

/// A writer as the sink of a program's output or of its errors. What is written goes out at once.
#[derive(Drop)]
pub struct OutputStream<W> {
    writer: W,
    faults: u64,
}

impl<W> OutputStream<W> {
    pub fn new(writer: W) -> OutputStream<W> {
        OutputStream { writer, faults: 0 }
    }
}

impl<W: io::Write> Sink for OutputStream<W> {
    ghost written = { λ _. None };

    ghost faults = { λ s. s.faults };

    #[tactic(auto, unfolding(clu_base::specs::Outside::appended))]
    // A writer that takes nothing of a piece has failed.
    fn write(&mut self, bytes: &[u8]) -> Result<usize, Failed> {
        match write_once(&mut self.writer, bytes) {
            Ok(n) if n > 0 || bytes.is_empty() => Ok(n),
            _ => {
                self.faults = self.faults.saturating_add(1);
                Err(Failed)
            }
        }
    }
}

// One write, which is tried again if a signal interrupts it.
fn write_once<W: io::Write>(writer: &mut W, bytes: &[u8]) -> Result<usize, Failed>
    ensures { IfOk result (λ n. n ≤ length bytes.now) }
{
    for _ in 0..TRIES {
        match writer.write(bytes) {
            Ok(n) => return Ok(n),
            Err(error) if error.kind() == ErrorKind::Interrupted => {}
            Err(_) => return Err(Failed),
        }
    }
    Err(Failed)
}
