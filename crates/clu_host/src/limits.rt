//! The limit that the system sets on the size of files. A write beyond it would end the process by a signal, so it is
//! asked before.

use std::fs::{self, File, OpenFile};
use std::io::{self, ErrorKind, Read};
use std::rt::Files;

/// Where Linux tells a process its limits (proc(5)).
const LIMITS: &str = "/proc/self/limits";

/// The line of that file on the size of a file begins so. After it comes the limit that counts: a number, or a word if
/// there is none.
const FILE_SIZE: &str = "Max file size";

/// The most bytes of that file that are read. It has some 1,400.
const LIMITS_SIZE: usize = 4096;

/// The most bytes that a file may have which this process writes: without end if the system doesn't tell it.
pub fn largest_file<R: Files<File = File>>(rt: &R) -> u64 {
    limit_on_files(rt).unwrap_or(u64::MAX)
}

fn limit_on_files<R: Files<File = File>>(rt: &R) -> Option<u64> {
    let mut bytes = [0u8; LIMITS_SIZE];
    let mut file = File::open(rt, LIMITS).ok()?;
    let read = file.read(&mut bytes).ok()?;
    let text = str::from_utf8(bytes.get(..read)?).ok()?;
    let limits = text.lines().find_map(|line| line.strip_prefix(FILE_SIZE))?;
    limits.split_whitespace().next()?.parse().ok()
}

/// A writer to a file of the system that writes no more than the file may still grow by.
#[derive(Drop)]
pub struct Limited<'a, R, W> {
    rt: &'a R,
    name: &'a str,
    writer: W,
    left: u64,
}

impl<'a, R: Files<File = File>, W: io::Write> Limited<'a, R, W> {
    /// `writer` writes to the file that `name` names, as `/dev/stdout`.
    pub fn new(rt: &'a R, name: &'a str, writer: W) -> Limited<'a, R, W> {
        Limited {
            rt,
            name,
            writer,
            left: 0,
        }
    }

    // How many bytes may be written now. A pipe or a terminal has no limit.
    fn room(&self) -> u64 {
        match fs::metadata(self.rt, self.name) {
            Ok(found) if found.is_file() => largest_file(self.rt).saturating_sub(found.len()),
            _ => u64::MAX,
        }
    }
}

impl<R: Files<File = File>, W: io::Write> io::Write for Limited<'_, R, W> {
    // The limit is asked again once as much was written as there was room for, since others may write to the same file.
    fn write(&mut self, bytes: &[u8]) -> io::Result<usize> {
        if self.left < bytes.len() as u64 {
            self.left = self.room();
        }
        if self.left == 0 && !bytes.is_empty() {
            return Err(io::Error::from(ErrorKind::FileTooLarge));
        }
        let most = usize::try_from(self.left).unwrap_or(usize::MAX);
        let (first, _) = bytes.split_at(most.min(bytes.len()));
        let written = self.writer.write(first)?;
        self.left = self.left.saturating_sub(written as u64);
        Ok(written)
    }

    fn flush(&mut self) -> io::Result<()> {
        self.writer.flush()
    }
}
