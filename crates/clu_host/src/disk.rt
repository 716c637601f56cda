//! The files of the system as a store. It tells no contents, since others may change a disk.

ghost use Rattle.std.specs.Prelude.{◌≡◌, ◌≤◌, ℕ, Err, Option, None};
ghost use Rattle.clu_base.specs.Outside.{Rose};

use crate::replacing::put_file;
use clu_base::{Store, StoreError};
use std::alloc::Global;
use std::collections::BTreeMap;
use std::fs::{File, OpenFile};
use std::io::{self, ErrorKind, Read};
use std::rt::{Clock, Files};

/// The most bytes of a regular file that is read whole; a larger one is a fault.
const FILE_LIMIT: u64 = 1 << 30;

/// The most bytes that are read of what is no regular file; more are a fault.
const STREAM_LIMIT: u64 = 1 << 26;

/// How much of a file is wanted: all of it, or its first bytes.
#[derive(Clone, Copy)]
enum Part {
    Whole,
    First(u64),
}

/// The files that the runtime reaches. What was read under a name is kept, so that a put under it is refused if another
/// program has changed the file since.
#[derive(Drop)]
pub struct Disk<'a, R: Files<File = File> + Clock + AllocGlobal> {
    rt: &'a R,
    read: BTreeMap<String, Option<Vec<u8>>>,
    faults: u64,
}

impl<'a, R: Files<File = File> + Clock + AllocGlobal> Disk<'a, R> {
    pub fn new(rt: &'a R) -> Disk<'a, R> {
        Disk {
            rt,
            read: BTreeMap::new(rt.alloc()),
            faults: 0,
        }
    }

    // Counts a fault.
    fn failed(&mut self) -> StoreError
        ensures failed { result ≡ StoreError.Failed }
        ensures counts { self.old.faults ≤ self.new.faults }
        ensures rose { Rose self.old.faults self.new.faults }
    {
        self.faults = self.faults.saturating_add(1);
        StoreError::Failed
    }

    // What an error of the system is: want of memory, or a fault.
    fn error(&mut self, error: io::Error) -> StoreError
        ensures counts { self.old.faults ≤ self.new.faults }
        ensures failed { result ≡ StoreError.Failed → Rose self.old.faults self.new.faults }
    {
        if error.kind() == ErrorKind::OutOfMemory {
            StoreError::Memory
        } else {
            self.failed()
        }
    }

    // A part of a file, or None if there is no file.
    fn read_part(
        &mut self,
        alloc: Global,
        name: &str,
        part: Part,
    ) -> Result<Option<Vec<u8>>, StoreError>
        ensures counts { self.old.faults ≤ self.new.faults }
        ensures failed { result ≡ Err StoreError.Failed → Rose self.old.faults self.new.faults }
    {
        match read_file(self.rt, alloc, name, part) {
            Ok(bytes) => Ok(Some(bytes)),
            Err(error) if error.kind() == ErrorKind::NotFound => Ok(None),
            Err(error) => Err(self.error(error)),
        }
    }
}

impl<R: Files<File = File> + Clock + AllocGlobal> Store for Disk<'_, R> {
    ghost files = { λ _. None };

    ghost faults = { λ d. d.faults };

    fn get(&mut self, alloc: Global, name: &str) -> Result<Option<Vec<u8>>, StoreError> {
        let content = self.read_part(alloc, name, Part::Whole)?;
        let kept = match &content {
            Some(bytes) => Some(bytes.to_vec(alloc)?),
            None => None,
        };
        self.read.insert(String::from_str(alloc, name)?, kept)?;
        Ok(content)
    }

    fn get_first(
        &mut self,
        alloc: Global,
        name: &str,
        most: usize,
    ) -> Result<Option<Vec<u8>>, StoreError> {
        self.read_part(alloc, name, Part::First(most as u64))
    }

    // A put that fails leaves the old content, but where the file had to be written in place the first bytes of the new one.
    fn put(&mut self, alloc: Global, name: &str, bytes: &[u8]) -> Result<(), StoreError> {
        match put_file(self.rt, alloc, name, bytes, self.read.get(name)) {
            Ok(()) => {
                self.read.remove(name);
                Ok(())
            }
            Err(error) => Err(self.error(error)),
        }
    }
}

// A call of the system that a signal interrupts is tried again, a bounded number of times, by the calls of std that are
// used here.
fn read_file<R: Files<File = File>>(
    rt: &R,
    alloc: Global,
    name: &str,
    part: Part,
) -> io::Result<Vec<u8>> {
    let file = File::open(rt, name)?;
    let found = file.metadata()?;
    let limit = if found.is_file() {
        FILE_LIMIT
    } else {
        STREAM_LIMIT
    };
    let most = match part {
        Part::Whole if found.len() > limit => {
            return Err(io::Error::from(ErrorKind::FileTooLarge));
        }
        Part::Whole => limit + 1,
        Part::First(most) => most.min(limit + 1),
    };
    let mut bytes = Vec::new(alloc);
    file.take(most).read_to_end(&mut bytes)?;
    if bytes.len() as u64 > limit {
        return Err(io::Error::from(ErrorKind::FileTooLarge));
    }
    Ok(bytes)
}
