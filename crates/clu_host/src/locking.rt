//! The lock that keeps programs apart which put the same file: a file beside it, which is there while it is held.

use std::fs::{self, File, OpenFile};
use std::io::{self, ErrorKind};
use std::os::unix::fs::MetadataExt;
use std::rt::{Clock, Files};
use std::thread;
use std::time::Duration;

/// How often a lock that another program holds is tried, and the pause between, in milliseconds: two seconds in all.
const TRIES: u32 = 200;

const PAUSE: u64 = 10;

/// Makes the file `name` and locks it, or waits until its holder has freed it. The error is `WouldBlock` if it doesn't.
pub fn lock<R: Files<File = File> + Clock>(rt: &R, name: &str) -> io::Result<File> {
    for _ in 0..TRIES {
        match try_lock(rt, name) {
            Err(error) if may_go_on(error.kind()) => {
                thread::sleep(rt, Duration::from_millis(PAUSE));
            }
            answer => return answer,
        }
    }
    Err(io::Error::from(ErrorKind::WouldBlock))
}

/// Frees a lock. Its file is removed while it is held, so that who waits for it sees that it is gone; one that can't be
/// removed is free all the same.
pub fn unlock<R: Files<File = File>>(rt: &R, name: &str, held: File) {
    let _ = fs::remove_file(rt, name);
    drop(held);
}

// Whether an error says that the file is held, or has come or gone since it was looked for.
fn may_go_on(kind: ErrorKind) -> bool {
    matches!(
        kind,
        ErrorKind::WouldBlock | ErrorKind::AlreadyExists | ErrorKind::NotFound
    )
}

fn try_lock<R: Files<File = File>>(rt: &R, name: &str) -> io::Result<File> {
    let file = lock_file(rt, name)?;
    file.try_lock()?;
    let held = file.metadata()?;
    let found = fs::symlink_metadata(rt, name)?;
    if found.dev() == held.dev() && found.ino() == held.ino() {
        Ok(file)
    } else {
        Err(io::Error::from(ErrorKind::WouldBlock))
    }
}

// The file of a lock, made where there is none. It is opened to be written too, since some file systems (NFS) lock no
// other, but where it is another user's.
fn lock_file<R: Files<File = File>>(rt: &R, name: &str) -> io::Result<File> {
    match File::options().read(true).write(true).open(rt, name) {
        Err(error) if error.kind() == ErrorKind::NotFound => File::create_new(rt, name),
        Err(error) if error.kind() == ErrorKind::PermissionDenied => File::open(rt, name),
        opened => opened,
    }
}
