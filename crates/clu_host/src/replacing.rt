//! How a file gets its content: a new file beside it is written whole, and takes its name.

use crate::limits::largest_file;
use crate::locking::{lock, unlock};
use std::alloc::Global;
use std::fs::{self, File, Metadata, OpenFile};
use std::io::{self, ErrorKind, Read, Write};
use std::os::unix::fs::MetadataExt;
use std::rt::{Clock, Files};

/// The endings of the names of the new file and of the lock that stand beside a file while it is put.
const NEW: &str = ".clu-new";

const LOCK: &str = ".clu-lock";

/// How many bytes are compared at once.
const PIECE: usize = 65536;

/// Gives the file `name` the bytes. `read` is what was read under the name before, None if there was no file; if something
/// else stands there now the error is `ResourceBusy`.
///
/// Where there is a regular file or none its content is replaced whole: after an error it is as before. What is no regular
/// file, or stands where no file can be made, is written in place.
pub fn put_file<R: Files<File = File> + Clock>(
    rt: &R,
    alloc: Global,
    name: &str,
    bytes: &[u8],
    read: Option<&Option<Vec<u8>>>,
) -> io::Result<()> {
    let old = match what_stands(rt, name)? {
        Standing::Nothing => None,
        Standing::File(found) => Some(found),
        Standing::Other => return write_in_place(rt, name, bytes),
    };
    if bytes.len() as u64 > largest_file(rt) {
        return Err(io::Error::from(ErrorKind::FileTooLarge));
    }
    let target = target_of(rt, alloc, name, &old)?;
    let lock_name = beside(alloc, &target, LOCK)?;
    match lock(rt, &lock_name) {
        Ok(held) => {
            let put = replace(rt, alloc, &target, bytes, &old, read);
            unlock(rt, &lock_name, held);
            put
        }
        Err(error) if takes_no_file(error.kind()) => {
            compare(rt, alloc, &target, read)?;
            write_in_place(rt, name, bytes)
        }
        Err(error) => Err(error),
    }
}

/// What stands under a name: a regular file, also by a symbolic link, or something that has to be written in place, as a
/// device, a pipe, or a link to what is not there.
#[derive(Drop)]
enum Standing {
    Nothing,
    File(Metadata),
    Other,
}

fn what_stands<R: Files>(rt: &R, name: &str) -> io::Result<Standing> {
    match fs::metadata(rt, name) {
        Ok(found) if found.is_file() => Ok(Standing::File(found)),
        Ok(_) => Ok(Standing::Other),
        Err(error) if error.kind() == ErrorKind::NotFound => match fs::symlink_metadata(rt, name) {
            Ok(_) => Ok(Standing::Other),
            Err(_) => Ok(Standing::Nothing),
        },
        Err(error) => Err(error),
    }
}

// Whether an error says that no file can be made in a folder.
fn takes_no_file(kind: ErrorKind) -> bool {
    matches!(
        kind,
        ErrorKind::PermissionDenied
            | ErrorKind::ReadOnlyFilesystem
            | ErrorKind::InvalidFilename
            | ErrorKind::Unsupported
    )
}

// The name of the file itself, where `name` is that of a symbolic link to it.
fn target_of<R: Files>(
    rt: &R,
    alloc: Global,
    name: &str,
    old: &Option<Metadata>,
) -> io::Result<String> {
    match old {
        Some(_) if fs::symlink_metadata(rt, name)?.is_symlink() => {
            Ok(rt.canonicalize(alloc, name)?.into_string())
        }
        _ => Ok(String::from_str(alloc, name)?),
    }
}

fn beside(alloc: Global, name: &str, ending: &str) -> io::Result<String> {
    let mut text = String::from_str(alloc, name)?;
    text.push_str(ending)?;
    Ok(text)
}

fn write_in_place<R: Files>(rt: &R, name: &str, bytes: &[u8]) -> io::Result<()> {
    let mut file = File::create(rt, name)?;
    file.write_all(bytes)
}

// Under the lock: the new file is written and takes the name. One that a program left which was ended goes first.
fn replace<R: Files>(
    rt: &R,
    alloc: Global,
    name: &str,
    bytes: &[u8],
    old: &Option<Metadata>,
    read: Option<&Option<Vec<u8>>>,
) -> io::Result<()> {
    compare(rt, alloc, name, read)?;
    let new = beside(alloc, name, NEW)?;
    remove_if_there(rt, &new)?;
    let put = match write_new(rt, &new, bytes, old) {
        Ok(()) => fs::rename(rt, &new, name),
        Err(error) => Err(error),
    };
    if put.is_err() {
        // The first error is the one to be reported.
        let _ = fs::remove_file(rt, &new);
    }
    put
}

fn remove_if_there<R: Files>(rt: &R, name: &str) -> io::Result<()> {
    match fs::remove_file(rt, name) {
        Err(error) if error.kind() == ErrorKind::NotFound => Ok(()),
        removed => removed,
    }
}

// Writes a new file with the mode of the old one, and its group where the system lets us.
fn write_new<R: Files>(rt: &R, name: &str, bytes: &[u8], old: &Option<Metadata>) -> io::Result<()> {
    let mut file = File::create_new(rt, name)?;
    if let Some(old) = old {
        let _ = rt.chown(name, None, Some(old.gid()));
        file.set_permissions(old.permissions())?;
    }
    file.write_all(bytes)?;
    file.sync_all()
}

// Fails with `ResourceBusy` if what was read under a name doesn't stand there still. Nothing is compared where nothing was
// read.
fn compare<R: Files>(
    rt: &R,
    alloc: Global,
    name: &str,
    read: Option<&Option<Vec<u8>>>,
) -> io::Result<()> {
    match read {
        Some(read) if !is_unchanged(rt, alloc, name, read)? => {
            Err(io::Error::from(ErrorKind::ResourceBusy))
        }
        _ => Ok(()),
    }
}

fn is_unchanged<R: Files>(
    rt: &R,
    alloc: Global,
    name: &str,
    read: &Option<Vec<u8>>,
) -> io::Result<bool> {
    match File::open(rt, name) {
        Ok(mut file) => match read {
            Some(bytes) => holds(alloc, &mut file, bytes),
            None => Ok(false),
        },
        Err(error) if error.kind() == ErrorKind::NotFound => Ok(read.is_none()),
        Err(error) => Err(error),
    }
}

// Whether a file holds just these bytes.
fn holds<F: Read>(alloc: Global, file: &mut F, bytes: &[u8]) -> io::Result<bool> {
    let mut piece = vec![in alloc; 0u8; PIECE]?;
    for wanted in bytes.chunks(PIECE) {
        if !begins_with(file, &mut piece, wanted)? {
            return Ok(false);
        }
    }
    Ok(file.read(&mut piece)? == 0)
}

// Whether the bytes that are read next are these. `piece` has room for them, else they aren't.
fn begins_with<F: Read>(file: &mut F, piece: &mut [u8], wanted: &[u8]) -> io::Result<bool> {
    let Some(found) = piece.get_mut(..wanted.len()) else {
        return Ok(false);
    };
    match file.read_exact(found) {
        Ok(()) => Ok(*found == *wanted),
        Err(error) if error.kind() == ErrorKind::UnexpectedEof => Ok(false),
        Err(error) => Err(error),
    }
}
