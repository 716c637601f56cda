//! The streams of a process over buffers, and files of a real disk.

use clu_base::{Sink, Source, Store, StoreError, write_all};
use clu_host::{Disk, InputStream, OutputStream};
use std::alloc::Global;
use std::fmt::Write;
use std::fs;
use std::test::Fail;

#[test]
fn streams_of_a_process(rt: HostRuntime) -> Result<(), Fail> {
    let mut text = String::new(rt.alloc());
    let mut buf = [b'-'; 2];
    let mut input = InputStream::new(b"abc".as_slice());
    for _ in 0..3 {
        let count = input.read(&mut buf).unwrap_or(9);
        write!(text, " {count} {}", str::from_utf8(&buf).unwrap_or("?"))?;
    }
    let mut output = OutputStream::new(Vec::new(rt.alloc()));
    let none = matches!(output.write(b""), Ok(0));
    let all = write_all(&mut output, b"hi\n").is_ok();
    assert!(rt; none && all && text.as_str() == " 2 ab 1 cb 0 cb");
    Ok(())
}

/// Writes what was got of a store.
fn put_got(found: &mut String, got: Result<Option<Vec<u8>>, StoreError>) -> Result<(), Fail> {
    match got {
        Ok(Some(bytes)) => write!(
            found,
            " {}",
            str::from_utf8(bytes.as_slice()).unwrap_or("?")
        )?,
        Ok(None) => found.push_str(" none")?,
        Err(StoreError::Failed) => found.push_str(" failed")?,
        Err(StoreError::Memory) => return Err("out of memory")?,
    }
    Ok(())
}

/// Writes what comes of a file that is put twice, of the disk.
fn put_file<S: Store>(alloc: Global, found: &mut String, disk: &mut S) -> Result<(), Fail> {
    let first = disk.put(alloc, "clu-disk-test", b"first content").is_ok();
    let second = disk.put(alloc, "clu-disk-test", b"second").is_ok();
    write!(found, "{first} {second}")?;
    put_got(found, disk.get(alloc, "clu-disk-test"))?;
    put_got(found, disk.get_first(alloc, "clu-disk-test", 3))
}

#[test]
fn files_of_a_disk(rt: HostRuntime) -> Result<(), Fail> {
    let mut text = String::new(rt.alloc());
    let mut disk = Disk::new(&rt);
    put_file(rt.alloc(), &mut text, &mut disk)?;
    fs::remove_file(&rt, "clu-disk-test")?;
    put_got(&mut text, disk.get(rt.alloc(), "clu-disk-test"))?;
    put_got(&mut text, disk.get(rt.alloc(), "."))?;
    let is_put = disk.put(rt.alloc(), ".", b"").is_ok();
    assert!(rt; !is_put && text.as_str() == "true true second sec none failed");
    Ok(())
}
