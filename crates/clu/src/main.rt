//! The program `clu`: its arguments become words, and the terminal, the pipes and the disk of the process are handed to
//! the command that they say.
#![tactic(auto)]

use clu_base::{Memory, Sink};
use clu_driver::clu;
use clu_host::{Disk, InputStream, Limited, OutputStream};
use clu_outcome::{Outcome, report};
use std::alloc::Global;
use std::env;
use std::io::ErrorKind;
use std::process::ExitCode;
use std::rt::Env;

fn main(rt: HostRuntime) -> ExitCode {
    let mut input = InputStream::new(rt.stdin());
    let mut output = OutputStream::new(Limited::new(&rt, "/dev/stdout", rt.stdout()));
    let mut errors = OutputStream::new(Limited::new(&rt, "/dev/stderr", rt.stderr()));
    let mut files = Disk::new(&rt);
    let status = match words(&rt) {
        Ok(words) => clu(
            rt.alloc(),
            &words,
            &mut input,
            &mut output,
            &mut errors,
            &mut files,
        ),
        Err(Memory) => report(&mut errors, &Outcome::Memory),
    };
    ExitCode::from(status)
}

/// The program's arguments without its own name. None are handed in where one is not UTF-8.
fn words<R: Env + AllocGlobal>(rt: &R) -> Result<Vec<String>, Memory> {
    let mut words = Vec::new(rt.alloc());
    match env::args(rt) {
        Ok(arguments) => {
            for argument in arguments.skip(1) {
                words.push(argument)?;
            }
            Ok(words)
        }
        Err(error) if error.kind() == ErrorKind::OutOfMemory => Err(Memory),
        Err(_) => Ok(words),
    }
}
