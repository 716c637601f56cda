//! The terminal, the pipes and the disk of a process as the streams and the store that the commands work on. A file is
//! replaced whole, so that no failure leaves a part of it, and two programs that replace one are kept apart by a lock.
#![tactic(auto)]

mod disk;
mod limits;
mod locking;
mod replacing;
mod streams;

pub use crate::disk::Disk;
pub use crate::limits::Limited;
pub use crate::streams::{InputStream, OutputStream};
