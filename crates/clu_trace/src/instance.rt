//! An instance of a program, as a run shows it.

use clu_base::Sequence;

/// An instance of a program.
#[derive(Drop)]
pub struct Instance {
    /// The address of its link table, which no other has.
    pub table: u64,
    /// The numbers of the names that its frame tells, the latest begun first: those of the iterators whose loops stand in
    /// its code in place of calls, and then its own.
    pub entries: Sequence<u32>,
}
