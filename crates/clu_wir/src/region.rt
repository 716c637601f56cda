//! The regions of a routine's code in which exceptions are handled, as the makers of code see them.

use clu_base::{Bytes, Memory};
use std::alloc::Global;

/// An arm of a region: where it goes on when an exception of this name is raised in the region.
#[derive(Drop, PartialEq, Eq)]
pub struct Arm {
    /// The exception's name; empty for all others.
    pub name: Bytes,
    /// The place in the code at which the arm begins.
    pub target: u32,
    /// The word of the frame that holds the top of the stack to which the arm cuts.
    pub mark: u32,
}

/// What takes the regions of a routine, outer ones before the regions inside them. It is seen as the list of those that were
/// added.
pub trait RegionBuilder {
    ghost use Rattle.std.specs.Prelude.{◌≡◌, ◌<◌, ◌+◌, ◌^◌, ◌++◌, ◌∷◌, [], List, length, IfOk, IsTrue, OnErr, OnOk};
    ghost use Rattle.clu_wir.specs.Adding.{Added, added, can_add};

    ghost regions: { Self → List Added };

    /// Adds the region of the places from `first` to `last`, inside the region `parent`, and answers its number,
    /// which counts from 0. The only error is that memory runs out, and then nothing was added.
    fn add(
        &mut self,
        alloc: Global,
        first: u32,
        last: u32,
        parent: Option<u32>,
        arms: Vec<Arm>,
    ) -> Result<u32, Memory>
        requires fits { IsTrue (can_add (regions self.old) first last parent) }
        requires few { length (regions self.old) + 1 < 2 ^ 32 }
        requires few_arms { length arms.items < 2 ^ 32 }
        ensures number { IfOk result (λ number. number ≡ length (regions self.old)) }
        ensures added { OnOk result (regions self.new ≡ regions self.old ++ added first last parent arms.items ∷ []) }
        ensures err { OnErr result (regions self.new ≡ regions self.old) };

    /// Leaves no region.
    fn clear(&mut self)
        ensures { regions self.new ≡ [] };
}
