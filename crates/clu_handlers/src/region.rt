//! A region of code, and what is found there.

ghost use Rattle.std.specs.Prelude.{◌≡◌, ◌<◌, ◌^◌, length};

use crate::arms::first_named;
use clu_base::Bytes;
use clu_wir::Arm;

/// The places of a routine's code from `first` to `last`, both of them in it, whose exceptions its arms handle.
#[derive(Drop)]
pub struct Region {
    pub first: u32,
    pub last: u32,
    /// The number of the innermost region round it.
    pub parent: Option<u32>,
    pub arms: Vec<Arm>,
    pub ghost few_arms: { length arms.items < 2 ^ 32 },
}

/// An arm, by the numbers of its region and of it among the region's arms.
#[derive(Clone, Copy, PartialEq, Eq)]
pub struct Found {
    pub region: u32,
    pub arm: u32,
}

/// A place from which on another region may be the innermost.
#[derive(Clone, Copy, PartialEq, Eq)]
pub struct Cut {
    pub from: u32,
    /// The number of the innermost region from there on, or `NO_REGION`.
    pub region: u32,
}

/// The number that stands for no region.
pub const NO_REGION: u32 = 0xffff_ffff;

impl Region {
    ghost use Rattle.std.specs.Prelude.{◌≡◌};
    ghost use Rattle.clu_handlers.specs.Arms.{arm_for};
    ghost use Rattle.clu_handlers.specs.Regions.{is_in, is_round, arm_at};

    /// Whether a place is in it.
    pub fn is_round(&self, pc: u32) -> bool
        ensures { result ≡ is_round self.now pc }
    {
        self.first <= pc && pc <= self.last
    }

    /// Whether it holds the places from `first` to `last`.
    pub fn holds(&self, first: u32, last: u32) -> bool
        ensures { result ≡ is_in first last (Some self.now) }
    {
        self.first <= first && last <= self.last
    }

    /// The number of the arm that takes a name: one of this name before one for all others.
    pub fn arm_for(&self, name: &Bytes) -> Option<u32>
        ensures { result ≡ arm_for self.now.arms.items name.now }
    {
        let arms = self.arms.as_slice();
        match first_named(arms, name.as_slice()) {
            Some(arm) => Some(arm as u32),
            None => match first_named(arms, b"") {
                Some(arm) => Some(arm as u32),
                None => None,
            },
        }
    }

    /// The same, if a place is in it.
    pub fn arm_at(&self, pc: u32, name: &Bytes) -> Option<u32>
        ensures { result ≡ arm_at self.now pc name.now }
    {
        if self.is_round(pc) {
            self.arm_for(name)
        } else {
            None
        }
    }
}
