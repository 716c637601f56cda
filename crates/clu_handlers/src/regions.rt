//! The regions of a routine, in the order in which they were added.

ghost use Rattle.std.specs.Prelude.{◌≡◌, ◌&&◌, nat_le, drop, ◌<◌, ◌+◌, ◌^◌, ◌↔◌, ◌++◌, ◌∷◌, ℕ, [], length, slice_get, IsTrue, IfSome, IfNone, IfOk, OnOk, OnErr};
ghost use Rattle.std.specs.List.{list_all};
ghost use Rattle.std.specs.Option.{option_copied};
ghost use Rattle.clu_handlers.specs.Regions.{are_nested, can_add, arm_in, found_behind, is_apart, is_in, IsInnermost};

use crate::region::{Found, Region};
use clu_base::{Bytes, Memory};
use clu_wir::{Arm, RegionBuilder};
use std::alloc::Global;
use std::marker::Model;

/// The regions of a routine, each before those inside it. A region has a number, which counts from 0.
#[derive(Drop)]
pub struct Regions {
    items: Vec<Region>,
}

impl Model for Regions {
    ghost use Rattle.std.specs.Prelude.{◌<◌, ◌^◌, List, length, IsTrue};
    ghost use Rattle.clu_handlers.specs.declared.region.Region.{Region};
    ghost use Rattle.clu_handlers.specs.Regions.{are_nested};

    ghost Value = { List Region };

    ghost view = { λ r. r.items.items };

    ghost invariant = { λ r. (length r.items.items < 2 ^ 32) × IsTrue (are_nested r.items.items) };
}

/// Whether each of the regions from a number on lies wholly outside a range.
fn are_apart(regions: &[Region], from: usize, first: u32, last: u32) -> bool
    ensures { result ≡ list_all (is_apart first last) (drop from regions.now) }
{
    regions
        .iter()
        .skip(from)
        .all(|region| region.last < first || last < region.first)
}

/// Whether a range lies in a region and apart from those from a number on.
fn fits(regions: &[Region], from: usize, round: &Region, first: u32, last: u32) -> bool
    ensures { result ≡ (nat_le first last && (is_in first last (Some round.now) && list_all (is_apart first last) (drop from regions.now))) }
{
    first <= last && (round.holds(first, last) && are_apart(regions, from, first, last))
}

/// The last of the regions round a place with an arm for a name, and that arm.
fn last_with_arm(regions: &[Region], pc: u32, name: &Bytes) -> Option<Found>
    requires { length regions.now < 2 ^ 32 }
    ensures { result ≡ found_behind None 0 regions.now pc name.now }
{
    let mut found = None;
    for (number, region) in regions.iter().enumerate() {
        if let Some(arm) = region.arm_at(pc, name) {
            found = Some(Found {
                region: number as u32,
                arm,
            });
        }
    }
    found
}

impl Regions {
    /// No regions.
    pub fn new(alloc: Global) -> Regions
        ensures { result ≡ [] }
    {
        Regions {
            items: Vec::new(alloc),
        }
    }

    /// How many regions there are.
    pub fn len(&self) -> usize
        ensures { result ≡ length self.now }
    {
        self.items.len()
    }

    pub fn is_empty(&self) -> bool
        ensures { IsTrue result ↔ (self.now ≡ []) }
    {
        self.items.is_empty()
    }

    /// The region with a number.
    pub fn at(&self, number: u32) -> Option<&Region>
        ensures { option_copied result ≡ slice_get self.now number }
    {
        self.items.get(number as usize)
    }

    /// All of them. Each may be added to those before it.
    pub fn as_slice(&self) -> &[Region]
        ensures same { result.now ≡ self.now }
        ensures few { length self.now < 2 ^ 32 }
        ensures nested { IsTrue (are_nested self.now) }
    {
        self.items.as_slice()
    }

    /// Whether the region of the places from `first` to `last` may be added inside the region `parent`.
    pub fn can_add(&self, first: u32, last: u32, parent: Option<u32>) -> bool
        ensures { result ≡ can_add self.now first last parent }
    {
        let regions = self.as_slice();
        match parent {
            None => first <= last && are_apart(regions, 0, first, last),
            Some(number) => match self.at(number) {
                Some(round) => fits(regions, number as usize + 1, round, first, last),
                None => false,
            },
        }
    }

    /// Adds a region, and answers its number. The only error is that memory runs out, and then nothing was added.
    pub fn insert(&mut self, region: Region) -> Result<u32, Memory>
        requires fits { IsTrue (can_add self.old region.first region.last region.parent) }
        requires few { length self.old + 1 < 2 ^ 32 }
        ensures number { IfOk result (λ number. number ≡ length self.old) }
        ensures added { OnOk result (self.new ≡ self.old ++ region ∷ []) }
        ensures err { OnErr result (self.new ≡ self.old) }
    {
        let number = self.items.len() as u32;
        self.items.push(region)?;
        Ok(number)
    }

    /// The arm that an exception of this name finds at a place.
    pub fn find(&self, pc: u32, name: &Bytes) -> Option<Found>
        ensures found { IfSome result (IsInnermost self.now pc name.now) }
        ensures none { IfNone result ((n : ℕ) → arm_in self.now pc name.now n ≡ None) }
    {
        last_with_arm(self.as_slice(), pc, name)
    }
}

impl RegionBuilder for Regions {
    ghost use Rattle.std.specs.Prelude.{map};
    ghost use Rattle.clu_handlers.specs.Seen.{seen};

    ghost regions = { λ r. map seen r };

    #[tactic(auto, using(crate::proofs::Seeing::seeing))]
    fn add(
        &mut self,
        _alloc: Global,
        first: u32,
        last: u32,
        parent: Option<u32>,
        arms: Vec<Arm>,
    ) -> Result<u32, Memory> {
        Ok(self.insert(Region {
            first,
            last,
            parent,
            arms,
        })?)
    }

    fn clear(&mut self) {
        self.items.clear();
    }
}
