//! Flat code in the making: its steps, its labels and its regions.

ghost use Rattle.std.specs.Prelude.{◌≡◌, ◌+◌, ◌<◌, ◌^◌, [], IfOk, IsTrue, OnOk, length, map};
ghost use Rattle.clu_frames.specs.Flattening.{armed, closed, labelled, made, moves_onto, opened, pushed, results_onto, with_regions};
ghost use Rattle.clu_wir.specs.Adding.{are_nested};
ghost use Rattle.clu_frames.specs.Regions.{added_of, changed, ended_at};
ghost use Rattle.clu_frames.specs.Plain as flat;
ghost use Rattle.clu_frames.specs.Plain.{step_of};

use crate::errors::FrameError;
use crate::flat::{FOOT, Flat};
use clu_base::Bytes;
use clu_wir::{Arm, RegionBuilder, WExpr};
use std::alloc::Global;

/// The flat code of a routine in the making.
#[derive(Drop)]
pub struct Steps {
    pub alloc: Global,
    code: Vec<Flat>,
    /// How many labels have numbers.
    labels: u32,
    /// Outer ones before those inside them.
    regions: Vec<Planned>,
}

/// A region whose code may not be whole.
#[derive(Drop)]
struct Planned {
    first: u32,
    last: u32,
    parent: Option<u32>,
    arms: Vec<Arm>,
}

impl Steps {
    /// No steps.
    pub fn new(alloc: Global) -> Steps
        ensures code { result.code.items ≡ [] }
        ensures labels { result.labels ≡ 0 }
        ensures regions { result.regions.items ≡ [] }
    {
        Steps {
            alloc,
            code: Vec::new(alloc),
            labels: 0,
            regions: Vec::new(alloc),
        }
    }

    #[tactic(auto, using(crate::proofs::Pushing::pushing))]
    pub fn push(&mut self, step: Flat) -> Result<(), FrameError>
        ensures made { OnOk result (made self.new ≡ pushed (step_of step) (made self.old)) }
    {
        self.code.push(step)?;
        Ok(())
    }

    /// The place of the step that comes next.
    #[tactic(auto, using(crate::proofs::Pushing::counting))]
    pub fn place(&self) -> Result<u32, FrameError>
        ensures { IfOk result (λ place. place ≡ length (made self.now).code) }
    {
        number(self.code.len())
    }

    /// A number for a label.
    pub fn label(&mut self) -> Result<u32, FrameError>
        ensures first { IfOk result (λ label. label ≡ (made self.old).labels) }
        ensures made { OnOk result (made self.new ≡ labelled 1 (made self.old)) }
    {
        self.labels(1)
    }

    /// So many numbers for labels, by the first of them.
    pub fn labels(&mut self, count: u32) -> Result<u32, FrameError>
        ensures first { IfOk result (λ label. label ≡ (made self.old).labels) }
        ensures made { OnOk result (made self.new ≡ labelled count (made self.old)) }
    {
        let first = self.labels;
        self.labels = above(first, count)?;
        Ok(first)
    }

    /// To the slots the words at the address that travelled.
    pub fn push_results(&mut self, slots: &[u32]) -> Result<(), FrameError>
        ensures made { OnOk result (made self.new ≡ results_onto 0 slots.now (made self.old)) }
    {
        let mut number = 0u32;
        for slot in slots {
            self.push(Flat::Result(*slot, number))?;
            number = above(number, 1)?;
        }
        Ok(())
    }

    /// To the slots the words of those from `from` on.
    pub fn push_moves(&mut self, slots: &[u32], from: u32) -> Result<(), FrameError>
        ensures made { OnOk result (made self.new ≡ moves_onto slots.now from (made self.old)) }
    {
        let mut from = from;
        for slot in slots {
            self.push(Flat::Set(*slot, WExpr::Slot(from)))?;
            from = above(from, 1)?;
        }
        Ok(())
    }

    /// Begins a region, and gives its number.
    #[tactic(auto, using(crate::proofs::Pushing::pushing))]
    pub fn open_region(&mut self, parent: Option<u32>) -> Result<u32, FrameError>
        ensures number { IfOk result (λ number. number ≡ length (made self.old).regions) }
        ensures made { OnOk result (made self.new ≡ opened parent (made self.old)) }
    {
        let region = number(self.regions.len())?;
        let first = self.place()?;
        let arms = Vec::new(self.alloc);
        self.regions.push(Planned {
            first,
            last: first,
            parent,
            arms,
        })?;
        Ok(region)
    }

    /// Pushes the last step of a region: a jump to its end.
    pub fn close_region(&mut self, region: u32, end: u32) -> Result<(), FrameError>
        ensures made { OnOk result (made self.new ≡ closed region end (made self.old)) }
    {
        let last = self.place()?;
        self.end_region(region, last)?;
        self.push(Flat::Jump(end))
    }

    fn end_region(&mut self, region: u32, last: u32) -> Result<(), FrameError>
        ensures made { OnOk result (made self.new ≡ with_regions (changed (ended_at last) region (made self.old).regions) (made self.old)) }
    {
        match self.regions.get_mut(region as usize) {
            Some(planned) => {
                planned.last = last;
                Ok(())
            }
            None => Err(FrameError::NotYet),
        }
    }

    /// Gives a region an arm of a name that begins at the next step, or without one of all other names.
    pub fn add_arm(&mut self, region: u32, name: Bytes, mark: u32) -> Result<(), FrameError>
        ensures made { OnOk result (made self.new ≡ armed region mark name (made self.old)) }
    {
        let target = self.place()?;
        match self.regions.get_mut(region as usize) {
            Some(planned) => {
                planned.arms.push(Arm { name, target, mark })?;
                Ok(())
            }
            None => Err(FrameError::NotYet),
        }
    }

    /// Gives the regions to their builder, and the steps to the caller. Places have numbers of 32 bits.
    pub fn finish<B: RegionBuilder>(self, builder: &mut B) -> Result<Vec<Flat>, FrameError>
        requires none { B.regions builder.old ≡ [] }
        requires nested { IsTrue (are_nested (made self).regions) }
        ensures code { IfOk result (λ code. code.items ≡ self.code.items) }
        ensures few { IfOk result (λ code. length code.items < 2 ^ 32) }
        ensures regions { OnOk result (B.regions builder.new ≡ (made self).regions) }
    {
        let Steps {
            alloc,
            code,
            labels: _,
            regions,
        } = self;
        if code.len() > u32::MAX as usize {
            return Err(FrameError::NotYet);
        }
        give(alloc, regions, builder)?;
        Ok(code)
    }
}

/// Gives regions to a builder that has none.
fn give<B: RegionBuilder>(
    alloc: Global,
    regions: Vec<Planned>,
    builder: &mut B,
) -> Result<(), FrameError>
    requires none { B.regions builder.old ≡ [] }
    requires nested { IsTrue (are_nested (map added_of regions.items)) }
    ensures { OnOk result (B.regions builder.new ≡ map added_of regions.items) }
{
    if regions.len() > u32::MAX as usize {
        return Err(FrameError::NotYet);
    }
    for region in regions {
        let Planned {
            first,
            last,
            parent,
            arms,
        } = region;
        if arms.len() > u32::MAX as usize {
            return Err(FrameError::NotYet);
        }
        builder.add(alloc, first, last, parent, arms)?;
    }
    Ok(())
}

/// A count as a number of 32 bits.
pub fn number(count: usize) -> Result<u32, FrameError>
    ensures { IfOk result (λ number. number ≡ count) }
{
    u32::try_from(count).map_err(|_| FrameError::NotYet)
}

/// The number so many above another, of a slot or a label.
pub fn above(number: u32, count: u32) -> Result<u32, FrameError>
    ensures { IfOk result (λ sum. sum ≡ number + count) }
{
    number.checked_add(count).ok_or(FrameError::NotYet)
}

/// The word of the frame that is this slot.
pub fn mark_of(slot: u32) -> Result<u32, FrameError>
    ensures { IfOk result (λ mark. mark ≡ slot + FOOT) }
{
    above(slot, FOOT)
}
