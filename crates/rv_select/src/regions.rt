//! Regions of steps as regions of words.

ghost use Rattle.std.specs.Prelude.{◌≡◌, ◌≤◌, ◌+◌, IfOk, OnOk, Some, length, map, nat_le};
ghost use Rattle.rv_select.specs.Mapped.{behind as behind_in, mapped_arm, mapped_region, mapped_regions, parent_of, region_onto, regioned, start_of, with_number};

use crate::error::{Answer, SelectError};
use clu_base::Sequence;
use clu_handlers::{Region as StepRegion, Regions};
use clu_object::{Region, copy_arm};
use clu_wir::Arm;
use std::alloc::Global;

/// The regions so far, and the number that each region of steps has among them.
#[derive(Drop)]
pub(crate) struct Mapped {
    pub regions: Vec<Region>,
    pub numbers: Vec<Option<u32>>,
}

/// The regions of words, where `starts` has the first word of each step and the number of words after them. A region
/// whose steps have no words is left out: nothing is raised in it, and all regions inside it are left out too.
pub(crate) fn map_regions(
    alloc: Global,
    regions: &Regions,
    starts: &[u32],
) -> Answer<Sequence<Region>>
    ensures { IfOk result (λ mapped. mapped ≡ mapped_regions starts.now regions.now) }
{
    let mut mapped = Mapped {
        regions: Vec::new(alloc),
        numbers: Vec::new(alloc),
    };
    for region in regions.as_slice() {
        mapped.add(alloc, region, starts)?;
    }
    Ok(Sequence::from_vec(mapped.regions))
}

impl Mapped {
    /// Adds a region of steps.
    fn add(&mut self, alloc: Global, region: &StepRegion, starts: &[u32]) -> Answer<()>
        ensures { OnOk result (regioned self.new ≡ region_onto starts.now (regioned self.old) region.now) }
    {
        let first = start(starts, region.first)?;
        let behind = start(starts, region.last.saturating_add(1))?;
        self.add_words(alloc, region, starts, first, behind)
    }

    fn add_words(
        &mut self,
        alloc: Global,
        region: &StepRegion,
        starts: &[u32],
        first: u32,
        behind: u32,
    ) -> Answer<()>
        requires first { first ≡ start_of starts.now region.now.first }
        requires behind { behind ≡ behind_in starts.now region.now.last }
        ensures { OnOk result (regioned self.new ≡ with_number (nat_le behind first) starts.now (regioned self.old) region.now) }
    {
        if behind <= first {
            self.numbers.push(None)?;
            return Ok(());
        }
        let number = self.count()?;
        let mapped = Region {
            first,
            last: behind - 1,
            parent: self.parent(region.parent)?,
            arms: arms(alloc, region.arms.as_slice(), starts)?,
        };
        self.regions.push(mapped)?;
        self.numbers.push(Some(number))?;
        Ok(())
    }

    fn count(&self) -> Answer<u32>
        ensures { IfOk result (λ count. count ≡ length self.now.regions.items) }
    {
        Ok(u32::try_from(self.regions.len())?)
    }

    /// The number of a parent among the regions of words.
    fn parent(&self, parent: Option<u32>) -> Answer<Option<u32>>
        ensures { IfOk result (λ number. number ≡ parent_of self.now.numbers.items parent) }
    {
        let Some(parent) = parent else {
            return Ok(None);
        };
        match self.numbers.get(parent as usize) {
            Some(Some(number)) => Ok(Some(*number)),
            _ => Err(SelectError::NotYet),
        }
    }
}

/// The first word of a step.
fn start(starts: &[u32], step: u32) -> Answer<u32>
    ensures { IfOk result (λ word. word ≡ start_of starts.now step) }
{
    match starts.get(step as usize) {
        Some(word) => Ok(*word),
        None => Err(SelectError::NotYet),
    }
}

/// Arms whose targets are words.
fn arms(alloc: Global, arms: &[Arm], starts: &[u32]) -> Answer<Sequence<Arm>>
    ensures { IfOk result (λ mapped. mapped ≡ map (mapped_arm starts.now) arms.now) }
{
    let mut mapped = Vec::new(alloc);
    for arm in arms {
        let mut copied = copy_arm(alloc, arm)?;
        copied.target = start(starts, arm.target)?;
        mapped.push(copied)?;
    }
    Ok(Sequence::from_vec(mapped))
}
