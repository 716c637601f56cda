//! The regions of which a place is left.

ghost use Rattle.std.specs.Prelude.{◌≡◌, ◌<◌, ◌^◌, IfOk, IsTrue, length};
ghost use Rattle.clu_handlers.specs.Regions.{are_nested};
ghost use Rattle.clu_peep.specs.Moved.{AreMoved, staying};

use crate::moving::{has_place, moved_region};
use clu_base::Memory;
use clu_handlers::{Region, Regions};
use std::alloc::Global;

/// The regions of which a place is left, by the numbers of these. They nest as before.
pub fn moved(alloc: Global, regions: &Regions, left: &[u32]) -> Result<Regions, Memory>
    requires { length left.now < 2 ^ 32 }
    ensures { IfOk result (AreMoved left.now regions.now) }
{
    let regions = regions.as_slice();
    let stays = staying(alloc, regions, left)?;
    moved_each(alloc, regions, left, stays.as_slice())
}

/// Which regions stay.
fn staying(alloc: Global, regions: &[Region], left: &[u32]) -> Result<Vec<bool>, Memory>
    requires { length left.now < 2 ^ 32 }
    ensures { IfOk result (λ stays. stays.items ≡ staying left.now regions.now) }
{
    let mut stays = Vec::new(alloc);
    for region in regions {
        stays.push(has_place(left, region))?;
    }
    Ok(stays)
}

fn moved_each(
    alloc: Global,
    regions: &[Region],
    left: &[u32],
    stays: &[bool],
) -> Result<Regions, Memory>
    requires few { length regions.now < 2 ^ 32 }
    requires nested { IsTrue (are_nested regions.now) }
    requires left { length left.now < 2 ^ 32 }
    requires stays { stays.now ≡ staying left.now regions.now }
    ensures { IfOk result (AreMoved left.now regions.now) }
{
    let mut moved = Regions::new(alloc);
    for region in regions {
        if !has_place(left, region) {
            continue;
        }
        let region = moved_region(alloc, region, left, stays)?;
        moved.insert(region)?;
    }
    Ok(moved)
}
