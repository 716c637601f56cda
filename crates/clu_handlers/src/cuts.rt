//! The cuts of a routine's code, between which the innermost region is the same.

ghost use Rattle.std.specs.Prelude.{◌≡◌, ◌<◌, ◌≤◌, ◌^◌, length, IfOk};
ghost use Rattle.clu_handlers.specs.Cuts.{AreCuts, innermost, next_bound, nearer};

use crate::region::{Cut, NO_REGION, Region};
use crate::regions::Regions;
use clu_base::Memory;
use std::alloc::Global;

/// How many places 32 bits name.
const PLACES: u64 = 1 << 32;

/// The number of the innermost region round a place: the last of those round it.
fn innermost(regions: &[Region], pc: u32) -> u32
    requires { length regions.now < 2 ^ 32 }
    ensures { result ≡ innermost regions.now pc }
{
    let mut innermost = NO_REGION;
    for (number, region) in regions.iter().enumerate() {
        if region.is_round(pc) {
            innermost = number as u32;
        }
    }
    innermost
}

/// A bound after a place, if it comes before the next one that is known.
fn nearer(next: u64, pc: u32, bound: u64) -> u64
    ensures { result ≡ nearer next pc bound }
{
    if u64::from(pc) < bound && bound < next {
        bound
    } else {
        next
    }
}

/// The first bound after a place: where a region begins, or the place after one. Where there is none, the number
/// of places.
fn next_bound(regions: &[Region], pc: u32) -> u64
    ensures { result ≡ next_bound regions.now pc }
{
    let mut next = PLACES;
    for region in regions {
        let first = nearer(next, pc, u64::from(region.first));
        next = nearer(first, pc, u64::from(region.last) + 1);
    }
    next
}

impl Regions {
    /// The cuts of the code. From the place of a cut to that of the next one its region is the innermost. The only error
    /// is that memory runs out.
    pub fn cuts(&self, alloc: Global) -> Result<Vec<Cut>, Memory>
        ensures { IfOk result (λ cuts. AreCuts self.now cuts.items) }
    {
        cuts_of(alloc, self.as_slice())
    }
}

fn cuts_of(alloc: Global, regions: &[Region]) -> Result<Vec<Cut>, Memory>
    requires { length regions.now < 2 ^ 32 }
    ensures { IfOk result (λ cuts. AreCuts regions.now cuts.items) }
{
    let mut cuts = Vec::new(alloc);
    let mut from = 0u64;
    while from < PLACES {
        let place = from as u32;
        let region = innermost(regions, place);
        cuts.push(Cut {
            from: place,
            region,
        })?;
        from = next_bound(regions, place);
    }
    Ok(cuts)
}
