//! Where bounds and targets go, by the numbers of the places that are left.

ghost use Rattle.std.specs.Prelude.{◌≡◌, ◌<◌, ◌≤◌, ◌^◌, IfOk, IsTrue, length, map, option_map};
ghost use Rattle.clu_peep.specs.Moved.{IsMoved, before, count_true, has_place, moved_arm, number_of};

use clu_base::Memory;
use clu_handlers::Region;
use clu_wir::Arm;
use std::alloc::Global;

/// How many places before a place are left, which is the number of the first one that is left from there on.
pub fn before(left: &[u32], place: u64) -> u32
    requires { length left.now < 2 ^ 32 }
    ensures { result ≡ before left.now place }
{
    let mut count = 0;
    for number in left {
        if u64::from(*number) < place {
            count += 1;
        }
    }
    count
}

/// Whether a place of a region is left.
pub fn has_place(left: &[u32], region: &Region) -> bool
    requires { length left.now < 2 ^ 32 }
    ensures { result ≡ has_place left.now region.now }
{
    before(left, u64::from(region.first)) < before(left, u64::from(region.last) + 1)
}

/// The number of a region among those that stay.
fn number_of(stays: &[bool], region: u32) -> u32
    requires { length stays.now < 2 ^ 32 }
    ensures { result ≡ number_of stays.now region }
{
    let (front, _) = stays.split_at((region as usize).min(stays.len()));
    count_true(front)
}

fn count_true(stays: &[bool]) -> u32
    requires { length stays.now < 2 ^ 32 }
    ensures { result ≡ count_true stays.now }
{
    let mut count = 0;
    for each in stays {
        if *each {
            count += 1;
        }
    }
    count
}

/// A region of the places that are left of another one, of which one is.
pub fn moved_region(
    alloc: Global,
    region: &Region,
    left: &[u32],
    stays: &[bool],
) -> Result<Region, Memory>
    requires left { length left.now < 2 ^ 32 }
    requires stays { length stays.now < 2 ^ 32 }
    requires has { IsTrue (has_place left.now region.now) }
    ensures { IfOk result (IsMoved left.now stays.now region.now) }
{
    Ok(Region {
        first: before(left, u64::from(region.first)),
        last: before(left, u64::from(region.last) + 1) - 1,
        parent: moved_parent(stays, region.parent),
        arms: moved_arms(alloc, left, region.arms.as_slice())?,
    })
}

fn moved_parent(stays: &[bool], parent: Option<u32>) -> Option<u32>
    requires { length stays.now < 2 ^ 32 }
    ensures { result ≡ option_map (number_of stays.now) parent }
{
    match parent {
        Some(parent) => Some(number_of(stays, parent)),
        None => None,
    }
}

fn moved_arms(alloc: Global, left: &[u32], arms: &[Arm]) -> Result<Vec<Arm>, Memory>
    requires { length left.now < 2 ^ 32 }
    ensures { IfOk result (λ moved. moved.items ≡ map (moved_arm left.now) arms.now) }
{
    let mut moved = Vec::new(alloc);
    for arm in arms {
        moved.push(moved_arm(alloc, left, arm)?)?;
    }
    Ok(moved)
}

fn moved_arm(alloc: Global, left: &[u32], arm: &Arm) -> Result<Arm, Memory>
    requires { length left.now < 2 ^ 32 }
    ensures { IfOk result (λ moved. moved ≡ moved_arm left.now arm.now) }
{
    Ok(Arm {
        name: arm.name.copy(alloc)?,
        target: before(left, u64::from(arm.target)),
        mark: arm.mark,
    })
}
