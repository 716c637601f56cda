//! Equal copies of objects and their parts. The only error of each copy is that memory runs out.

ghost use Rattle.std.specs.Prelude.{◌≡◌, IfOk};

use crate::object::{ObjRoutine, Object, Region};
use clu_base::{Memory, Sequence};
use clu_wir::{Arm, copy_constants, copy_texts};
use std::alloc::Global;

/// An equal arm of its own.
pub fn copy_arm(alloc: Global, arm: &Arm) -> Result<Arm, Memory>
    ensures { IfOk result (λ copied. copied ≡ arm.now) }
{
    Ok(Arm {
        name: arm.name.copy(alloc)?,
        target: arm.target,
        mark: arm.mark,
    })
}

fn copy_arms(alloc: Global, arms: &[Arm]) -> Result<Sequence<Arm>, Memory>
    ensures { IfOk result (λ copied. copied ≡ arms.now) }
{
    let mut copied = Vec::new(alloc);
    for arm in arms {
        copied.push(copy_arm(alloc, arm)?)?;
    }
    Ok(Sequence::from_vec(copied))
}

fn copy_regions(alloc: Global, regions: &[Region]) -> Result<Sequence<Region>, Memory>
    ensures { IfOk result (λ copied. copied ≡ regions.now) }
{
    let mut copied = Vec::new(alloc);
    for region in regions {
        copied.push(region.copy(alloc)?)?;
    }
    Ok(Sequence::from_vec(copied))
}

fn copy_routines(alloc: Global, routines: &[ObjRoutine]) -> Result<Sequence<ObjRoutine>, Memory>
    ensures { IfOk result (λ copied. copied ≡ routines.now) }
{
    let mut copied = Vec::new(alloc);
    for routine in routines {
        copied.push(routine.copy(alloc)?)?;
    }
    Ok(Sequence::from_vec(copied))
}

impl Region {
    /// An equal region of its own.
    pub fn copy(&self, alloc: Global) -> Result<Region, Memory>
        ensures { IfOk result (λ copied. copied ≡ self.now) }
    {
        Ok(Region {
            first: self.first,
            last: self.last,
            parent: self.parent,
            arms: copy_arms(alloc, self.arms.as_slice())?,
        })
    }
}

impl ObjRoutine {
    /// An equal routine of its own.
    pub fn copy(&self, alloc: Global) -> Result<ObjRoutine, Memory>
        ensures { IfOk result (λ copied. copied ≡ self.now) }
    {
        Ok(ObjRoutine {
            name: self.name.copy(alloc)?,
            nodes: self.nodes,
            code: Sequence::from_vec(self.code.as_slice().to_vec(alloc)?),
            holes: Sequence::from_vec(self.holes.as_slice().to_vec(alloc)?),
            uses: copy_texts(alloc, self.uses.as_slice())?,
            constants: copy_constants(alloc, self.constants.as_slice())?,
            types: copy_texts(alloc, self.types.as_slice())?,
            regions: copy_regions(alloc, self.regions.as_slice())?,
        })
    }
}

impl Object {
    /// An equal object of its own.
    pub fn copy(&self, alloc: Global) -> Result<Object, Memory>
        ensures { IfOk result (λ copied. copied ≡ self.now) }
    {
        Ok(Object {
            module: self.module.copy(alloc)?,
            routines: copy_routines(alloc, self.routines.as_slice())?,
        })
    }
}
