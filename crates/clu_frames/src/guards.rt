//! How guards and their arms begin.

ghost use Rattle.std.specs.Prelude.{◌≡◌, ◌+◌, IfOk, OnOk, length, map};
ghost use Rattle.clu_wir.specs.Plain.{arm_of};
ghost use Rattle.clu_frames.specs.Flattening.{arm_begun, guard_at, guarding_of, labelled, made, named_onto, opened, pass_onto, slots_in};

use crate::errors::FrameError;
use crate::flat::Flat;
use crate::steps::{Steps, number};
use crate::surroundings::{Guard, Surroundings};
use clu_base::Bytes;
use clu_wir::WArm;

impl Steps {
    /// Begins the region of a guard. It ends with the Jump over the arms, so that it has a step.
    pub fn begin_guard<'a>(
        &mut self,
        arms: &'a [WArm],
        round: Surroundings<'_>,
    ) -> Result<Guard<'a>, FrameError>
        ensures guard { IfOk result (λ guard. guarding_of guard ≡ guard_at (map slots_in (map arm_of arms.now)) (made self.old).labels round.entry.mark) }
        ensures arms { IfOk result (λ guard. guard.arms.now ≡ arms.now) }
        ensures end { IfOk result (λ guard. guard.end ≡ (made self.old).labels + length arms.now) }
        ensures region { IfOk result (λ guard. guard.region ≡ length (made self.old).regions) }
        ensures made { OnOk result (made self.new ≡ opened round.entry.region (labelled 1 (labelled (length arms.now) (made self.old)))) }
    {
        let label = self.labels(number(arms.len())?)?;
        let end = self.label()?;
        let region = self.open_region(round.region)?;
        Ok(Guard {
            arms,
            label,
            end,
            region,
            mark: round.mark,
        })
    }

    /// Where exceptions of these names come that are signalled on.
    pub fn pass_on(&mut self, names: &[Bytes], region: u32, mark: u32) -> Result<(), FrameError>
        ensures made { OnOk result (made self.new ≡ pass_onto names.now region mark (made self.old)) }
    {
        self.name_arm(names, region, mark)?;
        self.push(Flat::Pass)
    }

    /// Where an exception comes to an arm: the objects, or for an arm that takes all names the name, go into the
    /// arm's slots.
    pub fn begin_arm(&mut self, arm: &WArm, region: u32, mark: u32) -> Result<(), FrameError>
        ensures made { OnOk result (made self.new ≡ arm_begun (arm_of arm.now).names (arm_of arm.now).others (arm_of arm.now).slots region mark (made self.old)) }
    {
        self.name_arm(arm.names.as_slice(), region, mark)?;
        if arm.others {
            self.add_arm(region, Bytes::from_vec(Vec::new(self.alloc)), mark)?;
            return self.take(arm.slots.as_slice());
        }
        self.push_results(arm.slots.as_slice())
    }

    /// Gives a region an arm for each of these names that begins at the next step.
    fn name_arm(&mut self, names: &[Bytes], region: u32, mark: u32) -> Result<(), FrameError>
        ensures made { OnOk result (made self.new ≡ named_onto region mark names.now (made self.old)) }
    {
        for name in names {
            self.add_arm(region, name.copy(self.alloc)?, mark)?;
        }
        Ok(())
    }
}
