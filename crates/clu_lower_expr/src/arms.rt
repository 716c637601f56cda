//! The arms round the statement that is lowered, to which exits go.

use crate::lowering::Lowering;
use clu_base::Bytes;
use clu_lower_types::{LowerError, Result};

/// An arm round a statement, as an exit sees it.
#[derive(Drop)]
pub struct OpenArm {
    /// The names by which an exit goes to it.
    pub names: Vec<Bytes>,
    /// Whether it drops the objects.
    pub drops: bool,
    /// Whether it binds objects to type any, and takes after them the address of the numbers of their types.
    pub binds: bool,
}

/// Where an arm is: how many guards are inside of its own, and its number in that guard.
#[derive(Clone, Copy)]
pub struct ArmPlace {
    pub inside: u32,
    pub arm: u32,
}

impl Lowering {
    /// The arm to which an exit of this name goes.
    pub fn exit_target(&self, name: &Bytes) -> Result<ArmPlace> {
        let mut inside = 0u32;
        for arms in self.guards.as_slice().iter().rev() {
            match arm_named(arms.as_slice(), name) {
                Some(arm) => return Ok(ArmPlace { inside, arm }),
                None => {}
            }
            inside = inside.saturating_add(1);
        }
        Err(LowerError::NotYet)
    }

    /// The arm at a place.
    pub fn arm(&self, place: ArmPlace) -> Option<&OpenArm> {
        let behind = self.guards.len().checked_sub(1)?;
        let guard = behind.checked_sub(place.inside as usize)?;
        self.guards.get(guard)?.get(place.arm as usize)
    }
}

/// The number of the first arm with this name.
fn arm_named(arms: &[OpenArm], name: &Bytes) -> Option<u32> {
    let mut number = 0u32;
    for arm in arms {
        if arm.names.as_slice().contains(name) {
            return Some(number);
        }
        number = number.saturating_add(1);
    }
    None
}
