//! A place of flat code.

use clu_frames::Flat;

/// A place: its step, its number among all places of the code, and whether an arm begins there.
#[derive(Drop)]
pub struct Place {
    pub step: Flat,
    pub number: u32,
    pub is_target: bool,
}
