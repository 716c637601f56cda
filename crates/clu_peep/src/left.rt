//! What is left, as steps and as numbers.

ghost use Rattle.std.specs.Prelude.{◌≡◌, IfOk, map};
ghost use Rattle.clu_peep.specs.declared.places.Place.{Place};

use crate::places::Place;
use clu_base::Memory;
use clu_frames::Flat;
use std::alloc::Global;

/// The numbers of places.
pub fn numbers(alloc: Global, places: &[Place]) -> Result<Vec<u32>, Memory>
    ensures { IfOk result (λ numbers. numbers.items ≡ map (λ (x : Place). x.number) places.now) }
{
    let mut numbers = Vec::new(alloc);
    for place in places {
        numbers.push(place.number)?;
    }
    Ok(numbers)
}

/// The steps of places.
pub fn steps(alloc: Global, places: Vec<Place>) -> Result<Vec<Flat>, Memory>
    ensures { IfOk result (λ steps. steps.items ≡ map (λ (x : Place). x.step) places.items) }
{
    let mut steps = Vec::new(alloc);
    for place in places {
        steps.push(place.step)?;
    }
    Ok(steps)
}
