//! One pass over the places of code, with those that are left. If a place goes, the pair of which the places are new
//! neighbours is asked next.

ghost use Rattle.std.specs.Prelude.{◌≡◌, ◌<◌, ◌^◌, ◌==◌, ◌++◌, ◌∷◌, [], false, length, List, IfOk, IsTrue, OnOk};
ghost use Rattle.std.specs.List.{list_any};
ghost use Rattle.clu_wir.specs.declared.region.Arm.{Arm};
ghost use Rattle.clu_frames.specs.Labels.{at_last};
ghost use Rattle.clu_peep.specs.declared.places.Place.{Place};
ghost use Rattle.clu_peep.specs.Left.{Adds, Leaves, begins, has_target, is_settled, is_undone, marked, places};
ghost use Rattle.clu_peep.specs.Rows.{goes_alone, goes_first};

use crate::places::Place;
use crate::rows::{goes_alone, goes_first, goes_second};
use clu_base::Memory;
use clu_frames::Flat;
use clu_handlers::Region;
use clu_wir::Arm;
use std::alloc::Global;

/// What is left of the places of code with these regions.
pub fn settled(alloc: Global, code: Vec<Flat>, regions: &[Region]) -> Result<Vec<Place>, Memory>
    requires { length code.items < 2 ^ 32 }
    ensures leaves { IfOk result (λ left. Leaves (places (begins regions.now) 0 code.items) left.items) }
    ensures settled { IfOk result (λ left. IsTrue (is_settled left.items)) }
{
    let mut left = Vec::new(alloc);
    let mut number = 0u32;
    let mut is_passed = false;
    for step in code {
        let is_target = is_passed || begins(regions, number);
        let place = Place {
            step,
            number,
            is_target,
        };
        is_passed = add(&mut left, place)?;
        number += 1;
    }
    Ok(left)
}

/// Whether an arm begins at a place.
fn begins(regions: &[Region], place: u32) -> bool
    ensures { result ≡ begins regions.now place }
{
    for region in regions {
        if has_target(region, place) {
            return true;
        }
    }
    false
}

fn has_target(region: &Region, place: u32) -> bool
    ensures { result ≡ has_target place region.now }
{
    is_begun(region.arms.as_slice(), place)
}

fn is_begun(arms: &[Arm], place: u32) -> bool
    ensures { result ≡ list_any (λ (a : Arm). a.target == place) arms.now }
{
    for arm in arms {
        if arm.target == place {
            return true;
        }
    }
    false
}

/// Adds a place to those that are left, unless it goes. The answer is whether an arm then begins at the next one.
fn add(left: &mut Vec<Place>, place: Place) -> Result<bool, Memory>
    ensures adds { IfOk result (λ mark. Adds left.old.items place left.new.items mark) }
    ensures settled { IsTrue (is_settled left.old.items) → OnOk result (IsTrue (is_settled left.new.items)) }
{
    if goes_alone(&place) {
        return Ok(place.is_target);
    }
    if is_undone(left.as_slice(), &place) {
        return Ok(place.is_target);
    }
    put(left, place)?;
    Ok(false)
}

/// Whether a place undoes what the last one does.
fn is_undone(left: &[Place], place: &Place) -> bool
    ensures { result ≡ is_undone left.now place.now }
{
    match left.split_last() {
        Some((last, _)) => goes_second(last, place),
        None => false,
    }
}

/// Whether the last place is of no use before this one.
fn is_last_useless(left: &[Place], place: &Place) -> bool
    ensures { result ≡ at_last (λ (x : Place). goes_first x place.now) left.now }
{
    match left.split_last() {
        Some((last, _)) => goes_first(last, place),
        None => false,
    }
}

/// Puts a place behind those that are left, of which those go first that are of no use before it.
fn put(left: &mut Vec<Place>, place: Place) -> Result<(), Memory>
    ensures adds { OnOk result (Adds left.old.items place left.new.items false) }
    ensures settled { goes_alone place ≡ false → is_undone left.old.items place ≡ false → IsTrue (is_settled left.old.items) → OnOk result (IsTrue (is_settled left.new.items)) }
{
    let mut place = place;
    'last: while is_last_useless(left.as_slice(), &place) {
        take_last(left, &mut place);
    }
    Ok(left.push(place)?)
}

/// The last place goes. If an arm begins there, one begins at this place.
fn take_last(left: &mut Vec<Place>, place: &mut Place)
    ensures { (front : List Place) → (x : Place) → left.old.items ≡ front ++ x ∷ [] → (left.new.items ≡ front) × (place.new ≡ marked x.is_target place.old) }
{
    if let Some(gone) = left.pop() {
        place.is_target = gone.is_target || place.is_target;
    }
}
