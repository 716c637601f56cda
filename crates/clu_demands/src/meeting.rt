//! Whether what is demanded of types is met.

ghost use Rattle.std.specs.Prelude.{◌≡◌, ◌↔◌, ◌<◌, ◌≤◌, true, false, None, map, length, IfOk, OnOk, IsTrue};
ghost use Rattle.clu_types.specs.Arena.{types_of, Grows};
ghost use Rattle.clu_specs.specs.Seen.{demand_seen};
ghost use Rattle.clu_specs.specs.Specifications.{DemandsBelow};
ghost use Rattle.clu_demands.specs.Asking.{need_seen, asked_seen, all_seen, IsBelow, AreBelowAll, AreAnswered, AreNotMet, IsFrontOf, HasAdded, HasFound, HasAsked, AsksNone};
ghost use Rattle.clu_demands.specs.Meeting.{IsClosed, Meets};

use crate::asking::asked_by;
use crate::needs::Asked;
use clu_base::{Bytes, Memory, Sequence};
use clu_types::{Demand, Specs, TypeArena, TypeId};
use indexmap::IndexSet;
use std::alloc::Global;

/// Whether `of` has an operation `op` of a type included in `wanted`, and what that operation asks is met.
/// `given` is what where clauses give of type parameters.
pub fn meets(
    alloc: Global,
    of: TypeId,
    op: &Bytes,
    wanted: TypeId,
    given: &[Demand],
    specs: &Specs,
    types: &mut TypeArena,
) -> Result<bool, Memory>
    requires of_in { of.0 < length types.old }
    requires wanted_in { wanted.0 < length types.old }
    requires given_in { DemandsBelow (length types.old) given.now }
    ensures met { IfOk result (λ met. IsTrue met ↔ Meets (map (demand_seen (types_of types.old)) given.now) specs.now (need_seen (types_of types.old) of op.now wanted)) }
    ensures kept { Grows types.old types.new }
{
    let op = op.copy(alloc)?;
    let need = Asked { of, op, wanted };
    let mut met = IndexSet::new(alloc);
    is_met(alloc, need, given, specs, types, &mut met)
}

/// Whether a need is met. Those of `met` were met before, and so was what they ask; they are not asked again, since types
/// share their parts. When memory runs out, `met` may have others.
pub fn is_met(
    alloc: Global,
    need: Asked,
    given: &[Demand],
    specs: &Specs,
    types: &mut TypeArena,
    met: &mut IndexSet<Asked>,
) -> Result<bool, Memory>
    requires need_in { IsBelow (length types.old) need }
    requires given_in { DemandsBelow (length types.old) given.now }
    requires met_in { AreBelowAll (length types.old) met.old.keys }
    requires closed { IsClosed (map (demand_seen (types_of types.old)) given.now) specs.now (all_seen (types_of types.old) met.old.keys) }
    ensures met { IfOk result (λ met. IsTrue met ↔ Meets (map (demand_seen (types_of types.old)) given.now) specs.now (asked_seen (types_of types.old) need)) }
    ensures closed { OnOk result (IsClosed (map (demand_seen (types_of types.old)) given.now) specs.now (all_seen (types_of types.new) met.new.keys)) }
    ensures within { OnOk result (AreBelowAll (length types.new) met.new.keys) }
    ensures kept { Grows types.old types.new }
{
    let before = met.len();
    met.insert(need)?;
    let all = are_met_from(alloc, before, given, specs, types, met)?;
    if all {
        Ok(true)
    } else {
        met.truncate(before);
        Ok(false)
    }
}

/// Whether the needs from a place on are met, and all that come of them: the list grows by what each asks, since types
/// nest as deep as a file allows.
fn are_met_from(
    alloc: Global,
    before: usize,
    given: &[Demand],
    specs: &Specs,
    types: &mut TypeArena,
    met: &mut IndexSet<Asked>,
) -> Result<bool, Memory>
    requires few { before ≤ 9223372036854775808 }
    requires given_in { DemandsBelow (length types.old) given.now }
    requires met_in { AreBelowAll (length types.old) met.old.keys }
    requires answered { AreAnswered (map (demand_seen (types_of types.old)) given.now) specs.now (types_of types.old) met.old.keys before }
    ensures all { IfOk result (λ all. all ≡ true → IsClosed (map (demand_seen (types_of types.old)) given.now) specs.now (all_seen (types_of types.new) met.new.keys)) }
    ensures none { IfOk result (λ all. all ≡ false → AreNotMet (map (demand_seen (types_of types.old)) given.now) specs.now (types_of types.old) met.old.keys before) }
    ensures front { OnOk result (IsFrontOf met.old.keys met.new.keys) }
    ensures within { OnOk result (AreBelowAll (length types.new) met.new.keys) }
    ensures kept { Grows types.old types.new }
{
    for n in before..usize::MAX {
        if n >= met.len() {
            return Ok(true);
        }
        let is_answered = ask(alloc, n, given, specs, types, met)?;
        if !is_answered {
            return Ok(false);
        }
    }
    Ok(true)
}

/// Whether the n-th has its operation; what that asks is added.
fn ask(
    alloc: Global,
    n: usize,
    given: &[Demand],
    specs: &Specs,
    types: &mut TypeArena,
    met: &mut IndexSet<Asked>,
) -> Result<bool, Memory>
    requires given_in { DemandsBelow (length types.old) given.now }
    requires met_in { AreBelowAll (length types.old) met.old.keys }
    ensures more { IfOk result (λ more. more ≡ true → HasAsked (map (demand_seen (types_of types.old)) given.now) specs.now types.old types.new met.old.keys met.new.keys n) }
    ensures none { IfOk result (λ more. more ≡ false → AsksNone (map (demand_seen (types_of types.old)) given.now) specs.now (types_of types.old) met.old.keys n) }
    ensures same { IfOk result (λ more. more ≡ false → met.new.keys ≡ met.old.keys) }
    ensures kept { Grows types.old types.new }
{
    match met.get_index(n) {
        Some(need) => {
            let found = asked_by(alloc, need, given, specs, types)?;
            add_found(met, found)
        }
        None => Ok(false),
    }
}

fn add_found(met: &mut IndexSet<Asked>, found: Option<Sequence<Asked>>) -> Result<bool, Memory>
    ensures more { IfOk result (λ more. more ≡ true → HasFound found met.old.keys met.new.keys) }
    ensures none { IfOk result (λ more. more ≡ false → found ≡ None) }
    ensures same { IfOk result (λ more. more ≡ false → met.new.keys ≡ met.old.keys) }
{
    match found {
        Some(asked) => {
            add_all(met, asked)?;
            Ok(true)
        }
        None => Ok(false),
    }
}

fn add_all(met: &mut IndexSet<Asked>, asked: Sequence<Asked>) -> Result<(), Memory>
    ensures { OnOk result (HasAdded met.old.keys asked met.new.keys) }
{
    let asked = asked.into_vec();
    for need in asked {
        met.insert(need)?;
    }
    Ok(())
}
