//! Types with their parts: whether what is demanded of each of them is met.

ghost use Rattle.std.specs.Prelude.{◌≡◌, ◌↔◌, ◌<◌, [], ℕ, map, length, slice_get, IfOk, OnOk, IsTrue, Some};
ghost use Rattle.std.specs.Option.{option_copied};
ghost use Rattle.clu_types.specs.Arena.{types_of, AreBelow, Grows};
ghost use Rattle.clu_types.specs.declared.term.TypeId.{TypeId};
ghost use Rattle.clu_specs.specs.Seen.{demand_seen};
ghost use Rattle.clu_specs.specs.Specifications.{DemandsBelow};
ghost use Rattle.clu_sound.specs.Visiting.{HoldsMet, HasVisited, AreIdsMet};

use crate::instances::is_own_met;
use crate::parts::add_parts;
use clu_base::Memory;
use clu_demands::Asked;
use clu_types::{Demand, Specs, TypeArena, TypeId};
use indexmap::IndexSet;
use std::alloc::Global;

/// Whether these types and their parts meet what is demanded of them, if this is given of type parameters. The list grows by
/// the parts, since types nest as deep as a file allows.
pub fn are_met(
    alloc: Global,
    ids: &mut IndexSet<TypeId>,
    given: &[Demand],
    specs: &Specs,
    types: &mut TypeArena,
) -> Result<bool, Memory>
    requires ids_in { AreBelow (length types.old) ids.old.keys }
    requires given_in { DemandsBelow (length types.old) given.now }
    ensures met { IfOk result (λ met. IsTrue met ↔ AreIdsMet (map (demand_seen (types_of types.old)) given.now) specs.now (types_of types.old) ids.old.keys) }
    ensures kept { Grows types.old types.new }
{
    let mut met = IndexSet::new(alloc);
    are_met_with(alloc, ids, given, specs, types, &mut met)
}

fn are_met_with(
    alloc: Global,
    ids: &mut IndexSet<TypeId>,
    given: &[Demand],
    specs: &Specs,
    types: &mut TypeArena,
    met: &mut IndexSet<Asked>,
) -> Result<bool, Memory>
    requires ids_in { AreBelow (length types.old) ids.old.keys }
    requires given_in { DemandsBelow (length types.old) given.now }
    requires holds { HoldsMet given.now specs.now types.old types.old met.old.keys }
    ensures met { IfOk result (λ met. IsTrue met ↔ AreIdsMet (map (demand_seen (types_of types.old)) given.now) specs.now (types_of types.old) ids.old.keys) }
    ensures kept { Grows types.old types.new }
{
    for n in 0..usize::MAX {
        if n >= ids.len() {
            return Ok(true);
        }
        let is_one_met = visit_nth(alloc, n, ids, given, specs, types, met)?;
        if !is_one_met {
            return Ok(false);
        }
    }
    Ok(true)
}

/// Whether the n-th of these types itself meets what is demanded of it; its parts are added.
fn visit_nth(
    alloc: Global,
    n: usize,
    ids: &mut IndexSet<TypeId>,
    given: &[Demand],
    specs: &Specs,
    types: &mut TypeArena,
    met: &mut IndexSet<Asked>,
) -> Result<bool, Memory>
    requires ids_in { AreBelow (length types.old) ids.old.keys }
    requires given_in { DemandsBelow (length types.old) given.now }
    requires holds { HoldsMet given.now specs.now types.old types.old met.old.keys }
    ensures visited { IfOk result (λ met. (id : TypeId) → slice_get ids.old.keys n ≡ Some id → HasVisited (map (demand_seen (types_of types.old)) given.now) specs.now types.old ids.old.keys ids.new.keys id met) }
    ensures holds { OnOk result (HoldsMet given.now specs.now types.old types.new met.new.keys) }
    ensures kept { Grows types.old types.new }
{
    match nth(ids, n) {
        Some(id) => visit(alloc, id, ids, given, specs, types, met),
        None => Ok(true),
    }
}

fn nth(ids: &IndexSet<TypeId>, n: usize) -> Option<TypeId>
    ensures { result ≡ slice_get ids.now.keys n }
{
    match ids.get_index(n) {
        Some(id) => Some(*id),
        None => None,
    }
}

fn visit(
    alloc: Global,
    id: TypeId,
    ids: &mut IndexSet<TypeId>,
    given: &[Demand],
    specs: &Specs,
    types: &mut TypeArena,
    met: &mut IndexSet<Asked>,
) -> Result<bool, Memory>
    requires id_in { id.0 < length types.old }
    requires given_in { DemandsBelow (length types.old) given.now }
    requires holds { HoldsMet given.now specs.now types.old types.old met.old.keys }
    ensures visited { IfOk result (HasVisited (map (demand_seen (types_of types.old)) given.now) specs.now types.old ids.old.keys ids.new.keys id) }
    ensures holds { OnOk result (HoldsMet given.now specs.now types.old types.new met.new.keys) }
    ensures kept { Grows types.old types.new }
{
    add_parts(ids, types.view(id))?;
    is_own_met(alloc, id, given, specs, types, met)
}
