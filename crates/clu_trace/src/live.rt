//! The instances that are live at a place, the latest begun first. No memory is taken: what finds no room is left out.

ghost use Rattle.std.specs.Prelude.{◌≡◌, ◌<◌, ◌≤◌, All, length, vec_capacity};
ghost use Rattle.clu_trace.specs.Walk.{entries_after, note, noted, place_after, told, walk};

use crate::map::TraceMap;
use crate::place::{Place, place_below};
use rv_machine::Machine;

/// Adds the instances that are live at a place.
pub(crate) fn add_live(entries: &mut Vec<u32>, map: &TraceMap, m: &Machine, bytes: u64, from: Place)
    requires small { bytes ≤ 0x4000000 }
    requires stack { bytes ≤ length m.now.state.stack }
    requires known { All (λ n. n < length map.now.names) entries.old.items }
    ensures known { All (λ n. n < length map.now.names) entries.new.items }
    ensures room { vec_capacity entries.new ≡ vec_capacity entries.old }
    ensures walked { entries.new.items ≡ walk (vec_capacity entries.old) map.now bytes m.now.state (vec_capacity entries.old) entries.old.items from }
{
    let mut place = from;
    // Each step goes down a word at least.
    for done in 0..entries.capacity() {
        match descend(entries, map, m, bytes, place) {
            Some(below) => place = below,
            None => return,
        }
    }
}

/// The next place below: that of the iterator that is suspended highest on the frame, or, after the frame's instance was
/// added, that of its caller.
fn descend(
    entries: &mut Vec<u32>,
    map: &TraceMap,
    m: &Machine,
    bytes: u64,
    place: Place,
) -> Option<Place>
    requires small { bytes ≤ 0x4000000 }
    requires stack { bytes ≤ length m.now.state.stack }
    requires known { All (λ n. n < length map.now.names) entries.old.items }
    ensures known { All (λ n. n < length map.now.names) entries.new.items }
    ensures room { vec_capacity entries.new ≡ vec_capacity entries.old }
    ensures below { result ≡ place_after bytes m.now.state place }
    ensures added { entries.new.items ≡ entries_after (vec_capacity entries.old) map.now bytes m.now.state entries.old.items place }
{
    match place.suspended(m, bytes) {
        Some(at) => place_below(m, bytes, at),
        None => {
            add_instance(entries, map, place.table);
            place_below(m, bytes, place.frame)
        }
    }
}

/// Adds what the frame of an instance tells.
fn add_instance(entries: &mut Vec<u32>, map: &TraceMap, table: u64)
    requires { All (λ n. n < length map.now.names) entries.old.items }
    ensures known { All (λ n. n < length map.now.names) entries.new.items }
    ensures room { vec_capacity entries.new ≡ vec_capacity entries.old }
    ensures added { entries.new.items ≡ noted (vec_capacity entries.old) (length map.now.names) entries.old.items (told map.now table) }
{
    match map.instance(table) {
        Some(instance) => add_entries(entries, map, instance.entries.as_slice()),
        None => {}
    }
}

fn add_entries(entries: &mut Vec<u32>, map: &TraceMap, numbers: &[u32])
    requires { All (λ n. n < length map.now.names) entries.old.items }
    ensures known { All (λ n. n < length map.now.names) entries.new.items }
    ensures room { vec_capacity entries.new ≡ vec_capacity entries.old }
    ensures added { entries.new.items ≡ noted (vec_capacity entries.old) (length map.now.names) entries.old.items numbers.now }
{
    for n in numbers {
        add_entry(entries, map, *n);
    }
}

/// Adds the number of a name, if there is room.
#[tactic(auto, using(crate::proofs::Entries::laws))]
fn add_entry(entries: &mut Vec<u32>, map: &TraceMap, n: u32)
    requires { All (λ n. n < length map.now.names) entries.old.items }
    ensures known { All (λ n. n < length map.now.names) entries.new.items }
    ensures room { vec_capacity entries.new ≡ vec_capacity entries.old }
    ensures added { entries.new.items ≡ note (vec_capacity entries.old) (length map.now.names) entries.old.items n }
{
    if (n as usize) < map.names.as_slice().len() && entries.len() < entries.capacity() {
        entries.push_reserved(n);
    }
}
