//! Assignments to variables (CLU Reference Manual, section 9).

ghost use Rattle.std.specs.Prelude.{◌<◌, length};
ghost use Rattle.clu_syntax.specs.Parts.{AreBefore};

use clu_lower_expr::{
    Lowering, Variable, assign_named, is_call, lower_call, lower_expr, results_of,
};
use clu_lower_types::{Fixed, Result, type_of};
use clu_types::TypeId;
use clu_wir::{WExpr, WStmt};

/// `a := e`, `a, b := e, f` and `a, b := f()`, by how many names there are.
pub fn assign(out: &mut Lowering, fixed: &Fixed, n: u32, names: usize, values: &[u32]) -> Result<()>
    requires { AreBefore (length fixed.now.syntax.now) values.now }
{
    let places = denoted_by(fixed, n, names)?;
    match (places.as_slice(), values) {
        ([place], [value]) => assign_one(out, fixed, *place, *value),
        (places, [call]) => assign_results(out, fixed, places, *call),
        (places, values) => assign_values(out, fixed, places, values),
    }
}

/// The declarations that the names of a node, of which there are so many, denote.
pub fn denoted_by(fixed: &Fixed, n: u32, names: usize) -> Result<Vec<usize>> {
    let mut places = Vec::new(fixed.alloc);
    for k in 0..names {
        places.push(fixed.declarations.denoted(n, k)?)?;
    }
    Ok(places)
}

/// Lets the variable of this declaration, own or not, name the object of an expression, whose slots are given back. The
/// only result of a call goes right into the slot of a variable that takes it.
pub fn assign_one(out: &mut Lowering, fixed: &Fixed, place: usize, value: u32) -> Result<()>
    requires { value < length fixed.now.syntax.now }
{
    let free = out.taken();
    match taker(out, fixed, place) {
        Some(variable) if is_call(fixed.syntax, value) => {
            let results = vec![in out.alloc; variable.slot]?;
            lower_call(out, fixed, value, results)?;
            out.note_named(variable)?;
        }
        _ => {
            let object = lower_expr(out, fixed, value)?;
            assign_named(out, fixed, place, object, type_of(fixed.c, value)?, free)?;
        }
    }
    out.release(free);
    Ok(())
}

/// The variable of this declaration, if it isn't own and takes objects as they are.
fn taker(out: &Lowering, fixed: &Fixed, place: usize) -> Option<Variable> {
    if fixed.owns.contains_key(&place) {
        return None;
    }
    match out.variable(place) {
        Ok(variable) if !variable.is_any => Some(variable),
        _ => None,
    }
}

/// The results of a call go into the variables; slots that were taken are given back.
pub fn assign_results(out: &mut Lowering, fixed: &Fixed, places: &[usize], call: u32) -> Result<()>
    requires { call < length fixed.now.syntax.now }
{
    let free = out.taken();
    let types = results_of(fixed, call)?;
    let slots = take_slots(out, types.len())?;
    lower_call(out, fixed, call, slots.as_slice().to_vec(out.alloc)?)?;
    assign_slots(out, fixed, places, slots.as_slice(), types, free)
}

/// So many slots.
pub fn take_slots(out: &mut Lowering, count: usize) -> Result<Vec<u32>> {
    let mut slots = Vec::new(out.alloc);
    for _ in 0..count {
        slots.push(out.take()?)?;
    }
    Ok(slots)
}

/// The objects in slots, of these types, go to the variables, from left to right. All slots from `free` on are given back.
pub fn assign_slots(
    out: &mut Lowering,
    fixed: &Fixed,
    places: &[usize],
    slots: &[u32],
    types: &[TypeId],
    free: u32,
) -> Result<()> {
    for ((place, slot), of) in places.iter().zip(slots).zip(types) {
        assign_named(out, fixed, *place, WExpr::Slot(*slot), *of, free)?;
    }
    out.release(free);
    Ok(())
}

/// All values are kept aside before a variable changes, since they may be words of the variables.
fn assign_values(out: &mut Lowering, fixed: &Fixed, places: &[usize], values: &[u32]) -> Result<()>
    requires { AreBefore (length fixed.now.syntax.now) values.now }
{
    let free = out.taken();
    let mut slots = Vec::new(out.alloc);
    let mut types = Vec::new(out.alloc);
    for value in values {
        slots.push(kept_value(out, fixed, *value)?)?;
        types.push(type_of(fixed.c, *value)?)?;
    }
    assign_slots(out, fixed, places, slots.as_slice(), types.as_slice(), free)
}

/// The slot of its own in which a value is kept.
fn kept_value(out: &mut Lowering, fixed: &Fixed, value: u32) -> Result<u32>
    requires { value < length fixed.now.syntax.now }
{
    let taken = out.taken();
    let value = lower_expr(out, fixed, value)?;
    out.release(taken);
    let slot = out.take()?;
    out.push(WStmt::Set(slot, value))?;
    Ok(slot)
}
