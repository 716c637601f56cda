//! Operations of built-in types in the place of their calls: those that are values of their arguments, or put one word.

use crate::lowering::Lowering;
use crate::operands::is_fixed;
use clu_base::{Bytes, Const, Memory};
use clu_core::{Checked, OpRef};
use clu_lower_types::Result;
use clu_rt_data::select_operation;
use clu_rt_text::{in_place, operation_of};
use clu_types::{TypeArena, TypeId};
use clu_wir::{WDeed, WExpr, WStmt};
use std::alloc::Global;

/// The result of an operation with these arguments. A slot after the first `taken` may change. `routine` is the operation's
/// descriptor.
pub fn apply(
    out: &mut Lowering,
    c: &Checked,
    op: Option<&OpRef>,
    routine: WExpr,
    args: Vec<WExpr>,
    taken: u32,
) -> Result<WExpr> {
    match found(out.alloc, &c.types, op, args.as_slice())? {
        Some(WDeed::Value(value)) => out.handed(value, taken),
        _ => call_for_one(out, routine, args, taken),
    }
}

/// Calls a routine with arguments; its only result goes into the slot after the first `taken`, and slots after that
/// are given back.
pub fn call_for_one(
    out: &mut Lowering,
    routine: WExpr,
    args: Vec<WExpr>,
    taken: u32,
) -> Result<WExpr> {
    out.release(taken);
    let slot = out.take()?;
    let results = vec![in out.alloc; slot]?;
    out.push(WStmt::Call(routine, args, results))?;
    Ok(WExpr::Slot(slot))
}

/// Does an operation with these arguments; its results go into the slots.
pub fn perform(
    out: &mut Lowering,
    c: &Checked,
    op: Option<&OpRef>,
    routine: WExpr,
    args: Vec<WExpr>,
    results: Vec<u32>,
) -> Result<()> {
    let args = put_args(out, op, args, results.len())?;
    match found(out.alloc, &c.types, op, args.as_slice())? {
        Some(WDeed::Put(address, bytes, value)) => out.push(WStmt::Put(address, bytes, value)),
        Some(WDeed::Value(value)) => match results.as_slice() {
            [slot] => out.push(WStmt::Set(*slot, value)),
            _ => out.push(WStmt::Call(routine, args, results)),
        },
        None => out.push(WStmt::Call(routine, args, results)),
    }
}

/// The arguments of an operation. A built-in one without results may put its last one, which is evaluated before the others
/// then: these are kept, unless that is fixed.
fn put_args(
    out: &mut Lowering,
    op: Option<&OpRef>,
    args: Vec<WExpr>,
    results: usize,
) -> Result<Vec<WExpr>> {
    let may_put = results == 0 && matches!(op, Some(OpRef::Builtin(_, _)));
    if !may_put || ends_fixed(args.as_slice()) {
        return Ok(args);
    }
    let mut kept = Vec::new(out.alloc);
    let mut left = args.len();
    for value in args {
        left = left.saturating_sub(1);
        kept.push(if left > 0 { out.kept(value)? } else { value })?;
    }
    Ok(kept)
}

/// Whether the last value, if there is one, is fixed.
fn ends_fixed(values: &[WExpr]) -> bool {
    match values.last() {
        Some(last) => is_fixed(last),
        None => true,
    }
}

/// What an operation does in its place; None where it is called.
fn found(
    alloc: Global,
    types: &TypeArena,
    op: Option<&OpRef>,
    args: &[WExpr],
) -> Result<Option<WDeed>> {
    match op {
        Some(OpRef::Builtin(of, name)) => of_type(alloc, types, *of, name, args),
        _ => Ok(None),
    }
}

/// The same for the operation of this name of a type.
fn of_type(
    alloc: Global,
    types: &TypeArena,
    of: TypeId,
    name: &Bytes,
    args: &[WExpr],
) -> Result<Option<WDeed>> {
    if let Some(selected) = select_operation(alloc, types, of, name)? {
        let known = words_of(alloc, selected.known.as_slice())?;
        return Ok(in_place(alloc, selected.operation, args, known.as_slice())?);
    }
    match operation_of(types, of, name) {
        Some(operation) => Ok(in_place(alloc, operation, args, &[])?),
        None => Ok(None),
    }
}

/// The words of constants of a type, which are ints.
fn words_of(alloc: Global, known: &[Const]) -> Result<Vec<u64>, Memory> {
    let mut words = Vec::new(alloc);
    for constant in known {
        words.push(match constant {
            Const::Int(number) => number.cast_unsigned(),
            _ => 0,
        })?;
    }
    Ok(words)
}
