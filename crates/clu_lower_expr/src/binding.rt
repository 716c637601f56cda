//! Binding of objects to names, results, components and objects of exceptions: where the declared type is any, an object
//! of another type goes into a pair with the number of its type.

ghost use Rattle.std.specs.Prelude.{◌≡◌, IfOk, Some};
ghost use Rattle.clu_types.specs.Arena.{type_at, types_of};
ghost use Rattle.clu_specs.specs.Texts.{type_text};
ghost use Rattle.clu_wir.specs.Plain.{expr_of};
ghost use Rattle.clu_lower_expr.specs.Low.{low_of};
ghost use Rattle.clu_lower_expr.specs.Values.{bound_as, operand_bound, pair_slot, type_number, value_of};

use crate::lowering::Lowering;
use crate::operands::Operand;
use clu_core::Checked;
use clu_lower_types::{Result, is_any, text_of, type_of};
use clu_types::{TypeArena, TypeId};
use clu_wir::{WExpr, WStmt};

/// The word of an object of the type `of` where it is bound to type any if `to_any`, else to a type that includes its
/// own. A slot from `free` on may change.
pub fn bind(
    out: &mut Lowering,
    types: &TypeArena,
    value: WExpr,
    of: TypeId,
    to_any: bool,
    free: u32,
) -> Result<WExpr>
    ensures { IfOk result (λ e. bound_as to_any (type_at (types_of types.now) of) free (expr_of value) (low_of out.old) ≡ (expr_of e, low_of out.new)) }
{
    if !to_any || is_any(types, of) {
        return Ok(value);
    }
    let slot = pair_slot(out, &value, free)?;
    let number = type_number(out, types, of)?;
    out.push(WStmt::Bind(number, value, slot))?;
    Ok(WExpr::Slot(slot))
}

/// The slot of a pair: that of a value in a slot that may change, or else a new one.
fn pair_slot(out: &mut Lowering, value: &WExpr, free: u32) -> Result<u32>
    ensures { IfOk result (λ slot. pair_slot free (expr_of value.now) (low_of out.old) ≡ (slot, low_of out.new)) }
{
    match value {
        WExpr::Slot(slot) if *slot >= free => Ok(*slot),
        _ => out.take(),
    }
}

/// Values of expressions, each bound as `any` says, once all of them are evaluated. What `any` doesn't speak of is not
/// bound to any.
pub fn bind_all(
    out: &mut Lowering,
    c: &Checked,
    mut operands: Vec<Operand>,
    any: &[bool],
    free: u32,
) -> Result<Vec<WExpr>> {
    if any.contains(&true) {
        out.keep_all(&mut operands)?;
    }
    let mut bound = Vec::new(out.alloc);
    let mut place = 0usize;
    for operand in operands {
        let to_any = any.get(place).copied().unwrap_or(false);
        bound.push(bind_operand(out, c, operand, to_any, free)?)?;
        place = place.saturating_add(1);
    }
    Ok(bound)
}

fn bind_operand(
    out: &mut Lowering,
    c: &Checked,
    operand: Operand,
    to_any: bool,
    free: u32,
) -> Result<WExpr>
    ensures { IfOk result (λ e. operand_bound c.now to_any free (value_of operand) (low_of out.old) ≡ Some (expr_of e, low_of out.new)) }
{
    let Operand { word, node, .. } = operand;
    if to_any {
        bind(out, &c.types, word, type_of(c, node)?, true, free)
    } else {
        Ok(word)
    }
}

/// The number of a type in the program.
pub fn type_number(out: &mut Lowering, types: &TypeArena, of: TypeId) -> Result<WExpr>
    ensures { IfOk result (λ e. type_number (type_text (type_at (types_of types.now) of)) (low_of out.old) ≡ (expr_of e, low_of out.new)) }
{
    let text = text_of(out.alloc, types, of)?;
    out.type_number(text)
}
