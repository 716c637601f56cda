//! Constructors of records, structs, arrays and sequences (CLU Reference Manual, section 10.8). The layouts are those of
//! the operations of these types.

ghost use Rattle.std.specs.Prelude.{◌≡◌, ◌<◌, IfOk, length};
ghost use Rattle.clu_wir.specs.Plain.{binary, expr_of};
ghost use Rattle.clu_syntax.specs.Parts.{AreOf};

use crate::binding::bind;
use crate::lowering::Lowering;
use crate::operands::{Operand, again};
use clu_base::Bytes;
use clu_core::{Checked, term};
use clu_lower_types::{Fixed, LowerError, Result, is_any, place_of, type_of};
use clu_tree::NodeKind;
use clu_types::{Field, Term, TypeId};
use clu_wir::{Primitive, WExpr, WOp, WStmt};
use std::alloc::Global;
use std::boxed::Box;

/// The words of an array before its elements.
const HEADER: u64 = 6;

/// The greatest int: what is added to a low bound so that the least one comes to all ones.
const GREATEST: u64 = 0x7FFF_FFFF_FFFF_FFFF;

/// The object of a constructor by selectors, in a slot, from the values of its components, which are fixed.
pub fn fill_record(
    out: &mut Lowering,
    fixed: &Fixed,
    n: u32,
    components: &[u32],
    operands: &[Operand],
    slot: u32,
) -> Result<()>
    requires inside { n < length fixed.now.syntax.now }
    requires components { AreOf fixed.now.syntax.now NodeKind.FieldE n components.now }
{
    let c = fixed.c;
    let fields = match term(&c.types, type_of(c, n)?)? {
        Term::Record(fields) => fields.as_slice(),
        Term::Struct(fields) => fields.as_slice(),
        _ => return Err(LowerError::NotYet),
    };
    allocate(out, slot, (fields.len() as u64).saturating_add(1))?;
    for (component, operand) in components.iter().zip(operands) {
        let selectors = fixed.syntax.component(*component).selectors;
        fill_component(out, c, selectors, operand, fields, slot)?;
    }
    out.release(slot.saturating_add(1));
    Ok(())
}

/// Puts a value at each of these selectors.
fn fill_component(
    out: &mut Lowering,
    c: &Checked,
    selectors: &[Bytes],
    operand: &Operand,
    fields: &[Field],
    slot: u32,
) -> Result<()> {
    for selector in selectors {
        let place = place_of(fields, selector)?;
        let to_any = match fields.get(place) {
            Some(field) => is_any(&c.types, field.of),
            None => return Err(LowerError::NotYet),
        };
        let bound = bind_again(out, c, operand, to_any, u32::MAX)?;
        put_word(out, slot, place.saturating_add(1), bound)?;
    }
    Ok(())
}

/// The word of an operand, which stays as it is, bound to any if `to_any`.
fn bind_again(
    out: &mut Lowering,
    c: &Checked,
    operand: &Operand,
    to_any: bool,
    free: u32,
) -> Result<WExpr> {
    let of = type_of(c, operand.node)?;
    bind(out, &c.types, again(&operand.word)?, of, to_any, free)
}

/// The object of a constructor by elements, in a slot, from their values and that of the low bound, which are
/// fixed.
pub fn fill_array(
    out: &mut Lowering,
    fixed: &Fixed,
    n: u32,
    low: Option<&Operand>,
    elements: &[Operand],
    slot: u32,
) -> Result<()> {
    let c = fixed.c;
    let count = elements.len() as u64;
    let (element, first) = header(out, c, type_of(c, n)?, low, count, slot)?;
    let to_any = is_any(&c.types, element);
    let free = slot.saturating_add(1);
    let mut place = first;
    for operand in elements {
        let bound = bind_again(out, c, operand, to_any, free)?;
        put_word(out, slot, place, bound)?;
        place = place.saturating_add(1);
    }
    out.release(free);
    Ok(())
}

/// The words of an array or a sequence of so many elements but for these. Gives their type and the number of the word that
/// is the first of them.
fn header(
    out: &mut Lowering,
    c: &Checked,
    of: TypeId,
    low: Option<&Operand>,
    count: u64,
    slot: u32,
) -> Result<(TypeId, usize)> {
    match term(&c.types, of)? {
        Term::Array(element) => {
            let low = low_bound(out, low, count)?;
            array(out, slot, low, count)?;
            Ok((*element, HEADER as usize))
        }
        Term::Sequence(element) => {
            sequence(out, slot, count)?;
            Ok((*element, 1))
        }
        _ => Err(LowerError::NotYet),
    }
}

/// The low bound of an array, 1 if none is given.
fn low_bound(out: &mut Lowering, low: Option<&Operand>, count: u64) -> Result<WExpr> {
    match low {
        Some(low) => {
            test_low(out, again(&low.word)?, count)?;
            again(&low.word)
        }
        None => Ok(WExpr::Word(1)),
    }
}

/// The words of an array before its elements.
fn array(out: &mut Lowering, slot: u32, low: WExpr, count: u64) -> Result<()> {
    allocate(out, slot, HEADER.saturating_add(count))?;
    put_word(out, slot, 0, low)?;
    if count > 0 {
        put_word(out, slot, 1, WExpr::Word(count))?;
        put_word(out, slot, 2, WExpr::Word(count))?;
        let room = binary(
            out.alloc,
            WOp::Add,
            WExpr::Slot(slot),
            WExpr::Word(HEADER * 8),
        )?;
        put_word(out, slot, 4, room)?;
    }
    Ok(())
}

/// Raises a failure unless the bounds of so many elements, and the int below the low one, are ints. Counted from the
/// least int but one, the low bound is less than all ones without the elements after the first.
fn test_low(out: &mut Lowering, low: WExpr, count: u64) -> Result<()> {
    let counted = binary(out.alloc, WOp::Add, low, WExpr::Word(GREATEST))?;
    let most = WExpr::Word(0u64.wrapping_sub(count.max(1)));
    let fits = binary(out.alloc, WOp::Sltu, counted, most)?;
    let outer = out.open();
    out.raise_failure(b"bounds out of range")?;
    let raising = out.close(outer);
    out.push(WStmt::If(fits, Vec::new(out.alloc), raising))
}

/// The word of a sequence before its elements.
fn sequence(out: &mut Lowering, slot: u32, count: u64) -> Result<()> {
    allocate(out, slot, count.saturating_add(1))?;
    if count > 0 {
        put_word(out, slot, 0, WExpr::Word(count))?;
    }
    Ok(())
}

/// So many words of the store, whose address goes into a slot. They are 0.
fn allocate(out: &mut Lowering, slot: u32, words: u64) -> Result<()> {
    let count = vec![in out.alloc; WExpr::Word(words)]?;
    let results = vec![in out.alloc; slot]?;
    out.push(WStmt::Prim(Primitive::Allocate.number(), count, results))
}

/// Puts a value into a word of the object whose address is in a slot.
fn put_word(out: &mut Lowering, slot: u32, place: usize, value: WExpr) -> Result<()> {
    let Ok(distance) = u32::try_from(place.saturating_mul(8)) else {
        return Err(LowerError::NotYet);
    };
    out.push(WStmt::Put(WExpr::Slot(slot), distance, value))
}

/// An operation on two words.
pub fn binary(alloc: Global, op: WOp, left: WExpr, right: WExpr) -> Result<WExpr>
    ensures { IfOk result (λ e. expr_of e ≡ binary op (expr_of left) (expr_of right)) }
{
    let left = Box::new(alloc, left)?;
    let right = Box::new(alloc, right)?;
    Ok(WExpr::Binary(op, left, right))
}
