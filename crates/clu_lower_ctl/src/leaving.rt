//! The statements that leave a routine, for a time or for good, or go to an arm: Yield, Return, Signal and Exit (CLU
//! Reference Manual, sections 11.3, 11.4 and 12.3).

ghost use Rattle.std.specs.Prelude.{◌<◌, length};
ghost use Rattle.clu_syntax.specs.Parts.{AreBefore};

use clu_base::Bytes;
use clu_lower_expr::{Lowering, Operand, bind_all, lower_all};
use clu_lower_types::{Fixed, LowerError, Result, text_of, type_of};
use clu_wir::{HoleKind, WExpr, WStmt};

/// The values of the statement n, bound to any where `any` says so once all of them are evaluated.
fn bound_values(
    out: &mut Lowering,
    fixed: &Fixed,
    n: u32,
    values: &[u32],
    any: &[bool],
) -> Result<Vec<WExpr>>
    requires inside { n < length fixed.now.syntax.now }
    requires below { AreBefore n values.now }
{
    let free = out.taken();
    let operands = lower_all(out, fixed, n, values)?;
    bind_all(out, fixed.c, operands, any, free)
}

/// `return (a, b)`, or `yield (a, b)` after which the routine goes on.
pub fn give_results(
    out: &mut Lowering,
    fixed: &Fixed,
    n: u32,
    values: &[u32],
    goes_on: bool,
) -> Result<()>
    requires inside { n < length fixed.now.syntax.now }
    requires below { AreBefore n values.now }
{
    let words = bound_values(out, fixed, n, values, fixed.results.as_slice())?;
    out.push(if goes_on {
        WStmt::Yield(words)
    } else {
        WStmt::Return(words)
    })
}

/// `signal e (a, b)`. After the objects of an exception of the heading stands the address of the numbers of their types. A
/// failure, which may come from anywhere, has its string alone.
pub fn signal(out: &mut Lowering, fixed: &Fixed, n: u32, name: &Bytes, values: &[u32]) -> Result<()>
    requires inside { n < length fixed.now.syntax.now }
    requires below { AreBefore n values.now }
{
    let mut objects = bound_values(out, fixed, n, values, fixed.signal(name))?;
    if let Some(first) = fixed.object_types.get(name) {
        objects.push(WExpr::Hole(HoleKind::TypeCell, *first))?;
    }
    out.exception(name)?;
    out.push(WStmt::Signal(name.copy(out.alloc)?, objects))
}

/// `exit e (a, b)`
pub fn exit(out: &mut Lowering, fixed: &Fixed, n: u32, name: &Bytes, values: &[u32]) -> Result<()>
    requires inside { n < length fixed.now.syntax.now }
    requires below { AreBefore n values.now }
{
    let place = out.exit_target(name)?;
    let (drops, binds) = match out.arm(place) {
        Some(arm) => (arm.drops, arm.binds),
        None => return Err(LowerError::NotYet),
    };
    let mut operands = lower_all(out, fixed, n, values)?;
    if drops {
        // Their evaluation may raise.
        out.keep_all(&mut operands)?;
    }
    let words = exit_words(out, fixed, operands, drops, binds)?;
    out.push(WStmt::Exit(place.inside, place.arm, words))
}

/// The words that go to an arm: none if it drops them, and after them the address of the numbers of their types if it binds
/// them.
fn exit_words(
    out: &mut Lowering,
    fixed: &Fixed,
    operands: Vec<Operand>,
    drops: bool,
    binds: bool,
) -> Result<Vec<WExpr>> {
    let mut words = Vec::new(out.alloc);
    if drops {
        return Ok(words);
    }
    let mut texts = Vec::new(out.alloc);
    for Operand { word, node, .. } in operands {
        words.push(word)?;
        if binds {
            texts.push(text_of(out.alloc, &fixed.c.types, type_of(fixed.c, node)?)?)?;
        }
    }
    if binds {
        words.push(out.type_cells(texts)?)?;
    }
    Ok(words)
}
