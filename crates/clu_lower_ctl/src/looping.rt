//! Loops (CLU Reference Manual, sections 11.4 and 11.5): while a condition is true, and over the objects that an iterator
//! yields.

ghost use Rattle.std.specs.Prelude.{◌<◌, length};
ghost use Rattle.clu_syntax.specs.Parts.{body_parts};
ghost use Rattle.clu_lower_ctl.specs.Inside.{AreNodes};

use crate::assigning::{assign_slots, denoted_by, take_slots};
use crate::declaring::{Declared, declare_all, variables_of};
use crate::walk::{condition, statements};
use clu_base::Bytes;
use clu_lower_expr::{Invoked, Lowering, bind, lower_callee, results_of};
use clu_lower_types::{Fixed, Result};
use clu_syntax::Body;
use clu_tree::NodeKind;
use clu_types::TypeId;
use clu_wir::{WExpr, WStmt};

/// `while condition do body end`
#[cycle(statements)]
pub fn while_loop(
    out: &mut Lowering,
    fixed: &Fixed,
    n: u32,
    condition: u32,
    body: Body<'_>,
) -> Result<()>
    requires inside { n < length fixed.now.syntax.now }
    requires condition { condition < n }
    requires body { body_parts fixed.now.syntax.now n body }
{
    let outer = out.open();
    leave_unless(out, fixed, condition)?;
    statements(out, fixed, n, body.statements)?;
    let turn = out.close(outer);
    out.push(WStmt::Loop(turn))
}

/// Leaves the loop where the condition is false.
fn leave_unless(out: &mut Lowering, fixed: &Fixed, n: u32) -> Result<()>
    requires { n < length fixed.now.syntax.now }
{
    let condition = condition(out, fixed, n)?;
    let leaving = vec![in out.alloc; WStmt::Break]?;
    out.push(WStmt::If(condition, Vec::new(out.alloc), leaving))
}

/// `for .. in call do body end`, with variables of its own or those of these names. The slots of the arguments are free in
/// the body.
#[cycle(statements)]
pub fn for_loop(
    out: &mut Lowering,
    fixed: &Fixed,
    n: u32,
    declarations: &[u32],
    names: &[Bytes],
    call: u32,
    body: Body<'_>,
) -> Result<()>
    requires inside { n < length fixed.now.syntax.now }
    requires declarations { AreNodes fixed.now.syntax.now NodeKind.Decl declarations.now }
    requires call { call < n }
    requires body { body_parts fixed.now.syntax.now n body }
{
    let taken = out.taken();
    let Invoked { routine, args } = lower_callee(out, fixed, call)?;
    out.release(taken);
    let outer = out.open();
    let items = items(out, fixed, n, declarations, names, results_of(fixed, call)?)?;
    statements(out, fixed, n, body.statements)?;
    let turn = out.close(outer);
    out.push(WStmt::Iterate(routine, args, items, turn))
}

/// The slots to which the words of a yield go, of these types. After this the loop's variables name their objects. Slots
/// from which objects go to variables that are there are free in the body.
fn items(
    out: &mut Lowering,
    fixed: &Fixed,
    n: u32,
    declarations: &[u32],
    names: &[Bytes],
    given: &[TypeId],
) -> Result<Vec<u32>>
    requires { AreNodes fixed.now.syntax.now NodeKind.Decl declarations.now }
{
    if names.is_empty() {
        let listed = variables_of(fixed, declarations)?;
        return declare_items(out, fixed, listed.as_slice(), given);
    }
    let taken = out.taken();
    let places = denoted_by(fixed, n, names.len())?;
    let slots = take_slots(out, names.len())?;
    assign_slots(
        out,
        fixed,
        places.as_slice(),
        slots.as_slice(),
        given,
        taken,
    )?;
    Ok(slots)
}

/// The variables of the loop's own, to which objects of these types come.
fn declare_items(
    out: &mut Lowering,
    fixed: &Fixed,
    listed: &[Declared],
    given: &[TypeId],
) -> Result<Vec<u32>> {
    let slots = declare_all(out, listed, false)?;
    for ((declared, slot), of) in listed.iter().zip(slots.as_slice()).zip(given) {
        let word = WExpr::Slot(*slot);
        let _word = bind(out, &fixed.c.types, word, *of, declared.is_any, *slot)?;
    }
    Ok(slots)
}
