//! What `force` does, one code for all types: an object of type any is the address of the number of its own type, after
//! which its word lies.

ghost use Rattle.std.specs.Prelude.{IfOk};
ghost use Rattle.clu_rt_data.specs.Schemes.{IsForce};

use clu_base::{Bytes, Const, Memory, ObjConst};
use clu_wir::{HoleKind, WExpr, WOp, WRoutine, WStmt};
use std::alloc::Global;
use std::boxed::Box;

/// The distance of the word after the number of the type.
const WORD: u32 = 8;

/// The word code of `force`, whose only type, in its link table, is the one that is wanted. Its `nodes` are 0, since
/// limits on programs don't count it.
pub fn force_code(alloc: Global) -> Result<WRoutine, Memory>
    ensures { IfOk result IsForce }
{
    let name = Bytes::from_slice(alloc, b"wrong_type")?;
    let own = load(alloc, 0)?;
    let wanted = WExpr::Hole(HoleKind::TypeWord, 0);
    let is_wanted = WExpr::Binary(WOp::Equal, Box::new(alloc, own)?, Box::new(alloc, wanted)?);
    let answer = vec![in alloc; load(alloc, WORD)?]?;
    let giving = vec![in alloc; WStmt::Return(answer)]?;
    let refusing = vec![in alloc; WStmt::Signal(name.copy(alloc)?, Vec::new(alloc))]?;
    let constant = ObjConst::Value(Const::Str(name));
    Ok(WRoutine {
        name: Bytes::from_slice(alloc, b"force")?,
        args: 1,
        slots: 1,
        body: vec![in alloc; WStmt::If(is_wanted, giving, refusing)]?,
        nodes: 0,
        uses: Vec::new(alloc),
        constants: vec![in alloc; constant]?,
        types: vec![in alloc; Bytes::from_slice(alloc, b"any")?]?,
    })
}

/// A word of the argument.
fn load(alloc: Global, distance: u32) -> Result<WExpr, Memory> {
    Ok(WExpr::Load(Box::new(alloc, WExpr::Slot(0))?, distance))
}
