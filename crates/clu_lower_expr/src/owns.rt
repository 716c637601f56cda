//! Own variables: two words of the data each, the object's and whether the variable names one.

ghost use Rattle.std.specs.Prelude.{◌≡◌, IfOk, OnOk, Some};
ghost use Rattle.clu_types.specs.Arena.{type_at, types_of};
ghost use Rattle.clu_wir.specs.Plain.{bound, expr_of, load};
ghost use Rattle.clu_lower_expr.specs.Low.{low_of};
ghost use Rattle.clu_lower_expr.specs.Values.{assigned_named, assigned_own, object_named, own_object, own_set_up, own_word};

use crate::binding::bind;
use crate::lowering::Lowering;
use crate::uses::descriptor;
use clu_base::Bytes;
use clu_lower_types::{Fixed, OwnVariable, Result};
use clu_types::TypeId;
use clu_wir::{HoleKind, WExpr, WStmt};
use std::boxed::Box;

/// The distance of the word that says whether an own variable names an object.
const NAMED: u32 = 8;

/// The number of the own variable whose first word says whether the others were set up.
pub const FLAG: u32 = 0;

impl Lowering {
    /// A word of an own variable.
    pub fn own_word(&self, kind: HoleKind, number: u32, distance: u32) -> Result<WExpr>
        ensures { IfOk result (λ e. expr_of e ≡ own_word kind number distance) }
    {
        let address = WExpr::Hole(kind, number);
        Ok(WExpr::Load(Box::new(self.alloc, address)?, distance))
    }

    /// The word of the object that the variable of this declaration names, own or not. Where it names none the code raises
    /// a failure.
    pub fn object_named(&self, fixed: &Fixed, place: usize) -> Result<WExpr>
        ensures { IfOk result (λ e. object_named fixed.now place (low_of self.now) ≡ Some (expr_of e)) }
    {
        let Some(own) = fixed.owns.get(&place).copied() else {
            return self.object_of(place);
        };
        self.own_object(own)
    }

    /// The word of the object that an own variable names.
    fn own_object(&self, own: OwnVariable) -> Result<WExpr>
        ensures { IfOk result (λ e. expr_of e ≡ own_object own) }
    {
        let named = self.word_behind(NAMED)?;
        let word = self.word_behind(0)?;
        let object = self.needed(named, word)?;
        let address = vec![in self.alloc; WExpr::Hole(own.kind, own.number)]?;
        Ok(WExpr::With(address, Box::new(self.alloc, object)?))
    }

    /// The word so many bytes after the address that is bound.
    fn word_behind(&self, distance: u32) -> Result<WExpr>
        ensures { IfOk result (λ e. expr_of e ≡ load (bound 0) distance) }
    {
        Ok(WExpr::Load(Box::new(self.alloc, WExpr::Bound(0))?, distance))
    }

    /// Lets an own variable name the object of a word.
    pub fn assign_own(&mut self, own: OwnVariable, value: WExpr) -> Result<()>
        ensures { OnOk result (low_of self.new ≡ assigned_own own (expr_of value) (low_of self.old)) }
    {
        let taken = self.taken();
        let slot = self.take()?;
        self.push(WStmt::Set(slot, WExpr::Hole(own.kind, own.number)))?;
        self.push(WStmt::Put(WExpr::Slot(slot), 0, value))?;
        self.push(WStmt::Put(WExpr::Slot(slot), NAMED, WExpr::Word(1)))?;
        self.release(taken);
        Ok(())
    }
}

/// Lets the variable of this declaration, own or not, name an object of the type `of`. A slot from `free` on may change.
pub fn assign_named(
    out: &mut Lowering,
    fixed: &Fixed,
    place: usize,
    value: WExpr,
    of: TypeId,
    free: u32,
) -> Result<()>
    ensures { OnOk result (assigned_named fixed.now place (type_at (types_of fixed.now.c.now.types) of) free (expr_of value) (low_of out.old) ≡ Some (low_of out.new)) }
{
    let types = &fixed.c.types;
    match fixed.owns.get(&place).copied() {
        Some(own) => {
            let value = bind(out, types, value, of, own.is_any, free)?;
            out.assign_own(own, value)
        }
        None => {
            let variable = out.variable(place)?;
            let value = bind(out, types, value, of, variable.is_any, free)?;
            out.assign(variable, value)
        }
    }
}

/// Adds the call that sets up the own variables of the cluster round the routine, by the text of its use, where they were
/// not set up.
pub fn lower_own_set_up(out: &mut Lowering, text: Bytes) -> Result<()>
    ensures { OnOk result (low_of out.new ≡ own_set_up text (low_of out.old)) }
{
    let routine = descriptor(out.use_number(text)?);
    let call = WStmt::Call(routine, Vec::new(out.alloc), Vec::new(out.alloc));
    let setting = vec![in out.alloc; call]?;
    let flag = out.own_word(HoleKind::ClusterOwn, FLAG, 0)?;
    out.push(WStmt::If(flag, Vec::new(out.alloc), setting))
}
