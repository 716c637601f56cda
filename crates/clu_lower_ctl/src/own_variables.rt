//! Own variables of routines and clusters: where they are, and the code that sets them up (CLU Reference Manual, section
//! 8.3). The first word of variable 0 says whether the others were set up.

ghost use Rattle.std.specs.Prelude.{◌≡◌};
ghost use Rattle.clu_lower_ctl.specs.Inside.{AreNodes, IsNode};

use crate::assigning::assign_one;
use crate::declaring::{Declared, declared_by, give_results, variables_of};
use clu_lower_expr::{FLAG, Lowering};
use clu_lower_types::{Fixed, OwnVariable, Result};
use clu_syntax::Own;
use clu_tree::NodeKind;
use clu_wir::{HoleKind, WExpr, WStmt};

/// Brings the variables of these Owns into scope, numbered from 1 in the order of the text.
pub fn declare_owns(fixed: &mut Fixed, owns: &[u32], kind: HoleKind) -> Result<()>
    requires { AreNodes fixed.old.syntax.now NodeKind.Own owns.now }
    ensures { fixed.new.syntax ≡ fixed.old.syntax }
{
    let mut number = FLAG;
    for own in owns {
        let listed = declared_in(fixed, *own)?;
        number = declare_own(fixed, listed.as_slice(), kind, number)?;
    }
    Ok(())
}

/// The variables of one Own, numbered after `last`; the answer is the last number.
fn declare_own(fixed: &mut Fixed, listed: &[Declared], kind: HoleKind, last: u32) -> Result<u32>
    ensures { fixed.new.syntax ≡ fixed.old.syntax }
{
    let mut number = last;
    for declared in listed {
        number = number.saturating_add(1);
        let own = OwnVariable {
            kind,
            number,
            is_any: declared.is_any,
        };
        fixed.owns.insert(declared.place, own)?;
    }
    Ok(number)
}

/// The variables that an Own declares.
fn declared_in(fixed: &Fixed, n: u32) -> Result<Vec<Declared>>
    requires { IsNode fixed.now.syntax.now NodeKind.Own n }
{
    match fixed.syntax.own(n) {
        Own::Declare { declarations } => variables_of(fixed, declarations),
        Own::InitByCall { declarations, .. } => variables_of(fixed, declarations),
        Own::Init { declared, .. } => {
            Ok(vec![in fixed.alloc; declared_by(fixed, n, declared)?]?)
        }
    }
}

/// Adds the code that sets up these Owns where they were not: first it notes that they are.
pub fn set_up_once(out: &mut Lowering, fixed: &Fixed, owns: &[u32], kind: HoleKind) -> Result<()>
    requires { AreNodes fixed.now.syntax.now NodeKind.Own owns.now }
{
    let outer = out.open();
    set_up(out, fixed, owns, kind)?;
    let setting = out.close(outer);
    let flag = out.own_word(kind, FLAG, 0)?;
    out.push(WStmt::If(flag, Vec::new(out.alloc), setting))
}

/// Adds the code that sets up these Owns.
pub fn set_up(out: &mut Lowering, fixed: &Fixed, owns: &[u32], kind: HoleKind) -> Result<()>
    requires { AreNodes fixed.now.syntax.now NodeKind.Own owns.now }
{
    out.push(WStmt::Put(WExpr::Hole(kind, FLAG), 0, WExpr::Word(1)))?;
    for own in owns {
        initialize_own(out, fixed, *own)?;
    }
    Ok(())
}

/// The initial objects of an Own, if it has any: of one variable, or the results of a call.
fn initialize_own(out: &mut Lowering, fixed: &Fixed, n: u32) -> Result<()>
    requires { IsNode fixed.now.syntax.now NodeKind.Own n }
{
    match fixed.syntax.own(n) {
        Own::Declare { .. } => Ok(()),
        Own::Init { value, .. } => assign_one(out, fixed, fixed.declarations.made(n)?, value),
        Own::InitByCall { declarations, call } => {
            let listed = variables_of(fixed, declarations)?;
            give_results(out, fixed, listed.as_slice(), call)
        }
    }
}
