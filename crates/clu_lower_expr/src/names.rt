//! Names: constants, routines as objects, and variables.

ghost use Rattle.std.specs.Prelude.{◌≡◌, IfOk, Some};
ghost use Rattle.clu_wir.specs.Plain.{expr_of};
ghost use Rattle.clu_lower_expr.specs.Low.{low_of};
ghost use Rattle.clu_lower_expr.specs.Names.{name_word};

use crate::literals::named_constant;
use crate::lowering::Lowering;
use crate::uses::node_operation;
use clu_lower_types::{Fixed, Result, operation_of};
use clu_wir::WExpr;

/// The word of what a Name stands for.
pub fn name(out: &mut Lowering, fixed: &Fixed, n: u32) -> Result<WExpr>
    ensures { IfOk result (λ e. name_word fixed.now n (low_of out.old) ≡ Some (expr_of e, low_of out.new)) }
{
    let c = fixed.c;
    if let Some(Some(named)) = c.constant_of.get(n as usize) {
        return named_constant(out, c, *named);
    }
    if operation_of(c, n).is_some() {
        return node_operation(out, c, n);
    }
    out.object_named(fixed, fixed.declarations.denoted(n, 0)?)
}
