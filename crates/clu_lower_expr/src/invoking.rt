//! Invocations: what is invoked, and its arguments bound to the formals.

ghost use Rattle.std.specs.Prelude.{◌<◌, All, IfOk, length};

use crate::binding::bind_all;
use crate::in_place::{apply, perform};
use crate::lowering::Lowering;
use crate::operands::Operand;
use crate::walk::invoked;
use clu_core::OpRef;
use clu_lower_types::{Fixed, LowerError, Result, Seen, any_formals, heading_of, operation_of};
use clu_syntax::{Expression, Syntax};
use clu_types::TypeId;
use clu_wir::WExpr;

/// The parts of a call.
#[derive(Clone, Copy)]
pub struct Call<'a> {
    pub routine: u32,
    pub arguments: &'a [u32],
}

/// What is invoked, and its arguments.
#[derive(Drop)]
pub struct Invoked {
    pub routine: WExpr,
    pub args: Vec<WExpr>,
}

/// The call at a node. By the grammar one stands where a statement invokes something, but no contract says so yet.
fn call_at(syntax: &Syntax, n: u32) -> Result<Call<'_>>
    requires { n < length syntax.now }
    ensures routine { IfOk result (λ call. call.routine < n) }
    ensures arguments { IfOk result (λ call. All (λ c. c < n) call.arguments.now) }
{
    match syntax.expression(n) {
        Expression::Call { routine, arguments } => Ok(Call { routine, arguments }),
        _ => Err(LowerError::NotYet),
    }
}

/// What a call invokes, and its arguments bound to the formals, evaluated.
pub fn lower_callee(out: &mut Lowering, fixed: &Fixed, n: u32) -> Result<Invoked>
    requires { n < length fixed.now.syntax.now }
{
    let call = call_at(fixed.syntax, n)?;
    let free = out.taken();
    invoked(out, fixed, n, call, free)
}

/// Adds the code of a call whose results, if it has any, go into these slots.
pub fn lower_call(out: &mut Lowering, fixed: &Fixed, n: u32, results: Vec<u32>) -> Result<()>
    requires { n < length fixed.now.syntax.now }
{
    let call = call_at(fixed.syntax, n)?;
    let free = out.taken();
    let Invoked { routine, args } = invoked(out, fixed, n, call, free)?;
    let op = named_operation(fixed, call.routine);
    perform(out, fixed.c, op, routine, args, results)
}

/// The operation of a type that is invoked by its name.
fn named_operation<'a>(fixed: &Fixed<'a>, routine: u32) -> Option<&'a OpRef>
    requires { routine < length fixed.now.syntax.now }
{
    match fixed.syntax.expression(routine) {
        Expression::Operation { .. } => operation_of(fixed.c, routine),
        _ => None,
    }
}

/// The only result of what is invoked. Slots from `free` on may change.
pub fn apply_invoked(
    out: &mut Lowering,
    fixed: &Fixed,
    call: Call<'_>,
    invoked: Invoked,
    free: u32,
) -> Result<WExpr>
    requires { call.routine < length fixed.now.syntax.now }
{
    let Invoked { routine, args } = invoked;
    let op = named_operation(fixed, call.routine);
    apply(out, fixed.c, op, routine, args, free)
}

/// The operands of the sugar at a node, bound to the formals of its operation, whose heading is `seen`.
pub fn bind_operands(
    out: &mut Lowering,
    fixed: &Fixed,
    n: u32,
    seen: Option<&Seen>,
    operands: Vec<Operand>,
    free: u32,
) -> Result<Vec<WExpr>> {
    let any = any_formals(out.alloc, fixed.c, n, seen)?;
    bind_all(out, fixed.c, operands, any.as_slice(), free)
}

/// The types of the results of a call.
pub fn results_of<'a>(fixed: &Fixed<'a>, n: u32) -> Result<&'a [TypeId]>
    requires { n < length fixed.now.syntax.now }
{
    let call = call_at(fixed.syntax, n)?;
    Ok(heading_of(fixed.c, call.routine)?.results.as_slice())
}

/// Whether the expression at a node is a call.
pub fn is_call(syntax: &Syntax, n: u32) -> bool
    requires { n < length syntax.now }
{
    matches!(syntax.expression(n), Expression::Call { .. })
}
