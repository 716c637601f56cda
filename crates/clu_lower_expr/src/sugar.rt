//! Sugar: operators, selections and fetches, each of which invokes an operation (CLU Reference Manual, section 10.13).

ghost use Rattle.std.specs.Prelude.{◌<◌, All, length};

use crate::binding::bind;
use crate::constructors::binary;
use crate::in_place::{apply, call_for_one, perform};
use crate::invoking::bind_operands;
use crate::lowering::Lowering;
use crate::operands::Operand;
use crate::uses::{node_operation, type_operation};
use crate::walk::lower_all;
use clu_base::Bytes;
use clu_lower_types::{
    Fixed, LowerError, Result, Seen, is_any, operation_of, seen_at, seen_of, type_of,
};
use clu_types::TypeId;
use clu_wir::{WExpr, WOp};

/// Notes the uses of an operator, which stand in the order of the places in the text: that of its operation, and that of
/// `not` if it is negated.
pub fn note_operator(out: &mut Lowering, fixed: &Fixed, n: u32, negated: bool) -> Result<()> {
    let _operation = node_operation(out, fixed.c, n)?;
    if negated {
        note_negation(out, fixed, n)
    } else {
        Ok(())
    }
}

/// Notes the use of `not` by an operator that negates a comparison.
fn note_negation(out: &mut Lowering, fixed: &Fixed, n: u32) -> Result<()> {
    let seen = seen_at(fixed, n)?;
    let _negation = not_operation(out, fixed, n, seen.as_ref())?;
    Ok(())
}

/// The result of the operation that sugar stands for, or the opposite if it is negated.
pub fn sugar(
    out: &mut Lowering,
    fixed: &Fixed,
    n: u32,
    operands: Vec<Operand>,
    is_negated: bool,
    taken: u32,
) -> Result<WExpr> {
    let seen = seen_at(fixed, n)?;
    let given = invoked(out, fixed, n, seen.as_ref(), operands, taken)?;
    if !is_negated {
        return Ok(given);
    }
    match seen {
        Some(comparison) => negated(out, fixed, &comparison, given, taken),
        None => negated_bool(out, fixed, n, given, taken),
    }
}

/// The result of the operation of a node, whose heading is `seen`.
fn invoked(
    out: &mut Lowering,
    fixed: &Fixed,
    n: u32,
    seen: Option<&Seen>,
    operands: Vec<Operand>,
    taken: u32,
) -> Result<WExpr> {
    let operation = node_operation(out, fixed.c, n)?;
    let operands = bind_operands(out, fixed, n, seen, operands, taken)?;
    apply(
        out,
        fixed.c,
        operation_of(fixed.c, n),
        operation,
        operands,
        taken,
    )
}

/// The negation of the result of a built-in comparison.
fn negated_bool(
    out: &mut Lowering,
    fixed: &Fixed,
    n: u32,
    given: WExpr,
    taken: u32,
) -> Result<WExpr> {
    let _operation = not_operation(out, fixed, n, None)?;
    let opposite = binary(out.alloc, WOp::Xor, given, WExpr::Word(1))?;
    out.handed(opposite, taken)
}

/// The result of the operation `not` of what a comparison gave.
fn negated(
    out: &mut Lowering,
    fixed: &Fixed,
    comparison: &Seen,
    given: WExpr,
    taken: u32,
) -> Result<WExpr> {
    let compared = only_result(comparison)?;
    let name = Bytes::from_slice(out.alloc, NOT)?;
    let seen = seen_of(fixed, &comparison.types, compared, &name)?;
    negation(out, comparison, compared, seen.as_ref(), given, taken)
}

/// The result of the operation `not` of the type `compared`, whose heading is `seen` if the type is no built-in one.
fn negation(
    out: &mut Lowering,
    comparison: &Seen,
    compared: TypeId,
    seen: Option<&Seen>,
    given: WExpr,
    taken: u32,
) -> Result<WExpr> {
    let types = &comparison.types;
    let operand = bind(out, types, given, compared, takes_any(seen), taken)?;
    let operands = vec![in out.alloc; operand]?;
    let operation = type_operation(out, types, compared, NOT)?;
    call_for_one(out, operation, operands, taken)
}

/// The operation that negates.
const NOT: &[u8] = b"not";

/// Whether the first formal of a routine is of type any. One that is not seen is of a built-in type.
fn takes_any(seen: Option<&Seen>) -> bool {
    match seen {
        Some(seen) => match seen.heading.args.as_slice() {
            [of, ..] => is_any(&seen.types, *of),
            [] => false,
        },
        None => false,
    }
}

fn only_result(seen: &Seen) -> Result<TypeId> {
    match seen.heading.results.as_slice().first() {
        Some(of) => Ok(*of),
        None => Err(LowerError::NotYet),
    }
}

/// The operation `not` of the result of the comparison at a node, whose type is that of its negation for a built-in one.
fn not_operation(out: &mut Lowering, fixed: &Fixed, n: u32, seen: Option<&Seen>) -> Result<WExpr> {
    match seen {
        Some(comparison) => {
            type_operation(out, &comparison.types, only_result(comparison)?, NOT)
        }
        None => type_operation(out, &fixed.c.types, type_of(fixed.c, n)?, NOT),
    }
}

/// `r.s := e` and `a[i] := e`: the operation of the statement n over its parts.
pub fn sugar_statement(out: &mut Lowering, fixed: &Fixed, n: u32, parts: &[u32]) -> Result<()>
    requires inside { n < length fixed.now.syntax.now }
    requires below { All (λ c. c < n) parts.now }
{
    let operation = node_operation(out, fixed.c, n)?;
    let free = out.taken();
    let operands = bound_parts(out, fixed, n, parts, free)?;
    let op = operation_of(fixed.c, n);
    let results = Vec::new(out.alloc);
    perform(out, fixed.c, op, operation, operands, results)
}

/// The values of parts of a node, bound to the formals of its operation.
fn bound_parts(
    out: &mut Lowering,
    fixed: &Fixed,
    n: u32,
    parts: &[u32],
    free: u32,
) -> Result<Vec<WExpr>>
    requires inside { n < length fixed.now.syntax.now }
    requires below { All (λ c. c < n) parts.now }
{
    let operands = lower_all(out, fixed, n, parts)?;
    let seen = seen_at(fixed, n)?;
    bind_operands(out, fixed, n, seen.as_ref(), operands, free)
}
