//! The walk over an expression: its parts from left to right, and the code after them. It follows the tree, whose nodes
//! come after their parts.

ghost use Rattle.std.specs.Prelude.{◌<◌, ◌≤◌, All, length};
ghost use Rattle.clu_syntax.specs.Parts.{AreOf};

use crate::binding::bind_all;
use crate::constructors::{fill_array, fill_record};
use crate::invoking::{Call, Invoked, apply_invoked};
use crate::literals::literal;
use crate::lowering::Lowering;
use crate::names::name;
use crate::operands::Operand;
use crate::sugar::{note_operator, sugar};
use crate::uses::{force_of, node_operation};
use clu_core::OpRef;
use clu_lower_types::{Fixed, Result, denoted_type, heading_of, operation_of, which_are_any};
use clu_syntax::{Expression, Operator};
use clu_tree::NodeKind;
use clu_wir::{WExpr, WStmt};
use std::alloc::Global;
use std::boxed::Box;

/// The value of an expression. What can't be in it, as a call, is added as statements before. Memory where it was refused, and
/// NotYet at an expression for which no code is made.
#[cycle(expressions)]
pub fn lower_expr(out: &mut Lowering, fixed: &Fixed, n: u32) -> Result<WExpr>
    requires { n < length fixed.now.syntax.now }
{
    match fixed.syntax.expression(n) {
        Expression::Literal(spelled) => literal(out, spelled),
        Expression::Name(_) => name(out, fixed, n),
        Expression::Operation { .. } => node_operation(out, fixed.c, n),
        Expression::Force { to } => force_of(out, &fixed.c.types, denoted_type(fixed, to)?),
        Expression::Paren { inside } => lower_expr(out, fixed, inside),
        Expression::Up { inside } => lower_expr(out, fixed, inside),
        Expression::Down { inside } => lower_expr(out, fixed, inside),
        Expression::Infix {
            operator,
            left,
            right,
        } => infix(out, fixed, n, operator, left, right),
        Expression::Prefix { operand, .. } => prefix(out, fixed, n, operand),
        Expression::Index { of, constants } => index(out, fixed, n, of, constants),
        Expression::Get { of, .. } => get(out, fixed, n, of),
        Expression::Call { routine, arguments } => {
            call_for_value(out, fixed, n, Call { routine, arguments })
        }
        Expression::Fields { components, .. } => record(out, fixed, n, components),
        Expression::Elements { elements, .. } => array(out, fixed, n, &[], elements),
        Expression::ElementsFrom { low, elements, .. } => array(out, fixed, n, &[low], elements),
    }
}

/// Adds the value of an expression to those that come before it, which are kept if statements stand between.
#[cycle(expressions)]
fn add_operand(out: &mut Lowering, fixed: &Fixed, n: u32, operands: &mut Vec<Operand>) -> Result<()>
    requires { n < length fixed.now.syntax.now }
{
    let outer = out.open();
    let word = lower_expr(out, fixed, n)?;
    let statements = out.close(outer);
    if !statements.is_empty() {
        out.keep_all(operands)?;
        out.append(statements)?;
    }
    operands.push(out.operand(word, n)?)?;
    Ok(())
}

/// The same of parts of the node n, from left to right.
#[cycle(expressions)]
fn add_operands(
    out: &mut Lowering,
    fixed: &Fixed,
    n: u32,
    parts: &[u32],
    operands: &mut Vec<Operand>,
) -> Result<()>
    requires inside { n < length fixed.now.syntax.now }
    requires below { All (λ c. c < n) parts.now }
{
    for part in parts {
        add_operand(out, fixed, *part, operands)?;
    }
    Ok(())
}

/// The values of parts of the node n, which are evaluated from left to right.
#[cycle(expressions)]
pub fn lower_all(out: &mut Lowering, fixed: &Fixed, n: u32, parts: &[u32]) -> Result<Vec<Operand>>
    requires inside { n < length fixed.now.syntax.now }
    requires below { All (λ c. c < n) parts.now }
{
    let mut operands = Vec::new(out.alloc);
    add_operands(out, fixed, n, parts, &mut operands)?;
    Ok(operands)
}

/// `-operand`, `~operand`
#[cycle(expressions)]
fn prefix(out: &mut Lowering, fixed: &Fixed, n: u32, part: u32) -> Result<WExpr>
    requires inside { n < length fixed.now.syntax.now }
    requires below { part < n }
{
    let free = out.taken();
    note_operator(out, fixed, n, false)?;
    let operands = lower_all(out, fixed, n, &[part])?;
    sugar(out, fixed, n, operands, false, free)
}

/// `of.selector`
#[cycle(expressions)]
fn get(out: &mut Lowering, fixed: &Fixed, n: u32, of: u32) -> Result<WExpr>
    requires inside { n < length fixed.now.syntax.now }
    requires below { of < n }
{
    let free = out.taken();
    let operands = lower_all(out, fixed, n, &[of])?;
    sugar(out, fixed, n, operands, false, free)
}

/// `of[index]`, or a routine with its actual parameters.
#[cycle(expressions)]
fn index(out: &mut Lowering, fixed: &Fixed, n: u32, of: u32, given: &[u32]) -> Result<WExpr>
    requires inside { n < length fixed.now.syntax.now }
    requires below { of < n }
    requires given { All (λ c. c < n) given.now }
{
    if let Some(OpRef::Module(_, _)) = operation_of(fixed.c, n) {
        return node_operation(out, fixed.c, n);
    }
    let free = out.taken();
    let mut operands = lower_all(out, fixed, n, &[of])?;
    note_operator(out, fixed, n, false)?;
    add_operands(out, fixed, n, given, &mut operands)?;
    sugar(out, fixed, n, operands, false, free)
}

/// `left operator right`
#[cycle(expressions)]
fn infix(
    out: &mut Lowering,
    fixed: &Fixed,
    n: u32,
    operator: Operator,
    left: u32,
    right: u32,
) -> Result<WExpr>
    requires inside { n < length fixed.now.syntax.now }
    requires left { left < n }
    requires right { right < n }
{
    match operator {
        Operator::Cand => condition(out, fixed, n, true, left, right),
        Operator::Cor => condition(out, fixed, n, false, left, right),
        Operator::NotLess
        | Operator::NotAtMost
        | Operator::NotEqual
        | Operator::NotAtLeast
        | Operator::NotGreater => operation(out, fixed, n, true, left, right),
        _ => operation(out, fixed, n, false, left, right),
    }
}

/// An operator that stands for an operation of its left side, or for the opposite of that.
#[cycle(expressions)]
fn operation(
    out: &mut Lowering,
    fixed: &Fixed,
    n: u32,
    negated: bool,
    left: u32,
    right: u32,
) -> Result<WExpr>
    requires inside { n < length fixed.now.syntax.now }
    requires left { left < n }
    requires right { right < n }
{
    let free = out.taken();
    let mut operands = lower_all(out, fixed, n, &[left])?;
    note_operator(out, fixed, n, negated)?;
    add_operand(out, fixed, right, &mut operands)?;
    sugar(out, fixed, n, operands, negated, free)
}

/// What is invoked by the call n, and its arguments bound to the formals.
#[cycle(expressions)]
pub fn invoked(
    out: &mut Lowering,
    fixed: &Fixed,
    n: u32,
    call: Call<'_>,
    free: u32,
) -> Result<Invoked>
    requires inside { n < length fixed.now.syntax.now }
    requires routine { call.routine < n }
    requires arguments { All (λ c. c < n) call.arguments.now }
{
    let routine = lower_expr(out, fixed, call.routine)?;
    let routine = out.kept(routine)?;
    let operands = lower_all(out, fixed, n, call.arguments)?;
    let heading = heading_of(fixed.c, call.routine)?;
    let any = which_are_any(out.alloc, &fixed.c.types, heading.args.as_slice())?;
    let args = bind_all(out, fixed.c, operands, any.as_slice(), free)?;
    Ok(Invoked { routine, args })
}

/// `routine(argument, ..)` with one result.
#[cycle(expressions)]
fn call_for_value(out: &mut Lowering, fixed: &Fixed, n: u32, call: Call<'_>) -> Result<WExpr>
    requires inside { n < length fixed.now.syntax.now }
    requires routine { call.routine < n }
    requires arguments { All (λ c. c < n) call.arguments.now }
{
    let free = out.taken();
    let invoked = invoked(out, fixed, n, call, free)?;
    apply_invoked(out, fixed, call, invoked, free)
}

/// `type${selector: value, ..}`, whose object has the first slot.
#[cycle(expressions)]
fn record(out: &mut Lowering, fixed: &Fixed, n: u32, components: &[u32]) -> Result<WExpr>
    requires inside { n < length fixed.now.syntax.now }
    requires components { AreOf fixed.now.syntax.now NodeKind.FieldE n components.now }
{
    let slot = out.take()?;
    let mut operands = Vec::new(out.alloc);
    for component in components {
        let value = fixed.syntax.component(*component).value;
        add_operand(out, fixed, value, &mut operands)?;
    }
    out.keep_all(&mut operands)?;
    fill_record(out, fixed, n, components, operands.as_slice(), slot)?;
    Ok(WExpr::Slot(slot))
}

/// `type$[element, ..]`, with no low bound or one, whose object has the first slot.
#[cycle(expressions)]
fn array(out: &mut Lowering, fixed: &Fixed, n: u32, low: &[u32], elements: &[u32]) -> Result<WExpr>
    requires inside { n < length fixed.now.syntax.now }
    requires low { All (λ c. c < n) low.now }
    requires elements { All (λ c. c < n) elements.now }
{
    let slot = out.take()?;
    let mut low = lower_all(out, fixed, n, low)?;
    out.keep_all(&mut low)?;
    let mut operands = lower_all(out, fixed, n, elements)?;
    out.keep_all(&mut operands)?;
    fill_array(
        out,
        fixed,
        n,
        low.as_slice().first(),
        operands.as_slice(),
        slot,
    )?;
    Ok(WExpr::Slot(slot))
}

/// `left cand right` and `left cor right`.
#[cycle(expressions)]
fn condition(
    out: &mut Lowering,
    fixed: &Fixed,
    n: u32,
    is_both: bool,
    left: u32,
    right: u32,
) -> Result<WExpr>
    requires inside { n < length fixed.now.syntax.now }
    requires left { left < n }
    requires right { right < n }
{
    let slot = out.take()?;
    let left = lower_expr(out, fixed, left)?;
    let outer = out.open();
    let right = lower_expr(out, fixed, right)?;
    let statements = out.close(outer);
    if statements.is_empty() {
        let value = both_or_one(out.alloc, is_both, left, right)?;
        return out.handed(value, slot);
    }
    join(out, is_both, slot, left, statements, right)
}

/// Whether both are true, or one is.
fn both_or_one(alloc: Global, is_both: bool, left: WExpr, right: WExpr) -> Result<WExpr> {
    let left = Box::new(alloc, left)?;
    let right = Box::new(alloc, right)?;
    if is_both {
        Ok(WExpr::If(left, right, Box::new(alloc, WExpr::Word(0))?))
    } else {
        Ok(WExpr::If(left, Box::new(alloc, WExpr::Word(1))?, right))
    }
}

/// The same in a slot, where statements come before the right side: they are done if the left side doesn't tell.
fn join(
    out: &mut Lowering,
    is_both: bool,
    slot: u32,
    left: WExpr,
    mut statements: Vec<WStmt>,
    right: WExpr,
) -> Result<WExpr> {
    out.push(WStmt::Set(slot, left))?;
    statements.push(WStmt::Set(slot, right))?;
    let nothing = Vec::new(out.alloc);
    out.push(if is_both {
        WStmt::If(WExpr::Slot(slot), statements, nothing)
    } else {
        WStmt::If(WExpr::Slot(slot), nothing, statements)
    })?;
    out.release(slot.saturating_add(1));
    Ok(WExpr::Slot(slot))
}
