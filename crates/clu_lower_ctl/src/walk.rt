//! The walk over the statements of a routine: one function for each kind, which follows the tree, whose nodes come after
//! their parts.

ghost use Rattle.std.specs.Prelude.{◌<◌, length};
ghost use Rattle.clu_syntax.specs.Parts.{AreBefore, otherwise_parts, statement_parts};

use crate::assigning::assign;
use crate::branches::if_statement;
use crate::declaring::{declare, initialize, initialize_by_call};
use crate::handlers::{except, resignal};
use crate::leaving::{exit, give_results, signal};
use crate::looping::{for_loop, while_loop};
use crate::tagging::tagcase;
use clu_lower_expr::{Lowering, lower_call, lower_expr, sugar_statement};
use clu_lower_types::{Fixed, Result};
use clu_syntax::{Body, Statement};
use clu_wir::{WExpr, WStmt};

/// Adds the code of statements of the node n. The slots that they took are given back. Memory where it was refused, and
/// NotYet at a statement for which no code is made.
#[cycle(statements)]
pub fn statements(out: &mut Lowering, fixed: &Fixed, n: u32, listed: &[u32]) -> Result<()>
    requires inside { n < length fixed.now.syntax.now }
    requires below { AreBefore n listed.now }
{
    let taken = out.taken();
    for s in listed {
        statement(out, fixed, *s, false)?;
    }
    out.release(taken);
    Ok(())
}

/// The statements after `else` or `others` of the node n.
#[cycle(statements)]
pub fn otherwise(out: &mut Lowering, fixed: &Fixed, n: u32, body: Option<Body<'_>>) -> Result<()>
    requires inside { n < length fixed.now.syntax.now }
    requires below { otherwise_parts fixed.now.syntax.now n body }
{
    match body {
        Some(body) => statements(out, fixed, n, body.statements),
        None => Ok(()),
    }
}

/// One statement. What it declares stays in scope. If arms stand round it directly, they may see a variable that it
/// declares before that names its object: it is `bare` then.
#[cycle(statements)]
pub fn statement(out: &mut Lowering, fixed: &Fixed, n: u32, bare: bool) -> Result<()>
    requires { n < length fixed.now.syntax.now }
{
    let taken = out.taken();
    let view = fixed.syntax.statement(n);
    lower(out, fixed, n, view, bare)?;
    if !may_declare(view) {
        out.release(taken);
    }
    Ok(())
}

/// Whether a statement may declare variables for those after it.
fn may_declare(view: Statement<'_>) -> bool {
    matches!(
        view,
        Statement::Declare { .. }
            | Statement::Init { .. }
            | Statement::InitByCall { .. }
            | Statement::Resignal { .. }
            | Statement::Except { .. }
    )
}

/// The statement n, which is made of these parts.
#[cycle(statements)]
fn lower(out: &mut Lowering, fixed: &Fixed, n: u32, view: Statement<'_>, bare: bool) -> Result<()>
    requires inside { n < length fixed.now.syntax.now }
    requires parts { statement_parts fixed.now.syntax.now n view }
{
    match view {
        Statement::While { condition, body } => while_loop(out, fixed, n, condition, body),
        Statement::For {
            declarations,
            call,
            body,
        } => for_loop(out, fixed, n, declarations, &[], call, body),
        Statement::ForNames { names, call, body } => {
            for_loop(out, fixed, n, &[], names, call, body)
        }
        Statement::If { clauses, otherwise } => if_statement(out, fixed, n, clauses, otherwise),
        Statement::Tagcase {
            of,
            arms,
            otherwise,
        } => tagcase(out, fixed, n, of, arms, otherwise),
        Statement::Begin { body } => statements(out, fixed, n, body.statements),
        Statement::Resignal { statement, names } => resignal(out, fixed, statement, names),
        Statement::Except {
            statement,
            arms,
            others,
        } => except(out, fixed, n, statement, arms, others),
        _ => lower_alone(out, fixed, n, view, bare),
    }
}

/// The same of a statement that holds no others.
fn lower_alone(
    out: &mut Lowering,
    fixed: &Fixed,
    n: u32,
    view: Statement<'_>,
    bare: bool,
) -> Result<()>
    requires inside { n < length fixed.now.syntax.now }
    requires parts { statement_parts fixed.now.syntax.now n view }
{
    match view {
        Statement::Declare { declaration } => declare(out, fixed, declaration),
        Statement::Init {
            declared,
            value,
            ..
        } => { initialize(out, fixed, n, declared, value, bare) }
        Statement::InitByCall { declarations, call } => {
            initialize_by_call(out, fixed, declarations, call, bare)
        }
        Statement::Assign { names, values } => assign(out, fixed, n, names.len(), values),
        Statement::SetField { of, value, .. } => sugar_statement(out, fixed, n, &[of, value]),
        Statement::SetIndex { of, index, value } => {
            sugar_statement(out, fixed, n, &[of, index, value])
        }
        Statement::Call { call } => lower_call(out, fixed, call, Vec::new(out.alloc)),
        Statement::Return { values } => give_results(out, fixed, n, values, false),
        Statement::Yield { values } => give_results(out, fixed, n, values, true),
        Statement::Signal { name, values } => signal(out, fixed, n, name, values),
        Statement::Exit { name, values } => exit(out, fixed, n, name, values),
        Statement::Continue => out.push(WStmt::Continue),
        _ => out.push(WStmt::Break),
    }
}

/// The value of a condition, which is used at once: its slots are free after this.
pub fn condition(out: &mut Lowering, fixed: &Fixed, n: u32) -> Result<WExpr>
    requires { n < length fixed.now.syntax.now }
{
    let free = out.taken();
    let value = lower_expr(out, fixed, n)?;
    out.release(free);
    Ok(value)
}
