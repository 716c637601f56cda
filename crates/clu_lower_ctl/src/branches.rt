//! Branches: what is done where a condition is true. Each further one stands in the second list of the one before, as the
//! clauses of an If do (CLU Reference Manual, section 11.6).

ghost use Rattle.std.specs.Prelude.{◌<◌, length};
ghost use Rattle.clu_syntax.specs.Parts.{AreBefore, otherwise_parts};

use crate::walk::{condition, otherwise, statements};
use clu_lower_expr::Lowering;
use clu_lower_types::{Fixed, Result};
use clu_syntax::{Body, Clauses};
use clu_wir::{WExpr, WStmt};

/// A condition with the list before it, and what is done where it is true.
#[derive(Drop)]
pub struct Branch {
    condition: WExpr,
    outer: Vec<WStmt>,
    body: Vec<WStmt>,
}

/// Begins what is done where a condition is true.
pub fn open_branch(out: &mut Lowering, condition: WExpr, branches: &mut Vec<Branch>) -> Result<()> {
    let outer = out.open();
    branches.push(Branch {
        condition,
        outer,
        body: Vec::new(out.alloc),
    })?;
    Ok(())
}

/// Ends the last branch, and begins what is done where its condition is false.
pub fn end_branch(out: &mut Lowering, branches: &mut Vec<Branch>) {
    if let Some(branch) = branches.last_mut() {
        branch.body = out.open();
    }
}

/// Ends what is done where no condition is true: that of the last branch first.
pub fn close_branches(out: &mut Lowering, mut branches: Vec<Branch>) -> Result<()> {
    for _ in 0..branches.len() {
        if let Some(
            Branch {
                condition,
                outer,
                body,
            },
        ) = branches.pop()
        {
            let last = out.close(outer);
            out.push(WStmt::If(condition, body, last))?;
        }
    }
    Ok(())
}

/// `if condition then body elseif condition then body else body end`
#[cycle(statements)]
pub fn if_statement(
    out: &mut Lowering,
    fixed: &Fixed,
    n: u32,
    clauses: Clauses<'_>,
    last: Option<Body<'_>>,
) -> Result<()>
    requires inside { n < length fixed.now.syntax.now }
    requires clauses { AreBefore n clauses.rest.now }
    requires last { otherwise_parts fixed.now.syntax.now n last }
{
    let mut branches = Vec::new(out.alloc);
    let mut next = fixed.syntax.clause(n, clauses);
    while let Some((clause, more)) = next {
        let condition = condition(out, fixed, clause.condition)?;
        open_branch(out, condition, &mut branches)?;
        statements(out, fixed, n, clause.body.statements)?;
        end_branch(out, &mut branches);
        next = fixed.syntax.clause(n, more);
    }
    otherwise(out, fixed, n, last)?;
    close_branches(out, branches)
}
