//! The routines of a module as word code.

ghost use Rattle.std.specs.Prelude.{◌≡◌, All, IfOk};
ghost use Rattle.clu_lower_expr.specs.Bounds.{IsBounded};
ghost use Rattle.clu_lower_ctl.specs.Inside.{IsNode};

use crate::clusters::cluster_routines;
use crate::declaring::formals;
use crate::headings::note_heading;
use crate::own_type::note_operation;
use crate::own_variables::set_up_once;
use crate::walk::statements;
use clu_base::Bytes;
use clu_core::Checked;
use clu_lower_expr::Lowering;
use clu_lower_types::{Declarations, Fixed, LowerError, Result};
use clu_syntax::{Definition, RoutineKind};
use clu_tree::NodeKind;
use clu_types::{Form, Spec};
use clu_wir::{HoleKind, WRoutine, WStmt};
use std::alloc::Global;
use std::boxed::Box;

/// The routines of a module of a checked file with these declarations, which is named by its Module node. The first type
/// of each is its own, and its `nodes` are the count of its node. Memory where it was refused; NotYet where a routine has a
/// statement or an expression for which no code is made.
pub fn lower(
    alloc: Global,
    c: &Checked,
    declarations: &Declarations,
    module: u32,
) -> Result<Vec<WRoutine>>
    requires { IsNode c.now.syntax NodeKind.Module «module» }
    ensures { IfOk result (λ routines. All IsBounded routines.items) }
{
    match c.syntax.module(module).definition {
        Definition::Cluster(n) => cluster_routines(alloc, c, declarations, n),
        Definition::Routine(n) => Ok(vec![in alloc; routine(alloc, c, declarations, n)?]?),
    }
}

/// What is fixed of a routine of which nothing is known yet.
pub fn nothing_fixed<'a>(
    alloc: Global,
    c: &'a Checked,
    declarations: &'a Declarations,
) -> Result<Box<Fixed<'a>>>
    ensures { IfOk result (λ fixed. fixed.value.syntax.now ≡ c.entry.now.syntax) }
{
    Ok(Box::new(alloc, Fixed::new(alloc, c, declarations))?)
}

fn routine(alloc: Global, c: &Checked, declarations: &Declarations, n: u32) -> Result<WRoutine>
    requires { IsNode c.now.syntax NodeKind.Routine n }
    ensures { IfOk result IsBounded }
{
    let name = c.syntax.routine(n).name.copy(alloc)?;
    let mut out = Box::new(alloc, Lowering::new(alloc))?;
    let mut fixed = nothing_fixed(alloc, c, declarations)?;
    note_alone(&mut out, &mut fixed, n)?;
    let args = formals(&mut out, &fixed, c.syntax.routine(n).arguments)?;
    body(&mut out, &fixed, n)?;
    out.finish(name, args, c.syntax.tree().nodes(n))
}

/// Notes what stands round the statements of the routine n, which is a module.
fn note_alone(out: &mut Lowering, fixed: &mut Fixed, n: u32) -> Result<()>
    requires { IsNode fixed.old.syntax.now NodeKind.Routine n }
    ensures { fixed.new.syntax ≡ fixed.old.syntax }
{
    let spec = specification(fixed.c, fixed.syntax.routine(n).name)?;
    let Form::Routine(op) = &spec.form else {
        return Err(LowerError::NotYet);
    };
    fixed.give(&spec.types, op.demands.as_slice(), &[])?;
    note_operation(out, &mut fixed.object_types, &spec.types, op)?;
    note_heading(fixed, n)
}

/// The specification of this module of the file.
pub fn specification<'a>(c: &'a Checked, name: &Bytes) -> Result<&'a Spec> {
    for spec in c.specs.as_slice() {
        if spec.name == *name {
            return Ok(spec);
        }
    }
    Err(LowerError::NotYet)
}

/// The setting up of own variables, the statements, and the end: a procedure with results that reaches it fails.
pub fn body(out: &mut Lowering, fixed: &Fixed, n: u32) -> Result<()>
    requires { IsNode fixed.now.syntax.now NodeKind.Routine n }
{
    let routine = fixed.syntax.routine(n);
    if !routine.owns.is_empty() {
        set_up_once(out, fixed, routine.owns, HoleKind::RoutineOwn)?;
    }
    statements(out, fixed, n, routine.statements)?;
    match routine.kind {
        RoutineKind::Procedure if !routine.results.is_empty() => {
            out.signal_failure(b"no return values")
        }
        _ => out.push(WStmt::Return(Vec::new(out.alloc))),
    }
}
