//! What a routine uses of other modules and of types, as texts.

ghost use Rattle.std.specs.Prelude.{◌≡◌, ◌↔◌, IfOk, IsTrue, Some, length};
ghost use Rattle.clu_types.specs.Arena.{type_at, types_of};
ghost use Rattle.clu_specs.specs.Seen.{an_operation, force_of, target_seen, use_text};
ghost use Rattle.clu_specs.specs.Uses.{TargetBelow};
ghost use Rattle.clu_specs.specs.declared.read_uses.Target.TheVariants as target;
ghost use Rattle.clu_wir.specs.Plain.{expr_of};
ghost use Rattle.clu_lower_expr.specs.Low.{low_of, used};
ghost use Rattle.clu_lower_expr.specs.Values.{described, descriptor, file_operation, given_operation, module_operation, node_operation};

use crate::lowering::{Lowering, TypeOperation};
use clu_base::{Bytes, Sequence};
use clu_core::{Checked, OpRef};
use clu_lower_types::{LowerError, Result, operation_of};
use clu_specs::{Target, use_text};
use clu_types::{Actual, Term, TypeArena, TypeId};
use clu_wir::{HoleKind, WExpr};
use std::alloc::Global;
use std::boxed::Box;

/// The descriptor of the operation that was found for a node.
pub fn node_operation(out: &mut Lowering, c: &Checked, n: u32) -> Result<WExpr>
    ensures { IfOk result (λ e. node_operation c.now n (low_of out.old) ≡ Some (expr_of e, low_of out.new)) }
{
    match operation_of(c, n) {
        Some(OpRef::Param(param, op)) => given_operation(out, *param, op),
        Some(OpRef::Builtin(of, name)) => file_operation(out, c, *of, name),
        Some(OpRef::Cluster(of, name)) => file_operation(out, c, *of, name),
        Some(OpRef::Module(name, actuals)) => module_operation(out, c, name, actuals.as_slice()),
        Some(OpRef::Stored) => Err(LowerError::NotYet),
        None => Err(LowerError::NotYet),
    }
}

/// The descriptor of a routine that is a module, with its actual parameters.
fn module_operation(
    out: &mut Lowering,
    c: &Checked,
    name: &Bytes,
    actuals: &[Actual],
) -> Result<WExpr>
    ensures { IfOk result (λ e. module_operation c.now name.now actuals.now (low_of out.old) ≡ (expr_of e, low_of out.new)) }
{
    let target = module_target(out.alloc, name, actuals)?;
    used(out, &c.types, &target)
}

/// The use of a routine that is a module, with its actual parameters.
fn module_target(alloc: Global, name: &Bytes, actuals: &[Actual]) -> Result<Target>
    ensures { IfOk result (λ made. made ≡ target.Module name.now actuals.now) }
{
    let name = name.copy(alloc)?;
    let mut copied = Vec::new(alloc);
    for actual in actuals {
        copied.push(actual.copy(alloc)?)?;
    }
    Ok(Target::Module(name, Sequence::from_vec(copied)))
}

/// The descriptor of the operation of this name of a type of the file. Its text, which has that of the type, is written once.
fn file_operation(out: &mut Lowering, c: &Checked, of: TypeId, name: &Bytes) -> Result<WExpr>
    ensures { IfOk result (λ e. file_operation c.now of name.now (low_of out.old) ≡ (expr_of e, low_of out.new)) }
{
    let operation = TypeOperation {
        of,
        name: name.copy(out.alloc)?,
    };
    if let Some(number) = out.named_operation(&operation) {
        return Ok(descriptor(number));
    }
    let target = Target::Op(of, name.copy(out.alloc)?);
    let number = use_number(out, &c.types, &target)?;
    out.note_operation(operation, number)?;
    Ok(descriptor(number))
}

/// The descriptor of the operation of this name that a where clause gives of a type parameter.
fn given_operation(out: &mut Lowering, param: u32, op: &Bytes) -> Result<WExpr>
    ensures { IfOk result (λ e. given_operation param op.now (low_of out.old) ≡ (expr_of e, low_of out.new)) }
{
    let mut types = Box::new(out.alloc, TypeArena::new(out.alloc))?;
    let of = types.intern(Term::Param(param))?;
    type_operation(out, &types, of, op.as_slice())
}

/// The descriptor of the operation of this name that a type has.
pub fn type_operation(out: &mut Lowering, types: &TypeArena, of: TypeId, op: &[u8]) -> Result<WExpr>
    ensures { IfOk result (λ e. described (use_text (an_operation (type_at (types_of types.now) of) op.now)) (low_of out.old) ≡ (expr_of e, low_of out.new)) }
{
    let target = Target::Op(of, Bytes::from_slice(out.alloc, op)?);
    used(out, types, &target)
}

/// The descriptor of `force` of a type.
pub fn force_of(out: &mut Lowering, types: &TypeArena, of: TypeId) -> Result<WExpr>
    ensures { IfOk result (λ e. described (use_text (force_of (type_at (types_of types.now) of))) (low_of out.old) ≡ (expr_of e, low_of out.new)) }
{
    used(out, types, &Target::ForceOf(of))
}

fn used(out: &mut Lowering, types: &TypeArena, target: &Target) -> Result<WExpr>
    ensures { IfOk result (λ e. described (use_text (target_seen (types_of types.now) target.now)) (low_of out.old) ≡ (expr_of e, low_of out.new)) }
{
    Ok(descriptor(use_number(out, types, target)?))
}

/// The number of what a use names, whose types are of this arena.
fn use_number(out: &mut Lowering, types: &TypeArena, target: &Target) -> Result<u32>
    ensures { IfOk result (λ n. used (use_text (target_seen (types_of types.now) target.now)) (low_of out.old) ≡ (n, low_of out.new)) }
{
    if !is_known(types, target) {
        return Err(LowerError::NotYet);
    }
    let text = use_text(out.alloc, types, target)?;
    out.use_number(text)
}

/// The descriptor of the use of this number.
pub fn descriptor(number: u32) -> WExpr
    ensures { expr_of result ≡ descriptor number }
{
    WExpr::Hole(HoleKind::Descriptor, number)
}

/// Whether the types that a use names are numbers of the arena.
fn is_known(types: &TypeArena, target: &Target) -> bool
    ensures { IsTrue result ↔ TargetBelow (length types.now) target.now }
{
    match target {
        Target::Module(_, actuals) => types.holds_actuals(actuals.as_slice()),
        Target::Op(of, _) => types.contains(*of),
        Target::OwnSetUp(of) => types.contains(*of),
        Target::ForceOf(of) => types.contains(*of),
    }
}
