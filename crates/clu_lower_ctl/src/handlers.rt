//! Except and Resignal (CLU Reference Manual, sections 12.2 to 12.4): a guard round the statement, whose arms stand
//! outside it.

ghost use Rattle.std.specs.Prelude.{◌<◌, length};
ghost use Rattle.clu_syntax.specs.Parts.{AreOf, option_parts};
ghost use Rattle.clu_lower_ctl.specs.Inside.{AreNodes, IsNode};

use crate::declaring::{Declared, declare_all, declare_one, declared_by, variables_of};
use crate::walk::{statement, statements};
use clu_base::Bytes;
use clu_lower_expr::{Lowering, OpenArm};
use clu_lower_types::{Fixed, Result, copied_names};
use clu_syntax::Taken;
use clu_tree::NodeKind;
use clu_wir::{WArm, WExpr, WStmt};
use std::alloc::Global;
use std::boxed::Box;

/// The name of the exception that every routine may signal.
const FAILURE: &[u8] = b"failure";

/// The text of the type of strings.
const STRING: &[u8] = b"string";

/// The bytes of a word.
const WORD: u32 = 8;

/// `statement resignal name, ..`: what the statement raises by these names is signalled on, with its objects and the types
/// that came with them.
#[cycle(statements)]
pub fn resignal(out: &mut Lowering, fixed: &Fixed, inner: u32, names: &[Bytes]) -> Result<()>
    requires { inner < length fixed.now.syntax.now }
{
    let outer = out.open();
    statement(out, fixed, inner, true)?;
    let body = out.close(outer);
    push_resignal(out, body, names)
}

fn push_resignal(out: &mut Lowering, body: Vec<WStmt>, names: &[Bytes]) -> Result<()> {
    for name in names {
        out.exception(name)?;
    }
    out.push(WStmt::Resignal(body, copied_names(out.alloc, names)?))
}

/// `statement except arm .. others end`
#[cycle(statements)]
pub fn except(
    out: &mut Lowering,
    fixed: &Fixed,
    n: u32,
    inner: u32,
    arms: &[u32],
    others: Option<u32>,
) -> Result<()>
    requires inside { n < length fixed.now.syntax.now }
    requires inner { inner < n }
    requires arms { AreOf fixed.now.syntax.now NodeKind.When n arms.now }
    requires others { option_parts fixed.now.syntax.now NodeKind.Others n others }
{
    let outside = out.guards.len();
    let failure_arm = open_arms(out, fixed, arms, others.is_some())?;
    let outer = out.open();
    statement(out, fixed, inner, true)?;
    let body = out.close(outer);
    let body = close_arms(out, body, outside, failure_arm)?;
    let arms = handlers(out, fixed, n, arms, others)?;
    out.push(WStmt::Guard(body, arms))
}

/// The list in an Except, where so many guards stand outside. If one of its arms binds failures to type any, a guard inside
/// takes these first.
fn close_arms(
    out: &mut Lowering,
    body: Vec<WStmt>,
    outside: usize,
    failure_arm: Option<u32>,
) -> Result<Vec<WStmt>> {
    out.guards.truncate(outside);
    match failure_arm {
        Some(arm) => type_failures(out, body, arm),
        None => Ok(body),
    }
}

/// The arms of an Except stand round its statement. Gives the number of that which binds failures to type any.
fn open_arms(
    out: &mut Lowering,
    fixed: &Fixed,
    nodes: &[u32],
    has_others: bool,
) -> Result<Option<u32>>
    requires { AreNodes fixed.now.syntax.now NodeKind.When nodes.now }
{
    let mut arms = Vec::new(out.alloc);
    for arm in nodes {
        arms.push(open_arm(fixed, *arm)?)?;
    }
    if has_others {
        arms.push(nameless_arm(out.alloc))?;
    }
    let failure_arm = binding_failures(arms.as_slice());
    out.guards.push(arms)?;
    if failure_arm.is_some() {
        let inner = vec![in out.alloc; nameless_arm(out.alloc)]?;
        out.guards.push(inner)?;
    }
    Ok(failure_arm)
}

fn open_arm(fixed: &Fixed, n: u32) -> Result<OpenArm>
    requires { IsNode fixed.now.syntax.now NodeKind.When n }
{
    let arm = fixed.syntax.when(n);
    let listed = objects_of(fixed, n)?;
    Ok(OpenArm {
        names: copied_names(fixed.alloc, arm.names)?,
        drops: matches!(arm.taken, Taken::Any),
        binds: binds_any(listed.as_slice()),
    })
}

/// The variables of a When, none if it drops the objects.
fn objects_of(fixed: &Fixed, n: u32) -> Result<Vec<Declared>>
    requires { IsNode fixed.now.syntax.now NodeKind.When n }
{
    match fixed.syntax.when(n).taken {
        Taken::Objects(declarations) => variables_of(fixed, declarations),
        Taken::Any => Ok(Vec::new(fixed.alloc)),
    }
}

/// An arm to which no exit goes.
fn nameless_arm(alloc: Global) -> OpenArm {
    OpenArm {
        names: Vec::new(alloc),
        drops: false,
        binds: false,
    }
}

/// Whether one of these variables is of type any.
fn binds_any(listed: &[Declared]) -> bool {
    for declared in listed {
        if declared.is_any {
            return true;
        }
    }
    false
}

/// The number of the arm that binds failures to a variable of type any.
fn binding_failures(arms: &[OpenArm]) -> Option<u32> {
    let mut number = 0u32;
    for arm in arms {
        if takes_failures(arm) {
            return if arm.binds { Some(number) } else { None };
        }
        number = number.saturating_add(1);
    }
    None
}

/// Whether an arm names the exception that every routine may signal.
fn takes_failures(arm: &OpenArm) -> bool {
    for name in arm.names.as_slice() {
        if name.as_slice() == FAILURE {
            return true;
        }
    }
    false
}

/// The inner guard round a list: its arm takes the string of a failure and goes with its type to the arm of this number
/// outside.
fn type_failures(out: &mut Lowering, body: Vec<WStmt>, arm: u32) -> Result<Vec<WStmt>> {
    let taken = out.taken();
    let slot = out.take()?;
    out.release(taken);
    let string = vec![in out.alloc; Bytes::from_slice(out.alloc, STRING)?]?;
    let types = out.type_cells(string)?;
    let words = vec![in out.alloc; WExpr::Slot(slot), types]?;
    let typing = WArm {
        names: vec![in out.alloc; Bytes::from_slice(out.alloc, FAILURE)?]?,
        others: false,
        slots: vec![in out.alloc; slot]?,
        body: vec![in out.alloc; WStmt::Exit(0, arm, words)]?,
    };
    let arms = vec![in out.alloc; typing]?;
    Ok(vec![in out.alloc; WStmt::Guard(body, arms)]?)
}

/// The arms of an Except.
#[cycle(statements)]
fn handlers(
    out: &mut Lowering,
    fixed: &Fixed,
    n: u32,
    nodes: &[u32],
    others: Option<u32>,
) -> Result<Vec<WArm>>
    requires inside { n < length fixed.now.syntax.now }
    requires arms { AreOf fixed.now.syntax.now NodeKind.When n nodes.now }
    requires others { option_parts fixed.now.syntax.now NodeKind.Others n others }
{
    let mut arms = Vec::new(out.alloc);
    for arm in nodes {
        arms.push(named_handler(out, fixed, *arm)?)?;
    }
    if let Some(arm) = others {
        arms.push(other_handler(out, fixed, arm)?)?;
    }
    Ok(arms)
}

/// `when name, .. (declaration, ..): body`. The variables that it declares name what comes with the exception.
#[cycle(statements)]
fn named_handler(out: &mut Lowering, fixed: &Fixed, n: u32) -> Result<WArm>
    requires { IsNode fixed.now.syntax.now NodeKind.When n }
{
    let arm = fixed.syntax.when(n);
    let names = copied_names(out.alloc, arm.names)?;
    let taken = out.taken();
    let outer = out.open();
    let slots = take_objects(out, fixed, n)?;
    statements(out, fixed, n, arm.body.statements)?;
    let body = out.close(outer);
    out.release(taken);
    Ok(WArm {
        names,
        others: false,
        slots,
        body,
    })
}

/// `others (name: type): body`
#[cycle(statements)]
fn other_handler(out: &mut Lowering, fixed: &Fixed, n: u32) -> Result<WArm>
    requires { IsNode fixed.now.syntax.now NodeKind.Others n }
{
    let taken = out.taken();
    let outer = out.open();
    let slots = take_name(out, fixed, n)?;
    statements(out, fixed, n, fixed.syntax.others(n).body.statements)?;
    let body = out.close(outer);
    out.release(taken);
    Ok(WArm {
        names: Vec::new(out.alloc),
        others: true,
        slots,
        body,
    })
}

/// The variables of a When name the objects that come; the answer is their slots. Those of type any are bound with the
/// types that come after them.
fn take_objects(out: &mut Lowering, fixed: &Fixed, n: u32) -> Result<Vec<u32>>
    requires { IsNode fixed.now.syntax.now NodeKind.When n }
{
    let listed = objects_of(fixed, n)?;
    let mut slots = declare_all(out, listed.as_slice(), false)?;
    if binds_any(listed.as_slice()) {
        bind_objects(out, listed.as_slice(), &mut slots)?;
    }
    Ok(slots)
}

/// Binds the objects in slots to type any where that is the type of their variables. The address of the numbers of their
/// types comes into one more slot, which is free after this.
fn bind_objects(out: &mut Lowering, listed: &[Declared], slots: &mut Vec<u32>) -> Result<()> {
    let types = out.take()?;
    out.release(types);
    let mut distance = 0u32;
    for (slot, declared) in slots.as_slice().iter().zip(listed) {
        if declared.is_any {
            bind_object(out, *slot, types, distance)?;
        }
        distance = distance.saturating_add(WORD);
    }
    slots.push(types)?;
    Ok(())
}

/// Binds the object in a slot, the number of whose type is so many bytes after the address in another, to type any.
fn bind_object(out: &mut Lowering, slot: u32, types: u32, distance: u32) -> Result<()> {
    let address = Box::new(out.alloc, WExpr::Slot(types))?;
    let number = WExpr::Load(address, distance);
    out.push(WStmt::Bind(number, WExpr::Slot(slot), slot))
}

/// The variable of an Others, if it has one, names a string, the name of the exception; the answer is its slot.
fn take_name(out: &mut Lowering, fixed: &Fixed, n: u32) -> Result<Vec<u32>>
    requires { IsNode fixed.now.syntax.now NodeKind.Others n }
{
    let Some(variable) = fixed.syntax.others(n).variable else {
        return Ok(Vec::new(out.alloc));
    };
    let declared = declared_by(fixed, n, variable.declared)?;
    let slot = declare_one(out, declared, false)?;
    if declared.is_any {
        bind_string(out, slot)?;
    }
    Ok(vec![in out.alloc; slot]?)
}

/// Binds the string in a slot to type any.
fn bind_string(out: &mut Lowering, slot: u32) -> Result<()> {
    let number = out.type_number(Bytes::from_slice(out.alloc, STRING)?)?;
    out.push(WStmt::Bind(number, WExpr::Slot(slot), slot))
}
