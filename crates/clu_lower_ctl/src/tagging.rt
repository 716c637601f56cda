//! Tagcase (CLU Reference Manual, section 11.6): tag and object are kept aside when the expression was evaluated, and the
//! arms are branches on the tag.

ghost use Rattle.std.specs.Prelude.{◌<◌, length};
ghost use Rattle.clu_syntax.specs.Parts.{AreOf, otherwise_parts};
ghost use Rattle.clu_lower_ctl.specs.Inside.{IsNode};

use crate::branches::{Branch, close_branches, end_branch, open_branch};
use crate::declaring::{declare_one, declared_by};
use crate::walk::{otherwise, statements};
use clu_base::Bytes;
use clu_core::{Checked, term};
use clu_lower_expr::{Lowering, again, binary, bind, lower_expr};
use clu_lower_types::{Fixed, LowerError, Result, place_of, type_of};
use clu_syntax::Body;
use clu_tree::NodeKind;
use clu_types::{Field, Term};
use clu_wir::{WExpr, WOp, WStmt};
use std::boxed::Box;

/// The distance of the object after the tag.
const OBJECT: u32 = 8;

/// What is selected on: the slots of tag and object, and the tags of its type.
#[derive(Clone, Copy)]
struct Selected<'a> {
    tag: u32,
    object: u32,
    tags: &'a [Field],
}

/// `tagcase of arm .. others: body end`
#[cycle(statements)]
pub fn tagcase(
    out: &mut Lowering,
    fixed: &Fixed,
    n: u32,
    of: u32,
    arms: &[u32],
    last: Option<Body<'_>>,
) -> Result<()>
    requires inside { n < length fixed.now.syntax.now }
    requires of { of < n }
    requires arms { AreOf fixed.now.syntax.now NodeKind.TagArm n arms.now }
    requires last { otherwise_parts fixed.now.syntax.now n last }
{
    let selected = select(out, fixed, of)?;
    let mut branches = Vec::new(out.alloc);
    for arm in arms {
        let taken = out.taken();
        open_arm(out, fixed, *arm, selected, &mut branches)?;
        statements(out, fixed, *arm, fixed.syntax.tag_arm(*arm).body.statements)?;
        out.release(taken);
        end_branch(out, &mut branches);
    }
    otherwise(out, fixed, n, last)?;
    close_branches(out, branches)
}

/// Evaluates the expression on whose tag is selected.
fn select<'a>(out: &mut Lowering, fixed: &Fixed<'a>, n: u32) -> Result<Selected<'a>>
    requires { n < length fixed.now.syntax.now }
{
    let tags = tags_of(fixed.c, n)?;
    let tag = out.take()?;
    let object = out.take()?;
    let taken = out.taken();
    let value = lower_expr(out, fixed, n)?;
    let value = out.kept(value)?;
    let word = WExpr::Load(Box::new(out.alloc, again(&value)?)?, 0);
    out.push(WStmt::Set(tag, word))?;
    let word = WExpr::Load(Box::new(out.alloc, value)?, OBJECT);
    out.push(WStmt::Set(object, word))?;
    out.release(taken);
    Ok(Selected { tag, object, tags })
}

/// The tags of the type of an expression.
fn tags_of(c: &Checked, n: u32) -> Result<&[Field]> {
    match term(&c.types, type_of(c, n)?)? {
        Term::Oneof(fields) => Ok(fields.as_slice()),
        Term::Variant(fields) => Ok(fields.as_slice()),
        _ => Err(LowerError::NotYet),
    }
}

/// Begins the branch of an arm, whose variable names the object. For a variable of type any the type of the object is that
/// of its tag.
fn open_arm(
    out: &mut Lowering,
    fixed: &Fixed,
    n: u32,
    selected: Selected<'_>,
    branches: &mut Vec<Branch>,
) -> Result<()>
    requires { IsNode fixed.now.syntax.now NodeKind.TagArm n }
{
    let arm = fixed.syntax.tag_arm(n);
    let condition = has_tag(out, selected, arm.tags)?;
    open_branch(out, condition, branches)?;
    let Some(variable) = arm.variable else {
        return Ok(());
    };
    let declared = declared_by(fixed, n, variable.declared)?;
    let slot = declare_one(out, declared, false)?;
    out.push(WStmt::Set(slot, WExpr::Slot(selected.object)))?;
    if declared.is_any {
        for name in arm.tags {
            bind_tagged(out, fixed, selected, name, slot)?;
        }
    }
    Ok(())
}

/// Whether the tag is one of these.
fn has_tag(out: &Lowering, selected: Selected<'_>, names: &[Bytes]) -> Result<WExpr> {
    let [first, more @ ..] = names else {
        return Ok(WExpr::Word(0));
    };
    let mut condition = is_tag(out, selected, first)?;
    for name in more {
        let is_other = is_tag(out, selected, name)?;
        condition = binary(out.alloc, WOp::Or, condition, is_other)?;
    }
    Ok(condition)
}

/// Whether the tag is this one.
fn is_tag(out: &Lowering, selected: Selected<'_>, name: &Bytes) -> Result<WExpr> {
    let place = place_of(selected.tags, name)?;
    binary(
        out.alloc,
        WOp::Equal,
        WExpr::Slot(selected.tag),
        WExpr::Word(place as u64),
    )
}

/// Binds the object in a slot to type any where this is its tag.
fn bind_tagged(
    out: &mut Lowering,
    fixed: &Fixed,
    selected: Selected<'_>,
    name: &Bytes,
    slot: u32,
) -> Result<()> {
    let Some(tag) = selected.tags.get(place_of(selected.tags, name)?) else {
        return Err(LowerError::NotYet);
    };
    let outer = out.open();
    let _word = bind(out, &fixed.c.types, WExpr::Slot(slot), tag.of, true, slot)?;
    let binding = out.close(outer);
    let has = is_tag(out, selected, name)?;
    out.push(WStmt::If(has, binding, Vec::new(out.alloc)))
}
