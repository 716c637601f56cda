//! What is kept of a module beside its specification: the text, the names of other modules in it, and the object.

ghost use Rattle.std.specs.Prelude.{◌≡◌, ◌-◌, IfErr, IfOk, IsTrue, Some, drop, length, map, take};
ghost use Rattle.clu_syntax.specs.Parts.{IsOf};
ghost use Rattle.clu_frames.specs.Labels.{IsFlat};
ghost use Rattle.clu_frames.specs.Plain.{plain_code};
ghost use Rattle.clu_frames.specs.Regions.{AreRegions};
ghost use Rattle.clu_wir.specs.Formed.{is_formed};
ghost use Rattle.clu_handlers.specs.Seen.{seen};
ghost use Rattle.clu_build.specs.Entering.{node_text};
ghost use Rattle.clu_build.specs.Refusals.{IsInner};

use crate::errors::BuildError;
use clu_base::{Bytes, Sequence, Token};
use clu_core::Checked;
use clu_frames::{FlatRoutine, flatten};
use clu_handlers::Regions;
use clu_library::Body;
use clu_lower_ctl::lower;
use clu_lower_types::Declarations;
use clu_object::{ObjRoutine, Object, copy_texts};
use clu_peep::{Peeped, peep};
use clu_tree::NodeKind;
use clu_wir::WRoutine;
use rv_select::select;
use std::alloc::Global;

/// The source of a file: its bytes and its tokens.
#[derive(Clone, Copy)]
pub struct Text<'a> {
    pub bytes: &'a [u8],
    pub tokens: &'a [Token],
}

/// The body of a module with this source, which names these other modules. Its code is shortened if `peep` is true.
pub fn body_of(
    alloc: Global,
    c: &Checked,
    declarations: &Declarations,
    module: u32,
    name: &Bytes,
    names: &[Bytes],
    source: &[u8],
    peep: bool,
) -> Result<Body, BuildError>
    requires module_there { IsOf c.now.syntax NodeKind.Module (length c.now.syntax) «module» }
    ensures text { IfOk result (λ body. body.text ≡ source.now) }
    ensures refused { IfErr result IsInner }
{
    Ok(Body {
        text: Bytes::from_slice(alloc, source)?,
        names: Some(copy_texts(alloc, names)?),
        checked: 0,
        object: object_of(alloc, c, declarations, module, name, peep)?,
    })
}

/// The bytes of the source from a module's first token to its last.
pub fn source_of<'a>(text: Text<'a>, c: &Checked, module: u32) -> Result<&'a [u8], BuildError>
    ensures source { IfOk result (λ source. node_text text.entry.bytes.now text.entry.tokens.now c.now.syntax «module» ≡ Some source.now) }
    ensures refused { IfErr result IsInner }
{
    if module >= c.syntax.tree().len() {
        return Err(BuildError::NotYet);
    }
    let node = c.syntax.tree().node(module);
    let first = text.tokens.get(node.first as usize);
    let last = text.tokens.get(node.last as usize);
    match (first, last) {
        (Some(first), Some(last)) => between(text.bytes, first.start as usize, last.end as usize),
        _ => Err(BuildError::NotYet),
    }
}

fn between(bytes: &[u8], start: usize, end: usize) -> Result<&[u8], BuildError>
    ensures part { IfOk result (λ part. part.now ≡ take (end - start) (drop start bytes.now)) }
    ensures refused { IfErr result IsInner }
{
    if start > end || end > bytes.len() {
        return Err(BuildError::NotYet);
    }
    Ok(&bytes[start..end])
}

/// The code of a module.
fn object_of(
    alloc: Global,
    c: &Checked,
    declarations: &Declarations,
    module: u32,
    name: &Bytes,
    peep: bool,
) -> Result<Object, BuildError>
    requires module_there { IsOf c.now.syntax NodeKind.Module (length c.now.syntax) «module» }
    ensures refused { IfErr result IsInner }
{
    Ok(Object {
        module: name.copy(alloc)?,
        routines: Sequence::from_vec(routines_of(alloc, c, declarations, module, peep)?),
    })
}

#[tactic(auto, using(crate::proofs::Refusals::bodies))]
fn routines_of(
    alloc: Global,
    c: &Checked,
    declarations: &Declarations,
    module: u32,
    peep: bool,
) -> Result<Vec<ObjRoutine>, BuildError>
    requires module_there { IsOf c.now.syntax NodeKind.Module (length c.now.syntax) «module» }
    ensures refused { IfErr result IsInner }
{
    let mut routines = Vec::new(alloc);
    let lowered = lower(alloc, c, declarations, module)?;
    for routine in &lowered {
        routines.push(routine_of(alloc, routine, peep)?)?;
    }
    Ok(routines)
}

#[tactic(auto, using(crate::proofs::Refusals::bodies))]
fn routine_of(alloc: Global, routine: &WRoutine, peep: bool) -> Result<ObjRoutine, BuildError>
    requires formed { IsTrue (is_formed routine.now) }
    ensures refused { IfErr result IsInner }
{
    let mut regions = Regions::new(alloc);
    let flat = flatten(alloc, routine, &mut regions)?;
    if peep {
        return shorter(alloc, flat, &regions);
    }
    Ok(select(alloc, &flat, &regions)?)
}

/// The code of a routine in shorter flat code.
#[tactic(auto, using(crate::proofs::Refusals::bodies))]
fn shorter(alloc: Global, flat: FlatRoutine, regions: &Regions) -> Result<ObjRoutine, BuildError>
    requires flat { IsFlat (plain_code flat.code.items) }
    requires nest { AreRegions flat.code.items (map seen regions.now) }
    ensures refused { IfErr result IsInner }
{
    let Peeped { flat, regions } = peep(alloc, flat, regions)?;
    Ok(select(alloc, &flat, &regions)?)
}
