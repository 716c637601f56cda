//! A routine in word code to flat code.

ghost use Rattle.std.specs.Prelude.{◌≡◌, ◌<◌, ◌^◌, [], IfOk, IsTrue, OnErr, OnOk, length};
ghost use Rattle.clu_frames.specs.Flattened.{HandsOn, HasRoom};
ghost use Rattle.clu_frames.specs.Flattening.{made, made_by, regions_of, steps_of};
ghost use Rattle.clu_frames.specs.Plain.{plain_code};
ghost use Rattle.clu_frames.specs.Labels.{IsFlat};
ghost use Rattle.clu_frames.specs.Regions.{AreRegions};
ghost use Rattle.clu_wir.specs.Formed.{is_formed};

use crate::errors::FrameError;
use crate::flat::{Flat, FlatRoutine};
use crate::steps::Steps;
use crate::surroundings::Surroundings;
use crate::within::are_within;
use clu_wir::{RegionBuilder, WRoutine, copy_constants, copy_texts};
use std::alloc::Global;

/// The flat code of a routine that is well formed. The builder gets the regions of its guards; their ranges and targets are places of
/// the code, which count from 0. The routine ends with a step that leaves it without results. After an error the
/// builder has no region.
///
/// A frame is the routine's width and a foot of `FOOT` words.
pub fn flatten<B: RegionBuilder>(
    alloc: Global,
    r: &WRoutine,
    regions: &mut B,
) -> Result<FlatRoutine, FrameError>
    requires formed { IsTrue (is_formed r.now) }
    ensures handed { IfOk result (HandsOn r.now) }
    ensures room { IfOk result (HasRoom r.now) }
    ensures steps { IfOk result (λ flat. plain_code flat.code.items ≡ steps_of r.now) }
    ensures flat { IfOk result (λ flat. IsFlat (plain_code flat.code.items)) }
    ensures regions { OnOk result (B.regions regions.new ≡ regions_of r.now) }
    ensures nest { IfOk result (λ flat. AreRegions flat.code.items (B.regions regions.new)) }
    ensures err { OnErr result (B.regions regions.new ≡ []) }
{
    regions.clear();
    match bounded(alloc, r, regions) {
        Ok(flat) => Ok(flat),
        Err(error) => {
            regions.clear();
            Err(error)
        }
    }
}

/// No contract shows yet that the steps keep to the room and the frame of their routine: it is tested.
fn bounded<B: RegionBuilder>(
    alloc: Global,
    r: &WRoutine,
    regions: &mut B,
) -> Result<FlatRoutine, FrameError>
    requires formed { IsTrue (is_formed r.now) }
    requires none { B.regions regions.old ≡ [] }
    ensures handed { IfOk result (HandsOn r.now) }
    ensures room { IfOk result (HasRoom r.now) }
    ensures few { IfOk result (λ flat. length flat.code.items < 2 ^ 32) }
    ensures steps { IfOk result (λ flat. plain_code flat.code.items ≡ steps_of r.now) }
    ensures regions { OnOk result (B.regions regions.new ≡ regions_of r.now) }
{
    let flat = routine_of(alloc, r, regions)?;
    if flat.words() > r.room().code {
        return Err(FrameError::NotYet);
    }
    if !are_within(flat.frame, flat.code.as_slice()) {
        return Err(FrameError::NotYet);
    }
    Ok(flat)
}

/// The steps of a routine and its regions, with what holds of the regions of each routine.
fn made_of(alloc: Global, r: &WRoutine) -> Result<Steps, FrameError>
    requires formed { IsTrue (is_formed r.now) }
    ensures made { IfOk result (λ steps. made steps ≡ made_by r.now) }
    ensures regions { IfOk result (λ steps. AreRegions (made steps).code (made steps).regions) }
{
    let mut steps = Steps::new(alloc);
    steps.push(Flat::Enter(r.args))?;
    let round = Surroundings::outermost(r.slots, r.constants.as_slice());
    steps.list(r.body.as_slice(), round)?;
    steps.push(Flat::Leave(r.slots, 0))?;
    Ok(steps)
}

fn code_of<B: RegionBuilder>(
    alloc: Global,
    r: &WRoutine,
    regions: &mut B,
) -> Result<Vec<Flat>, FrameError>
    requires formed { IsTrue (is_formed r.now) }
    requires none { B.regions regions.old ≡ [] }
    ensures few { IfOk result (λ code. length code.items < 2 ^ 32) }
    ensures steps { IfOk result (λ code. plain_code code.items ≡ steps_of r.now) }
    ensures regions { OnOk result (B.regions regions.new ≡ regions_of r.now) }
{
    let steps = made_of(alloc, r)?;
    let code = steps.finish(regions)?;
    Ok(code)
}

fn routine_of<B: RegionBuilder>(
    alloc: Global,
    r: &WRoutine,
    regions: &mut B,
) -> Result<FlatRoutine, FrameError>
    requires formed { IsTrue (is_formed r.now) }
    requires none { B.regions regions.old ≡ [] }
    ensures handed { IfOk result (HandsOn r.now) }
    ensures few { IfOk result (λ flat. length flat.code.items < 2 ^ 32) }
    ensures steps { IfOk result (λ flat. plain_code flat.code.items ≡ steps_of r.now) }
    ensures regions { OnOk result (B.regions regions.new ≡ regions_of r.now) }
{
    Ok(FlatRoutine {
        name: r.name.copy(alloc)?,
        frame: r.width(),
        code: code_of(alloc, r, regions)?,
        nodes: r.nodes,
        uses: copy_texts(alloc, r.uses.as_slice())?.into_vec(),
        constants: copy_constants(alloc, r.constants.as_slice())?.into_vec(),
        types: copy_texts(alloc, r.types.as_slice())?.into_vec(),
    })
}
