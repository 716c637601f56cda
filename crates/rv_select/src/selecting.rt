//! A routine of flat code as an object's routine.

ghost use Rattle.std.specs.Prelude.{◌≡◌, IfOk, IsTrue, OnOk, map};
ghost use Rattle.clu_frames.specs.Labels.{IsFlat};
ghost use Rattle.clu_frames.specs.Plain.{plain_code};
ghost use Rattle.rv_select.specs.Finished.{all_onto, all_starts, finished as finished_words, is_landed};
ghost use Rattle.rv_select.specs.Instructions.{AreInstructions, read};
ghost use Rattle.rv_select.specs.Selected.{HandsOn, IsSelected};

use crate::error::{Answer, SelectError};
use crate::regions::map_regions;
use crate::step::select_step;
use crate::words::{Finished, Words};
use clu_base::{Memory, Sequence};
use clu_frames::{Flat, FlatRoutine};
use clu_handlers::Regions;
use clu_object::{ObjRoutine, Region, copy_constants, copy_texts};
use std::alloc::Global;

/// The words of each step, one after the other, and the number of the word at which each begins, and after them all
/// the number of words.
#[derive(Drop)]
struct Selected {
    finished: Finished,
    starts: Vec<u32>,
}

/// The code of a routine, with its regions in words. The answer is `NotYet` only where the flat code or its regions
/// are none of a source.
///
/// The steps of a region are its words, and so the word of a call is in the region of its step. No contract shows yet
/// that each step takes no more words than are counted for it: it is tested of all together.
pub fn select(alloc: Global, f: &FlatRoutine, r: &Regions) -> Result<ObjRoutine, SelectError>
    requires { IsFlat (plain_code f.now.code.items) }
    ensures handed { IfOk result (HandsOn f.now) }
    ensures selected { IfOk result (IsSelected f.now r.now) }
{
    let Selected { finished, starts } = select_steps(alloc, f.code.as_slice(), f.frame)?;
    let regions = map_regions(alloc, r, starts.as_slice())?;
    let routine = make_routine(alloc, f, finished, regions)?;
    if routine.code.as_slice().len() as u64 > f.words() {
        return Err(SelectError::NotYet);
    }
    if !routine.has_holes() {
        return Err(SelectError::NotYet);
    }
    Ok(routine)
}

fn make_routine(
    alloc: Global,
    f: &FlatRoutine,
    finished: Finished,
    regions: Sequence<Region>,
) -> Result<ObjRoutine, Memory>
    ensures handed { IfOk result (HandsOn f.now) }
    ensures instructions { IfOk result (λ object. AreInstructions object.code) }
    ensures code { IfOk result (λ object. object.code ≡ finished.code.items) }
    ensures holes { IfOk result (λ object. object.holes ≡ finished.holes.items) }
    ensures regions { IfOk result (λ object. object.regions ≡ regions) }
{
    let Finished { code, holes } = finished;
    Ok(ObjRoutine {
        name: f.name.copy(alloc)?,
        nodes: f.nodes,
        code: Sequence::from_vec(code),
        holes: Sequence::from_vec(holes),
        uses: copy_texts(alloc, f.uses.as_slice())?,
        constants: copy_constants(alloc, f.constants.as_slice())?,
        types: copy_texts(alloc, f.types.as_slice())?,
        regions,
    })
}

#[tactic(auto, using(crate::proofs::Instructions::counting))]
fn select_steps(alloc: Global, steps: &[Flat], frame: u32) -> Answer<Selected>
    ensures code { IfOk result (λ all. map read all.finished.code.items ≡ finished_words (all_onto frame (plain_code steps.now))) }
    ensures landed { OnOk result (IsTrue (is_landed (all_onto frame (plain_code steps.now)))) }
    ensures fits { OnOk result (IsTrue (all_onto frame (plain_code steps.now)).fits) }
    ensures starts { IfOk result (λ all. all.starts.items ≡ all_starts frame (plain_code steps.now)) }
    ensures holes { IfOk result (λ all. all.finished.holes.items ≡ (all_onto frame (plain_code steps.now)).holes) }
{
    // Each label is a step, and labels are numbered from 0: those of flat code are below the number of steps.
    let mut words = Words::new(alloc, steps.len())?;
    let mut starts = Vec::new(alloc);
    for step in steps {
        starts.push(words.here()?)?;
        select_step(&mut words, step, frame)?;
    }
    starts.push(words.here()?)?;
    let finished = words.finish()?;
    Ok(Selected { finished, starts })
}
