//! Flat code with its regions, shortened.

ghost use Rattle.std.specs.Prelude.{◌≤◌, ◌<◌, ◌^◌, IfOk, IsTrue, length, map};
ghost use Rattle.std.specs.List.{list_all};
ghost use Rattle.clu_wir.specs.Adding.{is_placed};
ghost use Rattle.clu_frames.specs.Plain.{plain_code};
ghost use Rattle.clu_frames.specs.Labels.{IsFlat};
ghost use Rattle.clu_frames.specs.Steps.{code_words};
ghost use Rattle.clu_frames.specs.Within.{are_within};
ghost use Rattle.clu_handlers.specs.Seen.{seen};
ghost use Rattle.clu_peep.specs.Peeped.{HandsOn, IsPeeped};

use crate::left::{numbers, steps};
use crate::regions::moved;
use crate::settling::settled;
use clu_base::Memory;
use clu_frames::{Flat, FlatRoutine};
use clu_handlers::Regions;
use std::alloc::Global;

/// A routine in flat code, and its regions.
#[derive(Drop)]
pub struct Peeped {
    pub flat: FlatRoutine,
    pub regions: Regions,
}

/// Steps and their regions.
#[derive(Drop)]
struct Code {
    steps: Vec<Flat>,
    regions: Regions,
}

/// A routine without the places that go by a row, and its regions: bounds and targets move to places that are left, and
/// a region of which none is left goes. The only error is that memory runs out.
pub fn peep(alloc: Global, f: FlatRoutine, r: &Regions) -> Result<Peeped, Memory>
    requires flat { IsFlat (plain_code f.code.items) }
    requires placed { IsTrue (list_all (is_placed (length f.code.items)) (map seen r.now)) }
    ensures handed { IfOk result (λ p. HandsOn f p.flat) }
    ensures peeped { IfOk result (λ p. IsPeeped f.code.items r.now p.flat.code.items p.regions) }
    ensures flat { IfOk result (λ p. IsFlat (plain_code p.flat.code.items)) }
    ensures placed { IfOk result (λ p. IsTrue (list_all (is_placed (length p.flat.code.items)) (map seen p.regions))) }
    ensures words { IfOk result (λ p. code_words p.flat.code.items ≤ code_words f.code.items) }
    ensures within { IsTrue (are_within f.frame f.code.items) → IfOk result (λ p. IsTrue (are_within p.flat.frame p.flat.code.items)) }
{
    let FlatRoutine {
        name,
        frame,
        code,
        nodes,
        uses,
        constants,
        types,
    } = f;
    let Code { steps, regions } = shorter(alloc, code, r)?;
    let flat = FlatRoutine {
        name,
        frame,
        code: steps,
        nodes,
        uses,
        constants,
        types,
    };
    Ok(Peeped { flat, regions })
}

/// Steps without those that go by a row.
fn shorter(alloc: Global, code: Vec<Flat>, r: &Regions) -> Result<Code, Memory>
    requires { length code.items < 2 ^ 32 }
    ensures { IfOk result (λ s. IsPeeped code.items r.now s.steps.items s.regions) }
{
    let left = settled(alloc, code, r.as_slice())?;
    let places = numbers(alloc, left.as_slice())?;
    let regions = moved(alloc, r, places.as_slice())?;
    Ok(Code {
        steps: steps(alloc, left)?,
        regions,
    })
}
