//! The modules of the routines that a program reaches.

ghost use Rattle.std.specs.Prelude.{IfOk, OnOk};
ghost use Rattle.indexmap.specs.IndexMap.{keys};
ghost use Rattle.clu_library.specs.Contents.{Contents};
ghost use Rattle.clu_reach.specs.Causes.{HaveBodies};
ghost use Rattle.clu_reach.specs.Found.{AreKept, IsKept};

use crate::errors::LinkError;
use crate::program::Code;
use crate::reaching::RoutineName;
use clu_base::{Bytes, Memory};
use indexmap::IndexMap;
use std::alloc::Global;

/// The modules of routines, ascending, each once.
#[tactic(auto, using(crate::proofs::Keeping::keepings))]
pub fn modules_of(
    alloc: Global,
    routines: &IndexMap<RoutineName, Code<'_>>,
) -> Result<Vec<Bytes>, LinkError>
    ensures { (library : Contents) → AreKept library (keys routines.now) → IfOk result (λ modules. HaveBodies library modules.items) }
{
    let mut modules = all_modules_of(alloc, routines)?;
    modules.sort()?;
    modules.dedup();
    Ok(modules)
}

/// The modules of routines in the order of these.
fn all_modules_of(
    alloc: Global,
    routines: &IndexMap<RoutineName, Code<'_>>,
) -> Result<Vec<Bytes>, Memory>
    ensures { (library : Contents) → AreKept library (keys routines.now) → IfOk result (λ modules. HaveBodies library modules.items) }
{
    let mut modules = Vec::new(alloc);
    for routine in routines.keys() {
        add_module(alloc, &mut modules, routine)?;
    }
    Ok(modules)
}

/// Adds the module of a routine that is kept.
#[tactic(auto, using(crate::proofs::Keeping::keepings))]
fn add_module(alloc: Global, modules: &mut Vec<Bytes>, routine: &RoutineName) -> Result<(), Memory>
    ensures { (library : Contents) → IsKept library routine.now → HaveBodies library modules.old.items → OnOk result (HaveBodies library modules.new.items) }
{
    if let RoutineName::Kept(module, _) = routine {
        modules.push(module.copy(alloc)?)?;
    }
    Ok(())
}
