//! The heading of a routine as its body sees it: which results and objects of exceptions are of type any, and its own
//! variables.

ghost use Rattle.std.specs.Prelude.{◌≡◌, length};
ghost use Rattle.clu_syntax.specs.Parts.{AreBefore};
ghost use Rattle.clu_lower_ctl.specs.Inside.{AreNodes, IsNode};

use crate::own_variables::declare_owns;
use clu_lower_types::{Fixed, Result, denotes_any};
use clu_tree::NodeKind;
use clu_wir::HoleKind;

/// Notes the results, the exceptions and the own variables of the routine n.
pub fn note_heading(fixed: &mut Fixed, n: u32) -> Result<()>
    requires { IsNode fixed.old.syntax.now NodeKind.Routine n }
    ensures { fixed.new.syntax ≡ fixed.old.syntax }
{
    let routine = fixed.syntax.routine(n);
    fixed.results = which_denote_any(fixed, routine.results)?;
    note_signals(fixed, routine.exceptions)?;
    declare_owns(fixed, routine.owns, HoleKind::RoutineOwn)
}

fn note_signals(fixed: &mut Fixed, exceptions: &[u32]) -> Result<()>
    requires { AreNodes fixed.old.syntax.now NodeKind.Exc exceptions.now }
    ensures { fixed.new.syntax ≡ fixed.old.syntax }
{
    for exception in exceptions {
        let signal = fixed.syntax.exception(*exception);
        let name = signal.name.copy(fixed.alloc)?;
        let objects = which_denote_any(fixed, signal.types)?;
        fixed.signals.insert(name, objects)?;
    }
    Ok(())
}

/// For each of these types whether it is any.
fn which_denote_any(fixed: &Fixed, types: &[u32]) -> Result<Vec<bool>>
    requires { AreBefore (length fixed.now.syntax.now) types.now }
{
    let mut any = Vec::new(fixed.alloc);
    for of in types {
        any.push(denotes_any(fixed, *of)?)?;
    }
    Ok(any)
}
