//! Whether the specifications that are kept are sound.

ghost use Rattle.std.specs.Prelude.{◌≡◌, ◌↔◌, IfOk, IsTrue, Contains};
ghost use Rattle.std.specs.List.{list_any};
ghost use Rattle.std.specs.Str.{bytes_eq};
ghost use Rattle.clu_sound.specs.Sound.{IsSound};
ghost use Rattle.clu_specs.specs.Specifications.{SpecHolds};
ghost use Rattle.clu_library.specs.Unmet.{IsAmiss, TellsUnmet};

use crate::library::Library;
use clu_base::{Bytes, Memory};
use clu_sound::is_sound;
use clu_types::{Spec, Specs};
use std::alloc::Global;

impl Library {
    /// The least name of a kept module outside the list whose specification has a type of a cluster that isn't kept, or
    /// with actual parameters of other kinds or that do not meet its demands; None exactly where there is none. The only
    /// error is that memory runs out.
    #[tactic(auto, using(crate::proofs::Amiss::tellings))]
    pub fn unmet(&self, alloc: Global, besides: &[Bytes]) -> Result<Option<Bytes>, Memory>
        ensures { IfOk result (TellsUnmet self.now besides.now) }
    {
        // so many specifications are more than memory holds
        for n in 0..u32::MAX {
            let Some(spec) = self.nth_spec(n) else {
                return Ok(None);
            };
            let is_next = is_amiss(alloc, spec, besides, self.specs())?;
            if is_next {
                return Ok(Some(spec.name.copy(alloc)?));
            }
        }
        Err(Memory)
    }
}

/// Whether a specification is of none of these modules, and isn't sound.
fn is_amiss(alloc: Global, spec: &Spec, besides: &[Bytes], specs: &Specs) -> Result<bool, Memory>
    requires { SpecHolds spec.now }
    ensures { IfOk result (λ amiss. IsTrue amiss ↔ IsAmiss specs.now besides.now spec.now) }
{
    if is_among(&spec.name, besides) {
        Ok(false)
    } else {
        is_unsound(alloc, spec, specs)
    }
}

fn is_among(name: &Bytes, names: &[Bytes]) -> bool
    ensures { IsTrue result ↔ Contains names.now name.now }
{
    holds(names, name)
}

fn holds(names: &[Bytes], name: &Bytes) -> bool
    ensures { result ≡ list_any (bytes_eq name.now) names.now }
{
    for other in names {
        if *name == *other {
            return true;
        }
    }
    false
}

fn is_unsound(alloc: Global, spec: &Spec, specs: &Specs) -> Result<bool, Memory>
    requires { SpecHolds spec.now }
    ensures { IfOk result (λ unsound. IsTrue unsound ↔ (IsSound specs.now spec.now → ⊥)) }
{
    let sound = is_sound(alloc, spec, specs)?;
    Ok(!sound)
}
