//! Where the declarations of nodes begin.

ghost use Rattle.std.specs.Prelude.{◌≡◌, IfOk};
ghost use Rattle.clu_name_rules.specs.Own.{noted, own_places};

use clu_base::Memory;
use clu_names::Declared;
use std::alloc::Global;

/// Notes the place of a declaration of the node n, unless one before it is noted.
fn note(own: &mut Vec<usize>, n: u32, place: usize)
    ensures { own.new.items ≡ noted n place own.old.items }
{
    let n = n as usize;
    if n < own.len() && place < own[n] {
        own[n] = place;
    }
}

/// For each of so many nodes the place of the first declaration whose node it is; the number of declarations where there is
/// none. The only error is that memory runs out.
pub fn own_places(alloc: Global, declared: &[Declared], nodes: usize) -> Result<Vec<usize>, Memory>
    ensures { IfOk result (λ own. own.items ≡ own_places declared.now nodes) }
{
    let mut own = vec![in alloc; declared.len(); nodes]?;
    for place in 0..declared.len() {
        note(&mut own, declared[place].node, place);
    }
    Ok(own)
}
