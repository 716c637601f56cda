//! Linking: from a library and a start to an image.

ghost use Rattle.std.specs.Prelude.{◌≡◌, ℕ, IfErr, IfOk, List, OnOk};
ghost use Rattle.indexmap.specs.IndexMap.{keys};
ghost use Rattle.clu_trace.specs.Maps.{Maps};
ghost use Rattle.clu_library.specs.Contents.{Contents, spec_of};
ghost use Rattle.clu_reach.specs.Causes.{HaveBodies, IsRefusalOf};
ghost use Rattle.clu_reach.specs.Found.{AreKept};
ghost use Rattle.clu_reach.specs.Refused.{IsAcceptedFrom, IsRefusedFrom, first_of_start};
ghost use Rattle.clu_reach.specs.Starts.{MayStart};
ghost use Rattle.clu_link.specs.Images.{AreUnset};

use crate::filling::code_words;
use crate::places::{Places, lay_out};
use crate::tables::fixed_part;
use crate::texts::{Texts, collect_texts};
use crate::tracing::map_of;
use clu_base::Bytes;
use clu_library::Library;
use clu_reach::{
    LinkError, Member, Program, Reached, collect, modules_of, of_step, reach, start_of,
};
use clu_trace::TraceMap;
use rv_isa::Image;
use std::alloc::Global;
use std::boxed::Box;

/// A program that was linked.
#[derive(Drop)]
pub struct Linked {
    pub image: Image,
    /// The modules whose bodies it has, ascending.
    pub modules: Vec<Bytes>,
}

/// A program that was linked, with the map by which a run of it is traced.
#[derive(Drop)]
pub struct Traced {
    pub linked: Linked,
    pub map: TraceMap,
}

/// A program that was linked, with what it was made from.
#[derive(Drop)]
struct Made<'a> {
    linked: Linked,
    reached: Box<Reached<'a>>,
    program: Box<Program<'a>>,
    places: Box<Places>,
}

/// Links the program that starts with the procedure `start`. Each refusal has its cause in the library: `NoModule` and
/// `BadStart` in the start, `NoBody`, `Stale` and `Misfit` in the body of the module that they name.
pub fn link(alloc: Global, lib: &Library, start: &Bytes) -> Result<Linked, LinkError>
    ensures started { OnOk result (MayStart (spec_of lib.now start.now)) }
    ensures refused { IfErr result (λ e. IsRefusalOf e lib.now start.now) }
    ensures reached { OnOk result (IsAcceptedFrom lib.now start.now) }
    ensures exact { IfErr result (λ e. IsRefusedFrom lib.now start.now e) }
    ensures bodies { IfOk result (λ linked. HaveBodies lib.now linked.modules.items) }
    ensures entry { IfOk result (λ linked. linked.image.entry ≡ 0) }
    ensures unset { IfOk result (λ linked. AreUnset linked.image.area) }
{
    let first = start_of(alloc, lib, start)?;
    link_from(alloc, lib, first)
}

/// Links the same program to the same image, and refuses as `link` does. The names in the map are made here alone.
pub fn link_traced(alloc: Global, lib: &Library, start: &Bytes) -> Result<Traced, LinkError>
    ensures started { OnOk result (MayStart (spec_of lib.now start.now)) }
    ensures refused { IfErr result (λ e. IsRefusalOf e lib.now start.now) }
    ensures reached { OnOk result (IsAcceptedFrom lib.now start.now) }
    ensures exact { IfErr result (λ e. IsRefusedFrom lib.now start.now e) }
    ensures bodies { IfOk result (λ traced. HaveBodies lib.now traced.linked.modules.items) }
    ensures entry { IfOk result (λ traced. traced.linked.image.entry ≡ 0) }
    ensures unset { IfOk result (λ traced. AreUnset traced.linked.image.area) }
    ensures maps { IfOk result (λ traced. Maps traced.map traced.linked.image) }
{
    let first = start_of(alloc, lib, start)?;
    traced_from(alloc, lib, first)
}

/// Links the program whose first instance is this one.
fn link_from(alloc: Global, lib: &Library, first: Member) -> Result<Linked, LinkError>
    ensures refused { (start : List ℕ) → IfErr result (λ e. IsRefusalOf e lib.now start) }
    ensures reached { (start : List ℕ) → first ≡ first_of_start start → OnOk result (IsAcceptedFrom lib.now start) }
    ensures exact { (start : List ℕ) → first ≡ first_of_start start → IfErr result (λ e. IsRefusedFrom lib.now start e) }
    ensures bodies { IfOk result (λ linked. HaveBodies lib.now linked.modules.items) }
    ensures entry { IfOk result (λ linked. linked.image.entry ≡ 0) }
    ensures unset { IfOk result (λ linked. AreUnset linked.image.area) }
{
    match make(alloc, lib, first) {
        Ok(made) => Ok(made.linked),
        Err(error) => Err(error),
    }
}

/// The same, with a map, which is one of the image.
fn traced_from(alloc: Global, lib: &Library, first: Member) -> Result<Traced, LinkError>
    ensures refused { (start : List ℕ) → IfErr result (λ e. IsRefusalOf e lib.now start) }
    ensures reached { (start : List ℕ) → first ≡ first_of_start start → OnOk result (IsAcceptedFrom lib.now start) }
    ensures exact { (start : List ℕ) → first ≡ first_of_start start → IfErr result (λ e. IsRefusedFrom lib.now start e) }
    ensures bodies { IfOk result (λ traced. HaveBodies lib.now traced.linked.modules.items) }
    ensures entry { IfOk result (λ traced. traced.linked.image.entry ≡ 0) }
    ensures unset { IfOk result (λ traced. AreUnset traced.linked.image.area) }
    ensures maps { IfOk result (λ traced. Maps traced.map traced.linked.image) }
{
    match make(alloc, lib, first) {
        Ok(made) => {
            let map = map_of_made(alloc, &made)?;
            if map.is_map_of(&made.linked.image) {
                Ok(Traced {
                    linked: made.linked,
                    map,
                })
            } else {
                Err(LinkError::NotYet)
            }
        }
        Err(error) => Err(error),
    }
}

/// The map of a program.
fn map_of_made(alloc: Global, made: &Made<'_>) -> Result<TraceMap, LinkError>
    ensures exact { (library : Contents) → (start : List ℕ) → IfErr result (λ e. IsRefusedFrom library start e) }
    ensures refused { (library : Contents) → (start : List ℕ) → IfErr result (λ e. IsRefusalOf e library start) }
{
    match map_of(alloc, &made.program, &made.reached.members, &made.places) {
        Ok(map) => Ok(map),
        Err(error) => Err(of_step(error)),
    }
}

/// Makes the program whose first instance is this one. No step after the first one refuses a program.
fn make<'a>(alloc: Global, lib: &'a Library, first: Member) -> Result<Made<'a>, LinkError>
    ensures refused { (start : List ℕ) → IfErr result (λ e. IsRefusalOf e lib.now start) }
    ensures reached { (start : List ℕ) → first ≡ first_of_start start → OnOk result (IsAcceptedFrom lib.now start) }
    ensures exact { (start : List ℕ) → first ≡ first_of_start start → IfErr result (λ e. IsRefusedFrom lib.now start e) }
    ensures bodies { IfOk result (λ made. HaveBodies lib.now made.linked.modules.items) }
    ensures entry { IfOk result (λ made. made.linked.image.entry ≡ 0) }
    ensures unset { IfOk result (λ made. AreUnset made.linked.image.area) }
{
    let reached = reach(alloc, lib, first)?;
    match made_of(alloc, reached) {
        Ok(made) => Ok(made),
        Err(error) => Err(of_step(error)),
    }
}

/// The program of what was reached.
fn made_of<'a>(alloc: Global, of: Box<Reached<'a>>) -> Result<Made<'a>, LinkError>
    ensures bodies { (library : Contents) → AreKept library (keys of.entry.value.routines) → IfOk result (λ made. HaveBodies library made.linked.modules.items) }
    ensures entry { IfOk result (λ made. made.linked.image.entry ≡ 0) }
    ensures unset { IfOk result (λ made. AreUnset made.linked.image.area) }
{
    let mut reached = of;
    let modules = modules_of(alloc, &reached.routines)?;
    let program = collect(alloc, &mut reached)?;
    let texts = collect_texts(alloc, &program)?;
    let places = Box::new(alloc, lay_out(alloc, &program, &texts)?)?;
    let image = image_of(alloc, &program, &texts, &places)?;
    Ok(Made {
        linked: Linked { image, modules },
        reached,
        program,
        places,
    })
}

/// The image of a program: its entry is the first word of the start part.
fn image_of(
    alloc: Global,
    program: &Program<'_>,
    texts: &Texts,
    places: &Places,
) -> Result<Image, LinkError>
    ensures entry { IfOk result (λ image. image.entry ≡ 0) }
    ensures unset { IfOk result (λ image. AreUnset image.area) }
{
    let code = code_words(alloc, program, places)?;
    let fixed = fixed_part(alloc, program, texts, places)?;
    let area = data_part(alloc, places)?;
    if fixed.len() as u64 != places.data.saturating_sub(places.fixed) {
        return Err(LinkError::NotYet);
    }
    match Image::new(0, code, fixed, area) {
        Some(image) => Ok(image),
        None => Err(LinkError::NotYet),
    }
}

/// The data: no own variable names an object when the program starts.
#[tactic(auto, using(crate::proofs::Zeros::are_zeros))]
fn data_part(alloc: Global, places: &Places) -> Result<Vec<u8>, LinkError>
    ensures { IfOk result (λ bytes. AreUnset bytes.items) }
{
    let bytes = places.end.saturating_sub(places.data);
    if bytes > Image::MAX_BYTES as u64 {
        return Err(LinkError::NotYet);
    }
    Ok(vec![in alloc; 0; bytes as usize]?)
}
