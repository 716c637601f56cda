//! Whether the parts of an object are those of one in a file.

ghost use Rattle.std.specs.Prelude.{◌≡◌, ◌&&◌, [], length, IfOk};
ghost use Rattle.std.specs.List.{list_all};
ghost use Rattle.clu_object.specs.Objects.{is_number, is_content, is_list, is_use, is_type, is_int, is_value, is_constant, is_arm, is_region, are_regions, is_coded, is_routine, is_object};

use crate::names::{is_arm_name, is_routine_name};
use crate::object::{ObjRoutine, Object, Region};
use crate::read_items::{is_type, is_use};
use crate::read_regions::nests;
use clu_base::{Bytes, Const, Memory, ObjConst};
use clu_format::is_module_name;
use clu_handlers::Regions;
use clu_types::TypeArena;
use clu_wir::Arm;
use std::alloc::Global;

/// Whether this is an object as docs/formats.md has it: one that is read again once it is written. The only error is
/// that memory runs out.
pub fn is_object(alloc: Global, o: &Object) -> Result<bool, Memory>
    ensures { IfOk result (λ b. b ≡ is_object o.now) }
{
    if !is_module_name(o.module.as_slice()) || !is_number(o.routines.as_slice().len()) {
        return Ok(false);
    }
    let mut types = TypeArena::new(alloc);
    are_routines(alloc, &mut types, o.routines.as_slice())
}

/// Whether four bytes hold the number.
fn is_number(n: usize) -> bool
    ensures { result ≡ is_number n }
{
    n <= u32::MAX as usize
}

fn are_routines(
    alloc: Global,
    types: &mut TypeArena,
    routines: &[ObjRoutine],
) -> Result<bool, Memory>
    ensures { IfOk result (λ b. b ≡ list_all is_routine routines.now) }
{
    for routine in routines {
        if !is_routine(alloc, types, routine)? {
            return Ok(false);
        }
    }
    Ok(true)
}

fn is_routine(alloc: Global, types: &mut TypeArena, routine: &ObjRoutine) -> Result<bool, Memory>
    ensures { IfOk result (λ b. b ≡ is_routine routine.now) }
{
    if !is_coded(routine) {
        return Ok(false);
    }
    if !are_uses(alloc, types, routine.uses.as_slice())? {
        return Ok(false);
    }
    if !are_types(alloc, types, routine.types.as_slice())? {
        return Ok(false);
    }
    are_regions(
        alloc,
        routine.code.as_slice().len(),
        routine.regions.as_slice(),
    )
}

/// Whether a routine is one of an object, but for its uses, types and regions.
fn is_coded(routine: &ObjRoutine) -> bool
    ensures { result ≡ is_coded routine.now }
{
    is_routine_name(routine.name.as_slice())
        && is_number(routine.nodes as usize)
        && are_words(routine.code.as_slice())
        && is_number(routine.holes.as_slice().len())
        && routine.has_holes()
        && are_constants(routine.constants.as_slice())
}

fn are_words(words: &[u32]) -> bool
    ensures { result ≡ is_list is_number words.now }
{
    for word in words {
        if !is_number(*word as usize) {
            return false;
        }
    }
    is_number(words.len())
}

fn are_uses(alloc: Global, types: &mut TypeArena, uses: &[Bytes]) -> Result<bool, Memory>
    ensures { IfOk result (λ b. b ≡ is_list is_use uses.now) }
{
    for text in uses {
        if !is_use(alloc, types, text.as_slice())? {
            return Ok(false);
        }
    }
    Ok(is_number(uses.len()))
}

fn are_types(alloc: Global, types: &mut TypeArena, texts: &[Bytes]) -> Result<bool, Memory>
    ensures { IfOk result (λ b. b ≡ is_list is_type texts.now) }
{
    for text in texts {
        if !is_type(alloc, types, text.as_slice())? {
            return Ok(false);
        }
    }
    Ok(is_number(texts.len()))
}

fn are_constants(constants: &[ObjConst]) -> bool
    ensures { result ≡ is_list is_constant constants.now }
{
    for constant in constants {
        if !is_constant(constant) {
            return false;
        }
    }
    is_number(constants.len())
}

/// Whether a parameter has a number from 1 on.
fn is_constant(constant: &ObjConst) -> bool
    ensures { result ≡ is_constant constant.now }
{
    match constant {
        ObjConst::Value(value) => is_value(value),
        ObjConst::Param(number) => *number != 0,
    }
}

/// Whether eight bytes hold the number, or the length of a text.
fn is_value(value: &Const) -> bool
    ensures { result ≡ is_value value.now }
{
    match value {
        Const::Int(n) => is_int(*n),
        Const::Str(text) => text.as_slice().len() <= usize::MAX,
        _ => true,
    }
}

fn is_int(n: i64) -> bool
    ensures { result ≡ is_int n }
{
    n <= i64::MAX
}

/// Whether each region lies in a routine of so many code words, and nests in those before it.
fn are_regions(alloc: Global, words: usize, regions: &[Region]) -> Result<bool, Memory>
    ensures { IfOk result (λ b. b ≡ (is_number (length regions.now) && are_regions words [] regions.now)) }
{
    if !is_number(regions.len()) {
        return Ok(false);
    }
    let mut ranges = Regions::new(alloc);
    for region in regions {
        if !is_region(words, region) {
            return Ok(false);
        }
        if !nests(alloc, &mut ranges, region.first, region.last, region.parent)? {
            return Ok(false);
        }
    }
    Ok(true)
}

/// Whether a region lies in a routine of so many code words, with the targets of its arms.
fn is_region(words: usize, region: &Region) -> bool
    ensures { result ≡ is_region words region.now }
{
    (region.last as usize) < words && are_arms(words, region.arms.as_slice())
}

fn are_arms(words: usize, arms: &[Arm]) -> bool
    ensures { result ≡ is_list (is_arm words) arms.now }
{
    for arm in arms {
        if !is_arm(words, arm) {
            return false;
        }
    }
    is_number(arms.len())
}

fn is_arm(words: usize, arm: &Arm) -> bool
    ensures { result ≡ is_arm words arm.now }
{
    is_arm_name(arm.name.as_slice())
        && (arm.target as usize) < words
        && is_number(arm.mark as usize)
}
