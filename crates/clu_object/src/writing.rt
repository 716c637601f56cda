//! Objects, written as bytes. The only error of each call is that memory runs out.

ghost use Rattle.std.specs.Prelude.{◌≡◌, ◌++◌, IfOk, OnOk};
ghost use Rattle.clu_object.specs.ObjectFile.{parent_number, value_bytes, constant_bytes, hole_bytes, arm_bytes, region_bytes, words_bytes, texts_bytes, constants_bytes, holes_bytes, arms_bytes, regions_bytes, routine_bytes, routines_bytes, object_bytes};

use crate::object::{Hole, ObjRoutine, Object, Region};
use crate::reading::VERSION;
use clu_base::{Bytes, Const, Memory, ObjConst, u32_add};
use clu_format::{count_add, i64_add, text16_add, text64_add};
use clu_handlers::NO_REGION;
use clu_wir::Arm;
use std::alloc::Global;

/// The bytes of an object, by docs/formats.md. Its parts are those of an object there.
pub fn write(alloc: Global, o: &Object) -> Result<Bytes, Memory>
    ensures { IfOk result (λ b. b ≡ object_bytes o.now) }
{
    let mut out = Vec::new(alloc);
    object_add(&mut out, o)?;
    Ok(Bytes::from_vec(out))
}

fn object_add(out: &mut Vec<u8>, o: &Object) -> Result<(), Memory>
    ensures { OnOk result (out.new.items ≡ out.old.items ++ object_bytes o.now) }
{
    out.extend_from_slice(b"CLUO")?;
    u32_add(out, VERSION)?;
    text16_add(out, o.module.as_slice())?;
    routines_add(out, o.routines.as_slice())
}

fn routines_add(out: &mut Vec<u8>, routines: &[ObjRoutine]) -> Result<(), Memory>
    ensures { OnOk result (out.new.items ≡ out.old.items ++ routines_bytes routines.now) }
{
    count_add(out, routines.len())?;
    for routine in routines {
        routine_add(out, routine)?;
    }
    Ok(())
}

#[tactic(auto, unfolding(crate::specs::ObjectFile::routine_bytes))]
fn routine_add(out: &mut Vec<u8>, routine: &ObjRoutine) -> Result<(), Memory>
    ensures { OnOk result (out.new.items ≡ out.old.items ++ routine_bytes routine.now) }
{
    text16_add(out, routine.name.as_slice())?;
    u32_add(out, routine.nodes)?;
    words_add(out, routine.code.as_slice())?;
    holes_add(out, routine.holes.as_slice())?;
    texts_add(out, routine.uses.as_slice())?;
    constants_add(out, routine.constants.as_slice())?;
    texts_add(out, routine.types.as_slice())?;
    regions_add(out, routine.regions.as_slice())
}

fn words_add(out: &mut Vec<u8>, words: &[u32]) -> Result<(), Memory>
    ensures { OnOk result (out.new.items ≡ out.old.items ++ words_bytes words.now) }
{
    count_add(out, words.len())?;
    for word in words {
        u32_add(out, *word)?;
    }
    Ok(())
}

fn holes_add(out: &mut Vec<u8>, holes: &[Hole]) -> Result<(), Memory>
    ensures { OnOk result (out.new.items ≡ out.old.items ++ holes_bytes holes.now) }
{
    count_add(out, holes.len())?;
    for hole in holes {
        hole_add(out, *hole)?;
    }
    Ok(())
}

fn hole_add(out: &mut Vec<u8>, hole: Hole) -> Result<(), Memory>
    ensures { OnOk result (out.new.items ≡ out.old.items ++ hole_bytes hole) }
{
    u32_add(out, hole.at)?;
    out.push(hole.kind)?;
    u32_add(out, hole.number)
}

fn texts_add(out: &mut Vec<u8>, texts: &[Bytes]) -> Result<(), Memory>
    ensures { OnOk result (out.new.items ≡ out.old.items ++ texts_bytes texts.now) }
{
    count_add(out, texts.len())?;
    for text in texts {
        text64_add(out, text.as_slice())?;
    }
    Ok(())
}

fn constants_add(out: &mut Vec<u8>, constants: &[ObjConst]) -> Result<(), Memory>
    ensures { OnOk result (out.new.items ≡ out.old.items ++ constants_bytes constants.now) }
{
    count_add(out, constants.len())?;
    for constant in constants {
        constant_add(out, constant)?;
    }
    Ok(())
}

fn constant_add(out: &mut Vec<u8>, constant: &ObjConst) -> Result<(), Memory>
    ensures { OnOk result (out.new.items ≡ out.old.items ++ constant_bytes constant.now) }
{
    match constant {
        ObjConst::Value(value) => value_add(out, value),
        ObjConst::Param(number) => {
            out.push(5)?;
            u32_add(out, *number)
        }
    }
}

fn value_add(out: &mut Vec<u8>, value: &Const) -> Result<(), Memory>
    ensures { OnOk result (out.new.items ≡ out.old.items ++ value_bytes value.now) }
{
    match value {
        Const::Null => bytes_add(out, &[0]),
        Const::Bool(false) => bytes_add(out, &[1, 0]),
        Const::Bool(true) => bytes_add(out, &[1, 1]),
        Const::Int(n) => {
            out.push(2)?;
            i64_add(out, *n)
        }
        Const::Char(c) => bytes_add(out, &[3, *c]),
        Const::Str(text) => {
            out.push(4)?;
            text64_add(out, text.as_slice())
        }
    }
}

fn bytes_add(out: &mut Vec<u8>, bytes: &[u8]) -> Result<(), Memory>
    ensures { OnOk result (out.new.items ≡ out.old.items ++ bytes.now) }
{
    Ok(out.extend_from_slice(bytes)?)
}

fn regions_add(out: &mut Vec<u8>, regions: &[Region]) -> Result<(), Memory>
    ensures { OnOk result (out.new.items ≡ out.old.items ++ regions_bytes regions.now) }
{
    count_add(out, regions.len())?;
    for region in regions {
        region_add(out, region)?;
    }
    Ok(())
}

#[tactic(auto, unfolding(crate::specs::ObjectFile::region_bytes))]
fn region_add(out: &mut Vec<u8>, region: &Region) -> Result<(), Memory>
    ensures { OnOk result (out.new.items ≡ out.old.items ++ region_bytes region.now) }
{
    u32_add(out, region.first)?;
    u32_add(out, region.last)?;
    u32_add(out, parent_number(region.parent))?;
    arms_add(out, region.arms.as_slice())
}

/// The number of the region round one, or the one for no region.
fn parent_number(parent: Option<u32>) -> u32
    ensures { result ≡ parent_number parent }
{
    match parent {
        Some(number) => number,
        None => NO_REGION,
    }
}

fn arms_add(out: &mut Vec<u8>, arms: &[Arm]) -> Result<(), Memory>
    ensures { OnOk result (out.new.items ≡ out.old.items ++ arms_bytes arms.now) }
{
    count_add(out, arms.len())?;
    for arm in arms {
        arm_add(out, arm)?;
    }
    Ok(())
}

fn arm_add(out: &mut Vec<u8>, arm: &Arm) -> Result<(), Memory>
    ensures { OnOk result (out.new.items ≡ out.old.items ++ arm_bytes arm.now) }
{
    text16_add(out, arm.name.as_slice())?;
    u32_add(out, arm.target)?;
    u32_add(out, arm.mark)
}
