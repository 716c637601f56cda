//! Objects, read from bytes: one part after the other from the left.

ghost use Rattle.std.specs.Prelude.{◌≡◌, length, IsTrue, IfOk};
ghost use Rattle.std.specs.Result.{MatchResult};
ghost use Rattle.clu_specs.specs.Reading.{Gives, offset_of};
ghost use Rattle.clu_format.specs.Lists.{counted};
ghost use Rattle.clu_object.specs.declared.object.Object.{Object};
ghost use Rattle.clu_object.specs.ObjectFile.{object_bytes};
ghost use Rattle.clu_object.specs.Objects.{is_object};
ghost use Rattle.clu_object.specs.ObjectReading.{routine_name_read, coded_read, items_read, routine_of, routine_read, added, last_routines_read, version_read, head_read, object_read};

use crate::names::is_routine_name;
use crate::object::{Hole, ObjRoutine, Object, Region};
use crate::read_holes::{code_at, holes_at};
use crate::read_items::{constants_at, types_at, uses_at};
use crate::read_regions::regions_at;
use clu_base::{Bytes, FormatError, ObjConst, Sequence};
use clu_format::{at_offset, end, fault, mark, module_after, text16_field, u32_field};
use clu_types::TypeArena;
use std::alloc::Global;

/// The one version that is read and written.
pub const VERSION: u32 = 2;

/// The object of these bytes, by docs/formats.md, which `write` writes as these bytes. Other bytes are refused with the
/// place of the first field that is missing, cut, out of its range or out of order, or of the first byte after the end.
/// `FormatError::Memory` comes only when memory runs out.
pub fn read(alloc: Global, b: &[u8]) -> Result<Object, FormatError>
    ensures reads { Gives (λ o. o) result (offset_of (length b.now) (object_read b.now)) }
    ensures written { IfOk result (λ o. b.now ≡ object_bytes o) }
    ensures object { IfOk result (λ o. IsTrue (is_object o)) }
    ensures every_object { (o : Object) → IsTrue (is_object o) → b.now ≡ object_bytes o → MatchResult result (λ p. p ≡ o) (λ e. e ≡ FormatError.Memory) }
{
    match whole_object(alloc, b) {
        Ok(object) => Ok(object),
        Err(error) => Err(at_offset(b, error)),
    }
}

#[tactic(auto, unfolding(crate::specs::ObjectReading::object_read))]
fn whole_object(alloc: Global, b: &[u8]) -> Result<Object, FormatError>
    ensures { Gives (λ o. o) result (object_read b.now) }
{
    let (module, rest) = head_at(b)?;
    let module = Bytes::from_slice(alloc, module)?;
    let routines = last_routines_at(alloc, rest)?;
    Ok(Object { module, routines })
}

/// The name of the module, and what follows it.
#[tactic(auto, unfolding(crate::specs::ObjectReading::head_read))]
fn head_at(bytes: &[u8]) -> Result<(&[u8], &[u8]), FormatError>
    ensures { Gives (λ x. (x.0.now, x.1.now)) result (head_read bytes.now) }
{
    let rest = mark(b"CLUO", bytes)?;
    let (_, rest) = version_at(rest)?;
    module_after(&[], rest)
}

fn version_at(bytes: &[u8]) -> Result<(u32, &[u8]), FormatError>
    ensures { Gives (λ x. (x.0, x.1.now)) result (version_read bytes.now) }
{
    let (version, rest) = u32_field(bytes)?;
    if version != VERSION {
        return Err(fault(bytes));
    }
    Ok((version, rest))
}

/// Routines after their count, to the end.
fn last_routines_at(alloc: Global, bytes: &[u8]) -> Result<Sequence<ObjRoutine>, FormatError>
    ensures { Gives (λ routines. routines) result (last_routines_read bytes.now) }
{
    let (count, rest) = u32_field(bytes)?;
    let mut routines = Vec::new(alloc);
    let rest = routines_at(alloc, &mut routines, count, rest)?;
    end(rest)?;
    Ok(Sequence::from_vec(routines))
}

fn routines_at<'a>(
    alloc: Global,
    routines: &mut Vec<ObjRoutine>,
    count: u32,
    bytes: &'a [u8],
) -> Result<&'a [u8], FormatError>
    ensures { Gives (λ rest. (routines.new.items, rest.now)) result (counted (λ made. routine_read) count routines.old.items bytes.now) }
{
    let mut types = TypeArena::new(alloc);
    let mut rest = bytes;
    for _ in 0..count {
        rest = routine_at(alloc, &mut types, routines, rest)?;
    }
    Ok(rest)
}

/// Reads a routine and adds it to those before it.
#[tactic(auto, unfolding(crate::specs::ObjectReading::routine_read))]
fn routine_at<'a>(
    alloc: Global,
    types: &mut TypeArena,
    routines: &mut Vec<ObjRoutine>,
    bytes: &'a [u8],
) -> Result<&'a [u8], FormatError>
    ensures { Gives (λ rest. (routines.new.items, rest.now)) result (added routines.old.items (routine_read bytes.now)) }
{
    let (coded, rest) = coded_at(alloc, bytes)?;
    let (items, rest) = items_at(alloc, types, rest)?;
    let (regions, rest) = regions_at(alloc, coded.code.as_slice().len(), rest)?;
    routines.push(routine_of(coded, items, regions))?;
    Ok(rest)
}

fn routine_of(coded: Coded, items: Items, regions: Sequence<Region>) -> ObjRoutine
    ensures { result ≡ routine_of coded items regions }
{
    let Coded {
        name,
        nodes,
        code,
        holes,
    } = coded;
    let Items {
        uses,
        constants,
        types,
    } = items;
    ObjRoutine {
        name,
        nodes,
        code,
        holes,
        uses,
        constants,
        types,
        regions,
    }
}

/// A routine up to its holes.
#[derive(Drop)]
struct Coded {
    name: Bytes,
    nodes: u32,
    code: Sequence<u32>,
    holes: Sequence<Hole>,
}

#[tactic(auto, unfolding(crate::specs::ObjectReading::coded_read))]
fn coded_at(alloc: Global, bytes: &[u8]) -> Result<(Coded, &[u8]), FormatError>
    ensures { Gives (λ x. (x.0, x.1.now)) result (coded_read bytes.now) }
{
    let (name, rest) = routine_name_at(bytes)?;
    let (nodes, rest) = u32_field(rest)?;
    let name = Bytes::from_slice(alloc, name)?;
    let (code, rest) = code_at(alloc, rest)?;
    let (holes, rest) = holes_at(alloc, code.as_slice(), rest)?;
    let coded = Coded {
        name,
        nodes,
        code,
        holes,
    };
    Ok((coded, rest))
}

fn routine_name_at(bytes: &[u8]) -> Result<(&[u8], &[u8]), FormatError>
    ensures { Gives (λ x. (x.0.now, x.1.now)) result (routine_name_read bytes.now) }
{
    let (name, rest) = text16_field(bytes)?;
    if !is_routine_name(name) {
        return Err(fault(bytes));
    }
    Ok((name, rest))
}

/// What the holes of a routine name.
#[derive(Drop)]
struct Items {
    uses: Sequence<Bytes>,
    constants: Sequence<ObjConst>,
    types: Sequence<Bytes>,
}

#[tactic(auto, unfolding(crate::specs::ObjectReading::items_read))]
fn items_at<'a>(
    alloc: Global,
    types: &mut TypeArena,
    bytes: &'a [u8],
) -> Result<(Items, &'a [u8]), FormatError>
    ensures { Gives (λ x. (x.0, x.1.now)) result (items_read bytes.now) }
{
    let (uses, rest) = uses_at(alloc, types, bytes)?;
    let (constants, rest) = constants_at(alloc, rest)?;
    let (texts, rest) = types_at(alloc, types, rest)?;
    let items = Items {
        uses,
        constants,
        types: texts,
    };
    Ok((items, rest))
}
