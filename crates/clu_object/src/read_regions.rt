//! The regions of a routine, read from a file.

ghost use Rattle.std.specs.Prelude.{◌≡◌, ◌+◌, ◌<◌, ◌^◌, ◌++◌, ◌∷◌, [], length, IsTrue, IfOk, OnOk};
ghost use Rattle.clu_specs.specs.Reading.{Gives};
ghost use Rattle.clu_format.specs.Lists.{counted};
ghost use Rattle.clu_object.specs.Nesting.{span, range_spans, nests};
ghost use Rattle.clu_object.specs.ObjectReading.{arm_name_read, range_read, target_read, arm_read, arms_read, parent_of, parent_read, region_read, next_region_read, regions_read};

use crate::names::is_arm_name;
use crate::object::Region;
use clu_base::{Bytes, FormatError, Memory, Sequence};
use clu_format::{fault, text16_field, u32_field};
use clu_handlers::{NO_REGION, Region as Range, Regions};
use clu_wir::Arm;
use std::alloc::Global;

/// Adds a range inside the range `parent`, if it may be added to these. Gives whether it may.
#[tactic(auto, using(crate::proofs::NestingLaws::nests_is, crate::proofs::NestingLaws::spans_added))]
pub fn nests(
    alloc: Global,
    ranges: &mut Regions,
    first: u32,
    last: u32,
    parent: Option<u32>,
) -> Result<bool, Memory>
    requires { length ranges.old + 1 < 2 ^ 32 }
    ensures test { IfOk result (λ b. b ≡ nests (range_spans ranges.old) first last parent) }
    ensures added { IfOk result (λ b. IsTrue b → range_spans ranges.new ≡ range_spans ranges.old ++ (first, last) ∷ []) }
{
    if !ranges.can_add(first, last, parent) {
        return Ok(false);
    }
    ranges.insert(Range {
        first,
        last,
        parent,
        arms: Vec::new(alloc),
    })?;
    Ok(true)
}

/// Regions after their count, in a routine of so many code words.
pub fn regions_at(
    alloc: Global,
    words: usize,
    bytes: &[u8],
) -> Result<(Sequence<Region>, &[u8]), FormatError>
    ensures { Gives (λ x. (x.0, x.1.now)) result (regions_read words bytes.now) }
{
    let (count, rest) = u32_field(bytes)?;
    let mut ranges = Regions::new(alloc);
    more_regions_at(alloc, &mut ranges, words, count, rest)
}

/// So many regions, each nested in those before it.
fn more_regions_at<'a>(
    alloc: Global,
    ranges: &mut Regions,
    words: usize,
    count: u32,
    bytes: &'a [u8],
) -> Result<(Sequence<Region>, &'a [u8]), FormatError>
    requires { ranges.old ≡ [] }
    ensures { Gives (λ x. (x.0, x.1.now)) result (counted (next_region_read words) count [] bytes.now) }
{
    let mut regions = Vec::new(alloc);
    let mut rest = bytes;
    for _ in 0..count {
        let (region, after) = region_at(alloc, ranges, words, rest)?;
        regions.push(region)?;
        rest = after;
    }
    Ok((Sequence::from_vec(regions), rest))
}

#[tactic(auto, unfolding(crate::specs::ObjectReading::region_read))]
fn region_at<'a>(
    alloc: Global,
    ranges: &mut Regions,
    words: usize,
    bytes: &'a [u8],
) -> Result<(Region, &'a [u8]), FormatError>
    requires { length ranges.old + 1 < 2 ^ 32 }
    ensures reads { Gives (λ x. (x.0, x.1.now)) result (region_read words (range_spans ranges.old) bytes.now) }
    ensures added { IfOk result (λ x. range_spans ranges.new ≡ range_spans ranges.old ++ span x.0 ∷ []) }
{
    let ((first, last), rest) = range_at(words, bytes)?;
    let (parent, rest) = parent_at(alloc, ranges, first, last, rest)?;
    let (arms, rest) = arms_at(alloc, words, rest)?;
    let region = Region {
        first,
        last,
        parent,
        arms,
    };
    Ok((region, rest))
}

/// The first and the last code word of a region.
fn range_at(words: usize, bytes: &[u8]) -> Result<((u32, u32), &[u8]), FormatError>
    ensures { Gives (λ x. (x.0, x.1.now)) result (range_read words bytes.now) }
{
    let (first, rest) = u32_field(bytes)?;
    if (first as usize) >= words {
        return Err(fault(bytes));
    }
    let (last, after) = u32_field(rest)?;
    if last < first {
        return Err(fault(bytes));
    }
    if (last as usize) >= words {
        return Err(fault(rest));
    }
    Ok(((first, last), after))
}

/// The region round a range. A range that does not nest in those before it is refused here.
fn parent_at<'a>(
    alloc: Global,
    ranges: &mut Regions,
    first: u32,
    last: u32,
    bytes: &'a [u8],
) -> Result<(Option<u32>, &'a [u8]), FormatError>
    requires { length ranges.old + 1 < 2 ^ 32 }
    ensures reads { Gives (λ x. (x.0, x.1.now)) result (parent_read (range_spans ranges.old) first last bytes.now) }
    ensures added { OnOk result (range_spans ranges.new ≡ range_spans ranges.old ++ (first, last) ∷ []) }
{
    let (number, rest) = u32_field(bytes)?;
    let parent = parent_of(number);
    if !nests(alloc, ranges, first, last, parent)? {
        return Err(fault(bytes));
    }
    Ok((parent, rest))
}

fn parent_of(number: u32) -> Option<u32>
    ensures { result ≡ parent_of number }
{
    if number == NO_REGION {
        None
    } else {
        Some(number)
    }
}

/// Arms after their count.
fn arms_at(alloc: Global, words: usize, bytes: &[u8]) -> Result<(Sequence<Arm>, &[u8]), FormatError>
    ensures { Gives (λ x. (x.0, x.1.now)) result (arms_read words bytes.now) }
{
    let (count, rest) = u32_field(bytes)?;
    more_arms_at(alloc, words, count, rest)
}

fn more_arms_at(
    alloc: Global,
    words: usize,
    count: u32,
    bytes: &[u8],
) -> Result<(Sequence<Arm>, &[u8]), FormatError>
    ensures { Gives (λ x. (x.0, x.1.now)) result (counted (λ made. arm_read words) count [] bytes.now) }
{
    let mut arms = Vec::new(alloc);
    let mut rest = bytes;
    for _ in 0..count {
        let (arm, after) = arm_at(alloc, words, rest)?;
        arms.push(arm)?;
        rest = after;
    }
    Ok((Sequence::from_vec(arms), rest))
}

fn arm_at(alloc: Global, words: usize, bytes: &[u8]) -> Result<(Arm, &[u8]), FormatError>
    ensures { Gives (λ x. (x.0, x.1.now)) result (arm_read words bytes.now) }
{
    let (name, rest) = arm_name_at(bytes)?;
    let (target, rest) = target_at(words, rest)?;
    let (mark, rest) = u32_field(rest)?;
    let name = Bytes::from_slice(alloc, name)?;
    Ok((Arm { name, target, mark }, rest))
}

fn arm_name_at(bytes: &[u8]) -> Result<(&[u8], &[u8]), FormatError>
    ensures { Gives (λ x. (x.0.now, x.1.now)) result (arm_name_read bytes.now) }
{
    let (name, rest) = text16_field(bytes)?;
    if !is_arm_name(name) {
        return Err(fault(bytes));
    }
    Ok((name, rest))
}

fn target_at(words: usize, bytes: &[u8]) -> Result<(u32, &[u8]), FormatError>
    ensures { Gives (λ x. (x.0, x.1.now)) result (target_read words bytes.now) }
{
    let (target, rest) = u32_field(bytes)?;
    if (target as usize) >= words {
        return Err(fault(bytes));
    }
    Ok((target, rest))
}
