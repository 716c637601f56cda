//! The table in which the arm of an exception is searched.

ghost use Rattle.std.specs.Prelude.{◌≡◌, IfOk, OnOk, length};
ghost use Rattle.rv_select.specs.Tables.{AreCutsOf, IsTable, SameRanges, added, arm_row, arms_behind, behind, code_address as address_of_code, cut_row as row_of_cut, cuts_behind, is_others as has_all, named_behind, others_behind, own_behind, region_address as address_of_region, region_row as row_of_region, regions_behind, row_address, table_words};

use crate::error::{Answer, SelectError};
use clu_base::Memory;
use clu_handlers::{Cut, NO_REGION, Region as Ranged, Regions};
use clu_object::Region;
use clu_wir::Arm;
use std::alloc::Global;

/// The bytes of a word of code and of a word of the table.
const CODE: u64 = 4;

const WORD: u64 = 8;

/// The bytes of a row of a cut, and of a row of a region or an arm.
const CUT: u64 = 16;

const ROW: u64 = 24;

/// The regions table of a routine, in words, where `code` is the address of the routine's first word, `at` the address
/// of the table, and `names` has for each arm of each region, in their order, the address of the string of its name
/// (any word for an arm of all names). The answer is `NotYet` where `names` has fewer, and where the regions are not nested.
///
/// The table is:
/// - the number of cuts, at least 1;
/// - the cuts, ascending, two words each: the address of the code word from which on it holds, the first of which is the
///   routine's first word, and the address of the row of the innermost region there, or 0;
/// - the rows of the regions, three words each: the address of the parent's row or 0, the address of the row of its first
///   arm, and the address after the row of its last arm;
/// - the rows of the arms, three words each: the address of the string of the name, or 0 for all names, the address of the
///   code word at which the arm begins, and how many bytes the word with the top of the stack, to which the arm cuts, is
///   from the place of the frame. In each region an arm of all names comes last.
pub fn regions_table(
    alloc: Global,
    regions: &[Region],
    code: u64,
    at: u64,
    names: &[u64],
) -> Result<Vec<u64>, SelectError>
    ensures { IfOk result (λ words. IsTable regions.now code at names.now words.items) }
{
    let cuts = cuts(alloc, regions)?;
    let rows = behind(behind(at, 1, WORD), cuts.len() as u64, CUT);
    table(
        alloc,
        cuts.as_slice(),
        regions,
        Places { code, rows },
        names,
    )
}

/// The addresses of the routine's first word and of the first row of a region.
#[derive(Clone, Copy)]
struct Places {
    code: u64,
    rows: u64,
}

/// The words of the table.
fn table(
    alloc: Global,
    cuts: &[Cut],
    regions: &[Region],
    places: Places,
    names: &[u64],
) -> Answer<Vec<u64>>
    ensures { IfOk result (λ words. words.items ≡ table_words cuts.now regions.now places.code places.rows names.now) }
{
    let mut words = vec![in alloc; cuts.len() as u64]?;
    places.add_cuts(&mut words, cuts)?;
    places.add_regions(&mut words, regions)?;
    places.add_arms(&mut words, regions, names)?;
    Ok(words)
}

impl Places {
    fn code_address(self, word: u32) -> u64
        ensures { result ≡ address_of_code self.code word }
    {
        behind(self.code, u64::from(word), CODE)
    }

    /// The address of the row of a region, or 0.
    fn region_address(self, region: Option<u32>) -> u64
        ensures { result ≡ address_of_region self.rows region }
    {
        match region {
            Some(number) => behind(self.rows, u64::from(number), ROW),
            None => 0,
        }
    }

    fn cut_row(self, cut: Cut) -> [u64; 2]
        ensures { result ≡ row_of_cut self.code self.rows cut }
    {
        let from = self.code_address(cut.from);
        if cut.region == NO_REGION {
            [from, 0]
        } else {
            [from, behind(self.rows, u64::from(cut.region), ROW)]
        }
    }

    fn add_cuts(self, words: &mut Vec<u64>, cuts: &[Cut]) -> Result<(), Memory>
        ensures { OnOk result (words.new.items ≡ cuts_behind self.code self.rows words.old.items cuts.now) }
    {
        for cut in cuts {
            words.extend_from_slice(&self.cut_row(*cut))?;
        }
        Ok(())
    }

    /// The row of a region whose arms begin at an address.
    fn region_row(self, region: &Region, arms: u64) -> [u64; 3]
        ensures { result ≡ row_of_region self.rows arms region.now }
    {
        [
            self.region_address(region.parent),
            arms,
            arms_end(region, arms),
        ]
    }

    fn add_regions(self, words: &mut Vec<u64>, regions: &[Region]) -> Result<(), Memory>
        ensures { OnOk result (words.new.items ≡ regions_behind self.rows (row_address self.rows (length regions.now)) words.old.items regions.now) }
    {
        let mut arms = behind(self.rows, regions.len() as u64, ROW);
        for region in regions {
            words.extend_from_slice(&self.region_row(region, arms))?;
            arms = arms_end(region, arms);
        }
        Ok(())
    }

    fn add_arms(self, words: &mut Vec<u64>, regions: &[Region], names: &[u64]) -> Answer<()>
        ensures { OnOk result (words.new.items ≡ arms_behind self.code words.old.items regions.now names.now) }
    {
        let mut names = names;
        for region in regions {
            let arms = region.arms.as_slice();
            let Some((own, others)) = names.split_at_checked(arms.len()) else {
                return Err(SelectError::NotYet);
            };
            self.add_own(words, arms, own)?;
            names = others;
        }
        Ok(())
    }

    /// The arms of a region.
    fn add_own(self, words: &mut Vec<u64>, arms: &[Arm], names: &[u64]) -> Result<(), Memory>
        ensures { OnOk result (words.new.items ≡ own_behind self.code words.old.items arms.now names.now) }
    {
        self.add_named(words, arms, names)?;
        self.add_others(words, arms)
    }

    fn add_named(self, words: &mut Vec<u64>, arms: &[Arm], names: &[u64]) -> Result<(), Memory>
        ensures { OnOk result (words.new.items ≡ named_behind self.code words.old.items arms.now names.now) }
    {
        let mut names = names;
        for arm in arms {
            let [name, rest @ ..] = names else {
                return Ok(());
            };
            self.add_arm(words, !is_others(arm), *name, arm)?;
            names = rest;
        }
        Ok(())
    }

    fn add_others(self, words: &mut Vec<u64>, arms: &[Arm]) -> Result<(), Memory>
        ensures { OnOk result (words.new.items ≡ others_behind self.code words.old.items arms.now) }
    {
        for arm in arms {
            self.add_arm(words, is_others(arm), 0, arm)?;
        }
        Ok(())
    }

    /// The row of an arm where it is wanted.
    fn add_arm(self, words: &mut Vec<u64>, wanted: bool, name: u64, arm: &Arm) -> Result<(), Memory>
        ensures { OnOk result (words.new.items ≡ added wanted words.old.items (arm_row self.code name arm.now)) }
    {
        if wanted {
            let row = [
                name,
                self.code_address(arm.target),
                u64::from(arm.mark) * WORD,
            ];
            words.extend_from_slice(&row)?;
        }
        Ok(())
    }
}

/// The address so many items of a size after another.
fn behind(address: u64, number: u64, size: u64) -> u64
    ensures { result ≡ behind address number size }
{
    address.wrapping_add(number.wrapping_mul(size))
}

/// The address after the rows of a region's arms, which begin at an address.
fn arms_end(region: &Region, arms: u64) -> u64
    ensures { result ≡ row_address arms (length region.now.arms) }
{
    behind(arms, region.arms.as_slice().len() as u64, ROW)
}

/// Whether the arm takes all names.
fn is_others(arm: &Arm) -> bool
    ensures { result ≡ has_all arm.now }
{
    arm.name.as_slice().is_empty()
}

/// The cuts of a routine's regions.
fn cuts(alloc: Global, regions: &[Region]) -> Answer<Vec<Cut>>
    ensures { IfOk result (λ cuts. AreCutsOf regions.now cuts.items) }
{
    let ranged = ranges(alloc, regions)?;
    Ok(ranged.cuts(alloc)?)
}

/// The regions by their ranges alone, without arms.
fn ranges(alloc: Global, regions: &[Region]) -> Answer<Regions>
    ensures { IfOk result (λ ranges. SameRanges ranges regions.now) }
{
    let mut ranges = Regions::new(alloc);
    for region in regions {
        if ranges.len() >= NO_REGION as usize
            || !ranges.can_add(region.first, region.last, region.parent)
        {
            return Err(SelectError::NotYet);
        }
        ranges.insert(Ranged {
            first: region.first,
            last: region.last,
            parent: region.parent,
            arms: Vec::new(alloc),
        })?;
    }
    Ok(ranges)
}
