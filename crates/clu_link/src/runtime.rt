//! What selection gives the linker beside code: the tables of regions, in which a part of the runtime searches.

use crate::places::Places;
use crate::texts::Texts;
use clu_base::u64_add;
use clu_object::Region;
use clu_reach::{LinkError, Program};
use rv_select::regions_table;
use std::alloc::Global;

/// The bytes of the runtime's table: the addresses of the strings `failure` and `unhandled exception: ` and of the start's
/// descriptor, and for each of the six traps those of its name and of its object.
pub const RUNTIME_TABLE: u64 = 120;

/// The bytes of the table of regions.
pub fn regions_bytes(alloc: Global, regions: &[Region]) -> Result<u64, LinkError> {
    let names = vec![in alloc; 0; count_arms(regions)]?;
    let table = regions_table(alloc, regions, 0, 0, &names)?;
    Ok((table.len() as u64).saturating_mul(8))
}

/// Adds the regions tables of all code but the parts of the runtime.
pub fn add_regions(
    alloc: Global,
    out: &mut Vec<u8>,
    program: &Program<'_>,
    texts: &Texts,
    places: &Places,
) -> Result<(), LinkError> {
    for (number, code) in program.codes.as_slice().iter().enumerate() {
        if !program.is_part(number) {
            let regions = code.routine().regions.as_slice();
            let names = names_of_arms(alloc, regions, texts, places)?;
            let (first, table) = places.of_code(number)?;
            let words = regions_table(alloc, regions, first, table, &names)?;
            add_words(out, &words)?;
        }
    }
    Ok(())
}

fn add_words(out: &mut Vec<u8>, words: &[u64]) -> Result<(), LinkError> {
    for word in words {
        u64_add(out, *word)?;
    }
    Ok(())
}

fn count_arms(regions: &[Region]) -> usize {
    let mut count = 0usize;
    for region in regions {
        count = count.saturating_add(region.arms.as_slice().len());
    }
    count
}

/// For each arm the address of the string of its name.
fn names_of_arms(
    alloc: Global,
    regions: &[Region],
    texts: &Texts,
    places: &Places,
) -> Result<Vec<u64>, LinkError> {
    let mut names = Vec::new(alloc);
    for region in regions {
        for arm in region.arms.as_slice() {
            let Some(text) = texts.strings.get_index_of(&arm.name) else {
                return Err(LinkError::NotYet);
            };
            names.push(places.string(text)?)?;
        }
    }
    Ok(names)
}
