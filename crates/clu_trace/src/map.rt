//! What a trace knows of a program's image.

ghost use Rattle.std.specs.Prelude.{◌≡◌, ◌&&◌, ◌==◌, ◌*◌, ◌+◌, ◌<◌, ◌≤◌, find, length, slice_index_or, [], nat_le, nat_lt};
ghost use Rattle.std.specs.List.{list_all};
ghost use Rattle.std.specs.Option.{option_copied};
ghost use Rattle.clu_trace.specs.Maps.{ascend, code_start, is_map_of, tells as tells_names};

use crate::instance::Instance;
use clu_base::{Bytes, Sequence};
use rv_isa::Image;

/// The address of the first word of an image's code.
const CODE_START: u64 = 0x1_0000;

/// The entry of a program's search part, its instances and their names.
#[derive(Drop)]
pub struct TraceMap {
    /// The address of the word where the part of the runtime that searches for arms is entered.
    pub search: u64,
    pub names: Sequence<Bytes>,
    pub instances: Sequence<Instance>,
}

impl TraceMap {
    /// The name of this number.
    pub fn name(&self, n: u32) -> &Bytes
        requires { n < length self.now.names }
        ensures { result.now ≡ slice_index_or self.now.names n [] }
    {
        &self.names.as_slice()[n as usize]
    }

    /// Whether it is a map of the image.
    pub fn is_map_of(&self, image: &Image) -> bool
        ensures { result ≡ is_map_of self.now image.now }
    {
        let words = image.code.len() as u64;
        let fixed = CODE_START + 8 * ((words + 1) / 2);
        let data = fixed + image.fixed.len() as u64;
        let instances = self.instances.as_slice();
        let names = self.names.as_slice().len();
        self.is_in_code(words) && ascend(instances, fixed, data) && tell(instances, names)
    }

    /// Whether the search part is entered inside a code of so many words.
    fn is_in_code(&self, words: u64) -> bool
        requires { words ≤ 16793600 }
        ensures { result ≡ (nat_le code_start self.now.search && nat_lt self.now.search (code_start + 4 * words)) }
    {
        CODE_START <= self.search && self.search < CODE_START + 4 * words
    }

    /// The instance with this link table.
    pub(crate) fn instance(&self, table: u64) -> Option<&Instance>
        ensures { option_copied result ≡ find (λ i. i.table == table) self.now.instances }
    {
        self.instances.as_slice().iter().find(
            |instance| -> bool
                ensures { result ≡ (instance.now.now.table == table) }
            { instance.table == table },
        )
    }
}

/// Whether the link tables ascend from an address on, below another.
fn ascend(instances: &[Instance], from: u64, below: u64) -> bool
    ensures { result ≡ ascend from below instances.now }
{
    let mut least = from;
    for instance in instances {
        if instance.table < least || instance.table >= below {
            return false;
        }
        least = instance.table + 1;
    }
    true
}

/// Whether the instances tell numbers of so many names.
fn tell(instances: &[Instance], names: usize) -> bool
    ensures { result ≡ list_all (tells_names names) instances.now }
{
    for instance in instances {
        if !tells(instance.entries.as_slice(), names) {
            return false;
        }
    }
    true
}

fn tells(entries: &[u32], names: usize) -> bool
    ensures { result ≡ list_all (λ n. nat_lt n names) entries.now }
{
    for n in entries {
        if *n as usize >= names {
            return false;
        }
    }
    true
}
