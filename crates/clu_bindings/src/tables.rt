//! Tables by number, of which what isn't there is nothing.

ghost use Rattle.std.specs.Prelude.{◌≡◌, get_or, set, slice_get, true};
ghost use Rattle.clu_head.specs.Refused.{is_set};
ghost use Rattle.clu_bindings.specs.Tables.{optional, items_at};

/// The number at a place of a table; 0 beyond its end.
pub fn number_at(table: &[u32], place: usize) -> u32
    ensures { result ≡ get_or table.now place 0 }
{
    table.get(place).copied().unwrap_or(0)
}

/// What a table has at a place; None beyond its end.
pub fn optional_at<T: Copy>(table: &[Option<T>], place: usize) -> Option<T>
    ensures { result ≡ optional (slice_get table.now place) }
{
    table.get(place).copied().flatten()
}

/// Whether a table is set at a place; not so beyond its end.
pub fn is_set(table: &[bool], place: usize) -> bool
    ensures { result ≡ is_set (slice_get table.now place) }
{
    table.get(place).copied().unwrap_or(false)
}

/// Sets a table at a place, unless it is beyond the end.
pub fn set(table: &mut [bool], place: usize)
    ensures { table.new ≡ set table.old place true }
{
    if place < table.len() {
        table[place] = true;
    }
}

/// The items of the node n in a table in which those of each node stand together, from where `starts` says.
#[tactic(auto, unfolding(crate::specs::Tables::items_at))]
pub fn items_of<'a, T>(table: &'a [T], starts: &[usize], n: u32) -> &'a [T]
    ensures { result.now ≡ items_at table.now starts.now n }
{
    let from = starts.get(n as usize).copied().unwrap_or(table.len());
    let next = (n as usize).saturating_add(1);
    let to = starts.get(next).copied().unwrap_or(table.len());
    table.get(from..to).unwrap_or(&[])
}
