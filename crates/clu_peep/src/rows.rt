//! The rows: which of two neighbouring places goes.

ghost use Rattle.std.specs.Prelude.{◌≡◌};
ghost use Rattle.clu_peep.specs.Rows.{goes_alone, goes_first, goes_second};

use crate::places::Place;
use crate::steps::{is_back, is_idle, jump_of, label_of, move_of, same, word_slot};

/// `Move(a, a)` goes.
pub fn goes_alone(place: &Place) -> bool
    ensures { result ≡ goes_alone place.now }
{
    is_idle(move_of(&place.step))
}

/// Of `Move(a, b)` and `Move(b, a)` the second goes, if no arm begins there.
pub fn goes_second(first: &Place, second: &Place) -> bool
    ensures { result ≡ goes_second first.now second.now }
{
    !second.is_target && is_back(move_of(&second.step), move_of(&first.step))
}

/// Of `Jump(l)` and `Label(l)` the first goes, and of `Word(a, v)` and `Word(a, w)`, if no arm begins at the second.
pub fn goes_first(first: &Place, second: &Place) -> bool
    ensures { result ≡ goes_first first.now second.now }
{
    same(label_of(&second.step), jump_of(&first.step))
        || (!second.is_target && same(word_slot(&second.step), word_slot(&first.step)))
}
