//! A list of constants.

ghost use Rattle.std.specs.Prelude.{◌≡◌, ◌++◌, ◌∷◌, [], List, IfOk, OnErr, OnOk, length, slice_get};
ghost use Rattle.std.specs.Option.{option_map};
ghost use Rattle.clu_base.specs.declared.constants.Const.{Const};
ghost use Rattle.clu_constants.specs.Held.{IsBegun, IsJoinedTo, length_of};
ghost use Rattle.clu_constants.specs.Outlines.{outlined};

use crate::held::{Held, copy_at, outline_at};
use crate::outline::Outline;
use clu_base::{Const, Memory};
use std::alloc::Global;
use std::marker::Model;

/// A list of constants. Their places count from 0.
#[derive(Drop)]
pub struct Constants {
    held: Vec<Held>,
}

impl Model for Constants {
    ghost use Rattle.std.specs.Prelude.{[], List};
    ghost use Rattle.clu_base.specs.declared.constants.Const.{Const};
    ghost use Rattle.clu_constants.specs.Held.{AreHeld, listed};

    ghost Value = { List Const };

    ghost view = { λ c. listed c.held.items };

    ghost invariant = { λ c. AreHeld [] c.held.items };
}

impl Constants {
    /// No constants.
    pub fn new(alloc: Global) -> Constants
        ensures { result ≡ [] }
    {
        Constants {
            held: Vec::new(alloc),
        }
    }

    /// How many there are.
    pub fn len(&self) -> usize
        ensures { result ≡ length self.now }
    {
        self.held.as_slice().len()
    }

    /// The constant of a place, but for its text.
    pub fn outline(&self, place: usize) -> Option<Outline>
        ensures { result ≡ option_map outlined (slice_get self.now place) }
    {
        outline_at(self.held.as_slice(), place)
    }

    /// The constant of a place, by itself. The only error is that memory runs out.
    pub fn copy(&self, alloc: Global, place: usize) -> Result<Option<Const>, Memory>
        ensures { IfOk result (λ constant. constant ≡ slice_get self.now place) }
    {
        copy_at(alloc, self.held.as_slice(), place)
    }

    /// Adds a constant. The only error is that memory runs out, and then nothing is added.
    pub fn push(&mut self, constant: Const) -> Result<(), Memory>
        ensures added { OnOk result (self.new ≡ self.old ++ constant ∷ []) }
        ensures refused { OnErr result (self.new ≡ self.old) }
    {
        self.held.push(Held::Whole(constant))?;
        Ok(())
    }

    /// How many bytes the string of a place has; None if no string is there.
    fn length(&self, place: usize) -> Option<u64>
        ensures { result ≡ length_of (slice_get self.now place) }
    {
        match self.outline(place) {
            Some(Outline::Str(length)) => Some(length),
            _ => None,
        }
    }

    /// The place of the string at `left` with that at `right` behind it, which may be added; None if one of them is no
    /// string. The only error is that memory runs out, and then nothing is added.
    pub fn join(&mut self, left: usize, right: usize) -> Result<Option<usize>, Memory>
        ensures joined { IfOk result (IsJoinedTo self.old self.new left right) }
        ensures kept { IsBegun self.old self.new }
    {
        let Some(first) = self.length(left) else {
            return Ok(None);
        };
        let Some(second) = self.length(right) else {
            return Ok(None);
        };
        if first == 0 {
            return Ok(Some(right));
        }
        if second == 0 {
            return Ok(Some(left));
        }
        let place = self.len();
        self.held
            .push(Held::Joined(left, right, first.saturating_add(second)))?;
        Ok(Some(place))
    }
}
