//! The arms of a region by their names.

ghost use Rattle.std.specs.Prelude.{◌≡◌, ◌<◌, length};
ghost use Rattle.std.specs.Option.{ForSome};
ghost use Rattle.clu_handlers.specs.Arms.{named};

use clu_wir::Arm;

/// The first arm of a name.
pub fn first_named(arms: &[Arm], name: &[u8]) -> Option<usize>
    ensures place { result ≡ named name.now arms.now }
    ensures within { ForSome result (λ arm. arm < length arms.now) }
{
    arms.iter().position(|arm| arm.name.as_slice() == name)
}
