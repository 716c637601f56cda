//! Places in a source: how a line and a column go on over its bytes.

ghost use Rattle.std.specs.Prelude.{◌≡◌, ◌+◌, ◌<◌, ◌^◌, length};
ghost use Rattle.clu_lexer.specs.Places.{place_after};

use clu_base::Place;

/// The place after the bytes, which begin at `place`.
pub fn advance(place: Place, bytes: &[u8]) -> Place
    requires lines { place.line + length bytes.now < 2 ^ 32 }
    requires columns { place.col + length bytes.now < 2 ^ 32 }
    ensures { result ≡ place_after place bytes.now }
{
    let mut place = place;
    for b in bytes {
        if *b == b'\n' {
            place = Place {
                line: place.line + 1,
                col: 1,
            };
        } else {
            place = Place {
                line: place.line,
                col: place.col + 1,
            };
        }
    }
    place
}
