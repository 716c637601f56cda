//! The image of a program: what the machine has in memory when it starts.

ghost use Rattle.std.specs.Prelude.{◌≡◌, ◌↔◌, IsSome, IfSome};

use std::marker::Model;

/// A program as the machine starts it. Contracts see it as its contents.
#[derive(Drop)]
pub struct Image {
    /// The code word at which the program starts, counted from 0.
    pub entry: u32,
    /// The code, in words.
    pub code: Vec<u32>,
    /// The bytes after the code that the program only reads.
    pub fixed: Vec<u8>,
    /// The bytes after those, which it may write.
    pub area: Vec<u8>,
}

impl Model for Image {
    ghost use Rattle.rv_isa.specs.Image.{Contents, IsImage, contents};

    ghost Value = { Contents };

    ghost view = { λ i. contents i.entry i.code.items i.fixed.items i.area.items };

    ghost invariant = { λ i. IsImage (contents i.entry i.code.items i.fixed.items i.area.items) };
}

impl Image {
    ghost use Rattle.rv_isa.specs.Image.{IsImage, contents};

    /// The most code words of an image.
    pub const MAX_WORDS: usize = 16_793_600;

    /// The most bytes of the fixed part and the data together.
    pub const MAX_BYTES: usize = 67_174_400;

    /// The image of these parts. `None` exactly where a bound fails: the entry is a place in the
    /// code, the code has at most 16,793,600 words, the fixed part and the data are multiples of
    /// 8 bytes long and together at most 67,174,400 bytes.
    pub fn new(entry: u32, code: Vec<u32>, fixed: Vec<u8>, area: Vec<u8>) -> Option<Image>
        ensures valid { IsSome result ↔ IsImage (contents entry code.items fixed.items area.items) }
        ensures value { IfSome result (λ i. i ≡ contents entry code.items fixed.items area.items) }
    {
        let entered = (entry as usize) < code.len() && code.len() <= Self::MAX_WORDS;
        let aligned = fixed.len() % 8 == 0 && area.len() % 8 == 0;
        let small = fixed.len() <= Self::MAX_BYTES && area.len() <= Self::MAX_BYTES - fixed.len();
        if entered && aligned && small {
            Some(Image {
                entry,
                code,
                fixed,
                area,
            })
        } else {
            None
        }
    }
}
