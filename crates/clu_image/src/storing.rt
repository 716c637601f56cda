//! From images to bytes.

ghost use Rattle.std.specs.Prelude.{◌≡◌, ◌++◌, IfOk, OnOk};
ghost use Rattle.std.specs.List.{flat_map};
ghost use Rattle.clu_image.specs.ImageFile.{number_bytes, head_bytes, image_bytes, IsFileOf};

use clu_base::{Bytes, Memory, u32_add};
use rv_isa::Image;
use std::alloc::Global;

/// The file of an image, version 2. The only error is that memory runs out.
pub fn store(alloc: Global, image: &Image) -> Result<Bytes, Memory>
    ensures bytes { IfOk result (λ b. b ≡ image_bytes image.now) }
    ensures file { IfOk result (λ b. IsFileOf b image.now) }
{
    let mut out = head(alloc, image)?;
    numbers_add(&mut out, &image.code)?;
    out.extend_from_slice(&image.fixed)?;
    out.extend_from_slice(&image.area)?;
    Ok(Bytes::from_vec(out))
}

/// The file up to its code.
fn head(alloc: Global, image: &Image) -> Result<Vec<u8>, Memory>
    ensures { IfOk result (λ b. b.items ≡ head_bytes image.now) }
{
    let size = 24 + 4 * image.code.len() + image.fixed.len() + image.area.len();
    let mut out = Vec::with_capacity(alloc, size)?;
    out.extend_from_slice(b"CLUI")?;
    u32_add(&mut out, 2)?;
    u32_add(&mut out, image.entry)?;
    u32_add(&mut out, image.code.len() as u32)?;
    u32_add(&mut out, image.fixed.len() as u32)?;
    u32_add(&mut out, image.area.len() as u32)?;
    Ok(out)
}

/// Appends the bytes of numbers. The only error is that memory runs out.
fn numbers_add(out: &mut Vec<u8>, numbers: &[u32]) -> Result<(), Memory>
    ensures { OnOk result (out.new.items ≡ out.old.items ++ flat_map number_bytes numbers.now) }
{
    for number in numbers {
        u32_add(out, *number)?;
    }
    Ok(())
}
