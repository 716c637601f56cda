//! What no other step can say: taking store, input and output, and saving single bytes.

ghost use Rattle.std.specs.Prelude.{◌≡◌, OnOk, slice_get};
ghost use Rattle.clu_wir.specs.Numbers.{primitives};
ghost use Rattle.clu_wir.specs.declared.primitive.Primitive.TheVariants as primitive;
ghost use Rattle.rv_select.specs.Steps.{numbered_onto, primitive_onto, read_onto};
ghost use Rattle.rv_select.specs.Written.{written};

use crate::calls::STORE_FULL;
use crate::error::{Answer, SelectError};
use crate::register::Register::{First, Second, Store, StoreEnd, Value, Words as Travelling};
use crate::slots::{load_slot, save_slot};
use crate::words::Words;
use clu_wir::Primitive;
use rv_isa::Op;

/// The environment's calls for output and input.
const WRITE: i32 = 4;

const TAKE: i32 = 5;

const PEEK: i32 = 6;

/// The primitive of this number over the slots from this one on.
pub(crate) fn primitive(words: &mut Words, number: u32, slot: u32) -> Answer<()>
    ensures { OnOk result (written words.new ≡ numbered_onto (slice_get primitives number) slot (written words.old)) }
{
    match Primitive::of(number) {
        Some(Primitive::Allocate) => allocate(words, slot),
        Some(Primitive::Write) => write(words, slot),
        Some(Primitive::TakeByte) => read(words, TAKE, slot),
        Some(Primitive::PeekByte) => read(words, PEEK, slot),
        Some(Primitive::SaveByte) => save_byte(words, slot),
        None => Err(SelectError::NotYet),
    }
}

/// So many words of the store, or the end of the run where it has fewer.
fn allocate(words: &mut Words, slot: u32) -> Answer<()>
    ensures { OnOk result (written words.new ≡ primitive_onto primitive.Allocate slot (written words.old)) }
{
    load_slot(words, First, slot)?;
    words.three(Op::Sub, Second, StoreEnd, Store)?;
    words.imm(Op::Srli, Second, Second, 3)?;
    words.service_unless(Op::Bgeu, Second, First, STORE_FULL)?;
    save_slot(words, Store, slot)?;
    words.imm(Op::Slli, First, First, 3)?;
    words.three(Op::Add, Store, Store, First)
}

fn write(words: &mut Words, slot: u32) -> Answer<()>
    ensures { OnOk result (written words.new ≡ primitive_onto primitive.Write slot (written words.old)) }
{
    load_slot(words, Value, slot)?;
    load_slot(words, Travelling, slot.saturating_add(1))?;
    words.service(WRITE)
}

fn read(words: &mut Words, service: i32, slot: u32) -> Answer<()>
    ensures { OnOk result (written words.new ≡ read_onto service slot (written words.old)) }
{
    words.service(service)?;
    save_slot(words, Value, slot)
}

fn save_byte(words: &mut Words, slot: u32) -> Answer<()>
    ensures { OnOk result (written words.new ≡ primitive_onto primitive.SaveByte slot (written words.old)) }
{
    load_slot(words, First, slot)?;
    load_slot(words, Second, slot.saturating_add(1))?;
    words.save(Op::Sb, Second, First, 0)
}
