//! Types as texts, written by a loop over a stack of pieces.

ghost use Rattle.std.specs.Prelude.{◌≡◌, ◌<◌, ◌++◌, [], length, IfOk, OnOk, IsTrue};
ghost use Rattle.clu_types.specs.Arena.{type_at, types_of};
ghost use Rattle.clu_specs.specs.Texts.{type_text};
ghost use Rattle.clu_specs.specs.Pieces.{piece_text, stack_text};

use crate::constants::{put, put_constant, put_parameter};
use crate::pieces::{
    Piece, push, push_more_actuals, push_more_fields, push_more_signals, push_more_types, push_type,
};
use crate::write_specs::{push_more_demands, push_more_kinds, push_operations};
use clu_base::{Bytes, Memory};
use clu_types::{TypeArena, TypeId};
use std::alloc::Global;

/// The most pieces that a text is written of. A type that shares its parts is small, and its text can double with
/// each level: one that has more pieces is refused like one that no memory holds, before it takes the memory of the
/// machine.
const MOST_PIECES: u64 = 4_194_304;

/// The text of a type, by the grammar in docs/formats.md. The only error is that memory runs out, or that the text has
/// more than [`MOST_PIECES`].
pub fn type_text(alloc: Global, types: &TypeArena, t: TypeId) -> Result<Bytes, Memory>
    requires { t.0 < length types.now }
    ensures { IfOk result (λ text. text ≡ type_text (type_at (types_of types.now) t)) }
{
    let mut stack = Vec::new(alloc);
    push(&mut stack, &[Piece::Type(t)])?;
    written(alloc, types, &mut stack)
}

/// The text of the pieces on the stack.
pub fn written<'a>(
    alloc: Global,
    types: &'a TypeArena,
    stack: &mut Vec<Piece<'a>>,
) -> Result<Bytes, Memory>
    ensures { IfOk result (λ text. text ≡ stack_text (types_of types.now) stack.old.items) }
{
    let mut out = Vec::new(alloc);
    write(&mut out, types, stack)?;
    Ok(Bytes::from_vec(out))
}

/// Appends the text of the pieces on the stack.
fn write<'a>(
    out: &mut Vec<u8>,
    types: &'a TypeArena,
    stack: &mut Vec<Piece<'a>>,
) -> Result<(), Memory>
    ensures { OnOk result (out.new.items ≡ out.old.items ++ stack_text (types_of types.now) stack.old.items) }
{
    if write_some(out, types, stack)? {
        Ok(())
    } else {
        Err(Memory)
    }
}

/// Appends the texts of the pieces from the top, at most [`MOST_PIECES`]. Gives whether all was written.
#[tactic(auto, using(crate::proofs::Writing::over_last))]
fn write_some<'a>(
    out: &mut Vec<u8>,
    types: &'a TypeArena,
    stack: &mut Vec<Piece<'a>>,
) -> Result<bool, Memory>
    ensures kept { OnOk result (out.new.items ++ stack_text (types_of types.now) stack.new.items ≡ out.old.items ++ stack_text (types_of types.now) stack.old.items) }
    ensures all { IfOk result (λ done. IsTrue done → stack.new.items ≡ []) }
{
    for _ in 0..MOST_PIECES {
        match stack.pop() {
            None => return Ok(true),
            Some(piece) => write_piece(out, types, stack, piece)?,
        }
    }
    Ok(false)
}

/// Appends the text of a piece that has no parts, and puts the parts of any other on the stack.
fn write_piece<'a>(
    out: &mut Vec<u8>,
    types: &'a TypeArena,
    stack: &mut Vec<Piece<'a>>,
    piece: Piece<'a>,
) -> Result<(), Memory>
    ensures { OnOk result (out.new.items ++ stack_text (types_of types.now) stack.new.items ≡ out.old.items ++ (piece_text (types_of types.now) piece.entry ++ stack_text (types_of types.now) stack.old.items)) }
{
    match piece {
        Piece::Text(bytes) => put(out, bytes),
        Piece::Parameter(mark, n) => put_parameter(out, mark, n),
        Piece::Constant(constant) => put_constant(out, constant),
        Piece::Type(id) => push_type(stack, types, id),
        Piece::Types(ids) => push_more_types(stack, ids),
        Piece::Fields(fields) => push_more_fields(stack, fields),
        Piece::Signals(signals) => push_more_signals(stack, signals),
        Piece::Actuals(actuals) => push_more_actuals(stack, actuals),
        Piece::Kinds(kinds) => push_more_kinds(stack, kinds),
        Piece::Demands(demands) => push_more_demands(stack, demands),
        Piece::Operations(ops) => push_operations(stack, ops),
    }
}
