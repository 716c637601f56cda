//! Uses as texts.

ghost use Rattle.std.specs.Prelude.{◌≡◌, ◌++◌, List, length, IfOk, OnOk};
ghost use Rattle.clu_types.specs.CluType.{CluType};
ghost use Rattle.clu_types.specs.Arena.{types_of};
ghost use Rattle.clu_specs.specs.Seen.{use_text, target_seen};
ghost use Rattle.clu_specs.specs.Uses.{TargetBelow};
ghost use Rattle.clu_specs.specs.Pieces.{stack_text};

use crate::pieces::{Piece, push, push_cluster};
use crate::read_uses::Target;
use crate::write_types::written;
use clu_base::{Bytes, Memory};
use clu_types::TypeArena;
use std::alloc::Global;

/// The text of a use, by the grammar in docs/formats.md. The only error is that memory runs out, or that the text has
/// more than 2^22 pieces.
pub fn use_text(alloc: Global, types: &TypeArena, u: &Target) -> Result<Bytes, Memory>
    requires { TargetBelow (length types.now) u.now }
    ensures { IfOk result (λ text. text ≡ use_text (target_seen (types_of types.now) u.now)) }
{
    let mut stack = Vec::new(alloc);
    push_use(&mut stack, u)?;
    written(alloc, types, &mut stack)
}

fn push_use<'a>(stack: &mut Vec<Piece<'a>>, u: &'a Target) -> Result<(), Memory>
    ensures { (ks : List CluType) → OnOk result (stack_text ks stack.new.items ≡ use_text (target_seen ks u.now) ++ stack_text ks stack.old.items) }
{
    match u {
        Target::Module(name, actuals) => push_cluster(stack, name.as_slice(), actuals.as_slice()),
        Target::Op(of, name) => push(
            stack,
            &[
                Piece::Text(name.as_slice()),
                Piece::Text(b"$"),
                Piece::Type(*of),
            ],
        ),
        Target::OwnSetUp(of) => push(stack, &[Piece::Text(b"$own"), Piece::Type(*of)]),
        Target::ForceOf(of) => push(stack, &[Piece::Text(b"$force"), Piece::Type(*of)]),
    }
}
