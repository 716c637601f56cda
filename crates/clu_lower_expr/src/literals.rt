//! The words of literals and of constants (CLU Reference Manual, section 5).

ghost use Rattle.std.specs.Prelude.{◌≡◌, IfOk, OnOk, Some};
ghost use Rattle.clu_wir.specs.Plain.{expr_of};
ghost use Rattle.clu_lower_expr.specs.Low.{low_of};
ghost use Rattle.clu_lower_expr.specs.Names.{known_constant, named_word, word_noted, word_of};

use crate::lowering::Lowering;
use clu_base::{Const, ObjConst};
use clu_core::{Checked, NamedConstant};
use clu_literal::{char_byte, string_bytes};
use clu_lower_types::{LowerError, Result};
use clu_syntax::Literal;
use clu_wir::{HoleKind, WExpr};

/// The word of a literal.
pub fn literal(out: &mut Lowering, literal: Literal<'_>) -> Result<WExpr> {
    match literal {
        Literal::Nil => Ok(WExpr::Word(0)),
        Literal::True => Ok(WExpr::Word(1)),
        Literal::False => Ok(WExpr::Word(0)),
        Literal::Integer(digits) => int_literal(digits),
        Literal::Real(_) => Err(LowerError::NotYet),
        Literal::Character(spelling) => match char_byte(spelling) {
            Some(byte) => Ok(WExpr::Word(byte as u64)),
            None => Err(LowerError::NotYet),
        },
        Literal::String(spelling) => match string_bytes(out.alloc, spelling)? {
            Some(bytes) => out.string(bytes.as_slice()),
            None => Err(LowerError::NotYet),
        },
    }
}

fn int_literal(digits: &[u8]) -> Result<WExpr> {
    match std::str::from_utf8(digits) {
        Ok(text) => match text.parse::<i64>() {
            Ok(number) => Ok(WExpr::Word(number.cast_unsigned())),
            Err(_) => Err(LowerError::NotYet),
        },
        Err(_) => Err(LowerError::NotYet),
    }
}

/// The word of a constant that a name stands for. A parameter is the linker's.
pub fn named_constant(out: &mut Lowering, c: &Checked, named: NamedConstant) -> Result<WExpr>
    ensures { IfOk result (λ e. named_word c.now named (low_of out.old) ≡ Some (expr_of e, low_of out.new)) }
{
    match named {
        NamedConstant::Known(place) => known_constant(out, c, place),
        NamedConstant::Parameter(number) => out.constant(ObjConst::Param(number)),
    }
}

/// The word of the constant at this place among those of the file. A long one that is named again is not looked up by its
/// bytes again.
fn known_constant(out: &mut Lowering, c: &Checked, place: usize) -> Result<WExpr>
    ensures { IfOk result (λ e. known_constant c.now place (low_of out.old) ≡ Some (expr_of e, low_of out.new)) }
{
    if let Some(number) = out.named_constant(place) {
        return Ok(WExpr::Hole(HoleKind::Constant, number));
    }
    let Some(known) = c.constants.copy(out.alloc, place)? else {
        return Err(LowerError::NotYet);
    };
    let word = constant(out, known)?;
    note_word(out, place, &word)?;
    Ok(word)
}

/// Notes the number of the file's constant at this place, if its word is the linker's.
fn note_word(out: &mut Lowering, place: usize, word: &WExpr) -> Result<()>
    ensures { OnOk result (low_of out.new ≡ word_noted place (expr_of word.now) (low_of out.old)) }
{
    match word {
        WExpr::Hole(HoleKind::Constant, number) => out.note_constant(place, *number),
        _ => Ok(()),
    }
}

/// The word of a constant: a small one is in the code, a string is the linker's.
fn constant(out: &mut Lowering, constant: Const) -> Result<WExpr>
    ensures { IfOk result (λ e. word_of constant (low_of out.old) ≡ (expr_of e, low_of out.new)) }
{
    match constant {
        Const::Null => Ok(WExpr::Word(0)),
        Const::Bool(true) => Ok(WExpr::Word(1)),
        Const::Bool(false) => Ok(WExpr::Word(0)),
        Const::Int(n) => Ok(WExpr::Word(n.cast_unsigned())),
        Const::Char(byte) => Ok(WExpr::Word(byte as u64)),
        Const::Str(bytes) => out.constant(ObjConst::Value(Const::Str(bytes))),
    }
}
