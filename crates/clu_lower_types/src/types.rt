//! The types of nodes and their texts, which of them are any, and the operations that were found for nodes.

ghost use Rattle.std.specs.Prelude.{◌≡◌, ◌<◌, ℕ, IfOk, Some, length};
ghost use Rattle.std.specs.Option.{option_copied};
ghost use Rattle.clu_syntax.specs.Items.{Item};
ghost use Rattle.clu_syntax.specs.Views.{type_told};
ghost use Rattle.clu_specs.specs.Texts.{type_text};
ghost use Rattle.clu_types.specs.Arena.{PartsBelow, type_at, type_of, types_at, types_of};
ghost use Rattle.clu_lower_types.specs.Types.{any_among, denoted_type, denotes_any, is_any, is_cvt, is_cvt_type, is_cvt_word, operation_of, place_of, texts_of, type_of_node};

use crate::errors::{LowerError, Result};
use crate::fixed::Fixed;
use clu_base::Bytes;
use clu_core::{Checked, OpRef};
use clu_specs::type_text;
use clu_syntax::{SimpleType, Syntax, TypeExpression};
use clu_types::{Field, Term, TypeArena, TypeId};
use std::alloc::Global;

/// The term of a type of an arena.
pub(crate) fn term_of(types: &TypeArena, of: TypeId) -> Result<&Term>
    ensures inside { IfOk result (λ term. of.0 < length types.now) }
    ensures of_type { IfOk result (λ term. type_at (types_of types.now) of ≡ type_of (types_of types.now) term.now) }
    ensures parts { IfOk result (λ term. PartsBelow of.0 term.now) }
{
    if types.contains(of) {
        Ok(types.view(of))
    } else {
        Err(LowerError::NotYet)
    }
}

/// Whether a type is any.
pub fn is_any(types: &TypeArena, of: TypeId) -> bool
    ensures { result ≡ is_any (type_at (types_of types.now) of) }
{
    if types.contains(of) {
        matches!(types.view(of), Term::Any)
    } else {
        false
    }
}

/// The type of an expression's node.
pub fn type_of(c: &Checked, n: u32) -> Result<TypeId>
    ensures { IfOk result (λ of. type_of_node c.now n ≡ Some of) }
{
    match c.type_of.get(n as usize) {
        Some(Some(of)) => Ok(*of),
        _ => Err(LowerError::NotYet),
    }
}

/// The type that a type's node denotes; `cvt` is the representation of the cluster round it.
pub fn denoted_type(fixed: &Fixed, n: u32) -> Result<TypeId>
    requires { n < length fixed.now.syntax.now }
    ensures { IfOk result (λ of. denoted_type fixed.now n ≡ Some of) }
{
    match fixed.c.denoted.get(n as usize) {
        Some(Some(of)) => Ok(*of),
        _ => match fixed.rep {
            Some(rep) if is_cvt(fixed.syntax, n) => Ok(rep),
            _ => Err(LowerError::NotYet),
        },
    }
}

/// Whether the type at a node is the word `cvt`.
pub fn is_cvt(syntax: &Syntax, n: u32) -> bool
    requires { n < length syntax.now }
    ensures { result ≡ is_cvt syntax.now n }
{
    is_cvt_type(syntax.type_expression(n))
}

fn is_cvt_type(of: TypeExpression<'_>) -> bool
    ensures { (items : ℕ → Item) (n : ℕ) → result ≡ is_cvt_type (type_told items n of.entry) }
{
    match of {
        TypeExpression::Simple(word) => is_cvt_word(word),
        _ => false,
    }
}

fn is_cvt_word(word: SimpleType) -> bool
    ensures { result ≡ is_cvt_word word }
{
    match word {
        SimpleType::Cvt => true,
        _ => false,
    }
}

/// Whether a type's node denotes any.
pub fn denotes_any(fixed: &Fixed, n: u32) -> Result<bool>
    requires { n < length fixed.now.syntax.now }
    ensures { IfOk result (λ any. denotes_any fixed.now n ≡ Some any) }
{
    Ok(is_any(&fixed.c.types, denoted_type(fixed, n)?))
}

/// The text of a type.
pub fn text_of(alloc: Global, types: &TypeArena, of: TypeId) -> Result<Bytes>
    ensures { IfOk result (λ text. text ≡ type_text (type_at (types_of types.now) of)) }
{
    if types.contains(of) {
        Ok(type_text(alloc, types, of)?)
    } else {
        Err(LowerError::NotYet)
    }
}

/// The texts of types.
pub fn texts_of(alloc: Global, types: &TypeArena, listed: &[TypeId]) -> Result<Vec<Bytes>>
    ensures { IfOk result (λ texts. texts.items ≡ texts_of (types_at (types_of types.now) listed.now)) }
{
    let mut texts = Vec::new(alloc);
    for of in listed {
        texts.push(text_of(alloc, types, *of)?)?;
    }
    Ok(texts)
}

/// For each of these types whether it is any.
pub fn which_are_any(alloc: Global, types: &TypeArena, listed: &[TypeId]) -> Result<Vec<bool>>
    ensures { IfOk result (λ any. any.items ≡ any_among (types_at (types_of types.now) listed.now)) }
{
    let mut any = Vec::new(alloc);
    for of in listed {
        any.push(is_any(types, *of))?;
    }
    Ok(any)
}

/// The operation that was found for a node.
pub fn operation_of(c: &Checked, n: u32) -> Option<&OpRef>
    ensures { option_copied result ≡ operation_of c.now n }
{
    match c.op_of.get(n as usize) {
        Some(Some(op)) => Some(op),
        _ => None,
    }
}

/// The place of a selector.
pub fn place_of(components: &[Field], name: &Bytes) -> Result<usize>
    ensures { IfOk result (λ place. place_of components.now name.now ≡ Some place) }
{
    match first_named(components, name.as_slice()) {
        Some(place) => Ok(place),
        None => Err(LowerError::NotYet),
    }
}

/// The first component of a name.
fn first_named(components: &[Field], name: &[u8]) -> Option<usize>
    ensures { result ≡ place_of components.now name.now }
{
    components
        .iter()
        .position(|component| component.name.as_slice() == name)
}
