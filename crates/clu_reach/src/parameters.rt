//! Actual parameters put in for the parameters that the texts and constants of a routine name.

ghost use Rattle.std.specs.Prelude.{◌≡◌, IfOk, OnOk};
ghost use Rattle.std.specs.Option.{option_copied};
ghost use Rattle.clu_types.specs.Arena.{Grows};
ghost use Rattle.clu_reach.specs.Parameters.{constant_in, constant_of, nth};

use crate::errors::LinkError;
use crate::member::Member;
use clu_base::{Bytes, Const, FormatError, ObjConst, Sequence};
use clu_core::{carry, term};
use clu_specs::{Target, read_type, read_use};
use clu_types::{Actual, Term, TypeArena, TypeId};
use std::alloc::Global;

/// The actual parameter of this number, from 1.
fn nth(actuals: &[Actual], number: u32) -> Option<&Actual>
    ensures { option_copied result ≡ nth actuals.now number }
{
    let place = number.checked_sub(1)?;
    actuals.get(place as usize)
}

/// A constant of a routine; None where it is a parameter that is not there or is of a type.
pub fn constant_of<'a>(constant: &'a ObjConst, actuals: &'a [Actual]) -> Option<&'a Const>
    ensures { option_copied result ≡ constant_of actuals.now constant.now }
{
    match constant {
        ObjConst::Value(value) => Some(value),
        ObjConst::Param(number) => match nth(actuals, *number) {
            Some(actual) => constant_in(actual),
            None => None,
        },
    }
}

fn constant_in(actual: &Actual) -> Option<&Const>
    ensures { option_copied result ≡ constant_in actual.now }
{
    match actual {
        Actual::Const(value) => Some(value),
        Actual::Of(_) | Actual::ConstParam(_) => None,
    }
}

/// Copies of actual parameters.
pub fn copied(alloc: Global, actuals: &[Actual]) -> Result<Vec<Actual>, LinkError>
    ensures { IfOk result (λ copies. copies.items ≡ actuals.now) }
{
    let mut copies = Vec::new(alloc);
    for actual in actuals {
        copies.push(actual.copy(alloc)?)?;
    }
    Ok(copies)
}

/// What the use of this text names; None where the text is none of a use, or names a parameter that is not there or is
/// of the other kind.
#[tactic(auto, using(crate::proofs::Growing::growings))]
pub fn member_of(
    alloc: Global,
    types: &mut TypeArena,
    text: &Bytes,
    actuals: &[Actual],
) -> Result<Option<Member>, LinkError>
    ensures { OnOk result (Grows types.old types.new) }
{
    let mut read = TypeArena::new(alloc);
    match read_use(alloc, &mut read, text.as_slice()) {
        Ok(target) => {
            if are_known(&read, actuals)? {
                Ok(Some(put_in(alloc, types, &read, target, actuals)?))
            } else {
                Ok(None)
            }
        }
        Err(FormatError::Bad(_)) => Ok(None),
        Err(FormatError::Memory) => Err(LinkError::Memory),
    }
}

/// The types of these texts; None where one names a parameter that is not there or is of the other kind.
#[tactic(auto, using(crate::proofs::Growing::growings))]
pub fn types_of(
    alloc: Global,
    types: &mut TypeArena,
    texts: &[Bytes],
    actuals: &[Actual],
) -> Result<Option<Vec<TypeId>>, LinkError>
    ensures { OnOk result (Grows types.old types.new) }
{
    let mut made = Vec::new(alloc);
    for text in texts {
        match type_of(alloc, types, text, actuals)? {
            Some(of) => made.push(of)?,
            None => return Ok(None),
        }
    }
    Ok(Some(made))
}

#[tactic(auto, using(crate::proofs::Growing::growings))]
fn type_of(
    alloc: Global,
    types: &mut TypeArena,
    text: &Bytes,
    actuals: &[Actual],
) -> Result<Option<TypeId>, LinkError>
    ensures { OnOk result (Grows types.old types.new) }
{
    let mut read = TypeArena::new(alloc);
    match read_type(alloc, &mut read, text.as_slice()) {
        Ok(of) => {
            if are_known(&read, actuals)? {
                Ok(Some(carry(alloc, types, &read, of, actuals)?))
            } else {
                Ok(None)
            }
        }
        Err(FormatError::Bad(_)) => Err(LinkError::NotYet),
        Err(FormatError::Memory) => Err(LinkError::Memory),
    }
}

/// Whether each parameter that types of this arena name is there and of its kind.
fn are_known(read: &TypeArena, actuals: &[Actual]) -> Result<bool, LinkError> {
    for number in 0..read.len() {
        let of = TypeId(number as u64);
        if !is_term_known(term(read, of)?, actuals) {
            return Ok(false);
        }
    }
    Ok(true)
}

fn is_term_known(term: &Term, actuals: &[Actual]) -> bool {
    match term {
        Term::Param(number) => matches!(nth(actuals, *number), Some(Actual::Of(_))),
        Term::Cluster(_, given) => are_constants_known(given.as_slice(), actuals),
        _ => true,
    }
}

/// Whether the constant parameters that stand among actual ones are known.
fn are_constants_known(given: &[Actual], actuals: &[Actual]) -> bool {
    for actual in given {
        if let Actual::ConstParam(number) = actual {
            if !matches!(nth(actuals, *number), Some(Actual::Const(_))) {
                return false;
            }
        }
    }
    true
}

/// What a use names whose types are in `read`, with actuals of `types` put in.
#[tactic(auto, using(crate::proofs::Growing::growings))]
fn put_in(
    alloc: Global,
    types: &mut TypeArena,
    read: &TypeArena,
    target: Target,
    actuals: &[Actual],
) -> Result<Member, LinkError>
    ensures { OnOk result (Grows types.old types.new) }
{
    match target {
        Target::Module(name, given) => {
            let given = carried(alloc, types, read, given.as_slice(), actuals)?;
            Ok(Member::Module(name, Sequence::from_vec(given)))
        }
        Target::Op(of, op) => Ok(Member::Op(carry(alloc, types, read, of, actuals)?, op)),
        Target::OwnSetUp(of) => Ok(Member::OwnSetUp(carry(alloc, types, read, of, actuals)?)),
        Target::ForceOf(of) => Ok(Member::ForceOf(carry(alloc, types, read, of, actuals)?)),
    }
}

#[tactic(auto, using(crate::proofs::Growing::growings))]
fn carried(
    alloc: Global,
    types: &mut TypeArena,
    read: &TypeArena,
    given: &[Actual],
    actuals: &[Actual],
) -> Result<Vec<Actual>, LinkError>
    ensures { OnOk result (Grows types.old types.new) }
{
    let mut made = Vec::new(alloc);
    for actual in given {
        made.push(carried_actual(alloc, types, read, actual, actuals)?)?;
    }
    Ok(made)
}

#[tactic(auto, using(crate::proofs::Growing::growings))]
fn carried_actual(
    alloc: Global,
    types: &mut TypeArena,
    read: &TypeArena,
    given: &Actual,
    actuals: &[Actual],
) -> Result<Actual, LinkError>
    ensures { OnOk result (Grows types.old types.new) }
{
    match given {
        Actual::Of(of) => Ok(Actual::Of(carry(alloc, types, read, *of, actuals)?)),
        Actual::Const(value) => Ok(Actual::Const(value.copy(alloc)?)),
        Actual::ConstParam(number) => match nth(actuals, *number) {
            Some(known) => Ok(known.copy(alloc)?),
            None => Err(LinkError::NotYet),
        },
    }
}
