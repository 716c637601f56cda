//! Specifications as texts.

ghost use Rattle.std.specs.Prelude.{◌≡◌, ◌++◌, ◌∷◌, List, map, IfOk, OnOk};
ghost use Rattle.std.specs.List.{flat_map};
ghost use Rattle.clu_types.specs.CluType.{CluType};
ghost use Rattle.clu_types.specs.Arena.{types_of};
ghost use Rattle.clu_specs.specs.Seen.{demand_seen, op_seen, form_seen, seen, kind_text, kinds_text, demand_text, demands_text, routine_word, routine_text, op_text, shape_text, spec_text};
ghost use Rattle.clu_specs.specs.Specifications.{SpecHolds};
ghost use Rattle.clu_specs.specs.Pieces.{stack_text};

use crate::pieces::{Piece, push, push_heading, push_one};
use crate::write_types::written;
use clu_base::{Bytes, Memory};
use clu_types::{Demand, Form, OpSpec, ParamKind, Spec};
use std::alloc::Global;

/// The text of a specification, by the grammar in docs/formats.md. The only error is that memory runs out, or that the
/// text has more than 2^22 pieces.
pub fn spec_text(alloc: Global, s: &Spec) -> Result<Bytes, Memory>
    requires { SpecHolds s.now }
    ensures { IfOk result (λ text. text ≡ spec_text (seen s.now)) }
{
    let mut stack = Vec::new(alloc);
    push_spec(&mut stack, s)?;
    written(alloc, &s.types, &mut stack)
}

fn push_spec<'a>(stack: &mut Vec<Piece<'a>>, s: &'a Spec) -> Result<(), Memory>
    ensures { OnOk result (stack_text (types_of s.now.types) stack.new.items ≡ spec_text (seen s.now) ++ stack_text (types_of s.now.types) stack.old.items) }
{
    push_form(stack, s.kinds.as_slice(), &s.form)?;
    push_one(stack, Piece::Text(s.name.as_slice()))
}

/// Puts what follows the name of a specification on the stack.
fn push_form<'a>(
    stack: &mut Vec<Piece<'a>>,
    kinds: &'a [ParamKind],
    form: &'a Form,
) -> Result<(), Memory>
    ensures { (ks : List CluType) → OnOk result (stack_text ks stack.new.items ≡ shape_text kinds.now (form_seen ks form.now) ++ stack_text ks stack.old.items) }
{
    match form {
        Form::Routine(op) => {
            push_routine(stack, op)?;
            push_kinds(stack, kinds)?;
            push(
                stack,
                &[Piece::Text(routine_word(op.iter)), Piece::Text(b"=")],
            )
        }
        Form::Cluster(demands, ops) => {
            push(
                stack,
                &[Piece::Operations(ops.as_slice()), Piece::Text(b"is")],
            )?;
            push_demands(stack, demands.as_slice())?;
            push_kinds(stack, kinds)?;
            push_one(stack, Piece::Text(b"=cluster"))
        }
    }
}

fn routine_word(iter: bool) -> &'static [u8]
    ensures { result.now ≡ routine_word iter }
{
    if iter { b"iter" } else { b"proc" }
}

/// The word of a kind of parameter.
fn kind_word(kind: ParamKind) -> &'static [u8]
    ensures { result.now ≡ kind_text kind }
{
    match kind {
        ParamKind::OfType => b"type",
        ParamKind::Null => b"null",
        ParamKind::Bool => b"bool",
        ParamKind::Int => b"int",
        ParamKind::Char => b"char",
        ParamKind::Str => b"string",
    }
}

/// Puts a kind of parameter and the kinds after it on the stack.
fn push_first_kind<'a>(
    stack: &mut Vec<Piece<'a>>,
    first: ParamKind,
    rest: &'a [ParamKind],
) -> Result<(), Memory>
    ensures { (ks : List CluType) → OnOk result (stack_text ks stack.new.items ≡ (kind_text first ++ flat_map (λ kind. 44 ∷ kind_text kind) rest.now) ++ stack_text ks stack.old.items) }
{
    push(stack, &[Piece::Kinds(rest), Piece::Text(kind_word(first))])
}

/// Puts kinds of parameters, each after a comma, on the stack.
pub fn push_more_kinds<'a>(stack: &mut Vec<Piece<'a>>, kinds: &'a [ParamKind]) -> Result<(), Memory>
    ensures { (ks : List CluType) → OnOk result (stack_text ks stack.new.items ≡ flat_map (λ kind. 44 ∷ kind_text kind) kinds.now ++ stack_text ks stack.old.items) }
{
    match kinds {
        [] => Ok(()),
        [first, rest @ ..] => {
            push_first_kind(stack, *first, rest)?;
            push_one(stack, Piece::Text(b","))
        }
    }
}

/// Puts the kinds of parameters in brackets on the stack; nothing if there are none.
fn push_kinds<'a>(stack: &mut Vec<Piece<'a>>, kinds: &'a [ParamKind]) -> Result<(), Memory>
    ensures { (ks : List CluType) → OnOk result (stack_text ks stack.new.items ≡ kinds_text kinds.now ++ stack_text ks stack.old.items) }
{
    match kinds {
        [] => Ok(()),
        [first, rest @ ..] => {
            push(stack, &[Piece::Text(b"]")])?;
            push_first_kind(stack, *first, rest)?;
            push(stack, &[Piece::Text(b"[")])
        }
    }
}

/// Puts a heading with its demands on the stack.
fn push_routine<'a>(stack: &mut Vec<Piece<'a>>, op: &'a OpSpec) -> Result<(), Memory>
    ensures { (ks : List CluType) → OnOk result (stack_text ks stack.new.items ≡ routine_text (op_seen ks op.now) ++ stack_text ks stack.old.items) }
{
    push_demands(stack, op.demands.as_slice())?;
    push_heading(stack, op.iter, &op.heading)
}

/// Puts a demand on the stack.
fn push_demand<'a>(stack: &mut Vec<Piece<'a>>, demand: &'a Demand) -> Result<(), Memory>
    ensures { (ks : List CluType) → OnOk result (stack_text ks stack.new.items ≡ demand_text (demand_seen ks demand.now) ++ stack_text ks stack.old.items) }
{
    push(
        stack,
        &[
            Piece::Type(demand.wanted),
            Piece::Text(b":"),
            Piece::Text(demand.op.as_slice()),
            Piece::Text(b" has "),
            Piece::Parameter(b'#', demand.param),
        ],
    )
}

/// Puts demands, each after a comma, on the stack.
pub fn push_more_demands<'a>(
    stack: &mut Vec<Piece<'a>>,
    demands: &'a [Demand],
) -> Result<(), Memory>
    ensures { (ks : List CluType) → OnOk result (stack_text ks stack.new.items ≡ flat_map (λ demand. 44 ∷ demand_text demand) (map (demand_seen ks) demands.now) ++ stack_text ks stack.old.items) }
{
    match demands {
        [] => Ok(()),
        [first, rest @ ..] => {
            push_one(stack, Piece::Demands(rest))?;
            push_demand(stack, first)?;
            push_one(stack, Piece::Text(b","))
        }
    }
}

/// Puts a where clause on the stack; nothing if nothing is demanded.
fn push_demands<'a>(stack: &mut Vec<Piece<'a>>, demands: &'a [Demand]) -> Result<(), Memory>
    ensures { (ks : List CluType) → OnOk result (stack_text ks stack.new.items ≡ demands_text (map (demand_seen ks) demands.now) ++ stack_text ks stack.old.items) }
{
    match demands {
        [] => Ok(()),
        [first, rest @ ..] => {
            push(stack, &[Piece::Text(b" "), Piece::Demands(rest)])?;
            push_demand(stack, first)?;
            push_one(stack, Piece::Text(b" where "))
        }
    }
}

/// Puts operations, each after `;`, on the stack.
pub fn push_operations<'a>(stack: &mut Vec<Piece<'a>>, ops: &'a [OpSpec]) -> Result<(), Memory>
    ensures { (ks : List CluType) → OnOk result (stack_text ks stack.new.items ≡ flat_map op_text (map (op_seen ks) ops.now) ++ stack_text ks stack.old.items) }
{
    match ops {
        [] => Ok(()),
        [first, rest @ ..] => {
            push_one(stack, Piece::Operations(rest))?;
            push_operation(stack, first)
        }
    }
}

/// Puts an operation of a cluster on the stack.
fn push_operation<'a>(stack: &mut Vec<Piece<'a>>, op: &'a OpSpec) -> Result<(), Memory>
    ensures { (ks : List CluType) → OnOk result (stack_text ks stack.new.items ≡ op_text (op_seen ks op.now) ++ stack_text ks stack.old.items) }
{
    push_routine(stack, op)?;
    push(
        stack,
        &[
            Piece::Text(routine_word(op.iter)),
            Piece::Text(b":"),
            Piece::Text(op.name.as_slice()),
            Piece::Text(b";"),
        ],
    )
}
