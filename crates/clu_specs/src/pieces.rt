//! What is still to be written of a text, as pieces on a stack: the last one is written next. A piece that has parts
//! is replaced by them, so that nothing here goes as deep as types nest.

ghost use Rattle.std.specs.Prelude.{◌≡◌, ◌++◌, ◌∷◌, [], List, OnOk};
ghost use Rattle.clu_types.specs.CluType.{CluType};
ghost use Rattle.clu_types.specs.Arena.{type_at, types_at, fields_at, signals_at, actuals_at, types_of, type_of};
ghost use Rattle.clu_specs.specs.Texts.{type_text, types_text, more_types_text, closed_text, fields_text, more_fields_text, more_signals_text, all_signals_text, actual_text, more_actuals_text, all_actuals_text, heading_text, results_word};
ghost use Rattle.clu_specs.specs.Pieces.{piece_text, stack_text, stack_over};

use clu_base::{Const, Memory};
use clu_types::{
    Actual, Demand, Exception, Field, Heading, OpSpec, ParamKind, Term, TypeArena, TypeId,
};

/// What is to be written, in one piece.
#[derive(Clone, Copy)]
pub enum Piece<'a> {
    /// Bytes as they are.
    Text(&'a [u8]),
    /// A mark and the number of a parameter.
    Parameter(u8, u32),
    Constant(&'a Const),
    Type(TypeId),
    /// Types, each after a comma.
    Types(&'a [TypeId]),
    /// Selectors with their types, each after a comma.
    Fields(&'a [Field]),
    /// Signals, each after a comma.
    Signals(&'a [Exception]),
    /// Actual parameters, each after a comma.
    Actuals(&'a [Actual]),
    /// Kinds of parameters, each after a comma.
    Kinds(&'a [ParamKind]),
    /// Demands, each after a comma.
    Demands(&'a [Demand]),
    /// Operations of a cluster, each after `;`.
    Operations(&'a [OpSpec]),
}

/// Puts pieces on the stack, of which the last is written first.
#[tactic(auto, using(crate::proofs::Writing::over_more))]
pub fn push<'a>(stack: &mut Vec<Piece<'a>>, pieces: &[Piece<'a>]) -> Result<(), Memory>
    ensures { (ks : List CluType) → OnOk result (stack_text ks stack.new.items ≡ stack_over ks (stack_text ks stack.old.items) pieces.now) }
{
    stack.extend_from_slice(pieces)?;
    Ok(())
}

/// Puts a piece on the stack.
#[tactic(auto, using(crate::proofs::Writing::over_last))]
pub fn push_one<'a>(stack: &mut Vec<Piece<'a>>, piece: Piece<'a>) -> Result<(), Memory>
    ensures { (ks : List CluType) → OnOk result (stack_text ks stack.new.items ≡ piece_text ks piece.entry ++ stack_text ks stack.old.items) }
{
    Ok(stack.push(piece)?)
}

/// Puts the parts of a type on the stack. A number that is none of the arena's stands for `null`, as in `type_at`.
#[tactic(auto, using(crate::proofs::Writing::null_outside))]
pub fn push_type<'a>(
    stack: &mut Vec<Piece<'a>>,
    types: &'a TypeArena,
    id: TypeId,
) -> Result<(), Memory>
    ensures { OnOk result (stack_text (types_of types.now) stack.new.items ≡ type_text (type_at (types_of types.now) id) ++ stack_text (types_of types.now) stack.old.items) }
{
    if id.0 < types.len() as u64 {
        push_term(stack, types.view(id))
    } else {
        push_one(stack, Piece::Text(b"null"))
    }
}

/// Puts the parts of a term on the stack.
fn push_term<'a>(stack: &mut Vec<Piece<'a>>, term: &'a Term) -> Result<(), Memory>
    ensures { (ks : List CluType) → OnOk result (stack_text ks stack.new.items ≡ type_text (type_of ks term.now) ++ stack_text ks stack.old.items) }
{
    match term {
        Term::Null => push_one(stack, Piece::Text(b"null")),
        Term::Bool => push_one(stack, Piece::Text(b"bool")),
        Term::Int => push_one(stack, Piece::Text(b"int")),
        Term::Char => push_one(stack, Piece::Text(b"char")),
        Term::Str => push_one(stack, Piece::Text(b"string")),
        Term::Any => push_one(stack, Piece::Text(b"any")),
        Term::Stream => push_one(stack, Piece::Text(b"stream")),
        Term::Array(of) => push_listing(stack, b"array[", *of),
        Term::Sequence(of) => push_listing(stack, b"sequence[", *of),
        Term::Record(fields) => push_selecting(stack, b"record[", fields.as_slice()),
        Term::Struct(fields) => push_selecting(stack, b"struct[", fields.as_slice()),
        Term::Oneof(fields) => push_selecting(stack, b"oneof[", fields.as_slice()),
        Term::Variant(fields) => push_selecting(stack, b"variant[", fields.as_slice()),
        Term::Proc(heading) => push_routine(stack, b"proctype", false, heading),
        Term::Iter(heading) => push_routine(stack, b"itertype", true, heading),
        Term::Cluster(name, actuals) => push_cluster(stack, name.as_slice(), actuals.as_slice()),
        Term::Param(n) => push_one(stack, Piece::Parameter(b'#', *n)),
    }
}

/// Puts an array or sequence type on the stack.
fn push_listing<'a>(
    stack: &mut Vec<Piece<'a>>,
    word: &'static [u8],
    of: TypeId,
) -> Result<(), Memory>
    ensures { (ks : List CluType) → OnOk result (stack_text ks stack.new.items ≡ (word.now ++ (type_text (type_at ks of) ++ 93 ∷ [])) ++ stack_text ks stack.old.items) }
{
    push(
        stack,
        &[Piece::Text(b"]"), Piece::Type(of), Piece::Text(word)],
    )
}

/// Puts a type with selectors or tags on the stack.
fn push_selecting<'a>(
    stack: &mut Vec<Piece<'a>>,
    word: &'static [u8],
    fields: &'a [Field],
) -> Result<(), Memory>
    ensures { (ks : List CluType) → OnOk result (stack_text ks stack.new.items ≡ (word.now ++ (fields_text (fields_at ks fields.now) ++ 93 ∷ [])) ++ stack_text ks stack.old.items) }
{
    push(stack, &[Piece::Text(b"]")])?;
    push_fields(stack, fields)?;
    push_one(stack, Piece::Text(word))
}

/// Puts a selector with its type on the stack.
fn push_field<'a>(stack: &mut Vec<Piece<'a>>, field: &'a Field) -> Result<(), Memory>
    ensures { (ks : List CluType) → OnOk result (stack_text ks stack.new.items ≡ (field.now.name ++ 58 ∷ type_text (type_at ks field.now.of)) ++ stack_text ks stack.old.items) }
{
    push(
        stack,
        &[
            Piece::Type(field.of),
            Piece::Text(b":"),
            Piece::Text(field.name.as_slice()),
        ],
    )
}

/// Puts selectors with commas between them on the stack.
fn push_fields<'a>(stack: &mut Vec<Piece<'a>>, fields: &'a [Field]) -> Result<(), Memory>
    ensures { (ks : List CluType) → OnOk result (stack_text ks stack.new.items ≡ fields_text (fields_at ks fields.now) ++ stack_text ks stack.old.items) }
{
    match fields {
        [] => Ok(()),
        [first, rest @ ..] => {
            push_one(stack, Piece::Fields(rest))?;
            push_field(stack, first)
        }
    }
}

/// Puts selectors, each after a comma, on the stack.
pub fn push_more_fields<'a>(stack: &mut Vec<Piece<'a>>, fields: &'a [Field]) -> Result<(), Memory>
    ensures { (ks : List CluType) → OnOk result (stack_text ks stack.new.items ≡ more_fields_text (fields_at ks fields.now) ++ stack_text ks stack.old.items) }
{
    match fields {
        [] => Ok(()),
        [first, rest @ ..] => {
            push_one(stack, Piece::Fields(rest))?;
            push_field(stack, first)?;
            push_one(stack, Piece::Text(b","))
        }
    }
}

/// Puts a proctype or an itertype on the stack.
fn push_routine<'a>(
    stack: &mut Vec<Piece<'a>>,
    word: &'static [u8],
    iter: bool,
    heading: &'a Heading,
) -> Result<(), Memory>
    ensures { (ks : List CluType) → OnOk result (stack_text ks stack.new.items ≡ (word.now ++ heading_text iter (types_at ks heading.now.args) (types_at ks heading.now.results) (signals_at ks heading.now.signals)) ++ stack_text ks stack.old.items) }
{
    push_heading(stack, iter, heading)?;
    push_one(stack, Piece::Text(word))
}

/// Puts on the stack what a routine takes, gives and signals.
pub fn push_heading<'a>(
    stack: &mut Vec<Piece<'a>>,
    iter: bool,
    heading: &'a Heading,
) -> Result<(), Memory>
    ensures { (ks : List CluType) → OnOk result (stack_text ks stack.new.items ≡ heading_text iter (types_at ks heading.now.args) (types_at ks heading.now.results) (signals_at ks heading.now.signals) ++ stack_text ks stack.old.items) }
{
    push_all_signals(stack, heading.signals.as_slice())?;
    push_closed_types(stack, results_word(iter), heading.results.as_slice())?;
    push_one(stack, Piece::Text(b")"))?;
    push_types(stack, heading.args.as_slice())?;
    push_one(stack, Piece::Text(b"("))
}

/// The word before what a procedure returns, or an iterator yields.
fn results_word(iter: bool) -> &'static [u8]
    ensures { result.now ≡ results_word iter }
{
    if iter { b"yields(" } else { b"returns(" }
}

/// Puts a type and the types after it on the stack.
fn push_first_type<'a>(
    stack: &mut Vec<Piece<'a>>,
    first: TypeId,
    rest: &'a [TypeId],
) -> Result<(), Memory>
    ensures { (ks : List CluType) → OnOk result (stack_text ks stack.new.items ≡ (type_text (type_at ks first) ++ more_types_text (types_at ks rest.now)) ++ stack_text ks stack.old.items) }
{
    push(stack, &[Piece::Types(rest), Piece::Type(first)])
}

/// Puts types with commas between them on the stack.
fn push_types<'a>(stack: &mut Vec<Piece<'a>>, ids: &'a [TypeId]) -> Result<(), Memory>
    ensures { (ks : List CluType) → OnOk result (stack_text ks stack.new.items ≡ types_text (types_at ks ids.now) ++ stack_text ks stack.old.items) }
{
    match ids {
        [] => Ok(()),
        [first, rest @ ..] => push_first_type(stack, *first, rest),
    }
}

/// Puts types, each after a comma, on the stack.
pub fn push_more_types<'a>(stack: &mut Vec<Piece<'a>>, ids: &'a [TypeId]) -> Result<(), Memory>
    ensures { (ks : List CluType) → OnOk result (stack_text ks stack.new.items ≡ more_types_text (types_at ks ids.now) ++ stack_text ks stack.old.items) }
{
    match ids {
        [] => Ok(()),
        [first, rest @ ..] => {
            push_first_type(stack, *first, rest)?;
            push_one(stack, Piece::Text(b","))
        }
    }
}

/// Puts a word, types with commas between them and `)` on the stack; nothing if there are no types.
fn push_closed_types<'a>(
    stack: &mut Vec<Piece<'a>>,
    word: &'static [u8],
    ids: &'a [TypeId],
) -> Result<(), Memory>
    ensures { (ks : List CluType) → OnOk result (stack_text ks stack.new.items ≡ closed_text word.now (types_at ks ids.now) ++ stack_text ks stack.old.items) }
{
    match ids {
        [] => Ok(()),
        [first, rest @ ..] => {
            push_one(stack, Piece::Text(b")"))?;
            push_first_type(stack, *first, rest)?;
            push_one(stack, Piece::Text(word))
        }
    }
}

/// Puts a signal with the types of its objects, if it has any, on the stack.
fn push_signal<'a>(stack: &mut Vec<Piece<'a>>, signal: &'a Exception) -> Result<(), Memory>
    ensures { (ks : List CluType) → OnOk result (stack_text ks stack.new.items ≡ (signal.now.name ++ closed_text (40 ∷ []) (types_at ks signal.now.objects)) ++ stack_text ks stack.old.items) }
{
    push_closed_types(stack, b"(", signal.objects.as_slice())?;
    push_one(stack, Piece::Text(signal.name.as_slice()))
}

/// Puts signals, each after a comma, on the stack.
pub fn push_more_signals<'a>(
    stack: &mut Vec<Piece<'a>>,
    signals: &'a [Exception],
) -> Result<(), Memory>
    ensures { (ks : List CluType) → OnOk result (stack_text ks stack.new.items ≡ more_signals_text (signals_at ks signals.now) ++ stack_text ks stack.old.items) }
{
    match signals {
        [] => Ok(()),
        [first, rest @ ..] => {
            push_one(stack, Piece::Signals(rest))?;
            push_signal(stack, first)?;
            push_one(stack, Piece::Text(b","))
        }
    }
}

/// Puts the signals after their word on the stack; nothing if there are none.
fn push_all_signals<'a>(stack: &mut Vec<Piece<'a>>, signals: &'a [Exception]) -> Result<(), Memory>
    ensures { (ks : List CluType) → OnOk result (stack_text ks stack.new.items ≡ all_signals_text (signals_at ks signals.now) ++ stack_text ks stack.old.items) }
{
    match signals {
        [] => Ok(()),
        [first, rest @ ..] => {
            push(stack, &[Piece::Text(b")"), Piece::Signals(rest)])?;
            push_signal(stack, first)?;
            push_one(stack, Piece::Text(b"signals("))
        }
    }
}

/// Puts a module's name with its actual parameters, if it has any, on the stack.
pub fn push_cluster<'a>(
    stack: &mut Vec<Piece<'a>>,
    name: &'a [u8],
    actuals: &'a [Actual],
) -> Result<(), Memory>
    ensures { (ks : List CluType) → OnOk result (stack_text ks stack.new.items ≡ (name.now ++ all_actuals_text (actuals_at ks actuals.now)) ++ stack_text ks stack.old.items) }
{
    push_all_actuals(stack, actuals)?;
    push_one(stack, Piece::Text(name))
}

/// Puts actual parameters in brackets on the stack; nothing if there are none.
#[tactic(auto, using(crate::proofs::Writing::all_actuals_shown))]
fn push_all_actuals<'a>(stack: &mut Vec<Piece<'a>>, actuals: &'a [Actual]) -> Result<(), Memory>
    ensures { (ks : List CluType) → OnOk result (stack_text ks stack.new.items ≡ all_actuals_text (actuals_at ks actuals.now) ++ stack_text ks stack.old.items) }
{
    match actuals {
        [] => Ok(()),
        [first, rest @ ..] => {
            push(stack, &[Piece::Text(b"]"), Piece::Actuals(rest)])?;
            push_actual(stack, first)?;
            push(stack, &[Piece::Text(b"[")])
        }
    }
}

/// Puts actual parameters, each after a comma, on the stack.
#[tactic(auto, using(crate::proofs::Writing::more_actuals_shown))]
pub fn push_more_actuals<'a>(
    stack: &mut Vec<Piece<'a>>,
    actuals: &'a [Actual],
) -> Result<(), Memory>
    ensures { (ks : List CluType) → OnOk result (stack_text ks stack.new.items ≡ more_actuals_text (actuals_at ks actuals.now) ++ stack_text ks stack.old.items) }
{
    match actuals {
        [] => Ok(()),
        [first, rest @ ..] => {
            push_one(stack, Piece::Actuals(rest))?;
            push_actual(stack, first)?;
            push_one(stack, Piece::Text(b","))
        }
    }
}

/// Puts an actual parameter on the stack.
fn push_actual<'a>(stack: &mut Vec<Piece<'a>>, actual: &'a Actual) -> Result<(), Memory>
    ensures { (ks : List CluType) → OnOk result (stack_text ks stack.new.items ≡ actual_text ks actual.now ++ stack_text ks stack.old.items) }
{
    match actual {
        Actual::Of(id) => push_one(stack, Piece::Type(*id)),
        Actual::Const(constant) => push_one(stack, Piece::Constant(constant)),
        Actual::ConstParam(n) => push_one(stack, Piece::Parameter(b'%', *n)),
    }
}
