//! What each expression, each statement and each part of one may raise.

ghost use Rattle.std.specs.Prelude.{◌≡◌, ◌++◌, ◌<◌, ℕ, [], ◌∷◌, List, fold, flat_map, length, IfOk, OnOk};
ghost use Rattle.clu_types.specs.Arena.{type_at, types_of};
ghost use Rattle.clu_types.specs.declared.term.Term.{Term};
ghost use Rattle.clu_bindings.specs.Readers.{children_in};
ghost use Rattle.clu_operations.specs.Finding.{IsBelowIf};
ghost use Rattle.clu_typing.specs.Facts.{raised_at};
ghost use Rattle.clu_typing.specs.Raised.{Raised};
ghost use Rattle.clu_typing.specs.Raises.{is_done, is_variable, with_failing, raised_told, failing_told, fails, parts, passed_told, first_operation, second_operation, called_in, invoked_told, first_invoked, done_told, row_told, AreGathered, StayBut, AreSets};
ghost use Rattle.clu_typing.specs.Raising.{AreRaises, IsSetOf, Told, invoked_by};

use crate::applied::Applied;
use crate::facts::Facts;
use crate::handled::{arms, guards, push_guarded};
use crate::nodes::has_actuals;
use crate::raising::{FAILURE, NOTHING, RaisesId};
use clu_base::Memory;
use clu_bindings::{File, Headed, Meaning};
use clu_syntax::is_expression;
use clu_tree::NodeKind;
use clu_types::{TypeArena, TypeId};
use std::alloc::Global;

/// Whether what stands in the node n is evaluated or done where the node is. Actual parameters aren't.
#[tactic(auto, unfolding(crate::specs::Raises::is_done_as))]
fn is_done(file: File<'_>, n: u32) -> bool
    ensures { result ≡ is_done file.entry n }
{
    match file.kind(n) {
        NodeKind::Index => !has_actuals(file, n),
        NodeKind::Except
        | NodeKind::Resignal
        | NodeKind::SetField
        | NodeKind::SetIndex
        | NodeKind::FieldE
        | NodeKind::Init
        | NodeKind::Assign
        | NodeKind::CallS
        | NodeKind::While
        | NodeKind::For
        | NodeKind::If
        | NodeKind::Tagcase
        | NodeKind::TagArm
        | NodeKind::Return
        | NodeKind::Yield
        | NodeKind::Signal
        | NodeKind::Exit
        | NodeKind::Begin
        | NodeKind::When
        | NodeKind::Others => true,
        kind => is_expression(kind),
    }
}

// ---- what a node raises by itself

/// Whether a name that denotes this is a variable's, which may have no object.
fn is_variable(meaning: Meaning) -> bool
    ensures { result ≡ is_variable meaning }
{
    match meaning {
        Meaning::Local(_) | Meaning::OwnOfRoutine(_) | Meaning::OwnOfCluster(_) => true,
        _ => false,
    }
}

/// Whether the node n may fail by itself: a variable, and a constructor of an array or a sequence.
fn fails(file: File<'_>, n: u32) -> bool
    ensures { result ≡ fails file.entry n }
{
    match file.kind(n) {
        NodeKind::Name => is_variable(file.meaning(n)),
        NodeKind::Elems => true,
        _ => false,
    }
}

fn first_operation(facts: &Facts, applied: Applied) -> Option<TypeId>
    ensures { result ≡ first_operation facts.now applied }
{
    match applied {
        Applied::Invoked(first, _) => facts.operation_type(first.operation),
        _ => None,
    }
}

fn second_operation(facts: &Facts, applied: Applied) -> Option<TypeId>
    ensures { result ≡ second_operation facts.now applied }
{
    match applied {
        Applied::Invoked(_, Some(second)) => facts.operation_type(second.operation),
        _ => None,
    }
}

/// The type of what the node n calls.
fn called(file: File<'_>, facts: &Facts, n: u32) -> Option<TypeId>
    ensures { result ≡ called_in facts.now (children_in file.entry n) }
{
    match file.children(n) {
        [routine, ..] => facts.type_of(*routine),
        [] => None,
    }
}

/// The type of what the node n invokes, by a call or as an operation.
fn first_invoked(file: File<'_>, facts: &Facts, applied: Applied, n: u32) -> Option<TypeId>
    ensures { result ≡ first_invoked file.entry facts.now applied n }
{
    match file.kind(n) {
        NodeKind::Call => called(file, facts, n),
        _ => first_operation(facts, applied),
    }
}

/// What an invocation of what has this type raises.
fn raised_by(
    alloc: Global,
    types: &TypeArena,
    facts: &mut Facts,
    of: TypeId,
) -> Result<RaisesId, Memory>
    ensures kept { StayBut facts.old facts.new }
    ensures invoked { AreRaises types.now facts.old.finding.words facts.old.raising → of.0 < length types.now → IfOk result (IsSetOf types.now facts.old.finding.words facts.new.finding.words facts.old.raising facts.new.raising (invoked_by (type_at (types_of types.now) of))) }
{
    let words = &mut facts.finding.words;
    facts.raising.invoked(alloc, types, words, of)
}

/// Appends it.
fn push_invocation(
    list: &mut Vec<RaisesId>,
    alloc: Global,
    types: &TypeArena,
    facts: &mut Facts,
    of: TypeId,
) -> Result<(), Memory>
    ensures kept { StayBut facts.old facts.new }
    ensures invoked { (names : List (List ℕ)) (first : Raised) (told : List Told) → of.0 < length types.now → AreGathered types.now names first facts.old.finding.words facts.old.raising list.old.items told → OnOk result (AreGathered types.now names first facts.new.finding.words facts.new.raising list.new.items (told ++ invoked_by (type_at (types_of types.now) of))) }
{
    let set = raised_by(alloc, types, facts, of)?;
    list.push(set)?;
    Ok(())
}

/// The same of the type, if there is one.
fn push_invoked(
    list: &mut Vec<RaisesId>,
    alloc: Global,
    types: &TypeArena,
    facts: &mut Facts,
    of: Option<TypeId>,
) -> Result<(), Memory>
    ensures kept { StayBut facts.old facts.new }
    ensures invoked { (names : List (List ℕ)) (first : Raised) (told : List Told) → IsBelowIf (length types.now) of → AreGathered types.now names first facts.old.finding.words facts.old.raising list.old.items told → OnOk result (AreGathered types.now names first facts.new.finding.words facts.new.raising list.new.items (told ++ invoked_told types.now of)) }
{
    match of {
        Some(of) => push_invocation(list, alloc, types, facts, of),
        None => Ok(()),
    }
}

// ---- all together

/// The parts of the node n from which something is raised that it raises too: of an Except and a Resignal those behind the
/// statement.
fn parts<'a>(file: File<'a>, n: u32) -> &'a [u32]
    ensures { result.now ≡ parts file.entry n }
{
    if guards(file, n) {
        arms(file, n)
    } else {
        file.children(n)
    }
}

/// Appends what these nodes raise.
fn push_raised(list: &mut Vec<RaisesId>, facts: &Facts, nodes: &[u32]) -> Result<(), Memory>
    ensures { OnOk result (list.new.items ≡ fold (λ made n. made ++ raised_at facts.now n ∷ []) list.old.items nodes.now) }
{
    for n in nodes {
        list.push(facts.raised_at(*n))?;
    }
    Ok(())
}

/// Appends what the parts of the node n raise, and what of them isn't taken.
fn push_parts(
    list: &mut Vec<RaisesId>,
    file: File<'_>,
    facts: &mut Facts,
    n: u32,
) -> Result<(), Memory>
    ensures kept { StayBut facts.old facts.new }
    ensures named { facts.new.finding.words ≡ facts.old.finding.words }
    ensures parts { (terms : List Term) → list.old.items ≡ [] → AreRaises terms facts.old.finding.words facts.old.raising → AreSets facts.old → OnOk result (AreGathered terms facts.old.finding.words facts.old.raising facts.new.finding.words facts.new.raising list.new.items (flat_map (raised_told terms facts.old) (parts file.entry n) ++ passed_told file.entry terms facts.old n)) }
{
    push_raised(list, facts, parts(file, n))?;
    push_guarded(list, file, facts, n)
}

/// Appends failure, if the node n may fail by itself.
fn push_failing(list: &mut Vec<RaisesId>, file: File<'_>, n: u32) -> Result<(), Memory>
    ensures { OnOk result (list.new.items ≡ with_failing (fails file.entry n) list.old.items) }
{
    if fails(file, n) {
        list.push(FAILURE)?;
        Ok(())
    } else {
        Ok(())
    }
}

/// Appends what the node n raises by itself.
fn push_own(
    list: &mut Vec<RaisesId>,
    headed: Headed<'_>,
    types: &TypeArena,
    facts: &mut Facts,
    applied: Applied,
    n: u32,
) -> Result<(), Memory>
    ensures kept { StayBut facts.old facts.new }
    ensures own { (names : List (List ℕ)) (first : Raised) (told : List Told) → IsBelowIf (length types.now) (first_invoked headed.entry.file facts.old applied n) → IsBelowIf (length types.now) (second_operation facts.old applied) → AreGathered types.now names first facts.old.finding.words facts.old.raising list.old.items told → OnOk result (AreGathered types.now names first facts.new.finding.words facts.new.raising list.new.items (((told ++ failing_told headed.entry.file n) ++ invoked_told types.now (first_invoked headed.entry.file facts.old applied n)) ++ invoked_told types.now (second_operation facts.old applied))) }
{
    push_failing(list, headed.file, n)?;
    let first = first_invoked(headed.file, facts, applied, n);
    let second = second_operation(facts, applied);
    push_invoked(list, headed.file.alloc, types, facts, first)?;
    push_invoked(list, headed.file.alloc, types, facts, second)
}

/// What the node n raises, if it is evaluated or done where it stands.
fn done_at(
    headed: Headed<'_>,
    types: &TypeArena,
    facts: &mut Facts,
    applied: Applied,
    n: u32,
) -> Result<RaisesId, Memory>
    ensures kept { StayBut facts.old facts.new }
    ensures row { AreRaises types.now facts.old.finding.words facts.old.raising → AreSets facts.old → IsBelowIf (length types.now) (first_invoked headed.entry.file facts.old applied n) → IsBelowIf (length types.now) (second_operation facts.old applied) → IfOk result (IsSetOf types.now facts.old.finding.words facts.new.finding.words facts.old.raising facts.new.raising (done_told headed.entry.file types.now facts.old applied n)) }
{
    let alloc = headed.file.alloc;
    let mut list = Vec::new(alloc);
    push_parts(&mut list, headed.file, facts, n)?;
    push_own(&mut list, headed, types, facts, applied, n)?;
    facts.raising.together(alloc, list)
}

/// What the node n may raise, by what is known of the nodes before it.
pub fn raises_at(
    headed: Headed<'_>,
    types: &TypeArena,
    facts: &mut Facts,
    applied: Applied,
    n: u32,
) -> Result<RaisesId, Memory>
    ensures kept { StayBut facts.old facts.new }
    ensures row { AreRaises types.now facts.old.finding.words facts.old.raising → AreSets facts.old → IsBelowIf (length types.now) (first_invoked headed.entry.file facts.old applied n) → IsBelowIf (length types.now) (second_operation facts.old applied) → IfOk result (IsSetOf types.now facts.old.finding.words facts.new.finding.words facts.old.raising facts.new.raising (row_told headed.entry.file types.now facts.old applied n)) }
{
    if is_done(headed.file, n) {
        done_at(headed, types, facts, applied, n)
    } else {
        Ok(NOTHING)
    }
}
