//! The rules on exceptions: V23 ArmTypes, V24 ArmTwice, V25 SignalNotListed, V26 SignalTypes, V27 ExitNoArm.

ghost use Rattle.std.specs.Prelude.{◌≡◌, ◌&&◌, ℕ, Some, length, map, slice_get};
ghost use Rattle.std.specs.List.{list_all};
ghost use Rattle.clu_tree.specs.declared.node.NodeKind.TheVariants as kind;
ghost use Rattle.clu_syntax.specs.Items.{Item};
ghost use Rattle.clu_syntax.specs.Rounds.{round_at};
ghost use Rattle.clu_syntax.specs.Splits.{type_of};
ghost use Rattle.clu_head.specs.Refused.{is_set};
ghost use Rattle.clu_head.specs.There.{is_there};
ghost use Rattle.clu_bindings.specs.Inside.{type_outside};
ghost use Rattle.clu_type_rules.specs.Known.{children, kind_in, term_of};
ghost use Rattle.clu_type_rules.specs.Objects.{names, types_of};
ghost use Rattle.clu_type_rules.specs.ExceptionRules.{is_failure, may_be_string, may_name_string, exception_named, is_listed, is_one_string, fits_exception, fits_heading, has_value, arm_declarations, raised_in, raised, takes, takes_name, takes_all, arm_misfits_by, arm_misfits, takes_string, v23, is_not_listed, number_of, arm_from, arm_for, lacks_arm, signals_other, arm_takes, is_other_failure, v26};

use crate::known::{Known, routine_round, term};
use crate::objects::{Objects, fit_types, split_declarations, take_objects};
use clu_base::Bytes;
use clu_bindings::{File, type_inside, type_outside};
use clu_name_rules::{is_kind, is_repeated, leading_type};
use clu_tree::NodeKind;
use clu_types::{Term, TypeId};
use clu_typing::{Raise, RaisesId};

fn is_failure(name: &Bytes) -> bool
    ensures { result ≡ is_failure name.now }
{
    name.as_slice() == b"failure".as_slice()
}

/// Whether the type is string, as far as it is known.
fn may_be_string(k: &Known<'_>, of: Option<TypeId>) -> bool
    ensures { result ≡ may_be_string (term_of k.now of) }
{
    match term(k, of) {
        Some(Term::Str) | None => true,
        Some(_) => false,
    }
}

/// Whether a variable of this type may name a string.
fn may_name_string(k: &Known<'_>, of: Option<TypeId>) -> bool
    ensures { result ≡ may_name_string (term_of k.now of) }
{
    match term(k, of) {
        Some(Term::Str | Term::Any) | None => true,
        Some(_) => false,
    }
}

// ---- what the routine round a node may signal

/// The Exc of this name in the heading of the routine round the node n.
fn exception_named(k: &Known<'_>, n: u32, name: &Bytes) -> Option<u32>
    ensures { result ≡ exception_named k.now n name.now }
{
    let signals = routine_round(k, n)?.signals?;
    k.tables
        .items
        .exception(signals, k.tables.words.find(name)?)
}

/// Whether it is one; `failure` belongs to every routine.
fn is_listed(k: &Known<'_>, n: u32, name: &Bytes) -> bool
    ensures { result ≡ is_listed k.now n name.now }
{
    is_failure(name) || exception_named(k, n, name).is_some()
}

/// Whether these are one string.
fn are_one_string(k: &Known<'_>, objects: Objects<'_>) -> bool
    ensures { result ≡ is_one_string k.now (types_of k.now objects.entry) }
{
    match objects.split_first(k) {
        Some((given, rest)) => match rest.split_first(k) {
            Some(_) => false,
            None => may_be_string(k, given),
        },
        None => false,
    }
}

/// Whether the objects of a signal at the node n fit an exception; of one that isn't listed V25 is asked.
fn fit_exception(k: &Known<'_>, n: u32, objects: Objects<'_>, exception: Option<u32>) -> bool
    ensures { (items : ℕ → Item) → result ≡ fits_exception k.now items n (types_of k.now objects.entry) exception }
{
    match exception {
        Some(exception) => fit_types(k, n, objects, k.tables.file.children(exception)),
        None => true,
    }
}

/// Whether the objects of a signal of this name at the node n fit the heading.
fn fit_heading(k: &Known<'_>, n: u32, name: &Bytes, objects: Objects<'_>) -> bool
    ensures { (items : ℕ → Item) → result ≡ fits_heading k.now items n name.now (types_of k.now objects.entry) }
{
    if is_failure(name) {
        are_one_string(k, objects)
    } else {
        fit_exception(k, n, objects, exception_named(k, n, name))
    }
}

// ---- arms

/// Whether the arm takes any objects, by `*`.
fn takes_any(f: File<'_>, arm: u32) -> bool
    ensures { result ≡ has_value (slice_get f.entry.syntax.now arm) }
{
    if arm < f.syntax.tree().len() {
        f.syntax.tree().node(arm).value_token.is_some()
    } else {
        false
    }
}

/// The Decls of an arm.
fn arm_declarations<'a>(k: &Known<'a>, arm: u32) -> &'a [u32]
    ensures { result.now ≡ arm_declarations k.now arm }
{
    split_declarations(k.tables.file, k.tables.file.children(arm)).0
}

// ---- what is raised in the statement of an Except or a Resignal

/// What takes raises.
#[derive(Clone, Copy)]
enum Taker<'a> {
    /// The variables of an arm, by its Decls.
    Arm(&'a [u32]),
    /// The heading of the routine round.
    Heading,
}

/// The raises of this name in a set; none if the name isn't kept.
fn raised_in<'a>(k: &Known<'a>, set: RaisesId, name: &Bytes) -> &'a [Raise]
    ensures { result.now ≡ raised_in k.now set name.now }
{
    match k.facts.finding.named(name) {
        Some(name) => k.facts.raising.named(set, name),
        None => &[],
    }
}

/// The raises of this name in the statement of the Except or Resignal e.
fn raised<'a>(k: &Known<'a>, e: u32, name: &Bytes) -> &'a [Raise]
    ensures { result.now ≡ raised k.now e name.now }
{
    match k.tables.file.children(e) {
        [statement, ..] => raised_in(k, k.facts.raised_at(*statement), name),
        [] => &[],
    }
}

fn takes(k: &Known<'_>, e: u32, name: &Bytes, taker: Taker<'_>, raise: Raise) -> bool
    ensures { (items : ℕ → Item) → result ≡ takes k.now items taker.entry e name.now raise }
{
    let objects = Objects::Of(k.facts.raising.objects(raise));
    match taker {
        Taker::Arm(declarations) => take_objects(k, &[], objects, declarations),
        Taker::Heading => fit_heading(k, e, name, objects),
    }
}

fn takes_name(k: &Known<'_>, e: u32, name: &Bytes, taker: Taker<'_>) -> bool
    ensures { (items : ℕ → Item) → result ≡ takes_name k.now (takes k.now items taker.entry e) e name.now }
{
    let mut raises = raised(k, e, name);
    while let [raise, rest @ ..] = raises {
        if !takes(k, e, name, taker, *raise) {
            return false;
        }
        raises = rest;
    }
    true
}

/// Whether all raises of these names in the statement of the Except or Resignal e are taken.
fn takes_all(k: &Known<'_>, e: u32, mut names: &[Bytes], taker: Taker<'_>) -> bool
    ensures { (items : ℕ → Item) → result ≡ takes_all k.now (takes k.now items taker.entry e) e names.entry.now }
{
    while let [name, rest @ ..] = names {
        if !takes_name(k, e, name, taker) {
            return false;
        }
        names = rest;
    }
    true
}

// ---- V23

/// Whether the arm n of the Except e doesn't take the objects of a raise that it names.
fn arm_misfits_by(k: &Known<'_>, n: u32, e: u32) -> bool
    ensures { (items : ℕ → Item) → result ≡ arm_misfits_by k.now items n e }
{
    let f = k.tables.file;
    !takes_any(f, n) && !takes_all(k, e, f.names(n), Taker::Arm(arm_declarations(k, n)))
}

fn arm_misfits(k: &Known<'_>, n: u32) -> bool
    ensures { (items : ℕ → Item) → result ≡ arm_misfits k.now items n (round_at k.now.tables.file.rounds.now n).parent }
{
    match k.tables.file.parent(n) {
        Some(e) => arm_misfits_by(k, n, e),
        None => false,
    }
}

/// Whether the variable of the others arm n, if it has one, takes a string.
fn takes_string(k: &Known<'_>, n: u32) -> bool
    ensures { (items : ℕ → Item) → result ≡ takes_string k.now items n (type_of k.now.tables.file.syntax.now (children k.now n)) }
{
    let f = k.tables.file;
    match leading_type(f, f.children(n)) {
        Some(t) => may_name_string(k, type_inside(f, n, t)),
        None => true,
    }
}

/// V23: the declarations of an arm don't take the objects of a raise of its name, or the variable of `others` no string (CLU
/// Reference Manual, section 12.2). In `q() except when e: end`, where `q` signals `e(int)`, at `when`.
pub fn v23(k: &Known<'_>, n: u32) -> bool
    ensures { (items : ℕ → Item) → result ≡ v23 k.now items n }
{
    match k.tables.file.kind(n) {
        NodeKind::When => arm_misfits(k, n),
        NodeKind::Others => !takes_string(k, n),
        _ => false,
    }
}

// ---- V24

/// V24: a name of the arm stands in one before it (section 12.2). In `except when e: when f, e: end` at the second `when`.
pub fn v24(k: &Known<'_>, n: u32) -> bool
    ensures { result ≡ (is_there kind.When (slice_get k.now.tables.file.syntax.now n) && is_set (slice_get k.now.tables.items.now.repeated.items n)) }
{
    is_kind(k.tables.file, NodeKind::When, n) && is_repeated(&k.tables, n)
}

// ---- V25

fn are_listed(k: &Known<'_>, n: u32, mut names: &[Bytes]) -> bool
    ensures { result ≡ list_all (is_listed k.now n) names.entry.now }
{
    while let [name, rest @ ..] = names {
        if !is_listed(k, n, name) {
            return false;
        }
        names = rest;
    }
    true
}

/// V25: a `signal` or `resignal` of a name that is neither in the heading nor `failure` (section 12.1). In
/// `start_up = proc () signal e` at `signal`.
pub fn v25(k: &Known<'_>, n: u32) -> bool
    ensures { result ≡ is_not_listed k.now (kind_in k.now n) n }
{
    match k.tables.file.kind(n) {
        NodeKind::Signal | NodeKind::Resignal => !are_listed(k, n, k.tables.file.names(n)),
        _ => false,
    }
}

// ---- V27

/// The arm to which an exit of this name goes: from an Except in whose statement it stands outward the first that has one.
fn arm_from(k: &Known<'_>, mut guard: Option<u32>, word: usize) -> Option<u32>
    ensures { result ≡ arm_from k.now (Some word) guard (length k.now.tables.file.rounds.now) }
{
    let mut left = k.tables.file.rounds.len();
    while let Some(e) = guard {
        if left == 0 {
            return None;
        }
        match k.tables.items.arm(e, word) {
            Some(arm) => return Some(arm),
            None => guard = k.tables.file.round(e).guard,
        }
        left -= 1;
    }
    None
}

/// The arm to which an exit of this name at the node n goes.
fn arm_named(k: &Known<'_>, n: u32, name: &Bytes) -> Option<u32>
    ensures { result ≡ arm_from k.now (number_of k.now name.now) (round_at k.now.tables.file.rounds.now n).guard (length k.now.tables.file.rounds.now) }
{
    match k.tables.words.find(name) {
        Some(word) => arm_from(k, k.tables.file.round(n).guard, word),
        None => None,
    }
}

fn arm_for(k: &Known<'_>, n: u32) -> Option<u32>
    ensures { result ≡ arm_for k.now n }
{
    match k.tables.file.names(n) {
        [name, ..] => arm_named(k, n, name),
        [] => None,
    }
}

/// V27: no `when` arm of that name is round the `exit` in the routine (section 12.3). In `begin exit e end except others: end` at
/// `exit`.
pub fn v27(k: &Known<'_>, n: u32) -> bool
    ensures { result ≡ lacks_arm k.now n }
{
    is_kind(k.tables.file, NodeKind::Exit, n) && arm_for(k, n).is_none()
}

// ---- V26

fn signals_other(k: &Known<'_>, n: u32) -> bool
    ensures { (items : ℕ → Item) → result ≡ signals_other k.now items n (names k.now n) }
{
    let f = k.tables.file;
    match f.names(n) {
        [name, ..] => !fit_heading(k, n, name, Objects::Values(f.children(n))),
        [] => false,
    }
}

/// Whether an arm takes these objects. A Decl in which a rule is violated takes all.
fn arm_takes(k: &Known<'_>, bad: &[bool], objects: Objects<'_>, arm: Option<u32>) -> bool
    ensures { (items : ℕ → Item) → result ≡ arm_takes k.now items bad.now (types_of k.now objects.entry) arm }
{
    match arm {
        Some(arm) => {
            takes_any(k.tables.file, arm) || take_objects(k, bad, objects, arm_declarations(k, arm))
        }
        None => true,
    }
}

/// Whether these types are one, string as callers see it.
fn is_string_outside(k: &Known<'_>, n: u32, types: &[u32]) -> bool
    ensures { (items : ℕ → Item) → result ≡ is_one_string k.now (map (type_outside k.now.tables.file items n) types.now) }
{
    match types {
        [t] => may_be_string(k, type_outside(k.tables.file, n, *t)),
        _ => false,
    }
}

/// Whether the Exc n lists `failure` with other than one type, string as callers see it.
fn is_other_failure(k: &Known<'_>, n: u32) -> bool
    ensures { (items : ℕ → Item) → result ≡ is_other_failure k.now items n (names k.now n) }
{
    let f = k.tables.file;
    match f.names(n) {
        [name, ..] => is_failure(name) && !is_string_outside(k, n, f.children(n)),
        [] => false,
    }
}

/// V26: the number or types of a signal don't fit the heading, those of an exit the arm, or those of a raise that is resignalled
/// the heading; or `failure` is listed with other than one string (section 12.1). In `p = proc () signals (e(int)) signal e("a")`
/// at `signal`.
pub fn v26(k: &Known<'_>, bad: &[bool], n: u32) -> bool
    ensures { (items : ℕ → Item) → result ≡ v26 k.now items bad.now n }
{
    let f = k.tables.file;
    match f.kind(n) {
        NodeKind::Signal => signals_other(k, n),
        NodeKind::Exit => { !arm_takes(k, bad, Objects::Values(f.children(n)), arm_for(k, n)) }
        NodeKind::Resignal => !takes_all(k, n, f.names(n), Taker::Heading),
        NodeKind::Exc => is_other_failure(k, n),
        _ => false,
    }
}
