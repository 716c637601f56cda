//! What of the raises of a statement isn't taken by the arms of the Except, or the names of the Resignal, round it.

ghost use Rattle.std.specs.Prelude.{◌≡◌, ◌++◌, [], List, IfOk, OnOk};
ghost use Rattle.std.specs.List.{list_any};
ghost use Rattle.clu_types.specs.declared.term.Term.{Term};
ghost use Rattle.clu_typing.specs.Raises.{with_number, numbers_taken, raised_told, numbers_behind, guards, statement_in, arms_in, is_others, numbers_of_arms, passed_on, passed_from, passed_told, taken_at, told_without, AreGathered, StayBut, AreSets};
ghost use Rattle.clu_typing.specs.Raising.{AreRaises, AscendByNumber, IsSet, IsSetOf, Told, set_told};
ghost use Rattle.clu_typing.specs.Sets.{HaveSame};

use crate::facts::Facts;
use crate::raising::{NOTHING, RaisesId, Raising};
use clu_base::{Bytes, Memory};
use clu_bindings::File;
use clu_operations::{NameId, Words};
use clu_tree::NodeKind;
use std::alloc::Global;

/// Whether the node n is an Except or a Resignal.
pub fn guards(file: File<'_>, n: u32) -> bool
    ensures { result ≡ guards file.entry n }
{
    match file.kind(n) {
        NodeKind::Except | NodeKind::Resignal => true,
        _ => false,
    }
}

/// The statement in an Except or a Resignal n.
fn statement(file: File<'_>, n: u32) -> Option<u32>
    ensures { result ≡ statement_in file.entry n }
{
    file.children(n).first().copied()
}

/// What stands behind the statement in the node n.
pub fn arms<'a>(file: File<'a>, n: u32) -> &'a [u32]
    ensures { result.now ≡ arms_in file.entry n }
{
    match file.children(n) {
        [_, arms @ ..] => arms,
        [] => &[],
    }
}

/// Appends the number of a name that is kept; of another nothing is raised.
fn push_number(list: &mut Vec<NameId>, words: &Words, name: &Bytes) -> Result<(), Memory>
    ensures { OnOk result (list.new.items ≡ with_number words.now list.old.items name.now) }
{
    match words.named(name) {
        Some(id) => {
            list.push(id)?;
            Ok(())
        }
        None => Ok(()),
    }
}

fn push_numbers(list: &mut Vec<NameId>, words: &Words, names: &[Bytes]) -> Result<(), Memory>
    ensures { OnOk result (list.new.items ≡ numbers_behind words.now list.old.items names.now) }
{
    for name in names {
        push_number(list, words, name)?;
    }
    Ok(())
}

fn push_arms(
    list: &mut Vec<NameId>,
    file: File<'_>,
    words: &Words,
    arms: &[u32],
) -> Result<(), Memory>
    ensures { OnOk result (list.new.items ≡ numbers_of_arms file.entry words.now list.old.items arms.now) }
{
    for arm in arms {
        push_numbers(list, words, file.names(*arm))?;
    }
    Ok(())
}

/// These names in ascending order.
fn ascending(names: Vec<NameId>) -> Vec<NameId>
    ensures ascends { AscendByNumber result.items }
    ensures same { HaveSame result.items names.items }
{
    let mut names = names;
    names.sort_unstable_by_key(
        |name: &NameId| -> usize
            ensures { result ≡ name.now.0 }
        { name.0 },
    );
    names
}

fn numbers_of(alloc: Global, words: &Words, names: &[Bytes]) -> Result<Vec<NameId>, Memory>
    ensures { IfOk result (λ list. list.items ≡ numbers_behind words.now [] names.now) }
{
    let mut list = Vec::new(alloc);
    push_numbers(&mut list, words, names)?;
    Ok(list)
}

fn numbers_of_arms(file: File<'_>, words: &Words, arms: &[u32]) -> Result<Vec<NameId>, Memory>
    ensures { IfOk result (λ list. list.items ≡ numbers_of_arms file.entry words.now [] arms.now) }
{
    let mut list = Vec::new(file.alloc);
    push_arms(&mut list, file, words, arms)?;
    Ok(list)
}

/// The names that the Except or Resignal n takes.
fn numbers_taken(file: File<'_>, words: &Words, n: u32, arms: &[u32]) -> Result<Vec<NameId>, Memory>
    ensures { IfOk result (λ list. list.items ≡ numbers_taken file.entry words.now n arms.now) }
{
    match file.kind(n) {
        NodeKind::Resignal => numbers_of(file.alloc, words, file.names(n)),
        _ => numbers_of_arms(file, words, arms),
    }
}

/// The same in ascending order.
fn taken(file: File<'_>, words: &Words, n: u32, arms: &[u32]) -> Result<Vec<NameId>, Memory>
    ensures ascends { IfOk result (λ list. AscendByNumber list.items) }
    ensures same { IfOk result (λ list. HaveSame list.items (numbers_taken file.entry words.now n arms.now)) }
{
    let list = numbers_taken(file, words, n, arms)?;
    Ok(ascending(list))
}

/// Whether one of these arms takes all that no other does.
fn has_others(file: File<'_>, arms: &[u32]) -> bool
    ensures { result ≡ list_any (is_others file.entry) arms.now }
{
    for arm in arms {
        if is_others(file, *arm) {
            return true;
        }
    }
    false
}

fn is_others(file: File<'_>, n: u32) -> bool
    ensures { result ≡ is_others file.entry n }
{
    match file.kind(n) {
        NodeKind::Others => true,
        _ => false,
    }
}

/// What of the raises of a statement isn't taken by name by the Except or Resignal n round it.
fn left(
    file: File<'_>,
    raising: &mut Raising,
    words: &Words,
    n: u32,
    arms: &[u32],
    set: RaisesId,
) -> Result<RaisesId, Memory>
    ensures { (terms : List Term) → AreRaises terms words.now raising.old → IsSet raising.old set → IfOk result (IsSetOf terms words.now words.now raising.old raising.new (told_without (taken_at file.entry n arms.now) (set_told terms words.now raising.old set))) }
{
    let names = taken(file, words, n, arms)?;
    raising.without(file.alloc, set, names.as_slice())
}

/// The same, by name or by others.
fn passed_on(
    file: File<'_>,
    raising: &mut Raising,
    words: &Words,
    n: u32,
    arms: &[u32],
    set: RaisesId,
) -> Result<RaisesId, Memory>
    ensures { (terms : List Term) → AreRaises terms words.now raising.old → IsSet raising.old set → IfOk result (IsSetOf terms words.now words.now raising.old raising.new (passed_on file.entry n arms.now (set_told terms words.now raising.old set))) }
{
    if has_others(file, arms) {
        Ok(NOTHING)
    } else {
        left(file, raising, words, n, arms, set)
    }
}

/// The same of what this statement raises.
fn passed_of(
    file: File<'_>,
    facts: &mut Facts,
    n: u32,
    statement: u32,
    arms: &[u32],
) -> Result<RaisesId, Memory>
    ensures kept { StayBut facts.old facts.new }
    ensures named { facts.new.finding.words ≡ facts.old.finding.words }
    ensures passed { (terms : List Term) → AreSets facts.old → AreRaises terms facts.old.finding.words facts.old.raising → IfOk result (IsSetOf terms facts.old.finding.words facts.old.finding.words facts.old.raising facts.new.raising (passed_on file.entry n arms.now (raised_told terms facts.old statement))) }
{
    let set = facts.raised_at(statement);
    let words = &facts.finding.words;
    passed_on(file, &mut facts.raising, words, n, arms, set)
}

/// Appends it.
fn push_set(
    list: &mut Vec<RaisesId>,
    file: File<'_>,
    facts: &mut Facts,
    n: u32,
    statement: u32,
    arms: &[u32],
) -> Result<(), Memory>
    ensures kept { StayBut facts.old facts.new }
    ensures named { facts.new.finding.words ≡ facts.old.finding.words }
    ensures passed { (terms : List Term) (told : List Told) → AreSets facts.old → AreGathered terms facts.old.finding.words facts.old.raising facts.old.finding.words facts.old.raising list.old.items told → OnOk result (AreGathered terms facts.old.finding.words facts.old.raising facts.new.finding.words facts.new.raising list.new.items (told ++ passed_on file.entry n arms.now (raised_told terms facts.old statement))) }
{
    let set = passed_of(file, facts, n, statement, arms)?;
    list.push(set)?;
    Ok(())
}

/// The same of the statement in the node n.
fn push_passed(
    list: &mut Vec<RaisesId>,
    file: File<'_>,
    facts: &mut Facts,
    n: u32,
) -> Result<(), Memory>
    ensures kept { StayBut facts.old facts.new }
    ensures named { facts.new.finding.words ≡ facts.old.finding.words }
    ensures passed { (terms : List Term) (told : List Told) → AreSets facts.old → AreGathered terms facts.old.finding.words facts.old.raising facts.old.finding.words facts.old.raising list.old.items told → OnOk result (AreGathered terms facts.old.finding.words facts.old.raising facts.new.finding.words facts.new.raising list.new.items (told ++ passed_from file.entry terms facts.old n (statement_in file.entry n))) }
{
    match statement(file, n) {
        Some(statement) => push_set(list, file, facts, n, statement, arms(file, n)),
        None => Ok(()),
    }
}

/// The same, if the node n is an Except or a Resignal.
pub fn push_guarded(
    list: &mut Vec<RaisesId>,
    file: File<'_>,
    facts: &mut Facts,
    n: u32,
) -> Result<(), Memory>
    ensures kept { StayBut facts.old facts.new }
    ensures named { facts.new.finding.words ≡ facts.old.finding.words }
    ensures passed { (terms : List Term) (told : List Told) → AreSets facts.old → AreGathered terms facts.old.finding.words facts.old.raising facts.old.finding.words facts.old.raising list.old.items told → OnOk result (AreGathered terms facts.old.finding.words facts.old.raising facts.new.finding.words facts.new.raising list.new.items (told ++ passed_told file.entry terms facts.old n)) }
{
    if guards(file, n) {
        push_passed(list, file, facts, n)
    } else {
        Ok(())
    }
}
