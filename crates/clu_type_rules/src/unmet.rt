//! What is asked of types at nodes and not met (CLU Reference Manual, section 12.4). Each operation or module that asks is asked
//! once for all nodes at which the same where clauses count.

ghost use Rattle.std.specs.Prelude.{◌≡◌, ◌<◌, ◌≤◌, ℕ, length, map, flat_map, slice_get, IfOk, OnOk, Some};
ghost use Rattle.clu_types.specs.Arena.{types_of, Grows};
ghost use Rattle.clu_bindings.specs.Tables.{items_at};
ghost use Rattle.clu_typing.specs.Facts.{askers_at};
ghost use Rattle.clu_operations.specs.Finding.{found_at, asked_by};
ghost use Rattle.clu_operations.specs.Told.{told, ask_told};
ghost use Rattle.clu_operations.specs.Wished.{FindsOf, IsFinding};
ghost use Rattle.clu_type_rules.specs.Included.{may_be};
ghost use Rattle.clu_type_rules.specs.Needs.{if_asking, if_set, set_at, clauses_at, fitting_by, given_for, told_asked, world, need_of, with_asked, with_asked_if, Setting, IsPlace, IsThere, AreThere, Looks, Stands, Steps, AreAnswered, AreUnder, Comes, Rests, MeetsOne, MeetsAll};
ghost use Rattle.clu_type_rules.specs.Askers.{either, unmet_one, IsAsker, AreAskers, Keeps, Brings, asks_by, asks_by_all, AreFoundAt, FindsOn, with_finding};
ghost use Rattle.clu_type_rules.specs.Unmet.{unmet_at};

use crate::known::may_be;
use clu_base::Memory;
use clu_bindings::Headed;
use clu_operations::{
    Asked, Finding, FoundId, NameId, Shape, exported_operation, given_by, set_round, shape_of,
};
use clu_tree::NodeKind;
use clu_types::{TypeArena, TypeId};
use clu_typing::{Facts, Invocations};
use indexmap::IndexSet;
use std::collections::HashMap;

/// Whether something is asked and not met: by a `has` clause or a built-in operation, and by an `in` clause alone.
#[derive(Clone, Copy)]
pub struct Unmet {
    pub by_has: bool,
    pub by_in: bool,
}

const ALL_MET: Unmet = Unmet {
    by_has: false,
    by_in: false,
};

/// What is asked at the node n and not met.
pub fn unmet_at(unmet: &[Unmet], n: u32) -> Unmet
    ensures { result ≡ unmet_at unmet.now n }
{
    unmet.get(n as usize).copied().unwrap_or(ALL_MET)
}

/// The where clauses that count at a node: a Routine and a Cluster that ask something. In a type set, which gives something too,
/// each node has its own.
#[derive(Clone, Copy, PartialEq, Eq, Hash)]
pub struct Clauses {
    pub routine: Option<u32>,
    pub cluster: Option<u32>,
    pub set: Option<u32>,
}

/// What is asked under these clauses.
#[derive(Clone, Copy, PartialEq, Eq, Hash)]
pub struct Need {
    pub of: TypeId,
    pub operation: NameId,
    pub wanted: TypeId,
    pub under: Clauses,
}

/// What asks under these clauses.
#[derive(Clone, Copy, PartialEq, Eq, Hash)]
pub struct Asker {
    pub found: FoundId,
    pub under: Clauses,
}

/// What was met, with all that it asks in its turn; and what each asker came to.
#[derive(Drop)]
pub struct Meeting {
    pub met: IndexSet<Need>,
    pub askers: HashMap<Asker, Unmet>,
}

/// A node with the clauses that count there.
#[derive(Clone, Copy)]
pub struct Place<'a> {
    pub headed: Headed<'a>,
    pub node: u32,
    pub clauses: Clauses,
}

/// The node, if it asks something.
fn if_asking(headed: Headed<'_>, n: Option<u32>) -> Option<u32>
    ensures { result ≡ if_asking headed.entry n }
{
    let n = n?;
    match headed.heads.asked.of(n) {
        [] => None,
        [_, ..] => Some(n),
    }
}

fn if_set(n: u32, kind: NodeKind) -> Option<u32>
    ensures { result ≡ if_set n kind }
{
    match kind {
        NodeKind::TypeSet => Some(n),
        _ => None,
    }
}

/// The node n, if it is a type set or stands in one, which is the body of all that stands in it.
fn set_at(headed: Headed<'_>, n: u32) -> Option<u32>
    ensures { result ≡ set_at headed.entry n }
{
    let last = headed.file.round(n).body_last;
    if_set(n, headed.file.kind(n)).or(if_set(n, headed.file.kind(last)))
}

fn clauses_at(headed: Headed<'_>, n: u32) -> Clauses
    ensures { result ≡ clauses_at headed.entry n }
{
    let round = headed.file.round(n);
    Clauses {
        routine: if_asking(headed, round.routine),
        cluster: if_asking(headed, round.cluster),
        set: set_at(headed, n),
    }
}

fn need_of(asked: &Asked, under: Clauses) -> Need
    ensures { result ≡ need_of under asked.now }
{
    Need {
        of: asked.of,
        operation: asked.operation,
        wanted: asked.wanted,
        under,
    }
}

fn push_asked(met: &mut IndexSet<Need>, asked: &[Asked], under: Clauses) -> Result<(), Memory>
    ensures { OnOk result (met.new.keys ≡ with_asked under asked.now met.old.keys) }
{
    for one in asked {
        met.insert(need_of(one, under))?;
    }
    Ok(())
}

/// Whether an operation that was found has a type that is included in the wanted one; then what it asks is asked too.
fn answers(
    types: &TypeArena,
    finding: &Finding,
    met: &mut IndexSet<Need>,
    need: Need,
    found: FoundId,
) -> Result<bool, Memory>
    ensures fits { IfOk result (λ is. is ≡ may_be types.now (found_at finding.now.founds.items found).of (Some need.wanted)) }
    ensures keys { IfOk result (λ is. met.new.keys ≡ with_asked_if is need.under (asked_by finding.now found) met.old.keys) }
{
    if !may_be(types, finding.found(found).of, Some(need.wanted)) {
        return Ok(false);
    }
    push_asked(met, finding.asked_by(found), need.under)?;
    Ok(true)
}

/// What was found, if it may have a type that is included in the wanted one.
fn fitting(
    types: &TypeArena,
    finding: &Finding,
    found: Option<FoundId>,
    wanted: TypeId,
) -> Option<FoundId>
    ensures { result ≡ fitting_by types.now finding.now wanted found }
{
    let id = found?;
    if may_be(types, finding.found(id).of, Some(wanted)) {
        Some(id)
    } else {
        None
    }
}

/// What is given of a type parameter as it is asked for: of several where clauses the first that gives it so.
fn given_for(
    place: Place<'_>,
    types: &TypeArena,
    finding: &Finding,
    number: u32,
    need: Need,
) -> Option<FoundId>
    ensures { result ≡ given_for place.entry.headed types.now finding.now place.entry.node number need }
{
    let file = place.headed.file;
    let round = file.round(place.node);
    let set = set_round(file, place.node, number);
    let by_routine = given_by(finding, round.routine, number, need.operation);
    let by_cluster = given_by(finding, round.cluster, number, need.operation);
    let by_set = given_by(finding, set, number, need.operation);
    fitting(types, finding, by_routine, need.wanted)
        .or(fitting(types, finding, by_cluster, need.wanted))
        .or(fitting(types, finding, by_set, need.wanted))
}

/// The operation that is asked for at a place: of a type parameter what a where clause gives.
fn operation_of(
    place: Place<'_>,
    types: &mut TypeArena,
    finding: &mut Finding,
    need: Need,
) -> Result<Option<FoundId>, Memory>
    ensures found { IsThere (world types.old finding.old) need → IsFinding place.entry.headed types.old finding.old → IfOk result (FindsOf place.entry.headed types.old types.new finding.old finding.new need.of (told_asked place.entry.headed types.old finding.old.words place.entry.node need)) }
    ensures kept { Grows types.old types.new }
{
    match shape_of(types, need.of) {
        Shape::Parameter(number) => Ok(given_for(place, types, finding, number, need)),
        Shape::Builtin => exported_operation(place.headed, types, finding, need.of, need.operation),
        Shape::Cluster => exported_operation(place.headed, types, finding, need.of, need.operation),
    }
}

/// Whether what is asked at a place has an operation.
fn is_answered(
    place: Place<'_>,
    types: &mut TypeArena,
    finding: &mut Finding,
    met: &mut IndexSet<Need>,
    need: Need,
) -> Result<bool, Memory>
    ensures asked { (s : Setting) → IsPlace place.entry → need.under ≡ place.entry.clauses → Stands place.entry.headed s (world types.old finding.old) met.old.keys → IsThere (world types.old finding.old) need → IfOk result (Steps place.entry.headed s (world types.old finding.old) (world types.new finding.new) met.old.keys met.new.keys need) }
    ensures kept { Grows types.old types.new }
{
    let found = operation_of(place, types, finding, need)?;
    match found {
        Some(found) => answers(types, finding, met, need, found),
        None => Ok(false),
    }
}

/// Whether the need at this place of the list has its operation; what that asks is added.
fn ask(
    place: Place<'_>,
    types: &mut TypeArena,
    finding: &mut Finding,
    met: &mut IndexSet<Need>,
    at: usize,
) -> Result<bool, Memory>
    ensures asked { (s : Setting) → IsPlace place.entry → Stands place.entry.headed s (world types.old finding.old) met.old.keys → (need : Need) → slice_get met.old.keys at ≡ Some need → need.under ≡ place.entry.clauses → IfOk result (Steps place.entry.headed s (world types.old finding.old) (world types.new finding.new) met.old.keys met.new.keys need) }
    ensures kept { Grows types.old types.new }
{
    match met.get_index(at) {
        Some(need) => {
            let need = *need;
            is_answered(place, types, finding, met, need)
        }
        None => Ok(false),
    }
}

/// Whether all that is asked behind so many needs is met; the list grows by what that asks in its turn, which is of parts of types.
fn are_met_from(
    place: Place<'_>,
    types: &mut TypeArena,
    finding: &mut Finding,
    met: &mut IndexSet<Need>,
    before: usize,
) -> Result<bool, Memory>
    ensures asked { (s : Setting) → IsPlace place.entry → Stands place.entry.headed s (world types.old finding.old) met.old.keys → before ≤ 9223372036854775808 → AreUnder place.entry.clauses met.old.keys before → AreAnswered s (world types.old finding.old) met.old.keys before → IfOk result (Comes place.entry.headed s (world types.old finding.old) (world types.new finding.new) met.old.keys met.new.keys before) }
    ensures kept { Grows types.old types.new }
{
    for at in before..usize::MAX {
        if at >= met.len() {
            return Ok(true);
        }
        let is_answered = ask(place, types, finding, met, at)?;
        if !is_answered {
            return Ok(false);
        }
    }
    Ok(true)
}

/// Whether what is asked at a place is met.
fn is_met(
    place: Place<'_>,
    types: &mut TypeArena,
    finding: &mut Finding,
    met: &mut IndexSet<Need>,
    need: Need,
) -> Result<bool, Memory>
    ensures asked { (s : Setting) → IsPlace place.entry → need.under ≡ place.entry.clauses → Rests place.entry.headed s (world types.old finding.old) met.old.keys → IsThere (world types.old finding.old) need → IfOk result (MeetsOne place.entry.headed s (world types.old finding.old) (world types.new finding.new) met.new.keys need) }
    ensures kept { Grows types.old types.new }
{
    let before = met.len();
    met.insert(need)?;
    let all = are_met_from(place, types, finding, met, before)?;
    if all {
        Ok(true)
    } else {
        met.truncate(before);
        Ok(false)
    }
}

/// Something of either is not met.
fn either(a: Unmet, b: Unmet) -> Unmet
    ensures { result ≡ either a b }
{
    Unmet {
        by_has: a.by_has || b.by_has,
        by_in: a.by_in || b.by_in,
    }
}

fn unmet_one(is_met: bool, in_set: bool) -> Unmet
    ensures { result ≡ unmet_one is_met in_set }
{
    Unmet {
        by_has: !is_met && !in_set,
        by_in: !is_met && in_set,
    }
}

/// What of these is asked at a place and not met.
fn unmet_among(
    place: Place<'_>,
    types: &mut TypeArena,
    finding: &mut Finding,
    met: &mut IndexSet<Need>,
    asked: &[Asked],
) -> Result<Unmet, Memory>
    ensures asked { (s : Setting) → IsPlace place.entry → Rests place.entry.headed s (world types.old finding.old) met.old.keys → AreThere (world types.old finding.old) (map (need_of place.entry.clauses) asked.now) → IfOk result (MeetsAll place.entry.headed s (world types.old finding.old) (world types.new finding.new) met.new.keys place.entry.clauses (map (ask_told (types_of types.old) finding.old.words) asked.now)) }
    ensures kept { Grows types.old types.new }
{
    let mut unmet = ALL_MET;
    for one in asked {
        let met_one = is_met(place, types, finding, met, need_of(one, place.clauses))?;
        unmet = either(unmet, unmet_one(met_one, one.in_set));
    }
    Ok(unmet)
}

/// What an asker asks at a place that isn't met.
fn unmet_anew(
    place: Place<'_>,
    types: &mut TypeArena,
    finding: &mut Finding,
    meeting: &mut Meeting,
    asker: Asker,
) -> Result<Unmet, Memory>
    ensures asked { (s : Setting) → IsPlace place.entry → asker.under ≡ place.entry.clauses → Keeps place.entry.headed s (world types.old finding.old) meeting.old → IsAsker (world types.old finding.old) asker.found → IfOk result (Brings place.entry.headed s (world types.old finding.old) (world types.new finding.new) meeting.new place.entry.clauses (asks_by (world types.old finding.old) asker.found)) }
    ensures kept { Grows types.old types.new }
{
    let asked = finding
        .asked_by(asker.found)
        .to_vec(place.headed.file.alloc)?;
    let unmet = unmet_among(place, types, finding, &mut meeting.met, asked.as_slice())?;
    meeting.askers.insert(asker, unmet)?;
    Ok(unmet)
}

/// The same, found once.
fn unmet_by(
    place: Place<'_>,
    types: &mut TypeArena,
    finding: &mut Finding,
    meeting: &mut Meeting,
    found: FoundId,
) -> Result<Unmet, Memory>
    ensures asked { (s : Setting) → IsPlace place.entry → Keeps place.entry.headed s (world types.old finding.old) meeting.old → IsAsker (world types.old finding.old) found → IfOk result (Brings place.entry.headed s (world types.old finding.old) (world types.new finding.new) meeting.new place.entry.clauses (asks_by (world types.old finding.old) found)) }
    ensures kept { Grows types.old types.new }
{
    let asker = Asker {
        found,
        under: place.clauses,
    };
    match meeting.askers.get(&asker).copied() {
        Some(unmet) => Ok(unmet),
        None => unmet_anew(place, types, finding, meeting, asker),
    }
}

/// What these askers ask at a place that isn't met.
fn unmet_by_all(
    place: Place<'_>,
    types: &mut TypeArena,
    finding: &mut Finding,
    meeting: &mut Meeting,
    askers: &[FoundId],
) -> Result<Unmet, Memory>
    ensures asked { (s : Setting) → IsPlace place.entry → Keeps place.entry.headed s (world types.old finding.old) meeting.old → AreAskers (world types.old finding.old) askers.now → IfOk result (Brings place.entry.headed s (world types.old finding.old) (world types.new finding.new) meeting.new place.entry.clauses (asks_by_all (world types.old finding.old) askers.now)) }
    ensures kept { Grows types.old types.new }
{
    let mut all = ALL_MET;
    for found in askers {
        let unmet = unmet_by(place, types, finding, meeting, *found)?;
        all = either(all, unmet);
    }
    Ok(all)
}

/// What is asked at the node n that isn't met.
fn unmet_asked(
    headed: Headed<'_>,
    types: &mut TypeArena,
    finding: &mut Finding,
    meeting: &mut Meeting,
    n: u32,
    askers: &[FoundId],
) -> Result<Unmet, Memory>
    ensures asked { (s : Setting) → Keeps headed.entry s (world types.old finding.old) meeting.old → AreAskers (world types.old finding.old) askers.now → IfOk result (Brings headed.entry s (world types.old finding.old) (world types.new finding.new) meeting.new (clauses_at headed.entry n) (asks_by_all (world types.old finding.old) askers.now)) }
    ensures kept { Grows types.old types.new }
{
    let place = Place {
        headed,
        node: n,
        clauses: clauses_at(headed, n),
    };
    unmet_by_all(place, types, finding, meeting, askers)
}

/// The same; most nodes ask nothing.
#[tactic(auto, using(crate::proofs::Unmeeting::nothing_asked))]
fn unmet_of_node(
    headed: Headed<'_>,
    types: &mut TypeArena,
    finding: &mut Finding,
    meeting: &mut Meeting,
    n: u32,
    askers: &[FoundId],
) -> Result<Unmet, Memory>
    ensures asked { (s : Setting) → Keeps headed.entry s (world types.old finding.old) meeting.old → AreAskers (world types.old finding.old) askers.now → IfOk result (Brings headed.entry s (world types.old finding.old) (world types.new finding.new) meeting.new (clauses_at headed.entry n) (asks_by_all (world types.old finding.old) askers.now)) }
    ensures kept { Grows types.old types.new }
{
    match askers {
        [] => Ok(ALL_MET),
        [_, ..] => unmet_asked(headed, types, finding, meeting, n, askers),
    }
}

fn unmet_of_nodes(
    headed: Headed<'_>,
    types: &mut TypeArena,
    invocations: &Invocations,
    finding: &mut Finding,
    meeting: &mut Meeting,
) -> Result<Vec<Unmet>, Memory>
    ensures size { IfOk result (λ made. length made.items ≡ length headed.entry.file.syntax.now) }
    ensures unmet { (s : Setting) → Keeps headed.entry s (world types.old finding.old) meeting.old → ((n : ℕ) → AreAskers (world types.old finding.old) (askers_at invocations.now n)) → IfOk result (λ made. AreFoundAt headed.entry s (world types.old finding.old) invocations.now made.items) }
    ensures later { (s : Setting) → Keeps headed.entry s (world types.old finding.old) meeting.old → ((n : ℕ) → AreAskers (world types.old finding.old) (askers_at invocations.now n)) → OnOk result (FindsOn headed.entry (world types.old finding.old) (world types.new finding.new)) }
    ensures kept { Grows types.old types.new }
{
    let mut all = Vec::new(headed.file.alloc);
    for n in 0..headed.file.syntax.tree().len() {
        let askers = invocations.askers_at(n);
        all.push(unmet_of_node(headed, types, finding, meeting, n, askers)?)?;
    }
    Ok(all)
}

/// For each node what is asked there and not met. The only error is that memory runs out.
pub fn unmet_of(
    headed: Headed<'_>,
    types: &mut TypeArena,
    facts: &mut Facts,
) -> Result<Vec<Unmet>, Memory>
    ensures size { IfOk result (λ made. length made.items ≡ length headed.entry.file.syntax.now) }
    ensures unmet { (s : Setting) → Looks headed.entry s → s.start ≡ world types.old facts.old.finding → IsFinding headed.entry types.old facts.old.finding → ((n : ℕ) → AreAskers (world types.old facts.old.finding) (askers_at facts.old.invocations n)) → IfOk result (λ made. AreFoundAt headed.entry s (world types.old facts.old.finding) facts.old.invocations made.items) }
    ensures later { (s : Setting) → Looks headed.entry s → s.start ≡ world types.old facts.old.finding → IsFinding headed.entry types.old facts.old.finding → ((n : ℕ) → AreAskers (world types.old facts.old.finding) (askers_at facts.old.invocations n)) → OnOk result (FindsOn headed.entry (world types.old facts.old.finding) (world types.new facts.new.finding)) }
    ensures same { facts.new ≡ with_finding facts.old facts.new.finding }
    ensures kept { Grows types.old types.new }
{
    let meeting = Meeting {
        met: IndexSet::new(headed.file.alloc),
        askers: HashMap::new(headed.file.alloc),
    };
    let mut meeting = Box::new(headed.file.alloc, meeting)?;
    unmet_of_nodes(
        headed,
        types,
        &facts.invocations,
        &mut facts.finding,
        &mut meeting,
    )
}
