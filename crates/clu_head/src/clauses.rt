//! What where clauses and type sets ask, in the order of the text.

ghost use Rattle.std.specs.Prelude.{◌≡◌, ◌++◌, [], ◌∷◌, map, IfOk, OnOk, slice_get, length};
ghost use Rattle.clu_tree.specs.declared.node.NodeKind.{NodeKind};
ghost use Rattle.clu_head.specs.There.{is_there};
ghost use Rattle.clu_head.specs.Asking.{count_of, unit_in, variable_of, asked_by_opers, asked_of_parameter, asked_by_parts, asked_by_restriction, asked_by_restrictions, asked_at, restricted_in, restrictions_in, untyped, asking_node, demanded, demanded_by};
ghost use Rattle.clu_head.specs.Asked.{demands_at, demands_to, starts_to};
ghost use Rattle.clu_head.specs.Wanted.{wanted_at, first_wanted, wanted_of, IsPutIf, IsWanted, HaveNamed, HaveAsked, AreAsked, asked_to};
ghost use Rattle.clu_types.specs.Arena.{Grows};

use crate::asked::Asked;
use crate::head::Demanded;
use crate::known::{Known, is_at, type_in, value_of};
use crate::parts::{had_operations, restrictions_of, set_operations};
use crate::refusals::is_refused;
use crate::restricted::restricted_in;
use crate::variables::Unchanged;
use clu_base::{Bytes, Memory};
use clu_syntax::Round;
use clu_tree::{Node, NodeKind};
use clu_types::{TypeArena, TypeId};
use std::alloc::Global;

/// The type set of an `in` clause.
#[derive(Clone, Copy)]
pub struct InSet {
    /// The Restrict that asks.
    pub node: u32,
    /// The number of the set's variable.
    pub variable: u32,
}

/// An Oper, and who asks by it of which parameter: the Oper itself, or an `in` clause, whose parameter is put in for the
/// variable of its set.
#[derive(Clone, Copy)]
pub struct Asking {
    pub oper: u32,
    pub parameter: u32,
    pub set: Option<InSet>,
}

// ---- who asks

fn count_of(counts: &[u32], unit: Option<u32>) -> u32
    ensures { result ≡ count_of counts.now unit }
{
    match unit {
        Some(unit) => match counts.get(unit as usize) {
            Some(count) => *count,
            None => 0,
        },
        None => 0,
    }
}

fn unit_of(rounds: &[Round], n: u32) -> Option<u32>
    ensures { result ≡ unit_in (slice_get rounds.now n) }
{
    match rounds.get(n as usize) {
        Some(round) => round.unit,
        None => None,
    }
}

/// The number of the variable of the type set n: it is a parameter after those of its module.
#[tactic(auto, unfolding(crate::specs::Asking::variable_of))]
fn variable_of(known: Known<'_>, n: u32) -> u32
    ensures { result ≡ variable_of known.entry.counts.now known.entry.rounds.now n }
{
    let count = count_of(known.counts, unit_of(known.rounds, n));
    n.saturating_add(1).saturating_add(count)
}

fn push_opers(
    all: &mut Vec<Asking>,
    parameter: u32,
    set: Option<InSet>,
    mut opers: &[u32],
) -> Result<(), Memory>
    ensures { OnOk result (all.new.items ≡ all.old.items ++ asked_by_opers parameter set opers.entry.now) }
{
    while let [oper, more @ ..] = opers {
        all.push(Asking {
            oper: *oper,
            parameter,
            set,
        })?;
        opers = more;
    }
    Ok(())
}

/// Appends what the Restrict n asks of a parameter, by the type set that it names or by its operations.
#[tactic(auto, unfolding(crate::specs::Asking::asked_of_parameter))]
fn push_of_parameter(
    known: Known<'_>,
    all: &mut Vec<Asking>,
    n: u32,
    parameter: u32,
    set: Option<u32>,
) -> Result<(), Memory>
    ensures { OnOk result (all.new.items ≡ all.old.items ++ asked_of_parameter known.entry.syntax.now known.entry.rounds.now known.entry.counts.now n parameter set) }
{
    match set {
        Some(of) => {
            let variable = variable_of(known, of);
            let set = Some(InSet { node: n, variable });
            push_opers(all, parameter, set, set_operations(known.syntax, of))
        }
        None => push_opers(all, parameter, None, had_operations(known.syntax, n)),
    }
}

/// The same, if it restricts one.
fn push_by_parts(
    known: Known<'_>,
    all: &mut Vec<Asking>,
    n: u32,
    parameter: Option<u32>,
    set: Option<u32>,
) -> Result<(), Memory>
    ensures { OnOk result (all.new.items ≡ all.old.items ++ asked_by_parts known.entry.syntax.now known.entry.rounds.now known.entry.counts.now n parameter set) }
{
    match parameter {
        Some(parameter) => push_of_parameter(known, all, n, parameter, set),
        None => Ok(()),
    }
}

/// Appends what the Restrict n asks; nothing if it restricts no type parameter.
#[tactic(auto, unfolding(crate::specs::Asking::asked_by_restriction))]
fn push_restriction(known: Known<'_>, all: &mut Vec<Asking>, n: u32) -> Result<(), Memory>
    ensures { OnOk result (all.new.items ≡ all.old.items ++ asked_by_restriction known.entry.syntax.now known.entry.rounds.now known.entry.counts.now known.entry.restricted.now n) }
{
    let restricted = restricted_in(known.restricted, n);
    push_by_parts(known, all, n, restricted.parameter, restricted.set)
}

fn push_restrictions(
    known: Known<'_>,
    all: &mut Vec<Asking>,
    mut restrictions: &[u32],
) -> Result<(), Memory>
    ensures { OnOk result (all.new.items ≡ all.old.items ++ asked_by_restrictions known.entry.syntax.now known.entry.rounds.now known.entry.counts.now known.entry.restricted.now restrictions.entry.now) }
{
    while let [n, more @ ..] = restrictions {
        push_restriction(known, all, *n)?;
        restrictions = more;
    }
    Ok(())
}

/// By which Opers the node n asks: of the variable of its own, if it is a TypeSet, and by its restrictions.
#[tactic(auto, unfolding(crate::specs::Asking::asked_at))]
fn asked_at(known: Known<'_>, n: u32) -> Result<Vec<Asking>, Memory>
    ensures { IfOk result (λ all. all.items ≡ asked_at known.entry.syntax.now known.entry.rounds.now known.entry.counts.now known.entry.restricted.now n) }
{
    let mut all = Vec::new(known.alloc);
    let variable = variable_of(known, n);
    push_opers(&mut all, variable, None, set_operations(known.syntax, n))?;
    push_restrictions(known, &mut all, restrictions_of(known.syntax, n))?;
    Ok(all)
}

// ---- what they ask

/// The node that asks.
fn asking_node(asking: Asking) -> u32
    ensures { result ≡ asking_node asking.oper asking.set }
{
    match asking.set {
        Some(set) => set.node,
        None => asking.oper,
    }
}

#[tactic(auto, unfolding(crate::specs::Asking::demanded))]
fn demanded(asking: Asking, wanted: Option<TypeId>, operation: Bytes) -> Demanded
    ensures { result ≡ demanded asking wanted operation }
{
    Demanded {
        node: asking_node(asking),
        parameter: asking.parameter,
        operation,
        wanted,
        in_set: asking.set.is_some(),
    }
}

fn push_names(
    alloc: Global,
    demands: &mut Vec<Demanded>,
    asking: Asking,
    wanted: Option<TypeId>,
    mut names: &[Bytes],
) -> Result<(), Memory>
    ensures { OnOk result (demands.new.items ≡ demands.old.items ++ demanded_by asking wanted names.entry.now) }
{
    while let [name, more @ ..] = names {
        demands.push(demanded(asking, wanted, name.copy(alloc)?))?;
        names = more;
    }
    Ok(())
}

/// The type at the node n, unless it is refused.
#[tactic(auto, unfolding(crate::specs::Wanted::wanted_at))]
fn wanted_at(known: Known<'_>, n: u32) -> Option<TypeId>
    ensures { result ≡ wanted_at known.entry.refused.now known.entry.rounds.now known.entry.values.now n }
{
    if is_refused(known.refused, known.rounds, n) {
        None
    } else {
        type_in(value_of(known.values, n))
    }
}

/// The same of the first of these nodes.
fn first_wanted(known: Known<'_>, nodes: &[u32]) -> Option<TypeId>
    ensures { result ≡ first_wanted known.entry.refused.now known.entry.rounds.now known.entry.values.now nodes.now }
{
    match nodes {
        [declared, ..] => wanted_at(known, *declared),
        [] => None,
    }
}

/// A type, if there is one, with the parameter put in for the variable.
#[tactic(auto, unfolding(crate::specs::Wanted::IsPutIf))]
fn put_if(
    alloc: Global,
    types: &mut TypeArena,
    unchanged: &mut Unchanged,
    variable: u32,
    parameter: u32,
    of: Option<TypeId>,
) -> Result<Option<TypeId>, Memory>
    ensures put { IfOk result (IsPutIf types.old types.new variable parameter of) }
    ensures kept { Grows types.old types.new }
{
    match of {
        Some(t) => unchanged.put(alloc, types, variable, parameter, t),
        None => Ok(None),
    }
}

/// A type as it is asked for.
#[tactic(auto, unfolding(crate::specs::Wanted::IsWanted))]
fn wanted_by(
    alloc: Global,
    types: &mut TypeArena,
    unchanged: &mut Unchanged,
    set: Option<InSet>,
    parameter: u32,
    of: Option<TypeId>,
) -> Result<Option<TypeId>, Memory>
    ensures wanted { IfOk result (IsWanted types.old types.new set parameter of) }
    ensures kept { Grows types.old types.new }
{
    match set {
        Some(set) => put_if(alloc, types, unchanged, set.variable, parameter, of),
        None => Ok(of),
    }
}

/// Appends what is asked by an Oper.
fn push_oper(
    known: Known<'_>,
    types: &mut TypeArena,
    unchanged: &mut Unchanged,
    demands: &mut Vec<Demanded>,
    asking: Asking,
    oper: &Node,
) -> Result<(), Memory>
    ensures named { OnOk result (HaveNamed known.entry types.old types.new asking oper.now demands.old.items demands.new.items) }
    ensures kept { Grows types.old types.new }
{
    let of = first_wanted(known, oper.children.as_slice());
    let wanted = wanted_by(
        known.alloc,
        types,
        unchanged,
        asking.set,
        asking.parameter,
        of,
    )?;
    push_names(known.alloc, demands, asking, wanted, oper.names.as_slice())?;
    Ok(())
}

/// The same of its node, if it is one.
fn push_asked(
    known: Known<'_>,
    types: &mut TypeArena,
    unchanged: &mut Unchanged,
    demands: &mut Vec<Demanded>,
    asking: Asking,
) -> Result<(), Memory>
    ensures asked { OnOk result (HaveAsked known.entry types.old types.new (asking ∷ []) demands.old.items demands.new.items) }
    ensures kept { Grows types.old types.new }
{
    if is_at(known.syntax.tree(), asking.oper, NodeKind::Oper) {
        let oper = known.syntax.tree().node(asking.oper);
        push_oper(known, types, unchanged, demands, asking, oper)?;
        Ok(())
    } else {
        Ok(())
    }
}

fn push_all_asked(
    known: Known<'_>,
    types: &mut TypeArena,
    unchanged: &mut Unchanged,
    demands: &mut Vec<Demanded>,
    all: &[Asking],
) -> Result<(), Memory>
    ensures asked { OnOk result (HaveAsked known.entry types.old types.new all.now demands.old.items demands.new.items) }
    ensures kept { Grows types.old types.new }
{
    for asking in all {
        push_asked(known, types, unchanged, demands, *asking)?;
    }
    Ok(())
}

/// Appends what the node n asks.
fn push_node(
    known: Known<'_>,
    types: &mut TypeArena,
    unchanged: &mut Unchanged,
    demands: &mut Vec<Demanded>,
    n: u32,
) -> Result<(), Memory>
    ensures asked { OnOk result (HaveAsked known.entry types.old types.new (asked_at known.entry.syntax.now known.entry.rounds.now known.entry.counts.now known.entry.restricted.now n) demands.old.items demands.new.items) }
    ensures kept { Grows types.old types.new }
{
    let all = asked_at(known, n)?;
    push_all_asked(known, types, unchanged, demands, all.as_slice())
}

fn push_all(
    known: Known<'_>,
    types: &mut TypeArena,
    unchanged: &mut Unchanged,
    starts: &mut Vec<usize>,
    demands: &mut Vec<Demanded>,
) -> Result<(), Memory>
    requires starts { starts.old.items ≡ [] }
    requires demands { demands.old.items ≡ [] }
    ensures starts { OnOk result (starts.new.items ≡ starts_to (demands_at known.entry.syntax.now known.entry.rounds.now known.entry.counts.now known.entry.restricted.now) (length known.entry.syntax.now)) }
    ensures demands { OnOk result (map untyped demands.new.items ≡ demands_to (demands_at known.entry.syntax.now known.entry.rounds.now known.entry.counts.now known.entry.restricted.now) (length known.entry.syntax.now)) }
    ensures asked { OnOk result (AreAsked known.entry types.old types.new (asked_to known.entry (length known.entry.syntax.now)) demands.new.items) }
    ensures kept { Grows types.old types.new }
{
    for n in 0..known.syntax.tree().len() {
        starts.push(demands.len())?;
        push_node(known, types, unchanged, demands, n)?;
    }
    Ok(())
}

/// What the nodes of the tree ask. The only error is that memory runs out.
pub fn asked_of(known: Known<'_>, types: &mut TypeArena) -> Result<Asked, Memory>
    ensures starts { IfOk result (λ asked. asked.starts.items ≡ starts_to (demands_at known.entry.syntax.now known.entry.rounds.now known.entry.counts.now known.entry.restricted.now) (length known.entry.syntax.now)) }
    ensures demands { IfOk result (λ asked. map untyped asked.demands.items ≡ demands_to (demands_at known.entry.syntax.now known.entry.rounds.now known.entry.counts.now known.entry.restricted.now) (length known.entry.syntax.now)) }
    ensures asked { IfOk result (λ asked. AreAsked known.entry types.old types.new (asked_to known.entry (length known.entry.syntax.now)) asked.demands.items) }
    ensures kept { Grows types.old types.new }
{
    let mut starts = Vec::with_capacity(known.alloc, known.syntax.tree().len() as usize)?;
    let mut demands = Vec::new(known.alloc);
    let mut unchanged = Unchanged::new(known.alloc);
    push_all(known, types, &mut unchanged, &mut starts, &mut demands)?;
    Ok(Asked { demands, starts })
}
