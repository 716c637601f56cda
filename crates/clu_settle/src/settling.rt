//! The values of all nodes of a tree, each found once, after those from which it is made.

ghost use Rattle.std.specs.Prelude.{◌≡◌, ◌<◌, ◌+◌, ℕ, true, List, Some, IfOk, OnOk, length, replicate, slice_get, eqb};
ghost use Rattle.std.specs.List.{IsDistinct};
ghost use Rattle.clu_names.specs.Denotes.{bound_to, starts_to};
ghost use Rattle.clu_meaning.specs.Scoping.{Scope};
ghost use Rattle.clu_settle.specs.declared.value.Value.{Value};
ghost use Rattle.clu_settle.specs.Names.{AreMeanings};
ghost use Rattle.clu_settle.specs.Meant.{meanings_of};
ghost use Rattle.clu_settle.specs.Steps.{ArePassed};
ghost use Rattle.clu_settle.specs.Settled.{AreSettled};
ghost use Rattle.clu_settle.specs.Lists.{value_of};
ghost use Rattle.clu_settle.specs.Lost.{IsLost, AreLost, AreRead, IsOrder};

use crate::graph::graph_of;
use crate::meanings::{Meaning, meanings};
use crate::node_values::{Asked, node_value};
use crate::value::Value;
use clu_base::Memory;
use clu_circles::{Circles, find_circles};
use clu_constants::Constants;
use clu_names::Names;
use clu_syntax::{Round, Syntax};
use clu_types::TypeArena;
use std::alloc::Global;

/// The values of the nodes of a tree.
#[derive(Drop)]
pub struct Values {
    pub types: TypeArena,
    /// The constants that values name.
    pub constants: Constants,
    /// For each node, by its number, what it comes to.
    pub values: Vec<Value>,
    /// For each node what its name stands for.
    pub meanings: Vec<Meaning>,
}

/// The same without what names stand for.
#[derive(Drop)]
struct Tables {
    types: TypeArena,
    constants: Constants,
    values: Vec<Value>,
}

/// Settles the node n, which stands next in an order.
fn settle_one(
    asked: Asked<'_>,
    types: &mut TypeArena,
    constants: &mut Constants,
    values: &mut [Value],
    n: u32,
) -> Result<(), Memory>
    requires inside { n < length asked.syntax.now }
    requires size { length values.old ≡ length asked.syntax.now }
    ensures known { OnOk result ((order : List ℕ) (p : ℕ) → slice_get order p ≡ Some n → ArePassed asked.entry.syntax.now asked.entry.meanings.now order p types.old constants.old values.old → ArePassed asked.entry.syntax.now asked.entry.meanings.now order (p + 1) types.new constants.new values.new) }
    ensures lost { OnOk result ((order : List ℕ) (p : ℕ) → IsOrder asked.entry.syntax.now asked.entry.meanings.now order → slice_get order p ≡ Some n → ArePassed asked.entry.syntax.now asked.entry.meanings.now order p types.old constants.old values.old → AreLost asked.entry.syntax.now asked.entry.meanings.now order p values.old → AreLost asked.entry.syntax.now asked.entry.meanings.now order (p + 1) values.new) }
{
    let value = node_value(asked, types, constants, values, n)?;
    values[n as usize] = value;
    Ok(())
}

/// The same of a number that may be no node.
fn settle_at(
    asked: Asked<'_>,
    types: &mut TypeArena,
    constants: &mut Constants,
    values: &mut [Value],
    place: usize,
) -> Result<(), Memory>
    requires { length values.old ≡ length asked.syntax.now }
    ensures known { OnOk result ((order : List ℕ) (p : ℕ) → slice_get order p ≡ Some place → ArePassed asked.entry.syntax.now asked.entry.meanings.now order p types.old constants.old values.old → ArePassed asked.entry.syntax.now asked.entry.meanings.now order (p + 1) types.new constants.new values.new) }
    ensures lost { OnOk result ((order : List ℕ) (p : ℕ) → IsOrder asked.entry.syntax.now asked.entry.meanings.now order → slice_get order p ≡ Some place → ArePassed asked.entry.syntax.now asked.entry.meanings.now order p types.old constants.old values.old → AreLost asked.entry.syntax.now asked.entry.meanings.now order p values.old → AreLost asked.entry.syntax.now asked.entry.meanings.now order (p + 1) values.new) }
{
    if place < asked.syntax.tree().len() as usize {
        settle_one(asked, types, constants, values, place as u32)
    } else {
        Ok(())
    }
}

fn settle_all(
    asked: Asked<'_>,
    types: &mut TypeArena,
    constants: &mut Constants,
    values: &mut [Value],
    order: &[usize],
) -> Result<(), Memory>
    requires order { IsOrder asked.syntax.now asked.meanings.now order.now }
    requires known { ArePassed asked.syntax.now asked.meanings.now order.now 0 types.old constants.old values.old }
    requires lost { AreLost asked.syntax.now asked.meanings.now order.now 0 values.old }
    ensures known { OnOk result (ArePassed asked.entry.syntax.now asked.entry.meanings.now order.now (length order.now) types.new constants.new values.new) }
    ensures lost { OnOk result (AreLost asked.entry.syntax.now asked.entry.meanings.now order.now (length order.now) values.new) }
{
    for place in order {
        settle_at(asked, types, constants, values, *place)?;
    }
    Ok(())
}

/// So many values, of which nothing is known yet.
fn all_lost(alloc: Global, count: u32) -> Result<Vec<Value>, Memory>
    ensures { IfOk result (λ values. values.items ≡ replicate count Value.Lost) }
{
    Ok(vec![in alloc; Value::Lost; count as usize]?)
}

fn settle_in(alloc: Global, asked: Asked<'_>, order: &[usize]) -> Result<Tables, Memory>
    requires distinct { IsDistinct eqb order.now }
    requires order { IsOrder asked.syntax.now asked.meanings.now order.now }
    ensures known { IfOk result (λ all. (scope : Scope) → AreMeanings asked.entry.syntax.now scope asked.entry.meanings.now → AreSettled asked.entry.syntax.now scope all.types all.constants all.values.items) }
    ensures lost { IfOk result (λ all. (n : ℕ) → n < length asked.entry.syntax.now → value_of all.values.items n ≡ Value.Lost → IsLost asked.entry.syntax.now asked.entry.meanings.now n) }
    ensures read { IfOk result (λ all. AreRead asked.entry.syntax.now asked.entry.meanings.now all.values.items) }
{
    let len = asked.syntax.tree().len();
    let mut values = all_lost(alloc, len)?;
    let mut constants = Constants::new(alloc);
    let mut types = TypeArena::new(alloc);
    settle_all(asked, &mut types, &mut constants, &mut values, order)?;
    Ok(Tables {
        types,
        constants,
        values,
    })
}

fn order_of(alloc: Global, syntax: &Syntax, meanings: &[Meaning]) -> Result<Circles, Memory>
    ensures distinct { IfOk result (λ found. IsDistinct eqb found.order.items) }
    ensures order { IfOk result (λ found. IsOrder syntax.now meanings.now found.order.items) }
{
    let graph = graph_of(alloc, syntax.tree(), meanings)?;
    find_circles(alloc, graph.targets.as_slice(), graph.spans.as_slice())
}

/// The values of the nodes of a tree, by what the name of each node stands for.
fn settle_by(alloc: Global, syntax: &Syntax, meanings: &[Meaning]) -> Result<Tables, Memory>
    ensures known { IfOk result (λ all. (scope : Scope) → AreMeanings syntax.now scope meanings.now → AreSettled syntax.now scope all.types all.constants all.values.items) }
    ensures lost { IfOk result (λ all. (n : ℕ) → n < length syntax.now → value_of all.values.items n ≡ Value.Lost → IsLost syntax.now meanings.now n) }
    ensures read { IfOk result (λ all. AreRead syntax.now meanings.now all.values.items) }
{
    let found = order_of(alloc, syntax, meanings)?;
    let asked = Asked {
        alloc,
        syntax,
        meanings,
    };
    settle_in(alloc, asked, found.order.as_slice())
}

/// The values of the nodes of a tree, whose names are bound so; `rounds` is what surrounds its nodes. The only error is that
/// memory runs out.
pub fn settle(
    alloc: Global,
    syntax: &Syntax,
    rounds: &[Round],
    names: &Names,
) -> Result<Values, Memory>
    requires bound { names.now.bound.items ≡ bound_to syntax.now names.now.declared.items (length syntax.now) }
    requires starts { names.now.starts.items ≡ starts_to syntax.now names.now.declared.items (length syntax.now) }
    ensures meanings { IfOk result (λ all. all.meanings.items ≡ meanings_of syntax.now rounds.now names.now.declared.items) }
    ensures known { IfOk result (λ all. (scope : Scope) → AreMeanings syntax.now scope all.meanings.items → AreSettled syntax.now scope all.types all.constants all.values.items) }
    ensures lost { IfOk result (λ all. (n : ℕ) → n < length syntax.now → value_of all.values.items n ≡ Value.Lost → IsLost syntax.now all.meanings.items n) }
    ensures read { IfOk result (λ all. AreRead syntax.now all.meanings.items all.values.items) }
{
    let meanings = meanings(alloc, syntax, rounds, names)?;
    let Tables {
        types,
        constants,
        values,
    } = settle_by(alloc, syntax, meanings.as_slice())?;
    Ok(Values {
        types,
        constants,
        values,
        meanings,
    })
}
