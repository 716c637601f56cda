//! What names stand for in constants and types.

ghost use Rattle.std.specs.Prelude.{◌≡◌, ◌<◌, List, IfOk, length, get_or, slice_get};
ghost use Rattle.clu_tree.specs.declared.node.NodeKind.{NodeKind};
ghost use Rattle.clu_syntax.specs.declared.round.Round.{Round};
ghost use Rattle.clu_syntax.specs.Kinds.{kind_at};
ghost use Rattle.clu_syntax.specs.Nodes.{item_at};
ghost use Rattle.clu_names.specs.Denotes.{bound_to, starts_to};
ghost use Rattle.clu_settle.specs.Names.{meaning_in};
ghost use Rattle.clu_settle.specs.Parameters.{AreNumbered};
ghost use Rattle.clu_settle.specs.Meant.{equated_by, right_of, parameter_as, parameter_in, variable_in, definition_in, declared_in, declared_at, declared_to, bound_to_one, meant_at, meant_to, meanings_of};

use crate::parameters::{Parameters, count_in, kind_of, number_parameters};
use clu_base::Memory;
use clu_names::{Declared, Names};
use clu_syntax::{Round, Syntax};
use clu_tree::{NodeKind, Tree};
use std::alloc::Global;

/// What a name stands for.
#[derive(Clone, Copy)]
pub enum Meaning {
    /// An equate, by the node of the constant or type on its right side.
    Equate(u32),
    TypeParameter(u32),
    ConstantParameter(u32),
    /// A module of the file or of the library.
    Module,
    /// A variable, a routine of a cluster, a type set; also that the node has no name.
    Other,
}

/// A constant or type that is equated to a name, by its node; a type set is none.
fn equated_by(kind: NodeKind, c: u32) -> Meaning
    ensures { result ≡ equated_by kind c }
{
    match kind {
        NodeKind::TypeSet => Meaning::Other,
        _ => Meaning::Equate(c),
    }
}

/// The right side of an Equate, of which these are the children.
fn right_of(tree: &Tree, children: &[u32]) -> Meaning
    ensures { result ≡ right_of tree.now children.now }
{
    match children {
        [] => Meaning::Other,
        [c, ..] => equated_by(kind_of(tree, Some(*c)), *c),
    }
}

/// The parameter of this number that the Parm n declares; without a number it declares none.
fn parameter(syntax: &Syntax, n: u32, number: u32) -> Meaning
    requires inside { n < length syntax.now }
    requires kind { kind_at syntax.now n ≡ NodeKind.Parm }
    ensures { result ≡ parameter_in (item_at syntax.now n).parameter.type number }
{
    if number == 0 {
        Meaning::Module
    } else {
        numbered(syntax, n, number)
    }
}

fn numbered(syntax: &Syntax, n: u32, number: u32) -> Meaning
    requires inside { n < length syntax.now }
    requires kind { kind_at syntax.now n ≡ NodeKind.Parm }
    ensures { result ≡ parameter_as (item_at syntax.now n).parameter.type number }
{
    match syntax.parameter(n).declared {
        None => Meaning::TypeParameter(number),
        Some(_) => Meaning::ConstantParameter(number),
    }
}

/// The variable of the type set n is a parameter after those of its module, of a number that no other set has.
fn variable(n: u32, count: u32) -> Meaning
    ensures { result ≡ variable_in n count }
{
    Meaning::TypeParameter(n.saturating_add(1).saturating_add(count))
}

/// A module, or a routine of a cluster.
fn definition(unit: Option<u32>) -> Meaning
    ensures { result ≡ definition_in unit }
{
    match unit {
        Some(_) => Meaning::Other,
        None => Meaning::Module,
    }
}

/// What the node n declares in a module that has so many parameters. A parameter has this number.
fn declared_in(syntax: &Syntax, n: u32, unit: Option<u32>, count: u32, number: u32) -> Meaning
    requires { n < length syntax.now }
    ensures { result ≡ declared_in syntax.now (kind_at syntax.now n) n unit count number }
{
    let node = syntax.tree().node(n);
    match node.kind {
        NodeKind::Equate => right_of(syntax.tree(), node.children.as_slice()),
        NodeKind::Parm => parameter(syntax, n, number),
        NodeKind::TypeSet => variable(n, count),
        NodeKind::Routine | NodeKind::Cluster => definition(unit),
        _ => Meaning::Other,
    }
}

fn number_at(numbers: &[u32], place: usize) -> u32
    ensures { result ≡ get_or numbers.now place 0 }
{
    match numbers.get(place) {
        Some(number) => *number,
        None => 0,
    }
}

/// What the declaration at this place declares.
fn declared_at(
    syntax: &Syntax,
    declared: &[Declared],
    parameters: &Parameters,
    place: usize,
) -> Meaning
    requires { place < length declared.now }
    ensures { (rounds : List Round) → AreNumbered syntax.now rounds declared.now parameters.now → result ≡ declared_at syntax.now rounds declared.now place (slice_get declared.now place) }
{
    let one = &declared[place];
    if one.node >= syntax.tree().len() {
        return Meaning::Other;
    }
    let count = count_in(parameters.counts.as_slice(), one.unit);
    let number = number_at(parameters.numbers.as_slice(), place);
    declared_in(syntax, one.node, one.unit, count, number)
}

/// What each declaration declares.
#[tactic(auto, unfolding(crate::specs::Meant::declared_to))]
fn of_declarations(
    alloc: Global,
    syntax: &Syntax,
    rounds: &[Round],
    declared: &[Declared],
) -> Result<Vec<Meaning>, Memory>
    ensures { IfOk result (λ all. all.items ≡ declared_to syntax.now rounds.now declared.now (length declared.now)) }
{
    let parameters = number_parameters(alloc, syntax.tree(), rounds, declared)?;
    let mut all = Vec::new(alloc);
    for place in 0..declared.len() {
        all.push(declared_at(syntax, declared, &parameters, place))?;
    }
    Ok(all)
}

/// What a name stands for that is bound to a declaration, or to none; one that no declaration declares is that of a module.
fn of_bound(declared: &[Meaning], bound: Option<usize>) -> Meaning
    ensures { result ≡ bound_to_one declared.now bound }
{
    match bound {
        Some(place) => match declared.get(place) {
            Some(meaning) => *meaning,
            None => Meaning::Other,
        },
        None => Meaning::Module,
    }
}

/// The meaning that is kept for the node n.
pub fn meaning_at(meanings: &[Meaning], n: u32) -> Meaning
    ensures { result ≡ meaning_in (slice_get meanings.now n) }
{
    match meanings.get(n as usize) {
        Some(meaning) => *meaning,
        None => Meaning::Other,
    }
}

/// What the first name of the node n stands for.
fn of_node(tree: &Tree, names: &Names, declared: &[Meaning], n: u32) -> Meaning
    requires inside { n < length tree.now }
    requires bound { names.now.bound.items ≡ bound_to tree.now names.now.declared.items (length tree.now) }
    requires starts { names.now.starts.items ≡ starts_to tree.now names.now.declared.items (length tree.now) }
    ensures { result ≡ meant_at tree.now names.now.declared.items declared.now n }
{
    match tree.node(n).kind {
        NodeKind::Name | NodeKind::NameT | NodeKind::Simple => match names.of(tree, n) {
            [bound, ..] => of_bound(declared, *bound),
            [] => Meaning::Other,
        },
        _ => Meaning::Other,
    }
}

#[tactic(auto, unfolding(crate::specs::Meant::meant_to))]
fn of_nodes(
    alloc: Global,
    tree: &Tree,
    names: &Names,
    declared: &[Meaning],
) -> Result<Vec<Meaning>, Memory>
    requires bound { names.now.bound.items ≡ bound_to tree.now names.now.declared.items (length tree.now) }
    requires starts { names.now.starts.items ≡ starts_to tree.now names.now.declared.items (length tree.now) }
    ensures { IfOk result (λ all. all.items ≡ meant_to tree.now names.now.declared.items declared.now (length tree.now)) }
{
    let mut all = Vec::with_capacity(alloc, tree.len() as usize)?;
    for n in 0..tree.len() {
        all.push(of_node(tree, names, declared, n))?;
    }
    Ok(all)
}

/// What the name of each node that is a name, a type by its name or the word `rep` stands for; of any other node Other.
/// `rounds` is what surrounds the nodes. The only error is that memory runs out.
pub fn meanings(
    alloc: Global,
    syntax: &Syntax,
    rounds: &[Round],
    names: &Names,
) -> Result<Vec<Meaning>, Memory>
    requires bound { names.now.bound.items ≡ bound_to syntax.now names.now.declared.items (length syntax.now) }
    requires starts { names.now.starts.items ≡ starts_to syntax.now names.now.declared.items (length syntax.now) }
    ensures { IfOk result (λ all. all.items ≡ meanings_of syntax.now rounds.now names.now.declared.items) }
{
    let declared = of_declarations(alloc, syntax, rounds, names.declared.as_slice())?;
    of_nodes(alloc, syntax.tree(), names, declared.as_slice())
}
