//! The parameters of the modules of a file with the types that they are declared with.

ghost use Rattle.std.specs.Prelude.{◌≡◌, ◌++◌, [], IfOk, OnOk, map, slice_get};
ghost use Rattle.clu_bindings.specs.Parameters.{of_parm, of_parms, of_unit, starts_of, parameters_of, AreParameters};

use crate::bindings::ParameterTypes;
use crate::headline::headline_at;
use crate::nodes::{children_of, names_of, type_of};
use clu_base::{Bytes, Memory};
use clu_head::is_at;
use clu_names::Names;
use clu_settle::{Parameters, number_parameters};
use clu_syntax::{Round, Syntax};
use clu_tree::{NodeKind, Tree};
use std::alloc::Global;

/// Appends the type with which these names are declared for each of them.
fn push_times(
    all: &mut Vec<Option<u32>>,
    mut names: &[Bytes],
    declared: Option<u32>,
) -> Result<(), Memory>
    ensures { OnOk result (all.new.items ≡ all.old.items ++ map (λ name. declared) names.entry.now) }
{
    while let [_, more @ ..] = names {
        all.push(declared)?;
        names = more;
    }
    Ok(())
}

/// Appends those of the node n, if it is a Parm.
fn push_parm(tree: &Tree, all: &mut Vec<Option<u32>>, n: u32) -> Result<(), Memory>
    ensures { OnOk result (all.new.items ≡ all.old.items ++ of_parm tree.now (slice_get tree.now n)) }
{
    if is_at(tree, n, NodeKind::Parm) {
        push_times(all, names_of(tree, n), type_of(tree, children_of(tree, n)))
    } else {
        Ok(())
    }
}

#[tactic(auto, unfolding(crate::specs::Parameters::of_parms))]
fn push_parms(tree: &Tree, all: &mut Vec<Option<u32>>, mut parms: &[u32]) -> Result<(), Memory>
    ensures { OnOk result (all.new.items ≡ all.old.items ++ of_parms tree.now parms.entry.now) }
{
    while let [n, more @ ..] = parms {
        push_parm(tree, all, *n)?;
        parms = more;
    }
    Ok(())
}

/// Appends those of the node n, if it is a Module.
fn push_unit(syntax: &Syntax, all: &mut Vec<Option<u32>>, n: u32) -> Result<(), Memory>
    ensures { OnOk result (all.new.items ≡ all.old.items ++ of_unit syntax.now n) }
{
    match headline_at(syntax, n) {
        Some(headline) => push_parms(syntax.tree(), all, headline.parameters),
        None => Ok(()),
    }
}

#[tactic(auto, unfolding(crate::specs::Tables::table_to, crate::specs::Tables::joined_to))]
fn push_units(
    syntax: &Syntax,
    starts: &mut Vec<usize>,
    all: &mut Vec<Option<u32>>,
) -> Result<(), Memory>
    requires starts { starts.old.items ≡ [] }
    requires all { all.old.items ≡ [] }
    ensures starts { OnOk result (starts.new.items ≡ starts_of syntax.now) }
    ensures all { OnOk result (all.new.items ≡ parameters_of syntax.now) }
{
    for n in 0..syntax.tree().len() {
        starts.push(all.len())?;
        push_unit(syntax, all, n)?;
    }
    Ok(())
}

/// The parameters of the modules of a file, where `rounds` is what surrounds its nodes. The only error is that memory runs
/// out.
pub fn parameters_of(
    alloc: Global,
    syntax: &Syntax,
    rounds: &[Round],
    names: &Names,
) -> Result<ParameterTypes, Memory>
    ensures { IfOk result (AreParameters syntax.now rounds.now names.now.declared.items) }
{
    let Parameters { numbers, counts } = number_parameters(
        alloc,
        syntax.tree(),
        rounds,
        names.declared.as_slice(),
    )?;
    let mut starts = Vec::new(alloc);
    let mut declared = Vec::new(alloc);
    push_units(syntax, &mut starts, &mut declared)?;
    Ok(ParameterTypes {
        numbers,
        counts,
        starts,
        declared,
    })
}
