//! What the uses of a routine denote, among what is kept.

ghost use Rattle.std.specs.Prelude.{◌≡◌, ◌<◌, length, IfOk, OnOk};
ghost use Rattle.clu_types.specs.Arena.{type_at, types_of, Grows};
ghost use Rattle.clu_builtin.specs.Built.{NeedsBelow};
ghost use Rattle.clu_builtin.specs.Table.{operation};
ghost use Rattle.clu_reach.specs.Uses.{IsSortOf, sort_of_built};

use crate::errors::LinkError;
use crate::member::Member;
use crate::parameters::member_of;
use clu_base::{Bytes, Memory};
use clu_builtin::{Builtin, Need, heading};
use clu_core::term;
use clu_demands::{are_of_kinds, meets};
use clu_library::Library;
use clu_specs::Form;
use clu_types::{Actual, Term, TypeArena, TypeId};
use std::alloc::Global;

/// A use that denotes something.
#[derive(Drop)]
pub enum Use {
    /// A routine of a module, the setting up of a cluster's own variables, or an operation that uses others: one that is
    /// defined by a text, or uses those of its type's components.
    Instance(Member),
    /// An operation that is code of the linker's own.
    Operation(Member),
}

/// Which of the two a use is.
#[derive(Clone, Copy)]
enum Sort {
    Instance,
    Operation,
}

/// Whether it is asked that the operations are there which a built-in operation needs.
#[derive(Clone, Copy, PartialEq, Eq)]
pub enum Needs {
    Asked,
    /// It was asked of the operation whose code has the use, and that needs no less.
    Met,
}

/// What the uses of these texts denote, with actual parameters put in; None if one of them denotes nothing.
#[tactic(auto, using(crate::proofs::Growing::growings))]
pub fn uses_of(
    alloc: Global,
    lib: &Library,
    types: &mut TypeArena,
    texts: &[Bytes],
    actuals: &[Actual],
    needs: Needs,
) -> Result<Option<Vec<Use>>, LinkError>
    ensures { OnOk result (Grows types.old types.new) }
{
    let mut uses = Vec::new(alloc);
    for text in texts {
        let Some(member) = member_of(alloc, types, text, actuals)? else {
            return Ok(None);
        };
        match sort_of(alloc, lib, types, &member, needs)? {
            Some(Sort::Instance) => uses.push(Use::Instance(member))?,
            Some(Sort::Operation) => uses.push(Use::Operation(member))?,
            None => return Ok(None),
        }
    }
    Ok(Some(uses))
}

/// What a member is, if it denotes something.
#[tactic(auto, using(crate::proofs::Growing::growings))]
fn sort_of(
    alloc: Global,
    lib: &Library,
    types: &mut TypeArena,
    member: &Member,
    needs: Needs,
) -> Result<Option<Sort>, LinkError>
    ensures { OnOk result (Grows types.old types.new) }
{
    match member {
        Member::Module(name, actuals) => {
            Ok(instance_if(is_given(lib, name, actuals.as_slice(), false)))
        }
        Member::OwnSetUp(of) => match is_cluster(lib, types, *of)? {
            Some(is_kept) => Ok(instance_if(is_kept)),
            None => Ok(None),
        },
        Member::Op(of, op) => match is_cluster(lib, types, *of)? {
            Some(is_kept) => Ok(instance_if(is_kept)),
            None => sort_of_operation(alloc, lib, types, *of, op, needs),
        },
        Member::ForceOf(_) => Ok(Some(Sort::Operation)),
    }
}

fn instance_if(is_kept: bool) -> Option<Sort> {
    if is_kept { Some(Sort::Instance) } else { None }
}

/// Whether a module of this name is kept that is a cluster, or else a routine, and has parameters of the actuals' kinds.
fn is_given(lib: &Library, name: &Bytes, actuals: &[Actual], is_cluster: bool) -> bool {
    let Some(spec) = lib.spec(name) else {
        return false;
    };
    let is_form = match &spec.form {
        Form::Cluster(_, _) => is_cluster,
        Form::Routine(_) => !is_cluster,
    };
    is_form && are_of_kinds(&[], actuals, spec.kinds.as_slice())
}

/// Whether a cluster's type is one of a kept cluster; None for all other types.
fn is_cluster(lib: &Library, types: &TypeArena, of: TypeId) -> Result<Option<bool>, LinkError> {
    match term(types, of)? {
        Term::Cluster(name, actuals) => Ok(Some(is_given(lib, name, actuals.as_slice(), true))),
        _ => Ok(None),
    }
}

/// What an operation is that a built-in type has and whose needs are met.
#[tactic(auto, using(crate::proofs::Growing::growings, crate::proofs::Sorts::sort_found))]
fn sort_of_operation(
    alloc: Global,
    lib: &Library,
    types: &mut TypeArena,
    of: TypeId,
    op: &Bytes,
    needs: Needs,
) -> Result<Option<Sort>, LinkError>
    ensures sort { IfOk result (IsSortOf (operation (type_at (types_of types.old) of) op.now)) }
    ensures kept { OnOk result (Grows types.old types.new) }
{
    if !types.contains(of) {
        return Err(LinkError::NotYet);
    }
    let Some(built) = heading(alloc, types, of, op)? else {
        return Ok(None);
    };
    if are_met(alloc, lib, types, built.needs.as_slice(), needs)? {
        Ok(Some(sort_of_built(&built)))
    } else {
        Ok(None)
    }
}

/// What a built-in operation is. One that iterates or needs others uses others.
fn sort_of_built(built: &Builtin) -> Sort
    ensures { result ≡ sort_of_built built.now.iter built.now.needs }
{
    if built.iter {
        return Sort::Instance;
    }
    match built.needs.as_slice() {
        [] => Sort::Operation,
        [_, ..] => Sort::Instance,
    }
}

#[tactic(auto, using(crate::proofs::Growing::growings))]
fn are_met(
    alloc: Global,
    lib: &Library,
    types: &mut TypeArena,
    needs: &[Need],
    asked: Needs,
) -> Result<bool, Memory>
    requires { NeedsBelow (length types.old) needs.now }
    ensures { OnOk result (Grows types.old types.new) }
{
    if asked == Needs::Met {
        return Ok(true);
    }
    for need in needs {
        let met = is_met(alloc, lib, types, need)?;
        if !met {
            return Ok(false);
        }
    }
    Ok(true)
}

fn is_met(alloc: Global, lib: &Library, types: &mut TypeArena, need: &Need) -> Result<bool, Memory>
    requires of_in { need.now.of.0 < length types.old }
    requires wanted_in { need.now.wanted.0 < length types.old }
    ensures kept { Grows types.old types.new }
{
    meets(
        alloc,
        need.of,
        &need.op,
        need.wanted,
        &[],
        lib.specs(),
        types,
    )
}
