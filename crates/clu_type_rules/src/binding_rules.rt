//! What statements and own variables bind: variables, and the objects that they are to name. With V15 AssignType and of V14
//! ResultCount what is asked of them.

ghost use Rattle.std.specs.Prelude.{◌≡◌, ◌==◌, ◌∷◌, [], ℕ, Some, length, map, option_map};
ghost use Rattle.clu_syntax.specs.Items.{Item};
ghost use Rattle.clu_bindings.specs.Inside.{type_inside};
ghost use Rattle.clu_type_rules.specs.declared.known.Known.{Known};
ghost use Rattle.clu_type_rules.specs.Known.{children, kind_in};
ghost use Rattle.clu_type_rules.specs.Objects.{names, types_of, declared_type};
ghost use Rattle.clu_type_rules.specs.Bindings.{meanings, names_one, may_name, targets, variable_type, variables_of, told, by_call, initialised, declared_by, looped_by, are_results, assigned_by, assigned, binding_at, is_other_number, is_misfit};

use crate::known::{Known, heading_of, invoked_by, may_be};
use crate::objects::{Objects, declare_as_many, declared_type, fit_declared, split_declarations};
use clu_bindings::{Meaning, type_inside};
use clu_name_rules::is_kind;
use clu_tree::NodeKind;
use clu_types::TypeId;

/// The variables that a node binds.
#[derive(Clone, Copy)]
enum Variables<'a> {
    /// One that the node itself declares.
    One(u32),
    /// Those of Decls, one for each name.
    Declared(&'a [u32]),
    /// What the names denote to which the node assigns.
    Named(u32, &'a [Meaning]),
}

/// Variables with the objects that they are to name.
#[derive(Clone, Copy)]
struct Binding<'a> {
    variables: Variables<'a>,
    objects: Objects<'a>,
}

// ---- what a node binds

/// These variables, bound to the results of the call that is the first of these nodes, if a routine is invoked.
fn by_call<'a>(k: &Known<'a>, variables: Variables<'a>, nodes: &[u32]) -> Option<Binding<'a>>
    ensures { (items : ℕ → Item) → option_map (told k.now items) result ≡ by_call k.now (variables_of k.now items variables.entry) nodes.now }
{
    match nodes {
        [call, ..] => match heading_of(k, invoked_by(k, *call)) {
            Some(heading) => Some(Binding {
                variables,
                objects: Objects::Of(heading.results.as_slice()),
            }),
            None => None,
        },
        [] => None,
    }
}

fn targets<'a>(k: &Known<'a>, n: u32) -> Variables<'a>
    ensures { (items : ℕ → Item) → variables_of k.now items result ≡ targets k.now items n }
{
    Variables::Named(n, k.tables.file.meanings(n))
}

/// The variable that the Init or Own n declares, and its value.
fn initialised<'a>(k: &Known<'a>, n: u32) -> Option<Binding<'a>>
    ensures { (items : ℕ → Item) → option_map (told k.now items) result ≡ initialised k.now items n (children k.now n) }
{
    match k.tables.file.children(n) {
        [_, value, ..] => Some(Binding {
            variables: Variables::One(n),
            objects: Objects::Value(*value),
        }),
        _ => None,
    }
}

/// What the Init or Own n binds: with a name its value, or without the results of a call.
fn declared_by<'a>(k: &Known<'a>, n: u32) -> Option<Binding<'a>>
    ensures { (items : ℕ → Item) → option_map (told k.now items) result ≡ declared_by k.now items n (names k.now n) }
{
    let f = k.tables.file;
    let (declarations, rest) = split_declarations(f, f.children(n));
    match f.names(n) {
        [_, ..] => initialised(k, n),
        [] => by_call(k, Variables::Declared(declarations), rest),
    }
}

fn looped_by<'a>(k: &Known<'a>, n: u32) -> Option<Binding<'a>>
    ensures { (items : ℕ → Item) → option_map (told k.now items) result ≡ looped_by k.now items n (names k.now n) }
{
    let f = k.tables.file;
    let (declarations, rest) = split_declarations(f, f.children(n));
    match f.names(n) {
        [_, ..] => by_call(k, targets(k, n), rest),
        [] => by_call(k, Variables::Declared(declarations), rest),
    }
}

/// Whether these values of the Assign n are one invocation, of which several variables take all results.
fn are_results(k: &Known<'_>, n: u32, values: &[u32]) -> bool
    ensures { (items : ℕ → Item) → result ≡ are_results k.now items n values.now }
{
    let f = k.tables.file;
    match values {
        [] => false,
        [call] => f.meanings(n).len() > 1 && is_kind(f, NodeKind::Call, *call),
        [_, _, ..] => false,
    }
}

/// What the Assign n binds: to its variables these values, or if they are one invocation its results.
fn assigned_by<'a>(
    k: &Known<'a>,
    n: u32,
    are_results: bool,
    values: &'a [u32],
) -> Option<Binding<'a>>
    ensures { (items : ℕ → Item) → option_map (told k.now items) result ≡ assigned_by k.now items n are_results values.now }
{
    let variables = targets(k, n);
    if are_results {
        by_call(k, variables, values)
    } else {
        Some(Binding {
            variables,
            objects: Objects::Values(values),
        })
    }
}

fn assigned<'a>(k: &Known<'a>, n: u32) -> Option<Binding<'a>>
    ensures { (items : ℕ → Item) → option_map (told k.now items) result ≡ assigned k.now items n (children k.now n) }
{
    let values = k.tables.file.children(n);
    assigned_by(k, n, are_results(k, n, values), values)
}

/// What the node n binds, if it is known.
fn binding_at<'a>(k: &Known<'a>, n: u32) -> Option<Binding<'a>>
    ensures { (items : ℕ → Item) → option_map (told k.now items) result ≡ binding_at k.now items (kind_in k.now n) n }
{
    match k.tables.file.kind(n) {
        NodeKind::Init | NodeKind::Own => declared_by(k, n),
        NodeKind::For => looped_by(k, n),
        NodeKind::Assign => assigned(k, n),
        _ => None,
    }
}

// ---- V14

fn are_as_many(k: &Known<'_>, variables: Variables<'_>, count: usize) -> bool
    ensures { (items : ℕ → Item) → result ≡ (length (variables_of k.now items variables.entry) == count) }
{
    match variables {
        Variables::One(_) => 1 == count,
        Variables::Declared(declarations) => declare_as_many(k, declarations, count),
        Variables::Named(_, meanings) => meanings.len() == count,
    }
}

/// Whether the node n binds another number of variables than there are objects: V14 of statements. In `a, b: int := q()`, where
/// `q` gives one object, at `a`.
pub fn binds_other_number(k: &Known<'_>, n: u32) -> bool
    ensures { (items : ℕ → Item) → result ≡ is_other_number k.now (binding_at k.now items (kind_in k.now n) n) }
{
    match binding_at(k, n) {
        Some(binding) => !are_as_many(k, binding.variables, binding.objects.len()),
        None => false,
    }
}

// ---- V15

/// The node of the type of what a name means, if that is a variable.
#[tactic(auto, unfolding(crate::specs::Bindings::variable_type))]
fn variable_type(meaning: Meaning) -> Option<u32>
    ensures { (k : Known) (items : ℕ → Item) (n : ℕ) → variable_type k items n meaning ≡ option_map (type_inside k.tables.file items n) result }
{
    match meaning {
        Meaning::Local(t) | Meaning::OwnOfRoutine(t) | Meaning::OwnOfCluster(t) => Some(t),
        _ => None,
    }
}

/// Whether what a name means at the node n is a variable that may name an object of this type.
fn is_variable_for(k: &Known<'_>, n: u32, meaning: Meaning, given: Option<TypeId>) -> bool
    ensures { (items : ℕ → Item) → result ≡ names_one k.now (variable_type k.now items n meaning) given }
{
    match variable_type(meaning) {
        Some(t) => may_be(k.tables.types, given, type_inside(k.tables.file, n, t)),
        None => false,
    }
}

fn names_fit(k: &Known<'_>, n: u32, mut meanings: &[Meaning], mut objects: Objects<'_>) -> bool
    ensures { (items : ℕ → Item) → result ≡ may_name k.now (map (variable_type k.now items n) meanings.entry.now) (types_of k.now objects.entry) }
{
    while let [meaning, rest @ ..] = meanings
        && let Some((given, more)) = objects.split_first(k)
    {
        if !is_variable_for(k, n, *meaning, given) {
            return false;
        }
        meanings = rest;
        objects = more;
    }
    true
}

#[tactic(auto, using(crate::proofs::Declared::and_true))]
fn variable_fits(k: &Known<'_>, d: u32, objects: Objects<'_>) -> bool
    ensures { (items : ℕ → Item) → result ≡ may_name k.now (Some (declared_type k.now items [] d) ∷ []) (types_of k.now objects.entry) }
{
    match objects.split_first(k) {
        Some((given, _)) => may_be(k.tables.types, given, declared_type(k, &[], d)),
        None => true,
    }
}

fn variables_fit(k: &Known<'_>, variables: Variables<'_>, objects: Objects<'_>) -> bool
    ensures { (items : ℕ → Item) → result ≡ may_name k.now (variables_of k.now items variables.entry) (types_of k.now objects.entry) }
{
    match variables {
        Variables::One(d) => variable_fits(k, d, objects),
        Variables::Declared(declarations) => fit_declared(k, &[], objects, declarations),
        Variables::Named(n, meanings) => names_fit(k, n, meanings, objects),
    }
}

/// Whether an object that the node n binds isn't included in the variable's type, or what is assigned to is no variable: V15 of
/// statements. In `x: any := 1 y: int := x` at `y`.
pub fn binds_misfit(k: &Known<'_>, n: u32) -> bool
    ensures { (items : ℕ → Item) → result ≡ is_misfit k.now (binding_at k.now items (kind_in k.now n) n) }
{
    match binding_at(k, n) {
        Some(binding) => !variables_fit(k, binding.variables, binding.objects),
        None => false,
    }
}
