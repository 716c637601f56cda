//! Objects, and whether variables and the types of a heading take them.

ghost use Rattle.std.specs.Prelude.{◌≡◌, ◌≤◌, ◌∷◌, [], ◌==◌, Bool, List, drop, length, replicate, ℕ, IfNone, IfSome};
ghost use Rattle.clu_syntax.specs.Items.{Item};
ghost use Rattle.clu_syntax.specs.Kinds.{kind_at};
ghost use Rattle.clu_syntax.specs.Splits.{is_of, leading, run, after_run};
ghost use Rattle.clu_tree.specs.declared.node.NodeKind.TheVariants as kind;
ghost use Rattle.clu_type_rules.specs.declared.known.Known.{Known};
ghost use Rattle.clu_type_rules.specs.Objects.{types_of, each_may_be, fit, types_inside, declared_type, declared_types, may_name_each, take_objects};
ghost use Rattle.clu_type_rules.specs.StatementRules.{are_included, fit_values};

use crate::known::{Known, may_be};
use clu_base::Bytes;
use clu_bindings::{File, is_set, type_inside};
use clu_tree::NodeKind;
use clu_types::TypeId;

/// Objects in their order.
#[derive(Clone, Copy)]
pub enum Objects<'a> {
    /// The results of an invocation, or the objects of a raise, by their types.
    Of(&'a [TypeId]),
    /// The values of these expressions.
    Values(&'a [u32]),
    Value(u32),
}

/// The items after so many.
#[tactic(auto, using(crate::proofs::Declared::none_after))]
fn rest_of<'a, T>(items: &'a [T], count: usize) -> &'a [T]
    ensures { result.now ≡ drop count items.now }
{
    if count < items.len() {
        &items[count..]
    } else {
        &[]
    }
}

impl<'a> Objects<'a> {
    pub fn len(self) -> usize
        ensures { (k : Known) → result ≡ length (types_of k self.entry) }
    {
        match self {
            Objects::Of(types) => types.len(),
            Objects::Values(values) => values.len(),
            Objects::Value(_) => 1,
        }
    }

    /// The type of the first object, as far as it is known, and the objects after it.
    pub fn split_first(self, k: &Known<'_>) -> Option<(Option<TypeId>, Objects<'a>)>
        ensures some { IfSome result (λ split. types_of k.now self.entry ≡ split.0 ∷ types_of k.now split.1) }
        ensures none { IfNone result (types_of k.now self.entry ≡ []) }
    {
        match self {
            Objects::Of(types) => match types {
                [of, rest @ ..] => Some((Some(*of), Objects::Of(rest))),
                [] => None,
            },
            Objects::Values(values) => match values {
                [e, rest @ ..] => Some((k.facts.type_of(*e), Objects::Values(rest))),
                [] => None,
            },
            Objects::Value(e) => Some((k.facts.type_of(e), Objects::Of(&[]))),
        }
    }

    /// The objects after so many.
    #[tactic(auto, using(crate::proofs::Declared::rest_of))]
    pub fn after(self, count: usize) -> Objects<'a>
        ensures { (k : Known) → types_of k result ≡ drop count (types_of k self.entry) }
    {
        match self {
            Objects::Of(types) => Objects::Of(rest_of(types, count)),
            Objects::Values(values) => Objects::Values(rest_of(values, count)),
            Objects::Value(_) => { if count == 0 { self } else { Objects::Of(&[]) } }
        }
    }
}

/// Whether each object may be one of the type at its place, where the body in which the node n stands sees it, as far as there
/// are both.
fn each_may_be(k: &Known<'_>, n: u32, mut objects: Objects<'_>, mut wanted: &[u32]) -> bool
    ensures { (items : ℕ → Item) → result ≡ each_may_be k.now (types_of k.now objects.entry) (types_inside k.now items n wanted.entry.now) }
{
    while let [t, rest @ ..] = wanted
        && let Some((given, more)) = objects.split_first(k)
    {
        if !may_be(k.tables.types, given, type_inside(k.tables.file, n, *t)) {
            return false;
        }
        objects = more;
        wanted = rest;
    }
    true
}

/// Whether these are as many objects as types at nodes, each included, where the body in which the node n stands sees them.
pub fn fit_types(k: &Known<'_>, n: u32, objects: Objects<'_>, wanted: &[u32]) -> bool
    ensures { (items : ℕ → Item) → result ≡ fit k.now (types_of k.now objects.entry) (types_inside k.now items n wanted.now) }
{
    objects.len() == wanted.len() && each_may_be(k, n, objects, wanted)
}

/// Whether each value of an expression is included in the type at its place, as far as there are both.
fn are_included(k: &Known<'_>, n: u32, mut values: &[u32], mut wanted: &[u32]) -> bool
    ensures { (items : ℕ → Item) → result ≡ are_included k.now items n values.entry.now wanted.entry.now }
{
    while let [value, more @ ..] = values
        && let [t, rest @ ..] = wanted
    {
        if !may_be(
            k.tables.types,
            k.facts.type_of(*value),
            type_inside(k.tables.file, n, *t),
        ) {
            return false;
        }
        values = more;
        wanted = rest;
    }
    true
}

/// Whether these are as many values as types, each included.
pub fn fit_values(k: &Known<'_>, n: u32, values: &[u32], wanted: &[u32]) -> bool
    ensures { (items : ℕ → Item) → result ≡ fit_values k.now items n values.now wanted.now }
{
    values.len() == wanted.len() && are_included(k, n, values, wanted)
}

// ---- variables

/// Whether the node n is a Decl.
fn is_declaration(f: File<'_>, n: u32) -> bool
    ensures { result ≡ is_of kind.Decl (kind_at f.entry.syntax.now n) }
{
    f.kind(n) == NodeKind::Decl
}

/// How many Decls children begin with.
#[tactic(auto, unfolding(clu_syntax::specs::Splits::leading))]
fn count_declarations(f: File<'_>, children: &[u32]) -> usize
    ensures count { result ≡ leading f.entry.syntax.now kind.Decl children.now }
    ensures within { result ≤ length children.now }
{
    let mut rest = children;
    let mut count = 0;
    while let [c, more @ ..] = rest {
        if !is_declaration(f, *c) {
            return count;
        }
        count += 1;
        rest = more;
    }
    count
}

/// The Decls with which children begin, and what stands after them.
pub fn split_declarations<'a>(f: File<'_>, children: &'a [u32]) -> (&'a [u32], &'a [u32])
    ensures run { result.0.now ≡ run f.entry.syntax.now kind.Decl children.now }
    ensures after { result.1.now ≡ after_run f.entry.syntax.now kind.Decl children.now }
{
    children.split_at(count_declarations(f, children))
}

/// Whether these declare so many variables, one for each name.
pub fn declare_as_many(k: &Known<'_>, mut declarations: &[u32], count: usize) -> bool
    ensures { (items : ℕ → Item) (bad : List Bool) → result ≡ (length (declared_types k.now items bad declarations.entry.now) == count) }
{
    let mut left = count;
    while let [d, rest @ ..] = declarations {
        let names = k.tables.file.names(*d).len();
        if left < names {
            return false;
        }
        left -= names;
        declarations = rest;
    }
    left == 0
}

/// The type of the variables that a node declares. One in which a rule is violated takes all.
pub fn declared_type(k: &Known<'_>, bad: &[bool], d: u32) -> Option<TypeId>
    ensures { (items : ℕ → Item) → result ≡ declared_type k.now items bad.now d }
{
    if is_set(bad, d as usize) {
        return None;
    }
    match k.tables.file.children(d) {
        [t, ..] => type_inside(k.tables.file, d, *t),
        [] => None,
    }
}

/// Whether variables of this type, one for each name, may name the objects, as far as there are both.
fn may_name(
    k: &Known<'_>,
    mut names: &[Bytes],
    wanted: Option<TypeId>,
    mut objects: Objects<'_>,
) -> bool
    ensures { result ≡ each_may_be k.now (types_of k.now objects.entry) (replicate (length names.entry.now) wanted) }
{
    while let [_, rest @ ..] = names
        && let Some((given, more)) = objects.split_first(k)
    {
        if !may_be(k.tables.types, given, wanted) {
            return false;
        }
        objects = more;
        names = rest;
    }
    true
}

/// Whether the variables of Decls may name the objects, as far as there are both.
pub fn fit_declared(
    k: &Known<'_>,
    bad: &[bool],
    mut objects: Objects<'_>,
    mut declarations: &[u32],
) -> bool
    ensures { (items : ℕ → Item) → result ≡ may_name_each k.now items bad.now (types_of k.now objects.entry) declarations.entry.now }
{
    while let [d, rest @ ..] = declarations {
        let names = k.tables.file.names(*d);
        if !may_name(k, names, declared_type(k, bad, *d), objects) {
            return false;
        }
        objects = objects.after(names.len());
        declarations = rest;
    }
    true
}

/// Whether the variables of an arm's Decls take these objects, one each.
pub fn take_objects(k: &Known<'_>, bad: &[bool], objects: Objects<'_>, declarations: &[u32]) -> bool
    ensures { (items : ℕ → Item) → result ≡ take_objects k.now items bad.now (types_of k.now objects.entry) declarations.now }
{
    declare_as_many(k, declarations, objects.len()) && fit_declared(k, bad, objects, declarations)
}
