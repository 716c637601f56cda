//! The rules on expressions: V18 WhereNotMet, V20 NotInTypeSet, V32 UpDown, and of V16 NotBool what is asked of expressions.

ghost use Rattle.std.specs.Prelude.{◌≡◌, ℕ};
ghost use Rattle.clu_syntax.specs.Items.{Item};
ghost use Rattle.clu_syntax.specs.Views.{expression_told};
ghost use Rattle.clu_bindings.specs.Inside.{declared_at, rep_at};
ghost use Rattle.clu_type_rules.specs.ExpressionRules.{is_equate, has_no_rep, is_not_of, is_misplaced, is_up_or_down_misplaced};
ghost use Rattle.clu_type_rules.specs.Known.{kind_in};
ghost use Rattle.clu_type_rules.specs.StatementRules.{joins_conditions, is_logical, has_no_bool};
ghost use Rattle.clu_type_rules.specs.Unmet.{unmet_at};

use crate::known::{Known, first_type, some_no_condition};
use crate::unmet::unmet_at;
use clu_bindings::{File, Meaning, is_object_wanted, own_type, representation};
use clu_syntax::{Expression, Operator};
use clu_tree::NodeKind;
use clu_types::TypeId;

// ---- V16, of cand and cor

fn joins_conditions(expression: Expression<'_>) -> bool
    ensures { (items : ℕ → Item) (n : ℕ) → result ≡ joins_conditions (expression_told items n expression.entry) }
{
    match expression {
        Expression::Infix {
            operator: Operator::Cand | Operator::Cor,
            ..
        } => true,
        _ => false,
    }
}

fn is_logical(f: File<'_>, n: u32) -> bool
    ensures { (items : ℕ → Item) → result ≡ is_logical f.entry.syntax.now items n }
{
    match f.expression(n) {
        Some(expression) => joins_conditions(expression),
        None => false,
    }
}

/// Whether an operand of `cand` or `cor` isn't bool.
pub fn has_no_bool(k: &Known<'_>, n: u32) -> bool
    ensures { (items : ℕ → Item) → result ≡ has_no_bool k.now items n }
{
    let f = k.tables.file;
    is_object_wanted(f.wanted(n)) && (is_logical(f, n) && some_no_condition(k, n))
}

// ---- V18 and V20

/// V18: what a `has` clause or a built-in operation asks of an actual parameter is not met (section 12.4). In `p[any]()`, where
/// `t has equal`, at `[`.
pub fn v18(k: &Known<'_>, n: u32) -> bool
    ensures { result ≡ (unmet_at k.now.unmet.now n).by_has }
{
    unmet_at(k.unmet, n).by_has
}

/// V20: what an `in` clause alone asks is not met (section 12.4). In `show[bool]`, where `t in printable`, at `[`.
pub fn v20(k: &Known<'_>, n: u32) -> bool
    ensures { result ≡ (unmet_at k.now.unmet.now n).by_in }
{
    unmet_at(k.unmet, n).by_in
}

// ---- V32

/// What `rep` stands for at the node n.
fn rep_meaning(f: File<'_>, n: u32) -> Option<Meaning>
    ensures { result ≡ declared_at f.entry (rep_at f.entry n) }
{
    f.declares(f.rep(n)?)
}

fn is_equate(meaning: Option<Meaning>) -> bool
    ensures { result ≡ is_equate meaning }
{
    match meaning {
        Some(Meaning::Equate(_) | Meaning::TypeSet) => true,
        _ => false,
    }
}

/// Whether no cluster with a representation is round the node n.
fn has_no_rep(f: File<'_>, n: u32) -> bool
    ensures { result ≡ has_no_rep f.entry n }
{
    own_type(f, n).is_none() || !is_equate(rep_meaning(f, n))
}

/// Whether both types are known, and differ.
fn is_not_of(wanted: Option<TypeId>, given: Option<TypeId>) -> bool
    ensures { result ≡ is_not_of wanted given }
{
    match wanted {
        Some(wanted) => match given {
            Some(given) => wanted.0 != given.0,
            None => false,
        },
        None => false,
    }
}

/// Whether no cluster with a representation is round the `up` or `down` at the node n, or its operand is not of the wanted type.
fn is_misplaced(k: &Known<'_>, n: u32, wanted: Option<TypeId>) -> bool
    ensures { result ≡ is_misplaced k.now n wanted }
{
    let f = k.tables.file;
    is_object_wanted(f.wanted(n))
        && (has_no_rep(f, n) || is_not_of(wanted, first_type(k, f.children(n))))
}

/// V32: `up` or `down` outside a cluster, or on another type: `up` takes an object of exactly `rep`, `down` one of the cluster's
/// type with its own parameters (section 13.3). In `start_up = proc () a: array[int] := down(box$make())` at `down`.
pub fn v32(k: &Known<'_>, n: u32) -> bool
    ensures { result ≡ is_up_or_down_misplaced k.now (kind_in k.now n) n }
{
    let f = k.tables.file;
    match f.kind(n) {
        NodeKind::Up => is_misplaced(k, n, representation(k.headed, n)),
        NodeKind::Down => is_misplaced(k, n, own_type(f, n)),
        _ => false,
    }
}
