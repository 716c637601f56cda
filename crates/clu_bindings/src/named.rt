//! Names with actual parameters, and where a type is wanted and not another constant.

ghost use Rattle.std.specs.Prelude.{◌≡◌, option_map};
ghost use Rattle.clu_bindings.specs.Readers.{kinds_in, module_in};
ghost use Rattle.clu_bindings.specs.Named.{kind_of_outline, legal_type, named_alone, named_before, named_in, takes_type, takes_type_before, wants_type, parameter_type, value_kind, kinds_fit, has_fitting_kinds};

use crate::file::File;
use crate::inside::type_of_value;
use crate::tables::optional_at;
use crate::wanted::Wanted;
use clu_constants::Outline;
use clu_head::kind_of_type;
use clu_settle::Value;
use clu_tree::NodeKind;
use clu_types::{ParamKind, TypeArena, TypeId};

/// A name with its node and the actual parameters in brackets after it.
#[derive(Clone, Copy)]
pub struct Named<'a> {
    pub node: u32,
    pub constants: &'a [u32],
}

fn legal_type(of: Option<TypeId>, kind: Option<ParamKind>) -> Option<TypeId>
    ensures { result ≡ legal_type of kind }
{
    match kind {
        Some(_) => of,
        None => None,
    }
}

/// The type of the constant parameter of this number of the module round the node n, if it has one that parameters may have.
pub fn parameter_type(file: File<'_>, types: &TypeArena, n: u32, number: u32) -> Option<TypeId>
    ensures { result ≡ parameter_type file.entry types.now n number }
{
    let of = type_of_value(file.value(file.declared_parameter(n, number)?));
    legal_type(of, kind_of_type(types, of))
}

// ---- names with actual parameters

fn named_alone<'a>(wanted: Wanted, n: u32) -> Option<Named<'a>>
    ensures { option_map (λ named. (named.node, named.constants.now)) result ≡ named_alone wanted n }
{
    match wanted {
        Wanted::NameWithActuals => None,
        _ => Some(Named {
            node: n,
            constants: &[],
        }),
    }
}

/// The name that stands first of the children of an Index, if the others are its actual parameters.
fn named_before<'a>(file: File<'a>, children: &'a [u32]) -> Option<Named<'a>>
    ensures { option_map (λ named. (named.node, named.constants.now)) result ≡ named_before file.entry children.now }
{
    match children {
        [of, constants @ ..] => {
            if file.takes_actuals(*of) {
                Some(Named {
                    node: *of,
                    constants,
                })
            } else {
                None
            }
        }
        [] => None,
    }
}

/// The name at the node n with its actual parameters, if it is one. Before brackets with some a Name is none by itself.
pub fn named_at<'a>(file: File<'a>, n: u32) -> Option<Named<'a>>
    ensures { option_map (λ named. (named.node, named.constants.now)) result ≡ named_in file.entry n }
{
    match file.kind(n) {
        NodeKind::Name => named_alone(file.wanted(n), n),
        NodeKind::Index => named_before(file, file.children(n)),
        NodeKind::NameT => Some(Named {
            node: n,
            constants: file.children(n),
        }),
        _ => None,
    }
}

// ---- kinds of actual parameters

fn kind_of_constant(constant: Outline) -> ParamKind
    ensures { result ≡ kind_of_outline constant }
{
    match constant {
        Outline::Null => ParamKind::Null,
        Outline::Bool(_) => ParamKind::Bool,
        Outline::Int(_) => ParamKind::Int,
        Outline::Char(_) => ParamKind::Char,
        Outline::Str(_) => ParamKind::Str,
    }
}

/// Of which kind a value is that stands in the module round the node n; None if it is neither a constant nor a type.
fn value_kind(file: File<'_>, types: &TypeArena, n: u32, value: Value) -> Option<ParamKind>
    ensures { result ≡ value_kind file.entry types.now n value }
{
    match value {
        Value::Type(_) => Some(ParamKind::OfType),
        Value::Constant(place) => match file.constants.outline(place) {
            Some(constant) => Some(kind_of_constant(constant)),
            None => None,
        },
        Value::Parameter(number) => kind_of_type(types, parameter_type(file, types, n, number)),
        Value::Nothing | Value::Lost => None,
    }
}

/// Whether these actual parameters of the module that is named at the node n are as many as these kinds, each of its kind.
fn kinds_fit(
    file: File<'_>,
    types: &TypeArena,
    n: u32,
    mut kinds: &[Option<ParamKind>],
    mut constants: &[u32],
) -> bool
    ensures { result ≡ kinds_fit file.entry types.now n kinds.entry.now constants.entry.now }
{
    while let [kind, more_kinds @ ..] = kinds
        && let [constant, more_constants @ ..] = constants
    {
        if kind.is_some() && *kind != value_kind(file, types, n, file.value(*constant)) {
            return false;
        }
        kinds = more_kinds;
        constants = more_constants;
    }
    kinds.is_empty() && constants.is_empty()
}

/// Whether the actual parameters of a name are as many as the module takes, each of its kind. A parameter of no legal type
/// takes every actual; what is no module takes none.
pub fn has_fitting_kinds(file: File<'_>, types: &TypeArena, named: Named<'_>) -> bool
    ensures { result ≡ has_fitting_kinds file.entry types.now named.entry.node named.entry.constants.now }
{
    let kinds = file.kinds(file.module_at(named.node));
    kinds_fit(file, types, named.node, kinds, named.constants)
}

// ---- where a type is wanted

/// Whether the module that is named at the node m takes a type at this place.
fn takes_type(file: File<'_>, m: u32, place: usize) -> bool
    ensures { result ≡ takes_type file.entry m place }
{
    match optional_at(file.kinds(file.module_at(m)), place) {
        Some(ParamKind::OfType) => true,
        _ => false,
    }
}

/// Whether the first of the children of an Index takes a type where another one stands, the node n.
fn takes_type_before(file: File<'_>, children: &[u32], n: u32) -> bool
    ensures { result ≡ takes_type_before file.entry children.now n }
{
    match children {
        [first, ..] => takes_type(file, *first, file.place(n).saturating_sub(1)),
        [] => false,
    }
}

/// Whether a type is wanted at the node n, a constant: `rep` is equated to a type, and a type parameter takes one.
pub fn wants_type(file: File<'_>, n: u32) -> bool
    ensures { result ≡ wants_type file.entry n }
{
    match file.parent(n) {
        Some(parent) => match file.kind(parent) {
            NodeKind::Equate => file.names(parent).is_empty(),
            NodeKind::NameT => takes_type(file, parent, file.place(n)),
            NodeKind::Index => takes_type_before(file, file.children(parent), n),
            _ => false,
        },
        None => false,
    }
}
