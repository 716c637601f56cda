//! The headings of what is invoked, and which of its formals are of type any.

ghost use Rattle.std.specs.Prelude.{◌≡◌, ◌<◌, ◌∷◌, [], IfOk, Some, false, length, option_map};
ghost use Rattle.std.specs.List.{find};
ghost use Rattle.std.specs.Option.{option_copied};
ghost use Rattle.std.specs.Str.{bytes_eq};
ghost use Rattle.clu_syntax.specs.Parts.{AreOf, IsOf};
ghost use Rattle.clu_types.specs.Arena.{fields_at, type_at, types_of};
ghost use Rattle.clu_lower_types.specs.Headings.{any_formals, array_formals, builtin_formals, exported_operation, heading_of, holds_any, operation_among, operations_in, sets_any, signature_at, signature_seen};

use crate::errors::{LowerError, Result};
use crate::seen::Seen;
use crate::types::{is_any, operation_of, term_of, type_of, which_are_any};
use clu_base::Bytes;
use clu_core::{Checked, OpRef};
use clu_syntax::Definition;
use clu_tree::NodeKind;
use clu_types::{Field, Form, Heading, OpSpec, Spec, Term, TypeArena, TypeId};
use std::alloc::Global;

/// The heading of the routine that an expression is.
pub fn heading_of(c: &Checked, routine: u32) -> Result<&Heading>
    ensures { IfOk result (λ heading. heading_of c.now routine ≡ Some (signature_at (types_of c.now.types) heading.now)) }
{
    match term_of(&c.types, type_of(c, routine)?)? {
        Term::Proc(heading) => Ok(heading),
        Term::Iter(heading) => Ok(heading),
        _ => Err(LowerError::NotYet),
    }
}

/// For each formal of the operation that the sugar at a node stands for whether it is of type any. Formals that are not
/// listed are of other types.
pub fn any_formals(alloc: Global, c: &Checked, n: u32, seen: Option<&Seen>) -> Result<Vec<bool>>
    ensures { IfOk result (λ any. any_formals c.now n (option_map signature_seen (option_copied seen.entry)) ≡ Some any.items) }
{
    if let Some(seen) = seen {
        return which_are_any(alloc, &seen.types, seen.heading.args.as_slice());
    }
    match operation_of(c, n) {
        Some(OpRef::Builtin(of, op)) => builtin_formals(alloc, c, *of, op.as_slice()),
        _ => Err(LowerError::NotYet),
    }
}

/// Of the operations that sugar stands for, store takes an element and set takes a component.
fn builtin_formals(alloc: Global, c: &Checked, of: TypeId, op: &[u8]) -> Result<Vec<bool>>
    ensures { IfOk result (λ any. any.items ≡ builtin_formals (type_at (types_of c.now.types) of) op.now) }
{
    match term_of(&c.types, of)? {
        Term::Array(element) => array_formals(alloc, is_any(&c.types, *element), op),
        Term::Record(fields) => record_formals(alloc, sets_any(c, fields.as_slice(), op)),
        _ => Ok(Vec::new(alloc)),
    }
}

fn array_formals(alloc: Global, any: bool, op: &[u8]) -> Result<Vec<bool>>
    ensures { IfOk result (λ formals. formals.items ≡ array_formals any op.now) }
{
    if op == b"store".as_slice() {
        Ok(vec![in alloc; false, false, any]?)
    } else {
        Ok(Vec::new(alloc))
    }
}

fn record_formals(alloc: Global, any: bool) -> Result<Vec<bool>>
    ensures { IfOk result (λ formals. formals.items ≡ false ∷ any ∷ []) }
{
    Ok(vec![in alloc; false, any]?)
}

/// Whether the operation sets a component of type any.
fn sets_any(c: &Checked, fields: &[Field], op: &[u8]) -> bool
    ensures { result ≡ sets_any (fields_at (types_of c.now.types) fields.now) op.now }
{
    match op.strip_prefix(b"set_".as_slice()) {
        Some(selector) => holds_any(c, fields, selector),
        None => false,
    }
}

/// Whether the component of this selector is of type any.
fn holds_any(c: &Checked, fields: &[Field], selector: &[u8]) -> bool
    ensures { result ≡ holds_any (fields_at (types_of c.now.types) fields.now) selector.now }
{
    for field in fields {
        if field.name.as_slice() == selector {
            return is_any(&c.types, field.of);
        }
    }
    false
}

/// The heading of an operation that a cluster of this name exports, with the arena of its types.
pub fn exported_operation<'a>(
    c: &'a Checked,
    cluster: &Bytes,
    op: &Bytes,
) -> Option<(&'a TypeArena, &'a Heading)>
    ensures { option_map (λ found. (found.0.now, found.1.now)) result ≡ exported_operation c.entry.now cluster.now op.now }
{
    match spec_named(c.specs.as_slice(), cluster) {
        Some(spec) => operation_in(spec, op),
        None => None,
    }
}

fn spec_named<'a>(specs: &'a [Spec], name: &Bytes) -> Option<&'a Spec>
    ensures { option_copied result ≡ find (λ s. bytes_eq s.name name.now) specs.now }
{
    for spec in specs {
        if spec.name == *name {
            return Some(spec);
        }
    }
    None
}

fn operation_in<'a>(spec: &'a Spec, name: &Bytes) -> Option<(&'a TypeArena, &'a Heading)>
    ensures { option_map (λ found. (found.0.now, found.1.now)) result ≡ operation_among spec.now.types (operations_in spec.now.form) name.now }
{
    match operation_named(operations_in(&spec.form), name) {
        Some(op) => Some((&spec.types, &op.heading)),
        None => None,
    }
}

fn operations_in(form: &Form) -> &[OpSpec]
    ensures { result.now ≡ operations_in form.now }
{
    match form {
        Form::Cluster(_, ops) => ops.as_slice(),
        Form::Routine(_) => &[],
    }
}

fn operation_named<'a>(ops: &'a [OpSpec], name: &Bytes) -> Option<&'a OpSpec>
    ensures { option_copied result ≡ find (λ o. bytes_eq o.name name.now) ops.now }
{
    for op in ops {
        if op.name == *name {
            return Some(op);
        }
    }
    None
}

/// The Routine of this name in the text of a cluster, by its node.
pub fn routine_of(c: &Checked, cluster: &Bytes, name: &Bytes) -> Result<u32>
    ensures { IfOk result (IsOf c.now.syntax NodeKind.Routine (length c.now.syntax)) }
{
    for module in c.syntax.modules() {
        if let Definition::Cluster(n) = c.syntax.module(*module).definition {
            let found = c.syntax.cluster(n);
            if found.name == cluster {
                return routine_named(c, n, found.routines, name);
            }
        }
    }
    Err(LowerError::NotYet)
}

/// The first of these routines of the cluster n that has this name.
fn routine_named(c: &Checked, n: u32, routines: &[u32], name: &Bytes) -> Result<u32>
    requires inside { n < length c.now.syntax }
    requires routines { AreOf c.now.syntax NodeKind.Routine n routines.now }
    ensures { IfOk result (IsOf c.now.syntax NodeKind.Routine (length c.now.syntax)) }
{
    for routine in routines {
        if c.syntax.routine(*routine).name == name {
            return Ok(*routine);
        }
    }
    Err(LowerError::NotYet)
}
