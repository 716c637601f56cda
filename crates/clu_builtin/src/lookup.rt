//! The heading of a built-in operation, found in the table.

ghost use Rattle.std.specs.Prelude.{◌≡◌, ◌<◌, length, map, IfOk};
ghost use Rattle.std.specs.Option.{ForSome};
ghost use Rattle.clu_types.specs.Arena.{type_at, types_at, types_of, AreBelow, HeadingBelow, Grows};
ghost use Rattle.clu_builtin.specs.Table.{operation};
ghost use Rattle.clu_builtin.specs.Rows.{row_operation, row_named, row_selected, table_operation, parts_operation};
ghost use Rattle.clu_builtin.specs.Built.{found_at, operation_at, IsBelow, NeedsBelow};

use crate::needs::{Need, needs_of_parts};
use crate::row::Row;
use crate::select::{find_row, selector_row};
use crate::slots::Slots;
use crate::tables::{
    ARRAY, BOOL, CHAR, INT, NULL, ONEOF_SELECTORS, RECORD, RECORD_SELECTORS, SEQUENCE, STREAM,
    STRING, STRUCT, STRUCT_SELECTORS, VARIANT_SELECTORS,
};
use clu_base::{Bytes, Memory, Sequence};
use clu_types::{Field, Heading, Term, TypeArena, TypeId};
use std::alloc::Global;

/// A built-in operation of a type: procedure or iterator, its heading, and what it needs of the types of the parts.
#[derive(Drop)]
pub struct Builtin {
    pub iter: bool,
    pub heading: Heading,
    pub needs: Sequence<Need>,
}

/// The built-in operation of this name that a type has (CLU Reference Manual, appendix II): None exactly where the
/// table has none. The only error is that memory runs out; the arena may have grown then.
pub fn heading(
    alloc: Global,
    types: &mut TypeArena,
    of: TypeId,
    op: &Bytes,
) -> Result<Option<Builtin>, Memory>
    requires { of.0 < length types.old }
    ensures found { IfOk result (λ found. found_at (types_of types.new) found ≡ operation (type_at (types_of types.old) of) op.now) }
    ensures within { IfOk result (IsBelow (length types.new)) }
    ensures kept { Grows types.old types.new }
{
    match types.view(of) {
        Term::Null => in_table(alloc, types, of, of, &[], &NULL, op),
        Term::Proc(_) => in_table(alloc, types, of, of, &[], &NULL, op),
        Term::Iter(_) => in_table(alloc, types, of, of, &[], &NULL, op),
        Term::Bool => in_table(alloc, types, of, of, &[], &BOOL, op),
        Term::Int => in_table(alloc, types, of, of, &[], &INT, op),
        Term::Char => in_table(alloc, types, of, of, &[], &CHAR, op),
        Term::Str => {
            let char = types.intern(Term::Char)?;
            in_table(alloc, types, of, char, &[], &STRING, op)
        }
        Term::Stream => in_table(alloc, types, of, of, &[], &STREAM, op),
        Term::Array(t) => {
            let t = *t;
            in_table(alloc, types, of, t, &[t], &ARRAY, op)
        }
        Term::Sequence(t) => {
            let t = *t;
            in_table(alloc, types, of, t, &[t], &SEQUENCE, op)
        }
        Term::Record(fields) => {
            let found = find_components(alloc, fields, &RECORD_SELECTORS, op)?;
            of_components(alloc, types, of, &found, &RECORD, op)
        }
        Term::Struct(fields) => {
            let found = find_components(alloc, fields, &STRUCT_SELECTORS, op)?;
            of_components(alloc, types, of, &found, &STRUCT, op)
        }
        Term::Oneof(fields) => {
            let found = find_components(alloc, fields, &ONEOF_SELECTORS, op)?;
            of_components(alloc, types, of, &found, &STRUCT, op)
        }
        Term::Variant(fields) => {
            let found = find_components(alloc, fields, &VARIANT_SELECTORS, op)?;
            of_components(alloc, types, of, &found, &RECORD, op)
        }
        Term::Any => Ok(None),
        Term::Cluster(_, _) => Ok(None),
        Term::Param(_) => Ok(None),
    }
}

/// Of a type with components: the row of the selector that the operation is for, if there is one, with the
/// selector's type; and the types of all components.
#[derive(Drop)]
struct Components {
    chosen: Option<(Row, TypeId)>,
    parts: Sequence<TypeId>,
}

fn find_components(
    alloc: Global,
    fields: &Sequence<Field>,
    selectors: &[Row],
    op: &Bytes,
) -> Result<Components, Memory>
    ensures chosen { IfOk result (λ c. c.chosen ≡ row_selected selectors.now fields.now op.now) }
    ensures parts { IfOk result (λ c. c.parts ≡ map (λ f. f.of) fields.now) }
{
    let chosen = selector_row(selectors, fields.as_slice(), op);
    let parts = part_types(alloc, fields.as_slice())?;
    Ok(Components {
        chosen,
        parts: Sequence::from_vec(parts),
    })
}

fn part_types(alloc: Global, fields: &[Field]) -> Result<Vec<TypeId>, Memory>
    ensures { IfOk result (λ parts. parts.items ≡ map (λ f. f.of) fields.now) }
{
    Ok(fields.iter().map(|field| field.of).collect(alloc)?)
}

/// The operation of the chosen selector, or else that of the table.
fn of_components(
    alloc: Global,
    types: &mut TypeArena,
    own: TypeId,
    found: &Components,
    rows: &[Row],
    op: &Bytes,
) -> Result<Option<Builtin>, Memory>
    requires own_in { own.0 < length types.old }
    requires chosen_in { ForSome found.now.chosen (λ c. c.1.0 < length types.old) }
    requires parts_in { AreBelow (length types.old) found.now.parts }
    ensures found { IfOk result (λ b. found_at (types_of types.new) b ≡ parts_operation (types_of types.old) own found.now.chosen found.now.parts rows.now op.now) }
    ensures within { IfOk result (IsBelow (length types.new)) }
    ensures kept { Grows types.old types.new }
{
    match found.chosen {
        Some((row, part)) => Ok(Some(build(alloc, types, own, part, &[], &row)?)),
        None => in_table(alloc, types, own, own, found.parts.as_slice(), rows, op),
    }
}

/// The operation of this name in a table.
fn in_table(
    alloc: Global,
    types: &mut TypeArena,
    own: TypeId,
    part: TypeId,
    parts: &[TypeId],
    rows: &[Row],
    op: &Bytes,
) -> Result<Option<Builtin>, Memory>
    requires own_in { own.0 < length types.old }
    requires part_in { part.0 < length types.old }
    requires parts_in { AreBelow (length types.old) parts.now }
    ensures found { IfOk result (λ found. found_at (types_of types.new) found ≡ table_operation (types_of types.old) own part parts.now (row_named rows.now op.now)) }
    ensures within { IfOk result (IsBelow (length types.new)) }
    ensures kept { Grows types.old types.new }
{
    match find_row(rows, op) {
        Some(row) => Ok(Some(build(alloc, types, own, part, parts, row)?)),
        None => Ok(None),
    }
}

/// The operation of a row.
fn build(
    alloc: Global,
    types: &mut TypeArena,
    own: TypeId,
    part: TypeId,
    parts: &[TypeId],
    row: &Row,
) -> Result<Builtin, Memory>
    requires own_in { own.0 < length types.old }
    requires part_in { part.0 < length types.old }
    requires parts_in { AreBelow (length types.old) parts.now }
    ensures built { IfOk result (λ b. operation_at (types_of types.new) b ≡ row_operation (type_at (types_of types.old) own) (type_at (types_of types.old) part) (types_at (types_of types.old) parts.now) row.now) }
    ensures within { IfOk result (λ b. HeadingBelow (length types.new) b.heading × NeedsBelow (length types.new) b.needs) }
    ensures kept { Grows types.old types.new }
{
    let slots = Slots::new(types, own, part)?;
    let heading = slots.heading(alloc, row)?;
    let needs = needs_of_parts(alloc, types, parts, row.4)?;
    Ok(Builtin {
        iter: row.2.is_iter(),
        heading,
        needs,
    })
}
