//! Looks a row up by the name of the operation.

ghost use Rattle.std.specs.Prelude.{◌≡◌, ◌++◌};
ghost use Rattle.std.specs.Str.{bytes_eq};
ghost use Rattle.std.specs.Option.{option_copied};
ghost use Rattle.clu_builtin.specs.Names.{op_name};
ghost use Rattle.clu_builtin.specs.Rows.{row_named, row_before, row_selected};

use crate::row::Row;
use clu_base::Bytes;
use clu_types::{Field, TypeId};

/// The row of this name.
pub fn find_row<'a>(rows: &'a [Row], op: &Bytes) -> Option<&'a Row>
    ensures { option_copied result ≡ row_named rows.now op.now }
{
    match rows {
        [] => None,
        [first, rest @ ..] => {
            if is_joined(first.0.name().as_bytes(), &[], op.as_slice()) {
                Some(first)
            } else {
                find_row(rest, op)
            }
        }
    }
}

/// The row whose name stands before a selector's in the operation's name, with the selector's type.
pub fn selector_row(rows: &[Row], fields: &[Field], op: &Bytes) -> Option<(Row, TypeId)>
    ensures { result ≡ row_selected rows.now fields.now op.now }
{
    for field in fields {
        if let Some(row) = row_before(rows, &field.name, op) {
            return Some((*row, field.of));
        }
    }
    None
}

fn row_before<'a>(rows: &'a [Row], selector: &Bytes, op: &Bytes) -> Option<&'a Row>
    ensures { option_copied result ≡ row_before rows.now selector.now op.now }
{
    match rows {
        [] => None,
        [first, rest @ ..] => {
            if is_joined(
                first.0.name().as_bytes(),
                selector.as_slice(),
                op.as_slice(),
            ) {
                Some(first)
            } else {
                row_before(rest, selector, op)
            }
        }
    }
}

/// Whether a name is this front with this rest after it.
fn is_joined(front: &[u8], rest: &[u8], name: &[u8]) -> bool
    ensures { result ≡ bytes_eq (front.now ++ rest.now) name.now }
{
    match (front, name) {
        ([], _) => rest == name,
        ([first, front @ ..], [letter, name @ ..]) => first == letter
            && is_joined(front, rest, name),
        (_, []) => false,
    }
}
