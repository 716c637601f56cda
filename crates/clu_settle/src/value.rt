//! The values of nodes.

ghost use Rattle.std.specs.Prelude.{◌≡◌, slice_get};
ghost use Rattle.clu_settle.specs.Values.{value_in};

use clu_types::TypeId;

/// What a constant or a type comes to.
#[derive(Clone, Copy)]
pub enum Value {
    /// Neither a constant nor a type.
    Nothing,
    /// Not found. A circle of equates, an integer that is too large, or `cvt` stands in it, or in an equate to which it
    /// leads.
    Lost,
    Type(TypeId),
    /// A constant, by its place in the list of constants.
    Constant(usize),
    /// The constant parameter of this number, from 1.
    Parameter(u32),
}

/// The value of the node of this number.
pub fn value_at(values: &[Value], n: u32) -> Value
    ensures { result ≡ value_in (slice_get values.now n) }
{
    match values.get(n as usize) {
        Some(value) => *value,
        None => Value::Lost,
    }
}
