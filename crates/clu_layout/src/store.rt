//! The words of store that an object takes, by its shape.

ghost use Rattle.std.specs.Prelude.{◌≡◌};
ghost use Rattle.clu_layout.specs.Cost.{cost, IsSmall};

/// What an object is made of. A word has 8 bytes.
#[derive(Clone, Copy)]
pub enum Shape {
    /// A string of so many bytes.
    Str(u64),
    /// A sequence of so many elements.
    Sequence(u64),
    /// A record of so many components.
    Record(u32),
    /// A struct of so many components.
    Struct(u32),
    /// A tag and a value, immutable.
    Oneof,
    /// A tag and a value, mutable.
    Variant,
    /// An array, without its elements.
    Array,
    /// Room for so many elements of an array.
    Cells(u64),
    /// An object bound to a name of type any.
    Boxed,
}

/// The words of store that an object of this shape takes.
pub fn words(s: Shape) -> u64
    requires { IsSmall s }
    ensures { result ≡ cost s }
{
    match s {
        Shape::Str(bytes) => 1 + bytes.div_ceil(8),
        Shape::Sequence(elements) => 1 + elements,
        Shape::Record(components) => 1 + u64::from(components),
        Shape::Struct(components) => 1 + u64::from(components),
        Shape::Oneof => 2,
        Shape::Variant => 3,
        Shape::Array => 6,
        Shape::Cells(elements) => elements,
        Shape::Boxed => 2,
    }
}
