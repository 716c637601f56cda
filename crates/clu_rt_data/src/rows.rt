//! The rows of tables of operations.

/// The row of an operation whose result is a value.
macro_rules! value {
    ($name:expr, $args:expr, $value:expr) => {
        Operation {
            name: $name,
            args: $args,
            deed: Deed::Value($value),
        }
    };
}

pub(crate) use value;

/// The row of an operation that puts a word so many bytes after an address.
macro_rules! put {
    ($name:expr, $args:expr, $address:expr, $by:expr, $value:expr) => {
        Operation {
            name: $name,
            args: $args,
            deed: Deed::Put($address, $by, $value),
        }
    };
}

pub(crate) use put;

/// The row of an operation that does steps in a frame of so many slots.
macro_rules! steps {
    ($name:expr, $args:expr, $slots:expr, $steps:expr) => {
        Operation {
            name: $name,
            args: $args,
            deed: Deed::Steps($slots, $steps),
        }
    };
}

pub(crate) use steps;
