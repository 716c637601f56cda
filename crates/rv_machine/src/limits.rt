//! The sizes of the store and stack regions of a run.

ghost use Rattle.std.specs.Prelude.{◌≡◌, ◌↔◌, IsSome, IfSome};

use std::marker::Model;

/// The sizes in bytes of the store region and of the stack region, seen as these two numbers.
#[derive(Clone, Copy)]
pub struct Limits {
    store: u64,
    stack: u64,
}

impl Model for Limits {
    ghost use Rattle.rv_machine.specs.Limits.{Sizes, IsLimits};

    ghost Value = { Sizes };

    ghost view = { λ l. record { store = l.store; stack = l.stack } };

    ghost invariant = { λ l. IsLimits (record { store = l.store; stack = l.stack }) };

    ghost inverse = { λ sizes. record { store = sizes.store; stack = sizes.stack } };
}

impl Limits {
    ghost use Rattle.rv_machine.specs.Limits.{Sizes, IsLimits};

    /// The limits of these sizes. `None` exactly where one is no multiple of 16, below 4096, or
    /// above 268,435,456 bytes of store or 67,108,864 bytes of stack.
    pub fn new(store: u64, stack: u64) -> Option<Limits>
        ensures valid { IsSome result ↔ IsLimits (record { store = store; stack = stack }) }
        ensures value { IfSome result (λ l. l ≡ record { store = store; stack = stack }) }
    {
        let aligned = store % 16 == 0 && stack % 16 == 0;
        let large = store >= 4096 && stack >= 4096;
        let small = store <= 268_435_456 && stack <= 67_108_864;
        if aligned && large && small {
            Some(Limits { store, stack })
        } else {
            None
        }
    }

    /// The size of the store region in bytes.
    pub fn store(&self) -> u64
        ensures { result ≡ self.now.store }
    {
        self.store
    }

    /// The size of the stack region in bytes.
    pub fn stack(&self) -> u64
        ensures { result ≡ self.now.stack }
    {
        self.stack
    }
}
