//! A node that has begun.

use clu_base::Sequence;

/// A node that has begun and is not whole yet. Tokens are named by their numbers.
#[derive(Drop)]
pub struct Begun {
    pub first: u32,
    /// The token after the node that this one wraps, else its first.
    pub mark: u32,
    /// How many whole nodes stand before its children.
    pub height: usize,
    pub names: Sequence<u32>,
    pub value: Option<u32>,
}
