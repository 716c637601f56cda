//! The limits of a run as the words give them.

ghost use Rattle.std.specs.Prelude.{◌≡◌, ◌≤◌, ◌%◌};

/// The limits of a run: steps, and bytes of store and of stack in multiples of 16.
#[derive(Clone, Copy)]
pub struct RunLimits {
    pub steps: u64,
    pub store: u64,
    pub stack: u64,
    ghost steps_within: { steps ≤ 1000000000000000 },
    ghost store_above: { 4096 ≤ store },
    ghost store_within: { store ≤ 268435456 },
    ghost store_whole: { store % 16 ≡ 0 },
    ghost stack_above: { 4096 ≤ stack },
    ghost stack_within: { stack ≤ 67108864 },
    ghost stack_whole: { stack % 16 ≡ 0 },
}
