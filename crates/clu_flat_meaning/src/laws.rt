//! What holds of each run of flat code. The functions do nothing: their contracts are the laws.

ghost use Rattle.std.specs.Prelude.{◌≡◌, ℕ, ◌+◌};
ghost use Rattle.clu_flat_meaning.specs.Image.{Image};
ghost use Rattle.clu_flat_meaning.specs.Machine.{Machine, run};
ghost use Rattle.clu_flat_meaning.specs.Rising.{Rises};

/// A run goes on from where a shorter one has come to.
pub fn runs_compose()
    ensures { (image : Image) (n m : ℕ) (c : Machine) → run image (n + m) c ≡ run image m (run image n c) }
{}

/// The highest top of the stack never sinks, and no top is above it.
pub fn tops_rise()
    ensures { (image : Image) (n : ℕ) (c : Machine) → Rises c (run image n c) }
{}
