//! The laws, each the contract of a function that does nothing.

ghost use Rattle.std.specs.Prelude.{ℕ, List, codes};
ghost use Rattle.rv_isa.specs.Image.{AreBytes, Contents};
ghost use Rattle.rv_machine.specs.Limits.{IsLimits, Sizes};
ghost use Rattle.clu_meaning.specs.Programs.{Program};
ghost use Rattle.clu_meaning.specs.Run.{run};
ghost use Rattle.laws_program.specs.Layers.{Layers};
ghost use Rattle.laws_program.specs.Observed.{Region};
ghost use Rattle.laws_program.specs.Refused.{IsSilent, Writes, WritesWithin, bad_call, full_at_once, spinning, writes_a_byte};
ghost use Rattle.laws_program.specs.Samples.{failing, nothing, returning, writing};
ghost use Rattle.laws_program.specs.Stands.{EndsAsMeant, SameEnds, Stands, observed};

/// An image stands for a program if, for all limits and inputs, there are two runs between them, of word code and of flat
/// code, which each do as their neighbours do, and if the program misuses no object.
pub fn layers_are_enough()
    ensures { (image : Contents) (program : Program) (name : List ℕ) → ((sizes : Sizes) → IsLimits sizes → (input : List ℕ) → AreBytes input → Layers sizes (run program name input) (observed image sizes input)) → Stands image program name }
{}

/// Where a program finishes and its meters pass neither limit, an image that stands for it finishes in the same way with the
/// same output.
pub fn ends_as_meant()
    ensures { (image : Contents) (program : Program) (name : List ℕ) → Stands image program name → EndsAsMeant image program name }
{}

/// Of two programs for which one image stands, where one finishes and its meters pass neither limit, the other finishes in
/// the same way with the same output.
pub fn one_meaning()
    ensures { (image : Contents) (one other : Program) (name : List ℕ) → Stands image one name → Stands image other name → SameEnds one other name }
{}

/// An image that goes on and writes nothing stands for no program that writes something.
pub fn silence_is_refused()
    ensures { (image : Contents) (program : Program) (name : List ℕ) → IsSilent image → Writes program name → Stands image program name → ⊥ }
{}

/// The image of one instruction that goes to itself is such an image.
pub fn spinning_is_silent()
    ensures { IsSilent spinning }
{}

/// An image that finds a region full at once stands for no program that writes something while its meter of the region is
/// within the limit.
pub fn full_at_once_is_refused()
    ensures { (region : Region) (program : Program) (name : List ℕ) → WritesWithin region program name → Stands (full_at_once region) program name → ⊥ }
{}

/// Nor for the program that does nothing, whose meters pass no limit.
pub fn full_for_nothing_is_refused()
    ensures { (region : Region) → Stands (full_at_once region) nothing (codes "start_up") → ⊥ }
{}

/// An image that writes a byte doesn't stand for the program that does nothing.
pub fn writing_too_much_is_refused()
    ensures { Stands writes_a_byte nothing (codes "start_up") → ⊥ }
{}

/// An image that returns doesn't stand for a program that fails.
pub fn returning_too_soon_is_refused()
    ensures { Stands returning failing (codes "start_up") → ⊥ }
{}

/// An image that makes a call that there isn't stands for no program.
pub fn bad_calls_are_refused()
    ensures { (program : Program) (name : List ℕ) → Stands bad_call program name → ⊥ }
{}

/// There is a program with an image that stands for it: both do nothing and return.
pub fn an_image_stands()
    ensures { Stands returning nothing (codes "start_up") }
{}

/// There is a program that writes something within the limits.
pub fn a_program_writes()
    ensures { (region : Region) → WritesWithin region writing (codes "start_up") }
{}
