//! That a node which is refused at or below another one is found by counts, as `clu_head` does, and that the walks find the
//! refusal of a file.

ghost use Rattle.std.specs.Prelude.{◌≡◌, ◌<◌, ◌≤◌, ℕ, Bool, List, None, Option, Some, length, slice_get};
ghost use Rattle.clu_base.specs.declared.rules.Rule.{Rule};
ghost use Rattle.clu_syntax.specs.declared.round.Round.{Round};
ghost use Rattle.clu_head.specs.Refused.{counts_to, grows_in};
ghost use Rattle.clu_checking.specs.Files.{File, is_refused};
ghost use Rattle.clu_checking.specs.Refusals.{fault_at, first_on, heading_refusal, headings, refusal, rest};
ghost use Rattle.clu_type_rules.specs.Walking.{first_fault, first_of};
ghost use Rattle.clu_passes.specs.Agreeing.{AgreeAt};
ghost use Rattle.clu_passes.specs.Counted.{AreRefused};

/// A node is refused below another one, or is this one, just if more are refused before the number after it than before the
/// first number below it.
pub fn refused_counted()
    ensures { (f : File) (bits : List Bool) → AreRefused f bits → (n : ℕ) (round : Round) → n < length bits → slice_get f.rounds n ≡ Some round → round.first ≤ n → is_refused f n ≡ grows_in (counts_to bits (length bits)) (slice_get f.rounds n) n }
{}

/// What a walk finds first is the refusal of the headings, and what two of them find the refusal of the file, if at each node they
/// find the least rule that the definitions have there, or both find the same at a node before it. Only where the walk over the
/// headings finds nothing does it matter what the other one finds.
pub fn refusal_said()
    ensures headings { (f : File) (first : ℕ → Option Rule) → ((n : ℕ) → n < length f.nodes → AgreeAt first (fault_at f headings) n) → first_fault first 0 f.nodes ≡ heading_refusal f }
    ensures whole { (f : File) (first second : ℕ → Option Rule) → ((n : ℕ) → n < length f.nodes → AgreeAt first (fault_at f headings) n) → (first_on f headings ≡ None → (n : ℕ) → n < length f.nodes → AgreeAt second (fault_at f rest) n) → first_of (first_fault first 0 f.nodes) (first_fault second 0 f.nodes) ≡ refusal f }
{}
