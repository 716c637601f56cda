//! What holds of each run of each program, accepted or not; but of the last law the headings must be those of an accepted
//! one. The functions do nothing: their contracts are the laws.

ghost use Rattle.std.specs.Prelude.{◌≡◌, ℕ, ◌+◌, List, Some};
ghost use Rattle.clu_types.specs.CluType.{no_actuals};
ghost use Rattle.clu_layout.specs.Objects.{module_routine};
ghost use Rattle.clu_meaning.specs.Programs.{Program};
ghost use Rattle.clu_meaning.specs.Run.{level, first_state, begins, result_of_run};
ghost use Rattle.clu_meaning.specs.More.{GoesOn, Later, state_of};
ghost use Rattle.clu_meaning.specs.Binding.{Running};
ghost use Rattle.clu_meaning.specs.Operations.{defined};
ghost use Rattle.clu_meaning.specs.Headings.{HeadingsStand};
ghost use Rattle.clu_meaning.specs.Typed.{EndsTyped};

/// A run that has ended ends the same with more turns, state and meters included; and a run that is out of turns has
/// written a prefix of what one with more turns writes, and no meter of this one is less.
pub fn more_turns()
    ensures { (program : Program) (start input : List ℕ) (n k : ℕ) → GoesOn k (result_of_run program start input n) (result_of_run program start input (n + k)) }
{}

/// A run only adds to its output, and none of its meters ever falls.
pub fn only_grows()
    ensures { (program : Program) (start input : List ℕ) (n : ℕ) → Later (first_state input) (state_of (result_of_run program start input n)) }
{}

/// As many levels as turns are enough: with more of them a run with so many turns is the same.
pub fn more_levels()
    ensures { (program : Program) (start input : List ℕ) (n k : ℕ) → begins program (level program (n + k)) start n (first_state input) ≡ result_of_run program start input n }
{}

/// The state in which a run has ended fits, if the headings of the program stand.
pub fn ends_typed()
    ensures { (program : Program) (start input : List ℕ) (n : ℕ) (r : Running) → HeadingsStand program → defined program (module_routine start no_actuals) ≡ Some r → EndsTyped program r (result_of_run program start input n) }
{}
