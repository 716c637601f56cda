//! The law, the contract of a function that does nothing.

ghost use Rattle.laws_replacing.specs.Laws.{KeptProgramsRest};

/// Each program that is kept where a specification takes the place of another rests on what it rested on, and nothing of this
/// was replaced.
pub fn kept_programs_rest()
    ensures { KeptProgramsRest }
{}
