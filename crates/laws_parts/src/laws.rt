//! The laws, each the contract of a function that does nothing.

ghost use Rattle.std.specs.Prelude.{◌≡◌};
ghost use Rattle.rv_select.specs.Finished.{blank, finished};
ghost use Rattle.rv_select.specs.Searching.{search_onto};
ghost use Rattle.laws_parts.specs.Part.{SearchStands};
ghost use Rattle.laws_parts.specs.Search.{search_code};
ghost use Rattle.laws_parts.specs.Start.{StartFollows};
ghost use Rattle.laws_parts.specs.Tables.{ArmsAreFound};

/// The words of the part that searches for an arm.
pub fn search_words_are()
    ensures { finished (search_onto (blank 18)) ≡ search_code }
{}

/// The part comes to the arm that takes an exception, or out of the routine, within a bound of steps.
pub fn arms_are_found()
    ensures { ArmsAreFound }
{}

/// The part that searches stands in the code of an image.
pub fn search_stands()
    ensures { SearchStands }
{}

/// The part at which a run starts calls the first procedure.
pub fn start_follows()
    ensures { StartFollows }
{}
