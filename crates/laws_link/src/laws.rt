//! The laws, each the contract of a function that does nothing.

ghost use Rattle.std.specs.Prelude.{◌<◌, ◌^◌, ℕ};
ghost use Rattle.clu_link_meaning.specs.Plan.{Plan};
ghost use Rattle.laws_link.specs.Laws.{HolesGive, NamesDiffer, OneReach, ReachIsClosed, ReachIsLeast, StringsStand, TablesStand, WordsStand};

/// A program reaches one list of instances, and one thing is found at each.
pub fn one_reach()
    ensures { OneReach }
{}

/// What an instance uses that is reached is reached.
pub fn reach_is_closed()
    ensures { ReachIsClosed }
{}

/// Nothing else is reached.
pub fn reach_is_least()
    ensures { ReachIsLeast }
{}

/// The words of code are those of its object but under holes.
pub fn words_stand()
    ensures { (p : Plan) → WordsStand p }
{}

/// Descriptors and link tables stand at their addresses.
pub fn tables_stand()
    ensures { (p : Plan) → TablesStand p }
{}

/// Strings stand at their addresses, which tell them.
pub fn strings_stand()
    ensures { (p : Plan) → StringsStand p }
{}

/// Different names have different words.
pub fn names_differ()
    ensures { (p : Plan) → NamesDiffer p }
{}

/// The words under a hole give its number.
pub fn holes_give()
    ensures { (word other v : ℕ) → v < 2 ^ 30 → HolesGive word other v }
{}
