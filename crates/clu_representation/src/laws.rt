//! What holds of the words of objects. The functions do nothing: their contracts are the laws.

ghost use Rattle.clu_representation.specs.Kept.{CellsApart, ComponentPut, ElementPut, FoundAsStored, HandedOut, IntsApart};
ghost use Rattle.clu_representation.specs.Kept.{LowPut, OneAdded, OneChanged, ShownStays, VariantPut};
ghost use Rattle.clu_representation.specs.Stored.{PutInStore, TakenFromStore};

/// What shows an object goes on to show it where fixed words stay and cells keep their addresses.
pub fn shown_stays()
    ensures { ShownStays }
{}

/// Words of nobody can be handed out, and a cell more or another object in a cell leaves all others.
pub fn cells_stay()
    ensures handed_out { HandedOut }
    ensures one_changed { OneChanged }
    ensures one_added { OneAdded }
{}

/// A word that is put into a mutable object where its component, its tag and value, its element or its low bound lies leaves
/// each mutable object in its cell, this one changed.
pub fn puts_keep_the_heap()
    ensures component { ComponentPut }
    ensures variant { VariantPut }
    ensures element { ElementPut }
    ensures low { LowPut }
{}

/// Words are equal just where the ints or the mutable objects are that they show.
pub fn words_tell_apart()
    ensures ints { IntsApart }
    ensures cells { CellsApart }
{}

/// An expression of word code finds in the store the words and bytes of the layout that the store has; and where word code puts
/// a word of a cell or takes new words, the store has the layout with this word, or with these, which are 0.
pub fn seen_as_stored()
    ensures read { FoundAsStored }
    ensures put { PutInStore }
    ensures taken { TakenFromStore }
{}
