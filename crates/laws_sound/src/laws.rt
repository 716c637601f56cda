//! What holds of each program whose texts are well typed, whatever test says which routine objects are lawful in it. The
//! functions do nothing: their contracts are the laws.

ghost use Rattle.std.specs.Prelude.{Bool};
ghost use Rattle.clu_layout.specs.Objects.{Routine};
ghost use Rattle.clu_meaning.specs.Programs.{Program};
ghost use Rattle.laws_sound.specs.Counting.{counting, counting_lawful};
ghost use Rattle.laws_sound.specs.Builtins.{BuiltinsLawful, ModulesWellTyped, TextsWellTyped};
ghost use Rattle.laws_sound.specs.Sound.{LawfulBy, IsWellTyped, CallsComeAsHeaded, NeverGoesWrong};

/// A lawful procedure that is called with objects of its heading's arguments gives objects of its results, or raises an
/// exception that the heading lists, or failure; and the state stays typed.
pub fn calls_come_as_headed()
    ensures { (program : Program) (lawful : Routine → Bool) → IsWellTyped program lawful → CallsComeAsHeaded program lawful }
{}

/// A program whose texts are well typed never goes wrong, from each lawful start, for every input and number of turns.
pub fn never_goes_wrong()
    ensures { (program : Program) (lawful : Routine → Bool) → IsWellTyped program lawful → NeverGoesWrong program lawful }
{}

/// There is a program whose texts are well typed: one that counts in a loop.
pub fn counting_is_well_typed()
    ensures { IsWellTyped counting counting_lawful }
{}

/// The texts and schemes of built-in operations are well typed, where they are lawful.
pub fn texts_are_well_typed()
    ensures { (program : Program) (lawful : Routine → Bool) → BuiltinsLawful program (LawfulBy lawful) → TextsWellTyped program lawful }
{}

/// A program is well typed if its modules are, and if what built-in operations need is lawful.
pub fn modules_are_enough()
    ensures { (program : Program) (lawful : Routine → Bool) → ModulesWellTyped program (LawfulBy lawful) → IsWellTyped program lawful }
{}
