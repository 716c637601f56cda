//! What each declaration of a file declares, and so what names denote.

/// What a name denotes.
#[derive(Clone, Copy)]
pub enum Meaning {
    /// An equate, by the node of the constant or type on its right side.
    Equate(u32),
    /// An equate with a type set on its right side.
    TypeSet,
    TypeParameter(u32),
    ConstantParameter(u32),
    /// A variable of a routine, by the node of its type.
    Local(u32),
    /// An own variable, likewise.
    OwnOfRoutine(u32),
    OwnOfCluster(u32),
    RoutineOfCluster,
    /// A module of the file or the library. None if there is no module of this name; so it is of `stream`.
    Module(Option<ModuleId>),
}

/// A module, by its place among those of the file, and behind them those of the library.
#[derive(Clone, Copy, PartialEq, Eq, Hash)]
pub struct ModuleId(pub u32);
