//! What names denote and what is wanted, as tables by node.

ghost use Rattle.std.specs.Prelude.{◌≡◌, ◌-◌, ◌^◌, length, min};
ghost use Rattle.clu_bindings.specs.Modules.{named};

use crate::meaning::{Meaning, ModuleId};
use crate::wanted::Wanted;
use clu_base::{Bytes, Sequence};
use clu_types::{ParamKind, TypeId};
use std::collections::HashMap;

/// What a module is, before headings are known.
#[derive(Drop)]
pub struct ModuleKnown {
    /// The kind of actual for each parameter, unless the parameter has no legal type.
    pub kinds: Sequence<Option<ParamKind>>,
    pub is_routine: bool,
}

/// The modules of a file in the order of the text, and behind them those of its library.
#[derive(Drop)]
pub struct Modules {
    /// By name the first of the file, or that of the library; none is `stream`.
    pub by_name: HashMap<Bytes, ModuleId>,
    pub known: Vec<ModuleKnown>,
    /// How many of them are of the file.
    pub of_file: u32,
    /// For each Module node its module.
    pub units: Vec<Option<ModuleId>>,
}

impl Modules {
    /// The module of this name; None of `stream` and of a name of no module.
    pub fn named(&self, name: &Bytes) -> Option<ModuleId>
        ensures { result ≡ named self.now name.now }
    {
        self.by_name.get(name).copied()
    }

    /// How many there are, as far as 32 bits count.
    pub fn count(&self) -> u32
        ensures { result ≡ min (length self.now.known.items) (2 ^ 32 - 1) }
    {
        match u32::try_from(self.known.len()) {
            Ok(count) => count,
            Err(_) => u32::MAX,
        }
    }
}

/// The parameters of the modules of a file.
#[derive(Drop)]
pub struct ParameterTypes {
    /// For each declaration of a parameter its number.
    pub numbers: Vec<u32>,
    /// For each Module node how many it has.
    pub counts: Vec<u32>,
    /// For each node where those of the Module begin among `declared`, if it is one.
    pub starts: Vec<usize>,
    /// The node of the type with which each is declared; None of a type parameter.
    pub declared: Vec<Option<u32>>,
}

/// What names denote and what is wanted, as tables by node.
#[derive(Drop)]
pub struct Bindings {
    pub modules: Modules,
    pub parameters: ParameterTypes,
    /// For each declaration, by its place, what it declares.
    pub declared: Vec<Meaning>,
    /// For each name of a node what it denotes there, as `names.bound` says which declaration it is bound to.
    pub meanings: Vec<Meaning>,
    /// For each declaration the TypeSet for which it stands.
    pub sets: Vec<Option<u32>>,
    /// For each node its place among its parent's children.
    pub places: Vec<usize>,
    /// For each node what the name `rep` is bound to there, by the place of the declaration.
    pub reps: Vec<Option<usize>>,
    /// For each Cluster node its type with its own parameters.
    pub own: Vec<Option<TypeId>>,
    /// For each node that is a Name whether brackets after it hold actual parameters.
    pub takes_actuals: Vec<bool>,
    /// For each node what is wanted there.
    pub wanted: Vec<Wanted>,
}
