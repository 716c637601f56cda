//! Types as numbered terms: two types are equal exactly where their numbers are.
//! Beside the arena of types stand the parts of a module's specification, which are written over them.
#![tactic(auto)]

mod actuals;
mod arena;
mod carry;
mod components;
mod copy;
mod included;
mod interned;
mod numbering;
mod renumbered;
mod spec;
mod specs;
mod term;

pub use arena::TypeArena;
pub use clu_base::{Const, ObjConst};
pub use spec::{Demand, Form, OpSpec, ParamKind, Spec};
pub use specs::Specs;
pub use term::{Actual, Exception, Field, Heading, Term, TypeId};
