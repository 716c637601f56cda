//! Word code: what a routine does, as statements and expressions over 64-bit words in numbered slots.
//! It knows neither the source nor the stack.
#![tactic(auto)]

mod copy;
mod cost;
mod expression;
mod formed;
mod hole;
mod kept;
mod primitive;
mod region;
mod room;
mod routine;
mod statement;
mod trap;
mod width;

pub use crate::copy::{copy_constant, copy_constants, copy_texts};
pub use crate::cost::Cost;
pub use crate::expression::{WExpr, WOp};
pub use crate::formed::place_of;
pub use crate::hole::HoleKind;
pub use crate::primitive::Primitive;
pub use crate::region::{Arm, RegionBuilder};
pub use crate::room::Room;
pub use crate::routine::{WCode, WDeed, WLeaf, WRoutine};
pub use crate::statement::{WArm, WStmt};
pub use crate::trap::{TRAPS, Trap};
