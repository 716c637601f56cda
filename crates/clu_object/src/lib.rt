//! Objects: the code of a module's routines with holes for what only the linker knows, as plain data
//! that contracts compare, and as bytes.
#![tactic(auto)]

mod copy;
mod counts_ahead;
mod holes;
mod names;
mod object;
mod read_holes;
mod read_items;
mod read_regions;
mod reading;
mod testing;
mod writing;

pub use clu_base::{Const, ObjConst};
pub use clu_wir::{Arm, HoleKind, copy_constant, copy_constants, copy_texts};
pub use copy::copy_arm;
pub use object::{Hole, ObjRoutine, Object, Region};
pub use reading::read;
pub use testing::is_object;
pub use writing::write;
