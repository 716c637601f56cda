//! Expressions of checked routines as word code, and the routine in the making to which they are added.
#![tactic(auto)]

mod arms;
mod binding;
mod bounds;
mod constructors;
mod in_place;
mod invoking;
mod literals;
mod lowering;
mod names;
mod operands;
mod owns;
mod sugar;
mod uses;
mod variables;
mod walk;

pub use crate::arms::{ArmPlace, OpenArm};
pub use crate::binding::{bind, bind_all};
pub use crate::constructors::binary;
pub use crate::invoking::{Invoked, is_call, lower_call, lower_callee, results_of};
pub use crate::lowering::Lowering;
pub use crate::operands::{Operand, again};
pub use crate::owns::{FLAG, assign_named, lower_own_set_up};
pub use crate::sugar::sugar_statement;
pub use crate::variables::Variable;
pub use crate::walk::{lower_all, lower_expr};
