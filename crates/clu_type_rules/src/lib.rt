//! The rules on expressions, statements and exceptions: each a function that is asked at a node whose facts are known
//! (docs/language.md, "The rules as definitions").
#![tactic(auto)]

mod binding_rules;
mod disagreements;
mod exception_rules;
mod expression_rules;
mod invocation_rules;
mod known;
mod misfits;
mod objects;
mod result_rules;
mod routines;
mod statement_rules;
mod unmet;

pub use crate::disagreements::disagreeing;
pub use crate::exception_rules::{v23, v24, v25, v26, v27};
pub use crate::expression_rules::{v18, v20, v32};
pub use crate::invocation_rules::{Fault, v11, v12, v13};
pub use crate::known::Known;
pub use crate::result_rules::v14;
pub use crate::routines::{Parts, Routines};
pub use crate::statement_rules::{v15, v16, v21, v22, v28, v29, v30, v36};
pub use crate::unmet::{Unmet, unmet_of};
