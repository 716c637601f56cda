//! Why programs never come to what no case applies to: when the text of a routine is well typed, and that a program of such
//! texts never goes wrong. Laws alone, over the definitions of `clu_meaning`.
#![tactic(auto)]

mod laws;

pub use laws::{
    calls_come_as_headed, counting_is_well_typed, modules_are_enough, never_goes_wrong,
    texts_are_well_typed,
};
