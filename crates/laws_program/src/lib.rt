//! When an image stands for a program, what follows of it, and what the layers of the compiler have to give for it.
#![tactic(auto)]

mod laws;

pub use laws::{
    a_program_writes, an_image_stands, bad_calls_are_refused, ends_as_meant,
    full_at_once_is_refused, full_for_nothing_is_refused, layers_are_enough, one_meaning,
    returning_too_soon_is_refused, silence_is_refused, spinning_is_silent,
    writing_too_much_is_refused,
};
