//! Which instances of a program are live at its last raise. A trace looks at the machine before each step and reads the
//! words of the stack; docs/code.md says what they hold, and the linker what a trace knows of the image.
#![tactic(auto)]

mod instance;
mod live;
mod map;
mod place;
mod registers;
mod running;
mod stack;
mod trace;

pub use crate::instance::Instance;
pub use crate::map::TraceMap;
pub use crate::trace::Trace;
