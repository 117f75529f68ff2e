//! The events that change rows, as lines of a journal and back. An event has one line, no other event has the same one,
//! and a line has neither a zero nor a line feed in it. A call looks at one line and takes no memory, except that a
//! vector grows.
#![tactic(auto)]

mod digits;
mod done;
mod error;
mod first;
mod reading;
#[cfg(test)]
mod tests;
mod writing;

pub use digits::LONGEST;
pub use done::done_is_change;
pub use error::LineError;
pub use first::{check_first_line, push_first_line};
pub use hlr_core::Event;
pub use reading::read_line;
pub use writing::push_line;
