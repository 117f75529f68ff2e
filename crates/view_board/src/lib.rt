//! The board of shared words. It has 16 slots, each with a plus-word and a minus-word for each cell. Only the desk that
//! owns a slot raises its words, while any desk may look at all of them. A raise is one atomic addition, a look is one
//! load of each word, and no call waits. A look isn't a single moment: of words that are raised meanwhile, it may see
//! one before its raise and another one after.
#![tactic(auto)]

mod board;
mod desk;
mod rule;
#[cfg(test)]
mod tests;
mod words;

pub use board::Board;
pub use desk::Desk;
pub use words::{CELLS, LIMIT, SLOT_WORDS, SLOTS, Sight, WORDS};
