//! A part of the store with its pending deltas and its desk. Whenever a call returns, what the desk has published and
//! what is pending of each cell add up to the count over the part's rows. An action costs what it costs the part, and
//! an addition for each cell that it moves. A posting costs an atomic addition for each cell that it posts. A look at
//! the board doesn't see what is pending, and nothing is posted without a call.
#![tactic(auto)]

mod holding;
mod job;
mod lending;
mod listed;
mod many;
mod moving;
mod parting;
mod piece;

pub use holding::Holding;
pub use job::Job;
pub use piece::Piece;

// Rows and words are counted by the same cells.
const _: () = prove!(view_board::CELLS == tatp_actions::CELLS);
