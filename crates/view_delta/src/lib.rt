//! The changes of the live counts that an owner of rows has not posted yet, as a delta for each cell. A change costs an
//! addition for each cell that it moves, and no call takes memory. Every sum has to fit into 64 bits, which the caller
//! proves.
#![tactic(auto)]

mod pending;
#[cfg(test)]
mod tests;

pub use pending::Pending;
pub use tatp_actions::{CELLS, Cells, Change};
