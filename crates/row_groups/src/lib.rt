//! Groups of rows: the rows of one table that one subscriber has, or the forwardings of one facility, as one small
//! value. A group has a place for each row that there can be, so no call takes memory. It doesn't keep to whom it
//! belongs, because the tree that holds it has that in its key.
#![tactic(auto)]

mod accesses;
mod facilities;
mod forwarding_word;
mod forwardings;
mod places;
#[cfg(test)]
mod tests;

pub use accesses::Accesses;
pub use facilities::Facilities;
pub use forwardings::Forwardings;
