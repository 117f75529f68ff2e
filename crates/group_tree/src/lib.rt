//! Trees whose values are groups: all accesses or all facilities of a subscriber, or all forwardings of a facility. A
//! tree of groups is seen as the ordered list of its rows, as a tree that has a value for each row is, so a call
//! promises of the rows what the same call of `SubTree` promises. A row that joins a group which is there takes no
//! memory, and a group whose last row goes is removed from its tree.
#![tactic(auto)]

mod accesses;
mod cuts;
mod facilities;
mod facility_change;
mod forwardings;
mod group;
mod keys;
mod pages;
#[cfg(test)]
mod tests;
mod tree;
mod walk;

pub use group::{Group, Row};
pub use tree::GroupTree;
