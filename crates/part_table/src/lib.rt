//! The regions of parts and loose pieces, which say who has which s_ids: how gives, takes, divides, dissolves and
//! recuts change them, and which bounds would give each part about its share of the rows. A call looks at up to 32
//! regions or weights and takes no memory. A list of regions knows no rows, so a caller who changes it has to move the
//! rows too.
#![tactic(auto)]

mod bounds;
mod cutting;
mod finding;
mod joining;
mod moves;
mod numbering;
mod parting;
mod recut;
mod region;
mod regions;
#[cfg(test)]
mod tests;

pub use bounds::{Bounds, GREATEST_WEIGHT};
pub use moves::CutMove;
pub use region::{END, MOST_PARTS, MOST_PIECES, Place, Region, Side};
pub use regions::{Regions, can_open};
