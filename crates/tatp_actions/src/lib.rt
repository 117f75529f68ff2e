//! A part of the store: the rows of a range of subscribers, the seven transactions of TATP (its description, section 3)
//! and the administrative actions on them, and the change of the cells by each. An action goes down one or two paths
//! for each row that it touches, and only one that adds a row takes memory. A part belongs to one owner, as a sub-tree
//! does in physiological partitioning (PLP), so it needs no latch. Its counts are right as long as that owner adds up
//! every change.
#![tactic(auto)]

mod action;
mod administration;
mod cells;
mod change;
#[cfg(test)]
mod cut_tests;
mod cutting;
mod destinations;
pub mod edit;
mod keyed;
mod lending;
mod listed;
mod many;
mod part;
#[cfg(test)]
mod plain;
#[cfg(test)]
mod plain_tests;
mod recount;
mod revisions;
mod rows;
mod stocks;
#[cfg(test)]
mod table;
#[cfg(test)]
mod tests;
mod transactions;
mod trees;

pub use action::{Action, RowReply};
pub use cells::{CELLS, Cells, FIRST_AREA, FIRST_ZONE};
pub use change::Change;
pub use edit::Edit;
pub use listed::{FromRow, KeyFields, TableRow};
pub use part::Part;
pub use rows::Rows;
pub use trees::Trees;
