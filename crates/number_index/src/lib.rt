//! The index of numbers, which finds the subscriber who has a number. A call goes down one path of a tree, in dense
//! stretches with a guess at each node, and only `add` and `rename` take memory. The index knows no rows, so its caller
//! has to keep its pairs equal to those of the rows.
#![tactic(auto)]

mod index;

pub use index::{NumberIndex, Page};
