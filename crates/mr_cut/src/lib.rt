//! Slice and meld, by which a tree is cut at a key and two trees are joined. Both work along one path, and move whole
//! sub-trees as boxes. Both take a number of steps that is bounded by the height, and no memory except blank nodes of a
//! stock. The stock has to be large enough before the call, which refuses nothing. `need_slice` and `need_meld` compute
//! how large.
#![tactic(auto)]

mod cuts;
mod joins;
mod needs;
mod side_joins;
mod trees;

pub use needs::{need_meld, need_slice, stock_for_meld, stock_for_slice};
pub use trees::{Cut, meld, meld_from, slice, slice_into};
