//! The nodes of a tree of rows, with at most 32 entries or children each, the meter that counts every node that is
//! taken apart or built, and the stock of blank nodes from which trees grow. A call on a key goes down one path and
//! makes at most thirteen comparisons in each node: eleven for the search, one at the place that it finds, and one at
//! the place of a guess. Only filling the stock takes memory. An inner node keeps the least key and the count of rows
//! of each child, so code that changes a child has to set both again.
#![tactic(auto)]

mod body;
mod children;
mod cuts;
mod entries;
mod entry_lists;
mod guess;
mod keys;
mod meter;
mod node;
mod places;
mod rebalancing;
mod revise;
mod room;
mod stock;

pub use body::{Body, Child, Inner, Leaf};
pub use children::{child_place, empty_inner, take_child};
pub use cuts::{build_blank, cut_children, cut_leaf};
pub use meter::Meter;
pub use node::{Node, build_inner, build_leaf, insert_child, open};
pub use revise::Revise;
pub use room::Room;
pub use stock::{Blanks, Stock};
