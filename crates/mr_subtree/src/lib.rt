//! Trees of rows, each seen as the ordered list of its pairs of key and value. A call on a key goes down one path. Only
//! an insertion into a full leaf may take memory, and it does so before it changes anything. Keys have to be below 2^64
//! - 2, which the caller proves.
#![tactic(auto)]

mod many;
mod subtree;

pub use subtree::SubTree;
