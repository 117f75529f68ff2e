//! A box in a form that C can keep. It is taken apart into its address and its allocator, and put together again, and
//! meanwhile a ghost field owns the value and the right to free its block (`BoxParts`). Neither call takes memory nor
//! changes the value. The prover sees no ownership in a mere address, so a struct that keeps one has to declare the
//! same.
#![tactic(auto)]

mod parts;

pub use parts::BoxParts;
