//! What tests of several crates share: rows, registers and calls of them, and numbers that look random. A call costs
//! what the register's call costs, and one test more. No code but that of tests may use it.
#![tactic(auto)]

mod calls;
mod random;
mod rows;

pub use calls::{AWAY, ask, opened, published, recounted, recut, unposted};
pub use random::Random;
pub use rows::{access_row, facility_row, number, row};
