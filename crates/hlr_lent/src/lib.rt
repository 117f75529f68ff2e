//! A register whose parts are lent to the caller's threads. Each lent part comes home through a ring of its own. A job
//! on a lent part costs what it costs on its holding, without a wait and without a lock. A ring carries back only what
//! jobs have made of the holding that was lent. If a lent part is dropped, its rows are lost, and its part stays lent.
#![tactic(auto)]

mod changes;
mod homes;
mod lender;
mod lent_part;
mod ring;

pub use lender::Lender;
pub use lent_part::{LentPart, Sent};
