//! The rows of the TATP tables (TATP's description, sections 2.1 to 2.4), with their fields, numbers, letters and keys,
//! and the refusals of the store. A call looks at the fields of one row and takes no memory. The ranges of the fields
//! are this project's own choice, and keys pack the fields by these ranges, so a range that grows needs another
//! packing.
#![tactic(auto)]

mod access;
mod facility;
mod forwarding;
mod keys;
mod letters;
mod number;
mod ranges;
mod refusal;
mod subscriber;
#[cfg(test)]
mod tests;
mod zones;

pub use access::Access;
pub use facility::Facility;
pub use forwarding::Forwarding;
pub use keys::{row_key, subscriber_key};
pub use letters::Letters;
pub use number::Number;
pub use ranges::{
    GREATEST_WIDTH, LAST_SUBSCRIBER, byte_in_range, in_range, is_between, is_start_time,
};
pub use refusal::{Back, Refusal};
pub use subscriber::Subscriber;
pub use zones::{area, zone};
