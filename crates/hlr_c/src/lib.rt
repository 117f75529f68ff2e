//! The register as a library for C: the handle of a register or of a lent part, and a call for everything that one can
//! ask of it. A call costs what the register's call costs, and 10 to 20 instructions to see whether a part is lent. C
//! keeps the handles, so the prover can't see that no two threads use one at the same time. `hlr.h`, which declares all
//! calls, has this and the other rules for callers.
//!
//! All calls take a handle, `Hlr` or `HlrPart`, by reference, and return a code. It is `DONE`, the code of a refusal
//! (`Refusal::code`), or one of four codes of this library. `hlr_open` and `hlr_lend` return `STILL_OPEN` if the handle
//! that should be opened has something already. All calls but `hlr_open` return `NOT_OPEN` if the handle has nothing.
//! `AWAY` means that the call needs a lent part, and `ELSEWHERE` that a lent part doesn't have the subscriber in its
//! range. Every number that C hands in is checked. A call writes what it reads by reference, and only if its code is
//! `DONE`.
#![tactic(auto)]

mod asking;
mod changes;
mod codes;
mod fields;
mod handle;
mod journaled;
mod journaling;
mod kept;
mod kept_part;
mod lending;
mod listing;
mod lists;
mod many;
mod opened;
mod opening;
mod owing;
mod pages;
mod part;
mod part_changes;
mod part_many;
mod part_reads;
mod parts;
mod reads;
mod reports;
mod rows;
#[cfg(test)]
mod tests;

pub use codes::{
    AWAY, BAD_JOURNAL, DONE, ELSEWHERE, FAILED, JOURNALED, LOCKED, NO_JOURNAL, NOT_OPEN, STILL_OPEN,
};
pub use handle::Hlr;
pub use owing::{SYNC, WRITE, ZEROS};
pub use part::HlrPart;
pub use rows::{
    HlrAccess, HlrAccessAsked, HlrBounds, HlrCall, HlrDestinationAsked, HlrFacility,
    HlrForwardingRow, HlrNumbers, HlrRegion, HlrRegions, HlrSubscriber,
};
