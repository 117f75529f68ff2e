//! A register that survives a crash: its rows are kept in a journal, and it comes back from there.
//!
//! Each event that changes rows and is answered `Done` is written as its line, in order, and an answer may be handed
//! out once a sync has put the lines in front of it on the disk. So a crash takes back nothing that was answered:
//! whatever it leaves of the journal stands for the rows after the first so many of the orders, with every order among
//! them whose answer was handed out.
//!
//! [`open`] reads a journal into an empty register and returns a [`Journaled`], which applies events and syncs. A
//! [`Kept`] also holds the answers back until they may be handed out. [`open_journal`] returns the register and its
//! [`Journal`] apart, for a caller that applies events in a way of its own. [`open_relayed`] does so where no call can
//! reach the disk: the calls on the file are owed to its owner. The laws say what a journal stands for, and the calls
//! below write a journal and do its lines again.
//!
//! ```text
//! let register = Register::open(alloc, 4, 100_000)?;
//! let journaled = match open(alloc, register, journal::open(&rt, "hlr.journal")?) {
//!     Ok(journaled) => journaled,
//!     Err(back) => return Err(back.why),    // and the file is `back.file`
//! };
//! let mut kept = Kept::new(alloc, journaled);
//! kept.submit(&first)?;                     // applied, and its answer is held
//! kept.submit(&second)?;
//! for answer in kept.sync()? { .. }         // both are on the disk, so the answers may go
//! ```
#![tactic(auto)]

mod blank_tape;
mod draft;
mod journaled;
mod keeping;
mod kept;
mod laws;
mod not_opened;
mod opening;
mod restoring;
mod snapshots;
mod table_rows;
#[cfg(test)]
mod tests;
mod writing;

pub use blank_tape::{NextTape, blank};
pub use journaled::Journaled;
pub use keeping::Journal;
pub use kept::Kept;
pub use laws::{
    applied_is_ahead, crashes_leave_runs, fronts_are_runs, loses_nothing, redone_is_right,
    written_is_kept,
};
pub use not_opened::{GivenBack, NotOpened};
pub use opening::{open, open_journal, open_relayed};
pub use restoring::{redo, tells_done};
pub use snapshots::{snapshot, snapshot_journal, snapshot_relayed, snapshots_stand_for_books};
pub use writing::begin;
