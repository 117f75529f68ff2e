//! A journal that loses nothing that was synced. Lines are appended to a file and synced in groups. After a crash at
//! any moment, the file stands for the lines of a front of what was appended, with all that was synced in it.
//!
//! The text of a journal is what stands in front of the first byte 0 of its file, and zeros that are on the disk stand
//! behind it. No byte of a text is 0, so a byte that a crash has taken back is a 0, and what is left of an append is a
//! front of it. A last line that has no line feed doesn't count. Hence there is no checksum and no length to trust.
//!
//! A [`Tape`] is a file with such a text. A [`Machine`] is any state that lines lead on from, and [`replay`] runs the
//! lines of a file through it, one piece of the file after another. [`replay_bytes`] does so with all bytes at once.
//!
//! ```text
//! let mut unread = journal_file::open(&rt, "hlr.journal")?;
//! let ends = replay(alloc, &mut unread, &mut machine)?;   // the machine is the one after the file's lines
//! let mut tape = Tape::new(unread.into_device());
//! tape.recover(ends)?;                                    // what a crash left behind the last line is made zeros
//! tape.append(b"one\n")?;
//! tape.append(b"two\n")?;
//! tape.sync()?;                                           // from here on no crash takes these lines back
//! ```
#![tactic(auto)]

mod compacting;
mod follower;
mod machine;
mod reading;
mod scan;
mod tape;
#[cfg(test)]
mod tests;

pub use compacting::compact;
pub use machine::Machine;
pub use reading::{replay, replay_bytes};
pub use scan::is_group;
pub use tape::{Ends, Tape};

// The types that the calls take and return, so that a caller needs no other crate.
pub use journal_file::{
    Device, Disk, JournalFault, Memory, Owed, Relayed, Replace, Step, Unread, UnreadDisk,
    UnreadMemory, open, open_next,
};
