//! A file as a journal sees it: what a read returns, and what a crash at any moment may leave.
//!
//! [`Device`] states the meaning of a file on a disk that finishes each byte that it begins. [`Memory`] meets it in
//! memory, which tests use, and [`Disk`] over `std::fs`. A file is read once, in pieces, before it is written
//! ([`Unread`]). Another file can take its place at once ([`Replace`]). Where no call can reach the disk, as in a library
//! without a runtime, [`Relayed`] notes each call and owes it to the owner of the file, who makes it.
//!
//! ```text
//! let mut unread = open(&rt, "hlr.journal")?;      // makes the file if there is none, and locks it
//! let mut piece = [0; 65_536];
//! while unread.read_on(&mut piece)? > 0 {}         // the pieces, one after another
//! let mut file = unread.into_device();
//! file.write_at(0, b"one\n")?;                     // a crash leaves each byte as it was or as it was written
//! file.sync()?;                                    // from here on it leaves them as they were written
//! ```
#![tactic(auto)]

mod device;
mod disk;
mod fault;
mod memory;
mod noted;
mod opening;
mod record;
mod relayed;

pub use device::{Device, Replace, Unread};
pub use disk::{Disk, NamedFile, UnreadDisk};
pub use fault::JournalFault;
pub use memory::{Memory, UnreadMemory};
pub use noted::{Noted, SystemFile, UnreadNoted};
pub use opening::{open, open_next};
pub use record::Step;
pub use relayed::{Owed, Relayed};

#[cfg(test)]
mod tests;
