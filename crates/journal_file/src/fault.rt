//! The reasons why a call gives up.
ghost use Rattle.std.specs.Prelude.{◌≡◌};
ghost use Rattle.journal_file.specs.declared.fault.JournalFault.TheVariants.{Memory};

use std::alloc::{AllocError, AllocFailed};

/// Says why a call of a journal, or of the file that it stands on, gave up.
#[derive(Clone, Copy, Debug, PartialEq, Eq)]
pub enum JournalFault {
    /// Memory was refused.
    Memory,
    /// The disk failed, or the system refused a call.
    Failed,
    /// The file would pass 2^62 bytes.
    Full,
    /// Another process, or another handle of this one, has the file open.
    Locked,
    /// The file is no journal: no zero stands behind its text.
    NoJournal,
    /// The machine that does the lines of a journal can't do this one.
    BadLine,
}

impl From<AllocError> for JournalFault {
    ghost from_gives = { λ _ e. e ≡ Memory };

    fn from(_: AllocError) -> Self {
        JournalFault::Memory
    }
}

impl<T: Drop> From<AllocFailed<T>> for JournalFault {
    ghost from_gives = { λ _ e. e ≡ Memory };

    fn from(_: AllocFailed<T>) -> Self {
        JournalFault::Memory
    }
}
