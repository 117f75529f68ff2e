//! The faults that end a run early.
ghost use Rattle.std.specs.Prelude.{◌≡◌};
ghost use Rattle.csv.specs.Reading.{error_kind};
ghost use Rattle.hlr.specs.Fault.{fault_code, fault_words, opening_words, read_fault_of};

use csv::ErrorKind;
use journal_file::JournalFault;
use thiserror::Error;

/// A fault that ended a run early. No store is left after it.
#[derive(Clone, Copy, Debug, PartialEq, Eq, Error)]
pub enum Fault {
    /// The system refused memory.
    #[error("no memory")]
    Memory,
    /// An option is out of its range.
    #[error("bad option")]
    Field,
    /// The system refused to start a thread.
    #[error("no thread")]
    Thread,
    /// The reader failed, or had more than 1,048,576 records.
    #[error("read fault")]
    Read,
    /// The sink failed.
    #[error("write fault")]
    Write,
}

impl Fault {
    /// Returns the number of the fault: 1, 2, 18, 20 or 21.
    pub fn code(self) -> u8
        ensures { result ≡ fault_code self }
    {
        match self {
            Fault::Memory => 1,
            Fault::Field => 2,
            Fault::Thread => 18,
            Fault::Read => 20,
            Fault::Write => 21,
        }
    }

    /// Returns what the program says of the fault.
    pub fn words(self) -> &'static str
        ensures { result.now ≡ fault_words self }
    {
        match self {
            Fault::Memory => "no memory",
            Fault::Field => "bad option",
            Fault::Thread => "no thread",
            Fault::Read => "read fault",
            Fault::Write => "write fault",
        }
    }
}

/// Returns the fault of a failed read of a record: `Memory` if memory was refused, and otherwise `Read`.
pub fn read_fault(error: csv::Error) -> Fault
    ensures { result ≡ read_fault_of (error_kind error) }
{
    match error.into_kind() {
        ErrorKind::OutOfMemory => Fault::Memory,
        _ => Fault::Read,
    }
}

/// What the program says of a journal that it can't write, and what to do.
pub const UNWRITTEN: &str =
    "write fault: the journal can't be written; see to its disk, and start again";

/// Returns what the program says of a journal that it can't open, and what to do.
pub fn opening_words(why: JournalFault) -> &'static str
    ensures { result.now ≡ opening_words why }
{
    match why {
        JournalFault::Memory => "no memory",
        JournalFault::Failed => {
            "read fault: the journal can't be made or read; see to its path, its rights and its disk"
        }
        JournalFault::Full => "read fault: the journal has more than 2^62 bytes; name another file",
        JournalFault::Locked =>
            "read fault: another process has the journal open; end that one first",
        JournalFault::NoJournal => {
            "read fault: the file is no journal; name another one, or restore a copy of it"
        }
        JournalFault::BadLine => {
            "read fault: the journal is damaged or of another version; restore a copy of it"
        }
    }
}
