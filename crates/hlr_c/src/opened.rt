//! What lies at the address in an open handle.
use hlr_kept::Journal;
use hlr_lent::Lender;
use journal::Relayed;

/// A journal in a file on which C makes the calls. Until C has made those of a snapshot, the journal that the register had
/// before is kept as well, so that the register has it again if one of them fails.
#[derive(Drop)]
pub struct FileJournal {
    pub(crate) current: Journal<Relayed>,
    pub(crate) before: Option<Journal<Relayed>>,
}

/// A register that lends its parts, with its journal, if it has one. A register with a journal lends no part.
#[derive(Drop)]
pub struct Opened {
    pub(crate) lender: Lender,
    pub(crate) journal: Option<FileJournal>,
}
