//! Files that aren't opened as journals, and come back.

use journal::JournalFault;

/// A file that isn't opened as a journal, with the reason.
#[derive(Drop)]
pub struct NotOpened<U, F> {
    pub why: JournalFault,
    pub file: GivenBack<U, F>,
}

/// A file that comes back from an opening that gave up.
#[derive(Drop)]
pub enum GivenBack<U, F> {
    /// The file wasn't read to its end, and nothing was written to it.
    Unread(U),
    /// The file was read to its end. What was written since stands for the same rows.
    Read(F),
}
