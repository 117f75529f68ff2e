//! A list of the calls that a file has had, with their answers. Only clauses read it, so it takes no memory.
ghost use Rattle.std.specs.Prelude.{◌≡◌, List, [], ◌∷◌, Bool};
ghost use Rattle.std.specs.Borrow.{ftrue};
ghost use Rattle.journal_file.specs.Calls.{Call, seen_after};
ghost use Rattle.journal_file.specs.declared.record.Step.TheVariants.{Held};

use std::marker::Model;

/// Says which call a file had, and whether the call was done.
#[derive(Clone, Copy, Debug)]
pub enum Step {
    /// These bytes were read behind those that were read before, from a file that was synced.
    Held,
    /// The next bytes couldn't be read.
    Unreadable,
    Wrote { at: usize, is_done: bool },
    Blanked { from: usize, is_done: bool },
    Grew { more: usize, is_done: bool },
    Synced { is_done: bool },
    /// A file with these bytes was given its place.
    Replaced { is_done: bool },
}

#[derive(Drop)]
pub struct Record {
    pub ghost calls: { List Call },
}

impl Model for Record {
    ghost also_owns = { λ _. ftrue };
}

impl Record {
    /// Returns the list of a single call, which read these bytes.
    pub(crate) fn of_read(_bytes: &[u8]) -> Record
        ensures { result.calls ≡ (Held, _bytes.now) ∷ [] }
    {
        Record {}
    }

    /// Returns a list with one call more. The bytes of this call are those that a file has after the calls of
    /// `_content`.
    pub(crate) fn with(_before: &Record, _step: &Step, _content: &Record) -> Record
        ensures { result.calls ≡ (_step.now, seen_after _content.now.calls) ∷ _before.now.calls }
    {
        Record {}
    }

    /// Returns the same list.
    pub(crate) fn copy(_of: &Record) -> Record
        ensures { result.calls ≡ _of.now.calls }
    {
        Record {}
    }
}
