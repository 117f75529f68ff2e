//! A file of the operating system. Each method makes its calls of the system, and then notes them with their answer.
ghost use Rattle.std.specs.Prelude.{◌≡◌, ◌<◌, ◌≤◌, [], ◌∷◌, true, length, IfOk, None};
ghost use Rattle.std.proofs.Common.{◌∙◌, refl};
ghost use Rattle.journal_file.specs.Calls.{HasReadOn, seen_after, left_after, faults_in, left_since};
ghost use Rattle.journal_file.specs.Laws.{more_reads, no_more_reads, now_counts, now_alone, read_front, seen_left};
ghost use Rattle.journal_file.specs.Noted.{noted_file, noted_read};

use crate::record::{Record, Step};
use crate::{Device, JournalFault, Unread};

/// The count of zeros that a new file is made of.
pub(crate) const ROOM: usize = 1 << 16;

const PAGE: usize = 1 << 16;

static ZEROS: [u8; PAGE] = [0; PAGE];

/// A file of the operating system, as its calls reach it. They fail at an offset past 2^63 - 1.
pub trait SystemFile {
    /// Reads bytes from an offset on into the front of the buffer, and returns how many they are. It returns 0 at the
    /// end of the file, or if the buffer is empty.
    fn read_some(&self, at: usize, buffer: &mut [u8]) -> Result<usize, JournalFault>
        ensures fits { IfOk result (λ n. n ≤ length buffer.new) }
        ensures length { length buffer.new ≡ length buffer.old };

    /// Writes the first of some bytes at an offset, and returns how many they are.
    fn write_some(&self, at: usize, bytes: &[u8]) -> Result<usize, JournalFault>
        requires some { 0 < length bytes.now }
        ensures fits { IfOk result (λ n. (0 < n) × (n ≤ length bytes.now)) };

    /// Puts all that was written on the disk.
    fn sync(&self) -> Result<(), JournalFault>;
}

/// Reads a file of the operating system from its front to its end.
#[derive(Drop)]
pub struct UnreadNoted<F: SystemFile> {
    file: F,
    len: usize,
    is_read: bool,
    log: Record,
}

impl<F: SystemFile> UnreadNoted<F> {
    /// Takes a file that is synced.
    pub(crate) fn new(file: F) -> UnreadNoted<F>
        ensures read { noted_read result ≡ [] }
    {
        UnreadNoted {
            file,
            len: 0,
            is_read: false,
            log: Record::of_read(&[]),
        }
    }
}

impl<F: SystemFile + Drop> Unread for UnreadNoted<F> {
    type File = Noted<F>;

    ghost read = { λ u. seen_after u.log.calls };

    ghost IsRead = { λ u. u.is_read ≡ true };

    ghost file = { noted_file };

    ghost faults = { λ u. faults_in u.log.calls };

    ghost IsReadOn = { λ first last. HasReadOn first.log.calls last.log.calls × (last.file ≡ first.file) };

    ghost is_itself = { λ file. (no_more_reads file.log.calls, refl) };

    ghost stays_same = { λ first then last more again. (more_reads first.log.calls then.log.calls last.log.calls more.0 again.0, again.1 ∙ more.1) };

    ghost reads_front = { λ first last more. read_front first.log.calls last.log.calls more.0 };

    fn read_on(&mut self, buffer: &mut [u8]) -> Result<usize, JournalFault> {
        let Ok(n) = self.file.read_some(self.len, buffer) else {
            let nothing = Record::of_read(&[]);
            self.log = Record::with(&self.log, &Step::Unreadable, &nothing);
            return Err(JournalFault::Failed);
        };
        let read = Record::of_read(&buffer[..n]);
        self.log = Record::with(&self.log, &Step::Held, &read);
        self.len = self.len.saturating_add(n);
        if n == 0 && !buffer.is_empty() {
            self.is_read = true;
        }
        Ok(n)
    }

    fn into_device(self) -> Noted<F> {
        let nothing = Record::of_read(&[]);
        let log = Record::with(&self.log, &Step::Held, &nothing);
        Noted {
            file: self.file,
            len: self.len,
            log,
        }
    }
}

/// Writes a file of the operating system, of which it knows the calls that the file has had.
#[derive(Drop)]
pub struct Noted<F: SystemFile> {
    pub(crate) file: F,
    pub(crate) len: usize,
    pub(crate) log: Record,
}

impl<F: SystemFile> Noted<F> {
    fn note(&mut self, step: Step, bytes: &[u8])
        ensures noted { self.new.log.calls ≡ (step, bytes.now) ∷ self.old.log.calls }
    {
        let content = Record::of_read(bytes);
        self.log = Record::with(&self.log, &step, &content);
    }
}

fn write_all<F: SystemFile>(file: &F, at: usize, bytes: &[u8]) -> Result<(), JournalFault> {
    let mut done = 0;
    while done < bytes.len() {
        done += file.write_some(at.saturating_add(done), &bytes[done..])?;
    }
    Ok(())
}

/// Writes zeros from one offset to another.
pub(crate) fn write_zeros<F: SystemFile>(
    file: &F,
    from: usize,
    to: usize,
) -> Result<(), JournalFault> {
    let mut at = from;
    while at < to {
        let n = PAGE.min(to - at);
        write_all(file, at, &ZEROS[..n])?;
        at += n;
    }
    Ok(())
}

impl<F: SystemFile> Device for Noted<F> {
    ghost seen = { λ f. seen_after f.log.calls };

    ghost may_leave = { λ f. left_after f.log.calls };

    ghost moment = { λ f. length f.log.calls };

    ghost left_since = { λ f. left_since f.log.calls };

    ghost faults = { λ f. faults_in f.log.calls };

    ghost owner = { λ f. None };

    ghost counts_now = { λ f t c le now. now_counts f.log.calls t c now };

    ghost leaves_seen = { λ f. seen_left f.log.calls };

    ghost only_now = { λ f c left. now_alone f.log.calls c left };

    fn write_at(&mut self, at: usize, bytes: &[u8]) -> Result<(), JournalFault> {
        if write_all(&self.file, at, bytes).is_err() {
            self.note(Step::Wrote { at, is_done: false }, bytes);
            return Err(JournalFault::Failed);
        }
        self.note(Step::Wrote { at, is_done: true }, bytes);
        Ok(())
    }

    fn blank(&mut self, from: usize) -> Result<(), JournalFault> {
        if write_zeros(&self.file, from, self.len).is_err() {
            self.note(
                Step::Blanked {
                    from,
                    is_done: false,
                },
                &[],
            );
            return Err(JournalFault::Failed);
        }
        self.note(
            Step::Blanked {
                from,
                is_done: true,
            },
            &[],
        );
        Ok(())
    }

    fn grow(&mut self, more: usize) -> Result<(), JournalFault> {
        let end = self.len.saturating_add(more);
        if write_zeros(&self.file, self.len, end).is_err() {
            self.note(
                Step::Grew {
                    more,
                    is_done: false,
                },
                &[],
            );
            return Err(JournalFault::Failed);
        }
        self.len = end;
        self.note(
            Step::Grew {
                more,
                is_done: true,
            },
            &[],
        );
        Ok(())
    }

    fn sync(&mut self) -> Result<(), JournalFault> {
        if self.file.sync().is_err() {
            self.note(Step::Synced { is_done: false }, &[]);
            return Err(JournalFault::Failed);
        }
        self.note(Step::Synced { is_done: true }, &[]);
        Ok(())
    }
}
