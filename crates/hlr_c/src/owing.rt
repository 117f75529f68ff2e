//! The calls on the file of a journal that C is handed, because no code of this crate reaches the disk.
ghost use Rattle.std.specs.Prelude.{◌≡◌, None, Some, drop};
ghost use Rattle.journal_file.specs.Device.{over};
ghost use Rattle.tatp_actions.specs.Book.{Book};
ghost use Rattle.journal_file.specs.Relayed.{relayed_leaves, relayed_seen};
ghost use Rattle.hlr_owners.specs.Owners.{OwnersState};
ghost use Rattle.hlr_kept.specs.Keeping.{IsHanded, StandsFor};
ghost use Rattle.hlr_c.specs.Held.{IsJournaled};
ghost use Rattle.hlr_c.specs.Journaled.{IsMade, IsMaking, IsOwedTold, call_kind, fallen_back, no_call, told_call};

use crate::codes::{DONE, FAILED, NO_JOURNAL, code_of_fault};
use crate::opened::{FileJournal, Opened};
use crate::rows::HlrCall;
use journal::{Owed, Step};

/// The kind of a call that writes bytes from `from` to `to`.
pub const WRITE: u32 = 1;

/// The kind of a call that writes zeros from `from` to `to`.
pub const ZEROS: u32 = 2;

/// The kind of a call that puts all that was written on the disk.
pub const SYNC: u32 = 3;

// Definitions name these constants, so their numbers are proved here.
const _: () = prove!(WRITE == 1);

const _: () = prove!(ZEROS == 2);

const _: () = prove!(SYNC == 3);

const NO_CALL: HlrCall = HlrCall {
    kind: 0,
    fd: 0,
    from: 0,
    to: 0,
};

fn kind_of(step: &Step) -> u32
    ensures { result ≡ call_kind step.now }
{
    match step {
        Step::Wrote { .. } => WRITE,
        Step::Blanked { .. } | Step::Grew { .. } => ZEROS,
        Step::Synced { .. } => SYNC,
        Step::Held | Step::Unreadable | Step::Replaced { .. } => 0,
    }
}

/// Returns a call on a file as C is handed it.
fn call_for_c(fd: i32, owed: &Owed) -> HlrCall
    ensures { result ≡ told_call fd owed.now }
{
    HlrCall {
        kind: kind_of(&owed.step),
        fd,
        from: owed.from as u64,
        to: owed.to as u64,
    }
}

/// Writes some bytes behind the first so many of them into a room, as far as both go.
fn copy_behind(source: &[u8], skip: u64, room: &mut [u8])
    ensures { room.new ≡ over 0 (drop skip source.now) room.old }
{
    if skip >= source.len() as u64 {
        return;
    }
    let rest = &source[skip as usize..];
    if room.len() <= rest.len() {
        room.copy_from_slice(&rest[..room.len()]);
    } else {
        room[..rest.len()].copy_from_slice(rest);
    }
}

/// Hands over the call at an index among those that are owed, the oldest of which has index 0.
pub(crate) fn tell_owed(
    opened: &Opened,
    index: u64,
    skip: u64,
    bytes: &mut [u8],
    call: &mut HlrCall,
) -> u8
    ensures { IsOwedTold index skip (bytes.old, call.old) (opened.now.lender, opened.now.journal) (result, (bytes.new, call.new)) (opened.now.lender, opened.now.journal) }
{
    let Some(journal) = &opened.journal else {
        return NO_JOURNAL;
    };
    let owed = journal.current.device().owed();
    if journal.current.fault().is_some() || index >= owed.len() as u64 {
        *call = NO_CALL;
        return DONE;
    }
    let one = &owed[index as usize];
    *call = call_for_c(journal.current.device().fd(), one);
    copy_behind(&one.bytes, skip, bytes);
    DONE
}

/// Notes that a call on the file of a journal has failed. If it was a call of a snapshot, and no line was written after
/// that, the journal is again what it was before.
fn fall_back(journal: &mut FileJournal)
    requires works { journal.old.current.fault ≡ None }
    ensures { journal.new ≡ fallen_back journal.old }
{
    let before = journal.before.take();
    match before {
        Some(old) if journal.current.unsynced() == 0 => journal.current = old,
        _ => journal.current.give_up(),
    }
}

/// Notes that C has made all calls that it was owed, so that the journal of before is done with.
fn settle(journal: &mut FileJournal)
    ensures handed { IsHanded journal.old.current journal.new.current }
    ensures stands { (book : Book) → StandsFor relayed_seen relayed_leaves book journal.old.current → StandsFor relayed_seen relayed_leaves book journal.new.current }
    ensures before { journal.new.before ≡ None }
{
    journal.current.note_made();
    journal.before = None;
}

fn note(journal: &mut FileJournal, is_done: u8) -> u8
    ensures made { IsMade is_done journal.old journal.old.current.fault result journal.new }
    ensures journaled { (register : OwnersState) → IsJournaled register (Some journal.old) → IsJournaled register (Some journal.new) }
{
    if let Some(fault) = journal.current.fault() {
        return code_of_fault(fault);
    }
    if is_done == 0 {
        fall_back(journal);
        return FAILED;
    }
    settle(journal);
    DONE
}

/// Notes that C has made all calls that it was owed, or that one of them has failed.
pub(crate) fn note_made(opened: &mut Opened, is_done: u8) -> u8
    requires journaled { IsJournaled opened.old.lender opened.old.journal }
    ensures journaled { IsJournaled opened.new.lender opened.new.journal }
    ensures answer { IsMaking is_done (opened.old.lender, opened.old.journal) result (opened.new.lender, opened.new.journal) }
{
    let Some(journal) = &mut opened.journal else {
        return NO_JOURNAL;
    };
    note(journal, is_done)
}
