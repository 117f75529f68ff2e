//! A journal that keeps the rows of a register which lies elsewhere.
ghost use Rattle.std.specs.Prelude.{◌≡◌, ◌⊎◌, ◌<◌, ◌≤◌, ◌+◌, ◌^◌, ◌++◌, [], List, ℕ, None, Some, Ok, Err, true, length, vec_len, vec_capacity, IfErr, IfSome, IsErrOf, OnOk};
ghost use Rattle.tatp_actions.specs.Book.{Book};
ghost use Rattle.journal_file.specs.Device.{LeavesOnly};
ghost use Rattle.journal_file.specs.Relayed.{relayed_leaves, relayed_seen};
ghost use Rattle.journal_file.specs.declared.fault.JournalFault.TheVariants.{BadLine, Failed, Full, Locked, NoJournal};
ghost use Rattle.journal.specs.Lines.{HasFence};
ghost use Rattle.edit_lines.specs.Lines.{has_line, is_change};
ghost use Rattle.hlr_owners.specs.Store.{Store};
ghost use Rattle.hlr_core.specs.Step.{IsStep};
ghost use Rattle.hlr_core.specs.declared.order.Answer.TheVariants as answer;
ghost use Rattle.hlr_core.specs.declared.order.Order.TheVariants as order;
ghost use Rattle.hlr_kept.specs.Keeping.{IsHanded, IsLike, IsPut, IsSame, IsSettled, StandsAfterFirst, StandsFor};
ghost use Rattle.hlr_kept.specs.Runs.{line_bytes, tells_done};

use crate::restoring::tells_done;
use edit_lines::{LONGEST, push_line};
use hlr_core::{Event, Reply};
use journal::{Device, JournalFault, Relayed, Tape};
use std::alloc::Global;

/// Keeps the rows of a register that lies elsewhere. Whoever has both takes memory for a line with
/// [`Journal::make_room`], applies an event to the register, and hands the event and its reply to [`Journal::put`]. An
/// answer may be handed out once a sync that comes after it has returned `Ok`, because from then on no crash takes it
/// back. After a sync that gave up, each call that returns a `JournalFault` returns that one, until the file is opened
/// again.
#[derive(Drop)]
pub struct Journal<D: Device> {
    pub(crate) tape: Tape<D>,
    /// The lines that are yet to be written.
    pub(crate) group: Vec<u8>,
    /// Why a sync gave up, if one did.
    pub(crate) fault: Option<JournalFault>,
}

/// Puts the line of an event behind the others, if it was answered `Done`. There is room for it.
fn put_line(group: &mut Vec<u8>, event: &Event, reply: &Reply)
    requires room { vec_len group.old + 44 ≤ vec_capacity group.old }
    requires change { tells_done reply.now ≡ true → is_change event.now ≡ true }
    ensures items { group.new.items ≡ group.old.items ++ line_bytes (order.Event event.now) (answer.Reply reply.now) }
    ensures fits { tells_done reply.now ≡ true → has_line event.now ≡ true }
{
    if tells_done(reply) {
        let _ = push_line(group, event);
    }
}

impl<D: Device> Journal<D> {
    /// Takes a tape that has its first line and is synced.
    pub(crate) fn new(alloc: Global, tape: Tape<D>) -> Journal<D>
        ensures tape { result.tape ≡ tape }
        ensures settled { IsSettled result }
    {
        Journal {
            tape,
            group: Vec::new(alloc),
            fault: None,
        }
    }

    /// Takes memory for the longest line, so that the next [`Journal::put`] needs none. Gives up with the fault of an
    /// earlier sync, or with `Memory`.
    pub fn make_room(&mut self) -> Result<(), JournalFault>
        ensures same { IsSame self.old self.new }
        ensures room { OnOk result (vec_len self.new.group + 44 ≤ vec_capacity self.new.group) }
        ensures stays { IfSome self.old.fault (λ why. result ≡ Err why) }
        ensures cause { IfErr result (λ why. (self.old.fault ≡ Some why) ⊎ (why ≡ JournalFault.Memory)) }
    {
        if let Some(fault) = self.fault {
            return Err(fault);
        }
        if self.group.reserve(LONGEST).is_err() {
            return Err(JournalFault::Memory);
        }
        Ok(())
    }

    /// Puts the line of an event behind those that are yet to be written, if it was answered `Done`. There is room for
    /// it, and the event changes rows then, as `edit_lines::done_is_change` says of each right reply.
    pub fn put(&mut self, event: &Event, reply: &Reply)
        requires room { vec_len self.old.group + 44 ≤ vec_capacity self.old.group }
        requires change { tells_done reply.now ≡ true → is_change event.now ≡ true }
        ensures put { IsPut event.now reply.now self.old self.new }
        ensures fits { tells_done reply.now ≡ true → has_line event.now ≡ true }
        // Behind a right step, the journal stands for the rows that the step led to.
        ensures stands { (before after : Store) → IsStep event.now before reply.now after
            → StandsFor D.seen D.may_leave before.book self.old → StandsFor D.seen D.may_leave after.book self.new }
    {
        put_line(&mut self.group, event, reply);
    }

    /// Writes the lines of the events that were answered `Done` since the last sync, and syncs. From an `Ok` on, all
    /// answers so far may be handed out. A crash at any moment of the call leaves the rows after the first so many of
    /// these lines, and no row of what came before them is lost. If there is nothing to write, the call does nothing to
    /// the file. Gives up as `Tape::commit` does.
    pub fn sync(&mut self) -> Result<(), JournalFault>
        requires stands { (book : Book) × StandsFor D.seen D.may_leave book self.old }
        ensures stands { (book : Book) → StandsFor D.seen D.may_leave book self.old → StandsFor D.seen D.may_leave book self.new }
        ensures settled { OnOk result (IsSettled self.new) }
        ensures any_moment { (book : Book) → StandsFor D.seen D.may_leave book self.old → self.old.fault ≡ None
            → LeavesOnly D.moment D.left_since self.old.tape.device self.new.tape.device
            (λ c. HasFence c × StandsAfterFirst D.seen self.old c) }
        // With nothing to write, the file isn't touched.
        ensures idle { self.old.group.items ≡ [] → self.old.fault ≡ None → (result ≡ Ok tt) × (self.new ≡ self.old) }
        ensures broken { IfErr result (λ why. self.new.fault ≡ Some why) }
        ensures stays { IfSome self.old.fault (λ why. (result ≡ Err why) × (self.new ≡ self.old)) }
        // It gives up only if the disk fails, or the file would pass 2^61 bytes.
        ensures failed { self.old.fault ≡ None → IsErrOf result Failed → D.faults self.old.tape.device < D.faults self.new.tape.device }
        ensures full { self.old.fault ≡ None → IsErrOf result Full → 2 ^ 61 ≤ self.old.tape.len + length self.old.group.items }
        ensures no_other { self.old.fault ≡ None → (IsErrOf result NoJournal → ⊥) × (IsErrOf result BadLine → ⊥) × (IsErrOf result Locked → ⊥) }
        ensures owner { D.owner self.new.tape.device ≡ D.owner self.old.tape.device }
    {
        if let Some(fault) = self.fault {
            return Err(fault);
        }
        if self.group.is_empty() {
            return Ok(());
        }
        if let Err(fault) = self.tape.commit(&self.group) {
            self.fault = Some(fault);
            return Err(fault);
        }
        self.group.clear();
        Ok(())
    }

    /// Returns the file of the journal.
    pub fn device(&self) -> &D
        ensures { result.now ≡ self.now.tape.device }
    {
        &self.tape.device
    }

    /// Returns why a sync gave up, if one did.
    pub fn fault(&self) -> Option<JournalFault>
        ensures { result ≡ self.now.fault }
    {
        self.fault
    }

    /// Returns how many bytes of lines are yet to be written. If it is 0, all that was answered is on the disk.
    pub fn unsynced(&self) -> usize
        ensures { result ≡ length self.now.group.items }
    {
        self.group.len()
    }
}

impl Journal<Relayed> {
    /// Takes memory for the calls of the next [`Journal::sync`]. Gives up with the fault of an earlier sync, or with
    /// `Memory`.
    pub fn make_sync_room(&mut self) -> Result<(), JournalFault>
        ensures like { IsLike self.old self.new }
        ensures stays { IfSome self.old.fault (λ why. result ≡ Err why) }
        ensures cause { IfErr result (λ why. (self.old.fault ≡ Some why) ⊎ (why ≡ JournalFault.Memory)) }
        ensures stands { (book : Book) → StandsFor relayed_seen relayed_leaves book self.old → StandsFor relayed_seen relayed_leaves book self.new }
    {
        if let Some(fault) = self.fault {
            return Err(fault);
        }
        self.tape.device.reserve(self.group.len())?;
        Ok(())
    }

    /// Notes that the owner of the file has made all calls that it was owed.
    pub fn note_made(&mut self)
        ensures handed { IsHanded self.old self.new }
        ensures stands { (book : Book) → StandsFor relayed_seen relayed_leaves book self.old → StandsFor relayed_seen relayed_leaves book self.new }
    {
        self.tape.device.note_made();
    }

    /// Notes that the owner couldn't make a call. The journal has failed then, until the file is opened again.
    pub fn give_up(&mut self)
        ensures tape { self.new.tape ≡ self.old.tape }
        ensures group { self.new.group ≡ self.old.group }
        ensures fault { self.old.fault ≡ None → self.new.fault ≡ Some Failed }
        ensures stays { IfSome self.old.fault (λ why. self.new.fault ≡ Some why) }
        ensures stands { (book : Book) → StandsFor relayed_seen relayed_leaves book self.old → StandsFor relayed_seen relayed_leaves book self.new }
    {
        if self.fault.is_none() {
            self.fault = Some(JournalFault::Failed);
        }
    }
}
