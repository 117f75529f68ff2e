//! A register with the journal that keeps it.
ghost use Rattle.std.specs.Prelude.{◌≡◌, ◌⊎◌, ◌<◌, ◌≤◌, ◌+◌, ◌^◌, ◌++◌, [], ◌∷◌, List, None, Some, Ok, Err, length, IfErr, IfOk, IfSome, IsErrOf, OnErr, OnOk};
ghost use Rattle.journal_file.specs.Device.{LeavesOnly};
ghost use Rattle.journal_file.specs.declared.fault.JournalFault.TheVariants.{BadLine, Failed, Full, Locked, NoJournal};
ghost use Rattle.journal.specs.Lines.{HasFence};
ghost use Rattle.hlr_owners.specs.Owners.{AllHome, book_in, store_in};
ghost use Rattle.hlr_owners.specs.Recut.{IsRecut};
ghost use Rattle.hlr_owners.specs.Store.{Store};
ghost use Rattle.hlr_core.specs.Run.{IsOrderStep};
ghost use Rattle.hlr_core.specs.Step.{IsStep};
ghost use Rattle.hlr_core.specs.declared.order.Answer.{Answer};
ghost use Rattle.hlr_core.specs.declared.order.Answer.TheVariants as answer;
ghost use Rattle.hlr_core.specs.declared.order.Order.{Order};
ghost use Rattle.hlr_core.specs.declared.order.Order.TheVariants as order;
ghost use Rattle.hlr_kept.specs.Rows.{book_of};
ghost use Rattle.hlr_kept.specs.Runs.{IsOnDisk, StandsAfterSome};
ghost use Rattle.hlr_kept.specs.UnderWay.{IsReady, IsUnchanged, IsUnderWay};

use crate::blank_tape::NextTape;
use crate::keeping::Journal;
use crate::snapshots::snapshot;
use hlr_core::{Answer, Event, Order, Refusal, Register, Reply};
use journal::{Device, JournalFault, Tape};
use std::alloc::Global;

/// Keeps a register in a journal. An answer may be handed out once a sync that comes after it has returned `Ok`,
/// because from then on no crash takes it back. After a sync that gave up, each call that returns a `JournalFault`
/// returns that one, until the file is opened again.
#[derive(Drop)]
pub struct Journaled<D: Device> {
    pub(crate) alloc: Global,
    pub(crate) register: Register,
    pub(crate) journal: Journal<D>,
    pub(crate) snapshots: Snapshots,
}

/// Says when a journal gives way to a snapshot.
#[derive(Clone, Copy, Drop)]
pub(crate) struct Snapshots {
    /// With fewer bytes of lines than this, a journal is short enough.
    least: usize,
    /// With how many bytes of lines the next snapshot is due.
    due: usize,
}

impl Snapshots {
    /// Makes no snapshot due, however long the journal is.
    pub(crate) fn never() -> Snapshots {
        Snapshots::of(usize::MAX)
    }

    /// Makes the first snapshot due when the journal has this many bytes of lines.
    fn of(least: usize) -> Snapshots {
        Snapshots { least, due: least }
    }

    /// Makes the next snapshot due when the journal has twice as many bytes of lines as now.
    fn put_off(&mut self, written: usize) {
        self.due = self.least.max(written.saturating_mul(2));
    }
}

impl<D: Device> Journaled<D> {
    /// Applies an event, as `Register::apply` does, and puts its line behind those that are yet to be written if the
    /// reply is `Done`. Gives up with the fault of an earlier sync, or with `Memory`, and then nothing has changed.
    pub fn apply(&mut self, event: Event) -> Result<Reply, JournalFault>
        requires ready { IsReady D.seen D.may_leave self.old }
        ensures ready { IsReady D.seen D.may_leave self.new }
        // The reply is right, and the event joins those that are under way.
        ensures step { IfOk result (λ reply. IsStep event (store_in self.old.register) reply (store_in self.new.register)) }
        ensures ahead { IfOk result (λ reply. (stored : Store) (orders : List Order) (answers : List Answer)
            → IsUnderWay D.seen D.may_leave stored orders answers self.old
            → IsUnderWay D.seen D.may_leave stored (orders ++ order.Event event ∷ []) (answers ++ answer.Reply reply ∷ []) self.new) }
        ensures tape { self.new.journal.tape ≡ self.old.journal.tape }
        ensures refused { OnErr result (IsUnchanged self.old self.new) }
        ensures cause { IfErr result (λ why. (self.old.journal.fault ≡ Some why) ⊎ (why ≡ JournalFault.Memory)) }
        ensures stays { IfSome self.old.journal.fault (λ why. result ≡ Err why) }
    {
        self.journal.make_room()?;
        let reply = self.register.apply(event);
        self.journal.put(&event, &reply);
        Ok(reply)
    }

    /// Moves the bounds between the parts, as `Register::recut_to` does. No row changes, so no line is written.
    pub fn recut_to(&mut self, bounds: &[u64]) -> Result<u8, Refusal>
        requires ready { IsReady D.seen D.may_leave self.old }
        ensures ready { IsReady D.seen D.may_leave self.new }
        ensures recut { IsRecut bounds.now (store_in self.old.register) result (store_in self.new.register) }
        ensures ahead { (stored : Store) (orders : List Order) (answers : List Answer)
            → IsUnderWay D.seen D.may_leave stored orders answers self.old
            → IsUnderWay D.seen D.may_leave stored (orders ++ order.Recut (record { items = bounds.now }) ∷ []) (answers ++ answer.Recut result ∷ []) self.new }
        ensures tape { self.new.journal.tape ≡ self.old.journal.tape }
        ensures group { self.new.journal.group.items ≡ self.old.journal.group.items }
        ensures fault { self.new.journal.fault ≡ self.old.journal.fault }
    {
        self.register.recut_to(bounds)
    }

    /// Carries an order out: it applies an event, or moves the bounds. Gives up as [`Journaled::apply`] does.
    pub fn carry_out(&mut self, order: &Order) -> Result<Answer, JournalFault>
        requires ready { IsReady D.seen D.may_leave self.old }
        ensures ready { IsReady D.seen D.may_leave self.new }
        ensures step { IfOk result (λ told. IsOrderStep order.now (store_in self.old.register) told (store_in self.new.register)) }
        ensures ahead { IfOk result (λ told. (stored : Store) (orders : List Order) (answers : List Answer)
            → IsUnderWay D.seen D.may_leave stored orders answers self.old
            → IsUnderWay D.seen D.may_leave stored (orders ++ order.now ∷ []) (answers ++ told ∷ []) self.new) }
        ensures tape { self.new.journal.tape ≡ self.old.journal.tape }
        ensures refused { OnErr result (IsUnchanged self.old self.new) }
        ensures cause { IfErr result (λ why. (self.old.journal.fault ≡ Some why) ⊎ (why ≡ JournalFault.Memory)) }
        ensures stays { IfSome self.old.journal.fault (λ why. result ≡ Err why) }
    {
        if let Some(fault) = self.journal.fault {
            return Err(fault);
        }
        match order {
            Order::Event(event) => match self.apply(*event) {
                Ok(reply) => Ok(Answer::Reply(reply)),
                Err(fault) => Err(fault),
            },
            Order::Recut(bounds) => Ok(Answer::Recut(self.recut_to(bounds.as_slice()))),
        }
    }

    /// Writes the lines of the events that were answered `Done` since the last sync, and syncs. From an `Ok` on, all
    /// answers so far may be handed out. A crash at any moment of the call leaves the rows after the first so many of
    /// the orders that were under way, and no row of what came before them is lost. If there is nothing to write, the
    /// call does nothing to the file. Gives up as `Tape::commit` does.
    pub fn sync(&mut self) -> Result<(), JournalFault>
        requires ready { IsReady D.seen D.may_leave self.old }
        ensures ready { IsReady D.seen D.may_leave self.new }
        ensures settled { OnOk result ((stored : Store) (orders : List Order) (answers : List Answer)
            → IsUnderWay D.seen D.may_leave stored orders answers self.old
            → IsUnderWay D.seen D.may_leave (store_in self.new.register) [] [] self.new) }
        ensures written { OnOk result (self.new.journal.group.items ≡ []) }
        ensures register { self.new.register ≡ self.old.register }
        ensures any_moment { (stored : Store) (orders : List Order) (answers : List Answer)
            → IsUnderWay D.seen D.may_leave stored orders answers self.old
            → LeavesOnly D.moment D.left_since self.old.journal.tape.device self.new.journal.tape.device
            (λ c. HasFence c × StandsAfterSome orders answers stored c) }
        // With nothing to write, the file isn't touched.
        ensures idle { self.old.journal.group.items ≡ [] → self.old.journal.fault ≡ None → (result ≡ Ok tt) × (self.new ≡ self.old) }
        ensures broken { IfErr result (λ why. self.new.journal.fault ≡ Some why) }
        ensures stays { IfSome self.old.journal.fault (λ why. (result ≡ Err why) × (self.new ≡ self.old)) }
        // It gives up only for want of memory, if the disk fails, or if the file would pass 2^61 bytes.
        ensures failed { self.old.journal.fault ≡ None → IsErrOf result Failed → D.faults self.old.journal.tape.device < D.faults self.new.journal.tape.device }
        ensures full { self.old.journal.fault ≡ None → IsErrOf result Full → 2 ^ 61 ≤ self.old.journal.tape.len + length self.old.journal.group.items }
        ensures no_other { self.old.journal.fault ≡ None → (IsErrOf result NoJournal → ⊥) × (IsErrOf result BadLine → ⊥) × (IsErrOf result Locked → ⊥) }
    {
        self.journal.sync()
    }

    /// Returns the register, whose rows have what isn't synced too.
    pub fn register(&self) -> &Register
        ensures { result.now ≡ self.now.register }
    {
        &self.register
    }

    /// Returns how many bytes of lines are yet to be written. If it is 0, all that was answered is on the disk.
    pub fn unsynced(&self) -> usize
        ensures { result ≡ length self.now.journal.group.items }
    {
        self.journal.unsynced()
    }

    /// Lets [`Journaled::sync_or_compact`] put a snapshot in the place of the journal once this has so many bytes of
    /// lines, and later whenever it has twice as many as behind the last snapshot. Without this call it never does.
    pub fn compact_from(&mut self, least: usize)
        ensures { IsUnchanged self.old self.new }
    {
        self.snapshots = Snapshots::of(least);
    }
}

impl<D: NextTape> Journaled<D> {
    /// Syncs as [`Journaled::sync`] does. If the journal had grown before to the length that [`Journaled::compact_from`]
    /// says, a snapshot takes its place. If none can be made, the journal stays, and the next try comes when it has twice
    /// the length that it has now.
    pub fn sync_or_compact(&mut self) -> Result<(), JournalFault>
        requires ready { IsReady D.Device.seen D.Device.may_leave self.old }
        ensures ready { IsReady D.Device.seen D.Device.may_leave self.new }
        ensures settled { OnOk result ((stored : Store) (orders : List Order) (answers : List Answer)
            → IsUnderWay D.Device.seen D.Device.may_leave stored orders answers self.old
            → IsUnderWay D.Device.seen D.Device.may_leave (store_in self.new.register) [] [] self.new) }
        ensures register { self.new.register ≡ self.old.register }
        ensures any_moment { (stored : Store) (orders : List Order) (answers : List Answer)
            → IsUnderWay D.Device.seen D.Device.may_leave stored orders answers self.old
            → LeavesOnly D.Device.moment D.Device.left_since self.old.journal.tape.device self.new.journal.tape.device
            (λ c. HasFence c × StandsAfterSome orders answers stored c) }
        ensures broken { IfErr result (λ why. self.new.journal.fault ≡ Some why) }
        ensures stays { IfSome self.old.journal.fault (λ why. (result ≡ Err why) × (self.new.journal.fault ≡ Some why)) }
    {
        if self.journal.tape.end < self.snapshots.due {
            return self.sync();
        }
        let done = self.compact();
        self.snapshots.put_off(self.journal.tape.end);
        match (done, self.journal.fault) {
            (Err(_), Some(fault)) => Err(fault),
            _ => Ok(()),
        }
    }

    /// Syncs, and puts a snapshot of the register in the place of the journal, which is short then. What
    /// [`Journaled::sync`] says of a crash holds here as well. Gives up as `sync` and `snapshot` do, and as
    /// `journal::compact` does. After a snapshot that gave up, all lines are on the disk, and the journal can be
    /// written on.
    pub fn compact(&mut self) -> Result<(), JournalFault>
        requires ready { IsReady D.Device.seen D.Device.may_leave self.old }
        ensures ready { IsReady D.Device.seen D.Device.may_leave self.new }
        ensures settled { self.new.journal.fault ≡ None → (stored : Store) (orders : List Order) (answers : List Answer)
            → IsUnderWay D.Device.seen D.Device.may_leave stored orders answers self.old
            → IsUnderWay D.Device.seen D.Device.may_leave (store_in self.new.register) [] [] self.new }
        ensures done { OnOk result (self.new.journal.fault ≡ None) }
        ensures stays { IfSome self.old.journal.fault (λ why. (result ≡ Err why) × (self.new.journal.fault ≡ Some why)) }
        ensures register { self.new.register ≡ self.old.register }
        ensures any_moment { (stored : Store) (orders : List Order) (answers : List Answer)
            → IsUnderWay D.Device.seen D.Device.may_leave stored orders answers self.old
            → LeavesOnly D.Device.moment D.Device.left_since self.old.journal.tape.device self.new.journal.tape.device
            (λ c. HasFence c × StandsAfterSome orders answers stored c) }
    {
        self.sync()?;
        let next = self.journal.tape.device.next_tape(self.alloc)?;
        let next = snapshot(self.alloc, &self.register, next)?;
        self.give_way(next)
    }

    /// Lets a snapshot of the register take the place of the journal. Gives up as `journal::compact` does, and then the
    /// file is to be opened again.
    fn give_way(&mut self, next: Tape<D>) -> Result<(), JournalFault>
        requires home { AllHome self.old.register.owners }
        requires settled { IsUnderWay D.Device.seen D.Device.may_leave (store_in self.old.register) [] [] self.old }
        requires stored { IsOnDisk D.Device.seen D.Device.may_leave (store_in self.old.register) next }
        ensures ready { IsReady D.Device.seen D.Device.may_leave self.new }
        ensures settled { OnOk result (IsUnderWay D.Device.seen D.Device.may_leave (store_in self.new.register) [] [] self.new) }
        ensures broken { IfErr result (λ why. self.new.journal.fault ≡ Some why) }
        ensures register { self.new.register ≡ self.old.register }
        ensures any_moment { LeavesOnly D.Device.moment D.Device.left_since self.old.journal.tape.device self.new.journal.tape.device
            (λ c. HasFence c × (book_of c ≡ Some (book_in self.old.register.owners))) }
    {
        if let Err(why) = journal::compact(&mut self.journal.tape, next) {
            self.journal.fault = Some(why);
            return Err(why);
        }
        Ok(())
    }
}
