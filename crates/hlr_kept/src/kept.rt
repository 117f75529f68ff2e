//! A register that hands an answer out only once it is on the disk.
ghost use Rattle.std.specs.Prelude.{◌≡◌, ◌⊎◌, ◌<◌, ◌≤◌, ◌+◌, ◌^◌, ◌++◌, [], ◌∷◌, List, ℕ, None, Some, Err, length, take, IfErr, IfOk, IfSome, IsErrOf, OnErr, OnOk};
ghost use Rattle.journal_file.specs.Device.{LeavesOnly};
ghost use Rattle.journal_file.specs.declared.fault.JournalFault.TheVariants.{BadLine, Failed, Full, Locked, NoJournal};
ghost use Rattle.journal.specs.Lines.{HasFence};
ghost use Rattle.hlr_owners.specs.Owners.{store_in};
ghost use Rattle.hlr_owners.specs.Store.{Store};
ghost use Rattle.hlr_core.specs.Run.{IsRun};
ghost use Rattle.hlr_core.specs.declared.order.Answer.{Answer};
ghost use Rattle.hlr_core.specs.declared.order.Order.{Order};
ghost use Rattle.hlr_kept.specs.Runs.{StandsAfterSome};
ghost use Rattle.hlr_kept.specs.UnderWay.{AreHeld, IsReady, IsUnchanged, IsUnderWay};

use crate::blank_tape::NextTape;
use crate::journaled::Journaled;
use hlr_core::{Answer, Order, Register, RowReply};
use journal::{Device, JournalFault};
use std::alloc::Global;

/// Holds the answers of a register with a journal back until they are on the disk.
#[derive(Drop)]
pub struct Kept<D: Device> {
    alloc: Global,
    pub(crate) journaled: Journaled<D>,
    /// The answers since the last sync, in order.
    held: Vec<Answer>,
}

impl<D: Device> Kept<D> {
    /// Takes a register with its journal, and holds no answer.
    pub fn new(alloc: Global, journaled: Journaled<D>) -> Kept<D>
        ensures journaled { result.journaled ≡ journaled }
        ensures held { result.held.items ≡ [] }
    {
        Kept {
            alloc,
            journaled,
            held: Vec::new(alloc),
        }
    }

    /// Carries an order out and holds its answer. Returns how many answers are held by then. Gives up as
    /// [`Journaled::apply`] does, and then nothing has changed.
    pub fn submit(&mut self, order: &Order) -> Result<usize, JournalFault>
        requires ready { IsReady D.seen D.may_leave self.old.journaled }
        ensures ready { IsReady D.seen D.may_leave self.new.journaled }
        ensures held { OnOk result ((stored : Store) (orders : List Order)
            → AreHeld D.seen D.may_leave stored orders self.old
            → AreHeld D.seen D.may_leave stored (orders ++ order.now ∷ []) self.new) }
        ensures count { IfOk result (λ n. n ≡ length self.new.held.items) }
        ensures tape { self.new.journaled.journal.tape ≡ self.old.journaled.journal.tape }
        ensures refused { OnErr result (IsUnchanged self.old.journaled self.new.journaled) }
        ensures refused_held { OnErr result (self.new.held.items ≡ self.old.held.items) }
        ensures works { OnOk result (self.new.journaled.journal.fault ≡ None) }
        ensures cause { IfErr result (λ why. (self.old.journaled.journal.fault ≡ Some why) ⊎ (why ≡ JournalFault.Memory)) }
        // After a sync that gave up, no order is carried out.
        ensures broken { IfSome self.old.journaled.journal.fault (λ why. OnOk result ⊥) }
    {
        // The borrow checker of the kit can push a reply only in a body that names each type inside it.
        let _inside: Option<RowReply> = None;
        self.held.reserve(1)?;
        let answer = self.journaled.carry_out(order)?;
        self.held.push_reserved(answer);
        Ok(self.held.len())
    }

    /// Syncs, as [`Journaled::sync`] does, and hands over the answers that were held, in the order of their orders.
    pub fn sync(&mut self) -> Result<Vec<Answer>, JournalFault>
        requires ready { IsReady D.seen D.may_leave self.old.journaled }
        ensures ready { IsReady D.seen D.may_leave self.new.journaled }
        ensures answers { IfOk result (λ answers. answers.items ≡ self.old.held.items) }
        ensures settled { OnOk result ((stored : Store) (orders : List Order)
            → AreHeld D.seen D.may_leave stored orders self.old
            → AreHeld D.seen D.may_leave (store_in self.new.journaled.register) [] self.new) }
        ensures register { self.new.journaled.register ≡ self.old.journaled.register }
        ensures any_moment { (stored : Store) (orders : List Order)
            → AreHeld D.seen D.may_leave stored orders self.old
            → LeavesOnly D.moment D.left_since self.old.journaled.journal.tape.device self.new.journaled.journal.tape.device
            (λ c. HasFence c × StandsAfterSome orders self.old.held.items stored c) }
        // Without a sync no answer is handed over, and after one that gave up none ever is.
        ensures held_back { OnErr result (self.new.held.items ≡ self.old.held.items) }
        ensures broken { IfErr result (λ why. self.new.journaled.journal.fault ≡ Some why) }
        ensures written { OnOk result (self.new.journaled.journal.group.items ≡ []) }
        ensures stays { IfSome self.old.journaled.journal.fault (λ why. (result ≡ Err why) × (self.new.journaled ≡ self.old.journaled)) }
        // It gives up only for want of memory, if the disk fails, or if the file would pass 2^61 bytes.
        ensures failed { self.old.journaled.journal.fault ≡ None → IsErrOf result Failed → D.faults self.old.journaled.journal.tape.device < D.faults self.new.journaled.journal.tape.device }
        ensures full { self.old.journaled.journal.fault ≡ None → IsErrOf result Full → 2 ^ 61 ≤ self.old.journaled.journal.tape.len + length self.old.journaled.journal.group.items }
        ensures no_other { self.old.journaled.journal.fault ≡ None → (IsErrOf result NoJournal → ⊥) × (IsErrOf result BadLine → ⊥) × (IsErrOf result Locked → ⊥) }
    {
        self.journaled.sync()?;
        let none = Vec::new(self.alloc);
        Ok(std::mem::replace(&mut self.held, none))
    }

    /// Carries orders out one after another, syncs once, and returns the answers in order. Answers that were held
    /// before come first. A crash at any moment of the call leaves the rows after the first so many of the orders, and
    /// all that was answered before is among them. Gives up as [`Kept::submit`] and [`Kept::sync`] do; after `Memory`
    /// the answers to the first so many orders are held.
    pub fn serve(&mut self, orders: &[Order]) -> Result<Vec<Answer>, JournalFault>
        requires ready { IsReady D.seen D.may_leave self.old.journaled }
        ensures ready { IsReady D.seen D.may_leave self.new.journaled }
        ensures answers { IfOk result (λ answers. (stored : Store) (earlier : List Order)
            → AreHeld D.seen D.may_leave stored earlier self.old
            → IsRun (earlier ++ orders.now) stored answers.items (store_in self.new.journaled.register)) }
        ensures settled { OnOk result ((stored : Store) (earlier : List Order)
            → AreHeld D.seen D.may_leave stored earlier self.old
            → AreHeld D.seen D.may_leave (store_in self.new.journaled.register) [] self.new) }
        ensures any_moment { (stored : Store) (earlier : List Order)
            → AreHeld D.seen D.may_leave stored earlier self.old
            → LeavesOnly D.moment D.left_since self.old.journaled.journal.tape.device self.new.journaled.journal.tape.device
            (λ c. HasFence c × (answers : List Answer) × StandsAfterSome (earlier ++ orders.now) answers stored c) }
        ensures broken { IfSome self.old.journaled.journal.fault (λ why. OnOk result ⊥) }
        // After a refusal, the answers to the first so many orders are held, unless a sync has failed.
        ensures held { OnErr result ((stored : Store) (earlier : List Order)
            → AreHeld D.seen D.may_leave stored earlier self.old → self.new.journaled.journal.fault ≡ None
            → (n : ℕ) × AreHeld D.seen D.may_leave stored (earlier ++ take n orders.now) self.new) }
        // It returns Failed only if the disk fails, or has failed before.
        ensures failed { self.old.journaled.journal.fault ≡ None → IsErrOf result Failed → D.faults self.old.journaled.journal.tape.device < D.faults self.new.journaled.journal.tape.device }
        ensures no_other { self.old.journaled.journal.fault ≡ None → (IsErrOf result NoJournal → ⊥) × (IsErrOf result BadLine → ⊥) × (IsErrOf result Locked → ⊥) }
    {
        for order in orders {
            self.submit(order)?;
        }
        self.sync()
    }

    /// Returns the register, whose rows have what isn't synced too.
    pub fn register(&self) -> &Register
        ensures { result.now ≡ self.now.journaled.register }
    {
        self.journaled.register()
    }

    /// Returns how many bytes of lines are yet to be written.
    pub fn unsynced(&self) -> usize
        ensures { result ≡ length self.now.journaled.journal.group.items }
    {
        self.journaled.unsynced()
    }

    /// Lets [`Kept::sync_or_compact`] put a snapshot in the place of the journal, as [`Journaled::compact_from`] says.
    pub fn compact_from(&mut self, least: usize)
        ensures journaled { IsUnchanged self.old.journaled self.new.journaled }
        ensures held { self.new.held ≡ self.old.held }
    {
        self.journaled.compact_from(least);
    }
}

impl<D: NextTape> Kept<D> {
    /// Syncs as [`Kept::sync`] does, and puts a snapshot in the place of the journal if one is due, as
    /// [`Journaled::sync_or_compact`] does. Hands over the answers that were held, in the order of their orders.
    pub fn sync_or_compact(&mut self) -> Result<Vec<Answer>, JournalFault>
        requires ready { IsReady D.Device.seen D.Device.may_leave self.old.journaled }
        ensures ready { IsReady D.Device.seen D.Device.may_leave self.new.journaled }
        ensures answers { IfOk result (λ answers. answers.items ≡ self.old.held.items) }
        ensures settled { OnOk result ((stored : Store) (orders : List Order)
            → AreHeld D.Device.seen D.Device.may_leave stored orders self.old
            → AreHeld D.Device.seen D.Device.may_leave (store_in self.new.journaled.register) [] self.new) }
        ensures register { self.new.journaled.register ≡ self.old.journaled.register }
        ensures any_moment { (stored : Store) (orders : List Order)
            → AreHeld D.Device.seen D.Device.may_leave stored orders self.old
            → LeavesOnly D.Device.moment D.Device.left_since self.old.journaled.journal.tape.device self.new.journaled.journal.tape.device
            (λ c. HasFence c × StandsAfterSome orders self.old.held.items stored c) }
        // Without a sync no answer is handed over, and after one that gave up none ever is.
        ensures held_back { OnErr result (self.new.held.items ≡ self.old.held.items) }
        ensures broken { IfErr result (λ why. self.new.journaled.journal.fault ≡ Some why) }
        ensures stays { IfSome self.old.journaled.journal.fault (λ why. (result ≡ Err why) × (self.new.journaled.journal.fault ≡ Some why)) }
    {
        self.journaled.sync_or_compact()?;
        let none = Vec::new(self.alloc);
        Ok(std::mem::replace(&mut self.held, none))
    }
}
