//! Opens a register from its journal.
ghost use Rattle.std.specs.Prelude.{◌≡◌, ◌≢◌, ◌⊎◌, ◌<◌, [], ◌∷◌, true, false, List, ℕ, IfErr, IfOk, OnOk, Ok, Some};
ghost use Rattle.part_table.specs.Regions.{pieces_of};
ghost use Rattle.tatp_actions.specs.Book.{empty_book};
ghost use Rattle.journal_file.specs.Device.{LeavesOnly, Only};
ghost use Rattle.journal_file.specs.Owner.{owner_of_held};
ghost use Rattle.journal_file.specs.Relayed.{relayed_leaves, relayed_left_since, relayed_moment, relayed_owner, relayed_seen};
ghost use Rattle.journal_file.specs.declared.fault.JournalFault.TheVariants.{BadLine, Failed, NoJournal};
ghost use Rattle.journal_file.specs.declared.record.Step.TheVariants.{Held};
ghost use Rattle.journal_file.specs.declared.relayed.Relayed.{Relayed};
ghost use Rattle.journal.specs.Lines.{HasFence};
ghost use Rattle.journal.specs.Tape.{AreEnds};
ghost use Rattle.edit_lines.specs.Reading.{first_checked};
ghost use Rattle.hlr_owners.specs.Owners.{AllHome, book_in, store_in};
ghost use Rattle.hlr_owners.specs.Store.{Store};
ghost use Rattle.hlr_kept.specs.Keeping.{IsSettled, StandsFor};
ghost use Rattle.hlr_kept.specs.Opened.{HasItsRows, IsGivenBack};
ghost use Rattle.hlr_kept.specs.Restored.{IsBadFor, Restores};
ghost use Rattle.hlr_kept.specs.Rows.{HasOtherRows, HasRowsOf, IsGivenUp, IsNotOpened, book_of};
ghost use Rattle.hlr_kept.specs.UnderWay.{IsReady, IsUnderWay};

use crate::journaled::{Journaled, Snapshots};
use crate::keeping::Journal;
use crate::not_opened::{GivenBack, NotOpened};
use crate::restoring::redo;
use crate::writing::begin;
use edit_lines::{LONGEST, check_first_line};
use hlr_core::Register;
use journal::{Device, Ends, JournalFault, Machine, Relayed, Tape, Unread, replay, replay_bytes};
use std::alloc::Global;

/// A register in which the lines of a journal are done again.
#[derive(Drop)]
struct Restored {
    register: Register,
    /// The first line was read.
    is_begun: bool,
}

impl Machine for Restored {
    ghost IsReady = { λ r. AllHome r.register.owners × (pieces_of r.register.regions ≡ []) };

    ghost moves = { Restores };

    ghost IsBad = { IsBadFor };

    ghost too_long = { 44 };

    fn too_long() -> usize {
        LONGEST
    }

    fn apply(&mut self, line: &[u8]) -> Result<(), JournalFault> {
        if !self.is_begun {
            return self.begin(line);
        }
        match redo(&mut self.register, line) {
            Some(fault) => Err(fault),
            None => Ok(()),
        }
    }

    ghost use Rattle.std.proofs.Common.{arith};
    ghost use Rattle.hlr_kept.specs.Restored.{long_is_bad};

    ghost some = { omega arith };

    ghost long_is_bad = { long_is_bad };
}

impl Restored {
    /// Checks the first line.
    fn begin(&mut self, line: &[u8]) -> Result<(), JournalFault>
        requires { self.old.is_begun ≡ false }
        ensures register { self.new.register ≡ self.old.register }
        ensures moves { OnOk result (Restores line.now self.old self.new) }
        ensures refused { IfErr result (λ why. (why ≡ BadLine) × (first_checked line.now ≢ Ok tt)) }
    {
        if check_first_line(line).is_err() {
            return Err(JournalFault::BadLine);
        }
        self.is_begun = true;
        Ok(())
    }
}

/// Reads a journal to its end into an empty register, of which no part is lent and no piece is loose. Returns the
/// register with the rows that the file stands for, and where its parts end.
fn restore<U: Unread>(
    alloc: Global,
    register: Register,
    unread: &mut U,
) -> Result<(Register, Ends), JournalFault>
    requires unread { U.read unread.old ≡ [] }
    requires rows { book_in register.owners ≡ empty_book }
    requires home { AllHome register.owners }
    requires pieces { pieces_of register.regions ≡ [] }
    ensures same { U.IsReadOn unread.old unread.new }
    ensures whole { OnOk result (U.IsRead unread.new) }
    ensures ends { IfOk result (λ both. AreEnds (U.read unread.new) both.1) }
    ensures rows { IfOk result (λ both. book_of (U.read unread.new) ≡ Some (book_in both.0.owners)) }
    ensures home { IfOk result (λ both. AllHome both.0.owners) }
    ensures stays { IfOk result (λ both. HasOtherRows register both.0) }
    ensures refused { IfErr result (λ why. IsGivenUp (U.faults unread.old) (U.faults unread.new) (U.read unread.new) why × (why ≢ NoJournal)) }
{
    let mut restored = Restored {
        register,
        is_begun: false,
    };
    let ends = replay(alloc, unread, &mut restored)?;
    Ok((restored.register, ends))
}

/// Does what [`restore`] does, with a journal all of whose bytes are at hand.
fn restore_bytes(
    alloc: Global,
    register: Register,
    bytes: &[u8],
) -> Result<(Register, Ends), JournalFault>
    requires rows { book_in register.owners ≡ empty_book }
    requires home { AllHome register.owners }
    requires pieces { pieces_of register.regions ≡ [] }
    ensures ends { IfOk result (λ both. AreEnds bytes.now both.1) }
    ensures rows { IfOk result (λ both. book_of bytes.now ≡ Some (book_in both.0.owners)) }
    ensures home { IfOk result (λ both. AllHome both.0.owners) }
    ensures stays { IfOk result (λ both. HasOtherRows register both.0) }
    ensures refused { IfErr result (λ why. IsNotOpened bytes.now why) }
{
    let mut restored = Restored {
        register,
        is_begun: false,
    };
    let ends = replay_bytes(alloc, bytes, &mut restored)?;
    Ok((restored.register, ends))
}

/// Makes a file that was read to its end ready to be written, and returns it as a journal. Gives up as [`begin`] does,
/// and then hands the file back.
fn resume<D: Device + Drop>(
    alloc: Global,
    device: D,
    ends: Ends,
) -> Result<Journal<D>, (JournalFault, D)>
    requires ends { AreEnds (D.Device.seen device) ends }
    requires disk { Only (D.Device.seen device) (D.Device.may_leave device) }
    ensures stands { IfOk result (λ journal. (stored : Store) → book_of (D.Device.seen device) ≡ Some stored.book
        → StandsFor D.Device.seen D.Device.may_leave stored.book journal) }
    ensures settled { IfOk result (λ journal. IsSettled journal) }
    ensures any_moment { IfOk result (λ journal. LeavesOnly D.Device.moment D.Device.left_since device journal.tape.device
        (λ c. HasFence c × (book_of c ≡ book_of (D.Device.seen device)))) }
    ensures owner { IfOk result (λ journal. D.Device.owner journal.tape.device ≡ D.Device.owner device) }
    ensures handed_back { IfErr result (λ back. LeavesOnly D.Device.moment D.Device.left_since device back.1 (HasRowsOf (D.Device.seen device))) }
    ensures refused { IfErr result (λ back. IsGivenUp (D.Device.faults device) (D.Device.faults back.1) (D.Device.seen device) back.0) }
{
    let mut tape = Tape::new(device);
    match begin(alloc, &mut tape, ends) {
        Ok(()) => Ok(Journal::new(alloc, tape)),
        Err(why) => Err((why, tape.device)),
    }
}

/// Reads a journal into an empty register, of which no part is lent and no piece is loose, and makes the file ready to
/// be written. The register has the rows that the file stands for by then; its regions, its words and its slots stay
/// those of its opening, so nothing is published of these rows yet. A crash during the call leaves the rows as they
/// are, as [`begin`] says. Returns the register and its journal. Gives up with `BadLine` at a line that isn't right or
/// whose event isn't answered `Done`, with `Memory`, and as `journal::replay` and [`begin`] do, and then hands the file
/// back.
pub fn open_journal<U: Unread + Drop>(
    alloc: Global,
    register: Register,
    unread: U,
) -> Result<(Register, Journal<U::File>), NotOpened<U, U::File>>
    requires unread { U.read unread ≡ [] }
    requires rows { book_in register.owners ≡ empty_book }
    requires home { AllHome register.owners }
    requires pieces { pieces_of register.regions ≡ [] }
    ensures rows { IfOk result (λ both. HasItsRows U.IsReadOn U.IsRead U.read U.file U.File.moment U.File.left_since unread (book_in both.0.owners) both.1.tape.device) }
    ensures stays { IfOk result (λ both. HasOtherRows register both.0) }
    ensures home { IfOk result (λ both. AllHome both.0.owners) }
    ensures stands { IfOk result (λ both. StandsFor U.File.seen U.File.may_leave (book_in both.0.owners) both.1) }
    ensures settled { IfOk result (λ both. IsSettled both.1) }
    ensures given_back { IfErr result (λ back. IsGivenBack U.IsReadOn U.IsRead U.read U.file U.File.moment U.File.left_since U.faults U.File.faults unread back.why back.file) }
{
    let mut unread = unread;
    let (register, ends) = match restore(alloc, register, &mut unread) {
        Ok(restored) => restored,
        Err(why) => {
            let file = GivenBack::Unread(unread);
            return Err(NotOpened { why, file });
        }
    };
    match resume(alloc, unread.into_device(), ends) {
        Ok(journal) => Ok((register, journal)),
        Err((why, device)) => {
            let file = GivenBack::Read(device);
            Err(NotOpened { why, file })
        }
    }
}

/// Reads a journal, all of whose bytes are at hand, as [`open_journal`] does, and makes its file ready to be written,
/// through its owner, who knows it by `fd`. Gives up as [`open_journal`] does.
pub fn open_relayed(
    alloc: Global,
    register: Register,
    fd: i32,
    bytes: &[u8],
) -> Result<(Register, Journal<Relayed>), JournalFault>
    requires rows { book_in register.owners ≡ empty_book }
    requires home { AllHome register.owners }
    requires pieces { pieces_of register.regions ≡ [] }
    // The rows are those of the bytes, and while the owner makes the calls that it is owed, a crash at any moment leaves
    // a file with the same rows.
    ensures rows { IfOk result (λ both. (book_of bytes.now ≡ Some (book_in both.0.owners)) × (first : Relayed) × (first.log.calls ≡ (Held, bytes.now) ∷ [])
        × LeavesOnly relayed_moment relayed_left_since first both.1.tape.device (λ c. HasFence c × (book_of c ≡ book_of bytes.now))) }
    ensures stays { IfOk result (λ both. HasOtherRows register both.0) }
    ensures home { IfOk result (λ both. AllHome both.0.owners) }
    ensures stands { IfOk result (λ both. StandsFor relayed_seen relayed_leaves (book_in both.0.owners) both.1) }
    ensures settled { IfOk result (λ both. IsSettled both.1) }
    ensures owner { IfOk result (λ both. relayed_owner both.1.tape.device ≡ owner_of_held fd bytes.now) }
    ensures refused { IfErr result (λ why. IsNotOpened bytes.now why) }
{
    let (register, ends) = restore_bytes(alloc, register, bytes)?;
    match resume(alloc, Relayed::new(alloc, fd, bytes), ends) {
        Ok(journal) => Ok((register, journal)),
        Err((why, _)) => Err(why),
    }
}

/// Opens a register with its journal, as [`open_journal`] does, and returns both as one.
pub fn open<U: Unread + Drop>(
    alloc: Global,
    register: Register,
    unread: U,
) -> Result<Journaled<U::File>, NotOpened<U, U::File>>
    requires unread { U.read unread ≡ [] }
    requires rows { book_in register.owners ≡ empty_book }
    requires home { AllHome register.owners }
    requires pieces { pieces_of register.regions ≡ [] }
    ensures rows { IfOk result (λ now. HasItsRows U.IsReadOn U.IsRead U.read U.file U.File.moment U.File.left_since unread (book_in now.register.owners) now.journal.tape.device) }
    ensures stays { IfOk result (λ now. HasOtherRows register now.register) }
    ensures settled { IfOk result (λ now. IsUnderWay U.File.seen U.File.may_leave (store_in now.register) [] [] now) }
    ensures ready { IfOk result (λ now. IsReady U.File.seen U.File.may_leave now) }
    ensures pieces { IfOk result (λ now. pieces_of now.register.regions ≡ []) }
    ensures given_back { IfErr result (λ back. IsGivenBack U.IsReadOn U.IsRead U.read U.file U.File.moment U.File.left_since U.faults U.File.faults unread back.why back.file) }
{
    let (register, journal) = open_journal(alloc, register, unread)?;
    Ok(Journaled {
        alloc,
        register,
        journal,
        snapshots: Snapshots::never(),
    })
}
