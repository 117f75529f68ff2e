//! The calls that open, write, sync and end the journal of a register.
ghost use Rattle.std.specs.Prelude.{◌≡◌, ◌⊎◌, [], None, Some, IfOk, IfErr, IfSome, IsTrue, Err, OnErr, OnOk};
ghost use Rattle.tatp_rows.specs.Refusal.{code_of};
ghost use Rattle.tatp_rows.specs.declared.refusal.Refusal.TheVariants as refusal;
ghost use Rattle.tatp_actions.specs.Book.{Book, empty_book};
ghost use Rattle.part_table.specs.Regions.{pieces_of};
ghost use Rattle.journal_file.specs.declared.fault.JournalFault.{JournalFault};
ghost use Rattle.hlr_owners.specs.Owners.{AllHome, OwnersState, book_in, store_in};
ghost use Rattle.hlr_owners.specs.Store.{HasOpening, opening};
ghost use Rattle.journal_file.specs.Device.{LeavesOnly};
ghost use Rattle.journal_file.specs.Relayed.{relayed_leaves, relayed_left_since, relayed_moment, relayed_owner, relayed_seen};
ghost use Rattle.journal.specs.Lines.{HasFence};
ghost use Rattle.hlr_kept.specs.Keeping.{IsLike, IsSettled, StandsAfterFirst, StandsFor};
ghost use Rattle.hlr_kept.specs.Rows.{IsNotOpened};
ghost use Rattle.hlr_c.specs.Call.{IsCall};
ghost use Rattle.hlr_c.specs.Held.{IsJournaled};
ghost use Rattle.hlr_c.specs.declared.opened.FileJournal.{FileJournal};
ghost use Rattle.hlr_c.specs.Journaled.{IsAllMade, IsComeBack, IsEnding, IsMaking, IsNotSynced, IsOwedTold, IsReopening, IsReserving, IsSafe, IsSnapshot, IsSnapshotOf, IsSyncing, IsUnsyncedTold, current_of, fault_code, opened_in};
ghost use Rattle.hlr_c.specs.declared.codes.TheConstants.{NOT_OPEN};

use crate::codes::{AWAY, DONE, FAILED, NO_JOURNAL, STILL_OPEN, code_of_fault};
use crate::handle::{Hlr, with_opened};
use crate::opened::{FileJournal, Opened};
use crate::opening::open_register;
use crate::owing::{note_made, tell_owed};
use crate::rows::HlrCall;
use hlr_core::Register;
use hlr_kept::{Journal, open_relayed, snapshot_relayed};
use hlr_lent::Lender;
use journal::{JournalFault, Relayed};
use std::alloc::Global;

/// Reads a journal, whose bytes are at hand, into an empty register, and puts both into a box. Gives up as
/// `open_relayed` does.
fn reopen(
    alloc: Global,
    register: Register,
    fd: i32,
    bytes: &[u8],
) -> Result<Box<Opened>, JournalFault>
    requires rows { book_in register.owners ≡ empty_book }
    requires home { AllHome register.owners }
    requires pieces { pieces_of register.regions ≡ [] }
    ensures ok { IfOk result (λ opened. (journal : FileJournal) × (opened.value.journal ≡ Some journal) × IsComeBack fd bytes.now (store_in register) opened.value.lender journal) }
    ensures journaled { IfOk result (λ opened. IsJournaled opened.value.lender opened.value.journal) }
    ensures refused { IfErr result (λ why. IsNotOpened bytes.now why) }
{
    let (register, journal) = open_relayed(alloc, register, fd, bytes)?;
    let opened = Opened {
        lender: Lender::of(register),
        journal: Some(FileJournal {
            current: journal,
            before: None,
        }),
    };
    Ok(Box::new(alloc, opened)?)
}

/// Opens a register with the rows of a journal, or returns the code of the reason why it doesn't.
fn open_kept(
    alloc: Global,
    fd: i32,
    bytes: &[u8],
    parts: u64,
    width: u64,
) -> Result<Box<Opened>, u8>
    ensures ok { IfOk result (λ opened. HasOpening parts width × (journal : FileJournal) × (opened.value.journal ≡ Some journal) × IsComeBack fd bytes.now (opening parts width) opened.value.lender journal) }
    ensures journaled { IfOk result (λ opened. IsJournaled opened.value.lender opened.value.journal) }
    ensures err { IfErr result (λ code. ((code ≡ code_of refusal.Field) × ¬ (HasOpening parts width)) ⊎ (HasOpening parts width × (why : JournalFault) × (code ≡ fault_code why) × IsNotOpened bytes.now why)) }
{
    let register = match open_register(alloc, parts, width) {
        Ok(register) => register,
        Err(why) => return Err(why.code()),
    };
    match reopen(alloc, register, fd, bytes) {
        Ok(opened) => Ok(opened),
        Err(fault) => Err(code_of_fault(fault)),
    }
}

/// Keeps the journal that a register had, if it had one, beside the current one.
fn beside_old(current: Journal<Relayed>, old: Option<FileJournal>) -> FileJournal
    ensures { result ≡ record { current = current; before = current_of old } }
{
    let before = match old {
        Some(journal) => Some(journal.current),
        None => None,
    };
    FileJournal { current, before }
}

/// Writes a register as its journal into a file of zeros, and keeps the journal that it had. Gives up as
/// `snapshot_relayed` does.
fn write_snapshot(alloc: Global, opened: &mut Opened, fd: i32) -> Result<(), JournalFault>
    requires home { AllHome opened.old.lender.owners }
    requires journaled { IsJournaled opened.old.lender opened.old.journal }
    ensures journaled { IsJournaled opened.new.lender opened.new.journal }
    ensures register { opened.new.lender ≡ opened.old.lender }
    ensures ok { OnOk result ((journal : FileJournal) × (opened.new.journal ≡ Some journal) × IsSnapshotOf fd opened.old.lender opened.old.journal journal) }
    ensures refused { OnErr result (opened.new.journal ≡ opened.old.journal) }
{
    let current = snapshot_relayed(alloc, opened.lender.register(), fd)?;
    let old = opened.journal.take();
    opened.journal = Some(beside_old(current, old));
    Ok(())
}

fn snapshot(alloc: Global, opened: &mut Opened, fd: i32) -> u8
    requires journaled { IsJournaled opened.old.lender opened.old.journal }
    ensures journaled { IsJournaled opened.new.lender opened.new.journal }
    ensures answer { IsSnapshot fd (opened.old.lender, opened.old.journal) result (opened.new.lender, opened.new.journal) }
{
    if !opened.lender.is_all_home() {
        return AWAY;
    }
    match write_snapshot(alloc, opened, fd) {
        Ok(()) => DONE,
        Err(fault) => code_of_fault(fault),
    }
}

/// Takes memory for the calls of the next sync. Gives up as `Journal::make_sync_room` does.
fn reserve_file(journal: &mut FileJournal) -> Result<(), JournalFault>
    ensures like { IsLike journal.old.current journal.new.current }
    ensures old { journal.new.before ≡ journal.old.before }
    ensures cause { IfErr result (λ why. (journal.old.current.fault ≡ Some why) ⊎ (why ≡ JournalFault.Memory)) }
    ensures journaled { (register : OwnersState) → IsJournaled register (Some journal.old) → IsJournaled register (Some journal.new) }
{
    journal.current.make_sync_room()
}

fn reserve(opened: &mut Opened) -> u8
    requires journaled { IsJournaled opened.old.lender opened.old.journal }
    ensures journaled { IsJournaled opened.new.lender opened.new.journal }
    ensures answer { IsReserving (opened.old.lender, opened.old.journal) result (opened.new.lender, opened.new.journal) }
{
    let Some(journal) = &mut opened.journal else {
        return NO_JOURNAL;
    };
    match reserve_file(journal) {
        Ok(()) => DONE,
        Err(fault) => code_of_fault(fault),
    }
}

/// Syncs the journal of a file. From then on the one of before isn't kept any more. Gives up as `Journal::sync` does.
fn sync_file(journal: &mut FileJournal) -> Result<(), JournalFault>
    requires stands { (book : Book) × StandsFor relayed_seen relayed_leaves book journal.old.current }
    ensures stands { (book : Book) → StandsFor relayed_seen relayed_leaves book journal.old.current → StandsFor relayed_seen relayed_leaves book journal.new.current }
    ensures settled { OnOk result (IsSettled journal.new.current) }
    ensures any_moment { (book : Book) → StandsFor relayed_seen relayed_leaves book journal.old.current → journal.old.current.fault ≡ None
        → LeavesOnly relayed_moment relayed_left_since journal.old.current.tape.device journal.new.current.tape.device
        (λ c. HasFence c × StandsAfterFirst relayed_seen journal.old.current c) }
    ensures broken { IfErr result (λ why. journal.new.current.fault ≡ Some why) }
    ensures stays { IfSome journal.old.current.fault (λ why. (result ≡ Err why) × (journal.new.current ≡ journal.old.current)) }
    ensures before { journal.new.before ≡ None }
    ensures owner { relayed_owner journal.new.current.tape.device ≡ relayed_owner journal.old.current.tape.device }
    ensures refused { IfErr result (λ why. journal.old.current.fault ≡ None → IsNotSynced journal.old why) }
{
    journal.before = None;
    journal.current.sync()
}

fn sync(opened: &mut Opened) -> u8
    requires journaled { IsJournaled opened.old.lender opened.old.journal }
    ensures journaled { IsJournaled opened.new.lender opened.new.journal }
    ensures answer { IsSyncing (opened.old.lender, opened.old.journal) result (opened.new.lender, opened.new.journal) }
{
    let Some(journal) = &mut opened.journal else {
        return NO_JOURNAL;
    };
    match sync_file(journal) {
        Ok(()) => DONE,
        Err(fault) => code_of_fault(fault),
    }
}

fn unsynced(opened: &Opened, bytes: &mut u64) -> u8
    ensures { IsUnsyncedTold bytes.old (opened.now.lender, opened.now.journal) (result, bytes.new) (opened.now.lender, opened.now.journal) }
{
    let Some(journal) = &opened.journal else {
        return NO_JOURNAL;
    };
    if let Some(fault) = journal.current.fault() {
        return code_of_fault(fault);
    }
    *bytes = journal.current.unsynced() as u64;
    DONE
}

/// Returns whether no line waits, no call is owed, and no sync has failed.
fn is_all_made(journal: &FileJournal) -> bool
    ensures yes { IsTrue result → IsAllMade journal.now }
    ensures no { ¬ (IsTrue result) → ¬ (IsAllMade journal.now) }
{
    let current = &journal.current;
    current.fault().is_none() && current.unsynced() == 0 && current.device().owed().is_empty()
}

/// Leaves a register without its journal, whose file has all rows by then.
fn let_go(opened: &mut Opened)
    requires { IfSome opened.old.journal (λ journal. IsSafe opened.old.lender journal × IsAllMade journal) }
    ensures { opened.new ≡ record opened.old { journal = None } }
{
    opened.journal = None;
}

fn end(opened: &mut Opened) -> u8
    requires journaled { IsJournaled opened.old.lender opened.old.journal }
    ensures journaled { IsJournaled opened.new.lender opened.new.journal }
    ensures answer { IsEnding (opened.old.lender, opened.old.journal) result (opened.new.lender, opened.new.journal) }
{
    let Some(journal) = &opened.journal else {
        return NO_JOURNAL;
    };
    if !is_all_made(journal) {
        return FAILED;
    }
    let_go(opened);
    DONE
}

/// Opens a register in a closed handle with the rows of the journal whose bytes C has read from its synced file, with
/// 1..=16 parts that share its subscribers, and zones of 1..=524,288 subscribers. From then on the journal is that of the
/// register, and nothing is published of the rows. C owes the file calls then, as after `hlr_tape_sync`. The descriptor is
/// only a number here: each call that C is handed has it. Its refusals, in order, are `STILL_OPEN` if the handle has a
/// register, `Field`, `Memory`, and `BAD_JOURNAL` if the bytes aren't a whole journal. Each of them leaves the handle as
/// it was. Memory can be refused later too, while lines are done again.
#[unsafe(no_mangle)]
pub extern "C" fn hlr_tape_open(
    alloc: Global,
    handle: &mut Hlr,
    fd: i32,
    bytes: &[u8],
    parts: u64,
    width: u64,
) -> u8
    ensures { IsReopening fd bytes.now parts width (opened_in handle.old.kept) result (opened_in handle.new.kept) }
{
    if handle.is_open() {
        return STILL_OPEN;
    }
    match open_kept(alloc, fd, bytes, parts, width) {
        Ok(opened) => {
            handle.put(opened);
            DONE
        }
        Err(code) => code,
    }
}

/// Writes the rows of a register as a new journal into a file of 65,536 zeros, all of them on the disk, with calls that C
/// owes the file then. From then on it is the journal of the register. Once C has made the calls, the one of before is
/// forgotten; if one of them fails, and nothing was changed or synced since, it is the register's journal again. Its
/// refusals are `NOT_OPEN`, `AWAY` if any part is lent, and `Memory`. After a refusal, the register
/// and its journal are as before.
#[unsafe(no_mangle)]
pub extern "C" fn hlr_tape_snapshot(alloc: Global, handle: &mut Hlr, fd: i32) -> u8
    ensures { IsCall NOT_OPEN (IsSnapshot fd) (opened_in handle.old.kept) result (opened_in handle.new.kept) }
{
    with_opened!(handle, alloc, |opened| snapshot(alloc, &mut opened, fd))
}

/// Takes memory for what `hlr_tape_sync` needs, so that it isn't refused any. Its refusals, in order, are `NOT_OPEN`,
/// `NO_JOURNAL`, `FAILED` if a sync has failed, and `Memory`, which leaves the journal as it was.
#[unsafe(no_mangle)]
pub extern "C" fn hlr_tape_reserve(alloc: Global, handle: &mut Hlr) -> u8
    ensures { IsCall NOT_OPEN IsReserving (opened_in handle.old.kept) result (opened_in handle.new.kept) }
{
    with_opened!(handle, alloc, |opened| reserve(&mut opened))
}

/// Puts all lines that wait into the journal, and syncs it, with calls that C owes the file then. Once C has made them,
/// no crash takes back what was answered before. Its refusals, in order, are `NOT_OPEN`, `NO_JOURNAL`, and `FAILED` or
/// `Memory`. A sync that has failed leaves the rows after the first so many of the lines in the file, and every change
/// and sync that comes after it returns the same code and changes nothing, until `hlr_tape_snapshot` makes a new journal.
#[unsafe(no_mangle)]
pub extern "C" fn hlr_tape_sync(alloc: Global, handle: &mut Hlr) -> u8
    ensures { IsCall NOT_OPEN IsSyncing (opened_in handle.old.kept) result (opened_in handle.new.kept) }
{
    with_opened!(handle, alloc, |opened| sync(&mut opened))
}

/// Hands over a call that C owes the file of the journal, by its index. C makes the calls in the order of their indexes,
/// the oldest of which is 0. The bytes that a call writes, behind the first `skip` of them, are copied into `bytes` as far
/// as there is room. Behind the last call, and after a sync that has failed, the kind is 0, and no byte is copied. Its
/// refusals, in order, are `NOT_OPEN` and `NO_JOURNAL`.
#[unsafe(no_mangle)]
pub extern "C" fn hlr_tape_owed(
    alloc: Global,
    handle: &mut Hlr,
    index: u64,
    skip: u64,
    bytes: &mut [u8],
    call: &mut HlrCall,
) -> u8
    ensures { IsCall (NOT_OPEN, (bytes.old, call.old)) (IsOwedTold index skip (bytes.old, call.old)) (opened_in handle.old.kept) (result, (bytes.new, call.new)) (opened_in handle.new.kept) }
{
    with_opened!(
        handle,
        alloc,
        |opened| tell_owed(&opened, index, skip, bytes, call)
    )
}

/// Says that C has made all calls that it owed, or, with 0, that one of them has failed. Its refusals, in order, are
/// `NOT_OPEN`, `NO_JOURNAL`, and `FAILED` with 0, because the sync has failed then, or if one has failed before. If memory
/// was what the earlier one lacked, the code is `Memory`.
#[unsafe(no_mangle)]
pub extern "C" fn hlr_tape_made(alloc: Global, handle: &mut Hlr, is_done: u8) -> u8
    ensures { IsCall NOT_OPEN (IsMaking is_done) (opened_in handle.old.kept) result (opened_in handle.new.kept) }
{
    with_opened!(handle, alloc, |opened| note_made(&mut opened, is_done))
}

/// Tells how many bytes of lines wait for the next sync. Its refusals, in order, are `NOT_OPEN`, `NO_JOURNAL`, and the code
/// of a sync that has failed, which is `FAILED` or `Memory`.
#[unsafe(no_mangle)]
pub extern "C" fn hlr_unsynced(alloc: Global, handle: &mut Hlr, bytes: &mut u64) -> u8
    ensures { IsCall (NOT_OPEN, bytes.old) (IsUnsyncedTold bytes.old) (opened_in handle.old.kept) (result, bytes.new) (opened_in handle.new.kept) }
{
    with_opened!(handle, alloc, |opened| unsynced(&opened, bytes))
}

/// Leaves a register without its journal. Its refusals, in order, are `NOT_OPEN`, `NO_JOURNAL`, and `FAILED` if lines
/// wait, calls are owed, or a sync has failed, and then the register has its journal as before.
#[unsafe(no_mangle)]
pub extern "C" fn hlr_tape_end(alloc: Global, handle: &mut Hlr) -> u8
    ensures { IsCall NOT_OPEN IsEnding (opened_in handle.old.kept) result (opened_in handle.new.kept) }
{
    with_opened!(handle, alloc, |opened| end(&mut opened))
}
