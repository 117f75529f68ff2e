//! Snapshots: short journals whose lines make the rows of a register anew.
ghost use Rattle.std.specs.Prelude.{◌≡◌, ◌<◌, ◌++◌, [], map, replicate, OnOk, IfOk, IsSome};
ghost use Rattle.std.specs.List.{AllByRecursion};
ghost use Rattle.journal_file.specs.Owner.{owner_of_held};
ghost use Rattle.journal_file.specs.Relayed.{relayed_leaves, relayed_owner, relayed_seen};
ghost use Rattle.journal.specs.Lines.{IsWhole, recovered, text};
ghost use Rattle.journal.specs.Tape.{IsOpen};
ghost use Rattle.tatp_rows.specs.Keys.{subscriber_key};
ghost use Rattle.tatp_rows.specs.Ordered.{IsOrderedBy};
ghost use Rattle.tatp_actions.specs.Book.{IsBook, subscriber_at};
ghost use Rattle.edit_lines.specs.Lines.{line_of};
ghost use Rattle.hlr_owners.specs.Owners.{AllHome, book_in, store_in};
ghost use Rattle.hlr_core.specs.Numbers.{HasNoTwin};
ghost use Rattle.hlr_kept.specs.Draft.{AreKeyed, IsDraft, draft_lines};
ghost use Rattle.hlr_kept.specs.Keeping.{IsSettled, StandsFor};
ghost use Rattle.hlr_kept.specs.Runs.{IsOnDisk};
ghost use Rattle.hlr_kept.specs.Snapshot.{SnapshotsStandForBooks};

use crate::blank_tape::{blank, blank_relayed};
use crate::draft::Draft;
use crate::keeping::Journal;
use crate::table_rows::SnapshotRow;
use hlr_core::{Access, Facility, Forwarding, FromRow, KeyFields, Register, Subscriber};
use journal::{Device, JournalFault, Relayed, Tape, Unread};
use std::alloc::Global;

/// How many rows are read at a time.
const PAGE: usize = 256;

/// States that a snapshot stands for the rows of its book. The call does nothing.
pub fn snapshots_stand_for_books()
    ensures { SnapshotsStandForBooks }
{}

/// Tells the prover that the rows of a register keep the rules, and that no number comes twice.
fn rules(register: &Register)
    ensures rules { IsBook (book_in register.now.owners) }
    ensures alone { HasNoTwin (book_in register.now.owners).subscribers }
{
    register.rules();
    register.index().first_from(0);
}

/// Puts the lines of some rows behind the others.
fn put_rows<V: SnapshotRow, D: Device>(
    register: &Register,
    rows: &[V],
    draft: &mut Draft<D>,
) -> Result<(), JournalFault>
    requires home { AllHome register.now.owners }
    requires ordered { IsOrderedBy subscriber_key (book_in register.now.owners).subscribers }
    requires known { AllByRecursion (λ row. IsSome (subscriber_at (book_in register.now.owners) (V.TableRow.fields row).s_id)) rows.now }
    requires draft { IsDraft D.seen D.may_leave draft.old }
    ensures draft { OnOk result (IsDraft D.seen D.may_leave draft.new) }
    ensures lines { OnOk result (draft_lines D.seen draft.new
        ≡ draft_lines D.seen draft.old ++ map line_of (map (V.event (book_in register.now.owners).subscribers) rows.now)) }
    ensures owner { D.owner draft.new.tape.device ≡ D.owner draft.old.tape.device }
{
    for row in rows {
        draft.put(&row.to_event(register))?;
    }
    Ok(())
}

/// Puts the lines of a table behind the others, and reads its rows page by page.
fn put_table<V: SnapshotRow + FromRow<V>, D: Device>(
    alloc: Global,
    register: &Register,
    draft: &mut Draft<D>,
) -> Result<(), JournalFault>
    requires home { AllHome register.now.owners }
    requires ordered { IsOrderedBy subscriber_key (book_in register.now.owners).subscribers }
    requires known { AllByRecursion (λ row. IsSome (subscriber_at (book_in register.now.owners) (V.TableRow.fields row).s_id)) (V.TableRow.table (book_in register.now.owners)) }
    requires keyed { AreKeyed V.TableRow.fields (V.TableRow.table (book_in register.now.owners)) }
    requires same { (row : _) → V.FromRow.of_row row ≡ row }
    requires draft { IsDraft D.seen D.may_leave draft.old }
    ensures draft { OnOk result (IsDraft D.seen D.may_leave draft.new) }
    ensures lines { OnOk result (draft_lines D.seen draft.new
        ≡ draft_lines D.seen draft.old ++ map line_of (map (V.SnapshotRow.event (book_in register.now.owners).subscribers) (V.TableRow.table (book_in register.now.owners)))) }
    ensures owner { D.owner draft.new.tape.device ≡ D.owner draft.old.tape.device }
{
    let mut page = Vec::new(alloc);
    page.resize(PAGE, V::default())?;
    let mut from = KeyFields {
        s_id: 0,
        kind: 0,
        start_time: 0,
    };
    loop {
        let count = register.write_rows::<V, V>(&from, &mut page);
        if count == 0 {
            return Ok(());
        }
        put_rows(register, &page[..count], draft)?;
        from = page[count - 1].next_key();
    }
}

/// Writes a snapshot of a register, of which no part is lent, on a tape that has no line, and syncs it once at the end.
/// From an `Ok` on, the file of the tape stands for the rows of the register. Gives up with `Memory`, and as
/// `Tape::commit` does, and then the file is to be thrown away.
pub fn snapshot<D: Device + Drop>(
    alloc: Global,
    register: &Register,
    next: Tape<D>,
) -> Result<Tape<D>, JournalFault>
    requires home { AllHome register.now.owners }
    requires open_tape { IsOpen D.Device.seen D.Device.may_leave next }
    requires whole { IsWhole (text (D.Device.seen next.device)) }
    requires blank { recovered (D.Device.seen next.device) ≡ [] }
    ensures stored { IfOk result (λ tape. IsOnDisk D.Device.seen D.Device.may_leave (store_in register.now) tape) }
    ensures owner { IfOk result (λ tape. D.Device.owner tape.device ≡ D.Device.owner next.device) }
{
    rules(register);
    let mut draft = Draft::begin(alloc, next)?;
    put_table::<Subscriber, D>(alloc, register, &mut draft)?;
    put_table::<Access, D>(alloc, register, &mut draft)?;
    put_table::<Facility, D>(alloc, register, &mut draft)?;
    put_table::<Forwarding, D>(alloc, register, &mut draft)?;
    let mut tape = draft.finish()?;
    tape.sync()?;
    Ok(tape)
}

/// Writes a snapshot of a register, of which no part is lent, into a file that has no line, and returns it as the journal
/// of the register. From an `Ok` on, the file stands for the rows of the register. Gives up as [`blank`] and [`snapshot`]
/// do, and then the file is to be thrown away.
pub fn snapshot_journal<U: Unread + Drop>(
    alloc: Global,
    register: &Register,
    unread: U,
) -> Result<Journal<U::File>, JournalFault>
    requires unread { U.read unread ≡ [] }
    requires home { AllHome register.now.owners }
    ensures stands { IfOk result (λ journal. StandsFor U.File.seen U.File.may_leave (book_in register.now.owners) journal) }
    ensures settled { IfOk result (λ journal. IsSettled journal) }
    // The file had no line before.
    ensures unlined { OnOk result ((last : U) × U.IsReadOn unread last × U.IsRead last × (recovered (U.read last) ≡ [])) }
{
    let next = blank(alloc, unread)?;
    let tape = snapshot(alloc, register, next)?;
    Ok(Journal::new(alloc, tape))
}

/// Writes a snapshot of a register, of which no part is lent, into a file of 65,536 zeros, through its owner, who knows
/// it by `fd`, and returns it as the journal of the register. Once the owner has made the calls that it is owed, the
/// file stands for the rows of the register. Gives up as [`snapshot`] does, and then the file is to be thrown away.
pub fn snapshot_relayed(
    alloc: Global,
    register: &Register,
    fd: i32,
) -> Result<Journal<Relayed>, JournalFault>
    requires home { AllHome register.now.owners }
    ensures stands { IfOk result (λ journal. StandsFor relayed_seen relayed_leaves (book_in register.now.owners) journal) }
    ensures settled { IfOk result (λ journal. IsSettled journal) }
    ensures owner { IfOk result (λ journal. relayed_owner journal.tape.device ≡ owner_of_held fd (replicate 65536 0)) }
{
    let next = blank_relayed(alloc, fd)?;
    let tape = snapshot(alloc, register, next)?;
    Ok(Journal::new(alloc, tape))
}
