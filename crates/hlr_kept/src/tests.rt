//! What no clause says: that calls succeed, and that a register opened from what a crash has left has the right rows.
ghost use Rattle.std.specs.Prelude.{◌≡◌, [], IfOk, OnOk};
ghost use Rattle.journal_file.specs.Relayed.{relayed_leaves, relayed_seen};
ghost use Rattle.hlr_kept.specs.UnderWay.{IsReady};

use super::*;
use crate::journaled::Snapshots;
use hlr_core::{Answer, ArrayVec, Event, Order, Refusal, Register, Reply, RowReply};
use journal::{Device, JournalFault, Memory, Owed, Relayed, Step, Unread, UnreadMemory};
use std::alloc::Global;
use std::fs;
use std::test::Fail;
use tests_common::{access_row, ask, facility_row, number, row};

const DONE: Reply = Reply::Rows(RowReply::Done);

/// How many events `changes` has.
const CHANGES: usize = 9;

/// Events of one subscriber, each of which is answered `Done` if it follows the others.
fn changes() -> Result<[Event; CHANGES], Refusal> {
    let sub_nbr = number(11)?;
    let next_nbr = number(12)?;
    Ok([
        Event::AddSubscriber(row(1, 11, 5)?),
        Event::AddAccess(access_row(1, 2, 7)?),
        Event::AddFacility(facility_row(1, 1, 0)?),
        Event::InsertForwarding {
            sub_nbr,
            sf_type: 1,
            start_time: 8,
            end_time: 20,
            numberx: sub_nbr,
        },
        Event::SetActive {
            s_id: 1,
            sf_type: 1,
            is_active: 1,
        },
        Event::UpdateSubscriber {
            s_id: 1,
            sf_type: 1,
            bit_1: 0,
            data_a: 200,
        },
        Event::UpdateLocation {
            sub_nbr,
            vlr_location: 77,
        },
        Event::SetNumber {
            s_id: 1,
            sub_nbr: next_nbr,
        },
        Event::DeleteForwarding {
            sub_nbr: next_nbr,
            sf_type: 1,
            start_time: 8,
        },
    ])
}

/// The length of the lines of the first so many changes, with the first line of the journal.
const LENGTHS: [usize; CHANGES + 1] = [14, 58, 77, 94, 115, 123, 133, 148, 162, 174];

/// What a register replies to reads of the subscriber's rows.
fn replies(register: &mut Register) -> (Reply, Reply, Reply) {
    let subscriber = ask(register, Event::SubscriberData { s_id: 1 });
    let access = ask(
        register,
        Event::AccessData {
            s_id: 1,
            ai_type: 2,
        },
    );
    let destination = ask(
        register,
        Event::NewDestination {
            s_id: 1,
            sf_type: 1,
            start_time: 8,
            end_time: 19,
        },
    );
    (subscriber, access, destination)
}

/// Has a register do the first so many changes.
fn changed(alloc: Global, count: usize) -> Result<Register, Fail> {
    let mut register = Register::open(alloc, 1, 100)?;
    for event in changes()?.iter().take(count) {
        let _ = ask(&mut register, *event);
    }
    Ok(register)
}

/// Opens a register from a journal.
fn opened<U: Unread + Drop>(alloc: Global, unread: U) -> Result<Journaled<U::File>, JournalFault>
    requires unread { U.read unread ≡ [] }
    ensures ready { IfOk result (λ now. IsReady U.File.seen U.File.may_leave now) }
{
    match Register::open(alloc, 2, 50) {
        Ok(register) => match open(alloc, register, unread) {
            Ok(now) => Ok(now),
            Err(back) => Err(back.why),
        },
        Err(_) => Err(JournalFault::Memory),
    }
}

/// Does all changes with a sync behind each.
fn change_all<D: Device>(now: &mut Journaled<D>) -> Result<(), Fail>
    requires ready { IsReady D.seen D.may_leave now.old }
    ensures ready { OnOk result (IsReady D.seen D.may_leave now.new) }
{
    for event in &changes()? {
        now.apply(*event)?;
        now.sync()?;
    }
    Ok(())
}

/// Does all changes, and returns what the file holds then.
fn filled(alloc: Global) -> Result<Vec<u8>, Fail> {
    let image = [0; 256].to_vec(alloc)?;
    let mut now = opened(alloc, UnreadMemory::new(Memory::new(alloc, image)))?;
    change_all(&mut now)?;
    Ok(now.journal.tape.device.bytes().to_vec(alloc)?)
}

/// Opens a journal, and returns whether it has the rows after so many changes.
fn reads_rows<U: Unread + Drop>(alloc: Global, unread: U, count: usize) -> Result<bool, Fail>
    requires unread { U.read unread ≡ [] }
{
    let mut now = opened(alloc, unread)?;
    let mut want = changed(alloc, count)?;
    Ok(replies(&mut now.register) == replies(&mut want))
}

/// Opens what a crash has left, and returns whether it has the rows after so many changes.
fn has_rows(alloc: Global, image: Vec<u8>, count: usize) -> Result<bool, Fail> {
    reads_rows(alloc, UnreadMemory::new(Memory::new(alloc, image)), count)
}

/// Loses all bytes from an offset on.
fn lose_from(image: &mut [u8], from: usize) {
    for byte in image.iter_mut().skip(from) {
        *byte = 0;
    }
}

/// Loses each byte from an offset on whose bit is set.
fn lose_some(image: &mut [u8], from: usize, bits: u32) {
    let mut rest = bits;
    for byte in image.iter_mut().skip(from) {
        if rest % 2 == 1 {
            *byte = 0;
        }
        rest /= 2;
    }
}

#[test]
fn each_number_of_lines_has_its_rows(rt: HostRuntime) -> Result<(), Fail> {
    let alloc = rt.alloc();
    let image = filled(alloc)?;
    for (count, length) in LENGTHS.iter().enumerate() {
        let mut front = image.to_vec(alloc)?;
        lose_from(&mut front, *length);
        assert!(rt; has_rows(alloc, front, count)?);
    }
    Ok(())
}

// A crash may lose each byte of a group by itself. This group is the line of `SetActive`, the fifth change.
#[test]
fn each_subset_of_a_line_is_lost(rt: HostRuntime) -> Result<(), Fail> {
    let alloc = rt.alloc();
    let image = filled(alloc)?;
    for lost in 0..256u32 {
        let mut left = image.to_vec(alloc)?;
        lose_some(&mut left, LENGTHS[4], lost);
        lose_from(&mut left, LENGTHS[5]);
        let count = if lost == 0 { 5 } else { 4 };
        assert!(rt; has_rows(alloc, left, count)?);
    }
    Ok(())
}

#[test]
fn only_what_was_done_is_written(rt: HostRuntime) -> Result<(), Fail> {
    let alloc = rt.alloc();
    let image = [0; 256].to_vec(alloc)?;
    let mut now = opened(alloc, UnreadMemory::new(Memory::new(alloc, image)))?;
    let added = Event::AddSubscriber(row(1, 11, 5)?);
    assert!(rt; now.apply(added)? == DONE);
    assert!(rt; now.apply(added)? == Reply::Refused(Refusal::Exists));
    now.apply(Event::SubscriberData { s_id: 1 })?;
    assert!(rt; now.recut_to(&[60])? == 1);
    assert_eq!(rt; now.unsynced(), 44);
    now.sync()?;
    assert_eq!(rt; now.unsynced(), 0);
    let bytes = now.journal.tape.device.bytes();
    assert!(rt; bytes.get(57) == Some(&b'\n'));
    assert!(rt; bytes.get(58) == Some(&0));
    Ok(())
}

#[test]
fn answers_wait_for_the_sync(rt: HostRuntime) -> Result<(), Fail> {
    let alloc = rt.alloc();
    let image = [0; 256].to_vec(alloc)?;
    let mut kept = Kept::new(
        alloc,
        opened(alloc, UnreadMemory::new(Memory::new(alloc, image)))?,
    );
    let added = Order::Event(Event::AddSubscriber(row(1, 11, 5)?));
    assert_eq!(rt; kept.submit(&added)?, 1);
    assert_eq!(rt; kept.submit(&added)?, 2);
    let answers = kept.sync()?;
    assert!(rt; answers.len() == 2 && kept.unsynced() == 0);
    assert!(rt; answers.get(0) == Some(&Answer::Reply(DONE)));
    assert!(rt; answers.get(1) == Some(&Answer::Reply(Reply::Refused(Refusal::Exists))));
    Ok(())
}

/// Submits the first so many changes.
fn submit<D: Device>(kept: &mut Kept<D>, count: usize) -> Result<(), Fail>
    requires ready { IsReady D.seen D.may_leave kept.old.journaled }
    ensures ready { OnOk result (IsReady D.seen D.may_leave kept.new.journaled) }
{
    for event in changes()?.iter().take(count) {
        kept.submit(&Order::Event(*event))?;
    }
    Ok(())
}

/// How many changes there are up to the one after which each table has a row.
const ROWS: usize = CHANGES - 1;

#[test]
fn a_snapshot_takes_the_place_of_the_journal(rt: HostRuntime) -> Result<(), Fail> {
    let alloc = rt.alloc();
    let image = [0; 256].to_vec(alloc)?;
    let mut kept = Kept::new(
        alloc,
        opened(alloc, UnreadMemory::new(Memory::new(alloc, image)))?,
    );
    kept.compact_from(1);
    submit(&mut kept, ROWS)?;
    assert_eq!(rt; kept.sync_or_compact()?.len(), ROWS);
    let tape = &kept.journaled.journal.tape;
    assert!(rt; tape.end < LENGTHS[ROWS]);
    assert!(rt; has_rows(alloc, tape.device.bytes().to_vec(alloc)?, ROWS)?);
    Ok(())
}

/// Opens a file with this text, and returns why that is refused.
fn refusal_of(alloc: Global, text: &[u8]) -> Result<Option<JournalFault>, Fail> {
    let mut image = text.to_vec(alloc)?;
    image.push(0)?;
    Ok(opened(alloc, UnreadMemory::new(Memory::new(alloc, image))).err())
}

#[test]
fn other_files_are_refused(rt: HostRuntime) -> Result<(), Fail> {
    let alloc = rt.alloc();
    let texts: [(&[u8], Option<JournalFault>); 6] = [
        (b"", None),
        (b"hlr journal 1\n", None),
        (b"hlr jour", None),
        (b"hlr journal 2\n", Some(JournalFault::BadLine)),
        (
            b"hlr journal 1\nhlr journal 1\n",
            Some(JournalFault::BadLine),
        ),
        // A facility of a subscriber whom nobody has added.
        (
            b"hlr journal 1\nO\x81\x80\x80\x80\x81\x81\n",
            Some(JournalFault::BadLine),
        ),
    ];
    for (text, want) in texts {
        assert!(rt; refusal_of(alloc, text)? == want);
    }
    Ok(())
}

/// A journal without a 0 behind its text.
const UNFENCED: &[u8] = b"hlr journal 1\n";

#[test]
fn a_refused_file_comes_back(rt: HostRuntime) -> Result<(), Fail> {
    let alloc = rt.alloc();
    let register = Register::open(alloc, 2, 50)?;
    let file = Memory::new(alloc, UNFENCED.to_vec(alloc)?);
    match open(alloc, register, UnreadMemory::new(file)) {
        Ok(_) => panic!(rt; "the file was opened"),
        Err(back) => match back.file {
            GivenBack::Read(file) => assert!(rt; file.bytes() == UNFENCED),
            GivenBack::Unread(_) => panic!(rt; "all of the file was read"),
        },
    }
    Ok(())
}

#[test]
fn a_snapshot_wants_a_file_without_lines(rt: HostRuntime) -> Result<(), Fail> {
    let alloc = rt.alloc();
    let register = Register::open(alloc, 1, 100)?;
    let file = Memory::new(alloc, filled(alloc)?);
    let answer = snapshot_journal(alloc, &register, UnreadMemory::new(file));
    assert!(rt; matches!(answer, Err(JournalFault::BadLine)));
    Ok(())
}

const FOLDER: &str = "hlr_kept_test";

const PATH: &str = "hlr_kept_test/a";

#[test]
fn a_register_comes_back_from_a_file(rt: HostRuntime) -> Result<(), Fail> {
    let alloc = rt.alloc();
    let _ = fs::remove_dir_all(&rt, FOLDER);
    fs::create_dir(&rt, FOLDER)?;
    let mut now = opened(alloc, journal::open(&rt, PATH)?)?;
    change_all(&mut now)?;
    drop(now);
    assert!(rt; reads_rows(alloc, journal::open(&rt, PATH)?, CHANGES)?);
    fs::remove_dir_all(&rt, FOLDER)?;
    Ok(())
}

const SNAPSHOT_PATH: &str = "hlr_kept_test_snapshot";

#[test]
fn a_snapshot_begins_a_journal(rt: HostRuntime) -> Result<(), Fail> {
    let alloc = rt.alloc();
    let _ = fs::remove_file(&rt, SNAPSHOT_PATH);
    let register = Register::open(alloc, 1, 100)?;
    drop(snapshot_journal(alloc, &register, journal::open(&rt, SNAPSHOT_PATH)?)?);
    let mut now = opened(alloc, journal::open(&rt, SNAPSHOT_PATH)?)?;
    change_all(&mut now)?;
    drop(now);
    assert!(rt; reads_rows(alloc, journal::open(&rt, SNAPSHOT_PATH)?, CHANGES)?);
    fs::remove_file(&rt, SNAPSHOT_PATH)?;
    Ok(())
}

/// Opens a register from a journal all of whose bytes are at hand.
fn relayed(alloc: Global, bytes: &[u8]) -> Result<Journaled<Relayed>, JournalFault>
    ensures ready { IfOk result (λ now. IsReady relayed_seen relayed_leaves now) }
{
    let Ok(register) = Register::open(alloc, 2, 50) else {
        return Err(JournalFault::Memory);
    };
    let (register, journal) = open_relayed(alloc, register, 3, bytes)?;
    Ok(Journaled {
        alloc,
        register,
        journal,
        snapshots: Snapshots::never(),
    })
}

/// How many bytes of a file are looked at. More zeros behind them change nothing.
const ROOM: usize = 256;

/// Makes a call on a file, as its owner does, except for the bytes whose bits are set, which a crash loses. The last bit
/// stands for all bytes behind the 31st.
fn make_call(file: &mut Vec<u8>, call: &Owed, lost: u32) -> Result<(), Fail> {
    let to = call.to.min(ROOM);
    if file.len() < to {
        file.resize(to, 0)?;
    }
    for (place, at) in (call.from..to).enumerate() {
        let is_lost = (lost >> place.min(31) as u32) & 1 == 1;
        if let Some(byte) = file.get_mut(at) {
            if !is_lost {
                *byte = call.bytes.get(place).copied().unwrap_or(0);
            }
        }
    }
    Ok(())
}

/// Makes the calls that are owed on a file.
fn make_calls(file: &mut Vec<u8>, owed: &[Owed]) -> Result<(), Fail> {
    for call in owed {
        make_call(file, call, 0)?;
    }
    Ok(())
}

/// Returns whether a file has the rows after so many changes if a crash in the midst of a call loses these bytes of it.
fn keeps_rows_without(
    alloc: Global,
    file: &[u8],
    call: &Owed,
    count: usize,
    lost: u32,
) -> Result<bool, Fail> {
    let mut image = file.to_vec(alloc)?;
    make_call(&mut image, call, lost)?;
    has_rows(alloc, image, count)
}

/// Bytes that may stand behind the old end of a file while it grows. The line among them doesn't count.
const BEHIND_THE_END: &[u8] = b"one\n";

/// Returns whether a file has the rows after so many changes, whatever a crash in the midst of a call leaves of it. Of a
/// short call, each subset of its bytes is lost, and of a long one, each byte alone and each end. A file that grows
/// has a line behind its old end.
fn keeps_rows_during(alloc: Global, file: &[u8], call: &Owed, count: usize) -> Result<bool, Fail> {
    if matches!(call.step, Step::Grew { .. }) {
        let mut image = file.to_vec(alloc)?;
        image.extend_from_slice(BEHIND_THE_END)?;
        return has_rows(alloc, image, count);
    }
    let len = call.to.saturating_sub(call.from);
    if len <= 10 {
        for lost in 1..1u32 << len as u32 {
            if !keeps_rows_without(alloc, file, call, count, lost)? {
                return Ok(false);
            }
        }
        return Ok(true);
    }
    for bit in 0..len.min(32) as u32 {
        let (alone, end) = (1 << bit, u32::MAX << bit);
        if !keeps_rows_without(alloc, file, call, count, alone)?
            || !keeps_rows_without(alloc, file, call, count, end)?
        {
            return Ok(false);
        }
    }
    Ok(true)
}

// The file is opened, lines are written to it one by one, and it grows once.
#[test]
fn each_image_during_a_call_has_its_rows(rt: HostRuntime) -> Result<(), Fail> {
    let alloc = rt.alloc();
    // A crash has left a part of the first line.
    let mut file = b"hlr jou".to_vec(alloc)?;
    file.resize(64, 0)?;
    let mut now = relayed(alloc, &file)?;
    change_all(&mut now)?;
    let mut lines = 0usize;
    let mut growths = 0usize;
    let mut is_synced = true;
    for call in now.journal.device().owed() {
        // Only one call at a time isn't on the disk yet.
        assert!(rt; is_synced != matches!(call.step, Step::Synced { .. }));
        is_synced = !is_synced;
        assert!(rt; keeps_rows_during(alloc, &file, call, lines.saturating_sub(1))?);
        make_call(&mut file, call, 0)?;
        match call.step {
            Step::Wrote { .. } => lines = lines.saturating_add(1),
            Step::Grew { .. } => growths = growths.saturating_add(1),
            _ => {}
        }
        assert!(rt; has_rows(alloc, file.to_vec(alloc)?, lines.saturating_sub(1))?);
    }
    assert!(rt; is_synced);
    assert_eq!(rt; (lines, growths), (CHANGES + 1, 1));
    Ok(())
}

#[test]
fn a_register_comes_back_over_the_owed_calls(rt: HostRuntime) -> Result<(), Fail> {
    let alloc = rt.alloc();
    let mut file = [0; 256].to_vec(alloc)?;
    let mut now = relayed(alloc, &file)?;
    change_all(&mut now)?;
    make_calls(&mut file, now.journal.device().owed())?;
    assert!(rt; has_rows(alloc, file, CHANGES)?);
    now.journal.note_made();
    assert!(rt; now.journal.device().owed().is_empty());
    now.journal.make_sync_room()?;
    let snapshot = snapshot_relayed(alloc, &now.register, 4)?;
    let mut file = Vec::new(alloc);
    file.resize(65_536, 0)?;
    make_calls(&mut file, snapshot.device().owed())?;
    assert!(rt; has_rows(alloc, file, CHANGES)?);
    now.journal.give_up();
    assert!(rt; matches!(now.journal.make_sync_room(), Err(JournalFault::Failed)));
    Ok(())
}
