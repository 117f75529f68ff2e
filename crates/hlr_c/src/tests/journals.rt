//! Registers with a journal: that they come back from its bytes, and which code comes of what these are like.
use super::drawn::{Draws, called};
use super::lent::let_go;
use super::{HlrFacility, NO_ACCESS, NO_ROW, closed, filled, opened, row};
use crate::changes::{hlr_set_number, hlr_update_location};
use crate::codes::{AWAY, BAD_JOURNAL, DONE, FAILED, JOURNALED, NO_JOURNAL, NOT_OPEN, STILL_OPEN};
use crate::handle::Hlr;
use crate::journaling::{
    hlr_tape_end, hlr_tape_made, hlr_tape_open, hlr_tape_owed, hlr_tape_reserve, hlr_tape_snapshot,
    hlr_tape_sync, hlr_unsynced,
};
use crate::lending::{hlr_back, hlr_home, hlr_lend};
use crate::opening::hlr_close;
use crate::owing::{SYNC, WRITE, ZEROS};
use crate::pages::{
    hlr_next_accesses, hlr_next_facilities, hlr_next_forwardings, hlr_next_subscribers,
};
use crate::part::HlrPart;
use crate::reads::hlr_subscriber_data;
use crate::rows::{HlrCall, HlrForwardingRow};
use std::alloc::{AllocError, Global};
use std::process::Abort;
use std::test::Fail;

/// The zeros of a file that a journal can begin in.
const ROOM: usize = 65_536;

/// A file in memory, on which the calls are made that a journal owes. A broken one fails each of them.
#[derive(Drop)]
struct TestFile {
    bytes: Vec<u8>,
    is_broken: bool,
}

impl TestFile {
    /// Makes a file of zeros.
    fn blank(alloc: Global) -> Result<TestFile, AllocError> {
        Ok(TestFile {
            bytes: Vec::from_elem(alloc, 0, ROOM)?,
            is_broken: false,
        })
    }

    /// Writes bytes over those that are there from an offset on, and behind the end if they go further. Returns whether
    /// there was memory for them.
    fn write(&mut self, from: usize, bytes: &[u8]) -> bool {
        let to = from.saturating_add(bytes.len());
        if self.bytes.len() < to && self.bytes.resize(to, 0).is_err() {
            return false;
        }
        for (offset, byte) in bytes.iter().enumerate() {
            if let Some(here) = self.bytes.get_mut(from.saturating_add(offset)) {
                *here = *byte;
            }
        }
        true
    }

    /// Makes a call, and returns whether it is done.
    fn make(&mut self, call: &HlrCall, bytes: &[u8]) -> bool {
        if self.is_broken {
            return false;
        }
        call.kind == SYNC || self.write(call.from as usize, bytes)
    }
}

const NO_CALL: HlrCall = HlrCall {
    kind: 0,
    fd: 0,
    from: 0,
    to: 0,
};

/// Makes all calls that a register's journal owes its file, and returns the code that it tells then.
fn carry(alloc: Global, handle: &mut Hlr, file: &mut TestFile) -> u8 {
    for index in 0..1_000_000 {
        let mut call = NO_CALL;
        let code = hlr_tape_owed(alloc, handle, index, 0, &mut [], &mut call);
        if code != DONE || call.kind == 0 {
            break;
        }
        let len = call.to.saturating_sub(call.from) as usize;
        let Ok(mut bytes) = Vec::from_elem(alloc, 0, len) else {
            return hlr_tape_made(alloc, handle, 0);
        };
        if call.kind == WRITE {
            let _ = hlr_tape_owed(alloc, handle, index, 0, &mut bytes, &mut call);
        }
        if !file.make(&call, &bytes) {
            return hlr_tape_made(alloc, handle, 0);
        }
    }
    hlr_tape_made(alloc, handle, 1)
}

/// Makes the calls that are owed after a call with this code, if it is done.
fn carried(alloc: Global, handle: &mut Hlr, file: &mut TestFile, code: u8) -> u8 {
    if code != DONE {
        return code;
    }
    carry(alloc, handle, file)
}

fn journal(alloc: Global, handle: &mut Hlr, file: &mut TestFile, parts: u64, width: u64) -> u8 {
    let code = hlr_tape_open(alloc, handle, 7, &file.bytes, parts, width);
    carried(alloc, handle, file, code)
}

fn snapshot(alloc: Global, handle: &mut Hlr, file: &mut TestFile) -> u8 {
    let code = hlr_tape_snapshot(alloc, handle, 7);
    carried(alloc, handle, file, code)
}

fn sync(alloc: Global, handle: &mut Hlr, file: &mut TestFile) -> u8 {
    let code = hlr_tape_reserve(alloc, handle);
    if code != DONE {
        return code;
    }
    let code = hlr_tape_sync(alloc, handle);
    carried(alloc, handle, file, code)
}

fn end(alloc: Global, handle: &mut Hlr, file: &mut TestFile) -> u8 {
    let code = sync(alloc, handle, file);
    if code != DONE {
        return code;
    }
    hlr_tape_end(alloc, handle)
}

#[test]
fn a_register_comes_back(rt: HostRuntime) -> Result<(), Fail> {
    let alloc = rt.alloc();
    let mut file = TestFile::blank(alloc)?;
    let mut handle = opened(&rt, alloc, 2, 4);
    let mut bytes = [99; 3];
    let mut found = NO_ROW;
    let added = filled(alloc, &mut handle);
    let written = [
        snapshot(alloc, &mut handle, &mut file),
        hlr_update_location(alloc, &mut handle, 77, 9),
        hlr_update_location(alloc, &mut handle, 78, 9),
        hlr_unsynced(alloc, &mut handle, &mut bytes[0]),
        sync(alloc, &mut handle, &mut file),
        hlr_unsynced(alloc, &mut handle, &mut bytes[1]),
        hlr_set_number(alloc, &mut handle, 7, 80),
        hlr_tape_end(alloc, &mut handle),
        hlr_close(alloc, &mut handle),
    ];
    let back = [
        journal(alloc, &mut handle, &mut file, 3, 100),
        hlr_subscriber_data(alloc, &mut handle, 7, &mut found),
        hlr_unsynced(alloc, &mut handle, &mut bytes[2]),
    ];
    closed(&rt, alloc, handle);
    // what wasn't synced is lost
    assert_eq!(rt;
        (added, written, bytes),
        (
            [DONE; 5],
            [DONE, DONE, 4, DONE, DONE, DONE, DONE, FAILED, DONE],
            [15, 0, 0]
        )
    );
    assert_eq!(rt; (back, found), ([DONE; 3], row(7, 77, 9)));
    Ok(())
}

#[test]
fn calls_are_handed_over_in_order(rt: HostRuntime) -> Result<(), Fail> {
    let alloc = rt.alloc();
    let mut file = TestFile::blank(alloc)?;
    let mut handle = Hlr::closed();
    let begun = journal(alloc, &mut handle, &mut file, 1, 1);
    let added = filled(alloc, &mut handle);
    let synced = hlr_tape_sync(alloc, &mut handle);
    let mut calls = [NO_CALL; 3];
    let mut bytes = [b'-'; 8];
    let codes = [
        hlr_tape_owed(alloc, &mut handle, 0, 4, &mut bytes, &mut calls[0]),
        hlr_tape_owed(alloc, &mut handle, 1, 0, &mut [], &mut calls[1]),
        hlr_tape_owed(alloc, &mut handle, 2, 0, &mut [], &mut calls[2]),
        hlr_tape_end(alloc, &mut handle),
        hlr_tape_made(alloc, &mut handle, 1),
        hlr_tape_end(alloc, &mut handle),
    ];
    closed(&rt, alloc, handle);
    assert_eq!(rt; (begun, added, synced), (DONE, [DONE; 5], DONE));
    assert_eq!(rt; codes, [DONE, DONE, DONE, FAILED, DONE, DONE]);
    let kinds = [calls[0].kind, calls[1].kind, calls[2].kind];
    assert_eq!(rt;
        (kinds, calls[0].fd, calls[0].from),
        ([WRITE, SYNC, 0], 7, 14)
    );
    assert!(rt; calls[0].to > 14 && file.bytes.starts_with(b"hlr journal 1\n"));
    assert!(rt; ZEROS != WRITE && bytes.iter().all(|byte| *byte != b'-'));
    Ok(())
}

/// The calls of a journal on a handle whose register has none, or which is closed.
fn asked_without(alloc: Global, handle: &mut Hlr) -> [u8; 6] {
    let mut bytes = 0;
    let mut call = NO_CALL;
    [
        hlr_tape_sync(alloc, handle),
        hlr_unsynced(alloc, handle, &mut bytes),
        hlr_tape_end(alloc, handle),
        hlr_tape_reserve(alloc, handle),
        hlr_tape_made(alloc, handle, 1),
        hlr_tape_owed(alloc, handle, 0, 0, &mut [], &mut call),
    ]
}

#[test]
fn bytes_that_are_no_journal(rt: HostRuntime) -> Result<(), Fail> {
    let alloc = rt.alloc();
    let text: &[u8] = b"hlr journal 1\nX\n\0";
    let mut handle = Hlr::closed();
    let before = [
        hlr_tape_open(alloc, &mut handle, 0, text, 0, 4),
        hlr_tape_open(alloc, &mut handle, 0, text, 2, 4),
        hlr_tape_open(alloc, &mut handle, 0, &text[..14], 2, 4),
        hlr_tape_open(alloc, &mut handle, 0, &[], 2, 4),
        hlr_tape_snapshot(alloc, &mut handle, 0),
    ];
    let none = asked_without(alloc, &mut handle);
    let_go_of(&rt, handle);
    assert_eq!(rt;
        (before, none),
        (
            [2, BAD_JOURNAL, BAD_JOURNAL, BAD_JOURNAL, NOT_OPEN],
            [NOT_OPEN; 6]
        )
    );
    Ok(())
}

/// Lets go of a closed handle.
fn let_go_of(rt: &impl Abort, handle: Hlr) {
    assert!(rt; !handle.is_open(), "a handle is closed");
    let Hlr { mark: _, kept } = handle;
    kept.let_go();
}

#[test]
fn a_register_that_lends_has_no_journal(rt: HostRuntime) -> Result<(), Fail> {
    let alloc = rt.alloc();
    let mut file = TestFile::blank(alloc)?;
    let mut handle = opened(&rt, alloc, 2, 4);
    let mut part = HlrPart::closed();
    let none = asked_without(alloc, &mut handle);
    let codes = [
        hlr_lend(alloc, &mut handle, 1, &mut part),
        hlr_tape_snapshot(alloc, &mut handle, 7),
        hlr_home(alloc, &mut part),
        hlr_back(alloc, &mut handle, 1),
        snapshot(alloc, &mut handle, &mut file),
        hlr_lend(alloc, &mut handle, 1, &mut part),
        hlr_back(alloc, &mut handle, 1),
        hlr_tape_open(alloc, &mut handle, 7, &file.bytes, 2, 4),
        end(alloc, &mut handle, &mut file),
        hlr_lend(alloc, &mut handle, 1, &mut part),
        hlr_home(alloc, &mut part),
    ];
    let_go(&rt, part);
    closed(&rt, alloc, handle);
    assert_eq!(rt;
        (none, codes),
        (
            [NO_JOURNAL; 6],
            [
                DONE, AWAY, DONE, DONE, DONE, JOURNALED, DONE, STILL_OPEN, DONE, DONE, DONE
            ]
        )
    );
    Ok(())
}

#[test]
fn a_sync_that_fails(rt: HostRuntime) -> Result<(), Fail> {
    let alloc = rt.alloc();
    let mut file = TestFile::blank(alloc)?;
    let mut next = TestFile::blank(alloc)?;
    let mut handle = opened(&rt, alloc, 2, 4);
    let added = filled(alloc, &mut handle);
    let begun = snapshot(alloc, &mut handle, &mut file);
    // nothing can be written from here on
    file.is_broken = true;
    let mut bytes = 99;
    let failed = [
        sync(alloc, &mut handle, &mut file),
        hlr_update_location(alloc, &mut handle, 77, 9),
        sync(alloc, &mut handle, &mut file),
        hlr_update_location(alloc, &mut handle, 77, 10),
        hlr_update_location(alloc, &mut handle, u64::MAX, 10),
        sync(alloc, &mut handle, &mut file),
        hlr_tape_made(alloc, &mut handle, 1),
        hlr_tape_end(alloc, &mut handle),
        hlr_unsynced(alloc, &mut handle, &mut bytes),
    ];
    let mut found = NO_ROW;
    let again = [
        snapshot(alloc, &mut handle, &mut next),
        hlr_update_location(alloc, &mut handle, 700, 11),
        sync(alloc, &mut handle, &mut next),
        hlr_close(alloc, &mut handle),
        journal(alloc, &mut handle, &mut next, 1, 1),
        hlr_subscriber_data(alloc, &mut handle, 7, &mut found),
    ];
    closed(&rt, alloc, handle);
    assert_eq!(rt;
        (added, begun, failed, bytes),
        (
            [DONE; 5],
            DONE,
            [
                DONE, DONE, FAILED, FAILED, FAILED, FAILED, FAILED, FAILED, FAILED
            ],
            99
        )
    );
    assert_eq!(rt; (again, found), ([DONE; 6], row(7, 77, 9)));
    Ok(())
}

// The journal of before is the register's again, unless a line was written since.
#[test]
fn a_snapshot_that_fails(rt: HostRuntime) -> Result<(), Fail> {
    let alloc = rt.alloc();
    let mut file = TestFile::blank(alloc)?;
    let mut broken = TestFile::blank(alloc)?;
    broken.is_broken = true;
    let mut handle = opened(&rt, alloc, 2, 4);
    let mut found = NO_ROW;
    let added = filled(alloc, &mut handle);
    let kept = [
        snapshot(alloc, &mut handle, &mut file),
        hlr_update_location(alloc, &mut handle, 77, 9),
        snapshot(alloc, &mut handle, &mut broken),
        hlr_set_number(alloc, &mut handle, 7, 78),
        sync(alloc, &mut handle, &mut file),
        hlr_tape_snapshot(alloc, &mut handle, 8),
        hlr_update_location(alloc, &mut handle, 78, 10),
        hlr_tape_made(alloc, &mut handle, 0),
        hlr_update_location(alloc, &mut handle, 78, 11),
        hlr_close(alloc, &mut handle),
    ];
    let back = [
        journal(alloc, &mut handle, &mut file, 1, 1),
        hlr_subscriber_data(alloc, &mut handle, 7, &mut found),
    ];
    closed(&rt, alloc, handle);
    assert_eq!(rt;
        (added, kept),
        (
            [DONE; 5],
            [
                DONE, DONE, FAILED, DONE, DONE, DONE, DONE, FAILED, FAILED, DONE
            ]
        )
    );
    assert_eq!(rt; (back, found), ([DONE; 2], row(7, 78, 9)));
    Ok(())
}

const NO_FACILITY: HlrFacility = HlrFacility {
    s_id: 0,
    sf_type: 0,
    is_active: 0,
    error_cntrl: 0,
    data_a: 0,
    data_b: [0; 5],
};

const NO_FORWARDING: HlrForwardingRow = HlrForwardingRow {
    s_id: 0,
    sf_type: 0,
    start_time: 0,
    end_time: 0,
    numberx: 0,
};

/// Whether two registers have the same rows in each table, of 40 subscribers.
fn are_alike(alloc: Global, one: &mut Hlr, other: &mut Hlr) -> [bool; 4] {
    let (mut rows, mut same_rows) = ([NO_ROW; 48], [NO_ROW; 48]);
    let (mut accesses, mut same_accesses) = ([NO_ACCESS; 168], [NO_ACCESS; 168]);
    let (mut facilities, mut same_facilities) = ([NO_FACILITY; 168], [NO_FACILITY; 168]);
    let (mut forwardings, mut same_forwardings) = ([NO_FORWARDING; 488], [NO_FORWARDING; 488]);
    let mut counts = [99; 8];
    let codes = [
        hlr_next_subscribers(alloc, one, 0, &mut rows, &mut counts[0]),
        hlr_next_subscribers(alloc, other, 0, &mut same_rows, &mut counts[1]),
        hlr_next_accesses(alloc, one, 0, 0, &mut accesses, &mut counts[2]),
        hlr_next_accesses(alloc, other, 0, 0, &mut same_accesses, &mut counts[3]),
        hlr_next_facilities(alloc, one, 0, 0, &mut facilities, &mut counts[4]),
        hlr_next_facilities(alloc, other, 0, 0, &mut same_facilities, &mut counts[5]),
        hlr_next_forwardings(alloc, one, 0, 0, 0, &mut forwardings, &mut counts[6]),
        hlr_next_forwardings(alloc, other, 0, 0, 0, &mut same_forwardings, &mut counts[7]),
    ];
    let are_read = codes == [DONE; 8];
    [
        are_read && counts[0] == counts[1] && rows == same_rows,
        are_read && counts[2] == counts[3] && accesses == same_accesses,
        are_read && counts[4] == counts[5] && facilities == same_facilities,
        are_read && counts[6] == counts[7] && forwardings == same_forwardings,
    ]
}

/// The first of 5,000 drawn events that a register with a journal answers otherwise than one without, or the first
/// sync, one after each 100 events, that isn't done.
fn difference(
    alloc: Global,
    with: &mut Hlr,
    file: &mut TestFile,
    without: &mut Hlr,
) -> Option<u32> {
    let mut draws = Draws::new(1_181_783_497_276_652_981);
    for step in 0..5_000u32 {
        let asked = draws.asked();
        if called(alloc, with, &asked) != called(alloc, without, &asked) {
            return Some(step);
        }
        if step % 100 == 99 && sync(alloc, with, file) != DONE {
            return Some(step);
        }
    }
    None
}

#[test]
fn drawn_events_come_back(rt: HostRuntime) -> Result<(), Fail> {
    let alloc = rt.alloc();
    let mut file = TestFile::blank(alloc)?;
    let mut next = TestFile::blank(alloc)?;
    let mut with = opened(&rt, alloc, 3, 1);
    let mut without = opened(&rt, alloc, 3, 1);
    let mut back = Hlr::closed();
    let begun = snapshot(alloc, &mut with, &mut file);
    let differs = difference(alloc, &mut with, &mut file, &mut without);
    let ended = [
        end(alloc, &mut with, &mut file),
        journal(alloc, &mut back, &mut file, 7, 9),
    ];
    let of_lines = are_alike(alloc, &mut back, &mut without);
    let moved = [
        snapshot(alloc, &mut back, &mut next),
        hlr_close(alloc, &mut back),
        journal(alloc, &mut back, &mut next, 16, 100),
    ];
    let of_snapshot = are_alike(alloc, &mut back, &mut with);
    closed(&rt, alloc, back);
    closed(&rt, alloc, with);
    closed(&rt, alloc, without);
    assert_eq!(rt;
        (begun, differs, ended, moved),
        (DONE, None, [DONE; 2], [DONE; 3])
    );
    assert_eq!(rt; (of_lines, of_snapshot), ([true; 4], [true; 4]));
    Ok(())
}
