//! What no clause says: that each call can succeed, what it answers then, and what is answered where a growth is
//! refused. A part or a table is opened in one function with one exit, and lent to the helpers that ask it.
ghost use Rattle.tatp_rows.specs.Keys.{facility_key};
ghost use Rattle.tatp_actions.specs.Tables.{IsKeyed};

pub(crate) mod makers;
mod steps;

use super::*;
use crate::plain::PlainRows;
use crate::recount::Tally;
use crate::revisions::{SetDataA, SwapLocation};
use group_tree::GroupTree;
use makers::{access, facility, fill, forwarding, subscriber};
use row_groups::Facilities;
use std::process::Abort;
use steps::{
    ANSWERS, Answer, Ask, FULL, HOURS, LAST_AREA, LAST_ZONE, MOVES, ROWS, action_of, notes_of,
    reply_of,
};
use tatp_rows::{Access, Back, Facility, Forwarding, Refusal, Subscriber};

/// What an action answers and notes, and how often it asks the rows.
pub(crate) fn act<R: Rows>(
    rt: &impl Abort,
    part: &mut Part<R>,
    action: &Action,
) -> (RowReply, Change, u64) {
    let s_id = action.s_id();
    assert!(rt; part.lo <= s_id && s_id < part.hi);
    let before = part.asked();
    let (reply, change) = part.act(*action);
    (reply, change, part.asked().wrapping_sub(before))
}

/// Asserts that an action answers so, notes so, and asks its rows at most eight times.
fn expect<R: Rows>(
    rt: &impl Abort,
    part: &mut Part<R>,
    action: &Action,
    reply: RowReply,
    notes: &[(u8, i8)],
) {
    let (answer, change, asked) = act(rt, part, action);
    assert_eq!(rt;
        (action, &answer, change.notes().as_slice(), asked <= 8),
        (action, &reply, notes, true)
    );
}

/// Asserts what a subscriber's steps answer and note, one after another.
fn expect_each<R: Rows>(rt: &impl Abort, part: &mut Part<R>, s_id: u32, steps: &[(Ask, Answer)]) {
    for (ask, answer) in steps {
        let action = action_of(rt, s_id, ask);
        let (reply, notes) = (reply_of(rt, s_id, answer), notes_of(answer));
        expect(rt, part, &action, reply, notes.as_slice());
    }
}

/// Whether a row is added, with these notes; else a growth was refused, and no cell moves.
fn is_added(rt: &impl Abort, part: &mut Part, row: Subscriber, notes: &[(u8, i8)]) -> bool {
    let (reply, change, _) = act(rt, part, &Action::AddSubscriber(row));
    let refused = reply == RowReply::Refused(Refusal::Memory);
    let known = refused || reply == RowReply::Done;
    let wanted = if refused { &[] } else { notes };
    assert_eq!(rt; (known, change.notes().as_slice()), (true, wanted));
    !refused
}

/// Asserts that a row is added with these notes: where a growth was refused, at the second try, with the part as before
/// in between.
fn expect_added(rt: &impl Abort, part: &mut Part, row: Subscriber, notes: &[(u8, i8)]) {
    let before = part.recount();
    if !is_added(rt, part, row, notes) {
        assert!(rt; part.recount() == before);
        assert!(rt; part.subscriber(row.s_id()).is_none());
        assert!(rt; is_added(rt, part, row, notes));
    }
}

/// Asserts the same of so many first subscribers, where a zone has so many of them.
pub(crate) fn expect_all_added(rt: &impl Abort, part: &mut Part, count: u8, width: u8) {
    for before in 0..count {
        let zone = before.checked_div(width).unwrap_or(0);
        let row = subscriber(rt, u64::from(before) + 1, 1);
        let notes = [(FIRST_AREA, 1), (FIRST_ZONE.wrapping_add(zone), 1)];
        expect_added(rt, part, row, &notes);
    }
}

/// The counts of the cells, one after another.
pub(crate) fn counts_of(cells: &Cells) -> [u64; CELLS as usize] {
    let mut counts = [0; CELLS as usize];
    for cell in 0..CELLS {
        counts[usize::from(cell)] = cells.get(cell);
    }
    counts
}

/// The first row that a part finds from a subscriber on.
fn first_from(part: &Part, s_id: u64) -> Option<Subscriber> {
    part.first_sub_from(s_id).copied()
}

/// Asserts what a part of all subscribers counts and finds, where it has these rows: two at its start, and the last
/// one.
fn expect_counts(
    rt: &impl Abort,
    part: &Part,
    first: Subscriber,
    second: Subscriber,
    last: Subscriber,
) {
    let found = [
        first_from(part, 0),
        first_from(part, 1),
        first_from(part, 2),
        first_from(part, 3),
        first_from(part, 16_777_216),
        first_from(part, 16_777_217),
        first_from(part, u64::MAX),
    ];
    let wanted = [
        Some(first),
        Some(first),
        Some(second),
        Some(last),
        Some(last),
        None,
        None,
    ];
    let mut counts = [0; CELLS as usize];
    counts[usize::from(FIRST_AREA)] = 1;
    counts[usize::from(FIRST_AREA) + 1] = 1;
    counts[usize::from(LAST_AREA)] = 1;
    counts[usize::from(FIRST_ZONE)] = 2;
    counts[usize::from(LAST_ZONE)] = 1;
    assert_eq!(rt; (counts_of(&part.recount()), found), (counts, wanted));
}

/// Asserts that a new part has its range and width, and nothing else.
fn expect_empty(rt: &impl Abort, part: &Part) {
    let range = (part.lo(), part.hi(), part.width());
    let none = part.first_sub_from(0).is_none();
    assert_eq!(rt;
        (range, part.asked(), part.recount(), none),
        ((1, 16_777_217, 524_288), 0, Cells::zero(), true)
    );
}

#[test]
fn actions(rt: HostRuntime) {
    let first = subscriber(&rt, 1, 5);
    let second = subscriber(&rt, 2, 268_435_456);
    let last = subscriber(&rt, 16_777_216, 4_294_967_295);
    let mut part = Part::new(rt.alloc(), 1, 16_777_217, 524_288).expect(&rt, "a part");
    expect_empty(&rt, &part);
    expect_added(&rt, &mut part, first, &[(FIRST_AREA, 1), (FIRST_ZONE, 1)]);
    expect_added(&rt, &mut part, last, &[(LAST_AREA, 1), (LAST_ZONE, 1)]);
    expect_added(
        &rt,
        &mut part,
        second,
        &[(FIRST_AREA + 1, 1), (FIRST_ZONE, 1)],
    );
    expect_counts(&rt, &part, first, second, last);
    expect_each(&rt, &mut part, 1, &MOVES);
    drop(part);
}

/// Asserts that a hundred subscribers are added, of which 32 fit the root of their tree, and more want nodes.
fn expect_hundred(rt: &impl Abort, part: &mut Part) {
    expect_all_added(rt, part, 100, 10);
    assert_eq!(rt; part.recount().get(FIRST_AREA), 100);
}

// Also run with each allocation refused in turn (`refuse_memory.sh`).
#[test]
fn nodes_each_refused(rt: HostRuntime) {
    let mut part = Part::new(rt.alloc(), 1, 101, 10).expect(&rt, "a part");
    expect_hundred(&rt, &mut part);
    drop(part);
}

// Rows with room for one in each table refuse a second one, and nothing else.
#[test]
fn other_rows(rt: HostRuntime) {
    let one = PlainRows::new(rt.alloc(), 1);
    let mut part = Part::over(rt.alloc(), one, 1, 10, 4);
    expect_each(
        &rt,
        &mut part,
        1,
        &[(
            Ask::AddRow,
            Answer::Done(&[(FIRST_AREA, 1), (FIRST_ZONE, 1)]),
        )],
    );
    expect_each(&rt, &mut part, 2, &FULL);
    expect_each(&rt, &mut part, 1, &MOVES);
    drop(part);
}

/// Asserts what the actions on subscriber 7 answer that has its facility and forwardings.
fn expect_answers<R: Rows>(rt: &impl Abort, part: &mut Part<R>) {
    expect_each(rt, part, 7, &ANSWERS);
    let wanted = facility(rt, 7, 2, 1).with_data_a(255);
    assert!(rt; part.facility(7, 2) == Some(wanted));
}

// The rows were there before the part: an action that walked over a table would have to ask them more often.
#[test]
fn answers_of_vectors(rt: HostRuntime) {
    let mut rows = PlainRows::new(rt.alloc(), 3);
    fill(&rt, &mut rows);
    let mut part = Part::over(rt.alloc(), rows, 1, 10, 4);
    expect_answers(&rt, &mut part);
    drop(part);
}

#[test]
fn answers_of_trees(rt: HostRuntime) {
    let mut part = Part::new(rt.alloc(), 1, 10, 4).expect(&rt, "a part");
    expect_each(&rt, &mut part, 7, &ROWS);
    expect_answers(&rt, &mut part);
    drop(part);
}

#[test]
fn hours_of_forwardings(rt: HostRuntime) {
    let mut part = Part::new(rt.alloc(), 1, 10, 4).expect(&rt, "a part");
    expect_each(&rt, &mut part, 7, &HOURS);
    drop(part);
}

/// What rows answer of a Special_Facility row, seen through the bound alone.
fn keeps_facility<R: Rows>(rows: &mut R, row: Facility) -> bool
    requires { IsKeyed facility_key (R.tables rows.old).facilities }
{
    let key = row.key();
    let mut data = SetDataA { data_a: 255 };
    let mut kept = rows.replace_f(row) == Err(row);
    kept &= !rows.revise_f(key, &mut data);
    kept &= rows.insert_f(row).is_ok();
    kept &= rows.insert_f(row).is_err();
    kept &= rows.get_f(key) == Some(row);
    kept &= rows.revise_f(key, &mut data);
    kept &= rows.replace_f(row) == Ok(row.with_data_a(255));
    kept &= rows.remove_f(key) == Some(row);
    kept &= rows.get_f(key).is_none();
    kept &= rows.asked() == 9;
    kept
}

/// The same of a Subscriber row.
fn keeps_subscriber<R: Rows>(rows: &mut R, first: Subscriber, second: Subscriber) -> bool {
    let key = first.key();
    let again = Back {
        why: Refusal::Exists,
        item: second,
    };
    let mut location = SwapLocation::to(11);
    let mut kept = rows.get_s(key).is_none();
    kept &= !rows.revise_s(key, &mut location);
    kept &= rows.replace_s(key, first) == Err(first);
    kept &= rows.insert_s(key, first).is_ok();
    kept &= rows.insert_s(key, second) == Err(again);
    kept &= rows.get_s(key).copied() == Some(first);
    kept &= rows.revise_s(key, &mut location) && location.location() == first.vlr_location();
    kept &= rows.replace_s(key, second) == Ok(first.with_vlr_location(11));
    kept &= rows.remove_s(key) == Some(second);
    kept &= rows.remove_s(key).is_none();
    kept &= rows.asked() == 19;
    kept
}

/// The same of an Access_Info row, which they keep by its key.
fn keeps_access<R: Rows>(rows: &mut R, row: Access) -> bool {
    let key = row.key();
    let mut kept = rows.replace_a(row) == Err(row);
    kept &= rows.insert_a(row).is_ok();
    kept &= rows.insert_a(row).is_err();
    kept &= rows.get_a(key) == Some(row);
    kept &= rows.replace_a(row) == Ok(row);
    kept &= rows.remove_a(key) == Some(row);
    kept &= rows.get_a(key).is_none();
    kept &= rows.asked() == 26;
    kept
}

/// The same of a Call_Forwarding row.
fn keeps_forwarding<R: Rows>(rows: &mut R, row: Forwarding) -> bool {
    let key = row.key();
    let mut kept = rows.replace_c(row) == Err(row);
    kept &= rows.insert_c(row).is_ok();
    kept &= rows.insert_c(row).is_err();
    kept &= rows.get_c(key) == Some(row);
    kept &= rows.replace_c(row) == Ok(row);
    kept &= rows.remove_c(key) == Some(row);
    kept &= rows.get_c(key).is_none();
    kept &= rows.asked() == 33;
    kept
}

#[test]
fn rows_by_their_bound(rt: HostRuntime) {
    let first = subscriber(&rt, 1, 5);
    let mut trees = Trees::new(rt.alloc()).expect(&rt, "trees");
    let kept = [
        keeps_facility(&mut trees, facility(&rt, 7, 2, 1)),
        keeps_subscriber(&mut trees, first, first.with_vlr_location(9)),
        keeps_access(&mut trees, access(&rt, 7, 4)),
        keeps_forwarding(&mut trees, forwarding(&rt, 7, 2, 8, 16)),
    ];
    drop(trees);
    assert_eq!(rt; kept, [true; 4]);
}

/// The counts of the hours 7 and 8 and of zone 1.
fn counts_seen(cells: &Cells) -> (u64, u64, u64) {
    (cells.get(7), cells.get(8), cells.get(FIRST_ZONE + 1))
}

/// How a forwarding of subscriber 7 counts by zones of 4, once and twice.
fn counted_twice(
    facilities: &GroupTree<Facility, Facilities>,
    row: &Forwarding,
) -> [(u64, u64, u64); 2] {
    let mut tally = Tally::zero(facilities, 4);
    tally.count_forwarding(row);
    let once = tally.cells();
    tally.count_forwarding(row);
    [counts_seen(&once), counts_seen(&tally.cells())]
}

/// How rows of subscriber 7 count by zones of 4: a forwarding without its facility, with it, and with an idle one, and
/// at last an access, and a facility too.
fn counted(
    facilities: &mut GroupTree<Facility, Facilities>,
    access: &Access,
    facility: Facility,
    forwarding: &Forwarding,
) -> [[(u64, u64, u64); 2]; 4] {
    let none = counted_twice(facilities, forwarding);
    let _ = facilities.insert(facility);
    let active = counted_twice(facilities, forwarding);
    let _ = facilities.replace(facility.with_is_active(false));
    let idle = counted_twice(facilities, forwarding);
    let mut tally = Tally::zero(facilities, 4);
    tally.count_row(access.s_id());
    let one = tally.cells();
    tally.count_row(facility.s_id());
    let rows = [counts_seen(&one), counts_seen(&tally.cells())];
    [none, active, idle, rows]
}

#[test]
fn counted_rows(rt: HostRuntime) {
    let (access, facility) = (access(&rt, 7, 4), facility(&rt, 7, 2, 1));
    let forwarding = forwarding(&rt, 7, 2, 8, 16);
    let mut facilities = GroupTree::new(rt.alloc()).expect(&rt, "a tree");
    let seen = counted(&mut facilities, &access, facility, &forwarding);
    drop(facilities);
    let mut one = Cells::zero();
    one.count_one(FIRST_ZONE);
    assert_eq!(rt;
        (seen, one.get(FIRST_ZONE), Change::none().notes().len()),
        (
            [
                [(0, 0, 1), (0, 0, 2)],
                [(0, 1, 1), (0, 2, 2)],
                [(0, 0, 1), (0, 0, 2)],
                [(0, 0, 1), (0, 0, 2)]
            ],
            1,
            0
        )
    );
}
