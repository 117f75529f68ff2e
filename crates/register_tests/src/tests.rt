//! What no clause says: that registers can be had and asked, what they answer then, and what stands where a growth is
//! refused.
use arrayvec::ArrayVec;
use hlr_core::{Answer, Event, Order, Register, Reply};
use part_table::{Place, Region};
use std::alloc::Global;
use std::process::Abort;
use std::test::Fail;
use tatp_actions::{CELLS, Cells, FIRST_AREA, FIRST_ZONE, RowReply};
use tatp_rows::{Number, Refusal};
pub use tests_common::{
    AWAY, access_row, ask, facility_row, number, opened, published, recounted, recut, row, unposted,
};
use view_board::WORDS;

pub const DONE: Reply = Reply::Rows(RowReply::Done);

pub const MEMORY: Reply = Reply::Refused(Refusal::Memory);

pub const FIELD: Reply = Reply::Refused(Refusal::Field);

pub const NO_SUBSCRIBER: Reply = Reply::Refused(Refusal::NoSubscriber);

pub const NO_NUMBER: Reply = Reply::Refused(Refusal::NoNumber);

pub const NO_ACCESS: Reply = Reply::Refused(Refusal::NoAccess);

pub const NO_FACILITY: Reply = Reply::Refused(Refusal::NoFacility);

pub const NO_FORWARDING: Reply = Reply::Refused(Refusal::NoForwarding);

pub const NO_DESTINATION: Reply = Reply::Refused(Refusal::NoDestination);

pub const EXISTS: Reply = Reply::Refused(Refusal::Exists);

pub const TAKEN: Reply = Reply::Refused(Refusal::NumberTaken);

pub const MOVING: Reply = Reply::Refused(Refusal::Moving);

pub const NO_PART: Reply = Reply::Refused(Refusal::NoPart);

pub const NO_PIECE: Reply = Reply::Refused(Refusal::NoPiece);

pub const OUT_OF_RANGE: Reply = Reply::Refused(Refusal::OutOfRange);

pub const NOT_ADJACENT: Reply = Reply::Refused(Refusal::NotAdjacent);

pub const MANY_PIECES: Reply = Reply::Refused(Refusal::ManyPieces);

pub const MANY_PARTS: Reply = Reply::Refused(Refusal::ManyParts);

/// The limit of a posting of all cells.
pub const ALL_CELLS: u64 = CELLS as u64;

/// The cells of area 1 and of the last area, and of zone 1 and the last zone.
pub const AREA_1: u8 = FIRST_AREA + 1;

pub const LAST_AREA: u8 = FIRST_ZONE - 1;

pub const ZONE_1: u8 = FIRST_ZONE + 1;

pub const LAST_ZONE: u8 = CELLS - 1;

/// What becomes of a list of orders, if all parts are at home.
pub fn ran(register: &mut Register, orders: &[Order]) -> Result<Vec<Answer>, Refusal> {
    if register.all_at_home() {
        register.apply_all(orders)
    } else {
        Err(Refusal::Thread)
    }
}

/// The counts of all cells: so many of each hour, and of the other cells these aren't 0.
fn counts(hour: i64, others: &[(u8, i64)]) -> [i64; CELLS as usize] {
    let mut cells = [0; CELLS as usize];
    cells[..usize::from(FIRST_AREA)].fill(hour);
    for (cell, count) in others {
        if let Some(place) = cells.get_mut(usize::from(*cell)) {
            *place = *count;
        }
    }
    cells
}

/// Whether these are the cells as published, and these what is not posted yet.
pub fn stands(register: &Register, posted: &[(u8, i64)], pending: &[(u8, i64)]) -> bool {
    stands_by_hour(register, (0, posted), (0, pending))
}

/// The same where so many are published, or not posted yet, of each hour.
pub fn stands_by_hour(
    register: &Register,
    posted: (i64, &[(u8, i64)]),
    pending: (i64, &[(u8, i64)]),
) -> bool {
    published(register) == counts(posted.0, posted.1)
        && unposted(register) == counts(pending.0, pending.1)
}

/// What a register shows of its regions, of its words, of a subscriber and of numbers.
#[derive(PartialEq, Drop)]
struct Standing {
    regions: ArrayVec<Region, 32>,
    words: [u64; WORDS],
    published: [i64; CELLS as usize],
    unposted: [i64; CELLS as usize],
    counted: Option<Cells>,
    row: Reply,
    bearer: Option<u32>,
    named: Option<u32>,
    pairs: u64,
}

/// The regions of a register.
fn regions_of(register: &Register) -> ArrayVec<Region, 32> {
    let mut regions = ArrayVec::new();
    for region in register.regions().list() {
        let _full = regions.try_push(*region);
    }
    regions
}

/// Whom a register finds by a number, if there is one.
fn bearer(register: &Register, sub_nbr: Option<Number>) -> Option<u32> {
    register.index().find(sub_nbr?)
}

/// The number of the row that was read.
fn number_read(reply: &Reply) -> Option<Number> {
    match reply {
        Reply::Rows(RowReply::Row(row)) => Some(row.sub_nbr()),
        _ => None,
    }
}

/// The first subscriber of a loose piece.
fn first_of_piece(register: &Register, piece: u64) -> Option<u64> {
    let regions = register.regions();
    for region in regions.list() {
        if matches!(region.place, Place::Piece(n) if u64::from(n) == piece) {
            return Some(u64::from(region.lo));
        }
    }
    None
}

/// The first subscriber of a part.
fn first_of_part(register: &Register, part: u64) -> Option<u64> {
    let regions = register.regions();
    for region in regions.list() {
        if matches!(region.place, Place::Part(p) if u64::from(p) == part) {
            return Some(u64::from(region.lo));
        }
    }
    None
}

/// The subscriber of an event that may want memory, or of a piece or a part the first one, and the number that it
/// names.
fn subject(register: &Register, event: &Event) -> Option<(u64, Option<Number>)> {
    match *event {
        Event::AddSubscriber(row) => Some((u64::from(row.s_id()), Some(row.sub_nbr()))),
        Event::AddAccess(row) => Some((u64::from(row.s_id()), None)),
        Event::AddFacility(row) => Some((u64::from(row.s_id()), None)),
        Event::InsertForwarding { sub_nbr, .. } => {
            let s_id = register.index().find(sub_nbr)?;
            Some((u64::from(s_id), Some(sub_nbr)))
        }
        Event::SetNumber { s_id, sub_nbr } => Some((s_id, Some(sub_nbr))),
        Event::Give { at, .. } => Some((at, None)),
        Event::Take { piece, .. } => Some((first_of_piece(register, piece)?, None)),
        Event::Divide { at, .. } => Some((at, None)),
        Event::Dissolve { part } => Some((first_of_part(register, part)?, None)),
        _ => None,
    }
}

/// The words of a register, where an event has a part come or go; else they aren't looked at.
fn words_around(register: &mut Register, event: &Event) -> [u64; WORDS] {
    match event {
        Event::Divide { .. } | Event::Dissolve { .. } => register.look().words,
        _ => [0; WORDS],
    }
}

/// What a register shows around an event that may want memory: its regions, its words, its cells and their counts, the
/// row of the subscriber and who has its number, who has the number that the event names, and how many numbers there
/// are.
fn shown(register: &mut Register, event: &Event) -> Option<Standing> {
    let (s_id, named) = subject(register, event)?;
    let row = ask(register, read(s_id));
    let own = number_read(&row);
    Some(Standing {
        regions: regions_of(register),
        words: words_around(register, event),
        published: published(register),
        unposted: unposted(register),
        counted: recounted(register),
        row,
        bearer: bearer(register, own),
        named: bearer(register, named),
        pairs: register.index().len(),
    })
}

/// Whether an event is replied to so; where a growth was refused, at the second try, with all as before in between.
pub fn replies_to(register: &mut Register, event: &Event, reply: &Reply) -> bool {
    let before = shown(register, event);
    let answer = ask(register, *event);
    if answer != MEMORY || before.is_none() {
        return answer == *reply;
    }
    shown(register, event) == before && ask(register, *event) == *reply
}

/// The same of values.
pub fn replies(register: &mut Register, event: Event, reply: Reply) -> bool {
    replies_to(register, &event, &reply)
}

/// A read of a subscriber's row.
pub fn read(s_id: u64) -> Event {
    Event::SubscriberData { s_id }
}

/// A change of the location of the subscriber who has a number.
pub fn moved(sub_nbr: Number, vlr_location: u64) -> Event {
    Event::UpdateLocation {
        sub_nbr,
        vlr_location,
    }
}

/// A posting of at most so many cells.
pub fn posting(part: u64, limit: u64) -> Event {
    Event::Post { part, limit }
}

/// Applies events; tells the first that isn't replied to so, if there is one.
pub fn difference(register: &mut Register, events: &[Event], want: &[Reply]) -> Option<usize> {
    for (index, (event, reply)) in events.iter().zip(want).enumerate() {
        if ask(register, *event) != *reply {
            return Some(index);
        }
    }
    None
}

/// Whether a register shows what the list of events left, where its first event added the row or the second did.
fn has_run(register: &Register, second_added: bool) -> bool {
    if second_added {
        stands(
            register,
            &[(FIRST_AREA, 2), (FIRST_ZONE, 1)],
            &[(ZONE_1, 1)],
        )
    } else {
        stands(
            register,
            &[(FIRST_AREA, 1), (LAST_AREA, 1)],
            &[(FIRST_ZONE, 1), (ZONE_1, 1)],
        )
    }
}

/// Carries a list of orders out, and where memory was refused, the same list again, with all as before in between. None
/// where it wasn't as before.
fn run_of(register: &mut Register, orders: &[Order]) -> Option<Result<Vec<Answer>, Refusal>> {
    match ran(register, orders) {
        Err(Refusal::Memory) => {
            if stands(register, &[], &[(FIRST_AREA, 1), (FIRST_ZONE, 1)])
                && ask(register, read(7)) == NO_SUBSCRIBER
            {
                return Some(ran(register, orders));
            }
            None
        }
        all => Some(all),
    }
}

/// A list of orders, and then an empty one.
fn expect_runs(rt: &impl Abort, register: &mut Register) {
    let (first, second) = (
        row(7, 70, 4_294_967_295).expect(rt, "a row"),
        row(7, 71, 1).expect(rt, "a row"),
    );
    let (begun, other, seventy) = (
        row(7, 70, 268_435_456).expect(rt, "a row"),
        row(1, 1, 1).expect(rt, "a row"),
        number(70).expect(rt, "a number"),
    );
    let orders = [
        Order::Event(Event::AddSubscriber(begun)),
        Order::Event(Event::AddSubscriber(second)),
        Order::Event(moved(seventy, 4_294_967_295)),
        Order::Event(posting(0, 2)),
        Order::Event(read(7)),
        Order::Event(posting(3, 2)),
        Order::Recut(ArrayVec::new()),
    ];
    let stands_beside = replies(register, Event::AddSubscriber(other), DONE);
    let Some(Ok(all)) = run_of(register, &orders) else {
        panic!(rt; "no answers, or not as before")
    };
    // Where the first event was refused memory, the second adds its row.
    let second_added = all.first() == Some(&Answer::Reply(MEMORY));
    let stood = stands_beside && has_run(register, second_added);
    let there = Reply::Rows(RowReply::Row(if second_added { second } else { first }));
    let (added, again, changed) = if second_added {
        (MEMORY, DONE, NO_NUMBER)
    } else {
        (DONE, EXISTS, DONE)
    };
    let want = [
        Answer::Reply(added),
        Answer::Reply(again),
        Answer::Reply(changed),
        Answer::Reply(Reply::Posted(2)),
        Answer::Reply(there),
        Answer::Reply(NO_PART),
        Answer::Recut(Ok(0)),
    ];
    let Ok(none) = ran(register, &[]) else {
        panic!(rt; "no answers to an empty list")
    };
    let stands_still = none.is_empty() && has_run(register, second_added);
    assert_eq!(rt;
        (all.as_slice(), stood, stands_still),
        (want.as_slice(), true, true)
    );
}

// Also run with each allocation refused in turn (`refuse_memory.sh`).
#[test]
fn runs_each_refused(rt: HostRuntime) {
    let mut register = opened(rt.alloc(), 1, 4).expect(&rt, "a register");
    expect_runs(&rt, &mut register);
    drop(register);
}

/// Asserts that the subscribers 1 to `count` are added. Their numbers rise with them, so that the rows and the index
/// split at the same ones.
fn expect_additions(rt: &impl Abort, register: &mut Register, count: u64) -> Result<(), Refusal> {
    let mut added = 0u64;
    for s_id in 1..count.saturating_add(1) {
        let row = row(s_id, s_id.saturating_mul(10), 1)?;
        added = added.wrapping_add(u64::from(replies(register, Event::AddSubscriber(row), DONE)));
    }
    assert_eq!(rt; (added, register.index().len()), (count, count));
    Ok(())
}

/// Asserts that subscriber 1, whose number is the first, gets one after all others.
fn expect_renamed(rt: &impl Abort, register: &mut Register) -> Result<(), Refusal> {
    let (first, last) = (number(10)?, number(999_999_999_999_999)?);
    let renamed = Event::SetNumber {
        s_id: 1,
        sub_nbr: last,
    };
    let pairs = register.index().len();
    let row = Reply::Rows(RowReply::Row(row(1, 999_999_999_999_999, 1)?));
    let done = replies(register, renamed, DONE) && replies(register, read(1), row);
    let index = register.index();
    let found = (done, index.len(), index.find(first), index.find(last));
    assert_eq!(rt; found, (true, pairs, None, Some(1)));
    Ok(())
}

// A full leaf has 32 rows, and leaves 16 behind where the rows rise: with 32 rows the root is a full leaf, with 48 the
// last leaf is full and the root above it isn't, and with 528 both are. Also run with each allocation refused.
#[test]
fn additions_at_split_each_refused(rt: HostRuntime) -> Result<(), Fail> {
    let mut register = opened(rt.alloc(), 1, 4)?;
    let added = expect_additions(&rt, &mut register, 560);
    drop(register);
    Ok(added?)
}

/// Asserts the same where the index has so many numbers, and splits.
fn expect_renamed_at(rt: &impl Abort, alloc: Global, count: u64) -> Result<(), Refusal> {
    let mut register = opened(alloc, 1, 4)?;
    let added = expect_additions(rt, &mut register, count);
    let renamed = added.and_then(|_| expect_renamed(rt, &mut register));
    drop(register);
    renamed
}

// Also run with each allocation refused.
#[test]
fn renamings_at_split_each_refused(rt: HostRuntime) -> Result<(), Fail> {
    for count in [32, 48, 528] {
        expect_renamed_at(&rt, rt.alloc(), count)?;
    }
    Ok(())
}

/// What the facility of type 2 of subscriber 7 forwards to by 8 o'clock.
fn asked() -> Event {
    Event::NewDestination {
        s_id: 7,
        sf_type: 2,
        start_time: 8,
        end_time: 1,
    }
}

/// A forwarding of the facility of type 2 of whoever has a number, from 8 o'clock on.
fn forwarded(sub_nbr: Number, numberx: Number) -> Event {
    Event::InsertForwarding {
        sub_nbr,
        sf_type: 2,
        start_time: 8,
        end_time: 16,
        numberx,
    }
}

/// Additions to subscriber 7 with the number 7, and reads of them; the first that isn't replied to so, if there is one.
fn added_differs(rt: &impl Abort, register: &mut Register) -> Option<usize> {
    let (seven, hundred) = (
        number(7).expect(rt, "a number"),
        number(100).expect(rt, "a number"),
    );
    let access = access_row(7, 1, 3).expect(rt, "a row");
    let found = RowReply::AccessRow {
        data1: 3,
        data2: 4,
        data3: access.data3(),
        data4: access.data4(),
    };
    let read = Event::AccessData {
        s_id: 7,
        ai_type: 1,
    };
    let mut numbers = ArrayVec::new();
    numbers.push(hundred);
    let numbers = Reply::Rows(RowReply::Numbers(numbers));
    let events = [
        Event::AddSubscriber(row(7, 7, 1).expect(rt, "a row")),
        Event::AddAccess(access),
        Event::AddFacility(facility_row(7, 2, 1).expect(rt, "a row")),
        forwarded(seven, hundred),
        forwarded(seven, hundred),
        read,
        asked(),
    ];
    let want = [DONE, DONE, DONE, DONE, EXISTS, Reply::Rows(found), numbers];
    difference(register, &events, &want)
}

/// The same of changes of those rows.
fn changed_differs(rt: &impl Abort, register: &mut Register) -> Option<usize> {
    let (seven, nine) = (
        number(7).expect(rt, "a number"),
        number(9).expect(rt, "a number"),
    );
    let off = Event::SetActive {
        s_id: 7,
        sf_type: 2,
        is_active: 0,
    };
    let renamed = Event::SetNumber {
        s_id: 7,
        sub_nbr: nine,
    };
    let away = Event::DeleteForwarding {
        sub_nbr: nine,
        sf_type: 2,
        start_time: 8,
    };
    let updated = Event::UpdateSubscriber {
        s_id: 7,
        sf_type: 2,
        bit_1: 0,
        data_a: 255,
    };
    let out_of_range = Event::AccessData {
        s_id: 7,
        ai_type: 256,
    };
    let lost = forwarded(seven, nine);
    let events = [off, asked(), renamed, lost, away, updated, out_of_range];
    let want = [DONE, NO_DESTINATION, DONE, NO_NUMBER, DONE, DONE, FIELD];
    difference(register, &events, &want)
}

#[test]
fn each_event_is_answered(rt: HostRuntime) {
    let mut register = opened(rt.alloc(), 1, 64).expect(&rt, "a register");
    let added = added_differs(&rt, &mut register);
    let changed = changed_differs(&rt, &mut register);
    drop(register);
    assert_eq!(rt; (added, changed), (None, None));
}
