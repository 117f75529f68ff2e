//! Parts that are lent: what each of their calls does where memory is there.
use super::{
    HlrSubscriber, NO_ACCESS, NO_NUMBERS, NO_REGION, NO_ROW, access, closed, facility, filled,
    opened, row,
};
use crate::codes::{AWAY, DONE, ELSEWHERE, NOT_OPEN, STILL_OPEN};
use crate::handle::Hlr;
use crate::lending::{hlr_back, hlr_home, hlr_lend};
use crate::listing::{hlr_facility_data, hlr_find, hlr_forwarding, hlr_next_subscriber};
use crate::many::hlr_subscriber_data_many;
use crate::opening::hlr_close;
use crate::part::HlrPart;
use crate::part_changes::{
    hlr_part_add_access, hlr_part_add_facility, hlr_part_delete_forwarding,
    hlr_part_insert_forwarding, hlr_part_post, hlr_part_set_active, hlr_part_update_location,
    hlr_part_update_subscriber,
};
use crate::part_many::{
    hlr_part_access_data_many, hlr_part_new_destination_many, hlr_part_subscriber_data_many,
};
use crate::part_reads::{
    hlr_part_access_data, hlr_part_new_destination, hlr_part_range, hlr_part_subscriber_data,
};
use crate::parts::{hlr_dissolve, hlr_divide, hlr_give, hlr_recut, hlr_take};
use crate::reads::{hlr_access_data, hlr_subscriber_data};
use crate::reports::{hlr_look, hlr_propose, hlr_regions, hlr_scan, hlr_views};
use crate::rows::{HlrAccess, HlrAccessAsked, HlrDestinationAsked, HlrNumbers};
use hlr_core::CELLS;
use std::alloc::Global;
use std::process::Abort;
use std::test::Fail;

/// Lets go of a part's handle, which is closed.
pub(super) fn let_go(rt: &impl Abort, handle: HlrPart) {
    assert!(rt; !handle.is_open(), "a part is sent home");
    let HlrPart { mark: _, kept } = handle;
    kept.let_go();
}

/// All calls on a part's handle that isn't open.
fn asked_home(alloc: Global, owner: &mut HlrPart) -> [u8; 16] {
    let (mut found, mut data, mut numbers) = (NO_ROW, NO_ACCESS, NO_NUMBERS);
    let (mut lo, mut hi) = (0, 0);
    [
        hlr_home(alloc, owner),
        hlr_part_range(alloc, owner, &mut lo, &mut hi),
        hlr_part_subscriber_data(alloc, owner, 0, &mut found),
        hlr_part_access_data(alloc, owner, 0, 0, &mut data),
        hlr_part_new_destination(alloc, owner, 0, 0, 1, 0, &mut numbers),
        hlr_part_subscriber_data_many(alloc, owner, &[0], &mut [], &mut []),
        hlr_part_access_data_many(alloc, owner, &[], &mut [NO_ACCESS], &mut []),
        hlr_part_new_destination_many(alloc, owner, &[], &mut [], &mut [9]),
        hlr_part_update_subscriber(alloc, owner, 0, 0, 2, 256),
        hlr_part_update_location(alloc, owner, 0, 0),
        hlr_part_insert_forwarding(alloc, owner, 0, 0, 1, 0, u64::MAX),
        hlr_part_delete_forwarding(alloc, owner, 0, 0, 1),
        hlr_part_set_active(alloc, owner, 0, 0, 2),
        hlr_part_add_access(alloc, owner, &NO_ACCESS),
        hlr_part_add_facility(alloc, owner, &facility(0, 0, 2)),
        hlr_part_post(alloc, owner, 1, &mut lo),
    ]
}

#[test]
fn parts_of_closed_handles(rt: HostRuntime) -> Result<(), Fail> {
    let alloc = rt.alloc();
    let mut handle = opened(&rt, alloc, 2, 4);
    let mut owner = HlrPart::closed();
    let before = asked_home(alloc, &mut owner);
    let codes = [
        hlr_lend(alloc, &mut handle, 0, &mut owner),
        hlr_lend(alloc, &mut handle, 1, &mut owner),
        hlr_back(alloc, &mut handle, 0),
        hlr_close(alloc, &mut handle),
        hlr_lend(alloc, &mut handle, 1, &mut owner),
        hlr_back(alloc, &mut handle, 0),
        hlr_home(alloc, &mut owner),
    ];
    let after = asked_home(alloc, &mut owner);
    let opened_again = crate::opening::hlr_open(alloc, 1, 1, &mut handle);
    closed(&rt, alloc, handle);
    let_go(&rt, owner);
    assert!(rt;
        before == [NOT_OPEN; 16] && after == [NOT_OPEN; 16],
        "a closed handle says so"
    );
    assert_eq!(rt;
        (codes, opened_again),
        (
            [DONE, STILL_OPEN, AWAY, DONE, NOT_OPEN, NOT_OPEN, DONE],
            DONE
        )
    );
    Ok(())
}

/// What the owner of the first part does to subscriber 7, and what it refuses: the codes of the calls.
fn work(alloc: Global, owner: &mut HlrPart) -> [u8; 12] {
    let (mut found, mut data, mut numbers) = (NO_ROW, NO_ACCESS, NO_NUMBERS);
    let mut posted = 0;
    [
        hlr_part_add_access(alloc, owner, &access(7, 4, 1)),
        hlr_part_add_facility(alloc, owner, &facility(7, 3, 0)),
        hlr_part_set_active(alloc, owner, 7, 3, 1),
        hlr_part_insert_forwarding(alloc, owner, 7, 3, 0, 24, 5),
        hlr_part_delete_forwarding(alloc, owner, 7, 2, 8),
        hlr_part_update_subscriber(alloc, owner, 7, 3, 0, 9),
        hlr_part_update_location(alloc, owner, 7, 1),
        hlr_part_new_destination(alloc, owner, 7, 3, 8, 9, &mut numbers),
        hlr_part_access_data(alloc, owner, 7, 4, &mut data),
        hlr_part_subscriber_data(alloc, owner, 65, &mut found),
        hlr_part_access_data(alloc, owner, 65, 5, &mut data),
        hlr_part_post(alloc, owner, 72, &mut posted),
    ]
}

/// What the calls for many answer of the first part, which has subscriber 7, and where they are handed too few codes;
/// then the code of each question, the first row that is read, the first access and the first numbers.
fn many_of_part(
    alloc: Global,
    owner: &mut HlrPart,
) -> (
    [u8; 6],
    [[u8; 3]; 3],
    (HlrSubscriber, HlrAccess, HlrNumbers),
) {
    let (mut rows, mut data, mut numbers) = ([NO_ROW; 3], [NO_ACCESS; 3], [NO_NUMBERS; 3]);
    let mut codes = [[9; 3]; 3];
    let s_ids = [7, 70, 0];
    let accesses = [asked(7, 4), asked(70, 4), asked(7, 5)];
    let calls = [calling(7, 8), calling(70, 8), calling(7, 9)];
    let done = [
        hlr_part_subscriber_data_many(alloc, owner, &s_ids, &mut rows, &mut codes[0]),
        hlr_part_access_data_many(alloc, owner, &accesses, &mut data, &mut codes[1]),
        hlr_part_new_destination_many(alloc, owner, &calls, &mut numbers, &mut codes[2]),
        hlr_part_subscriber_data_many(alloc, owner, &s_ids, &mut rows, &mut [9; 2]),
        hlr_part_access_data_many(alloc, owner, &accesses, &mut data, &mut [9; 2]),
        hlr_part_new_destination_many(alloc, owner, &calls, &mut numbers, &mut [9; 2]),
    ];
    (done, codes, (rows[0], data[0], numbers[0]))
}

/// A question for an access.
fn asked(s_id: u64, ai_type: u64) -> HlrAccessAsked {
    HlrAccessAsked { s_id, ai_type }
}

/// A question for the numbers of facility 3 at an hour.
fn calling(s_id: u64, start_time: u64) -> HlrDestinationAsked {
    HlrDestinationAsked {
        s_id,
        sf_type: 3,
        start_time,
        end_time: 9,
    }
}

/// What a register answers that has its first part out: the codes of calls that work on that part, and of others.
fn asked_while_out(alloc: Global, handle: &mut Hlr) -> ([u8; 8], [u8; 6]) {
    let (mut found, mut data) = (NO_ROW, facility(0, 0, 0));
    let (mut bounds, mut regions) = (super::NO_BOUNDS, super::NO_REGIONS);
    let (mut left, mut right) = ([9; CELLS as usize], [9; CELLS as usize]);
    let mut counted = [9; CELLS as usize];
    let (mut end, mut number) = (0, 0);
    let away = [
        hlr_facility_data(alloc, handle, 7, 2, &mut data),
        hlr_forwarding(alloc, handle, 7, 2, 8, &mut end, &mut number),
        hlr_next_subscriber(alloc, handle, 66, &mut found),
        hlr_recut(alloc, handle, &super::from_nine(1), &mut number),
        hlr_views(alloc, handle, &mut left, &mut right),
        hlr_scan(alloc, handle, &mut counted),
        hlr_propose(alloc, handle, &mut bounds),
        hlr_back(alloc, handle, 0),
    ];
    let known = [
        hlr_find(alloc, handle, 77, &mut number),
        hlr_regions(alloc, handle, &mut regions),
        hlr_look(alloc, handle, &mut left),
        hlr_facility_data(alloc, handle, 7, 5, &mut data),
        hlr_forwarding(alloc, handle, 7, 2, 7, &mut end, &mut number),
        hlr_back(alloc, handle, 2),
    ];
    (away, known)
}

/// What is answered to moves between parts while the first part is out, also of the piece that the second one gives.
fn moved_while_out(alloc: Global, handle: &mut Hlr) -> [u8; 11] {
    let mut region = NO_REGION;
    [
        hlr_divide(alloc, handle, 0, 5, &mut region),
        hlr_divide(alloc, handle, 0, 1, &mut region),
        hlr_dissolve(alloc, handle, 1, &mut region),
        hlr_dissolve(alloc, handle, 2, &mut region),
        hlr_dissolve(alloc, handle, 0, &mut region),
        hlr_give(alloc, handle, 0, 1, 5, &mut region),
        hlr_give(alloc, handle, 0, 1, 65, &mut region),
        hlr_take(alloc, handle, 1, 0),
        hlr_give(alloc, handle, 1, 0, 66, &mut region),
        hlr_take(alloc, handle, 1, 0),
        hlr_take(alloc, handle, 1, 1),
    ]
}

/// What the call for many subscribers answers of one of the first part, one of the second, and none, and where it is
/// handed too few codes; then the code of each, and the rows.
fn many_while_out(alloc: Global, handle: &mut Hlr) -> ([u8; 2], [u8; 3], [HlrSubscriber; 3]) {
    let (mut rows, mut codes) = ([NO_ROW; 3], [9; 3]);
    let done = [
        hlr_subscriber_data_many(alloc, handle, &[7, 70, 0], &mut rows, &mut codes),
        hlr_subscriber_data_many(alloc, handle, &[7, 70, 0], &mut rows, &mut [9; 2]),
    ];
    (done, codes, rows)
}

#[test]
fn part_is_lent(rt: HostRuntime) -> Result<(), Fail> {
    let alloc = rt.alloc();
    let mut handle = opened(&rt, alloc, 2, 4);
    let mut owner = HlrPart::closed();
    let added = filled(alloc, &mut handle);
    let lent = hlr_lend(alloc, &mut handle, 0, &mut owner);
    let (mut lo, mut hi, mut found, mut data) = (0, 0, NO_ROW, NO_ACCESS);
    let mut published = [9; CELLS as usize];
    let range = hlr_part_range(alloc, &mut owner, &mut lo, &mut hi);
    let worked = work(alloc, &mut owner);
    let (asked, told, first) = many_of_part(alloc, &mut owner);
    let (away, known) = asked_while_out(alloc, &mut handle);
    let (done, each, rows) = many_while_out(alloc, &mut handle);
    let moves = moved_while_out(alloc, &mut handle);
    let codes = [
        hlr_look(alloc, &mut handle, &mut published),
        hlr_home(alloc, &mut owner),
        hlr_back(alloc, &mut handle, 0),
        hlr_back(alloc, &mut handle, 0),
        hlr_subscriber_data(alloc, &mut handle, 7, &mut found),
        hlr_access_data(alloc, &mut handle, 7, 4, &mut data),
    ];
    closed(&rt, alloc, handle);
    let_go(&rt, owner);
    let moved = HlrSubscriber {
        bits: [0, 0, 1, 1, 0, 0, 0, 1, 0, 1],
        ..row(7, 77, 1)
    };
    let mut want = [0; CELLS as usize];
    want[..25].fill(1);
    want[41] = 6;
    assert_eq!(rt;
        (added, lent, range, lo, hi),
        ([DONE; 5], DONE, DONE, 1, 65)
    );
    assert_eq!(rt;
        worked,
        [
            DONE, DONE, DONE, DONE, DONE, DONE, DONE, DONE, DONE, ELSEWHERE, 2, DONE
        ]
    );
    assert!(rt; away == [AWAY; 8] && known == [DONE, DONE, DONE, 2, 2, 12]);
    assert_eq!(rt;
        (asked, told),
        ([DONE, DONE, DONE, 2, 2, 2], [[DONE, ELSEWHERE, 2]; 3])
    );
    assert!(rt; first.0 == moved && first.1 == access(7, 4, 1) && first.2.numbers == [5, 0, 0]);
    assert_eq!(rt; (done, each), ([DONE, 2], [AWAY, DONE, 2]));
    assert_eq!(rt;
        moves,
        [AWAY, 14, AWAY, 12, 15, AWAY, 14, 13, DONE, AWAY, DONE]
    );
    assert!(rt; rows == [NO_ROW, row(70, 700, 1), NO_ROW]);
    assert!(rt; codes == [DONE; 6] && found == moved && data == access(7, 4, 1));
    assert!(rt; published == want, "the cells are those of the board");
    Ok(())
}
