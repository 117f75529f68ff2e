//! Rows by pages, at the borders of parts, of a loose piece, of nodes and of the caller's room, and behind the last
//! key.
use super::lent::let_go;
use super::{NO_ACCESS, NO_REGION, access, closed, facility, filled, opened, row};
use crate::changes::{hlr_add_subscriber, hlr_insert_forwarding};
use crate::codes::{AWAY, DONE, NOT_OPEN};
use crate::handle::Hlr;
use crate::lending::{hlr_home, hlr_lend};
use crate::opening::hlr_open;
use crate::pages::{
    hlr_next_accesses, hlr_next_facilities, hlr_next_forwardings, hlr_next_subscribers, hlr_width,
};
use crate::part::HlrPart;
use crate::parts::hlr_give;
use crate::rows::{HlrFacility, HlrForwardingRow, HlrSubscriber};
use std::alloc::Global;
use std::test::Fail;

/// What a place has that no call wrote.
const OTHER_ROW: HlrSubscriber = HlrSubscriber {
    s_id: 999,
    sub_nbr: 0,
    bits: [0; 10],
    hexes: [0; 10],
    bytes: [0; 10],
    msc_location: 0,
    vlr_location: 0,
};

/// Subscribers 1 to 40: 16 of them in part 0, the last 8 in a loose piece, and the others in part 1. How many calls
/// were done.
fn forty(alloc: Global, handle: &mut Hlr) -> u64 {
    let mut done = 0u64;
    for turn in 0..40u64 {
        let code = hlr_add_subscriber(alloc, handle, &row(40 - turn, turn, 1));
        done = done.wrapping_add(u64::from(code == DONE));
    }
    let mut given = NO_REGION;
    let code = hlr_give(alloc, handle, 1, 1, 33, &mut given);
    done.wrapping_add(u64::from(code == DONE))
}

/// A page in the first places of forty, so many of which are passed: whether it was done, tells so many rows, and has
/// those from a subscriber on in as many places, and in the others what was there before.
fn is_page(alloc: Global, handle: &mut Hlr, from: u64, room: usize, first: u64, want: u64) -> bool {
    let mut rows = [OTHER_ROW; 42];
    let mut count = 99;
    let code = match rows.get_mut(..room) {
        Some(places) => hlr_next_subscribers(alloc, handle, from, places, &mut count),
        None => AWAY,
    };
    let mut as_wanted = code == DONE && count == want;
    let places = &rows[..];
    for place in 0..42u64 {
        let s_id = if place < want {
            first.wrapping_add(place)
        } else {
            999
        };
        let found = &places[place as usize];
        as_wanted = as_wanted && found.s_id == s_id;
    }
    as_wanted
}

/// Where a page begins, its room, the first row of it, and how many it has.
const PAGES: [(u64, usize, u64, u64); 16] = [
    (0, 0, 0, 0),
    (0, 1, 1, 1),
    (1, 31, 1, 31),
    (1, 32, 1, 32),
    (1, 33, 1, 33),
    (1, 40, 1, 40),
    (1, 42, 1, 40),
    (16, 1, 16, 1),
    (16, 2, 16, 2),
    (17, 16, 17, 16),
    (17, 17, 17, 17),
    (32, 2, 32, 2),
    (33, 42, 33, 8),
    (40, 1, 40, 1),
    (41, 42, 0, 0),
    (u64::MAX, 42, 0, 0),
];

#[test]
fn subscribers(rt: HostRuntime) -> Result<(), Fail> {
    let alloc = rt.alloc();
    let mut handle = opened(&rt, alloc, 2, 1);
    let done = forty(alloc, &mut handle);
    let mut right = 0u64;
    for (from, room, first, want) in PAGES {
        let is_right = is_page(alloc, &mut handle, from, room, first, want);
        right = right.wrapping_add(u64::from(is_right));
    }
    closed(&rt, alloc, handle);
    assert_eq!(rt; (done, right), (41, 16));
    Ok(())
}

const NO_FACILITY: HlrFacility = HlrFacility {
    s_id: 0,
    sf_type: 0,
    is_active: 0,
    error_cntrl: 0,
    data_a: 0,
    data_b: [0; 5],
};

const NO_FORWARDING: HlrForwardingRow = HlrForwardingRow {
    s_id: 0,
    sf_type: 0,
    start_time: 0,
    end_time: 0,
    numberx: 0,
};

/// A Call_Forwarding row of the facility that `filled` adds.
fn forwarding(start_time: u64, end_time: u64, numberx: u64) -> HlrForwardingRow {
    HlrForwardingRow {
        s_id: 7,
        sf_type: 2,
        start_time,
        end_time,
        numberx,
    }
}

#[test]
fn other_tables(rt: HostRuntime) -> Result<(), Fail> {
    let alloc = rt.alloc();
    let mut handle = opened(&rt, alloc, 2, 4);
    let added = filled(alloc, &mut handle);
    let later = hlr_insert_forwarding(alloc, &mut handle, 77, 2, 16, 20, 101);
    let mut accesses = [NO_ACCESS; 2];
    let mut facilities = [NO_FACILITY; 2];
    let mut forwardings = [NO_FORWARDING; 3];
    let (mut counts, mut ends) = ([9; 3], [9; 3]);
    let codes = [
        hlr_next_accesses(alloc, &mut handle, 7, 3, &mut accesses, &mut counts[0]),
        hlr_next_facilities(
            alloc,
            &mut handle,
            6,
            u64::MAX,
            &mut facilities,
            &mut counts[1],
        ),
        hlr_next_forwardings(
            alloc,
            &mut handle,
            7,
            2,
            1,
            &mut forwardings,
            &mut counts[2],
        ),
        hlr_next_accesses(alloc, &mut handle, 7, 4, &mut accesses, &mut ends[0]),
        hlr_next_facilities(alloc, &mut handle, 7, 3, &mut facilities, &mut ends[1]),
        hlr_next_forwardings(alloc, &mut handle, 7, 2, 17, &mut forwardings, &mut ends[2]),
    ];
    closed(&rt, alloc, handle);
    assert_eq!(rt;
        (added, later, codes, counts, ends),
        ([DONE; 5], DONE, [DONE; 6], [1, 1, 2], [0; 3])
    );
    assert_eq!(rt;
        (accesses, facilities),
        (
            [access(7, 3, 200), NO_ACCESS],
            [facility(7, 2, 1), NO_FACILITY]
        )
    );
    assert_eq!(rt;
        forwardings,
        [
            forwarding(8, 16, 100),
            forwarding(16, 20, 101),
            NO_FORWARDING
        ]
    );
    Ok(())
}

/// A page of each table in turn, and the width: their codes.
fn asked(alloc: Global, handle: &mut Hlr) -> [u8; 5] {
    let (mut count, mut width) = (0, 0);
    [
        hlr_next_subscribers(alloc, handle, 1, &mut [OTHER_ROW; 1], &mut count),
        hlr_next_accesses(alloc, handle, 1, 1, &mut [NO_ACCESS; 1], &mut count),
        hlr_next_facilities(alloc, handle, 1, 1, &mut [NO_FACILITY; 1], &mut count),
        hlr_next_forwardings(alloc, handle, 1, 1, 0, &mut [NO_FORWARDING; 1], &mut count),
        hlr_width(alloc, handle, &mut width),
    ]
}

#[test]
fn parts_out(rt: HostRuntime) -> Result<(), Fail> {
    let alloc = rt.alloc();
    let mut handle = Hlr::closed();
    let mut part = HlrPart::closed();
    let mut width = 0;
    let before = asked(alloc, &mut handle);
    let codes = [
        hlr_open(alloc, 2, 4, &mut handle),
        hlr_lend(alloc, &mut handle, 1, &mut part),
    ];
    let out = asked(alloc, &mut handle);
    let told = hlr_width(alloc, &mut handle, &mut width);
    let home = hlr_home(alloc, &mut part);
    let_go(&rt, part);
    closed(&rt, alloc, handle);
    assert_eq!(rt;
        (before, codes, out),
        ([NOT_OPEN; 5], [DONE; 2], [AWAY, AWAY, AWAY, AWAY, DONE])
    );
    assert_eq!(rt; (told, width, home), (DONE, 4, DONE));
    Ok(())
}
