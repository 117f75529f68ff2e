//! What no clause says: that each call is done where memory is there, and which refusal comes of several; the calls
//! beside a register's own replies, on drawn events (`drawn`).
use crate::changes::{
    hlr_add_access, hlr_add_facility, hlr_add_subscriber, hlr_delete_forwarding,
    hlr_insert_forwarding, hlr_set_active, hlr_set_number, hlr_update_location,
    hlr_update_subscriber,
};
use crate::codes::{DONE, NOT_OPEN, STILL_OPEN};
use crate::handle::Hlr;
use crate::opened::Opened;
use crate::opening::{hlr_close, hlr_open};
use crate::parts::{hlr_dissolve, hlr_divide, hlr_give, hlr_post, hlr_recut, hlr_take};
use crate::reads::{hlr_access_data, hlr_new_destination, hlr_subscriber_data};
use crate::reports::{hlr_propose, hlr_regions, hlr_scan, hlr_views};
use crate::rows::{
    HlrAccess, HlrBounds, HlrFacility, HlrNumbers, HlrRegion, HlrRegions, HlrSubscriber,
};
use hlr_core::{CELLS, LIMIT, Refusal, Register, WORDS};
use hlr_lent::Lender;
use std::alloc::Global;
use std::process::Abort;
use std::test::Fail;

mod drawn;
mod drawn_lending;
mod journals;
mod lent;
mod pages;

const NO_ROW: HlrSubscriber = HlrSubscriber {
    s_id: 0,
    sub_nbr: 0,
    bits: [0; 10],
    hexes: [0; 10],
    bytes: [0; 10],
    msc_location: 0,
    vlr_location: 0,
};

const NO_ACCESS: HlrAccess = HlrAccess {
    s_id: 0,
    ai_type: 0,
    data1: 0,
    data2: 0,
    data3: [0; 3],
    data4: [0; 5],
};

const NO_NUMBERS: HlrNumbers = HlrNumbers {
    count: 0,
    numbers: [0; 3],
};

const NO_REGION: HlrRegion = HlrRegion {
    lo: 0,
    hi: 0,
    is_piece: 0,
    number: 0,
};

const NO_REGIONS: HlrRegions = HlrRegions {
    count: 0,
    regions: [NO_REGION; 32],
};

const NO_BOUNDS: HlrBounds = HlrBounds {
    count: 0,
    bounds: [0; 15],
};

/// A Subscriber row. No two of its fields, and of the next rows' but their keys, are alike.
fn row(s_id: u64, sub_nbr: u64, vlr_location: u64) -> HlrSubscriber {
    HlrSubscriber {
        s_id,
        sub_nbr,
        bits: [1, 0, 1, 1, 0, 0, 0, 1, 0, 1],
        hexes: [15, 0, 14, 3, 9, 4, 7, 12, 6, 8],
        bytes: [255, 0, 128, 16, 99, 200, 5, 64, 33, 254],
        msc_location: 4_294_967_294,
        vlr_location,
    }
}

/// An Access_Info row.
fn access(s_id: u64, ai_type: u64, data1: u64) -> HlrAccess {
    HlrAccess {
        s_id,
        ai_type,
        data1,
        data2: 4,
        data3: *b"ABC",
        data4: *b"VWXYZ",
    }
}

/// A Special_Facility row.
fn facility(s_id: u64, sf_type: u64, is_active: u64) -> HlrFacility {
    HlrFacility {
        s_id,
        sf_type,
        is_active,
        error_cntrl: 203,
        data_a: 14,
        data_b: *b"FGHIJ",
    }
}

/// A handle with an empty register of so many parts.
fn opened(rt: &impl Abort, alloc: Global, parts: u64, width: u64) -> Hlr {
    let mut handle = Hlr::closed();
    let code = hlr_open(alloc, parts, width, &mut handle);
    assert!(rt; code == DONE, "a register is opened");
    handle
}

/// Closes a handle, and lets go of it.
fn closed(rt: &impl Abort, alloc: Global, mut handle: Hlr) {
    let code = hlr_close(alloc, &mut handle);
    assert!(rt; code == DONE && !handle.is_open(), "a register is closed");
    let Hlr { mark: _, kept } = handle;
    kept.let_go();
}

/// Two subscribers of two parts, an access and an active facility of the first with a forwarding from 8 to 16 o'clock:
/// the codes of the calls.
fn filled(alloc: Global, handle: &mut Hlr) -> [u8; 5] {
    [
        hlr_add_subscriber(alloc, handle, &row(7, 77, 268_435_456)),
        hlr_add_subscriber(alloc, handle, &row(70, 700, 1)),
        hlr_add_access(alloc, handle, &access(7, 3, 200)),
        hlr_add_facility(alloc, handle, &facility(7, 2, 1)),
        hlr_insert_forwarding(alloc, handle, 77, 2, 8, 16, 100),
    ]
}

#[test]
fn reads(rt: HostRuntime) -> Result<(), Fail> {
    let alloc = rt.alloc();
    let mut handle = opened(&rt, alloc, 2, 4);
    let added = filled(alloc, &mut handle);
    let mut found = NO_ROW;
    let mut data = NO_ACCESS;
    let mut numbers = NO_NUMBERS;
    let codes = [
        hlr_subscriber_data(alloc, &mut handle, 7, &mut found),
        hlr_access_data(alloc, &mut handle, 7, 3, &mut data),
        hlr_new_destination(alloc, &mut handle, 7, 2, 8, 15, &mut numbers),
    ];
    closed(&rt, alloc, handle);
    assert_eq!(rt;
        (added, codes, found),
        ([DONE; 5], [DONE; 3], row(7, 77, 268_435_456))
    );
    assert_eq!(rt;
        (data, numbers.count, numbers.numbers),
        (access(7, 3, 200), 1, [100, 0, 0])
    );
    Ok(())
}

#[test]
fn changes(rt: HostRuntime) -> Result<(), Fail> {
    let alloc = rt.alloc();
    let mut handle = opened(&rt, alloc, 2, 4);
    let added = filled(alloc, &mut handle);
    let mut found = NO_ROW;
    let mut numbers = NO_NUMBERS;
    let codes = [
        hlr_update_subscriber(alloc, &mut handle, 7, 2, 0, 9),
        hlr_update_location(alloc, &mut handle, 77, 4_294_967_295),
        hlr_set_number(alloc, &mut handle, 7, 78),
        hlr_subscriber_data(alloc, &mut handle, 7, &mut found),
        hlr_set_active(alloc, &mut handle, 7, 2, 0),
        hlr_new_destination(alloc, &mut handle, 7, 2, 8, 15, &mut numbers),
        hlr_set_active(alloc, &mut handle, 7, 2, 1),
        hlr_delete_forwarding(alloc, &mut handle, 78, 2, 8),
        hlr_new_destination(alloc, &mut handle, 7, 2, 8, 15, &mut numbers),
    ];
    closed(&rt, alloc, handle);
    let want = HlrSubscriber {
        bits: [0, 0, 1, 1, 0, 0, 0, 1, 0, 1],
        ..row(7, 78, 4_294_967_295)
    };
    assert_eq!(rt;
        (added, codes),
        ([DONE; 5], [DONE, DONE, DONE, DONE, DONE, 8, DONE, DONE, 8])
    );
    assert_eq!(rt; (found, numbers), (want, NO_NUMBERS));
    Ok(())
}

#[test]
fn moves(rt: HostRuntime) -> Result<(), Fail> {
    let alloc = rt.alloc();
    let mut handle = opened(&rt, alloc, 2, 4);
    let added = filled(alloc, &mut handle);
    let mut posted = 99;
    let mut given = NO_REGION;
    let mut regions = NO_REGIONS;
    let codes = [
        hlr_post(alloc, &mut handle, 0, 2, &mut posted),
        hlr_give(alloc, &mut handle, 0, 1, 5, &mut given),
        hlr_regions(alloc, &mut handle, &mut regions),
        hlr_take(alloc, &mut handle, 1, 1),
    ];
    closed(&rt, alloc, handle);
    let piece = HlrRegion {
        lo: 5,
        hi: 65,
        is_piece: 1,
        number: 1,
    };
    assert_eq!(rt;
        (added, codes, posted, given),
        ([DONE; 5], [DONE; 4], 2, piece)
    );
    assert_eq!(rt;
        (regions.count, regions.regions[1], regions.regions[2].number),
        (3, piece, 1)
    );
    Ok(())
}

/// So many bounds, the first of which is 9.
fn from_nine(count: u64) -> HlrBounds {
    let mut bounds = [0; 15];
    bounds[0] = 9;
    HlrBounds { count, bounds }
}

#[test]
fn recuts(rt: HostRuntime) -> Result<(), Fail> {
    let alloc = rt.alloc();
    let mut handle = opened(&rt, alloc, 2, 4);
    let added = filled(alloc, &mut handle);
    let mut bounds = NO_BOUNDS;
    let mut given = NO_REGION;
    let (mut left, mut moved) = (99, 99);
    let codes = [
        hlr_propose(alloc, &mut handle, &mut bounds),
        hlr_recut(alloc, &mut handle, &from_nine(0), &mut left),
        hlr_recut(alloc, &mut handle, &from_nine(2), &mut left),
        hlr_recut(alloc, &mut handle, &from_nine(16), &mut left),
        hlr_give(alloc, &mut handle, 0, 1, 5, &mut given),
        hlr_recut(alloc, &mut handle, &from_nine(1), &mut left),
        hlr_take(alloc, &mut handle, 1, 1),
        hlr_recut(alloc, &mut handle, &from_nine(1), &mut moved),
    ];
    closed(&rt, alloc, handle);
    assert_eq!(rt;
        (added, codes),
        ([DONE; 5], [DONE, 2, 2, 2, DONE, 11, DONE, DONE])
    );
    assert_eq!(rt; (bounds.count, left, moved), (1, 99, 1));
    Ok(())
}

/// A handle with an empty register of two parts in which nobody can raise the words of cell 41 of part 0.
fn opened_worn(alloc: Global) -> Result<Hlr, Refusal> {
    let mut words = [0; WORDS];
    words[41] = LIMIT;
    words[usize::from(CELLS) + 41] = LIMIT;
    let lender = Lender::of(Register::open_from(alloc, 2, 4, &words)?);
    let opened = Opened {
        lender,
        journal: None,
    };
    let opened = Box::new(alloc, opened)?;
    let mut handle = Hlr::closed();
    handle.put(opened);
    Ok(handle)
}

#[test]
fn worn_words(rt: HostRuntime) -> Result<(), Fail> {
    let alloc = rt.alloc();
    let Ok(mut handle) = opened_worn(alloc) else {
        panic!(rt; "a register is opened")
    };
    let added = filled(alloc, &mut handle);
    let (mut posted, mut left) = (99, 99);
    let codes = [
        hlr_post(alloc, &mut handle, 0, 9, &mut posted),
        hlr_post(alloc, &mut handle, 0, 72, &mut left),
    ];
    closed(&rt, alloc, handle);
    // the eight hours and the area are posted, and the zone can't be
    assert_eq!(rt;
        (added, codes, posted, left),
        ([DONE; 5], [DONE, 17], 9, 99)
    );
    Ok(())
}

/// A part gives so many pieces away, each of its last subscriber: how many of the calls were done, and the code of one
/// more.
fn gives(alloc: Global, handle: &mut Hlr, count: u64) -> (u64, u8) {
    let mut given = NO_REGION;
    let mut done = 0u64;
    for turn in 0..count {
        let code = hlr_give(alloc, handle, 0, 1, 64 - turn % 64, &mut given);
        done = done.wrapping_add(u64::from(code == DONE));
    }
    (done, hlr_give(alloc, handle, 0, 1, 2, &mut given))
}

#[test]
fn sixteen_pieces(rt: HostRuntime) -> Result<(), Fail> {
    let alloc = rt.alloc();
    let mut handle = opened(&rt, alloc, 2, 4);
    let given = gives(alloc, &mut handle, 16);
    let mut regions = NO_REGIONS;
    let code = hlr_regions(alloc, &mut handle, &mut regions);
    closed(&rt, alloc, handle);
    assert_eq!(rt;
        (given, code, regions.count, regions.regions[17].lo),
        ((16, 16), DONE, 18, 65)
    );
    Ok(())
}

/// A part's region.
fn part(number: u64, lo: u64, hi: u64) -> HlrRegion {
    HlrRegion {
        lo,
        hi,
        is_piece: 0,
        number,
    }
}

#[test]
fn parts_come_and_go(rt: HostRuntime) -> Result<(), Fail> {
    let alloc = rt.alloc();
    let mut handle = opened(&rt, alloc, 1, 4);
    let added = filled(alloc, &mut handle);
    let mut posted = 0;
    let (mut made, mut front, mut left) = (NO_REGION, NO_REGION, NO_REGION);
    let (mut published, mut unposted) = ([9; CELLS as usize], [9; CELLS as usize]);
    let codes = [
        hlr_divide(alloc, &mut handle, 0, 5, &mut made),
        hlr_post(alloc, &mut handle, 1, 72, &mut posted),
        hlr_dissolve(alloc, &mut handle, 1, &mut front),
        hlr_views(alloc, &mut handle, &mut published, &mut unposted),
        hlr_divide(alloc, &mut handle, 0, 1, &mut left),
        hlr_divide(alloc, &mut handle, 1, 9, &mut left),
        hlr_dissolve(alloc, &mut handle, 1, &mut left),
        hlr_dissolve(alloc, &mut handle, 0, &mut left),
    ];
    closed(&rt, alloc, handle);
    assert_eq!(rt;
        (added, codes, left),
        (
            [DONE; 5],
            [DONE, DONE, DONE, DONE, 14, 12, 12, 15],
            NO_REGION
        )
    );
    assert_eq!(rt;
        (made, front),
        (part(1, 5, 16_777_217), part(0, 1, 16_777_217))
    );
    // what the new part had published is taken back, and pending with the one that has its rows
    assert!(rt;
        published == [0; CELLS as usize] && unposted[25] == 1 && unposted[41] == 4,
        "the cells are taken back"
    );
    Ok(())
}

#[test]
fn counts(rt: HostRuntime) -> Result<(), Fail> {
    let alloc = rt.alloc();
    let mut handle = opened(&rt, alloc, 2, 4);
    let added = filled(alloc, &mut handle);
    let mut published = [9; CELLS as usize];
    let mut unposted = [9; CELLS as usize];
    let mut counted = [9; CELLS as usize];
    let mut posted = 0;
    let codes = [
        hlr_post(alloc, &mut handle, 0, 9, &mut posted),
        hlr_views(alloc, &mut handle, &mut published, &mut unposted),
        hlr_scan(alloc, &mut handle, &mut counted),
    ];
    closed(&rt, alloc, handle);
    let mut want_published = [0; CELLS as usize];
    want_published[8..16].fill(1);
    want_published[25] = 1;
    let mut want_unposted = [0; CELLS as usize];
    want_unposted[24] = 1;
    want_unposted[41] = 4;
    want_unposted[57] = 1;
    let mut want_counted = [0u64; CELLS as usize];
    want_counted[8..16].fill(1);
    want_counted[24] = 1;
    want_counted[25] = 1;
    want_counted[41] = 4;
    want_counted[57] = 1;
    assert_eq!(rt; (added, codes, posted), ([DONE; 5], [DONE; 3], 9));
    assert!(rt;
        published == want_published && unposted == want_unposted && counted == want_counted,
        "the cells are counted"
    );
    Ok(())
}

/// Each call on a closed handle, but for `hlr_open`: its codes; what it was to write stays.
fn asked_closed(alloc: Global, handle: &mut Hlr) -> [u8; 23] {
    let (mut found, mut data, mut numbers) = (NO_ROW, NO_ACCESS, NO_NUMBERS);
    let (mut given, mut regions, mut bounds) = (NO_REGION, NO_REGIONS, NO_BOUNDS);
    let (mut published, mut unposted) = ([0; CELLS as usize], [0; CELLS as usize]);
    let (mut counted, mut number) = ([0; CELLS as usize], 0);
    [
        hlr_close(alloc, handle),
        hlr_subscriber_data(alloc, handle, 0, &mut found),
        hlr_access_data(alloc, handle, 0, 0, &mut data),
        hlr_new_destination(alloc, handle, 0, 0, 1, 0, &mut numbers),
        hlr_update_subscriber(alloc, handle, 0, 0, 2, 256),
        hlr_update_location(alloc, handle, u64::MAX, 0),
        hlr_insert_forwarding(alloc, handle, u64::MAX, 0, 1, 0, u64::MAX),
        hlr_delete_forwarding(alloc, handle, u64::MAX, 0, 1),
        hlr_add_subscriber(alloc, handle, &NO_ROW),
        hlr_add_access(alloc, handle, &NO_ACCESS),
        hlr_add_facility(alloc, handle, &facility(0, 0, 2)),
        hlr_set_active(alloc, handle, 0, 0, 2),
        hlr_set_number(alloc, handle, 0, u64::MAX),
        hlr_post(alloc, handle, 99, 0, &mut number),
        hlr_give(alloc, handle, 99, 2, 0, &mut given),
        hlr_take(alloc, handle, 0, 99),
        hlr_divide(alloc, handle, 99, 0, &mut given),
        hlr_dissolve(alloc, handle, 99, &mut given),
        hlr_recut(alloc, handle, &NO_BOUNDS, &mut number),
        hlr_views(alloc, handle, &mut published, &mut unposted),
        hlr_scan(alloc, handle, &mut counted),
        hlr_regions(alloc, handle, &mut regions),
        hlr_propose(alloc, handle, &mut bounds),
    ]
}

#[test]
fn closed_handles(rt: HostRuntime) -> Result<(), Fail> {
    let alloc = rt.alloc();
    let mut handle = Hlr::closed();
    let refused = [
        hlr_open(alloc, 0, 4, &mut handle),
        hlr_open(alloc, 17, 4, &mut handle),
        hlr_open(alloc, 257, 4, &mut handle),
        hlr_open(alloc, 1, 0, &mut handle),
        hlr_open(alloc, 1, 524_289, &mut handle),
        hlr_open(alloc, 1, 4_294_967_297, &mut handle),
    ];
    let before = asked_closed(alloc, &mut handle);
    let codes = [
        hlr_open(alloc, 16, 524_288, &mut handle),
        hlr_open(alloc, 0, 0, &mut handle),
        hlr_close(alloc, &mut handle),
    ];
    let after = asked_closed(alloc, &mut handle);
    let opened_again = hlr_open(alloc, 1, 1, &mut handle);
    closed(&rt, alloc, handle);
    assert_eq!(rt;
        (refused, codes, opened_again),
        ([2; 6], [DONE, STILL_OPEN, DONE], DONE)
    );
    assert!(rt;
        before == [NOT_OPEN; 23] && after == [NOT_OPEN; 23],
        "a closed handle says so"
    );
    Ok(())
}
