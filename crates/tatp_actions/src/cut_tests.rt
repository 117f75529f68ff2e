//! Parts that are cut in two and joined again, beside the plain program, which isn't cut.

use crate::plain::PlainRows;
use crate::plain_tests::draws::after;
use crate::plain_tests::tally::Tally;
use crate::plain_tests::{expect_same_book, expect_same_rows, expect_turn, expect_turns};
use crate::tests::makers::subscriber;
use crate::tests::{act, counts_of, expect_all_added};
use crate::{Action, CELLS, Cells, Part, RowReply};
use part_table::Side;
use std::process::Abort;
use tatp_rows::Refusal;

/// The half that a part gives; where memory was refused, at the second try, with the part as before in between.
fn sliced(rt: &impl Abort, part: &mut Part, at: u32, side: Side) -> Part {
    assert!(rt; part.lo < at && at < part.hi);
    let before = part.recount();
    match part.slice(at, side) {
        Ok(given) => given,
        Err(why) => {
            assert_eq!(rt; (why, part.recount()), (Refusal::Memory, before));
            part.slice(at, side).expect(rt, "memory")
        }
    }
}

/// Joins a part to another one; where memory was refused, hands that one back, with both as before.
fn try_meld(rt: &impl Abort, part: &mut Part, other: Part) -> Option<Part> {
    assert!(rt; part.width() == other.width());
    assert!(rt; part.hi == other.lo || other.hi == part.lo);
    let before = [part.recount(), other.recount()];
    match part.meld(other) {
        Ok(()) => None,
        Err(back) => {
            let now = [part.recount(), back.item.recount()];
            assert_eq!(rt; (back.why, now), (Refusal::Memory, before));
            Some(back.item)
        }
    }
}

/// Joins a part to another one; where memory was refused, at the second try.
fn meld(rt: &impl Abort, part: &mut Part, other: Part) {
    if let Some(other) = try_meld(rt, part, other) {
        let again = try_meld(rt, part, other);
        let done = again.is_none();
        drop(again);
        assert!(rt; done);
    }
}

/// The first subscriber that a part finds from one on.
fn first_from(part: &Part, s_id: u32) -> Option<u32> {
    let row = part.first_sub_from(u64::from(s_id))?;
    Some(row.s_id())
}

/// The counts of two parts together.
fn counts_of_both(low: &Part, high: &Part) -> [u64; CELLS as usize] {
    let (below, from) = (low.recount(), high.recount());
    let mut both = [0u64; CELLS as usize];
    for cell in 0..CELLS {
        both[usize::from(cell)] = below.get(cell).wrapping_add(from.get(cell));
    }
    both
}

/// Asserts that two halves that were cut at a subscriber count together what the whole part counted, and that each
/// finds its own subscribers alone.
fn expect_counts(rt: &impl Abort, low: &Part, high: &Part, at: u32, whole: &Cells) {
    let found = [first_from(low, 0), first_from(low, at), first_from(high, 0)];
    let both = counts_of_both(low, high);
    assert_eq!(rt;
        (both, found, low.hi, high.lo),
        (counts_of(whole), [Some(1), None, Some(at)], at, at)
    );
}

/// Asserts that each of two halves has the rows of its subscribers that the plain part has.
fn expect_rows(
    rt: &impl Abort,
    low: &mut Part,
    high: &mut Part,
    at: u32,
    plain: &mut Part<PlainRows>,
) {
    for s_id in 1..at {
        expect_same_rows(rt, low, plain, s_id);
    }
    for s_id in at..41 {
        expect_same_rows(rt, high, plain, s_id);
    }
}

/// Subscriber `s_id`, moved to a location.
fn moved(s_id: u32, vlr_location: u32) -> Action {
    Action::UpdateLocation { s_id, vlr_location }
}

/// Asserts what two halves are that were cut at a subscriber, and that both act.
fn expect_halves(
    rt: &impl Abort,
    low: &mut Part,
    high: &mut Part,
    at: u32,
    plain: &mut Part<PlainRows>,
    tally: &mut Tally,
    whole: &Cells,
) {
    expect_counts(rt, low, high, at, whole);
    expect_rows(rt, low, high, at, plain);
    expect_turn(rt, low, plain, tally, &moved(1, at));
    expect_turn(rt, high, plain, tally, &moved(at, u32::MAX - at));
}

/// How high the four trees of a part are.
fn heights(part: &Part) -> [u64; 4] {
    let rows = &part.rows;
    [
        rows.subscribers.height(),
        rows.access.height(),
        rows.facilities.height(),
        rows.forwardings.height(),
    ]
}

/// The most steps that a slice of trees of these heights may take.
fn slice_bound(heights: [u64; 4]) -> u64 {
    let mut most = 0u64;
    for height in heights {
        let levels = height.saturating_add(1);
        most = most.saturating_add(levels.saturating_mul(levels).saturating_mul(64));
    }
    most
}

/// The most steps that a meld of trees of these heights may take.
fn meld_bound(heights: [u64; 4], others: [u64; 4]) -> u64 {
    let mut most = 0u64;
    for table in 0..4usize {
        let apart = heights[table].abs_diff(others[table]);
        most = most.saturating_add(apart.saturating_add(1).saturating_mul(16));
    }
    most
}

/// Cuts a part in two at a subscriber, in no more steps than the heights of the trees allow.
fn cut(rt: &impl Abort, part: &mut Part, at: u32, side: Side) -> Part {
    let most = slice_bound(heights(part));
    let given = sliced(rt, part, at, side);
    let within = (48..=most).contains(&part.last_steps());
    assert_eq!(rt; (given.asked(), given.last_steps(), within), (0, 0, true));
    given
}

/// Joins a part to its other half, in no more steps than the heights of the trees allow.
fn join(rt: &impl Abort, part: &mut Part, given: Part) {
    let most = meld_bound(heights(part), heights(&given));
    meld(rt, part, given);
    assert!(rt; (16..=most).contains(&part.last_steps()));
}

/// Cuts a part in two at a subscriber, and joins the halves again.
fn cut_and_joined(
    rt: &impl Abort,
    part: &mut Part,
    at: u32,
    side: Side,
    plain: &mut Part<PlainRows>,
    tally: &mut Tally,
) {
    let whole = part.recount();
    let mut given = cut(rt, part, at, side);
    match side {
        Side::Low => expect_halves(rt, &mut given, part, at, plain, tally, &whole),
        Side::High => expect_halves(rt, part, &mut given, at, plain, tally, &whole),
    }
    join(rt, part, given);
}

/// Asserts that a part that is cut at a drawn subscriber and joined again has the rows of the plain part.
fn expect_cut(
    rt: &impl Abort,
    part: &mut Part,
    plain: &mut Part<PlainRows>,
    tally: &mut Tally,
    seed: u64,
    side: Side,
) {
    let at = ((seed >> 33) % 39) as u32 + 2;
    cut_and_joined(rt, part, at, side, plain, tally);
    assert_eq!(rt; [part.lo, part.hi, plain.lo, plain.hi], [1, 41, 1, 41]);
    expect_same_book(rt, part, plain);
}

/// Asserts that a part that is cut at drawn subscribers has the rows of the plain part throughout.
fn expect_cuts(rt: &impl Abort, part: &mut Part, plain: &mut Part<PlainRows>) {
    let mut tally = Tally::new();
    let mut seed = expect_turns(rt, part, plain, &mut tally, 11, 4_000);
    assert_eq!(rt; heights(part), [1, 1, 1, 1]);
    for _ in 0..15u8 {
        seed = after(seed);
        expect_cut(rt, part, plain, &mut tally, seed, Side::Low);
        seed = after(seed);
        expect_cut(rt, part, plain, &mut tally, seed, Side::High);
    }
}

#[test]
fn drawn_cuts(rt: HostRuntime) {
    let mut part = Part::new(rt.alloc(), 1, 41, 1).expect(&rt, "a part");
    let mut plain = Part::over(rt.alloc(), PlainRows::new(rt.alloc(), 480), 1, 41, 1);
    expect_cuts(&rt, &mut part, &mut plain);
    drop(part);
    drop(plain);
}

/// How many of the first 64 subscribers a part has, each with the row that was added.
fn kept(rt: &impl Abort, part: &mut Part) -> u64 {
    let mut rows = 0u64;
    for s_id in 1..65u32 {
        let row = subscriber(rt, u64::from(s_id), 1);
        rows = rows.wrapping_add(u64::from(part.subscriber(s_id) == Some(row)));
    }
    rows
}

/// Cuts a part off that ends or begins at a subscriber, and joins it again: how many steps each took.
fn steps_of_both(rt: &impl Abort, part: &mut Part, at: u32, side: Side) -> (u64, u64) {
    let given = sliced(rt, part, at, side);
    let cut = part.last_steps();
    meld(rt, part, given);
    (cut, part.last_steps())
}

/// Cuts a part of 33 subscribers, whose tree has the height 1, on both sides, and joins it each time. An empty tree
/// takes three steps to be cut and four to be joined, the other one thirteen and five.
fn expect_two_cuts(rt: &impl Abort, part: &mut Part) {
    expect_all_added(rt, part, 33, 2);
    assert_eq!(rt; heights(part), [1, 0, 0, 0]);
    let _ = steps_of_both(rt, part, 2, Side::Low);
    let range = (part.lo, part.hi);
    let (cut, joined) = steps_of_both(rt, part, 17, Side::High);
    assert_eq!(rt;
        (range, (part.lo, part.hi), (cut, joined), kept(rt, part)),
        ((1, 65), (1, 65), (22, 17), 33)
    );
}

// Also run with each allocation refused in turn (`refuse_memory.sh`).
#[test]
fn cuts_each_refused(rt: HostRuntime) {
    let mut part = Part::new(rt.alloc(), 1, 65, 2).expect(&rt, "a part");
    expect_two_cuts(&rt, &mut part);
    drop(part);
}

/// Adds 1,200 subscribers, the last one first.
fn add_falling(rt: &impl Abort, part: &mut Part) {
    for s_id in (1..1201u32).rev() {
        let row = subscriber(rt, u64::from(s_id), 1);
        let (reply, _change, _asked) = act(rt, part, &Action::AddSubscriber(row));
        assert!(rt; reply == RowReply::Done);
    }
}

/// How high the Subscriber trees of both halves of a part are that is cut at a subscriber, first of the half that
/// stays, and how many steps it took to cut the part and to join it.
fn large_cut(rt: &impl Abort, part: &mut Part, at: u32, side: Side) -> [u64; 4] {
    let given = sliced(rt, part, at, side);
    let heights = [
        part.rows.subscribers.height(),
        given.rows.subscribers.height(),
    ];
    let cut = part.last_steps();
    meld(rt, part, given);
    [heights[0], heights[1], cut, part.last_steps()]
}

/// Cuts a part of 1,200 subscribers, whose tree has the height 2, in the middle and near both ends, and joins it again.
/// Of the steps each of the three empty trees takes three to be cut and four to be joined.
fn expect_large_cuts(rt: &impl Abort, part: &mut Part) {
    add_falling(rt, part);
    let whole = (heights(part), part.recount());
    let cuts = [
        large_cut(rt, part, 601, Side::High),
        large_cut(rt, part, 20, Side::Low),
        large_cut(rt, part, 1190, Side::High),
    ];
    assert_eq!(rt;
        (cuts, whole.0, part.recount() == whole.1),
        (
            [[1, 1, 44, 17], [2, 0, 41, 25], [2, 0, 41, 25]],
            [2, 0, 0, 0],
            true
        )
    );
}

#[test]
fn large_cuts(rt: HostRuntime) {
    let mut part = Part::new(rt.alloc(), 1, 1201, 40).expect(&rt, "a part");
    expect_large_cuts(&rt, &mut part);
    drop(part);
}
