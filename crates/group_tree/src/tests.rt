//! What no clause says: that each call can succeed, and when memory is asked for. Drawn changes are made in a tree and in
//! a plain table of marks, and both are compared row by row and page by page. A tree that was cut and joined again has
//! the rows that it had.
ghost use Rattle.std.specs.Prelude.{◌≡◌};
ghost use Rattle.mr_cut.specs.Bounds.{blanks_for_slice, blanks_for_meld};

use super::*;
use arrayvec::ArrayVec;
use mr_cut::{stock_for_meld, stock_for_slice};
use mr_node::Stock;
use row_groups::{Accesses, Forwardings};
use std::alloc::Global;
use std::process::Abort;
use std::test::*;
use tatp_rows::{Access, Forwarding, Letters, Number, Refusal, row_key, subscriber_key};

/// A mark for each row that there may be, or 0 for none: four accesses for each of 64 subscribers.
type Marks = [[u8; 4]; 64];

/// What a walk over rows saw: how many, the last key, how many keys were not above the one in front, and a sum that is
/// another one in another order.
#[derive(Clone, Copy, Debug, PartialEq)]
struct Walk {
    rows: u64,
    last: u64,
    falls: u64,
    sum: u64,
}

/// A walk that saw nothing yet.
const START: Walk = Walk {
    rows: 0,
    last: 0,
    falls: 0,
    sum: 7,
};

/// A walk that goes on with a row.
fn step(walk: &mut Walk, key: u64, mark: u8) {
    let falls = walk.rows > 0 && key <= walk.last;
    walk.rows = walk.rows.wrapping_add(1);
    walk.last = key;
    walk.falls = walk.falls.wrapping_add(u64::from(falls));
    walk.sum = walk
        .sum
        .wrapping_mul(31)
        .wrapping_add(key ^ u64::from(mark));
}

/// A number drawn by a turn (splitmix).
fn mixed(turn: u64) -> u64 {
    let start = turn.wrapping_mul(0x9E3779B97F4A7C15);
    let first = (start ^ (start >> 30)).wrapping_mul(0xBF58476D1CE4E5B9);
    let second = (first ^ (first >> 27)).wrapping_mul(0x94D049BB133111EB);
    second ^ (second >> 31)
}

/// The key of an access of a subscriber of the table.
fn key_at(s_id: usize, place: usize) -> u64 {
    row_key((s_id % 64) as u32 + 1, (place % 4) as u8 + 1, 0)
}

fn access(s_id: usize, place: usize, mark: u8) -> Result<Access, Refusal> {
    Access::try_new(
        (s_id % 64) as u64 + 1,
        (place % 4) as u64 + 1,
        mark,
        0,
        Letters::default(),
        Letters::default(),
    )
}

/// The walk over all rows of the table from a key on.
fn plain_walk(marks: &Marks, from: u64) -> Walk {
    let mut walk = START;
    for s_id in 0..64_usize {
        for place in 0..4_usize {
            let mark = marks[s_id][place];
            if mark != 0 && from <= key_at(s_id, place) {
                step(&mut walk, key_at(s_id, place), mark);
            }
        }
    }
    walk
}

/// Makes a drawn change in a tree and in the table, and returns whether both answered alike.
fn change(tree: &mut GroupTree<Access, Accesses>, marks: &mut Marks, turn: u64) -> bool {
    let draw = mixed(turn);
    let s_id = (draw % 64) as usize;
    let place = ((draw >> 8) % 4) as usize;
    let mark = ((draw >> 16) % 255) as u8 + 1;
    let Ok(row) = access(s_id, place, mark) else {
        return false;
    };
    let key = key_at(s_id, place);
    let old = marks[s_id][place];
    let found = tree.get(key).map_or(0, |row| row.data1());
    let by_guess = tree.get_by_guess(key, 16).map_or(0, |row| row.data1());
    let done = match (draw >> 32) % 4 {
        0 => tree.remove(key).is_some(),
        1 => tree.replace(row).is_ok(),
        _ => tree.insert(row).is_ok(),
    };
    match ((draw >> 32) % 4, old) {
        (0, _) => marks[s_id][place] = 0,
        (1, 0) => {}
        (1, _) => marks[s_id][place] = mark,
        (_, 0) => marks[s_id][place] = mark,
        _ => {}
    }
    found == old && by_guess == old && done == ((old == 0) == ((draw >> 32) % 4 > 1))
}

/// The walk over all rows of a tree from a key on, page by page. A page has what is left of a leaf, and a leaf has at
/// least 16 groups, so five pages are enough for 64 groups.
fn paged(tree: &GroupTree<Access, Accesses>, from: u64) -> Walk {
    let mut walk = START;
    let mut next = from;
    for _ in 0..5 {
        let mut groups = ArrayVec::new();
        let mut page = ArrayVec::new();
        tree.page_from(next, &mut groups, &mut page);
        for (key, row) in page.as_slice() {
            step(&mut walk, *key, row.data1());
            next = key.saturating_add(1);
        }
    }
    walk
}

/// How many keys there are from which pages and the table differ.
fn wrong_pages(tree: &GroupTree<Access, Accesses>, marks: &Marks) -> u64 {
    let mut wrong = 0_u64;
    for s_id in 0..67_u32 {
        for kind in 0..6_u8 {
            let from = row_key(s_id, kind, 0);
            if paged(tree, from) != plain_walk(marks, from) {
                wrong = wrong.wrapping_add(1);
            }
        }
    }
    wrong
}

#[test]
fn drawn_changes(rt: HostRuntime) {
    let mut tree = GroupTree::new(rt.alloc()).expect(&rt, "memory");
    let mut marks = [[0_u8; 4]; 64];
    let mut wrong = 0_u64;
    for turn in 0..3_000_u64 {
        if !change(&mut tree, &mut marks, turn) {
            wrong = wrong.wrapping_add(1);
        }
    }
    let mut walk = START;
    tree.walk(&mut walk, &|walk, key, row| step(walk, key, row.data1()));
    assert_eq!(rt;
        (wrong, walk, wrong_pages(&tree, &marks)),
        (0, plain_walk(&marks, 0), 0)
    );
    drop(tree);
}

/// The forwardings of so many subscribers, each with those of a drawn pattern, put in by a drawn order; where memory
/// was refused, at the second try.
fn forwardings(
    rt: &impl Abort,
    mut tree: GroupTree<Forwarding, Forwardings>,
    count: u64,
) -> GroupTree<Forwarding, Forwardings> {
    for turn in 0..count.wrapping_mul(6) {
        let draw = mixed(turn);
        let s_id = draw % count.max(1) + 1;
        let number = Number::try_new(draw % 1_000_000).expect(rt, "a number");
        let row = Forwarding::try_new(
            s_id,
            (draw >> 20) % 4 + 1,
            (draw >> 40) % 3 * 8,
            1 + (draw >> 50) % 24,
            number,
        );
        let row = row.expect(rt, "a row");
        if let Err(back) = tree.insert(row)
            && back.why == Refusal::Memory
        {
            assert!(rt; tree.insert(row).is_ok());
        }
    }
    tree
}

/// The blank nodes for a slice; where memory was refused, at the second try.
fn slice_stock(
    rt: &impl Abort,
    alloc: Global,
    tree: &GroupTree<Forwarding, Forwardings>,
) -> Stock<Forwardings>
    ensures { result ≡ blanks_for_slice tree.now.height }
{
    match stock_for_slice(alloc, tree.height()) {
        Ok(stock) => stock,
        Err(_) => stock_for_slice(alloc, tree.height()).expect(rt, "memory"),
    }
}

/// The blank nodes for a meld; where memory was refused, at the second try.
fn meld_stock(
    rt: &impl Abort,
    alloc: Global,
    low: &GroupTree<Forwarding, Forwardings>,
    high: &GroupTree<Forwarding, Forwardings>,
) -> Stock<Forwardings>
    ensures { result ≡ blanks_for_meld low.now.height high.now.height }
{
    match stock_for_meld(alloc, low.height(), high.height()) {
        Ok(stock) => stock,
        Err(_) => stock_for_meld(alloc, low.height(), high.height()).expect(rt, "memory"),
    }
}

/// A walk that goes on over a tree.
fn walked(tree: &GroupTree<Forwarding, Forwardings>, walk: Walk) -> Walk {
    let mut walk = walk;
    tree.walk(
        &mut walk,
        &|walk, key, row| { step(walk, key, row.end_time()) },
    );
    walk
}

// A size that nothing else asks for: where `refuse_memory.sh` refuses all memory, it does so from a piece of it on.
const SIGNAL: usize = 7_654_321;

/// Whether all memory is refused from here on. One refused piece alone doesn't tell.
fn is_all_refused(alloc: Global) -> bool {
    Vec::<u8>::with_capacity(alloc, SIGNAL).is_err()
        && Vec::<u8>::with_capacity(alloc, SIGNAL).is_err()
}

/// Adds the access in a place of a subscriber, and tells why it was refused.
fn refused(tree: &mut GroupTree<Access, Accesses>, s_id: usize, place: usize) -> Option<Refusal> {
    match access(s_id, place, 1) {
        Ok(row) => tree.insert(row).err().map(|back| back.why),
        Err(why) => Some(why),
    }
}

// Run with all memory refused once the tree stands (`refuse_memory.sh`). Then the first row of a group is refused,
// because the root has 32 groups, and a row in front of the others of its group, between them or behind them is added.
#[test]
fn rows_of_groups_all_refused_1(rt: HostRuntime) {
    let mut tree = GroupTree::new(rt.alloc()).expect(&rt, "memory");
    let mut filled = true;
    for s_id in 0..32_usize {
        filled &= refused(&mut tree, s_id, 1).is_none();
    }
    let want = is_all_refused(rt.alloc()).then_some(Refusal::Memory);
    let first = refused(&mut tree, 40, 1);
    let joined = [
        refused(&mut tree, 7, 0),
        refused(&mut tree, 7, 3),
        refused(&mut tree, 7, 2),
        refused(&mut tree, 31, 2),
    ];
    let again = refused(&mut tree, 7, 2);
    assert_eq!(rt;
        (filled, first, joined, again),
        (true, want, [None; 4], Some(Refusal::Exists))
    );
    drop(tree);
}

#[test]
fn cut_and_joined(rt: HostRuntime) {
    let alloc = rt.alloc();
    let empty = GroupTree::new(alloc).expect(&rt, "memory");
    let mut low = forwardings(&rt, empty, 400);
    let mut high = GroupTree::new(alloc).expect(&rt, "memory");
    let whole = walked(&low, START);
    let mut stock = slice_stock(&rt, alloc, &low);
    let (steps, path) = low.slice_into(&mut high, subscriber_key(150), &mut stock);
    let (below, all) = (walked(&low, START), walked(&high, walked(&low, START)));
    assert_eq!(rt;
        (all, below.last < subscriber_key(150), path <= steps),
        (whole, true, true)
    );
    let mut stock = meld_stock(&rt, alloc, &low, &high);
    let _ = low.meld_from(&mut high, &mut stock);
    assert_eq!(rt; (walked(&low, START), walked(&high, START)), (whole, START));
    drop(low);
    drop(high);
}
