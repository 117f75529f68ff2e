//! What no clause says: that the stock can be had, how many steps are taken, and that values need be neither Copy nor
//! Clone. A helper takes its tree by value, and has one exit.
ghost use Rattle.std.specs.Prelude.{◌≡◌, ◌<◌};
ghost use Rattle.mr_cut.specs.Bounds.{blanks_for_slice, blanks_for_meld};
ghost use Rattle.mr_node.specs.Rows.{key_limit};

use mr_cut::*;
use mr_node::Stock;
use mr_subtree::SubTree;
use std::alloc::Global;
use std::process::Abort;
use std::test::*;
use tatp_rows::Refusal;

// A value that is neither Copy nor Clone.
#[derive(Default, Drop)]
struct Token(u64);

// What a walk over rows saw: how many, the last key, how many were not above the one in front, and a sum that hangs on
// their order.
#[derive(Clone, Copy, Debug, PartialEq)]
struct Walk {
    rows: u64,
    last: u64,
    falls: u64,
    sum: u64,
}

// The greatest numbers of steps.
#[derive(Clone, Copy)]
struct Steps {
    slice: u64,
    path: u64,
    meld: u64,
}

fn next(walk: Walk, key: u64, token: &Token) -> Walk {
    let falls = walk.rows > 0 && key <= walk.last;
    Walk {
        rows: walk.rows.wrapping_add(1),
        last: key,
        falls: walk.falls.wrapping_add(u64::from(falls)),
        sum: walk.sum.wrapping_mul(31).wrapping_add(key ^ token.0),
    }
}

// A walk that goes on over a tree.
fn walked(tree: &SubTree<Token>, walk: Walk) -> Walk {
    tree.fold(walk, &|walk, key, token| next(walk, key, token))
}

fn start() -> Walk {
    Walk {
        rows: 0,
        last: 0,
        falls: 0,
        sum: 7,
    }
}

// A number drawn by a turn (splitmix).
fn mixed(turn: u64) -> u64 {
    let start = turn.wrapping_mul(0x9E3779B97F4A7C15);
    let first = (start ^ (start >> 30)).wrapping_mul(0xBF58476D1CE4E5B9);
    let second = (first ^ (first >> 27)).wrapping_mul(0x94D049BB133111EB);
    second ^ (second >> 31)
}

// A key drawn by a turn.
fn drawn(turn: u64) -> u64
    ensures { result < key_limit }
{
    mixed(turn) / 2
}

// Puts so many drawn rows into a tree; where memory was refused, at the second try.
fn filled(rt: &impl Abort, mut tree: SubTree<Token>, rows: u64) -> SubTree<Token> {
    for turn in 0..rows {
        if tree.insert(drawn(turn), Token(turn)).is_err() {
            assert!(rt; tree.insert(drawn(turn), Token(turn)).is_ok());
        }
    }
    tree
}

// The blank nodes for a slice; where memory was refused, at the second try, with the tree as before.
fn slice_stock(rt: &impl Abort, tree: &SubTree<Token>) -> Stock<Token>
    ensures { result ≡ blanks_for_slice tree.now.height }
{
    let before = walked(tree, start());
    match stock_for_slice(tree.alloc(), tree.height()) {
        Ok(stock) => stock,
        Err(why) => {
            assert_eq!(rt; why, Refusal::Memory);
            assert_eq!(rt; walked(tree, start()), before);
            stock_for_slice(tree.alloc(), tree.height()).expect(rt, "memory")
        }
    }
}

// The blank nodes for a meld; where memory was refused, at the second try.
fn meld_stock(rt: &impl Abort, low: &SubTree<Token>, high: &SubTree<Token>) -> Stock<Token>
    ensures { result ≡ blanks_for_meld low.now.height high.now.height }
{
    match stock_for_meld(low.alloc(), low.height(), high.height()) {
        Ok(stock) => stock,
        Err(why) => {
            assert_eq!(rt; why, Refusal::Memory);
            stock_for_meld(low.alloc(), low.height(), high.height()).expect(rt, "memory")
        }
    }
}

// Whether a tree is as high as one of so many rows may be: nodes have 16 to 32 of their own, and the root has two
// children at least where it has any.
fn is_right_height(tree: &SubTree<Token>) -> bool {
    let rows = tree.len();
    match tree.height() {
        0 => rows <= 32,
        1 => 32 <= rows && rows <= 1024,
        2 => 512 <= rows && rows <= 32_768,
        3 => 8192 <= rows && rows <= 1_048_576,
        _ => false,
    }
}

// Asserts what a tree was cut into.
fn compare(rt: &impl Abort, cut: &Cut<Token>, key: u64, whole: Walk, height: u64) {
    let low = walked(&cut.low, start());
    let high = walked(&cut.high, start());
    let levels = height.saturating_add(1);
    assert_eq!(rt; walked(&cut.high, low), whole);
    assert!(rt; low.rows == 0 || low.last < key);
    assert!(rt; high.rows == 0 || cut.high.first_from(0).map(|row| row.0) >= Some(key));
    assert_eq!(rt; (low.rows, high.rows), (cut.low.len(), cut.high.len()));
    assert!(rt; is_right_height(&cut.low) && is_right_height(&cut.high));
    assert!(rt; cut.low.height() <= height && cut.high.height() <= height);
    assert!(rt; cut.path <= levels.saturating_mul(3));
    assert!(rt; cut.steps <= levels.saturating_mul(levels).saturating_mul(64));
}

// Cuts a tree at a key, and joins its parts again.
fn cut_and_joined(
    rt: &impl Abort,
    tree: SubTree<Token>,
    key: u64,
    most: &mut Steps,
) -> SubTree<Token> {
    let whole = walked(&tree, start());
    let height = tree.height();
    let mut stock = slice_stock(rt, &tree);
    let cut = slice(tree, key, &mut stock);
    compare(rt, &cut, key, whole, height);
    let apart = cut.low.height().abs_diff(cut.high.height());
    let mut stock = meld_stock(rt, &cut.low, &cut.high);
    let (tree, steps) = meld(cut.low, cut.high, &mut stock);
    assert_eq!(rt;
        (walked(&tree, start()), is_right_height(&tree)),
        (whole, true)
    );
    assert!(rt; steps <= apart.saturating_add(1).saturating_mul(16));
    *most = Steps {
        slice: most.slice.max(cut.steps),
        path: most.path.max(cut.path),
        meld: most.meld.max(steps),
    };
    tree
}

// Cuts a tree of so many drawn rows at drawn keys, at keys that it has, and behind those, and joins it again each time.
fn greatest(rt: &impl Abort, tree: SubTree<Token>, rows: u64, turns: u64) -> Steps {
    let mut most = Steps {
        slice: 0,
        path: 0,
        meld: 0,
    };
    let mut tree = filled(rt, tree, rows);
    assert_eq!(rt; (tree.len(), walked(&tree, start()).falls), (rows, 0));
    for turn in 0..turns {
        let there = drawn(turn);
        tree = cut_and_joined(rt, tree, there, &mut most);
        tree = cut_and_joined(rt, tree, there.saturating_add(1), &mut most);
        tree = cut_and_joined(rt, tree, drawn(turn.wrapping_add(1_000_000)), &mut most);
    }
    tree = cut_and_joined(rt, tree, 0, &mut most);
    tree = cut_and_joined(rt, tree, u64::MAX, &mut most);
    assert_eq!(rt; tree.len(), rows);
    most
}

// Asserts the greatest numbers of steps on a tree of so many drawn rows: of a slice, of its path, and of a meld.
fn compare_steps(
    rt: &impl Abort,
    tree: SubTree<Token>,
    rows: u64,
    turns: u64,
    seen: (u64, u64, u64),
) {
    let most = greatest(rt, tree, rows, turns);
    assert_eq!(rt; (most.slice, most.path, most.meld), seen);
}

#[test]
fn drawn_trees(rt: HostRuntime) -> Result<(), Fail> {
    compare_steps(&rt, SubTree::new(rt.alloc())?, 0, 1, (3, 3, 4));
    compare_steps(&rt, SubTree::new(rt.alloc())?, 1, 1, (3, 3, 4));
    compare_steps(&rt, SubTree::new(rt.alloc())?, 33, 33, (14, 5, 6));
    compare_steps(&rt, SubTree::new(rt.alloc())?, 1025, 300, (42, 9, 13));
    compare_steps(&rt, SubTree::new(rt.alloc())?, 40_000, 40, (75, 12, 13));
    Ok(())
}

// Also run with each allocation refused in turn (`refuse_memory.sh`).
#[test]
fn cuts_each_refused(rt: HostRuntime) -> Result<(), Fail> {
    compare_steps(&rt, SubTree::new(rt.alloc())?, 40, 1, (14, 5, 6));
    Ok(())
}

// A size that nothing else asks for: where `refuse_memory.sh` refuses all memory, it does so from a piece of it on.
const SIGNAL: usize = 7_654_321;

// Whether all memory is refused from here on. One refused piece alone doesn't tell.
fn is_all_refused(alloc: Global) -> bool {
    Vec::<u8>::with_capacity(alloc, SIGNAL).is_err()
        && Vec::<u8>::with_capacity(alloc, SIGNAL).is_err()
}

// Cuts a tree at a key and joins it again, once the blank nodes are there, though all memory may be refused; then more
// can be had unless it is.
fn cut_without_memory(rt: &impl Abort, tree: SubTree<Token>, key: u64, mut spare: Stock<Token>) {
    let (alloc, height) = (tree.alloc(), tree.height());
    let whole = walked(&tree, start());
    let mut stock = slice_stock(rt, &tree);
    let is_refused = is_all_refused(alloc);
    let cut = slice(tree, key, &mut stock);
    compare(rt, &cut, key, whole, height);
    assert!(rt; need_meld(cut.low.height(), cut.high.height()) <= spare.count());
    let (tree, _steps) = meld(cut.low, cut.high, &mut spare);
    assert_eq!(rt; walked(&tree, start()), whole);
    let more = [
        stock_for_slice::<Token>(alloc, height).is_err(),
        stock_for_meld::<Token>(alloc, height, 0).is_err(),
    ];
    assert_eq!(rt; more, [is_refused; 2]);
}

// Run with all memory refused once the tree and its blank nodes are there (`refuse_memory.sh`).
#[test]
fn cuts_all_refused_2(rt: HostRuntime) -> Result<(), Fail> {
    let spare = Stock::take(rt.alloc(), 8)?;
    let tree = filled(&rt, SubTree::new(rt.alloc())?, 3_000);
    cut_without_memory(&rt, tree, drawn(1_000), spare);
    Ok(())
}

// A tree of the keys 1 to `last`.
fn counted(rt: &impl Abort, mut tree: SubTree<Token>, last: u64) -> SubTree<Token>
    requires { last < key_limit }
{
    for key in 1..=last {
        assert!(rt; tree.insert(key, Token(key)).is_ok());
    }
    tree
}

// What a cut at a key gave: lengths and heights of both parts, and the steps of the cut and of joining them again.
#[derive(Clone, Copy, Debug, PartialEq)]
struct Seen {
    lengths: (u64, u64),
    heights: (u64, u64),
    slice: u64,
    meld: u64,
}

// Cuts a tree at a key, and joins its parts again: both have the rows of the tree, and the joined one its height.
fn cut_at(rt: &impl Abort, tree: SubTree<Token>, key: u64) -> (Seen, SubTree<Token>) {
    let whole = walked(&tree, start());
    let height = tree.height();
    let mut stock = slice_stock(rt, &tree);
    let cut = slice(tree, key, &mut stock);
    let apart = walked(&cut.high, walked(&cut.low, start()));
    let lengths = (cut.low.len(), cut.high.len());
    let heights = (cut.low.height(), cut.high.height());
    let mut stock = meld_stock(rt, &cut.low, &cut.high);
    let (tree, meld) = meld(cut.low, cut.high, &mut stock);
    assert_eq!(rt;
        (apart, walked(&tree, start()), tree.height()),
        (whole, whole, height)
    );
    let seen = Seen {
        lengths,
        heights,
        slice: cut.steps,
        meld,
    };
    (seen, tree)
}

// 33 keys make a tree of height 1, which is cut in front of its first key, in the middle, and behind its last.
fn compare_cuts(rt: &impl Abort, tree: SubTree<Token>) {
    let tree = counted(rt, tree, 33);
    let (first, tree) = cut_at(rt, tree, 1);
    let (middle, tree) = cut_at(rt, tree, 17);
    let (last, _tree) = cut_at(rt, tree, 34);
    assert_eq!(rt;
        [
            (first.lengths, first.heights, first.slice, first.meld),
            (middle.lengths, middle.heights, middle.slice, middle.meld),
            (last.lengths, last.heights, last.slice, last.meld),
        ],
        [
            ((0, 33), (0, 1), 14, 6),
            ((16, 17), (0, 0), 13, 5),
            ((33, 0), (1, 0), 14, 6),
        ]
    );
}

// 1,024 keys are cut in two halves. With one key more they make a tree of height 2, which is cut at each key; then a
// key far behind is put in, cut off, and joined again.
fn compare_great_cuts(rt: &impl Abort, tree: SubTree<Token>) {
    let tree = counted(rt, tree, 1024);
    let (halves, mut tree) = cut_at(rt, tree, 513);
    let grown = tree.insert(1025, Token(1025)).is_ok();
    let mut most = 0u64;
    for key in 1..=1026u64 {
        let (seen, joined) = cut_at(rt, tree, key);
        most = most.max(seen.slice);
        tree = joined;
    }
    let grown = grown && tree.insert(2000, Token(2000)).is_ok();
    let (one, _tree) = cut_at(rt, tree, 2000);
    assert_eq!(rt;
        (
            grown,
            halves.lengths,
            most,
            one.lengths,
            one.heights,
            one.meld
        ),
        (true, (512, 512), 48, (1025, 1), (2, 0), 8)
    );
}

#[test]
fn small_trees(rt: HostRuntime) -> Result<(), Fail> {
    compare_cuts(&rt, SubTree::new(rt.alloc())?);
    compare_great_cuts(&rt, SubTree::new(rt.alloc())?);
    Ok(())
}
