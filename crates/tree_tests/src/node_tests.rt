//! What no clause says: that blank nodes can be had, and what the calls on nodes answer when they succeed.
ghost use Rattle.std.specs.Prelude.{◌≡◌, ◌+◌, ◌%◌, ◌^◌, ◌<◌, ◌≤◌};

use arrayvec::ArrayVec;
use mr_node::*;
use std::alloc::Global;
use std::process::Abort;
use std::test::*;
use tatp_rows::Refusal;

// A node opened and built again.
fn rebuilt(node: Box<Node<u64>>, meter: &mut Meter) -> Box<Node<u64>> {
    let (body, blank) = open(node, meter);
    match body {
        Body::Leaf(leaf) => build_leaf(leaf, blank, meter),
        Body::Inner(inner) => build_inner(inner, blank, meter),
    }
}

// A leaf gets the keys 1 to 32.
fn fill(rt: &impl Abort, node: &mut Node<u64>) {
    for key in 1..33u64 {
        let mut value = Some(key * 2);
        assert!(rt; matches!(node.insert_room(key, &mut value), Room::Done));
        assert_eq!(rt; value, None);
    }
    let mut value = Some(0);
    assert!(rt; matches!(node.insert_room(7, &mut value), Room::Exists));
    assert_eq!(rt; value, Some(0));
    assert_eq!(rt; [node.find(7), node.find_by_guess(7, 0)], [Some(&14); 2]);
    assert_eq!(rt; node.replace(7, 15).ok(), Some(14));
    assert_eq!(rt; node.replace(77, 15).err(), Some(15));
    let mut raise = Raise { by: 100, seen: 0 };
    assert_eq!(rt;
        [
            node.revise(77, &mut raise),
            node.revise_by_guess(8, 0, &mut raise)
        ],
        [false, true]
    );
    assert_eq!(rt; (raise.seen, node.find(8)), (16, Some(&116)));
    assert_eq!(rt; (node.height(), node.width(), node.len()), (0, 32, 32));
}

// Raises a value, and tells what it was.
#[derive(Drop)]
struct Raise {
    by: u64,
    seen: u64,
}

impl Revise<u64> for Raise {
    ghost revised = { λ raise value. (value + raise.by) % 2 ^ 64 };

    ghost spent = { λ raise value. record raise { seen = value } };

    fn revise(&mut self, value: &mut u64) {
        self.seen = *value;
        *value = value.wrapping_add(self.by);
    }
}

// The first key, the last one and the number of rows of the page from a key on.
fn page_of(node: &Node<u64>, key: u64) -> Option<(u64, u64, usize)> {
    let mut page = ArrayVec::new();
    node.page_from(key, &mut page);
    let last = page.last()?;
    Some((page.as_slice()[0].0, last.0, page.len()))
}

// A full leaf gets a root above it, and a 33rd row.
fn grow(rt: &impl Abort, node: &mut Node<u64>, stock: &mut Stock<u64>, meter: &mut Meter)
    requires { 3 ≤ stock.old }
{
    let mut value = Some(66);
    match node.insert_room(33, &mut value) {
        Room::Full => {
            assert_eq!(rt; node.height(), 0);
            assert_eq!(rt; node.width(), 32);
            node.add_root(stock, meter);
            node.insert_split(33, &mut value, stock, meter);
        }
        _ => assert!(rt; false),
    }
    assert_eq!(rt; (node.height(), node.width(), node.len()), (1, 2, 33));
    assert_eq!(rt; (stock.count(), meter.steps()), (2, 10));
    assert_eq!(rt;
        node.first_from(16).map(|row| (row.0, *row.1)),
        Some((16, 32))
    );
    assert_eq!(rt;
        node.fold(0u64, &|sum, key, _value| sum.wrapping_add(key)),
        561
    );
    let mut sum = 0u64;
    node.walk(&mut sum, &|sum, key, _value| *sum = sum.wrapping_add(key));
    assert_eq!(rt; sum, 561);
    let mut raise = Raise { by: 1, seen: 0 };
    assert_eq!(rt;
        [node.revise(34, &mut raise), node.revise(33, &mut raise)],
        [false, true]
    );
    assert_eq!(rt; (raise.seen, node.find(33)), (66, Some(&67)));
    assert_eq!(rt;
        [
            page_of(node, 0),
            page_of(node, 16),
            page_of(node, 17),
            page_of(node, 33),
            page_of(node, 34)
        ],
        [
            Some((1, 16, 16)),
            Some((16, 16, 1)),
            Some((17, 33, 17)),
            Some((33, 33, 1)),
            None
        ]
    );
}

// Rows whose leaves have room.
fn put_rising(rt: &impl Abort, node: &mut Node<u64>, from: u64, to: u64)
    requires { to < 100 }
{
    let mut done = true;
    for key in from..to {
        let mut value = Some(key);
        done &= matches!(node.insert_room(key, &mut value), Room::Done);
    }
    assert!(rt; done);
}

// A row whose leaf, below the root, is full: the root's width then, the blank nodes that are left, and the steps.
fn put_full(
    rt: &impl Abort,
    node: &mut Node<u64>,
    key: u64,
    stock: &mut Stock<u64>,
) -> (usize, usize, u64)
    requires { key < 100 }
{
    let mut meter = Meter::new();
    let mut value = Some(key);
    match node.insert_room(key, &mut value) {
        Room::Full => {
            assert!(rt; node.height() == 1);
            assert!(rt; node.width() < 32);
            assert!(rt; stock.count() > 0);
            node.insert_split(key, &mut value, stock, &mut meter);
        }
        _ => assert!(rt; false),
    }
    (node.width(), stock.count(), meter.steps())
}

// The leaf of the keys 17 to 48 has a neighbour of 16, and gives 13; with one of 29 that of 30 to 61 is halved.
fn part(rt: &impl Abort, node: &mut Node<u64>, stock: &mut Stock<u64>) {
    put_rising(rt, node, 33, 49);
    let given = put_full(rt, node, 49, stock);
    put_rising(rt, node, 50, 62);
    let halved = put_full(rt, node, 62, stock);
    // two steps on each of two levels, and four for a giving, or three and a blank node for a halving
    assert_eq!(rt; [given, halved], [(2, 3, 8), (3, 2, 7)]);
    assert_eq!(rt; node.len(), 62);
    assert_eq!(rt;
        node.fold(0u64, &|sum, key, _value| sum.wrapping_add(key)),
        1953
    );
}

// A leaf below a root takes a row in, and gives it away.
fn change(rt: &impl Abort, node: &mut Node<u64>, meter: &mut Meter) {
    let mut value = Some(68);
    assert!(rt; matches!(node.insert_room(34, &mut value), Room::Done));
    assert!(rt; node.width() >= 2);
    assert_eq!(rt; node.remove(34, meter), Some(68));
}

// The root falls again when two rows go.
fn fall(rt: &impl Abort, node: &mut Node<u64>, meter: &mut Meter) {
    assert!(rt; node.width() >= 2);
    assert_eq!(rt; node.remove(5, meter), Some(10));
    assert_eq!(rt; (node.height(), node.width(), node.len()), (1, 1, 32));
    node.lower(meter);
    assert_eq!(rt; (node.height(), node.width()), (0, 32));
    assert_eq!(rt; node.remove(6, meter), Some(12));
    assert_eq!(rt; (node.height(), node.len(), meter.steps()), (0, 31, 27));
}

// Fills a stock up to a number; after Memory, with no blank node lost, once more. How many it has then.
fn filled_up(rt: &impl Abort, stock: &mut Stock<u64>, count: usize) -> usize {
    let before = stock.count();
    if stock.fill(count).is_err() {
        let kept = stock.count();
        assert!(rt; before <= kept && kept < count);
        assert!(rt; stock.fill(count).is_ok());
    }
    stock.count()
}

// How many blank nodes a stock has that is taken; after Memory, at the second try.
fn taken(rt: &impl Abort, alloc: Global, count: usize) -> usize {
    let stock = match Stock::<u64>::take(alloc, count) {
        Ok(stock) => stock,
        Err(_) => Stock::take(alloc, count).expect(rt, "memory"),
    };
    stock.count()
}

// More blank nodes than memory can hold are refused, and those that were there stay. Also run with each allocation
// refused in turn (`refuse_memory.sh`).
#[test]
fn blanks_each_refused(rt: HostRuntime) -> Result<(), Fail> {
    let mut stock = Stock::<u64>::none(rt.alloc());
    let counts = [
        stock.count(),
        filled_up(&rt, &mut stock, 3),
        filled_up(&rt, &mut stock, 2),
        taken(&rt, rt.alloc(), 5),
    ];
    assert_eq!(rt; counts, [0, 3, 3, 5]);
    assert_eq!(rt; stock.fill(usize::MAX).err(), Some(Refusal::Memory));
    assert_eq!(rt; stock.count(), 3);
    Ok(())
}

#[test]
fn a_root_grows_and_falls(rt: HostRuntime) -> Result<(), Fail> {
    let refused = Stock::<u64>::take(rt.alloc(), usize::MAX).err();
    assert_eq!(rt; refused, Some(Refusal::Memory));
    let mut stock = Stock::take(rt.alloc(), 5)?;
    let mut meter = Meter::new();
    let mut node = rebuilt(stock.give(), &mut meter);
    fill(&rt, &mut *node);
    grow(&rt, &mut *node, &mut stock, &mut meter);
    let mut node = rebuilt(node, &mut meter);
    change(&rt, &mut *node, &mut meter);
    fall(&rt, &mut *node, &mut meter);
    Ok(())
}

#[test]
fn a_full_leaf_gives_or_is_halved(rt: HostRuntime) -> Result<(), Fail> {
    let mut stock = Stock::take(rt.alloc(), 5)?;
    let mut node = Node::new();
    fill(&rt, &mut node);
    assert!(&rt; node.width() == 32);
    node.add_root(&mut stock, &mut Meter::new());
    part(&rt, &mut node, &mut stock);
    Ok(())
}
