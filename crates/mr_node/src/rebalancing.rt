//! The inner nodes that lose a child or get one.
ghost use Rattle.std.specs.Prelude.{◌≡◌, ◌+◌, ◌-◌, ◌*◌, ◌<◌, ◌≤◌, ℕ, None, IfSome, length, take, drop, slice_index_or};
ghost use Rattle.mr_node.specs.Levels.{children_of, widths_of, IsInner, IsInnerOf};
ghost use Rattle.mr_node.specs.Pairs.{IsShare};
ghost use Rattle.mr_node.specs.Inside.{IsLooseAt, IsPairAt, IsSplicedAt, IsWholeAgain, IsSplitAt, IsRoomAt, IsPairWithRoom};
ghost use Rattle.mr_node.specs.Steps.{after_steps, IsRoomMade};

use crate::children::{child_place, put_child, take_child};
use crate::entry_lists::low_of;
use crate::{Child, Inner, Meter, Node, Stock};

/// A full child gives entries to the one before it if that one has at most this many,
const GIVEN_FROM: usize = 24;
/// until that one has this many. So both have room left, and rows that come in rising order leave nearly full nodes
/// behind.
pub(crate) const GIVEN_TO: usize = 29;

/// Otherwise a full child and a neighbour that has at most this many get half of their entries each. So a node is split
/// only between full neighbours, and nodes stay fuller where rows come in no order.
const SHARED_FROM: usize = 28;

/// Returns the width of the child at a place.
fn child_width<V>(children: &[Option<Child<Box<Node<V>>>>; 32], place: usize) -> usize
    requires { place < 32 }
    ensures { IfSome (slice_index_or children.now place None) (λ k. result ≡ k.node.value.width) }
{
    match &children[place] {
        Some(child) => child.node.width(),
        None => 0,
    }
}

/// Sets the count of a child to that of its rows.
fn count_anew<V>(child: &mut Child<Box<Node<V>>>)
    ensures node { child.new.node ≡ child.old.node }
    ensures count { child.new.count ≡ length child.old.node.value.rows }
{
    child.count = child.node.len();
}

/// Returns the width of the child at `place` and of the next one together.
fn pair_width<V>(inner: &Inner<Box<Node<V>>>, place: usize) -> usize
    requires loose { IsInnerOf 15 inner.now }
    requires within { place + 1 < inner.now.len }
    ensures both { result ≡ widths_of (take 2 (drop place (children_of inner.now))) }
    ensures fits { result ≤ 64 }
{
    child_width(&inner.children, place) + child_width(&inner.children, place + 1)
}

/// Moves entries between the child at `place` and the next one until the first has `low`. It returns true if the next
/// one is empty then. It takes four steps.
fn share_pair<V: Drop + Default>(
    inner: &mut Inner<Box<Node<V>>>,
    place: usize,
    low: usize,
    meter: &mut Meter,
) -> bool
    requires loose { IsInnerOf 15 inner.old }
    requires within { place + 1 < inner.old.len }
    requires share { IsShare (widths_of (take 2 (drop place (children_of inner.old)))) low }
    ensures pair { IsPairAt place low result inner.old inner.new }
    ensures steps { meter.new ≡ after_steps 4 meter.old }
{
    let Some(mut next) = inner.children[place + 1].take() else {
        unreachable!()
    };
    match &mut inner.children[place] {
        Some(first) => {
            let joined = first.node.share_with(&mut *next.node, low, meter);
            count_anew(first);
            count_anew(&mut next);
            inner.leasts[place + 1] = next.node.least();
            inner.children[place + 1] = Some(next);
            joined
        }
        None => unreachable!(),
    }
}

/// Evens out the child at `place` and the next one, and drops one that is empty then. It takes four steps.
fn join_pair<V: Drop + Default>(inner: &mut Inner<Box<Node<V>>>, place: usize, meter: &mut Meter)
    requires loose { IsInnerOf 15 inner.old }
    requires within { place + 1 < inner.old.len }
    ensures spliced { IsSplicedAt place inner.old inner.new }
    ensures steps { meter.new ≡ after_steps 4 meter.old }
{
    let low = low_of(pair_width(inner, place));
    if share_pair(inner, place, low, meter) {
        let _ = take_child(inner, place + 1);
    }
}

/// Returns the place of the first of the two neighbours to even out when the child at `place` is less than half full.
/// These are that child and the one before it, if both fit into one node or the child is the last one, and otherwise
/// that child and the next one.
fn pair_of<V>(inner: &Inner<Box<Node<V>>>, place: usize) -> usize
    requires loose { IsInnerOf 15 inner.now }
    requires two { 2 ≤ inner.now.len }
    requires within { place < inner.now.len }
    ensures within { result + 1 < inner.now.len }
    ensures below { result ≤ place }
    ensures near { place ≤ result + 1 }
{
    if place == 0 {
        return 0;
    }
    if place + 1 < inner.len && pair_width(inner, place - 1) > 32 {
        return place;
    }
    place - 1
}

/// Rebalances an inner node whose child at `place` may be one short of half full, by evening it out with a neighbour.
/// It takes four steps.
#[cold]
#[inline(never)]
fn rebalance_thin<V: Drop + Default>(
    inner: &mut Inner<Box<Node<V>>>,
    place: usize,
    meter: &mut Meter,
)
    requires loose { IsLooseAt place inner.old }
    requires two { 2 ≤ inner.old.len }
    requires within { place < inner.old.len }
    ensures rebalanced { IsWholeAgain 1 inner.old inner.new }
    ensures steps { meter.new ≡ after_steps 4 meter.old }
{
    let first = pair_of(inner, place);
    join_pair(inner, first, meter);
}

/// Rebalances an inner node whose child at `place` may be one short of half full. It takes four steps if the child is,
/// and none otherwise.
pub(crate) fn rebalance<V: Drop + Default>(
    inner: &mut Inner<Box<Node<V>>>,
    place: usize,
    meter: &mut Meter,
)
    requires loose { IsLooseAt place inner.old }
    requires two { 2 ≤ inner.old.len }
    requires within { place < inner.old.len }
    ensures rebalanced { IsWholeAgain 1 inner.old inner.new }
    ensures thin { IfSome (slice_index_or inner.old.children place None) (λ k. k.node.value.width < 16 → meter.new ≡ after_steps 4 meter.old) }
    ensures enough { IfSome (slice_index_or inner.old.children place None) (λ k. 16 ≤ k.node.value.width → meter.new ≡ meter.old) }
{
    if child_width(&inner.children, place) >= 16 {
        return;
    }
    rebalance_thin(inner, place, meter);
}

/// Halves the full child at a place. Its upper half goes into the blank node, which becomes the next child.
fn split_child<V: Drop + Default>(
    inner: &mut Inner<Box<Node<V>>>,
    place: usize,
    mut blank: Box<Node<V>>,
)
    requires inner { IsInner inner.old }
    requires room { inner.old.len < 32 }
    requires within { place < inner.old.len }
    requires full { IfSome (slice_index_or inner.old.children place None) (λ k. k.node.value.width ≡ 32) }
    ensures { IsSplitAt place (place + 1) inner.old inner.new }
{
    match &mut inner.children[place] {
        Some(child) => {
            let node = &mut *child.node;
            node.halve_into(&mut *blank);
            count_anew(child);
        }
        None => unreachable!(),
    }
    let least = blank.least();
    let count = blank.len();
    put_child(inner, place + 1, least, Child { count, node: blank });
}

/// Returns the first of the two neighbours that share their entries evenly when the child at a place is full: that
/// child and the next one, or the one before it and that child. It returns `None` if neither neighbour has room for four
/// entries.
fn pair_with_room<V>(inner: &Inner<Box<Node<V>>>, place: usize) -> Option<usize>
    requires inner { IsInner inner.now }
    requires within { place < inner.now.len }
    requires full { IfSome (slice_index_or inner.now.children place None) (λ k. k.node.value.width ≡ 32) }
    ensures { IfSome result (λ first. IsPairWithRoom first place inner.now) }
{
    if place + 1 < inner.len && child_width(&inner.children, place + 1) <= SHARED_FROM {
        return Some(place);
    }
    if place > 0 && child_width(&inner.children, place - 1) <= SHARED_FROM {
        return Some(place - 1);
    }
    None
}

/// Shares or halves the full child at a place. The child gives entries to the one before it, if that has much room, or
/// shares them evenly with a neighbour that has some, in four steps. It is otherwise halved, in three steps and with one
/// blank node. It returns the place of the first of the two children that have its entries.
fn share_or_split<V: Drop + Default>(
    inner: &mut Inner<Box<Node<V>>>,
    place: usize,
    stock: &mut Stock<V>,
    meter: &mut Meter,
) -> usize
    requires inner { IsInner inner.old }
    requires room { inner.old.len < 32 }
    requires within { place < inner.old.len }
    requires full { IfSome (slice_index_or inner.old.children place None) (λ k. k.node.value.width ≡ 32) }
    requires stock { 0 < stock.old }
    ensures split { (to : ℕ) × (place < to) × IsSplitAt result to inner.old inner.new }
    ensures place { result ≤ place }
    ensures stock { stock.new ≤ stock.old }
    ensures made { IsRoomMade 1 (stock.old - stock.new) meter.old meter.new }
{
    if place > 0 && child_width(&inner.children, place - 1) <= GIVEN_FROM {
        share_pair(inner, place - 1, GIVEN_TO, meter);
        return place - 1;
    }
    if let Some(first) = pair_with_room(inner, place) {
        let low = low_of(pair_width(inner, first));
        share_pair(inner, first, low, meter);
        return first;
    }
    meter.tick(3);
    split_child(inner, place, stock.give());
    place
}

/// Finds the child to which a key belongs, after sharing or halving it if it is full.
pub(crate) fn make_room<V: Drop + Default>(
    inner: &mut Inner<Box<Node<V>>>,
    key: u64,
    stock: &mut Stock<V>,
    meter: &mut Meter,
) -> usize
    requires inner { IsInner inner.old }
    requires room { inner.old.len < 32 }
    requires stock { 0 < stock.old }
    ensures same { IsWholeAgain 0 inner.old inner.new }
    ensures place { IsRoomAt key result inner.new }
    ensures stock { stock.new ≤ stock.old }
    ensures used { stock.old ≤ stock.new + 1 }
    ensures made { IsRoomMade 1 (stock.old - stock.new) meter.old meter.new }
{
    let place = child_place(inner, key);
    if child_width(&inner.children, place) < 32 {
        return place;
    }
    let low = share_or_split(inner, place, stock, meter);
    if inner.leasts[low + 1] <= key {
        return low + 1;
    }
    low
}
