//! The join of a node at one side of another one, which is as high or higher. The result is one node, or two.
ghost use Rattle.std.specs.Prelude.{◌≡◌, ◌+◌, ◌-◌, ◌*◌, ◌<◌, ◌≤◌, ◌++◌, IfSome};
ghost use Rattle.tatp_rows.specs.Ordered.{IsOrderedBy};
ghost use Rattle.mr_node.specs.Rows.{key_limit, key_of_pair, KeysBelow};
ghost use Rattle.mr_node.specs.Levels.{children_of, rows_of, seen_inner, IsInner};
ghost use Rattle.mr_node.specs.Pairs.{IsChildNode};
ghost use Rattle.mr_node.specs.Steps.{after_steps};
ghost use Rattle.mr_cut.specs.SideJoins.{beside, end_of, IsTurned, IsRest, IsEvened, IsSideJoined};
ghost use Rattle.mr_cut.specs.Bounds.{join_steps};
ghost use Rattle.mr_cut.specs.SideJoins.{rows_with, more_of};

use mr_node::{
    Body, Inner, Meter, Node, Stock, build_inner, empty_inner, insert_child, open, take_child,
};

/// The side of a node on which another one is joined.
#[derive(Clone, Copy)]
pub(crate) enum Side {
    /// In front of it, with the lower keys.
    Low,
    /// Behind it, with the higher keys.
    High,
}

/// Returns the place at the end on a side. On the high side, this is `last`.
fn end_of(side: Side, last: usize) -> usize
    ensures { result ≡ end_of side last }
{
    match side {
        Side::Low => 0,
        Side::High => last,
    }
}

/// Returns two nodes as they are for the high side, and exchanged for the low side. So a node and the one that is
/// joined to it come out in the order of their keys, and the first of two nodes in that order becomes the one nearer to
/// the node to which they are joined.
pub(crate) fn turned<V: Drop>(
    side: Side,
    one: Box<Node<V>>,
    two: Box<Node<V>>,
) -> (Box<Node<V>>, Box<Node<V>>)
    ensures { IsTurned side one.value two.value result.0.value result.1.value }
{
    match side {
        Side::Low => (two, one),
        Side::High => (one, two),
    }
}

/// Evens out two neighbours of one height. It takes four steps.
#[inline(never)]
fn even<V: Drop + Default>(
    mut low: Box<Node<V>>,
    mut high: Box<Node<V>>,
    meter: &mut Meter,
) -> (Box<Node<V>>, Option<Box<Node<V>>>)
    requires level { low.value.height ≡ high.value.height }
    requires ordered { IsOrderedBy key_of_pair (low.value.rows ++ high.value.rows) }
    ensures nodes { IsEvened low.value high.value result.0.value result.1 }
    ensures steps { meter.new ≡ after_steps 4 meter.old }
{
    if low.even_with(&mut *high, meter) {
        return (low, None);
    }
    (low, Some(high))
}

/// Builds an inner node of these children in a box. It takes one step. It is not inlined, so that no node is on the
/// stack of a side join.
#[inline(never)]
fn built<V: Drop>(
    inner: Inner<Box<Node<V>>>,
    blank: Box<Node<V>>,
    meter: &mut Meter,
) -> Box<Node<V>>
    requires { IsInner inner }
    ensures seen { result.value ≡ seen_inner inner }
    ensures steps { meter.new ≡ after_steps 1 meter.old }
{
    build_inner(inner, blank, meter)
}

/// Makes an inner node with one child. It takes one step.
#[inline(never)]
fn lone<V: Drop>(
    height: u64,
    node: Box<Node<V>>,
    blank: Box<Node<V>>,
    meter: &mut Meter,
) -> Box<Node<V>>
    requires above_leaves { 0 < height }
    requires node { IsChildNode (height - 1) node.value }
    ensures node { result.value ≡ record { height = height; width = 1; rows = node.value.rows } }
    ensures steps { meter.new ≡ after_steps 1 meter.old }
{
    let mut inner = empty_inner(height);
    insert_child(&mut inner, 0, node);
    build_inner(inner, blank, meter)
}

/// Puts what the child at a side has become back next to the others. It takes one step, or six if the child has become
/// two.
#[inline(never)]
fn put_back<V: Drop + Default>(
    side: Side,
    mut inner: Inner<Box<Node<V>>>,
    one: Box<Node<V>>,
    two: Option<Box<Node<V>>>,
    blank: Box<Node<V>>,
    stock: &mut Stock<V>,
    meter: &mut Meter,
) -> (Box<Node<V>>, Option<Box<Node<V>>>)
    requires rest { IsRest inner }
    requires room { inner.len < 32 }
    requires one { IsChildNode (inner.height - 1) one.value }
    requires two { IfSome two (λ y. IsChildNode (inner.height - 1) y.value) }
    requires ordered { IsOrderedBy key_of_pair (beside side (rows_of (children_of inner)) (rows_with one.value two)) }
    requires stock { 0 < stock.old }
    ensures side_joined { IsSideJoined inner.height (inner.len + 1) 0
        (beside side (rows_of (children_of inner)) (rows_with one.value two)) result.0.value result.1 }
    ensures stock { stock.old ≡ stock.new + more_of two }
    ensures steps { meter.new ≡ after_steps (1 + 5 * more_of two) meter.old }
{
    let height = inner.height;
    let place = end_of(side, inner.len);
    match two {
        Some(two) => {
            let (near, far) = turned(side, one, two);
            insert_child(&mut inner, place, near);
            let node = built(inner, blank, meter);
            let last = lone(height, far, stock.give(), meter);
            let (first, second) = turned(side, node, last);
            even(first, second, meter)
        }
        None => {
            insert_child(&mut inner, place, one);
            (built(inner, blank, meter), None)
        }
    }
}

/// Joins a node at a side of another one that is as high or higher. The result is one node of that height, or two that
/// are half full. It takes four steps, and two for each level between the two heights, or seven for a level from which
/// two nodes come back.
pub(crate) fn join_side<V: Drop + Default>(
    side: Side,
    node: Box<Node<V>>,
    other: Box<Node<V>>,
    stock: &mut Stock<V>,
    meter: &mut Meter,
) -> (Box<Node<V>>, Option<Box<Node<V>>>)
    requires level { other.value.height ≤ node.value.height }
    requires ordered { IsOrderedBy key_of_pair (beside side node.value.rows other.value.rows) }
    requires stock { node.value.height - other.value.height ≤ stock.old }
    ensures side_joined { IsSideJoined node.value.height node.value.width other.value.height
        (beside side node.value.rows other.value.rows) result.0.value result.1 }
    ensures stock { stock.old ≤ stock.new + (node.value.height - other.value.height) }
    ensures fewer { stock.new ≤ stock.old }
    ensures steps { meter.new ≡ after_steps (join_steps (node.value.height - other.value.height) (stock.old - stock.new) 0) meter.old }
{
    if node.height() == other.height() {
        let (low, high) = turned(side, node, other);
        return even(low, high, meter);
    }
    let (body, blank) = open(node, meter);
    match body {
        Body::Leaf(_) => unreachable!(),
        Body::Inner(mut inner) => {
            let place = end_of(side, inner.len - 1);
            let child = take_child(&mut inner, place);
            let (one, two) = join_side(side, child.node, other, stock, meter);
            put_back(side, inner, one, two, blank, stock, meter)
        }
    }
}
