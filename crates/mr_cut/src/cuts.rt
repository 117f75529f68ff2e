//! The cut of a tree at a key.
ghost use Rattle.std.specs.Prelude.{◌≡◌, ◌+◌, ◌*◌, ◌<◌, ◌≤◌};
ghost use Rattle.mr_node.specs.Levels.{children_of, rows_of, IsInner, IsLeaf, seen_leaf};
ghost use Rattle.mr_node.specs.Steps.{after_steps};
ghost use Rattle.mr_cut.specs.SideJoins.{IsRest};
ghost use Rattle.mr_cut.specs.Cuts.{IsSideRoot, IsDividedNode, IsCut};

use crate::joins::join;
use mr_node::{
    Body, Inner, Leaf, Meter, Node, Stock, build_blank, build_inner, build_leaf, child_place,
    cut_children, cut_leaf, open, take_child,
};

/// Makes a root over some children of an inner node, which is a blank leaf, the only child, or an inner node. It takes
/// at most one step.
#[inline(never)]
fn root_of<V: Drop + Default>(
    mut inner: Inner<Box<Node<V>>>,
    blank: Box<Node<V>>,
    meter: &mut Meter,
) -> Box<Node<V>>
    requires rest { IsRest inner }
    requires some_away { inner.len < 32 }
    ensures piece { IsSideRoot inner.height result.value }
    ensures rows { result.value.rows ≡ rows_of (children_of inner) }
    ensures no_fewer { after_steps 0 meter.old ≤ meter.new }
    ensures steps { meter.new ≤ meter.old + 1 }
{
    if inner.len == 0 {
        return build_blank(blank, meter);
    }
    if inner.len == 1 {
        return take_child(&mut inner, 0).node;
    }
    build_inner(inner, blank, meter)
}

/// Divides an inner node at a key, and returns the child to which the key belongs, between roots over the children in
/// front of it and behind it. It takes at most two steps.
#[inline(never)]
fn divide<V: Drop + Default>(
    mut inner: Inner<Box<Node<V>>>,
    key: u64,
    blank: Box<Node<V>>,
    stock: &mut Stock<V>,
    meter: &mut Meter,
) -> (Box<Node<V>>, Box<Node<V>>, Box<Node<V>>)
    requires inner { IsInner inner }
    requires stock { 0 < stock.old }
    ensures divided { IsDividedNode key inner result.0.value result.1.value result.2.value }
    ensures stock { stock.old ≤ stock.new + 1 }
    ensures no_fewer { after_steps 0 meter.old ≤ meter.new }
    ensures steps { meter.new ≤ meter.old + 2 }
{
    let place = child_place(&inner, key);
    let behind = cut_children(&mut inner, place + 1);
    let mid = take_child(&mut inner, place);
    let left = root_of(inner, blank, meter);
    let right = root_of(behind, stock.give(), meter);
    (left, mid.node, right)
}

/// Cuts a leaf at a key, and returns two roots. It takes two steps.
#[inline(never)]
fn halves_of<V: Drop + Default>(
    mut leaf: Leaf<V>,
    key: u64,
    blank: Box<Node<V>>,
    other: Box<Node<V>>,
    meter: &mut Meter,
) -> (Box<Node<V>>, Box<Node<V>>)
    requires { IsLeaf leaf }
    ensures cut { IsCut key (seen_leaf leaf) result.0.value result.1.value }
    ensures steps { meter.new ≡ after_steps 2 meter.old }
{
    let high = cut_leaf(&mut leaf, key);
    let low = build_leaf(leaf, blank, meter);
    (low, build_leaf(high, other, meter))
}

/// Cuts a node at a key into two roots that are no higher than the node. One meter counts what the path itself opens
/// and builds, and the other one what the joins on both sides of the path do.
pub(crate) fn cut<V: Drop + Default>(
    node: Box<Node<V>>,
    key: u64,
    stock: &mut Stock<V>,
    path: &mut Meter,
    joins: &mut Meter,
) -> (Box<Node<V>>, Box<Node<V>>)
    requires stock { (node.value.height + 2) * (node.value.height + 2) ≤ stock.old }
    ensures cut { IsCut key node.value result.0.value result.1.value }
    ensures stock { stock.old ≤ stock.new + (node.value.height + 2) * (node.value.height + 2) }
    ensures path_no_fewer { after_steps (node.value.height + 3) path.old ≤ path.new }
    ensures path { path.new ≤ path.old + 3 * (node.value.height + 1) }
    ensures joins_no_fewer { after_steps (8 * node.value.height) joins.old ≤ joins.new }
    ensures joins { joins.new ≤ joins.old + 32 * ((node.value.height + 1) * (node.value.height + 1)) }
{
    let (body, blank) = open(node, path);
    match body {
        Body::Leaf(leaf) => halves_of(leaf, key, blank, stock.give(), path),
        Body::Inner(inner) => {
            let (left, mid, right) = divide(inner, key, blank, stock, path);
            let (low, high) = cut(mid, key, stock, path, joins);
            let low = join(left, low, stock, joins);
            let high = join(high, right, stock, joins);
            (low, high)
        }
    }
}
