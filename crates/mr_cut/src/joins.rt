//! The join of two trees.
ghost use Rattle.std.specs.Prelude.{◌≡◌, ◌+◌, ◌-◌, ◌<◌, ◌≤◌, max, ◌++◌};
ghost use Rattle.std.specs.Int.{abs_diff};
ghost use Rattle.tatp_rows.specs.Ordered.{IsOrderedBy};
ghost use Rattle.mr_node.specs.Rows.{key_of_pair};
ghost use Rattle.mr_node.specs.Steps.{after_steps};
ghost use Rattle.mr_subtree.specs.Trees.{IsRoot};
ghost use Rattle.mr_cut.specs.Bounds.{join_steps, most_of_meld, fewest_of_meld};
ghost use Rattle.mr_cut.specs.SideJoins.{more_of};
ghost use Rattle.mr_cut.specs.Joins.{FitUnderRoot, IsRootOf, IsRootCount, IsHeightOfBoth, IsLower};

use crate::side_joins::{Side, join_side, turned};
use mr_node::{Meter, Node, Stock, build_inner, empty_inner, insert_child};

/// Makes the root over one node or two, which is the one node itself, or a new root over both. It takes one step if
/// there are two.
#[inline(never)]
fn root_of_both<V: Drop + Default>(
    one: Box<Node<V>>,
    two: Option<Box<Node<V>>>,
    stock: &mut Stock<V>,
    meter: &mut Meter,
) -> Box<Node<V>>
    requires whole { FitUnderRoot one.value two }
    requires stock { 0 < stock.old }
    ensures root { IsRootOf one.value two result.value }
    ensures stock { stock.old ≡ stock.new + more_of two }
    ensures steps { IsRootCount two meter.old meter.new }
{
    match two {
        Some(two) => {
            let mut root = empty_inner(one.height() + 1);
            insert_child(&mut root, 0, one);
            insert_child(&mut root, 1, two);
            build_inner(root, stock.give(), meter)
        }
        None => one,
    }
}

/// Returns the side of the higher one of two roots on which the other one is joined, given their heights.
fn side_of(low: u64, high: u64) -> Side
    ensures { IsLower result low high }
{
    if high <= low { Side::High } else { Side::Low }
}

/// Joins two roots, so that the rows of the low one come before those of the high one.
#[inline(never)]
pub(crate) fn join<V: Drop + Default>(
    low: Box<Node<V>>,
    high: Box<Node<V>>,
    stock: &mut Stock<V>,
    meter: &mut Meter,
) -> Box<Node<V>>
    requires low_root { IsRoot low.value }
    requires high_root { IsRoot high.value }
    requires ordered { IsOrderedBy key_of_pair (low.value.rows ++ high.value.rows) }
    requires stock { abs_diff low.value.height high.value.height + 1 ≤ stock.old }
    ensures root { IsRoot result.value }
    ensures rows { result.value.rows ≡ low.value.rows ++ high.value.rows }
    ensures height { IsHeightOfBoth low.value high.value result.value.height }
    ensures stock { stock.old ≤ stock.new + (abs_diff low.value.height high.value.height + 1) }
    ensures fewer { stock.new ≤ stock.old }
    ensures count { meter.new ≡ after_steps (join_steps (abs_diff low.value.height high.value.height) (stock.old - stock.new) (result.value.height - max low.value.height high.value.height)) meter.old }
    ensures no_fewer { after_steps (fewest_of_meld low.value.height high.value.height) meter.old ≤ meter.new }
    ensures steps { meter.new ≤ meter.old + most_of_meld low.value.height high.value.height }
{
    let side = side_of(low.height(), high.height());
    let (node, other) = turned(side, low, high);
    let (one, two) = join_side(side, node, other, stock, meter);
    root_of_both(one, two, stock, meter)
}
