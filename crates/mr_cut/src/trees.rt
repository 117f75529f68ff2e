//! The slice and the meld of whole trees.
ghost use Rattle.std.specs.Prelude.{◌≡◌, ◌+◌, ◌-◌, ◌*◌, ◌≤◌, max, ◌++◌, []};
ghost use Rattle.std.specs.Int.{abs_diff};
ghost use Rattle.mr_cut.specs.Bounds.{join_steps, blanks_for_slice, most_of_joins, most_of_slice, blanks_for_meld, most_of_meld, fewest_of_meld};
ghost use Rattle.mr_cut.specs.Cuts.{AreApart, rows_below, rows_from};
ghost use Rattle.mr_subtree.specs.Trees.{IsRoot};

use crate::cuts::cut;
use crate::joins::join;
use mr_node::{Meter, Node, Stock};
use mr_subtree::SubTree;
use std::mem;

/// A tree that was cut in two.
#[derive(Drop)]
pub struct Cut<V> {
    /// The rows with keys below the key.
    pub low: SubTree<V>,
    /// The rows with keys from the key on.
    pub high: SubTree<V>,
    /// How many steps the cut took.
    pub steps: u64,
    /// How many of the steps were on the path from the root to the key. The others joined what lies on both sides of
    /// it.
    pub path: u64,
}

/// Takes the root of a tree out, in a box, and leaves the tree without rows.
#[inline(never)]
fn take_root<V: Drop + Default>(tree: &mut SubTree<V>, mut blank: Box<Node<V>>) -> Box<Node<V>>
    ensures root { result.value ≡ tree.old }
    ensures rules { IsRoot result.value }
    ensures rows { tree.new.rows ≡ [] }
    ensures height { tree.new.height ≡ 0 }
{
    let Ok(empty) = SubTree::new(tree.alloc()) else {
        unreachable!()
    };
    *blank = mem::replace(tree, empty).into_root();
    blank
}

/// Makes a tree of a root, in the place of another tree.
#[inline(never)]
fn put_root<V: Drop>(place: &mut SubTree<V>, root: Box<Node<V>>)
    requires { IsRoot root.value }
    ensures { place.new ≡ root.value }
{
    let alloc = place.alloc();
    drop(mem::replace(place, SubTree::from_root(alloc, Box::into_inner(root))));
}

/// Cuts a tree at a key, with at most three steps for each level on the path, and two melds for each level on its
/// sides. It takes no memory except the blank nodes of the stock (`need_slice`).
pub fn slice<V: Drop + Default>(tree: SubTree<V>, key: u64, stock: &mut Stock<V>) -> Cut<V>
    requires stock { blanks_for_slice tree.height ≤ stock.old }
    ensures low { result.low.rows ≡ rows_below key tree.rows }
    ensures high { result.high.rows ≡ rows_from key tree.rows }
    ensures apart { AreApart result.low.rows result.high.rows }
    ensures heights { (result.low.height ≤ tree.height) × (result.high.height ≤ tree.height) }
    ensures path { result.path ≤ 3 * (tree.height + 1) }
    ensures path_no_fewer { tree.height + 3 ≤ result.path }
    ensures joins { result.steps ≤ result.path + most_of_joins tree.height }
    ensures steps { result.steps ≤ most_of_slice tree.height }
    ensures no_fewer { result.path + 8 * tree.height ≤ result.steps }
{
    let mut low = tree;
    let Ok(mut high) = SubTree::new(low.alloc()) else {
        unreachable!()
    };
    let (steps, path) = slice_into(&mut low, &mut high, key, stock);
    Cut {
        low,
        high,
        steps,
        path,
    }
}

/// Cuts a tree at a key, as `slice` does. The tree keeps the rows with keys below the key, and the others replace the
/// rows of another tree. It returns how many steps it took, and how many of them were on the path.
pub fn slice_into<V: Drop + Default>(
    tree: &mut SubTree<V>,
    high: &mut SubTree<V>,
    key: u64,
    stock: &mut Stock<V>,
) -> (u64, u64)
    requires stock { blanks_for_slice tree.old.height ≤ stock.old }
    ensures low { tree.new.rows ≡ rows_below key tree.old.rows }
    ensures high { high.new.rows ≡ rows_from key tree.old.rows }
    ensures apart { AreApart tree.new.rows high.new.rows }
    ensures heights { (tree.new.height ≤ tree.old.height) × (high.new.height ≤ tree.old.height) }
    ensures path { result.1 ≤ 3 * (tree.old.height + 1) }
    ensures path_no_fewer { tree.old.height + 3 ≤ result.1 }
    ensures joins { result.0 ≤ result.1 + most_of_joins tree.old.height }
    ensures steps { result.0 ≤ most_of_slice tree.old.height }
    ensures no_fewer { result.1 + 8 * tree.old.height ≤ result.0 }
{
    // For the prover: the height is below 16, on which the steps' bounds rest.
    let _ = tree.height();
    let root = take_root(tree, stock.give());
    let mut path = Meter::new();
    let mut joins = Meter::new();
    let (below, above) = cut(root, key, stock, &mut path, &mut joins);
    put_root(tree, below);
    put_root(high, above);
    (path.steps() + joins.steps(), path.steps())
}

/// Joins two trees, where the keys of the low one are below those of the high one, and returns how many steps it took.
/// There are four steps, two for each level by which the heights differ, five for each of those levels from which two
/// nodes came back, and one for a new root. It takes no memory except the blank nodes of the stock (`need_meld`): two,
/// one for each such level, and one for a new root.
pub fn meld<V: Drop + Default>(
    mut low: SubTree<V>,
    mut high: SubTree<V>,
    stock: &mut Stock<V>,
) -> (SubTree<V>, u64)
    requires apart { AreApart low.rows high.rows }
    requires stock { blanks_for_meld low.height high.height ≤ stock.old }
    ensures rows { result.0.rows ≡ low.rows ++ high.rows }
    ensures stock { stock.new + 2 ≤ stock.old }
    ensures used { stock.old ≤ stock.new + blanks_for_meld low.height high.height }
    ensures count { result.1 ≡ join_steps (abs_diff low.height high.height) (stock.old - stock.new - 2) (result.0.height - max low.height high.height) }
    ensures steps { result.1 ≤ most_of_meld low.height high.height }
    ensures no_fewer { fewest_of_meld low.height high.height ≤ result.1 }
{
    let steps = meld_from(&mut low, &mut high, stock);
    drop(high);
    (low, steps)
}

/// Joins a tree with another one, as `meld` does. The tree gets the rows of both, and the other one has none then. It
/// returns how many steps it took.
pub fn meld_from<V: Drop + Default>(
    low: &mut SubTree<V>,
    high: &mut SubTree<V>,
    stock: &mut Stock<V>,
) -> u64
    requires apart { AreApart low.old.rows high.old.rows }
    requires stock { blanks_for_meld low.old.height high.old.height ≤ stock.old }
    ensures rows { low.new.rows ≡ low.old.rows ++ high.old.rows }
    ensures stock { stock.new + 2 ≤ stock.old }
    ensures used { stock.old ≤ stock.new + blanks_for_meld low.old.height high.old.height }
    ensures count { result ≡ join_steps (abs_diff low.old.height high.old.height) (stock.old - stock.new - 2) (low.new.height - max low.old.height high.old.height) }
    ensures steps { result ≤ most_of_meld low.old.height high.old.height }
    ensures no_fewer { fewest_of_meld low.old.height high.old.height ≤ result }
    ensures left { (high.new.rows ≡ []) × (high.new.height ≡ 0) }
{
    let first = take_root(low, stock.give());
    let second = take_root(high, stock.give());
    let mut meter = Meter::new();
    let root = join(first, second, stock, &mut meter);
    put_root(low, root);
    meter.steps()
}
