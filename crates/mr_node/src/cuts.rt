//! The cuts of a node's part in two.
ghost use Rattle.std.specs.Prelude.{◌≡◌, ◌≤◌, ℕ, [], ◌++◌};
ghost use Rattle.mr_node.specs.EntryLists.{entries, AreEntries};
ghost use Rattle.mr_node.specs.Rows.{KeysBelow, KeysFrom};
ghost use Rattle.mr_node.specs.Levels.{IsLeaf, pairs_of};
ghost use Rattle.mr_node.specs.Steps.{after_steps};

use crate::children::empty_inner;
use crate::entries::empty_leaf;
use crate::entry_lists::share;
use crate::keys::count_below;
use crate::{Inner, Leaf, Meter, Node, build_leaf};

/// Cuts a leaf at a key, and returns the entries whose key is this one or higher.
pub fn cut_leaf<V: Drop + Default>(leaf: &mut Leaf<V>, key: u64) -> Leaf<V>
    requires { IsLeaf leaf.old }
    ensures low { IsLeaf leaf.new }
    ensures high { IsLeaf result }
    ensures rows { pairs_of leaf.new ++ pairs_of result ≡ pairs_of leaf.old }
    ensures below { KeysBelow key (pairs_of leaf.new) }
    ensures from { KeysFrom key (pairs_of result) }
{
    let mut high = empty_leaf();
    let place = count_below(&leaf.keys, key);
    share(leaf, &mut high, place);
    high
}

/// Cuts the children of an inner node's part at a place, and returns those from there on.
pub fn cut_children<B: Drop>(inner: &mut Inner<B>, place: usize) -> Inner<B>
    requires entries { AreEntries inner.old.len inner.old.leasts inner.old.children }
    requires within { place ≤ inner.old.len }
    ensures low { AreEntries inner.new.len inner.new.leasts inner.new.children }
    ensures high { AreEntries result.len result.leasts result.children }
    ensures children { entries inner.new.leasts inner.new.children ++ entries result.leasts result.children ≡ entries inner.old.leasts inner.old.children }
    ensures len { inner.new.len ≡ place }
    ensures low_height { inner.new.height ≡ inner.old.height }
    ensures high_height { result.height ≡ inner.old.height }
{
    let mut high = empty_inner(inner.height);
    share(inner, &mut high, place);
    high
}

/// Builds a leaf without entries in a box. It takes one step.
pub fn build_blank<V: Drop + Default>(blank: Box<Node<V>>, meter: &mut Meter) -> Box<Node<V>>
    ensures seen { result.value ≡ record { height = 0; width = 0; rows = [] } }
    ensures steps { meter.new ≡ after_steps 1 meter.old }
{
    build_leaf(empty_leaf(), blank, meter)
}
