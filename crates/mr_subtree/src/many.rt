//! The lookup of up to 16 keys at once. It goes down one level of all paths, and then the next one, so that their
//! memory accesses overlap.
ghost use Rattle.std.specs.Prelude.{◌≡◌, ◌≤◌, [], length, map};
ghost use Rattle.mr_node.specs.Rows.{value_at};
ghost use Rattle.mr_subtree.specs.Inside.{HaveSameValues, KeepSameValues};

use crate::subtree::SubTree;
use arrayvec::ArrayVec;
use mr_node::Node;

/// Returns the next nodes on the paths to keys, which are the children to which the keys belong.
#[inline]
fn next_nodes<'a, V>(mut nodes: [&'a Node<V>; 16], keys: &[u64]) -> [&'a Node<V>; 16]
    requires { length keys.now ≤ 16 }
    ensures { KeepSameValues keys.now nodes.entry result }
{
    for place in 0..keys.len() {
        nodes[place] = nodes[place].towards(keys[place]);
    }
    nodes
}

/// Returns the leaves to which keys belong, in the order of the keys.
#[inline]
fn leaves<'a, V>(root: &'a Node<V>, keys: &[u64]) -> [&'a Node<V>; 16]
    requires { length keys.now ≤ 16 }
    ensures { HaveSameValues root.now.rows keys.now result }
{
    let mut nodes = [root; 16];
    for _ in 0..root.height() {
        nodes = next_nodes(nodes, keys);
    }
    nodes
}

impl<V: Copy> SubTree<V> {
    /// Puts the values at up to 16 keys into an empty list, one for each key in the order of the keys, with `None` for
    /// a key that isn't there. The keys are looked up with overlapping memory accesses.
    pub fn copy_many(&self, keys: &[u64], found: &mut ArrayVec<Option<V>, 16>)
        requires few { length keys.now ≤ 16 }
        requires empty { found.old.items ≡ [] }
        ensures { found.new.items ≡ map (λ key. value_at key self.now.rows) keys.now }
    {
        let nodes = leaves(self.root(), keys);
        for place in 0..keys.len() {
            found.push(nodes[place].find(keys[place]).copied());
        }
    }
}
