//! The moves of entries or children between two neighbours.
ghost use Rattle.std.specs.Prelude.{◌≡◌, ◌+◌, ◌-◌, ◌*◌, ◌<◌, ◌≤◌, ℕ, List, Some, ◌++◌, length, reverse, take, drop, min, slice_get};
ghost use Rattle.std.specs.List.{zip};
ghost use Rattle.mr_node.specs.EntryLists.{AreEntries, AreKeyed, entries};
ghost use Rattle.mr_node.specs.Levels.{pairs_of};
ghost use Rattle.mr_node.specs.Pairs.{AreEvenWidths, IsShare};

use crate::keys::{NO_KEY, drop_keys};
use crate::places::{close_front, turn_front};
use crate::{Child, Inner, Leaf};
use arrayvec::ArrayVec;
use std::mem;

/// A leaf or the part of an inner node, as a list of entries that can be given away at both ends and taken at the end.
pub(crate) trait EntryList {
    type Item;

    ghost list: { Self → List (ℕ × Self.Item) };

    ghost is_entry_list: { Self → Type 0 };

    ghost height: { Self → ℕ };

    /// Returns the number of entries.
    fn width(&self) -> usize
        requires { is_entry_list self.now }
        ensures { result ≡ length (list self.now) };

    /// Moves the last entry to the end of another list.
    fn give_last(&mut self, to: &mut Self)
        requires entries { is_entry_list self.old }
        requires to_entries { is_entry_list to.old }
        requires some { 0 < length (list self.old) }
        requires room { length (list to.old) < 32 }
        ensures entries { is_entry_list self.new }
        ensures to_entries { is_entry_list to.new }
        ensures rest { list self.new ≡ take (length (list self.old) - 1) (list self.old) }
        ensures moved { list to.new ≡ list to.old ++ drop (length (list self.old) - 1) (list self.old) }
        ensures height { height self.new ≡ height self.old }
        ensures to_height { height to.new ≡ height to.old };

    /// Moves the first entries to the end of another list.
    fn give_front(&mut self, to: &mut Self, count: usize)
        requires entries { is_entry_list self.old }
        requires to_entries { is_entry_list to.old }
        requires some { count ≤ length (list self.old) }
        requires room { length (list to.old) + count ≤ 32 }
        ensures entries { is_entry_list self.new }
        ensures to_entries { is_entry_list to.new }
        ensures rest { list self.new ≡ drop count (list self.old) }
        ensures moved { list to.new ≡ list to.old ++ take count (list self.old) }
        ensures height { height self.new ≡ height self.old }
        ensures to_height { height to.new ≡ height to.old };

    /// Reverses the order of the entries.
    fn turn(&mut self)
        requires { is_entry_list self.old }
        ensures entries { is_entry_list self.new }
        ensures turned { list self.new ≡ reverse (list self.old) }
        ensures height { height self.new ≡ height self.old };
}

/// Takes the value out of a place, and leaves a default one there.
fn take_value<V: Default>(values: &mut ArrayVec<V, 32>, place: usize) -> V
    requires { place < length values.old.items }
    ensures rest { drop (place + 1) values.new.items ≡ drop (place + 1) values.old.items }
    ensures len { length values.new.items ≡ length values.old.items }
    ensures value { slice_get values.old.items place ≡ Some result }
{
    mem::take(&mut values.as_mut_slice()[place])
}

/// Moves the first entries of a leaf, seen as its keys and its values, to the end of another leaf. Default values stay
/// in their places.
fn move_front<V: Drop + Default>(
    keys: &[u64; 32],
    values: &mut ArrayVec<V, 32>,
    count: usize,
    to: &mut Leaf<V>,
)
    requires entries { AreKeyed keys.now values.old.items }
    requires to_entries { AreKeyed to.old.keys to.old.values.items }
    requires some { count ≤ length values.old.items }
    requires room { length to.old.values.items + count ≤ 32 }
    ensures to_entries { AreKeyed to.new.keys to.new.values.items }
    ensures moved { pairs_of to.new ≡ pairs_of to.old ++ take count (zip keys.now values.old.items) }
    ensures rest { drop count values.new.items ≡ drop count values.old.items }
    ensures len { length values.new.items ≡ length values.old.items }
{
    for place in 0..count {
        to.keys[to.values.len()] = keys[place];
        to.values.push(take_value(values, place));
    }
}

impl<V: Drop + Default> EntryList for Leaf<V> {
    type Item = V;

    ghost list = { pairs_of };

    ghost is_entry_list = { λ leaf. AreKeyed leaf.keys leaf.values.items };

    ghost height = { λ leaf. 0 };

    fn width(&self) -> usize {
        self.values.len()
    }

    fn give_last(&mut self, to: &mut Self) {
        let last = self.values.len() - 1;
        to.keys[to.values.len()] = self.keys[last];
        self.keys[last] = NO_KEY;
        match self.values.pop() {
            Some(value) => to.values.push(value),
            None => unreachable!(),
        }
    }

    fn give_front(&mut self, to: &mut Self, count: usize) {
        let len = self.values.len();
        move_front(&self.keys, &mut self.values, count, to);
        close_front(self.values.as_mut_slice(), count);
        self.values.truncate(len - count);
        drop_keys(&mut self.keys, count);
    }

    fn turn(&mut self) {
        turn_front(&mut self.keys, self.values.len());
        self.values.as_mut_slice().reverse();
    }
}

impl<B: Drop> EntryList for Inner<B> {
    type Item = Child<B>;

    ghost list = { λ inner. entries inner.leasts inner.children };

    ghost is_entry_list = { λ inner. AreEntries inner.len inner.leasts inner.children };

    ghost height = { λ inner. inner.height };

    fn width(&self) -> usize {
        self.len
    }

    fn give_last(&mut self, to: &mut Self) {
        self.len -= 1;
        let last = self.len;
        to.leasts[to.len] = self.leasts[last];
        self.leasts[last] = NO_KEY;
        to.children[to.len] = self.children[last].take();
        to.len += 1;
    }

    fn give_front(&mut self, to: &mut Self, count: usize) {
        let low = to.len + count;
        self.turn();
        while to.len < low {
            self.give_last(to);
        }
        self.turn();
    }

    fn turn(&mut self) {
        turn_front(&mut self.leasts, self.len);
        turn_front(&mut self.children, self.len);
    }
}

/// Moves entries from the end of the left one to that of the right one, until the left one has `low`.
fn spill<R: EntryList>(left: &mut R, right: &mut R, low: usize)
    requires left_entries { R.is_entry_list left.old }
    requires right_entries { R.is_entry_list right.old }
    requires room { length (R.list left.old) + length (R.list right.old) ≤ low + 32 }
    ensures left_entries { R.is_entry_list left.new }
    ensures right_entries { R.is_entry_list right.new }
    ensures list { R.list left.new ++ reverse (R.list right.new) ≡ R.list left.old ++ reverse (R.list right.old) }
    ensures len { length (R.list left.new) ≡ min (length (R.list left.old)) low }
    ensures left_height { R.height left.new ≡ R.height left.old }
    ensures right_height { R.height right.new ≡ R.height right.old }
{
    while left.width() > low {
        left.give_last(right);
    }
}

/// Moves entries between two neighbours until the left one has `low` of them.
pub(crate) fn share<R: EntryList>(left: &mut R, right: &mut R, low: usize)
    requires left_entries { R.is_entry_list left.old }
    requires right_entries { R.is_entry_list right.old }
    requires fits { low ≤ 32 }
    requires enough { low ≤ length (R.list left.old) + length (R.list right.old) }
    requires room { length (R.list left.old) + length (R.list right.old) ≤ low + 32 }
    ensures left_entries { R.is_entry_list left.new }
    ensures right_entries { R.is_entry_list right.new }
    ensures list { R.list left.new ++ R.list right.new ≡ R.list left.old ++ R.list right.old }
    ensures len { length (R.list left.new) ≡ low }
    ensures left_height { R.height left.new ≡ R.height left.old }
    ensures right_height { R.height right.new ≡ R.height right.old }
{
    let have = left.width();
    if have < low {
        right.give_front(left, low - have);
        return;
    }
    right.turn();
    spill(left, right, low);
    right.turn();
}

/// Returns how many entries the left one of two neighbours gets when they have so many together: all of them if they
/// fit, and half otherwise.
pub(crate) fn low_of(both: usize) -> usize
    requires { both ≤ 64 }
    ensures share { IsShare both result }
    ensures half { 32 < both → (2 * result ≤ both) × (both ≤ 2 * result + 1) }
{
    if both <= 32 {
        return both;
    }
    both / 2
}

/// Moves entries between two neighbours until the left one has `low` of them. It returns true if the left one has all
/// of them then, and otherwise both are half full.
pub(crate) fn even<R: EntryList>(left: &mut R, right: &mut R, low: usize) -> bool
    requires left_entries { R.is_entry_list left.old }
    requires right_entries { R.is_entry_list right.old }
    requires share { IsShare (length (R.list left.old) + length (R.list right.old)) low }
    ensures left_entries { R.is_entry_list left.new }
    ensures right_entries { R.is_entry_list right.new }
    ensures list { R.list left.new ++ R.list right.new ≡ R.list left.old ++ R.list right.old }
    ensures even { AreEvenWidths result (length (R.list left.new)) (length (R.list right.new)) }
    ensures len { length (R.list left.new) ≡ low }
    ensures left_height { R.height left.new ≡ R.height left.old }
    ensures right_height { R.height right.new ≡ R.height right.old }
{
    share(left, right, low);
    right.width() == 0
}
