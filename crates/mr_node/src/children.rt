//! The children of an inner node.
ghost use Rattle.std.specs.Prelude.{◌≡◌, ◌+◌, ◌-◌, ◌<◌, ◌≤◌, ℕ, None, IfSome, ◌∷◌, ◌++◌, length, take, drop, slice_index_or};
ghost use Rattle.std.specs.List.{sum_by};
ghost use Rattle.mr_node.specs.EntryLists.{entries, AreEntries, IsPacked};
ghost use Rattle.tatp_rows.specs.Ordered.{IsOrderedBy};
ghost use Rattle.mr_node.specs.Rows.{key_of_pair, key_limit, KeysBelow};
ghost use Rattle.mr_node.specs.Levels.{IsChildPlace};

use crate::keys::{NO_KEY, count_below, is_between, put_key, take_key};
use crate::places::{last_to, move_to_end};
use crate::{Child, Inner};

/// Returns thirty-two places for children, none of which is used.
fn no_children<B>() -> [Option<Child<B>>; 32]
    ensures { IsPacked 0 result }
{
    [
        None, None, None, None, None, None, None, None, None, None, None, None, None, None, None,
        None, None, None, None, None, None, None, None, None, None, None, None, None, None, None,
        None, None,
    ]
}

/// Makes the part of an inner node of a height, without children.
pub fn empty_inner<B>(height: u64) -> Inner<B>
    ensures height { result.height ≡ height }
    ensures len { result.len ≡ 0 }
    ensures entries { AreEntries 0 result.leasts result.children }
{
    let children = no_children();
    Inner {
        height,
        len: 0,
        leasts: [NO_KEY; 32],
        children,
    }
}

/// Finds the place of the child to which a key belongs, which is the last one whose least key isn't above the key, or
/// the first one if there is none.
pub fn child_place<B>(inner: &Inner<B>, key: u64) -> usize
    requires some { 0 < inner.now.len }
    requires entries { AreEntries inner.now.len inner.now.leasts inner.now.children }
    requires ordered { IsOrderedBy key_of_pair (entries inner.now.leasts inner.now.children) }
    requires below { KeysBelow key_limit (entries inner.now.leasts inner.now.children) }
    ensures { IsChildPlace key result inner.now.len inner.now.leasts }
{
    count_below(&inner.leasts, key.saturating_add(1)).saturating_sub(1)
}

/// Does the same as `child_place`, in a function of its own.
#[inline(never)]
fn child_place_far<B>(inner: &Inner<B>, key: u64) -> usize
    requires some { 0 < inner.now.len }
    requires entries { AreEntries inner.now.len inner.now.leasts inner.now.children }
    requires ordered { IsOrderedBy key_of_pair (entries inner.now.leasts inner.now.children) }
    requires below { KeysBelow key_limit (entries inner.now.leasts inner.now.children) }
    ensures { IsChildPlace key result inner.now.len inner.now.leasts }
{
    child_place(inner, key)
}

/// Finds the place of the child to which a key belongs. If `GUESSED`, it first looks at a guess of the place.
#[inline(always)]
pub(crate) fn child_place_at<B, const GUESSED: bool>(
    inner: &Inner<B>,
    key: u64,
    guess: usize,
) -> usize
    requires some { 0 < inner.now.len }
    requires entries { AreEntries inner.now.len inner.now.leasts inner.now.children }
    requires ordered { IsOrderedBy key_of_pair (entries inner.now.leasts inner.now.children) }
    requires below { KeysBelow key_limit (entries inner.now.leasts inner.now.children) }
    ensures { IsChildPlace key result inner.now.len inner.now.leasts }
{
    if !GUESSED {
        return child_place(inner, key);
    }
    if is_between(&inner.leasts, guess, key) {
        return guess;
    }
    child_place_far(inner, key)
}

/// Returns the count of the child at a place, or 0 if there is none.
fn count_at<B>(inner: &Inner<B>, place: usize) -> u64
    requires { place < 32 }
    ensures { IfSome (slice_index_or inner.now.children place None) (λ k. result ≡ k.count) }
{
    match &inner.children[place] {
        Some(child) => child.count,
        None => 0,
    }
}

/// Returns the sum of the children's counts.
pub(crate) fn sum_counts<B>(inner: &Inner<B>) -> u64
    requires entries { AreEntries inner.now.len inner.now.leasts inner.now.children }
    requires fits { sum_by (λ k. k.1.count) (entries inner.now.leasts inner.now.children) < 18446744073709551616 }
    ensures { result ≡ sum_by (λ k. k.1.count) (entries inner.now.leasts inner.now.children) }
{
    let mut total = 0;
    for place in 0..inner.len {
        total += count_at(inner, place);
    }
    total
}

/// Removes the child at a place from an inner node's part, and returns it.
pub fn take_child<B>(inner: &mut Inner<B>, place: usize) -> Child<B>
    requires entries { AreEntries inner.old.len inner.old.leasts inner.old.children }
    requires within { place < inner.old.len }
    ensures height { inner.new.height ≡ inner.old.height }
    ensures len { inner.new.len + 1 ≡ inner.old.len }
    ensures entries { AreEntries inner.new.len inner.new.leasts inner.new.children }
    ensures rest { entries inner.new.leasts inner.new.children ≡ take place (entries inner.old.leasts inner.old.children) ++ drop (place + 1) (entries inner.old.leasts inner.old.children) }
    ensures child { entries inner.old.leasts inner.old.children ≡ take place (entries inner.old.leasts inner.old.children) ++ ((slice_index_or inner.old.leasts place 0, result) ∷ drop (place + 1) (entries inner.old.leasts inner.old.children)) }
{
    let child = inner.children[place].take();
    move_to_end(&mut inner.children, place, place + 1);
    take_key(&mut inner.leasts, place);
    inner.len -= 1;
    match child {
        Some(child) => child,
        None => unreachable!(),
    }
}

/// Puts a child into an inner node's part at a place.
pub(crate) fn put_child<B: Drop>(inner: &mut Inner<B>, place: usize, least: u64, child: Child<B>)
    requires entries { AreEntries inner.old.len inner.old.leasts inner.old.children }
    requires room { inner.old.len < 32 }
    requires within { place ≤ inner.old.len }
    ensures height { inner.new.height ≡ inner.old.height }
    ensures len { inner.new.len ≡ inner.old.len + 1 }
    ensures entries { AreEntries inner.new.len inner.new.leasts inner.new.children }
    ensures children { entries inner.new.leasts inner.new.children ≡ take place (entries inner.old.leasts inner.old.children) ++ ((least, child) ∷ drop place (entries inner.old.leasts inner.old.children)) }
{
    inner.children[31] = Some(child);
    last_to(&mut inner.children, place);
    put_key(&mut inner.leasts, place, least);
    inner.len += 1;
}
