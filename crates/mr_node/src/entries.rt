//! The entries of a leaf.
ghost use Rattle.std.specs.Prelude.{◌≡◌, ◌<◌, ◌≤◌, ◌+◌, ℕ, [], None, IsSome, IfSome, MatchResult, length, option_map, is_some, nat_le, slice_get, slice_set, Ok, Err, if◌then◌else◌};
ghost use Rattle.std.specs.List.{find};
ghost use Rattle.tatp_rows.specs.Ordered.{row_at, without_row};
ghost use Rattle.mr_node.specs.Rows.{key_limit, key_of_pair, value_at};
ghost use Rattle.mr_node.specs.Levels.{IsLeaf, pairs_of, seen_leaf};
ghost use Rattle.mr_node.specs.Entries.{IsThere, IsFree};
ghost use Rattle.mr_node.specs.Folds.{FoldsRows, WalksRows};
ghost use Rattle.mr_node.specs.Pages.{IsPage};
ghost use Rattle.mr_node.specs.Revisions.{revised_at, spent_at};
ghost use Rattle.mr_node.specs.Growth.{IsGrown, IsRoomAnswer, is_done};

use crate::keys::{NO_KEY, count_below, is_at, put_key, take_key};
use crate::{Leaf, Revise, Room};
use arrayvec::ArrayVec;

/// Makes a leaf without entries.
pub(crate) fn empty_leaf<V: Default>() -> Leaf<V>
    ensures leaf { IsLeaf result }
    ensures none { result.values.items ≡ [] }
{
    Leaf {
        keys: [NO_KEY; 32],
        values: ArrayVec::new(),
    }
}

/// Returns the place of a key in a leaf, or the place at which it would be if it isn't there.
fn search<V>(leaf: &Leaf<V>, key: u64) -> Result<usize, usize>
    requires { IsLeaf leaf.now }
    ensures { MatchResult result (λ place. IsThere key place leaf.now) (λ place. IsFree key place leaf.now) }
{
    let place = count_below(&leaf.keys, key);
    if is_at(&leaf.keys, place, key) {
        return Ok(place);
    }
    Err(place)
}

/// Returns the value at a key of a leaf.
fn find_entry<V>(leaf: &Leaf<V>, key: u64) -> Option<&V>
    requires { IsLeaf leaf.now }
    ensures { option_map (λ r. r.now) result ≡ value_at key (pairs_of leaf.now) }
{
    match search(leaf, key) {
        Ok(place) => Some(&leaf.values.as_slice()[place]),
        Err(_) => None,
    }
}

/// Does the same as `find_entry`, in a function of its own.
#[inline(never)]
fn find_far<V>(leaf: &Leaf<V>, key: u64) -> Option<&V>
    requires { IsLeaf leaf.now }
    ensures { option_map (λ r. r.now) result ≡ value_at key (pairs_of leaf.now) }
{
    find_entry(leaf, key)
}

/// Finds the value at a key of a leaf. If `GUESSED`, it first looks at a guess of the place.
#[inline(always)]
pub(crate) fn find_entry_at<V, const GUESSED: bool>(
    leaf: &Leaf<V>,
    key: u64,
    guess: usize,
) -> Option<&V>
    requires { IsLeaf leaf.now }
    ensures { option_map (λ r. r.now) result ≡ value_at key (pairs_of leaf.now) }
{
    if !GUESSED {
        return find_entry(leaf, key);
    }
    if is_at(&leaf.keys, guess, key) {
        return Some(&leaf.values.as_slice()[guess]);
    }
    find_far(leaf, key)
}

/// Changes the value at a place of a leaf.
fn revise_in<V, E: Revise<V>>(values: &mut ArrayVec<V, 32>, place: usize, revision: &mut E)
    requires { place < length values.old.items }
    ensures items { IfSome (slice_get values.old.items place) (λ v. values.new.items ≡ slice_set values.old.items place (E.revised revision.old v)) }
    ensures spent { IfSome (slice_get values.old.items place) (λ v. revision.new ≡ E.spent revision.old v) }
{
    revision.revise(&mut values.as_mut_slice()[place])
}

/// Changes the value at a key of a leaf. It returns false if the key isn't there.
fn revise_entry<V, E: Revise<V>>(leaf: &mut Leaf<V>, key: u64, revision: &mut E) -> bool
    requires { IsLeaf leaf.old }
    ensures rows { pairs_of leaf.new ≡ revised_at key (E.revised revision.old) (pairs_of leaf.old) }
    ensures len { length leaf.new.values.items ≡ length leaf.old.values.items }
    ensures leaf { IsLeaf leaf.new }
    ensures spent { revision.new ≡ spent_at key E.spent revision.old (pairs_of leaf.old) }
    ensures found { result ≡ is_some (value_at key (pairs_of leaf.old)) }
{
    match search(leaf, key) {
        Ok(place) => {
            revise_in(&mut leaf.values, place, revision);
            true
        }
        Err(_) => false,
    }
}

/// Does the same as `revise_entry`, in a function of its own.
#[inline(never)]
fn revise_far<V, E: Revise<V>>(leaf: &mut Leaf<V>, key: u64, revision: &mut E) -> bool
    requires { IsLeaf leaf.old }
    ensures rows { pairs_of leaf.new ≡ revised_at key (E.revised revision.old) (pairs_of leaf.old) }
    ensures len { length leaf.new.values.items ≡ length leaf.old.values.items }
    ensures leaf { IsLeaf leaf.new }
    ensures spent { revision.new ≡ spent_at key E.spent revision.old (pairs_of leaf.old) }
    ensures found { result ≡ is_some (value_at key (pairs_of leaf.old)) }
{
    revise_entry(leaf, key, revision)
}

/// Changes the value at a key of a leaf, and returns false if the key isn't there. If `GUESSED`, it first looks at a
/// guess of the place.
#[inline(always)]
pub(crate) fn revise_entry_at<V, E: Revise<V>, const GUESSED: bool>(
    leaf: &mut Leaf<V>,
    key: u64,
    guess: usize,
    revision: &mut E,
) -> bool
    requires { IsLeaf leaf.old }
    ensures rows { pairs_of leaf.new ≡ revised_at key (E.revised revision.old) (pairs_of leaf.old) }
    ensures len { length leaf.new.values.items ≡ length leaf.old.values.items }
    ensures leaf { IsLeaf leaf.new }
    ensures spent { revision.new ≡ spent_at key E.spent revision.old (pairs_of leaf.old) }
    ensures found { result ≡ is_some (value_at key (pairs_of leaf.old)) }
{
    if !GUESSED {
        return revise_entry(leaf, key, revision);
    }
    if is_at(&leaf.keys, guess, key) {
        revise_in(&mut leaf.values, guess, revision);
        return true;
    }
    revise_far(leaf, key, revision)
}

/// Puts an entry into a leaf with room, at the place of its key.
fn put_entry<V: Drop>(leaf: &mut Leaf<V>, place: usize, key: u64, value: V)
    requires leaf { IsLeaf leaf.old }
    requires small { key < key_limit }
    requires free { IsFree key place leaf.old }
    requires room { length leaf.old.values.items < 32 }
    ensures leaf { IsLeaf leaf.new }
    ensures grown { IsGrown key value (seen_leaf leaf.old) (seen_leaf leaf.new) }
{
    if place == leaf.values.len() {
        // Behind the last entry, nothing has to move.
        leaf.keys[place] = key;
        leaf.values.push(value);
        return;
    }
    put_key(&mut leaf.keys, place, key);
    leaf.values.insert(place, value);
}

/// Takes a value, and puts it into a leaf with room, at the place of its key.
fn take_in<V: Drop>(leaf: &mut Leaf<V>, place: usize, key: u64, value: &mut Option<V>)
    requires leaf { IsLeaf leaf.old }
    requires small { key < key_limit }
    requires free { IsFree key place leaf.old }
    requires room { length leaf.old.values.items < 32 }
    requires some { IsSome value.old }
    ensures leaf { IsLeaf leaf.new }
    ensures grown { IfSome value.old (λ v. IsGrown key v (seen_leaf leaf.old) (seen_leaf leaf.new)) }
    ensures value { value.new ≡ None }
{
    match value.take() {
        Some(value) => put_entry(leaf, place, key, value),
        None => unreachable!(),
    }
}

/// Puts a row into a leaf that has room.
pub(crate) fn insert_entry<V: Drop>(leaf: &mut Leaf<V>, key: u64, value: &mut Option<V>) -> Room
    requires leaf { IsLeaf leaf.old }
    requires small { key < key_limit }
    requires some { IsSome value.old }
    ensures leaf { IsLeaf leaf.new }
    ensures answer { IfSome value.old (λ v. IsRoomAnswer key v (seen_leaf leaf.old) (seen_leaf leaf.new) result) }
    ensures value { value.new ≡ (if is_done result then None else value.old) }
{
    match search(leaf, key) {
        Ok(_) => Room::Exists,
        Err(place) => {
            if leaf.values.is_full() {
                return Room::Full;
            }
            take_in(leaf, place, key, value);
            Room::Done
        }
    }
}

/// Puts a row whose key isn't there into a leaf with room.
pub(crate) fn insert_new<V: Drop>(leaf: &mut Leaf<V>, key: u64, value: &mut Option<V>)
    requires leaf { IsLeaf leaf.old }
    requires small { key < key_limit }
    requires missing { row_at key_of_pair key (pairs_of leaf.old) ≡ None }
    requires room { length leaf.old.values.items < 32 }
    requires some { IsSome value.old }
    ensures leaf { IsLeaf leaf.new }
    ensures grown { IfSome value.old (λ v. IsGrown key v (seen_leaf leaf.old) (seen_leaf leaf.new)) }
    ensures value { value.new ≡ None }
{
    match search(leaf, key) {
        Ok(_) => unreachable!(),
        Err(place) => take_in(leaf, place, key, value),
    }
}

/// Removes the row at a key from a leaf, and returns its value.
pub(crate) fn remove_entry<V: Drop + Default>(leaf: &mut Leaf<V>, key: u64) -> Option<V>
    requires { IsLeaf leaf.old }
    ensures rows { pairs_of leaf.new ≡ without_row key_of_pair key (pairs_of leaf.old) }
    ensures len { length leaf.old.values.items ≤ length leaf.new.values.items + 1 }
    ensures leaf { IsLeaf leaf.new }
    ensures value { result ≡ value_at key (pairs_of leaf.old) }
{
    match search(leaf, key) {
        Ok(place) => {
            take_key(&mut leaf.keys, place);
            Some(leaf.values.remove(place))
        }
        Err(_) => None,
    }
}

/// Returns the first row of a leaf whose key is this one or higher.
pub(crate) fn first_entry<V>(leaf: &Leaf<V>, key: u64) -> Option<(u64, &V)>
    requires { IsLeaf leaf.now }
    ensures { option_map (λ r. (r.0, r.1.now)) result ≡ find (λ p. nat_le key p.0) (pairs_of leaf.now) }
{
    let place = count_below(&leaf.keys, key);
    if place >= leaf.values.len() {
        return None;
    }
    Some((leaf.keys[place], &leaf.values.as_slice()[place]))
}

/// Folds the rows of a leaf.
pub(crate) fn fold_entries<V, A, F: Fn(A, u64, &V) -> A>(leaf: &Leaf<V>, init: A, f: &F) -> A
    requires callable { F.IsAlwaysCallable f.now }
    requires leaf { IsLeaf leaf.now }
    ensures { FoldsRows (λ a k r b. F.post f.now a k r b) init (pairs_of leaf.now) result }
{
    let mut folded = init;
    for place in 0..leaf.values.len() {
        folded = f(folded, leaf.keys[place], &leaf.values.as_slice()[place]);
    }
    folded
}

/// Hands each row of a leaf, in order, to a closure, together with what the closure writes to.
pub(crate) fn walk_entries<V, A, F: Fn(&mut A, u64, &V)>(leaf: &Leaf<V>, so_far: &mut A, f: &F)
    requires callable { F.IsAlwaysCallable f.now }
    requires leaf { IsLeaf leaf.now }
    ensures { WalksRows (λ a k r b. F.post f.now a k r tt b) so_far.old (pairs_of leaf.now) so_far.new }
{
    for place in 0..leaf.values.len() {
        f(so_far, leaf.keys[place], &leaf.values.as_slice()[place]);
    }
}

/// Puts the rows of a leaf, from a key on, into an empty page.
pub(crate) fn page_entries<V: Copy>(leaf: &Leaf<V>, key: u64, page: &mut ArrayVec<(u64, V), 32>)
    requires leaf { IsLeaf leaf.now }
    requires empty { page.old.items ≡ [] }
    ensures { IsPage key (pairs_of leaf.now) page.new.items }
{
    let stop = count_below(&leaf.keys, key);
    for place in stop..leaf.values.len() {
        page.push((leaf.keys[place], leaf.values.as_slice()[place]));
    }
}
