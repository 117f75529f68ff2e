//! The keys of a node: a plain array of 32 in rising order, with the greatest number in the unused places.
ghost use Rattle.std.specs.Prelude.{◌≡◌, ◌+◌, ◌-◌, ◌*◌, ◌<◌, ◌≤◌, [], ◌∷◌, ◌++◌, insert, remove, take, drop, replicate, slice_index_or, slice_set, nat_lt, true, false, if◌then◌else◌};
ghost use Rattle.mr_node.specs.EntryLists.{no_key};
ghost use Rattle.mr_node.specs.Search.{IsRising, IsStop};

use crate::places::move_to_end;

/// The number in the unused places behind the last key.
pub(crate) const NO_KEY: u64 = u64::MAX;

/// Returns 1 if the key at a place is less than this one, and 0 otherwise.
fn is_less(keys: &[u64; 32], place: usize, key: u64) -> usize
    requires { place < 32 }
    ensures { result ≡ (if nat_lt (slice_index_or keys.now place 0) key then 1 else 0) }
{
    usize::from(keys[place] < key)
}

/// Returns how many of seven keys, which are four places apart, are less than a key.
fn fours_below(keys: &[u64; 32], key: u64) -> usize
    requires { IsRising keys.now }
    ensures within { result < 8 }
    ensures before { 0 < result → slice_index_or keys.now (4 * result - 1) 0 < key }
    ensures next { result < 7 → key ≤ slice_index_or keys.now (4 * result + 3) 0 }
{
    is_less(keys, 3, key)
        + is_less(keys, 7, key)
        + is_less(keys, 11, key)
        + is_less(keys, 15, key)
        + is_less(keys, 19, key)
        + is_less(keys, 23, key)
        + is_less(keys, 27, key)
}

/// Returns how many of the keys are less than a key. It adds up the results of eleven comparisons, and has no branch
/// that depends on a key.
pub(crate) fn count_below(keys: &[u64; 32], key: u64) -> usize
    requires { IsRising keys.now }
    ensures { IsStop key result keys.now }
{
    let low = 4 * fours_below(keys, key);
    low + is_less(keys, low, key)
        + is_less(keys, low + 1, key)
        + is_less(keys, low + 2, key)
        + is_less(keys, low + 3, key)
}

/// Returns whether a key is at a place. The number behind the last key is no key.
#[inline(always)]
pub(crate) fn is_at(keys: &[u64; 32], place: usize, key: u64) -> bool
    ensures there { result ≡ true → (place < 32) × (slice_index_or keys.now place 0 ≡ key) × (key < no_key) }
    ensures other { result ≡ false → place < 32 → key < no_key → slice_index_or keys.now place 0 ≡ key → ⊥ }
{
    place < 32 && keys[place] == key && key != NO_KEY
}

/// Returns whether a key is at least the one at a place, and less than the next one. For the last place it returns
/// false.
#[inline(always)]
pub(crate) fn is_between(keys: &[u64; 32], place: usize, key: u64) -> bool
    ensures { result ≡ true → (place < 31) × (slice_index_or keys.now place 0 ≤ key) × (key < slice_index_or keys.now (place + 1) 0) }
{
    place < 31 && keys[place] <= key && key < keys[place + 1]
}

/// Puts a key among the others, and drops the number in the last place.
pub(crate) fn put_key(keys: &mut [u64; 32], place: usize, key: u64)
    requires { place < 32 }
    ensures { keys.new ≡ insert (take 31 keys.old) place key }
{
    keys.copy_within(place..31, place + 1);
    keys[place] = key;
}

/// Removes the first keys, and closes the gap.
pub(crate) fn drop_keys(keys: &mut [u64; 32], count: usize)
    requires { count ≤ 32 }
    ensures { keys.new ≡ drop count keys.old ++ replicate count no_key }
{
    keys.copy_within(count..32, 0);
    keys[32 - count..].fill(NO_KEY);
}

/// Removes the key at a place, and closes the gap.
pub(crate) fn take_key(keys: &mut [u64; 32], place: usize)
    requires { place < 32 }
    ensures { keys.new ≡ remove keys.old place ++ no_key ∷ [] }
{
    keys[place] = NO_KEY;
    move_to_end(keys, place, place + 1);
}
