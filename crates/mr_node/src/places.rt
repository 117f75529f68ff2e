//! The arrays of 32 places, of which the first ones are used.
ghost use Rattle.std.specs.Prelude.{◌≡◌, ◌+◌, ◌-◌, ◌<◌, ◌≤◌, List, [], ◌∷◌, ◌++◌, length, reverse, take, drop, slice_range, insert};
ghost use Rattle.std.specs.List.{remove_range};

use std::mem;

/// Moves the last element to `place`, and each element from there on up by one.
pub(crate) fn last_to<T>(items: &mut [T], place: usize)
    requires { place < length items.old }
    ensures { (front : List T) (last : T) → items.old ≡ front ++ last ∷ [] → items.new ≡ insert front place last }
{
    items[place..].rotate_right(1);
}

/// Moves the elements from `start` up to `end` to the end of the others.
pub(crate) fn move_to_end<T>(items: &mut [T], start: usize, end: usize)
    requires start_le_end { start ≤ end }
    requires in_bounds { end ≤ length items.old }
    ensures { items.new ≡ remove_range items.old start end ++ slice_range items.old start end }
{
    items[start..].rotate_left(end - start);
}

/// Moves the values from `count` on down to the front.
pub(crate) fn close_front<X: Drop + Default>(places: &mut [X], count: usize)
    requires { count ≤ length places.old }
    ensures front { take (length places.old - count) places.new ≡ drop count places.old }
    ensures len { length places.new ≡ length places.old }
{
    for place in count..places.len() {
        places[place - count] = mem::take(&mut places[place]);
    }
}

/// Reverses the order of the first `len` elements.
pub(crate) fn turn_front<T>(items: &mut [T], len: usize)
    requires { len ≤ length items.old }
    ensures { items.new ≡ reverse (take len items.old) ++ drop len items.old }
{
    items[..len].reverse();
}
