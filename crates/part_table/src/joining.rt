//! The join of a loose piece to a part next to it.
ghost use Rattle.std.specs.Prelude.{◌≡◌, ◌-◌, ◌<◌, remove, slice_set};
ghost use Rattle.arrayvec.specs.ArrayVec.{array_vec_len};
ghost use Rattle.part_table.specs.Take.{joint};

use crate::region::{Region, Side};
use arrayvec::ArrayVec;

/// Returns two neighbours as one region of the part, which has a loose piece on one side.
pub(crate) fn joint(first: Region, second: Region, side: Side) -> Region
    ensures { result ≡ joint first second side }
{
    Region {
        lo: first.lo,
        hi: second.hi,
        place: match side {
            Side::Low => second.place,
            Side::High => first.place,
        },
    }
}

/// Puts one region in the place of two, of which the second has this place.
pub(crate) fn put_one(list: &mut ArrayVec<Region, 32>, index: usize, region: Region)
    requires second { 0 < index }
    requires within { index < array_vec_len list.old }
    ensures { list.new.items ≡ remove (slice_set list.old.items (index - 1) region) index }
{
    list.as_mut_slice()[index - 1] = region;
    list.remove(index);
}
