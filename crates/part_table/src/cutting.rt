//! The cut of a part's region in two.
ghost use Rattle.std.specs.Prelude.{◌≡◌, ◌+◌, ◌<◌, [], ◌∷◌, insert, slice_set};
ghost use Rattle.arrayvec.specs.ArrayVec.{array_vec_len};
ghost use Rattle.part_table.specs.Give.{given, halves};

use crate::region::{Place, Region, Side};
use arrayvec::ArrayVec;

/// Returns where the piece begins and ends that a part gives away, which is all below `at`, or all from it on.
pub(crate) fn given(part: Region, side: Side, at: u32) -> (u32, u32)
    ensures { result ≡ given side at part }
{
    match side {
        Side::Low => (part.lo, at),
        Side::High => (at, part.hi),
    }
}

/// Returns the two halves of a part's region, of which the one on the given side is the loose piece `n`.
pub(crate) fn halves(part: Region, n: u8, side: Side, at: u32) -> (Region, Region)
    ensures { result.0 ∷ result.1 ∷ [] ≡ halves n side at part }
{
    let piece = Place::Piece(n);
    let (low, high) = match side {
        Side::Low => (piece, part.place),
        Side::High => (part.place, piece),
    };
    (
        Region {
            lo: part.lo,
            hi: at,
            place: low,
        },
        Region {
            lo: at,
            hi: part.hi,
            place: high,
        },
    )
}

/// Puts two regions in the place of one.
pub(crate) fn put_two(list: &mut ArrayVec<Region, 32>, index: usize, low: Region, high: Region)
    requires within { index < array_vec_len list.old }
    requires room { array_vec_len list.old < 32 }
    ensures { list.new.items ≡ insert (slice_set list.old.items index low) (index + 1) high }
{
    list.as_mut_slice()[index] = low;
    list.insert(index + 1, high);
}
