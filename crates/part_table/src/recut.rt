//! The bounds that a recut moves, and the order in which it moves them.
ghost use Rattle.std.specs.Prelude.{◌≡◌, ◌+◌, ◌-◌, ◌<◌, ◌≤◌, [], ◌∷◌, ◌++◌, true, Ok, Err, length, IfOk, MatchResult};
ghost use Rattle.arrayvec.specs.ArrayVec.{array_vec_len};
ghost use Rattle.part_table.specs.Bounds.{are_rising, parts_between};
ghost use Rattle.part_table.specs.Recut.{recut_answer, all_moved, rising_moves, falling_moves, bounds_of};

use crate::bounds::are_rising;
use crate::finding::count_parts;
use crate::moves::CutMove;
use crate::region::Region;
use crate::regions::Regions;
use arrayvec::ArrayVec;
use tatp_rows::Refusal;

impl Regions {
    /// Lists the moves that bring the parts to other bounds: those of the bounds that rise, from the last to the first,
    /// and then those of the bounds that fall, from the first to the last. In this order, each move can be done when it
    /// comes. Its refusals, in order, are `Field` if the bounds don't rise strictly in 2..=16,777,216 or aren't one
    /// less than there are parts, and `Moving` if a piece is loose.
    pub fn moves_to(&self, bounds: &[u64]) -> Result<ArrayVec<CutMove, 15>, Refusal>
        ensures answer { MatchResult result (λ moves. recut_answer self.now bounds.now ≡ Ok moves.items)
            (λ why. recut_answer self.now bounds.now ≡ Err why) }
        ensures done { IfOk result (λ moves. all_moved moves.items (Ok self.now) ≡ Ok (parts_between 0 1 bounds.now)) }
    {
        let regions = self.list();
        let parts = count_parts(regions);
        if bounds.len() + 1 != parts || !are_rising(bounds) {
            return Err(Refusal::Field);
        }
        if parts != regions.len() {
            return Err(Refusal::Moving);
        }
        let rising = rising_moves(regions, bounds);
        let falling = falling_moves(regions, bounds);
        Ok(joined(rising, &falling))
    }
}

/// Appends the move of a bound.
fn push_move(moves: &mut ArrayVec<CutMove, 15>, bound: usize, from: u32, to: u32)
    requires bound { bound ≤ 15 }
    requires room { array_vec_len moves.old < 15 }
    ensures { moves.new.items ≡ moves.old.items ++ record { bound = bound; from = from; to = to } ∷ [] }
{
    moves.push(CutMove {
        bound: bound as u8,
        from,
        to,
    });
}

/// Returns the moves of the bounds that rise, from the last to the first.
fn rising_moves(regions: &[Region], bounds: &[u64]) -> ArrayVec<CutMove, 15>
    requires rising { are_rising 1 bounds.now ≡ true }
    requires count { length bounds.now + 1 ≡ length regions.now }
    requires few { length bounds.now ≤ 15 }
    ensures { result.items ≡ rising_moves 1 (bounds_of regions.now) bounds.now }
{
    let mut moves = ArrayVec::new();
    for i in (1..regions.len()).rev() {
        let from = regions[i].lo;
        let to = bounds[i - 1] as u32;
        if from < to {
            push_move(&mut moves, i, from, to);
        }
    }
    moves
}

/// Returns the moves of the bounds that fall, from the first to the last.
fn falling_moves(regions: &[Region], bounds: &[u64]) -> ArrayVec<CutMove, 15>
    requires rising { are_rising 1 bounds.now ≡ true }
    requires count { length bounds.now + 1 ≡ length regions.now }
    requires few { length bounds.now ≤ 15 }
    ensures { result.items ≡ falling_moves 1 (bounds_of regions.now) bounds.now }
{
    let mut moves = ArrayVec::new();
    for i in 1..regions.len() {
        let from = regions[i].lo;
        let to = bounds[i - 1] as u32;
        if to < from {
            push_move(&mut moves, i, from, to);
        }
    }
    moves
}

/// Returns moves followed by others, which there must be room for.
fn joined(mut first: ArrayVec<CutMove, 15>, second: &ArrayVec<CutMove, 15>) -> ArrayVec<CutMove, 15>
    requires { array_vec_len first + array_vec_len second.now ≤ 15 }
    ensures { result.items ≡ first.items ++ second.now.items }
{
    let _all = first.try_extend_from_slice(second.as_slice());
    first
}
