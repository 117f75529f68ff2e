//! The bounds between parts, moved one after another.
ghost use Rattle.std.specs.Prelude.{◌≡◌};
ghost use Rattle.std.specs.Result.{IsOk};
ghost use Rattle.part_table.specs.Recut.{handed_over, moved};
ghost use Rattle.hlr_owners.specs.WhileOut.{IsMovedWhileOut};
ghost use Rattle.hlr_owners.specs.Inside.{IsHanded, IsMovedAlone};
ghost use Rattle.hlr_owners.specs.Out.{outs_in};
ghost use Rattle.hlr_owners.specs.Recut.{IsHomeToCut, IsHomeToMove, IsRecut, given_away, half_moved};
ghost use Rattle.hlr_owners.specs.Owners.{IsPartHome, homes_in, store_in};

use crate::owners::Owners;
use part_table::{CutMove, Side};
use tatp_rows::Refusal;

impl Owners {
    /// Moves the bounds between the parts to these, with a give and a take for each bound that moves, and returns how
    /// many it moved. Its refusals, in order, are `Field` if the bounds don't rise strictly in 2..=16,777,216 or aren't
    /// one less than there are parts, `Moving` if a piece is loose, and `Memory`. After `Memory`, the moves that were
    /// done stay done, and if a take was refused its piece is loose.
    pub fn recut_to(&mut self, bounds: &[u64]) -> Result<u8, Refusal>
        requires home { IsHomeToCut bounds.now self.old }
        ensures recut { IsRecut bounds.now (store_in self.old) result (store_in self.new) }
        ensures homes { homes_in self.new.owners ≡ homes_in self.old.owners }
        ensures outs { outs_in self.new.owners ≡ outs_in self.old.owners }
        ensures same { self.new ≡ record self.old { regions = self.new.regions; owners = self.new.owners } }
        ensures while_out { IsMovedWhileOut self.old self.new }
    {
        let moves = self.regions.moves_to(bounds)?;
        for bound_move in moves.as_slice() {
            self.move_bound(*bound_move)?;
        }
        Ok(moves.len() as u8)
    }

    /// Moves a bound: the part that loses a stretch gives it away, and its neighbour takes it.
    fn move_bound(&mut self, bound_move: CutMove) -> Result<(), Refusal>
        requires can { IsOk (moved bound_move self.old.regions) }
        requires home { IsHomeToMove self.old bound_move }
        ensures handed { IsHanded (moved bound_move self.old.regions) (half_moved bound_move self.old.regions) (store_in self.old) result (store_in self.new) }
        ensures moved { IsMovedAlone self.old self.new }
    {
        let above = u64::from(bound_move.bound);
        let below = above.saturating_sub(1);
        let to = u64::from(bound_move.to);
        if bound_move.from < bound_move.to {
            self.hand_over(above, Side::Low, to, below)
        } else {
            self.hand_over(below, Side::High, to, above)
        }
    }

    /// Moves what is on one side of `at` from one part to another, by a give and a take.
    fn hand_over(&mut self, giver: u64, side: Side, at: u64, taker: u64) -> Result<(), Refusal>
        requires can { IsOk (handed_over giver side at taker self.old.regions) }
        requires giver { IsPartHome giver self.old }
        requires taker { IsPartHome taker self.old }
        ensures handed { IsHanded (handed_over giver side at taker self.old.regions) (given_away giver side at self.old.regions) (store_in self.old) result (store_in self.new) }
        ensures moved { IsMovedAlone self.old self.new }
    {
        let (piece, _, _) = self.give(giver, side, at)?;
        self.take(u64::from(piece), taker)?;
        Ok(())
    }
}
