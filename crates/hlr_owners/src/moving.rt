//! The gives and the takes of pieces.
ghost use Rattle.std.specs.Prelude.{◌≡◌, ◌+◌, ◌<◌};
ghost use Rattle.part_table.specs.Give.{give_answer, after_give, piece_index};
ghost use Rattle.part_table.specs.Take.{take_answer, after_take};
ghost use Rattle.hlr_owners.specs.Answered.{MayAnswer};
ghost use Rattle.hlr_owners.specs.WhileOut.{IsMovedWhileOut};
ghost use Rattle.hlr_owners.specs.Out.{outs_in};
ghost use Rattle.hlr_owners.specs.Owners.{IsPartHome, taker, homes_in, store_in};

use crate::owners::Owners;
use crate::part_owner::RegionOwner;
use crate::room::insert_reserved;
use part_table::Side;
use tatp_rows::Refusal;

/// Returns the place of the piece that an owner has given away.
fn piece_index(side: Side, i: usize) -> usize
    requires { i < 32 }
    ensures { result ≡ piece_index side i }
{
    match side {
        Side::Low => i,
        Side::High => i + 1,
    }
}

/// Returns the place of the part that takes a piece, once the piece's own place is gone.
fn taker(side: Side, i: usize) -> usize
    ensures { result ≡ taker side i }
{
    match side {
        Side::Low => i,
        Side::High => i.saturating_sub(1),
    }
}

impl Owners {
    /// Cuts a loose piece with the least free number off a part, which is all of the part on one side of `at`. It
    /// returns the number, and where the piece begins and ends. Its refusals, in order, are `NoPart`, `OutOfRange`,
    /// `ManyPieces`, and `Memory`, and each of them changes nothing.
    pub fn give(&mut self, part: u64, side: Side, at: u64) -> Result<(u8, u32, u32), Refusal>
        requires home { IsPartHome part self.old }
        ensures answer { MayAnswer (give_answer part side at self.old.regions) result }
        ensures after { store_in self.new ≡ record (store_in self.old) { regions = after_give part side at result self.old.regions } }
        ensures same { self.new ≡ record self.old { regions = self.new.regions; owners = self.new.owners } }
        ensures homes { homes_in self.new.owners ≡ homes_in self.old.owners }
        ensures outs { outs_in self.new.owners ≡ outs_in self.old.owners }
        ensures while_out { IsMovedWhileOut self.old self.new }
    {
        let (i, told) = self.regions.giving(part, side, at)?;
        let piece = match &mut self.owners[i] {
            RegionOwner::Part(part_owner) => part_owner.holding_mut().give(side, at as u32)?,
            RegionOwner::Piece(_) => unreachable!(),
        };
        insert_reserved(
            &mut self.owners,
            piece_index(side, i),
            RegionOwner::Piece(piece),
        );
        self.regions.give_at(i, side, at, told);
        Ok(told)
    }

    /// Joins a loose piece to a part that touches it, and returns the side of the part on which it lay. Its refusals,
    /// in order, are `NoPiece`, `NoPart`, `NotAdjacent`, and `Memory`, and each of them changes nothing.
    pub fn take(&mut self, piece: u64, part: u64) -> Result<Side, Refusal>
        requires home { IsPartHome part self.old }
        ensures answer { MayAnswer (take_answer piece part self.old.regions) result }
        ensures after { store_in self.new ≡ record (store_in self.old) { regions = after_take piece part result self.old.regions } }
        ensures same { self.new ≡ record self.old { regions = self.new.regions; owners = self.new.owners } }
        ensures homes { homes_in self.new.owners ≡ homes_in self.old.owners }
        ensures outs { outs_in self.new.owners ≡ outs_in self.old.owners }
        ensures while_out { IsMovedWhileOut self.old self.new }
    {
        let (i, side) = self.regions.taking(piece, part)?;
        let RegionOwner::Piece(taken) = self.owners.remove(i) else {
            unreachable!()
        };
        let done = match &mut self.owners[taker(side, i)] {
            RegionOwner::Part(part_owner) => part_owner.holding_mut().take(taken),
            RegionOwner::Piece(_) => unreachable!(),
        };
        if let Err(back) = done {
            insert_reserved(&mut self.owners, i, RegionOwner::Piece(back.item));
            return Err(back.why);
        }
        self.regions.take_at(i, side);
        Ok(side)
    }
}
