//! The parts that are divided in two, and those that are dissolved into the one in front.
ghost use Rattle.std.specs.Prelude.{◌-◌};
ghost use Rattle.part_table.specs.Dissolve.{dissolve_answer};
ghost use Rattle.part_table.specs.Divide.{divide_answer};
ghost use Rattle.hlr_owners.specs.Answered.{MayAnswer};
ghost use Rattle.hlr_owners.specs.PartChanges.{IsDissolved, IsDissolvedWhileOut, IsDivided, IsDividedWhileOut, AreHomesDissolved, AreHomesDivided};
ghost use Rattle.hlr_owners.specs.Owners.{IsHomeFrom, store_in};

use crate::opening::split_off;
use crate::owners::Owners;
use crate::part_owner::{PartOwner, RegionOwner};
use crate::room::insert_reserved;
use tatp_rows::Refusal;

impl Owners {
    /// Divides a part at a subscriber: the part keeps what is below, a new part with the next number gets the rest and
    /// the least free slot, and the numbers of later parts rise by one. It returns the new part's number, and where it
    /// begins and ends. Its refusals, in order, are `NoPart`, `OutOfRange`, `ManyParts`, and `Memory`, and each of them
    /// changes nothing. The part and all behind it must be home.
    pub fn divide(&mut self, part: u64, at: u64) -> Result<(u8, u32, u32), Refusal>
        requires home { IsHomeFrom part self.old }
        ensures answer { MayAnswer (divide_answer part at self.old.regions) result }
        ensures after { IsDivided part at result (store_in self.old) (store_in self.new) }
        ensures homes { AreHomesDivided part result self.old self.new }
        ensures while_out { IsDividedWhileOut part at result self.old self.new }
    {
        let (i, told) = self.regions.dividing(part, at)?;
        let Some(slot) = self.spare.least_slot() else {
            unreachable!()
        };
        let desk = split_off(&self.board, &mut self.spare, slot)?;
        let divided = match &mut self.owners[i] {
            RegionOwner::Part(part_owner) => part_owner.holding_mut().divide(at as u32, desk),
            RegionOwner::Piece(_) => unreachable!(),
        };
        let holding = match divided {
            Ok(holding) => holding,
            Err(back) => {
                self.board.join(&mut self.spare, back.item);
                return Err(back.why);
            }
        };
        insert_reserved(
            &mut self.owners,
            i + 1,
            RegionOwner::Part(PartOwner::of(holding)),
        );
        self.regions.divide_at(i, at);
        Ok(told)
    }

    /// Dissolves a part: the part in front gets its rows, what it has published is taken back, its slot becomes free,
    /// and the numbers of later parts fall by one. It returns the number of the part in front, and where that begins
    /// and ends now. Its refusals, in order, are `NoPart`, `NotAdjacent`, and `Memory`, and each of them changes
    /// nothing. The part in front and all behind it must be home.
    pub fn dissolve(&mut self, part: u64) -> Result<(u8, u32, u32), Refusal>
        requires home { IsHomeFrom (part - 1) self.old }
        ensures answer { MayAnswer (dissolve_answer part self.old.regions) result }
        ensures after { IsDissolved part result (store_in self.old) (store_in self.new) }
        ensures homes { AreHomesDissolved part result self.old self.new }
        ensures while_out { IsDissolvedWhileOut part result self.old self.new }
    {
        let (i, told) = self.regions.dissolving(part)?;
        let RegionOwner::Part(mut part_owner) = self.owners.remove(i) else {
            unreachable!()
        };
        let merged = match &mut self.owners[i - 1] {
            RegionOwner::Part(front) => front
                .holding_mut()
                .dissolve(&self.board, part_owner.lend()),
            RegionOwner::Piece(_) => unreachable!(),
        };
        match merged {
            Ok(desk) => self.board.join(&mut self.spare, desk),
            Err(back) => {
                insert_reserved(
                    &mut self.owners,
                    i,
                    RegionOwner::Part(PartOwner::of(back.item)),
                );
                return Err(back.why);
            }
        }
        self.regions.dissolve_at(i);
        Ok(told)
    }
}
