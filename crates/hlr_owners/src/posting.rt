//! Postings of parts to the board.
ghost use Rattle.std.specs.Prelude.{◌≡◌};
ghost use Rattle.hlr_owners.specs.WhileOut.{IsPostedWhileOut};
ghost use Rattle.hlr_owners.specs.Store.{slots_of};
ghost use Rattle.hlr_owners.specs.Out.{outs_in};
ghost use Rattle.hlr_owners.specs.Posting.{IsPosting};
ghost use Rattle.hlr_owners.specs.Owners.{IsPartHome, homes_in, store_in};

use crate::owners::Owners;
use crate::part_owner::RegionOwner;
use tatp_rows::Refusal;

impl Owners {
    /// Posts the first `limit` unposted cells of a part, and returns how many it posted. Its refusals, in order, are
    /// `NoPart` if no part has this number, and `Worn` if a word would pass its limit.
    pub fn post(&mut self, part: u64, limit: u64) -> Result<u8, Refusal>
        requires home { IsPartHome part self.old }
        ensures posted { IsPosting (slots_of (store_in self.old) part) part limit (store_in self.old) result (store_in self.new) }
        ensures same { self.new ≡ record self.old { owners = self.new.owners } }
        ensures homes { homes_in self.new.owners ≡ homes_in self.old.owners }
        ensures outs { outs_in self.new.owners ≡ outs_in self.old.owners }
        ensures while_out { IsPostedWhileOut part limit self.old result self.new }
    {
        let Some(i) = self.regions.index_of_part(part) else {
            return Err(Refusal::NoPart);
        };
        match &mut self.owners[i] {
            RegionOwner::Part(part_owner) => part_owner.holding_mut().post(&self.board, limit),
            RegionOwner::Piece(_) => unreachable!(),
        }
    }
}
