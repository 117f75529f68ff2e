//! The holdings of parts that are lent and come home.
ghost use Rattle.std.specs.Prelude.{◌≡◌, ℕ, true, false, Some, slice_get, slice_set, slice_index_or};
ghost use Rattle.part_table.specs.Regions.{place_of};
ghost use Rattle.tatp_actions.specs.Book.{IsWithin};
ghost use Rattle.holding.specs.Held.{IsHolding};
ghost use Rattle.hlr_owners.specs.Owners.{IsBackFor, IsLent, part_holdings, homes_in, states_in, store_in};

use crate::owners::Owners;
use crate::part_owner::RegionOwner;
use holding::Holding;
use part_table::Place;

impl Owners {
    /// Returns whether a part is home, and false if there is no such part.
    pub fn at_home(&self, part: u8) -> bool
        ensures { result ≡ slice_index_or (homes_in self.now.owners) part false }
    {
        let Some(i) = self.regions.index_of_part(u64::from(part)) else {
            return false;
        };
        match &self.owners[i] {
            RegionOwner::Part(part_owner) => part_owner.is_home(),
            RegionOwner::Piece(_) => unreachable!(),
        }
    }

    /// Lends the holding of a part that is home. It takes no memory.
    pub fn lend(&mut self, part: u8) -> Box<Holding>
        requires { slice_index_or (homes_in self.old.owners) part false ≡ true }
        ensures lent { IsLent part self.old result.value self.new }
        ensures holding { slice_get (part_holdings self.old.owners) part ≡ Some result.value }
        ensures away { homes_in self.new.owners ≡ slice_set (homes_in self.old.owners) part false }
        ensures holdings { part_holdings self.new.owners ≡ part_holdings self.old.owners }
        ensures states { states_in self.new.owners ≡ states_in self.old.owners }
        ensures store { store_in self.new ≡ store_in self.old }
        ensures same { self.new ≡ record self.old { owners = self.new.owners } }
        ensures board { result.value.desk.board ≡ self.old.spare.board }
        ensures within { (s_id : ℕ) → place_of s_id self.old.regions ≡ Some (Place.Part part) → IsWithin result.value.part.lo result.value.part.hi s_id }
        ensures rules { IsHolding result.value }
    {
        let Some(i) = self.regions.index_of_part(u64::from(part)) else {
            unreachable!()
        };
        match &mut self.owners[i] {
            RegionOwner::Part(part_owner) => part_owner.lend(),
            RegionOwner::Piece(_) => unreachable!(),
        }
    }

    /// Takes the lent holding of a part home. It takes no memory.
    pub fn back(&mut self, holding: Box<Holding>)
        requires { (i : ℕ) × IsBackFor (slice_get self.old.owners i) holding.value }
        ensures { (i : ℕ) → IsBackFor (slice_get self.old.owners i) holding.value
            → self.new ≡ record self.old { owners = slice_set self.old.owners i (RegionOwner.Part (record { holding = holding.value; home = true })) } }
    {
        holding.rules();
        let i = self.owner_of(holding.lo());
        match &mut self.owners[i] {
            RegionOwner::Part(part_owner) => part_owner.back(holding),
            RegionOwner::Piece(_) => unreachable!(),
        }
    }
}
