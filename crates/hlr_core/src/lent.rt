//! The holdings of parts that are lent, and that come home with what jobs did to them.
ghost use Rattle.std.specs.Prelude.{◌≡◌, ℕ, List, true, false, Some, slice_get, slice_set, slice_index_or};
ghost use Rattle.std.specs.Arc.{arc_value};
ghost use Rattle.holding.specs.Held.{IsHolding};
ghost use Rattle.holding.specs.declared.job.Job.{Job as Jobs};
ghost use Rattle.hlr_owners.specs.Desks.{AreDesks};
ghost use Rattle.hlr_core.specs.Later.{AreLater, IsBackWith};
ghost use Rattle.hlr_core.specs.Session.{IsDoneAt, IsJobOf, IsWithinJob, JobsCommute};
ghost use Rattle.hlr_owners.specs.Owners.{AreOwners, IsLent, desks_in, part_holdings, homes_in, store_in};
ghost use Rattle.hlr_core.specs.declared.event.Reply.{Reply as Replies};
ghost use Rattle.hlr_owners.specs.declared.part_owner.RegionOwner.{RegionOwner as OneOwner};
ghost use Rattle.hlr_owners.specs.declared.part_owner.RegionOwner.TheVariants as owner;

use crate::register::Register;
use holding::Holding;
use std::sync::Arc;
use view_board::Board;

impl Register {
    /// Tells the prover that each region and its owner have the same place in their lists, and that the desks belong to
    /// the board and share its slots. The call does nothing.
    #[inline(always)]
    pub fn rules(&self)
        ensures ruled { AreOwners self.now }
        ensures desks { AreDesks self.now.spare.board self.now.spare (desks_in self.now.owners) }
    {
        self.owners.rules();
    }

    /// Lends the holding of a part that is home, for example to a thread that does the jobs that `Register::route`
    /// sends to this part. The register is seen as before, with the part as it is now. Such jobs change neither the
    /// index nor the regions, and the jobs of different parts may be done in any order, with the same replies. The call
    /// takes no memory.
    pub fn lend(&mut self, part: u8) -> Box<Holding>
        requires { slice_index_or (homes_in self.old.owners) part false ≡ true }
        ensures lent { IsLent part self.old result.value self.new }
        ensures holding { slice_get (part_holdings self.old.owners) part ≡ Some result.value }
        ensures away { homes_in self.new.owners ≡ slice_set (homes_in self.old.owners) part false }
        ensures holdings { part_holdings self.new.owners ≡ part_holdings self.old.owners }
        ensures store { store_in self.new ≡ store_in self.old }
        ensures same { self.new ≡ record self.old { owners = self.new.owners } }
        ensures board { result.value.desk.board ≡ self.old.spare.board }
        ensures within { (job : Jobs) → IsJobOf self.old.regions part job → IsWithinJob result.value job }
        ensures later { (job : Jobs) (before after : List OneOwner) (answer : Replies) → IsJobOf self.old.regions part job
            → IsDoneAt self.old.regions part job before answer after → AreLater before after }
        ensures commute { JobsCommute self.old.regions }
        ensures rules { IsHolding result.value }
    {
        self.owners.lend(part)
    }

    /// Takes a lent holding home, with what was done to it by jobs that `Register::route` sent to its part. Its range,
    /// the board and the slots of its desk, and its subscribers with their numbers must be as they were. The call takes
    /// no memory.
    pub fn back(&mut self, holding: Box<Holding>)
        requires { (i : ℕ) × IsBackWith (slice_get self.old.owners i) holding.value }
        ensures { (i : ℕ) → IsBackWith (slice_get self.old.owners i) holding.value
            → self.new ≡ record self.old { owners = slice_set self.old.owners i (owner.Part (record { holding = holding.value; home = true })) } }
    {
        holding.rules();
        self.owners.rules();
        self.owners.back(holding);
    }

    /// Returns whether the holding of a part is home, and false if there is no such part.
    pub fn at_home(&self, part: u8) -> bool
        ensures { result ≡ slice_index_or (homes_in self.now.owners) part false }
    {
        self.owners.at_home(part)
    }

    /// Returns the board to which the desks of all holdings belong, whether they are home or lent. It takes no memory.
    pub fn board(&self) -> &Arc<Board>
        ensures { arc_value result.now ≡ self.now.spare.board }
    {
        self.owners.board()
    }
}
