//! The administrative actions on a part.
ghost use Rattle.std.specs.Prelude.{◌≡◌, ◌≤◌};
ghost use Rattle.tatp_actions.specs.Book.{IsWithin, forwarding_at};
ghost use Rattle.tatp_actions.specs.Action.{done_reply};
ghost use Rattle.tatp_actions.specs.Edit.{Acts, notes_of};
ghost use Rattle.tatp_actions.specs.Inside.{asked_once, until};
ghost use Rattle.tatp_actions.specs.declared.action.Action.{Action};
ghost use Rattle.tatp_actions.specs.declared.cells.TheConstants.{FIRST_AREA};

use crate::change::{Change, Spans};
use crate::part::Part;
use crate::revisions::{SetSubNbr, SwapActive};
use crate::rows::Rows;
use tatp_rows::{Access, Facility, Number, Refusal, Subscriber, is_between};

impl<R: Rows> Part<R> {
    /// Adds a Subscriber row. Its refusals, in order, are `Exists` and `Memory`.
    #[inline(always)]
    pub(crate) fn add_subscriber(&mut self, row: Subscriber) -> Result<Change, Refusal>
        requires { IsWithin self.old.lo self.old.hi row.s_id }
        ensures { Acts (Action.AddSubscriber row) self.old (done_reply result) (notes_of result) self.new }
    {
        let s_id = row.s_id();
        self.more_subscribers(row)?;
        let zone = self.zone_of(s_id);
        let change = Change::subscriber_added(row.vlr_location(), zone);
        Ok(change)
    }

    /// Adds an Access_Info row. Its refusals, in order, are `NoSubscriber`, `Exists`, and `Memory`.
    #[inline(always)]
    pub(crate) fn add_access(&mut self, row: Access) -> Result<Change, Refusal>
        requires { IsWithin self.old.lo self.old.hi row.s_id }
        ensures { Acts (Action.AddAccess row) self.old (done_reply result) (notes_of result) self.new }
    {
        let s_id = row.s_id();
        if !self.has_subscriber(s_id) {
            return Err(Refusal::NoSubscriber);
        }
        self.more_access(row)?;
        let zone = self.zone_of(s_id);
        Ok(Change::row_added(zone))
    }

    /// Adds a Special_Facility row. Its refusals, in order, are `NoSubscriber`, `Exists`, and `Memory`. The new
    /// facility has no forwarding yet, so that only the cell of its zone moves.
    #[inline(always)]
    pub(crate) fn add_facility(&mut self, row: Facility) -> Result<Change, Refusal>
        requires { IsWithin self.old.lo self.old.hi row.s_id }
        ensures { Acts (Action.AddFacility row) self.old (done_reply result) (notes_of result) self.new }
    {
        let s_id = row.s_id();
        if !self.has_subscriber(s_id) {
            return Err(Refusal::NoSubscriber);
        }
        self.more_facilities(row)?;
        let zone = self.zone_of(s_id);
        Ok(Change::row_added(zone))
    }

    /// Switches a facility on or off. Its refusals, in order, are `Field` and `NoFacility`.
    #[inline(always)]
    pub(crate) fn set_active(
        &mut self,
        s_id: u32,
        sf_type: u8,
        is_active: u8,
    ) -> Result<Change, Refusal>
        requires { IsWithin self.old.lo self.old.hi s_id }
        ensures { Acts (Action.SetActive s_id sf_type is_active) self.old (done_reply result) (notes_of result) self.new }
    {
        if !is_between(sf_type, 1, 4) || is_active > 1 {
            return Err(Refusal::Field);
        }
        let up = is_active == 1;
        let mut swap = SwapActive { is_active: up };
        if !self.revise_facility(s_id, sf_type, &mut swap) {
            return Err(Refusal::NoFacility);
        }
        if swap.is_active == up {
            return Ok(Change::none());
        }
        let from_0 = self.forwarding_until(s_id, sf_type, 0);
        let from_8 = self.forwarding_until(s_id, sf_type, 8);
        let from_16 = self.forwarding_until(s_id, sf_type, 16);
        let spans = Spans {
            from_0,
            from_8,
            from_16,
        };
        Ok(Change::hours_moved(up, &spans))
    }

    /// Returns the hour at which the facility's forwarding from an hour ends, or 0 if there is no such forwarding.
    fn forwarding_until(&mut self, s_id: u32, sf_type: u8, from: u8) -> u8
        ensures value { result ≡ until (forwarding_at self.old.book s_id sf_type from) }
        ensures end { result ≤ FIRST_AREA }
        ensures kept { self.new ≡ asked_once self.old }
    {
        let Some(row) = self.forwarding(s_id, sf_type, from) else {
            return 0;
        };
        // For the prover: a row is in range, as its reader says.
        let _s_id = row.s_id();
        row.end_time()
    }

    /// Gives a subscriber another number. It returns `NoSubscriber` if there is no such subscriber.
    #[inline(always)]
    pub(crate) fn set_number(&mut self, s_id: u32, sub_nbr: Number) -> Result<Change, Refusal>
        requires { IsWithin self.old.lo self.old.hi s_id }
        ensures { Acts (Action.SetNumber s_id sub_nbr) self.old (done_reply result) (notes_of result) self.new }
    {
        // For the prover: a number is in range, as its reader says.
        let _number = sub_nbr.value();
        let mut set = SetSubNbr { sub_nbr };
        if !self.revise_subscriber(s_id, &mut set) {
            return Err(Refusal::NoSubscriber);
        }
        Ok(Change::none())
    }
}
