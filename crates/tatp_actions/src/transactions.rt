//! The seven transactions of TATP on a part.
ghost use Rattle.std.specs.Prelude.{◌≡◌, is_some, if◌then◌else◌};
ghost use Rattle.tatp_actions.specs.Book.{IsWithin, subscriber_at};
ghost use Rattle.tatp_actions.specs.Action.{done_reply};
ghost use Rattle.tatp_actions.specs.Edit.{Acts, notes_of};
ghost use Rattle.tatp_actions.specs.Inside.{asked_once};
ghost use Rattle.tatp_actions.specs.Part.{IsPart};
ghost use Rattle.tatp_actions.specs.declared.action.Action.{Action};

use crate::action::RowReply;
use crate::change::Change;
use crate::destinations::find_destinations;
use crate::part::{Part, refused};
use crate::revisions::{SetBit1, SetDataA, SwapLocation};
use crate::rows::Rows;
use std::num::NonZeroU32;
use tatp_rows::{Forwarding, Refusal, is_between, is_start_time};

impl<R: Rows> Part<R> {
    /// Does GET_SUBSCRIBER_DATA. It returns `NoSubscriber` if there is no such subscriber.
    pub(crate) fn subscriber_data(&mut self, s_id: u32) -> (RowReply, Change)
        requires { IsWithin self.old.lo self.old.hi s_id }
        ensures { Acts (Action.SubscriberData s_id) self.old result.0 result.1 self.new }
    {
        let Some(row) = self.subscriber(s_id) else {
            return refused(Refusal::NoSubscriber);
        };
        (RowReply::Row(row), Change::none())
    }

    /// Does GET_NEW_DESTINATION. Its refusals, in order, are `Field` and `NoDestination`.
    pub(crate) fn new_destination(
        &mut self,
        s_id: u32,
        sf_type: u8,
        start_time: u8,
        end_time: u8,
    ) -> (RowReply, Change)
        requires { IsWithin self.old.lo self.old.hi s_id }
        ensures { Acts (Action.NewDestination s_id sf_type start_time end_time) self.old result.0 result.1 self.new }
    {
        if !is_between(sf_type, 1, 4)
            || !is_start_time(u64::from(start_time))
            || !is_between(end_time, 1, 24)
        {
            return refused(Refusal::Field);
        }
        // Opens the part for the prover: its rules are known.
        let _ = &self.rows;
        let numbers = find_destinations(self, s_id, sf_type, start_time, end_time);
        if numbers.is_empty() {
            return refused(Refusal::NoDestination);
        }
        (RowReply::Numbers(numbers), Change::none())
    }

    /// Does GET_ACCESS_DATA. Its refusals, in order, are `Field` and `NoAccess`.
    pub(crate) fn access_data(&mut self, s_id: u32, ai_type: u8) -> (RowReply, Change)
        requires { IsWithin self.old.lo self.old.hi s_id }
        ensures { Acts (Action.AccessData s_id ai_type) self.old result.0 result.1 self.new }
    {
        if !is_between(ai_type, 1, 4) {
            return refused(Refusal::Field);
        }
        let Some(row) = self.access(s_id, ai_type) else {
            return refused(Refusal::NoAccess);
        };
        let reply = RowReply::AccessRow {
            data1: row.data1(),
            data2: row.data2(),
            data3: row.data3(),
            data4: row.data4(),
        };
        (reply, Change::none())
    }

    /// Does UPDATE_SUBSCRIBER_DATA. Its refusals, in order, are `Field`, `NoSubscriber`, and `NoFacility`.
    #[inline(always)]
    pub(crate) fn update_subscriber(
        &mut self,
        s_id: u32,
        sf_type: u8,
        bit_1: u8,
        data_a: u8,
    ) -> Result<Change, Refusal>
        requires { IsWithin self.old.lo self.old.hi s_id }
        ensures { Acts (Action.UpdateSubscriber s_id sf_type bit_1 data_a) self.old (done_reply result) (notes_of result) self.new }
    {
        if !is_between(sf_type, 1, 4) || bit_1 > 1 {
            return Err(Refusal::Field);
        }
        let mut data = SetDataA { data_a };
        if !self.revise_facility(s_id, sf_type, &mut data) {
            return Err(self.without_facility(s_id));
        }
        // A facility has a subscriber, so this row is there.
        let mut bit = SetBit1::to(bit_1);
        let _ = self.revise_subscriber(s_id, &mut bit);
        Ok(Change::none())
    }

    /// Returns the reason why a facility can't be found, if the subscriber has none of its type.
    #[cold]
    #[inline(never)]
    fn without_facility(&mut self, s_id: u32) -> Refusal
        ensures why { result ≡ (if is_some (subscriber_at self.old.book s_id) then Refusal.NoFacility else Refusal.NoSubscriber) }
        ensures kept { self.new ≡ asked_once self.old }
        ensures rules { IsPart self.old }
    {
        if self.has_subscriber(s_id) {
            Refusal::NoFacility
        } else {
            Refusal::NoSubscriber
        }
    }

    /// Does UPDATE_LOCATION, by s_id. It returns `NoSubscriber` if there is no such subscriber.
    #[inline(always)]
    pub(crate) fn update_location(
        &mut self,
        s_id: u32,
        vlr_location: NonZeroU32,
    ) -> Result<Change, Refusal>
        requires { IsWithin self.old.lo self.old.hi s_id }
        ensures { Acts (Action.UpdateLocation s_id vlr_location.value)
            self.old (done_reply result) (notes_of result) self.new }
    {
        let vlr_location = vlr_location.get();
        let mut swap = SwapLocation::to(vlr_location);
        if !self.revise_subscriber(s_id, &mut swap) {
            return Err(Refusal::NoSubscriber);
        }
        let change = Change::location_moved(swap.location(), vlr_location);
        Ok(change)
    }

    /// Does INSERT_CALL_FORWARDING, by s_id. Its refusals, in order, are `NoFacility`, `Exists`, and `Memory`.
    #[inline(always)]
    pub(crate) fn insert_forwarding(&mut self, row: Forwarding) -> Result<Change, Refusal>
        requires { IsWithin self.old.lo self.old.hi row.s_id }
        ensures { Acts (Action.InsertForwarding row) self.old (done_reply result) (notes_of result) self.new }
    {
        let s_id = row.s_id();
        let Some(facility) = self.facility(s_id, row.sf_type()) else {
            return Err(Refusal::NoFacility);
        };
        self.more_forwardings(row)?;
        let zone = self.zone_of(s_id);
        let change = Change::forwarding_moved(true, facility.is_active(), &row, zone);
        Ok(change)
    }

    /// Does DELETE_CALL_FORWARDING, by s_id. Its refusals, in order, are `Field` and `NoForwarding`.
    #[inline(always)]
    pub(crate) fn delete_forwarding(
        &mut self,
        s_id: u32,
        sf_type: u8,
        start_time: u8,
    ) -> Result<Change, Refusal>
        requires { IsWithin self.old.lo self.old.hi s_id }
        ensures { Acts (Action.DeleteForwarding s_id sf_type start_time) self.old (done_reply result) (notes_of result) self.new }
    {
        if !is_between(sf_type, 1, 4) || !is_start_time(u64::from(start_time)) {
            return Err(Refusal::Field);
        }
        let Some(row) = self.remove_forwarding(s_id, sf_type, start_time) else {
            return Err(Refusal::NoForwarding);
        };
        let active = self.has_active(s_id, sf_type);
        let zone = self.zone_of(s_id);
        let change = Change::forwarding_moved(false, active, &row, zone);
        Ok(change)
    }
}
