//! The events on rows, as one call each. A read of a Subscriber row lends the row, other reads return theirs by value,
//! and a change goes straight down to its row, without making an event, an action or a reply of it. Each call refuses a
//! field that is out of its range with `Field` before it asks for a row, and returns `Moving` if the subscriber is in a
//! loose piece. Each is right regardless of what jobs have done to the lent holdings.
ghost use Rattle.std.specs.Prelude.{◌≡◌, ◌+◌, ℕ, Some, IfOk, IfErr, MatchResult, Bool, Option};
ghost use Rattle.tatp_rows.specs.declared.ranges.TheConstants.{LAST_SUBSCRIBER};
ghost use Rattle.hlr_core.specs.Edits.{IsAsked, IsRowAction, action_asked};
ghost use Rattle.hlr_core.specs.Inside.Asked.{IsRowStep, IsRowStepWhileOut};
ghost use Rattle.hlr_core.specs.Step.{IsStep, edited_reply};
ghost use Rattle.hlr_core.specs.declared.event.Event.TheVariants as event;
ghost use Rattle.hlr_core.specs.declared.event.Reply.TheVariants as reply;
ghost use Rattle.hlr_core.specs.WhileOut.{IsRegisterStep, IsStepWhileOut};
ghost use Rattle.hlr_core.specs.Home.{IsHomeTo, HaveSameHomes};
ghost use Rattle.hlr_core.specs.Numbers.{bearer_id};
ghost use Rattle.hlr_owners.specs.Owners.{IsHomeFor, book_in, store_in};
ghost use Rattle.tatp_actions.specs.Action.{s_id_of};
ghost use Rattle.tatp_actions.specs.Book.{IsWithin};
ghost use Rattle.tatp_actions.specs.declared.action.Action.{Action};
ghost use Rattle.tatp_actions.specs.declared.action.RowReply.TheVariants as row_reply;

use crate::checked;
use crate::register::Register;
use arrayvec::ArrayVec;
use tatp_actions::Edit;
use tatp_actions::edit::{AddSubscriber, SetNumber};
use tatp_rows::{
    Access, Facility, LAST_SUBSCRIBER, Number, Refusal, Subscriber, byte_in_range, in_range,
};

impl Register {
    /// Does GET_SUBSCRIBER_DATA (TATP, section 3.1), as `Event::SubscriberData`, but the row is lent from where it
    /// lies. Its refusals, in order, are `Field` if s_id isn't in 1..=16,777,216, `Moving`, and `NoSubscriber`.
    pub fn lend_subscriber(&self, s_id: u64) -> Result<&Subscriber, Refusal>
        requires { IsHomeTo (event.SubscriberData s_id) self.now }
        ensures row { IfOk result (λ row. IsStep (event.SubscriberData s_id) (store_in self.now) (reply.Rows (row_reply.Row row.now)) (store_in self.now)) }
        ensures refused { IfErr result (λ why. IsStep (event.SubscriberData s_id) (store_in self.now) (reply.Refused why) (store_in self.now)) }
        ensures while_out { MatchResult result (λ row. IsStepWhileOut (event.SubscriberData s_id) self.now (reply.Rows (row_reply.Row row.now)) self.now) (λ why. IsStepWhileOut (event.SubscriberData s_id) self.now (reply.Refused why) self.now) }
    {
        let s_id = in_range(s_id, LAST_SUBSCRIBER)?;
        self.owners.lend_subscriber(s_id)
    }

    /// Does GET_ACCESS_DATA (TATP, section 3.3), as `Event::AccessData`, and returns the whole row. Its refusals, in
    /// order, are `Field` if s_id isn't in 1..=16,777,216 or ai_type isn't in 1..=4, `Moving`, and `NoAccess`.
    pub fn lend_access(&self, s_id: u64, ai_type: u64) -> Result<Access, Refusal>
        requires { IsHomeTo (event.AccessData s_id ai_type) self.now }
        ensures row { IfOk result (λ row. IsStep (event.AccessData s_id ai_type) (store_in self.now)
            (reply.Rows (row_reply.AccessRow row.data1 row.data2 row.data3 row.data4)) (store_in self.now)) }
        ensures refused { IfErr result (λ why. IsStep (event.AccessData s_id ai_type) (store_in self.now) (reply.Refused why) (store_in self.now)) }
        ensures while_out { MatchResult result (λ row. IsStepWhileOut (event.AccessData s_id ai_type) self.now (reply.Rows (row_reply.AccessRow row.data1 row.data2 row.data3 row.data4)) self.now) (λ why. IsStepWhileOut (event.AccessData s_id ai_type) self.now (reply.Refused why) self.now) }
    {
        let s_id = in_range(s_id, LAST_SUBSCRIBER)?;
        let ai_type = byte_in_range(ai_type, 4)?;
        self.owners.lend_access(s_id, ai_type)
    }

    /// Does GET_NEW_DESTINATION (TATP, section 3.2), as `Event::NewDestination`, and returns one to three numbers,
    /// whose forwardings are read where they lie. Its refusals, in order, are `Field` if s_id isn't in 1..=16,777,216,
    /// sf_type isn't in 1..=4, start_time isn't 0, 8 or 16, or end_time isn't in 1..=24, `Moving`, and `NoDestination`.
    pub fn destinations(
        &self,
        s_id: u64,
        sf_type: u64,
        start_time: u64,
        end_time: u64,
    ) -> Result<ArrayVec<Number, 3>, Refusal>
        requires { IsHomeTo (event.NewDestination s_id sf_type start_time end_time) self.now }
        ensures numbers { IfOk result (λ numbers. IsStep (event.NewDestination s_id sf_type start_time end_time) (store_in self.now) (reply.Rows (row_reply.Numbers numbers)) (store_in self.now)) }
        ensures refused { IfErr result (λ why. IsStep (event.NewDestination s_id sf_type start_time end_time) (store_in self.now) (reply.Refused why) (store_in self.now)) }
        ensures while_out { MatchResult result (λ numbers. IsStepWhileOut (event.NewDestination s_id sf_type start_time end_time) self.now (reply.Rows (row_reply.Numbers numbers)) self.now) (λ why. IsStepWhileOut (event.NewDestination s_id sf_type start_time end_time) self.now (reply.Refused why) self.now) }
    {
        let (s_id, sf_type, start_time, end_time) = checked::new_destination(
            s_id, sf_type, start_time, end_time,
        )?;
        self.owners
            .destinations(s_id, sf_type, start_time, end_time)
    }

    /// Does UPDATE_SUBSCRIBER_DATA (TATP, section 3.4), as `Event::UpdateSubscriber`. Its refusals, in order, are
    /// `Field` if s_id isn't in 1..=16,777,216, sf_type isn't in 1..=4, bit_1 isn't in 0..=1 or data_a isn't in
    /// 0..=255, `Moving`, `NoSubscriber`, and `NoFacility`.
    pub fn update_subscriber(
        &mut self,
        s_id: u64,
        sf_type: u64,
        bit_1: u64,
        data_a: u64,
    ) -> Result<(), Refusal>
        requires { IsHomeTo (event.UpdateSubscriber s_id sf_type bit_1 data_a) self.old }
        ensures { IsRegisterStep (event.UpdateSubscriber s_id sf_type bit_1 data_a) self.old (edited_reply result) self.new }
    {
        self.edit(checked::update_subscriber(s_id, sf_type, bit_1, data_a))
    }

    /// Does UPDATE_LOCATION (TATP, section 3.5), as `Event::UpdateLocation`. Its refusals, in order, are `Field` if
    /// vlr_location isn't in 1..=4,294,967,295, `NoNumber`, and `Moving`.
    pub fn update_location(&mut self, sub_nbr: Number, vlr_location: u64) -> Result<(), Refusal>
        requires { IsHomeTo (event.UpdateLocation sub_nbr vlr_location) self.old }
        ensures { IsRegisterStep (event.UpdateLocation sub_nbr vlr_location) self.old (edited_reply result) self.new }
    {
        let bearer_id = self.bearer(sub_nbr);
        self.edit(checked::update_location(bearer_id, vlr_location))
    }

    /// Does INSERT_CALL_FORWARDING (TATP, section 3.6), as `Event::InsertForwarding`. Its refusals, in order, are
    /// `Field` if sf_type isn't in 1..=4, start_time isn't 0, 8 or 16, or end_time isn't in 1..=24, `NoNumber`,
    /// `Moving`, `NoFacility`, `Exists`, and `Memory`.
    pub fn insert_forwarding(
        &mut self,
        sub_nbr: Number,
        sf_type: u64,
        start_time: u64,
        end_time: u64,
        numberx: Number,
    ) -> Result<(), Refusal>
        requires { IsHomeTo (event.InsertForwarding sub_nbr sf_type start_time end_time numberx) self.old }
        ensures { IsRegisterStep (event.InsertForwarding sub_nbr sf_type start_time end_time numberx) self.old (edited_reply result) self.new }
    {
        let bearer_id = self.bearer(sub_nbr);
        self.edit(checked::insert_forwarding(bearer_id, sf_type, start_time, end_time, numberx))
    }

    /// Does DELETE_CALL_FORWARDING (TATP, section 3.7), as `Event::DeleteForwarding`. Its refusals, in order, are
    /// `Field` if sf_type isn't in 1..=4 or start_time isn't 0, 8 or 16, `NoNumber`, `Moving`, and `NoForwarding`.
    pub fn delete_forwarding(
        &mut self,
        sub_nbr: Number,
        sf_type: u64,
        start_time: u64,
    ) -> Result<(), Refusal>
        requires { IsHomeTo (event.DeleteForwarding sub_nbr sf_type start_time) self.old }
        ensures { IsRegisterStep (event.DeleteForwarding sub_nbr sf_type start_time) self.old (edited_reply result) self.new }
    {
        let bearer_id = self.bearer(sub_nbr);
        self.edit(checked::delete_forwarding(bearer_id, sf_type, start_time))
    }

    /// Adds an Access_Info row, as `Event::AddAccess`. Its refusals, in order, are `Moving`, `NoSubscriber`, `Exists`,
    /// and `Memory`.
    pub fn add_access(&mut self, row: Access) -> Result<(), Refusal>
        requires { IsHomeTo (event.AddAccess row) self.old }
        ensures { IsRegisterStep (event.AddAccess row) self.old (edited_reply result) self.new }
    {
        self.edit(checked::add_access(row))
    }

    /// Adds a Special_Facility row, as `Event::AddFacility`. Its refusals, in order, are `Moving`, `NoSubscriber`,
    /// `Exists`, and `Memory`.
    pub fn add_facility(&mut self, row: Facility) -> Result<(), Refusal>
        requires { IsHomeTo (event.AddFacility row) self.old }
        ensures { IsRegisterStep (event.AddFacility row) self.old (edited_reply result) self.new }
    {
        self.edit(checked::add_facility(row))
    }

    /// Switches a facility on or off, as `Event::SetActive`. Its refusals, in order, are `Field` if s_id isn't in
    /// 1..=16,777,216, sf_type isn't in 1..=4 or is_active isn't in 0..=1, `Moving`, and `NoFacility`.
    pub fn set_active(&mut self, s_id: u64, sf_type: u64, is_active: u64) -> Result<(), Refusal>
        requires { IsHomeTo (event.SetActive s_id sf_type is_active) self.old }
        ensures { IsRegisterStep (event.SetActive s_id sf_type is_active) self.old (edited_reply result) self.new }
    {
        self.edit(checked::set_active(s_id, sf_type, is_active))
    }

    /// Adds a Subscriber row, as `Event::AddSubscriber`. Its refusals, in order, are `Moving`, `Exists`, `NumberTaken`,
    /// and `Memory`.
    pub fn add_subscriber(&mut self, row: Subscriber) -> Result<(), Refusal>
        requires { IsHomeTo (event.AddSubscriber row) self.old }
        ensures { IsRegisterStep (event.AddSubscriber row) self.old (edited_reply result) self.new }
    {
        self.owners.rules();
        let s_id = row.s_id();
        let owner = self.owners.owner_of(s_id);
        if self.owners.number_in(owner, s_id)?.is_some() {
            return Err(Refusal::Exists);
        }
        let number = row.sub_nbr();
        self.index.add(number, s_id)?;
        match self.owners.edit_in(owner, AddSubscriber { row }) {
            Ok(()) => Ok(()),
            Err(why) => {
                self.index.remove(number);
                Err(why)
            }
        }
    }

    /// Gives a subscriber another number, as `Event::SetNumber`. It changes the pair in the index first, which may be
    /// refused, and then the row, which can't be. Its refusals, in order, are `Field` if s_id isn't in 1..=16,777,216,
    /// `Moving`, `NoSubscriber`, `NumberTaken`, and `Memory`.
    pub fn set_number(&mut self, s_id: u64, sub_nbr: Number) -> Result<(), Refusal>
        requires { IsHomeTo (event.SetNumber s_id sub_nbr) self.old }
        ensures { IsRegisterStep (event.SetNumber s_id sub_nbr) self.old (edited_reply result) self.new }
    {
        self.owners.rules();
        let s_id = in_range(s_id, LAST_SUBSCRIBER)?;
        let owner = self.owners.owner_of(s_id);
        let Some(old) = self.owners.number_in(owner, s_id)? else {
            return Err(Refusal::NoSubscriber);
        };
        // For the prover: a number is in range, as its reader says.
        let _value = sub_nbr.value();
        self.index.rename(old, sub_nbr)?;
        self.owners.edit_in(owner, SetNumber { s_id, sub_nbr })
    }

    /// Finds the s_id of the subscriber who has a number, or returns `None` if nobody has it.
    pub fn bearer(&self, sub_nbr: Number) -> Option<u32>
        ensures value { result ≡ bearer_id (book_in self.now.owners).subscribers sub_nbr }
        ensures within { (s_id : ℕ) → result ≡ Some s_id → IsWithin 1 (LAST_SUBSCRIBER + 1) s_id }
    {
        self.index.find(sub_nbr)
    }

    /// Does an edit that gives no number to a subscriber, unless one of its fields was refused.
    fn edit<E: Edit>(&mut self, asked: Result<E, Refusal>) -> Result<(), Refusal>
        requires action { IfOk asked (λ edit. IsRowAction (E.action edit)) }
        requires home { IfOk asked (λ edit. IsHomeFor (s_id_of (E.action edit)) self.old) }
        ensures homes { HaveSameHomes self.old self.new }
        ensures step { (fits : Bool) (wanted : Option Action) → IsAsked fits wanted (action_asked E.action asked) → IsRowStep fits wanted (store_in self.old) (edited_reply result) (store_in self.new) }
        ensures while_out { (fits : Bool) (wanted : Option Action) → IsAsked fits wanted (action_asked E.action asked) → IsRowStepWhileOut fits wanted self.old (edited_reply result) self.new }
    {
        let edit = asked?;
        self.owners.edit(edit)
    }
}
