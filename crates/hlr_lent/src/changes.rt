//! The events on rows, and postings, as one call each. Each does what the call of the same name does on a register, and
//! needs the parts on which it works to be home. It is right regardless of what jobs have done to the lent holdings.
ghost use Rattle.hlr_owners.specs.Owners.{IsPartHome};
ghost use Rattle.hlr_core.specs.WhileOut.{IsRegisterStep};
ghost use Rattle.hlr_core.specs.Home.{IsHomeTo};
ghost use Rattle.hlr_core.specs.Step.{edited_reply};
ghost use Rattle.hlr_core.specs.declared.event.Event.TheVariants as event;

use crate::lender::Lender;
use hlr_core::{Access, Facility, Number, Refusal, Reply, Subscriber};

impl Lender {
    /// Does UPDATE_SUBSCRIBER_DATA, as `Register::update_subscriber`.
    pub fn update_subscriber(
        &mut self,
        s_id: u64,
        sf_type: u64,
        bit_1: u64,
        data_a: u64,
    ) -> Result<(), Refusal>
        requires { IsHomeTo (event.UpdateSubscriber s_id sf_type bit_1 data_a) self.old }
        ensures { IsRegisterStep (event.UpdateSubscriber s_id sf_type bit_1 data_a) self.old (edited_reply result) self.new }
    {
        self.register
            .update_subscriber(s_id, sf_type, bit_1, data_a)
    }

    /// Does UPDATE_LOCATION, as `Register::update_location`.
    pub fn update_location(&mut self, sub_nbr: Number, vlr_location: u64) -> Result<(), Refusal>
        requires { IsHomeTo (event.UpdateLocation sub_nbr vlr_location) self.old }
        ensures { IsRegisterStep (event.UpdateLocation sub_nbr vlr_location) self.old (edited_reply result) self.new }
    {
        self.register.update_location(sub_nbr, vlr_location)
    }

    /// Does INSERT_CALL_FORWARDING, as `Register::insert_forwarding`.
    pub fn insert_forwarding(
        &mut self,
        sub_nbr: Number,
        sf_type: u64,
        start_time: u64,
        end_time: u64,
        numberx: Number,
    ) -> Result<(), Refusal>
        requires { IsHomeTo (event.InsertForwarding sub_nbr sf_type start_time end_time numberx) self.old }
        ensures { IsRegisterStep (event.InsertForwarding sub_nbr sf_type start_time end_time numberx) self.old (edited_reply result) self.new }
    {
        self.register
            .insert_forwarding(sub_nbr, sf_type, start_time, end_time, numberx)
    }

    /// Does DELETE_CALL_FORWARDING, as `Register::delete_forwarding`.
    pub fn delete_forwarding(
        &mut self,
        sub_nbr: Number,
        sf_type: u64,
        start_time: u64,
    ) -> Result<(), Refusal>
        requires { IsHomeTo (event.DeleteForwarding sub_nbr sf_type start_time) self.old }
        ensures { IsRegisterStep (event.DeleteForwarding sub_nbr sf_type start_time) self.old (edited_reply result) self.new }
    {
        self.register
            .delete_forwarding(sub_nbr, sf_type, start_time)
    }

    /// Adds a Subscriber row, as `Register::add_subscriber`.
    pub fn add_subscriber(&mut self, row: Subscriber) -> Result<(), Refusal>
        requires { IsHomeTo (event.AddSubscriber row) self.old }
        ensures { IsRegisterStep (event.AddSubscriber row) self.old (edited_reply result) self.new }
    {
        self.register.add_subscriber(row)
    }

    /// Adds an Access_Info row, as `Register::add_access`.
    pub fn add_access(&mut self, row: Access) -> Result<(), Refusal>
        requires { IsHomeTo (event.AddAccess row) self.old }
        ensures { IsRegisterStep (event.AddAccess row) self.old (edited_reply result) self.new }
    {
        self.register.add_access(row)
    }

    /// Adds a Special_Facility row, as `Register::add_facility`.
    pub fn add_facility(&mut self, row: Facility) -> Result<(), Refusal>
        requires { IsHomeTo (event.AddFacility row) self.old }
        ensures { IsRegisterStep (event.AddFacility row) self.old (edited_reply result) self.new }
    {
        self.register.add_facility(row)
    }

    /// Switches a facility on or off, as `Register::set_active`.
    pub fn set_active(&mut self, s_id: u64, sf_type: u64, is_active: u64) -> Result<(), Refusal>
        requires { IsHomeTo (event.SetActive s_id sf_type is_active) self.old }
        ensures { IsRegisterStep (event.SetActive s_id sf_type is_active) self.old (edited_reply result) self.new }
    {
        self.register.set_active(s_id, sf_type, is_active)
    }

    /// Gives a subscriber another number, as `Register::set_number`.
    pub fn set_number(&mut self, s_id: u64, sub_nbr: Number) -> Result<(), Refusal>
        requires { IsHomeTo (event.SetNumber s_id sub_nbr) self.old }
        ensures { IsRegisterStep (event.SetNumber s_id sub_nbr) self.old (edited_reply result) self.new }
    {
        self.register.set_number(s_id, sub_nbr)
    }

    /// Posts what is pending of a part, as `Register::post`.
    pub fn post(&mut self, part: u64, limit: u64) -> Reply
        requires { IsPartHome part self.old }
        ensures { IsRegisterStep (event.Post part limit) self.old result self.new }
    {
        self.register.post(part, limit)
    }
}
