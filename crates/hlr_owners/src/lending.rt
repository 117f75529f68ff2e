//! The reads of rows, of which those of the table Subscriber are lent.
ghost use Rattle.std.specs.Prelude.{◌≡◌, ◌+◌, true, IfOk, IfErr, MatchResult};
ghost use Rattle.tatp_rows.specs.Rows.{is_between, is_start_time};
ghost use Rattle.tatp_rows.specs.declared.ranges.TheConstants.{LAST_SUBSCRIBER};
ghost use Rattle.tatp_actions.specs.Book.{IsWithin};
ghost use Rattle.tatp_actions.specs.declared.action.Action.TheVariants as action;
ghost use Rattle.tatp_actions.specs.declared.action.RowReply.TheVariants as row_reply;
ghost use Rattle.hlr_owners.specs.WhileOut.{IsReadWhileOut};
ghost use Rattle.hlr_owners.specs.Read.{IsRead};
ghost use Rattle.hlr_owners.specs.Owners.{IsHomeFor, store_in};

use crate::owners::Owners;
use arrayvec::ArrayVec;
use tatp_rows::{Access, Number, Refusal, Subscriber};

impl Owners {
    /// Lends the Subscriber row of a subscriber. Its refusals, in order, are `Moving` and `NoSubscriber`.
    pub fn lend_subscriber(&self, s_id: u32) -> Result<&Subscriber, Refusal>
        requires subscriber { IsWithin 1 (LAST_SUBSCRIBER + 1) s_id }
        requires home { IsHomeFor s_id self.now }
        ensures row { IfOk result (λ row. IsRead (action.SubscriberData s_id) (store_in self.now) (row_reply.Row row.now)) }
        ensures refused { IfErr result (λ why. IsRead (action.SubscriberData s_id) (store_in self.now) (row_reply.Refused why)) }
        ensures while_out { MatchResult result (λ row. IsReadWhileOut (action.SubscriberData s_id) self.now (row_reply.Row row.now)) (λ why. IsReadWhileOut (action.SubscriberData s_id) self.now (row_reply.Refused why)) }
    {
        let holding = self.holding_of(s_id)?;
        match holding.lend_subscriber(s_id) {
            Some(row) => Ok(row),
            None => Err(Refusal::NoSubscriber),
        }
    }

    /// Returns the Access_Info row of a subscriber's access of a type in 1..=4. Its refusals, in order, are `Moving`
    /// and `NoAccess`.
    pub fn lend_access(&self, s_id: u32, ai_type: u8) -> Result<Access, Refusal>
        requires subscriber { IsWithin 1 (LAST_SUBSCRIBER + 1) s_id }
        requires home { IsHomeFor s_id self.now }
        requires kind { is_between 1 4 ai_type ≡ true }
        ensures row { IfOk result (λ row. IsRead (action.AccessData s_id ai_type) (store_in self.now) (row_reply.AccessRow row.data1 row.data2 row.data3 row.data4)) }
        ensures refused { IfErr result (λ why. IsRead (action.AccessData s_id ai_type) (store_in self.now) (row_reply.Refused why)) }
        ensures while_out { MatchResult result (λ row. IsReadWhileOut (action.AccessData s_id ai_type) self.now (row_reply.AccessRow row.data1 row.data2 row.data3 row.data4)) (λ why. IsReadWhileOut (action.AccessData s_id ai_type) self.now (row_reply.Refused why)) }
    {
        let holding = self.holding_of(s_id)?;
        match holding.lend_access(s_id, ai_type) {
            Some(row) => Ok(row),
            None => Err(Refusal::NoAccess),
        }
    }

    /// Finds the numbers to which a facility of a type in 1..=4 forwards a call that starts by one hour and ends after
    /// another. Its refusals, in order, are `Moving` and `NoDestination`.
    pub fn destinations(
        &self,
        s_id: u32,
        sf_type: u8,
        start_time: u8,
        end_time: u8,
    ) -> Result<ArrayVec<Number, 3>, Refusal>
        requires subscriber { IsWithin 1 (LAST_SUBSCRIBER + 1) s_id }
        requires home { IsHomeFor s_id self.now }
        requires kind { is_between 1 4 sf_type ≡ true }
        requires start { is_start_time start_time ≡ true }
        requires end { is_between 1 24 end_time ≡ true }
        ensures numbers { IfOk result (λ numbers. IsRead (action.NewDestination s_id sf_type start_time end_time) (store_in self.now) (row_reply.Numbers numbers)) }
        ensures refused { IfErr result (λ why. IsRead (action.NewDestination s_id sf_type start_time end_time) (store_in self.now) (row_reply.Refused why)) }
        ensures while_out { MatchResult result (λ numbers. IsReadWhileOut (action.NewDestination s_id sf_type start_time end_time) self.now (row_reply.Numbers numbers)) (λ why. IsReadWhileOut (action.NewDestination s_id sf_type start_time end_time) self.now (row_reply.Refused why)) }
    {
        let holding = self.holding_of(s_id)?;
        let numbers = holding.destinations(s_id, sf_type, start_time, end_time);
        if numbers.is_empty() {
            return Err(Refusal::NoDestination);
        }
        Ok(numbers)
    }
}
