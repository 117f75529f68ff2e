//! Reads of rows by key and of the next subscriber, for callers who write all rows out. With `lend_access` they reach
//! every row, if no piece is loose.
ghost use Rattle.std.specs.Prelude.{◌≡◌, List};
ghost use Rattle.holding.specs.Held.{HoldingState};
ghost use Rattle.tatp_actions.specs.Book.{first_subscriber};
ghost use Rattle.hlr_owners.specs.Out.{with_outs};
ghost use Rattle.hlr_owners.specs.Owners.{AllHome, IsHomeFor, book_in, store_in};
ghost use Rattle.hlr_core.specs.WhileOut.{register_with};
ghost use Rattle.hlr_core.specs.Later.{AreLater};
ghost use Rattle.hlr_core.specs.Rows.{bearer_answer, facility_read, forwarding_read};

use crate::register::Register;
use tatp_rows::{
    Facility, Forwarding, LAST_SUBSCRIBER, Number, Refusal, Subscriber, byte_in_range, in_range,
    is_start_time,
};

impl Register {
    /// Returns the Special_Facility row of a subscriber's facility. Its refusals, in order, are `Field` if s_id isn't
    /// in 1..=16,777,216 or sf_type isn't in 1..=4, `Moving`, and `NoFacility`. It takes no memory.
    pub fn facility_data(&self, s_id: u64, sf_type: u64) -> Result<Facility, Refusal>
        requires { IsHomeFor s_id self.now }
        ensures value { result ≡ facility_read s_id sf_type (store_in self.now) }
        ensures while_out { (holdings : List HoldingState) → AreLater self.now.owners (with_outs self.now.owners holdings) → result ≡ facility_read s_id sf_type (store_in (register_with self.now holdings)) }
    {
        let s_id = in_range(s_id, LAST_SUBSCRIBER)?;
        let sf_type = byte_in_range(sf_type, 4)?;
        self.owners.facility(s_id, sf_type)
    }

    /// Returns the Call_Forwarding row of a facility that starts at an hour. Its refusals, in order, are `Field` if
    /// s_id isn't in 1..=16,777,216, sf_type isn't in 1..=4 or start_time isn't 0, 8 or 16, `Moving`, and
    /// `NoForwarding`. It takes no memory.
    pub fn forwarding(
        &self,
        s_id: u64,
        sf_type: u64,
        start_time: u64,
    ) -> Result<Forwarding, Refusal>
        requires { IsHomeFor s_id self.now }
        ensures value { result ≡ forwarding_read s_id sf_type start_time (store_in self.now) }
        ensures while_out { (holdings : List HoldingState) → AreLater self.now.owners (with_outs self.now.owners holdings) → result ≡ forwarding_read s_id sf_type start_time (store_in (register_with self.now holdings)) }
    {
        let s_id = in_range(s_id, LAST_SUBSCRIBER)?;
        let sf_type = byte_in_range(sf_type, 4)?;
        if !is_start_time(start_time) {
            return Err(Refusal::Field);
        }
        self.owners.forwarding(s_id, sf_type, start_time as u8)
    }

    /// Finds in the index the s_id, 1..=16,777,216, of the subscriber who has a number, or returns `NoNumber`. It takes
    /// no memory, and it reads no row, so parts may be lent.
    pub fn find(&self, sub_nbr: Number) -> Result<u32, Refusal>
        ensures value { result ≡ bearer_answer sub_nbr (store_in self.now) }
        ensures while_out { (holdings : List HoldingState) → AreLater self.now.owners (with_outs self.now.owners holdings) → result ≡ bearer_answer sub_nbr (store_in (register_with self.now holdings)) }
    {
        self.bearer(sub_nbr).ok_or(Refusal::NoNumber)
    }

    /// Returns the first Subscriber row whose s_id is `from` or higher, in a part or in a loose piece, or `None` if
    /// there is none. It takes no memory.
    pub fn next_subscriber(&self, from: u64) -> Option<Subscriber>
        requires { AllHome self.now.owners }
        ensures { result ≡ first_subscriber from (book_in self.now.owners).subscribers }
    {
        self.owners.first_sub_from(from).copied()
    }
}
