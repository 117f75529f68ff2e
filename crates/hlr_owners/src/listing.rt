//! The reads that no action makes, for callers who write all rows out: a facility and a forwarding by key, and the next
//! subscriber.
ghost use Rattle.std.specs.Prelude.{◌≡◌, ◌+◌, List, true, option_copied};
ghost use Rattle.tatp_rows.specs.declared.ranges.TheConstants.{LAST_SUBSCRIBER};
ghost use Rattle.tatp_actions.specs.Book.{IsWithin, first_subscriber};
ghost use Rattle.holding.specs.Held.{HoldingState};
ghost use Rattle.hlr_owners.specs.WhileOut.{MayBecome, store_with};
ghost use Rattle.hlr_owners.specs.Read.{facility_answer, forwarding_answer};
ghost use Rattle.hlr_owners.specs.Owners.{AllHome, IsHomeFor, book_in, is_home, state_of, store_in};

use crate::owners::Owners;
use crate::part_owner::RegionOwner;
use tatp_rows::{Facility, Forwarding, Refusal, Subscriber};

/// Returns the first Subscriber row of an owner whose s_id is this one or higher.
fn first_at(owner: &RegionOwner, s_id: u64) -> Option<&Subscriber>
    requires { is_home owner.now ≡ true }
    ensures { option_copied result ≡ first_subscriber s_id (state_of owner.now).part.book.subscribers }
{
    match owner {
        RegionOwner::Part(part_owner) => part_owner.holding().first_sub_from(s_id),
        RegionOwner::Piece(piece) => piece.first_sub_from(s_id),
    }
}

/// Returns the first such row of all owners.
fn first_in(owners: &[RegionOwner], s_id: u64) -> Option<&Subscriber>
    requires { AllHome owners.now }
    ensures { option_copied result ≡ first_subscriber s_id (book_in owners.now).subscribers }
{
    for owner in owners {
        if let Some(row) = first_at(owner, s_id) {
            return Some(row);
        }
    }
    None
}

impl Owners {
    /// Returns the Special_Facility row of a subscriber's facility. Its refusals, in order, are `Moving` and
    /// `NoFacility`. It takes no memory.
    pub fn facility(&self, s_id: u32, sf_type: u8) -> Result<Facility, Refusal>
        requires subscriber { IsWithin 1 (LAST_SUBSCRIBER + 1) s_id }
        requires home { IsHomeFor s_id self.now }
        ensures value { result ≡ facility_answer s_id sf_type (store_in self.now) }
        ensures while_out { (holdings : List HoldingState) → MayBecome self.now.owners holdings → result ≡ facility_answer s_id sf_type (store_with self.now holdings) }
    {
        let holding = self.holding_of(s_id)?;
        match holding.lend_facility(s_id, sf_type) {
            Some(row) => Ok(row),
            None => Err(Refusal::NoFacility),
        }
    }

    /// Returns the Call_Forwarding row of a facility that starts at an hour. Its refusals, in order, are `Moving` and
    /// `NoForwarding`. It takes no memory.
    pub fn forwarding(&self, s_id: u32, sf_type: u8, hour: u8) -> Result<Forwarding, Refusal>
        requires subscriber { IsWithin 1 (LAST_SUBSCRIBER + 1) s_id }
        requires home { IsHomeFor s_id self.now }
        ensures value { result ≡ forwarding_answer s_id sf_type hour (store_in self.now) }
        ensures while_out { (holdings : List HoldingState) → MayBecome self.now.owners holdings → result ≡ forwarding_answer s_id sf_type hour (store_with self.now holdings) }
    {
        let holding = self.holding_of(s_id)?;
        match holding.lend_forwarding(s_id, sf_type, hour) {
            Some(row) => Ok(row),
            None => Err(Refusal::NoForwarding),
        }
    }

    /// Lends the first Subscriber row whose s_id is this one or higher, or returns `None` if there is none. It takes no
    /// memory.
    pub fn first_sub_from(&self, s_id: u64) -> Option<&Subscriber>
        requires { AllHome self.now.owners }
        ensures { option_copied result ≡ first_subscriber s_id (book_in self.now.owners).subscribers }
    {
        first_in(&self.owners, s_id)
    }
}
