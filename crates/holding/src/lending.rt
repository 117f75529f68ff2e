//! The rows of a holding's part, read without a question that counts.
ghost use Rattle.std.specs.Prelude.{◌≡◌, option_copied};
ghost use Rattle.tatp_actions.specs.Action.{destinations};
ghost use Rattle.tatp_actions.specs.Book.{subscriber_at, access_at, facility_at, forwarding_at};

use crate::holding::Holding;
use arrayvec::ArrayVec;
use tatp_rows::{Access, Facility, Forwarding, Number, Subscriber};

impl Holding {
    /// Lends the Subscriber row of a subscriber, or returns `None` if there is none.
    pub fn lend_subscriber(&self, s_id: u32) -> Option<&Subscriber>
        ensures { option_copied result ≡ subscriber_at self.now.part.book s_id }
    {
        self.part.lend_subscriber(s_id)
    }

    /// Returns the Access_Info row of a subscriber's access, or `None` if there is none.
    pub fn lend_access(&self, s_id: u32, ai_type: u8) -> Option<Access>
        ensures { result ≡ access_at self.now.part.book s_id ai_type }
    {
        self.part.lend_access(s_id, ai_type)
    }

    /// Returns the Special_Facility row of a subscriber's facility, or `None` if there is none.
    pub fn lend_facility(&self, s_id: u32, sf_type: u8) -> Option<Facility>
        ensures { result ≡ facility_at self.now.part.book s_id sf_type }
    {
        self.part.lend_facility(s_id, sf_type)
    }

    /// Returns the Call_Forwarding row of a facility that starts at an hour, or `None` if there is none.
    pub fn lend_forwarding(&self, s_id: u32, sf_type: u8, hour: u8) -> Option<Forwarding>
        ensures { result ≡ forwarding_at self.now.part.book s_id sf_type hour }
    {
        self.part.lend_forwarding(s_id, sf_type, hour)
    }

    /// Returns the numbers of the forwardings of an active facility that start by one hour and end after another, in
    /// the order of their start times. There are at most three, and none if the facility isn't active.
    pub fn destinations(
        &self,
        s_id: u32,
        sf_type: u8,
        start_time: u8,
        end_time: u8,
    ) -> ArrayVec<Number, 3>
        ensures { result.items ≡ destinations self.now.part.book s_id sf_type start_time end_time }
    {
        self.part.destinations(s_id, sf_type, start_time, end_time)
    }
}
