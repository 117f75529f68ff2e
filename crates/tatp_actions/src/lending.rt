//! The rows of a part, read without a question that counts.
ghost use Rattle.std.specs.Prelude.{◌≡◌, option_copied};
ghost use Rattle.tatp_actions.specs.Action.{destinations};
ghost use Rattle.tatp_actions.specs.Book.{subscriber_at, access_at, facility_at, forwarding_at};

use crate::destinations::{is_active, numbers_within};
use crate::part::Part;
use crate::trees::KEY_SHIFT;
use arrayvec::ArrayVec;
use tatp_rows::{Access, Facility, Forwarding, Number, Subscriber, row_key, subscriber_key};

impl Part {
    /// Lends the Subscriber row of a subscriber, or returns `None` if there is none.
    pub fn lend_subscriber(&self, s_id: u32) -> Option<&Subscriber>
        ensures { option_copied result ≡ subscriber_at self.now.book s_id }
    {
        self.rows
            .subscribers
            .get_by_guess(subscriber_key(s_id), KEY_SHIFT)
    }

    /// Returns the Access_Info row of a subscriber's access, or `None` if there is none.
    pub fn lend_access(&self, s_id: u32, ai_type: u8) -> Option<Access>
        ensures { result ≡ access_at self.now.book s_id ai_type }
    {
        self.rows
            .access
            .get_by_guess(row_key(s_id, ai_type, 0), KEY_SHIFT)
    }

    /// Returns the numbers of the forwardings of an active facility that start by one hour and end after another, in
    /// the order of their start times. There are at most three, and none if the facility isn't active. It looks at one
    /// group of facilities, and at one of forwardings if the facility is active.
    pub fn destinations(
        &self,
        s_id: u32,
        sf_type: u8,
        start_time: u8,
        end_time: u8,
    ) -> ArrayVec<Number, 3>
        ensures { result.items ≡ destinations self.now.book s_id sf_type start_time end_time }
    {
        let key = row_key(s_id, sf_type, 0);
        if !is_active(self.rows.facilities.get_by_guess(key, KEY_SHIFT)) {
            return ArrayVec::new();
        }
        numbers_within(self.rows.forwardings.group(key), start_time, end_time)
    }

    /// Returns the Special_Facility row of a subscriber's facility, or `None` if there is none.
    #[inline(always)]
    pub fn lend_facility(&self, s_id: u32, sf_type: u8) -> Option<Facility>
        ensures { result ≡ facility_at self.now.book s_id sf_type }
    {
        self.rows
            .facilities
            .get_by_guess(row_key(s_id, sf_type, 0), KEY_SHIFT)
    }

    /// Returns the Call_Forwarding row of a facility that starts at an hour, or `None` if there is none.
    #[inline(always)]
    pub fn lend_forwarding(&self, s_id: u32, sf_type: u8, hour: u8) -> Option<Forwarding>
        ensures { result ≡ forwarding_at self.now.book s_id sf_type hour }
    {
        self.rows.forwardings.get(row_key(s_id, sf_type, hour))
    }
}
