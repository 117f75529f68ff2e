//! The calls that reach the rows of a part by their keys. Each asks the rows once, except that a call which changes a
//! row where it lies may ask twice. All of them keep the rules of the part.
ghost use Rattle.std.specs.Prelude.{◌≡◌, ◌+◌, ◌≤◌, IfSome, IsSome, is_some};
ghost use Rattle.tatp_actions.specs.Book.{IsWithin, has_active, subscriber_at, access_at, facility_at, forwarding_at, more_subscribers, more_access, more_facilities, more_forwardings, without_forwarding};
ghost use Rattle.tatp_actions.specs.Part.{IsPart};
ghost use Rattle.tatp_actions.specs.Tables.{once_more};
ghost use Rattle.tatp_actions.specs.Inside.{KeepsSubscriber, KeepsFacility, asked_once, changed_once, changed_to, subscriber_revised, facility_revised, IsAdded};

use crate::destinations::is_active;
use crate::part::Part;
use crate::rows::Rows;
use mr_node::Revise;
use tatp_rows::{Access, Facility, Forwarding, Refusal, Subscriber, row_key, subscriber_key};

impl<R: Rows> Part<R> {
    /// Returns the Subscriber row of a subscriber.
    pub(crate) fn subscriber(&mut self, s_id: u32) -> Option<Subscriber>
        ensures found { result ≡ subscriber_at self.old.book s_id }
        ensures kept { self.new ≡ asked_once self.old }
        ensures rules { IsPart self.old }
    {
        self.rows.get_s(subscriber_key(s_id)).copied()
    }

    /// Returns whether there is a Subscriber row of a subscriber.
    pub(crate) fn has_subscriber(&mut self, s_id: u32) -> bool
        ensures value { result ≡ is_some (subscriber_at self.old.book s_id) }
        ensures kept { self.new ≡ asked_once self.old }
        ensures rules { IsPart self.old }
    {
        self.rows.get_s(subscriber_key(s_id)).is_some()
    }

    /// Returns the Access_Info row of a subscriber's access.
    pub(crate) fn access(&mut self, s_id: u32, ai_type: u8) -> Option<Access>
        ensures found { result ≡ access_at self.old.book s_id ai_type }
        ensures kept { self.new ≡ asked_once self.old }
        ensures rules { IsPart self.old }
    {
        self.rows.get_a(row_key(s_id, ai_type, 0))
    }

    /// Returns the Special_Facility row of a subscriber's facility.
    pub(crate) fn facility(&mut self, s_id: u32, sf_type: u8) -> Option<Facility>
        ensures found { result ≡ facility_at self.old.book s_id sf_type }
        ensures kept { self.new ≡ asked_once self.old }
        ensures rules { IsPart self.old }
    {
        self.rows.get_f(row_key(s_id, sf_type, 0))
    }

    /// Returns whether a subscriber has an active facility of a type.
    pub(crate) fn has_active(&mut self, s_id: u32, sf_type: u8) -> bool
        ensures value { result ≡ has_active (facility_at self.old.book s_id sf_type) }
        ensures kept { self.new ≡ asked_once self.old }
        ensures rules { IsPart self.old }
    {
        is_active(self.facility(s_id, sf_type))
    }

    /// Returns the Call_Forwarding row of a facility that starts at an hour.
    pub(crate) fn forwarding(
        &mut self,
        s_id: u32,
        sf_type: u8,
        start_time: u8,
    ) -> Option<Forwarding>
        ensures found { result ≡ forwarding_at self.old.book s_id sf_type start_time }
        ensures kept { self.new ≡ asked_once self.old }
        ensures rules { IsPart self.old }
    {
        self.rows.get_c(row_key(s_id, sf_type, start_time))
    }

    /// Changes the Subscriber row of a subscriber where it lies, into one of the same subscriber. It returns false if
    /// there is none.
    #[inline(always)]
    pub(crate) fn revise_subscriber<E: Revise<Subscriber>>(
        &mut self,
        s_id: u32,
        revision: &mut E,
    ) -> bool
        requires { KeepsSubscriber (E.revised revision.old) }
        ensures found { result ≡ is_some (subscriber_at self.old.book s_id) }
        ensures spent { IfSome (subscriber_at self.old.book s_id) (λ row. revision.new ≡ E.spent revision.old row) }
        ensures kept { self.new ≡ changed_to self.old (subscriber_revised self.old.book s_id (E.revised revision.old))
            self.new }
        ensures counted { once_more self.old.asked ≤ self.new.asked }
        ensures asked { self.new.asked ≤ self.old.asked + 2 }
        ensures rules { IsPart self.old }
    {
        self.rows.revise_s(subscriber_key(s_id), revision)
    }

    /// Changes the Special_Facility row of a facility where it lies, into one of the same facility. It returns false if
    /// there is none.
    #[inline(always)]
    pub(crate) fn revise_facility<E: Revise<Facility>>(
        &mut self,
        s_id: u32,
        sf_type: u8,
        revision: &mut E,
    ) -> bool
        requires { KeepsFacility (E.revised revision.old) }
        ensures found { result ≡ is_some (facility_at self.old.book s_id sf_type) }
        ensures spent { IfSome (facility_at self.old.book s_id sf_type) (λ row. revision.new ≡ E.spent revision.old row) }
        ensures kept { self.new ≡ changed_to self.old (facility_revised self.old.book s_id sf_type (E.revised revision.old))
            self.new }
        ensures counted { once_more self.old.asked ≤ self.new.asked }
        ensures asked { self.new.asked ≤ self.old.asked + 2 }
        ensures rules { IsPart self.old }
    {
        self.rows.revise_f(row_key(s_id, sf_type, 0), revision)
    }

    /// Adds a Subscriber row in the part's range. Its refusals, in order, are `Exists` and `Memory`.
    pub(crate) fn more_subscribers(&mut self, row: Subscriber) -> Result<(), Refusal>
        requires { IsWithin self.old.lo self.old.hi row.s_id }
        ensures added { IsAdded (is_some (subscriber_at self.old.book row.s_id)) self.old.book (more_subscribers self.old.book row) self.new.book result }
        ensures kept { self.new ≡ changed_once self.old self.new.book self.new.heights }
    {
        if let Err(back) = self.rows.insert_s(row.key(), row) {
            return Err(back.why);
        }
        Ok(())
    }

    /// Adds an Access_Info row of a subscriber. Its refusals, in order, are `Exists` and `Memory`.
    pub(crate) fn more_access(&mut self, row: Access) -> Result<(), Refusal>
        requires { IsSome (subscriber_at self.old.book row.s_id) }
        ensures added { IsAdded (is_some (access_at self.old.book row.s_id row.ai_type)) self.old.book (more_access self.old.book row) self.new.book result }
        ensures kept { self.new ≡ changed_once self.old self.new.book self.new.heights }
    {
        // For the prover: a row is in range, as its reader says.
        let _s_id = row.s_id();
        if let Err(back) = self.rows.insert_a(row) {
            return Err(back.why);
        }
        Ok(())
    }

    /// Adds a Special_Facility row of a subscriber. Its refusals, in order, are `Exists` and `Memory`.
    pub(crate) fn more_facilities(&mut self, row: Facility) -> Result<(), Refusal>
        requires { IsSome (subscriber_at self.old.book row.s_id) }
        ensures added { IsAdded (is_some (facility_at self.old.book row.s_id row.sf_type)) self.old.book (more_facilities self.old.book row) self.new.book result }
        ensures kept { self.new ≡ changed_once self.old self.new.book self.new.heights }
    {
        // For the prover: a row is in range, as its reader says.
        let _s_id = row.s_id();
        if let Err(back) = self.rows.insert_f(row) {
            return Err(back.why);
        }
        Ok(())
    }

    /// Adds a Call_Forwarding row of a facility. Its refusals, in order, are `Exists` and `Memory`.
    pub(crate) fn more_forwardings(&mut self, row: Forwarding) -> Result<(), Refusal>
        requires { IsSome (facility_at self.old.book row.s_id row.sf_type) }
        ensures added { IsAdded (is_some (forwarding_at self.old.book row.s_id row.sf_type row.start_time)) self.old.book (more_forwardings self.old.book row) self.new.book result }
        ensures kept { self.new ≡ changed_once self.old self.new.book self.new.heights }
    {
        // For the prover: a row is in range, as its reader says.
        let _s_id = row.s_id();
        if let Err(back) = self.rows.insert_c(row) {
            return Err(back.why);
        }
        Ok(())
    }

    /// Removes the Call_Forwarding row of a facility that starts at an hour, if there is one.
    pub(crate) fn remove_forwarding(
        &mut self,
        s_id: u32,
        sf_type: u8,
        start_time: u8,
    ) -> Option<Forwarding>
        ensures found { result ≡ forwarding_at self.old.book s_id sf_type start_time }
        ensures kept { self.new ≡ changed_once self.old (without_forwarding self.old.book s_id sf_type start_time)
            self.new.heights }
        ensures rules { IsPart self.old }
    {
        self.rows.remove_c(row_key(s_id, sf_type, start_time))
    }
}
