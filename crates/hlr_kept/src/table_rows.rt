//! The rows of the four tables, as the lines of a snapshot need them.
ghost use Rattle.std.specs.Prelude.{◌≡◌, ◌<◌, ℕ, List, true, IsSome};
ghost use Rattle.tatp_rows.specs.Keys.{subscriber_key};
ghost use Rattle.tatp_rows.specs.Ordered.{IsOrderedBy};
ghost use Rattle.tatp_rows.specs.Rows.{SubscriberRow};
ghost use Rattle.tatp_actions.specs.Book.{subscriber_at};
ghost use Rattle.edit_lines.specs.Lines.{is_change};
ghost use Rattle.hlr_owners.specs.Owners.{AllHome, book_in};
ghost use Rattle.hlr_core.specs.declared.event.Event.{Event as Events};
ghost use Rattle.hlr_core.specs.declared.event.Event.TheVariants as event;
ghost use Rattle.hlr_kept.specs.Draft.{behind};
ghost use Rattle.hlr_kept.specs.Snapshot.{insertion, number_of};

use hlr_core::{
    Access, Event, Facility, Forwarding, KeyFields, Number, Register, Subscriber, TableRow,
};

/// A row whose line a snapshot has.
pub(crate) trait SnapshotRow: TableRow + Default {
    /// The event that adds it, beside these subscribers.
    ghost event: { List SubscriberRow → Self → Events };

    /// Makes the event that adds it.
    fn to_event(&self, register: &Register) -> Event
        requires home { AllHome register.now.owners }
        requires ordered { IsOrderedBy subscriber_key (book_in register.now.owners).subscribers }
        requires known { IsSome (subscriber_at (book_in register.now.owners) (Self.TableRow.fields self.now).s_id) }
        ensures event { result ≡ event (book_in register.now.owners).subscribers self.now }
        ensures change { is_change result ≡ true };

    /// Returns the first key behind that of the row.
    fn next_key(&self) -> KeyFields
        ensures { result ≡ behind (Self.TableRow.fields self.now) };
}

/// Returns the first key behind another one.
fn key_behind(s_id: u32, kind: u8, start_time: u8) -> KeyFields
    ensures { result ≡ behind (record { s_id = s_id; kind = kind; start_time = start_time }) }
{
    KeyFields {
        s_id: u64::from(s_id),
        kind: u64::from(kind),
        start_time: u64::from(start_time) + 1,
    }
}

/// Returns the number of a subscriber who is there.
fn number_of(register: &Register, s_id: u32) -> Number
    requires home { AllHome register.now.owners }
    requires ordered { IsOrderedBy subscriber_key (book_in register.now.owners).subscribers }
    requires known { IsSome (subscriber_at (book_in register.now.owners) s_id) }
    ensures { result ≡ number_of (book_in register.now.owners).subscribers s_id }
{
    match register.next_subscriber(u64::from(s_id)) {
        Some(row) => row.sub_nbr(),
        None => Number::default(),
    }
}

impl SnapshotRow for Subscriber {
    ghost event = { λ subscribers row. event.AddSubscriber row };

    fn to_event(&self, _register: &Register) -> Event {
        Event::AddSubscriber(*self)
    }

    fn next_key(&self) -> KeyFields {
        key_behind(self.s_id(), 0, 0)
    }
}

impl SnapshotRow for Access {
    ghost event = { λ subscribers row. event.AddAccess row };

    fn to_event(&self, _register: &Register) -> Event {
        Event::AddAccess(*self)
    }

    fn next_key(&self) -> KeyFields {
        key_behind(self.s_id(), self.ai_type(), 0)
    }
}

impl SnapshotRow for Facility {
    ghost event = { λ subscribers row. event.AddFacility row };

    fn to_event(&self, _register: &Register) -> Event {
        Event::AddFacility(*self)
    }

    fn next_key(&self) -> KeyFields {
        key_behind(self.s_id(), self.sf_type(), 0)
    }
}

impl SnapshotRow for Forwarding {
    ghost event = { insertion };

    fn to_event(&self, register: &Register) -> Event {
        Event::InsertForwarding {
            sub_nbr: number_of(register, self.s_id()),
            sf_type: u64::from(self.sf_type()),
            start_time: u64::from(self.start_time()),
            end_time: u64::from(self.end_time()),
            numberx: self.numberx(),
        }
    }

    fn next_key(&self) -> KeyFields {
        key_behind(self.s_id(), self.sf_type(), self.start_time())
    }
}
