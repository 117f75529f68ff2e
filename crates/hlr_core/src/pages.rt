//! Rows of a table from a key on, in key order: as many as a caller's list has room for, so that all of them can be
//! read by one call, or by one page after another.
ghost use Rattle.std.specs.Prelude.{◌≡◌, map};
ghost use Rattle.tatp_actions.specs.Listed.{AreFilled, rows_listed, subscribers_from, access_from, facilities_from, forwardings_from};
ghost use Rattle.hlr_owners.specs.Owners.{AllHome, book_in};

use crate::register::Register;
use tatp_actions::{FromRow, KeyFields, TableRow};
use tatp_rows::{Access, Facility, Forwarding, Subscriber};

impl Register {
    /// Writes the first rows of a table whose key isn't below one into a list, in key order and each as what the list
    /// is of: as many as there are, and as the list has room for, and tells how many. Behind them the list stays as it
    /// was. Rows of loose pieces are among them. It takes no memory.
    pub fn write_rows<V: TableRow, T: FromRow<V>>(&self, from: &KeyFields, rows: &mut [T]) -> usize
        requires { AllHome self.now.owners }
        ensures { AreFilled (map T.of_row (rows_listed V.fields from.now (V.table (book_in self.now.owners)))) rows.old result rows.new }
    {
        self.owners.write_rows::<V, T>(from, rows)
    }

    /// Writes the first Subscriber rows with an s_id from one on into a list, by their s_ids: as many as there are, and
    /// as the list has room for, and tells how many. Behind them the list stays as it was. Any number may be asked
    /// from, so that a caller can go on from the last row's s_id plus one. It takes no memory.
    pub fn next_subscribers(&self, s_id: u64, rows: &mut [Subscriber]) -> usize
        requires { AllHome self.now.owners }
        ensures { AreFilled (subscribers_from s_id (book_in self.now.owners)) rows.old result rows.new }
    {
        let from = KeyFields {
            s_id,
            kind: 0,
            start_time: 0,
        };
        self.write_rows::<Subscriber, Subscriber>(&from, rows)
    }

    /// Writes the first Access_Info rows from an access on, by s_id and then ai_type, as `next_subscribers` writes its
    /// rows. A caller goes on from the last row with its ai_type plus one.
    pub fn next_accesses(&self, s_id: u64, ai_type: u64, rows: &mut [Access]) -> usize
        requires { AllHome self.now.owners }
        ensures { AreFilled (access_from s_id ai_type (book_in self.now.owners)) rows.old result rows.new }
    {
        let from = KeyFields {
            s_id,
            kind: ai_type,
            start_time: 0,
        };
        self.write_rows::<Access, Access>(&from, rows)
    }

    /// Writes the first Special_Facility rows from a facility on, by s_id and then sf_type, as `next_subscribers`
    /// writes its rows. A caller goes on from the last row with its sf_type plus one.
    pub fn next_facilities(&self, s_id: u64, sf_type: u64, rows: &mut [Facility]) -> usize
        requires { AllHome self.now.owners }
        ensures { AreFilled (facilities_from s_id sf_type (book_in self.now.owners)) rows.old result rows.new }
    {
        let from = KeyFields {
            s_id,
            kind: sf_type,
            start_time: 0,
        };
        self.write_rows::<Facility, Facility>(&from, rows)
    }

    /// Writes the first Call_Forwarding rows from a forwarding on, by s_id, then sf_type, then start_time, as
    /// `next_subscribers` writes its rows. A caller goes on from the last row with its start_time plus one.
    pub fn next_forwardings(
        &self,
        s_id: u64,
        sf_type: u64,
        start_time: u64,
        rows: &mut [Forwarding],
    ) -> usize
        requires { AllHome self.now.owners }
        ensures { AreFilled (forwardings_from s_id sf_type start_time (book_in self.now.owners)) rows.old result rows.new }
    {
        let from = KeyFields {
            s_id,
            kind: sf_type,
            start_time,
        };
        self.write_rows::<Forwarding, Forwarding>(&from, rows)
    }

    /// Gives the width of a zone, 1..=524,288.
    pub fn width(&self) -> u32
        ensures { result ≡ self.now.width }
    {
        self.owners.width()
    }
}
